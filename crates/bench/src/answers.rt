//! Decoding of answers to reset, whole and octet by octet.

use crate::work::{Watch, Work};
use atr_core::AtrReader;

/// How often each answer is decoded.
const TIMES: usize = 10_000;

/// Answers with protocol 1: one without historical bytes, and one with.
const ANSWERS: [&[u8]; 2] = [
    &[0x3B, 0x80, 0x81, 0x31, 0x20, 0x45, 0x55],
    &[
        0x3B, 0xDB, 0x96, 0x00, 0x80, 0xB1, 0xFE, 0x45, 0x1F, 0x83, 0x00, 0x31, 0xC0, 0x64, 0xC7,
        0xFC, 0x10, 0x00, 0x01, 0x90, 0x00, 0x74,
    ],
];

/// Decodes each answer whole, and equally often octet by octet.
pub(crate) fn decode_each(rt: &HostRuntime, watch: &mut Watch) {
    for &octets in &ANSWERS {
        decode(rt, watch, octets);
    }
}

fn decode(rt: &HostRuntime, watch: &mut Watch, octets: &[u8]) {
    watch.start(rt);
    let times = is_decoded(octets).then_some(TIMES);
    watch.tell(rt, work_of("answer to reset decoded", octets), times);
    let times = is_read(octets).then_some(TIMES);
    watch.tell(
        rt,
        work_of("answer to reset read octet by octet", octets),
        times,
    );
}

/// Returns the work on an answer.
fn work_of(name: &'static str, octets: &[u8]) -> Work {
    Work {
        name,
        octets: octets.len(),
        unit: "times",
    }
}

/// Whether an answer is decoded each time, and is short each time without its last octet.
fn is_decoded(octets: &[u8]) -> bool {
    for turn in 0..TIMES {
        let cut = octets.len().saturating_sub(turn % 2);
        if atr_core::decode(&octets[..cut]).is_ok() != (turn % 2 == 0) {
            return false;
        }
    }
    true
}

/// Whether a reader that is fed octet by octet has the whole answer each time.
fn is_read(octets: &[u8]) -> bool {
    let mut reader = AtrReader::new();
    for _ in 0..TIMES {
        if !is_whole(&mut reader, octets) {
            return false;
        }
    }
    true
}

/// Whether a reader that is fed octet by octet has the whole answer then.
fn is_whole(reader: &mut AtrReader, octets: &[u8]) -> bool {
    reader.reset();
    for octet in octets {
        if reader.feed(&[*octet]).is_err() {
            return false;
        }
    }
    reader.value().is_some()
}
