//! Tests of when two readers of answers to reset are equal, and of what they show.

use crate::helpers::octets;
use atr_core::AtrReader;
use std::alloc::Global;
use std::process::Abort;
use test_support::{debugs, same};

/// Octets of two readers, and whether the readers are equal.
const PAIRS: [(&str, &str, bool); 10] = [
    ("3B808131", "3B808131", true),
    ("3B808131", "3B808111", false),
    ("3B808131", "3B8081", false),
    ("3B808131204555", "3B808131204555", true),
    ("3B00", "3F00", false),
    ("", "", true),
    ("3B", "", false),
    // Both are refused at the first octet, for TS.
    ("00", "3D00", true),
    ("00", "", false),
    // TCK is refused at two places.
    ("3B808131204554", "3B800100", false),
];

/// Returns a reader that was fed these octets.
fn fed(octets: &[u8]) -> AtrReader {
    let mut reader = AtrReader::new();
    let _ = reader.feed(octets);
    reader
}

/// Returns a reader that was fed these octets in two pieces.
fn fed_in_two(octets: &[u8]) -> AtrReader {
    let (front, back) = octets.split_at(octets.len() / 2);
    let mut reader = fed(front);
    let _ = reader.feed(back);
    reader
}

/// Whether a reader that was fed some octets in two pieces equals one that was fed others at once.
fn feed_same(one: &[u8], other: &[u8]) -> bool {
    fed_in_two(one) == fed(other)
}

/// Whether readers of the octets in two texts are equal.
fn spell_same(rt: &impl Abort, alloc: Global, one: &str, other: &str) -> bool {
    let one = octets(rt, alloc, one);
    let other = octets(rt, alloc, other);
    feed_same(one.as_slice(), other.as_slice())
}

#[test]
fn readers_are_equal_by_octets_or_refusal(rt: HostRuntime) {
    for &(one, other, equal) in &PAIRS {
        assert!(rt;
            same(spell_same(&rt, rt.alloc(), one, other), equal),
            "{one} {other}"
        );
    }
}

#[test]
fn a_reader_shows_how_many_octets_it_took(rt: HostRuntime) {
    let reader = fed(&[0x3B, 0x80]);
    assert!(rt; debugs(rt.alloc(), &reader, "AtrReader { taken: 2, refusal: None }"));
}
