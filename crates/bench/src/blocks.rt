//! Decoding of blocks.

use crate::work::{Watch, Work};
use block_core::{Block, BlockRef, Number, decode, encode};
use std::io::ErrorKind;

/// How often a block is decoded for each of the 256 node addresses.
const ROUNDS: usize = 40;

/// Decodes blocks with information fields of 5 and of 254 octets, with a copied and with a borrowed
/// field.
pub(crate) fn decode_each(rt: &HostRuntime, watch: &mut Watch) {
    decode_with(rt, watch, &[0xA5; 5]);
    decode_with(rt, watch, &[0xA5; 254]);
}

/// Decodes a block with this field both ways.
fn decode_with(rt: &HostRuntime, watch: &mut Watch, field: &[u8]) {
    match Block::info(0, Number::Zero, false, field) {
        Some(block) => decode_both(rt, watch, encode(&block).as_mut_slice(), field.len()),
        None => watch.stop(ErrorKind::InvalidData),
    }
}

/// Decodes a block with a field of `len` octets both ways.
fn decode_both(rt: &HostRuntime, watch: &mut Watch, octets: &mut [u8], len: usize) {
    watch.start(rt);
    let times = is_decoded(octets, len).then_some(256 * ROUNDS);
    watch.tell(rt, work_of("block decoded", octets), times);
    let times = is_lent(octets, len).then_some(256 * ROUNDS);
    watch.tell(rt, work_of("block decoded in place", octets), times);
}

/// Returns the work of decoding a block.
fn work_of(name: &'static str, octets: &[u8]) -> Work {
    Work {
        name,
        octets: octets.len(),
        unit: "times",
    }
}

/// Whether the block is decoded each time, with a field of `len` octets.
fn is_decoded(octets: &mut [u8], len: usize) -> bool {
    for _ in 0..ROUNDS {
        for nad in 0..=255u8 {
            readdress(octets, nad);
            match decode(octets, 254) {
                Ok((block, _)) if is_such(&block, nad, len) => {}
                _ => return false,
            }
        }
    }
    true
}

/// Whether the block is decoded each time with a borrowed field of `len` octets.
fn is_lent(octets: &mut [u8], len: usize) -> bool {
    for _ in 0..ROUNDS {
        for nad in 0..=255u8 {
            readdress(octets, nad);
            match BlockRef::decode(octets, 254) {
                Ok((block, _)) if is_lent_such(&block, nad, len) => {}
                _ => return false,
            }
        }
    }
    true
}

/// Whether this is the block. The function isn't inlined, so that the whole block has to be made.
#[inline(never)]
fn is_such(block: &Block, nad: u8, len: usize) -> bool {
    block.nad() == nad && block.inf().len() == len
}

/// Whether this is the block that borrows its field.
fn is_lent_such(block: &BlockRef<'_>, nad: u8, len: usize) -> bool {
    block.nad() == nad && block.inf().len() == len
}

/// Sets another node address in the block, and the LRC that fits it.
fn readdress(octets: &mut [u8], nad: u8) {
    if let [first, .., last] = octets {
        *last ^= *first ^ nad;
        *first = nad;
    }
}
