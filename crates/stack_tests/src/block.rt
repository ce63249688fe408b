//! A test of what blocks and their reader show.

use block_core::{Block, BlockReader, BlockRef, Number, encode};
use std::alloc::Global;
use test_support::debugs;

const FIELD: [u8; 5] = [0x00, 0x20, 0x00, 0x80, 0x12];

/// The first six octets of an I-block with this field.
const FRONT: [u8; 6] = [0x00, 0x60, 0x05, 0x00, 0x20, 0x00];

/// Whether a block, and one that borrows its field, are printed so.
fn blocks_debug(alloc: Global, block: &Block, lent: &BlockRef<'_>) -> bool {
    let seen = "Block { nad: 0, pcb: Info { number: One, more: true }, inf_octets: 5 }";
    let of_lent = "BlockRef { nad: 0, pcb: Info { number: One, more: true }, inf_octets: 5 }";
    debugs(alloc, block, seen) && debugs(alloc, lent, of_lent)
}

/// Whether blocks with this field print none of its octets.
fn hide(alloc: Global, inf: &[u8]) -> bool {
    let Some(block) = Block::info(0, Number::One, true, inf) else {
        return false;
    };
    match BlockRef::decode(encode(&block).as_slice(), 254) {
        Ok((lent, _)) => blocks_debug(alloc, &block, &lent),
        Err(_) => false,
    }
}

/// Whether a reader of the first octets prints none of them.
fn reader_hides(alloc: Global) -> bool {
    let mut reader = BlockReader::new(254);
    let _ = reader.feed(&FRONT);
    let seen = "BlockReader { ifs: 254, taken: 6, \
        stage: Rest { pcb: Info { number: One, more: true }, end: 8 } }";
    debugs(alloc, &reader, seen)
}

#[test]
fn debug_shows_no_octet(rt: HostRuntime) {
    assert!(rt; hide(rt.alloc(), &FIELD));
    assert!(rt; reader_hides(rt.alloc()));
}
