//! The note on octets that aren't a block.

ghost use Rattle.std.specs.Prelude.{◌≡◌, ◌≤◌, ◌-◌, length, take};
ghost use Rattle.octet_core.specs.Octets.{xor_of};

use crate::missing::{comes_next, front, would_be};
use block_core::{BlockReason, BlockRef};
use octet_core::{Stop, lrc};
use std::alloc::{AllocError, Global};

/// Returns the note on octets that aren't a block. If the LRC is wrong, or is all that is missing, it is what the LRC
/// must be. If more is missing, it is how many octets of the field are left, or which byte comes next. Otherwise it is
/// empty.
pub fn block_refusal_note(
    alloc: Global,
    octets: &[u8],
    stop: Stop<BlockReason>,
) -> Result<String, AllocError> {
    match stop {
        Stop::Short { .. } => rest_note(alloc, octets),
        Stop::At {
            place,
            reason: BlockReason::BadLrc,
        } => would_be(alloc, "LRC", lrc_before(octets, place)),
        Stop::At { .. } => Ok(String::new(alloc)),
    }
}

/// Returns the check octet of the octets before a place.
fn lrc_before(octets: &[u8], place: usize) -> u8
    ensures { result ≡ xor_of (take place octets.now) }
{
    lrc(front(octets, place))
}

/// Returns what comes after the first octets of a block (ISO/IEC 7816-3, 11.3.1).
fn rest_note(alloc: Global, octets: &[u8]) -> Result<String, AllocError> {
    match octets {
        [] => comes_next(alloc, "NAD"),
        [_] => comes_next(alloc, "PCB"),
        [_, _] => comes_next(alloc, "LEN"),
        [_, _, len, field @ ..] => match field_left(*len, field) {
            0 => would_be(alloc, "LRC", lrc(octets)),
            1 => String::from_str(alloc, "1 octet of INF must follow"),
            left => format!(in alloc; "{left} octets of INF must follow"),
        },
    }
}

/// Returns how many octets of a field with this length come after these.
pub fn field_left(len: u8, field: &[u8]) -> usize
    ensures { result ≡ len - length field.now }
{
    usize::from(len).saturating_sub(field.len())
}

/// Returns the note on octets that aren't a chain: that on its block that is incomplete or isn't a block.
pub fn chain_refusal_note<R: Copy>(
    alloc: Global,
    octets: &[u8],
    stop: Stop<R>,
    ifs: u8,
) -> Result<String, AllocError>
    requires least { 1 ≤ ifs }
    requires most { ifs ≤ 254 }
{
    match stop {
        Stop::Short { .. } => {
            let block = last_block(octets, ifs);
            block_refusal_note(alloc, block, Stop::Short { place: block.len() })
        }
        Stop::At { place, .. } => {
            let block = last_block(front(octets, place.saturating_add(1)), ifs);
            match BlockRef::decode(block, ifs) {
                Err(Stop::At { place, reason }) => {
                    block_refusal_note(alloc, block, Stop::At { place, reason })
                }
                _ => Ok(String::new(alloc)),
            }
        }
    }
}

/// Returns what is left after all complete blocks at the front of the octets.
fn last_block(octets: &[u8], ifs: u8) -> &[u8]
    requires least { 1 ≤ ifs }
    requires most { ifs ≤ 254 }
{
    let mut rest = octets;
    for _ in 0..octets.len() {
        match BlockRef::decode(rest, ifs) {
            Ok((_, taken)) => rest = &rest[taken.min(rest.len())..],
            Err(_) => break,
        }
    }
    rest
}
