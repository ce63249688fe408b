//! Messages as chains of I-blocks (ISO/IEC 7816-3, clause 11.6).

ghost use Rattle.std.specs.Prelude.{◌≡◌, ◌≢◌, ◌≤◌, ◌<◌, ◌+◌, ◌++◌, length, take, drop, IfSome, IfNone};
ghost use Rattle.block_core.specs.Block.{IsBlock};
ghost use Rattle.chain_core.specs.Chain.{longest_message, spelling};
ghost use Rattle.chain_core.specs.Cut.{cut_of, leading_block};
ghost use Rattle.c_lent.specs.Verdict.{Puts, put_verdict, put_into, wrong_argument};
ghost use Rattle.c_lent.specs.Number.{number_of};
ghost use Rattle.octet_core.specs.Sizes.{IsReserved};
ghost use Rattle.c_lent.specs.Chain.{chain_reason};

use crate::block::put_block;
use crate::number::number_of;
use crate::verdict::{Numbered, Verdict};
use block_core::{BlockRef, Number, encode};
use chain_core::{ChainReason, LONGEST_MESSAGE, block_at, cut};
use octet_core::is_reserved;

/// Encodes the first block of the chain that carries the message from offset `start` on.
pub fn chain_block(message: &[u8], start: usize, ifs: u8, ns: u8, out: &mut [u8]) -> Verdict
    ensures written { (IsReserved ifs → ⊥) → start ≤ length message.now →
        IfSome (number_of ns) (λ number.
        Puts (IsBlock 254 (leading_block ifs number (drop start message.now))) out.old out.new result) }
    ensures size { IsReserved ifs → result ≡ wrong_argument 0 }
    ensures number { IfNone (number_of ns) (result ≡ wrong_argument 0) }
    ensures start { length message.now < start → result ≡ wrong_argument 0 }
    ensures stays { result.status ≢ 0 → out.new ≡ out.old }
{
    if is_reserved(ifs) || start > message.len() {
        return Verdict::argument();
    }
    let Some(number) = number_of(ns) else {
        return Verdict::argument();
    };
    let block = block_at(message, start, ifs, number);
    put_block(BlockRef::new(block.nad(), block.pcb(), block.inf()), out)
}

/// Encodes all blocks of the chain that carries a message of at most 131,072 octets. Each field except the last has
/// `ifs` octets. The first block has the number `ns`.
pub fn chain_cut(message: &[u8], ifs: u8, ns: u8, out: &mut [u8]) -> Verdict
    ensures written { (IsReserved ifs → ⊥) → length message.now ≤ longest_message →
        IfSome (number_of ns) (λ number.
        (result ≡ put_verdict (spelling number (cut_of ifs message.now)) out.old)
        × (out.new ≡ put_into (spelling number (cut_of ifs message.now)) out.old)) }
    ensures size { IsReserved ifs → result ≡ wrong_argument 0 }
    ensures number { IfNone (number_of ns) (result ≡ wrong_argument 0) }
    ensures long { longest_message < length message.now → result ≡ wrong_argument 0 }
    ensures stays { result.status ≢ 0 → out.new ≡ out.old }
{
    if is_reserved(ifs) || message.len() > LONGEST_MESSAGE {
        return Verdict::argument();
    }
    let Some(number) = number_of(ns) else {
        return Verdict::argument();
    };
    let room = chain_len(message, ifs, number);
    if room > out.len() {
        return Verdict::lacking(room);
    }
    put_chain(message, ifs, number, out);
    Verdict::ok(room)
}

/// Returns how many octets the chain has.
fn chain_len(message: &[u8], ifs: u8, number: Number) -> usize
    requires least { 1 ≤ ifs }
    requires most { ifs ≤ 254 }
    requires limit { length message.now ≤ longest_message }
    ensures { result ≡ length (spelling number (cut_of ifs message.now)) }
{
    let mut count = 0;
    for block in cut(message, ifs, number) {
        let octets = encode(&block);
        count += octets.len();
    }
    count
}

/// Writes the chain to the front of a buffer that has room for it.
fn put_chain(message: &[u8], ifs: u8, number: Number, out: &mut [u8])
    requires least { 1 ≤ ifs }
    requires most { ifs ≤ 254 }
    requires limit { length message.now ≤ longest_message }
    requires room { length (spelling number (cut_of ifs message.now)) ≤ length out.old }
    ensures { out.new ≡ spelling number (cut_of ifs message.now)
        ++ drop (length (spelling number (cut_of ifs message.now))) out.old }
{
    let mut count = 0;
    for block in cut(message, ifs, number) {
        let octets = encode(&block);
        put_at(octets.as_slice(), count, out);
        count += octets.len();
    }
}

/// Copies octets to an offset of a buffer.
fn put_at(octets: &[u8], place: usize, out: &mut [u8])
    requires { place + length octets.now ≤ length out.old }
    ensures { out.new ≡ take place out.old
        ++ (octets.now ++ drop (place + length octets.now) out.old) }
{
    out[place..place + octets.len()].copy_from_slice(octets);
}

impl Numbered for ChainReason {
    ghost number = { chain_reason };

    fn number(self) -> u8 {
        match self {
            ChainReason::BadNad => 1,
            ChainReason::BadPcb => 2,
            ChainReason::NotInfo => 3,
            ChainReason::BadSequence => 4,
            ChainReason::TooManyBlocks => 5,
            ChainReason::BadLen => 6,
            ChainReason::OverIfs => 7,
            ChainReason::TooLong => 8,
            ChainReason::BadLrc => 9,
        }
    }
}
