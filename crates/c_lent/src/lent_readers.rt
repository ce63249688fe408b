//! Readers of a block and of an answer to reset that come in pieces. The caller keeps the state, which is the octets
//! that were taken. Nothing is allocated.

ghost use Rattle.std.specs.Prelude.{◌≡◌, ◌≢◌, ◌≤◌, ◌++◌, [], length, take, min};
ghost use Rattle.octet_core.specs.Grammar.{self_ended, Refuses};
ghost use Rattle.octet_core.specs.Sizes.{IsReserved};
ghost use Rattle.atr_core.specs.Atr.{IsAtr, IsReason as IsAtrReason};
ghost use Rattle.block_core.specs.Block.{IsBlock, IsReason as IsBlockReason};
ghost use Rattle.c_lent.specs.Atr.{atr_reason, IsDecoded};
ghost use Rattle.c_lent.specs.Block.{block_reason};
ghost use Rattle.c_lent.specs.Verdict.{ok_at, wrong_argument, Tells};
ghost use Rattle.c_lent.specs.LentReaders.{atr_held, block_held, Reads, AtrFed, AtrEnded, AtrGiven, BlockFed, BlockEnded, BlockGiven};

use crate::atr::{CAtr, atr_decode};
use crate::block::{CBlock, block_decode};
use crate::verdict::{OK, Verdict};
use atr_core::check;
use block_core::{BlockRef, LONGEST_BLOCK};
use octet_core::{Stop, is_reserved};

/// The length of the longest answer to reset: TS and 32 octets more (ISO/IEC 7816-3, clause 8.2.1).
pub const LONGEST_ATR: usize = 33;

/// A reader of one block. Any values of the fields are valid, except an `ifs` of 0 or 255.
#[repr(C)]
#[derive(Clone, Copy)]
pub struct CBlockReader {
    /// How many octets were taken. After a refusal they end with the refused octet.
    pub count: u32,
    /// The information size.
    pub ifs: u8,
    /// The octets that were taken. Those after them are unused.
    pub octets: [u8; LONGEST_BLOCK],
}

/// A reader of one answer to reset. Any values of the fields are valid.
#[repr(C)]
#[derive(Clone, Copy)]
pub struct CAtrReader {
    /// How many octets were taken. After a refusal they end with the refused octet.
    pub count: u32,
    /// The octets that were taken. Those after them are unused.
    pub octets: [u8; LONGEST_ATR],
}

impl CBlockReader {
    /// Returns how many octets the reader holds.
    fn held(&self) -> usize
        ensures { result ≡ min self.now.count 258 }
    {
        (self.count as usize).min(LONGEST_BLOCK)
    }

    /// Returns the octets that the reader holds.
    fn octets(&self) -> &[u8]
        ensures { result.now ≡ block_held self.now }
    {
        &self.octets[..self.held()]
    }
}

impl CAtrReader {
    /// Returns how many octets the reader holds.
    fn held(&self) -> usize
        ensures { result ≡ min self.now.count 33 }
    {
        (self.count as usize).min(LONGEST_ATR)
    }

    /// Returns the octets that the reader holds.
    fn octets(&self) -> &[u8]
        ensures { result.now ≡ atr_held self.now }
    {
        &self.octets[..self.held()]
    }
}

/// Copies as much of a piece as fits after the first octets of a buffer. Returns how many octets these are together.
fn put_after(octets: &mut [u8], held: usize, piece: &[u8]) -> usize
    requires { held ≤ length octets.old }
    ensures most { result ≤ length octets.old }
    ensures stays { length octets.new ≡ length octets.old }
    ensures put { take result octets.new
        ≡ take (length octets.old) (take held octets.old ++ piece.now) }
{
    let more = piece.len().min(octets.len() - held);
    octets[held..held + more].copy_from_slice(&piece[..more]);
    held + more
}

/// Decodes octets as a block when the reader held this many of them. Returns how many it keeps, and its verdict.
fn read_block(octets: &[u8], ifs: u8, held: usize) -> (usize, Verdict)
    requires size { IsReserved ifs → ⊥ }
    ensures { Reads (IsBlock ifs) (IsBlockReason ifs) block_reason octets.now held result.0
        result.1 }
{
    match BlockRef::decode(octets, ifs) {
        Ok((_, count)) => (count, Verdict::ok(count.saturating_sub(held))),
        Err(Stop::Short { place }) => (place, Verdict::more(place.saturating_sub(held))),
        Err(Stop::At { place, reason }) => {
            (place + 1, Verdict::stopped(Stop::At { place, reason }))
        }
    }
}

/// Checks octets as an answer to reset when the reader held this many of them. Returns how many it keeps, and its
/// verdict.
fn read_atr(octets: &[u8], held: usize) -> (usize, Verdict)
    ensures { Reads IsAtr IsAtrReason atr_reason octets.now held result.0 result.1 }
{
    match check(octets) {
        Ok(count) => (count, Verdict::ok(count.saturating_sub(held))),
        Err(Stop::Short { place }) => (place, Verdict::more(place.saturating_sub(held))),
        Err(Stop::At { place, reason }) => {
            (place + 1, Verdict::stopped(Stop::At { place, reason }))
        }
    }
}

/// Returns the verdict if there is a value, else that of a wrong argument.
fn told_whole(verdict: Verdict) -> Verdict
    ensures whole { verdict.status ≡ 0 → result ≡ verdict }
    ensures none { verdict.status ≢ 0 → result ≡ wrong_argument 0 }
{
    if verdict.status == OK {
        verdict
    } else {
        Verdict::argument()
    }
}

/// Begins a reader of one block with an information size of 1 to 254. The state may have any value before.
pub fn lent_block_reader_begin(state: &mut CBlockReader, ifs: u8) -> Verdict
    ensures ok { (IsReserved ifs → ⊥)
        → (result ≡ ok_at 0) × (state.new.ifs ≡ ifs) × (block_held state.new ≡ []) }
    ensures argument { IsReserved ifs → result ≡ wrong_argument 0 }
    ensures stays { result.status ≢ 0 → state.new ≡ state.old }
{
    if is_reserved(ifs) {
        return Verdict::argument();
    }
    state.count = 0;
    state.ifs = ifs;
    Verdict::ok(0)
}

/// Feeds the next octets to a reader of a block.
pub fn lent_block_reader_feed(state: &mut CBlockReader, piece: &[u8]) -> Verdict
    ensures { BlockFed state.old piece.now state.new result }
{
    if is_reserved(state.ifs) {
        return Verdict::argument();
    }
    let held = state.held();
    let end = put_after(&mut state.octets, held, piece);
    let (count, verdict) = read_block(&state.octets[..end], state.ifs, held);
    state.count = count as u32;
    verdict
}

/// Ends a reader of a block, and returns the verdict on all octets that it was fed.
pub fn lent_block_reader_finish(state: &CBlockReader) -> Verdict
    ensures { BlockEnded state.now result }
{
    if is_reserved(state.ifs) {
        return Verdict::argument();
    }
    match BlockRef::decode(state.octets(), state.ifs) {
        Ok(_) => Verdict::ok(0),
        Err(stop) => Verdict::stopped(stop),
    }
}

/// Returns the block of a reader, once it is complete. The verdict says how many of the kept octets are the block: they
/// are at the front.
pub fn lent_block_reader_value(state: &CBlockReader, out: &mut CBlock) -> Verdict
    ensures { BlockGiven state.now out.old out.new result }
{
    told_whole(block_decode(state.octets(), state.ifs, out))
}

/// Begins a reader of one answer to reset. The state may have any value before.
pub fn lent_atr_reader_begin(state: &mut CAtrReader)
    ensures { atr_held state.new ≡ [] }
{
    state.count = 0;
}

/// Feeds the next octets to a reader of an answer to reset.
pub fn lent_atr_reader_feed(state: &mut CAtrReader, piece: &[u8]) -> Verdict
    ensures { AtrFed state.old piece.now state.new result }
{
    let held = state.held();
    let end = put_after(&mut state.octets, held, piece);
    let (count, verdict) = read_atr(&state.octets[..end], held);
    state.count = count as u32;
    verdict
}

/// Ends a reader of an answer to reset, and returns the verdict on all octets that it was fed.
pub fn lent_atr_reader_finish(state: &CAtrReader) -> Verdict
    ensures { AtrEnded state.now result }
{
    match check(state.octets()) {
        Ok(_) => Verdict::ok(0),
        Err(stop) => Verdict::stopped(stop),
    }
}

/// Returns the answer to reset of a reader, once it is complete. The verdict says how many of the kept octets are the
/// answer: they are at the front.
pub fn lent_atr_reader_value(state: &CAtrReader, out: &mut CAtr) -> Verdict
    ensures { AtrGiven state.now out.old out.new result }
{
    told_whole(decoded(state.octets(), out))
}

/// Decodes the answer to reset at the front of the octets.
fn decoded(octets: &[u8], out: &mut CAtr) -> Verdict
    ensures ok { result.status ≡ 0 → IsDecoded octets.now result out.new }
    ensures place { result.status ≡ 0 → result ≡ ok_at result.place }
    ensures refused { result.status ≢ 0 →
        Tells atr_reason (Refuses self_ended IsAtr IsAtrReason octets.now) result }
    ensures stays { result.status ≢ 0 → out.new ≡ out.old }
{
    atr_decode(octets, out)
}
