//! Blocks that borrow their information field.

ghost use Rattle.std.specs.Prelude.{◌≡◌, ◌+◌, ◌<◌, ◌≤◌, ◌++◌, true, length, take, drop, slice_index, IfOk, IfErr, SomeIff};
ghost use Rattle.octet_core.specs.Grammar.{self_ended, Accepts, Refuses};
ghost use Rattle.octet_core.specs.Octets.{xor_of};
ghost use Rattle.octet_core.specs.declared.stop.Stop.TheVariants.{At, Short};
ghost use Rattle.block_core.specs.Block.{Suits, IsAboutIfs, IsBlock, IsPut, IsReason, IsWhole, pcb_octet};
ghost use Rattle.block_core.specs.Stage.{IsHeaded, IsSized};

use crate::block::Block;
use crate::pcb::Pcb;
use crate::reason::BlockReason;
use octet_core::{Stop, lrc};
use std::fmt::{self, Debug, Formatter, Write};
use std::marker::Model;

/// A block that borrows its information field from the octets that were decoded (ISO/IEC 7816-3, clause 11.3).
/// Contracts see its parts, like those of a `Block`.
#[derive(Drop)]
pub struct BlockRef<'a> {
    nad: u8,
    pcb: Pcb,
    inf: &'a [u8],
}

impl<'a> Model for BlockRef<'a> {
    ghost use Rattle.block_core.specs.Block.{Parts, IsProper};

    ghost Value = { Parts };

    ghost view = { λ b. record { nad = b.nad; pcb = b.pcb; inf = b.inf.now } };

    ghost invariant = { λ b. IsProper 254 (record { nad = b.nad; pcb = b.pcb; inf = b.inf.now }) };
}

impl<'a> BlockRef<'a> {
    /// Decodes the block at the front of the octets. Returns the block, and how many octets it takes. What
    /// follows it isn't read. Nothing is copied, and each octet of the block is read once for the LRC.
    ///
    /// `ifs` is the information field size, 1 to 254. The error is `At` the first octet after which no block
    /// can continue, with the reason. It is `Short` at the end of the octets if a block could continue there.
    #[inline(always)]
    pub fn decode(octets: &'a [u8], ifs: u8) -> Result<(BlockRef<'a>, usize), Stop<BlockReason>>
        requires least { 1 ≤ ifs }
        requires most { ifs ≤ 254 }
        ensures found { IfOk result (λ x. Accepts self_ended (IsBlock ifs) octets.now x.0 x.1) }
        ensures refused { IfErr result
            (Refuses self_ended (IsBlock ifs) (IsReason ifs) octets.now) }
    {
        BlockRef::decode_burst(octets, ifs, false)
    }

    /// Decodes the block at the front of the octets, like [`BlockRef::decode`]. If `is_whole` is true, the caller
    /// already knows that the octets are as many as LEN says, and that their LRC is right. Then no octet of the
    /// field is read again for the LRC.
    #[inline(always)]
    pub fn decode_burst(
        octets: &'a [u8],
        ifs: u8,
        is_whole: bool,
    ) -> Result<(BlockRef<'a>, usize), Stop<BlockReason>>
        requires least { 1 ≤ ifs }
        requires most { ifs ≤ 254 }
        requires whole { is_whole ≡ true → IsWhole octets.now }
        ensures found { IfOk result (λ x. Accepts self_ended (IsBlock ifs) octets.now x.0 x.1) }
        ensures refused { IfErr result
            (Refuses self_ended (IsBlock ifs) (IsReason ifs) octets.now) }
    {
        let pcb = pcb_in(octets, ifs)?;
        let end = end_in(octets, pcb, ifs)?;
        if octets.len() <= end {
            return Err(short(octets));
        }
        if sum_to(octets, end + 1, is_whole) != 0 {
            return Err(refused(end, BlockReason::BadLrc));
        }
        let block = BlockRef::of_parts(octets[0], pcb, &octets[3..end]);
        Ok((block, end + 1))
    }

    /// Makes a block of its parts. The result is `None` if the field doesn't suit the kind. The field has at
    /// most 254 octets in an I-block, none in an R-block, and in an S-block those that its subject needs.
    pub fn new(nad: u8, pcb: Pcb, inf: &'a [u8]) -> Option<BlockRef<'a>>
        ensures { SomeIff result (Suits 254 pcb inf.now)
            (record { nad = nad; pcb = pcb; inf = inf.now }) }
    {
        if pcb.suits(inf) {
            Some(BlockRef::of_parts(nad, pcb, inf))
        } else {
            None
        }
    }

    /// Returns the node address.
    pub fn nad(&self) -> u8
        ensures { result ≡ self.now.nad }
    {
        self.nad
    }

    /// Returns the kind of the block.
    pub fn pcb(&self) -> Pcb
        ensures { result ≡ self.now.pcb }
    {
        self.pcb
    }

    /// Returns the information field, at most 254 octets, borrowed from the octets that were decoded.
    pub fn inf(&self) -> &'a [u8]
        ensures octets { result.now ≡ self.now.inf }
        ensures suits { Suits 254 self.now.pcb self.now.inf }
    {
        self.inf
    }

    /// Returns the block with a copy of its information field.
    pub fn to_block(&self) -> Block
        ensures { result ≡ self.now }
    {
        Block::of_parts(self.nad, self.pcb, self.inf)
    }

    /// Encodes the block at the front of the buffer, and returns how many octets it has, 4 to 258. The rest of
    /// the buffer stays as it was.
    pub fn encode_into(&self, out: &mut [u8]) -> usize
        requires { 258 ≤ length out.old }
        ensures put { IsPut self.now out.old out.new result }
        ensures least { 4 ≤ result }
        ensures most { result ≤ 258 }
    {
        let len = self.inf.len();
        let head = [self.nad, self.pcb.octet(), len as u8];
        put(out, 0, &head);
        put(out, 3, self.inf);
        // the sum of the original octets: octets that were just written take longer to read
        let sum = lrc(&head) ^ sum_of(self.inf);
        put(out, len + 3, &[sum]);
        len + 4
    }

    /// Makes a block of its parts. The field must suit the kind.
    fn of_parts(nad: u8, pcb: Pcb, inf: &'a [u8]) -> BlockRef<'a>
        requires { Suits 254 pcb inf.now }
        ensures { result ≡ record { nad = nad; pcb = pcb; inf = inf.now } }
    {
        BlockRef { nad, pcb, inf }
    }
}

/// Returns the kind that the second octet says.
fn pcb_in(octets: &[u8], ifs: u8) -> Result<Pcb, Stop<BlockReason>>
    ensures long { IfOk result (λ pcb. 2 ≤ length octets.now) }
    ensures kind { IfOk result (λ pcb. pcb_octet pcb ≡ slice_index octets.now 1) }
    ensures refused { IfErr result (Refuses self_ended (IsBlock ifs) (IsReason ifs) octets.now) }
{
    if octets.len() < 2 {
        return Err(short(octets));
    }
    match Pcb::from_octet(octets[1]) {
        Some(pcb) => Ok(pcb),
        None => Err(refused(1, BlockReason::BadPcb)),
    }
}

/// Returns the place of the LRC, by the third octet. In a block about IFS, the size in the fourth octet is
/// checked too.
fn end_in(octets: &[u8], pcb: Pcb, ifs: u8) -> Result<usize, Stop<BlockReason>>
    requires most { ifs ≤ 254 }
    requires long { 2 ≤ length octets.now }
    requires kind { pcb_octet pcb ≡ slice_index octets.now 1 }
    ensures long { IfOk result (λ end. 3 ≤ length octets.now) }
    ensures end { IfOk result (λ end. end ≡ 3 + slice_index octets.now 2) }
    ensures headed { IfOk result (λ end. IsHeaded ifs pcb octets.now) }
    ensures about { IfOk result (λ end. IsAboutIfs pcb → 3 < length octets.now) }
    ensures sized { IfOk result (λ end. IsSized pcb (slice_index octets.now 3)) }
    ensures refused { IfErr result (Refuses self_ended (IsBlock ifs) (IsReason ifs) octets.now) }
{
    if octets.len() < 3 {
        return Err(short(octets));
    }
    if let Some(reason) = pcb.fault_of_len(octets[2], ifs) {
        return Err(refused(2, reason));
    }
    if pcb.is_about_ifs() {
        if octets.len() < 4 {
            return Err(short(octets));
        }
        if pcb.refuses_first(octets[3]) {
            return Err(refused(3, BlockReason::BadIfs));
        }
    }
    Ok(3 + octets[2] as usize)
}

/// Writes the octets to the buffer, from place `start` on.
fn put(out: &mut [u8], start: usize, octets: &[u8])
    requires { start + length octets.now ≤ length out.old }
    ensures { out.new ≡ take start out.old
        ++ (octets.now ++ drop (start + length octets.now) out.old) }
{
    out[start..start + octets.len()].copy_from_slice(octets);
}

/// Returns the exclusive-or of the first octets. If the octets are known to be whole, they are so many, and nothing
/// is read.
#[inline(always)]
fn sum_to(octets: &[u8], count: usize, is_whole: bool) -> u8
    requires most { count ≤ length octets.now }
    requires all { is_whole ≡ true → count ≡ length octets.now }
    requires whole { is_whole ≡ true → IsWhole octets.now }
    ensures { result ≡ xor_of (take count octets.now) }
{
    if is_whole {
        0
    } else {
        sum_of(&octets[..count])
    }
}

/// Returns the exclusive-or of the octets. It isn't inlined: next to a test of its result, the compiler takes
/// one octet at a time. In a separate function it takes many at once.
#[inline(never)]
fn sum_of(octets: &[u8]) -> u8
    ensures { result ≡ xor_of octets.now }
{
    lrc(octets)
}

/// Returns the stop for octets at whose end a block could continue.
fn short(octets: &[u8]) -> Stop<BlockReason>
    ensures { result ≡ Short (length octets.now) }
{
    Stop::Short {
        place: octets.len(),
    }
}

/// Returns the stop for an octet at this place with which no block can continue.
fn refused(place: usize, reason: BlockReason) -> Stop<BlockReason>
    ensures { result ≡ At place reason }
{
    Stop::At { place, reason }
}

/// Shows the node address, the kind, and how many octets the field has. No octet of it is shown, as with a
/// [`Block`].
impl Debug for BlockRef<'_> {
    fn fmt<W: Write>(&self, f: &mut Formatter<W>) -> fmt::Result {
        f.debug_struct("BlockRef")
            .field("nad", &self.nad)
            .field("pcb", &self.pcb)
            .field("inf_octets", &self.inf.len())
            .finish()
    }
}
