//! Reading of a block that comes in pieces.

ghost use Rattle.std.specs.Prelude.{◌≡◌, ◌+◌, ◌<◌, ◌≤◌, ◌++◌, length, take, Option, IfSome, IfNone, MatchBool};
ghost use Rattle.octet_core.specs.Reader.{IsFed, IsFinished};
ghost use Rattle.block_core.specs.Block.{Parts, IsBlock, IsReason};
ghost use Rattle.block_core.specs.Taking.{HasTaken, IsOpen, IsClosed, nothing_taken, refusal_of};

use crate::block::{Block, LONGEST_BLOCK};
use crate::reason::BlockReason;
use crate::stage::Stage;
use arrayvec::ArrayVec;
use octet_core::{Stop, lrc};
use std::fmt::{self, Debug, Formatter, Write};
use std::marker::Model;

/// A reader of one block (ISO/IEC 7816-3, clause 11.3) whose octets come in pieces. It keeps them in a fixed
/// buffer of 258 octets, and allocates nothing.
#[derive(Drop)]
pub struct BlockReader {
    ifs: u8,
    held: ArrayVec<u8, LONGEST_BLOCK>,
    sum: u8,
    stage: Stage,
}

impl Model for BlockReader {
    ghost use Rattle.std.specs.Prelude.{◌≡◌, ◌≤◌};
    ghost use Rattle.octet_core.specs.Octets.{AreOctets, xor_of};
    ghost use Rattle.block_core.specs.Stage.{IsAt, refusal_at};
    ghost use Rattle.block_core.specs.Taking.{Taking};

    ghost Value = { Taking };

    ghost view = { λ r. record {
      ifs = r.ifs;
      taken = r.held.items;
      refusal = refusal_at r.stage;
    } };

    ghost invariant = { λ r. (1 ≤ r.ifs) × (r.ifs ≤ 254) × (r.sum ≡ xor_of r.held.items)
        × AreOctets r.held.items × IsAt r.ifs r.stage r.held.items };
}

impl BlockReader {
    /// Makes a reader that has taken nothing. `ifs` is the information field size, 1 to 254.
    pub fn new(ifs: u8) -> Self
        requires least { 1 ≤ ifs }
        requires most { ifs ≤ 254 }
        ensures { result ≡ nothing_taken ifs }
    {
        BlockReader {
            ifs,
            held: ArrayVec::new(),
            sum: 0,
            stage: Stage::Front,
        }
    }

    /// Takes the next octets. Returns how many of this piece were taken, and whether the block is whole. The
    /// whole piece is taken unless the block ends in it. Once the block is whole, no octet is taken.
    ///
    /// The error is `At` the first octet after which no block can continue, counted from the first octet
    /// ever fed, with a reason. From then on each call returns it again, and takes nothing, until `reset`.
    pub fn feed(&mut self, piece: &[u8]) -> Result<(usize, bool), Stop<BlockReason>>
        ensures fed { IsFed (IsBlock self.old.ifs) (IsReason self.old.ifs) HasTaken refusal_of
            self.old self.new piece.now result }
        ensures size { self.new.ifs ≡ self.old.ifs }
    {
        let mut taken = 0;
        while taken < piece.len() && self.is_open() {
            taken += self.take_run(&piece[taken..]);
        }
        let done = self.stage.answer()?;
        Ok((taken, done))
    }

    /// Returns the block, once it is whole.
    pub fn value(&self) -> Option<&Block>
        ensures found { IfSome result (λ block. HasTaken self.now self.now.taken
            × IsBlock self.now.ifs block.now self.now.taken) }
        ensures none { IfNone result ((v : Parts) → HasTaken self.now self.now.taken
            → IsBlock self.now.ifs v self.now.taken → ⊥) }
    {
        match &self.stage {
            Stage::Done(whole) => Some(whole),
            _ => None,
        }
    }

    /// Ends the octets. The error is `Short` with the number of octets taken if the block isn't whole, or
    /// the refusal that was kept.
    pub fn finish(&self) -> Result<(), Stop<BlockReason>>
        ensures { IsFinished (IsBlock self.now.ifs) (IsReason self.now.ifs) HasTaken refusal_of
            self.now result }
    {
        if self.stage.answer()? {
            return Ok(());
        }
        Err(Stop::Short {
            place: self.held.len(),
        })
    }

    /// Returns how many octets of the block were taken, at most 258. After a refusal, the refused octet is
    /// counted too.
    pub fn taken(&self) -> usize
        ensures octets { result ≡ length self.now.taken }
        ensures most { result ≤ 258 }
    {
        self.held.len()
    }

    /// Starts again, like a new reader with the same information field size.
    pub fn reset(&mut self)
        ensures { self.new ≡ nothing_taken self.old.ifs }
    {
        self.held.clear();
        self.sum = 0;
        self.stage = Stage::Front;
    }

    fn is_open(&self) -> bool
        ensures { MatchBool result (IsOpen self.now) (IsClosed self.now) }
    {
        !matches!(self.stage, Stage::Done(_) | Stage::Refused(_))
    }

    /// Takes octets up to the next one that is tested, or the whole piece.
    fn take_run(&mut self, piece: &[u8]) -> usize
        requires some { 0 < length piece.now }
        requires open { IsOpen self.old }
        ensures some { 0 < result }
        ensures most { result ≤ length piece.now }
        ensures taken { self.new.taken ≡ self.old.taken ++ take result piece.now }
        ensures size { self.new.ifs ≡ self.old.ifs }
    {
        let wanted = self.stage.tested_len();
        let run = &piece[..piece.len().min(wanted - self.held.len())];
        self.held.try_extend_from_slice(run).unwrap();
        self.sum ^= lrc(run);
        if self.held.len() == wanted {
            self.stage = self
                .stage
                .advanced(self.held.as_slice(), self.sum, self.ifs);
        }
        run.len()
    }
}

/// Shows the information field size, how many octets were taken, and what comes next, but no octet.
impl Debug for BlockReader {
    fn fmt<W: Write>(&self, f: &mut Formatter<W>) -> fmt::Result {
        f.debug_struct("BlockReader")
            .field("ifs", &self.ifs)
            .field("taken", &self.held.len())
            .field("stage", &self.stage)
            .finish()
    }
}
