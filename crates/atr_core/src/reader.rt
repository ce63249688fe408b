//! Reading of answers to reset that come in pieces.

ghost use Rattle.std.specs.Prelude.{◌≡◌, ◌↔◌, ℕ, List, false, IsSome, IsNone, MatchOption, length};
ghost use Rattle.octet_core.specs.Reader.{IsFed, IsFinished};
ghost use Rattle.atr_core.specs.Atr.{AtrParts, IsAtr, IsReason};
ghost use Rattle.atr_core.specs.Partial.{Holds, is_whole, taken_of};
ghost use Rattle.atr_core.specs.Taking.{HasTaken, nothing_taken, refusal_of};
ghost use Rattle.atr_core.specs.Stage.{IsTaken};
ghost use Rattle.std.specs.Prelude.{IsTrue};

use crate::atr::MOST_OCTETS;
use crate::encoding::push_all;
use crate::partial::Partial;
use crate::{Atr, AtrReason};
use arrayvec::ArrayVec;
use octet_core::{Refusal, Stop};
use std::fmt::{self, Debug, Formatter, Write};
use std::marker::Model;

/// The result of the octets so far.
#[derive(Drop)]
pub(crate) enum Stage {
    /// An answer is whole with them, or can continue.
    Taken(Partial),
    /// One of them was refused.
    Refused(Refusal<AtrReason>),
}

/// A reader of one answer to reset that is fed in pieces of any length (ISO/IEC 7816-3, clause 8.2). It
/// allocates nothing, and keeps at most 33 octets and what they say.
///
/// Contracts see the octets that it has taken and the refusal that it keeps. `==` compares these: readers
/// are equal if they have taken the same octets, or keep the same refusal.
#[derive(Drop)]
pub struct AtrReader {
    stage: Stage,
    octets: ArrayVec<u8, MOST_OCTETS>,
}

impl Model for AtrReader {
    ghost use Rattle.atr_core.specs.Taking.{Taking};

    ghost Value = { Taking };

    ghost use Rattle.atr_core.specs.Stage.{Agrees, taking_of};

    ghost view = { λ reader. taking_of reader.stage };

    ghost invariant = { λ reader. Agrees reader.stage reader.octets.items };
}

impl PartialEq for AtrReader {
    ghost use Rattle.atr_core.specs.Same.{same_taking, taking_equiv};
    ghost use Rattle.std.specs.Cmp.{partial_equiv_from_equiv};

    ghost eq = { same_taking };

    ghost laws = { partial_equiv_from_equiv taking_equiv };

    fn eq(&self, other: &Self) -> bool {
        match (&self.stage, &other.stage) {
            (Stage::Taken(_), Stage::Taken(_)) => {
                same_octets(self.octets.as_slice(), other.octets.as_slice())
            }
            (Stage::Refused(refusal), Stage::Refused(other)) => same_refusal(*refusal, *other),
            _ => false,
        }
    }
}

impl Eq for AtrReader {
    ghost use Rattle.atr_core.specs.Same.{taking_equiv};

    ghost laws = { taking_equiv };
}

/// Whether two lists of octets are equal.
fn same_octets(octets: &[u8], others: &[u8]) -> bool
    ensures { IsTrue result ↔ (octets.now ≡ others.now) }
{
    octets == others
}

/// Whether two refusals have the same place and the same reason.
fn same_refusal(refusal: Refusal<AtrReason>, other: Refusal<AtrReason>) -> bool
    ensures { IsTrue result ↔ (refusal ≡ other) }
{
    refusal == other
}

impl AtrReader {
    /// Makes a reader that has taken nothing.
    pub fn new() -> Self
        ensures { result ≡ nothing_taken }
    {
        AtrReader {
            stage: Stage::Taken(Partial::new()),
            octets: ArrayVec::new(),
        }
    }

    /// Takes octets of the next piece. Returns how many were taken, and whether the answer is whole. The
    /// whole piece is taken unless the answer ends in it. Once the answer is whole, no octet is taken.
    ///
    /// The error is `At` the first octet after which no answer can continue, counted from the first octet
    /// ever fed. Those before it count as taken. From then on each call returns the same refusal and
    /// changes nothing, until `reset`.
    #[inline]
    pub fn feed(&mut self, piece: &[u8]) -> Result<(usize, bool), Stop<AtrReason>>
        ensures { IsFed IsAtr IsReason HasTaken refusal_of self.old self.new piece.now result }
    {
        let partial = match &mut self.stage {
            Stage::Taken(partial) => partial,
            Stage::Refused(refusal) => return Err(refusal.stop()),
        };
        if partial.is_whole() {
            return Ok((0, true));
        }
        match partial.take_piece(self.octets.len(), piece) {
            Ok(taken) => {
                push_all(&mut self.octets, &piece[..taken]);
                Ok((taken, partial.is_whole()))
            }
            Err(refusal) => {
                self.stage = Stage::Refused(refusal);
                Err(refusal.stop())
            }
        }
    }

    /// Returns the answer, once it is whole.
    pub fn value(&self) -> Option<&Atr>
        ensures value { (t : List ℕ) → HasTaken self.now t
            → MatchOption result ((v : AtrParts) → IsAtr v t → ⊥) (λ atr. IsAtr atr.now t) }
        ensures refused { IsSome (refusal_of self.now) → IsNone result }
    {
        match &self.stage {
            Stage::Taken(partial) => partial.answer(),
            Stage::Refused(_) => None,
        }
    }

    /// Ends the octets. Returns `Ok` if the answer is whole, the refusal that was kept, or `Short` at the
    /// end of the octets taken. It changes nothing.
    pub fn finish(&self) -> Result<(), Stop<AtrReason>>
        ensures { IsFinished IsAtr IsReason HasTaken refusal_of self.now result }
    {
        let partial = match &self.stage {
            Stage::Taken(partial) => partial,
            Stage::Refused(refusal) => return Err(refusal.stop()),
        };
        if partial.is_whole() {
            return Ok(());
        }
        Err(Stop::Short {
            place: self.octets.len(),
        })
    }

    /// Starts again, with nothing taken and no refusal.
    pub fn reset(&mut self)
        ensures { self.new ≡ nothing_taken }
    {
        self.stage = Stage::Taken(Partial::new());
        self.octets.clear();
    }
}

impl Partial {
    /// Takes octets of a piece after `count` octets, until the answer is whole or an octet is refused.
    /// Returns how many were taken.
    pub(crate) fn take_piece(
        &mut self,
        count: usize,
        piece: &[u8],
    ) -> Result<usize, Refusal<AtrReason>>
        requires holds { Holds self.old }
        requires unended { is_whole self.old ≡ false }
        requires count { count ≡ length (taken_of self.old) }
        ensures { IsTaken (taken_of self.old) piece.now self.new result }
    {
        if count == 0 && piece.len() > 1 {
            if let Some(taken) = self.take_whole(piece) {
                return Ok(taken);
            }
        }
        self.take_octets(count, piece)
    }

    /// Takes octets of a piece as `take_piece` does, octet by octet.
    pub(crate) fn take_octets(
        &mut self,
        count: usize,
        piece: &[u8],
    ) -> Result<usize, Refusal<AtrReason>>
        requires holds { Holds self.old }
        requires unended { is_whole self.old ≡ false }
        requires count { count ≡ length (taken_of self.old) }
        ensures { IsTaken (taken_of self.old) piece.now self.new result }
    {
        for (place, octet) in piece.iter().enumerate() {
            if let Err(reason) = self.take(*octet) {
                let place_ever = count + place;
                return Err(Refusal {
                    place: place_ever,
                    reason,
                });
            }
            if self.is_whole() {
                return Ok(place + 1);
            }
        }
        Ok(piece.len())
    }
}

/// Shows how many octets were taken, and the refusal that is kept.
impl Debug for AtrReader {
    fn fmt<W: Write>(&self, f: &mut Formatter<W>) -> fmt::Result {
        let refusal = match &self.stage {
            Stage::Taken(_) => None,
            Stage::Refused(refusal) => Some(*refusal),
        };
        f.debug_struct("AtrReader")
            .field("taken", &self.octets.len())
            .field("refusal", &refusal)
            .finish()
    }
}
