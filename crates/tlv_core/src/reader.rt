//! Reading of a forest that comes in pieces, with its tree.

ghost use Rattle.std.specs.Prelude.{◌≡◌, ℕ, ◌+◌, ◌<◌, ◌≤◌, ◌↔◌, List, [], ◌++◌, length, Some, None, Ok, Err, IfOk, IfErr, IfSome, IfNone, OnOk, OnErr, MatchResult};
ghost use Rattle.octet_core.specs.Grammar.{Refuses, whole};
ghost use Rattle.octet_core.specs.declared.stop.Refused.TheVariants as refused;
ghost use Rattle.octet_core.specs.declared.stop.Refusal.{Refusal};
ghost use Rattle.tlv_core.specs.declared.reason.TlvReason.{TlvReason};
ghost use Rattle.tlv_core.specs.Forest.{IsForest};
ghost use Rattle.tlv_core.specs.Reasons.{IsReason};

use crate::forest::Forest;
use crate::partial::Partial;
use crate::progress::Progress;
use crate::reason::TlvReason;
use octet_core::{Refusal, Refused, Stop};
use std::alloc::{AllocError, Global};
use std::fmt::{self, Debug, Formatter, Write};
use std::marker::Model;

/// A reader of a forest that is fed in pieces of any length. It keeps the tree of its octets so far: the objects
/// that are open, at most 16, the lists before them, and the value that is being read.
///
/// Contracts see that tree, what the octets so far leave open, and the refusal that was kept.
#[derive(Drop)]
pub struct ForestReader {
    progress: Progress,
    tree: Partial,
    refusal: Option<Refusal<TlvReason>>,
}

impl Model for ForestReader {
    ghost use Rattle.std.specs.Prelude.{ℕ, List};
    ghost use Rattle.tlv_core.specs.Read.{Reading, HasBegun, reading_of};
    ghost use Rattle.std.specs.Coded.{codes};
    ghost use Rattle.tlv_core.specs.TreeCode.{tree_code};

    ghost Value = { Reading };

    ghost coded = { Prim.hlevel (codes, tree_code) };

    ghost view = { λ reader. reading_of reader.progress reader.tree reader.refusal };

    ghost invariant = { λ reader. (b : List ℕ)
        × HasBegun b (reading_of reader.progress reader.tree reader.refusal) };
}

impl ForestReader {
    ghost use Rattle.tlv_core.specs.Read.{HasBegun, HasRead, HasAdvanced, IsEndedFeed, stop_of};

    /// Makes a reader of a forest of at most `max` octets; `max` is at most 1,048,576. The error is a failed
    /// allocation of the reader's stack, which is allocated once.
    pub fn new(alloc: Global, max: usize) -> Result<ForestReader, AllocError>
        requires { max ≤ 1048576 }
        ensures limit { IfOk result (λ reader. reader.kept.max ≡ max) }
        ensures nothing { IfOk result (λ reader. (b : List ℕ) → HasRead b reader ↔ (b ≡ [])) }
    {
        Ok(ForestReader {
            progress: Progress::new(max),
            tree: Partial::new(alloc)?,
            refusal: None,
        })
    }

    /// Takes the next piece. The error has the number of octets of the piece that were taken.
    ///
    /// After `Memory`, which is a failed allocation, the reader has taken those octets, and may be fed the rest. A
    /// stop is always `At`, never `Short`: the first octet after which no forest can continue, counted from the
    /// first octet ever fed. From then on each call takes no octet and returns the same stop.
    pub fn feed(&mut self, piece: &[u8]) -> Result<(), (usize, Refused<TlvReason>)>
        ensures limit { self.new.kept.max ≡ self.old.kept.max }
        ensures repeats { (refusal : Refusal TlvReason) → self.old.refusal ≡ Some refusal
            → (result ≡ Err (0, refused.Stop (stop_of refusal))) × (self.new ≡ self.old) }
        ensures taken { (b : List ℕ) → HasRead b self.old
            → OnOk result (HasRead (b ++ piece.now) self.new) }
        ensures ended { (b : List ℕ) → HasRead b self.old
            → IfErr result (λ ended.
            IsEndedFeed self.old.kept.max b piece.now self.new ended.0 ended.1) }
    {
        if let Some(refusal) = self.refusal {
            return Err((0, Refused::Stop(refusal.stop())));
        }
        let mut taken = 0;
        while taken < piece.len() {
            match self.advance(&piece[taken..]) {
                Ok(count) => taken += count,
                Err(refused) => return Err((taken, refused)),
            }
        }
        Ok(())
    }

    /// Ends the octets. Returns the forest that they encode, the refusal that was kept, or `Short` at their end if
    /// they end inside an object.
    pub fn finish(self) -> Result<Forest, Stop<TlvReason>>
        ensures repeats { (refusal : Refusal TlvReason) → self.refusal ≡ Some refusal
            → result ≡ Err (stop_of refusal) }
        ensures verdict { (b : List ℕ) → HasRead b self
            → MatchResult result (λ forest. IsForest self.kept.max forest b)
            (Refuses whole (IsForest self.kept.max) (IsReason self.kept.max) b) }
        // so what holds for every list that it may have taken holds for at least one
        ensures some_taken { self.refusal ≡ None → (b : List ℕ) × HasRead b self }
    {
        let ForestReader {
            progress,
            tree,
            refusal,
        } = self;
        if let Some(refusal) = refusal {
            return Err(refusal.stop());
        }
        if progress.is_idle() {
            return Ok(Forest::of(tree.into_nodes()));
        }
        Err(Stop::Short {
            place: progress.count(),
        })
    }

    /// Takes octets: a run of the value that is being read, an object with a short header that is here, or one
    /// octet of a header. Returns how many were taken, at least one; or why none was.
    fn advance(&mut self, octets: &[u8]) -> Result<usize, Refused<TlvReason>>
        requires { 0 < length octets.now }
        ensures limit { self.new.kept.max ≡ self.old.kept.max }
        ensures advanced { HasAdvanced self.old octets.now self.new result }
    {
        if self.progress.value_left() > 0 {
            return self.take_run(octets);
        }
        if let Some(taken) = self.take_short(octets)? {
            return Ok(taken);
        }
        self.take_first(octets)
    }

    /// Takes a run of the value that is being read: as many of its octets as are here.
    fn take_run(&mut self, octets: &[u8]) -> Result<usize, Refused<TlvReason>>
        requires some { 0 < length octets.now }
        requires under_way { 0 < self.old.kept.value_left }
        ensures limit { self.new.kept.max ≡ self.old.kept.max }
        ensures advanced { HasAdvanced self.old octets.now self.new result }
    {
        let left = self.progress.value_left();
        let run = left.min(octets.len());
        if self.tree.extend(&octets[..run]).is_err() {
            return Err(Refused::Memory);
        }
        self.progress.skip(run);
        if run == left {
            self.tree.end_value(self.progress.level());
        }
        Ok(run)
    }

    /// Takes an object with a short header, if one is here, and returns the number of octets taken. The error is a
    /// failed allocation for the object.
    fn take_short(&mut self, octets: &[u8]) -> Result<Option<usize>, AllocError>
        requires { self.old.kept.value_left ≡ 0 }
        ensures limit { self.new.kept.max ≡ self.old.kept.max }
        ensures some { IfOk result (λ taken.
            IfSome taken (λ n. HasAdvanced self.old octets.now self.new (Ok n))) }
        ensures none { IfOk result (λ taken. IfNone taken (self.new ≡ self.old)) }
        ensures memory { OnErr result
            (HasAdvanced self.old octets.now self.new (Err refused.Memory)) }
    {
        let Some(short) = self.progress.next_short(octets, false) else {
            return Ok(None);
        };
        self.tree.reserve()?;
        let value = self.tree.copied(short.value(octets))?;
        self.progress.pass(short);
        self.tree.take_short(short, value, self.progress.level());
        Ok(Some(short.taken()))
    }

    /// Takes one octet of a header, or a filler.
    fn take_first(&mut self, octets: &[u8]) -> Result<usize, Refused<TlvReason>>
        requires some { 0 < length octets.now }
        requires idle { self.old.kept.value_left ≡ 0 }
        ensures limit { self.new.kept.max ≡ self.old.kept.max }
        ensures advanced { HasAdvanced self.old octets.now self.new result }
    {
        self.tree.reserve()?;
        match self.progress.take(octets[0]) {
            Ok(next) => {
                self.tree.take(&next, self.progress.level());
                Ok(1)
            }
            Err(reason) => {
                let refusal = self.progress.refusal(reason);
                self.refusal = Some(refusal);
                Err(Refused::Stop(refusal.stop()))
            }
        }
    }
}

/// Shows how many octets were taken, how many objects are open, how many octets of a value are left, and the
/// refusal, but no octet.
impl Debug for ForestReader {
    fn fmt<W: Write>(&self, f: &mut Formatter<W>) -> fmt::Result {
        f.debug_struct("ForestReader")
            .field("taken", &self.progress.count())
            .field("open_objects", &self.progress.level())
            .field("value_octets_left", &self.progress.value_left())
            .field("refusal", &self.refusal)
            .finish()
    }
}
