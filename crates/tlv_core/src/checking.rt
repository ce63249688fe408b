//! The steps of a check of a forest that comes in pieces, for a state that this crate or the caller keeps.

ghost use Rattle.std.specs.Prelude.{◌≡◌, ◌≤◌, ℕ, List, length, take, ◌++◌, OnOk, IfErr, OnSome, MatchResult};
ghost use Rattle.octet_core.specs.Grammar.{Refuses, RefusesAt, whole};
ghost use Rattle.tlv_core.specs.Tree.{Tree};
ghost use Rattle.tlv_core.specs.Forest.{IsForest};
ghost use Rattle.tlv_core.specs.Reasons.{IsReason, HasTaken};
ghost use Rattle.tlv_core.specs.Check.{HasChecked, MayRefuse, answer_of};
ghost use Rattle.tlv_core.specs.Checking.{checked_of};
ghost use Rattle.tlv_core.specs.Progress.{kept_of};

use crate::progress::Progress;
use crate::reason::TlvReason;
use octet_core::{Refusal, Stop};

/// The state of a check: what the octets so far leave open, and why the next one was refused, if it was.
#[derive(Drop)]
pub(crate) struct Checking {
    pub(crate) progress: Progress,
    pub(crate) refused: Option<TlvReason>,
}

impl Checking {
    /// Takes the next piece, or refuses an octet of it. Contracts don't know which octets were fed before.
    /// So some of the clauses hold for every list of octets that may have led to this state.
    pub(crate) fn feed(&mut self, piece: &[u8]) -> Result<(), Stop<TlvReason>>
        ensures limit { self.new.progress.ends.max ≡ self.old.progress.ends.max }
        ensures answer { result ≡ answer_of (checked_of self.new).refusal }
        ensures repeats { OnSome self.old.refused (self.new ≡ self.old) }
        ensures taken { (b : List ℕ) → HasChecked b (checked_of self.old)
            → OnOk result (HasChecked (b ++ piece.now) (checked_of self.new)) }
        ensures refused { (b : List ℕ) → HasChecked b (checked_of self.old) →
            IfErr result (RefusesAt whole (IsForest self.old.progress.ends.max)
            (IsReason self.old.progress.ends.max) (b ++ piece.now)) }
        ensures some { (b : List ℕ) × HasTaken b (kept_of self.old.progress) → (b : List ℕ)
            × HasTaken b (kept_of self.new.progress) }
        ensures led { (b : List ℕ) → HasTaken b (kept_of self.old.progress) → (n : ℕ)
            × (n ≤ length piece.now) × HasTaken (b ++ take n piece.now) (kept_of self.new.progress) }
        ensures may { MayRefuse (checked_of self.old) → MayRefuse (checked_of self.new) }
    {
        if let Some(refusal) = self.refusal() {
            return Err(refusal.stop());
        }
        let mut taken = 0;
        while taken < piece.len() {
            match self.progress.advance(&piece[taken..]) {
                Ok(count) => taken += count,
                Err(reason) => {
                    self.refused = Some(reason);
                    return Err(self.progress.refusal(reason).stop());
                }
            }
        }
        Ok(())
    }

    /// Returns the verdict on all octets: `Ok` if they are a forest, `Short` at their end if one could
    /// continue there, or the refusal that was kept.
    pub(crate) fn finish(&self) -> Result<(), Stop<TlvReason>>
        ensures repeats { OnSome self.now.refused
            (result ≡ answer_of (checked_of self.now).refusal) }
        ensures verdict { (b : List ℕ) → HasChecked b (checked_of self.now)
            → MatchResult result (λ _. (t : Tree) × IsForest self.now.progress.ends.max t b)
            (Refuses whole (IsForest self.now.progress.ends.max)
            (IsReason self.now.progress.ends.max) b) }
    {
        if let Some(refusal) = self.refusal() {
            return Err(refusal.stop());
        }
        if self.progress.is_idle() {
            return Ok(());
        }
        Err(Stop::Short {
            place: self.progress.count(),
        })
    }

    /// Returns the refusal that was kept.
    pub(crate) fn refusal(&self) -> Option<Refusal<TlvReason>>
        ensures { result ≡ (checked_of self.now).refusal }
    {
        self.refused.map(|reason| self.progress.refusal(reason))
    }
}
