//! A check of a forest that comes in pieces.

ghost use Rattle.std.specs.Prelude.{◌≡◌, ℕ, ◌≤◌, ◌↔◌, List, [], ◌++◌, length, OnOk, IfErr, OnSome, MatchResult, None};
ghost use Rattle.octet_core.specs.Grammar.{Refuses, RefusesAt, whole};
ghost use Rattle.tlv_core.specs.Tree.{Tree};
ghost use Rattle.tlv_core.specs.Forest.{IsForest};
ghost use Rattle.tlv_core.specs.Reasons.{IsReason};

use crate::checking::Checking;
use crate::progress::Progress;
use crate::reason::TlvReason;
use octet_core::Stop;
use std::fmt::{self, Debug, Formatter, Write};
use std::marker::Model;

/// A check of the octets of a forest that come in pieces. It allocates nothing: it keeps the places at
/// which open objects end, at most 16, and the octets of an unfinished header, at most seven.
///
/// Contracts see what the octets so far leave open, and the refusal that was kept.
#[derive(Drop)]
pub struct ForestCheck {
    checking: Checking,
}

impl Model for ForestCheck {
    ghost use Rattle.std.specs.Prelude.{ℕ, List};
    ghost use Rattle.tlv_core.specs.Check.{Checked};
    ghost use Rattle.tlv_core.specs.Checking.{checked_of};
    ghost use Rattle.tlv_core.specs.Progress.{kept_of};

    ghost Value = { Checked };

    ghost use Rattle.tlv_core.specs.Reasons.{HasTaken};

    ghost view = { λ check. checked_of check.checking };

    ghost invariant = { λ check. (b : List ℕ) × HasTaken b (kept_of check.checking.progress) };
}

impl ForestCheck {
    ghost use Rattle.tlv_core.specs.Check.{HasChecked, answer_of};

    /// Starts a check of a forest of at most `max` octets; `max` is at most 1,048,576.
    pub fn new(max: usize) -> Self
        requires { max ≤ 1048576 }
        ensures limit { result.kept.max ≡ max }
        ensures nothing { (b : List ℕ) → HasChecked b result ↔ (b ≡ []) }
    {
        ForestCheck {
            checking: Checking {
                progress: Progress::new(max),
                refused: None,
            },
        }
    }

    /// Takes the next piece, or refuses an octet of it. The error is `At` the first octet after which
    /// no forest can continue, with the reason. It is never `Short`. Its place counts from the first
    /// octet ever fed. From then on each call returns the same refusal and changes nothing.
    pub fn feed(&mut self, piece: &[u8]) -> Result<(), Stop<TlvReason>>
        ensures limit { self.new.kept.max ≡ self.old.kept.max }
        ensures answer { result ≡ answer_of self.new.refusal }
        ensures repeats { OnSome self.old.refusal (self.new ≡ self.old) }
        ensures taken { (b : List ℕ) → HasChecked b self.old
            → OnOk result (HasChecked (b ++ piece.now) self.new) }
        ensures refused { (b : List ℕ) → HasChecked b self.old →
            IfErr result (RefusesAt whole (IsForest self.old.kept.max) (IsReason self.old.kept.max) (b ++ piece.now)) }
    {
        self.checking.feed(piece)
    }

    /// Returns the verdict on all pieces fed: `Ok` if they are a forest, `Short` at their end if one
    /// could continue there, or the refusal that was kept.
    pub fn finish(&self) -> Result<(), Stop<TlvReason>>
        ensures repeats { OnSome self.now.refusal (result ≡ answer_of self.now.refusal) }
        ensures verdict { (b : List ℕ) → HasChecked b self.now
            → MatchResult result (λ _. (t : Tree) × IsForest self.now.kept.max t b)
            (Refuses whole (IsForest self.now.kept.max) (IsReason self.now.kept.max) b) }
        // so what holds for every list that it may have taken holds for at least one
        ensures some_taken { self.now.refusal ≡ None → (b : List ℕ) × HasChecked b self.now }
    {
        self.checking.finish()
    }

    /// Returns how many octets were taken: those before the refused one, if one was refused.
    pub fn taken(&self) -> usize
        ensures count { result ≡ self.now.kept.count }
        ensures octets { (b : List ℕ) → HasChecked b self.now → result ≡ length b }
        ensures most { result ≤ self.now.kept.max }
    {
        self.checking.progress.count()
    }
}

/// Shows how many octets were taken, how many objects are open, how many octets of a value are left,
/// and the refusal, but no octet.
impl Debug for ForestCheck {
    fn fmt<W: Write>(&self, f: &mut Formatter<W>) -> fmt::Result {
        f.debug_struct("ForestCheck")
            .field("taken", &self.checking.progress.count())
            .field("open_objects", &self.checking.progress.level())
            .field("value_octets_left", &self.checking.progress.value_left())
            .field("refusal", &self.checking.refusal())
            .finish()
    }
}
