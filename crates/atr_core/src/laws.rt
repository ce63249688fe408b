//! Laws of answers to reset. Each is the contract of a function, which a caller may call to get the
//! law.

ghost use Rattle.std.specs.Prelude.{◌≡◌, ◌++◌, ◌↔◌, ℕ, List, [], IsTrue};
ghost use Rattle.octet_core.specs.Octets.{AreOctets};
ghost use Rattle.octet_core.specs.Grammar.{self_ended, Accepts, Begins, OneVerdict};
ghost use Rattle.atr_core.specs.Taking.{nothing_taken, HasTaken};
ghost use Rattle.atr_core.specs.Atr.{AtrParts, IsAtr, IsReason, Meets};
ghost use Rattle.atr_core.specs.declared.reason.AtrReason.{AtrReason};

use crate::{Atr, AtrReader};

/// `==` says whether two answers have the same parts.
pub fn are_equal(a: &Atr, b: &Atr) -> bool
    ensures { IsTrue result ↔ (a.now ≡ b.now) }
{
    a == b
}

/// `==` says whether two readers have taken the same octets, or keep the same refusal.
pub fn are_equal_readers(reader: &AtrReader, other: &AtrReader) -> bool
    ensures { IsTrue result ↔ (reader.now ≡ other.now) }
{
    reader == other
}

/// Every input is accepted or refused, never both, with one answer, one length, one place and one
/// reason.
pub fn one_verdict()
    ensures { (b : List ℕ) → AreOctets b → OneVerdict self_ended IsAtr IsReason b }
{}

/// Octets are accepted with one value and one length at most.
pub fn one_accepted()
    ensures { (b : List ℕ) (v w : AtrParts) (n m : ℕ)
        → Accepts self_ended IsAtr b v n → Accepts self_ended IsAtr b w m → (v ≡ w) × (n ≡ m) }
{}

/// Octets encode at most one answer, and no encoding is a proper prefix of another.
pub fn one_spelled()
    ensures { (v w : AtrParts) (b more : List ℕ) → IsAtr v b → IsAtr w (b ++ more)
        → (v ≡ w) × (more ≡ []) }
{}

/// If octets meet a line of the table of reasons, no answer can continue them.
pub fn reasons_stop()
    ensures { (b : List ℕ) (r : AtrReason) → Meets b r → Begins IsAtr b → ⊥ }
{}

/// A reader that is new, or was reset, has taken the empty list and no other.
pub fn new_has_taken_nothing()
    ensures { (t : List ℕ) → HasTaken nothing_taken t ↔ (t ≡ []) }
{}
