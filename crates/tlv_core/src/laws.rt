//! Laws of forests, as contracts.

ghost use Rattle.std.specs.Prelude.{◌≡◌, ◌↔◌, IsTrue, List, ℕ};
ghost use Rattle.octet_core.specs.Octets.{AreOctets};
ghost use Rattle.tlv_core.specs.Laws.{OneForest, Completion, ForestVerdict, TakenLaws};
ghost use Rattle.tlv_core.specs.Dol.{DolVerdict, IsDol};
ghost use Rattle.tlv_core.specs.Improper.{AreObjects, ImproperLaw};
ghost use Rattle.tlv_core.specs.Tree.{Tree};
ghost use Rattle.tlv_core.specs.Tidy.{TidyLaws};

use crate::forest::Forest;

/// `==` says whether two forests are the same list of objects, with the same forms and fillers.
pub fn are_equal(a: &Forest, b: &Forest) -> bool
    ensures { IsTrue result ↔ (a.now ≡ b.now) }
{
    a == b
}

/// Octets encode at most one forest.
pub fn one_forest()
    ensures { OneForest }
{}

/// A forest begins with these octets if and only if no octet meets a reason. Zeros then complete it, after
/// one octet 01 if the octets end in a first tag octet that others follow.
pub fn completion()
    ensures { (max : ℕ) (b : List ℕ) → AreOctets b → Completion max b }
{}

/// Every input is a forest or is refused, with one value, one place and one reason.
pub fn one_verdict()
    ensures { (max : ℕ) (b : List ℕ) → AreOctets b → ForestVerdict max b }
{}

/// Tidying twice changes no more than tidying once, the objects say the same, and no forest that says the
/// same is shorter.
pub fn tidy_laws()
    ensures { TidyLaws }
{}

/// A check's state is determined by the octets that it has taken. The state is idle if and only if they
/// are a forest.
pub fn taken_laws()
    ensures { (max : ℕ) (b : List ℕ) → AreOctets b → TakenLaws max b }
{}

/// A list of objects has an encoding if and only if nothing in it is improper.
pub fn improper_law()
    ensures { (max : ℕ) (t : Tree) → AreObjects t → ImproperLaw max t }
{}

/// Octets encode at most one data object list.
pub fn one_list()
    ensures { (v w : List (List ℕ × ℕ)) (b : List ℕ) → IsDol v b → IsDol w b → v ≡ w }
{}

/// Every input is a data object list or is refused, with one value, one place and one reason.
pub fn dol_verdict()
    ensures { (b : List ℕ) → AreOctets b → DolVerdict b }
{}
