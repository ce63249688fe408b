//! What holds of the definitions alone. The contract states it.

ghost use Rattle.std.specs.Prelude.{◌≡◌};
ghost use Rattle.answer_json.specs.Refusals.{line_of, IsPlain};
ghost use Rattle.answer_json.specs.declared.refusal.Refusal.{Refusal as AnyRefusal};

/// A line is that of one refusal, so a line says all that the members of an object do. Numbers have at most 15 digits,
/// and a fault without a line has a name without blanks.
pub fn one_refusal()
    ensures { (one other : AnyRefusal) → IsPlain one → IsPlain other
        → line_of one ≡ line_of other → one ≡ other }
{}
