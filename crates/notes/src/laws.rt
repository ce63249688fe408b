//! What holds of the definitions alone. The contracts state it.

ghost use Rattle.std.specs.Prelude.{◌≡◌, ℕ, List};
ghost use Rattle.notes.specs.Noted.{IsNoted, LacksSign, without_notes};

/// If a text has no number sign, cutting the text with notes gives it again. Each line is cut at the first two blanks
/// before a number sign and a blank.
pub fn cut_again()
    ensures { (plain noted : List ℕ) → LacksSign plain → IsNoted plain noted
        → without_notes noted ≡ plain }
{}
