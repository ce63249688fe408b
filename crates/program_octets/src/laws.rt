//! What holds of the definitions alone. The contracts state it.

ghost use Rattle.std.specs.Prelude.{◌≡◌, ◌++◌, ℕ, List, Bool, true, false};
ghost use Rattle.notes.specs.Noted.{without_notes};
ghost use Rattle.program_words.specs.declared.request.Expected.{Expected as AnyExpected};
ghost use Rattle.program_words.specs.declared.request.Kind.{Kind as AnyKind};
ghost use Rattle.program_octets.specs.Rows.{lines_of, places_of, with_notes_of, Row};
ghost use Rattle.program_octets.specs.Sayings.{faulted, text_of};
ghost use Rattle.program_octets.specs.Verdicts.{codec_of};
ghost use Rattle.program_words.specs.Texts.{fault_text};
ghost use Rattle.program_words.specs.declared.fault.Fault.{Fault as AnyFault};

/// If the lines of a value with notes are cut at their notes, they are its lines without notes.
pub fn notes_apart()
    ensures { (kind : AnyKind) (expected : AnyExpected) (v : (codec_of kind expected).Value) (n : ℕ)
        → without_notes (lines_of true ((codec_of kind expected).codec.rows v n))
        ≡ lines_of false ((codec_of kind expected).codec.rows v n) }
{}

/// Each rendering has every row, in the order of the rows: the lines, the places, and the notes of those that have notes.
pub fn in_order()
    ensures lines { (noted : Bool) (rows others : List Row)
        → lines_of noted (rows ++ others) ≡ lines_of noted rows ++ lines_of noted others }
    ensures places { (rows others : List Row)
        → places_of (rows ++ others) ≡ places_of rows ++ places_of others }
    ensures notes { (items : List ℕ) (rows others : List Row)
        → with_notes_of items (rows ++ others) ≡ with_notes_of (with_notes_of items rows) others }
{}

/// A fault that an answer says has the line of that fault as its text.
pub fn fault_lines()
    ensures { (fault : AnyFault) → text_of (faulted fault) ≡ fault_text fault }
{}
