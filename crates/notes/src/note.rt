//! Words with a number between them.

ghost use Rattle.std.specs.Prelude.{◌≡◌, ◌++◌, Some, OnOk, string_bytes};
ghost use Rattle.notes.specs.Says.{note_of, said, words};

use std::alloc::AllocError;

/// A note on octets: `before`, then the number in decimal digits, if there is one, then `after`.
#[derive(Clone, Copy)]
pub struct Note {
    /// The words before the number, or all words.
    pub before: &'static str,
    /// The number.
    pub number: Option<u32>,
    /// The words after the number.
    pub after: &'static str,
}

impl Note {
    /// Returns a note of words alone.
    pub fn of(text: &'static str) -> Note
        ensures { said result.before.now result.number result.after.now ≡ words text.now }
    {
        Note {
            before: text,
            number: None,
            after: "",
        }
    }

    /// Returns a note with a number between words.
    pub(crate) fn with(before: &'static str, number: u8, after: &'static str) -> Note
        ensures { said result.before.now result.number result.after.now
            ≡ said before.now (Some number) after.now }
    {
        Note {
            before,
            number: Some(u32::from(number)),
            after,
        }
    }
}

/// Appends the text of a note.
#[tactic(auto, unfolding(crate::specs::Says::note_of))]
pub(crate) fn push_text(text: &mut String, note: Note) -> Result<(), AllocError>
    ensures { OnOk result (string_bytes text.new ≡ string_bytes text.old
        ++ note_of (said note.before.now note.number note.after.now)) }
{
    match note.number {
        Some(number) => write!(text, "{}{number}{}", note.before, note.after),
        None => text.push_str(note.before),
    }
}
