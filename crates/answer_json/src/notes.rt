//! The notes on lines as an array of objects.

ghost use Rattle.std.specs.Prelude.{◌≡◌, IfOk, OnOk, string_bytes};
ghost use Rattle.answer_json.specs.Notes.{note_object, with_note, with_object};

use crate::strings::line_string;
use layouts::push_separator;
use std::alloc::{AllocError, Global};

/// Appends a line and its note to the items of a JSON array, if the note isn't empty. An item is an object. Each octet
/// becomes the character with its number.
pub fn push_note(
    alloc: Global,
    items: &mut String,
    line: &[u8],
    note: &[u8],
) -> Result<(), AllocError>
    ensures { OnOk result (string_bytes items.new
        ≡ with_note (string_bytes items.old) line.now note.now) }
{
    match note {
        [] => Ok(()),
        [_, ..] => push_object(alloc, items, line, note),
    }
}

/// Appends a line and its note to the items.
fn push_object(
    alloc: Global,
    items: &mut String,
    line: &[u8],
    note: &[u8],
) -> Result<(), AllocError>
    ensures { OnOk result (string_bytes items.new
        ≡ with_object (string_bytes items.old) line.now note.now) }
{
    let object = note_object(alloc, line, note)?;
    push_separator(items)?;
    items.push_str(object.as_str())
}

/// Returns a line and its note as an object.
fn note_object(alloc: Global, line: &[u8], note: &[u8]) -> Result<String, AllocError>
    ensures { IfOk result (λ object. string_bytes object ≡ note_object line.now note.now) }
{
    let line = line_string(alloc, line)?;
    let note = line_string(alloc, note)?;
    format!(in alloc; "{{\"line\":{line},\"note\":{note}}}")
}
