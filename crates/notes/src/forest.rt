//! Notes on data objects.

ghost use Rattle.std.specs.Prelude.{◌≡◌, ℕ, ◌-◌, ◌+◌, ◌++◌, OnOk, length, string_bytes};
ghost use Rattle.tlv_core.specs.Flat.{part_seen};
ghost use Rattle.tlv_core.specs.Tag.{length_field};
ghost use Rattle.notes.specs.Says.{object_note, tag_says, value_note, value_quoted};

use crate::text::{as_text, push_counted};
use std::alloc::AllocError;
use tlv_core::{Form, Part, Tag};

/// Appends the note on a data object: the places of its header and of its value, the length of the value, its class,
/// and its value as text if it is text (ISO/IEC 7816-4:2005, 5.2.2).
pub(crate) fn push_object(text: &mut String, part: &Part<'_>) -> Result<(), AllocError>
    ensures { OnOk result (string_bytes text.new ≡ string_bytes text.old
        ++ object_note (part_seen part.now)) }
{
    let place = part.place;
    let header = header_at(part.tag, part.form, place);
    write!(text, "at {header}, value at {place}, ")?;
    push_value(text, part)
}

/// Appends the length of an object's value, its class, and its value as text if it is text.
fn push_value(text: &mut String, part: &Part<'_>) -> Result<(), AllocError>
    ensures { OnOk result (string_bytes text.new ≡ string_bytes text.old
        ++ value_note (part_seen part.now)) }
{
    push_counted(text, part.value.len())?;
    text.push_str(", ")?;
    text.push_str(class_name(part.tag.octets()[0]))?;
    push_quoted(text, part)
}

/// Appends the value of an object as text, after a separator.
fn push_quoted(text: &mut String, part: &Part<'_>) -> Result<(), AllocError>
    ensures { OnOk result (string_bytes text.new ≡ string_bytes text.old
        ++ value_quoted (part_seen part.now)) }
{
    if part.tag.is_constructed() {
        return Ok(());
    }
    match as_text(part.value) {
        Some(words) => write!(text, ", \"{words}\""),
        None => Ok(()),
    }
}

/// Returns the place of the header of an object whose value is at this place.
pub(crate) fn header_at(tag: Tag, form: Form, place: usize) -> usize
    ensures { (len : ℕ) → result ≡ place - (length tag + length (length_field form len)) }
{
    place.saturating_sub(tag.octets().len() + form.octets())
}

/// Returns the class of a tag by its first octet (ISO/IEC 7816-4:2005, 5.2.2.1).
pub fn class_name(first: u8) -> &'static str
    ensures { result.now ≡ tag_says first }
{
    match first / 64 {
        0 => "universal class",
        1 => "application class",
        2 => "context-specific class",
        _ => "private class",
    }
}
