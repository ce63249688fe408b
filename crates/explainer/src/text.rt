//! The notes on a text of standard input: that it isn't in its form, or that it is also a dump.

ghost use Rattle.std.specs.Prelude.{◌≡◌, IfOk, string_bytes};
ghost use Rattle.explainer.specs.Sentences.{form_text};
ghost use Rattle.explainer.specs.Texts.{begins_with_mark, first_note, has_other_octets, is_form, mark_said, offsets_note, other_text, takes, text_note};

use crate::hexadecimal::hexadecimal_note;
use crate::misread::{dump_note, source_note};
use dumps::{begins_with_offset, is_octal_words};
use octet_core::Octets;
use program_words::{Fault, Form};
use std::alloc::{AllocError, Global};

/// The note on a dump that is read as hexadecimal.
const OFFSETS: &str =
    "standard input: this text is also a dump, and --stdin hex reads its offsets as octets; --stdin dump skips them\n";

/// The note on words of `od` that are read as hexadecimal.
const WORDS: &str =
    "standard input: od wrote two octets as six octal digits, which --stdin hex reads as three octets; use od -tx1\n";

/// The note on a byte order mark, which no form allows.
const ORDER_MARK: &str =
    "standard input: this text begins with a byte order mark, which no form allows\n";

/// Returns the explanation of a text that isn't in its form. It gives the first wrong place by its line and column,
/// counted from 1, and the line with a mark under the place. Then come how to write octets in the form, and the option
/// for another form that reads the text, if there is one.
pub fn text_note(alloc: Global, form: Form, text: &[u8]) -> Result<String, AllocError>
    ensures { IfOk result (λ note. string_bytes note ≡ text_note form text.now) }
{
    let mut note = first_note(alloc, form, text)?;
    note.push_str(mark_said(text))?;
    note.push_str(what_form(form))?;
    note.push_str(other_form(alloc, form, text)?)?;
    Ok(note)
}

/// Returns the note on the first wrong place of a text in its form.
fn first_note(alloc: Global, form: Form, text: &[u8]) -> Result<String, AllocError>
    ensures { IfOk result (λ note. string_bytes note ≡ first_note form text.now) }
{
    match form {
        Form::Hex => hexadecimal_note(alloc, text),
        Form::Dump => dump_note(alloc, text),
        Form::Source => source_note(alloc, text),
        Form::Octets => Ok(String::new(alloc)),
    }
}

/// Returns a line on how to write octets in a form. Empty for the form octets, which any text has.
fn what_form(form: Form) -> &'static str
    ensures { result.now ≡ form_text form }
{
    match form {
        Form::Hex => {
            "standard input: an octet is two hexadecimal digits, and blanks separate groups of octets\n"
        }
        Form::Octets => "",
        Form::Dump =>
            "standard input: a dump is the whole output of xxd, hexdump -C, od -tx1, tshark -x, gdb, HxD or Format-Hex\n",
        Form::Source =>
            "standard input: write each octet as 0x3B, \\x3b, 3Bh or 3B, and all in the same way\n",
    }
}

/// Returns the note on a text that begins with a byte order mark.
fn mark_said(text: &[u8]) -> &'static str
    ensures { result.now ≡ mark_said text.now }
{
    if begins_with_mark(text) {
        ORDER_MARK
    } else {
        ""
    }
}

/// Whether a text begins with a byte order mark, of UTF-8 or UTF-16.
fn begins_with_mark(text: &[u8]) -> bool
    ensures { result ≡ begins_with_mark text.now }
{
    matches!(
        text,
        [0xEF, 0xBB, 0xBF, ..] | [0xFE, 0xFF, ..] | [0xFF, 0xFE, ..]
    )
}

/// Whether hexadecimal would read the offsets or the words of a text as other octets.
fn has_other_octets(text: &[u8]) -> bool
    ensures { result ≡ has_other_octets text.now }
{
    begins_with_offset(text) || is_octal_words(text)
}

/// Returns the option for another form that reads the text, as a line. It is never hexadecimal for a text with offsets
/// or octal words, since hexadecimal would read them as other octets.
fn other_form(alloc: Global, form: Form, text: &[u8]) -> Result<&'static str, AllocError>
    ensures { IfOk result (λ other. other.now ≡ other_text form text.now) }
{
    if !is_form(form, Form::Hex) && !has_other_octets(text) && takes(alloc, Form::Hex, text)? {
        return Ok("--stdin hex reads this text\n");
    }
    if !is_form(form, Form::Dump) && takes(alloc, Form::Dump, text)? {
        return Ok("--stdin dump reads this text\n");
    }
    if !is_form(form, Form::Source) && takes(alloc, Form::Source, text)? {
        return Ok("--stdin source reads this text\n");
    }
    Ok("")
}

/// Whether two forms are the same.
fn is_form(form: Form, other: Form) -> bool
    ensures { result ≡ is_form form other }
{
    matches!(
        (form, other),
        (Form::Hex, Form::Hex)
            | (Form::Octets, Form::Octets)
            | (Form::Dump, Form::Dump)
            | (Form::Source, Form::Source)
    )
}

/// Whether a text is in a form.
fn takes(alloc: Global, form: Form, text: &[u8]) -> Result<bool, AllocError>
    ensures { IfOk result (λ is_so. is_so ≡ takes form text.now) }
{
    match form.octets(alloc, Octets::of(text.to_vec(alloc)?)) {
        Ok(_) => Ok(true),
        Err(Fault::Memory) => Err(AllocError),
        Err(_) => Ok(false),
    }
}

/// Returns the explanation of a hexadecimal text that means other octets. It begins with an offset and is also a dump
/// of some octets, so its offsets are read as octets; or it is octal words of `od`. Empty for any other text.
pub fn offsets_note(alloc: Global, text: Octets) -> Result<String, AllocError>
    ensures { IfOk result (λ note. string_bytes note ≡ offsets_note text) }
{
    if is_octal_words(text.get()) {
        return String::from_str(alloc, WORDS);
    }
    if !begins_with_offset(text.get()) {
        return Ok(String::new(alloc));
    }
    match Form::Dump.octets(alloc, text) {
        Ok(octets) if !octets.get().is_empty() => String::from_str(alloc, OFFSETS),
        Err(Fault::Memory) => Err(AllocError),
        _ => Ok(String::new(alloc)),
    }
}
