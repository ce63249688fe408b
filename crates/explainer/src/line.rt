//! A place of a text, as its line with a mark under it.

ghost use Rattle.std.specs.Prelude.{◌≡◌, ◌+◌, IfOk, slice_get, string_bytes, unwrap_or, if◌then◌else◌};
ghost use Rattle.explainer.specs.Texts.{character, is_printable, line_from, line_shown, marked_text, octet_named, place_note, shown_place};

use crate::mark::part;
use octet_core::hex_upper;
use std::alloc::{AllocError, Global};

/// The most characters that are shown before the marked one.
const BEFORE: usize = 40;

/// The most characters that are shown.
const SHOWN: usize = 60;

/// Returns the note on a place of a text: its line and column, what is wrong there, the line, and a mark under the
/// place.
pub(crate) fn marked_place(
    alloc: Global,
    text: &[u8],
    place: usize,
    what: &str,
) -> Result<String, AllocError>
    ensures { IfOk result (λ note.
        string_bytes note ≡ marked_text text.now place what.now) }
{
    let (number, start) = line_of(text, place)?;
    let column = one_more(place.saturating_sub(start))?;
    let first = start.max(place.saturating_sub(BEFORE));
    let line = shown(alloc, part(text, first, SHOWN))?;
    let before = place.saturating_sub(first);
    placed(alloc, number, column, what, line.as_str(), before)
}

/// Returns a line number and a column, what is wrong there, the characters of the line, and a mark after this many of
/// them.
fn placed(
    alloc: Global,
    number: usize,
    column: usize,
    what: &str,
    line: &str,
    before: usize,
) -> Result<String, AllocError>
    ensures { IfOk result (λ text.
        string_bytes text ≡ place_note number column what.now line.now before) }
{
    let blanks = " ".repeat(alloc, before)?;
    format!(in alloc; "line {number}, column {column}: {what}\n{line}\n{blanks}^\n")
}

/// Returns the number of the line that has a place, from 1, and where the line begins.
fn line_of(text: &[u8], place: usize) -> Result<(usize, usize), AllocError>
    ensures { IfOk result (λ line. line ≡ line_from 0 (1, 0) place text.now) }
{
    let mut line = (1, 0);
    let mut at = 0;
    for octet in text {
        line = line_after(line, at, *octet == b'\n' && at < place)?;
        at += 1;
    }
    Ok(line)
}

/// Returns the line after an octet at this place. `is_end` is whether the octet ends the line before.
fn line_after(line: (usize, usize), at: usize, is_end: bool) -> Result<(usize, usize), AllocError>
    ensures { IfOk result (λ next. next ≡ (if is_end then (line.0 + 1, at + 1) else line)) }
{
    if is_end {
        Ok((one_more(line.0)?, one_more(at)?))
    } else {
        Ok(line)
    }
}

/// Returns the next number. It can't overflow, since no text in memory has so many characters.
pub(crate) fn one_more(count: usize) -> Result<usize, AllocError>
    ensures { IfOk result (λ next. next ≡ count + 1) }
{
    count.checked_add(1).ok_or(AllocError)
}

/// Returns the characters of a line up to its end, with a question mark for each that isn't printable.
fn shown(alloc: Global, octets: &[u8]) -> Result<String, AllocError>
    ensures { IfOk result (λ line. string_bytes line ≡ line_shown octets.now) }
{
    let mut line = String::new(alloc);
    for octet in octets {
        if matches!(*octet, b'\n' | b'\r') {
            return Ok(line);
        }
        line.push(character(*octet))?;
    }
    Ok(line)
}

/// Returns an octet as a character, or a question mark if it isn't printable.
pub fn character(octet: u8) -> char
    ensures { result ≡ character octet }
{
    if is_printable(octet) {
        char::from(octet)
    } else {
        '?'
    }
}

fn is_printable(octet: u8) -> bool
    ensures { result ≡ is_printable octet }
{
    0x20 <= octet && octet <= 0x7E
}

/// Returns the name of an octet: its character, or its digits if it isn't printable.
pub(crate) fn octet_named(alloc: Global, octet: u8) -> Result<String, AllocError>
    ensures { IfOk result (λ text. string_bytes text ≡ octet_named octet) }
{
    if is_printable(octet) {
        return format!(in alloc; "'{}'", char::from(octet));
    }
    let digits = hex_upper(alloc, &[octet])?;
    format!(in alloc; "the octet {digits}")
}

/// Returns the octet at a place of a text, 0 if there is none.
pub(crate) fn octet_at(text: &[u8], place: usize) -> u8
    ensures { result ≡ unwrap_or (slice_get text.now place) 0 }
{
    match text.get(place) {
        Some(octet) => *octet,
        None => 0,
    }
}

/// Returns a place of a text. For the end of the text it is the place after the last character that isn't blank.
pub(crate) fn shown_place(text: &[u8], place: usize) -> usize
    ensures { result ≡ shown_place text.now place }
{
    if place < text.len() {
        place
    } else {
        text.trim_ascii_end().len()
    }
}
