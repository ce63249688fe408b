//! Notes on octets from a word or from standard input.

ghost use Rattle.std.specs.Prelude.{◌≡◌, ◌==◌, ◌||◌, IfOk, string_bytes};
ghost use Rattle.std.specs.List.{list_any};
ghost use Rattle.octet_core.specs.Words.{is_blank};
ghost use Rattle.command_line.specs.Form.{texts};
ghost use Rattle.explainer.specs.Words.{given_note, has_mark_after, octets_note, way_in};

use crate::hexadecimal::is_mark;
use crate::place::{has_option, option_place, place_of, word_at};
use crate::word::{hex_note, said};
use octet_core::is_blank;
use std::alloc::{AllocError, Global};

/// Returns the note on octets that are a word or on standard input. The word is the one with this index among the words
/// that aren't options. `forms` names the forms of standard input.
pub(crate) fn given_note(
    alloc: Global,
    words: &[String],
    nth: usize,
    forms: &str,
) -> Result<String, AllocError>
    ensures { IfOk result (λ note.
        string_bytes note ≡ given_note (texts words.now) nth forms.now) }
{
    let hex = place_of(words, nth);
    if has_option(words, "--stdin") {
        if hex < words.len() {
            return said(alloc, hex, "give HEX or --stdin, not both");
        }
        return said(alloc, option_place(words, "--stdin"), forms);
    }
    if hex < words.len() {
        return octets_note(alloc, hex, word_at(words, hex));
    }
    String::from_str(alloc, "give the octets as HEX, or by --stdin FORM\n")
}

/// Returns what is wrong with a word HEX, and which form of standard input reads what it looks like.
fn octets_note(alloc: Global, number: usize, word: &str) -> Result<String, AllocError>
    ensures { IfOk result (λ note. string_bytes note ≡ octets_note number word.now) }
{
    let mut note = hex_note(alloc, number, word)?;
    if !note.is_empty() {
        note.push_str(way_in(word))?;
    }
    Ok(note)
}

/// Returns which form of standard input reads what a word looks like that isn't hexadecimal: octets with blanks or
/// `0x`, octets with colons, dashes or commas, or the name of a file.
fn way_in(word: &str) -> &'static str
    ensures { result.now ≡ way_in word.now }
{
    let octets = word.as_bytes();
    if has_blank(octets) || has_mark(octets) {
        "--stdin hex reads octets with blanks or 0x from standard input\n"
    } else if has_separator(octets) {
        "--stdin source reads octets with colons, dashes or commas from standard input\n"
    } else if is_path(octets) {
        "give the file on standard input: --stdin hex <FILE\n"
    } else {
        ""
    }
}

fn has_blank(octets: &[u8]) -> bool
    ensures { result ≡ list_any is_blank octets.now }
{
    octets.iter().any(|octet| is_blank(*octet))
}

/// Whether these octets have a colon, a dash or a comma.
fn has_separator(octets: &[u8]) -> bool
    ensures { result ≡ list_any (λ x. x == 58 || (x == 45 || x == 44)) octets.now }
{
    octets
        .iter()
        .any(|octet| *octet == b':' || *octet == b'-' || *octet == b',')
}

/// Whether these octets have a point or a slash.
fn is_path(octets: &[u8]) -> bool
    ensures { result ≡ list_any (λ x. x == 46 || x == 47) octets.now }
{
    octets.iter().any(|octet| *octet == b'.' || *octet == b'/')
}

/// Whether these octets have a `0x` or a `0X`.
fn has_mark(octets: &[u8]) -> bool
    ensures { result ≡ has_mark_after 32 octets.now }
{
    let mut last = b' ';
    for octet in octets {
        if is_mark(last, *octet) {
            return true;
        }
        last = *octet;
    }
    false
}
