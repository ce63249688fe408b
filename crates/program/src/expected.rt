//! What is expected in a line of the file of a recorded exchange.

ghost use Rattle.std.specs.Prelude.{◌≡◌, ◌==◌, ◌<◌, bytes_eq, length, IfSome};
ghost use Rattle.std.specs.List.{position_from};
ghost use Rattle.program.specs.FileNotes.{begins_with_mark, ends_word, first_word, form_at, form_of, has_return, header_at, octets_at, returns_after, stands_alone, takes_octet, takes_octets};

use crate::file_notes::{ATR_LINE, line_from};

/// The note on a line that ends with a carriage return.
const RETURN: &str = "it ends with a carriage return; expected: a line feed alone";

/// Whether a line ends with a carriage return.
fn has_return(text: &[u8], number: usize) -> bool
    ensures { result ≡ has_return text.now number }
{
    returns_after(b'\n', line_from(text, number))
}

/// Whether the line at the front of a text, after this octet, ends with a carriage return.
fn returns_after(before: u8, text: &[u8]) -> bool
    ensures { result ≡ returns_after before text.now }
{
    let mut last = before;
    for octet in text {
        if *octet == b'\n' {
            return last == b'\r';
        }
        last = *octet;
    }
    last == b'\r'
}

/// Returns what is wrong with a first line that isn't the header.
pub(crate) fn header_at(text: &[u8]) -> &'static str
    ensures { result.now ≡ header_at text.now }
{
    if begins_with_mark(text) {
        "it begins with a byte order mark; expected: scard-exchange 1 or scard-exchange 2, and a line feed"
    } else if has_return(text, 1) {
        RETURN
    } else {
        "expected: scard-exchange 1 or scard-exchange 2, and a line feed"
    }
}

/// Whether a text begins with the byte order mark of UTF-8.
fn begins_with_mark(text: &[u8]) -> bool
    ensures { result ≡ begins_with_mark text.now }
{
    matches!(text, [0xEF, 0xBB, 0xBF, ..])
}

/// Returns what is wrong with a line that should have octets and hasn't.
pub(crate) fn octets_at(text: &[u8], number: usize) -> &'static str
    ensures { result.now ≡ octets_at text.now number }
{
    if has_return(text, number) {
        RETURN
    } else {
        "expected: OCTETS in upper-case hexadecimal, two digits each, or none; HH is one octet"
    }
}

/// Returns the form of a line, by its first word.
pub(crate) fn form_at(text: &[u8], number: usize) -> &'static str
    ensures { result.now ≡ form_at text.now number }
{
    if has_return(text, number) {
        RETURN
    } else if number == ATR_LINE {
        "expected: atr OCTETS"
    } else {
        form_of(first_word(line_from(text, number)))
    }
}

/// Returns what must come after a first word. For an unknown word, returns which words may come first.
fn form_of(word: &[u8]) -> &'static str
    ensures { result.now ≡ form_of word.now }
{
    if takes_octets(word) {
        "expected: this word and OCTETS"
    } else if takes_octet(word) {
        "expected: this word and HH"
    } else if stands_alone(word) {
        "expected: this word alone"
    } else if is_word(word, "t") {
        "expected: t OCTETS, t OCTETS lost or t OCTETS as OCTETS"
    } else if is_word(word, "c") {
        "expected: c OCTETS, c OCTETS lost or c OCTETS as OCTETS"
    } else if is_word(word, "at") {
        "expected: at N, N in 1 to 15 decimal digits, in version 2"
    } else if is_word(word, "note") {
        "expected: note TEXT, TEXT of 1 to 200 printable characters, in version 2"
    } else {
        "expected: a first word that a line can have, as command, t, c, asked, reply, answer or quiet"
    }
}

fn takes_octets(word: &[u8]) -> bool
    ensures { result ≡ takes_octets word.now }
{
    is_word(word, "command")
        || is_word(word, "answer")
        || is_word(word, "reply")
        || is_word(word, "asked")
}

fn takes_octet(word: &[u8]) -> bool
    ensures { result ≡ takes_octet word.now }
{
    is_word(word, "ifsd") || is_word(word, "time") || is_word(word, "ifsc")
}

fn stands_alone(word: &[u8]) -> bool
    ensures { result ≡ stands_alone word.now }
{
    is_word(word, "quiet")
        || is_word(word, "ifs-set")
        || is_word(word, "given-up")
        || is_word(word, "dead")
}

fn is_word(word: &[u8], name: &str) -> bool
    ensures { result ≡ bytes_eq word.now name.now }
{
    word == name.as_bytes()
}

/// Returns the octets before the first space of the line at the front of a text.
fn first_word(text: &[u8]) -> &[u8]
    ensures { result.now ≡ first_word text.now }
{
    match end_of_word(text) {
        Some(place) => &text[..place],
        None => text,
    }
}

/// Returns the place of the first octet that ends a word.
fn end_of_word(text: &[u8]) -> Option<usize>
    ensures place { result ≡ position_from ends_word 0 text.now }
    ensures inside { IfSome result (λ place. place < length text.now) }
{
    text.iter().position(|octet| matches!(*octet, b' ' | b'\n'))
}
