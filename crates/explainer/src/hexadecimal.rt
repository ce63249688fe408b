//! The notes on texts in hexadecimal: the first wrong place, and what is wrong there.

ghost use Rattle.std.specs.Prelude.{◌≡◌, ◌+◌, ◌<◌, ◌^◌, IfOk, string_bytes};
ghost use Rattle.explainer.specs.Texts.{column_note, count_after, group_end, group_from, hex_stop, is_mark, may_stand, stray_from, wrong_note, wrong_said};

use crate::line::{marked_place, octet_named, one_more};
use octet_core::is_blank;
use std::alloc::{AllocError, Global};

/// What is wrong at a place of a text in hexadecimal.
#[derive(Clone, Copy)]
pub(crate) enum Wrong {
    /// This octet isn't a digit.
    Digit(u8),
    /// A group with an odd number of digits begins here.
    Odd,
    /// A `0x` with nothing after it begins here.
    Mark,
    /// The line of a pair has no second word.
    NoReply,
    /// A third word begins here.
    Third,
}

/// Returns the note on the first wrong place of a text in hexadecimal.
pub(crate) fn hexadecimal_note(alloc: Global, text: &[u8]) -> Result<String, AllocError>
    ensures { IfOk result (λ note. string_bytes note ≡ wrong_note text.now (hex_stop text.now)) }
{
    wrong_note(alloc, text, hex_stop(text))
}

/// Returns the note on a place of a text with what is wrong there, if there is such a place.
pub(crate) fn wrong_note(
    alloc: Global,
    text: &[u8],
    stop: Option<(usize, Wrong)>,
) -> Result<String, AllocError>
    ensures { IfOk result (λ note. string_bytes note ≡ wrong_note text.now stop) }
{
    match stop {
        Some((place, wrong)) => {
            let what = sentence(alloc, wrong)?;
            marked_place(alloc, text, place, what.as_str())
        }
        None => Ok(String::new(alloc)),
    }
}

/// Returns the explanation of a line that isn't in hexadecimal: the column of the first wrong place, counted from 1,
/// and what is wrong there.
pub fn digits_note(alloc: Global, line: &[u8]) -> Result<String, AllocError>
    ensures { IfOk result (λ note. string_bytes note ≡ column_note (hex_stop line.now)) }
{
    match hex_stop(line) {
        Some((place, wrong)) => {
            let column = one_more(place)?;
            let what = sentence(alloc, wrong)?;
            format!(in alloc; "column {column}: {what}\n")
        }
        None => Ok(String::new(alloc)),
    }
}

/// Returns the first wrong place of a text in hexadecimal: a wrong octet, or else a wrong group.
fn hex_stop(text: &[u8]) -> Option<(usize, Wrong)>
    ensures { result ≡ hex_stop text.now }
{
    match stray(text) {
        Some(stop) => Some(stop),
        None => wrong_group(text),
    }
}

/// Returns the first octet that isn't a digit, a blank or in a `0x` that begins a group.
fn stray(text: &[u8]) -> Option<(usize, Wrong)>
    ensures { result ≡ stray_from 0 32 32 text.now }
{
    let mut ahead = b' ';
    let mut last = b' ';
    let mut place = 0;
    for octet in text {
        if !may_stand(ahead, last, *octet) {
            return Some((place, Wrong::Digit(*octet)));
        }
        ahead = last;
        last = *octet;
        place += 1;
    }
    None
}

/// Whether an octet is allowed after these two.
fn may_stand(ahead: u8, last: u8, octet: u8) -> bool
    ensures { result ≡ may_stand ahead last octet }
{
    octet.is_ascii_hexdigit() || is_blank(octet) || (is_blank(ahead) && is_mark(last, octet))
}

/// Whether two octets are a `0x`.
pub(crate) fn is_mark(last: u8, octet: u8) -> bool
    ensures { result ≡ is_mark last octet }
{
    last == b'0' && matches!(octet, b'x' | b'X')
}

/// Returns the first group that isn't pairs of digits.
fn wrong_group(text: &[u8]) -> Option<(usize, Wrong)>
    ensures { result ≡ group_from 0 0 32 32 text.now }
{
    let mut ahead = b' ';
    let mut last = b' ';
    let mut place = 0;
    let mut count = 0;
    for octet in text {
        let stop = group_end(place, count, ahead, last);
        if is_blank(*octet) && stop.is_some() {
            return stop;
        }
        count = count_after(count, *octet);
        ahead = last;
        last = *octet;
        place += 1;
    }
    group_end(place, count, ahead, last)
}

/// Returns what is wrong with a group of this many octets that ends here, after these two.
fn group_end(place: usize, count: usize, ahead: u8, last: u8) -> Option<(usize, Wrong)>
    ensures { result ≡ group_end place count ahead last }
{
    let start = place.saturating_sub(count);
    if count == 2 && is_mark(ahead, last) {
        Some((start, Wrong::Mark))
    } else if count % 2 == 1 {
        Some((start, Wrong::Odd))
    } else {
        None
    }
}

/// Returns how many octets the group has after one more octet.
fn count_after(count: usize, octet: u8) -> usize
    requires { count + 1 < 2 ^ 64 }
    ensures { result ≡ count_after count octet }
{
    if is_blank(octet) { 0 } else { count + 1 }
}

/// Returns in words what is wrong.
fn sentence(alloc: Global, wrong: Wrong) -> Result<String, AllocError>
    ensures { IfOk result (λ what. string_bytes what ≡ wrong_said wrong) }
{
    match wrong {
        Wrong::Digit(octet) => {
            let named = octet_named(alloc, octet)?;
            format!(in alloc; "{named} isn't a hexadecimal digit")
        }
        Wrong::Odd => String::from_str(alloc, "this group has an odd number of digits"),
        Wrong::Mark => String::from_str(alloc, "digits must follow this 0x"),
        Wrong::NoReply => String::from_str(alloc, "a reply must follow the command"),
        Wrong::Third => String::from_str(alloc, "a line has only a command and a reply"),
    }
}
