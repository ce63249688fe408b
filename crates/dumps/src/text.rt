//! The characters in front of a text: digits, groups of them, blanks.

ghost use Rattle.std.specs.Prelude.{◌≡◌, ℕ, List, Option, Some, None, IfOk, option_map, if◌then◌else◌};
ghost use Rattle.dumps.specs.Characters.{after_blanks, after_shown, digit, front_octet, groups, is_pair, joined_to, octet_at, shown, step};
ghost use Rattle.dumps.specs.Bases.{offset_from};

use crate::base::Base;
use std::alloc::AllocError;

/// The value of a character that isn't a digit.
pub(crate) const NO_DIGIT: u8 = 16;

/// The value of all offsets from 2 ^ 49 on, which is this number.
const BEYOND: usize = 562_949_953_421_312;

/// Returns the value of a digit in either case, 16 for any other character.
pub(crate) fn digit(x: u8) -> u8
    ensures { result ≡ digit x }
{
    match x {
        b'0'..=b'9' => x - b'0',
        b'A'..=b'F' => x - b'A' + 10,
        b'a'..=b'f' => x - b'a' + 10,
        _ => NO_DIGIT,
    }
}

/// Returns the octet of two digits.
pub(crate) fn pair(x: u8, y: u8) -> Option<u8>
    ensures { result ≡ (if is_pair x y then Some (octet_at x y) else None) }
{
    let high = digit(x);
    let low = digit(y);
    if high < NO_DIGIT && low < NO_DIGIT {
        Some(high * 16 + low)
    } else {
        None
    }
}

/// Returns the number in front of a text in the digits of a base, and the text after it. A number from 2 ^ 49 on counts
/// as 2 ^ 49.
pub(crate) fn offset(base: Base, text: &[u8]) -> (usize, &[u8])
    ensures { (result.0, result.1.now) ≡ offset_from base 0 text.now }
{
    let mut number = 0;
    let mut rest = text;
    while let [x, after @ ..] = rest {
        let value = digit(*x);
        if value >= base.radix() {
            break;
        }
        number = (base.shifted(number) + usize::from(value)).min(BEYOND);
        rest = after;
    }
    (number, rest)
}

/// Appends the octets of the groups in front of a text. Returns the text after them. `joins` is whether a group may
/// have more than one octet, `spaced` whether a blank comes before the text.
pub(crate) fn push_groups<'a>(
    octets: &mut Vec<u8>,
    text: &'a [u8],
    joins: bool,
    spaced: bool,
) -> Result<&'a [u8], AllocError>
    ensures { IfOk result (λ rest. (octets.new.items, rest.now)
        ≡ joined_to octets.old.items (groups joins spaced text.now)) }
{
    let mut may_begin = spaced;
    let mut rest = text;
    while let Some((octet, after)) = step(rest, joins, may_begin) {
        match octet {
            None => may_begin = true,
            Some(octet) => {
                octets.push(octet)?;
                may_begin = false;
            }
        }
        rest = after;
    }
    Ok(rest)
}

/// Returns the blank or the octet that a text of groups begins with, and the text after it.
fn step(text: &[u8], joins: bool, spaced: bool) -> Option<(Option<u8>, &[u8])>
    ensures { option_map (λ s. (s.0, s.1.now)) result ≡ step joins spaced text.now }
{
    match text {
        [b' ', after @ ..] if !spaced => Some((None, after)),
        _ => front_octet(text, spaced || joins),
    }
}

/// Returns the octet in front of a text, if it is allowed there, and the text after it.
fn front_octet(text: &[u8], may_begin: bool) -> Option<(Option<u8>, &[u8])>
    ensures { option_map (λ s. (s.0, s.1.now)) result ≡ front_octet may_begin text.now }
{
    match text {
        [x, y, after @ ..] if may_begin => octet_and(pair(*x, *y), after),
        _ => None,
    }
}

/// Returns an octet, if there is one, and the text after it.
fn octet_and(octet: Option<u8>, after: &[u8]) -> Option<(Option<u8>, &[u8])>
    ensures { option_map (λ s. (s.0, s.1.now)) result
        ≡ option_map {U = Option ℕ × List ℕ} (λ o. (Some o, after.now)) octet }
{
    match octet {
        Some(octet) => Some((Some(octet), after)),
        None => None,
    }
}

/// Returns the text after the blanks in front of it.
pub(crate) fn after_blanks(text: &[u8]) -> &[u8]
    ensures { result.now ≡ after_blanks text.now }
{
    let mut rest = text;
    while let [b' ', after @ ..] = rest {
        rest = after;
    }
    rest
}

/// Returns the character that shows an octet in a column.
pub(crate) fn shown(octet: u8) -> u8
    ensures { result ≡ shown octet }
{
    match octet {
        b' '..=b'~' => octet,
        _ => b'.',
    }
}

/// Returns the text after the characters that show these octets, if it begins with them.
pub(crate) fn after_shown<'a>(octets: &[u8], text: &'a [u8]) -> Option<&'a [u8]>
    ensures { option_map (λ rest. rest.now) result ≡ after_shown octets.now text.now }
{
    let mut left = octets;
    let mut rest = text;
    while let [octet, more @ ..] = left {
        match rest {
            [x, after @ ..] if *x == shown(*octet) => rest = after,
            _ => return None,
        }
        left = more;
    }
    Some(rest)
}
