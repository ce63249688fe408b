//! The kinds of characters in a source.

ghost use Rattle.std.specs.Prelude.{◌≡◌};
ghost use Rattle.dumps.specs.Characters.{is_digit};
ghost use Rattle.dumps.specs.Turns.{is_between, is_letter, is_listing, is_part, is_quote, is_space};

use crate::text::{NO_DIGIT, digit};

pub(crate) fn is_digit(x: u8) -> bool
    ensures { result ≡ is_digit x }
{
    digit(x) != NO_DIGIT
}

/// Whether the character is a letter or a decimal digit.
pub(crate) fn is_part(x: u8) -> bool
    ensures { result ≡ is_part x }
{
    matches!(x, b'0'..=b'9' | b'A'..=b'Z' | b'a'..=b'z')
}

/// Whether the character is allowed between octets: a blank, a line end, `:`, `-` or `_`.
pub(crate) fn is_between(x: u8) -> bool
    ensures { result ≡ is_between x }
{
    matches!(x, b' ' | b'\t' | b'\n' | b'\r' | b':' | b'-' | b'_')
}

/// Whether the character is one that lists are written with.
pub(crate) fn is_listing(x: u8) -> bool
    ensures { result ≡ is_listing x }
{
    matches!(x, b',' | b';' | b'{' | b'}' | b'[' | b']' | b'(' | b')')
}

pub(crate) fn is_quote(x: u8) -> bool
    ensures { result ≡ is_quote x }
{
    matches!(x, b'"' | b'\'')
}

/// Whether the character is a blank or a line end.
pub(crate) fn is_space(x: u8) -> bool
    ensures { result ≡ is_space x }
{
    matches!(x, b' ' | b'\t' | b'\n' | b'\r')
}

pub(crate) fn is_letter(x: u8) -> bool
    ensures { result ≡ is_letter x }
{
    matches!(x, b'A'..=b'Z' | b'a'..=b'z')
}
