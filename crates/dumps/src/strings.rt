//! Strings of octets, as Python and Rust write them with a `b` before them: each character is an octet.

ghost use Rattle.std.specs.Prelude.{◌≡◌, Some, None};
ghost use Rattle.dumps.specs.Source.{string_at};
ghost use Rattle.dumps.specs.Strings.{after_backslash, character, escaped, first_digit, in_string, is_of_pairs, plain_character};
ghost use Rattle.dumps.specs.Turns.{with_character};

use crate::marks::{is_between, is_digit, is_listing};
use crate::text::pair;
use crate::turn::{Now, Place, Turn};
use crate::word::{Word, Writing};

impl Now {
    /// Takes a character in a string of octets.
    pub(crate) fn in_string(self, quote: u8, x: u8) -> Turn
        ensures { result ≡ in_string quote self.word self x }
    {
        match self.word {
            Word::Empty => self.plain_character(quote, x),
            Word::One(_) => self.after_backslash(x),
            Word::Two(..) => self.first_digit(x),
            Word::Three(_, _, high) => self.character(pair(high, x)),
            Word::Four(..) => None,
        }
    }

    /// Takes a plain character, the quote that ends the string, or a `\`.
    fn plain_character(self, quote: u8, x: u8) -> Turn
        ensures { result ≡ plain_character quote self x }
    {
        if x == quote {
            return Some((self.at(Place::Code), None));
        }
        match x {
            b'\\' => Some((self.with_word(Word::One(x)), None)),
            b' '..=b'~' => Some((self.with_character(!is_of_pairs(x)), Some(x))),
            _ => None,
        }
    }

    /// Takes the character after a `\`.
    fn after_backslash(self, x: u8) -> Turn
        ensures { result ≡ after_backslash self x }
    {
        if x == b'x' {
            Some((self.with_word(Word::Two(b'\\', b'x')), None))
        } else {
            self.character(escaped(x))
        }
    }

    /// Takes the first digit after `\x`.
    fn first_digit(self, x: u8) -> Turn
        ensures { result ≡ first_digit self x }
    {
        if is_digit(x) {
            Some((self.with_word(Word::Three(b'\\', b'x', x)), None))
        } else {
            None
        }
    }

    /// Ends an escape, which gives an octet.
    fn character(self, octet: Option<u8>) -> Turn
        ensures { result ≡ character self octet }
    {
        match octet {
            Some(octet) => Some((self.with_character(true), Some(octet))),
            None => None,
        }
    }

    /// Returns the state after a character. `other` is whether it couldn't be part of a pair.
    fn with_character(self, other: bool) -> Now
        ensures { result ≡ with_character other self }
    {
        let lettered = self.lettered || other;
        Now {
            word: Word::Empty,
            writing: Some(Writing::Escaped),
            lettered,
            ..self
        }
    }
}

/// Whether a character could come in a text of pairs.
fn is_of_pairs(x: u8) -> bool
    ensures { result ≡ is_of_pairs x }
{
    is_digit(x) || is_between(x) || is_listing(x)
}

/// Returns the octet of one character after a `\`.
fn escaped(x: u8) -> Option<u8>
    ensures { result ≡ escaped x }
{
    match x {
        b'n' => Some(b'\n'),
        b'r' => Some(b'\r'),
        b't' => Some(b'\t'),
        b'\\' | b'\'' | b'"' => Some(x),
        _ => None,
    }
}

/// Returns the string of octets that a quote begins.
pub(crate) fn string_at(quote: u8) -> Place
    ensures { result ≡ string_at quote }
{
    if quote == b'"' {
        Place::DoubleString
    } else {
        Place::SingleString
    }
}
