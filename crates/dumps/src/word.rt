//! The words of octets in a source, of at most four characters.

ghost use Rattle.std.specs.Prelude.{◌≡◌};
ghost use Rattle.dumps.specs.Words.{all_digits, first_of, has_letter, is_one, is_prefix, is_suffix, is_type, longer, marked, octet_of, suffixed, written};

use crate::marks::is_digit;
use crate::text::{NO_DIGIT, digit, pair};

/// How an octet is written.
#[derive(Clone, Copy, PartialEq)]
pub(crate) enum Writing {
    /// `3B`.
    Plain,
    /// `0x3B`, or `0x0`.
    Marked,
    /// `3Bh`.
    Suffixed,
    /// `\x3b`.
    Escaped,
}

/// The characters of a word so far.
#[derive(Clone, Copy)]
pub(crate) enum Word {
    /// None.
    Empty,
    /// One.
    One(u8),
    /// Two.
    Two(u8, u8),
    /// Three.
    Three(u8, u8, u8),
    /// Four, the longest octet.
    Four(u8, u8, u8, u8),
}

impl Word {
    /// Returns the word with one more character.
    pub(crate) fn longer(self, x: u8) -> Option<Word>
        ensures { result ≡ longer self x }
    {
        match self {
            Word::Empty => Some(Word::One(x)),
            Word::One(a) => Some(Word::Two(a, x)),
            Word::Two(a, b) => Some(Word::Three(a, b, x)),
            Word::Three(a, b, c) => Some(Word::Four(a, b, c, x)),
            Word::Four(..) => None,
        }
    }

    /// Returns the octet of the word, and how it is written.
    pub(crate) fn octet(self) -> Option<(Writing, u8)>
        ensures { result ≡ octet_of self }
    {
        match self {
            Word::Two(a, b) => written(Writing::Plain, pair(a, b)),
            Word::Three(b'0', b'x' | b'X', c) => marked(c),
            Word::Three(a, b, c) => suffixed(a, b, c),
            Word::Four(b'0', b'x' | b'X', c, d) => written(Writing::Marked, pair(c, d)),
            Word::Four(b'\\', b'x', c, d) => written(Writing::Escaped, pair(c, d)),
            _ => None,
        }
    }

    /// Whether the word is a pair with a letter, or longer than a pair.
    pub(crate) fn has_letter(self) -> bool
        ensures { result ≡ has_letter self }
    {
        match self {
            Word::Two(a, b) => a > b'9' || b > b'9',
            Word::Three(..) | Word::Four(..) => true,
            _ => false,
        }
    }

    /// Whether the word is Python's mark of a string of octets.
    pub(crate) fn is_prefix(self) -> bool
        ensures { result ≡ is_prefix self }
    {
        matches!(self, Word::One(b'b' | b'B'))
    }

    /// Returns the first character, 0 for an empty word.
    pub(crate) fn first(self) -> u8
        ensures { result ≡ first_of self }
    {
        match self {
            Word::Empty => 0,
            Word::One(a) | Word::Two(a, _) | Word::Three(a, ..) | Word::Four(a, ..) => a,
        }
    }

    /// Whether the word is only hexadecimal digits.
    pub(crate) fn all_digits(self) -> bool
        ensures { result ≡ all_digits self }
    {
        match self {
            Word::Empty => false,
            Word::One(a) => is_digit(a),
            Word::Two(a, b) => is_digit(a) && is_digit(b),
            Word::Three(a, b, c) => is_digit(a) && is_digit(b) && is_digit(c),
            Word::Four(a, b, c, d) => is_digit(a) && is_digit(b) && is_digit(c) && is_digit(d),
        }
    }

    /// Whether the word is one character.
    pub(crate) fn is_one(self) -> bool
        ensures { result ≡ is_one self }
    {
        matches!(self, Word::One(_))
    }

    /// Whether the word is `byte` or `new`, which give no octet.
    pub(crate) fn is_type(self) -> bool
        ensures { result ≡ is_type self }
    {
        matches!(
            self,
            Word::Three(b'n', b'e', b'w') | Word::Four(b'b', b'y', b't', b'e')
        )
    }

    /// Whether the word is `u8`, which Rust may write after a number.
    pub(crate) fn is_suffix(self) -> bool
        ensures { result ≡ is_suffix self }
    {
        matches!(self, Word::Two(b'u', b'8'))
    }
}

/// Returns an octet and how it is written, if there is one.
fn written(writing: Writing, octet: Option<u8>) -> Option<(Writing, u8)>
    ensures { result ≡ written writing octet }
{
    match octet {
        Some(octet) => Some((writing, octet)),
        None => None,
    }
}

/// Returns the octet of one digit after its mark.
fn marked(x: u8) -> Option<(Writing, u8)>
    ensures { result ≡ marked x }
{
    let value = digit(x);
    if value == NO_DIGIT {
        None
    } else {
        Some((Writing::Marked, value))
    }
}

/// Returns the octet of two digits before an `h`.
fn suffixed(a: u8, b: u8, c: u8) -> Option<(Writing, u8)>
    ensures { result ≡ suffixed a b c }
{
    if c == b'h' || c == b'H' {
        written(Writing::Suffixed, pair(a, b))
    } else {
        None
    }
}
