//! The text that may come before the octets of a source, and after them: a label or a declaration.

ghost use Rattle.std.specs.Prelude.{◌≡◌, ◌&&◌};
ghost use Rattle.dumps.specs.Heads.{after_declaration, in_count, in_head, in_name, in_size, is_name, is_octets, mark_in_head, may_name, named, or_long};
ghost use Rattle.dumps.specs.Turns.{with_declaration, with_end, with_label};
ghost use Rattle.dumps.specs.Words.{all_digits, longer};
ghost use Rattle.dumps.specs.Characters.{is_digit};

use crate::marks::{is_digit, is_letter, is_part, is_space};
use crate::turn::{Around, Now, Place, Turn};
use crate::word::Word;

/// The word that stands for any longer word that isn't an octet.
pub(crate) const LONG: Word = Word::Four(b'_', b'_', b'_', b'_');

impl Now {
    /// Whether a label or a declaration may begin: there is no octet yet, and no `=`.
    pub(crate) fn may_name(self) -> bool
        ensures { result ≡ may_name self }
    {
        self.writing.is_none()
            && matches!(self.around, Around::Nothing | Around::Label | Around::Typed)
    }

    /// Whether the unfinished word begins a label or a declaration. It begins with a letter, and isn't only hexadecimal
    /// digits.
    pub(crate) fn is_name(self) -> bool
        ensures { result ≡ is_name self }
    {
        self.may_name()
            && is_letter(self.word.first())
            && self.word.octet().is_none()
            && !self.word.all_digits()
            && !self.is_skipped(self.word)
    }

    /// Takes a character in a label or a declaration, in which no word may look like octets.
    pub(crate) fn in_head(self, x: u8) -> Turn
        ensures { result ≡ in_head self x }
    {
        if is_part(x) {
            return Some((self.with_word(longer_or_long(self.word, x)), None));
        }
        if is_octets(self.word) {
            return None;
        }
        let digits = self.word.all_digits();
        named(self.with_word(Word::Empty).mark_in_head(x, digits))
    }

    /// Takes a character that isn't part of a word, in a label or a declaration. `digits` is whether the word before it
    /// is digits.
    fn mark_in_head(self, x: u8, digits: bool) -> Option<Now>
        ensures { result ≡ mark_in_head x digits self }
    {
        match x {
            b' ' | b'\t' | b'\n' | b'\r' | b'*' | b'&' | b'.' | b'<' | b'>' | b']' => Some(self),
            b'_' => Some(self.with_word(LONG)),
            b'[' | b';' | b',' => Some(self.at(Place::Size)),
            b':' => Some(self.labelled(digits)),
            b'=' => Some(self.declaring()),
            _ => None,
        }
    }

    /// Takes a character in a size, up to `]` or `>`.
    pub(crate) fn in_size(self, x: u8) -> Turn
        ensures { result ≡ in_size self x }
    {
        if is_part(x) || x == b'_' || is_space(x) {
            return Some((self, None));
        }
        match x {
            b']' | b'>' => Some((self.at(Place::Head), None)),
            _ => None,
        }
    }

    /// Takes a character after a declaration: a blank, a comment, or another declaration of a number.
    pub(crate) fn after_declaration(self, x: u8) -> Turn
        ensures { result ≡ after_declaration self x }
    {
        if is_space(x) || x == b';' {
            return Some((self, None));
        }
        if is_letter(x) {
            return Some((self.at(Place::Name), None));
        }
        match x {
            b'/' => Some((self.at(Place::Slash), None)),
            b'#' => Some((self.at(Place::Line), None)),
            _ => None,
        }
    }

    /// Takes a character in the name of another declaration, up to `=`.
    pub(crate) fn in_name(self, x: u8) -> Turn
        ensures { result ≡ in_name self x }
    {
        if is_part(x) || x == b'_' || is_space(x) {
            return Some((self, None));
        }
        if x == b'=' {
            Some((self.at(Place::Count), None))
        } else {
            None
        }
    }

    /// Takes a character in the number of another declaration: decimal digits up to `;`.
    pub(crate) fn in_count(self, x: u8) -> Turn
        ensures { result ≡ in_count self x }
    {
        if x.is_ascii_digit() || is_space(x) {
            return Some((self, None));
        }
        if x == b';' {
            Some((self.ending(), None))
        } else {
            None
        }
    }

    /// Returns the state after the `:` that ends a label. A label that ends with a digit could be octets.
    fn labelled(self, digits: bool) -> Now
        ensures { result ≡ with_label digits self }
    {
        let around = if digits { Around::Typed } else { Around::Label };
        Now {
            word: Word::Empty,
            place: Place::Code,
            around,
            ..self
        }
    }

    /// Returns the state after the `=` of a declaration. Decimal numbers are allowed after it.
    pub(crate) fn declaring(self) -> Now
        ensures { result ≡ with_declaration self }
    {
        Now {
            word: Word::Empty,
            place: Place::Code,
            listed: true,
            around: Around::Declared,
            ..self
        }
    }

    /// Returns the state after the `;` that ends a declaration.
    pub(crate) fn ending(self) -> Now
        ensures { result ≡ with_end self }
    {
        Now {
            word: Word::Empty,
            place: Place::Code,
            around: Around::Done,
            ..self
        }
    }
}

/// Returns a word of a label or a declaration with one more character. From the fifth character on, only whether all
/// are digits is kept.
fn longer_or_long(word: Word, x: u8) -> Word
    ensures { result ≡ or_long (all_digits word && is_digit x) word (longer word x) }
{
    match word.longer(x) {
        Some(word) => word,
        None if word.all_digits() && is_digit(x) => word,
        None => LONG,
    }
}

/// Whether a word could be octets.
fn is_octets(word: Word) -> bool
    ensures { result ≡ is_octets word }
{
    word.octet().is_some() || (word.all_digits() && !word.is_one())
}

fn named(now: Option<Now>) -> Turn
    ensures { result ≡ named now }
{
    match now {
        Some(now) => Some((now, None)),
        None => None,
    }
}
