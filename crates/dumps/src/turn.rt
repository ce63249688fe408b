//! The state of a source, and what each character changes.

ghost use Rattle.std.specs.Prelude.{◌≡◌, ◌&&◌};
ghost use Rattle.dumps.specs.Source.{among_octets, at_first, in_code, in_quotes, is_one_way, mark_in_code, mark_in_quotes, may_end_at, part_in_code, placed, turn_at};
ghost use Rattle.dumps.specs.Turns.{and_octet, ended, fits, is_cut, is_skipped, longer_by, taken_octet, with_place, with_word};
ghost use Rattle.dumps.specs.Words.{longer};

use crate::comments::{after_slash, after_star, in_block, in_line};
use crate::heads::LONG;
use crate::marks::{is_between, is_digit, is_letter, is_listing, is_part, is_quote};
use crate::strings::string_at;
use crate::word::{Word, Writing};

/// The place in a text.
#[derive(Clone, Copy)]
pub(crate) enum Place {
    /// Outside of quotes and comments.
    Code,
    /// In double quotes.
    Double,
    /// In single quotes.
    Single,
    /// In double quotes after a `b`.
    DoubleString,
    /// In single quotes after a `b`.
    SingleString,
    /// In a label or a declaration, before its `:` or `=`.
    Head,
    /// In a size in such a head, up to `]` or `>`.
    Size,
    /// In the name of another declaration after that of the octets, before its `=`.
    Name,
    /// In the number of such a declaration.
    Count,
    /// After a `/` that begins a comment.
    Slash,
    /// In a comment that the end of the line ends.
    Line,
    /// In a comment that `*/` ends.
    Block,
    /// After a `*` in such a comment.
    Star,
}

/// The label or the declaration around the octets.
#[derive(Clone, Copy)]
pub(crate) enum Around {
    /// Nothing so far.
    Nothing,
    /// A label, or what may be the front of a declaration, up to a `:`.
    Label,
    /// A `=`, and the octets after it.
    Declared,
    /// A `:` after a digit, which could be an octet. So a `=` must come before the octets.
    Typed,
    /// The `;` that ends the octets.
    Done,
}

/// The state after the text so far.
#[derive(Clone, Copy)]
pub(crate) struct Now {
    /// The unfinished word.
    pub(crate) word: Word,
    pub(crate) place: Place,
    /// How the octets so far are written, if there are any.
    pub(crate) writing: Option<Writing>,
    /// Whether there was a mark of a list.
    pub(crate) listed: bool,
    /// Whether there was an octet with a letter.
    pub(crate) lettered: bool,
    /// Whether there was something between octets in quotes.
    pub(crate) parted: bool,
    /// Whether there was a string of octets.
    pub(crate) prefixed: bool,
    /// What is around the octets.
    pub(crate) around: Around,
}

/// The state after a character, and the octet that ended before it. `None` if the character isn't allowed.
pub(crate) type Turn = Option<(Now, Option<u8>)>;

impl Now {
    /// Returns the state before a text.
    pub(crate) fn first() -> Self
        ensures { result ≡ at_first }
    {
        Now {
            word: Word::Empty,
            place: Place::Code,
            writing: None,
            listed: false,
            lettered: false,
            parted: false,
            prefixed: false,
            around: Around::Nothing,
        }
    }

    /// Takes one more character of the text.
    pub(crate) fn turn(self, x: u8) -> Turn
        ensures { result ≡ turn_at self.place self x }
    {
        match self.place {
            Place::Code => self.in_code(x),
            Place::Double => self.in_quotes(b'"', x),
            Place::Single => self.in_quotes(b'\'', x),
            Place::DoubleString => self.in_string(b'"', x),
            Place::SingleString => self.in_string(b'\'', x),
            Place::Head => self.in_head(x),
            Place::Size => self.in_size(x),
            Place::Name => self.in_name(x),
            Place::Count => self.in_count(x),
            Place::Slash => self.placed(after_slash(x)),
            Place::Line => self.placed(Some(in_line(x))),
            Place::Block => self.placed(Some(in_block(x))),
            Place::Star => self.placed(Some(after_star(x))),
        }
    }

    /// Ends the unfinished word. Returns the state then, and the octet of the word.
    pub(crate) fn ended(self) -> Turn
        ensures { result ≡ ended self }
    {
        match self.word {
            Word::Empty => Some((self, None)),
            word if self.is_skipped(word) => Some((self.with_word(Word::Empty), None)),
            word => self.with_octet(word.octet()),
        }
    }

    /// Returns the unfinished word.
    pub(crate) fn word(self) -> Word
        ensures { result ≡ self.word }
    {
        self.word
    }

    /// Whether the place is outside of strings, and of comments that must be closed.
    pub(crate) fn is_outside(self) -> bool
        ensures { result ≡ may_end_at self.place }
    {
        matches!(self.place, Place::Code | Place::Line)
    }

    /// Whether a text may end in this state.
    pub(crate) fn may_end(self) -> bool
        ensures { result ≡ (may_end_at self.place && is_one_way self.writing self) }
    {
        self.is_outside() && self.is_one_way()
    }

    /// Whether the octets can be read in only one way. A list of pairs without a letter could be decimal numbers.
    /// Blanks between escapes are characters. The characters of a string of octets could be pairs.
    fn is_one_way(self) -> bool
        ensures { result ≡ is_one_way self.writing self }
    {
        if matches!(self.around, Around::Typed) {
            return self.writing.is_none();
        }
        match self.writing {
            None => true,
            Some(Writing::Plain) => !self.prefixed && (!self.listed || self.lettered),
            Some(Writing::Escaped) => !self.parted && (!self.prefixed || self.lettered),
            Some(_) => !self.prefixed,
        }
    }

    /// Takes a character outside of quotes and comments.
    fn in_code(self, x: u8) -> Turn
        ensures { result ≡ in_code self x }
    {
        match self.around {
            Around::Done => self.after_declaration(x),
            _ => self.among_octets(x),
        }
    }

    /// Takes a character outside of quotes and comments, before a declaration has ended.
    fn among_octets(self, x: u8) -> Turn
        ensures { result ≡ among_octets self x }
    {
        if is_part(x) {
            return self.part_in_code(x);
        }
        if is_quote(x) && self.word.is_prefix() {
            let now = Now {
                word: Word::Empty,
                place: string_at(x),
                prefixed: true,
                ..self
            };
            return Some((now, None));
        }
        if self.is_name() {
            return self.at(Place::Head).in_head(x);
        }
        let (now, octet) = self.ended()?;
        and_octet(octet, now.mark_in_code(x))
    }

    /// Takes a letter or a digit outside of quotes and comments. A word longer than an octet may begin a label or a
    /// declaration.
    fn part_in_code(self, x: u8) -> Turn
        ensures { result ≡ part_in_code self x (longer self.word x) }
    {
        match self.word.longer(x) {
            Some(word) => Some((self.with_word(word), None)),
            None
                if self.may_name()
                    && is_letter(self.word.first())
                    && !(self.word.all_digits() && is_digit(x)) => {
                Some((self.at(Place::Head).with_word(LONG), None))
            }
            None => None,
        }
    }

    /// Takes a character that isn't part of a word, outside of quotes and comments.
    fn mark_in_code(self, x: u8) -> Option<Now>
        ensures { result ≡ mark_in_code x self }
    {
        if is_between(x) {
            return Some(self);
        }
        match (x, self.around) {
            (b';', Around::Declared) => return Some(self.ending()),
            (b'=', Around::Label | Around::Typed) if self.writing.is_none() => return Some(
                self.declaring(),
            ),
            _ => {}
        }
        if is_listing(x) || x == b'&' {
            return Some(Now {
                listed: true,
                ..self
            });
        }
        match x {
            b'\\' => Some(Now {
                word: Word::One(x),
                ..self
            }),
            b'"' => Some(self.at(Place::Double)),
            b'\'' => Some(self.at(Place::Single)),
            b'/' => Some(self.at(Place::Slash)),
            b'#' => Some(self.at(Place::Line)),
            _ => None,
        }
    }

    /// Takes a character in quotes, where pairs may follow each other directly.
    fn in_quotes(self, quote: u8, x: u8) -> Turn
        ensures { result ≡ in_quotes quote self x }
    {
        if is_cut(self.word, x) {
            let (now, octet) = self.ended()?;
            return Some((
                Now {
                    word: Word::One(x),
                    ..now
                },
                octet,
            ));
        }
        if is_part(x) {
            return self.longer(x);
        }
        let (now, octet) = self.ended()?;
        and_octet(octet, now.mark_in_quotes(quote, x))
    }

    /// Takes a character that isn't part of a word, in quotes.
    fn mark_in_quotes(self, quote: u8, x: u8) -> Option<Now>
        ensures { result ≡ mark_in_quotes quote x self }
    {
        if x == quote {
            return Some(self.at(Place::Code));
        }
        if is_between(x) {
            return Some(Now {
                parted: true,
                ..self
            });
        }
        if is_listing(x) {
            return Some(Now {
                listed: true,
                parted: true,
                ..self
            });
        }
        if x == b'\\' {
            return Some(Now {
                word: Word::One(x),
                ..self
            });
        }
        None
    }

    /// Returns the state with one more character in the word.
    fn longer(self, x: u8) -> Turn
        ensures { result ≡ longer_by self (longer self.word x) }
    {
        match self.word.longer(x) {
            Some(word) => Some((Now { word, ..self }, None)),
            None => None,
        }
    }

    /// Returns the state after an octet, which must be written like those before.
    fn with_octet(self, written: Option<(Writing, u8)>) -> Turn
        ensures { result ≡ taken_octet self written }
    {
        match written {
            Some((writing, octet)) if fits(self.writing, writing) => {
                let lettered = self.lettered || self.word.has_letter();
                let now = Now {
                    word: Word::Empty,
                    writing: Some(writing),
                    lettered,
                    ..self
                };
                Some((now, Some(octet)))
            }
            _ => None,
        }
    }

    /// Returns the state at a place, if there is one.
    fn placed(self, place: Option<Place>) -> Turn
        ensures { result ≡ placed self place }
    {
        match place {
            Some(place) => Some((self.at(place), None)),
            None => None,
        }
    }

    /// Whether the word gives no octet: `byte` or `new`, or Rust's `u8` after an octet.
    pub(crate) fn is_skipped(self, word: Word) -> bool
        ensures { result ≡ is_skipped self word }
    {
        word.is_type() || (word.is_suffix() && self.writing.is_some())
    }

    /// Returns the state with this unfinished word.
    pub(crate) fn with_word(self, word: Word) -> Now
        ensures { result ≡ with_word word self }
    {
        Now { word, ..self }
    }

    /// Returns the state at a place.
    pub(crate) fn at(self, place: Place) -> Now
        ensures { result ≡ with_place place self }
    {
        Now { place, ..self }
    }
}

/// Returns an octet and the state after it.
fn and_octet(octet: Option<u8>, now: Option<Now>) -> Turn
    ensures { result ≡ and_octet octet now }
{
    match now {
        Some(now) => Some((now, octet)),
        None => None,
    }
}

/// Whether an octet may be written in this way after those before.
fn fits(before: Option<Writing>, writing: Writing) -> bool
    ensures { result ≡ fits before writing }
{
    match before {
        Some(before) => before == writing,
        None => true,
    }
}

/// Whether a pair ends before a digit, as it may in quotes.
fn is_cut(word: Word, x: u8) -> bool
    ensures { result ≡ is_cut word x }
{
    match word {
        Word::Two(a, b) => is_digit(a) && is_digit(b) && is_digit(x),
        _ => false,
    }
}
