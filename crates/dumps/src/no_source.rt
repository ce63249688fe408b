//! The first place where a text isn't a source.

ghost use Rattle.std.specs.Prelude.{◌≡◌, ◌&&◌, ◌||◌, is_some};
ghost use Rattle.dumps.specs.SourceStop.{Agrees, is_begun, is_wrong_word, source_stop, stop_at, stop_at_end, word_len};
ghost use Rattle.dumps.specs.Source.{ended, is_part, source_octets};

use crate::marks::is_part;
use crate::turn::Now;
use crate::word::Word;

/// What is wrong at the first place where a text isn't a source.
#[derive(Clone, Copy)]
pub enum SourceWrong {
    /// This character isn't allowed here.
    Character,
    /// A word that isn't an octet begins here, or an octet that is written in another way than those before.
    Word,
    /// The text ends in a string or a comment.
    Open,
    /// The text ends, and its octets can be read in two ways.
    TwoWays,
}

/// Returns the first place where a text isn't a source, and what is wrong there; `None` if it is one.
pub fn source_stop(text: &[u8]) -> Option<(usize, SourceWrong)>
    ensures place { result ≡ source_stop text.now }
    ensures agrees { Agrees result (source_octets text.now) }
{
    stop_of(text)
}

fn stop_of(text: &[u8]) -> Option<(usize, SourceWrong)>
    ensures { result ≡ source_stop text.now }
{
    let mut now = Now::first();
    let mut place = 0;
    let mut rest = text;
    while let [x, after @ ..] = rest {
        match now.turn(*x) {
            Some((next, _)) => now = next,
            None => return Some(stop_at(place, now, *x)),
        }
        place += 1;
        rest = after;
    }
    stop_at_end(place, now)
}

/// Returns what is wrong at a character that isn't allowed: the unfinished word before it, from its beginning, or the
/// character.
fn stop_at(place: usize, now: Now, x: u8) -> (usize, SourceWrong)
    ensures { result ≡ stop_at place now x }
{
    if is_wrong_word(now, x) {
        (
            place.saturating_sub(word_len(now.word())),
            SourceWrong::Word,
        )
    } else {
        (place, SourceWrong::Character)
    }
}

/// Whether the unfinished word isn't an octet, or is too long with this character.
fn is_wrong_word(now: Now, x: u8) -> bool
    ensures { result ≡ is_wrong_word now x }
{
    let is_ended = now.ended().is_some();
    is_begun(now.word()) && (is_part(x) || !is_ended)
}

/// Returns what is wrong at the end of a text, if anything is.
fn stop_at_end(place: usize, now: Now) -> Option<(usize, SourceWrong)>
    ensures { result ≡ stop_at_end place now (ended now) }
{
    match now.ended() {
        None => Some((
            place.saturating_sub(word_len(now.word())),
            SourceWrong::Word,
        )),
        Some((last, _)) if !last.is_outside() => Some((place, SourceWrong::Open)),
        Some((last, _)) if !last.may_end() => Some((place, SourceWrong::TwoWays)),
        Some(_) => None,
    }
}

/// Returns how many characters a word has.
fn word_len(word: Word) -> usize
    ensures { result ≡ word_len word }
{
    match word {
        Word::Empty => 0,
        Word::One(..) => 1,
        Word::Two(..) => 2,
        Word::Three(..) => 3,
        Word::Four(..) => 4,
    }
}

fn is_begun(word: Word) -> bool
    ensures { result ≡ is_begun word }
{
    !matches!(word, Word::Empty)
}
