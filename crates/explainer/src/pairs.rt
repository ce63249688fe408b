//! The note on a text whose lines should be pairs of a session.

ghost use Rattle.std.specs.Prelude.{◌≡◌, ◌+◌, ◌-◌, IfOk, string_bytes};
ghost use Rattle.std.specs.List.{slice_split};
ghost use Rattle.program_words.specs.PairLines.{is_line_end};
ghost use Rattle.explainer.specs.Pairs.{digit_from, is_none, lines_stop, pair_stop, pairs_note, placed, reply_stop, third_stop, word_place, wrong_word};

use crate::hexadecimal::{Wrong, wrong_note};
use octet_core::first_word;
use std::alloc::{AllocError, Global};

/// A wrong place and what is wrong there, if there is such a place.
type Stop = Option<(usize, Wrong)>;

/// Returns the explanation of a text with a line that should be a pair and isn't. It gives the line and the column of
/// the first wrong place, counted from 1. Then come the line with a mark under the place, and the form of a line.
pub fn pairs_note(alloc: Global, text: &[u8]) -> Result<String, AllocError>
    ensures { IfOk result (λ note. string_bytes note ≡ pairs_note text.now) }
{
    let mut note = wrong_note(alloc, text, lines_stop(text)?)?;
    note.push_str(
        "standard input: a line is COMMAND REPLY, with blanks between; each is in hexadecimal, or none\n",
    )?;
    Ok(note)
}

/// Returns the first wrong place of a text whose lines are pairs.
fn lines_stop(text: &[u8]) -> Result<Stop, AllocError>
    ensures { IfOk result (λ stop. stop ≡ lines_stop 0 (slice_split is_line_end text.now)) }
{
    let mut start = 0;
    for line in text.split(|octet| *octet == b'\n') {
        let stop = pair_stop(line)?;
        if stop.is_some() {
            return placed(start, stop);
        }
        start = sum(start, sum(line.len(), 1)?)?;
    }
    Ok(None)
}

/// Returns the first wrong place of a line with a command and its reply. A line without a word has none.
fn pair_stop(line: &[u8]) -> Result<Stop, AllocError>
    ensures { IfOk result (λ stop. stop ≡ pair_stop line.now) }
{
    let (command, rest) = first_word(line);
    if command.is_empty() {
        return Ok(None);
    }
    match placed(word_place(line, command, rest), wrong_word(command))? {
        Some(stop) => Ok(Some(stop)),
        None => placed(line.len().saturating_sub(rest.len()), reply_stop(rest)?),
    }
}

/// Returns the first wrong place of the text after the command.
fn reply_stop(text: &[u8]) -> Result<Stop, AllocError>
    ensures { IfOk result (λ stop. stop ≡ reply_stop text.now) }
{
    let (reply, rest) = first_word(text);
    if reply.is_empty() {
        return Ok(Some((0, Wrong::NoReply)));
    }
    match placed(word_place(text, reply, rest), wrong_word(reply))? {
        Some(stop) => Ok(Some(stop)),
        None => placed(text.len().saturating_sub(rest.len()), third_stop(rest)),
    }
}

/// Returns the first wrong place of the text after the reply, in which no word is allowed.
fn third_stop(text: &[u8]) -> Stop
    ensures { result ≡ third_stop text.now }
{
    let (word, rest) = first_word(text);
    if word.is_empty() {
        return None;
    }
    Some((word_place(text, word, rest), Wrong::Third))
}

/// Returns the place of a word in a text, by the word, which only blanks precede, and by what is left after it.
fn word_place(text: &[u8], word: &[u8], rest: &[u8]) -> usize
    ensures { result ≡ word_place text.now (word.now, rest.now) }
{
    text.len()
        .saturating_sub(rest.len())
        .saturating_sub(word.len())
}

/// Returns a wrong place, moved by this many octets.
fn placed(start: usize, stop: Stop) -> Result<Stop, AllocError>
    ensures { IfOk result (λ moved. moved ≡ placed start stop) }
{
    match stop {
        Some((place, wrong)) => Ok(Some((sum(start, place)?, wrong))),
        None => Ok(None),
    }
}

/// Returns a sum. It can't overflow, since no text in memory has so many characters.
pub(crate) fn sum(count: usize, more: usize) -> Result<usize, AllocError>
    ensures { IfOk result (λ sum. sum ≡ count + more) }
{
    count.checked_add(more).ok_or(AllocError)
}

/// Returns the first wrong place of a word that should be octets, in hexadecimal or `none`.
fn wrong_word(word: &[u8]) -> Stop
    ensures { result ≡ wrong_word word.now }
{
    if is_none(word) {
        return None;
    }
    match wrong_digit(word) {
        Some(stop) => Some(stop),
        None if word.len() % 2 == 1 => Some((0, Wrong::Odd)),
        None => None,
    }
}

fn is_none(word: &[u8]) -> bool
    ensures { result ≡ is_none word.now }
{
    word == "none".as_bytes()
}

/// Returns the first octet of a word that isn't a digit.
fn wrong_digit(word: &[u8]) -> Stop
    ensures { result ≡ digit_from 0 word.now }
{
    let mut place = 0;
    for octet in word {
        if !octet.is_ascii_hexdigit() {
            return Some((place, Wrong::Digit(*octet)));
        }
        place += 1;
    }
    None
}
