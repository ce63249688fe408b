//! What a line says.

ghost use Rattle.std.specs.Prelude.{◌≡◌};
ghost use Rattle.std.specs.List.{list_all};
ghost use Rattle.exchange_text.specs.Reading as reading;
ghost use Rattle.exchange_text.specs.Reading.{arrival_said, block_said, is_upper_digit, moment_said, note_said, LineUnlessMemory};
ghost use Rattle.exchange_text.specs.Words.{words_after, words_in};

use crate::exchange::Version;
use crate::fault::LineFault;
use crate::line::{Arrival, Line};
use crate::name::Name;
use crate::proper::is_note;
use crate::words::{AS, LOST, NONE, first_word, no_word, the_word};
use hex::FromHexError;
use octet_core::{Octets, Text, decimal_of};
use std::alloc::Global;

/// Parses a line in a text of the version.
pub(crate) fn line_said(alloc: Global, version: Version, line: &[u8]) -> Result<Line, LineFault>
    ensures { LineUnlessMemory result (reading.line_said version line.now) }
{
    let (word, rest) = first_word(line);
    match Name::from_word(word).ok_or(LineFault::Word)? {
        Name::Command => Ok(Line::Command(one_octets(alloc, rest)?)),
        Name::Ifsd => Ok(Line::Ifsd(one_octet(rest)?)),
        Name::Quiet => {
            no_word(rest)?;
            Ok(Line::Quiet)
        }
        Name::Answer => Ok(Line::Answer(one_octets(alloc, rest)?)),
        Name::IfsSet => {
            no_word(rest)?;
            Ok(Line::IfsSet)
        }
        Name::GivenUp => {
            no_word(rest)?;
            Ok(Line::GivenUp)
        }
        Name::Dead => {
            no_word(rest)?;
            Ok(Line::Dead)
        }
        Name::Reply => Ok(Line::Reply(one_octets(alloc, rest)?)),
        Name::Time => Ok(Line::Time(one_octet(rest)?)),
        Name::Ifsc => Ok(Line::Ifsc(one_octet(rest)?)),
        Name::Asked => Ok(Line::Asked(one_octets(alloc, rest)?)),
        Name::FromTerminal => {
            let (sent, arrival) = block(alloc, rest)?;
            Ok(Line::FromTerminal { sent, arrival })
        }
        Name::FromCard => {
            let (sent, arrival) = block(alloc, rest)?;
            Ok(Line::FromCard { sent, arrival })
        }
        Name::Moment => moment(version, rest),
        Name::Note => match rest {
            Some(text) => note(alloc, version, text),
            None => Err(LineFault::Word),
        },
    }
}

/// Takes the one word that is left, as octets.
fn one_octets(alloc: Global, rest: Option<&[u8]>) -> Result<Octets, LineFault>
    ensures { LineUnlessMemory result (reading.one_octets (words_after (words_in rest.entry))) }
{
    let word = the_word(rest)?;
    octets_said(alloc, word)
}

/// Takes the one word that is left, as one octet.
fn one_octet(rest: Option<&[u8]>) -> Result<u8, LineFault>
    ensures { result ≡ reading.one_octet (words_after (words_in rest.entry)) }
{
    let word = the_word(rest)?;
    octet_said(word)
}

/// Returns the octets of a block, and how it arrived.
fn block(alloc: Global, rest: Option<&[u8]>) -> Result<(Octets, Arrival), LineFault>
    ensures { LineUnlessMemory result (block_said (words_after (words_in rest.entry))) }
{
    let Some(rest) = rest else {
        return Err(LineFault::Word);
    };
    let (sent, rest) = first_word(rest);
    let arrival = arrival(alloc, rest)?;
    let sent = octets_said(alloc, sent)?;
    Ok((sent, arrival))
}

/// Returns how a block arrived, from the words after its octets.
fn arrival(alloc: Global, rest: Option<&[u8]>) -> Result<Arrival, LineFault>
    ensures { LineUnlessMemory result (arrival_said (words_after (words_in rest.entry))) }
{
    let Some(rest) = rest else {
        return Ok(Arrival::Whole);
    };
    let (way, rest) = first_word(rest);
    if way == LOST.as_bytes() {
        no_word(rest)?;
        Ok(Arrival::Lost)
    } else if way == AS.as_bytes() {
        Ok(Arrival::Changed(one_octets(alloc, rest)?))
    } else {
        Err(LineFault::Word)
    }
}

/// Takes the one word that is left, as a moment.
fn moment(version: Version, rest: Option<&[u8]>) -> Result<Line, LineFault>
    ensures { result ≡ moment_said version (words_after (words_in rest.entry)) }
{
    if version == Version::One {
        return Err(LineFault::Word);
    }
    let moment = decimal_of(the_word(rest)?).ok_or(LineFault::Word)?;
    Ok(Line::Moment(moment))
}

/// Returns the note that follows the first space.
fn note(alloc: Global, version: Version, text: &[u8]) -> Result<Line, LineFault>
    ensures { LineUnlessMemory result (note_said version text.now) }
{
    if version == Version::One || !is_note(text) {
        return Err(LineFault::Word);
    }
    match str::from_utf8(text) {
        Ok(text) => Ok(Line::Note(Text::of(String::from_str(alloc, text)?))),
        Err(_) => Err(LineFault::Word),
    }
}

/// Returns the octets of a word in upper-case hexadecimal; none if the word is `none`.
pub(crate) fn octets_said(alloc: Global, word: &[u8]) -> Result<Octets, LineFault>
    ensures { LineUnlessMemory result (reading.octets_said word.now) }
{
    if word == NONE.as_bytes() {
        return Ok(Octets::of(Vec::new(alloc)));
    }
    if !are_upper_digits(word) {
        return Err(LineFault::Hex);
    }
    match hex::decode(alloc, word) {
        Ok(octets) => Ok(Octets::of(octets)),
        Err(FromHexError::OutOfMemory) => Err(LineFault::Memory),
        Err(_) => Err(LineFault::Hex),
    }
}

/// Returns the octet of a word of two digits in upper-case hexadecimal.
fn octet_said(word: &[u8]) -> Result<u8, LineFault>
    ensures { result ≡ reading.octet_said word.now }
{
    if !are_upper_digits(word) {
        return Err(LineFault::Hex);
    }
    let mut octet = [0];
    match hex::decode_to_slice(word, &mut octet) {
        Ok(()) => Ok(octet[0]),
        Err(_) => Err(LineFault::Hex),
    }
}

/// Whether a word is one or more upper-case hexadecimal digits.
fn are_upper_digits(word: &[u8]) -> bool
    ensures { result ≡ reading.are_upper_digits word.now }
{
    !word.is_empty() && all_upper_digits(word)
}

fn all_upper_digits(word: &[u8]) -> bool
    ensures { result ≡ list_all is_upper_digit word.now }
{
    word.iter().all(|&digit| is_upper_digit(digit))
}

fn is_upper_digit(digit: u8) -> bool
    ensures { result ≡ reading.is_upper_digit digit }
{
    matches!(digit, b'0'..=b'9' | b'A'..=b'F')
}
