//! The notes on known values.

ghost use Rattle.std.specs.Prelude.{◌≡◌, bytes_eq, is_ok, IfOk, MatchOption, string_bytes};
ghost use Rattle.std.specs.List.{position_or_len};
ghost use Rattle.command_line.specs.Form.{texts};
ghost use Rattle.tlv_core.specs.Fill.{HasDuplicate};
ghost use Rattle.program_words.specs.Known.{tag_of_word};
ghost use Rattle.explainer.specs.Known.{known_note, tag_note, tagged_note, twice_note, value_note, IsFirstTwice, IsTwiceNote};

use crate::pairs::sum;
use crate::place::{place_of, word_at};
use crate::word::{digits_note, hex_note, said};
use octet_core::hex_upper;
use program_words::Fault;
use program_words::known::{format, tag};
use program_words::value::parts;
use std::alloc::{AllocError, Global};
use std::collections::BTreeMap;
use tlv_core::{Known, Tag};

/// The number of words of `build fill` before the known values: `fill` and the list.
const BEFORE: usize = 2;

/// The note on a word that isn't separated by two colons.
const WHOLE: &str = "a known value must have the form F:TAG:VALUE";

/// Returns what is wrong with the first word of `build fill` that isn't a known value. Empty if all are.
pub fn known_note(alloc: Global, words: &[String]) -> Result<String, AllocError>
    ensures { IfOk result (λ note. string_bytes note ≡ known_note (texts words.now)) }
{
    for nth in BEFORE..words.len() {
        let place = place_of(words, nth);
        if place >= words.len() {
            return Ok(String::new(alloc));
        }
        let note = value_note(alloc, place, word_at(words, place))?;
        if !note.is_empty() {
            return Ok(note);
        }
    }
    Ok(String::new(alloc))
}

/// Returns what is wrong with a word F:TAG:VALUE.
fn value_note(alloc: Global, number: usize, word: &str) -> Result<String, AllocError>
    ensures { IfOk result (λ note. string_bytes note ≡ value_note number word.now) }
{
    let Ok((format_word, rest)) = parts(word) else {
        return said(alloc, number, WHOLE);
    };
    let Ok((tag_word, value)) = parts(rest) else {
        return said(alloc, number, WHOLE);
    };
    tagged_note(alloc, number, format_word, tag_word, value)
}

/// Returns what is wrong with the parts of a word F:TAG:VALUE.
fn tagged_note(
    alloc: Global,
    number: usize,
    format_word: &str,
    tag_word: &str,
    value: &str,
) -> Result<String, AllocError>
    ensures { IfOk result (λ note.
        string_bytes note ≡ tagged_note number format_word.now tag_word.now value.now) }
{
    if format(format_word).is_err() {
        let what = "F must be n (numeric), c (compressed numeric) or o (any other)";
        return said(alloc, number, what);
    }
    let note = tag_note(alloc, number, tag_word)?;
    if !note.is_empty() {
        return Ok(note);
    }
    hex_note(alloc, number, value)
}

/// Returns what is wrong with a tag.
fn tag_note(alloc: Global, number: usize, word: &str) -> Result<String, AllocError>
    ensures { IfOk result (λ note. string_bytes note ≡ tag_note number word.now) }
{
    let note = digits_note(alloc, number, word)?;
    if !note.is_empty() || is_tag(alloc, word)? {
        return Ok(note);
    }
    said(alloc, number, "TAG must be one whole tag")
}

/// Whether a word in hexadecimal is one whole tag.
fn is_tag(alloc: Global, word: &str) -> Result<bool, AllocError>
    ensures { IfOk result (λ is_so. is_so ≡ is_ok (tag_of_word word.now)) }
{
    match tag(alloc, word) {
        Ok(_) => Ok(true),
        Err(Fault::Memory) => Err(AllocError),
        Err(_) => Ok(false),
    }
}

/// Returns which two words of `build fill` have values of one tag, the first two that do. Empty if no two do.
pub fn duplicate_note(
    alloc: Global,
    words: &[String],
    known: &[Known],
) -> Result<String, AllocError>
    ensures { IfOk result (λ note.
        IsTwiceNote (texts words.now) known.now (string_bytes note)) }
{
    match first_twice(alloc, known)? {
        Some((first, second)) => twice_note(alloc, words, first, second, &known[second].tag),
        None => Ok(String::new(alloc)),
    }
}

/// Returns the first value whose tag an earlier one has, after that one, by their places.
fn first_twice(alloc: Global, known: &[Known]) -> Result<Option<(usize, usize)>, AllocError>
    ensures { IfOk result (λ found. MatchOption found (HasDuplicate known.now → ⊥)
        (λ places. IsFirstTwice known.now places.0 places.1)) }
{
    let mut placed = BTreeMap::new(alloc);
    for (nth, one) in known.iter().enumerate() {
        match placed.insert(one.tag.octets(), one) {
            Ok(None) => {}
            Ok(Some(_)) => return Ok(Some((place_with(known, &one.tag), nth))),
            Err(_) => return Err(AllocError),
        }
    }
    Ok(None)
}

/// Returns the place of the first value with this tag; past all of them if none has it.
fn place_with(known: &[Known], tag: &Tag) -> usize
    ensures { result ≡ position_or_len (λ one. bytes_eq tag.now one.tag) known.now }
{
    known
        .iter()
        .position(|one| *tag == one.tag)
        .unwrap_or(known.len())
}

/// Returns the note on two known values: the numbers of their words, and their tag.
fn twice_note(
    alloc: Global,
    words: &[String],
    first: usize,
    second: usize,
    tag: &Tag,
) -> Result<String, AllocError>
    ensures { IfOk result (λ note.
        string_bytes note ≡ twice_note (texts words.now) first second tag.now) }
{
    let first = place_of(words, sum(first, BEFORE)?);
    let second = place_of(words, sum(second, BEFORE)?);
    let tag = hex_upper(alloc, tag.octets())?;
    format!(in alloc; "words {first} and {second}: both give a value for tag {tag}\n")
}
