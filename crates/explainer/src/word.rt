//! The note on one word.

ghost use Rattle.std.specs.Prelude.{◌≡◌, IfOk, chars, string_bytes};
ghost use Rattle.explainer.specs.Notes.{digit_note, odd_note, word_note};
ghost use Rattle.explainer.specs.Words.{digits_note, hex_note, stray_from};

use crate::line::one_more;
use crate::message::shown_character;
use std::alloc::{AllocError, Global};

/// Returns a note: the number of a word, and what is wrong with it.
pub(crate) fn said(alloc: Global, number: usize, what: &str) -> Result<String, AllocError>
    ensures { IfOk result (λ text. string_bytes text ≡ word_note number what.now) }
{
    format!(in alloc; "word {number}: {what}\n")
}

/// Returns what is wrong with a word that should be octets, in hexadecimal or `none`. Empty if nothing is.
pub(crate) fn hex_note(alloc: Global, number: usize, word: &str) -> Result<String, AllocError>
    ensures { IfOk result (λ text. string_bytes text ≡ hex_note number word.now) }
{
    if word == "none" {
        return Ok(String::new(alloc));
    }
    digits_note(alloc, number, word)
}

/// Returns what is wrong with octets in hexadecimal: the first character that isn't a hexadecimal digit, with its
/// place, or an odd number of digits. Empty if nothing is.
pub(crate) fn digits_note(alloc: Global, number: usize, word: &str) -> Result<String, AllocError>
    ensures { IfOk result (λ text. string_bytes text ≡ digits_note number word.now) }
{
    if let Some((place, character)) = stray(word)? {
        return digit(alloc, number, shown_character(character), place);
    }
    if word.len() % 2 == 1 {
        return odd(alloc, number, word.len());
    }
    Ok(String::new(alloc))
}

/// Returns the first character that isn't a hexadecimal digit, and its place in characters.
fn stray(word: &str) -> Result<Option<(usize, char)>, AllocError>
    ensures { IfOk result (λ found. found ≡ stray_from 0 (chars word.now)) }
{
    let mut place = 0;
    for character in word.chars() {
        if !character.is_ascii_hexdigit() {
            return Ok(Some((place, character)));
        }
        place = one_more(place)?;
    }
    Ok(None)
}

fn digit(alloc: Global, number: usize, character: char, place: usize) -> Result<String, AllocError>
    ensures { IfOk result (λ text. string_bytes text ≡ digit_note number character place) }
{
    format!(in alloc;
        "word {number}: the character '{character}' at place {place} isn't a hexadecimal digit\n"
    )
}

fn odd(alloc: Global, number: usize, count: usize) -> Result<String, AllocError>
    ensures { IfOk result (λ text. string_bytes text ≡ odd_note number count) }
{
    format!(in alloc; "word {number}: the number of digits must be even, and is {count}\n")
}
