//! Notes on the words of `build`.

ghost use Rattle.std.specs.Prelude.{◌≡◌, is_ok, Some, IfOk, string_bytes};
ghost use Rattle.command_line.specs.Form.{texts};
ghost use Rattle.program_words.specs.Words.{number_of_word, size_of};
ghost use Rattle.explainer.specs.Words.{build_note, chain_note, list_note, message_note, numbers_note, tidy_note};

use crate::given::given_note;
use crate::place::{has_option, place_of, word_at};
use crate::word::said;
use crate::words::{nth_note, option_note};
use chain_core::LONGEST_MESSAGE;
use program_words::numerals::{number, size};
use std::alloc::{AllocError, Global};

/// The note on a form of standard input if words give the octets.
const ONLY_TIDY: &str = "only build tidy takes --stdin";

/// Returns the note on what is built, and on its words.
pub(crate) fn build_note(alloc: Global, words: &[String]) -> Result<String, AllocError>
    ensures { IfOk result (λ note. string_bytes note ≡ build_note (texts words.now)) }
{
    let what = place_of(words, 0);
    match word_at(words, what) {
        "tidy" => tidy_note(alloc, words),
        "chain" => chain_note(alloc, words),
        "fill" => list_note(alloc, words),
        _ => said(alloc, what, "WHAT must be chain, tidy or fill"),
    }
}

/// Returns the note on HEX, or on a form of standard input.
fn tidy_note(alloc: Global, words: &[String]) -> Result<String, AllocError>
    ensures { IfOk result (λ note. string_bytes note ≡ tidy_note (texts words.now)) }
{
    let more = place_of(words, 2);
    if more < words.len() {
        return said(alloc, more, "build tidy takes one word: HEX");
    }
    given_note(alloc, words, 1, "FORM must be hex, octets, dump or source")
}

/// Returns the note on IFS NUMBER HEX.
fn chain_note(alloc: Global, words: &[String]) -> Result<String, AllocError>
    ensures { IfOk result (λ note. string_bytes note ≡ chain_note (texts words.now)) }
{
    if has_option(words, "--stdin") {
        return option_note(alloc, words, "--stdin", ONLY_TIDY);
    }
    if place_of(words, 3) >= words.len() || place_of(words, 4) < words.len() {
        let text = "build chain takes three words: IFS NUMBER HEX\n";
        return String::from_str(alloc, text);
    }
    numbers_note(alloc, words)
}

/// Returns the note on IFS and NUMBER, and then on HEX.
fn numbers_note(alloc: Global, words: &[String]) -> Result<String, AllocError>
    ensures { IfOk result (λ note. string_bytes note ≡ numbers_note (texts words.now)) }
{
    let ifs = place_of(words, 1);
    if !is_size(word_at(words, ifs)) {
        return said(alloc, ifs, "IFS must be a number from 1 to 254");
    }
    let first = place_of(words, 2);
    if !is_number(word_at(words, first)) {
        return said(alloc, first, "NUMBER must be 0 or 1");
    }
    message_note(alloc, words)
}

fn is_size(word: &str) -> bool
    ensures { result ≡ is_ok (size_of (Some word.now)) }
{
    size(Some(word)).is_ok()
}

fn is_number(word: &str) -> bool
    ensures { result ≡ is_ok (number_of_word word.now) }
{
    number(word).is_ok()
}

/// Returns the note on HEX, the message of a chain.
fn message_note(alloc: Global, words: &[String]) -> Result<String, AllocError>
    ensures { IfOk result (λ note. string_bytes note ≡ message_note (texts words.now)) }
{
    let hex = place_of(words, 3);
    if word_at(words, hex).len() > LONGEST_MESSAGE * 2 {
        return said(alloc, hex, "a message has at most 131072 octets");
    }
    nth_note(alloc, words, 3)
}

/// Returns the note on a data object list as a word.
fn list_note(alloc: Global, words: &[String]) -> Result<String, AllocError>
    ensures { IfOk result (λ note. string_bytes note ≡ list_note (texts words.now)) }
{
    if has_option(words, "--stdin") {
        return option_note(alloc, words, "--stdin", ONLY_TIDY);
    }
    if place_of(words, 1) < words.len() {
        return nth_note(alloc, words, 1);
    }
    String::from_str(
        alloc,
        "build fill takes DOL, and then any number of F:TAG:VALUE\n",
    )
}
