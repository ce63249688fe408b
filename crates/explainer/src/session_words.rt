//! Notes on the words of `judge` and `simulate`.

ghost use Rattle.std.specs.Prelude.{◌≡◌, IfOk, option_map, string_bytes};
ghost use Rattle.command_line.specs.Form.{texts};
ghost use Rattle.explainer.specs.Words.{has_both, is_list, is_wrong_clock, is_wrong_end, is_wrong_form, is_wrong_list, judge_note, listed_note, pair_note, pairs_note, session_note, wrong_list};

use crate::place::{has_option, option_value, place_of, word_at};
use crate::word::{hex_note, said};
use crate::words::{nth_note, option_note};
use program_words::value::parts;
use program_words::words::{clock, one_end};
use program_words::{Fault, read_blocks};
use std::alloc::{AllocError, Global};

/// Returns the note on the end that is judged, the clock, and an answer to reset.
pub(crate) fn judge_note(alloc: Global, words: &[String]) -> Result<String, AllocError>
    ensures { IfOk result (λ note. string_bytes note ≡ judge_note (texts words.now)) }
{
    if is_wrong_end(words) {
        return option_note(alloc, words, "--end", "END must be terminal or card");
    }
    if is_wrong_clock(words) {
        return option_note(
            alloc,
            words,
            "--clock",
            "HZ must be 1 to 1000000000, in decimal digits without a leading 0",
        );
    }
    nth_note(alloc, words, 0)
}

fn is_wrong_end(words: &[String]) -> bool
    ensures { result ≡ is_wrong_end (texts words.now) }
{
    has_option(words, "--end") && one_end(option_value(words, "--end")).is_err()
}

fn is_wrong_clock(words: &[String]) -> bool
    ensures { result ≡ is_wrong_clock (texts words.now) }
{
    has_option(words, "--clock") && clock(Some(option_value(words, "--clock"))).is_err()
}

/// Whether both pairs and a form of standard input for them are given.
fn has_both(words: &[String]) -> bool
    ensures { result ≡ has_both (texts words.now) }
{
    has_option(words, "--stdin") && place_of(words, 1) < words.len()
}

fn is_wrong_form(words: &[String]) -> bool
    ensures { result ≡ is_wrong_form (texts words.now) }
{
    has_option(words, "--stdin") && option_value(words, "--stdin") != "lines"
}

/// Returns the note on a session: where its pairs are, its other options, its answer to reset and its pairs.
pub(crate) fn session_note(alloc: Global, words: &[String]) -> Result<String, AllocError>
    ensures { IfOk result (λ note. string_bytes note ≡ session_note (texts words.now)) }
{
    if has_both(words) {
        let what = "give COMMAND:REPLY or --stdin, not both";
        return said(alloc, place_of(words, 1), what);
    }
    if is_wrong_form(words) {
        return option_note(alloc, words, "--stdin", "FORM must be lines");
    }
    let wrong = wrong_list(alloc, words)?;
    listed_note(alloc, words, wrong)
}

/// Returns the note on the options that name blocks, then on the answer to reset and the pairs. `wrong` is the first of
/// these options that is wrong.
fn listed_note(alloc: Global, words: &[String], wrong: Option<&str>) -> Result<String, AllocError>
    ensures { IfOk result (λ note. string_bytes note
        ≡ listed_note (texts words.now) (option_map (λ name. name.now) wrong.entry)) }
{
    if let Some(name) = wrong {
        return option_note(
            alloc,
            words,
            name,
            "LIST must be numbers from 1 and ranges such as 2-5, with commas between; ranges name at most 1000000 blocks",
        );
    }
    let note = nth_note(alloc, words, 0)?;
    if !note.is_empty() {
        return Ok(note);
    }
    pairs_note(alloc, words)
}

/// Returns the first option that names blocks and whose value isn't a list.
fn wrong_list(alloc: Global, words: &[String]) -> Result<Option<&'static str>, AllocError>
    ensures { IfOk result (λ wrong.
        option_map (λ name. name.now) wrong ≡ wrong_list (texts words.now)) }
{
    if is_wrong_list(alloc, words, "--lose")? {
        return Ok(Some("--lose"));
    }
    if is_wrong_list(alloc, words, "--damage")? {
        return Ok(Some("--damage"));
    }
    if is_wrong_list(alloc, words, "--spoil")? {
        return Ok(Some("--spoil"));
    }
    Ok(None)
}

fn is_wrong_list(alloc: Global, words: &[String], name: &str) -> Result<bool, AllocError>
    ensures { IfOk result (λ is_so. is_so ≡ is_wrong_list (texts words.now) name.now) }
{
    if !has_option(words, name) {
        return Ok(false);
    }
    Ok(!is_list(alloc, option_value(words, name))?)
}

/// Whether a word is a list of blocks.
fn is_list(alloc: Global, word: &str) -> Result<bool, AllocError>
    ensures { IfOk result (λ is_so. is_so ≡ is_list word.now) }
{
    match read_blocks(alloc, Some(word)) {
        Ok(_) => Ok(true),
        Err(Fault::Memory) => Err(AllocError),
        Err(_) => Ok(false),
    }
}

/// Returns the note on the first word that should be a pair and isn't.
fn pairs_note(alloc: Global, words: &[String]) -> Result<String, AllocError>
    ensures { IfOk result (λ note. string_bytes note ≡ pairs_note (texts words.now)) }
{
    for nth in 1..words.len() {
        let place = place_of(words, nth);
        if place >= words.len() {
            return Ok(String::new(alloc));
        }
        let note = pair_note(alloc, place, word_at(words, place))?;
        if !note.is_empty() {
            return Ok(note);
        }
    }
    Ok(String::new(alloc))
}

/// Returns the note on COMMAND:REPLY.
fn pair_note(alloc: Global, number: usize, word: &str) -> Result<String, AllocError>
    ensures { IfOk result (λ note. string_bytes note ≡ pair_note number word.now) }
{
    let Ok((command, reply)) = parts(word) else {
        return said(alloc, number, "a pair must have the form COMMAND:REPLY");
    };
    let note = hex_note(alloc, number, command)?;
    if !note.is_empty() {
        return Ok(note);
    }
    hex_note(alloc, number, reply)
}
