//! Notes on words that aren't a request.

ghost use Rattle.std.specs.Prelude.{◌≡◌, ◌≢◌, [], IfOk, string_bytes};
ghost use Rattle.clap.specs.Words.{fault_of};
ghost use Rattle.command_line.specs.Form.{scard, texts};
ghost use Rattle.explainer.specs.Words.{has_version, has_word, help_note, input_note, is_subcommand, nth_note, option_note, reads_a_file, taken_note, IsShownNote, IsWordsNote};
ghost use Rattle.explainer.specs.Places.{subcommand};

use crate::built::build_note;
use crate::given::given_note;
use crate::message::{shown_words, without_advice};
use crate::place::{option_place, place_of, subcommand_place, word_at};
use crate::session_words::{judge_note, session_note};
use crate::word::{hex_note, said};
use command_line::parser_message;
use program_words::words::kind;
use std::alloc::{AllocError, Global};

/// Returns the explanation of words, the first of which is the program's name. If the parser of command lines refuses
/// them, this is its message, with the form of the command line. Otherwise it is the number of the first wrong word,
/// and what the word must be. The subcommand is word 1, or word 2 after `--explain`. A control character of a word is
/// shown as a question mark.
pub fn words_note(alloc: Global, words: &[String]) -> Result<String, AllocError>
    ensures { IfOk result (λ note. IsWordsNote (texts words.now) (string_bytes note)) }
{
    let shown = shown_words(alloc, words)?;
    match parser_message(alloc, shown.as_slice())? {
        Some(message) => parser_note(alloc, shown.as_slice(), message.as_str()),
        None => taken_note(alloc, shown.as_slice()),
    }
}

/// Returns the parser's message on words that it refuses, and how to write what they may mean.
fn parser_note(alloc: Global, words: &[String], message: &str) -> Result<String, AllocError>
    requires { fault_of scard (texts words.now) ≢ [] }
    ensures { IfOk result (λ note. IsShownNote (texts words.now) (string_bytes note)) }
{
    if has_version(words) {
        return String::from_str(alloc, "--version takes no other word: scard --version\n");
    }
    if word_at(words, subcommand_place(words)) == "help" {
        return help_note(alloc, words);
    }
    refused_note(alloc, words, message)
}

fn has_version(words: &[String]) -> bool
    ensures { result ≡ has_version (texts words.now) }
{
    has_word(words, "--version")
}

/// Whether one of these words is `wanted`. The text is a parameter, since a literal in a loop takes long to prove.
fn has_word(words: &[String], wanted: &str) -> bool
    ensures { result ≡ has_word wanted.now (texts words.now) }
{
    for word in words {
        if word.as_str() == wanted {
            return true;
        }
    }
    false
}

/// Returns the parser's message. If one more word may name a file, adds that a file is read from standard input.
fn refused_note(alloc: Global, words: &[String], message: &str) -> Result<String, AllocError> {
    if message.is_empty() {
        return help_note(alloc, words);
    }
    let mut note = without_advice(alloc, message)?;
    let is_one_more = message.contains("argument '") && !message.contains("argument '-");
    if is_one_more && reads_a_file(word_at(words, subcommand_place(words))) {
        note.push_str("give the file on standard input: <FILE\n")?;
    }
    Ok(note)
}

/// Returns what the word `help` takes. The example is the subcommand after it, or `check` if there is none.
fn help_note(alloc: Global, words: &[String]) -> Result<String, AllocError>
    ensures { IfOk result (λ note. string_bytes note ≡ help_note (texts words.now)) }
{
    let next = word_at(words, subcommand_place(words) + 1);
    let topic = if is_subcommand(next) { next } else { "check" };
    format!(in alloc; "help takes one subcommand and no other word: scard help {topic}\n")
}

fn is_subcommand(word: &str) -> bool
    ensures { result ≡ is_subcommand word.now }
{
    reads_a_file(word) || matches!(word, "check" | "show" | "build" | "simulate")
}

/// Whether a subcommand reads a file from standard input and takes no word for it.
fn reads_a_file(subcommand: &str) -> bool
    ensures { result ≡ reads_a_file subcommand.now }
{
    matches!(
        subcommand,
        "replay" | "migrate" | "apdus" | "draw" | "record" | "judge"
    )
}

/// Returns the note on the first wrong word, for words that the parser accepts.
fn taken_note(alloc: Global, words: &[String]) -> Result<String, AllocError>
    ensures { IfOk result (λ note.
        string_bytes note ≡ taken_note (texts words.now) (subcommand (texts words.now))) }
{
    match word_at(words, subcommand_place(words)) {
        "check" | "show" => input_note(alloc, words),
        "build" => build_note(alloc, words),
        "replay" => option_note(alloc, words, "--end", "END must be terminal, card or both"),
        "record" => nth_note(alloc, words, 0),
        "judge" => judge_note(alloc, words),
        "simulate" => session_note(alloc, words),
        _ => String::from_str(
            alloc,
            "give a subcommand: check, show, build, replay, migrate, apdus, draw, record, judge or simulate\n",
        ),
    }
}

/// Returns the note on a kind and on octets.
fn input_note(alloc: Global, words: &[String]) -> Result<String, AllocError>
    ensures { IfOk result (λ note. string_bytes note ≡ input_note (texts words.now)) }
{
    let place = place_of(words, 0);
    if kind(word_at(words, place)).is_err() {
        let what = "KIND must be atr, block, chain, command, response, tlv or dol";
        return said(alloc, place, what);
    }
    given_note(
        alloc,
        words,
        1,
        "FORM must be hex, octets, dump, source or lines",
    )
}

/// Returns the note on the word with this index among those that aren't options, which should be octets.
pub(crate) fn nth_note(alloc: Global, words: &[String], nth: usize) -> Result<String, AllocError>
    ensures { IfOk result (λ note. string_bytes note ≡ nth_note (texts words.now) nth) }
{
    let place = place_of(words, nth);
    hex_note(alloc, place, word_at(words, place))
}

/// Returns a note on the word with the value of an option, by its number.
pub(crate) fn option_note(
    alloc: Global,
    words: &[String],
    name: &str,
    what: &str,
) -> Result<String, AllocError>
    ensures { IfOk result (λ note.
        string_bytes note ≡ option_note (texts words.now) name.now what.now) }
{
    said(alloc, option_place(words, name), what)
}
