//! The messages of the parser of command lines, as they are shown.

ghost use Rattle.std.specs.Prelude.{◌≡◌, IfOk, string_bytes};
ghost use Rattle.command_line.specs.Form.{texts};
ghost use Rattle.explainer.specs.Words.{shown_character, shown_word, shown_words};

use std::alloc::{AllocError, Global};

/// The text before the word that the parser would take as a value after `--`. No value here begins with a dash, so this
/// advice of the parser doesn't help.
const ADVICE: &str = "\n  tip: to pass '";

/// Returns the words as they are shown, with a question mark for each control character.
pub(crate) fn shown_words(alloc: Global, words: &[String]) -> Result<Vec<String>, AllocError>
    ensures { IfOk result (λ shown. texts shown.items ≡ shown_words (texts words.now)) }
{
    let mut shown = Vec::new(alloc);
    for word in words {
        shown.push(shown_word(alloc, word.as_str())?)?;
    }
    Ok(shown)
}

fn shown_word(alloc: Global, word: &str) -> Result<String, AllocError>
    ensures { IfOk result (λ shown. string_bytes shown ≡ shown_word word.now) }
{
    let mut shown = String::new(alloc);
    for character in word.chars() {
        shown.push(shown_character(character))?;
    }
    Ok(shown)
}

/// Returns a character as it is shown: a question mark for a control character.
pub(crate) fn shown_character(character: char) -> char
    ensures { result ≡ shown_character character }
{
    match character {
        '\u{0}'..='\u{1F}' | '\u{7F}'..='\u{9F}' => '?',
        other => other,
    }
}

/// Returns the parser's message without its advice on how to pass a word as a value.
pub(crate) fn without_advice(alloc: Global, message: &str) -> Result<String, AllocError> {
    let Some((before, advice)) = message.split_once(ADVICE) else {
        return String::from_str(alloc, message);
    };
    let after = match advice.split_once('\n') {
        Some((_, after)) => after,
        None => "",
    };
    let before = before.strip_suffix('\n').unwrap_or(before);
    format!(in alloc; "{before}\n{after}")
}
