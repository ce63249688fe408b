//! The places of the words of a command line: those after the subcommand that aren't options, and its options.
//!
//! The parser accepts these words. So an option is a word that begins with two dashes. Its value comes in that word
//! after an equals sign, or is the next word. `--explain`, `--json`, `--notes`, `--rules` and `--svg` have no value. One
//! `--explain` may come before the subcommand.

ghost use Rattle.std.specs.Prelude.{◌≡◌, ◌<◌, ◌≤◌, ◌+◌, min};
ghost use Rattle.command_line.specs.Form.{texts};
ghost use Rattle.explainer.specs.Places.{first_place, has_next, is_flag, is_given_in, is_option, has_option, option_place, option_value, place_of, subcommand_place, value_in, word_at};

/// Returns the word with this number, or an empty word if there is none.
pub(crate) fn word_at(words: &[String], number: usize) -> &str
    ensures { result.now ≡ word_at (texts words.now) number }
{
    match words.get(number) {
        Some(word) => word.as_str(),
        None => "",
    }
}

/// Returns the number of the subcommand: 1, or 2 if `--explain` comes before it.
pub(crate) fn subcommand_place(words: &[String]) -> usize
    ensures few { result ≤ 2 }
    ensures place { result ≡ subcommand_place (texts words.now) }
{
    if word_at(words, 1) == "--explain" {
        2
    } else {
        1
    }
}

/// Returns the number of the first word after the subcommand.
fn first_place(words: &[String]) -> usize
    ensures few { result ≤ 3 }
    ensures place { result ≡ first_place (texts words.now) }
{
    subcommand_place(words) + 1
}

/// Returns the number of the word with this index among those that aren't options; past the end if there is none.
pub(crate) fn place_of(words: &[String], nth: usize) -> usize
    ensures { result ≡ place_of (texts words.now) nth }
{
    let mut left = nth;
    let mut is_value = false;
    for number in first_place(words)..words.len() {
        let word = word_at(words, number);
        if word == "--" {
            return place_after(number, left, words.len());
        }
        if is_value {
            is_value = false;
        } else if is_option(word) {
            is_value = has_next(word);
        } else if left == 0 {
            return number;
        } else {
            left -= 1;
        }
    }
    words.len()
}

/// Returns the number that comes this many after the next one, or the number past all words if that is smaller.
fn place_after(number: usize, left: usize, past: usize) -> usize
    requires { number < past }
    ensures { result ≡ min (number + 1 + left) past }
{
    (number + 1).saturating_add(left).min(past)
}

fn is_option(word: &str) -> bool
    ensures { result ≡ is_option word.now }
{
    word.starts_with("--")
}

/// Whether the value of an option is the next word.
fn has_next(word: &str) -> bool
    ensures { result ≡ has_next word.now }
{
    !is_flag(word) && !word.contains('=')
}

/// Whether a word is an option without a value.
fn is_flag(word: &str) -> bool
    ensures { result ≡ is_flag word.now }
{
    matches!(
        word,
        "--explain" | "--json" | "--notes" | "--rules" | "--svg"
    )
}

/// Returns the number of the word with the value of an option; past the end if the option isn't given.
pub(crate) fn option_place(words: &[String], name: &str) -> usize
    ensures { result ≡ option_place (texts words.now) name.now }
{
    for number in first_place(words)..words.len() {
        let word = word_at(words, number);
        if word == "--" {
            return words.len();
        }
        if word == name {
            return number + 1;
        }
        if is_given_in(word, name) {
            return number;
        }
    }
    words.len()
}

/// Whether an option is given.
pub(crate) fn has_option(words: &[String], name: &str) -> bool
    ensures { result ≡ has_option (texts words.now) name.now }
{
    option_place(words, name) < words.len()
}

/// Whether a word is this option with its value.
fn is_given_in(word: &str, name: &str) -> bool
    ensures { result ≡ is_given_in word.now name.now }
{
    match word.split_once('=') {
        Some((front, _)) => front == name,
        None => false,
    }
}

/// Returns the value of an option, empty if it isn't given.
pub(crate) fn option_value<'a>(words: &'a [String], name: &str) -> &'a str
    ensures { result.now ≡ option_value (texts words.now) name.now }
{
    value_in(name, word_at(words, option_place(words, name)))
}

/// Returns the value of an option in the word that has it.
fn value_in<'a>(name: &str, word: &'a str) -> &'a str
    ensures { result.now ≡ value_in name.now word.now }
{
    match word.split_once('=') {
        Some((front, value)) if front == name => value,
        _ => word,
    }
}
