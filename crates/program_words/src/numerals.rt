//! Numbers as words: an information size and the number of a block.

ghost use Rattle.std.specs.Prelude.{◌≡◌, option_map};
ghost use Rattle.program_words.specs.Words.{asked_size, number_of, number_of_word, size_of};

use crate::fault::Fault;
use crate::field_size::FieldSize;
use block_core::Number;

/// Reads an information size, the largest if there is no word. `clap` has already refused a word out of range.
pub fn size(word: Option<&str>) -> Result<FieldSize, Fault>
    ensures { result ≡ size_of (option_map (λ word. word.now) word.entry) }
{
    match word {
        Some(word) => FieldSize::from_octet(word.parse().unwrap_or(0)).ok_or(Fault::Words),
        None => Ok(FieldSize::GREATEST),
    }
}

/// Reads the information size of the option, if the option is given.
pub(crate) fn asked_size(word: Option<&str>) -> Result<Option<FieldSize>, Fault>
    ensures { result ≡ asked_size (option_map (λ word. word.now) word.entry) }
{
    match word {
        Some(word) => Ok(Some(size(Some(word))?)),
        None => Ok(None),
    }
}

/// Reads the number of a block, zero if there is no word. `clap` has already refused any other word.
pub(crate) fn number_or_zero(word: Option<&str>) -> Result<Number, Fault>
    ensures { result ≡ number_of (option_map (λ word. word.now) word.entry) }
{
    match word {
        Some(word) => number(word),
        None => Ok(Number::Zero),
    }
}

/// Reads the number of a block.
pub fn number(word: &str) -> Result<Number, Fault>
    ensures { result ≡ number_of_word word.now }
{
    let value: u8 = word.parse().unwrap_or(2);
    if value == 0 {
        Ok(Number::Zero)
    } else if value == 1 {
        Ok(Number::One)
    } else {
        Err(Fault::Words)
    }
}
