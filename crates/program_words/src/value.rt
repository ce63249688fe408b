//! Octets as a word, and words separated by a colon.

ghost use Rattle.std.specs.Prelude.{◌≡◌};
ghost use Rattle.std.specs.Result.{result_map_both};
ghost use Rattle.hex.specs.Hex.{decode_of};
ghost use Rattle.program_words.specs.Value.{hex_octets, octets_of_word, parted, UnlessMemory};

use crate::fault::Fault;
use hex::FromHexError;
use octet_core::Octets;
use std::alloc::Global;

/// Returns the octets of a word in hexadecimal; `none` gives no octets.
pub(crate) fn octets(alloc: Global, word: &str) -> Result<Octets, Fault>
    ensures { UnlessMemory result (octets_of_word word.now) }
{
    word_octets(alloc, word.as_bytes())
}

/// Returns the octets of a word that is part of a text, in hexadecimal; `none` gives no octets.
pub(crate) fn word_octets(alloc: Global, word: &[u8]) -> Result<Octets, Fault>
    ensures { UnlessMemory result (octets_of_word word.now) }
{
    if word == "none".as_bytes() {
        return Ok(Octets::of(Vec::new(alloc)));
    }
    digit_octets(alloc, word)
}

/// Returns the octets of digits, two for each, in either case.
fn digit_octets(alloc: Global, digits: &[u8]) -> Result<Octets, Fault>
    ensures { UnlessMemory result (hex_octets (decode_of digits.now)) }
{
    match hex::decode(alloc, digits) {
        Ok(octets) => Ok(Octets::of(octets)),
        Err(FromHexError::OutOfMemory) => Err(Fault::Memory),
        Err(_) => Err(Fault::Hex),
    }
}

/// Returns the texts before and after the first colon.
pub fn parts(word: &str) -> Result<(&str, &str), Fault>
    ensures { result_map_both (λ p. (p.0.now, p.1.now)) (λ fault. fault) result ≡ parted word.now }
{
    word.split_once(':').ok_or(Fault::Words)
}
