//! Known values as words.

ghost use Rattle.std.specs.Prelude.{◌≡◌, ◌++◌, ◌∷◌, [], map, OnOk};
ghost use Rattle.program_words.specs.Known.{format_of, known_by, known_of, knowns_of, tag_of, tag_of_word};
ghost use Rattle.program_words.specs.Value.{UnlessMemory};

use crate::fault::Fault;
use crate::request::Knowns;
use crate::value::{octets, parts};
use octet_core::{Format, octets_of};
use std::alloc::{AllocError, Global};
use tlv_core::{Known, Tag};

/// Returns the known values of the words, or the fault of the first word that isn't one.
pub(crate) fn knowns(alloc: Global, words: &[&str]) -> Result<Knowns, Fault>
    ensures { UnlessMemory result (knowns_of (map (λ word. word.now) words.now)) }
{
    let mut list = Vec::new(alloc);
    for word in words {
        let known = known(alloc, word)?;
        push(&mut list, known)?;
    }
    Ok(Knowns::of(list))
}

fn push(list: &mut Vec<Known>, known: Known) -> Result<(), AllocError>
    ensures { OnOk result (list.new.items ≡ list.old.items ++ known ∷ []) }
{
    list.push(known)?;
    Ok(())
}

/// Returns the known value of a word: a format, a tag and octets, separated by colons.
fn known(alloc: Global, word: &str) -> Result<Known, Fault>
    ensures { UnlessMemory result (known_of word.now) }
{
    let (format, rest) = parts(word)?;
    let (tag, value) = parts(rest)?;
    known_by(alloc, format, tag, value)
}

fn known_by(alloc: Global, format_word: &str, tag_word: &str, value: &str) -> Result<Known, Fault>
    ensures { UnlessMemory result (known_by format_word.now tag_word.now value.now) }
{
    let format = format(format_word)?;
    let tag = tag(alloc, tag_word)?;
    let value = octets(alloc, value)?;
    Ok(Known { tag, format, value })
}

/// Returns the format that a word names: numeric, compressed numeric or another.
pub fn format(word: &str) -> Result<Format, Fault>
    ensures { result ≡ format_of word.now }
{
    match word {
        "n" => Ok(Format::Numeric),
        "c" => Ok(Format::CompressedNumeric),
        "o" => Ok(Format::Other),
        _ => Err(Fault::Words),
    }
}

/// Returns the tag that a word has in hexadecimal.
pub fn tag(alloc: Global, word: &str) -> Result<Tag, Fault>
    ensures { UnlessMemory result (tag_of_word word.now) }
{
    let octets = octets_of(alloc, word)?;
    whole_tag(octets.as_slice())
}

fn whole_tag(octets: &[u8]) -> Result<Tag, Fault>
    ensures { result ≡ tag_of octets.now }
{
    Tag::new(octets).ok_or(Fault::Words)
}
