//! Octets as a text: hexadecimal in groups.

ghost use Rattle.std.specs.Prelude.{◌≡◌};
ghost use Rattle.std.specs.List.{list_all};
ghost use Rattle.octet_core.specs.Words.{is_blank};
ghost use Rattle.program_words.specs.Loose.{digits_of, group_octets, grouped_octets, is_none_alone, is_none_before_blanks, loose_octets};
ghost use Rattle.program_words.specs.Value.{AddsSaid, UnlessMemory};

use crate::fault::Fault;
use octet_core::{Octets, after_blanks, is_blank};
use std::alloc::Global;

/// Returns the octets of a hexadecimal text: two digits each, with blanks between groups. The text `none`, with or
/// without blanks around it, gives no octets. Text that isn't hexadecimal is the fault `Hex`.
pub fn loose_octets(alloc: Global, text: &[u8]) -> Result<Octets, Fault>
    ensures { UnlessMemory result (loose_octets text.now) }
{
    if is_none_alone(text) {
        return Ok(Octets::of(Vec::new(alloc)));
    }
    grouped_octets(alloc, text)
}

/// Whether a text is `none`, with or without blanks around it.
fn is_none_alone(text: &[u8]) -> bool
    ensures { result ≡ is_none_alone text.now }
{
    is_none_before_blanks(after_blanks(text))
}

/// Whether a text is `none`, with or without blanks after it.
fn is_none_before_blanks(text: &[u8]) -> bool
    ensures { result ≡ is_none_before_blanks text.now }
{
    match text {
        [b'n', b'o', b'n', b'e', after @ ..] => are_blanks(after),
        _ => false,
    }
}

fn are_blanks(text: &[u8]) -> bool
    ensures { result ≡ list_all is_blank text.now }
{
    text.iter().all(|octet| is_blank(*octet))
}

/// Returns the octets of the groups of a text.
fn grouped_octets(alloc: Global, text: &[u8]) -> Result<Octets, Fault>
    ensures { UnlessMemory result (grouped_octets text.now) }
{
    let mut octets = Vec::with_capacity(alloc, text.len() / 2)?;
    for group in text.split(|octet| is_blank(*octet)) {
        push_group(&mut octets, group)?;
    }
    Ok(Octets::of(octets))
}

/// Appends the octets of a group, which has no blanks.
fn push_group(octets: &mut Vec<u8>, group: &[u8]) -> Result<(), Fault>
    ensures { AddsSaid (group_octets group.now) octets.old.items octets.new.items result }
{
    let digits = digits(group);
    let first = octets.len();
    octets.resize(first + digits.len() / 2, 0)?;
    match hex::decode_to_slice(digits, &mut octets[first..]) {
        Ok(()) => Ok(()),
        Err(_) => Err(Fault::Hex),
    }
}

/// Returns what comes after the `0x` of a group, or the whole group. A `0x` alone isn't cut off.
fn digits(group: &[u8]) -> &[u8]
    ensures { result.now ≡ digits_of group.now }
{
    match group {
        [b'0', b'x' | b'X', rest @ ..] if !rest.is_empty() => rest,
        _ => group,
    }
}
