//! The note on octets that aren't data objects.

ghost use Rattle.std.specs.Prelude.{◌≡◌, ◌≤◌};
ghost use Rattle.notes.specs.Missing.{wanted_of};

use crate::forest::header_at;
use crate::missing::front;
use octet_core::{Stop, hex_upper};
use std::alloc::{AllocError, Global};
use tlv_core::{PartWalk, PlacedPart, Tag, TlvReason};

/// Returns the note on octets that aren't a forest of at most `max` octets. If an object needs more octets than are
/// left where it is, the note is on this object. Otherwise it gives each open object with how many octets it still
/// needs, the outermost first, and where a header is incomplete.
pub fn forest_refusal_note(
    alloc: Global,
    octets: &[u8],
    stop: Stop<TlvReason>,
    max: usize,
) -> Result<String, AllocError>
    requires { max ≤ 1048576 }
{
    let parts = parts_before(alloc, octets, max)?;
    match stop {
        Stop::At {
            place,
            reason: TlvReason::Overrun | TlvReason::TooLong,
        } => asked_note(alloc, octets, parts.as_slice(), place, max),
        Stop::At { place, .. } => open_note(alloc, parts.as_slice(), place),
        Stop::Short { place } => short_note(alloc, octets, parts.as_slice(), place),
    }
}

/// Returns the objects with complete headers, in their order.
fn parts_before(alloc: Global, octets: &[u8], max: usize) -> Result<Vec<PlacedPart>, AllocError>
    requires { max ≤ 1048576 }
{
    let mut parts = Vec::new(alloc);
    let mut walk = PartWalk::new(max);
    for _ in 0..octets.len() {
        match walk.next_part(octets) {
            Ok(Some(part)) => parts.push(part)?,
            _ => break,
        }
    }
    Ok(parts)
}

/// Returns how many octets an object still needs after this many of the forest.
pub fn wanted_of(part: PlacedPart, taken: usize) -> usize
    ensures { result ≡ wanted_of part taken }
{
    value_end(part).saturating_sub(taken)
}

/// Returns the place after an object.
fn value_end(part: PlacedPart) -> usize
    ensures { result ≡ wanted_of part 0 }
{
    part.place as usize + part.len as usize
}

/// Returns the tag of an object and the place of its header.
fn named(alloc: Global, part: PlacedPart) -> Result<String, AllocError> {
    let tag = hex_upper(alloc, part.tag.octets())?;
    let place = header_at(part.tag, part.form, part.place as usize);
    format!(in alloc; "{tag} at {place}")
}

/// Returns each object that is open after this many octets, with how many octets it still needs.
fn open_note(alloc: Global, parts: &[PlacedPart], taken: usize) -> Result<String, AllocError> {
    let mut text = String::new(alloc);
    for part in parts {
        let wanted = wanted_of(*part, taken);
        if wanted > 0 {
            push_parted(&mut text, wants(alloc, *part, wanted)?.as_str())?;
        }
    }
    Ok(text)
}

fn wants(alloc: Global, part: PlacedPart, wanted: usize) -> Result<String, AllocError> {
    let name = named(alloc, part)?;
    format!(in alloc; "{name} needs {wanted} more")
}

/// Appends words, after a comma unless they are the first.
fn push_parted(text: &mut String, words: &str) -> Result<(), AllocError> {
    if !text.is_empty() {
        text.push_str(", ")?;
    }
    text.push_str(words)
}

/// Returns each open object, and where a header is incomplete.
fn short_note(
    alloc: Global,
    octets: &[u8],
    parts: &[PlacedPart],
    taken: usize,
) -> Result<String, AllocError> {
    let mut text = open_note(alloc, parts, taken)?;
    if let Some(place) = header_place(front(octets, taken), parts) {
        let goes_on = format!(in alloc; "the header at {place} is incomplete")?;
        push_parted(&mut text, goes_on.as_str())?;
    }
    Ok(text)
}

/// Returns where an incomplete header after these objects begins, if there is one. Fillers may come before it.
fn header_place(octets: &[u8], parts: &[PlacedPart]) -> Option<usize> {
    let after = match parts.last() {
        Some(part) if part.tag.is_constructed() => part.place as usize,
        Some(part) => value_end(*part),
        None => 0,
    };
    let rest = &octets[after.min(octets.len())..];
    let fillers = rest.iter().position(|octet| *octet != 0)?;
    Some(after.saturating_add(fillers))
}

/// Returns the note on an object that needs more than is left in the object around it, or in the forest if none is
/// open.
fn asked_note(
    alloc: Global,
    octets: &[u8],
    parts: &[PlacedPart],
    place: usize,
    max: usize,
) -> Result<String, AllocError> {
    let taken = place.saturating_add(1);
    let seen = front(octets, taken);
    let Some(at) = header_place(seen, parts) else {
        return Ok(String::new(alloc));
    };
    let asks = asks(alloc, seen, at)?;
    let left = match innermost(parts, place) {
        Some(part) => left_in(alloc, part, taken)?,
        None => left_of(alloc, max.saturating_sub(taken), "of the limit")?,
    };
    format!(in alloc; "{asks}, {left}")
}

/// Returns the innermost object that is open after this many octets.
fn innermost(parts: &[PlacedPart], taken: usize) -> Option<&PlacedPart> {
    let mut inner = None;
    for part in parts {
        if wanted_of(*part, taken) > 0 {
            inner = Some(part);
        }
    }
    inner
}

/// Returns how many octets are left in an object.
fn left_in(alloc: Global, part: &PlacedPart, taken: usize) -> Result<String, AllocError> {
    let name = named(alloc, *part)?;
    let of = format!(in alloc; "in {name}")?;
    left_of(alloc, wanted_of(*part, taken), of.as_str())
}

fn left_of(alloc: Global, count: usize, of: &str) -> Result<String, AllocError> {
    let is = if count == 1 { "is" } else { "are" };
    format!(in alloc; "{count} {is} left {of}")
}

/// Returns what the object with its header at this place needs.
fn asks(alloc: Global, octets: &[u8], at: usize) -> Result<String, AllocError> {
    let header = &octets[at.min(octets.len())..];
    match header_said(header) {
        Some((tag, len)) => {
            let tag = hex_upper(alloc, tag)?;
            format!(in alloc; "{tag} at {at} needs {len}")
        }
        None => format!(in alloc; "the object at {at} needs more"),
    }
}

/// Returns the tag and the length of a complete header.
fn header_said(header: &[u8]) -> Option<(&[u8], u32)> {
    for count in 1..=3 {
        let (tag, field) = header.split_at(count.min(header.len()));
        if Tag::new(tag).is_some() {
            return Some((tag, length_said(field)?));
        }
    }
    None
}

/// Returns the length of a complete length field.
fn length_said(field: &[u8]) -> Option<u32> {
    match field {
        [len @ 0..=0x7F] => Some(u32::from(*len)),
        [0x81, len] => Some(u32::from(*len)),
        [0x82, high, low] => Some(u32::from_be_bytes([0, 0, *high, *low])),
        [0x83, high, middle, low] => Some(u32::from_be_bytes([0, *high, *middle, *low])),
        [0x84, first, second, third, fourth] => {
            Some(u32::from_be_bytes([*first, *second, *third, *fourth]))
        }
        _ => None,
    }
}
