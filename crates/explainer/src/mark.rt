//! The notes on octets: a refused octet with a mark under it, how many are missing, how many are left.

ghost use Rattle.std.specs.Prelude.{◌≡◌, IfOk, drop, string_bytes, take};
ghost use Rattle.explainer.specs.Notes.{left_note, mark_text, refused_note, short_note, stop_text};

use crate::reason::Explained;
use octet_core::{Stop, hex_upper};
use std::alloc::{AllocError, Global};

/// The most octets that are shown before the marked one.
const BEFORE: usize = 16;

/// The most octets that are shown.
const SHOWN: usize = 24;

/// Returns the note on a refusal. `least` is how many more octets are needed at least, if that is known.
pub(crate) fn stop_note<R: Explained>(
    alloc: Global,
    octets: &[u8],
    stop: Stop<R>,
    least: Option<usize>,
) -> Result<String, AllocError>
    ensures { IfOk result (λ text.
        string_bytes text ≡ stop_text R.says octets.now least stop) }
{
    match stop {
        Stop::Short { .. } => short(alloc, octets.len(), least),
        Stop::At { place, reason } => refused(alloc, octets, place, reason.sentence()),
    }
}

/// Returns the octet at a place, what was expected there, the octets around it, and a mark under it.
fn refused(alloc: Global, octets: &[u8], place: usize, sentence: &str) -> Result<String, AllocError>
    ensures { IfOk result (λ text. string_bytes text ≡ refused_note octets.now place sentence.now) }
{
    let octet = hex_upper(alloc, part(octets, place, 1))?;
    let first = place.saturating_sub(BEFORE);
    let shown = hex_upper(alloc, part(octets, first, SHOWN))?;
    let mark = mark(alloc, place)?;
    format!(in alloc;
        "octet {place} is {octet}: {sentence}\noctets from place {first}:\n{shown}\n{mark}"
    )
}

/// Returns a mark under the octet at a place.
fn mark(alloc: Global, place: usize) -> Result<String, AllocError>
    ensures { IfOk result (λ text. string_bytes text ≡ mark_text place) }
{
    let before = place - place.saturating_sub(BEFORE);
    let blanks = "  ".repeat(alloc, before)?;
    format!(in alloc; "{blanks}^^\n")
}

/// Returns this many octets from a place on, or as many as there are.
pub(crate) fn part(octets: &[u8], from: usize, count: usize) -> &[u8]
    ensures { result.now ≡ take count (drop from octets.now) }
{
    let rest = &octets[from.min(octets.len())..];
    &rest[..count.min(rest.len())]
}

/// Returns how many octets there are, and how many more are needed at least.
fn short(alloc: Global, count: usize, least: Option<usize>) -> Result<String, AllocError>
    ensures { IfOk result (λ text. string_bytes text ≡ short_note count least) }
{
    match least {
        None => format!(in alloc; "octets so far: {count}; more must come\n"),
        Some(least) => {
            format!(in alloc; "octets so far: {count}; at least {least} more must come\n")
        }
    }
}

/// Returns how many octets are left after a value.
pub(crate) fn left(alloc: Global, count: usize) -> Result<String, AllocError>
    ensures { IfOk result (λ text. string_bytes text ≡ left_note count) }
{
    if count == 0 {
        return Ok(String::new(alloc));
    }
    format!(in alloc; "octets after the value: {count}\n")
}
