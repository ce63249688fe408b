//! What octets lack, in words.

ghost use Rattle.std.specs.Prelude.{◌≡◌, take};

use crate::text::octets_counted;
use std::alloc::{AllocError, Global};

/// Returns the note on octets that are short: how many more are needed at least. Empty if that isn't known.
pub fn wanting_note(alloc: Global, least: Option<usize>) -> Result<String, AllocError> {
    match least {
        Some(least) => {
            let counted = octets_counted(alloc, least)?;
            format!(in alloc; "at least {counted} must follow")
        }
        None => Ok(String::new(alloc)),
    }
}

/// Returns that the byte with this name comes next.
pub(crate) fn comes_next(alloc: Global, name: &str) -> Result<String, AllocError> {
    format!(in alloc; "{name} comes next")
}

/// Returns what the check octet with this name must be.
pub(crate) fn would_be(alloc: Global, name: &str, octet: u8) -> Result<String, AllocError> {
    format!(in alloc; "{name} must be {octet:02X}")
}

/// Returns the octets before a place.
pub(crate) fn front(octets: &[u8], place: usize) -> &[u8]
    ensures { result.now ≡ take place octets.now }
{
    &octets[..place.min(octets.len())]
}
