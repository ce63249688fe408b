//! Helpers for the tests of several crates, and for the programs of the gate.
#![tactic(auto)]

mod case;
mod share;
mod size;
mod trial;

pub use case::{Case, Fault};
use octet_core::octets_of;
pub use share::{Share, asked};
pub use size::Size;
use std::alloc::{AllocError, Global};
use std::fmt::{Debug, Display};
pub use trial::Trial;

/// Whether a call gave the expected value.
///
/// It deliberately has no contract: the checker of a test then carries nothing of the comparison, and takes a tenth of
/// the time that it takes with the comparison written there.
pub fn same<T: PartialEq + Drop>(found: T, wanted: T) -> bool {
    found == wanted
}

/// Whether `{}` formats a value as this text.
pub fn shows<D: Display>(alloc: Global, value: &D, wanted: &str) -> bool {
    match format!(in alloc; "{value}") {
        Ok(text) => text.as_str() == wanted,
        Err(_) => false,
    }
}

/// Whether `{:?}` formats a value as this text.
pub fn debugs<D: Debug>(alloc: Global, value: &D, wanted: &str) -> bool {
    match format!(in alloc; "{value:?}") {
        Ok(text) => text.as_str() == wanted,
        Err(_) => false,
    }
}

/// Returns the octets of a hexadecimal text. It has no contract, for the reason that [`same`] has none.
pub fn of_hex(alloc: Global, text: &str) -> Result<Vec<u8>, Fault> {
    Ok(octets_of(alloc, text)?)
}

/// Returns the octets with the one at a place set to a value. They are unchanged if there is no such place.
pub fn with_octet(
    alloc: Global,
    octets: &[u8],
    place: usize,
    value: u8,
) -> Result<Vec<u8>, AllocError> {
    let mut changed = Vec::from_slice(alloc, octets)?;
    if let Some(octet) = changed.get_mut(place) {
        *octet = value;
    }
    Ok(changed)
}
