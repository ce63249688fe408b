//! Notes on octets, by the verdict on them.

ghost use Rattle.std.specs.Prelude.{◌≡◌, IfOk, string_bytes};
ghost use Rattle.explainer.specs.Notes.{least_of, verdict_text};

use crate::mark::{left, stop_note};
use crate::reason::Explained;
use octet_core::Stop;
use program_words::Kind;
use shortfall::{block_least, command_least, list_least, response_least};
use std::alloc::{AllocError, Global};

/// Returns the explanation of octets by the verdict on them: where they are refused and why, how many are missing, or
/// how many are left after the value of this length. Otherwise it is empty. `least` is how many more octets are needed
/// at least, if octets are short and that is known.
pub fn verdict_note<R: Explained>(
    alloc: Global,
    octets: &[u8],
    verdict: Result<usize, Stop<R>>,
    least: Option<usize>,
) -> Result<String, AllocError>
    ensures { IfOk result (λ note.
        string_bytes note ≡ verdict_text R.says octets.now least verdict) }
{
    match verdict {
        Ok(taken) => left(alloc, octets.len().saturating_sub(taken)),
        Err(stop) => stop_note(alloc, octets, stop, least),
    }
}

/// Returns how many more octets are needed at least if octets of this kind are short, and if that is known.
pub fn least_wanting(kind: Kind, octets: &[u8]) -> Option<usize>
    ensures { result ≡ least_of kind octets.now }
{
    match kind {
        Kind::Block => Some(block_least(octets)),
        Kind::Command => Some(command_least(octets)),
        Kind::Response => Some(response_least(octets)),
        Kind::Dol => Some(list_least(octets)),
        Kind::Atr | Kind::Chain | Kind::Tlv => None,
    }
}
