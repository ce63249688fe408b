//! Explanations that are made only if the words ask for one.
//!
//! One that isn't asked for counts as one for which memory wasn't available: in both cases the answer has none. So no
//! contract has a case for it.

ghost use Rattle.std.specs.Prelude.{◌≡◌, IfOk, string_bytes};
ghost use Rattle.explainer.specs.Notes.{large_note, IsSessionNote};
ghost use Rattle.explainer.specs.Pairs.{pairs_note};

use std::alloc::{AllocError, Global};

/// Returns the note on octets that should be an answer to reset from which a session begins, if one is asked for.
pub(crate) fn session_note(alloc: Global, explains: bool, atr: &[u8]) -> Result<String, AllocError>
    ensures { IfOk result (λ note. IsSessionNote atr.now (string_bytes note)) }
{
    if explains {
        explainer::session_note(alloc, atr)
    } else {
        Err(AllocError)
    }
}

/// Returns the note on an input or a session of too many octets, if one is asked for.
pub(crate) fn large_note(alloc: Global, explains: bool, most: usize) -> Result<String, AllocError>
    ensures { IfOk result (λ text. string_bytes text ≡ large_note most) }
{
    if explains {
        explainer::large_note(alloc, most)
    } else {
        Err(AllocError)
    }
}

/// Returns the note on lines that should be pairs, if one is asked for.
pub(crate) fn pairs_note(alloc: Global, explains: bool, text: &[u8]) -> Result<String, AllocError>
    ensures { IfOk result (λ note. string_bytes note ≡ pairs_note text.now) }
{
    if explains {
        explainer::pairs_note(alloc, text)
    } else {
        Err(AllocError)
    }
}
