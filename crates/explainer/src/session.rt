//! Notes on simulated sessions, and on answers to reset from which none can begin.

ghost use Rattle.std.specs.Prelude.{◌≡◌, IfOk, string_bytes};
ghost use Rattle.explainer.specs.Notes.{lack_note, large_note, longer_note, IsLackNote, IsSessionNote};
ghost use Rattle.explainer.specs.Sentences.{lack_sentence};

use crate::mark::stop_note;
use atr_core::{Atr, ParamFault, t1_params};
use std::alloc::{AllocError, Global};

/// Returns the explanation of an answer to reset from which no session can begin: where it is refused, how many octets
/// come after it, or what it lacks. Empty if a session can begin.
pub fn session_note(alloc: Global, atr: &[u8]) -> Result<String, AllocError>
    ensures { IfOk result (λ note. IsSessionNote atr.now (string_bytes note)) }
{
    match atr_core::decode(atr) {
        Ok((value, taken)) => {
            if taken == atr.len() {
                return lack_of(alloc, &value);
            }
            longer(alloc, taken, atr.len().saturating_sub(taken))
        }
        Err(stop) => stop_note(alloc, atr, stop, None),
    }
}

/// Returns the note on what an answer to reset lacks. Empty if it lacks nothing.
fn lack_of(alloc: Global, atr: &Atr) -> Result<String, AllocError>
    ensures { IfOk result (λ note. IsLackNote atr.now (string_bytes note)) }
{
    match t1_params(atr) {
        Ok(_) => Ok(String::new(alloc)),
        Err(fault) => lack(alloc, sentence(fault)),
    }
}

/// Returns what an answer to reset lacks, in words.
fn lack(alloc: Global, what: &str) -> Result<String, AllocError>
    ensures { IfOk result (λ text. string_bytes text ≡ lack_note what.now) }
{
    format!(in alloc; "the answer to reset {what}\n")
}

/// Returns the length of an answer to reset, and how many octets are left after it.
fn longer(alloc: Global, taken: usize, count: usize) -> Result<String, AllocError>
    ensures { IfOk result (λ text. string_bytes text ≡ longer_note taken count) }
{
    format!(in alloc; "octets of the answer to reset: {taken}; octets after it: {count}\n")
}

/// Returns what an answer to reset lacks, as the end of a sentence about it.
fn sentence(fault: ParamFault) -> &'static str
    ensures { result.now ≡ lack_sentence fault }
{
    match fault {
        ParamFault::NoT1 => "has no TD that offers T=1",
        ParamFault::ReservedIfsc =>
            "gives the reserved value 00 or FF for IFSC, in the first TA for T=1",
        ParamFault::Crc => "asks for the CRC, in the first TC for T=1, and scard has only the LRC",
    }
}

/// Returns how many octets standard input or the text of a session may have, and how to split a longer session: both
/// ends of each part begin with block number 0.
pub fn large_note(alloc: Global, most: usize) -> Result<String, AllocError>
    ensures { IfOk result (λ text. string_bytes text ≡ large_note most) }
{
    format!(in alloc;
        "standard input and the text of a session have at most {most} octets each\nto split a session, cut it after an answered exchange, where both ends send block 0 next\n"
    )
}
