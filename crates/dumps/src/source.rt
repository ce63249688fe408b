//! Octets as programs write them.

ghost use Rattle.std.specs.Prelude.{◌≡◌, ◌++◌, IfOk};
ghost use Rattle.dumps.specs.Dump.{UnlessMemory};
ghost use Rattle.dumps.specs.Source.{source_octets, those};

use crate::fault::DumpFault;
use crate::turn::Now;
use octet_core::Octets;
use std::alloc::{AllocError, Global};

/// Returns the octets of a source: `0x3B`, `\x3b`, `3Bh` or `3B`, all written in one way, in brackets or quotes, with
/// comments. A text is `Form` if it isn't such a source, or if it could be read in two ways.
pub fn source_octets(alloc: Global, text: &[u8]) -> Result<Octets, DumpFault>
    ensures { UnlessMemory result (source_octets text.now) }
{
    let mut octets = Vec::new(alloc);
    let mut now = Now::first();
    let mut rest = text;
    while let [x, after @ ..] = rest {
        let (next, octet) = now.turn(*x).ok_or(DumpFault::Form)?;
        push(&mut octets, octet)?;
        now = next;
        rest = after;
    }
    let (last, octet) = now.ended().ok_or(DumpFault::Form)?;
    push(&mut octets, octet)?;
    if last.may_end() {
        Ok(Octets::of(octets))
    } else {
        Err(DumpFault::Form)
    }
}

/// Appends an octet, if there is one.
fn push(octets: &mut Vec<u8>, octet: Option<u8>) -> Result<(), AllocError>
    ensures { IfOk result (λ _. octets.new.items ≡ octets.old.items ++ those octet) }
{
    if let Some(octet) = octet {
        octets.push(octet)?;
    }
    Ok(())
}
