//! Decoding of forests.

ghost use Rattle.std.specs.Prelude.{◌≤◌, length, IfOk, IfErr};
ghost use Rattle.octet_core.specs.Grammar.{Accepts, RefusesUnlessMemory, whole};
ghost use Rattle.tlv_core.specs.Forest.{IsForest};
ghost use Rattle.tlv_core.specs.Reasons.{IsReason};

use crate::forest::Forest;
use crate::reader::ForestReader;
use crate::reason::TlvReason;
use octet_core::Refused;
use std::alloc::Global;

/// Decodes all the octets as one forest of at most `max` octets; `max` is at most 1,048,576.
///
/// The error is `Short` at the end of the octets if a forest could continue there, or `At` the first
/// octet after which none can. It is `Memory` if an allocation fails, which may happen before either is
/// found.
pub fn decode(alloc: Global, octets: &[u8], max: usize) -> Result<Forest, Refused<TlvReason>>
    requires { max ≤ 1048576 }
    ensures found { IfOk result (λ forest.
        Accepts whole (IsForest max) octets.now forest (length octets.now)) }
    ensures refused { IfErr result
        (RefusesUnlessMemory whole (IsForest max) (IsReason max) octets.now) }
{
    let Ok(mut reader) = ForestReader::new(alloc, max) else {
        return Err(Refused::Memory);
    };
    if let Err((_, refused)) = reader.feed(octets) {
        return Err(refused);
    }
    match reader.finish() {
        Ok(forest) => Ok(forest),
        Err(stop) => Err(Refused::Stop(stop)),
    }
}
