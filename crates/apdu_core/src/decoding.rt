//! Decoding of APDUs that own their data field.

ghost use Rattle.std.specs.Prelude.{◌≡◌, IfOk, IfErr, length};
ghost use Rattle.octet_core.specs.Grammar.{whole, Accepts, RefusesUnlessMemory};
ghost use Rattle.octet_core.specs.declared.stop.Refused.TheVariants as refusal;
ghost use Rattle.apdu_core.specs.Command as command;
ghost use Rattle.apdu_core.specs.Command.{CommandParts, IsCommand};
ghost use Rattle.apdu_core.specs.Response as response;
ghost use Rattle.apdu_core.specs.Response.{ResponseParts, IsResponse};

use crate::command::Command;
use crate::command_ref::CommandRef;
use crate::reason::{CommandReason, ResponseReason};
use crate::response::Response;
use crate::response_ref::ResponseRef;
use octet_core::Refused;
use std::alloc::Global;

/// Decodes all the octets as one command, with a copy of its data field.
///
/// The error is `Short` at the end of the octets if a command could continue there. Otherwise it is
/// `Trailing` at the first octet after the last that the length fields allow. It is `Memory` if an
/// allocation for the copy fails; the octets are a command then.
pub fn decode_command(alloc: Global, octets: &[u8]) -> Result<Command, Refused<CommandReason>>
    ensures found { IfOk result (λ c. Accepts whole IsCommand octets.now c (length octets.now)) }
    ensures refused { IfErr result
        (RefusesUnlessMemory whole IsCommand command.IsReason octets.now) }
    ensures memory { result ≡ Err refusal.Memory
        → (c : CommandParts) × Accepts whole IsCommand octets.now c (length octets.now) }
{
    match CommandRef::decode(octets) {
        Ok(lent) => lent.copied(alloc).map_err(|_| Refused::Memory),
        Err(stop) => Err(Refused::Stop(stop)),
    }
}

/// Decodes all the octets as one response, with a copy of its data field.
///
/// The error is `Short` at the end of fewer than two octets, or `TooLong` at place 65,538 of more
/// than 65,538 octets. It is `Memory` if an allocation for the copy fails; the octets are a response
/// then.
pub fn decode_response(alloc: Global, octets: &[u8]) -> Result<Response, Refused<ResponseReason>>
    ensures found { IfOk result (λ r. Accepts whole IsResponse octets.now r (length octets.now)) }
    ensures refused { IfErr result
        (RefusesUnlessMemory whole IsResponse response.IsReason octets.now) }
    ensures memory { result ≡ Err refusal.Memory
        → (r : ResponseParts) × Accepts whole IsResponse octets.now r (length octets.now) }
{
    match ResponseRef::decode(octets) {
        Ok(lent) => lent.copied(alloc).map_err(|_| Refused::Memory),
        Err(stop) => Err(Refused::Stop(stop)),
    }
}
