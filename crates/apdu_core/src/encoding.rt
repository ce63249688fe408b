//! Encoding of APDUs.

ghost use Rattle.std.specs.Prelude.{◌≡◌, ◌≤◌, ◌+◌, ◌++◌, ◌∷◌, IfOk, length, take};
ghost use Rattle.apdu_core.specs.Command.{IsCommand, FitsFields, IsCount, spelling, body_octets, long_of, short_of};
ghost use Rattle.apdu_core.specs.Borrowed.{body_of};
ghost use Rattle.apdu_core.specs.Put.{IsPutAt};
ghost use Rattle.apdu_core.specs.Response.{IsResponse};

use crate::command::Command;
use crate::command_ref::BodyRef;
use crate::response::Response;
use std::alloc::{AllocError, Global};

/// Encodes a command (ISO/IEC 7816-3, clause 12): the header and its body. The error is a failed
/// allocation.
pub fn encode_command(alloc: Global, command: &Command) -> Result<Vec<u8>, AllocError>
    ensures { IfOk result (λ octets. IsCommand command.now octets.items) }
{
    let mut octets = vec![in alloc; 0; command.encoded_len()]?;
    let _count = encode_command_into(command, octets.as_mut_slice());
    Ok(octets)
}

/// Encodes a command (ISO/IEC 7816-3, clause 12) at the front of the buffer, and returns how many octets
/// it has, as [`Command::encoded_len`] does. The rest of the buffer stays as it was.
pub fn encode_command_into(command: &Command, out: &mut [u8]) -> usize
    requires room { length (spelling command.now) ≤ length out.old }
    ensures command { IsCommand command.now (take result out.new) }
    ensures put { IsPutAt 0 (spelling command.now) out.old out.new result }
{
    command.lent().encode_into(out)
}

/// Encodes a response (ISO/IEC 7816-3, clause 12): its data field, SW1 and SW2. The error is a failed
/// allocation.
pub fn encode_response(alloc: Global, response: &Response) -> Result<Vec<u8>, AllocError>
    ensures { IfOk result (λ octets. IsResponse response.now octets.items) }
{
    let response = response.lent();
    let mut octets = vec![in alloc; 0; response.encoded_len()]?;
    let _count = response.encode_into(octets.as_mut_slice());
    Ok(octets)
}

/// Puts the encoded body of a command at `start`, and returns the place where it ends.
pub(crate) fn put_body(out: &mut [u8], start: usize, body: BodyRef<'_>) -> usize
    requires fits { FitsFields (body_of body) }
    requires room { start + length (body_octets (body_of body)) ≤ length out.old }
    ensures { IsPutAt start (body_octets (body_of body.entry)) out.old out.new result }
{
    match body {
        BodyRef::Empty => start,
        BodyRef::ShortLe { le } => put(out, start, &short(le as usize)),
        BodyRef::ShortPart { part } => put_short_part(out, start, part),
        BodyRef::ShortBoth { part, le } => {
            let end = put_short_part(out, start, part);
            put(out, end, &short(le as usize))
        }
        BodyRef::LongLe { le } => put_long(out, start, le as usize),
        BodyRef::LongPart { part } => put_long_part(out, start, part),
        BodyRef::LongBoth { part, le } => {
            let end = put_long_part(out, start, part);
            put(out, end, &long(le as usize))
        }
    }
}

/// Puts a short Lc and a data field at `start`, and returns the place where they end.
fn put_short_part(out: &mut [u8], start: usize, part: &[u8]) -> usize
    requires count { IsCount (length part.now) 255 }
    requires room { start + (1 + length part.now) ≤ length out.old }
    ensures { IsPutAt start (length part.now ∷ part.now) out.old out.new result }
{
    let end = put(out, start, &short(part.len()));
    put(out, end, part)
}

/// Puts an extended Lc and a data field at `start`, and returns the place where they end.
fn put_long_part(out: &mut [u8], start: usize, part: &[u8]) -> usize
    requires { start + (3 + length part.now) ≤ length out.old }
    ensures { IsPutAt start (0 ∷ long_of (length part.now) ++ part.now) out.old out.new result }
{
    let end = put_long(out, start, part.len());
    put(out, end, part)
}

/// Puts the first extended length field of a body at `start`: an octet 00, and the number in two octets.
/// Returns the place where it ends.
fn put_long(out: &mut [u8], start: usize, number: usize) -> usize
    requires { start + 3 ≤ length out.old }
    ensures { IsPutAt start (0 ∷ long_of number) out.old out.new result }
{
    let [high, low] = long(number);
    put(out, start, &[0, high, low])
}

/// Puts octets at `start`, and returns the place where they end.
pub(crate) fn put(out: &mut [u8], start: usize, octets: &[u8]) -> usize
    requires { start + length octets.now ≤ length out.old }
    ensures { IsPutAt start octets.now out.old out.new result }
{
    let end = start + octets.len();
    out[start..end].copy_from_slice(octets);
    end
}

/// Returns the low octet of a number, in which a short length field has it.
fn short(number: usize) -> [u8; 1]
    ensures { result ≡ short_of number }
{
    [(number % 256) as u8]
}

/// Returns the low two octets of a number, the high one first, in which an extended length field has it.
fn long(number: usize) -> [u8; 2]
    ensures { result ≡ long_of number }
{
    [(number / 256 % 256) as u8, (number % 256) as u8]
}
