//! Commands and responses (ISO/IEC 7816-3, clause 12; ISO/IEC 7816-4, clause 5.1).

ghost use Rattle.std.specs.Prelude.{◌≡◌, ◌≢◌, ◌≤◌, ◌<◌, length, IfSome, Some};
ghost use Rattle.octet_core.specs.Grammar.{whole, Refuses};
ghost use Rattle.apdu_core.specs.Command.{IsCommand, IsReason};
ghost use Rattle.apdu_core.specs.Response.{IsResponse, IsReason as IsResponseReason};
ghost use Rattle.apdu_core.specs.Status.{IsOfClass};
ghost use Rattle.apdu_core.specs.declared.status.StatusClass.{StatusClass as AnyClass};
ghost use Rattle.c_lent.specs.Verdict.{Tells, Puts, ok_at, wrong_argument};
ghost use Rattle.c_lent.specs.Apdu.{command_reason, response_reason, class_number, body_with, command_with, HasBody, IsDecoded, IsDecodedResponse};

use c_lent::apdu::{CCommand, CResponse};
use c_lent::verdict::Verdict;

/// Decodes a command, which must be all of the octets. The place of `OK` is their number.
#[unsafe(no_mangle)]
pub extern "C" fn scard_command_decode(octets: &[u8], out: &mut CCommand) -> Verdict
    ensures ok { result.status ≡ 0 → IsDecoded octets.now out.new }
    ensures place { result.status ≡ 0 → result ≡ ok_at (length octets.now) }
    ensures refused { result.status ≢ 0 →
        Tells command_reason (Refuses whole IsCommand IsReason octets.now) result }
    ensures stays { result.status ≢ 0 → out.new ≡ out.old }
{
    c_lent::apdu::command_decode(octets, out)
}

/// Decodes a response, which must be all of the octets. The place of `OK` is their number.
#[unsafe(no_mangle)]
pub extern "C" fn scard_response_decode(octets: &[u8], out: &mut CResponse) -> Verdict
    ensures ok { result.status ≡ 0 → IsDecodedResponse octets.now out.new }
    ensures place { result.status ≡ 0 → result ≡ ok_at (length octets.now) }
    ensures refused { result.status ≢ 0 →
        Tells response_reason (Refuses whole IsResponse IsResponseReason octets.now) result }
    ensures stays { result.status ≢ 0 → out.new ≡ out.old }
{
    c_lent::apdu::response_decode(octets, out)
}

/// Encodes a command with the header, the shape and the Le of a struct, and with this data field. No other field of the
/// struct is read.
///
/// Returns `ARGUMENT` with place 0 if there is no such command. Then the shape isn't 1 to 7, the shape excludes the
/// data field or the Le, or the shape's length fields can't express them.
#[unsafe(no_mangle)]
pub extern "C" fn scard_command_encode(command: &CCommand, field: &[u8], out: &mut [u8]) -> Verdict
    ensures written { IfSome (body_with command.now.shape command.now.le field.now)
        (λ body. HasBody (Some body) →
        Puts (IsCommand (command_with command.now body)) out.old out.new result) }
    ensures unfit { (HasBody (body_with command.now.shape command.now.le field.now) → ⊥) →
        result ≡ wrong_argument 0 }
    ensures stays { result.status ≢ 0 → out.new ≡ out.old }
{
    c_lent::apdu::command_encode(command, field, out)
}

/// Encodes a response with this data field and these status bytes. Returns `ARGUMENT` with place 0 if the field has
/// more than 65,536 octets.
#[unsafe(no_mangle)]
pub extern "C" fn scard_response_encode(field: &[u8], sw1: u8, sw2: u8, out: &mut [u8]) -> Verdict
    ensures written { length field.now ≤ 65536 →
        Puts (IsResponse (record { part = field.now; sw1 = sw1; sw2 = sw2 })) out.old out.new result }
    ensures long { 65536 < length field.now → result ≡ wrong_argument 0 }
    ensures stays { result.status ≢ 0 → out.new ≡ out.old }
{
    c_lent::apdu::response_encode(field, sw1, sw2, out)
}

/// Returns the class of two status bytes: 1 normal, 2 warning, 3 execution error, 4 checking error, 5 proprietary, 6
/// invalid.
#[unsafe(no_mangle)]
pub extern "C" fn scard_status_class(sw1: u8, sw2: u8) -> u8
    ensures { (class : AnyClass) × IsOfClass class sw1 sw2 × (result ≡ class_number class) }
{
    c_lent::apdu::status_class(sw1, sw2)
}
