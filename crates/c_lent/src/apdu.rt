//! Commands and responses (ISO/IEC 7816-3, clause 12; ISO/IEC 7816-4, clause 5.1).

ghost use Rattle.std.specs.Prelude.{◌≡◌, ◌≢◌, ◌≤◌, ◌<◌, length, IfSome, IfNone, None, Some};
ghost use Rattle.octet_core.specs.Grammar.{whole, Refuses};
ghost use Rattle.apdu_core.specs.Command.{IsCommand, IsReason, HasSpelling};
ghost use Rattle.apdu_core.specs.Borrowed.{body_of};
ghost use Rattle.apdu_core.specs.Response.{IsResponse, IsReason as IsResponseReason, HasSpelling as IsSpelled};
ghost use Rattle.apdu_core.specs.Status.{IsOfClass};
ghost use Rattle.apdu_core.specs.declared.status.StatusClass.{StatusClass as AnyClass};
ghost use Rattle.c_lent.specs.Verdict.{Tells, Puts, ok_at, wrong_argument};
ghost use Rattle.c_lent.specs.Apdu.{command_reason, response_reason, shape_number, data_place, class_number, response_seen, body_with, command_with, HasBody, IsSeen, IsDecoded, IsDecodedResponse};

use crate::verdict::{Numbered, Verdict};
use apdu_core::{
    BodyRef, CommandReason, CommandRef, ResponseReason, ResponseRef, Shape, StatusClass,
};

/// A decoded command. Its data field is the `data_len` octets at offset `data_place` of the octets.
#[repr(C)]
#[derive(Clone, Copy)]
pub struct CCommand {
    pub cla: u8,
    pub ins: u8,
    pub p1: u8,
    pub p2: u8,
    /// The shape of the body: 1 empty, 2 short Le, 3 short data field, 4 short data field and Le. 5 to 7 are 2 to 4
    /// with extended length fields.
    pub shape: u8,
    /// 1 if there is an Le field, else 0.
    pub has_le: u8,
    /// The most octets that the response's data field may have, 1 to 65,536. 0 if there is no Le field.
    pub le: u32,
    pub data_place: usize,
    pub data_len: usize,
}

/// A decoded response. Its data field is the first `data_len` octets.
#[repr(C)]
#[derive(Clone, Copy)]
pub struct CResponse {
    pub sw1: u8,
    pub sw2: u8,
    pub data_len: usize,
}

/// Decodes a command, which must be all of the octets.
pub fn command_decode(octets: &[u8], out: &mut CCommand) -> Verdict
    ensures ok { result.status ≡ 0 → IsDecoded octets.now out.new }
    ensures place { result.status ≡ 0 → result ≡ ok_at (length octets.now) }
    ensures refused { result.status ≢ 0 →
        Tells command_reason (Refuses whole IsCommand IsReason octets.now) result }
    ensures stays { result.status ≢ 0 → out.new ≡ out.old }
{
    match CommandRef::decode(octets) {
        Ok(command) => {
            *out = command_seen(&command);
            Verdict::ok(octets.len())
        }
        Err(stop) => Verdict::stopped(stop),
    }
}

/// Decodes a response, which must be all of the octets.
pub fn response_decode(octets: &[u8], out: &mut CResponse) -> Verdict
    ensures ok { result.status ≡ 0 → IsDecodedResponse octets.now out.new }
    ensures place { result.status ≡ 0 → result ≡ ok_at (length octets.now) }
    ensures refused { result.status ≢ 0 →
        Tells response_reason (Refuses whole IsResponse IsResponseReason octets.now) result }
    ensures stays { result.status ≢ 0 → out.new ≡ out.old }
{
    match ResponseRef::decode(octets) {
        Ok(response) => {
            *out = response_seen(&response);
            Verdict::ok(octets.len())
        }
        Err(stop) => Verdict::stopped(stop),
    }
}

/// Encodes a command with the header, the shape and the Le of a struct, and with this data field.
pub fn command_encode(command: &CCommand, field: &[u8], out: &mut [u8]) -> Verdict
    ensures written { IfSome (body_with command.now.shape command.now.le field.now)
        (λ body. HasBody (Some body) →
        Puts (IsCommand (command_with command.now body)) out.old out.new result) }
    ensures unfit { (HasBody (body_with command.now.shape command.now.le field.now) → ⊥) →
        result ≡ wrong_argument 0 }
    ensures stays { result.status ≢ 0 → out.new ≡ out.old }
{
    let Some(body) = body_with(command.shape, command.le, field) else {
        return Verdict::argument();
    };
    let header = [command.cla, command.ins, command.p1, command.p2];
    match CommandRef::new(header, body) {
        Some(command) => put_command(&command, out),
        None => Verdict::argument(),
    }
}

/// Encodes a response with this data field and these status bytes.
pub fn response_encode(field: &[u8], sw1: u8, sw2: u8, out: &mut [u8]) -> Verdict
    ensures written { length field.now ≤ 65536 →
        Puts (IsResponse (record { part = field.now; sw1 = sw1; sw2 = sw2 })) out.old out.new result }
    ensures long { 65536 < length field.now → result ≡ wrong_argument 0 }
    ensures stays { result.status ≢ 0 → out.new ≡ out.old }
{
    match ResponseRef::new(field, sw1, sw2) {
        Some(response) => put_response(&response, out),
        None => Verdict::argument(),
    }
}

/// Returns the class of two status bytes: 1 normal, 2 warning, 3 execution error, 4 checking error, 5 proprietary, 6
/// invalid.
pub fn status_class(sw1: u8, sw2: u8) -> u8
    ensures { (class : AnyClass) × IsOfClass class sw1 sw2 × (result ≡ class_number class) }
{
    match apdu_core::status_class(sw1, sw2) {
        StatusClass::Normal => 1,
        StatusClass::Warning => 2,
        StatusClass::Execution => 3,
        StatusClass::Checking => 4,
        StatusClass::Proprietary => 5,
        StatusClass::Invalid => 6,
    }
}

fn command_seen(command: &CommandRef<'_>) -> CCommand
    ensures { IsSeen command.now result }
{
    let header = command.header();
    let shape = command.shape();
    let le = command.le();
    CCommand {
        cla: header[0],
        ins: header[1],
        p1: header[2],
        p2: header[3],
        shape: shape_number(shape),
        has_le: u8::from(le.is_some()),
        le: le.unwrap_or(0),
        data_place: data_place(shape),
        data_len: command.part().len(),
    }
}

fn response_seen(response: &ResponseRef<'_>) -> CResponse
    ensures { result ≡ response_seen response.now }
{
    CResponse {
        sw1: response.sw1(),
        sw2: response.sw2(),
        data_len: response.part().len(),
    }
}

/// Returns the body with this shape, data field and Le, if there is one.
fn body_with(shape: u8, le: u32, field: &[u8]) -> Option<BodyRef<'_>>
    ensures found { IfSome result (λ body. body_with shape le field.now ≡ Some (body_of body)) }
    ensures none { IfNone result (body_with shape le field.now ≡ None) }
{
    match shape {
        1 if le == 0 && field.is_empty() => Some(BodyRef::Empty),
        2 if field.is_empty() => Some(BodyRef::ShortLe { le }),
        3 if le == 0 => Some(BodyRef::ShortPart { part: field }),
        4 => Some(BodyRef::ShortBoth { part: field, le }),
        5 if field.is_empty() => Some(BodyRef::LongLe { le }),
        6 if le == 0 => Some(BodyRef::LongPart { part: field }),
        7 => Some(BodyRef::LongBoth { part: field, le }),
        _ => None,
    }
}

/// Writes a command to the front of a buffer.
fn put_command(command: &CommandRef<'_>, out: &mut [u8]) -> Verdict
    requires { HasSpelling command.now }
    ensures written { Puts (IsCommand command.now) out.old out.new result }
    ensures stays { result.status ≢ 0 → out.new ≡ out.old }
{
    let count = command.encoded_len();
    if count > out.len() {
        return Verdict::lacking(count);
    }
    Verdict::ok(command.encode_into(out))
}

/// Writes a response to the front of a buffer.
fn put_response(response: &ResponseRef<'_>, out: &mut [u8]) -> Verdict
    requires { IsSpelled response.now }
    ensures written { Puts (IsResponse response.now) out.old out.new result }
    ensures stays { result.status ≢ 0 → out.new ≡ out.old }
{
    let count = response.encoded_len();
    if count > out.len() {
        return Verdict::lacking(count);
    }
    Verdict::ok(response.encode_into(out))
}

fn shape_number(shape: Shape) -> u8
    ensures { result ≡ shape_number shape }
{
    match shape {
        Shape::Empty => 1,
        Shape::ShortLe => 2,
        Shape::ShortPart => 3,
        Shape::ShortBoth => 4,
        Shape::LongLe => 5,
        Shape::LongPart => 6,
        Shape::LongBoth => 7,
    }
}

/// Returns the offset of a command's data field. Without one, this is the end of the header.
fn data_place(shape: Shape) -> usize
    ensures { result ≡ data_place shape }
{
    match shape {
        Shape::Empty | Shape::ShortLe | Shape::LongLe => 4,
        Shape::ShortPart | Shape::ShortBoth => 5,
        Shape::LongPart | Shape::LongBoth => 7,
    }
}

impl Numbered for CommandReason {
    ghost number = { command_reason };

    fn number(self) -> u8 {
        match self {
            CommandReason::Trailing => 1,
        }
    }
}

impl Numbered for ResponseReason {
    ghost number = { response_reason };

    fn number(self) -> u8 {
        match self {
            ResponseReason::TooLong => 1,
        }
    }
}
