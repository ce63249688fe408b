//! Response APDUs that borrow their data field.

ghost use Rattle.std.specs.Prelude.{◌≡◌, ◌≤◌, IfOk, IfErr, IfSome, SomeIff, length, take, ◌-◌};
ghost use Rattle.octet_core.specs.Grammar.{whole, Accepts, Refuses};
ghost use Rattle.apdu_core.specs.Response.{ResponseParts, IsResponse, IsReason};

use crate::command_ref::copy_of;
use crate::encoding::put;
use crate::reason::ResponseReason;
use crate::response::{LONGEST_PART, Response, is_part};
use crate::status::status_class;
use octet_core::Stop;
use std::alloc::{AllocError, Global};
use std::fmt::{self, Debug, Formatter, Write};
use std::marker::Model;

/// A response with a borrowed data field, such as one decoded from octets (ISO/IEC 7816-3, clause 12).
#[derive(Drop)]
pub struct ResponseRef<'a> {
    part: &'a [u8],
    sw1: u8,
    sw2: u8,
}

impl<'a> Model for ResponseRef<'a> {
    ghost use Rattle.apdu_core.specs.Response.{ResponseParts, IsProper};

    ghost Value = { ResponseParts };

    ghost view = { λ r. record { part = r.part.now; sw1 = r.sw1; sw2 = r.sw2 } };

    ghost invariant = { λ r. IsProper (record { part = r.part.now; sw1 = r.sw1; sw2 = r.sw2 }) };
}

impl<'a> ResponseRef<'a> {
    ghost use Rattle.apdu_core.specs.Response.{HasSpelling, spelling};
    ghost use Rattle.apdu_core.specs.Put.{IsPutAt};
    ghost use Rattle.chain_core.specs.Longest.{longest_response};

    /// Decodes all the octets as one response. It allocates nothing, and its time doesn't grow with the
    /// octets: it looks only at their length and the last two of them.
    ///
    /// The error is `Short` at the end of fewer than two octets, or `TooLong` at place 65,538 of more
    /// than 65,538 octets.
    pub fn decode(octets: &'a [u8]) -> Result<ResponseRef<'a>, Stop<ResponseReason>>
        ensures found { IfOk result
            (λ r. Accepts whole IsResponse octets.now r (length octets.now)) }
        ensures part { IfOk result (λ r. r.part ≡ take (length octets.now - 2) octets.now) }
        ensures refused { IfErr result (Refuses whole IsResponse IsReason octets.now) }
    {
        let [part @ .., sw1, sw2] = octets else {
            return Err(Stop::Short {
                place: octets.len(),
            });
        };
        if part.len() > LONGEST_PART {
            return Err(Stop::At {
                place: LONGEST_PART + 2,
                reason: ResponseReason::TooLong,
            });
        }
        Ok(ResponseRef {
            part,
            sw1: *sw1,
            sw2: *sw2,
        })
    }

    /// Makes a response of its data field and any two status bytes. The result is `None` if the data
    /// field has more than 65,536 octets. Every other response has an encoding.
    pub fn new(part: &'a [u8], sw1: u8, sw2: u8) -> Option<ResponseRef<'a>>
        ensures value { SomeIff result (length part.now ≤ 65536)
            (record { part = part.now; sw1 = sw1; sw2 = sw2 }) }
        ensures spelled { IfSome result HasSpelling }
    {
        if is_part(part) {
            Some(ResponseRef { part, sw1, sw2 })
        } else {
            None
        }
    }

    /// Makes a response of parts that have an encoding.
    pub(crate) fn of_parts(part: &'a [u8], sw1: u8, sw2: u8) -> ResponseRef<'a>
        requires { length part.now ≤ 65536 }
        ensures { result ≡ record { part = part.now; sw1 = sw1; sw2 = sw2 } }
    {
        ResponseRef { part, sw1, sw2 }
    }

    /// Returns how many octets the encoded response has, 2 to 65,538.
    pub fn encoded_len(&self) -> usize
        ensures len { result ≡ length (spelling self.now) }
        ensures most { result ≤ longest_response }
    {
        2 + self.part.len()
    }

    /// Encodes the response at the front of the buffer, and returns how many octets it has, as
    /// [`ResponseRef::encoded_len`] does. The rest of the buffer stays as it was.
    pub fn encode_into(&self, out: &mut [u8]) -> usize
        requires room { length (spelling self.now) ≤ length out.old }
        ensures response { IsResponse self.now (take result out.new) }
        ensures put { IsPutAt 0 (spelling self.now) out.old out.new result }
    {
        let end = put(out, 0, self.part);
        put(out, end, &[self.sw1, self.sw2])
    }

    /// Returns the data field, borrowed from the front of the octets that were decoded.
    pub fn part(&self) -> &'a [u8]
        ensures { result.now ≡ self.now.part }
    {
        self.part
    }

    /// Returns the first status byte.
    pub fn sw1(&self) -> u8
        ensures { result ≡ self.now.sw1 }
    {
        self.sw1
    }

    /// Returns the second status byte.
    pub fn sw2(&self) -> u8
        ensures { result ≡ self.now.sw2 }
    {
        self.sw2
    }

    /// Returns the response with a copy of its data field.
    pub(crate) fn copied(&self, alloc: Global) -> Result<Response, AllocError>
        ensures { IfOk result (λ r. r ≡ self.now) }
    {
        let part = copy_of(alloc, self.part)?;
        Ok(Response::of_parts(part, self.sw1, self.sw2))
    }
}

/// Shows how many octets the data field has, and the class of the status bytes, but no octet.
impl Debug for ResponseRef<'_> {
    fn fmt<W: Write>(&self, f: &mut Formatter<W>) -> fmt::Result {
        f.debug_struct("ResponseRef")
            .field("part_octets", &self.part.len())
            .field("status", &status_class(self.sw1, self.sw2))
            .finish()
    }
}
