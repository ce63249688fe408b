//! Response APDUs that own their data field.

ghost use Rattle.std.specs.Prelude.{◌↔◌, ◌≤◌, IsTrue, length};
ghost use Rattle.octet_core.specs.Octets.{AreOctets};

use crate::response_ref::ResponseRef;
use crate::status::status_class;
use octet_core::Octets;
use std::fmt::{self, Debug, Formatter, Write};
use std::marker::Model;

/// The greatest length of a response's data field, in octets.
pub const LONGEST_PART: usize = 65_536;

/// A response (ISO/IEC 7816-3, clause 12): a data field of at most 65,536 octets, and the status bytes
/// SW1 and SW2. Its encoding has 2 to 65,538 octets.
#[derive(PartialEq, Eq, Drop)]
pub struct Response {
    part: Octets,
    sw1: u8,
    sw2: u8,
}

impl Model for Response {
    ghost use Rattle.apdu_core.specs.Response.{ResponseParts, IsProper};

    ghost Value = { ResponseParts };

    ghost view = { λ r. record { part = r.part; sw1 = r.sw1; sw2 = r.sw2 } };

    ghost inverse = { λ r. record { part = r.part; sw1 = r.sw1; sw2 = r.sw2 } };

    ghost invariant = { λ r. IsProper (record { part = r.part; sw1 = r.sw1; sw2 = r.sw2 }) };
}

impl Response {
    ghost use Rattle.std.specs.Prelude.{◌≡◌, ◌<◌, ◌≤◌, OnErr, IfOk, IfErr, length};
    ghost use Rattle.apdu_core.specs.Response.{HasSpelling};

    /// Makes a response of its data field and any two status bytes. The error returns the data field if
    /// it has more than 65,536 octets. Every other response has an encoding.
    pub fn new(part: Octets, sw1: u8, sw2: u8) -> Result<Response, Octets>
        ensures value { IfOk result (λ r. r ≡ record { part = part; sw1 = sw1; sw2 = sw2 }) }
        ensures spelled { IfOk result HasSpelling }
        ensures back { IfErr result (λ back. back ≡ part) }
        ensures unfit { OnErr result (65536 < length part) }
    {
        if is_part(part.get()) {
            Ok(Response { part, sw1, sw2 })
        } else {
            Err(part)
        }
    }

    /// Makes a response of parts that have an encoding.
    pub(crate) fn of_parts(part: Octets, sw1: u8, sw2: u8) -> Response
        requires { length part ≤ 65536 }
        ensures { result ≡ record { part = part; sw1 = sw1; sw2 = sw2 } }
    {
        Response { part, sw1, sw2 }
    }

    /// Borrows the data field.
    pub fn part(&self) -> &[u8]
        ensures part { result.now ≡ self.now.part }
        ensures fits { length self.now.part ≤ 65536 }
    {
        self.part.get()
    }

    /// Returns the response with its data field borrowed from this one.
    pub fn lent(&self) -> ResponseRef<'_>
        ensures { result ≡ self.now }
    {
        ResponseRef::of_parts(self.part.get(), self.sw1, self.sw2)
    }

    /// Returns the first status byte.
    pub fn sw1(&self) -> u8
        ensures { result ≡ self.now.sw1 }
    {
        self.sw1
    }

    /// Returns the second status byte.
    pub fn sw2(&self) -> u8
        ensures { result ≡ self.now.sw2 }
    {
        self.sw2
    }
}

/// Whether a response can have this data field.
pub(crate) fn is_part(part: &[u8]) -> bool
    ensures fits { IsTrue result ↔ (length part.now ≤ 65536) }
    ensures octets { AreOctets part.now }
{
    part.len() <= LONGEST_PART
}

/// Shows how many octets the data field has, and the class of the status bytes, but no octet.
impl Debug for Response {
    fn fmt<W: Write>(&self, f: &mut Formatter<W>) -> fmt::Result {
        f.debug_struct("Response")
            .field("part_octets", &self.part.get().len())
            .field("status", &status_class(self.sw1, self.sw2))
            .finish()
    }
}
