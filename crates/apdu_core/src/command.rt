//! Command APDUs that own their data field.

use crate::command_ref::{BodyRef, CommandRef};
use octet_core::Octets;
use std::fmt::{self, Debug, Formatter, Write};
use std::marker::Model;

/// What follows the header of a command (ISO/IEC 7816-3, clause 12), in one of seven shapes. It may have a data
/// field of Lc octets, and Le, the greatest number of octets that the response may have in its data field. A
/// short length field has one octet, and Le 256 is encoded as 00. An extended length field has two octets, and
/// Le 65,536 is encoded as 0000. An octet 00 precedes the first extended length field of a body.
#[derive(Debug, PartialEq, Eq, Drop)]
pub enum Body {
    /// Case 1: no octets.
    Empty,
    /// Case 2 short: `le` is 1 to 256.
    ShortLe { le: u32 },
    /// Case 3 short: a data field of 1 to 255 octets.
    ShortPart { part: Octets },
    /// Case 4 short: a data field of 1 to 255 octets, and `le` 1 to 256.
    ShortBoth { part: Octets, le: u32 },
    /// Case 2 extended: `le` is 1 to 65,536.
    LongLe { le: u32 },
    /// Case 3 extended: a data field of 1 to 65,535 octets.
    LongPart { part: Octets },
    /// Case 4 extended: a data field of 1 to 65,535 octets, and `le` 1 to 65,536.
    LongBoth { part: Octets, le: u32 },
}

/// The shape of a body, one of seven.
#[derive(Clone, Copy, Debug, PartialEq, Eq)]
pub enum Shape {
    /// Case 1.
    Empty,
    /// Case 2 short.
    ShortLe,
    /// Case 3 short.
    ShortPart,
    /// Case 4 short.
    ShortBoth,
    /// Case 2 extended.
    LongLe,
    /// Case 3 extended.
    LongPart,
    /// Case 4 extended.
    LongBoth,
}

/// A command (ISO/IEC 7816-3, clause 12): CLA, INS, P1 and P2, and a body whose numbers fit its length fields.
/// Its encoding has 4 to 65,544 octets.
#[derive(PartialEq, Eq, Drop)]
pub struct Command {
    header: [u8; 4],
    body: Body,
}

impl Model for Command {
    ghost use Rattle.apdu_core.specs.Command.{CommandParts, IsProper};

    ghost Value = { CommandParts };

    ghost view = { λ c. record { header = c.header; body = c.body } };

    ghost inverse = { λ c. record { header = c.header; body = c.body } };

    ghost invariant = { λ c. IsProper (record { header = c.header; body = c.body }) };
}

impl Command {
    ghost use Rattle.std.specs.Prelude.{◌≡◌, ◌≤◌, OnErr, IfOk, IfErr, length};
    ghost use Rattle.apdu_core.specs.Command.{FitsFields, HasSpelling, IsProper, spelling};
    ghost use Rattle.chain_core.specs.Longest.{longest_command};

    /// Makes a command of its header (CLA, INS, P1 and P2) and its body. The error returns the body if the
    /// length of its data field, or its `le`, is outside the range of its shape. Every other command has an
    /// encoding.
    pub fn new(header: [u8; 4], body: Body) -> Result<Command, Body>
        ensures value { IfOk result (λ c. c ≡ record { header = header; body = body }) }
        ensures spelled { IfOk result HasSpelling }
        ensures back { IfErr result (λ back. back ≡ body) }
        ensures unfit { OnErr result (FitsFields body → ⊥) }
    {
        if body.lent().fits() {
            Ok(Command { header, body })
        } else {
            Err(body)
        }
    }

    /// Makes a command of a header and a body that has an encoding.
    pub(crate) fn of_parts(header: [u8; 4], body: Body) -> Command
        requires { FitsFields body }
        ensures { result ≡ record { header = header; body = body } }
    {
        Command { header, body }
    }

    /// Returns CLA, INS, P1 and P2.
    pub fn header(&self) -> [u8; 4]
        ensures { result ≡ self.now.header }
    {
        self.header
    }

    /// Returns how many octets the encoded command has, 4 to 65,544.
    pub fn encoded_len(&self) -> usize
        ensures len { result ≡ length (spelling self.now) }
        ensures most { result ≤ longest_command }
    {
        self.lent().encoded_len()
    }

    /// Returns the command with its data field borrowed from this one.
    pub fn lent(&self) -> CommandRef<'_>
        ensures { result ≡ self.now }
    {
        CommandRef::of_parts(self.header, self.body.lent())
    }

    /// Borrows what follows the header.
    pub fn body(&self) -> &Body
        ensures body { result.now ≡ self.now.body }
        ensures proper { IsProper self.now }
    {
        &self.body
    }
}

impl Body {
    ghost use Rattle.std.specs.Prelude.{◌≡◌};
    ghost use Rattle.apdu_core.specs.Command.{part_of};
    ghost use Rattle.apdu_core.specs.Borrowed.{body_of};

    /// Returns the body with its data field borrowed from this one.
    pub(crate) fn lent(&self) -> BodyRef<'_>
        ensures { body_of result ≡ self.now }
    {
        match self {
            Body::Empty => BodyRef::Empty,
            Body::ShortLe { le } => BodyRef::ShortLe { le: *le },
            Body::ShortPart { part } => BodyRef::ShortPart { part: part.get() },
            Body::ShortBoth { part, le } => BodyRef::ShortBoth {
                part: part.get(),
                le: *le,
            },
            Body::LongLe { le } => BodyRef::LongLe { le: *le },
            Body::LongPart { part } => BodyRef::LongPart { part: part.get() },
            Body::LongBoth { part, le } => BodyRef::LongBoth {
                part: part.get(),
                le: *le,
            },
        }
    }

    /// Returns the data field, which is empty if the body has none.
    pub(crate) fn part(&self) -> &[u8]
        ensures { result.now ≡ part_of self.now }
    {
        match self {
            Body::Empty | Body::ShortLe { .. } | Body::LongLe { .. } => &[],
            Body::ShortPart { part }
            | Body::ShortBoth { part, .. }
            | Body::LongPart { part }
            | Body::LongBoth { part, .. } => part.get(),
        }
    }
}

/// Shows the shape, how many octets the data field has, and Le. A command may carry a PIN, so no octet of it is
/// shown.
impl Debug for Command {
    fn fmt<W: Write>(&self, f: &mut Formatter<W>) -> fmt::Result {
        f.debug_struct("Command").field("body", &self.body).finish()
    }
}
