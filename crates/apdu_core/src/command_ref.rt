//! Command APDUs that borrow their data field.

ghost use Rattle.std.specs.Prelude.{◌≡◌, ◌≢◌, ◌≤◌, ◌<◌, ◌↔◌, ◌∷◌, [], IfOk, IfErr, IfSome, IsTrue, SomeIff, length, slice_index, take};
ghost use Rattle.octet_core.specs.Octets.{AreOctets};
ghost use Rattle.octet_core.specs.declared.stop.Stop.TheVariants.{At, Short};
ghost use Rattle.octet_core.specs.Grammar.{whole, Accepts, Refuses};
ghost use Rattle.apdu_core.specs.Command.{IsCommand, IsReason, IsCount, short_of, long_of};
ghost use Rattle.apdu_core.specs.declared.reason.CommandReason.TheVariants.{Trailing};

use crate::command::{Body, Command, Shape};
use crate::encoding::{put, put_body};
use crate::reason::CommandReason;
use octet_core::{Octets, Stop};
use std::alloc::{AllocError, Global};
use std::fmt::{self, Debug, Formatter, Write};
use std::marker::Model;

/// The body of a command with a borrowed data field. The shapes and numbers are those of a [`Body`].
#[derive(Clone, Copy, PartialEq, Eq)]
pub enum BodyRef<'a> {
    /// Case 1: no octets.
    Empty,
    /// Case 2 short.
    ShortLe { le: u32 },
    /// Case 3 short.
    ShortPart { part: &'a [u8] },
    /// Case 4 short.
    ShortBoth { part: &'a [u8], le: u32 },
    /// Case 2 extended.
    LongLe { le: u32 },
    /// Case 3 extended.
    LongPart { part: &'a [u8] },
    /// Case 4 extended.
    LongBoth { part: &'a [u8], le: u32 },
}

/// A command with a borrowed data field, such as one decoded from octets (ISO/IEC 7816-3, clause 12).
#[derive(Drop)]
pub struct CommandRef<'a> {
    header: [u8; 4],
    body: BodyRef<'a>,
}

impl<'a> Model for CommandRef<'a> {
    ghost use Rattle.apdu_core.specs.Command.{CommandParts, IsProper};

    ghost Value = { CommandParts };

    ghost use Rattle.apdu_core.specs.Borrowed.{body_of};

    ghost view = { λ c. record { header = c.header; body = body_of c.body } };

    ghost invariant = { λ c. IsProper (record { header = c.header; body = body_of c.body }) };
}

impl<'a> CommandRef<'a> {
    ghost use Rattle.apdu_core.specs.Command.{FitsFields, HasSpelling, IsPlaced, shape_of, part_of, le_of, spelling};
    ghost use Rattle.apdu_core.specs.Borrowed.{body_of};
    ghost use Rattle.apdu_core.specs.Put.{IsPutAt};
    ghost use Rattle.chain_core.specs.Longest.{longest_command};

    /// Decodes all the octets as one command. It allocates nothing, and its time doesn't grow with the octets:
    /// it looks only at their length, the header and the length fields.
    ///
    /// The error is `Short` at the end of the octets if a command could continue there. Otherwise it is
    /// `Trailing` at the first octet after the last that the length fields allow.
    pub fn decode(octets: &'a [u8]) -> Result<CommandRef<'a>, Stop<CommandReason>>
        ensures found { IfOk result
            (λ c. Accepts whole IsCommand octets.now c (length octets.now)) }
        ensures part { IfOk result (λ c. IsPlaced c.body octets.now) }
        ensures refused { IfErr result (Refuses whole IsCommand IsReason octets.now) }
    {
        let Some((header, _)) = octets.split_first_chunk::<4>() else {
            return Err(short(octets));
        };
        let body = BodyRef::read(octets)?;
        Ok(CommandRef {
            header: *header,
            body,
        })
    }

    /// Makes a command of its header (CLA, INS, P1 and P2) and its body. The result is `None` if the length of
    /// its data field, or its `le`, is outside the range of its shape. Every other command has an encoding.
    pub fn new(header: [u8; 4], body: BodyRef<'a>) -> Option<CommandRef<'a>>
        ensures value { SomeIff result (FitsFields (body_of body.entry))
            (record { header = header; body = body_of body.entry }) }
        ensures spelled { IfSome result HasSpelling }
    {
        if body.fits() {
            Some(CommandRef { header, body })
        } else {
            None
        }
    }

    /// Makes a command of a header and a body that has an encoding.
    pub(crate) fn of_parts(header: [u8; 4], body: BodyRef<'a>) -> CommandRef<'a>
        requires { FitsFields (body_of body) }
        ensures { result ≡ record { header = header; body = body_of body.entry } }
    {
        CommandRef { header, body }
    }

    /// Returns CLA, INS, P1 and P2.
    pub fn header(&self) -> [u8; 4]
        ensures { result ≡ self.now.header }
    {
        self.header
    }

    /// Returns the shape of the body.
    pub fn shape(&self) -> Shape
        ensures { result ≡ shape_of self.now.body }
    {
        match self.body {
            BodyRef::Empty => Shape::Empty,
            BodyRef::ShortLe { .. } => Shape::ShortLe,
            BodyRef::ShortPart { .. } => Shape::ShortPart,
            BodyRef::ShortBoth { .. } => Shape::ShortBoth,
            BodyRef::LongLe { .. } => Shape::LongLe,
            BodyRef::LongPart { .. } => Shape::LongPart,
            BodyRef::LongBoth { .. } => Shape::LongBoth,
        }
    }

    /// Returns the data field, borrowed from the octets that were decoded. It is empty if the body has none.
    pub fn part(&self) -> &'a [u8]
        ensures { result.now ≡ part_of self.now.body }
    {
        match self.body {
            BodyRef::Empty | BodyRef::ShortLe { .. } | BodyRef::LongLe { .. } => &[],
            BodyRef::ShortPart { part }
            | BodyRef::ShortBoth { part, .. }
            | BodyRef::LongPart { part }
            | BodyRef::LongBoth { part, .. } => part,
        }
    }

    /// Returns the greatest number of octets that the response may have in its data field. It is 1 to 256 in a
    /// short field, and 1 to 65,536 in an extended one. The result is `None` if the body has no Le.
    pub fn le(&self) -> Option<u32>
        ensures { result ≡ le_of self.now.body }
    {
        match self.body {
            BodyRef::Empty | BodyRef::ShortPart { .. } | BodyRef::LongPart { .. } => None,
            BodyRef::ShortLe { le }
            | BodyRef::ShortBoth { le, .. }
            | BodyRef::LongLe { le }
            | BodyRef::LongBoth { le, .. } => Some(le),
        }
    }

    /// Returns how many octets the encoded command has, 4 to 65,544.
    pub fn encoded_len(&self) -> usize
        ensures len { result ≡ length (spelling self.now) }
        ensures most { result ≤ longest_command }
    {
        4 + self.body.encoded_len()
    }

    /// Encodes the command at the front of the buffer, and returns how many octets it has, as
    /// [`CommandRef::encoded_len`] does. The rest of the buffer stays as it was.
    pub fn encode_into(&self, out: &mut [u8]) -> usize
        requires room { length (spelling self.now) ≤ length out.old }
        ensures command { IsCommand self.now (take result out.new) }
        ensures put { IsPutAt 0 (spelling self.now) out.old out.new result }
    {
        let end = put(out, 0, &self.header);
        put_body(out, end, self.body)
    }

    /// Returns the command with a copy of its data field.
    pub(crate) fn copied(&self, alloc: Global) -> Result<Command, AllocError>
        ensures { IfOk result (λ c. c ≡ self.now) }
    {
        let body = self.body.copied(alloc)?;
        Ok(Command::of_parts(self.header, body))
    }
}

impl<'a> BodyRef<'a> {
    ghost use Rattle.apdu_core.specs.Command.{FitsFields, body_octets, part_of};
    ghost use Rattle.apdu_core.specs.Borrowed.{IsBodyOf, body_of};

    /// Whether the numbers of the body fit its length fields.
    pub(crate) fn fits(&self) -> bool
        ensures fits { IsTrue result ↔ FitsFields (body_of self.now) }
        ensures octets { AreOctets (part_of (body_of self.now)) }
    {
        match *self {
            BodyRef::Empty => true,
            BodyRef::ShortLe { le } => is_count(le, 256),
            BodyRef::ShortPart { part } => is_part(part, 255),
            BodyRef::ShortBoth { part, le } => is_part(part, 255) && is_count(le, 256),
            BodyRef::LongLe { le } => is_count(le, 65_536),
            BodyRef::LongPart { part } => is_part(part, 65_535),
            BodyRef::LongBoth { part, le } => is_part(part, 65_535) && is_count(le, 65_536),
        }
    }

    /// Returns how many octets the encoded body has.
    fn encoded_len(&self) -> usize
        requires { FitsFields (body_of self.now) }
        ensures len { result ≡ length (body_octets (body_of self.now)) }
        ensures most { result ≤ 65540 }
    {
        match *self {
            BodyRef::Empty => 0,
            BodyRef::ShortLe { .. } => 1,
            BodyRef::ShortPart { part } => 1 + part.len(),
            BodyRef::ShortBoth { part, .. } => 2 + part.len(),
            BodyRef::LongLe { .. } => 3,
            BodyRef::LongPart { part } => 3 + part.len(),
            BodyRef::LongBoth { part, .. } => 5 + part.len(),
        }
    }

    /// Decodes the body after the header of a command.
    fn read(octets: &'a [u8]) -> Result<BodyRef<'a>, Stop<CommandReason>>
        requires { 4 ≤ length octets.now }
        ensures found { IfOk result (λ body. IsBodyOf octets.now (body_of body)) }
        ensures refused { IfErr result (Refuses whole IsCommand IsReason octets.now) }
    {
        match &octets[4..] {
            [] => Ok(BodyRef::Empty),
            [le] => Ok(BodyRef::ShortLe { le: short_le(*le) }),
            [0, ..] => BodyRef::read_long(octets),
            [_, ..] => BodyRef::read_short(octets),
        }
    }

    /// Decodes a body that begins with a short Lc.
    fn read_short(octets: &'a [u8]) -> Result<BodyRef<'a>, Stop<CommandReason>>
        requires more { 5 < length octets.now }
        requires lc { slice_index octets.now 4 ≢ 0 }
        ensures found { IfOk result (λ body. IsBodyOf octets.now (body_of body)) }
        ensures refused { IfErr result (Refuses whole IsCommand IsReason octets.now) }
    {
        let lc = octets[4] as usize;
        let Some((part, rest)) = octets[5..].split_at_checked(lc) else {
            return Err(short(octets));
        };
        match rest {
            [] => Ok(BodyRef::ShortPart { part }),
            [le] => Ok(BodyRef::ShortBoth {
                part,
                le: short_le(*le),
            }),
            // after the header, Lc, the data field and Le
            _ => Err(trailing(lc + 6)),
        }
    }

    /// Decodes a body that begins with an extended Lc or Le.
    fn read_long(octets: &'a [u8]) -> Result<BodyRef<'a>, Stop<CommandReason>>
        requires more { 5 < length octets.now }
        requires long { slice_index octets.now 4 ≡ 0 }
        ensures found { IfOk result (λ body. IsBodyOf octets.now (body_of body)) }
        ensures refused { IfErr result (Refuses whole IsCommand IsReason octets.now) }
    {
        let [_, _, _, _, _, high, low, rest @ ..] = octets else {
            return Err(short(octets));
        };
        if rest.is_empty() {
            return Ok(BodyRef::LongLe {
                le: long_le(*high, *low),
            });
        }
        let lc = usize::from(*high) * 256 + usize::from(*low);
        if lc == 0 {
            // after the header and an extended Le
            return Err(trailing(7));
        }
        let Some((part, rest)) = rest.split_at_checked(lc) else {
            return Err(short(octets));
        };
        match rest {
            [] => Ok(BodyRef::LongPart { part }),
            [_] => Err(short(octets)),
            [high, low] => Ok(BodyRef::LongBoth {
                part,
                le: long_le(*high, *low),
            }),
            // after the header, an extended Lc, the data field and an extended Le
            _ => Err(trailing(lc + 9)),
        }
    }

    /// Returns the body with a copy of its data field.
    fn copied(&self, alloc: Global) -> Result<Body, AllocError>
        ensures { IfOk result (λ body. body ≡ body_of self.now) }
    {
        match *self {
            BodyRef::Empty => Ok(Body::Empty),
            BodyRef::ShortLe { le } => Ok(Body::ShortLe { le }),
            BodyRef::ShortPart { part } => Ok(Body::ShortPart {
                part: copy_of(alloc, part)?,
            }),
            BodyRef::ShortBoth { part, le } => Ok(Body::ShortBoth {
                part: copy_of(alloc, part)?,
                le,
            }),
            BodyRef::LongLe { le } => Ok(Body::LongLe { le }),
            BodyRef::LongPart { part } => Ok(Body::LongPart {
                part: copy_of(alloc, part)?,
            }),
            BodyRef::LongBoth { part, le } => Ok(Body::LongBoth {
                part: copy_of(alloc, part)?,
                le,
            }),
        }
    }
}

/// Whether this number fits a length field whose greatest number is `most`.
fn is_count(number: u32, most: u32) -> bool
    ensures { IsTrue result ↔ IsCount number most }
{
    (1..=most).contains(&number)
}

/// Whether the length of this data field fits a length field whose greatest number is `most`.
fn is_part(part: &[u8], most: usize) -> bool
    ensures count { IsTrue result ↔ IsCount (length part.now) most }
    ensures octets { AreOctets part.now }
{
    (1..=most).contains(&part.len())
}

/// Copies octets.
pub(crate) fn copy_of(alloc: Global, octets: &[u8]) -> Result<Octets, AllocError>
    ensures { IfOk result (λ copy. copy ≡ octets.now) }
{
    let copy = Vec::from_slice(alloc, octets)?;
    Ok(Octets::of(copy))
}

/// Returns the stop for octets at whose end a command could continue.
fn short(octets: &[u8]) -> Stop<CommandReason>
    ensures { result ≡ Short (length octets.now) }
{
    Stop::Short {
        place: octets.len(),
    }
}

/// Returns the stop for an octet at this place with which no command can continue.
fn trailing(place: usize) -> Stop<CommandReason>
    ensures { result ≡ At place Trailing }
{
    Stop::At {
        place,
        reason: CommandReason::Trailing,
    }
}

/// Returns the number in a short Le.
fn short_le(octet: u8) -> u32
    ensures count { IsCount result 256 }
    ensures spelled { short_of result ≡ octet ∷ [] }
{
    match octet {
        0 => 256,
        _ => u32::from(octet),
    }
}

/// Returns the number in an extended Le.
fn long_le(high: u8, low: u8) -> u32
    ensures count { IsCount result 65536 }
    ensures spelled { long_of result ≡ high ∷ low ∷ [] }
{
    match u32::from(high) * 256 + u32::from(low) {
        0 => 65_536,
        number => number,
    }
}

/// Shows the shape, how many octets the data field has, and Le. No octet is shown, as with a [`Command`].
impl Debug for CommandRef<'_> {
    fn fmt<W: Write>(&self, f: &mut Formatter<W>) -> fmt::Result {
        f.debug_struct("CommandRef")
            .field("shape", &self.shape())
            .field("part_octets", &self.part().len())
            .field("le", &self.le())
            .finish()
    }
}
