//! Blocks that own their information field.

ghost use Rattle.std.specs.Prelude.{◌≡◌, ◌+◌, ◌≤◌, length, [], SomeIff};
ghost use Rattle.block_core.specs.Block.{Suits, IsBlock};
ghost use Rattle.block_core.specs.declared.pcb.Pcb.TheVariants.{Info, Ready, Request, Response};

use crate::pcb::{Fault, Number, Pcb, S};
use arrayvec::ArrayVec;
use octet_core::lrc;
use std::fmt::{self, Debug, Formatter, Write};
use std::marker::Model;

/// The greatest length of an information field, in octets.
pub const LONGEST_INF: usize = 254;

/// The greatest length of a block, in octets: NAD, PCB, LEN, the field and the LRC.
pub const LONGEST_BLOCK: usize = 258;

/// Returns how many octets a block with this LEN has: NAD, PCB, LEN, the field and the LRC (ISO/IEC 7816-3, clause
/// 11.3).
pub fn block_len(len: u8) -> usize
    ensures { result ≡ len + 4 }
{
    len as usize + 4
}

/// A block (ISO/IEC 7816-3, clause 11.3): its node address (NAD), its kind (PCB) and its information field. The field
/// suits the kind: at most 254 octets in an I-block, none in an R-block, and in an S-block those that its subject
/// needs.
#[derive(Clone, PartialEq, Eq, Drop)]
pub struct Block {
    nad: u8,
    pcb: Pcb,
    inf: ArrayVec<u8, LONGEST_INF>,
}

impl Model for Block {
    ghost use Rattle.block_core.specs.Block.{Parts, IsProper};

    ghost Value = { Parts };

    ghost view = { λ b. record { nad = b.nad; pcb = b.pcb; inf = b.inf.items } };

    ghost inverse = { λ d. record { nad = d.nad; pcb = d.pcb; inf = record { items = d.inf } } };

    ghost invariant = { λ b. IsProper 254
        (record { nad = b.nad; pcb = b.pcb; inf = b.inf.items }) };
}

impl Block {
    /// Returns the node address.
    pub fn nad(&self) -> u8
        ensures { result ≡ self.now.nad }
    {
        self.nad
    }

    /// Returns the kind of the block.
    pub fn pcb(&self) -> Pcb
        ensures { result ≡ self.now.pcb }
    {
        self.pcb
    }

    /// Borrows the information field, at most 254 octets.
    pub fn inf(&self) -> &[u8]
        ensures octets { result.now ≡ self.now.inf }
        ensures suits { Suits 254 self.now.pcb self.now.inf }
    {
        self.inf.as_slice()
    }

    /// Makes an I-block. The result is `None` if the field has more than 254 octets.
    pub fn info(nad: u8, number: Number, more: bool, inf: &[u8]) -> Option<Block>
        ensures { SomeIff result (length inf.now ≤ 254)
            (record { nad = nad; pcb = Info number more; inf = inf.now }) }
    {
        Block::made(nad, Pcb::Info { number, more }, inf)
    }

    /// Makes an R-block, which has no information field.
    pub fn ready(nad: u8, number: Number, fault: Fault) -> Block
        ensures { result ≡ record { nad = nad; pcb = Ready number fault; inf = [] } }
    {
        Block {
            nad,
            pcb: Pcb::Ready { number, fault },
            inf: ArrayVec::new(),
        }
    }

    /// Makes an S-block that is a request. The result is `None` if the field doesn't suit its subject. The field is
    /// empty for RESYNCH and ABORT, one octet from 01 to FE for IFS, and any one octet for WTX.
    pub fn request(nad: u8, about: S, inf: &[u8]) -> Option<Block>
        ensures { SomeIff result (Suits 254 (Request about) inf.now)
            (record { nad = nad; pcb = Request about; inf = inf.now }) }
    {
        Block::made(nad, Pcb::Request(about), inf)
    }

    /// Makes an S-block that is a response. The result is `None` if the field doesn't suit its subject. The field is
    /// as in a request.
    pub fn response(nad: u8, about: S, inf: &[u8]) -> Option<Block>
        ensures { SomeIff result (Suits 254 (Response about) inf.now)
            (record { nad = nad; pcb = Response about; inf = inf.now }) }
    {
        Block::made(nad, Pcb::Response(about), inf)
    }

    /// Makes a block of its parts. The result is `None` if the field doesn't suit the kind.
    pub(crate) fn made(nad: u8, pcb: Pcb, inf: &[u8]) -> Option<Block>
        ensures { SomeIff result (Suits 254 pcb inf.now)
            (record { nad = nad; pcb = pcb; inf = inf.now }) }
    {
        if pcb.suits(inf) {
            Some(Block::of_parts(nad, pcb, inf))
        } else {
            None
        }
    }

    /// Makes a block of its parts. The field must suit the kind.
    pub(crate) fn of_parts(nad: u8, pcb: Pcb, inf: &[u8]) -> Block
        requires { Suits 254 pcb inf.now }
        ensures { result ≡ record { nad = nad; pcb = pcb; inf = inf.now } }
    {
        Block {
            nad,
            pcb,
            inf: field(inf),
        }
    }
}

/// Shows the node address, the kind, and how many octets the field has. The field may belong to a command, which may
/// carry a PIN, so none of its octets is shown.
impl Debug for Block {
    fn fmt<W: Write>(&self, f: &mut Formatter<W>) -> fmt::Result {
        f.debug_struct("Block")
            .field("nad", &self.nad)
            .field("pcb", &self.pcb)
            .field("inf_octets", &self.inf.len())
            .finish()
    }
}

fn field(octets: &[u8]) -> ArrayVec<u8, LONGEST_INF>
    requires { length octets.now ≤ 254 }
    ensures { result.items ≡ octets.now }
{
    let mut field = ArrayVec::new();
    field.try_extend_from_slice(octets).unwrap();
    field
}

/// Encodes a block: NAD, PCB, LEN, the information field and the LRC.
pub fn encode(block: &Block) -> ArrayVec<u8, LONGEST_BLOCK>
    ensures { IsBlock 254 block.now result.items }
{
    let mut octets = ArrayVec::new();
    octets.push(block.nad);
    octets.push(block.pcb.octet());
    octets.push(block.inf.len() as u8);
    octets.try_extend_from_slice(block.inf()).unwrap();
    let sum = lrc(octets.as_slice());
    octets.push(sum);
    octets
}
