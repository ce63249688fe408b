//! The meaning of the protocol control octet (PCB) of a block (ISO/IEC 7816-3, clause 11.3).

ghost use Rattle.std.specs.Prelude.{◌≡◌, ◌↔◌, IfSome, IfNone, IsTrue, length};
ghost use Rattle.block_core.specs.declared.pcb.Pcb.{Pcb as AnyPcb};
ghost use Rattle.block_core.specs.declared.pcb.Pcb.TheVariants.{Info, Ready};
ghost use Rattle.block_core.specs.Block.{other, pcb_octet, number_bit, fault_code, supervisory_code, supervisory_len, IsSize, Suits};

use octet_core::is_reserved;

/// The send-sequence number of an I-block, or of the I-block that the sender of an R-block expects.
#[derive(Clone, Copy, Debug, PartialEq, Eq)]
pub enum Number {
    Zero,
    One,
}

/// What an R-block says of the block that it answers.
#[derive(Clone, Copy, Debug, PartialEq, Eq)]
pub enum Fault {
    /// The block was free of errors.
    Free,
    /// The redundancy check or a parity of the block was wrong.
    Redundancy,
    /// The block had another error.
    Other,
}

/// The subject of an S-block's request or response.
#[derive(Clone, Copy, Debug, PartialEq, Eq)]
pub enum S {
    /// Resynchronization: both ends start again.
    Resynch,
    /// The information field size that the sender accepts: one octet, 01 to FE.
    Ifs,
    /// The end of the unfinished chain.
    Abort,
    /// More waiting time: one octet of any value.
    Wtx,
}

/// The kind of a block, one of 18. Every other control octet is refused.
#[derive(Clone, Copy, Debug, PartialEq, Eq)]
pub enum Pcb {
    /// An I-block. With `more`, the chain continues after it.
    Info { number: Number, more: bool },
    /// An R-block, with the number that its sender expects, and a fault.
    Ready { number: Number, fault: Fault },
    /// An S-block that is a request.
    Request(S),
    /// An S-block that is a response.
    Response(S),
}

impl Number {
    /// Returns the other number. The numbers of the I-blocks that an end sends alternate (ISO/IEC
    /// 7816-3, clause 11.6).
    pub fn other(self) -> Number
        ensures { result ≡ other self }
    {
        match self {
            Number::Zero => Number::One,
            Number::One => Number::Zero,
        }
    }

    fn bit(self, weight: u8) -> u8
        ensures { result ≡ number_bit self weight }
    {
        match self {
            Number::Zero => 0,
            Number::One => weight,
        }
    }
}

impl Pcb {
    /// Returns the control octet.
    pub fn octet(self) -> u8
        ensures { result ≡ pcb_octet self }
    {
        match self {
            Pcb::Info { number, more } => number.bit(0x40) + if more { 0x20 } else { 0 },
            Pcb::Ready { number, fault } => 0x80 + number.bit(0x10) + fault.code(),
            Pcb::Request(about) => 0xC0 + about.code(),
            Pcb::Response(about) => 0xE0 + about.code(),
        }
    }

    /// Whether a block of this kind can carry this information field, for an information field size of
    /// 254.
    pub(crate) fn suits(self, inf: &[u8]) -> bool
        ensures { IsTrue result ↔ Suits 254 self inf.now }
    {
        match self {
            Pcb::Info { .. } => inf.len() <= 254,
            Pcb::Ready { .. } => inf.is_empty(),
            Pcb::Request(about) => about.suits(inf),
            Pcb::Response(about) => about.suits(inf),
        }
    }

    /// Returns the kind that a control octet says, or `None` if it isn't one of the 18.
    pub fn from_octet(octet: u8) -> Option<Pcb>
        ensures found { IfSome result (λ p. pcb_octet p ≡ octet) }
        ensures none { IfNone result ((p : AnyPcb) → pcb_octet p ≡ octet → ⊥) }
    {
        let pcb = match octet {
            0x00 => info(Number::Zero, false),
            0x20 => info(Number::Zero, true),
            0x40 => info(Number::One, false),
            0x60 => info(Number::One, true),
            0x80 => ready(Number::Zero, Fault::Free),
            0x81 => ready(Number::Zero, Fault::Redundancy),
            0x82 => ready(Number::Zero, Fault::Other),
            0x90 => ready(Number::One, Fault::Free),
            0x91 => ready(Number::One, Fault::Redundancy),
            0x92 => ready(Number::One, Fault::Other),
            0xC0 => Pcb::Request(S::Resynch),
            0xC1 => Pcb::Request(S::Ifs),
            0xC2 => Pcb::Request(S::Abort),
            0xC3 => Pcb::Request(S::Wtx),
            0xE0 => Pcb::Response(S::Resynch),
            0xE1 => Pcb::Response(S::Ifs),
            0xE2 => Pcb::Response(S::Abort),
            0xE3 => Pcb::Response(S::Wtx),
            _ => return None,
        };
        Some(pcb)
    }
}

fn info(number: Number, more: bool) -> Pcb
    ensures { result ≡ Info number more }
{
    Pcb::Info { number, more }
}

fn ready(number: Number, fault: Fault) -> Pcb
    ensures { result ≡ Ready number fault }
{
    Pcb::Ready { number, fault }
}

impl Fault {
    fn code(self) -> u8
        ensures { result ≡ fault_code self }
    {
        match self {
            Fault::Free => 0,
            Fault::Redundancy => 1,
            Fault::Other => 2,
        }
    }
}

impl S {
    fn code(self) -> u8
        ensures { result ≡ supervisory_code self }
    {
        match self {
            S::Resynch => 0,
            S::Ifs => 1,
            S::Abort => 2,
            S::Wtx => 3,
        }
    }

    /// Returns the length of the information field of an S-block.
    pub(crate) fn len(self) -> u8
        ensures { result ≡ supervisory_len self }
    {
        match self {
            S::Resynch | S::Abort => 0,
            S::Ifs | S::Wtx => 1,
        }
    }

    fn suits(self, inf: &[u8]) -> bool
        ensures { IsTrue result ↔ ((length inf.now ≡ supervisory_len self) × IsSize self inf.now) }
    {
        match self {
            S::Resynch | S::Abort => inf.is_empty(),
            S::Wtx => inf.len() == 1,
            S::Ifs => inf.len() == 1 && !is_reserved(inf[0]),
        }
    }
}
