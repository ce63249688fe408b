//! The block that an end sends, from what the end keeps. It is encoded once, when it is returned.

ghost use Rattle.std.specs.Prelude.{◌≡◌};
ghost use Rattle.block_core.specs.Block.{Suits};
ghost use Rattle.block_core.specs.declared.pcb.Pcb.TheVariants.{Request, Response};
ghost use Rattle.t1_core.specs.Came.{ready, request, response};

use block_core::{BlockRef, Fault, Number, Pcb, S};
use std::marker::Model;
use std::slice;

/// An R-block or an S-block with node address 0. Its field has at most one octet.
#[derive(Drop)]
pub(crate) struct Short {
    pcb: Pcb,
    octet: Option<u8>,
}

impl Model for Short {
    ghost use Rattle.std.specs.Option.{option_to_list};
    ghost use Rattle.block_core.specs.Block.{Parts, Suits};

    ghost Value = { Parts };

    ghost view = { λ s. record { nad = 0; pcb = s.pcb; inf = option_to_list s.octet } };

    ghost invariant = { λ s. Suits 254 s.pcb (option_to_list s.octet) };
}

impl Short {
    /// Returns an R-block.
    pub(crate) fn ready(number: Number, fault: Fault) -> Short
        ensures { result ≡ ready number fault }
    {
        Short {
            pcb: Pcb::Ready { number, fault },
            octet: None,
        }
    }

    /// Returns an S-block that asks, with the field that its kind has.
    pub(crate) fn request(about: S, inf: &[u8]) -> Short
        requires { Suits 254 (Request about) inf.now }
        ensures { result ≡ request about inf.now }
    {
        Short {
            pcb: Pcb::Request(about),
            octet: inf.first().copied(),
        }
    }

    /// Returns an S-block that answers, with the field that the request calls for.
    pub(crate) fn response(about: S, inf: &[u8]) -> Short
        requires { Suits 254 (Response about) inf.now }
        ensures { result ≡ response about inf.now }
    {
        Short {
            pcb: Pcb::Response(about),
            octet: inf.first().copied(),
        }
    }

    /// Returns the block, borrowed.
    pub(crate) fn lent(&self) -> BlockRef<'_>
        ensures { result ≡ self.now }
    {
        let inf = match &self.octet {
            Some(octet) => slice::from_ref(octet),
            None => &[],
        };
        BlockRef::new(0, self.pcb, inf).unwrap()
    }
}

/// The block that an end sends.
#[derive(Drop)]
pub(crate) enum Sent {
    /// The present I-block, which isn't the last of its message.
    Inner,
    /// The last I-block of a message.
    Last,
    /// Another block.
    Other(Short),
}

/// What the terminal does next.
#[derive(Drop)]
pub(crate) enum TerminalAct {
    /// It sends a block.
    Send(Sent),
    /// The answer is complete.
    Answered,
    /// The card accepted the size that the terminal asked for.
    IfsSet,
    /// The exchange or the question is given up.
    GivenUp,
    /// The card doesn't answer any more.
    Dead,
}

/// What the card does next.
#[derive(Drop)]
pub(crate) enum CardAct {
    /// It sends a block.
    Send(Sent),
    /// It is the host's turn.
    Asked,
}
