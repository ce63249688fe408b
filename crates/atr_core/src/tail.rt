//! The octets of an answer to reset after its last interface byte.

ghost use Rattle.std.specs.Prelude.{◌≡◌, ◌++◌, [], ◌∷◌, MatchBool};
ghost use Rattle.atr_core.specs.Partial.{IsTailStep, TailAwaits, TailEnds, TailHolds, tail_taken, tailing};

use crate::{Atr, AtrReason};

/// What all octets up to the last interface byte say. Their answer has the historical bytes that have come.
#[derive(Clone, Copy)]
pub(crate) struct Tail {
    /// How many historical bytes T0 announces.
    historical_len: usize,
    /// Whether there is a TCK.
    tck: bool,
    /// The exclusive-or of all octets from T0 on.
    sum: u8,
}

impl Tail {
    /// Starts after the last interface byte.
    pub(crate) fn new(historical_len: usize, tck: bool, sum: u8) -> Tail
        ensures { result ≡ record { historical_len = historical_len; tck = tck; sum = sum } }
    {
        Tail {
            historical_len,
            tck,
            sum,
        }
    }

    /// Takes a historical byte or TCK. Returns whether it is the last octet.
    pub(crate) fn take(&mut self, atr: &mut Atr, octet: u8) -> Result<bool, AtrReason>
        requires holds { TailHolds (tailing atr.old self.old) }
        requires awaits { TailAwaits (tailing atr.old self.old) }
        ensures { IsTailStep (tail_taken (tailing atr.old self.old) ++ octet ∷ [])
            (tailing atr.new self.new) result }
    {
        if atr.historical().len() < self.historical_len {
            atr.push_historical(octet);
            self.sum ^= octet;
            return Ok(!self.awaits(atr));
        }
        if octet != self.sum {
            return Err(AtrReason::BadTck);
        }
        Ok(true)
    }

    /// Whether more octets must come.
    pub(crate) fn awaits(&self, atr: &Atr) -> bool
        requires { TailHolds (tailing atr.now self.now) }
        ensures { MatchBool result (TailAwaits (tailing atr.now self.now))
            (TailEnds (tailing atr.now self.now)) }
    {
        atr.historical().len() < self.historical_len || self.tck
    }
}
