//! The octets of an answer to reset up to its last interface byte.

ghost use Rattle.std.specs.Prelude.{◌≡◌, ◌+◌, ◌<◌, ◌||◌, ◌==◌, ◌++◌, [], ◌∷◌, true, not, IfOk, IfErr, length, bit_xor};
ghost use Rattle.atr_core.specs.Atr.{IsProper, IsReason, ts_of};
ghost use Rattle.atr_core.specs.Partial.{AwaitsByte, AwaitsTd, HeaderHolds, InOrder, IsBlank, Puts, closed, header_taken, heading, is_announced, tail_after};

use crate::announced::Announced;
use crate::atr::MOST_OCTETS;
use crate::tail::Tail;
use crate::{Atr, AtrReason, Convention, Interface};

/// What TS, T0 and interface bytes say, not all of which have come. Their answer has the bytes that T0 announces, and
/// the TDs, once all bytes of the section have come.
#[derive(Clone, Copy)]
pub(crate) struct Header {
    /// How many historical bytes T0 announces.
    historical_len: usize,
    /// The protocol of the TD whose bytes come now, or `None` if those of T0 do.
    under: Option<u8>,
    /// Those of them that have come.
    bytes: Interface,
    /// Those of them that haven't come.
    awaited: Announced,
    /// Whether there is a TCK: some protocol isn't 0.
    tck: bool,
    /// The exclusive-or of all octets from T0 on.
    sum: u8,
    /// How many octets have come.
    count: usize,
}

impl Header {
    /// Starts an answer after TS and T0.
    pub(crate) fn begin(atr: &mut Atr, convention: Convention, t0: u8) -> Header
        requires { IsBlank atr.old }
        ensures holds { HeaderHolds (heading atr.new result) }
        ensures taken { header_taken (heading atr.new result) ≡ ts_of convention ∷ t0 ∷ [] }
    {
        atr.begin(convention);
        Header {
            historical_len: usize::from(t0 % 16),
            under: None,
            bytes: Interface::default(),
            awaited: Announced::by(t0),
            tck: false,
            sum: t0,
            count: 2,
        }
    }

    /// Whether an interface byte or a TD is awaited.
    pub(crate) fn awaits(&self) -> bool
        ensures { result ≡ is_announced self.now.awaited }
    {
        self.awaited.is_some()
    }

    /// Takes an interface byte or a TD. Returns whether it is the last one.
    pub(crate) fn take(&mut self, atr: &mut Atr, octet: u8) -> Result<bool, AtrReason>
        requires holds { HeaderHolds (heading atr.old self.old) }
        requires announced { is_announced self.old.awaited ≡ true }
        ensures holds { IfOk result (λ last. HeaderHolds (heading atr.new self.new)) }
        ensures taken { IfOk result (λ last. header_taken (heading atr.new self.new)
            ≡ header_taken (heading atr.old self.old) ++ octet ∷ []) }
        ensures last { IfOk result (λ last. last ≡ not (is_announced self.new.awaited)) }
        ensures refused { IfErr result
            (λ reason. IsReason reason (header_taken (heading atr.old self.old) ++ octet ∷ [])) }
    {
        if self.awaited.has_byte() {
            self.take_byte(octet);
        } else {
            self.take_td(atr, octet)?;
        }
        Ok(!self.awaited.is_some())
    }

    /// Takes the first of TA, TB and TC that is awaited.
    fn take_byte(&mut self, octet: u8)
        requires ordered { InOrder self.old.bytes self.old.awaited }
        requires awaited { AwaitsByte self.old.awaited }
        requires few { self.old.count < 33 }
        ensures puts { Puts self.old.bytes self.old.awaited octet self.new.bytes self.new.awaited }
        ensures same { self.new ≡ record self.old {
          bytes = self.new.bytes;
          awaited = self.new.awaited;
          sum = bit_xor self.old.sum octet;
          count = self.old.count + 1;
        } }
    {
        (self.bytes, self.awaited) = self.bytes.with(self.awaited, octet);
        self.sum ^= octet;
        self.count += 1;
    }

    /// Takes a TD. The error is `TooLong` if the answer would have more than 33 octets.
    fn take_td(&mut self, atr: &mut Atr, octet: u8) -> Result<(), AtrReason>
        requires holds { HeaderHolds (heading atr.old self.old) }
        requires awaited { AwaitsTd self.old.awaited }
        ensures holds { IfOk result (λ done. HeaderHolds (heading atr.new self.new)) }
        ensures taken { IfOk result (λ done. header_taken (heading atr.new self.new)
            ≡ header_taken (heading atr.old self.old) ++ octet ∷ []) }
        ensures refused { IfErr result
            (λ reason. IsReason reason (header_taken (heading atr.old self.old) ++ octet ∷ [])) }
    {
        let count = self.count + 1;
        let tck = needs_tck_after(octet % 16, self.tck);
        let announced = (octet / 16).count_ones() as usize;
        if count + announced + self.historical_len + usize::from(tck) > MOST_OCTETS {
            return Err(AtrReason::TooLong);
        }
        self.close_section(atr);
        self.under = Some(octet % 16);
        self.bytes = Interface::default();
        self.awaited = Announced::by(octet);
        self.tck = tck;
        self.sum ^= octet;
        self.count = count;
        Ok(())
    }

    /// Writes the bytes that came now to the answer: as those of T0, or with their TD.
    pub(crate) fn close_section(&self, atr: &mut Atr)
        requires room { length atr.old.indicated < 31 }
        requires proper { IsProper (closed (heading atr.old self.now)) }
        ensures { atr.new ≡ closed (heading atr.old self.now) }
    {
        atr.add_section(self.under, self.bytes);
    }

    /// Returns the state of the historical bytes, once the last section is closed.
    pub(crate) fn tail(&self) -> Tail
        ensures { result ≡ tail_after self.now }
    {
        Tail::new(self.historical_len, self.tck, self.sum)
    }
}

/// Whether there is a TCK if a TD has this protocol. `before` says whether the TDs before it
/// require one.
fn needs_tck_after(protocol: u8, before: bool) -> bool
    ensures { result ≡ (not (protocol == 0) || before) }
{
    protocol != 0 || before
}
