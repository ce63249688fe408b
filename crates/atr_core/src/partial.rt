//! An unfinished answer to reset, taken octet by octet.

ghost use Rattle.std.specs.Prelude.{◌≡◌, ℕ, List, MatchOption, ◌++◌, [], ◌∷◌, false, IfOk, IfErr, IfSome, IfNone, IsNone, Ok};
ghost use Rattle.atr_core.specs.Atr.{AtrParts, IsAtr, IsReason, ts_of};
ghost use Rattle.atr_core.specs.Partial.{Fits, Holds, IsNow, IsPastHeader, IsStart, is_whole, taken_of};
ghost use Rattle.atr_core.specs.Stage.{IsTaken};

use crate::header::Header;
use crate::tail::Tail;
use crate::{Atr, AtrReason, Convention};

/// The octets of an answer that have come. Its parts are written once, to their final place.
#[derive(Drop)]
pub(crate) struct Partial {
    /// The parts that have come, from T0 on.
    atr: Atr,
    phase: Phase,
}

/// Which octet is next, and what else the octets before it say.
#[derive(Clone, Copy)]
enum Phase {
    /// No octets: TS is next.
    Start,
    /// TS: T0 is next.
    Opened(Convention),
    /// An interface byte or a TD is next.
    Header(Header),
    /// A historical byte or TCK is next.
    Tail(Tail),
    /// All octets of an answer.
    Whole,
}

impl Partial {
    /// Starts before TS.
    pub(crate) fn new() -> Partial
        ensures now { IsNow [] result }
        ensures unended { is_whole result ≡ false }
    {
        Partial {
            atr: Atr::bare(),
            phase: Phase::Start,
        }
    }

    /// Starts again, before TS.
    pub(crate) fn restart(&mut self)
        ensures now { IsNow [] self.new }
        ensures unended { is_whole self.new ≡ false }
    {
        self.atr.clear();
        self.phase = Phase::Start;
    }

    /// Whether the octets are a whole answer. No octet is taken after it.
    pub(crate) fn is_whole(&self) -> bool
        ensures { result ≡ is_whole self.now }
    {
        matches!(self.phase, Phase::Whole)
    }

    /// Returns the answer, once it is whole.
    pub(crate) fn answer(&self) -> Option<&Atr>
        requires { Holds self.now }
        ensures value { (t : List ℕ) → t ≡ taken_of self.now
            → MatchOption result ((v : AtrParts) → IsAtr v t → ⊥) (λ atr. IsAtr atr.now t) }
        ensures unended { IsNone result → is_whole self.now ≡ false }
    {
        match self.phase {
            Phase::Whole => Some(&self.atr),
            _ => None,
        }
    }

    /// Returns the answer, if it is whole.
    pub(crate) fn into_answer(self) -> Option<Atr>
        requires { Holds self }
        ensures { MatchOption result (is_whole self ≡ false) (λ atr. IsAtr atr (taken_of self)) }
    {
        match self.phase {
            Phase::Whole => Some(self.atr),
            _ => None,
        }
    }

    /// Takes a whole answer from the front of a piece, before which no octet has come. Returns how many octets it has,
    /// or `None` if there is no whole answer at the front.
    #[inline(never)]
    pub(crate) fn take_whole(&mut self, piece: &[u8]) -> Option<usize>
        requires start { IsStart self.old }
        ensures taken { IfSome result (λ count. IsTaken [] piece.now self.new (Ok count)) }
        ensures left { IfNone result (IsStart self.new) }
    {
        let count = self.atr.read(piece)?;
        self.phase = Phase::Whole;
        Some(count)
    }

    /// Takes the next octet. The error is why no answer can continue with it.
    pub(crate) fn take(&mut self, octet: u8) -> Result<(), AtrReason>
        requires holds { Holds self.old }
        requires unended { is_whole self.old ≡ false }
        ensures taken { IfOk result (λ done. IsNow (taken_of self.old ++ octet ∷ []) self.new) }
        ensures refused { IfErr result
            (λ reason. IsReason reason (taken_of self.old ++ octet ∷ [])) }
    {
        match &mut self.phase {
            Phase::Start => self.phase = Phase::Opened(opened(octet)?),
            Phase::Opened(convention) => {
                let header = Header::begin(&mut self.atr, *convention, octet);
                self.phase = Phase::Header(header);
                self.settle();
            }
            Phase::Header(header) => {
                if header.take(&mut self.atr, octet)? {
                    self.settle();
                }
            }
            Phase::Tail(tail) => {
                if tail.take(&mut self.atr, octet)? {
                    self.phase = Phase::Whole;
                }
            }
            Phase::Whole => {}
        }
        Ok(())
    }

    /// Goes on to the phase of the next octet, if all octets of this one have come.
    fn settle(&mut self)
        requires { Fits self.old }
        ensures { IsNow (taken_of self.old) self.new }
    {
        self.end_header();
        self.end_tail();
    }

    /// Goes on to the historical bytes, if all interface bytes have come.
    fn end_header(&mut self)
        requires { Fits self.old }
        ensures holds { IsPastHeader self.new }
        ensures taken { taken_of self.new ≡ taken_of self.old }
    {
        if let Phase::Header(header) = &self.phase {
            if !header.awaits() {
                header.close_section(&mut self.atr);
                self.phase = Phase::Tail(header.tail());
            }
        }
    }

    /// Goes on to the whole answer, if all historical bytes have come and there is no TCK.
    fn end_tail(&mut self)
        requires { IsPastHeader self.old }
        ensures { IsNow (taken_of self.old) self.new }
    {
        if let Phase::Tail(tail) = &self.phase {
            if !tail.awaits(&self.atr) {
                self.phase = Phase::Whole;
            }
        }
    }
}

/// Returns the convention that TS says.
pub(crate) fn opened(ts: u8) -> Result<Convention, AtrReason>
    ensures is { IfOk result (λ convention. ts_of convention ≡ ts) }
    ensures refused { IfErr result (λ reason. IsReason reason (ts ∷ [])) }
{
    match ts {
        0x3B => Ok(Convention::Direct),
        0x3F => Ok(Convention::Inverse),
        _ => Err(AtrReason::BadTs),
    }
}
