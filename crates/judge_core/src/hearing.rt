//! What an end owes after what it heard (ISO/IEC 7816-3:2006, clause 11.6).

ghost use Rattle.std.specs.Prelude.{◌≡◌};
ghost use Rattle.t1_core.specs.Came.{same};
ghost use Rattle.judge_core.specs.Ends.{answered, answers, begins_again, due_after, hears, hears_asking, hears_free, hears_info, hears_ready, hears_request, hears_unknown, is_chain, missed, stopped};

use crate::end::{After, Asked, End, Owed, Pending};
use block_core::{Number, Pcb, S, Side};

impl End {
    /// Returns what the end owes after a block of the other end, which carries this size or multiple, or 0.
    pub(crate) fn hears(self, pcb: Pcb, carried: u8) -> After
        ensures { result ≡ hears self pcb carried }
    {
        if begins_again(self.side, pcb) {
            self.owes(Owed::Answer(S::Resynch, 0))
        } else if self.known {
            self.hears_asking(pcb, carried)
        } else {
            self.hears_unknown(pcb)
        }
    }

    /// Returns what the end owes after octets that aren't a block, or after silence.
    pub(crate) fn missed(self) -> Owed
        ensures { result ≡ missed self }
    {
        match self.asked {
            _ if !self.known => Owed::AnyBlock,
            None => Owed::Correction,
            Some(_) => Owed::SameRequest,
        }
    }

    fn hears_asking(self, pcb: Pcb, carried: u8) -> After
        ensures { result ≡ hears_asking self self.asked pcb carried }
    {
        match self.asked {
            None => self.hears_free(pcb, carried),
            Some(asked) if answers(asked, pcb, carried) => self.answered(asked),
            Some(_) => self.owes(Owed::SameRequest),
        }
    }

    fn answered(self, asked: Asked) -> After
        ensures { result ≡ answered self asked }
    {
        match asked {
            Asked::Size(_) | Asked::Time(_) => End {
                asked: None,
                ..self
            }
            .owes(self.before),
            Asked::Stop => self.stopped(),
            Asked::Anew => self.begun().owes(Owed::NewMessage),
        }
    }

    /// Takes the response to ABORT.
    fn stopped(self) -> After
        ensures { result ≡ stopped self self.before }
    {
        let free = End {
            asked: None,
            ..self
        };
        match self.before {
            Owed::AnyBlock => free.owes(Owed::AnyBlock),
            _ => End {
                pending: Pending::Settled,
                ..free
            }
            .owes(Owed::EitherBlock),
        }
    }

    fn hears_free(self, pcb: Pcb, carried: u8) -> After
        ensures { result ≡ hears_free self pcb carried }
    {
        match pcb {
            Pcb::Info { number, more } => self.hears_info(number, more),
            Pcb::Ready { number, .. } => self.hears_ready(same(number, self.next)),
            Pcb::Request(about) => self.hears_request(about, carried),
            Pcb::Response(_) => self.owes(Owed::Correction),
        }
    }

    fn hears_info(self, number: Number, more: bool) -> After
        ensures { result ≡ hears_info self number more }
    {
        if is_chain(self.pending) {
            self.owes(Owed::Correction)
        } else if same(number, self.expects) {
            End {
                expects: self.expects.other(),
                pending: Pending::Settled,
                aborted: false,
                ..self
            }
            .owes(due_after(more))
        } else {
            self.owes(Owed::Correction)
        }
    }

    /// Takes an R-block, which has the number of the end's next I-block or of its last one.
    fn hears_ready(self, is_next: bool) -> After
        ensures { result ≡ hears_ready self self.pending is_next }
    {
        match (self.pending, is_next) {
            (Pending::Chain, true) => End {
                pending: Pending::Settled,
                ..self
            }
            .owes(Owed::NextBlock),
            (Pending::Chain | Pending::Last, false) => self.owes(Owed::SameBlock),
            (Pending::Settled, true) if self.aborted => self.owes(Owed::MessageOrCorrection),
            (Pending::Last | Pending::Settled, _) => self.owes(Owed::Correction),
        }
    }

    fn hears_request(self, about: S, carried: u8) -> After
        ensures { result ≡ hears_request self self.side about carried }
    {
        let owed = match (about, self.side) {
            (S::Ifs, _) | (S::Wtx, Side::Terminal) => Owed::Answer(about, carried),
            (S::Abort, _) | (S::Resynch, Side::Card) => Owed::Answer(about, 0),
            (S::Wtx, Side::Card) | (S::Resynch, Side::Terminal) => Owed::Correction,
        };
        self.owes(owed)
    }

    pub(crate) fn hears_unknown(self, pcb: Pcb) -> After
        ensures { result ≡ hears_unknown self pcb }
    {
        match pcb {
            Pcb::Info { number, .. } => End {
                expects: number.other(),
                pending: Pending::Settled,
                aborted: false,
                ..self
            }
            .owes(Owed::AnyBlock),
            Pcb::Ready { .. } | Pcb::Request(_) | Pcb::Response(_) => self.owes(Owed::AnyBlock),
        }
    }
}

/// Whether both numbers are the same.
pub(crate) fn same(a: Number, b: Number) -> bool
    ensures { result ≡ same a b }
{
    a == b
}

/// Whether the block makes a card begin again.
fn begins_again(side: Side, pcb: Pcb) -> bool
    ensures { result ≡ begins_again side pcb }
{
    matches!((side, pcb), (Side::Card, Pcb::Request(S::Resynch)))
}

/// Whether the response answers the request.
pub(crate) fn answers(asked: Asked, pcb: Pcb, carried: u8) -> bool
    ensures { result ≡ answers asked pcb carried }
{
    match (asked, pcb) {
        (Asked::Size(octet), Pcb::Response(S::Ifs)) => carried == octet,
        (Asked::Time(octet), Pcb::Response(S::Wtx)) => carried == octet,
        (Asked::Stop, Pcb::Response(S::Abort)) => true,
        (Asked::Anew, Pcb::Response(S::Resynch)) => true,
        _ => false,
    }
}

fn is_chain(pending: Pending) -> bool
    ensures { result ≡ is_chain pending }
{
    matches!(pending, Pending::Chain)
}

fn due_after(more: bool) -> Owed
    ensures { result ≡ due_after more }
{
    if more {
        Owed::Acknowledgment
    } else {
        Owed::NewMessage
    }
}
