//! What an end may send if it owes this (ISO/IEC 7816-3:2006, clause 11.6).

ghost use Rattle.std.specs.Prelude.{◌≡◌};
ghost use Rattle.t1_core.specs.Came.{carried};
ghost use Rattle.judge_core.specs.Sends.{acknowledges, any_block, asks_again, begins_or_corrects, corrects, either, is_next, is_refusal, messages, or_refuses, refuses, repeats, responds, same_subject, sends};

use crate::asking::is_foreign;
use crate::end::{End, Owed, Pending};
use crate::hearing::same;
use crate::rule::Rule;
use crate::step::Sent;
use block_core::{Fault, Pcb, S};
use t1_core::MOST_REPEATS;

impl End {
    /// Returns the end after a block with the field `inf`, or the rule that the block breaks, if the end owes this. Its
    /// last I-block had the field `last`.
    pub(crate) fn sends(self, owed: Owed, last: &[u8], pcb: Pcb, inf: &[u8]) -> Sent
        ensures { result ≡ sends self owed last.now pcb inf.now }
    {
        if is_foreign(self.side, pcb) {
            return Err(Rule::ForeignRequest);
        }
        match owed {
            Owed::NewMessage | Owed::NextBlock => self.messages(owed, pcb, inf),
            Owed::Acknowledgment => self.acknowledges(pcb, inf),
            Owed::SameBlock => self.repeats(last, pcb, inf),
            Owed::Correction => self.corrects(pcb),
            Owed::Refusal => self.refuses(pcb, inf),
            Owed::SameRequest => self.asks_again(pcb, inf),
            Owed::Answer(about, octet) => self.responds(about, octet, pcb, inf),
            Owed::EitherBlock => self.either(pcb, inf),
            Owed::MessageOrCorrection => self.begins_or_corrects(pcb, inf),
            Owed::MessageOrRefusal => self.or_refuses(pcb, self.messages(owed, pcb, inf)),
            Owed::AcknowledgmentOrRefusal => self.or_refuses(pcb, self.acknowledges(pcb, inf)),
            Owed::AnyBlock => self.any_block(pcb, inf),
        }
    }

    /// Takes a block where a message begins or goes on.
    fn messages(self, owed: Owed, pcb: Pcb, inf: &[u8]) -> Sent
        ensures { result ≡ messages self owed pcb inf.now }
    {
        match pcb {
            Pcb::Info { number, more } => self.sends_info(number, more, inf),
            Pcb::Ready { .. } => Err(Rule::BlockDue),
            Pcb::Request(about) => self.asks(owed, about, carried(inf)),
            Pcb::Response(_) => Err(Rule::Unasked),
        }
    }

    fn acknowledges(self, pcb: Pcb, inf: &[u8]) -> Sent
        ensures { result ≡ acknowledges self pcb inf.now }
    {
        match pcb {
            Pcb::Info { .. } => Err(Rule::AcknowledgmentDue),
            Pcb::Ready { number, fault } => self.acknowledged(number, fault),
            Pcb::Request(about) => self.asks(Owed::Acknowledgment, about, carried(inf)),
            Pcb::Response(_) => Err(Rule::Unasked),
        }
    }

    /// Takes a block after ABORT.
    fn either(self, pcb: Pcb, inf: &[u8]) -> Sent
        ensures { result ≡ either self pcb inf.now }
    {
        match pcb {
            Pcb::Info { number, more } => self.sends_info(number, more, inf),
            Pcb::Ready { number, fault } => self.acknowledged(number, fault),
            Pcb::Request(about) => self.asks(Owed::EitherBlock, about, carried(inf)),
            Pcb::Response(_) => Err(Rule::Unasked),
        }
    }

    /// Takes a block after an R-block that either hands over the right to send or asks for the last R-block again.
    fn begins_or_corrects(self, pcb: Pcb, inf: &[u8]) -> Sent
        ensures { result ≡ begins_or_corrects self pcb inf.now }
    {
        match pcb {
            Pcb::Info { number, more } => self.sends_info(number, more, inf),
            Pcb::Ready { number, .. } => self.sends_ready(number),
            Pcb::Request(about) => self.asks(Owed::MessageOrCorrection, about, carried(inf)),
            Pcb::Response(_) => Err(Rule::Unasked),
        }
    }

    /// Returns the end after a block that refuses the I-block before the end's request; for another block returns
    /// `sent`.
    fn or_refuses(self, pcb: Pcb, sent: Sent) -> Sent
        ensures { result ≡ or_refuses self pcb sent }
    {
        if self.is_refusal(pcb) {
            let refusing = End {
                expects: self.expects.other(),
                tries: 0,
                ..self
            };
            refusing.corrects_again()
        } else {
            sent
        }
    }

    fn is_refusal(self, pcb: Pcb) -> bool
        ensures { result ≡ is_refusal self pcb }
    {
        match pcb {
            Pcb::Ready {
                number,
                fault: Fault::Other,
            } => same(number, self.expects.other()),
            _ => false,
        }
    }

    fn repeats(self, last: &[u8], pcb: Pcb, inf: &[u8]) -> Sent
        ensures { result ≡ repeats self last.now pcb inf.now }
    {
        match pcb {
            Pcb::Info { number, more } => self.repeats_info(last, number, more, inf),
            Pcb::Ready { .. } => Err(Rule::RepeatDue),
            Pcb::Request(about) => self.resynchs(about, Rule::RepeatDue),
            Pcb::Response(_) => Err(Rule::Unasked),
        }
    }

    /// Takes a block where an R-block after an error is due.
    fn corrects(self, pcb: Pcb) -> Sent
        ensures { result ≡ corrects self pcb }
    {
        match pcb {
            Pcb::Info { .. } => Err(Rule::CorrectionDue),
            Pcb::Ready { number, .. } => self.sends_ready(number),
            Pcb::Request(about) => self.resynchs(about, Rule::CorrectionDue),
            Pcb::Response(_) => Err(Rule::Unasked),
        }
    }

    fn refuses(self, pcb: Pcb, inf: &[u8]) -> Sent
        ensures { result ≡ refuses self pcb inf.now }
    {
        match pcb {
            Pcb::Ready {
                number,
                fault: Fault::Other,
            } => self.sends_ready(number),
            Pcb::Request(about) => self.repeats_request(about, carried(inf), Rule::CorrectionDue),
            Pcb::Ready { .. } | Pcb::Info { .. } | Pcb::Response(_) => Err(Rule::CorrectionDue),
        }
    }

    fn asks_again(self, pcb: Pcb, inf: &[u8]) -> Sent
        ensures { result ≡ asks_again self pcb inf.now }
    {
        match pcb {
            Pcb::Request(about) => self.repeats_request(about, carried(inf), Rule::RequestDue),
            Pcb::Info { .. } | Pcb::Ready { .. } | Pcb::Response(_) => Err(Rule::RequestDue),
        }
    }

    fn responds(self, about: S, octet: u8, pcb: Pcb, inf: &[u8]) -> Sent
        ensures { result ≡ responds self about octet pcb inf.now }
    {
        match pcb {
            Pcb::Response(said) if !same_subject(about, said) => Err(Rule::ResponseDue),
            Pcb::Response(_) if carried(inf) == octet => Ok(self.responded(about, octet)),
            Pcb::Response(_) => Err(Rule::ResponseOctet),
            Pcb::Info { .. } | Pcb::Ready { .. } | Pcb::Request(_) => Err(Rule::ResponseDue),
        }
    }

    /// Takes any block of an end about which nothing is known.
    fn any_block(self, pcb: Pcb, inf: &[u8]) -> Sent
        ensures { result ≡ any_block self pcb inf.now }
    {
        let hidden = End {
            asked: None,
            known: false,
            ..self
        };
        match pcb {
            Pcb::Info { .. } if inf.len() > usize::from(self.repeatable()) => Err(Rule::FieldSize),
            Pcb::Info { number, more } => Ok(End {
                known: is_next(
                    self.before,
                    self.pending,
                    same(number, self.next) && !self.aborted,
                ),
                before: Owed::NewMessage,
                tries: MOST_REPEATS,
                ..self.informed(number, more)
            }),
            Pcb::Ready { number, .. } => Ok(End {
                expects: number,
                ..hidden
            }),
            Pcb::Request(about) => Ok(self.asking(Owed::AnyBlock, about, carried(inf))),
            Pcb::Response(about) => Ok(hidden.responded(about, carried(inf))),
        }
    }
}

/// Returns the size or the multiple that a block carries, or 0.
pub(crate) fn carried(inf: &[u8]) -> u8
    ensures { result ≡ carried inf.now }
{
    inf.first().copied().unwrap_or(0)
}

/// Whether an end that the line hid is known again after an I-block. `next` says whether that has the next number and no
/// ABORT came between.
fn is_next(owed: Owed, pending: Pending, next: bool) -> bool
    ensures { result ≡ is_next owed pending next }
{
    match (owed, pending) {
        (Owed::AnyBlock, _) | (_, Pending::Chain | Pending::Last) => false,
        (_, Pending::Settled) => next,
    }
}

fn same_subject(a: S, b: S) -> bool
    ensures { result ≡ same_subject a b }
{
    a == b
}
