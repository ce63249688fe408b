//! Which requests an end may make (ISO/IEC 7816-3:2006, clause 11.6): about a size or time, ABORT and RESYNCH.

ghost use Rattle.std.specs.Prelude.{◌≡◌, Some, true};
ghost use Rattle.judge_core.specs.Sends.{after_answer, asked_again, asking, asks, asks_for, first_tries, is_asked, is_between, is_foreign, is_within, most_asked, repeats_request, resynchs, resynchs_refusing};

use crate::end::{Asked, End, Owed, Row};
use crate::rule::Rule;
use crate::step::Sent;
use block_core::{Pcb, S, Side};
use t1_core::{MOST_REPEATS, MOST_RESYNCHS};

impl End {
    /// Sends the same request again, or RESYNCH. Another request breaks this rule.
    pub(crate) fn repeats_request(self, about: S, octet: u8, broken: Rule) -> Sent
        ensures { result ≡ repeats_request self about octet broken }
    {
        if is_asked(self.asked, about, octet) {
            self.asked_again(about, octet)
        } else if self.asked.is_some() {
            self.resynchs(about, broken)
        } else {
            self.resynchs_refusing(about, broken)
        }
    }

    /// Sends its request again. A card has no limit.
    fn asked_again(self, about: S, octet: u8) -> Sent
        ensures { result ≡ asked_again self.side self about octet }
    {
        let asking = self.asking(self.before, about, octet);
        match self.side {
            Side::Card => Ok(asking),
            Side::Terminal if self.tries < most_asked(about) => Ok(End {
                tries: self.tries + 1,
                ..asking
            }),
            Side::Terminal => Err(Rule::TooManyRepeats),
        }
    }

    /// Sends RESYNCH instead of the refusal of an I-block that came whole. Another request breaks this rule.
    fn resynchs_refusing(self, about: S, broken: Rule) -> Sent
        ensures { result ≡ resynchs_refusing self about broken }
    {
        match about {
            S::Resynch if self.tries < MOST_REPEATS => Err(Rule::EarlyResynch),
            S::Resynch => Ok(self.asking(Owed::NewMessage, S::Resynch, 0)),
            S::Ifs | S::Abort | S::Wtx => Err(broken),
        }
    }

    /// Sends a request instead of what is owed.
    pub(crate) fn asks(self, owed: Owed, about: S, octet: u8) -> Sent
        ensures { result ≡ asks self owed about octet }
    {
        match about {
            S::Resynch if !is_between(owed) => Err(Rule::EarlyResynch),
            S::Abort if !is_within(owed) => Err(Rule::NoChain),
            S::Resynch | S::Abort | S::Ifs | S::Wtx => Ok(self.asking(owed, about, octet)),
        }
    }

    pub(crate) fn asking(self, owed: Owed, about: S, octet: u8) -> End
        ensures { result ≡ asking self owed about octet }
    {
        match about {
            S::Resynch => self.begun().asks_for(Owed::NewMessage, Asked::Anew),
            S::Ifs => self.asks_for(owed, Asked::Size(octet)),
            S::Abort => self.asks_for(owed, Asked::Stop),
            S::Wtx => self.asks_for(owed, Asked::Time(octet)),
        }
    }

    fn asks_for(self, before: Owed, asked: Asked) -> End
        ensures { result ≡ asks_for self before asked }
    {
        End {
            asked: Some(asked),
            before: after_answer(before, self.side),
            tries: first_tries(self.side),
            row: Row::none(),
            known: true,
            ..self
        }
    }

    /// Sends RESYNCH instead of what is due after an error. Another request breaks this rule.
    pub(crate) fn resynchs(self, about: S, broken: Rule) -> Sent
        ensures { result ≡ resynchs self about broken }
    {
        match about {
            S::Resynch => Ok(self.asking(Owed::NewMessage, S::Resynch, 0)),
            S::Ifs | S::Abort | S::Wtx => Err(broken),
        }
    }
}

/// Whether only the other end makes this request.
pub(crate) fn is_foreign(side: Side, pcb: Pcb) -> bool
    ensures { result ≡ is_foreign side pcb }
{
    match (side, pcb) {
        (Side::Card, Pcb::Request(S::Resynch)) => true,
        (Side::Terminal, Pcb::Request(S::Wtx)) => true,
        _ => false,
    }
}

/// Returns what an end owes after its request is answered, if it owed this when it asked.
fn after_answer(owed: Owed, side: Side) -> Owed
    ensures { result ≡ after_answer owed side }
{
    match (owed, side) {
        (Owed::NewMessage, Side::Card) => Owed::MessageOrRefusal,
        (Owed::Acknowledgment, _) => Owed::AcknowledgmentOrRefusal,
        (owed, _) => owed,
    }
}

/// Returns the tries after the first sending of a request: 1 for a terminal, where it counts, and 0 for a card.
fn first_tries(side: Side) -> u8
    ensures { result ≡ first_tries side }
{
    match side {
        Side::Terminal => 1,
        Side::Card => 0,
    }
}

/// Returns how often a terminal may send a request in a row.
pub(crate) fn most_asked(about: S) -> u8
    ensures { result ≡ most_asked about }
{
    match about {
        S::Resynch => MOST_RESYNCHS,
        S::Ifs | S::Abort | S::Wtx => MOST_REPEATS + 1,
    }
}

pub(crate) fn is_between(owed: Owed) -> bool
    ensures { result ≡ is_between owed }
{
    matches!(
        owed,
        Owed::NewMessage | Owed::EitherBlock | Owed::MessageOrCorrection | Owed::MessageOrRefusal
    )
}

pub(crate) fn is_within(owed: Owed) -> bool
    ensures { result ≡ is_within owed }
{
    matches!(owed, Owed::NextBlock | Owed::Acknowledgment)
}

fn is_asked(asked: Option<Asked>, about: S, octet: u8) -> bool
    ensures { result ≡ is_asked asked about octet }
{
    match (asked, about) {
        (Some(Asked::Size(size)), S::Ifs) => octet == size,
        (Some(Asked::Time(multiple)), S::Wtx) => octet == multiple,
        (Some(Asked::Stop), S::Abort) => true,
        (Some(Asked::Anew), S::Resynch) => true,
        _ => false,
    }
}
