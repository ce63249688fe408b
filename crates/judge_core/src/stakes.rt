//! Which rules an end can keep or break with the block that it sends next (ISO/IEC 7816-3:2006, clause 11).

ghost use Rattle.std.specs.Prelude.{◌≡◌};
ghost use Rattle.judge_core.specs.Stakes.{acknowledgment_breaks, any_breaks, asked_so_often, at_stake, begun_or_corrected_breaks, came_in, can_break, carries, correction_breaks, either_breaks, is_asked_out, is_card, is_corrected_out, is_early, is_early_alone, is_nothing, is_repeated_out, is_terminal, is_unsettled, message_breaks, or_refusal_breaks, owed_breaks, refusal_breaks, repeat_breaks, request_breaks, response_breaks, takes_less};

use crate::asking::{is_between, is_within, most_asked};
use crate::courses::Heard;
use crate::end::{After, Asked, End, Owed, Pending};
use crate::rule::Rule;
use crate::state::State;
use block_core::{LONGEST_INF, S, Side};
use t1_core::MOST_REPEATS;

/// What an end can keep or break with a block.
#[derive(Clone, Copy, Debug)]
pub struct Stakes {
    /// What the end heard since its last block.
    pub heard: Heard,
    /// The end and what was due from it, on the course on which the block is judged. That is the course without damage,
    /// unless only another one permits the block.
    pub due: After,
}

impl Stakes {
    /// Whether the rule is at stake: the end keeps it or breaks it, whatever it sends.
    pub fn has(&self, rule: Rule) -> bool
        ensures { result ≡ at_stake self.now rule }
    {
        let end = self.due.end;
        match rule {
            Rule::NodeAddress
            | Rule::ControlOctet
            | Rule::Length
            | Rule::CheckOctet
            | Rule::ReservedSize => true,
            Rule::Turn => is_card(end.side) || is_nothing(self.heard),
            Rule::Silence => is_card(end.side) && self.heard.is_sure(),
            _ => !is_nothing(self.heard) && end.can_break(self.due.owed, rule),
        }
    }

    /// Returns what was due from the end, if it was its turn.
    pub fn state(&self) -> Option<State>
        ensures { result ≡ came_in self.now }
    {
        if is_nothing(self.heard) {
            None
        } else {
            Some(State::of(self.due.owed))
        }
    }
}

impl End {
    /// Whether some block breaks this rule, if the end owes this.
    fn can_break(self, owed: Owed, rule: Rule) -> bool
        ensures { result ≡ can_break self owed rule }
    {
        match rule {
            Rule::ForeignRequest => true,
            _ => self.owed_breaks(owed, rule),
        }
    }

    fn owed_breaks(self, owed: Owed, rule: Rule) -> bool
        ensures { result ≡ owed_breaks self owed rule }
    {
        match owed {
            Owed::NewMessage | Owed::NextBlock => self.message_breaks(owed, rule),
            Owed::Acknowledgment => self.acknowledgment_breaks(rule),
            Owed::SameBlock => self.repeat_breaks(rule),
            Owed::Correction => self.correction_breaks(rule),
            Owed::Refusal => self.refusal_breaks(rule),
            Owed::SameRequest => self.request_breaks(rule),
            Owed::Answer(about, octet) => response_breaks(about, octet, rule),
            Owed::EitherBlock => self.either_breaks(rule),
            Owed::MessageOrCorrection => self.begun_or_corrected_breaks(rule),
            Owed::MessageOrRefusal => {
                self.or_refusal_breaks(rule, self.message_breaks(owed, rule))
            }
            Owed::AcknowledgmentOrRefusal => {
                self.or_refusal_breaks(rule, self.acknowledgment_breaks(rule))
            }
            Owed::AnyBlock => self.any_breaks(rule),
        }
    }

    fn message_breaks(self, owed: Owed, rule: Rule) -> bool
        ensures { result ≡ message_breaks self owed rule }
    {
        match rule {
            Rule::FieldSize => takes_less(self.room),
            Rule::SequenceNumber | Rule::BlockDue | Rule::Unasked => true,
            Rule::NoChain => !is_within(owed),
            Rule::EarlyResynch => is_terminal(self.side) && !is_between(owed),
            _ => false,
        }
    }

    fn acknowledgment_breaks(self, rule: Rule) -> bool
        ensures { result ≡ acknowledgment_breaks self rule }
    {
        match rule {
            Rule::SequenceNumber | Rule::AcknowledgmentDue | Rule::ErrorCode | Rule::Unasked =>
                true,
            Rule::EarlyResynch => is_terminal(self.side),
            _ => false,
        }
    }

    fn repeat_breaks(self, rule: Rule) -> bool
        ensures { result ≡ repeat_breaks self rule }
    {
        match rule {
            Rule::SequenceNumber | Rule::RepeatDue | Rule::RepeatedOctets | Rule::Unasked => true,
            Rule::TooManyRepeats => self.is_repeated_out(),
            _ => false,
        }
    }

    fn correction_breaks(self, rule: Rule) -> bool
        ensures { result ≡ correction_breaks self rule }
    {
        match rule {
            Rule::SequenceNumber | Rule::CorrectionDue | Rule::Unasked => true,
            Rule::TooManyRepeats => self.is_corrected_out(),
            _ => false,
        }
    }

    fn refusal_breaks(self, rule: Rule) -> bool
        ensures { result ≡ refusal_breaks self rule }
    {
        match rule {
            Rule::SequenceNumber | Rule::CorrectionDue => true,
            Rule::EarlyResynch => self.is_early_alone(),
            Rule::TooManyRepeats => self.is_corrected_out() || self.is_asked_out(),
            _ => false,
        }
    }

    fn request_breaks(self, rule: Rule) -> bool
        ensures { result ≡ request_breaks self rule }
    {
        match rule {
            Rule::RequestDue => true,
            Rule::EarlyResynch => self.is_early_alone(),
            Rule::TooManyRepeats => self.is_asked_out(),
            _ => false,
        }
    }

    /// Whether an end can break this rule after ABORT.
    fn either_breaks(self, rule: Rule) -> bool
        ensures { result ≡ either_breaks self rule }
    {
        match rule {
            Rule::FieldSize => takes_less(self.room),
            Rule::SequenceNumber | Rule::ErrorCode | Rule::Unasked | Rule::NoChain => true,
            _ => false,
        }
    }

    /// Whether an end can break this rule after an R-block that either hands over the right to send or asks for the
    /// last R-block again.
    fn begun_or_corrected_breaks(self, rule: Rule) -> bool
        ensures { result ≡ begun_or_corrected_breaks self rule }
    {
        match rule {
            Rule::FieldSize => takes_less(self.room),
            Rule::SequenceNumber | Rule::Unasked | Rule::NoChain => true,
            Rule::TooManyRepeats => self.is_corrected_out(),
            _ => false,
        }
    }

    /// Whether an end that may also refuse can break this rule; `breaks` says whether it can if it may not refuse.
    fn or_refusal_breaks(self, rule: Rule, breaks: bool) -> bool
        ensures { result ≡ or_refusal_breaks self rule breaks }
    {
        match rule {
            Rule::TooManyRepeats => self.is_corrected_out(),
            _ => breaks,
        }
    }

    fn any_breaks(self, rule: Rule) -> bool
        ensures { result ≡ any_breaks self rule }
    {
        match rule {
            Rule::FieldSize => takes_less(self.repeatable()),
            _ => false,
        }
    }

    /// Whether it is a terminal that corrected as often as it may.
    fn is_corrected_out(self) -> bool
        ensures { result ≡ is_corrected_out self }
    {
        is_terminal(self.side) && self.row.corrections >= MOST_REPEATS
    }

    /// Whether it is a terminal that repeated its last I-block as often as it may.
    fn is_repeated_out(self) -> bool
        ensures { result ≡ is_repeated_out self }
    {
        is_terminal(self.side) && self.row.repeats >= MOST_REPEATS && is_unsettled(self.pending)
    }

    /// Whether it is a terminal that sent its request as often as it may.
    fn is_asked_out(self) -> bool
        ensures { result ≡ is_asked_out self self.asked }
    {
        match self.asked {
            None | Some(Asked::Time(_)) => false,
            Some(Asked::Size(_)) => self.asked_so_often(S::Ifs),
            Some(Asked::Stop) => self.asked_so_often(S::Abort),
            Some(Asked::Anew) => self.asked_so_often(S::Resynch),
        }
    }

    fn asked_so_often(self, about: S) -> bool
        ensures { result ≡ asked_so_often self about }
    {
        is_terminal(self.side) && self.tries >= most_asked(about)
    }

    /// Whether it is a terminal that may not ask for RESYNCH yet instead of a refusal.
    fn is_early(self) -> bool
        ensures { result ≡ is_early self }
    {
        is_terminal(self.side) && self.tries < MOST_REPEATS
    }

    /// Whether it is a terminal that may not ask for RESYNCH yet, and waits for no response.
    fn is_early_alone(self) -> bool
        ensures { result ≡ is_early_alone self }
    {
        self.is_early() && self.asked.is_none()
    }
}

fn response_breaks(about: S, octet: u8, rule: Rule) -> bool
    ensures { result ≡ response_breaks about octet rule }
{
    match rule {
        Rule::ResponseDue => true,
        Rule::ResponseOctet => carries(about) || octet != 0,
        _ => false,
    }
}

/// Whether a request of this kind carries an octet.
fn carries(about: S) -> bool
    ensures { result ≡ carries about }
{
    match about {
        S::Ifs | S::Wtx => true,
        S::Resynch | S::Abort => false,
    }
}

fn is_terminal(side: Side) -> bool
    ensures { result ≡ is_terminal side }
{
    match side {
        Side::Terminal => true,
        Side::Card => false,
    }
}

fn is_card(side: Side) -> bool
    ensures { result ≡ is_card side }
{
    !is_terminal(side)
}

fn is_unsettled(pending: Pending) -> bool
    ensures { result ≡ is_unsettled pending }
{
    match pending {
        Pending::Settled => false,
        Pending::Chain | Pending::Last => true,
    }
}

/// Whether it is the other end's turn.
fn is_nothing(heard: Heard) -> bool
    ensures { result ≡ is_nothing heard }
{
    match heard {
        Heard::Nothing => true,
        Heard::Beginning | Heard::Whole(..) | Heard::Perhaps(..) | Heard::Broken => false,
    }
}

/// Whether a block can have more octets than this size permits.
fn takes_less(room: u8) -> bool
    ensures { result ≡ takes_less room }
{
    usize::from(room) < LONGEST_INF
}
