//! An end after a block that it sent (ISO/IEC 7816-3:2006, clause 11.6).

ghost use Rattle.std.specs.Prelude.{◌≡◌, true};
ghost use Rattle.judge_core.specs.Sends.{acknowledged, again_as, corrects_again, informed, is_pending, pending_of, repeats_again, repeats_info, responded, sends_info, sends_ready, suggested};

use crate::asking::is_foreign;
use crate::end::{End, Owed, Pending, Row};
use crate::hearing::same;
use crate::rule::Rule;
use block_core::{Fault, Number, Pcb, S, Side};
use t1_core::MOST_REPEATS;

/// The end after a block that it may send, or the rule that the block breaks.
pub(crate) type Sent = Result<End, Rule>;

impl End {
    /// Sends a new I-block.
    pub(crate) fn sends_info(self, number: Number, more: bool, inf: &[u8]) -> Sent
        ensures { result ≡ sends_info self number more inf.now }
    {
        if !same(number, self.next) {
            Err(Rule::SequenceNumber)
        } else if inf.len() > usize::from(self.room) {
            Err(Rule::FieldSize)
        } else {
            Ok(self.informed(number, more))
        }
    }

    pub(crate) fn informed(self, number: Number, more: bool) -> End
        ensures { result ≡ informed self number more }
    {
        End {
            next: number.other(),
            pending: pending_of(more),
            asked: None,
            tries: 0,
            row: Row::none(),
            known: true,
            aborted: false,
            ..self
        }
    }

    /// Sends the last I-block again, which has to have the same octets.
    pub(crate) fn repeats_info(self, last: &[u8], number: Number, more: bool, inf: &[u8]) -> Sent
        ensures { result ≡ repeats_info self last.now number more inf.now }
    {
        if same(number, self.next) {
            Err(Rule::SequenceNumber)
        } else if is_pending(self.pending, more) && inf == last {
            self.repeats_again()
        } else {
            Err(Rule::RepeatedOctets)
        }
    }

    pub(crate) fn sends_ready(self, number: Number) -> Sent
        ensures { result ≡ sends_ready self number }
    {
        if same(number, self.expects) {
            self.corrects_again()
        } else {
            Err(Rule::SequenceNumber)
        }
    }

    pub(crate) fn acknowledged(self, number: Number, fault: Fault) -> Sent
        ensures { result ≡ acknowledged self number fault }
    {
        match fault {
            Fault::Redundancy | Fault::Other => Err(Rule::ErrorCode),
            Fault::Free if same(number, self.expects) => Ok(End {
                tries: 0,
                row: Row::none(),
                ..self
            }),
            Fault::Free => Err(Rule::SequenceNumber),
        }
    }

    /// Counts one more repeat of its last I-block.
    fn repeats_again(self) -> Sent
        ensures { result ≡ repeats_again self }
    {
        let repeats = self.row.repeats.saturating_add(1);
        let row = Row {
            repeats,
            ..self.row
        };
        self.again(self.row.repeats, row)
    }

    /// Counts one more correction.
    pub(crate) fn corrects_again(self) -> Sent
        ensures { result ≡ corrects_again self }
    {
        let corrections = self.row.corrections.saturating_add(1);
        let row = Row {
            corrections,
            ..self.row
        };
        self.again(self.row.corrections, row)
    }

    /// Returns the end after one more of its kind, if fewer than the limit came in a row; `row` is the row then. A card
    /// has no limit.
    fn again(self, count: u8, row: Row) -> Sent
        ensures { result ≡ again_as self.side self count row }
    {
        match self.side {
            Side::Card => Ok(self),
            Side::Terminal if count < MOST_REPEATS => Ok(End {
                tries: self.tries.saturating_add(1),
                row,
                ..self
            }),
            Side::Terminal => Err(Rule::TooManyRepeats),
        }
    }

    /// Returns the end after its response.
    pub(crate) fn responded(self, about: S, octet: u8) -> End
        ensures { result ≡ responded self about octet }
    {
        match about {
            S::Resynch => self.begun(),
            S::Ifs => End {
                room: octet,
                largest_room: self.repeatable(),
                row: Row::none(),
                ..self
            },
            S::Abort => End {
                pending: Pending::Settled,
                row: Row::none(),
                aborted: true,
                ..self
            },
            S::Wtx => End {
                row: Row::none(),
                ..self
            },
        }
    }

    /// Returns the end that its own block suggests. The block carries this octet, or 0.
    pub(crate) fn suggested(self, pcb: Pcb, octet: u8) -> End
        ensures { result ≡ suggested self pcb octet }
    {
        let known = End {
            asked: None,
            before: Owed::NewMessage,
            known: true,
            ..self
        };
        match pcb {
            Pcb::Info { number, more } => known.informed(number, more),
            Pcb::Ready { number, .. } => End {
                expects: number,
                ..known
            },
            Pcb::Request(_) if is_foreign(self.side, pcb) => End {
                known: false,
                ..self
            },
            Pcb::Request(about) => self.asking(Owed::NewMessage, about, octet),
            Pcb::Response(about) => known.responded(about, octet),
        }
    }
}

fn pending_of(more: bool) -> Pending
    ensures { result ≡ pending_of more }
{
    if more { Pending::Chain } else { Pending::Last }
}

fn is_pending(pending: Pending, more: bool) -> bool
    ensures { result ≡ is_pending pending more }
{
    match pending {
        Pending::Settled => false,
        Pending::Chain => more,
        Pending::Last => !more,
    }
}
