//! The state of an end of the line, and what it owes.

ghost use Rattle.std.specs.Prelude.{◌≡◌};
ghost use Rattle.judge_core.specs.Ends.{after, begun, new_end, no_row, repeatable, widest};

use block_core::{Number, S, Side};

/// The last I-block of an end, until the other end acknowledges it.
#[derive(Clone, Copy, Debug)]
pub enum Pending {
    /// It is acknowledged, or there was none.
    Settled,
    /// It waits for an acknowledgment, and more blocks of its chain follow.
    Chain,
    /// It waits for an acknowledgment, and is the last of its message.
    Last,
}

/// A request of an end, which waits for the response.
#[derive(Clone, Copy, Debug)]
pub enum Asked {
    /// For fields of up to so many octets.
    Size(u8),
    /// For so many times the waiting time.
    Time(u8),
    /// For the end of the chain (ABORT).
    Stop,
    /// For a new beginning (RESYNCH).
    Anew,
}

/// What an end owes the other: the block that is due next from it.
#[derive(Clone, Copy, Debug)]
pub enum Owed {
    /// The first I-block of a message: a command or an answer.
    NewMessage,
    /// The next I-block of its chain.
    NextBlock,
    /// The R-block that acknowledges a block of the other end's chain.
    Acknowledgment,
    /// Its last I-block again.
    SameBlock,
    /// An R-block with the number of the I-block that it expects.
    Correction,
    /// An R-block that refuses an I-block which came whole.
    Refusal,
    /// Its request again.
    SameRequest,
    /// The response to a request, with the octet that the request carried, or 0.
    Answer(S, u8),
    /// After ABORT: the first I-block of a message, or an R-block that hands over the right to send.
    EitherBlock,
    /// The first I-block of a message, or an R-block: after an R-block that either hands over the right to send or asks
    /// for an R-block again.
    MessageOrCorrection,
    /// The first I-block of a message, or an R-block that refuses the I-block before its request.
    MessageOrRefusal,
    /// An R-block that acknowledges the I-block before its request, or that refuses it.
    AcknowledgmentOrRefusal,
    /// Nobody knows, since the line damaged the end's last block.
    AnyBlock,
}

/// How often in a row a terminal sent its last I-block again, and how often an R-block after an error.
///
/// A new block ends the row, and so does a response to a request of the card.
#[derive(Clone, Copy, Debug)]
pub struct Row {
    pub repeats: u8,
    pub corrections: u8,
}

/// The state of an end, which decides what it may send.
#[derive(Clone, Copy, Debug)]
pub struct End {
    pub side: Side,
    /// The number of its next new I-block.
    pub next: Number,
    /// The number of the I-block that it expects.
    pub expects: Number,
    pub pending: Pending,
    /// Its request that waits for a response, if any.
    pub asked: Option<Asked>,
    /// What it owes after its request is answered.
    pub before: Owed,
    /// How often a terminal repeated or corrected since its last new block, or sent its request.
    pub tries: u8,
    pub row: Row,
    /// The most octets of a field that the other end takes, now and at the start.
    pub room: u8,
    pub first_room: u8,
    /// The most octets of a field that the other end took at any time since numbers began. The end may repeat a block
    /// that is longer than it takes now.
    pub largest_room: u8,
    /// Whether its last block is known. It isn't if the line damaged it.
    pub known: bool,
    /// Whether the other end has just aborted its chain.
    pub aborted: bool,
}

/// An end after what it heard, and what it owes.
#[derive(Clone, Copy, Debug)]
pub struct After {
    pub end: End,
    pub owed: Owed,
}

impl Row {
    /// Returns a row without repeats and corrections.
    pub(crate) fn none() -> Row
        ensures { result ≡ no_row }
    {
        Row {
            repeats: 0,
            corrections: 0,
        }
    }
}

impl End {
    /// Returns an end at a reset of the card, which sends fields of up to `room` octets.
    pub fn new(side: Side, room: u8) -> End
        ensures { result ≡ new_end side room }
    {
        End {
            side,
            next: Number::Zero,
            expects: Number::Zero,
            pending: Pending::Settled,
            asked: None,
            before: Owed::NewMessage,
            tries: 0,
            row: Row::none(),
            room,
            first_room: room,
            largest_room: room,
            known: true,
            aborted: false,
        }
    }

    /// Returns the end after RESYNCH.
    pub(crate) fn begun(self) -> End
        ensures { result ≡ begun self }
    {
        End {
            first_room: self.first_room,
            ..End::new(self.side, self.widest())
        }
    }

    /// Returns the larger one of the size that holds and of that at the start.
    pub(crate) fn widest(self) -> u8
        ensures { result ≡ widest self }
    {
        self.room.max(self.first_room)
    }

    /// Returns the length of the longest field that the end may repeat.
    pub(crate) fn repeatable(self) -> u8
        ensures { result ≡ repeatable self }
    {
        self.room.max(self.largest_room)
    }

    /// Returns the end with what it owes.
    pub(crate) fn owes(self, owed: Owed) -> After
        ensures { result ≡ after self owed }
    {
        After { end: self, owed }
    }
}
