//! The turns of an end of a session, as C has them.

ghost use Rattle.std.specs.Prelude.{◌≡◌};
ghost use Rattle.c_lent.specs.Turns.{turned, no_room};
ghost use Rattle.c_lent.specs.Calls.{told_terminal, told_card};

use block_core::LONGEST_BLOCK;
use t1_core::{CardFault, EncodedCardTurn, EncodedTerminalTurn, TerminalFault};

/// The end sends a block.
const SEND: u8 = 0;

/// The answer is complete, or the host owes a reply.
const DONE: u8 = 1;

/// The size is set.
const IFS_SET: u8 = 2;

/// The exchange is given up.
const GIVEN_UP: u8 = 3;

/// The card is dead.
const DEAD: u8 = 4;

/// Refused: the card is dead.
const REFUSED_DEAD: u8 = 16;

/// Refused: an exchange is unfinished.
const REFUSED_BUSY: u8 = 17;

/// Refused: too long.
const REFUSED_TOO_LONG: u8 = 18;

/// Refused: a reserved size.
const REFUSED_RESERVED: u8 = 19;

/// Refused: the end waits for nothing.
const REFUSED_IDLE: u8 = 20;

/// Refused: not the host's turn.
const REFUSED_ORDER: u8 = 21;

/// The handle holds no such end.
pub const NO_END: u8 = 32;

/// The buffer is too small.
const NO_ROOM: u8 = 33;

/// What an end does next.
///
/// `kind` is one of these numbers. From 16 to 21 the call is refused, and nothing changes.
///
/// - 0: send the first `count` octets of the buffer
/// - 1: the answer is complete, or the host owes a reply
/// - 2: the size is set
/// - 3: the exchange is given up
/// - 4: the card is dead
/// - 16: the card is dead
/// - 17: an exchange is unfinished
/// - 18: too long
/// - 19: a reserved size
/// - 20: the end waits for nothing
/// - 21: not the host's turn
/// - 32: the handle holds no such end
/// - 33: the buffer has less than `count` octets
///
/// `wait` is how many block waiting times a terminal waits for the next block after the one that it sends, 1 to 255:
/// see [`EncodedTerminalTurn::Send`]. It is 0 if no time is set: at a card, which waits for its terminal without end,
/// and if nothing is sent.
#[repr(C)]
#[derive(Clone, Copy)]
pub struct CTurn {
    pub kind: u8,
    pub wait: u8,
    pub count: usize,
}

impl CTurn {
    /// Returns a turn that sends nothing.
    pub fn of(kind: u8) -> CTurn
        ensures { result ≡ turned kind }
    {
        CTurn {
            kind,
            wait: 0,
            count: 0,
        }
    }

    /// Returns the turn of a buffer that is too small for the longest block.
    pub fn no_room() -> CTurn
        ensures { result ≡ no_room }
    {
        CTurn {
            kind: NO_ROOM,
            wait: 0,
            count: LONGEST_BLOCK,
        }
    }

    /// Returns the turn for the result of a call of a terminal.
    pub fn of_terminal(answer: Result<EncodedTerminalTurn, TerminalFault>) -> CTurn
        ensures { result ≡ told_terminal answer }
    {
        match answer {
            Ok(EncodedTerminalTurn::Send { count, waiting }) => CTurn {
                kind: SEND,
                wait: waiting,
                count,
            },
            Ok(EncodedTerminalTurn::Answered) => CTurn::of(DONE),
            Ok(EncodedTerminalTurn::IfsSet) => CTurn::of(IFS_SET),
            Ok(EncodedTerminalTurn::GivenUp) => CTurn::of(GIVEN_UP),
            Ok(EncodedTerminalTurn::Dead) => CTurn::of(DEAD),
            Err(TerminalFault::Dead) => CTurn::of(REFUSED_DEAD),
            Err(TerminalFault::Busy) => CTurn::of(REFUSED_BUSY),
            Err(TerminalFault::TooLong) => CTurn::of(REFUSED_TOO_LONG),
            Err(TerminalFault::Reserved) => CTurn::of(REFUSED_RESERVED),
            Err(TerminalFault::Idle) => CTurn::of(REFUSED_IDLE),
        }
    }

    /// Returns the turn for the result of a call of a card.
    pub fn of_card(answer: Result<EncodedCardTurn, CardFault>) -> CTurn
        ensures { result ≡ told_card answer }
    {
        match answer {
            Ok(EncodedCardTurn::Send(count)) => CTurn {
                kind: SEND,
                wait: 0,
                count,
            },
            Ok(EncodedCardTurn::Asked) => CTurn::of(DONE),
            Err(CardFault::Order) => CTurn::of(REFUSED_ORDER),
            Err(CardFault::TooLong) => CTurn::of(REFUSED_TOO_LONG),
            Err(CardFault::Reserved) => CTurn::of(REFUSED_RESERVED),
        }
    }
}
