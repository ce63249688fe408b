//! What a session does next, as C has it.

ghost use Rattle.std.specs.Prelude.{◌≡◌};
ghost use Rattle.c_lent.specs.SessionNext.{next_with, done, no_room, acted, terminal_shown, card_shown};

use crate::turn::NO_END;
use block_core::LONGEST_BLOCK;
use session_core::Action;
use t1_core::{CardFault, TerminalFault};

/// What a session does next: one thing after each call.
///
/// `kind` is one of these numbers, of which those below 64 are as in the turn of an end:
///
/// - 0: send the first `count` octets of the buffer for a block
/// - 1: a terminal has an answer of `count` octets, or the host of a card owes the reply to a command of `count` octets
/// - 2: the size is set
/// - 3: the exchange is given up
/// - 4: the card is dead
/// - 16 to 20: the call is refused, and nothing changes
/// - 21: not the host's turn, or the event doesn't fit what the session is doing
/// - 32: there is no such session
/// - 33: the buffer for a block has less than `count` octets
/// - 64: the line failed
/// - 65: the blocks or the time of the exchange are used up
/// - 66: the card answered with `count` octets, none or one, without a status
/// - 67: the line returns what is sent on it, and the setup doesn't say so
/// - 68: wait for octets, for a silence of `wait` microseconds at most
///
/// C has no field between `kind` and `count`. The fields there are 0, so that no call copies octets without a value.
#[repr(C)]
#[derive(Clone, Copy)]
pub struct CSessionNext {
    pub kind: u8,
    pub(crate) fill_8: u8,
    pub(crate) fill_16: u16,
    pub(crate) fill_32: u32,
    pub count: usize,
    pub wait: u64,
}

impl CSessionNext {
    /// Returns what is next with this number, and nothing else.
    fn of(kind: u8) -> CSessionNext
        ensures { result ≡ done kind 0 }
    {
        CSessionNext::with(kind, 0)
    }

    /// Returns what is next with this number and so many octets.
    fn with(kind: u8, count: usize) -> CSessionNext
        ensures { result ≡ done kind count }
    {
        CSessionNext::whole(kind, count, 0)
    }

    /// Returns what is next with this number, so many octets and this wait.
    fn whole(kind: u8, count: usize, wait: u64) -> CSessionNext
        ensures { result ≡ next_with kind count wait }
    {
        CSessionNext {
            kind,
            fill_8: 0,
            fill_16: 0,
            fill_32: 0,
            count,
            wait,
        }
    }

    /// Returns what is next if there is no such session.
    pub fn no_end() -> CSessionNext
        ensures { result ≡ done 32 0 }
    {
        CSessionNext::of(NO_END)
    }

    /// Returns what is next if the buffer is too small for the longest block.
    pub fn no_room() -> CSessionNext
        ensures { result ≡ no_room }
    {
        CSessionNext::with(33, LONGEST_BLOCK)
    }

    /// Returns what is next after this action.
    pub fn acts(action: Action) -> CSessionNext
        ensures { result ≡ acted action }
    {
        match action {
            Action::Send(count) => CSessionNext::with(0, count),
            Action::Answered(count) | Action::Asked(count) => CSessionNext::with(1, count),
            Action::IfsSet => CSessionNext::of(2),
            Action::GivenUp => CSessionNext::of(3),
            Action::Dead => CSessionNext::of(4),
            Action::Order => CSessionNext::of(21),
            Action::Failed => CSessionNext::of(64),
            Action::UsedUp => CSessionNext::of(65),
            Action::NoStatus(count) => CSessionNext::with(66, count),
            Action::Echo => CSessionNext::of(67),
            Action::Wait(wait) => CSessionNext::whole(68, 0, wait),
        }
    }

    /// Returns what is next after a call of a terminal's session.
    pub fn of_terminal(answer: Result<Action, TerminalFault>) -> CSessionNext
        ensures { result ≡ terminal_shown answer }
    {
        match answer {
            Ok(action) => CSessionNext::acts(action),
            Err(TerminalFault::Dead) => CSessionNext::of(16),
            Err(TerminalFault::Busy) => CSessionNext::of(17),
            Err(TerminalFault::TooLong) => CSessionNext::of(18),
            Err(TerminalFault::Reserved) => CSessionNext::of(19),
            Err(TerminalFault::Idle) => CSessionNext::of(20),
        }
    }

    /// Returns what is next after a call of a card's session.
    pub fn of_card(answer: Result<Action, CardFault>) -> CSessionNext
        ensures { result ≡ card_shown answer }
    {
        match answer {
            Ok(action) => CSessionNext::acts(action),
            Err(CardFault::Order) => CSessionNext::of(21),
            Err(CardFault::TooLong) => CSessionNext::of(18),
            Err(CardFault::Reserved) => CSessionNext::of(19),
        }
    }
}
