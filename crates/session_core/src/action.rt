//! What a session does next.

ghost use Rattle.std.specs.Prelude.{◌≡◌, take};
ghost use Rattle.session_core.specs.Actions.{action_of, answered_with};

use crate::event::Next;

/// What the end of a session does next: one thing after each call.
#[derive(Clone, Copy, Debug, PartialEq, Eq)]
pub enum Action {
    /// It sends so many octets from the front of `out`. Then [`Event::Sent`](crate::Event::Sent) or
    /// [`Event::Failed`](crate::Event::Failed) comes.
    Send(usize),
    /// It waits for octets, for a silence of this many microseconds at most. Then one of the other events comes.
    Wait(u64),
    /// A terminal: the answer has so many octets, two or more, at the front of its buffer.
    Answered(usize),
    /// A terminal: the card answered with so many octets, none or one. A response has at least two.
    NoStatus(usize),
    /// A terminal: the card accepted the size.
    IfsSet,
    /// A terminal: both ends were resynchronized, and the exchange is given up.
    GivenUp,
    /// A terminal: the card doesn't answer any more.
    Dead,
    /// A card: its host owes the reply to a command of so many octets, at the front of its buffer.
    Asked(usize),
    /// The line failed, or was never silent.
    Failed,
    /// The blocks or the time of the exchange are used up.
    UsedUp,
    /// The line returns what is sent on it, and the setup doesn't say so.
    Echo,
    /// The event doesn't fit what the session is doing. Nothing changes.
    Order,
}

/// A response has at least two octets, SW1 and SW2 (ISO/IEC 7816-4, clause 5.1).
const STATUS_OCTETS: usize = 2;

impl Action {
    /// Returns the action for what the line says next, if the session's own block has so many octets.
    pub fn of(next: Next, own: usize) -> Action
        ensures { result ≡ action_of next own }
    {
        match next {
            Next::Send => Action::Send(own),
            Next::Wait(time) => Action::Wait(time),
            Next::Failed => Action::Failed,
            Next::UsedUp => Action::UsedUp,
            Next::Echo => Action::Echo,
            Next::Heard | Next::Quiet | Next::Order => Action::Order,
        }
    }

    /// Returns the action after an answer of so many octets.
    pub(crate) fn answered(count: usize) -> Action
        ensures { result ≡ answered_with count }
    {
        if count < STATUS_OCTETS {
            Action::NoStatus(count)
        } else {
            Action::Answered(count)
        }
    }
}

/// Returns the session's own block: so many octets at the front of `out`, or all of it if it has fewer.
pub fn own_block(out: &[u8], own: u32) -> &[u8]
    ensures { result.now ≡ take own out.now }
{
    &out[..(own as usize).min(out.len())]
}
