//! What happens on a line, and what to do next.

ghost use Rattle.std.specs.Prelude.{◌≡◌};
ghost use Rattle.session_core.specs.Actions.{is_for_end};

/// What happened on the line.
#[derive(Clone, Copy)]
pub enum Event<'a> {
    /// The block was sent: its last bit is on the line.
    Sent,
    /// These octets came, one or more. With none, the wait was interrupted.
    Came(&'a [u8]),
    /// These octets came, and the receiver found at least one of them damaged, by its parity for example.
    Garbled(&'a [u8]),
    /// No octet came within the silence that was asked for.
    Silent,
    /// The line failed.
    Failed,
}

/// What an end does next on its line.
#[derive(Clone, Copy, Debug, PartialEq, Eq)]
pub enum Next {
    /// It sends its block.
    Send,
    /// It waits for octets, for a silence of this many microseconds at most.
    Wait(u64),
    /// A burst has ended, and the end takes it.
    Heard,
    /// Nothing came within the waiting time.
    Quiet,
    /// The line failed.
    Failed,
    /// The blocks or the time of the exchange are used up.
    UsedUp,
    /// The line returns what is sent on it, and the rules don't say so.
    Echo,
    /// The event doesn't fit what the end is doing. Nothing changes.
    Order,
}

impl Next {
    /// Whether the end of the session goes on: it takes a burst, or that none came. The line does the rest alone.
    pub fn is_for_end(self) -> bool
        ensures { result ≡ is_for_end self }
    {
        matches!(self, Next::Heard | Next::Quiet)
    }
}
