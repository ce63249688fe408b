//! Lines that carry the blocks of a terminal.

ghost use Rattle.std.specs.Prelude.{◌≤◌, length, List, [], ◌∷◌, IfOk};
ghost use Rattle.line_core.specs.Line.{Talk, Adds, FitsRoom, arrival_of};

use std::io;

/// What came after a block was sent.
#[derive(Clone, Copy, Debug, PartialEq, Eq)]
pub enum Received {
    /// Octets came as one block, and this many are at the front of the buffer. If only the first octets of a block came
    /// within CWT, they count as one too. The terminal accepts any octets, even none. If they aren't a block, it takes
    /// them for an invalid or a damaged one.
    Octets(usize),
    /// Nothing came within the waiting time.
    Nothing,
}

/// A line to a card, as the driver of a reader has it.
///
/// Contracts see the talks on the line since an earlier state of it. `said` may hold of a line and itself with no
/// talks, as for an [`UntimedLine`](crate::UntimedLine). Then a caller can take the state before a call as the earlier
/// one, and sees all that was on the line since. A line about which nothing is known, such as a device, has a `said`
/// that always holds: `λ _ _ _. Unit {0}`.
pub trait TerminalLine {
    /// Whether these may be the talks on the line since an earlier state, the second argument.
    ghost said: { Self → Self → List Talk → Type 0 };

    /// Sends the octets of a block, 4 to 258, and takes what comes after it into the buffer.
    ///
    /// The result is `Nothing` if no block began within `waiting` times the block waiting time, which is
    /// `T1Params::bwt` (ISO/IEC 7816-3, clause 11.4). The buffer has room for one octet more than the longest block.
    /// The line drops what comes after that in the same block, since such octets aren't a block in any case. The error
    /// is a failure of the line itself, whether or not the block was sent.
    fn transceive(&mut self, block: &[u8], waiting: u8, room: &mut [u8]) -> io::Result<Received>
        requires { 259 ≤ length room.old }
        ensures fits { IfOk result (λ heard. FitsRoom heard room.new) }
        ensures said { Adds (said self.old) (said self.new)
            (record { sent = block.now; waiting = waiting; arrival = arrival_of result room.new }
            ∷ []) };
}
