//! Reading octets and writing texts in turn.

ghost use Rattle.std.specs.Prelude.{◌<◌, List, [], ◌∷◌, length, IfErr};
ghost use Rattle.std.specs.Io.{ReadsAtMost};
ghost use Rattle.program.specs.Conversations.{AreSame, Event, Happens, HaveMoved, hearing, telling, wire_of};

use octet_core::{Sink, Source, WriteFault, write_octets};
use std::io;

/// A peer that sends octets and reads texts, such as a user at a terminal, or a program at the other ends of two pipes.
///
/// A contract can name the events since an earlier state of the conversation, in order. So a function that is proved
/// for every conversation also shows which texts it writes before it reads more. An implementation about which nothing
/// is known sets `said` to what always holds, `λ _ _ _. Unit {0}`.
pub trait Conversation {
    /// Whether these may be the events since the conversation was in the second state.
    ghost said: { Self → Self → List Event → Type 0 };

    /// Waits for octets, and copies some to the front of the buffer, which has room for at least one. Returns how many,
    /// 0 at the end of the input.
    fn hear(&mut self, room: &mut [u8]) -> io::Result<usize>
        requires { 0 < length room.old }
        ensures bound { ReadsAtMost result room.new }
        ensures said { Happens (said self.old) (said self.new) (hearing result room.new ∷ []) };

    /// Writes a whole text. If that fails, the first octets of the text may be written.
    fn tell(&mut self, text: &[u8]) -> Result<(), WriteFault>
        ensures fewer { IfErr result (λ fault. fault.written < length text.now) }
        ensures said { Happens (said self.old) (said self.new) (telling text.now result ∷ []) };
}

/// The conversation of a reader and a writer. Each call of `hear` is one call of the reader. Each text is written
/// before the call returns.
#[derive(Drop)]
pub struct Streams<'a, R, W> {
    pub reader: &'a mut R,
    pub writer: &'a mut W,
}

impl<R: Source, W: Sink> Conversation for Streams<'_, R, W> {
    ghost said = { λ streams first events. AreSame first streams
        × HaveMoved (wire_of R.remaining R.failures W.contents W.failures first) events
        (wire_of R.remaining R.failures W.contents W.failures streams) };

    fn hear(&mut self, room: &mut [u8]) -> io::Result<usize> {
        self.reader.read(room)
    }

    fn tell(&mut self, text: &[u8]) -> Result<(), WriteFault> {
        write_octets(self.writer, text)
    }
}
