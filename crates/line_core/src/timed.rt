//! A device that receives under a time limit, like the driver of a serial port.

ghost use Rattle.std.specs.Prelude.{◌≤◌, List, ◌∷◌, [], length, IfOk};
ghost use Rattle.line_core.specs.Timed.{Sound, Sounds, sound_of, saying};

use std::io;

/// A device that sends octets to the other end, and receives octets under a time limit.
///
/// Contracts see the sounds of the device since an earlier state of it. A device about which nothing is known has a
/// `heard` that always holds: `λ _ _ _. Unit {0}`.
pub trait TimedDevice {
    /// Whether these may be the sounds since an earlier state, the second argument.
    ghost heard: { Self → Self → List Sound → Type 0 };

    /// Sends all of these octets.
    fn send(&mut self, octets: &[u8]) -> io::Result<()>
        ensures { Sounds (heard self.old) (heard self.new) (saying octets.now result ∷ []) };

    /// Receives octets to the front of the buffer, as soon as there are any, and returns how many. The result is 0 if
    /// none came within `microseconds`, counted from the last octet that was sent or received. The device may wait
    /// longer than that, but never less. With 0 it returns what is there. With `u64::MAX` it waits without a limit, and
    /// 0 says that no more comes, for example because the card's power is off.
    fn receive(&mut self, room: &mut [u8], microseconds: u64) -> io::Result<usize>
        requires { 1 ≤ length room.old }
        ensures fits { IfOk result (λ count. count ≤ length room.new) }
        ensures heard { Sounds (heard self.old) (heard self.new)
            (sound_of microseconds result room.new ∷ []) };
}
