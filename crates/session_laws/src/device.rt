//! What a loop does with a device: each action becomes one call of it.

ghost use Rattle.std.specs.Prelude.{◌≡◌, ◌≤◌, [], ◌∷◌, length, take, true};
ghost use Rattle.line_core.specs.Timed.{Sound, Sounds};
ghost use Rattle.session_laws.specs.Ending.{goes, events_in};
ghost use Rattle.session_laws.specs.Running.{IsAsked, event_of, octets_of};

use line_core::TimedDevice;
use session_core::Action;

/// The numbers of what happened on the line, for a step of a session.
const SENT: u8 = 0;

const CAME: u8 = 1;

pub(crate) const SILENT: u8 = 3;

const FAILED: u8 = 4;

/// The longest block has 258 octets (ISO/IEC 7816-3, clause 11.3).
pub(crate) const LONGEST_BLOCK: usize = 258;

/// Does what an action says. Returns the number of the event that follows, and how many octets are at the front of
/// `room`.
pub(crate) fn done<D: TimedDevice>(
    action: &Action,
    device: &mut D,
    out: &[u8; LONGEST_BLOCK],
    room: &mut [u8],
) -> (u8, usize)
    requires room { 1 ≤ length room.old }
    requires goes { goes action.now ≡ true }
    ensures fits { result.1 ≤ length room.new }
    ensures some { events_in result.0 result.1 }
    ensures called { (sound : Sound) × Sounds (D.heard device.old) (D.heard device.new) (sound ∷ [])
        × IsAsked action.now out.now sound × (result.0 ≡ event_of sound)
        × (take result.1 room.new ≡ octets_of sound) }
{
    match action {
        Action::Send(count) => match device.send(&out[..(*count).min(out.len())]) {
            Ok(()) => (SENT, 0),
            Err(_) => (FAILED, 0),
        },
        Action::Wait(time) => match device.receive(room, *time) {
            Ok(0) => (SILENT, 0),
            Ok(count) => (CAME, count),
            Err(_) => (FAILED, 0),
        },
        _ => (FAILED, 0),
    }
}
