//! The loop of a card.

ghost use Rattle.std.specs.Prelude.{◌≡◌, ◌≤◌, ℕ, List, [], ◌∷◌, length, true, IfOk, IfErr, Some};
ghost use Rattle.t1_core.specs.CardViews.{card_held, IsLentCard, owed};
ghost use Rattle.line_core.specs.Service.{Event, Happens};
ghost use Rattle.line_core.specs.Bursts.{HasHeard};
ghost use Rattle.session_core.specs.declared.lines.Start.TheVariants.{Exchange};
ghost use Rattle.session_core.specs.declared.action.Action.TheVariants.{Wait};
ghost use Rattle.session_core.specs.Wire.{seen, forever};
ghost use Rattle.session_core.specs.Cards.{TurnsTo};
ghost use Rattle.session_laws.specs.declared.host.HostTurn.{HostTurn};
ghost use Rattle.session_laws.specs.Ending.{HasBurst};
ghost use Rattle.session_laws.specs.Hosts.{input_by, event_at, is_first};
ghost use Rattle.session_laws.specs.Serving.{placed, lives, for_host, Ran, IsOver, IsServed, Stopped};

use crate::device::{LONGEST_BLOCK, SILENT, done};
use crate::host::{AskingHost, HostTurn};
use line_core::TimedDevice;
use session_core::{Action, CardSession};
use t1_core::CardFault;

/// Whether the session goes on after this action.
fn lives(action: &Action) -> bool
    ensures { result ≡ lives action.now }
{
    matches!(action, Action::Send(_) | Action::Wait(_) | Action::Asked(_))
}

/// Whether a wait without a limit is over, so no more comes.
fn is_over(action: &Action, event: u8) -> bool
    ensures { result ≡ true → (action.now ≡ Wait forever) × (event ≡ 3) }
{
    match action {
        Action::Wait(time) => *time == u64::MAX && event == SILENT,
        _ => false,
    }
}

/// Serves what comes over a device to a card: does what each action says, and passes the result to the session. The host
/// acts on each command once. It replies, or first asks the terminal for time or a size, and goes on once the terminal
/// granted it. It gets a message of fewer than four octets only if `takes_short` of the session is set. Otherwise the
/// session replies 6700 to such a message.
///
/// This returns after `most` turns, each a call of the device or a turn of the host. It returns earlier only if the last
/// action ends the session, as after a failure of the line, or if nothing came in a wait without a limit. What comes is
/// put into `room` first.
///
/// The call is refused if the card refuses what came, or the call of its host: as `TooLong` a reply of more octets than
/// the card has room for, and as `Reserved` the sizes 0 and 255.
pub fn serve_events<D: TimedDevice, H: AskingHost>(
    session: &mut CardSession,
    command: &mut [u8],
    reply: &mut [u8],
    device: &mut D,
    host: &mut H,
    room: &mut [u8],
    most: usize,
) -> Result<Action, CardFault>
    requires fit { IsLentCard session.old.card (length command.old) (length reply.old) }
    requires burst { HasBurst session.old.line }
    requires room { 1 ≤ length room.old }
    ensures fit { IsLentCard session.new.card (length command.new) (length reply.new) }
    ensures again { IfOk result (λ _. HasBurst session.new.line) }
    ensures short { session.new.takes_short ≡ session.old.takes_short }
    ensures run { IfOk result (λ action. (out : List ℕ) × (events : List Event)
        × (ran : Ran session.old.takes_short (D.heard device.old) (D.heard device.new) (H.served host.old)
        (H.served host.new) (card_held session.old.card command.old reply.old) session.old.line events
        (placed (card_held session.new.card command.new reply.new) session.new.line session.new.granted session.new.own
        out action))
        × IsOver most ran.sounds ran.acts action
        × (ran.acts ≡ for_host session.old.takes_short events)
        × IsServed session.old.takes_short (card_held session.old.card command.old reply.old) events
        (placed (card_held session.new.card command.new reply.new) session.new.line session.new.granted session.new.own
        out action)) }
    ensures refused { IfErr result (λ fault.
        Stopped session.old.takes_short (D.heard device.old) (D.heard device.new) (H.served host.old)
        (H.served host.new) (card_held session.old.card command.old reply.old) session.old.line most fault) }
{
    let mut out = [0; LONGEST_BLOCK];
    let mut left = most;
    let mut action = session.serve(0);
    while left > 0 && lives(&action) {
        left -= 1;
        if let Action::Asked(_) = action {
            action = host_turn(session, command, reply, host, &mut out)?;
        } else {
            let (event, count) = done(&action, device, &out, room);
            let is_last = is_over(&action, event);
            action = session.step(command, reply, event, &room[..count], 0, &mut out)?;
            if is_last {
                return Ok(action);
            }
        }
    }
    Ok(action)
}

/// Lets the host take its turn, and makes its call of the card.
fn host_turn<H: AskingHost>(
    session: &mut CardSession,
    command: &[u8],
    reply: &mut [u8],
    host: &mut H,
    out: &mut [u8],
) -> Result<Action, CardFault>
    requires room { 258 ≤ length out.old }
    requires fit { IsLentCard session.old.card (length command.now) (length reply.old) }
    requires owes { owed (card_held session.old.card command.now reply.old)
        (card_held session.old.card command.now reply.old).waits
        ≡ Some (card_held session.old.card command.now reply.old).command }
    ensures fit { IsLentCard session.new.card (length command.now) (length reply.new) }
    ensures host { (session.new.granted ≡ session.old.granted)
        × (session.new.takes_short ≡ session.old.takes_short) }
    ensures called { (answer : List ℕ) × (turn : HostTurn)
        × Happens (H.served host.old) (H.served host.new)
        (event_at (is_first session.old.granted)
        (card_held session.old.card command.now reply.old).command answer turn ∷ [])
        × ((burst : List ℕ) → HasHeard session.old.line.framer burst
        → TurnsTo (card_held session.old.card command.now reply.old) (input_by answer turn) Exchange
        session.old.line.rules (seen session.old.line.progress) burst 0
        (card_held session.new.card command.now reply.new) session.new.line session.old.own session.new.own out.old
        out.new result) }
{
    let octets = session.card.command(command).unwrap_or(&[]);
    match turn_of(host, octets, session.granted == 0) {
        HostTurn::Reply => session.reply(command, reply, host.reply(), 0, out),
        HostTurn::MoreTime(multiple) => session.more_time(command, reply, multiple, 0, out),
        HostTurn::AskIfs(size) => session.ask_ifs(command, reply, size, 0, out),
    }
}

/// Lets the host act on a command that is new to it, or go on with one. Returns what it does.
fn turn_of<H: AskingHost>(host: &mut H, command: &[u8], is_new: bool) -> HostTurn
    ensures { Happens (H.served host.old) (H.served host.new)
        (event_at is_new command.now (H.reply host.new) result ∷ []) }
{
    if is_new {
        host.act(command)
    } else {
        host.go_on(command)
    }
}
