//! The exchange of a session.

ghost use Rattle.std.specs.Prelude.{◌≡◌, ◌≢◌, ◌<◌, ◌+◌, ◌^◌, Some, None, IfOk, IfErr, OnOk};
ghost use Rattle.std.specs.Option.{option_map};
ghost use Rattle.exchange_core.specs.Recording.{event_of};
ghost use Rattle.exchange_core.specs.Replay.{Replays};
ghost use Rattle.exchange_core.specs.Told.{AnswersAreReplies};
ghost use Rattle.exchange_core.specs.declared.event.EventFault.{EventFault};
ghost use Rattle.block_core.specs.declared.side.Side.TheVariants as side;
ghost use Rattle.program_words.specs.declared.session.Session.{Session};
ghost use Rattle.simulator.specs.declared.fault.SimulationFault.{SimulationFault};
ghost use Rattle.simulator.specs.Simulation.{begins, most_events, next, sends, simulated, start, AreFates, IfTooLarge, IsSimulated, WhereTooLarge};

use crate::fates::Fates;
use crate::fault::SimulationFault;
use exchange_core::{Event, EventFault, Exchange, LastTurn, Recorder};
use program_words::{Pair, Session};
use std::alloc::Global;
use std::marker::Model;
use t1_core::{CardTurn, TerminalTurn};

/// Returns the exchange of a session, in version 1.
///
/// If the session has a size, the terminal asks for that first. Then it sends the commands one after another, even
/// after it gave one up. The card's host replies to each command with the reply of its pair. A block that a list names
/// by its number, from 1, is lost, damaged or spoiled. If several lists name it, the first of these counts.
///
/// The session ends if no command is left, or if the terminal finds the card dead. It also ends before an event that an
/// end refuses, such as a command that is too long.
///
/// `Refused` if the answer to reset can't be used, `Memory` if memory runs out. `TooLarge` if `largest` events happened
/// and the session hasn't ended. Its text has more octets than `largest` then, and `largest` is below `most_events`,
/// within which each session ends.
///
/// The exchange replays at both ends, and each `answer` line has the octets of the `reply` line to the same command.
pub fn simulate(
    alloc: Global,
    session: &Session,
    largest: usize,
) -> Result<Exchange, SimulationFault>
    ensures simulated { IsSimulated largest session.now result }
    ensures terminal { IfOk result (λ e. Replays e.atr e.lines side.Terminal None) }
    ensures card { IfOk result (λ e. Replays e.atr e.lines side.Card None) }
    ensures replies { IfOk result (λ e. AnswersAreReplies e.lines) }
    ensures enough { IfErr result (λ fault.
        WhereTooLarge fault (largest < most_events session.now)) }
{
    let mut recorder = Recorder::new(alloc, session.atr.get())?;
    let fates = Fates::of(alloc, session)?;
    run(&mut recorder, session, &fates, largest)?;
    Ok(recorder.exchange()?)
}

/// How far a session has come.
#[derive(Drop)]
struct Place<'a> {
    /// The pairs that haven't begun yet.
    left: &'a [Pair],
    /// The reply of the pair that began last.
    reply: &'a [u8],
    /// How many blocks were sent.
    sent: usize,
}

impl<'a> Model for Place<'a> {
    ghost use Rattle.simulator.specs.Simulation.{Place};

    ghost Value = { Place };

    ghost view = { λ p. record { left = p.left.now; reply = p.reply.now; sent = p.sent } };
}

/// Runs the session from its start to its end.
fn run(
    recorder: &mut Recorder,
    session: &Session,
    fates: &Fates,
    most: usize,
) -> Result<(), SimulationFault>
    requires { AreFates fates.now session.now }
    ensures ended { OnOk result
        (simulated most session.now (start session.now) recorder.old ≡ Some recorder.new) }
    ensures fault { IfErr result (λ fault. IfTooLarge fault
        (simulated most session.now (start session.now) recorder.old ≡ None)) }
{
    let mut at = Place {
        left: session.pairs.get(),
        reply: &[],
        sent: 0,
    };
    'events: for done in 0..most {
        let Some(event) = next(session, fates, recorder.last(), &mut at) else {
            return Ok(());
        };
        match recorder.happens(event) {
            Ok(()) => {}
            Err(fault) => return refused(fault),
        }
    }
    Err(SimulationFault::TooLarge)
}

/// Takes the refusal of an event: the session ends, unless memory ran out.
fn refused(fault: EventFault) -> Result<(), SimulationFault>
    ensures other { OnOk result (fault ≢ EventFault.Memory) }
    ensures memory { IfErr result (λ why. why ≡ SimulationFault.Memory) }
    ensures cause { IfErr result (λ _. fault ≡ EventFault.Memory) }
{
    match fault {
        EventFault::Memory => Err(SimulationFault::Memory),
        _ => Ok(()),
    }
}

/// Returns the next event, or `None` if the session ends.
fn next<'a>(
    session: &'a Session,
    fates: &Fates,
    last: &LastTurn,
    at: &mut Place<'a>,
) -> Option<Event<'a>>
    requires room { at.old.sent + 1 < 2 ^ 64 }
    requires fates { AreFates fates.now session.now }
    ensures { next session.now at.old last.now
        ≡ option_map (λ event. (event_of event, at.new)) result }
{
    match last {
        LastTurn::Nothing => match session.ifsd {
            Some(size) => Some(Event::AskIfsd(size.get())),
            None => begins(at),
        },
        LastTurn::Terminal(TerminalTurn::Send(_)) => Some(sends(fates, at)),
        LastTurn::Terminal(TerminalTurn::Dead) => None,
        LastTurn::Terminal(_) => begins(at),
        LastTurn::Card(CardTurn::Send(_)) => Some(sends(fates, at)),
        LastTurn::Card(CardTurn::Asked) => Some(Event::Reply(at.reply)),
    }
}

/// Returns the next command, if a pair is left.
fn begins<'a>(at: &mut Place<'a>) -> Option<Event<'a>>
    ensures { begins at.old at.old.left ≡ option_map (λ event. (event_of event, at.new)) result }
{
    let (pair, left) = at.left.split_first()?;
    at.left = left;
    at.reply = pair.reply.get();
    Some(Event::Transmit(pair.command.get()))
}

/// Returns the event of the next block.
fn sends(fates: &Fates, at: &mut Place<'_>) -> Event<'static>
    requires { at.old.sent + 1 < 2 ^ 64 }
    ensures { (s : Session) → AreFates fates.now s
        → sends s at.old ≡ Some (event_of result, at.new) }
{
    at.sent += 1;
    fates.of_block(at.sent as u64)
}
