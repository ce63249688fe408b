//! Hostile use of chains and sessions.
//!
//! It reads and writes chains over streams that fail. It makes calls and events that are refused, delivers damaged
//! blocks in each state of both ends, and loses or changes blocks one after another. It also runs random sessions and
//! exchanges over a line that harms bursts, and reads files of sessions that were changed.
//!
//! It writes a line for each list of cases, with how many there were. The first case that goes wrong is printed, and
//! the program ends with status 1. With the word `few` it tries only some cases of the long lists.
#![tactic(auto)]

mod application;
mod chains;
mod deliveries;
mod drawn;
mod ends;
mod files;
mod outcomes;
mod pairs;
mod queue;
mod records;
mod refusals;
mod sessions;
mod states;
mod timed;
mod turns;
mod usable;

use exchange_core::{Exchange, ExchangeFault, ReplayFault, Side, read_exchange, replay};
use std::alloc::Global;
use std::io;
use std::process::ExitCode;
use test_support::{Fault, Trial, asked, same};

fn main(rt: HostRuntime) -> io::Result<ExitCode> {
    let mut trial = Trial::new(rt.alloc());
    match tell_each(&rt, &mut trial) {
        Ok(()) => Ok(ExitCode::SUCCESS),
        Err(fault) => {
            trial.print(&rt, fault)?;
            Ok(ExitCode::from(1))
        }
    }
}

/// Returns the exchange of a text in this program.
pub(crate) fn as_exchange(alloc: Global, text: &[u8]) -> Result<Exchange, Fault> {
    match read_exchange(alloc, text) {
        Ok(exchange) => Ok(exchange),
        Err(ExchangeFault::Memory) => Err(Fault::Memory),
        Err(_) => Err(Fault::Stream),
    }
}

/// Whether an exchange replays at an end.
pub(crate) fn is_replayed_at(
    alloc: Global,
    exchange: &Exchange,
    side: Side,
) -> Result<bool, Fault> {
    match replay(alloc, exchange, side) {
        Ok(()) => Ok(true),
        Err(ReplayFault::Memory) => Err(Fault::Memory),
        Err(_) => Ok(false),
    }
}

/// Whether two replays of an exchange at an end have the same outcome: it agrees, or which line differs, and what the
/// end gives there.
pub(crate) fn replays_alike(alloc: Global, exchange: &Exchange, side: Side) -> bool {
    same(replay(alloc, exchange, side), replay(alloc, exchange, side))
}

/// Prints the line of each list.
fn tell_each(rt: &HostRuntime, trial: &mut Trial) -> Result<(), Fault> {
    trial.share = asked(rt)?;
    let files = sessions::files(rt)?;
    let sessions = sessions::sessions(trial.alloc, files.as_slice())?;
    tell_of(rt, trial, files.as_slice(), sessions.as_slice())
}

/// Prints the line of each list, with these files.
fn tell_of(
    rt: &HostRuntime,
    trial: &mut Trial,
    files: &[Vec<u8>],
    sessions: &[Exchange],
) -> Result<(), Fault> {
    let long = vec![in trial.alloc; 0xA5u8; 65_545]?;
    tell_short(rt, trial, sessions, long.as_slice())?;
    deliveries::deliver_each(rt, trial)?;
    tell_long(rt, trial, files)
}

/// Prints the lines of chains and of what is refused. `long` has more octets than a message may have.
fn tell_short(
    rt: &HostRuntime,
    trial: &mut Trial,
    sessions: &[Exchange],
    long: &[u8],
) -> Result<(), Fault> {
    chains::fail_each(rt, trial)?;
    refusals::refuse_each(rt, trial, sessions, long)?;
    records::refuse_each(rt, trial, long)
}

/// Prints the lines of whole sessions and of files.
fn tell_long(rt: &HostRuntime, trial: &mut Trial, files: &[Vec<u8>]) -> Result<(), Fault> {
    pairs::disturb_each(rt, trial)?;
    drawn::draw_each(rt, trial)?;
    timed::harm_each(rt, trial)?;
    files::spoil_each(rt, trial, files)
}
