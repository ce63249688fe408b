//! Random sessions: every record replays at both ends, and every answer is the reply.

ghost use Rattle.std.specs.Prelude.{◌<◌};

use crate::is_replayed_at;
use crate::pairs::is_asked;
use crate::records::{ended, happens, recorder};
use exchange_core::{Event, Exchange, LastTurn, Line, Recorder, Side};
use octet_core::Octets;
use rand_core::utils::NextWord;
use rand_pcg::Pcg32;
use std::alloc::Global;
use t1_core::TerminalTurn;
use test_support::{Case, Fault, Trial};

/// The answer to reset of a card that takes fields of 32 octets.
const ATR: [u8; 7] = [0x3B, 0x80, 0x81, 0x31, 0x20, 0x45, 0x55];

const SESSIONS: u32 = 1_000;

/// The most exchanges of a session.
const MOST_EXCHANGES: u32 = 6;

/// The most octets of a command or a reply.
const LONGEST_MESSAGE: u32 = 300;

/// The most events of a session.
const MOST_EVENTS: u32 = 100_000;

/// Records sessions in which one block in four is lost or changed.
pub(crate) fn draw_each(rt: &HostRuntime, trial: &mut Trial) -> Result<(), Fault> {
    let mut generator = Pcg32::new(1, 2);
    let (mut sessions, mut answers) = (0u64, 0u64);
    for number in 0..SESSIONS {
        if trial.share.has(number as usize) {
            draw(trial, &mut generator, number, &mut answers);
            sessions = sessions.saturating_add(1);
        }
    }
    let counts = [
        ("drawn: ", sessions),
        (" sessions replay at both ends, with ", answers),
    ];
    trial.report(rt, &counts, " answers, each the reply")
}

/// Records the session with this number, and counts its answers.
fn draw(trial: &mut Trial, generator: &mut Pcg32, number: u32, answers: &mut u64) {
    match record(trial.alloc, generator) {
        Ok(exchange) => expect(trial, &exchange, number, answers),
        Err(fault) => trial.stop(fault),
    }
}

/// Checks that a session replays and each answer is the reply, and counts its answers.
fn expect(trial: &mut Trial, exchange: &Exchange, number: u32, answers: &mut u64) {
    let case = Case {
        what: "a drawn session",
        octets: &ATR,
        place: number as usize,
        piece: 0,
    };
    trial.expect(case, is_replayed_at(trial.alloc, exchange, Side::Terminal));
    trial.expect(case, is_replayed_at(trial.alloc, exchange, Side::Card));
    let given = answers_of(exchange.lines().get());
    trial.expect(case, Ok(given.is_some()));
    *answers = answers.saturating_add(given.unwrap_or(0));
}

/// Draws a number below a bound.
pub(crate) fn below(generator: &mut Pcg32, bound: u32) -> u32
    requires { 0 < bound }
    ensures { result < bound }
{
    generator.next_word() % bound
}

/// Draws a size that isn't reserved.
fn size(generator: &mut Pcg32) -> u8 {
    1 + below(generator, 254) as u8
}

/// Draws a command or a reply.
fn message(alloc: Global, generator: &mut Pcg32) -> Result<Vec<u8>, Fault> {
    let mut octets = Vec::new(alloc);
    for _ in 0..below(generator, LONGEST_MESSAGE + 1) {
        octets.push(below(generator, 256) as u8)?;
    }
    Ok(octets)
}

/// Draws what happens to a block: one in four is disturbed.
fn fate(generator: &mut Pcg32) -> Event<'static> {
    match below(generator, 12) {
        0 => Event::Lose,
        1 => Event::Damage,
        2 => Event::Spoil,
        _ => Event::Deliver,
    }
}

/// Makes a call of the card's host.
fn host_calls(alloc: Global, generator: &mut Pcg32, recorder: &mut Recorder) -> Result<(), Fault> {
    let reply = message(alloc, generator)?;
    let event = match below(generator, 8) {
        0 => Event::MoreTime(size(generator)),
        1 => Event::AskIfsc(size(generator)),
        _ => Event::Reply(reply.as_slice()),
    };
    happens(recorder, event)
}

/// Makes a call of the application.
fn application_calls(
    alloc: Global,
    generator: &mut Pcg32,
    recorder: &mut Recorder,
) -> Result<(), Fault> {
    let command = message(alloc, generator)?;
    let event = match below(generator, 4) {
        0 => Event::AskIfsd(size(generator)),
        _ => Event::Transmit(command.as_slice()),
    };
    happens(recorder, event)
}

/// Returns the record of a session.
fn record(alloc: Global, generator: &mut Pcg32) -> Result<Exchange, Fault> {
    let mut recorder = recorder(alloc, &ATR)?;
    let told = go_through(alloc, generator, &mut recorder);
    ended(recorder, told)
}

/// Whether the terminal found the card dead.
fn is_dead(recorder: &Recorder) -> bool {
    matches!(recorder.last(), LastTurn::Terminal(TerminalTurn::Dead))
}

/// Runs a session.
fn go_through(alloc: Global, generator: &mut Pcg32, recorder: &mut Recorder) -> Result<(), Fault> {
    let mut exchanges = 1 + below(generator, MOST_EXCHANGES);
    for _ in 0..MOST_EVENTS {
        if recorder.under_way().is_some() {
            let event = fate(generator);
            happens(recorder, event)?;
        } else if is_asked(recorder) {
            host_calls(alloc, generator, recorder)?;
        } else if exchanges == 0 || is_dead(recorder) {
            break;
        } else {
            application_calls(alloc, generator, recorder)?;
            exchanges -= 1;
        }
    }
    Ok(())
}

/// Returns how many answers there are, or `None` if one isn't the last reply to the last command.
fn answers_of(lines: &[Line]) -> Option<u64> {
    let mut count = 0u64;
    let mut command: Option<&Octets> = None;
    let mut asked = None;
    let mut reply = None;
    for line in lines {
        match line {
            Line::Command(octets) => command = Some(octets),
            Line::Asked(octets) => asked = Some(octets),
            Line::Reply(octets) => reply = Some(octets),
            Line::Answer(octets) => {
                if reply != Some(octets) || asked != command {
                    return None;
                }
                count = count.checked_add(1)?;
            }
            _ => {}
        }
    }
    Some(count)
}
