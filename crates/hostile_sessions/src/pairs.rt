//! A chain in each direction, with each block, and each two blocks, lost or changed.

use crate::is_replayed_at;
use crate::records::{ended, happens, recorder};
use exchange_core::{Event, Exchange, LastTurn, Line, Recorder, Side};
use std::alloc::Global;
use t1_core::CardTurn;
use test_support::{Case, Fault, Trial};

/// The answer to reset of a card that takes fields of 2 octets. The terminal takes such fields too.
const ATR: [u8; 7] = [0x3B, 0x80, 0x81, 0x31, 0x02, 0x45, 0x77];

/// A command of eight blocks.
const COMMAND: [u8; 16] = [
    0x00, 0xD6, 0x00, 0x00, 0x0B, 0x01, 0x02, 0x03, 0x04, 0x05, 0x06, 0x07, 0x08, 0x09, 0x0A, 0x0B,
];

/// An answer of eight blocks.
const ANSWER: [u8; 16] = [
    0x11, 0x12, 0x13, 0x14, 0x15, 0x16, 0x17, 0x18, 0x19, 0x1A, 0x1B, 0x1C, 0x1D, 0x1E, 0x90, 0x00,
];

/// How many blocks a session has: a question about the size with its answer, and both chains. Each block of a chain
/// except the last has an acknowledgment.
const BLOCKS: u32 = 32;

/// The most events of a session.
const MOST_EVENTS: u32 = 1_000;

/// Each way to disturb a block.
static WAYS: [Event<'static>; 3] = [Event::Lose, Event::Damage, Event::Spoil];

/// The block of a session with this number, from 1, and what happens to it.
#[derive(Clone, Copy)]
struct Disturbance {
    number: u32,
    event: Event<'static>,
}

/// How many sessions there were, and how many of them got the answer.
#[derive(Clone, Copy, Default)]
struct Disturbed {
    sessions: u64,
    answered: u64,
}

/// How far a session is: how many blocks were sent, and how many calls were made.
#[derive(Clone, Copy, Default)]
struct Progress {
    blocks: u32,
    calls: usize,
}

/// Disturbs each block in each way, and with it each later block in each way.
///
/// A session with one disturbed block is answered. A session with two is answered or given up.
pub(crate) fn disturb_each(rt: &HostRuntime, trial: &mut Trial) -> Result<(), Fault> {
    let mut disturbed = Disturbed::default();
    for number in 1..BLOCKS + 1 {
        if trial.share.has(BLOCKS.saturating_sub(number) as usize) {
            disturb_at(trial, number, &mut disturbed);
        }
    }
    let counts = [
        ("disturbed: ", disturbed.sessions),
        (" sessions of ", u64::from(BLOCKS)),
        (" blocks replay at both ends, ", disturbed.answered),
    ];
    trial.report(rt, &counts, " of them answered")
}

/// Disturbs the block with a number in each way.
fn disturb_at(trial: &mut Trial, number: u32, disturbed: &mut Disturbed) {
    for &event in &WAYS {
        let first = Disturbance { number, event };
        let blocks = disturb_first(trial, first, disturbed);
        disturb_later(trial, first, blocks, disturbed);
    }
}

/// Disturbs one block, and returns how many blocks the session has.
fn disturb_first(trial: &mut Trial, first: Disturbance, disturbed: &mut Disturbed) -> u32 {
    match record(trial.alloc, first, first) {
        Ok(exchange) => {
            let is_answered = is_answered(&exchange);
            expect(trial, &exchange, case_of(first, 0), is_answered);
            disturbed.count(true);
            blocks(&exchange)
        }
        Err(fault) => {
            trial.stop(fault);
            0
        }
    }
}

/// Disturbs one block, and also each of the `blocks` blocks after it in each way.
fn disturb_later(trial: &mut Trial, first: Disturbance, blocks: u32, disturbed: &mut Disturbed) {
    for number in first.number.saturating_add(1)..blocks.saturating_add(1) {
        for &event in &WAYS {
            disturb_both(trial, first, Disturbance { number, event }, disturbed);
        }
    }
}

/// Disturbs two blocks.
fn disturb_both(
    trial: &mut Trial,
    first: Disturbance,
    second: Disturbance,
    disturbed: &mut Disturbed,
) {
    match record(trial.alloc, first, second) {
        Ok(exchange) => {
            let is_answered = is_answered(&exchange);
            let is_right = is_answered || is_given_up(&exchange);
            expect(trial, &exchange, case_of(first, second.number), is_right);
            disturbed.count(is_answered);
        }
        Err(fault) => trial.stop(fault),
    }
}

/// Returns the case of a session with these blocks disturbed.
fn case_of(first: Disturbance, second: u32) -> Case<'static> {
    Case {
        what: "a session with disturbed blocks",
        octets: &ATR,
        place: first.number as usize,
        piece: second as usize,
    }
}

/// Checks that a session ended as it should, and replays.
fn expect(trial: &mut Trial, exchange: &Exchange, case: Case<'_>, is_right: bool) {
    trial.expect(case, Ok(is_right));
    trial.expect(case, is_replayed_at(trial.alloc, exchange, Side::Terminal));
    trial.expect(case, is_replayed_at(trial.alloc, exchange, Side::Card));
}

impl Disturbed {
    /// Counts one more session.
    fn count(&mut self, is_answered: bool) {
        self.sessions = self.sessions.saturating_add(1);
        self.answered = self.answered.saturating_add(u64::from(is_answered));
    }
}

/// Returns the record of the session with these blocks disturbed.
fn record(alloc: Global, first: Disturbance, second: Disturbance) -> Result<Exchange, Fault> {
    let mut recorder = recorder(alloc, &ATR)?;
    let told = go_through(&mut recorder, first, second);
    ended(recorder, told)
}

/// Runs the session with these blocks disturbed.
fn go_through(
    recorder: &mut Recorder,
    first: Disturbance,
    second: Disturbance,
) -> Result<(), Fault> {
    let mut progress = Progress::default();
    for _ in 0..MOST_EVENTS {
        match next(recorder, first, second, &mut progress) {
            Some(event) => happens(recorder, event)?,
            None => return Ok(()),
        }
    }
    Ok(())
}

/// Returns the next event of the session, or `None` at its end.
fn next(
    recorder: &Recorder,
    first: Disturbance,
    second: Disturbance,
    progress: &mut Progress,
) -> Option<Event<'static>> {
    if recorder.under_way().is_some() {
        progress.blocks = progress.blocks.saturating_add(1);
        return Some(fate(first, second, progress.blocks));
    }
    if is_asked(recorder) {
        return Some(Event::Reply(&ANSWER));
    }
    progress.calls = progress.calls.saturating_add(1);
    match progress.calls {
        1 => Some(Event::AskIfsd(2)),
        2 => Some(Event::Transmit(&COMMAND)),
        _ => None,
    }
}

/// Whether it is the turn of the card's host.
pub(crate) fn is_asked(recorder: &Recorder) -> bool {
    matches!(recorder.last(), LastTurn::Card(CardTurn::Asked))
}

/// Returns what happens to the block with this number.
fn fate(first: Disturbance, second: Disturbance, number: u32) -> Event<'static> {
    if first.number == number {
        first.event
    } else if second.number == number {
        second.event
    } else {
        Event::Deliver
    }
}

/// Returns how many blocks were sent.
fn blocks(exchange: &Exchange) -> u32 {
    let mut count = 0u32;
    for line in exchange.lines().get() {
        if matches!(line, Line::FromTerminal { .. } | Line::FromCard { .. }) {
            count = count.saturating_add(1);
        }
    }
    count
}

/// Whether a session ends with the answer, and the host got one command.
fn is_answered(exchange: &Exchange) -> bool {
    let lines = exchange.lines().get();
    let is_last = match lines.last() {
        Some(Line::Answer(octets)) => octets.get() == ANSWER.as_slice(),
        _ => false,
    };
    is_last && asked(lines) == 1
}

/// Whether a session ends with the command given up, as after a block and its repeat were lost.
fn is_given_up(exchange: &Exchange) -> bool {
    matches!(exchange.lines().get().last(), Some(Line::GivenUp))
}

/// Returns how often the host got a command by an I-block.
fn asked(lines: &[Line]) -> u32 {
    let mut count = 0u32;
    let mut is_info = false;
    for line in lines {
        if is_info && matches!(line, Line::Asked(_)) {
            count = count.saturating_add(1);
        }
        is_info = match line {
            Line::FromTerminal { sent, .. } => sent.get().get(1).is_some_and(|pcb| *pcb < 0x80),
            _ => false,
        };
    }
    count
}
