//! An exchange between both ends, recorded, written, read and replayed.

use crate::Outcome;
use exchange_core::{
    Event, EventFault, Exchange, ExchangeFault, Recorder, RecorderFault, ReplayFault, Side,
    migrate, read_exchange, replay, write_exchange,
};
use std::alloc::{AllocError, Global};

/// The answer to reset of a card that takes information fields of 32 octets.
const ATR: [u8; 7] = [0x3B, 0x80, 0x81, 0x31, 0x20, 0x45, 0x55];

const SELECT: [u8; 5] = [0x00, 0xA4, 0x04, 0x00, 0x00];

const DONE: [u8; 2] = [0x90, 0x00];

/// One event of each kind. The last block is still on the line.
const EVENTS: [Event<'static>; 17] = [
    Event::AskIfsd(254),
    Event::Deliver,
    Event::Deliver,
    Event::Transmit(&SELECT),
    Event::Damage,
    Event::Deliver,
    Event::Spoil,
    Event::Deliver,
    Event::Deliver,
    Event::MoreTime(1),
    Event::Deliver,
    Event::Deliver,
    Event::AskIfsc(16),
    Event::Deliver,
    Event::Deliver,
    Event::Reply(&DONE),
    Event::Lose,
];

/// The first line of version 1.
const FIRST: &str = "scard-exchange 1";

/// The text of the record of these events.
const TEXT: &str = "scard-exchange 1
atr 3B808131204555
ifsd FE
t 00C101FE3E
c 00E101FE1E
ifs-set
command 00A4040000
t 00000500A4040000A5 as 00000500A4040000A4
c 00810081
t 00000500A4040000A5 as 01000500A4040000A4
c 00820082
t 00000500A4040000A5
asked 00A4040000
time 01
c 00C30101C3
t 00E30101E3
asked 00A4040000
ifsc 10
c 00C10110D0
t 00E10110F0
asked 00A4040000
reply 9000
c 000002900092 lost
quiet
t 00800080 lost
";

/// Writes the record of the events.
pub(crate) fn recorded(alloc: Global) -> Outcome {
    match Recorder::new(alloc, &ATR) {
        Ok(recorder) => recorded_by(alloc, recorder),
        Err(RecorderFault::Memory) => Err(AllocError),
        Err(RecorderFault::Refused(_)) => Ok(false),
    }
}

/// Writes what a recorder records of the events.
fn recorded_by(alloc: Global, recorder: Recorder) -> Outcome {
    let mut recorder = recorder;
    let are_told = are_told(&mut recorder);
    let is_written = is_written(alloc, &recorder.exchange()?)?;
    Ok(are_told && is_written)
}

/// Whether all events happen.
fn are_told(recorder: &mut Recorder) -> bool {
    for event in &EVENTS {
        if record_event(recorder, *event).is_err() {
            return false;
        }
    }
    true
}

/// Makes an event happen. If memory for its lines was refused, it happens at a second try.
fn record_event(recorder: &mut Recorder, event: Event<'static>) -> Result<(), EventFault> {
    match recorder.happens(event) {
        Err(EventFault::Memory) => recorder.happens(event),
        recorded => recorded,
    }
}

/// Whether an exchange is written as the text.
fn is_written(alloc: Global, exchange: &Exchange) -> Outcome {
    Ok(write_exchange(alloc, exchange)?.as_slice() == TEXT.as_bytes())
}

/// Reads the text, replays it at both ends, and migrates it.
pub(crate) fn replayed(alloc: Global) -> Outcome {
    match read_exchange(alloc, TEXT.as_bytes()) {
        Ok(exchange) => {
            let is_replayed = is_replayed(alloc, &exchange);
            both(is_replayed, is_migrated(alloc, exchange))
        }
        Err(ExchangeFault::Memory) => Err(AllocError),
        Err(_) => Ok(false),
    }
}

/// Replays an exchange at both ends.
fn is_replayed(alloc: Global, exchange: &Exchange) -> Outcome {
    let at_terminal = replays(alloc, exchange, Side::Terminal);
    both(at_terminal, replays(alloc, exchange, Side::Card))
}

/// Returns the outcome of two calls.
fn both(first: Outcome, second: Outcome) -> Outcome {
    Ok(first? & second?)
}

/// Replays an exchange at an end.
fn replays(alloc: Global, exchange: &Exchange, side: Side) -> Outcome {
    match replay(alloc, exchange, side) {
        Ok(()) => Ok(true),
        Err(ReplayFault::Memory) => Err(AllocError),
        Err(ReplayFault::Differs { .. }) => Ok(false),
    }
}

/// Whether the exchange is written in version 2 with the same lines after the first.
fn is_migrated(alloc: Global, exchange: Exchange) -> Outcome {
    let text = write_exchange(alloc, &migrate(exchange))?;
    is_newer(alloc, text.as_slice())
}

/// Whether a text is the text in version 2.
fn is_newer(alloc: Global, text: &[u8]) -> Outcome {
    let wanted = format!(in alloc;
        "scard-exchange 2{}",
        TEXT.strip_prefix(FIRST).unwrap_or(TEXT)
    )?;
    Ok(text == wanted.as_bytes())
}
