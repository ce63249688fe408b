//! Events that a recorder refuses.

use exchange_core::{Event, EventFault, Exchange, Recorder, RecorderFault, write_exchange};
use std::alloc::Global;
use test_support::{Case, Fault, Share, Trial};

/// The answer to reset of a card that takes fields of 2 octets.
const ATR: [u8; 7] = [0x3B, 0x80, 0x81, 0x31, 0x02, 0x45, 0x77];

const SELECT: [u8; 5] = [0x00, 0xA4, 0x04, 0x00, 0x00];

const DONE: [u8; 2] = [0x90, 0x00];

/// A session with each kind of event, which ends with an answer.
const ANSWERED: [Event<'static>; 24] = [
    Event::AskIfsd(254),
    Event::Deliver,
    Event::Deliver,
    Event::Transmit(&SELECT),
    Event::Damage,
    Event::Deliver,
    Event::Deliver,
    Event::Spoil,
    Event::Deliver,
    Event::Deliver,
    Event::Lose,
    Event::Deliver,
    Event::Deliver,
    Event::Deliver,
    Event::Deliver,
    Event::Deliver,
    Event::MoreTime(1),
    Event::Deliver,
    Event::Deliver,
    Event::AskIfsc(16),
    Event::Deliver,
    Event::Deliver,
    Event::Reply(&DONE),
    Event::Deliver,
];

/// A session in which each block is lost, until the card counts as dead.
const DEAD: [Event<'static>; 8] = [
    Event::Transmit(&SELECT),
    Event::Lose,
    Event::Lose,
    Event::Lose,
    Event::Lose,
    Event::Lose,
    Event::Lose,
    Event::Lose,
];

/// Puts each event between any two events of each session. `long` has more octets than a command or a reply may have.
///
/// If it is refused, the record stays as it was, and so does that of the whole session.
pub(crate) fn refuse_each(rt: &HostRuntime, trial: &mut Trial, long: &[u8]) -> Result<(), Fault> {
    let mut refused = 0u64;
    if matches!(trial.share, Share::All) {
        refuse_in(trial, &ANSWERED, long, &mut refused);
    }
    refuse_in(trial, &DEAD, long, &mut refused);
    let counts = [("recorded: ", refused)];
    trial.report(
        rt,
        &counts,
        " events refused, which left the record as it was",
    )
}

/// Puts each event between any two events of a session.
fn refuse_in(trial: &mut Trial, session: &[Event<'_>], long: &[u8], refused: &mut u64) {
    for place in 0..=session.len() {
        let (before, after) = session.split_at(place);
        refuse_between(trial, before, after, long, refused);
    }
}

/// Puts each event between these events of a session.
fn refuse_between(
    trial: &mut Trial,
    before: &[Event<'_>],
    after: &[Event<'_>],
    long: &[u8],
    refused: &mut u64,
) {
    for event in &events(long) {
        let case = Case {
            what: "an event that is refused",
            octets: &ATR,
            place: before.len(),
            piece: before.len().saturating_add(after.len()),
        };
        trial.count(
            case,
            is_as_before(trial.alloc, before, *event, after),
            refused,
        );
    }
}

/// Returns all events, with those that no end accepts.
fn events(long: &[u8]) -> [Event<'_>; 16] {
    [
        Event::Deliver,
        Event::Damage,
        Event::Spoil,
        Event::Lose,
        Event::Transmit(&SELECT),
        Event::Transmit(long),
        Event::AskIfsd(0),
        Event::AskIfsd(32),
        Event::AskIfsd(255),
        Event::Reply(&DONE),
        Event::Reply(long),
        Event::MoreTime(0),
        Event::MoreTime(1),
        Event::AskIfsc(0),
        Event::AskIfsc(32),
        Event::AskIfsc(255),
    ]
}

/// Whether an event that is refused between others leaves the record as it was, and that of the whole session; `None` if
/// it is accepted.
fn is_as_before(
    alloc: Global,
    before: &[Event<'_>],
    event: Event<'_>,
    after: &[Event<'_>],
) -> Result<Option<bool>, Fault> {
    match is_same(alloc, before, event, &[]) {
        Ok(Some(true)) => is_same(alloc, before, event, after),
        answer => answer,
    }
}

/// Whether a record is the same as without an event that is refused between others; `None` if an event is
/// accepted or refused otherwise.
fn is_same(
    alloc: Global,
    before: &[Event<'_>],
    event: Event<'_>,
    after: &[Event<'_>],
) -> Result<Option<bool>, Fault> {
    match recorded(alloc, before, Some(event), after) {
        Ok(text) => is_recorded(alloc, before, after, text.as_slice()),
        Err(Fault::Wrong) => Ok(None),
        Err(fault) => Err(fault),
    }
}

/// Whether the record of these events has this text.
fn is_recorded(
    alloc: Global,
    before: &[Event<'_>],
    after: &[Event<'_>],
    text: &[u8],
) -> Result<Option<bool>, Fault> {
    match recorded(alloc, before, None, after) {
        Ok(recorded) => Ok(Some(recorded.as_slice() == text)),
        Err(Fault::Wrong) => Ok(Some(false)),
        Err(fault) => Err(fault),
    }
}

/// Returns the text of a session in two parts, with an event between them that has to be refused.
fn recorded(
    alloc: Global,
    before: &[Event<'_>],
    refused: Option<Event<'_>>,
    after: &[Event<'_>],
) -> Result<Vec<u8>, Fault> {
    let mut recorder = recorder(alloc, &ATR)?;
    let happened = make_happen(&mut recorder, before, refused, after);
    text(alloc, ended(recorder, happened))
}

/// Returns the text of a record.
fn text(alloc: Global, exchange: Result<Exchange, Fault>) -> Result<Vec<u8>, Fault> {
    Ok(write_exchange(alloc, &exchange?)?)
}

/// Returns the record of a session whose calls were recorded, or why they could not be.
pub(crate) fn ended(recorder: Recorder, recorded: Result<(), Fault>) -> Result<Exchange, Fault> {
    match recorded {
        Ok(()) => Ok(recorder.exchange()?),
        Err(fault) => Err(fault),
    }
}

/// Returns a recorder of a session with a card that has this answer to reset.
pub(crate) fn recorder(alloc: Global, atr: &[u8]) -> Result<Recorder, Fault> {
    match Recorder::new(alloc, atr) {
        Ok(recorder) => Ok(recorder),
        Err(RecorderFault::Memory) => Err(Fault::Memory),
        Err(RecorderFault::Refused(_)) => Err(Fault::Stream),
    }
}

/// Makes an event happen that must not be refused.
pub(crate) fn happens(recorder: &mut Recorder, event: Event<'_>) -> Result<(), Fault> {
    match recorder.happens(event) {
        Ok(()) => Ok(()),
        Err(EventFault::Memory) => Err(Fault::Memory),
        Err(_) => Err(Fault::Stream),
    }
}

/// Whether an event is accepted.
fn is_taken(recorder: &mut Recorder, event: Event<'_>) -> Result<bool, Fault> {
    match recorder.happens(event) {
        Ok(()) => Ok(true),
        Err(EventFault::Memory) => Err(Fault::Memory),
        Err(_) => Ok(false),
    }
}

/// Makes events happen that have to be accepted, and between them one that has to be refused. What isn't so is a wrong
/// answer.
fn make_happen(
    recorder: &mut Recorder,
    before: &[Event<'_>],
    refused: Option<Event<'_>>,
    after: &[Event<'_>],
) -> Result<(), Fault> {
    take_each(recorder, before)?;
    refuse(recorder, refused)?;
    take_each(recorder, after)
}

/// Makes an event happen that has to be refused, if there is one.
fn refuse(recorder: &mut Recorder, event: Option<Event<'_>>) -> Result<(), Fault> {
    match event {
        Some(event) if is_taken(recorder, event)? => Err(Fault::Wrong),
        _ => Ok(()),
    }
}

/// Makes events happen that have to be accepted.
fn take_each(recorder: &mut Recorder, events: &[Event<'_>]) -> Result<(), Fault> {
    for event in events {
        if !is_taken(recorder, *event)? {
            return Err(Fault::Wrong);
        }
    }
    Ok(())
}
