//! Calls that an end refuses, within sessions.

use crate::ends::{Ends, Waits};
use exchange_core::{Exchange, Line};
use octet_core::is_reserved;
use std::alloc::Global;
use t1_core::{CardFault, TerminalFault};
use test_support::{Case, Fault, Trial};

/// A call of an end that is refused in some state.
#[derive(Clone, Copy)]
enum Call {
    ToTerminal,
    Quiet,
    Transmit,
    TransmitTooLong,
    AskIfsd(u8),
    ToCard,
    Reply,
    ReplyTooLong,
    MoreTime,
    AskIfsc(u8),
}

/// Why a call is refused.
#[derive(Clone, Copy, PartialEq)]
enum Refused {
    Terminal(TerminalFault),
    Card(CardFault),
}

static CALLS: [Call; 14] = [
    Call::ToTerminal,
    Call::Quiet,
    Call::Transmit,
    Call::TransmitTooLong,
    Call::AskIfsd(0),
    Call::AskIfsd(32),
    Call::AskIfsd(255),
    Call::ToCard,
    Call::Reply,
    Call::ReplyTooLong,
    Call::MoreTime,
    Call::AskIfsc(0),
    Call::AskIfsc(32),
    Call::AskIfsc(255),
];

/// The block, and the short command or reply, that calls have as their arguments.
const BLOCK: [u8; 4] = [0x00, 0x80, 0x00, 0x80];

const SHORT: [u8; 2] = [0x90, 0x00];

/// Puts each call that is refused between any two lines of each session. The session has to go on as if it weren't
/// there. `long` has more octets than a command or a reply may have.
pub(crate) fn refuse_each(
    rt: &HostRuntime,
    trial: &mut Trial,
    sessions: &[Exchange],
    long: &[u8],
) -> Result<(), Fault> {
    let count = trial.share.most(sessions.len());
    let mut refused = 0u64;
    for session in sessions.iter().take(count) {
        refuse_in(trial, session, long, &mut refused);
    }
    let counts = [("refused: ", refused), (" calls within ", count as u64)];
    trial.report(rt, &counts, " sessions, which went on unchanged")
}

/// Puts each call between any two lines of a session.
fn refuse_in(trial: &mut Trial, session: &Exchange, long: &[u8], refused: &mut u64) {
    for place in 0..=session.lines().get().len() {
        refuse_at(trial, session, place, long, refused);
    }
}

/// Puts each call before the line at `place` of a session.
fn refuse_at(trial: &mut Trial, session: &Exchange, place: usize, long: &[u8], refused: &mut u64) {
    for &call in &CALLS {
        let case = Case {
            what: "a refused call within a session",
            octets: session.atr(),
            place,
            piece: session.lines().get().len().saturating_sub(place),
        };
        trial.count(
            case,
            goes_on_from(trial.alloc, session, place, call, long),
            refused,
        );
    }
}

/// Whether new ends do what the lines of a session say, with a call before the line at `place` that is refused as it
/// should be; `None` if the call isn't to be refused there.
fn goes_on_from(
    alloc: Global,
    session: &Exchange,
    place: usize,
    call: Call,
    long: &[u8],
) -> Result<Option<bool>, Fault> {
    let mut ends = Ends::of(alloc, session)?;
    Ok(match session.lines().get().split_at_checked(place) {
        Some((before, after)) => goes_on(&mut ends, before, call, long, after),
        None => None,
    })
}

/// Whether a call between lines is refused as it should be, and the ends do what the lines say; `None` if the call
/// isn't to be refused there.
fn goes_on(
    ends: &mut Ends,
    before: &[Line],
    call: Call,
    long: &[u8],
    after: &[Line],
) -> Option<bool> {
    let is_followed = ends.follow(before);
    let wanted = wanted(ends, call)?;
    let is_refused = refusal_of(ends, call, long) == Some(wanted);
    Some(is_followed && is_refused && ends.follow(after))
}

/// Returns why a call has to be refused in this state, or `None` if it hasn't.
fn wanted(ends: &Ends, call: Call) -> Option<Refused> {
    let waits = ends.waits();
    match call {
        Call::ToTerminal | Call::Quiet => received(waits),
        Call::Transmit => called(waits, None),
        Call::TransmitTooLong => called(waits, Some(TerminalFault::TooLong)),
        Call::AskIfsd(size) => called(waits, is_reserved(size).then_some(TerminalFault::Reserved)),
        _ => wanted_of_card(ends.is_hosts_turn(), call),
    }
}

/// Returns why a card has to refuse a call, or `None` if it hasn't.
fn wanted_of_card(is_hosts_turn: bool, call: Call) -> Option<Refused> {
    match call {
        Call::ToCard => is_hosts_turn.then_some(Refused::Card(CardFault::Order)),
        _ if !is_hosts_turn => Some(Refused::Card(CardFault::Order)),
        Call::ReplyTooLong => Some(Refused::Card(CardFault::TooLong)),
        Call::AskIfsc(size) if is_reserved(size) => Some(Refused::Card(CardFault::Reserved)),
        _ => None,
    }
}

/// Returns why a terminal has to refuse what comes from the line, or `None` if it hasn't.
fn received(waits: Waits) -> Option<Refused> {
    match waits {
        Waits::Idle => Some(Refused::Terminal(TerminalFault::Idle)),
        Waits::Card => None,
        Waits::Dead => Some(Refused::Terminal(TerminalFault::Dead)),
    }
}

/// Returns why a call of an application has to be refused; `idle` is why an idle terminal refuses it.
fn called(waits: Waits, idle: Option<TerminalFault>) -> Option<Refused> {
    match waits {
        Waits::Idle => idle.map(Refused::Terminal),
        Waits::Card => Some(Refused::Terminal(TerminalFault::Busy)),
        Waits::Dead => Some(Refused::Terminal(TerminalFault::Dead)),
    }
}

/// Makes the call, and returns why it is refused, or `None` if it isn't.
fn refusal_of(ends: &mut Ends, call: Call, long: &[u8]) -> Option<Refused> {
    let terminal = match call {
        Call::ToTerminal => ends.terminal.received(&BLOCK),
        Call::Quiet => ends.terminal.quiet(),
        Call::Transmit => ends.terminal.transmit(&SHORT),
        Call::TransmitTooLong => ends.terminal.transmit(long),
        Call::AskIfsd(size) => ends.terminal.ask_ifs(size),
        _ => return refused_by_card(ends, call, long),
    };
    terminal.err().map(Refused::Terminal)
}

fn refused_by_card(ends: &mut Ends, call: Call, long: &[u8]) -> Option<Refused> {
    let card = match call {
        Call::ToCard => ends.card.received(&BLOCK),
        Call::Reply => ends.card.reply(&SHORT),
        Call::ReplyTooLong => ends.card.reply(long),
        Call::MoreTime => ends.card.more_time(1),
        Call::AskIfsc(size) => ends.card.ask_ifs(size),
        _ => return None,
    };
    card.err().map(Refused::Card)
}
