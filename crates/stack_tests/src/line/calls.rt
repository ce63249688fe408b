//! How calls of a terminal end, over lines that do one thing after each block.

use super::steps::Step;
use super::{DONE_BLOCK, SELECT, params, terminal};
use atr_core::T1Params;
use line_core::{
    Received, TerminalLine, TransceiveFault, ask_ifs, begin_by_resynch, exchange, resume,
};
use std::io;
use t1_core::{Terminal, TerminalFault};

/// The card asks for five times the waiting time.
const MORE_TIME: [u8; 5] = [0x00, 0xC3, 0x01, 0x05, 0xC7];

const RESYNCHED: [u8; 4] = [0x00, 0xE0, 0x00, 0xE0];

/// The card accepts the size 64.
const SIZE_TAKEN: [u8; 5] = [0x00, 0xE1, 0x01, 0x40, 0xA0];

/// A line that does one thing after each block. It counts the blocks, and records how long it waits for the last one.
#[derive(Drop)]
struct Script<'a> {
    step: Step<'a>,
    blocks: u64,
    waited: u8,
}

impl TerminalLine for Script<'_> {
    ghost said = { λ _ _ _. Unit {0} };

    fn transceive(&mut self, _block: &[u8], waiting: u8, room: &mut [u8]) -> io::Result<Received> {
        self.blocks = self.blocks.saturating_add(1);
        self.waited = waiting;
        self.step.heard(room)
    }
}

/// A call of a terminal, with the most blocks that it sends.
#[derive(Clone, Copy)]
enum Call {
    Select(usize),
    AskIfs(u8, usize),
    Resume(usize),
    Begin,
}

/// How a call of a terminal ends.
#[derive(Clone, Copy, PartialEq, Eq)]
enum Ended {
    Done,
    GivenUp,
    Dead,
    Line,
    UsedUp,
    Refused(TerminalFault),
}

/// Returns how a call ended.
fn end_of(given: Result<(), TransceiveFault>) -> Ended {
    match given {
        Ok(()) => Ended::Done,
        Err(TransceiveFault::GivenUp) => Ended::GivenUp,
        Err(TransceiveFault::Dead) => Ended::Dead,
        Err(TransceiveFault::Line(_)) => Ended::Line,
        Err(TransceiveFault::UsedUp) => Ended::UsedUp,
        Err(TransceiveFault::Refused(fault)) => Ended::Refused(fault),
    }
}

/// Returns how an exchange of SELECT ended.
fn end_of_select(t: &mut Terminal, line: &mut Script<'_>, most_blocks: usize) -> Ended {
    match exchange(t, line, &SELECT, most_blocks) {
        Ok(_) => Ended::Done,
        Err(fault) => end_of(Err(fault)),
    }
}

/// Returns how a call of a terminal ends.
fn called(t: &mut Terminal, line: &mut Script<'_>, params: T1Params, call: Call) -> Ended {
    match call {
        Call::Select(most_blocks) => end_of_select(t, line, most_blocks),
        Call::AskIfs(size, most_blocks) => end_of(ask_ifs(t, line, size, most_blocks)),
        Call::Resume(most_blocks) => end_of(resume(t, line, most_blocks)),
        Call::Begin => end_of(begin_by_resynch(t, line, params)),
    }
}

/// What the line does, a call, how it ends, how many blocks it sends, and how long it waits after the last one.
type Row = (Step<'static>, Call, Ended, u64, u8);

static ROWS: [Row; 13] = [
    (Step::Fails, Call::Select(9), Ended::Line, 1, 1),
    (
        Step::Fails,
        Call::Select(9),
        Ended::Refused(TerminalFault::Busy),
        0,
        0,
    ),
    (Step::Gives(&DONE_BLOCK), Call::Resume(1), Ended::Done, 1, 1),
    (
        Step::Gives(&MORE_TIME),
        Call::Select(0),
        Ended::UsedUp,
        0,
        0,
    ),
    (
        Step::Gives(&MORE_TIME),
        Call::Resume(20),
        Ended::UsedUp,
        20,
        5,
    ),
    (Step::Fails, Call::Begin, Ended::Line, 1, 1),
    (Step::Gives(&RESYNCHED), Call::Begin, Ended::Done, 1, 1),
    (
        Step::Gives(&RESYNCHED),
        Call::Select(9),
        Ended::GivenUp,
        5,
        1,
    ),
    (
        Step::Gives(&SIZE_TAKEN),
        Call::AskIfs(255, 9),
        Ended::Refused(TerminalFault::Reserved),
        0,
        0,
    ),
    (
        Step::Gives(&SIZE_TAKEN),
        Call::AskIfs(64, 1),
        Ended::Done,
        1,
        1,
    ),
    (Step::IsSilent, Call::Select(9), Ended::Dead, 7, 1),
    (
        Step::IsSilent,
        Call::Select(9),
        Ended::Refused(TerminalFault::Dead),
        0,
        0,
    ),
    (Step::IsSilent, Call::Begin, Ended::Dead, 3, 1),
];

/// Whether a row is right.
fn is_so(t: &mut Terminal, params: T1Params, row: &Row) -> bool {
    let (step, call, ended, blocks, waited) = *row;
    let mut line = Script {
        step,
        blocks: 0,
        waited: 0,
    };
    called(t, &mut line, params, call) == ended && line.blocks == blocks && line.waited == waited
}

/// One session of a terminal, whose line does something else at each call.
#[test]
fn how_calls_of_a_terminal_end(rt: HostRuntime) {
    let params = params(&rt);
    let mut t = terminal(&rt, rt.alloc());
    for (place, row) in ROWS.iter().enumerate() {
        assert!(rt; is_so(&mut t, params, row), "row {place}");
    }
}
