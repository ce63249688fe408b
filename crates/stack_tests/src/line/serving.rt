//! How serving ends, over lines that do one thing at each call.

use super::steps::Step;
use super::{DONE, DONE_BLOCK, SELECT, SELECT_BLOCK, card};
use line_core::{CardLine, Host, Received, ServeFault, serve};
use std::io::{self, ErrorKind};
use t1_core::{Card, CardFault};

const ASK_AGAIN: [u8; 4] = [0x00, 0x80, 0x00, 0x80];

/// A card's line that does one thing at each call. It counts the blocks of the answer that the card sends.
#[derive(Drop)]
struct Script<'a> {
    step: Step<'a>,
    sends: bool,
    done: u64,
}

impl CardLine for Script<'_> {
    ghost said = { λ _ _ _. Unit {0} };

    fn receive(&mut self, room: &mut [u8]) -> io::Result<Received> {
        self.step.heard(room)
    }

    fn send(&mut self, block: &[u8]) -> io::Result<()> {
        if !self.sends {
            return Err(ErrorKind::BrokenPipe.into());
        }
        if block == DONE_BLOCK.as_slice() {
            self.done = self.done.saturating_add(1);
        }
        Ok(())
    }
}

/// A host that gives the same reply to every command, and counts how often it got SELECT.
#[derive(Drop)]
pub(super) struct Replies<'a> {
    reply: &'a [u8],
    acted: u64,
}

pub(super) fn replying(reply: &[u8]) -> Replies<'_> {
    Replies { reply, acted: 0 }
}

impl Host for Replies<'_> {
    ghost served = { λ _ _ _. Unit {0} };

    ghost reply = { λ h. h.reply.now };

    fn act(&mut self, command: &[u8]) {
        if command == SELECT.as_slice() {
            self.acted = self.acted.saturating_add(1);
        }
    }

    fn reply(&self) -> &[u8] {
        self.reply
    }
}

/// How serving ends.
#[derive(Clone, Copy, PartialEq, Eq)]
enum Served {
    Done,
    Line(ErrorKind),
    UsedUp,
    Refused(CardFault),
}

fn end_of(given: Result<(), ServeFault>) -> Served {
    match given {
        Ok(()) => Served::Done,
        Err(ServeFault::Line(fault)) => Served::Line(fault.kind()),
        Err(ServeFault::UsedUp) => Served::UsedUp,
        Err(ServeFault::Refused(fault)) => Served::Refused(fault),
    }
}

/// What the line does, and whether it takes blocks; the most blocks that come; how serving ends, how often the card
/// answered, and how often the host acted.
type Row = (Step<'static>, bool, usize, Served, u64, u64);

static ROWS: [Row; 6] = [
    (Step::IsSilent, true, 9, Served::Done, 0, 0),
    (Step::Fails, true, 9, Served::Line(ErrorKind::Other), 0, 0),
    (Step::Gives(&SELECT_BLOCK), true, 0, Served::UsedUp, 0, 0),
    (
        Step::Gives(&SELECT_BLOCK),
        false,
        9,
        Served::Line(ErrorKind::BrokenPipe),
        0,
        1,
    ),
    // The answer that wasn't sent is sent when the terminal asks for it.
    (Step::Gives(&ASK_AGAIN), true, 1, Served::UsedUp, 1, 0),
    (Step::Gives(&ASK_AGAIN), true, 2, Served::UsedUp, 2, 0),
];

/// Whether a row is right.
fn is_so(c: &mut Card, row: &Row) -> bool {
    let (step, sends, most_blocks, served, done, acted) = *row;
    let mut host = replying(&DONE);
    let mut line = Script {
        step,
        sends,
        done: 0,
    };
    end_of(serve(c, &mut line, &mut host, most_blocks)) == served
        && line.done == done
        && host.acted == acted
}

/// One session of a card, whose line does something else at each call.
#[test]
fn how_serving_ends(rt: HostRuntime) {
    let mut c = card(&rt, rt.alloc());
    for (place, row) in ROWS.iter().enumerate() {
        assert!(rt; is_so(&mut c, row), "row {place}");
    }
}
