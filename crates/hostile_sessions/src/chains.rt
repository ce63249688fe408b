//! Chains over readers and writers that fail, and a chain without an end.

ghost use Rattle.std.specs.Prelude.{◌≢◌, ◌≤◌};

use block_core::Number;
use chain_core::{ChainReason, ReadRefusal, Receiver, read_chain};
use octet_core::{After, Counted, Feeder, Stop};
use std::alloc::Global;
use test_support::{Case, Fault, Trial, same};

mod reading;
mod writing;

/// What a chain carries.
#[derive(Clone, Copy)]
enum Message {
    /// Any message, sent and received by the calls for chains alone.
    Plain,
    Command,
    Response,
}

/// The octets of a message, and those of its chain in fields of 2 octets from number 0.
#[derive(Clone, Copy)]
struct Carried {
    message: Message,
    octets: &'static [u8],
    chain: &'static [u8],
}

/// SELECT, and its chain.
const SELECT: [u8; 5] = [0x00, 0xA4, 0x04, 0x00, 0x00];

const SELECT_CHAIN: [u8; 17] = [
    0x00, 0x20, 0x02, 0x00, 0xA4, 0x86, 0x00, 0x60, 0x02, 0x04, 0x00, 0x66, 0x00, 0x00, 0x01, 0x00,
    0x01,
];

/// A response, and its chain.
const DONE: [u8; 4] = [0xAA, 0xBB, 0x90, 0x00];

const DONE_CHAIN: [u8; 12] = [
    0x00, 0x20, 0x02, 0xAA, 0xBB, 0x33, 0x00, 0x40, 0x02, 0x90, 0x00, 0xD2,
];

/// The messages that are carried over the streams.
static ROWS: [Carried; 3] = [
    Carried {
        message: Message::Plain,
        octets: &SELECT,
        chain: &SELECT_CHAIN,
    },
    Carried {
        message: Message::Command,
        octets: &SELECT,
        chain: &SELECT_CHAIN,
    },
    Carried {
        message: Message::Response,
        octets: &DONE,
        chain: &DONE_CHAIN,
    },
];

/// The greatest size of a field here.
const SIZE: u8 = 2;

/// How many octets a device reads or takes in one call at most.
#[derive(Clone, Copy)]
enum Step {
    One,
    Three,
    Many,
}

impl Step {
    fn octets(self) -> usize
        ensures { 1 ≤ result }
    {
        match self {
            Step::One => 1,
            Step::Three => 3,
            Step::Many => 64,
        }
    }
}

/// How a device fails.
#[derive(Clone, Copy)]
enum Failing {
    Fails,
    Interrupted,
    End,
}

impl Failing {
    fn after(self) -> After
        ensures { result ≢ After.Repeats }
    {
        match self {
            Failing::Fails => After::Fails,
            Failing::Interrupted => After::Interrupted,
            Failing::End => After::End,
        }
    }
}

/// Each way to read or take octets, and to fail.
static FAILING: [(Step, Failing); 9] = [
    (Step::One, Failing::Fails),
    (Step::One, Failing::Interrupted),
    (Step::One, Failing::End),
    (Step::Three, Failing::Fails),
    (Step::Three, Failing::Interrupted),
    (Step::Three, Failing::End),
    (Step::Many, Failing::Fails),
    (Step::Many, Failing::Interrupted),
    (Step::Many, Failing::End),
];

/// A device that fails after `place` octets.
#[derive(Clone, Copy)]
struct Failure {
    place: usize,
    step: Step,
    how: Failing,
}

/// Checks that each message is written and read correctly over streams that fail after each number
/// of octets, and that an endless chain is refused.
pub(crate) fn fail_each(rt: &HostRuntime, trial: &mut Trial) -> Result<(), Fault> {
    let mut failures = 0u64;
    for carried in &ROWS {
        fail_for(trial, carried, &mut failures);
    }
    endless(trial, Step::One, READ - 1);
    endless(trial, Step::Many, READ);
    let counts = [
        ("chains: ", failures.saturating_mul(2)),
        (" writers and ", failures.saturating_mul(3)),
        (" readers failed at the octet that they said, ", READ),
    ];
    trial.report(rt, &counts, " octets of an endless chain were read")
}

/// Checks streams that fail at each place of a chain, and counts the failures.
fn fail_for(trial: &mut Trial, carried: &Carried, failures: &mut u64) {
    for place in 0..carried.chain.len() {
        fail_at(trial, carried, place, failures);
    }
}

/// Checks two writers and three readers for each way to fail after `place` octets.
fn fail_at(trial: &mut Trial, carried: &Carried, place: usize, failures: &mut u64) {
    for &(step, how) in &FAILING {
        let failure = Failure { place, step, how };
        writing::writers_fail(trial, carried, failure);
        reading::readers_fail(trial, carried, failure);
        *failures = failures.saturating_add(1);
    }
}

/// Returns the case of a stream that fails.
fn case_of(what: &'static str, carried: &Carried, failure: Failure) -> Case<'static> {
    Case {
        what,
        octets: carried.chain,
        place: failure.place,
        piece: failure.step.octets(),
    }
}

/// Two empty blocks, with the numbers 0 and 1, after each of which more follow.
const BLOCKS: [u8; 8] = [0x00, 0x20, 0x00, 0x20, 0x00, 0x60, 0x00, 0x60];

/// Where a chain of empty blocks is refused.
const REFUSED_AT: usize = 524_285;

/// How many octets of it are read. One call asks for the first three octets of a block, so one octet after the refused
/// one is read if one call reads them all.
const READ: u64 = 524_287;

/// Checks that a chain of empty blocks, read in such steps, is refused at its last block, after `read` octets were
/// read.
fn endless(trial: &mut Trial, step: Step, read: u64) {
    let case = Case {
        what: "an endless chain",
        octets: &BLOCKS,
        place: REFUSED_AT,
        piece: step.octets(),
    };
    trial.expect(case, is_refused(trial.alloc, step, read));
}

/// Whether a chain of empty blocks, read in such steps, is refused at its last block, after `read` octets were read.
fn is_refused(alloc: Global, step: Step, read: u64) -> Result<bool, Fault> {
    let mut receiver = Receiver::new(alloc, 254, Number::Zero, 0)?;
    Ok(is_refused_by(&mut receiver, step, read))
}

/// Whether a receiver refuses that chain so.
fn is_refused_by(receiver: &mut Receiver, step: Step, read: u64) -> bool {
    let mut reader = Counted::new(Feeder::new(&BLOCKS, step.octets(), After::Repeats));
    let said = read_chain(&mut reader, receiver);
    let wanted = ReadRefusal::Stop(Stop::At {
        place: REFUSED_AT,
        reason: ChainReason::TooManyBlocks,
    });
    same(said, Err(wanted)) && reader.into_inner().given() == read
}
