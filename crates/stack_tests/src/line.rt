//! Calls of both ends over lines in memory that fail, are silent or give the same block again and again.

mod calls;
mod printed;
mod readers;
mod serving;
mod steps;

use atr_core::T1Params;
use std::alloc::Global;
use std::process::Abort;
use t1_core::{Card, Terminal};

const SELECT: [u8; 5] = [0x00, 0xA4, 0x04, 0x00, 0x00];

const DONE: [u8; 2] = [0x90, 0x00];

const SELECT_BLOCK: [u8; 9] = [0x00, 0x00, 0x05, 0x00, 0xA4, 0x04, 0x00, 0x00, 0xA5];

const DONE_BLOCK: [u8; 6] = [0x00, 0x00, 0x02, 0x90, 0x00, 0x92];

/// Returns the parameters of a card that takes information fields of 32 octets.
fn params(rt: &impl Abort) -> T1Params {
    T1Params::new(32, 4, 5).expect(rt, "parameters")
}

fn terminal(rt: &impl Abort, alloc: Global) -> Terminal {
    Terminal::new(alloc, params(rt)).expect(rt, "a terminal")
}

fn card(rt: &impl Abort, alloc: Global) -> Card {
    Card::new(alloc, params(rt)).expect(rt, "a card")
}
