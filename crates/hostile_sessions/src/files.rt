//! Files of recorded exchanges without an octet, with a changed octet, or cut off before one.

use crate::{as_exchange, is_replayed_at, replays_alike};
use exchange_core::{Exchange, Side, write_exchange};
use std::alloc::{AllocError, Global};
use test_support::{Case, Fault, Trial, with_octet};

/// How many files were read, and how many had faults.
#[derive(Clone, Copy, Default)]
struct Said {
    read: u64,
    faults: u64,
    /// How many of those that were read replay at both ends.
    replayed: u64,
}

/// Changes each file at each octet: without the octet, with another value, and cut off before it. Each result has to be
/// an exchange with this text, or a fault.
pub(crate) fn spoil_each(
    rt: &HostRuntime,
    trial: &mut Trial,
    files: &[Vec<u8>],
) -> Result<(), Fault> {
    let mut said = Said::default();
    for file in files.iter().take(trial.share.most(files.len())) {
        spoil(trial, file.as_slice(), &mut said);
    }
    let counts = [
        ("files: ", said.faults),
        (" faults, ", said.read),
        (" read and written again, of which ", said.replayed),
    ];
    trial.report(rt, &counts, " replay at both ends")
}

/// Takes a file unchanged, and changed at each place.
fn spoil(trial: &mut Trial, file: &[u8], said: &mut Said) {
    judge(trial, file, file.len(), said);
    for place in 0..file.len() {
        if trial.share.has(place) && !trial.is_over() {
            spoil_at(trial, file, place, said);
        }
    }
}

/// Takes a file cut off at a place, without the octet there, and with that octet changed.
fn spoil_at(trial: &mut Trial, file: &[u8], place: usize, said: &mut Said) {
    let (front, rest) = file.split_at_checked(place).unwrap_or((file, &[]));
    judge(trial, front, place, said);
    match joined(trial.alloc, front, rest.get(1..).unwrap_or(&[])) {
        Ok(octets) => judge(trial, octets.as_slice(), place, said),
        Err(_) => trial.stop(Fault::Memory),
    }
    change(trial, file, place, said);
}

/// Returns octets with others after them.
fn joined(alloc: Global, front: &[u8], back: &[u8]) -> Result<Vec<u8>, AllocError> {
    let mut octets = Vec::from_slice(alloc, front)?;
    octets.extend_from_slice(back)?;
    Ok(octets)
}

/// Takes a file with one octet set to each other value.
fn change(trial: &mut Trial, file: &[u8], place: usize, said: &mut Said) {
    for value in 0..=255u8 {
        if trial.share.has(usize::from(value)) && file.get(place) != Some(&value) {
            judge_with(trial, file, place, value, said);
        }
    }
}

/// Takes a file with one octet set to a value.
fn judge_with(trial: &mut Trial, file: &[u8], place: usize, value: u8, said: &mut Said) {
    match with_octet(trial.alloc, file, place, value) {
        Ok(octets) => judge(trial, octets.as_slice(), place, said),
        Err(_) => trial.stop(Fault::Memory),
    }
}

/// Counts one more text. Either it is read, written unchanged, and replays twice with the same outcome, or it has a
/// fault.
fn judge(trial: &mut Trial, text: &[u8], place: usize, said: &mut Said) {
    match as_exchange(trial.alloc, text) {
        Ok(exchange) => judge_as(trial, &exchange, text, place, said),
        Err(Fault::Memory) => trial.stop(Fault::Memory),
        Err(_) => said.faults = said.faults.saturating_add(1),
    }
}

/// Counts one more text, which is this exchange.
fn judge_as(trial: &mut Trial, exchange: &Exchange, text: &[u8], place: usize, said: &mut Said) {
    let case = Case {
        what: "a file that is written again",
        octets: text,
        place,
        piece: 0,
    };
    trial.expect(case, is_text(trial.alloc, exchange, text));
    let at_terminal = replays(trial, exchange, case, Side::Terminal);
    let at_card = replays(trial, exchange, case, Side::Card);
    said.read = said.read.saturating_add(1);
    said.replayed = said
        .replayed
        .saturating_add(u64::from(at_terminal && at_card));
}

/// Whether an exchange is written as this text.
fn is_text(alloc: Global, exchange: &Exchange, text: &[u8]) -> Result<bool, Fault> {
    Ok(write_exchange(alloc, exchange)?.as_slice() == text)
}

/// Returns whether an exchange replays at an end. Two replays with different outcomes are a case that went wrong.
fn replays(trial: &mut Trial, exchange: &Exchange, case: Case<'_>, side: Side) -> bool {
    let case = Case {
        what: "a file that is replayed twice",
        ..case
    };
    let alike = replays_alike(trial.alloc, exchange, side);
    trial.expect(case, Ok(alike));
    match is_replayed_at(trial.alloc, exchange, side) {
        Ok(is_replayed) => is_replayed,
        Err(fault) => {
            trial.stop(fault);
            false
        }
    }
}
