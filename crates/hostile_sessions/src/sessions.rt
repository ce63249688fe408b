//! The files of recorded exchanges, from the folder where the program runs or from its folder `data`.

use crate::as_exchange;
use exchange_core::Exchange;
use std::alloc::Global;
use std::fs;
use test_support::Fault;

/// The files of the folder `examples`.
const NAMES: [&str; 8] = [
    "plain.exchange",
    "damaged_and_lost.exchange",
    "every_block_lost.exchange",
    "resynch.exchange",
    "more_time.exchange",
    "sizes_and_chain.exchange",
    "acted_on_and_given_up.exchange",
    "moments_and_notes.exchange",
];

/// Returns the octets of each file.
pub(crate) fn files(rt: &HostRuntime) -> Result<Vec<Vec<u8>>, Fault> {
    let mut files = Vec::new(rt.alloc());
    for &name in &NAMES {
        files.push(octets(rt, name)?)?;
    }
    Ok(files)
}

/// Returns the octets of a file.
fn octets(rt: &HostRuntime, name: &str) -> Result<Vec<u8>, Fault> {
    if let Ok(octets) = fs::read(rt, name) {
        return Ok(octets);
    }
    let path = format!(in rt.alloc(); "data/{name}")?;
    Ok(fs::read(rt, path.as_str())?)
}

/// Returns the exchange of each file.
pub(crate) fn sessions(alloc: Global, files: &[Vec<u8>]) -> Result<Vec<Exchange>, Fault> {
    let mut sessions = Vec::new(alloc);
    for file in files {
        sessions.push(as_exchange(alloc, file.as_slice())?)?;
    }
    Ok(sessions)
}
