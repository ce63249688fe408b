//! A case of a program that tests lists of cases, and why such a list stops early.

use octet_core::{HexFault, hex_upper};
use std::alloc::{AllocError, AllocFailed, Global};
use std::io;

/// A case: what is tested, the octets, a place in them, and the value or piece there.
#[derive(Clone, Copy)]
pub struct Case<'a> {
    pub what: &'static str,
    pub octets: &'a [u8],
    pub place: usize,
    pub piece: usize,
}

/// Why a list of cases stopped early. It is a plain value, since each way out of a function returns a fault.
#[derive(Clone, Copy, Debug)]
pub enum Fault {
    /// A case gave a wrong answer.
    Wrong,
    /// Out of memory.
    Memory,
    /// A file couldn't be read, or a line couldn't be printed.
    Stream,
}

impl Case<'_> {
    /// Returns the text on a case that failed, with its octets in hexadecimal.
    pub(crate) fn text(self, alloc: Global) -> Result<String, AllocError> {
        let octets = hex_upper(alloc, self.octets)?;
        self.text_with(alloc, octets.as_str())
    }

    /// Returns the text on a case that failed, with these octets.
    fn text_with(self, alloc: Global, octets: &str) -> Result<String, AllocError> {
        let Case {
            what,
            place,
            piece,
            ..
        } = self;
        format!(in alloc; "wrong: {what}: octets {octets}, place {place}, piece {piece}")
    }
}

impl From<AllocError> for Fault {
    fn from(_error: AllocError) -> Fault {
        Fault::Memory
    }
}

impl<T: Drop> From<AllocFailed<T>> for Fault {
    fn from(_failed: AllocFailed<T>) -> Fault {
        Fault::Memory
    }
}

impl From<io::Error> for Fault {
    fn from(_error: io::Error) -> Fault {
        Fault::Stream
    }
}

impl From<HexFault> for Fault {
    fn from(fault: HexFault) -> Fault {
        match fault {
            HexFault::Memory => Fault::Memory,
            _ => Fault::Stream,
        }
    }
}
