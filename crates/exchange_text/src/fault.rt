//! Why a text isn't an exchange.

ghost use Rattle.std.specs.Prelude.{◌≡◌};
ghost use Rattle.exchange_text.specs.Faults.{exchange_fault_line, exchange_fault_name};
ghost use Rattle.exchange_text.specs.Reading.{fault_at};

use std::alloc::AllocError;
use std::fmt::{self, Display, Formatter, Write};
use thiserror::Error;

/// Why a text isn't an exchange: its first fault. Lines are counted from 1.
#[derive(Clone, Copy, Debug, PartialEq, Eq, Error)]
pub enum ExchangeFault {
    /// The text doesn't begin with the header of a version and a line feed.
    Header,
    /// The text ends before the line feed of this line, or after line 1.
    End { line: usize },
    /// The line's first word is unknown, it has too few or too many words, or another word isn't in the grammar. Or it
    /// is a moment or a note that isn't valid, or that version 1 doesn't have.
    Word { line: usize },
    /// The line has octets, or an octet, that aren't in upper-case hexadecimal.
    Hex { line: usize },
    /// The line's moment is below an earlier one.
    Falls { line: usize },
    /// Memory ran out.
    Memory,
}

impl ExchangeFault {
    /// Returns the fault's name.
    pub fn name(&self) -> &'static str
        ensures { result.now ≡ exchange_fault_name self.now }
    {
        match self {
            ExchangeFault::Header => "Header",
            ExchangeFault::End { .. } => "End",
            ExchangeFault::Word { .. } => "Word",
            ExchangeFault::Hex { .. } => "Hex",
            ExchangeFault::Falls { .. } => "Falls",
            ExchangeFault::Memory => "memory",
        }
    }

    /// Returns the line that the fault is in, if it is in one.
    pub fn line(&self) -> Option<usize>
        ensures { result ≡ exchange_fault_line self.now }
    {
        match self {
            ExchangeFault::Header | ExchangeFault::Memory => None,
            ExchangeFault::End { line }
            | ExchangeFault::Word { line }
            | ExchangeFault::Hex { line }
            | ExchangeFault::Falls { line } => Some(*line),
        }
    }
}

/// The fault's name, after its line, as in `line 3: Word`.
impl Display for ExchangeFault {
    ghost use Rattle.std.specs.Prelude.{Some};
    ghost use Rattle.exchange_text.specs.Faults.{exchange_fault_text};

    ghost output = { λ fault. Some (exchange_fault_text fault) };

    fn fmt<W: Write>(&self, f: &mut Formatter<W>) -> fmt::Result {
        let name = self.name();
        match self.line() {
            None => f.write_str(name),
            Some(line) => write!(f, "line {line}: {name}"),
        }
    }
}

impl From<AllocError> for ExchangeFault {
    ghost use Rattle.exchange_text.specs.declared.fault.ExchangeFault.{ExchangeFault};

    ghost from_gives = { λ _ fault. fault ≡ ExchangeFault.Memory };

    fn from(_: AllocError) -> ExchangeFault {
        ExchangeFault::Memory
    }
}

/// The fault of one line.
#[derive(Clone, Copy)]
pub(crate) enum LineFault {
    /// Its words are wrong.
    Word,
    /// Its octets are wrong.
    Hex,
    /// Memory ran out.
    Memory,
}

impl LineFault {
    /// Returns the fault with the line's number.
    pub(crate) fn at(self, line: usize) -> ExchangeFault
        ensures { result ≡ fault_at line self }
    {
        match self {
            LineFault::Word => ExchangeFault::Word { line },
            LineFault::Hex => ExchangeFault::Hex { line },
            LineFault::Memory => ExchangeFault::Memory,
        }
    }
}

impl From<AllocError> for LineFault {
    ghost use Rattle.exchange_text.specs.declared.fault.LineFault.{LineFault};

    ghost from_gives = { λ _ fault. fault ≡ LineFault.Memory };

    fn from(_: AllocError) -> LineFault {
        LineFault::Memory
    }
}
