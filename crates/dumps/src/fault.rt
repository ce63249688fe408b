//! Why a text isn't octets.

ghost use Rattle.std.specs.Prelude.{◌≡◌};

use std::alloc::AllocError;
use std::error::Error;
use std::fmt::{self, Display, Formatter, Write};

/// Why a text isn't octets.
#[derive(Clone, Copy, Debug, PartialEq, Eq)]
pub enum DumpFault {
    /// The text isn't in the form.
    Form,
    /// Memory couldn't grow.
    Memory,
}

impl Display for DumpFault {
    ghost use Rattle.std.specs.Prelude.{Some};
    ghost use Rattle.dumps.specs.Faults.{dump_fault_text};

    ghost output = { λ fault. Some (dump_fault_text fault) };

    fn fmt<W: Write>(&self, f: &mut Formatter<W>) -> fmt::Result {
        match self {
            DumpFault::Form => f.write_str("not in the form"),
            DumpFault::Memory => f.write_str("memory"),
        }
    }
}

impl Error for DumpFault {}

impl From<AllocError> for DumpFault {
    ghost use Rattle.dumps.specs.declared.fault.DumpFault.{DumpFault};

    ghost from_gives = { λ _ fault. fault ≡ DumpFault.Memory };

    fn from(_: AllocError) -> DumpFault {
        DumpFault::Memory
    }
}
