//! Why an exchange has no answer.

ghost use Rattle.std.specs.Prelude.{◌≡◌};
ghost use Rattle.line_core.specs.declared.fault.TransceiveFault.TheVariants.{Refused};

use std::error::Error;
use std::fmt::{self, Display, Formatter, Write};
use std::io;
use t1_core::TerminalFault;

/// Why an exchange has no answer.
#[derive(Debug, Drop)]
pub enum TransceiveFault {
    /// Both ends were resynchronized, and the exchange or the request for a size was given up. The
    /// terminal takes the next call.
    GivenUp,
    /// The card doesn't answer any more, not even RESYNCH. The terminal refuses each further call.
    Dead,
    /// The line failed. The terminal still waits for the answer to its last block.
    Line(io::Error),
    /// As many blocks were sent as the caller allows. The terminal waits for the answer to one more block,
    /// which wasn't sent.
    UsedUp,
    /// The terminal refused the call. Nothing was sent, and nothing changed.
    Refused(TerminalFault),
}

/// Writes the name of the fault, and after it the inner fault, as in `Refused: Busy`.
impl Display for TransceiveFault {
    ghost use Rattle.line_core.specs.Names.{transceive_fault_text};

    ghost output = { transceive_fault_text };

    fn fmt<W: Write>(&self, f: &mut Formatter<W>) -> fmt::Result {
        match self {
            TransceiveFault::GivenUp => f.write_str("GivenUp"),
            TransceiveFault::Dead => f.write_str("Dead"),
            TransceiveFault::Line(error) => write!(f, "Line: {error}"),
            TransceiveFault::UsedUp => f.write_str("UsedUp"),
            TransceiveFault::Refused(fault) => write!(f, "Refused: {fault}"),
        }
    }
}

impl Error for TransceiveFault {}

impl From<TerminalFault> for TransceiveFault {
    ghost from_gives = { λ fault made. made ≡ Refused fault };

    fn from(fault: TerminalFault) -> TransceiveFault {
        TransceiveFault::Refused(fault)
    }
}
