//! Why there is no exchange of a session.

use exchange_core::{AtrFault, RecorderFault};
use std::alloc::AllocError;
use std::error::Error;
use std::fmt::{self, Display, Formatter, Write};

/// Why there is no exchange of a session.
#[derive(Clone, Copy, Debug, PartialEq, Eq)]
pub enum SimulationFault {
    /// The answer to reset can't be used, with the fault that replay names.
    Refused(AtrFault),
    /// The session didn't end before so many events that its text has too many octets.
    TooLarge,
    /// Out of memory.
    Memory,
}

/// `Refused: ` and the name that replay uses, `TooLarge`, or `memory`.
impl Display for SimulationFault {
    ghost use Rattle.std.specs.Prelude.{Some};
    ghost use Rattle.simulator.specs.Faults.{simulation_fault_text};

    ghost output = { λ fault. Some (simulation_fault_text fault) };

    fn fmt<W: Write>(&self, f: &mut Formatter<W>) -> fmt::Result {
        match self {
            SimulationFault::Refused(fault) => write!(f, "Refused: {fault}"),
            SimulationFault::TooLarge => f.write_str("TooLarge"),
            SimulationFault::Memory => f.write_str("memory"),
        }
    }
}

impl Error for SimulationFault {}

impl From<AllocError> for SimulationFault {
    ghost use Rattle.std.specs.Prelude.{◌≡◌};
    ghost use Rattle.simulator.specs.declared.fault.SimulationFault.{SimulationFault};

    ghost from_gives = { λ _ fault. fault ≡ SimulationFault.Memory };

    fn from(_error: AllocError) -> SimulationFault {
        SimulationFault::Memory
    }
}

impl From<RecorderFault> for SimulationFault {
    ghost use Rattle.std.specs.Prelude.{◌≡◌};
    ghost use Rattle.simulator.specs.Faults.{simulation_fault};

    ghost from_gives = { λ why fault. fault ≡ simulation_fault why };

    fn from(fault: RecorderFault) -> SimulationFault {
        match fault {
            RecorderFault::Refused(fault) => SimulationFault::Refused(fault),
            RecorderFault::Memory => SimulationFault::Memory,
        }
    }
}
