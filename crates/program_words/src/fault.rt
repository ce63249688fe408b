//! Why the program couldn't answer.

ghost use Rattle.std.specs.Prelude.{◌≡◌};
ghost use Rattle.program_words.specs.Texts.{fault_name, fault_text};
ghost use Rattle.program_words.specs.Faults.{fault_of_hex};

use octet_core::HexFault;
use std::alloc::AllocError;
use std::error::Error;
use std::fmt::{self, Display, Formatter, Write};

/// Why the program couldn't answer.
#[derive(Clone, Copy, Debug, PartialEq, Eq)]
pub enum Fault {
    /// The words don't have the form that the program takes.
    Words,
    /// A word that should be octets isn't hexadecimal.
    Hex,
    /// Memory couldn't grow.
    Memory,
    /// A call of the reader failed.
    Read,
    /// The reader had more octets than a file may have.
    TooLarge,
}

impl Fault {
    /// Returns the fault's name, which is a part of its line.
    pub fn name(self) -> &'static str
        ensures { result.now ≡ fault_name self }
    {
        let line = self.text();
        &line["fault: ".len()..line.len() - 1]
    }

    /// Returns the line that the program prints.
    pub fn text(self) -> &'static str
        ensures { result.now ≡ fault_text self }
    {
        match self {
            Fault::Words => "fault: words\n",
            Fault::Hex => "fault: hex\n",
            Fault::Memory => "fault: memory\n",
            Fault::Read => "fault: read\n",
            Fault::TooLarge => "fault: TooLarge\n",
        }
    }
}

/// Prints the line without its line feed.
impl Display for Fault {
    ghost use Rattle.std.specs.Prelude.{Some};
    ghost use Rattle.program_words.specs.Faults.{fault_shown};

    ghost output = { λ fault. Some (fault_shown fault) };

    fn fmt<W: Write>(&self, f: &mut Formatter<W>) -> fmt::Result {
        f.write_str(self.text().trim_end())
    }
}

impl Error for Fault {}

impl From<AllocError> for Fault {
    ghost use Rattle.program_words.specs.declared.fault.Fault.{Fault};

    ghost from_gives = { λ _ fault. fault ≡ Fault.Memory };

    fn from(_: AllocError) -> Fault {
        Fault::Memory
    }
}

impl From<HexFault> for Fault {
    ghost from_gives = { λ hex fault. fault ≡ fault_of_hex hex };

    fn from(fault: HexFault) -> Fault {
        match fault {
            HexFault::Odd | HexFault::Digit { .. } => Fault::Hex,
            HexFault::Memory => Fault::Memory,
        }
    }
}
