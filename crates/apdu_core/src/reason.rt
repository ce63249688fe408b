//! Refusals of APDUs.

use octet_core::Named;
use std::error::Error;
use std::fmt::{self, Display, Formatter, Write};

/// Why octets aren't a command APDU.
#[derive(Clone, Copy, Debug, PartialEq, Eq)]
pub enum CommandReason {
    /// The octet is after the last one that the length fields allow.
    Trailing,
}

impl Named for CommandReason {
    ghost use Rattle.apdu_core.specs.Names.{command_reason_name};

    ghost text = { command_reason_name };

    fn name(self) -> &'static str {
        match self {
            CommandReason::Trailing => "Trailing",
        }
    }
}

/// Writes the reason's name.
impl Display for CommandReason {
    ghost use Rattle.std.specs.Prelude.{Some};
    ghost use Rattle.apdu_core.specs.Names.{command_reason_name};

    ghost output = { λ reason. Some (command_reason_name reason) };

    fn fmt<W: Write>(&self, f: &mut Formatter<W>) -> fmt::Result {
        f.write_str(self.name())
    }
}

impl Error for CommandReason {}

/// Why octets aren't a response APDU.
#[derive(Clone, Copy, Debug, PartialEq, Eq)]
pub enum ResponseReason {
    /// The octet is at place 65,538, after the last one of the longest response.
    TooLong,
}

impl Named for ResponseReason {
    ghost use Rattle.apdu_core.specs.Names.{response_reason_name};

    ghost text = { response_reason_name };

    fn name(self) -> &'static str {
        match self {
            ResponseReason::TooLong => "TooLong",
        }
    }
}

/// Writes the reason's name.
impl Display for ResponseReason {
    ghost use Rattle.std.specs.Prelude.{Some};
    ghost use Rattle.apdu_core.specs.Names.{response_reason_name};

    ghost output = { λ reason. Some (response_reason_name reason) };

    fn fmt<W: Write>(&self, f: &mut Formatter<W>) -> fmt::Result {
        f.write_str(self.name())
    }
}

impl Error for ResponseReason {}
