//! What may happen to two ends on a line, and the results.

ghost use Rattle.std.specs.Prelude.{◌≡◌};
ghost use Rattle.exchange_core.specs.declared.event.EventFault.TheVariants.{Memory};

use crate::params::AtrFault;
use std::alloc::AllocError;
use std::error::Error;
use std::fmt::{self, Debug, Display, Formatter, Write};
use t1_core::{CardFault, CardTurn, TerminalFault, TerminalTurn};

/// What may happen next on the line or at an end of it. The octets are borrowed.
#[derive(Clone, Copy)]
pub enum Event<'a> {
    /// The block on the line arrives as it was sent.
    Deliver,
    /// The block arrives with its last octet changed. To its receiver it is damaged.
    Damage,
    /// The block arrives with node address 01 and a check octet that fits. To its receiver it is invalid.
    Spoil,
    /// The block is lost, and the terminal's waiting time ends.
    Lose,
    /// The application passes the terminal this command.
    Transmit(&'a [u8]),
    /// The application asks the card for information fields of up to so many octets.
    AskIfsd(u8),
    /// The card's host replies with these octets.
    Reply(&'a [u8]),
    /// The card's host asks for so many times the waiting time.
    MoreTime(u8),
    /// The card's host asks the terminal for information fields of up to so many octets.
    AskIfsc(u8),
}

/// Prints what happens, and how many octets a message has. It shows none of them, since a message may carry a PIN.
impl Debug for Event<'_> {
    fn fmt<W: Write>(&self, f: &mut Formatter<W>) -> fmt::Result {
        match self {
            Event::Deliver => f.write_str("Deliver"),
            Event::Damage => f.write_str("Damage"),
            Event::Spoil => f.write_str("Spoil"),
            Event::Lose => f.write_str("Lose"),
            Event::Transmit(command) => {
                let octets = command.len();
                write!(f, "Transmit({octets} octets)")
            }
            Event::AskIfsd(size) => write!(f, "AskIfsd({size})"),
            Event::Reply(reply) => {
                let octets = reply.len();
                write!(f, "Reply({octets} octets)")
            }
            Event::MoreTime(times) => write!(f, "MoreTime({times})"),
            Event::AskIfsc(size) => write!(f, "AskIfsc({size})"),
        }
    }
}

/// Why an event changed nothing and wrote nothing.
#[derive(Clone, Copy, Debug, PartialEq, Eq)]
pub enum EventFault {
    /// No block is on the line.
    NothingUnderWay,
    /// The terminal refused the call.
    Terminal(TerminalFault),
    /// The card refused the call.
    Card(CardFault),
    /// Memory for the record ran out.
    Memory,
}

/// The fault's name. After that of an end comes the name of the end's fault, as in `Terminal: Busy`. Out of memory it
/// is `memory`.
impl Display for EventFault {
    ghost use Rattle.std.specs.Prelude.{Some};
    ghost use Rattle.exchange_core.specs.Faults.{event_fault_text};

    ghost output = { λ fault. Some (event_fault_text fault) };

    fn fmt<W: Write>(&self, f: &mut Formatter<W>) -> fmt::Result {
        match self {
            EventFault::NothingUnderWay => f.write_str("NothingUnderWay"),
            EventFault::Terminal(fault) => write!(f, "Terminal: {fault}"),
            EventFault::Card(fault) => write!(f, "Card: {fault}"),
            EventFault::Memory => f.write_str("memory"),
        }
    }
}

impl Error for EventFault {}

impl From<AllocError> for EventFault {
    ghost from_gives = { λ _ fault. fault ≡ Memory };

    fn from(_error: AllocError) -> EventFault {
        EventFault::Memory
    }
}

/// Why there is no recorder.
#[derive(Clone, Copy, Debug, PartialEq, Eq)]
pub enum RecorderFault {
    /// The answer to reset can't be used, with the fault that replay names.
    Refused(AtrFault),
    /// Out of memory.
    Memory,
}

/// `Refused: ` and the name that replay uses, or `memory`.
impl Display for RecorderFault {
    ghost use Rattle.std.specs.Prelude.{Some};
    ghost use Rattle.exchange_core.specs.Faults.{recorder_fault_text};

    ghost output = { λ fault. Some (recorder_fault_text fault) };

    fn fmt<W: Write>(&self, f: &mut Formatter<W>) -> fmt::Result {
        match self {
            RecorderFault::Refused(fault) => write!(f, "Refused: {fault}"),
            RecorderFault::Memory => f.write_str("memory"),
        }
    }
}

impl Error for RecorderFault {}

impl From<AllocError> for RecorderFault {
    ghost use Rattle.exchange_core.specs.declared.event.RecorderFault.{RecorderFault};

    ghost from_gives = { λ _ fault. fault ≡ RecorderFault.Memory };

    fn from(_error: AllocError) -> RecorderFault {
        RecorderFault::Memory
    }
}

/// The result of the last event: the turn of the end that it called.
#[derive(Debug, PartialEq, Eq, Drop)]
pub enum LastTurn {
    /// Nothing has happened yet.
    Nothing,
    /// The terminal's turn.
    Terminal(TerminalTurn),
    /// The card's turn.
    Card(CardTurn),
}
