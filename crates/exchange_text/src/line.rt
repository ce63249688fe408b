//! The lines of an exchange.

ghost use Rattle.std.specs.Prelude.{◌≡◌, IfOk};
ghost use Rattle.exchange_text.specs.Exchange as exchange;
ghost use Rattle.exchange_text.specs.Exchange.{added_note, arrived};

use octet_core::{Listed, Octets, Text};
use std::alloc::{AllocError, Global};

/// The text of the note before a line that says what nobody saw.
const ADDED: &str = "added";

/// How a block arrived.
#[derive(Debug, PartialEq, Eq, Drop)]
pub enum Arrival {
    /// As it was sent.
    Whole,
    /// It didn't arrive.
    Lost,
    /// As these octets instead.
    Changed(Octets),
}

impl Arrival {
    /// Returns the octets that arrive if these were sent; none for a lost block.
    pub fn octets<'a>(&'a self, sent: &'a Octets) -> &'a [u8]
        ensures { result.now ≡ arrived sent.now self.now }
    {
        match self {
            Arrival::Whole => sent.get(),
            Arrival::Lost => &[],
            Arrival::Changed(octets) => octets.get(),
        }
    }
}

/// One line of an exchange.
#[derive(Debug, PartialEq, Eq, Drop)]
pub enum Line {
    /// The application passes the terminal a command.
    Command(Octets),
    /// The application asks the card for information fields of up to so many octets.
    Ifsd(u8),
    /// Nothing came to the terminal within its waiting time.
    Quiet,
    /// The terminal returns this answer to the application.
    Answer(Octets),
    /// The card accepted the information size that the application asked for.
    IfsSet,
    /// The terminal gave up its exchange or its question, after RESYNCH.
    GivenUp,
    /// The terminal found the card dead.
    Dead,
    /// The card's host replies with these octets.
    Reply(Octets),
    /// The card's host asks for so many times the waiting time.
    Time(u8),
    /// The card's host asks the terminal for information fields of up to so many octets.
    Ifsc(u8),
    /// The card passes its host this command.
    Asked(Octets),
    /// The terminal sends a block.
    FromTerminal { sent: Octets, arrival: Arrival },
    /// The card sends a block.
    FromCard { sent: Octets, arrival: Arrival },
    /// So many microseconds have passed since the start. Only version 2 has this line.
    Moment(u64),
    /// A remark, 1 to 200 characters from 20 to 7E. Only version 2 has this line.
    Note(Text),
}

impl Line {
    /// Returns the line `note added`, which comes before a line that says what nobody saw.
    pub fn added(alloc: Global) -> Result<Line, AllocError>
        ensures { IfOk result (λ line. line ≡ added_note) }
    {
        Ok(Line::Note(Text::of(String::from_str(alloc, ADDED)?)))
    }

    /// Whether it is the line `note added`.
    pub fn is_added(&self) -> bool
        ensures { result ≡ exchange.is_added self.now }
    {
        match self {
            Line::Note(text) => text.get() == ADDED,
            _ => false,
        }
    }
}

/// Lines in order, which contracts see as a list.
pub type Lines = Listed<Line>;
