//! The account of the lines of a recorded exchange, in order.

ghost use Rattle.std.specs.Prelude.{◌≡◌, ◌+◌, ◌<◌, ◌^◌, IfOk, None};
ghost use Rattle.apdu_list.specs.Listing as listing;

use crate::numbers::{Numbers, with_number};
use crate::span::Span;
use exchange_text::{Arrival, Line};
use std::alloc::{AllocError, Global};

/// An unfinished exchange of command and answer.
#[derive(Drop)]
pub(crate) struct Begun {
    /// How many blocks were sent before it.
    pub(crate) before: usize,
    /// The numbers of its blocks that were lost.
    pub(crate) lost: Numbers,
    /// The numbers of its blocks that arrived damaged.
    pub(crate) damaged: Numbers,
}

/// The account of the lines so far.
#[derive(Drop)]
pub(crate) struct Account {
    /// How many commands the application passed.
    pub(crate) commands: usize,
    /// How many blocks both ends sent.
    pub(crate) sent: usize,
    /// The moments since the last exchange of command and answer ended.
    pub(crate) span: Span,
    /// The unfinished exchange, if any.
    pub(crate) begun: Option<Begun>,
}

impl Account {
    /// Returns the account before the first line.
    pub(crate) fn new() -> Account
        ensures { result ≡ listing.start }
    {
        Account {
            commands: 0,
            sent: 0,
            span: Span::Unknown,
            begun: None,
        }
    }

    /// Returns the account after a line.
    pub(crate) fn after(self, alloc: Global, line: &Line) -> Result<Account, AllocError>
        requires commands { self.commands + 1 < 2 ^ 64 }
        requires sent { self.sent + 1 < 2 ^ 64 }
        ensures { IfOk result (λ account. account ≡ listing.after self line.now) }
    {
        match line {
            Line::Command(_) => Ok(self.begin(alloc)),
            Line::Answer(_) | Line::GivenUp | Line::Dead => Ok(self.end()),
            Line::FromTerminal { arrival, .. } => self.send(arrival),
            Line::FromCard { arrival, .. } => self.send(arrival),
            Line::Moment(moment) => Ok(self.at(*moment)),
            _ => Ok(self),
        }
    }

    /// Begins the exchange of a command.
    fn begin(self, alloc: Global) -> Account
        requires { self.commands + 1 < 2 ^ 64 }
        ensures { result ≡ listing.begins self }
    {
        let begun = Begun {
            before: self.sent,
            lost: Numbers::of(Vec::new(alloc)),
            damaged: Numbers::of(Vec::new(alloc)),
        };
        Account {
            commands: self.commands + 1,
            sent: self.sent,
            span: self.span.from_last(),
            begun: Some(begun),
        }
    }

    /// Ends the unfinished exchange.
    fn end(self) -> Account
        ensures { result ≡ listing.ends self }
    {
        Account {
            commands: self.commands,
            sent: self.sent,
            span: Span::Unknown,
            begun: None,
        }
    }

    /// Counts a block that an end sends.
    fn send(self, arrival: &Arrival) -> Result<Account, AllocError>
        requires { self.sent + 1 < 2 ^ 64 }
        ensures { IfOk result (λ account. account ≡ listing.sends self arrival.now) }
    {
        let sent = self.sent + 1;
        let begun = with_block_in(self.begun, sent, arrival)?;
        Ok(Account {
            commands: self.commands,
            sent,
            span: self.span,
            begun,
        })
    }

    /// Adds a moment.
    fn at(self, moment: u64) -> Account
        ensures { result ≡ listing.comes self moment }
    {
        Account {
            commands: self.commands,
            sent: self.sent,
            span: self.span.until(moment),
            begun: self.begun,
        }
    }
}

/// Returns the unfinished exchange, if any, with the block of this number.
fn with_block_in(
    begun: Option<Begun>,
    number: usize,
    arrival: &Arrival,
) -> Result<Option<Begun>, AllocError>
    ensures { IfOk result (λ now. now ≡ listing.with_block_in number arrival.now begun) }
{
    match begun {
        Some(begun) => Ok(Some(begun.with_block(number, arrival)?)),
        None => Ok(None),
    }
}

impl Begun {
    /// Returns the exchange with the block of this number.
    fn with_block(self, number: usize, arrival: &Arrival) -> Result<Begun, AllocError>
        ensures { IfOk result (λ begun. begun ≡ listing.with_block number arrival.now self) }
    {
        match arrival {
            Arrival::Whole => Ok(self),
            Arrival::Lost => Ok(Begun {
                before: self.before,
                lost: with_number(self.lost, number)?,
                damaged: self.damaged,
            }),
            Arrival::Changed(_) => Ok(Begun {
                before: self.before,
                lost: self.lost,
                damaged: with_number(self.damaged, number)?,
            }),
        }
    }
}
