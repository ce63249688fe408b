//! What a call of an end returns, and what an end waits for.

ghost use Rattle.std.specs.Prelude.{◌≡◌, ◌≤◌};
ghost use Rattle.t1_core.specs.Waiting.{granted, waiting_times};

use crate::sending::Short;
use block_core::{Block, Pcb, S};
use octet_core::Named;
use std::error::Error;
use std::fmt::{self, Debug, Display, Formatter, Write};

/// What the terminal does next.
#[derive(Debug, PartialEq, Eq, Drop)]
pub enum TerminalTurn {
    /// Send this block, and wait for the card.
    Send(Block),
    /// The answer is complete, and `answer` has it.
    Answered,
    /// The card accepted the information size that the terminal asked for.
    IfsSet,
    /// Both ends were resynchronized. The exchange, or the question about a size, is given up.
    GivenUp,
    /// The card doesn't answer any more, not even RESYNCH.
    Dead,
}

impl TerminalTurn {
    /// Returns how many block waiting times pass after this turn before `quiet` is called.
    ///
    /// That is the multiple that this turn grants the card, else 1. A multiple of 0 counts as 1. One block waiting time
    /// is `T1Params::bwt` (ISO/IEC 7816-3, clause 11.4).
    pub fn waiting(&self) -> u8
        ensures times { result ≡ waiting_times self.now }
        ensures least { 1 ≤ result }
    {
        match self {
            TerminalTurn::Send(block) => granted(block.pcb(), block.inf()),
            _ => 1,
        }
    }
}

/// Returns the multiple that a block of this kind with this field grants, or 1 if it grants none.
pub(crate) fn granted(pcb: Pcb, inf: &[u8]) -> u8
    ensures times { result ≡ granted pcb inf.now }
    ensures least { 1 ≤ result }
{
    match (pcb, inf) {
        (Pcb::Response(S::Wtx), &[multiple]) if multiple > 0 => multiple,
        _ => 1,
    }
}

/// What the terminal does next, with the octets of its block in the caller's buffer.
#[derive(Clone, Copy, Debug, PartialEq, Eq)]
pub enum EncodedTerminalTurn {
    /// Send the first `count` octets of the buffer, 4 to 258, and wait for the card. `waiting` is as
    /// [`TerminalTurn::waiting`] returns it.
    Send { count: usize, waiting: u8 },
    /// The answer is complete, and `answer` has it.
    Answered,
    /// The card accepted the information size that the terminal asked for.
    IfsSet,
    /// Both ends were resynchronized. The exchange, or the question about a size, is given up.
    GivenUp,
    /// The card doesn't answer any more, not even RESYNCH.
    Dead,
}

/// Why the terminal refused a call. A refused call changes nothing.
#[derive(Clone, Copy, Debug, PartialEq, Eq)]
pub enum TerminalFault {
    /// The terminal found the card dead.
    Dead,
    /// An exchange, or a question about a size, is in progress.
    Busy,
    /// The command has more octets than the terminal has room for.
    TooLong,
    /// The sizes 0 and 255 are reserved.
    Reserved,
    /// The terminal doesn't wait for a block.
    Idle,
}

impl Named for TerminalFault {
    ghost use Rattle.t1_core.specs.Names.{terminal_fault_name};

    ghost text = { terminal_fault_name };

    fn name(self) -> &'static str {
        match self {
            TerminalFault::Dead => "Dead",
            TerminalFault::Busy => "Busy",
            TerminalFault::TooLong => "TooLong",
            TerminalFault::Reserved => "Reserved",
            TerminalFault::Idle => "Idle",
        }
    }
}

/// The fault's name.
impl Display for TerminalFault {
    ghost use Rattle.std.specs.Prelude.{Some};
    ghost use Rattle.t1_core.specs.Names.{terminal_fault_name};

    ghost output = { λ fault. Some (terminal_fault_name fault) };

    fn fmt<W: Write>(&self, f: &mut Formatter<W>) -> fmt::Result {
        f.write_str(self.name())
    }
}

impl Error for TerminalFault {}

/// What the card does next.
#[derive(Debug, PartialEq, Eq, Drop)]
pub enum CardTurn {
    /// Send this block, and wait for the terminal.
    Send(Block),
    /// It is the host's turn: the host owes the reply to `command`.
    Asked,
}

/// What the card does next, with the octets of its block in the caller's buffer.
#[derive(Clone, Copy, Debug, PartialEq, Eq)]
pub enum EncodedCardTurn {
    /// Send so many octets from the front of the buffer, 4 to 258, and wait for the terminal.
    Send(usize),
    /// It is the host's turn: the host owes the reply to `command`.
    Asked,
}

/// Why the card refused a call. A refused call changes nothing.
#[derive(Clone, Copy, Debug, PartialEq, Eq)]
pub enum CardFault {
    /// The call belongs to the host's turn and it isn't, or a block came in the host's turn.
    Order,
    /// The reply has more octets than the card has room for.
    TooLong,
    /// The sizes 0 and 255 are reserved.
    Reserved,
}

impl Named for CardFault {
    ghost use Rattle.t1_core.specs.Names.{card_fault_name};

    ghost text = { card_fault_name };

    fn name(self) -> &'static str {
        match self {
            CardFault::Order => "Order",
            CardFault::TooLong => "TooLong",
            CardFault::Reserved => "Reserved",
        }
    }
}

/// The fault's name.
impl Display for CardFault {
    ghost use Rattle.std.specs.Prelude.{Some};
    ghost use Rattle.t1_core.specs.Names.{card_fault_name};

    ghost output = { λ fault. Some (card_fault_name fault) };

    fn fmt<W: Write>(&self, f: &mut Formatter<W>) -> fmt::Result {
        f.write_str(self.name())
    }
}

impl Error for CardFault {}

/// What the terminal waits for, without the octets that it holds.
#[derive(Clone, Copy, PartialEq, Eq)]
pub enum TerminalAwaits {
    /// A call: nothing is in progress.
    Call,
    /// The R-block that acknowledges an I-block of the command. That I-block isn't the command's last.
    Acknowledgement,
    /// The first I-block of the answer.
    Answer,
    /// A further I-block of the answer.
    MoreAnswer,
    /// The response to a question about this information size.
    Size(u8),
    /// The response to RESYNCH, after so many requests, 1 to [`MOST_RESYNCHS`](crate::MOST_RESYNCHS).
    Resynch(u8),
    /// Nothing any more: the terminal found the card dead.
    Nothing,
}

impl Debug for TerminalAwaits {
    ghost use Rattle.std.specs.Prelude.{Some};
    ghost use Rattle.t1_core.specs.Shown.{terminal_awaits_text};

    ghost debug_output = { λ awaits. Some (terminal_awaits_text awaits) };

    fn fmt<W: Write>(&self, f: &mut Formatter<W>) -> fmt::Result {
        match self {
            TerminalAwaits::Call => f.write_str("Call"),
            TerminalAwaits::Acknowledgement => f.write_str("Acknowledgement"),
            TerminalAwaits::Answer => f.write_str("Answer"),
            TerminalAwaits::MoreAnswer => f.write_str("MoreAnswer"),
            TerminalAwaits::Size(size) => write!(f, "Size({size})"),
            TerminalAwaits::Resynch(asked) => write!(f, "Resynch({asked})"),
            TerminalAwaits::Nothing => f.write_str("Nothing"),
        }
    }
}

/// What the card waits for, without the octets that it holds.
#[derive(Clone, Copy, PartialEq, Eq)]
pub enum CardAwaits {
    /// An I-block of a command.
    Command,
    /// A call of its host, which owes the reply to the command.
    Host,
    /// The R-block that acknowledges an I-block of the reply. That I-block isn't the reply's last.
    Acknowledgement,
    /// The response to its host's question about this information size.
    Size(u8),
    /// The response to its host's request for this multiple of the waiting time.
    Time(u8),
}

impl Debug for CardAwaits {
    ghost use Rattle.std.specs.Prelude.{Some};
    ghost use Rattle.t1_core.specs.Shown.{card_awaits_text};

    ghost debug_output = { λ awaits. Some (card_awaits_text awaits) };

    fn fmt<W: Write>(&self, f: &mut Formatter<W>) -> fmt::Result {
        match self {
            CardAwaits::Command => f.write_str("Command"),
            CardAwaits::Host => f.write_str("Host"),
            CardAwaits::Acknowledgement => f.write_str("Acknowledgement"),
            CardAwaits::Size(size) => write!(f, "Size({size})"),
            CardAwaits::Time(multiple) => write!(f, "Time({multiple})"),
        }
    }
}

/// Where the present I-block begins in its message, and the information size at which it was cut.
#[derive(Clone, Copy, Debug, PartialEq, Eq)]
pub struct Cut {
    pub place: usize,
    pub size: u8,
}

/// What the terminal waits for.
#[derive(Clone, Copy, Debug, PartialEq, Eq)]
pub enum TerminalWait {
    /// A call.
    Idle,
    /// The acknowledgment of this I-block of the command, which isn't its last.
    Ack(Cut),
    /// The answer, after this last I-block of the command.
    Answer(Cut),
    /// The next block of the answer, after what was joined.
    More,
    /// The response to a question about this size.
    Ifs(u8),
    /// The response to RESYNCH, after so many requests.
    Resynch(u8),
    /// Nothing: the card doesn't answer any more.
    Dead,
}

/// What the card asked the terminal for, for its host.
#[derive(Clone, Copy, Debug, PartialEq, Eq)]
pub enum CardAsked {
    /// The information size that the card will take.
    Size(u8),
    /// A multiple of the waiting time.
    Time(u8),
}

impl CardAsked {
    ghost use Rattle.t1_core.specs.CardViews.{request_of, IsRequest};
    ghost use Rattle.t1_core.specs.Card.{request_block};

    /// Returns the S-block that asks for it.
    pub(crate) fn block(self) -> Short
        requires { IsRequest self }
        ensures { result ≡ request_block (request_of self) }
    {
        match self {
            CardAsked::Size(size) => Short::request(S::Ifs, &[size]),
            CardAsked::Time(multiple) => Short::request(S::Wtx, &[multiple]),
        }
    }
}

/// What the card waits for.
#[derive(Clone, Copy, Debug, PartialEq, Eq)]
pub enum CardWait {
    /// The first block of a command.
    Command,
    /// A further block of the command that came so far.
    Joining,
    /// Its host, which owes a reply.
    Host,
    /// The acknowledgment of this I-block of the reply, which isn't its last.
    Reply(Cut),
    /// The response to a request. The host still owes its reply.
    Asking(CardAsked),
}
