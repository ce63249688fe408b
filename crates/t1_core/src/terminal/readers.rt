//! The state of a terminal, for a driver and for a person who looks at a session that hangs. It shows no octet of a
//! message.

ghost use Rattle.std.specs.Prelude.{◌≡◌, ◌≤◌, List, ℕ, length, is_some};
ghost use Rattle.t1_core.specs.Views.{terminal_held, IsSlice};
ghost use Rattle.t1_core.specs.Shown.{octets_of_answer};
ghost use Rattle.t1_core.specs.Awaited.{awaited_by_terminal, terminal_awaits_block, is_dead};

use crate::lent::LentTerminal;
use crate::shown::{Sizes, TerminalMessages};
use crate::terminal::Terminal;
use crate::turns::{TerminalAwaits, TerminalWait};
use std::fmt;

impl Terminal {
    /// Returns the most octets of an information field that the card takes now, 1 to 254.
    pub fn ifsc(&self) -> u8
        ensures { result ≡ self.now.ifsc }
    {
        self.state.ifsc
    }

    /// Returns the most octets of an information field that the terminal takes now, 1 to 254. Make the `BlockReader`
    /// for the card's blocks with this size.
    ///
    /// It changes at the turn `IfsSet`, and is [`FIRST_IFSD`](crate::FIRST_IFSD) again after `GivenUp`.
    pub fn ifsd(&self) -> u8
        ensures { result ≡ self.now.ifsd }
    {
        self.state.ifsd
    }

    /// Returns what the terminal waits for.
    pub fn awaits(&self) -> TerminalAwaits
        ensures { result ≡ awaited_by_terminal self.now.waits }
    {
        self.state.awaits()
    }

    /// Whether the terminal waits for a block. If so, the next call is `received`, or `quiet` if no block comes in
    /// time.
    pub fn awaits_block(&self) -> bool
        ensures { result ≡ terminal_awaits_block self.now.waits }
    {
        self.state.awaits_block()
    }

    /// Returns the failures in a row: blocks that were sent again, or asked for again, since the last progress.
    ///
    /// After [`MOST_REPEATS`](crate::MOST_REPEATS) the next failure leads to RESYNCH.
    pub fn failures(&self) -> u8
        ensures { result ≡ self.now.failures }
    {
        self.state.failures
    }

    /// Whether the terminal found the card dead. Only `reset` helps then.
    pub fn is_dead(&self) -> bool
        ensures { result ≡ is_dead self.now.waits }
    {
        self.state.is_dead()
    }

    /// Returns the most octets of a command that the terminal takes. It has room for them.
    pub fn most_command(&self) -> usize
        ensures { result ≡ self.now.limits.command }
    {
        self.state.most_command
    }

    /// Returns the most octets of an answer that the terminal takes.
    pub fn most_answer(&self) -> usize
        ensures { result ≡ self.now.limits.answer }
    {
        self.state.most_answer
    }
}

impl LentTerminal {
    /// Returns what the terminal waits for.
    pub fn awaits(&self) -> TerminalAwaits
        ensures { (command answer_buffer : List ℕ)
            → result ≡ awaited_by_terminal (terminal_held self.now command answer_buffer).waits }
    {
        match self.wait {
            TerminalWait::Idle => TerminalAwaits::Call,
            TerminalWait::Ack(_) => TerminalAwaits::Acknowledgement,
            TerminalWait::Answer(_) => TerminalAwaits::Answer,
            TerminalWait::More => TerminalAwaits::MoreAnswer,
            TerminalWait::Ifs(size) => TerminalAwaits::Size(size),
            TerminalWait::Resynch(asked) => TerminalAwaits::Resynch(asked),
            TerminalWait::Dead => TerminalAwaits::Nothing,
        }
    }

    /// Whether the terminal waits for a block, as [`Terminal::awaits_block`] returns it.
    pub fn awaits_block(&self) -> bool
        ensures { (command answer_buffer : List ℕ)
            → result ≡ terminal_awaits_block (terminal_held self.now command answer_buffer).waits }
    {
        match self.wait {
            TerminalWait::Idle | TerminalWait::Dead => false,
            TerminalWait::Ack(_)
            | TerminalWait::Answer(_)
            | TerminalWait::More
            | TerminalWait::Ifs(_)
            | TerminalWait::Resynch(_) => true,
        }
    }

    /// Whether the terminal found the card dead.
    pub fn is_dead(&self) -> bool
        ensures { (command answer_buffer : List ℕ)
            → result ≡ is_dead (terminal_held self.now command answer_buffer).waits }
    {
        matches!(self.wait, TerminalWait::Dead)
    }

    /// Returns the answer in its buffer, as [`Terminal::answer`] does.
    pub fn answer<'a>(&self, answer_buffer: &'a [u8]) -> Option<&'a [u8]>
        requires { self.now.answer_len ≤ length answer_buffer.now }
        ensures { (command : List ℕ)
            → IsSlice result (terminal_held self.now command answer_buffer.now).answered }
    {
        if self.is_answered {
            Some(&answer_buffer[..self.answer_len])
        } else {
            None
        }
    }
}

impl Terminal {
    /// Returns how many octets of a command the terminal holds.
    fn command_octets(&self) -> usize
        ensures { result ≡ length self.now.command }
    {
        self.command.as_slice()[..self.state.command_len].len()
    }

    /// Returns how many octets of the answer came so far, or how many the whole answer has.
    fn answer_octets(&self) -> usize
        ensures { result ≡ octets_of_answer self.now.answered self.now.waits }
    {
        let held = self.answer.as_slice()[..self.state.answer_len].len();
        match self.state.wait {
            _ if self.state.is_answered => held,
            TerminalWait::More => held,
            TerminalWait::Idle
            | TerminalWait::Ack(_)
            | TerminalWait::Answer(_)
            | TerminalWait::Ifs(_)
            | TerminalWait::Resynch(_)
            | TerminalWait::Dead => 0,
        }
    }

    /// Whether there is a whole answer.
    fn is_answered(&self) -> bool
        ensures { result ≡ is_some self.now.answered }
    {
        self.state.is_answered
    }

    /// Returns the numbers and the sizes that the terminal prints.
    fn sizes(&self) -> Sizes
        ensures number { result.number ≡ self.now.number }
        ensures expected { result.expected ≡ self.now.expected }
        ensures ifsc { result.ifsc ≡ self.now.ifsc }
        ensures ifsd { result.ifsd ≡ self.now.ifsd }
    {
        Sizes {
            number: self.state.number,
            expected: self.state.expected,
            ifsc: self.state.ifsc,
            ifsd: self.state.ifsd,
        }
    }

    /// Returns what the terminal prints about its messages.
    fn messages(&self) -> TerminalMessages
        ensures command { result.command ≡ length self.now.command }
        ensures answer { result.answer ≡ octets_of_answer self.now.answered self.now.waits }
        ensures is_answered { result.is_answered ≡ is_some self.now.answered }
        ensures most_command { result.most_command ≡ self.now.limits.command }
        ensures most_answer { result.most_answer ≡ self.now.limits.answer }
    {
        TerminalMessages {
            command: self.command_octets(),
            answer: self.answer_octets(),
            is_answered: self.is_answered(),
            most_command: self.most_command(),
            most_answer: self.most_answer(),
        }
    }
}

/// Prints states, sizes, limits and how many octets are held. A command may carry a PIN, so no octet is shown.
impl fmt::Debug for Terminal {
    ghost use Rattle.std.specs.Prelude.{Some};
    ghost use Rattle.t1_core.specs.Shown.{terminal_text};

    ghost debug_output = { λ t. Some (terminal_text t) };

    fn fmt<W: fmt::Write>(&self, f: &mut fmt::Formatter<W>) -> fmt::Result {
        let awaits = self.awaits();
        let failures = self.failures();
        let sizes = self.sizes();
        let messages = self.messages();
        write!(
            f,
            "Terminal {{ awaits: {awaits:?}, failures: {failures}, {sizes}, {messages} }}"
        )
    }
}
