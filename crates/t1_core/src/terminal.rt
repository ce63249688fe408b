//! The terminal: the end that begins each exchange, and asks for RESYNCH after its repeats failed.

ghost use Rattle.std.specs.Prelude.{◌≡◌, IfOk};
ghost use Rattle.t1_core.specs.Came.{class_of, quiet};
ghost use Rattle.t1_core.specs.Views.{IsSlice};
ghost use Rattle.t1_core.specs.Terminal.{takes, transmit, ask_ifs, at_most, new_terminal, terminal_with, terminal_turn, turn_of, state_after};

mod into;
mod readers;
mod resynching;
mod steps;
mod taking;

use crate::lent::LentTerminal;
use crate::turns::{TerminalFault, TerminalTurn};
use atr_core::T1Params;
use chain_core::{LONGEST_COMMAND, LONGEST_RESPONSE as LONGEST_ANSWER, Wiped, overwrite};
use std::alloc::{AllocError, Global};
use std::marker::Model;

/// The most octets of an information field that a terminal takes (IFSD) at the start of a session and after RESYNCH.
///
/// It holds until the card accepts another size (ISO/IEC 7816-3, clause 11.4).
pub const FIRST_IFSD: u8 = 32;

/// How many failures in a row a terminal meets by sending a block again, or an R-block.
///
/// The next failure leads to RESYNCH (ISO/IEC 7816-3, clause 11.6; the count is this project's).
pub const MOST_REPEATS: u8 = 3;

/// How many times in a row a terminal asks for RESYNCH before it finds the card dead (ISO/IEC 7816-3, clause 11.6; the
/// count is this project's).
pub const MOST_RESYNCHS: u8 = 3;

/// The terminal of a session with one card.
///
/// Contracts see its state, `TerminalState` in `specs/Terminal.antt`, and each call does what `terminal_turn` says
/// there. A refused call changes nothing (ISO/IEC 7816-3, clause 11.6).
///
/// Dropping a terminal overwrites its buffers before it frees their memory.
#[derive(Drop)]
pub struct Terminal {
    state: LentTerminal,
    command: Wiped,
    answer: Wiped,
}

impl Model for Terminal {
    ghost use Rattle.t1_core.specs.Terminal.{TerminalState};
    ghost use Rattle.chain_core.specs.Wiped.{held_in, count_in};
    ghost use Rattle.t1_core.specs.Views.{terminal_held, IsLentTerminal};

    ghost Value = { TerminalState };

    ghost view = { λ t. terminal_held t.state (held_in t.command) (held_in t.answer) };

    ghost invariant = { λ t. IsLentTerminal t.state (count_in t.command) (count_in t.answer) };
}

impl Terminal {
    /// Returns a new terminal, idle, with buffers for the longest command and answer.
    ///
    /// `Err` if memory runs out; no later call allocates. The terminal takes information fields of [`FIRST_IFSD`]
    /// octets, and the card those of IFSC.
    ///
    /// A new terminal and a new card begin together, at a reset of the card. If the terminal is new and its card isn't,
    /// the card may take the first command for a repeat of the last one. It doesn't pass it to its host then, and sends
    /// the last answer again, which looks like a good exchange.
    pub fn new(alloc: Global, params: T1Params) -> Result<Terminal, AllocError>
        ensures { IfOk result (λ terminal. terminal ≡ new_terminal params.ifsc) }
    {
        Terminal::with_limits(alloc, params, LONGEST_COMMAND, LONGEST_ANSWER)
    }

    /// Returns a new terminal with buffers for commands of at most `command` octets and answers of at most `answer`
    /// octets.
    ///
    /// `Err` if memory runs out; no later call allocates. Numbers above [`LONGEST_COMMAND`] or [`LONGEST_ANSWER`] count
    /// as these.
    ///
    /// `transmit` refuses a longer command as `TooLong`. The terminal answers a block of a longer answer as an error,
    /// until the exchange is given up.
    pub fn with_limits(
        alloc: Global,
        params: T1Params,
        command: usize,
        answer: usize,
    ) -> Result<Terminal, AllocError>
        ensures { IfOk result (λ terminal.
            terminal ≡ terminal_with (at_most command answer) params.ifsc) }
    {
        let command = Wiped::zeros(alloc, command.min(LONGEST_COMMAND))?;
        let answer = Wiped::zeros(alloc, answer.min(LONGEST_ANSWER))?;
        let state = LentTerminal::new(params, command.as_slice(), answer.as_slice());
        Ok(Terminal {
            state,
            command,
            answer,
        })
    }

    /// Begins a new session, from any state, even `Dead`. The terminal becomes a new one for a card with these
    /// parameters, with the same limits.
    ///
    /// It allocates nothing, and overwrites the octets that the terminal held. Call it only together with a reset of
    /// the card, as [`Terminal::new`] says.
    pub fn reset(&mut self, params: T1Params)
        ensures { self.new ≡ terminal_with self.old.limits params.ifsc }
    {
        overwrite(self.command.as_mut_slice());
        overwrite(self.answer.as_mut_slice());
        let command = &self.command.as_slice()[..self.state.most_command];
        let answer = &self.answer.as_slice()[..self.state.most_answer];
        self.state = LentTerminal::new(params, command, answer);
    }

    /// Returns the answer, from the turn `Answered` until the next command is accepted; else `None`.
    pub fn answer(&self) -> Option<&[u8]>
        ensures { IsSlice result self.now.answered }
    {
        self.state.answer(self.answer.as_slice())
    }

    /// Takes the application's command, sends its first I-block, and forgets an earlier answer.
    ///
    /// Refused as `Dead` or `Busy`. Then a command with more octets than the terminal has room for is refused as
    /// `TooLong`: more than 65,544 if `new` made the terminal.
    pub fn transmit(&mut self, command: &[u8]) -> Result<TerminalTurn, TerminalFault>
        ensures turn { result ≡ turn_of (terminal_turn self.old (transmit command.now)) }
        ensures state { self.new ≡ state_after self.old
            (terminal_turn self.old (transmit command.now)) }
    {
        let acted = self.state.transmits(
            self.command.as_mut_slice(),
            self.answer.as_slice(),
            command,
        );
        self.state
            .answered(self.command.as_slice(), self.answer.as_slice(), acted)
    }

    /// Asks the card to send information fields of up to `size` octets.
    ///
    /// Refused as `Dead` or `Busy`, and then as `Reserved` for the sizes 0 and 255.
    pub fn ask_ifs(&mut self, size: u8) -> Result<TerminalTurn, TerminalFault>
        ensures turn { result ≡ turn_of (terminal_turn self.old (ask_ifs size)) }
        ensures state { self.new ≡ state_after self.old (terminal_turn self.old (ask_ifs size)) }
    {
        let acted = self
            .state
            .asks_ifs(self.command.as_slice(), self.answer.as_slice(), size);
        self.state
            .answered(self.command.as_slice(), self.answer.as_slice(), acted)
    }

    /// Takes the octets that the line delivered as one block: a whole block, or the part that came before CWT passed
    /// without a further octet.
    ///
    /// `class_of` classes them under the size that the terminal takes. Refused as `Dead` or `Idle`; drop the octets
    /// then.
    pub fn received(&mut self, octets: &[u8]) -> Result<TerminalTurn, TerminalFault>
        ensures turn { result ≡ turn_of
            (terminal_turn self.old (takes (class_of self.old.ifsd octets.now))) }
        ensures state { self.new ≡ state_after self.old
            (terminal_turn self.old (takes (class_of self.old.ifsd octets.now))) }
    {
        let acted = self.state.takes(
            self.command.as_slice(),
            self.answer.as_mut_slice(),
            octets,
            false,
        );
        self.state
            .answered(self.command.as_slice(), self.answer.as_slice(), acted)
    }

    /// Says to the terminal that nothing came within the waiting time: `T1Params::bwt` times [`TerminalTurn::waiting`]
    /// of the last turn.
    ///
    /// If the first octets of a block came, call `received` instead. Refused as `Dead` or `Idle`.
    pub fn quiet(&mut self) -> Result<TerminalTurn, TerminalFault>
        ensures turn { result ≡ turn_of (terminal_turn self.old (takes quiet)) }
        ensures state { self.new ≡ state_after self.old (terminal_turn self.old (takes quiet)) }
    {
        let acted = self
            .state
            .hears_nothing(self.command.as_slice(), self.answer.as_slice());
        self.state
            .answered(self.command.as_slice(), self.answer.as_slice(), acted)
    }
}
