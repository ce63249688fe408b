//! The session of a terminal in one struct, over buffers that its caller lends.

ghost use Rattle.std.specs.Prelude.{◌≡◌, ◌≤◌, List, [], ℕ, length, take, replicate, IfErr};
ghost use Rattle.t1_core.specs.Came.{quiet};
ghost use Rattle.t1_core.specs.Terminal.{terminal_with, at_most, transmit, ask_ifs, takes};
ghost use Rattle.t1_core.specs.Views.{terminal_held, IsLentTerminal};
ghost use Rattle.line_core.specs.Bursts.{HasHeard};
ghost use Rattle.session_core.specs.declared.lines.Start.TheVariants.{Clear, Exchange};
ghost use Rattle.session_core.specs.Wire.{ruled, seen, fresh};
ghost use Rattle.session_core.specs.Lines.{stepped};
ghost use Rattle.session_core.specs.Setup.{no_limits};
ghost use Rattle.session_core.specs.Terminals.{TurnsTo, IsStepped, asking_resynch};

use crate::action::Action;
use crate::lines::Line;
use crate::progress::Rules;
use crate::setup::Limits;
use crate::terminal;
use atr_core::T1Params;
use t1_core::{LentTerminal, TerminalFault};

/// The session of a terminal: the terminal, its line, and what the session knows of its own block.
///
/// The caller lends each call the two buffers of the terminal, and `out`, which has room for a block. The session's own
/// block is at the front of `out`, so the caller changes nothing there between two calls.
#[derive(Clone, Copy)]
pub struct TerminalSession {
    pub terminal: LentTerminal,
    pub line: Line,
    /// How many octets the session's own block has.
    pub own: u32,
}

impl TerminalSession {
    /// Returns the session of a new terminal that hasn't used its line yet, and overwrites both buffers with 0.
    ///
    /// [`Setup::rules`](crate::Setup::rules) has the rules of the line.
    pub fn new(
        params: T1Params,
        rules: &Rules,
        command: &mut [u8],
        answer: &mut [u8],
    ) -> TerminalSession
        ensures terminal { terminal_held result.terminal command.new answer.new
            ≡ terminal_with (at_most (length command.old) (length answer.old)) params.ifsc }
        ensures fit { IsLentTerminal result.terminal (length command.new) (length answer.new) }
        ensures command { command.new ≡ replicate (length command.old) 0 }
        ensures answer { answer.new ≡ replicate (length answer.old) 0 }
        ensures rules { result.line.rules ≡ rules.now }
        ensures progress { seen result.line.progress ≡ fresh (ruled rules.now) }
        ensures burst { HasHeard result.line.framer [] }
        ensures own { result.own ≡ 0 }
    {
        TerminalSession {
            terminal: LentTerminal::begin(params, command, answer),
            line: Line::new(rules),
            own: 0,
        }
    }

    /// Begins a new session in place of this one, as at the next reset of the card, and overwrites both buffers with 0.
    pub fn begin(&mut self, params: T1Params, rules: &Rules, command: &mut [u8], answer: &mut [u8])
        ensures terminal { terminal_held self.new.terminal command.new answer.new
            ≡ terminal_with (at_most (length command.old) (length answer.old)) params.ifsc }
        ensures fit { IsLentTerminal self.new.terminal (length command.new) (length answer.new) }
        ensures command { command.new ≡ replicate (length command.old) 0 }
        ensures answer { answer.new ≡ replicate (length answer.old) 0 }
        ensures rules { self.new.line.rules ≡ rules.now }
        ensures progress { seen self.new.line.progress ≡ fresh (ruled rules.now) }
        ensures burst { HasHeard self.new.line.framer [] }
        ensures own { self.new.own ≡ 0 }
    {
        self.terminal = LentTerminal::begin(params, command, answer);
        self.line.begin(rules);
        self.own = 0;
    }

    /// Begins to send a command, within these limits.
    pub fn exchange(
        &mut self,
        command: &mut [u8],
        answer: &[u8],
        octets: &[u8],
        limits: Limits,
        now: u64,
        out: &mut [u8],
    ) -> Result<Action, TerminalFault>
        requires room { 258 ≤ length out.old }
        requires fit { IsLentTerminal self.old.terminal (length command.old) (length answer.now) }
        ensures fit { IsLentTerminal self.new.terminal (length command.new) (length answer.now) }
        ensures turn { (burst : List ℕ) → HasHeard self.old.line.framer burst
            → TurnsTo (terminal_held self.old.terminal command.old answer.now) (transmit octets.now) Exchange limits
            self.old.line.rules (seen self.old.line.progress) burst now
            (terminal_held self.new.terminal command.new answer.now) self.new.line self.old.own self.new.own out.old
            out.new result }
        ensures refused { IfErr result (λ _. (self.new ≡ self.old) × (command.new ≡ command.old)) }
    {
        terminal::exchange(
            &mut self.terminal,
            &mut self.line,
            &mut self.own,
            limits,
            command,
            answer,
            octets,
            now,
            out,
        )
    }

    /// Begins to ask for a size, within these limits.
    pub fn ask_ifs(
        &mut self,
        command: &[u8],
        answer: &[u8],
        size: u8,
        limits: Limits,
        now: u64,
        out: &mut [u8],
    ) -> Result<Action, TerminalFault>
        requires room { 258 ≤ length out.old }
        requires fit { IsLentTerminal self.old.terminal (length command.now) (length answer.now) }
        ensures fit { IsLentTerminal self.new.terminal (length command.now) (length answer.now) }
        ensures turn { (burst : List ℕ) → HasHeard self.old.line.framer burst
            → TurnsTo (terminal_held self.old.terminal command.now answer.now) (ask_ifs size) Exchange limits
            self.old.line.rules (seen self.old.line.progress) burst now
            (terminal_held self.new.terminal command.now answer.now) self.new.line self.old.own self.new.own out.old
            out.new result }
        ensures refused { IfErr result (λ _. self.new ≡ self.old) }
    {
        terminal::ask_ifs(
            &mut self.terminal,
            &mut self.line,
            &mut self.own,
            limits,
            command,
            answer,
            size,
            now,
            out,
        )
    }

    /// Begins with a card that can't be reset: drops octets until the line is silent, and asks for RESYNCH (ISO/IEC
    /// 7816-3, clause 11.6.3.2). The session was just begun. No limit of an exchange applies.
    pub fn resynch(
        &mut self,
        command: &[u8],
        answer: &[u8],
        now: u64,
        out: &mut [u8],
    ) -> Result<Action, TerminalFault>
        requires room { 258 ≤ length out.old }
        requires fit { IsLentTerminal self.old.terminal (length command.now) (length answer.now) }
        ensures fit { IsLentTerminal self.new.terminal (length command.now) (length answer.now) }
        ensures turn { (burst : List ℕ) → HasHeard self.old.line.framer burst
            → TurnsTo (asking_resynch (terminal_held self.old.terminal command.now answer.now)) (takes quiet) Clear
            no_limits self.old.line.rules (seen self.old.line.progress) burst now
            (terminal_held self.new.terminal command.now answer.now) self.new.line self.old.own self.new.own out.old
            out.new result }
    {
        terminal::resynch(
            &mut self.terminal,
            &mut self.line,
            &mut self.own,
            command,
            answer,
            now,
            out,
        )
    }

    /// Takes what happened on the line, by its number, and returns what to do next.
    pub fn step(
        &mut self,
        command: &[u8],
        answer: &mut [u8],
        event: u8,
        octets: &[u8],
        now: u64,
        out: &mut [u8],
    ) -> Result<Action, TerminalFault>
        requires room { 258 ≤ length out.old }
        requires fit { IsLentTerminal self.old.terminal (length command.now) (length answer.old) }
        ensures fit { IsLentTerminal self.new.terminal (length command.now) (length answer.new) }
        ensures step { (burst : List ℕ) → HasHeard self.old.line.framer burst
            → IsStepped
            (stepped event (ruled self.old.line.rules) (seen self.old.line.progress) burst octets.now now
            (take self.old.own out.old)).next
            (stepped event (ruled self.old.line.rules) (seen self.old.line.progress) burst octets.now now
            (take self.old.own out.old))
            self.old.line.rules (terminal_held self.old.terminal command.now answer.old) now
            (terminal_held self.new.terminal command.now answer.new) self.new.line self.old.own self.new.own out.old
            out.new result }
    {
        terminal::step(
            &mut self.terminal,
            &mut self.line,
            &mut self.own,
            command,
            answer,
            event,
            octets,
            now,
            out,
        )
    }
}
