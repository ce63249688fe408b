//! The calls of the terminal that write the octets of a block into the caller's buffer.

ghost use Rattle.std.specs.Prelude.{◌≡◌, ◌≤◌, length, true, IfOk, IfErr, Err};
ghost use Rattle.block_core.specs.Block.{IsWhole};
ghost use Rattle.t1_core.specs.Came.{class_of, quiet};
ghost use Rattle.t1_core.specs.Put.{IsTerminalPut, FitsTerminalPut};
ghost use Rattle.t1_core.specs.Steps.{TerminalWrote};
ghost use Rattle.t1_core.specs.Sending.{terminal_answers};
ghost use Rattle.t1_core.specs.Views.{terminal_held, IsLentTerminal};
ghost use Rattle.t1_core.specs.Terminal.{takes, transmit, ask_ifs, terminal_turn};

use crate::lent::LentTerminal;
use crate::sending::TerminalAct;
use crate::terminal::Terminal;
use crate::turns::{EncodedTerminalTurn, TerminalFault, TerminalTurn, granted};

/// Each call does what the call without `_into` does, and refuses in the same order.
///
/// It encodes the block once, at the front of `out`, which has room for the longest block, 258 octets. The octets after
/// the block stay. If no block is sent, all of `out` stays.
impl Terminal {
    /// Takes a command, as `transmit` does.
    pub fn transmit_into(
        &mut self,
        command: &[u8],
        out: &mut [u8],
    ) -> Result<EncodedTerminalTurn, TerminalFault>
        requires room { 258 ≤ length out.old }
        ensures wrote { TerminalWrote (λ t. terminal_turn t (transmit command.now))
            self.old self.new out.old out.new result }
        ensures fits { IfOk result FitsTerminalPut }
    {
        self.state.transmit_into(
            self.command.as_mut_slice(),
            self.answer.as_slice(),
            command,
            out,
        )
    }

    /// Asks about a size, as `ask_ifs` does.
    pub fn ask_ifs_into(
        &mut self,
        size: u8,
        out: &mut [u8],
    ) -> Result<EncodedTerminalTurn, TerminalFault>
        requires room { 258 ≤ length out.old }
        ensures wrote { TerminalWrote (λ t. terminal_turn t (ask_ifs size))
            self.old self.new out.old out.new result }
        ensures fits { IfOk result FitsTerminalPut }
    {
        self.state
            .ask_ifs_into(self.command.as_slice(), self.answer.as_slice(), size, out)
    }

    /// Takes the octets of the line, as `received` does.
    pub fn received_into(
        &mut self,
        octets: &[u8],
        out: &mut [u8],
    ) -> Result<EncodedTerminalTurn, TerminalFault>
        requires room { 258 ≤ length out.old }
        ensures wrote { TerminalWrote (λ t. terminal_turn t (takes (class_of t.ifsd octets.now)))
            self.old self.new out.old out.new result }
        ensures fits { IfOk result FitsTerminalPut }
    {
        self.state.received_into(
            self.command.as_slice(),
            self.answer.as_mut_slice(),
            octets,
            out,
        )
    }

    /// Says that nothing came, as `quiet` does.
    pub fn quiet_into(&mut self, out: &mut [u8]) -> Result<EncodedTerminalTurn, TerminalFault>
        requires room { 258 ≤ length out.old }
        ensures wrote { TerminalWrote (λ t. terminal_turn t (takes quiet))
            self.old self.new out.old out.new result }
        ensures fits { IfOk result FitsTerminalPut }
    {
        self.state
            .quiet_into(self.command.as_slice(), self.answer.as_slice(), out)
    }
}

/// The same calls for a terminal whose caller owns the buffers. Each call gets the buffers as the call before left
/// them, with the same sizes.
impl LentTerminal {
    /// Takes a command, as `transmit` does.
    pub fn transmit_into(
        &mut self,
        command_buffer: &mut [u8],
        answer_buffer: &[u8],
        command: &[u8],
        out: &mut [u8],
    ) -> Result<EncodedTerminalTurn, TerminalFault>
        requires room { 258 ≤ length out.old }
        requires fit { IsLentTerminal self.old (length command_buffer.old)
            (length answer_buffer.now) }
        ensures wrote { TerminalWrote (λ t. terminal_turn t (transmit command.now))
            (terminal_held self.old command_buffer.old answer_buffer.now)
            (terminal_held self.new command_buffer.new answer_buffer.now) out.old out.new result }
        ensures fits { IfOk result FitsTerminalPut }
        ensures fit { IsLentTerminal self.new (length command_buffer.new)
            (length answer_buffer.now) }
        ensures refused { IfErr result
            (λ _. (self.new ≡ self.old) × (command_buffer.new ≡ command_buffer.old)) }
    {
        let acted = self.transmits(command_buffer, answer_buffer, command);
        self.put(command_buffer, answer_buffer, acted, out)
    }

    /// Asks about a size, as `ask_ifs` does.
    pub fn ask_ifs_into(
        &mut self,
        command_buffer: &[u8],
        answer_buffer: &[u8],
        size: u8,
        out: &mut [u8],
    ) -> Result<EncodedTerminalTurn, TerminalFault>
        requires room { 258 ≤ length out.old }
        requires fit { IsLentTerminal self.old (length command_buffer.now)
            (length answer_buffer.now) }
        ensures wrote { TerminalWrote (λ t. terminal_turn t (ask_ifs size))
            (terminal_held self.old command_buffer.now answer_buffer.now)
            (terminal_held self.new command_buffer.now answer_buffer.now) out.old out.new result }
        ensures fits { IfOk result FitsTerminalPut }
        ensures fit { IsLentTerminal self.new (length command_buffer.now)
            (length answer_buffer.now) }
        ensures refused { IfErr result (λ _. self.new ≡ self.old) }
    {
        let acted = self.asks_ifs(command_buffer, answer_buffer, size);
        self.put(command_buffer, answer_buffer, acted, out)
    }

    /// Takes the octets of the line, as `received` does.
    pub fn received_into(
        &mut self,
        command_buffer: &[u8],
        answer_buffer: &mut [u8],
        octets: &[u8],
        out: &mut [u8],
    ) -> Result<EncodedTerminalTurn, TerminalFault>
        requires room { 258 ≤ length out.old }
        requires fit { IsLentTerminal self.old (length command_buffer.now)
            (length answer_buffer.old) }
        ensures wrote { TerminalWrote (λ t. terminal_turn t (takes (class_of t.ifsd octets.now)))
            (terminal_held self.old command_buffer.now answer_buffer.old)
            (terminal_held self.new command_buffer.now answer_buffer.new) out.old out.new result }
        ensures fits { IfOk result FitsTerminalPut }
        ensures fit { IsLentTerminal self.new (length command_buffer.now)
            (length answer_buffer.new) }
        ensures refused { IfErr result
            (λ _. (self.new ≡ self.old) × (answer_buffer.new ≡ answer_buffer.old)) }
    {
        self.received_burst_into(command_buffer, answer_buffer, octets, false, out)
    }

    /// Takes the octets of the line, as `received` does. If `is_whole` is true, the caller already knows that they are as
    /// many as their LEN says, and that their LRC is right. Then they aren't read again for the LRC.
    pub fn received_burst_into(
        &mut self,
        command_buffer: &[u8],
        answer_buffer: &mut [u8],
        octets: &[u8],
        is_whole: bool,
        out: &mut [u8],
    ) -> Result<EncodedTerminalTurn, TerminalFault>
        requires whole { is_whole ≡ true → IsWhole octets.now }
        requires room { 258 ≤ length out.old }
        requires fit { IsLentTerminal self.old (length command_buffer.now)
            (length answer_buffer.old) }
        ensures wrote { TerminalWrote (λ t. terminal_turn t (takes (class_of t.ifsd octets.now)))
            (terminal_held self.old command_buffer.now answer_buffer.old)
            (terminal_held self.new command_buffer.now answer_buffer.new) out.old out.new result }
        ensures fits { IfOk result FitsTerminalPut }
        ensures fit { IsLentTerminal self.new (length command_buffer.now)
            (length answer_buffer.new) }
        ensures refused { IfErr result
            (λ _. (self.new ≡ self.old) × (answer_buffer.new ≡ answer_buffer.old)) }
    {
        let acted = self.takes(command_buffer, answer_buffer, octets, is_whole);
        self.put(command_buffer, answer_buffer, acted, out)
    }

    /// Says that nothing came, as `quiet` does.
    pub fn quiet_into(
        &mut self,
        command_buffer: &[u8],
        answer_buffer: &[u8],
        out: &mut [u8],
    ) -> Result<EncodedTerminalTurn, TerminalFault>
        requires room { 258 ≤ length out.old }
        requires fit { IsLentTerminal self.old (length command_buffer.now)
            (length answer_buffer.now) }
        ensures wrote { TerminalWrote (λ t. terminal_turn t (takes quiet))
            (terminal_held self.old command_buffer.now answer_buffer.now)
            (terminal_held self.new command_buffer.now answer_buffer.now) out.old out.new result }
        ensures fits { IfOk result FitsTerminalPut }
        ensures fit { IsLentTerminal self.new (length command_buffer.now)
            (length answer_buffer.now) }
        ensures refused { IfErr result (λ _. self.new ≡ self.old) }
    {
        let acted = self.hears_nothing(command_buffer, answer_buffer);
        self.put(command_buffer, answer_buffer, acted, out)
    }

    /// Returns what a call returns, and writes the octets of its block into the buffer.
    ///
    /// Inlined, so that the call's act is never kept in memory.
    #[inline(always)]
    fn put(
        &self,
        command_buffer: &[u8],
        answer_buffer: &[u8],
        acted: Result<TerminalAct, TerminalFault>,
        out: &mut [u8],
    ) -> Result<EncodedTerminalTurn, TerminalFault>
        requires room { 258 ≤ length out.old }
        requires fit { IsLentTerminal self.now (length command_buffer.now)
            (length answer_buffer.now) }
        ensures put { IsTerminalPut
            (terminal_answers (terminal_held self.now command_buffer.now answer_buffer.now) acted) out.old out.new
            result }
        ensures fits { IfOk result FitsTerminalPut }
        ensures refused { IfErr result (λ fault. acted ≡ Err fault) }
    {
        match acted {
            Ok(TerminalAct::Send(sent)) => {
                let block = self.lent(command_buffer, answer_buffer, &sent);
                let waiting = granted(block.pcb(), block.inf());
                let count = block.encode_into(out);
                Ok(EncodedTerminalTurn::Send { count, waiting })
            }
            Ok(TerminalAct::Answered) => Ok(EncodedTerminalTurn::Answered),
            Ok(TerminalAct::IfsSet) => Ok(EncodedTerminalTurn::IfsSet),
            Ok(TerminalAct::GivenUp) => Ok(EncodedTerminalTurn::GivenUp),
            Ok(TerminalAct::Dead) => Ok(EncodedTerminalTurn::Dead),
            Err(fault) => Err(fault),
        }
    }

    /// Returns what a call returns, with the block that it sends.
    pub(super) fn answered(
        &self,
        command_buffer: &[u8],
        answer_buffer: &[u8],
        acted: Result<TerminalAct, TerminalFault>,
    ) -> Result<TerminalTurn, TerminalFault>
        requires fit { IsLentTerminal self.now (length command_buffer.now)
            (length answer_buffer.now) }
        ensures { result ≡ terminal_answers
            (terminal_held self.now command_buffer.now answer_buffer.now) acted }
    {
        match acted {
            Ok(TerminalAct::Send(sent)) => {
                Ok(TerminalTurn::Send(self.lent(command_buffer, answer_buffer, &sent).to_block()))
            }
            Ok(TerminalAct::Answered) => Ok(TerminalTurn::Answered),
            Ok(TerminalAct::IfsSet) => Ok(TerminalTurn::IfsSet),
            Ok(TerminalAct::GivenUp) => Ok(TerminalTurn::GivenUp),
            Ok(TerminalAct::Dead) => Ok(TerminalTurn::Dead),
            Err(fault) => Err(fault),
        }
    }
}
