//! What the terminal does at each call, and the block that it sends, from what it keeps.

ghost use Rattle.std.specs.Prelude.{◌≡◌, ◌≤◌, length, drop, true, false, IfErr, Ok};
ghost use Rattle.block_core.specs.Block.{IsWhole};
ghost use Rattle.t1_core.specs.Came.{class_of, quiet, info};
ghost use Rattle.t1_core.specs.Views.{terminal_held, IsLentTerminal};
ghost use Rattle.t1_core.specs.Sending.{field_sent, terminal_sends};
ghost use Rattle.t1_core.specs.Terminal.{takes, transmit, ask_ifs, terminal_turn, sends_next};
ghost use Rattle.t1_core.specs.Steps.{TerminalTook};

use crate::class::classify;
use crate::cutting::field_in;
use crate::guards::if_idle;
use crate::lent::LentTerminal;
use crate::sending::{Sent, Short, TerminalAct};
use crate::turns::{Cut, TerminalFault, TerminalWait};
use block_core::{BlockRef, Fault, Pcb, S};
use chain_core::append;
use octet_core::is_reserved;

impl LentTerminal {
    /// Takes a command.
    pub(super) fn transmits(
        &mut self,
        command_buffer: &mut [u8],
        answer_buffer: &[u8],
        command: &[u8],
    ) -> Result<TerminalAct, TerminalFault>
        requires fit { IsLentTerminal self.old (length command_buffer.old)
            (length answer_buffer.now) }
        ensures fit { IsLentTerminal self.new (length command_buffer.new)
            (length answer_buffer.now) }
        ensures took { TerminalTook (λ t. terminal_turn t (transmit command.now))
            (terminal_held self.old command_buffer.old answer_buffer.now)
            (terminal_held self.new command_buffer.new answer_buffer.now) result }
        ensures refused { IfErr result
            (λ _. (self.new ≡ self.old) × (command_buffer.new ≡ command_buffer.old)) }
    {
        if_idle(self.wait)?;
        if command.len() > self.most_command {
            return Err(TerminalFault::TooLong);
        }
        self.command_len = append(command_buffer, 0, command);
        self.failures = 0;
        self.is_answered = false;
        Ok(self.sends_from(command_buffer, answer_buffer, 0))
    }

    /// Asks for a size.
    pub(super) fn asks_ifs(
        &mut self,
        command_buffer: &[u8],
        answer_buffer: &[u8],
        size: u8,
    ) -> Result<TerminalAct, TerminalFault>
        requires fit { IsLentTerminal self.old (length command_buffer.now)
            (length answer_buffer.now) }
        ensures fit { IsLentTerminal self.new (length command_buffer.now)
            (length answer_buffer.now) }
        ensures took { TerminalTook (λ t. terminal_turn t (ask_ifs size))
            (terminal_held self.old command_buffer.now answer_buffer.now)
            (terminal_held self.new command_buffer.now answer_buffer.now) result }
        ensures refused { IfErr result (λ _. self.new ≡ self.old) }
    {
        if_idle(self.wait)?;
        if is_reserved(size) {
            return Err(TerminalFault::Reserved);
        }
        self.failures = 0;
        self.wait = TerminalWait::Ifs(size);
        Ok(TerminalAct::Send(Sent::Other(Short::request(S::Ifs, &[size]))))
    }

    /// Takes octets that came as one block. `is_whole` says that they are known to be whole.
    pub(super) fn takes(
        &mut self,
        command_buffer: &[u8],
        answer_buffer: &mut [u8],
        octets: &[u8],
        is_whole: bool,
    ) -> Result<TerminalAct, TerminalFault>
        requires whole { is_whole ≡ true → IsWhole octets.now }
        requires fit { IsLentTerminal self.old (length command_buffer.now)
            (length answer_buffer.old) }
        ensures fit { IsLentTerminal self.new (length command_buffer.now)
            (length answer_buffer.new) }
        ensures took { TerminalTook (λ t. terminal_turn t (takes (class_of t.ifsd octets.now)))
            (terminal_held self.old command_buffer.now answer_buffer.old)
            (terminal_held self.new command_buffer.now answer_buffer.new) result }
        ensures refused { IfErr result
            (λ _. (self.new ≡ self.old) × (answer_buffer.new ≡ answer_buffer.old)) }
    {
        let arrived = classify(octets, self.ifsd, is_whole);
        match self.wait {
            TerminalWait::Idle => Err(TerminalFault::Idle),
            TerminalWait::Dead => Err(TerminalFault::Dead),
            TerminalWait::Ack(cut) => Ok(self.ack_took(
                command_buffer,
                answer_buffer,
                cut,
                &arrived,
            )),
            TerminalWait::Answer(cut) => Ok(self.answer_took(
                command_buffer,
                answer_buffer,
                cut,
                &arrived,
            )),
            TerminalWait::More => Ok(self.more_took(command_buffer, answer_buffer, &arrived)),
            TerminalWait::Ifs(size) => Ok(self.ifs_took(
                command_buffer,
                answer_buffer,
                size,
                &arrived,
            )),
            TerminalWait::Resynch(asked) => Ok(self.resynch_took(
                command_buffer,
                answer_buffer,
                asked,
                &arrived,
            )),
        }
    }

    /// Takes that nothing came within the waiting time.
    pub(super) fn hears_nothing(
        &mut self,
        command_buffer: &[u8],
        answer_buffer: &[u8],
    ) -> Result<TerminalAct, TerminalFault>
        requires fit { IsLentTerminal self.old (length command_buffer.now)
            (length answer_buffer.now) }
        ensures fit { IsLentTerminal self.new (length command_buffer.now)
            (length answer_buffer.now) }
        ensures took { TerminalTook (λ t. terminal_turn t (takes quiet))
            (terminal_held self.old command_buffer.now answer_buffer.now)
            (terminal_held self.new command_buffer.now answer_buffer.now) result }
        ensures refused { IfErr result (λ _. self.new ≡ self.old) }
    {
        match self.wait {
            TerminalWait::Idle => Err(TerminalFault::Idle),
            TerminalWait::Dead => Err(TerminalFault::Dead),
            TerminalWait::Ack(_) | TerminalWait::Answer(_) | TerminalWait::More => {
                Ok(self.fails_with(command_buffer, answer_buffer, Fault::Free))
            }
            TerminalWait::Ifs(size) => {
                Ok(self.fails(
                    command_buffer,
                    answer_buffer,
                    Sent::Other(Short::request(S::Ifs, &[size])),
                ))
            }
            TerminalWait::Resynch(asked) => Ok(self.resynch_again(
                command_buffer,
                answer_buffer,
                asked,
            )),
        }
    }

    /// Sends the next I-block of the command, from a place on, cut at the present size.
    pub(super) fn sends_from(
        &mut self,
        command_buffer: &[u8],
        answer_buffer: &[u8],
        place: usize,
    ) -> TerminalAct
        requires fit { IsLentTerminal self.old (length command_buffer.now)
            (length answer_buffer.now) }
        requires place { place ≤ self.old.command_len }
        requires unanswered { self.old.is_answered ≡ false }
        ensures fit { IsLentTerminal self.new (length command_buffer.now)
            (length answer_buffer.now) }
        ensures took { TerminalTook (λ t. sends_next t (drop place t.command))
            (terminal_held self.old command_buffer.now answer_buffer.now)
            (terminal_held self.new command_buffer.now answer_buffer.now) (Ok result) }
    {
        let cut = Cut {
            place,
            size: self.ifsc,
        };
        self.answer_len = 0;
        let command = &command_buffer[..self.command_len];
        if command.len() - place > cut.size as usize {
            self.wait = TerminalWait::Ack(cut);
            TerminalAct::Send(Sent::Inner)
        } else {
            self.wait = TerminalWait::Answer(cut);
            TerminalAct::Send(Sent::Last)
        }
    }

    /// Returns the block that the terminal sends. Its field is borrowed.
    #[inline(always)]
    pub(super) fn lent<'a>(
        &self,
        command_buffer: &'a [u8],
        answer_buffer: &[u8],
        sent: &'a Sent,
    ) -> BlockRef<'a>
        requires fit { IsLentTerminal self.now (length command_buffer.now)
            (length answer_buffer.now) }
        ensures { result ≡ terminal_sends
            (terminal_held self.now command_buffer.now answer_buffer.now) sent.now }
    {
        match sent {
            Sent::Inner => self.info(command_buffer, answer_buffer, true),
            Sent::Last => self.info(command_buffer, answer_buffer, false),
            Sent::Other(short) => short.lent(),
        }
    }

    /// Returns the present I-block.
    fn info<'a>(&self, command_buffer: &'a [u8], answer_buffer: &[u8], more: bool) -> BlockRef<'a>
        requires fit { IsLentTerminal self.now (length command_buffer.now)
            (length answer_buffer.now) }
        ensures { result ≡ info self.now.number more
            (field_sent (terminal_held self.now command_buffer.now answer_buffer.now).waits) }
    {
        let pcb = Pcb::Info {
            number: self.number,
            more,
        };
        BlockRef::new(0, pcb, self.field(command_buffer, answer_buffer)).unwrap()
    }

    /// Returns the field of the present I-block.
    fn field<'a>(&self, command_buffer: &'a [u8], answer_buffer: &[u8]) -> &'a [u8]
        requires fit { IsLentTerminal self.now (length command_buffer.now)
            (length answer_buffer.now) }
        ensures octets { result.now ≡ field_sent
            (terminal_held self.now command_buffer.now answer_buffer.now).waits }
        ensures most { length result.now ≤ 254 }
    {
        match self.wait {
            TerminalWait::Ack(cut) | TerminalWait::Answer(cut) => field_in(
                &command_buffer[..self.command_len],
                cut,
            ),
            _ => &[],
        }
    }
}
