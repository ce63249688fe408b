//! What the terminal does with what came after it asked for RESYNCH (ISO/IEC 7816-3, clause 11.6).

ghost use Rattle.std.specs.Prelude.{◌≤◌, length, Ok};
ghost use Rattle.t1_core.specs.Came.{quiet};
ghost use Rattle.t1_core.specs.Views.{terminal_held, IsLentTerminal, came_of};
ghost use Rattle.t1_core.specs.Terminal.{most_resynchs, in_resynch};
ghost use Rattle.t1_core.specs.Steps.{TerminalTook};

use crate::class::Arrived;
use crate::lent::LentTerminal;
use crate::sending::{Sent, Short, TerminalAct};
use crate::terminal::{FIRST_IFSD, MOST_RESYNCHS};
use crate::turns::TerminalWait;
use block_core::{Number, Pcb, S};

impl LentTerminal {
    /// Takes what came after the terminal asked for RESYNCH.
    pub(super) fn resynch_took(
        &mut self,
        command_buffer: &[u8],
        answer_buffer: &[u8],
        asked: u8,
        arrived: &Arrived,
    ) -> TerminalAct
        requires fit { IsLentTerminal self.old (length command_buffer.now)
            (length answer_buffer.now) }
        requires asked { asked ≤ most_resynchs }
        ensures fit { IsLentTerminal self.new (length command_buffer.now)
            (length answer_buffer.now) }
        ensures took { TerminalTook (λ t. in_resynch t asked (came_of arrived.now))
            (terminal_held self.old command_buffer.now answer_buffer.now)
            (terminal_held self.new command_buffer.now answer_buffer.now) (Ok result) }
    {
        match arrived {
            Arrived::Damaged | Arrived::Invalid => self.resynch_again(
                command_buffer,
                answer_buffer,
                asked,
            ),
            Arrived::Whole(block) => match block.pcb() {
                Pcb::Response(S::Resynch) => {
                    self.number = Number::Zero;
                    self.expected = Number::Zero;
                    self.failures = 0;
                    self.ifsc = self.first_ifsc;
                    self.ifsd = FIRST_IFSD;
                    self.wait = TerminalWait::Idle;
                    TerminalAct::GivenUp
                }
                Pcb::Response(S::Ifs | S::Abort | S::Wtx)
                | Pcb::Info { .. }
                | Pcb::Ready { .. }
                | Pcb::Request(_) => self.resynch_again(command_buffer, answer_buffer, asked),
            },
        }
    }

    /// Asks for RESYNCH again, or finds the card dead.
    pub(super) fn resynch_again(
        &mut self,
        command_buffer: &[u8],
        answer_buffer: &[u8],
        asked: u8,
    ) -> TerminalAct
        requires fit { IsLentTerminal self.old (length command_buffer.now)
            (length answer_buffer.now) }
        requires asked { asked ≤ most_resynchs }
        ensures fit { IsLentTerminal self.new (length command_buffer.now)
            (length answer_buffer.now) }
        ensures took { TerminalTook (λ t. in_resynch t asked quiet)
            (terminal_held self.old command_buffer.now answer_buffer.now)
            (terminal_held self.new command_buffer.now answer_buffer.now) (Ok result) }
    {
        if asked < MOST_RESYNCHS {
            self.wait = TerminalWait::Resynch(asked + 1);
            TerminalAct::Send(Sent::Other(Short::request(S::Resynch, &[])))
        } else {
            self.wait = TerminalWait::Dead;
            TerminalAct::Dead
        }
    }
}
