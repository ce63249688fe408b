//! What the terminal does with what came, in each state.

ghost use Rattle.std.specs.Prelude.{◌≡◌, ◌≤◌, ◌+◌, ◌++◌, length, Ok};
ghost use Rattle.t1_core.specs.Came.{ready};
ghost use Rattle.t1_core.specs.declared.turns.TerminalWait.TheVariants.{Ack, Answer, More};
ghost use Rattle.t1_core.specs.Views.{terminal_held, IsLentTerminal, came_of, field_at, rest_at, joined_of, IsJoining, IsSize};
ghost use Rattle.t1_core.specs.Sending.{terminal_sends};
ghost use Rattle.t1_core.specs.Terminal.{in_exchange, in_ack, in_answer, in_more, in_ifs, joins, fails};
ghost use Rattle.t1_core.specs.Steps.{TerminalTook};

use crate::class::Arrived;
use crate::lent::LentTerminal;
use crate::sending::{Sent, Short, TerminalAct};
use crate::terminal::MOST_REPEATS;
use crate::turns::{Cut, TerminalWait};
use block_core::{Fault, Pcb, S};
use chain_core::append;

impl LentTerminal {
    /// Takes what came while the terminal sends a command, before its last I-block.
    pub(super) fn ack_took(
        &mut self,
        command_buffer: &[u8],
        answer_buffer: &[u8],
        cut: Cut,
        arrived: &Arrived,
    ) -> TerminalAct
        requires fit { IsLentTerminal self.old (length command_buffer.now)
            (length answer_buffer.now) }
        requires waits { self.old.wait ≡ Ack cut }
        ensures fit { IsLentTerminal self.new (length command_buffer.now)
            (length answer_buffer.now) }
        ensures took { TerminalTook
            (λ t. in_ack t (field_at cut t.command) (rest_at cut t.command) (came_of arrived.now))
            (terminal_held self.old command_buffer.now answer_buffer.now)
            (terminal_held self.new command_buffer.now answer_buffer.now) (Ok result) }
    {
        match arrived {
            Arrived::Damaged | Arrived::Invalid => self.exchange_took(
                command_buffer,
                answer_buffer,
                arrived,
            ),
            Arrived::Whole(block) => match block.pcb() {
                Pcb::Ready { number, .. } => {
                    if number == self.number {
                        return self.fails(command_buffer, answer_buffer, Sent::Inner);
                    }
                    self.failures = 0;
                    self.number = self.number.other();
                    self.sends_from(command_buffer, answer_buffer, cut.place + cut.size as usize)
                }
                Pcb::Info { .. } | Pcb::Request(_) | Pcb::Response(_) => {
                    self.exchange_took(command_buffer, answer_buffer, arrived)
                }
            },
        }
    }

    /// Takes what came after the last I-block of the command.
    pub(super) fn answer_took(
        &mut self,
        command_buffer: &[u8],
        answer_buffer: &mut [u8],
        cut: Cut,
        arrived: &Arrived,
    ) -> TerminalAct
        requires fit { IsLentTerminal self.old (length command_buffer.now)
            (length answer_buffer.old) }
        requires waits { self.old.wait ≡ Answer cut }
        ensures fit { IsLentTerminal self.new (length command_buffer.now)
            (length answer_buffer.new) }
        ensures took { TerminalTook
            (λ t. in_answer t (field_at cut t.command) (came_of arrived.now))
            (terminal_held self.old command_buffer.now answer_buffer.old)
            (terminal_held self.new command_buffer.now answer_buffer.new) (Ok result) }
    {
        match arrived {
            Arrived::Damaged | Arrived::Invalid => self.exchange_took(
                command_buffer,
                answer_buffer,
                arrived,
            ),
            Arrived::Whole(block) => match block.pcb() {
                Pcb::Ready { number, .. } => {
                    if number == self.number {
                        self.fails(command_buffer, answer_buffer, Sent::Last)
                    } else {
                        self.fails_with(command_buffer, answer_buffer, Fault::Free)
                    }
                }
                Pcb::Info { number, more } => {
                    let fits = block.inf().len() <= self.most_answer;
                    if !(number == self.expected && fits) {
                        return self.exchange_took(command_buffer, answer_buffer, arrived);
                    }
                    self.number = self.number.other();
                    self.joins(command_buffer, answer_buffer, block.inf(), more)
                }
                Pcb::Request(_) | Pcb::Response(_) => self.exchange_took(
                    command_buffer,
                    answer_buffer,
                    arrived,
                ),
            },
        }
    }

    /// Takes what came after a part of the answer that isn't its last.
    pub(super) fn more_took(
        &mut self,
        command_buffer: &[u8],
        answer_buffer: &mut [u8],
        arrived: &Arrived,
    ) -> TerminalAct
        requires fit { IsLentTerminal self.old (length command_buffer.now)
            (length answer_buffer.old) }
        requires waits { self.old.wait ≡ More }
        ensures fit { IsLentTerminal self.new (length command_buffer.now)
            (length answer_buffer.new) }
        ensures took { TerminalTook (λ t. in_more t (joined_of t.waits) (came_of arrived.now))
            (terminal_held self.old command_buffer.now answer_buffer.old)
            (terminal_held self.new command_buffer.now answer_buffer.new) (Ok result) }
    {
        match arrived {
            Arrived::Damaged | Arrived::Invalid => self.exchange_took(
                command_buffer,
                answer_buffer,
                arrived,
            ),
            Arrived::Whole(block) => match block.pcb() {
                Pcb::Ready { .. } => self.fails_with(command_buffer, answer_buffer, Fault::Free),
                Pcb::Info { number, more } => {
                    let fits = self.answer_len + block.inf().len() <= self.most_answer;
                    if number == self.expected && fits {
                        self.joins(command_buffer, answer_buffer, block.inf(), more)
                    } else {
                        self.exchange_took(command_buffer, answer_buffer, arrived)
                    }
                }
                Pcb::Request(_) | Pcb::Response(_) => self.exchange_took(
                    command_buffer,
                    answer_buffer,
                    arrived,
                ),
            },
        }
    }

    /// Takes what came after the terminal asked for a size.
    pub(super) fn ifs_took(
        &mut self,
        command_buffer: &[u8],
        answer_buffer: &[u8],
        size: u8,
        arrived: &Arrived,
    ) -> TerminalAct
        requires fit { IsLentTerminal self.old (length command_buffer.now)
            (length answer_buffer.now) }
        requires size { IsSize size }
        ensures fit { IsLentTerminal self.new (length command_buffer.now)
            (length answer_buffer.now) }
        ensures took { TerminalTook (λ t. in_ifs t size (came_of arrived.now))
            (terminal_held self.old command_buffer.now answer_buffer.now)
            (terminal_held self.new command_buffer.now answer_buffer.now) (Ok result) }
    {
        if arrived.responds_with(size) {
            self.failures = 0;
            self.ifsd = size;
            self.wait = TerminalWait::Idle;
            return TerminalAct::IfsSet;
        }
        self.fails(
            command_buffer,
            answer_buffer,
            Sent::Other(Short::request(S::Ifs, &[size])),
        )
    }

    /// Joins an I-block of the answer that fits.
    fn joins(
        &mut self,
        command_buffer: &[u8],
        answer_buffer: &mut [u8],
        inf: &[u8],
        more: bool,
    ) -> TerminalAct
        requires fit { IsLentTerminal self.old (length command_buffer.now)
            (length answer_buffer.old) }
        requires joining { IsJoining self.old.wait }
        requires fits { self.old.answer_len + length inf.now ≤ self.old.most_answer }
        ensures fit { IsLentTerminal self.new (length command_buffer.now)
            (length answer_buffer.new) }
        ensures took { TerminalTook (λ t. joins t (joined_of t.waits ++ inf.now) more)
            (terminal_held self.old command_buffer.now answer_buffer.old)
            (terminal_held self.new command_buffer.now answer_buffer.new) (Ok result) }
    {
        self.answer_len = append(answer_buffer, self.answer_len, inf);
        self.failures = 0;
        self.expected = self.expected.other();
        if more {
            self.wait = TerminalWait::More;
            TerminalAct::Send(Sent::Other(Short::ready(self.expected, Fault::Free)))
        } else {
            self.wait = TerminalWait::Idle;
            self.is_answered = true;
            TerminalAct::Answered
        }
    }

    /// Counts a failure, and sends the block, or asks for RESYNCH.
    pub(super) fn fails(
        &mut self,
        command_buffer: &[u8],
        answer_buffer: &[u8],
        sent: Sent,
    ) -> TerminalAct
        requires fit { IsLentTerminal self.old (length command_buffer.now)
            (length answer_buffer.now) }
        ensures fit { IsLentTerminal self.new (length command_buffer.now)
            (length answer_buffer.now) }
        ensures took { TerminalTook (λ t. fails t (terminal_sends t sent))
            (terminal_held self.old command_buffer.now answer_buffer.now)
            (terminal_held self.new command_buffer.now answer_buffer.now) (Ok result) }
    {
        if self.failures < MOST_REPEATS {
            self.failures += 1;
            return TerminalAct::Send(sent);
        }
        self.wait = TerminalWait::Resynch(1);
        TerminalAct::Send(Sent::Other(Short::request(S::Resynch, &[])))
    }

    /// Counts a failure, and reports it to the card by an R-block, or asks for RESYNCH.
    pub(super) fn fails_with(
        &mut self,
        command_buffer: &[u8],
        answer_buffer: &[u8],
        fault: Fault,
    ) -> TerminalAct
        requires fit { IsLentTerminal self.old (length command_buffer.now)
            (length answer_buffer.now) }
        ensures fit { IsLentTerminal self.new (length command_buffer.now)
            (length answer_buffer.now) }
        ensures took { TerminalTook (λ t. fails t (ready t.expected fault))
            (terminal_held self.old command_buffer.now answer_buffer.now)
            (terminal_held self.new command_buffer.now answer_buffer.now) (Ok result) }
    {
        self.fails(
            command_buffer,
            answer_buffer,
            Sent::Other(Short::ready(self.expected, fault)),
        )
    }

    /// Takes what came, as the terminal does alike in each state of an exchange.
    fn exchange_took(
        &mut self,
        command_buffer: &[u8],
        answer_buffer: &[u8],
        arrived: &Arrived,
    ) -> TerminalAct
        requires fit { IsLentTerminal self.old (length command_buffer.now)
            (length answer_buffer.now) }
        ensures fit { IsLentTerminal self.new (length command_buffer.now)
            (length answer_buffer.now) }
        ensures took { TerminalTook (λ t. in_exchange t (came_of arrived.now))
            (terminal_held self.old command_buffer.now answer_buffer.now)
            (terminal_held self.new command_buffer.now answer_buffer.now) (Ok result) }
    {
        let fault = match arrived {
            Arrived::Damaged => Fault::Redundancy,
            Arrived::Invalid => Fault::Other,
            Arrived::Whole(block) => match block.pcb() {
                Pcb::Request(S::Ifs) => {
                    self.ifsc = block.inf()[0];
                    return TerminalAct::Send(Sent::Other(Short::response(S::Ifs, block.inf())));
                }
                Pcb::Request(S::Wtx) => {
                    return TerminalAct::Send(Sent::Other(Short::response(S::Wtx, block.inf())));
                }
                _ => Fault::Other,
            },
        };
        self.fails_with(command_buffer, answer_buffer, fault)
    }
}
