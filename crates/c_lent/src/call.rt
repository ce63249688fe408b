//! The calls of both ends of a session, as C makes them.

ghost use Rattle.std.specs.Prelude.{◌≡◌, ◌≤◌, length, IfErr};
ghost use Rattle.t1_core.specs.Terminal.{terminal_turn};
ghost use Rattle.t1_core.specs.Card.{card_turn};
ghost use Rattle.t1_core.specs.Steps.{TerminalWrote, CardWrote};
ghost use Rattle.t1_core.specs.Views.{terminal_held, IsLentTerminal};
ghost use Rattle.t1_core.specs.CardViews.{card_held, IsLentCard, IsBlank};
ghost use Rattle.c_lent.specs.Calls.{terminal_input, card_input};

use t1_core::{
    CardFault, EncodedCardTurn, EncodedTerminalTurn, LentCard, LentTerminal, TerminalFault,
};

/// A call of a terminal.
#[derive(Clone, Copy)]
pub enum TerminalCall<'a> {
    /// A command of the application.
    Transmit(&'a [u8]),
    /// The octets of a block that arrived.
    Received(&'a [u8]),
    /// No block arrived.
    Quiet,
    /// The size to request.
    AskIfs(u8),
}

/// A call of a card.
#[derive(Clone, Copy)]
pub enum CardCall<'a> {
    /// The octets of a block that arrived.
    Received(&'a [u8]),
    /// The reply of the card's host.
    Reply(&'a [u8]),
    /// The multiple of the waiting time to request.
    MoreTime(u8),
    /// The size to request.
    AskIfs(u8),
}

impl<'a> TerminalCall<'a> {
    /// Makes the call of a terminal over borrowed buffers.
    pub fn lend(
        self,
        end: &mut LentTerminal,
        command: &mut [u8],
        answer: &mut [u8],
        out: &mut [u8],
    ) -> Result<EncodedTerminalTurn, TerminalFault>
        requires room { 258 ≤ length out.old }
        requires fit { IsLentTerminal end.old (length command.old) (length answer.old) }
        ensures wrote { TerminalWrote (λ t. terminal_turn t (terminal_input self.entry t))
            (terminal_held end.old command.old answer.old) (terminal_held end.new command.new answer.new)
            out.old out.new result }
        ensures fit { IsLentTerminal end.new (length command.new) (length answer.new) }
        ensures refused { IfErr result
            (λ _. (end.new ≡ end.old) × (command.new ≡ command.old) × (answer.new ≡ answer.old)) }
    {
        match self {
            TerminalCall::Transmit(octets) => end.transmit_into(command, answer, octets, out),
            TerminalCall::Received(octets) => end.received_into(command, answer, octets, out),
            TerminalCall::Quiet => end.quiet_into(command, answer, out),
            TerminalCall::AskIfs(size) => end.ask_ifs_into(command, answer, size, out),
        }
    }
}

impl<'a> CardCall<'a> {
    /// Makes the call of a card over borrowed buffers.
    pub fn lend(
        self,
        end: &mut LentCard,
        command: &mut [u8],
        reply: &mut [u8],
        out: &mut [u8],
    ) -> Result<EncodedCardTurn, CardFault>
        requires room { 258 ≤ length out.old }
        requires fit { IsLentCard end.old (length command.old) (length reply.old) }
        ensures wrote { CardWrote (λ c. card_turn c (card_input self.entry c))
            (card_held end.old command.old reply.old) (card_held end.new command.new reply.new)
            out.old out.new result }
        ensures fit { IsLentCard end.new (length command.new) (length reply.new) }
        ensures refused { IfErr result
            (λ _. (end.new ≡ end.old) × (command.new ≡ command.old) × (reply.new ≡ reply.old)) }
        ensures blank { IsBlank end.old command.old → IsBlank end.new command.new }
    {
        match self {
            CardCall::Received(octets) => end.received_into(command, reply, octets, out),
            CardCall::Reply(octets) => end.reply_into(command, reply, octets, out),
            CardCall::MoreTime(multiple) => end.more_time_into(command, reply, multiple, out),
            CardCall::AskIfs(size) => end.ask_ifs_into(command, reply, size, out),
        }
    }
}
