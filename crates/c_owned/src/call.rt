//! The calls of both ends in handles, as C makes them.

ghost use Rattle.std.specs.Prelude.{◌≤◌, length};
ghost use Rattle.t1_core.specs.Terminal.{terminal_turn};
ghost use Rattle.t1_core.specs.Card.{card_turn};
ghost use Rattle.t1_core.specs.Steps.{TerminalWrote, CardWrote};
ghost use Rattle.c_lent.specs.Calls.{terminal_input, card_input};

use c_lent::call::{CardCall, TerminalCall};
use t1_core::{Card, CardFault, EncodedCardTurn, EncodedTerminalTurn, Terminal, TerminalFault};

/// A call of a terminal or of a card.
#[derive(Clone, Copy)]
pub(crate) enum Call<'a> {
    Terminal(TerminalCall<'a>),
    Card(CardCall<'a>),
}

/// Makes a call of a terminal. Writes the octets of a block to send to the buffer.
#[inline(always)]
pub(crate) fn call_terminal(
    call: TerminalCall<'_>,
    end: &mut Terminal,
    out: &mut [u8],
) -> Result<EncodedTerminalTurn, TerminalFault>
    requires { 258 ≤ length out.old }
    ensures { TerminalWrote (λ t. terminal_turn t (terminal_input call.entry t))
        end.old end.new out.old out.new result }
{
    match call {
        TerminalCall::Transmit(command) => end.transmit_into(command, out),
        TerminalCall::Received(octets) => end.received_into(octets, out),
        TerminalCall::Quiet => end.quiet_into(out),
        TerminalCall::AskIfs(size) => end.ask_ifs_into(size, out),
    }
}

/// Makes a call of a card. Writes the octets of a block to send to the buffer.
#[inline(always)]
pub(crate) fn call_card(
    call: CardCall<'_>,
    end: &mut Card,
    out: &mut [u8],
) -> Result<EncodedCardTurn, CardFault>
    requires { 258 ≤ length out.old }
    ensures { CardWrote (λ c. card_turn c (card_input call.entry c))
        end.old end.new out.old out.new result }
{
    match call {
        CardCall::Received(octets) => end.received_into(octets, out),
        CardCall::Reply(octets) => end.reply_into(octets, out),
        CardCall::MoreTime(multiple) => end.more_time_into(multiple, out),
        CardCall::AskIfs(size) => end.ask_ifs_into(size, out),
    }
}
