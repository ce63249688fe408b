//! One exchange over a line, from what the calls of both its ends promise.

ghost use Rattle.std.specs.Prelude.{◌≡◌, ◌≤◌, ℕ, List, [], length};
ghost use Rattle.apdu_core.specs.Command.{spelling};
ghost use Rattle.t1_core.specs.Terminal.{Limits, transmit, terminal_turn, turn_of, state_after};
ghost use Rattle.t1_core.specs.Card.{CardState, card_with};
ghost use Rattle.line_core.specs.Line.{Talk, Adds};
ghost use Rattle.line_core.specs.Exchange.{Runs, ending_of, next_of};
ghost use Rattle.line_core.specs.Service.{Ending, Serves, hears};
ghost use Rattle.line_core.specs.Streams.{HasCarried, wire_of};
ghost use Rattle.line_core.specs.Joined.{Trip, talks_of, events_of, services_of, IsOnce};

use apdu_core::{Command, encode_command_into};
use atr_core::T1Params;
use line_core::{TerminalLine, TransceiveFault, UntimedLine, exchange_command};
use octet_core::{Sink, Source};
use t1_core::Terminal;

/// Passes a command to `exchange_command`, at a terminal that begins a session.
///
/// Assume that a card that begins too serves at the other end of the line. Each end receives what the other one sent,
/// except for what is lost or damaged. Then the card's host got the command at most once, and no other command. At `Ok`
/// it got the command, and the terminal's answer is its reply.
pub fn acted_on_once<L: TerminalLine>(
    terminal: &mut Terminal,
    params: T1Params,
    line: &mut L,
    command: &Command,
    buffer: &mut [u8],
    most_blocks: usize,
) -> Result<(), TransceiveFault>
    requires room { length (spelling command.now) ≤ length buffer.old }
    ensures { (talks : List Talk) × Adds (L.said line.old) (L.said line.new) talks
        × ((of_card : Limits) (most : ℕ) (trips : List Trip) (end : Ending) (card : CardState)
        → talks_of trips ≡ talks
        → Serves most hears (card_with of_card params.ifsc) (events_of trips) end card
        → IsOnce (spelling command.now) (ending_of result) terminal.new.answered
        (services_of (events_of trips) [])) }
{
    line_core::laws::once();
    terminal.reset(params);
    let _count = encode_command_into(command, buffer);
    exchange_command(terminal, line, command, buffer, most_blocks)
}

/// Passes a command to `exchange_command` over a reader and a writer.
///
/// Everything that was written and read meanwhile, with what each call of them was taken for, is a run of the
/// terminal's table.
pub fn exchanged_over_streams<R: Source, W: Sink>(
    terminal: &mut Terminal,
    line: &mut UntimedLine<R, W>,
    command: &Command,
    buffer: &mut [u8],
    most_blocks: usize,
) -> Result<(), TransceiveFault>
    requires room { length (spelling command.now) ≤ length buffer.old }
    ensures { (talks : List Talk)
        × HasCarried (wire_of R.remaining R.failures W.contents W.failures line.old) talks
        (wire_of R.remaining R.failures W.contents W.failures line.new)
        × Runs most_blocks
        (next_of (turn_of (terminal_turn terminal.old (transmit (spelling command.now)))))
        (state_after terminal.old (terminal_turn terminal.old (transmit (spelling command.now))))
        talks (ending_of result) terminal.new }
{
    exchange_command(terminal, line, command, buffer, most_blocks)
}
