//! One exchange of a command and its response, as values.

ghost use Rattle.std.specs.Prelude.{◌≤◌, length, OnOk, IsSome};
ghost use Rattle.apdu_core.specs.Command.{spelling};
ghost use Rattle.t1_core.specs.Terminal.{transmit};
ghost use Rattle.line_core.specs.Exchange.{HasRun, ending_of};
ghost use Rattle.line_core.specs.Commanding.{IsResponseOf};

use crate::exchanging::send_command;
use crate::fault::TransceiveFault;
use crate::line::TerminalLine;
use apdu_core::{Command, ResponseReason, ResponseRef, encode_command_into};
use octet_core::Stop;
use t1_core::Terminal;

/// Sends a command over the line (ISO/IEC 7816-3, clause 12). At `Ok` the terminal has the answer, which
/// [`response_of`] decodes.
///
/// The command is encoded at the front of the buffer, which must have room for [`Command::encoded_len`] octets,
/// at most 65,544. Blocks, the budget and the errors are those of [`exchange`](crate::exchange).
pub fn exchange_command<L: TerminalLine>(
    terminal: &mut Terminal,
    line: &mut L,
    command: &Command,
    buffer: &mut [u8],
    most_blocks: usize,
) -> Result<(), TransceiveFault>
    requires room { length (spelling command.now) ≤ length buffer.old }
    ensures run { HasRun (L.said line.old) (L.said line.new) most_blocks terminal.old
        (transmit (spelling command.now)) (ending_of result) terminal.new }
    ensures answered { OnOk result (IsSome terminal.new.answered) }
{
    let count = encode_command_into(command, buffer);
    send_command(terminal, line, &buffer[..count], most_blocks)
}

/// Decodes the terminal's answer as a response, after [`exchange_command`] or [`resume`](crate::resume). The
/// data field is borrowed from the answer. The result is `None` if the terminal has no answer; the inner error
/// says why the answer isn't a response.
pub fn response_of(terminal: &Terminal) -> Option<Result<ResponseRef<'_>, Stop<ResponseReason>>>
    ensures { IsResponseOf terminal.now.answered result }
{
    match terminal.answer() {
        Some(answer) => Some(ResponseRef::decode(answer)),
        None => None,
    }
}
