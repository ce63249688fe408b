//! One exchange in one call.

ghost use Rattle.std.specs.Prelude.{◌≡◌, ◌≤◌, List, [], ◌∷◌, length, take, Some, Ok, IfOk, OnOk, IsSome};
ghost use Rattle.std.specs.Borrow.{sem};
ghost use Rattle.std.specs.Io.BufRead.{Rests};
ghost use Rattle.t1_core.specs.contracts.terminal.Terminal.{the_row};
ghost use Rattle.t1_core.specs.Came.{quiet};
ghost use Rattle.t1_core.specs.Terminal.{takes, transmit, ask_ifs};
ghost use Rattle.t1_core.specs.Put.{FitsTerminalPut};
ghost use Rattle.line_core.specs.Line.{Arrival, Talk, Adds};
ghost use Rattle.line_core.specs.Exchange.{Next, Runs, HasRun, IsAnswer, IsReady, ending_of, next_after, left_after};

use crate::fault::TransceiveFault;
use crate::line::{Received, TerminalLine};
use block_core::LONGEST_BLOCK;
use t1_core::{EncodedTerminalTurn, Terminal};

/// The greatest number of octets that are taken as one block: one more than the longest block has. So the front of a
/// longer one isn't taken for a block.
pub const LONGEST_ARRIVAL: usize = 259;

/// Sends a command over the line and returns the answer, borrowed from the terminal (ISO/IEC 7816-3, clause 11.6). The
/// answer has at most 65,538 octets.
///
/// The call sends the blocks that the terminal's table requires, and nothing else. It passes what comes after a block
/// to the terminal, until the table ends the exchange. It sends at most `most_blocks` blocks, since a card may ask for
/// more time again and again. If the card doesn't, and nothing is lost, the exchange takes one block for each
/// information field of the command and of the answer.
///
/// The error is `Refused` before anything is sent: `Dead`, `Busy`, or `TooLong` for more than 65,544 octets, tried in
/// this order. After `Line` and `UsedUp` the exchange is still unfinished, and [`resume`] continues it.
pub fn exchange<'a, L: TerminalLine>(
    terminal: &'a mut Terminal,
    line: &mut L,
    command: &[u8],
    most_blocks: usize,
) -> Result<&'a [u8], TransceiveFault>
    ensures* run { sem 𝓛 (Rests the_row terminal.entry
        (λ left. HasRun (L.said line.old) (L.said line.new) most_blocks terminal.old
        (transmit command.now) (ending_of result) left × IsAnswer left result)) }
{
    send_command(terminal, line, command, most_blocks)?;
    Ok(answer_of(terminal))
}

/// Returns the answer that the terminal holds.
fn answer_of(terminal: &Terminal) -> &[u8]
    requires { IsSome terminal.now.answered }
    ensures { terminal.now.answered ≡ Some result.now }
{
    terminal.answer().unwrap_or(&[])
}

/// Asks the card over the line to send information fields of up to `size` octets. At `Ok` the card does so from then
/// on.
///
/// Blocks, the budget and the errors are those of [`exchange`]. `Refused` is `Dead`, `Busy`, or `Reserved` for the
/// sizes 0 and 255, tried in this order.
pub fn ask_ifs<L: TerminalLine>(
    terminal: &mut Terminal,
    line: &mut L,
    size: u8,
    most_blocks: usize,
) -> Result<(), TransceiveFault>
    ensures { HasRun (L.said line.old) (L.said line.new) most_blocks terminal.old (ask_ifs size)
        (ending_of result) terminal.new }
{
    let mut out = [0; LONGEST_BLOCK];
    let first = terminal.ask_ifs_into(size, &mut out)?;
    run(terminal, line, first, &mut out, most_blocks)
}

/// Continues an exchange, or a request for a size, that a failure of the line or the budget cut short. The call tells
/// the terminal that nothing came, and the terminal asks again for the block that it waits for. At `Ok` an exchange
/// has its answer, which [`Terminal::answer`] returns.
///
/// So the call counts as one more failure of the line. If it is the fourth in a row, both ends are resynchronized, and
/// the error is `GivenUp`. The errors are those of [`exchange`]. `Refused` is `Dead`, or `Idle` if nothing is
/// unfinished.
pub fn resume<L: TerminalLine>(
    terminal: &mut Terminal,
    line: &mut L,
    most_blocks: usize,
) -> Result<(), TransceiveFault>
    ensures { HasRun (L.said line.old) (L.said line.new) most_blocks terminal.old (takes quiet)
        (ending_of result) terminal.new }
{
    let mut out = [0; LONGEST_BLOCK];
    let first = terminal.quiet_into(&mut out)?;
    run(terminal, line, first, &mut out, most_blocks)
}

/// Sends a command. At `Ok` the terminal has the answer.
pub(crate) fn send_command<L: TerminalLine>(
    terminal: &mut Terminal,
    line: &mut L,
    command: &[u8],
    most_blocks: usize,
) -> Result<(), TransceiveFault>
    ensures run { HasRun (L.said line.old) (L.said line.new) most_blocks terminal.old
        (transmit command.now) (ending_of result) terminal.new }
    ensures answered { OnOk result (IsSome terminal.new.answered) }
{
    let mut out = [0; LONGEST_BLOCK];
    let first = terminal.transmit_into(command, &mut out)?;
    run(terminal, line, first, &mut out, most_blocks)
}

/// Continues from the first turn of an exchange until it ends.
fn run<L: TerminalLine>(
    terminal: &mut Terminal,
    line: &mut L,
    first: EncodedTerminalTurn,
    out: &mut [u8],
    most_blocks: usize,
) -> Result<(), TransceiveFault>
    requires room { 258 ≤ length out.old }
    requires fits { FitsTerminalPut first }
    ensures { (next : Next) → IsReady next out.old (Ok first)
        → (talks : List Talk) × Adds (L.said line.old) (L.said line.new) talks
        × Runs most_blocks next terminal.old talks (ending_of result) terminal.new }
{
    let mut room = [0; LONGEST_ARRIVAL];
    let mut put = first;
    let mut left = most_blocks;
    loop {
        put = match put {
            EncodedTerminalTurn::Send { count, waiting } if left > 0 => {
                left -= 1;
                talked(terminal, line, count, waiting, out, &mut room)?
            }
            EncodedTerminalTurn::Send { .. } => return Err(TransceiveFault::UsedUp),
            EncodedTerminalTurn::Answered | EncodedTerminalTurn::IfsSet => return Ok(()),
            EncodedTerminalTurn::GivenUp => return Err(TransceiveFault::GivenUp),
            EncodedTerminalTurn::Dead => return Err(TransceiveFault::Dead),
        };
    }
}

/// Sends the block at the front of the buffer, and passes what came to the terminal. Returns the terminal's next turn,
/// with its block at the front of the buffer.
fn talked<L: TerminalLine>(
    terminal: &mut Terminal,
    line: &mut L,
    count: usize,
    waiting: u8,
    out: &mut [u8],
    room: &mut [u8],
) -> Result<EncodedTerminalTurn, TransceiveFault>
    requires room { 258 ≤ length out.old }
    requires count { count ≤ length out.old }
    requires heard { 259 ≤ length room.old }
    ensures fits { IfOk result FitsTerminalPut }
    ensures talk { (arrival : Arrival) × Adds (L.said line.old) (L.said line.new)
        (record { sent = take count out.old; waiting = waiting; arrival = arrival } ∷ [])
        × IsReady (next_after terminal.old arrival) out.new result
        × (terminal.new ≡ left_after terminal.old arrival) }
{
    match line.transceive(&out[..count], waiting, room) {
        Ok(Received::Octets(count)) => Ok(terminal.received_into(&room[..count], out)?),
        Ok(Received::Nothing) => Ok(terminal.quiet_into(out)?),
        Err(fault) => Err(TransceiveFault::Line(fault)),
    }
}
