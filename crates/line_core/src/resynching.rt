//! Beginning of a session with a card that can't be reset.

ghost use Rattle.std.specs.Prelude.{◌≡◌, List, Ok, OnOk, OnErr, Decides};
ghost use Rattle.t1_core.specs.Terminal.{terminal_with, most_resynchs};
ghost use Rattle.line_core.specs.Line.{Talk, Adds, FitsRoom, arrived};
ghost use Rattle.line_core.specs.Exchange.{ending_of};
ghost use Rattle.line_core.specs.Resynch.{Asks, answered, told_of};

use crate::exchanging::LONGEST_ARRIVAL;
use crate::fault::TransceiveFault;
use crate::line::{Received, TerminalLine};
use atr_core::T1Params;
use t1_core::{MOST_RESYNCHS, Terminal};

/// The block that asks for RESYNCH.
const REQUEST: [u8; 4] = [0x00, 0xC0, 0x00, 0xC0];

/// The block with which a card answers it.
const RESPONSE: [u8; 4] = [0x00, 0xE0, 0x00, 0xE0];

/// Begins a new session with a card that can't be reset, and whose state isn't known. Otherwise a terminal
/// begins only together with a reset of its card (ISO/IEC 7816-3, clause 11.6.3.2).
///
/// The card is asked for RESYNCH at most three times, for one block waiting time each, and nothing else is
/// sent. At `Ok` the card answered, and is as at its start. The terminal is a new one for these parameters,
/// with the limits that it had. An unfinished exchange is given up; whether the card's host acted on it
/// isn't known. The error is `Dead` if the card didn't answer, or `Line` if the line failed. In both cases
/// the terminal stays as it was.
pub fn begin_by_resynch<L: TerminalLine>(
    terminal: &mut Terminal,
    line: &mut L,
    params: T1Params,
) -> Result<(), TransceiveFault>
    ensures asks { (talks : List Talk) × Adds (L.said line.old) (L.said line.new) talks
        × Asks most_resynchs talks (ending_of result) }
    ensures begins { OnOk result (terminal.new ≡ terminal_with terminal.old.limits params.ifsc) }
    ensures stays { OnErr result (terminal.new ≡ terminal.old) }
{
    if !is_answered(line)? {
        return Err(TransceiveFault::Dead);
    }
    terminal.reset(params);
    Ok(())
}

/// Asks for RESYNCH until the card answers, or the greatest number of times. Returns whether it answered.
fn is_answered<L: TerminalLine>(line: &mut L) -> Result<bool, TransceiveFault>
    ensures { (talks : List Talk) × Adds (L.said line.old) (L.said line.new) talks
        × Asks most_resynchs talks (told_of result) }
{
    let mut room = [0; LONGEST_ARRIVAL];
    for _ in 0..MOST_RESYNCHS {
        match line.transceive(&REQUEST, 1, &mut room) {
            Ok(heard) if is_answer(heard, &room) => return Ok(true),
            Ok(_) => {}
            Err(fault) => return Err(TransceiveFault::Line(fault)),
        }
    }
    Ok(false)
}

/// Whether what came is the answer to RESYNCH.
fn is_answer(heard: Received, room: &[u8]) -> bool
    requires { FitsRoom heard room.now }
    ensures { Decides result (arrived heard room.now ≡ answered) }
{
    match heard {
        Received::Octets(count) => room[..count] == RESPONSE[..],
        Received::Nothing => false,
    }
}
