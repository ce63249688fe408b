//! The replay of one end over a file.

ghost use Rattle.std.specs.Prelude.{◌≡◌, Some, None, Ok, Err, IfOk, IfErr, OnOk, string_bytes};
ghost use Rattle.exchange_core.specs.declared.replaying.ReplayFault.TheVariants.{Differs, Memory};
ghost use Rattle.exchange_core.specs.Replay.{Replays, IfDiffers, replay_from, replay_line, replay_lines, refused};
ghost use Rattle.exchange_core.specs.Run.{IsRun};

use crate::end::{Effect, Replayed};
use crate::params::params_of;
use atr_core::T1Params;
use block_core::Side;
use exchange_text::{Exchange, Line};
use octet_core::{Named, Text};
use std::alloc::{AllocError, Global};
use std::error::Error;
use std::fmt::{self, Display, Formatter, Write};
use t1_core::{Card, Terminal};

/// The number of the line with the answer to reset. Line 1 is the header.
const ATR_LINE: usize = 2;

/// The number of the first line after the answer to reset.
pub(crate) const FIRST_LINE: usize = 3;

/// Why a replay failed.
#[derive(Debug, PartialEq, Eq, Drop)]
pub enum ReplayFault {
    /// At this line of the text, counted from 1, the end gives something else: its turn as a line, `refused` and a
    /// name, or `nothing`.
    Differs { line: usize, gives: Text },
    /// Out of memory.
    Memory,
}

/// `line N: Differs`, or `memory`. The text of what the end gives is left out, since it may be a message.
impl Display for ReplayFault {
    ghost use Rattle.std.specs.Prelude.{Some};
    ghost use Rattle.exchange_core.specs.Faults.{replay_fault_text};

    ghost output = { λ fault. Some (replay_fault_text fault) };

    fn fmt<W: Write>(&self, f: &mut Formatter<W>) -> fmt::Result {
        match self {
            ReplayFault::Differs { line, .. } => write!(f, "line {line}: Differs"),
            ReplayFault::Memory => f.write_str("memory"),
        }
    }
}

impl Error for ReplayFault {}

impl From<AllocError> for ReplayFault {
    ghost from_gives = { λ _ fault. fault ≡ Memory };

    fn from(_error: AllocError) -> ReplayFault {
        ReplayFault::Memory
    }
}

/// Replays one end of an exchange: a new end, with the parameters of the answer to reset.
///
/// The end is called with each line that goes into it, and each line that it should give has to be its last turn. Into
/// a terminal go the application's calls, the card's blocks, and `quiet`. Into a card go its host's calls and the
/// terminal's blocks.
///
/// A line has to match each turn once, before the next call. What happened to a block that the end sends isn't
/// compared. `Differs` has the number of a line:
///
/// - the first line where the end gives something else;
/// - the line after the last, if no line has matched the end's last turn;
/// - line 2, if the octets aren't one whole answer to reset, or if that has no parameters of T=1.
///
/// `Memory` if memory runs out.
pub fn replay(alloc: Global, exchange: &Exchange, side: Side) -> Result<(), ReplayFault>
    ensures agrees { OnOk result (Replays exchange.now.atr exchange.now.lines side None) }
    ensures run { OnOk result (IsRun exchange.now.atr exchange.now.lines side) }

    ensures differs { IfErr result (λ fault. IfDiffers fault
        (λ line gives. Replays exchange.now.atr exchange.now.lines side (Some (line, gives)))) }
{
    let params = match params_of(exchange.atr()) {
        Ok(params) => params,
        Err(fault) => return differs(ATR_LINE, refused(alloc, fault.name())?),
    };
    replay_from(alloc, params, exchange.lines().get(), side)
}

/// Replays a new end with these parameters over the lines.
fn replay_from(
    alloc: Global,
    params: T1Params,
    lines: &[Line],
    side: Side,
) -> Result<(), ReplayFault>
    ensures agrees { OnOk result (replay_from (Ok params.ifsc) lines.now side ≡ None) }
    ensures differs { IfErr result (λ fault. IfDiffers fault
        (λ line gives. replay_from (Ok params.ifsc) lines.now side ≡ Some (line, gives))) }
{
    match side {
        Side::Terminal => replay_lines(alloc, Terminal::new(alloc, params)?, lines),
        Side::Card => replay_lines(alloc, Card::new(alloc, params)?, lines),
    }
}

/// Replays an end over the lines.
fn replay_lines<E: Replayed + Drop>(
    alloc: Global,
    mut end: E,
    lines: &[Line],
) -> Result<(), ReplayFault>
    ensures agrees { OnOk result (replay_lines E.end lines.now 3 end None ≡ None) }
    ensures differs { IfErr result (λ fault. IfDiffers fault
        (λ line gives. replay_lines E.end lines.now 3 end None ≡ Some (line, gives))) }
{
    let mut number = FIRST_LINE;
    let mut pending = None;
    for line in lines {
        pending = replay_line(alloc, &mut end, pending, line, number)?;
        number += 1;
    }
    match pending {
        None => Ok(()),
        Some(turn) => differs(number, end.given(&turn).text(alloc)?),
    }
}

/// Replays a line, and returns the turn that no line has matched after it.
pub(crate) fn replay_line<E: Replayed>(
    alloc: Global,
    end: &mut E,
    pending: Option<E::Turn>,
    line: &Line,
    number: usize,
) -> Result<Option<E::Turn>, ReplayFault>
    ensures goes_on { IfOk result (λ after.
        replay_line E.end end.old pending line.now ≡ Ok (end.new, after)) }
    ensures differs { IfErr result (λ fault. IfDiffers fault (λ at gives.
        (at ≡ number) × (replay_line E.end end.old pending line.now ≡ Err gives))) }
{
    match end.hears(pending, line) {
        Effect::Passed(pending) => Ok(pending),
        Effect::Called(Ok(turn)) => Ok(Some(turn)),
        Effect::Called(Err(fault)) => differs(number, refused(alloc, E::refusal(fault))?),
        Effect::Early(turn) => differs(number, end.given(&turn).text(alloc)?),
        Effect::Said(None) => differs(number, String::from_str(alloc, "nothing")?),
        Effect::Said(Some(turn)) => {
            let given = end.given(&turn);
            if given.is_met_by(line) {
                Ok(None)
            } else {
                differs(number, given.text(alloc)?)
            }
        }
    }
}

/// Returns the text of a refused call.
fn refused(alloc: Global, name: &str) -> Result<String, AllocError>
    ensures { IfOk result (λ text. string_bytes text ≡ refused name.now) }
{
    format!(in alloc; "refused {name}")
}

/// Returns that the file differs at a line, where the end gives this text.
fn differs<T>(line: usize, gives: String) -> Result<T, ReplayFault>
    ensures { result ≡ Err (Differs line (string_bytes gives)) }
{
    Err(ReplayFault::Differs {
        line,
        gives: Text::of(gives),
    })
}
