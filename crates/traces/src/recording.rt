//! The exchange of what was seen.

ghost use Rattle.std.specs.Prelude.{◌≡◌, [], IfOk, OnOk};
ghost use Rattle.traces.specs.Recorded as recorded;
ghost use Rattle.traces.specs.Recorded.{lines_of, IsRecorded};
ghost use Rattle.traces.specs.Unseen.{unseen_in};

use crate::follower::Follower;
use crate::marking::marked;
use crate::trace::{Item, Trace};
use crate::unfit::{Unfit, unfit_in};
use atr_core::T1Params;
use exchange_core::{AtrFault, Exchange, Line, Version, copied, params_of};
use std::alloc::{AllocError, Global};
use std::error::Error;
use std::fmt::{self, Display, Formatter, Write};

/// Why there is no exchange of a trace.
#[derive(Clone, Copy, Debug, PartialEq, Eq)]
pub enum RecordFault {
    /// The answer to reset can't be used, with the fault that replay names.
    Refused(AtrFault),
    /// The item at this place, from 0, can't be recorded.
    Unfit { place: usize, why: Unfit },
    /// Out of memory.
    Memory,
}

/// `Refused: ` and the name that replay uses; `Unfit at `, the place and the reason; or `memory`.
impl Display for RecordFault {
    ghost use Rattle.std.specs.Prelude.{Some};
    ghost use Rattle.traces.specs.Faults.{record_fault_text};

    ghost output = { λ fault. Some (record_fault_text fault) };

    fn fmt<W: Write>(&self, f: &mut Formatter<W>) -> fmt::Result {
        match self {
            RecordFault::Refused(fault) => write!(f, "Refused: {fault}"),
            RecordFault::Unfit { place, why } => write!(f, "Unfit at {place}: {why}"),
            RecordFault::Memory => f.write_str("memory"),
        }
    }
}

impl Error for RecordFault {}

impl From<AllocError> for RecordFault {
    ghost use Rattle.traces.specs.declared.recording.RecordFault.{RecordFault};

    ghost from_gives = { λ _ fault. fault ≡ RecordFault.Memory };

    fn from(_error: AllocError) -> RecordFault {
        RecordFault::Memory
    }
}

/// Returns the exchange of a trace, with the lines that both applications must have said.
///
/// A line `note added` comes before each line that nobody saw. Such a line is a lost block or the end of a waiting time
/// that isn't in the trace, or a command or a reply whose last octet 00 stands for octets that nobody saw. The version
/// is 2 if the trace has a moment or a note is added.
///
/// It first refuses an answer to reset that can't be used, and then what can't be recorded ([`Unfit`]). `Memory` is
/// returned only if neither is wrong.
///
/// A new terminal and a new card take what the trace has for them. If an end was to send a block and the octets aren't
/// a block, they count as that block, damaged on its way. An end that differs from its table isn't called any more, and
/// no line of its application is added after that. Replay of the exchange names that line.
pub fn record_trace(alloc: Global, atr: &[u8], trace: &Trace) -> Result<Exchange, RecordFault>
    ensures { IsRecorded atr.now trace.now result }
{
    let params = match params_of(atr) {
        Ok(params) => params,
        Err(fault) => return Err(RecordFault::Refused(fault)),
    };
    let items = trace.items();
    if let Some((place, why)) = unfit_in(items) {
        return Err(RecordFault::Unfit { place, why });
    }
    let mut unseen = Vec::new(alloc);
    let lines = lines_of(alloc, params, items, &mut unseen)?;
    let version = version_with(unseen.as_slice(), version_of(items));
    let lines = marked(alloc, lines, unseen.as_slice())?;
    Ok(Exchange::proper(version, copied(alloc, atr)?, lines))
}

/// Returns the lines of the items, and adds to `unseen` the places of the lines that say what nobody saw.
#[tactic(auto, unfolding(crate::specs::Recorded::lines_of, crate::specs::Unseen::unseen_in))]
fn lines_of(
    alloc: Global,
    params: T1Params,
    items: &[Item],
    unseen: &mut Vec<usize>,
) -> Result<Vec<Line>, AllocError>
    requires { unseen.old.items ≡ [] }
    ensures lines { IfOk result (λ lines. lines.items ≡ lines_of params.ifsc items.now) }
    ensures unseen { OnOk result (unseen.new.items ≡ unseen_in params.ifsc items.now) }
{
    let mut follower = Follower::new(alloc, params)?;
    follower.run(items, unseen)?;
    Ok(follower.lines())
}

/// Returns the version of an exchange that has `version` without notes.
fn version_with(unseen: &[usize], version: Version) -> Version
    ensures { result ≡ recorded.version_with unseen.now version }
{
    if unseen.is_empty() {
        version
    } else {
        Version::Two
    }
}

/// Returns the version of an exchange of the items without notes.
fn version_of(items: &[Item]) -> Version
    ensures { result ≡ recorded.version_of items.now }
{
    let mut rest = items;
    while let [item, after @ ..] = rest {
        if matches!(item, Item::Moment(_)) {
            return Version::Two;
        }
        rest = after;
    }
    Version::One
}
