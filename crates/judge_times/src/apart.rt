//! Times around a block of another logical connection, of which none is judged.

ghost use Rattle.std.specs.Prelude.{◌≡◌};
ghost use Rattle.judge_times.specs.Waiting.{early_as, is_timed, late_as, timed_as};

use crate::timing::{Early, Late, Timing};
use judge_core::{Said, Side};

/// Whether the time of a block counts: not that of one of another logical connection.
fn is_timed(said: Said) -> bool
    ensures { result ≡ is_timed said }
{
    !matches!(said, Said::Elsewhere)
}

/// Returns what is known about the times after a block of so many octets.
pub fn timed_as(said: Said, timing: Timing, from: Side, octets: usize) -> Timing
    ensures { result ≡ timed_as said timing from octets }
{
    if is_timed(said) {
        timing.timed(from, octets)
    } else {
        timing.untimed()
    }
}

/// Returns by how much a card's block is late, of what the monitor says this.
pub fn late_as(said: Said, late: Option<Late>) -> Option<Late>
    ensures { result ≡ late_as said late }
{
    if is_timed(said) { late } else { None }
}

/// Returns by how much a terminal's block is early, of what the monitor says this.
pub fn early_as(said: Said, early: Option<Early>) -> Option<Early>
    ensures { result ≡ early_as said early }
{
    if is_timed(said) { early } else { None }
}
