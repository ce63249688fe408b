//! A check of a forest that comes in pieces. The caller keeps the state, and nothing is allocated.

ghost use Rattle.std.specs.Prelude.{◌≡◌, ◌≤◌, ◌<◌, Some};
ghost use Rattle.tlv_core.specs.Forest.{largest};
ghost use Rattle.c_lent.specs.Verdict.{wrong_argument};
ghost use Rattle.c_lent.specs.LentCheck.{IsBegunCheck, CheckFed, CheckEnded};
ghost use Rattle.c_lent.specs.Pieces.{told_checked};

use crate::kept_check::CCheck;
use crate::verdict::Verdict;
use octet_core::Stop;
use tlv_core::{LARGEST_FOREST, LentCheck, TlvReason};

/// Begins a check of a forest of at most `max` octets. The state may have any value before.
pub fn lent_check_begin(state: &mut CCheck, max: usize) -> Verdict
    ensures ok { max ≤ largest → IsBegunCheck max state.new result }
    ensures argument { largest < max → (result ≡ wrong_argument 0) × (state.new ≡ state.old) }
{
    if max > LARGEST_FOREST {
        return Verdict::argument();
    }
    *state = CCheck::of(&LentCheck::begin(max));
    Verdict::ok(0)
}

/// Feeds the next octets to a check.
pub fn lent_check_feed(state: &mut CCheck, piece: &[u8]) -> Verdict
    ensures { CheckFed state.old state.new piece.now result }
{
    let Some(mut check) = state.fitting() else {
        return Verdict::argument();
    };
    let answer = check.feed(piece);
    *state = CCheck::of(&check);
    checked(answer, piece.len())
}

/// Ends a check, and returns the verdict on all octets that it was fed: `OK` with place 0 if they are a forest, `SHORT`
/// at their end if a forest could continue, or the refusal.
pub fn lent_check_finish(state: &CCheck) -> Verdict
    ensures { CheckEnded state.now result }
{
    match state.fitting() {
        Some(check) => Verdict::ended(check.finish()),
        None => Verdict::argument(),
    }
}

/// Returns the verdict for the result of a check on a piece of this length.
pub fn checked(answer: Result<(), Stop<TlvReason>>, count: usize) -> Verdict
    ensures { result ≡ told_checked count answer }
{
    match answer {
        Ok(()) => Verdict::more(count),
        Err(stop) => Verdict::stopped(stop),
    }
}
