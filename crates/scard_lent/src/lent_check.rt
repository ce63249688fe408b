//! A check of a forest that comes in pieces. The caller keeps the state, and nothing is allocated.

ghost use Rattle.std.specs.Prelude.{◌≡◌, ◌≤◌, ◌<◌};
ghost use Rattle.tlv_core.specs.Forest.{largest};
ghost use Rattle.c_lent.specs.Verdict.{wrong_argument};
ghost use Rattle.c_lent.specs.LentCheck.{IsBegunCheck, CheckFed, CheckEnded};

use c_lent::kept_check::CCheck;
use c_lent::verdict::Verdict;

/// Begins a check of a forest of at most `max` octets. The state may have any value before. Returns `ARGUMENT` if `max`
/// is above 1,048,576. Then nothing changes.
#[unsafe(no_mangle)]
pub extern "C" fn scard_lent_check_begin(state: &mut CCheck, max: usize) -> Verdict
    ensures ok { max ≤ largest → IsBegunCheck max state.new result }
    ensures argument { largest < max → (result ≡ wrong_argument 0) × (state.new ≡ state.old) }
{
    c_lent::lent_check::lent_check_begin(state, max)
}

/// Feeds the next octets to a check. `MORE`: it took them all. `AT`: the octet at `place`, counted from the first that
/// was ever fed, is refused. Later calls refuse it again. `ARGUMENT`: the state isn't a check.
#[unsafe(no_mangle)]
pub extern "C" fn scard_lent_check_feed(state: &mut CCheck, piece: &[u8]) -> Verdict
    ensures { CheckFed state.old state.new piece.now result }
{
    c_lent::lent_check::lent_check_feed(state, piece)
}

/// Ends a check, and returns the verdict on all octets that it was fed: `OK` with place 0 if they are a forest, `SHORT`
/// at their end if a forest could continue, or the refusal. `ARGUMENT`: the state isn't a check.
#[unsafe(no_mangle)]
pub extern "C" fn scard_lent_check_finish(state: &CCheck) -> Verdict
    ensures { CheckEnded state.now result }
{
    c_lent::lent_check::lent_check_finish(state)
}
