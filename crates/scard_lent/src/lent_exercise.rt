//! Which rules and states of T=1 a block exercises (ISO/IEC 7816-3:2006, clause 11.6). Nothing is allocated.

ghost use Rattle.std.specs.Prelude.{◌≡◌, ◌≢◌, IfSome, IfNone};
ghost use Rattle.c_lent.specs.Verdict.{ok_at, wrong_argument};
ghost use Rattle.c_lent.specs.KeptJudge.{side_of};
ghost use Rattle.c_lent.specs.LentJudge.{arrival_of};
ghost use Rattle.c_lent.specs.LentExercise.{IsExercised};

use c_lent::kept_judge::CJudge;
use c_lent::lent_exercise::CExercise;
use c_lent::verdict::Verdict;

/// Says which rules octets of an end keep or break as one block, and what was due. The judge doesn't take them:
/// `scard_lent_judge_block` does, with the same arguments. Returns `ARGUMENT` for another number of an end or an arrival.
/// Then nothing changes.
#[unsafe(no_mangle)]
pub extern "C" fn scard_lent_judge_exercise(
    state: &CJudge,
    from: u8,
    octets: &[u8],
    arrival: u8,
    came: &[u8],
    out: &mut CExercise,
) -> Verdict
    ensures exercised { IfSome (side_of from)
        (λ side. IfSome (arrival_of arrival came.entry) (λ how.
        (result ≡ ok_at 0) × IsExercised state.now side octets.now how out.new)) }
    ensures side { IfNone (side_of from) (result ≡ wrong_argument 0) }
    ensures arrival { IfNone (arrival_of arrival came.entry) (result ≡ wrong_argument 0) }
    ensures stays { result.status ≢ 0 → out.new ≡ out.old }
{
    c_lent::lent_exercise::lent_judge_exercise(state, from, octets, arrival, came, out)
}
