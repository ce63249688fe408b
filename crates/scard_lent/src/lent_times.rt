//! When a block comes too late or too early (ISO/IEC 7816-3:2006, 11.4.3). The caller keeps the times, and nothing is
//! allocated.

ghost use Rattle.std.specs.Prelude.{◌≡◌, ◌≢◌, IfSome, IfNone};
ghost use Rattle.judge_times.specs.Clocked.{least_after, new_clocked};
ghost use Rattle.c_lent.specs.Atr.{t1_values};
ghost use Rattle.c_lent.specs.Verdict.{ok_at, wrong_argument};
ghost use Rattle.c_lent.specs.KeptJudge.{side_of};
ghost use Rattle.c_lent.specs.LentJudge.{arrival_of};
ghost use Rattle.c_lent.specs.KeptTimes.{clocked_of, moments_of, rates_in, IsBegun};
ghost use Rattle.c_lent.specs.LentTimes.{CanBegin, TimesBlock};

use c_lent::atr::{CRates, CT1};
use c_lent::kept_judge::CJudge;
use c_lent::kept_times::{CMoments, CTimes};
use c_lent::lent_times::CTimed;
use c_lent::verdict::Verdict;

/// Begins the times of a line at a reset of a card with these parameters of T=1, by a clock of `hertz`. The state may
/// have any value before. Returns `ARGUMENT` for a clock of 0 hertz and for parameters that aren't valid. Then nothing
/// changes.
#[unsafe(no_mangle)]
pub extern "C" fn scard_lent_times_begin(
    times: &mut CTimes,
    params: &CT1,
    rates: &CRates,
    hertz: u32,
) -> Verdict
    ensures ok { CanBegin params.now hertz → (result ≡ ok_at 0) × IsBegun times.new
        × (clocked_of times.new
        ≡ new_clocked (t1_values params.now) (rates_in rates.now.fi rates.now.di) hertz) }
    ensures argument { (CanBegin params.now hertz → ⊥) →
        (result ≡ wrong_argument 0) × (times.new ≡ times.old) }
{
    c_lent::lent_times::lent_times_begin(times, params, rates, hertz)
}

/// Takes octets of an end as one block, with its moments, before the judge takes them. Says whether the block came too
/// late or too early. Returns `ARGUMENT` for another number of an end or an arrival, for a moment below an earlier one,
/// and for times that weren't begun. Then nothing changes.
#[unsafe(no_mangle)]
pub extern "C" fn scard_lent_times_block(
    times: &mut CTimes,
    judge: &CJudge,
    from: u8,
    octets: &[u8],
    arrival: u8,
    came: &[u8],
    moments: &CMoments,
    out: &mut CTimed,
) -> Verdict
    ensures timed { IsBegun times.old → IfSome (side_of from) (λ side.
        IfSome (arrival_of arrival came.entry) (λ how.
        IfSome (least_after times.old.least (moments_of moments.now)) (λ least. (result ≡ ok_at 0)
        × IsBegun times.new × TimesBlock times.old judge.now side octets.now how
        (moments_of moments.now) least times.new out.new))) }
    ensures unfit { (IsBegun times.old → ⊥) → result ≡ wrong_argument 0 }
    ensures side { IfNone (side_of from) (result ≡ wrong_argument 0) }
    ensures arrival { IfNone (arrival_of arrival came.entry) (result ≡ wrong_argument 0) }
    ensures falls { IfNone (least_after times.old.least (moments_of moments.now))
        (result ≡ wrong_argument 0) }
    ensures stays { result.status ≢ 0 → (times.new ≡ times.old) × (out.new ≡ out.old) }
{
    c_lent::lent_times::lent_times_block(times, judge, from, octets, arrival, came, moments, out)
}
