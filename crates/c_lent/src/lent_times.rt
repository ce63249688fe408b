//! When a block comes too late or too early (ISO/IEC 7816-3:2006, 11.4.3). The caller keeps the times, and nothing is
//! allocated.

ghost use Rattle.std.specs.Prelude.{◌≡◌, ◌≢◌, IfSome, IfNone};
ghost use Rattle.judge_times.specs.Clocked.{least_after, new_clocked};
ghost use Rattle.c_lent.specs.Atr.{t1_values};
ghost use Rattle.c_lent.specs.Verdict.{ok_at, wrong_argument};
ghost use Rattle.c_lent.specs.KeptJudge.{side_of};
ghost use Rattle.c_lent.specs.LentJudge.{arrival_of};
ghost use Rattle.c_lent.specs.KeptTimes.{clocked_of, moments_of, rates_in, IsBegun};
ghost use Rattle.c_lent.specs.LentTimes.{over_mark, timed_shown, CanBegin, TimesBlock};

use crate::atr::{CRates, CT1};
use crate::judge_numbers::side_of;
use crate::kept_judge::CJudge;
use crate::kept_times::{CMoments, CTimes};
use crate::lent_judge::arrival_of;
use crate::verdict::Verdict;
use atr_core::T1Params;
use judge_times::{OffTime, Timed};

/// What is said of the time of a block.
#[repr(C)]
#[derive(Clone, Copy)]
pub struct CTimed {
    /// How many microseconds after the block before it began.
    pub elapsed: u64,
    /// How many microseconds are permitted: at most for a late block, and at least for an early one.
    pub limit: u64,
    /// 0 neither, 1 late, 2 early.
    pub off: u8,
    /// Whether the card's time to answer was over when the block began.
    pub over: u8,
}

/// Begins the times of a line at a reset of a card with these parameters of T=1, by a clock of `hertz`. The state may
/// have any value before.
pub fn lent_times_begin(times: &mut CTimes, params: &CT1, rates: &CRates, hertz: u32) -> Verdict
    ensures ok { CanBegin params.now hertz → (result ≡ ok_at 0) × IsBegun times.new
        × (clocked_of times.new
        ≡ new_clocked (t1_values params.now) (rates_in rates.now.fi rates.now.di) hertz) }
    ensures argument { (CanBegin params.now hertz → ⊥) →
        (result ≡ wrong_argument 0) × (times.new ≡ times.old) }
{
    let CT1 { ifsc, bwi, cwi } = *params;
    if hertz == 0 || T1Params::new(ifsc, bwi, cwi).is_none() {
        return Verdict::argument();
    }
    *times = CTimes {
        least: 0,
        sent_moment: 0,
        sent_octets: 0,
        came_moment: 0,
        came_octets: 0,
        hertz,
        fi: rates.fi,
        di: rates.di,
        has_sent: 0,
        has_came: 0,
        ifsc,
        bwi,
        cwi,
    };
    Verdict::ok(0)
}

/// Takes octets of an end as one block, with its moments, before the judge takes them. Says whether the block came too
/// late or too early.
pub fn lent_times_block(
    times: &mut CTimes,
    judge: &CJudge,
    from: u8,
    octets: &[u8],
    arrival: u8,
    came: &[u8],
    moments: &CMoments,
    out: &mut CTimed,
) -> Verdict
    ensures timed { IsBegun times.old → IfSome (side_of from) (λ side.
        IfSome (arrival_of arrival came.entry) (λ how.
        IfSome (least_after times.old.least (moments_of moments.now)) (λ least. (result ≡ ok_at 0)
        × IsBegun times.new × TimesBlock times.old judge.now side octets.now how
        (moments_of moments.now) least times.new out.new))) }
    ensures unfit { (IsBegun times.old → ⊥) → result ≡ wrong_argument 0 }
    ensures side { IfNone (side_of from) (result ≡ wrong_argument 0) }
    ensures arrival { IfNone (arrival_of arrival came.entry) (result ≡ wrong_argument 0) }
    ensures falls { IfNone (least_after times.old.least (moments_of moments.now))
        (result ≡ wrong_argument 0) }
    ensures stays { result.status ≢ 0 → (times.new ≡ times.old) × (out.new ≡ out.old) }
{
    let Some(side) = side_of(from) else {
        return Verdict::argument();
    };
    let Some(how) = arrival_of(arrival, came) else {
        return Verdict::argument();
    };
    let Some(mut clocked) = times.clocked() else {
        return Verdict::argument();
    };
    let mut monitor = judge.monitor();
    let heard = monitor.card.heard;
    let report = monitor.block(side, octets, how);
    let Some(timed) = clocked.block(heard, report.said, side, octets.len(), moments.moments())
    else {
        return Verdict::argument();
    };
    *times = times.with_blocks(&clocked);
    *out = CTimed::of(timed);
    Verdict::ok(0)
}

impl CTimed {
    fn of(timed: Timed) -> CTimed
        ensures { result ≡ timed_shown timed }
    {
        let over = over_mark(timed.over);
        match timed.off {
            OffTime::No => CTimed {
                elapsed: 0,
                limit: 0,
                off: 0,
                over,
            },
            OffTime::Late(late) => CTimed {
                elapsed: late.elapsed,
                limit: late.permitted,
                off: 1,
                over,
            },
            OffTime::Early(early) => CTimed {
                elapsed: early.elapsed,
                limit: early.least,
                off: 2,
                over,
            },
        }
    }
}

fn over_mark(over: bool) -> u8
    ensures { result ≡ over_mark over }
{
    if over { 1 } else { 0 }
}
