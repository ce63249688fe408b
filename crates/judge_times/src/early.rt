//! When a terminal's block comes too early (ISO/IEC 7816-3:2006, 11.4.3).

ghost use Rattle.std.specs.Prelude.{◌≡◌, ◌<◌, ◌^◌};
ghost use Rattle.judge_times.specs.Waiting.{early_after_card, early_alone, early_before, early_by, early_with, earliness, granted_or_one, least_time};

use crate::timing::{Early, Etu, Interval, Timing, etu_of, granted, waited, waited_by};
use atr_core::T1Params;
use judge_core::Heard;

/// CGT: the least time between characters of a block, in elementary time units.
const LEAST_CHARACTER: u64 = 11;

/// BGT: the least time between blocks of opposite directions, in elementary time units (11.4.3).
const BLOCK_GUARD: u64 = 22;

/// Returns by how much a terminal's block is early if it comes now. It depends on what the terminal's last block granted
/// the card, as the card heard it, and on the clock in hertz.
pub fn earliness(
    params: T1Params,
    clock: Option<u64>,
    timing: Timing,
    heard: Heard,
) -> Option<Early>
    ensures { result ≡ earliness params clock timing heard }
{
    early_by(
        params,
        clock,
        granted_or_one(granted(heard)),
        etu_of(timing.rates),
        waited(timing),
        waited_by(timing.now, timing.came),
    )
}

/// Returns what is granted, or 1 if that isn't known.
fn granted_or_one(granted: Option<u8>) -> u8
    ensures { result ≡ granted_or_one granted }
{
    match granted {
        Some(multiple) => multiple,
        None => 1,
    }
}

/// Returns by how much a block is early, if everything that decides it is known.
fn early_by(
    params: T1Params,
    clock: Option<u64>,
    multiple: u8,
    etu: Option<Etu>,
    waited: Option<Interval>,
    came: Option<Interval>,
) -> Option<Early>
    ensures { result ≡ early_by params clock multiple etu waited came }
{
    match (clock, etu, waited) {
        (Some(clock), Some(etu), Some(waited)) => {
            let alone = early_alone(params, clock, multiple, etu, waited);
            early_with(clock, etu, alone, came)
        }
        _ => None,
    }
}

/// Returns by how much a block is early: not at all once the terminal's waiting time is over; until then by what is
/// `alone` in the trace, or by BGT after a block of the card that came.
fn early_with(clock: u64, etu: Etu, alone: Option<Early>, came: Option<Interval>) -> Option<Early>
    ensures { result ≡ early_with clock etu alone came }
{
    match (alone, came) {
        (None, _) => None,
        (Some(alone), None) => Some(alone),
        (Some(_), Some(came)) => early_after_card(clock, etu, came),
    }
}

/// Returns by how much a block comes before the waiting time of the terminal's own block is over.
fn early_alone(
    params: T1Params,
    clock: u64,
    multiple: u8,
    etu: Etu,
    waited: Interval,
) -> Option<Early>
    ensures { result ≡ early_alone params clock multiple etu waited }
{
    let wait = multiple as u128 * params.bwt(etu.fi, etu.di) as u128;
    early_before(least_time(clock, wait, etu, waited.octets), waited.elapsed)
}

/// Returns by how much a block comes before BGT after a block of the card is over.
fn early_after_card(clock: u64, etu: Etu, came: Interval) -> Option<Early>
    ensures { result ≡ early_after_card clock etu came }
{
    let wait = BLOCK_GUARD as u128 * etu.fi as u128;
    early_before(least_time(clock, wait, etu, came.octets), came.elapsed)
}

/// Returns a block that came before the least time, if it did.
fn early_before(least: u128, elapsed: u64) -> Option<Early>
    ensures { result ≡ early_before least elapsed }
{
    if (elapsed as u128) < least {
        Some(Early {
            elapsed,
            least: least.min(u64::MAX as u128) as u64,
        })
    } else {
        None
    }
}

/// Returns the least time in microseconds from a block of so many octets to the terminal's next one, if the terminal
/// waits for this after the last octet, in parts of an elementary time unit, `fi` of them in one unit.
fn least_time(clock: u64, wait: u128, etu: Etu, octets: usize) -> u128
    requires { wait < 2 ^ 90 }
    ensures { result ≡ least_time clock wait etu octets }
{
    let per_second = (etu.di as u128 * clock as u128).max(1);
    let character = LEAST_CHARACTER * etu.fi as u64;
    (wait + octets.saturating_sub(1) as u128 * character as u128) * 1_000_000 / per_second
}
