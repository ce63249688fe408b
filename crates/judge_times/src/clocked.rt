//! The times of a line, taken block by block (ISO/IEC 7816-3:2006, 11.4.3).

ghost use Rattle.std.specs.Prelude.{◌≡◌, IfSome, IfNone, None, Some};
ghost use Rattle.judge_times.specs.Clocked.{clocked_after, least_after, new_clocked, off_early, off_late, raised, timed_by, with_moments};
ghost use Rattle.judge_times.specs.Waiting.{earliness};

use crate::apart::{early_as, late_as, timed_as};
use crate::early::earliness;
use crate::timing::{Early, Late, Rates, Timing, lateness};
use atr_core::T1Params;
use judge_core::{Heard, Said, Side};

/// The moments of a block in microseconds, each if it is known.
#[derive(Clone, Copy)]
pub struct Moments {
    /// When its first octet began.
    pub first: Option<u64>,
    /// When its last octet began.
    pub last: Option<u64>,
}

/// Whether a block came too late or too early.
#[derive(Clone, Copy)]
pub enum OffTime {
    /// It came neither late nor early, or too little is known.
    No,
    /// A card's block that came too late.
    Late(Late),
    /// A terminal's block that came too early.
    Early(Early),
}

/// What is said of the time of a block.
#[derive(Clone, Copy)]
pub struct Timed {
    /// Whether the card's time to answer was over when the block began.
    pub over: bool,
    pub off: OffTime,
}

/// The times on a line since a reset of the card.
#[derive(Drop)]
pub struct Clocked {
    /// The parameters of T=1, with BWT and CWT.
    pub params: T1Params,
    /// The frequency of the card's clock in hertz.
    pub clock: u64,
    /// The last moment of a block so far, or 0.
    pub least: u64,
    pub timing: Timing,
}

impl Clocked {
    /// Returns the times at a reset of a card with these parameters, F and D, by a clock of this frequency in hertz.
    pub fn new(params: T1Params, rates: Rates, clock: u64) -> Clocked
        ensures { result ≡ new_clocked params rates clock }
    {
        Clocked {
            params,
            clock,
            least: 0,
            timing: Timing::new(rates),
        }
    }

    /// Takes a block of so many octets, and says whether it came too late or too early.
    ///
    /// `heard` is what the card heard of the terminal's last block before this one, and `said` what the monitor says of
    /// this one. The result is `None` if a moment is below an earlier one. Then nothing changes.
    pub fn block(
        &mut self,
        heard: Heard,
        said: Said,
        from: Side,
        octets: usize,
        moments: Moments,
    ) -> Option<Timed>
        ensures taken { IfSome (least_after self.old.least moments) (λ least.
            (result ≡ Some (timed_by self.old (with_moments self.old.timing moments) heard said from))
            × (self.new ≡ clocked_after self.old (with_moments self.old.timing moments) said from octets
            least)) }
        ensures falls { IfNone (least_after self.old.least moments)
            ((result ≡ None) × (self.new ≡ self.old)) }
    {
        let Some(least) = least_after(self.least, moments) else {
            return None;
        };
        let timing = with_moments(self.timing, moments);
        let timed = self.timed(timing, heard, said, from);
        self.least = least;
        self.timing = timed_as(said, timing, from, octets);
        Some(timed)
    }

    /// Returns what is said of the time of a block that begins now: a card's can be late, and a terminal's early.
    fn timed(&self, timing: Timing, heard: Heard, said: Said, from: Side) -> Timed
        ensures { result ≡ timed_by self.now timing heard said from }
    {
        let late = lateness(self.params, Some(self.clock), timing, heard);
        let off = match from {
            Side::Terminal => off_early(early_as(said, self.early(timing, heard))),
            Side::Card => off_late(late_as(said, late)),
        };
        Timed {
            over: late.is_some(),
            off,
        }
    }

    /// Returns by how much a block of the terminal is early if it begins now.
    fn early(&self, timing: Timing, heard: Heard) -> Option<Early>
        ensures { result ≡ earliness self.now.params (Some self.now.clock) timing heard }
    {
        earliness(self.params, Some(self.clock), timing, heard)
    }
}

/// Returns the least moment after a block, unless a moment of it is below an earlier one.
fn least_after(least: u64, moments: Moments) -> Option<u64>
    ensures { result ≡ least_after least moments }
{
    match raised(least, moments.first) {
        Some(first) => raised(first, moments.last),
        None => None,
    }
}

/// Returns the least moment after this one, unless it is below an earlier one.
fn raised(least: u64, moment: Option<u64>) -> Option<u64>
    ensures { result ≡ raised least moment }
{
    match moment {
        Some(moment) if moment < least => None,
        Some(moment) => Some(moment),
        None => Some(least),
    }
}

fn with_moments(timing: Timing, moments: Moments) -> Timing
    ensures { result ≡ with_moments timing moments }
{
    Timing {
        now: moments.first,
        until: moments.last,
        ..timing
    }
}

fn off_late(late: Option<Late>) -> OffTime
    ensures { result ≡ off_late late }
{
    match late {
        Some(late) => OffTime::Late(late),
        None => OffTime::No,
    }
}

fn off_early(early: Option<Early>) -> OffTime
    ensures { result ≡ off_early early }
{
    match early {
        Some(early) => OffTime::Early(early),
        None => OffTime::No,
    }
}
