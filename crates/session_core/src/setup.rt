//! The setup of a session, and the rules of its line that follow from it (ISO/IEC 7816-3, clause 11.4).

ghost use Rattle.std.specs.Prelude.{◌≡◌, ◌≤◌, ◌+◌, ◌*◌, SomeIff, true};
ghost use Rattle.atr_core.specs.T1.{IsUsable};
ghost use Rattle.session_core.specs.Setup.{t1_of, micros, clock_runs, in_second, etus, rules_with, rules_of, limits_of, fits_silence};

use crate::progress::{FOREVER, NO_SILENCE, Rules};
use atr_core::T1Params;

/// The most time of an exchange, if the setup has 0: an hour.
const MOST_TIME: u64 = 3_600_000_000;

/// The most blocks that a terminal sends in an exchange, if the setup has 0.
const MOST_BLOCKS: u32 = 262_144;

/// The setup of a session, for either end, as plain numbers. Times are in microseconds. A mark is set if it isn't 0.
#[repr(C)]
#[derive(Clone, Copy)]
pub struct Setup {
    /// The silence that ends a burst which is a whole block: at most CWT. 0 stands for BGT, and [`NO_SILENCE`] for a
    /// line that delivers whole bursts.
    pub silence: u64,
    /// The limits of one exchange of a terminal: its time and its blocks. 0 stands for an hour, and for 262,144 blocks.
    pub most_time: u64,
    pub most_blocks: u32,
    /// The frequency of the card's clock in hertz, at least 1,000.
    pub hertz: u32,
    /// Fi and Di, which are 372 and 1 until others are negotiated. Di is at most 64.
    pub fi: u16,
    pub di: u16,
    /// The parameters of T=1 from the card's answer to reset: IFSC, BWI and CWI.
    pub ifsc: u8,
    pub bwi: u8,
    pub cwi: u8,
    /// Whether events have a moment.
    pub has_clock: u8,
    /// Whether the line returns what is sent on it.
    pub has_echo: u8,
    /// Whether an I-block without information counts as a damaged block.
    pub refuses_empty: u8,
    /// Whether the host of a card also gets messages of fewer than four octets.
    pub host_takes_short: u8,
}

/// The limits of one exchange.
#[derive(Clone, Copy)]
pub struct Limits {
    pub time: u64,
    pub blocks: u32,
}

impl Limits {
    /// No limit.
    pub const NONE: Limits = Limits {
        time: FOREVER,
        blocks: u32::MAX,
    };

    /// Returns the limits with these values, 0 for the default.
    pub fn of(time: u64, blocks: u32) -> Limits
        ensures { result ≡ limits_of time blocks }
    {
        Limits {
            time: if time == 0 { MOST_TIME } else { time },
            blocks: if blocks == 0 { MOST_BLOCKS } else { blocks },
        }
    }
}

impl Setup {
    /// Returns the parameters of T=1, if they are valid.
    pub fn params(&self) -> Option<T1Params>
        ensures { SomeIff result (IsUsable (t1_of self.now)) (t1_of self.now) }
    {
        T1Params::new(self.ifsc, self.bwi, self.cwi)
    }

    /// Returns the rules of the line of an end, which `is_card` marks as a card. Returns `None` if no times can be
    /// computed from the clock, or if the silence is above CWT.
    pub fn rules(&self, params: T1Params, is_card: u8) -> Option<Rules>
        ensures { result ≡ rules_of self.now params is_card }
    {
        if !self.clock_runs() {
            return None;
        }
        let cwt = self.time(u64::from(params.cwt_etu()) * u64::from(self.fi));
        if !self.fits_silence(cwt) {
            return None;
        }
        let bwt = self
            .time(self.block_parts(params.bwt_cycles()))
            .max(cwt / 3 * 4 + 4);
        Some(self.rules_with(bwt, cwt, is_card))
    }

    /// Whether times can be computed from the clock.
    fn clock_runs(&self) -> bool
        ensures { result ≡ clock_runs self.now }
    {
        self.fi != 0 && (self.di != 0 && (self.di <= 64 && 1_000 <= self.hertz))
    }

    /// Whether the silence is at most CWT.
    fn fits_silence(&self, cwt: u64) -> bool
        ensures { result ≡ fits_silence self.now.silence cwt }
    {
        self.silence <= cwt || self.silence == NO_SILENCE
    }

    /// Returns a time in microseconds, rounded up. The unit of `parts` is an elementary time unit divided by Fi.
    fn time(&self, parts: u64) -> u64
        requires runs { clock_runs self.now ≡ true }
        requires most { parts ≤ 1099511627775 }
        ensures { result ≡ micros parts (in_second self.now) }
    {
        micros(parts, u64::from(self.di) * u64::from(self.hertz))
    }

    /// Returns BWT, which has 11 elementary time units and so many cycles of the clock, in the unit of `time`.
    fn block_parts(&self, cycles: u64) -> u64
        requires runs { clock_runs self.now ≡ true }
        requires most { cycles ≤ 11702108160 }
        ensures is { result ≡ 11 * self.now.fi + cycles * self.now.di }
        ensures most { result ≤ 1099511627775 }
    {
        11 * u64::from(self.fi) + cycles * u64::from(self.di)
    }

    /// Returns the time of so many elementary time units.
    fn etus(&self, count: u64) -> u64
        requires runs { clock_runs self.now ≡ true }
        requires most { count ≤ 22 }
        ensures { result ≡ etus self.now count }
    {
        self.time(count * u64::from(self.fi))
    }

    /// Returns the rules with these waiting times.
    fn rules_with(&self, bwt: u64, cwt: u64, is_card: u8) -> Rules
        requires runs { clock_runs self.now ≡ true }
        ensures { result ≡ rules_with self.now bwt cwt is_card }
    {
        let bgt = self.etus(22);
        let limits = Limits::of(self.most_time, self.most_blocks);
        Rules {
            bwt,
            cwt,
            bgt: if self.silence == NO_SILENCE { 0 } else { bgt },
            after: if self.silence == 0 { bgt } else { self.silence },
            octet: self.etus(12),
            most_time: if is_card != 0 { FOREVER } else { limits.time },
            most_blocks: limits.blocks,
            has_clock: self.has_clock,
            has_echo: self.has_echo,
            refuses_empty: self.refuses_empty,
            is_card,
        }
    }
}

/// Returns so many parts of a second, of which a second has `in_second`, in microseconds, rounded up.
fn micros(parts: u64, in_second: u64) -> u64
    requires parts { parts ≤ 1099511627775 }
    requires least { 1 ≤ in_second }
    requires most { in_second ≤ 274877906880 }
    ensures { result ≡ micros parts in_second }
{
    let whole = parts / in_second * 1_000_000;
    whole + (parts % in_second * 1_000_000 + (in_second - 1)) / in_second
}
