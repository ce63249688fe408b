//! The limits of an exchange, and the waits within them.

ghost use Rattle.std.specs.Prelude.{◌≡◌, ◌*◌, List, ℕ};
ghost use Rattle.session_core.specs.Wire.{ruled, seen, is_set, gone, left_of, passed, time_of, spends, broken, waits, capped};

use crate::event::Next;
use crate::progress::{FOREVER, NO_SILENCE, Progress, Rules, is_set, mark};

/// Half of all numbers of a clock. A clock that would have gone on further went back.
const HALF: u64 = 9_223_372_036_854_775_807;

/// Returns how far the clock went on since a moment, or `back` if it went back. After its greatest number a clock
/// begins again at 0.
pub(crate) fn passed(now: u64, began: u64, back: u64) -> u64
    ensures { result ≡ passed now began back }
{
    let turned = now.wrapping_sub(began);
    if turned <= HALF { turned } else { back }
}

/// The greatest number of 32 bits. The product of two such numbers has at most 64 bits.
const MOST_SHORT: u64 = 4_294_967_295;

/// Returns the product of a time and a number, or the greatest time if that is less. A product that can't have more than
/// 64 bits takes less time than one that can.
pub(crate) fn product(one: u64, other: u64) -> u64
    ensures { result ≡ capped (one * other) }
{
    if one <= MOST_SHORT && other <= MOST_SHORT {
        one * other
    } else {
        one.saturating_mul(other)
    }
}

impl Rules {
    /// Returns how long so many octets take on the line. It is 0 if the line delivers whole bursts.
    pub(crate) fn time_of(&self, count: usize) -> u64
        ensures { result ≡ time_of (ruled self.now) count }
    {
        if self.after == NO_SILENCE {
            0
        } else {
            product(count as u64, self.octet)
        }
    }
}

impl Progress {
    /// Returns how much of the time of the exchange is over.
    fn gone(&self, rules: &Rules, now: u64) -> u64
        ensures { result ≡ gone (ruled rules.now) (seen self.now) now }
    {
        if is_set(rules.has_clock) {
            passed(now, self.began, 0)
        } else {
            self.spent
        }
    }

    /// Returns how much of it is left.
    #[inline(always)]
    pub(crate) fn left(&self, rules: &Rules, now: u64) -> u64
        ensures { result ≡ left_of (ruled rules.now) (seen self.now) now }
    {
        if rules.most_time == FOREVER {
            FOREVER
        } else {
            rules.most_time.saturating_sub(self.gone(rules, now))
        }
    }

    /// Adds to what is certainly over.
    pub(crate) fn spend(&mut self, time: u64)
        ensures { (seen self.new) ≡ spends (seen self.old) time }
    {
        self.spent = self.spent.saturating_add(time);
    }

    /// Waits for octets, no longer than what is left of the time.
    #[inline(never)]
    pub(crate) fn wait(&mut self, rules: &Rules, wanted: u64, now: u64) -> Next
        ensures { (burst : List ℕ) → waits (ruled rules.now) (seen self.old) burst wanted now
            ≡ record { progress = (seen self.new); burst = burst; next = result } }
    {
        let left = self.left(rules, now);
        self.asked = wanted.min(left);
        self.is_cut = mark(left < wanted);
        self.asked_at = now;
        self.interrupts = 0;
        Next::Wait(self.asked)
    }

    /// Returns how long the line has to be silent after a burst that isn't a whole block.
    pub(crate) fn broken(&self, rules: &Rules) -> u64
        ensures { result ≡ broken (ruled rules.now) (seen self.now) }
    {
        if is_set(rules.is_card) {
            (rules.bwt / 4 * 3).max(rules.cwt)
        } else {
            self.first
        }
    }
}
