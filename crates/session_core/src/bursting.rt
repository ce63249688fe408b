//! The burst that comes after a block, and echoes.

ghost use Rattle.std.specs.Prelude.{◌≡◌, ◌&&◌, true, false, nat_eq, List, ℕ};
ghost use Rattle.std.specs.List.{starts_with};
ghost use Rattle.line_core.specs.Bursts.{HasHeard};
ghost use Rattle.session_core.specs.Wire.{ruled, seen, moment_with, is_set, since, forever, step_of, IsStep, waits, wait_in, is_over, owed_after, guard, moment_of, pcb_of, is_info, is_supervisory, is_echo, echoes_after, is_certain, is_refused, hands, counted, judges, judged, ends, goes_on, begun, weighed, hears, awaits, serves};

use crate::event::Next;
use crate::limits::passed;
use crate::progress::{
    EARLY, IN_TIME, LISTENING, MISSING, NO_SILENCE, Progress, Rules, SET, UNKNOWN, UNSET, is_set,
    mark,
};
use crate::sending::{MOST_NOISE, begin_with};
use line_core::Framer;

/// So many echoes in a row are no chance.
const MOST_ECHOES: u8 = 8;

/// PCBs below are of I-blocks (ISO/IEC 7816-3, clause 11.3.2.2).
const FIRST_NOT_INFO: u8 = 0x80;

/// PCBs from here on are of S-blocks.
const FIRST_SUPERVISORY: u8 = 0xC0;

impl Rules {
    /// Returns the time after a block was sent within which no octet of the other end can be there: 20 elementary time
    /// units.
    fn guard(&self) -> u64
        ensures { result ≡ guard (ruled self.now) }
    {
        self.octet.saturating_mul(5) / 3
    }
}

impl Progress {
    /// Returns how long a silence must be to end the burst.
    fn wait_in(&self, rules: &Rules, framer: &Framer) -> u64
        ensures { (burst : List ℕ) → HasHeard framer.now burst
            → result ≡ wait_in (ruled rules.now) (seen self.now) burst }
    {
        if framer.count == 0 {
            self.first
        } else if is_set(self.is_whole) {
            rules.after
        } else {
            rules.cwt
        }
    }

    /// Whether the burst is over without a silence.
    fn is_over(&self, rules: &Rules, framer: &Framer) -> bool
        ensures { (burst : List ℕ) → HasHeard framer.now burst
            → result ≡ is_over (ruled rules.now) (seen self.now) burst }
    {
        u64::from(MOST_NOISE) <= framer.count
            || (is_set(self.is_whole) && rules.after == NO_SILENCE)
    }

    /// Returns what the end owes after the burst.
    #[inline(always)]
    pub(crate) fn owed_after(&self, rules: &Rules, framer: &Framer) -> u64
        ensures { (burst : List ℕ) → HasHeard framer.now burst
            → result ≡ owed_after (ruled rules.now) (seen self.now) burst }
    {
        if framer.count == 0 {
            self.owed
        } else if !is_set(self.is_whole) {
            self.broken(rules)
        } else if rules.after < rules.bgt {
            rules.bgt
        } else {
            0
        }
    }

    /// Returns when a burst began whose first octet came now.
    fn moment(&self, rules: &Rules, now: u64) -> u8
        ensures { moment_with result ≡ moment_of (ruled rules.now) (seen self.now)
            (since now self.now.asked_at) }
    {
        if !is_set(rules.has_clock) || rules.after == NO_SILENCE {
            return UNKNOWN;
        }
        self.moment_since(rules, passed(now, self.asked_at, 0))
    }

    /// Returns when a burst began whose first octet came so long after the block was sent, on a line on which that says
    /// something.
    fn moment_since(&self, rules: &Rules, since: u64) -> u8
        requires clock { is_set rules.now.has_clock ≡ true }
        requires silence { nat_eq rules.now.after forever ≡ false }
        ensures { moment_with result ≡ moment_of (ruled rules.now) (seen self.now) since }
    {
        if rules.guard() <= since {
            IN_TIME
        } else if self.late < rules.guard() - since {
            EARLY
        } else {
            UNKNOWN
        }
    }
}

impl Progress {
    /// Whether the octets of a burst that are passed to the end may be an echo of its block.
    #[inline(always)]
    fn is_echo(&self, rules: &Rules, octets: &[u8], block: &[u8]) -> bool
        ensures { result ≡ is_echo (ruled rules.now) (seen self.now) octets.now block.now }
    {
        !is_set(rules.has_echo)
            && (!block.is_empty()
                && (may_begin_with(octets, block)
                    && begin_with(octets, block)
                    && !(is_info(octets) && self.began_at == IN_TIME)))
    }

    /// Whether an echo is certain.
    fn is_certain(&self, octets: &[u8]) -> bool
        ensures { result ≡ is_certain (seen self.now) octets.now }
    {
        (self.began_at == EARLY && (is_info(octets) || !is_set(self.is_quick)))
            || (is_supervisory(octets) || self.echoes == MOST_ECHOES)
    }

    /// Whether a burst counts as a damaged block.
    fn is_refused(&self, rules: &Rules, octets: &[u8], is_echo: bool) -> bool
        ensures { result ≡ is_refused (ruled rules.now) (seen self.now) octets.now is_echo }
    {
        is_set(self.is_whole)
            && (is_info(octets) && (is_echo || (is_set(rules.refuses_empty) && octets.len() == 4)))
    }

    /// Returns how many echoes came in a row after this burst.
    fn echoes_after(&self, is_echo: bool) -> u8
        ensures { result ≡ echoes_after is_echo (seen self.now) }
    {
        if is_echo {
            self.echoes.saturating_add(1).min(MOST_ECHOES)
        } else {
            0
        }
    }

    /// Notes what the end owes, and the echoes in a row.
    fn count(&mut self, owed: u64, is_echo: bool)
        ensures { (seen self.new) ≡ counted (seen self.old) owed is_echo }
    {
        self.echoes = self.echoes_after(is_echo);
        self.owed = owed;
    }

    /// Takes a burst that has ended.
    #[tactic(auto, using(crate::proofs::Parts::is_step), unfolding(crate::specs::Wire::hands))]
    #[inline(always)]
    fn hand(&mut self, rules: &Rules, octets: &[u8], is_echo: bool) -> Next
        ensures { (burst : List ℕ)
            → hands (ruled rules.now) (seen self.old) burst octets.now is_echo
            ≡ step_of (seen self.new) burst result }
    {
        if self.is_refused(rules, octets, is_echo) {
            self.owed = self.broken(rules);
            self.is_spoiled = SET;
            return self.stop(Next::Heard);
        }
        self.stop(Next::Heard)
    }

    /// Whether a burst is an echo for certain.
    fn is_known_echo(&self, octets: &[u8], is_echo: bool) -> bool
        ensures { result ≡ (is_echo && is_certain (seen self.now) octets.now) }
    {
        is_echo && self.is_certain(octets)
    }

    /// Takes a burst that has ended, unless it is an echo.
    #[tactic(auto, using(crate::proofs::Parts::is_step), unfolding(crate::specs::Wire::judges))]
    #[inline(always)]
    fn take(&mut self, rules: &Rules, octets: &[u8], is_echo: bool) -> Next
        ensures { (burst : List ℕ)
            → judges (ruled rules.now) (seen self.old) burst octets.now is_echo
            ≡ step_of (seen self.new) burst result }
    {
        if self.is_known_echo(octets, is_echo) {
            self.echoes = 0;
            return self.stop(Next::Echo);
        }
        self.hand(rules, octets, is_echo)
    }

    /// Judges a burst that has ended.
    #[tactic(auto, using(crate::proofs::Parts::is_step), unfolding(crate::specs::Wire::judged))]
    #[inline(always)]
    fn judge(&mut self, rules: &Rules, framer: &Framer, block: &[u8]) -> Next
        ensures { (burst : List ℕ) → HasHeard framer.now burst
            → judged (ruled rules.now) (seen self.old) burst block.now ≡ step_of (seen self.new) burst result }
    {
        let octets = framer.burst();
        let is_echo = self.is_echo(rules, octets, block);
        let owed = self.owed_after(rules, framer);
        self.count(owed, is_echo);
        self.take(rules, octets, is_echo)
    }

    /// Judges a burst that has ended. The calls in which that is rare share this function.
    #[inline(never)]
    fn judge_apart(&mut self, rules: &Rules, framer: &Framer, block: &[u8]) -> Next
        ensures { (burst : List ℕ) → HasHeard framer.now burst
            → judged (ruled rules.now) (seen self.old) burst block.now ≡ step_of (seen self.new) burst result }
    {
        self.judge(rules, framer, block)
    }

    /// Ends the burst after a silence.
    #[tactic(auto, using(crate::proofs::Parts::is_step), unfolding(crate::specs::Wire::ends))]
    pub(crate) fn end(&mut self, rules: &Rules, framer: &Framer, block: &[u8]) -> Next
        ensures { (burst : List ℕ) → HasHeard framer.now burst
            → ends (ruled rules.now) (seen self.old) burst block.now ≡ step_of (seen self.new) burst result }
    {
        if framer.count == 0 {
            self.stop(Next::Quiet)
        } else {
            self.judge_apart(rules, framer, block)
        }
    }

    /// Waits for more of the burst.
    #[inline(always)]
    fn wait_more(&mut self, rules: &Rules, framer: &Framer, now: u64) -> Next
        ensures { (burst : List ℕ) → HasHeard framer.now burst
            → waits (ruled rules.now) (seen self.old) burst (wait_in (ruled rules.now) (seen self.old) burst) now
            ≡ step_of (seen self.new) burst result }
    {
        let wanted = self.wait_in(rules, framer);
        self.wait(rules, wanted, now)
    }

    /// Waits for more of the burst, unless that is over.
    #[tactic(auto, using(crate::proofs::Parts::is_step), unfolding(crate::specs::Wire::goes_on))]
    #[inline(always)]
    pub(crate) fn go_on(&mut self, rules: &Rules, framer: &Framer, now: u64, block: &[u8]) -> Next
        ensures { (burst : List ℕ) → HasHeard framer.now burst
            → goes_on (ruled rules.now) (seen self.old) burst now block.now ≡ step_of (seen self.new) burst result }
    {
        if self.is_over(rules, framer) {
            self.judge_apart(rules, framer, block)
        } else {
            self.wait_more(rules, framer, now)
        }
    }

    /// Waits for more of the burst, unless that is over. The code that judges it is in place here, since a whole burst
    /// is over when its octets came.
    #[tactic(auto, using(crate::proofs::Parts::is_step), unfolding(crate::specs::Wire::goes_on))]
    #[inline(always)]
    fn go_on_at_once(&mut self, rules: &Rules, framer: &Framer, now: u64, block: &[u8]) -> Next
        ensures { (burst : List ℕ) → HasHeard framer.now burst
            → goes_on (ruled rules.now) (seen self.old) burst now block.now ≡ step_of (seen self.new) burst result }
    {
        if self.is_over(rules, framer) {
            self.judge(rules, framer, block)
        } else {
            self.wait_more(rules, framer, now)
        }
    }

    /// Notes when the burst began, if it hasn't begun yet.
    #[inline(always)]
    fn note(&mut self, rules: &Rules, framer: &Framer, now: u64)
        ensures { (burst : List ℕ) → HasHeard framer.now burst
            → (seen self.new) ≡ begun (ruled rules.now) (seen self.old) burst now }
    {
        if framer.count == 0 {
            self.began_at = self.moment(rules, now);
        }
    }

    /// Notes whether the burst is a whole block.
    #[inline(always)]
    pub(crate) fn weigh(&mut self, framer: &Framer)
        ensures { (burst : List ℕ) → HasHeard framer.now burst
            → (seen self.new) ≡ weighed (seen self.old) burst }
    {
        self.is_whole = mark(!is_set(self.is_spoiled) && framer.is_whole());
    }

    /// Takes octets of the burst.
    #[tactic(auto, using(crate::proofs::Parts::is_step), unfolding(crate::specs::Wire::hears))]
    #[inline(always)]
    pub(crate) fn hear(
        &mut self,
        rules: &Rules,
        framer: &mut Framer,
        octets: &[u8],
        is_garbled: bool,
        now: u64,
        block: &[u8],
    ) -> Next
        ensures { (burst : List ℕ) → HasHeard framer.old burst
            → IsStep (hears (ruled rules.now) (seen self.old) burst octets.now is_garbled now block.now) (seen self.new)
            framer.new result }
    {
        self.note(rules, framer, now);
        self.is_spoiled = mark(is_set(self.is_spoiled) || is_garbled);
        framer.feed(octets);
        self.weigh(framer);
        self.go_on_at_once(rules, framer, now, block)
    }

    /// Waits for the next block, as a card does.
    #[tactic(auto, using(crate::proofs::Parts::is_step), unfolding(crate::specs::Wire::awaits))]
    #[inline(never)]
    pub(crate) fn await_block(&mut self, rules: &Rules, framer: &mut Framer, now: u64) -> Next
        ensures { IsStep (awaits (ruled rules.now) (seen self.old) now) (seen self.new) framer.new
            result }
    {
        framer.restart();
        self.phase = LISTENING;
        self.is_spoiled = UNSET;
        self.is_whole = UNSET;
        self.began_at = UNKNOWN;
        self.wait(rules, self.first, now)
    }

    /// Begins to serve the terminal, or goes on after the line failed, as a card does.
    #[tactic(auto, using(crate::proofs::Parts::is_step), unfolding(crate::specs::Wire::serves))]
    pub fn serve(&mut self, rules: &Rules, framer: &mut Framer, now: u64) -> Next
        ensures { (burst : List ℕ) → HasHeard framer.old burst
            → IsStep (serves (ruled rules.now) (seen self.old) burst now) (seen self.new) framer.new result }
    {
        if rules.bgt < self.owed {
            self.drop_octets(rules, MISSING, now)
        } else {
            self.await_block(rules, framer, now)
        }
    }
}

/// Returns the PCB of a burst, its second octet, or 0 if it has none.
fn pcb_of(octets: &[u8]) -> u8
    ensures { result ≡ pcb_of octets.now }
{
    match octets {
        [_, pcb, ..] => *pcb,
        _ => 0,
    }
}

/// Whether a burst may begin with these octets, by its PCB alone. Most blocks that follow one another have other ones.
#[tactic(auto, using(crate::proofs::Parts::second_equal))]
fn may_begin_with(octets: &[u8], first: &[u8]) -> bool
    ensures { starts_with nat_eq octets.now first.now ≡ true → result ≡ true }
{
    first.len() < 2 || pcb_of(octets) == pcb_of(first)
}

/// Whether a burst is an I-block, if it is a whole block.
fn is_info(octets: &[u8]) -> bool
    ensures { result ≡ is_info octets.now }
{
    pcb_of(octets) < FIRST_NOT_INFO
}

/// Whether a burst is an S-block, if it is a whole block.
fn is_supervisory(octets: &[u8]) -> bool
    ensures { result ≡ is_supervisory octets.now }
{
    FIRST_SUPERVISORY <= pcb_of(octets)
}
