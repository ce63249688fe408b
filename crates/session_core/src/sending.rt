//! Octets that are dropped before a block is sent, and the sending of the block.

ghost use Rattle.std.specs.List.{starts_with};
ghost use Rattle.std.specs.Prelude.{nat_eq, ◌≡◌, ◌+◌, List, ℕ, min};
ghost use Rattle.line_core.specs.Bursts.{HasHeard};
ghost use Rattle.session_core.specs.Wire.{ruled, seen, phase_of, is_set, step_of, IsStep, silence_in, dropping, drops, dropped, cleared, stops, says, settles, talks, begins, clears, misses, takes, echo_wait, took, timed, is_used_up, sent, sent_in, follows, most_counted, unechoed, met, hears_echo, echoed, agrees, unheard};

use crate::event::Next;
use crate::limits::{passed, product};
use crate::progress::{
    CLEARING, ECHOING, FOREVER, IDLE, LATE, LISTENING, MISSING, Progress, Rules, SENDING, SETTLING,
    UNKNOWN, UNSET, is_set, mark,
};
use line_core::Framer;

/// After this many octets without a silence, the line doesn't wait for one any more.
pub(crate) const MOST_NOISE: u32 = 65_536;

impl Progress {
    /// Stops.
    pub(crate) fn stop(&mut self, next: Next) -> Next
        ensures { (burst : List ℕ)
            → stops (seen self.old) burst next ≡ step_of (seen self.new) burst result }
    {
        self.phase = IDLE;
        next
    }

    /// Returns the silence that the end waits for in a phase in which it drops octets.
    fn silence(&self, rules: &Rules) -> u64
        ensures { result ≡ silence_in (phase_of self.now.phase) (ruled rules.now) (seen self.now) }
    {
        match self.phase {
            SETTLING => self.owed,
            MISSING => self.broken(rules),
            _ if is_set(rules.is_card) => rules.bgt,
            _ => rules.bwt,
        }
    }

    /// Waits for the silence.
    #[tactic(auto, using(crate::proofs::Parts::is_step), unfolding(crate::specs::Wire::dropping))]
    #[inline(always)]
    fn wait_silent(&mut self, rules: &Rules, now: u64) -> Next
        ensures { (burst : List ℕ) → dropping (ruled rules.now) (seen self.old) burst now
            ≡ step_of (seen self.new) burst result }
    {
        let silence = self.silence(rules);
        self.wait(rules, silence, now)
    }

    /// Begins to drop octets.
    #[tactic(auto, using(crate::proofs::Parts::is_step), unfolding(crate::specs::Wire::drops))]
    #[inline(never)]
    pub(crate) fn drop_octets(&mut self, rules: &Rules, phase: u8, now: u64) -> Next
        ensures { (burst : List ℕ)
            → drops (ruled rules.now) (seen self.old) (phase_of phase) burst now
            ≡ step_of (seen self.new) burst result }
    {
        self.phase = phase;
        self.left = MOST_NOISE;
        self.wait_silent(rules, now)
    }

    /// Drops octets that came.
    #[tactic(auto, using(crate::proofs::Parts::is_step), unfolding(crate::specs::Wire::dropped))]
    #[inline(never)]
    pub(crate) fn dropped(&mut self, rules: &Rules, count: usize, now: u64) -> Next
        ensures { (burst : List ℕ) → dropped (ruled rules.now) (seen self.old) burst count now
            ≡ step_of (seen self.new) burst result }
    {
        if self.left as usize <= count {
            self.left = 0;
            return self.stop(Next::Failed);
        }
        self.left -= count as u32;
        self.wait_silent(rules, now)
    }

    /// Notes that the line was silent.
    pub(crate) fn clear(&mut self, rules: &Rules)
        ensures { (seen self.new) ≡ cleared (ruled rules.now) (seen self.old) }
    {
        if self.owed <= self.silence(rules) {
            self.owed = 0;
        }
    }

    /// Says that another block met the end's own.
    #[tactic(auto, using(crate::proofs::Parts::is_step), unfolding(crate::specs::Wire::misses))]
    #[inline(always)]
    pub(crate) fn miss(&mut self, rules: &Rules, now: u64) -> Next
        ensures { (burst : List ℕ) → misses (ruled rules.now) (seen self.old) burst now
            ≡ step_of (seen self.new) burst result }
    {
        self.drop_octets(rules, MISSING, now)
    }

    /// Begins an exchange: octets that came late are dropped first.
    #[tactic(auto, using(crate::proofs::Parts::is_step), unfolding(crate::specs::Wire::begins))]
    pub fn begin(&mut self, rules: &Rules, now: u64) -> Next
        ensures { (burst : List ℕ) → begins (ruled rules.now) (seen self.old) burst now
            ≡ step_of (seen self.new) burst result }
    {
        self.start(now);
        self.phase = LATE;
        self.wait(rules, 0, now)
    }

    /// Begins an exchange with a silence: octets are dropped until then.
    #[tactic(auto, using(crate::proofs::Parts::is_step), unfolding(crate::specs::Wire::clears))]
    pub fn begin_silent(&mut self, rules: &Rules, now: u64) -> Next
        ensures { (burst : List ℕ) → clears (ruled rules.now) (seen self.old) burst now
            ≡ step_of (seen self.new) burst result }
    {
        self.start(now);
        self.drop_octets(rules, CLEARING, now)
    }

    /// Starts to count the blocks and the time of an exchange.
    fn start(&mut self, now: u64)
        ensures { (seen self.new) ≡ record (seen self.old)
            { blocks = 0; spent = 0; echoes = 0; began = now } }
    {
        self.blocks = 0;
        self.spent = 0;
        self.echoes = 0;
        self.began = now;
    }

    /// Sends the block.
    #[tactic(auto, using(crate::proofs::Parts::is_step), unfolding(crate::specs::Wire::says))]
    pub(crate) fn say(&mut self, framer: &mut Framer, now: u64) -> Next
        ensures { IsStep (says (seen self.old) now) (seen self.new) framer.new result }
    {
        framer.restart();
        self.phase = SENDING;
        self.asked_at = now;
        self.is_spoiled = UNSET;
        self.is_whole = UNSET;
        self.began_at = UNKNOWN;
        Next::Send
    }

    /// Sends the block, once the line is silent.
    #[tactic(auto, using(crate::proofs::Parts::is_step), unfolding(crate::specs::Wire::settles))]
    #[inline(always)]
    fn settle(&mut self, rules: &Rules, framer: &mut Framer, now: u64) -> Next
        ensures { (burst : List ℕ) → HasHeard framer.old burst
            → IsStep (settles (ruled rules.now) (seen self.old) burst now) (seen self.new) framer.new result }
    {
        if self.owed == 0 {
            self.say(framer, now)
        } else {
            self.drop_octets(rules, SETTLING, now)
        }
    }

    /// Whether the blocks or the time of the exchange are used up.
    fn is_used_up(&self, rules: &Rules, now: u64) -> bool
        ensures { result ≡ is_used_up (ruled rules.now) (seen self.now) now }
    {
        !is_set(rules.is_card) && (rules.most_blocks <= self.blocks || self.left(rules, now) == 0)
    }

    /// Sends a block, within the limits of the exchange.
    #[tactic(auto, using(crate::proofs::Parts::is_step), unfolding(crate::specs::Wire::talks))]
    #[inline(never)]
    pub fn talk(&mut self, rules: &Rules, framer: &mut Framer, now: u64) -> Next
        ensures { (burst : List ℕ) → HasHeard framer.old burst
            → IsStep (talks (ruled rules.now) (seen self.old) burst now) (seen self.new) framer.new result }
    {
        if self.is_used_up(rules, now) {
            return self.stop(Next::UsedUp);
        }
        self.blocks = self.blocks.saturating_add(1);
        self.settle(rules, framer, now)
    }

    /// Returns how long the sending of a block took. A clock that went back doesn't know.
    fn took(&self, now: u64) -> u64
        ensures { result ≡ took (seen self.now) now }
    {
        passed(now, self.asked_at, FOREVER)
    }

    /// Notes how long the sending of a block took, and that none of its echo came.
    fn time(&mut self, took: u64, needs: u64)
        ensures { (seen self.new) ≡ timed (seen self.old) took needs }
    {
        self.is_quick = mark(took < needs / 2);
        self.late = took.saturating_sub(needs);
        self.own = 0;
    }

    /// Says that the block was sent.
    #[tactic(auto, using(crate::proofs::Parts::is_step), unfolding(crate::specs::Wire::sent))]
    #[inline(always)]
    pub(crate) fn sent(&mut self, rules: &Rules, framer: &Framer, now: u64, block: &[u8]) -> Next
        ensures { (burst : List ℕ) → HasHeard framer.now burst
            → sent (ruled rules.now) (seen self.old) burst now block.now ≡ step_of (seen self.new) burst result }
    {
        let needs = rules.takes(block);
        let took = self.took(now);
        self.time(took, needs);
        self.sent_in(rules, framer, now, block)
    }

    /// Reads the echo of the block, or the burst that comes.
    #[tactic(auto, using(crate::proofs::Parts::is_step), unfolding(crate::specs::Wire::sent_in))]
    #[inline(always)]
    fn sent_in(&mut self, rules: &Rules, framer: &Framer, now: u64, block: &[u8]) -> Next
        ensures { (burst : List ℕ) → HasHeard framer.now burst
            → sent_in (ruled rules.now) (seen self.old) burst now block.now ≡ step_of (seen self.new) burst result }
    {
        if is_set(rules.has_echo) {
            let wanted = rules.echo_wait(block);
            self.phase = ECHOING;
            return self.wait(rules, wanted, now);
        }
        let time = rules.time_of(block.len());
        self.spend(time);
        self.phase = LISTENING;
        self.go_on(rules, framer, now, block)
    }

    /// Takes octets of the echo. Octets after it begin the next burst.
    #[tactic(auto, using(crate::proofs::Parts::is_step), unfolding(crate::specs::Wire::echoed))]
    #[inline(never)]
    pub(crate) fn echoed(
        &mut self,
        rules: &Rules,
        framer: &mut Framer,
        octets: &[u8],
        now: u64,
        block: &[u8],
    ) -> Next
        ensures { (burst : List ℕ) → HasHeard framer.old burst
            → IsStep (echoed (ruled rules.now) (seen self.old) burst octets.now now block.now) (seen self.new)
            framer.new
            result }
    {
        let rest = self.unheard(block);
        if agrees(octets, rest) {
            self.hear_echo(rules, framer, octets, rest, now, block)
        } else {
            self.miss(rules, now)
        }
    }

    /// Takes octets of the echo, of which `rest` is left to come.
    #[tactic(auto, using(crate::proofs::Parts::is_step), unfolding(crate::specs::Wire::hears_echo))]
    fn hear_echo(
        &mut self,
        rules: &Rules,
        framer: &mut Framer,
        octets: &[u8],
        rest: &[u8],
        now: u64,
        block: &[u8],
    ) -> Next
        ensures { (burst : List ℕ) → HasHeard framer.old burst
            → IsStep (hears_echo (ruled rules.now) (seen self.old) burst octets.now rest.now now block.now) (seen
            self.new)
            framer.new result }
    {
        if octets.len() < rest.len() {
            let wanted = rules.echo_wait(block);
            self.own = added(self.own, octets.len());
            self.wait(rules, wanted, now)
        } else {
            self.follow(rules, framer, &octets[rest.len()..], now, block)
        }
    }

    /// Returns what is left to come of the echo.
    fn unheard<'a>(&self, block: &'a [u8]) -> &'a [u8]
        ensures { result.now ≡ unheard (seen self.now) block.now }
    {
        &block[(self.own as usize).min(block.len())..]
    }

    /// Takes octets after the echo, the first ones of the next burst.
    #[tactic(auto, using(crate::proofs::Parts::is_step), unfolding(crate::specs::Wire::follows))]
    #[inline(never)]
    fn follow(
        &mut self,
        rules: &Rules,
        framer: &mut Framer,
        octets: &[u8],
        now: u64,
        block: &[u8],
    ) -> Next
        ensures { (burst : List ℕ) → HasHeard framer.old burst
            → IsStep (follows (ruled rules.now) (seen self.old) burst octets.now now block.now) (seen self.new)
            framer.new
            result }
    {
        framer.feed(octets);
        self.phase = LISTENING;
        self.weigh(framer);
        self.go_on(rules, framer, now, block)
    }

    /// Goes on after a silence in which no more of the echo came.
    #[tactic(auto, using(crate::proofs::Parts::is_step), unfolding(crate::specs::Wire::unechoed))]
    pub(crate) fn unechoed(&mut self, rules: &Rules, now: u64) -> Next
        ensures { (burst : List ℕ) → unechoed (ruled rules.now) (seen self.old) burst now
            ≡ step_of (seen self.new) burst result }
    {
        if self.own == 0 {
            self.stop(Next::Failed)
        } else {
            self.miss(rules, now)
        }
    }

    /// Takes octets that came in place of the echo, or as it.
    #[tactic(auto, using(crate::proofs::Parts::is_step), unfolding(crate::specs::Wire::met))]
    #[inline(never)]
    pub(crate) fn meet(
        &mut self,
        rules: &Rules,
        framer: &mut Framer,
        octets: &[u8],
        is_garbled: bool,
        now: u64,
        block: &[u8],
    ) -> Next
        ensures { (burst : List ℕ) → HasHeard framer.old burst
            → IsStep (met (ruled rules.now) (seen self.old) burst octets.now is_garbled now block.now) (seen self.new)
            framer.new result }
    {
        if is_garbled {
            self.miss(rules, now)
        } else {
            self.echoed(rules, framer, octets, now, block)
        }
    }
}

/// Returns a number of octets with more added to it. It stops at its greatest value.
fn added(count: u32, more: usize) -> u32
    ensures { result ≡ min (count + more) most_counted }
{
    let sum = u64::from(count).saturating_add(more as u64);
    sum.min(u64::from(u32::MAX)) as u32
}

/// Whether octets are the next ones of an echo, as far as both go.
fn agrees(octets: &[u8], rest: &[u8]) -> bool
    ensures { result ≡ agrees octets.now rest.now }
{
    if octets.len() < rest.len() {
        begin_with(rest, octets)
    } else {
        begin_with(octets, rest)
    }
}

/// Whether octets begin with the first ones. It is a function of its own, so that a library has it once, and a plain
/// loop, which is the shortest code.
#[inline(never)]
pub(crate) fn begin_with(octets: &[u8], first: &[u8]) -> bool
    ensures { result ≡ starts_with nat_eq octets.now first.now }
{
    if octets.len() < first.len() {
        return false;
    }
    for place in 0..first.len() {
        if octets[place] != first[place] {
            return false;
        }
    }
    true
}

impl Rules {
    /// Returns how long the octets of a block take.
    fn takes(&self, block: &[u8]) -> u64
        ensures { result ≡ takes (ruled self.now) block.now }
    {
        product(block.len() as u64, self.octet)
    }

    /// Returns the wait for each part of the echo of a block.
    fn echo_wait(&self, block: &[u8]) -> u64
        ensures { result ≡ echo_wait (ruled self.now) block.now }
    {
        self.cwt.saturating_add(self.takes(block))
    }
}
