//! The steps of an end on its line.

ghost use Rattle.std.specs.Prelude.{◌≡◌, ◌<◌, ◌&&◌, [], Bool, false, not, nat_eq, List, ℕ, length};
ghost use Rattle.line_core.specs.Bursts.{HasHeard};
ghost use Rattle.session_core.specs.Wire.{ruled, seen, phase_of, is_set, step_of, IsStep, is_waiting, is_idle, is_sending, left_in, used_up, silent_in, came_in, silent, failed, interrupted, came, takes_in, has_none_left, is_past, counts_interrupt, missed, on_sent, on_came, on_silent, on_failed, step, time_of, forever, last_look};

use crate::event::{Event, Next};
use crate::limits::passed;
use crate::progress::{
    CLEARING, ECHOING, FOREVER, LATE, LISTENING, MISSING, Progress, Rules, SENDING, SETTLING,
    is_set,
};
use line_core::Framer;

/// After so many interrupts in a row the line has failed, if the wait has an end.
const MOST_INTERRUPTS: u32 = 1_000_000;

/// In place of the number of interrupts: the wait is over, and the end looks at what is there already.
const LAST_LOOK: u32 = u32::MAX;

impl Progress {
    /// Whether the end waits for octets.
    fn is_waiting(&self) -> bool
        ensures { result ≡ is_waiting (phase_of self.now.phase) }
    {
        // the phase that is most common comes first
        self.phase == LISTENING
            || match self.phase {
                LATE | CLEARING | SETTLING | ECHOING | MISSING => true,
                _ => false,
            }
    }

    /// Whether it sends its block.
    fn is_sending(&self) -> bool
        ensures { result ≡ is_sending (phase_of self.now.phase) }
    {
        self.phase == SENDING
    }

    /// Whether it does nothing.
    fn is_idle(&self) -> bool
        ensures { result ≡ is_idle (phase_of self.now.phase) }
    {
        match self.phase {
            LATE | CLEARING | SETTLING | SENDING | ECHOING | LISTENING | MISSING => false,
            _ => true,
        }
    }
}

impl Progress {
    /// Says what happened on the line, at this moment, and returns what the end does next. `block` is the end's own
    /// block: the one that it sends, or sent last.
    ///
    /// `specs/Wire.antt` says what that is. An event that doesn't fit changes nothing: [`Next::Order`].
    #[tactic(auto, using(crate::proofs::Parts::is_step), unfolding(crate::specs::Wire::step))]
    pub fn step(
        &mut self,
        rules: &Rules,
        framer: &mut Framer,
        event: Event<'_>,
        now: u64,
        block: &[u8],
    ) -> Next
        ensures { (burst : List ℕ) → HasHeard framer.old burst
            → IsStep (step (ruled rules.now) (seen self.old) burst event.entry now block.now) (seen self.new)
            framer.new result }
    {
        match event {
            Event::Sent => self.on_sent(rules, framer, now, block),
            Event::Came(octets) => self.on_came(rules, framer, octets, false, now, block),
            Event::Garbled(octets) => self.on_came(rules, framer, octets, true, now, block),
            Event::Silent => self.on_silent(rules, framer, now, block),
            Event::Failed => self.on_failed(rules, framer),
        }
    }

    /// Says that the block was sent.
    #[tactic(auto, using(crate::proofs::Parts::is_step), unfolding(crate::specs::Wire::on_sent))]
    #[inline(always)]
    pub(crate) fn on_sent(&mut self, rules: &Rules, framer: &Framer, now: u64, block: &[u8]) -> Next
        ensures { (burst : List ℕ) → HasHeard framer.now burst
            → on_sent (ruled rules.now) (seen self.old) burst now block.now ≡ step_of (seen self.new) burst result }
    {
        if self.is_sending() {
            self.sent(rules, framer, now, block)
        } else {
            Next::Order
        }
    }

    /// Says that octets came, or that a wait was interrupted.
    fn on_came(
        &mut self,
        rules: &Rules,
        framer: &mut Framer,
        octets: &[u8],
        is_garbled: bool,
        now: u64,
        block: &[u8],
    ) -> Next
        ensures { (burst : List ℕ) → HasHeard framer.old burst
            → IsStep (on_came (ruled rules.now) (seen self.old) burst octets.now is_garbled now block.now) (seen
            self.new)
            framer.new result }
    {
        if octets.is_empty() {
            self.on_interrupt(rules, framer, now, block)
        } else {
            self.on_octets(rules, framer, octets, is_garbled, now, block)
        }
    }

    /// Says that a wait was interrupted.
    fn on_interrupt(&mut self, rules: &Rules, framer: &mut Framer, now: u64, block: &[u8]) -> Next
        ensures { (burst : List ℕ) → HasHeard framer.old burst → (is_garbled : Bool)
            → IsStep (on_came (ruled rules.now) (seen self.old) burst [] is_garbled now block.now) (seen self.new)
            framer.new result }
    {
        if self.is_last_look() {
            self.on_silent(rules, framer, now, block)
        } else {
            self.on_early_interrupt(rules, framer, now)
        }
    }

    /// Whether the end only looks at what is there already: its wait was over. An interrupt then ends the wait.
    pub(crate) fn is_last_look(&self) -> bool
        ensures { result ≡ (not (nat_eq self.now.asked forever) && nat_eq self.now.interrupts
            last_look) }
    {
        self.asked != FOREVER && self.interrupts == LAST_LOOK
    }

    /// Says that a wait was interrupted that may go on.
    #[tactic(auto, unfolding(crate::specs::Wire::on_came, crate::specs::Wire::came))]
    #[inline(always)]
    pub(crate) fn on_early_interrupt(&mut self, rules: &Rules, framer: &Framer, now: u64) -> Next
        requires early { (not (nat_eq self.old.asked forever) && nat_eq self.old.interrupts
            last_look) ≡ false }
        ensures { (burst : List ℕ) → HasHeard framer.now burst
            → (is_garbled : Bool) (block : List ℕ)
            → on_came (ruled rules.now) (seen self.old) burst [] is_garbled now block
            ≡ step_of (seen self.new) burst result }
    {
        if self.is_waiting() {
            self.interrupted(rules, framer, now)
        } else {
            Next::Order
        }
    }

    /// Says that octets came, one or more.
    #[tactic(auto, using(crate::proofs::Parts::is_step), unfolding(crate::specs::Wire::on_came))]
    #[inline(always)]
    pub(crate) fn on_octets(
        &mut self,
        rules: &Rules,
        framer: &mut Framer,
        octets: &[u8],
        is_garbled: bool,
        now: u64,
        block: &[u8],
    ) -> Next
        requires some { 0 < length octets.now }
        ensures { (burst : List ℕ) → HasHeard framer.old burst
            → IsStep (on_came (ruled rules.now) (seen self.old) burst octets.now is_garbled now block.now) (seen
            self.new)
            framer.new result }
    {
        if self.is_waiting() {
            self.came(rules, framer, octets, is_garbled, now, block)
        } else {
            Next::Order
        }
    }

    /// Says that nothing came within the silence that was asked for.
    #[tactic(auto, using(crate::proofs::Parts::is_step), unfolding(crate::specs::Wire::on_silent))]
    #[inline(always)]
    pub(crate) fn on_silent(
        &mut self,
        rules: &Rules,
        framer: &mut Framer,
        now: u64,
        block: &[u8],
    ) -> Next
        ensures { (burst : List ℕ) → HasHeard framer.old burst
            → IsStep (on_silent (ruled rules.now) (seen self.old) burst now block.now) (seen self.new) framer.new
            result }
    {
        if self.is_waiting() {
            self.silent(rules, framer, now, block)
        } else {
            Next::Order
        }
    }

    /// Says that the line failed.
    #[tactic(auto, using(crate::proofs::Parts::is_step), unfolding(crate::specs::Wire::on_failed))]
    pub(crate) fn on_failed(&mut self, rules: &Rules, framer: &Framer) -> Next
        ensures { (burst : List ℕ) → HasHeard framer.now burst
            → on_failed (ruled rules.now) (seen self.old) burst ≡ step_of (seen self.new) burst result }
    {
        if self.is_idle() {
            Next::Order
        } else {
            self.failed(rules, framer)
        }
    }

    /// Takes octets that came.
    #[tactic(auto, using(crate::proofs::Parts::is_step), unfolding(crate::specs::Wire::came))]
    #[inline(always)]
    fn came(
        &mut self,
        rules: &Rules,
        framer: &mut Framer,
        octets: &[u8],
        is_garbled: bool,
        now: u64,
        block: &[u8],
    ) -> Next
        requires some { 0 < length octets.now }
        ensures { (burst : List ℕ) → HasHeard framer.old burst
            → IsStep (came (ruled rules.now) (seen self.old) burst octets.now is_garbled now block.now) (seen self.new)
            framer.new result }
    {
        let time = rules.time_of(octets.len());
        self.spend(time);
        self.take_in(rules, framer, octets, is_garbled, now, block)
    }

    /// Takes octets that came, unless they came too late.
    #[tactic(auto, using(crate::proofs::Parts::is_step), unfolding(crate::specs::Wire::takes_in))]
    #[inline(always)]
    fn take_in(
        &mut self,
        rules: &Rules,
        framer: &mut Framer,
        octets: &[u8],
        is_garbled: bool,
        now: u64,
        block: &[u8],
    ) -> Next
        ensures { (burst : List ℕ) → HasHeard framer.old burst
            → IsStep (takes_in (ruled rules.now) (seen self.old) burst octets.now is_garbled now block.now) (seen
            self.new)
            framer.new result }
    {
        if self.has_none_left() {
            self.use_up(rules, framer)
        } else {
            self.came_in(rules, framer, octets, is_garbled, now, block)
        }
    }

    /// Whether nothing was left of the time when the wait began.
    fn has_none_left(&self) -> bool
        ensures { result ≡ has_none_left (seen self.now) }
    {
        is_set(self.is_cut) && self.asked == 0
    }

    /// Takes octets that came in time.
    #[tactic(auto, using(crate::proofs::Parts::is_step), unfolding(crate::specs::Wire::came_in))]
    #[inline(always)]
    fn came_in(
        &mut self,
        rules: &Rules,
        framer: &mut Framer,
        octets: &[u8],
        is_garbled: bool,
        now: u64,
        block: &[u8],
    ) -> Next
        ensures { (burst : List ℕ) → HasHeard framer.old burst
            → IsStep (came_in (phase_of self.old.phase) (ruled rules.now) (seen self.old) burst octets.now is_garbled
            now block.now)
            (seen self.new) framer.new result }
    {
        if self.phase == LISTENING {
            self.hear(rules, framer, octets, is_garbled, now, block)
        } else {
            self.came_unheard(rules, framer, octets, is_garbled, now, block)
        }
    }

    /// Takes octets that came in time, which don't belong to a burst that the end takes.
    #[tactic(auto, using(crate::proofs::Parts::is_step), unfolding(crate::specs::Wire::came_in))]
    #[inline(never)]
    fn came_unheard(
        &mut self,
        rules: &Rules,
        framer: &mut Framer,
        octets: &[u8],
        is_garbled: bool,
        now: u64,
        block: &[u8],
    ) -> Next
        requires other { nat_eq self.old.phase 6 ≡ false }
        ensures { (burst : List ℕ) → HasHeard framer.old burst
            → IsStep (came_in (phase_of self.old.phase) (ruled rules.now) (seen self.old) burst octets.now is_garbled
            now block.now)
            (seen self.new) framer.new result }
    {
        match self.phase {
            LATE => self.drop_octets(rules, CLEARING, now),
            CLEARING | SETTLING | MISSING => { self.dropped(rules, octets.len(), now) }
            ECHOING => self.meet(rules, framer, octets, is_garbled, now, block),
            _ => Next::Order,
        }
    }

    /// Says that nothing came within the silence that was asked for.
    #[tactic(auto, using(crate::proofs::Parts::is_step), unfolding(crate::specs::Wire::silent))]
    #[inline(always)]
    fn silent(&mut self, rules: &Rules, framer: &mut Framer, now: u64, block: &[u8]) -> Next
        ensures { (burst : List ℕ) → HasHeard framer.old burst
            → IsStep (silent (ruled rules.now) (seen self.old) burst now block.now) (seen self.new) framer.new result }
    {
        self.spend(self.asked);
        if is_set(self.is_cut) {
            self.use_up(rules, framer)
        } else {
            self.silent_in(rules, framer, now, block)
        }
    }

    /// Goes on after a silence.
    #[tactic(auto, using(crate::proofs::Parts::is_step), unfolding(crate::specs::Wire::silent_in))]
    fn silent_in(&mut self, rules: &Rules, framer: &mut Framer, now: u64, block: &[u8]) -> Next
        ensures { (burst : List ℕ) → HasHeard framer.old burst
            → IsStep (silent_in (phase_of self.old.phase) (ruled rules.now) (seen self.old) burst now block.now) (seen
            self.new)
            framer.new result }
    {
        match self.phase {
            LATE => self.talk(rules, framer, now),
            CLEARING => {
                self.clear(rules);
                self.talk(rules, framer, now)
            }
            SETTLING => {
                self.clear(rules);
                self.say(framer, now)
            }
            ECHOING => self.unechoed(rules, now),
            LISTENING => self.end(rules, framer, block),
            MISSING => {
                self.clear(rules);
                self.missed(rules, framer, now)
            }
            _ => Next::Order,
        }
    }

    /// Goes on after a block that met another one.
    #[tactic(auto, using(crate::proofs::Parts::is_step), unfolding(crate::specs::Wire::missed))]
    fn missed(&mut self, rules: &Rules, framer: &mut Framer, now: u64) -> Next
        ensures { (burst : List ℕ) → HasHeard framer.old burst
            → IsStep (missed (ruled rules.now) (seen self.old) burst now) (seen self.new) framer.new result }
    {
        if is_set(rules.is_card) {
            self.await_block(rules, framer, now)
        } else {
            self.stop(Next::Quiet)
        }
    }

    /// Takes an interrupt of a wait that may go on.
    #[tactic(auto, using(crate::proofs::Parts::is_step), unfolding(crate::specs::Wire::interrupted))]
    #[inline(always)]
    fn interrupted(&mut self, rules: &Rules, framer: &Framer, now: u64) -> Next
        requires early { (not (nat_eq self.old.asked forever) && nat_eq self.old.interrupts
            last_look) ≡ false }
        ensures { (burst : List ℕ) → HasHeard framer.now burst → (block : List ℕ)
            → interrupted (ruled rules.now) (seen self.old) burst now block ≡ step_of (seen self.new) burst result }
    {
        if self.asked == FOREVER {
            return Next::Wait(FOREVER);
        }
        if self.is_past(rules, now) {
            self.interrupts = LAST_LOOK;
            return Next::Wait(0);
        }
        self.count_interrupt(rules, framer)
    }

    /// Whether the wait is over by the clock.
    fn is_past(&self, rules: &Rules, now: u64) -> bool
        ensures { result ≡ is_past (ruled rules.now) (seen self.now) now }
    {
        is_set(rules.has_clock) && self.asked <= passed(now, self.asked_at, 0)
    }

    /// Counts an interrupt of a wait, which goes on.
    #[tactic(auto, using(crate::proofs::Parts::is_step), unfolding(crate::specs::Wire::counts_interrupt))]
    fn count_interrupt(&mut self, rules: &Rules, framer: &Framer) -> Next
        ensures { (burst : List ℕ) → HasHeard framer.now burst
            → counts_interrupt (ruled rules.now) (seen self.old) burst ≡ step_of (seen self.new) burst result }
    {
        if MOST_INTERRUPTS <= self.interrupts {
            return self.failed(rules, framer);
        }
        self.interrupts += 1;
        Next::Wait(self.asked)
    }

    /// Notes what the end owes if it stops inside a burst.
    #[inline(never)]
    fn leave(&mut self, rules: &Rules, framer: &Framer)
        ensures { (burst : List ℕ) → HasHeard framer.now burst
            → (seen self.new) ≡ left_in (phase_of self.old.phase) (ruled rules.now) (seen self.old) burst }
    {
        if self.phase == LISTENING {
            self.owed = self.owed_after(rules, framer);
        }
    }

    /// Stops because the time of the exchange is over.
    #[tactic(auto, using(crate::proofs::Parts::is_step), unfolding(crate::specs::Wire::used_up))]
    fn use_up(&mut self, rules: &Rules, framer: &Framer) -> Next
        ensures { (burst : List ℕ) → HasHeard framer.now burst
            → used_up (ruled rules.now) (seen self.old) burst ≡ step_of (seen self.new) burst result }
    {
        self.leave(rules, framer);
        self.stop(Next::UsedUp)
    }

    /// Stops because the line failed.
    #[tactic(auto, using(crate::proofs::Parts::is_step), unfolding(crate::specs::Wire::failed))]
    fn failed(&mut self, rules: &Rules, framer: &Framer) -> Next
        ensures { (burst : List ℕ) → HasHeard framer.now burst
            → failed (ruled rules.now) (seen self.old) burst ≡ step_of (seen self.new) burst result }
    {
        self.leave(rules, framer);
        self.stop(Next::Failed)
    }
}
