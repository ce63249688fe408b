//! The line of one end in one struct, and what it does next as plain numbers, for callers in C.

ghost use Rattle.std.specs.Prelude.{◌≡◌, ◌<◌, ◌&&◌, Bool, true, false, not, nat_eq, get_or, List, [], ℕ, length};
ghost use Rattle.line_core.specs.Bursts.{HasHeard};
ghost use Rattle.session_core.specs.Wire.{ruled, seen, fresh, begins, clears, talks, serves, on_sent, on_came, on_silent, on_failed, forever, last_look, handed_over, IsStep, step_of};
ghost use Rattle.session_core.specs.Lines.{first_of, told_next, stepped, held_over, started, ends_whole, IsTold, GoesTo, HoldsWhole};

use crate::event::Next;
use crate::progress::{FOREVER, Progress, Rules, is_set};
use line_core::Framer;

/// A block with a wrong check octet. An end gets it in place of a burst that it may not take.
const DAMAGED: [u8; 4] = [0x00, 0x00, 0x00, 0x01];

/// The line of one end: its rules, what the end has done on it, and the burst that came so far.
#[repr(C)]
#[derive(Clone, Copy)]
pub struct Line {
    pub rules: Rules,
    pub progress: Progress,
    pub framer: Framer,
}

/// [`Next`] as plain numbers.
///
/// `kind` is one of these numbers:
///
/// - 0: send the block
/// - 1: wait for octets, for a silence of `wait` microseconds at most
/// - 2: a burst has ended: the end takes the first `count` octets that the framer holds
/// - 3: nothing came within the waiting time
/// - 4: the line failed
/// - 5: the blocks or the time of the exchange are used up
/// - 6: the line returns what is sent on it, and the rules don't say so
/// - 7: the call doesn't fit what the end is doing, and nothing changes
#[repr(C)]
#[derive(Clone, Copy)]
pub struct LineNext {
    pub kind: u8,
    pub count: usize,
    pub wait: u64,
}

/// How an end begins to send a block.
#[derive(Clone, Copy)]
pub enum Start {
    /// It is the first block of an exchange. Octets that came late are dropped first.
    Exchange,
    /// It is the first block of an exchange. Octets are dropped until the line is silent.
    Clear,
    /// It is another block of the exchange.
    Talk,
}

impl LineNext {
    /// Returns what an end does next. A burst that the end takes has so many octets.
    pub fn of(next: Next, count: usize) -> LineNext
        ensures { result ≡ told_next next count }
    {
        let (kind, count, wait) = match next {
            Next::Send => (0, 0, 0),
            Next::Wait(time) => (1, 0, time),
            Next::Heard => (2, count, 0),
            Next::Quiet => (3, 0, 0),
            Next::Failed => (4, 0, 0),
            Next::UsedUp => (5, 0, 0),
            Next::Echo => (6, 0, 0),
            Next::Order => (7, 0, 0),
        };
        LineNext { kind, count, wait }
    }
}

impl Line {
    /// Returns the line of an end that hasn't used it yet.
    pub fn new(rules: &Rules) -> Line
        ensures rules { result.rules ≡ rules.now }
        ensures progress { seen result.progress ≡ fresh (ruled rules.now) }
        ensures burst { HasHeard result.framer [] }
    {
        Line {
            rules: *rules,
            progress: Progress::new(rules),
            framer: Framer::new(),
        }
    }

    /// Begins the line of an end that hasn't used it yet.
    pub fn begin(&mut self, rules: &Rules)
        ensures rules { self.new.rules ≡ rules.now }
        ensures progress { seen self.new.progress ≡ fresh (ruled rules.now) }
        ensures burst { HasHeard self.new.framer [] }
    {
        self.rules = *rules;
        self.progress = Progress::new(rules);
        self.framer.restart();
    }

    /// Begins to send a block, after which the end waits so long for the first octet.
    pub(crate) fn start(&mut self, start: Start, first: u64, now: u64) -> Next
        ensures { (burst : List ℕ) → HasHeard self.old.framer burst
            → GoesTo (started start (ruled self.old.rules) (first_of self.old first) burst now) self.old.rules
            self.new result }
    {
        self.progress.first = first;
        let next = self.begun(start, now);
        self.hand(next)
    }

    /// Begins to send a block.
    #[tactic(auto, using(crate::proofs::Parts::is_step))]
    fn begun(&mut self, start: Start, now: u64) -> Next
        ensures rules { self.new.rules ≡ self.old.rules }
        ensures step { (burst : List ℕ) → HasHeard self.old.framer burst
            → IsStep (started start (ruled self.old.rules) (seen self.old.progress) burst now)
            (seen self.new.progress) self.new.framer result }
    {
        match start {
            Start::Exchange => self.progress.begin(&self.rules, now),
            Start::Clear => self.progress.begin_silent(&self.rules, now),
            Start::Talk => self.progress.talk(&self.rules, &mut self.framer, now),
        }
    }

    /// Begins an exchange: octets that came late are dropped first. After its first block the end waits so long for
    /// the first octet.
    pub fn exchange(&mut self, first: u64, now: u64) -> LineNext
        ensures { (burst : List ℕ) → HasHeard self.old.framer burst
            → IsTold (begins (ruled self.old.rules) (first_of self.old first) burst now) self.old.rules
            self.new result }
    {
        let next = self.start(Start::Exchange, first, now);
        LineNext::of(next, self.framer.kept())
    }

    /// Begins an exchange with a silence: octets are dropped until then.
    pub fn clear(&mut self, first: u64, now: u64) -> LineNext
        ensures { (burst : List ℕ) → HasHeard self.old.framer burst
            → IsTold (clears (ruled self.old.rules) (first_of self.old first) burst now) self.old.rules
            self.new result }
    {
        let next = self.start(Start::Clear, first, now);
        LineNext::of(next, self.framer.kept())
    }

    /// Sends the next block of an exchange, after which the end waits so long for the first octet.
    pub fn talk(&mut self, first: u64, now: u64) -> LineNext
        ensures { (burst : List ℕ) → HasHeard self.old.framer burst
            → IsTold (talks (ruled self.old.rules) (first_of self.old first) burst now) self.old.rules
            self.new result }
    {
        let next = self.start(Start::Talk, first, now);
        LineNext::of(next, self.framer.kept())
    }

    /// Begins to serve the terminal, or goes on after the line failed.
    pub fn serve(&mut self, now: u64) -> LineNext
        ensures { (burst : List ℕ) → HasHeard self.old.framer burst
            → IsTold (serves (ruled self.old.rules) (first_of self.old forever) burst now) self.old.rules
            self.new result }
    {
        let next = self.listen(now);
        LineNext::of(next, self.framer.kept())
    }

    /// Begins to serve the terminal, or goes on after the line failed.
    pub(crate) fn listen(&mut self, now: u64) -> Next
        ensures { (burst : List ℕ) → HasHeard self.old.framer burst
            → GoesTo (serves (ruled self.old.rules) (first_of self.old forever) burst now) self.old.rules
            self.new result }
    {
        self.progress.first = FOREVER;
        let next = self.progress.serve(&self.rules, &mut self.framer, now);
        self.hand(next)
    }

    /// Says what happened on the line: by its number, 0 sent, 1 came, 2 garbled, 3 silent and 4 failed. `octets` are
    /// those that came, and `block` is the end's own block. Another number doesn't fit.
    pub fn step(&mut self, event: u8, octets: &[u8], now: u64, block: &[u8]) -> LineNext
        ensures { (burst : List ℕ) → HasHeard self.old.framer burst
            → IsTold (stepped event (ruled self.old.rules) (seen self.old.progress) burst octets.now now
            block.now) self.old.rules self.new result }
    {
        let next = self.happen(event, octets, now, block);
        LineNext::of(next, self.framer.kept())
    }

    /// Takes what happened on the line, by its number.
    #[inline(always)]
    pub fn happen(&mut self, event: u8, octets: &[u8], now: u64, block: &[u8]) -> Next
        ensures goes { (burst : List ℕ) → HasHeard self.old.framer burst
            → GoesTo (stepped event (ruled self.old.rules) (seen self.old.progress) burst octets.now now
            block.now) self.old.rules self.new result }
        ensures whole { ends_whole event octets.now result (seen self.new.progress) ≡ true
            → HoldsWhole self.new.framer }
    {
        holds_burst(&self.framer);
        let next = self.stepped(event, octets, now, block);
        let next = self.hand(next);
        holds_burst(&self.framer);
        next
    }

    /// Whether the end takes a burst that is known to be a whole block: these octets came and ended it.
    #[inline(always)]
    pub fn has_ended_whole(&self, event: u8, octets: &[u8], next: Next) -> bool
        ensures { result ≡ ends_whole event octets.now next (seen self.now.progress) }
    {
        match next {
            Next::Heard => {
                event == 1
                    && !octets.is_empty()
                    && is_set(self.progress.is_whole)
                    && !is_set(self.progress.is_spoiled)
            }
            _ => false,
        }
    }

    /// Takes an event by its number.
    #[tactic(auto, using(crate::proofs::Parts::is_step))]
    #[inline(always)]
    fn stepped(&mut self, event: u8, octets: &[u8], now: u64, block: &[u8]) -> Next
        ensures rules { self.new.rules ≡ self.old.rules }
        ensures step { (burst : List ℕ) → HasHeard self.old.framer burst
            → IsStep (stepped event (ruled self.old.rules) (seen self.old.progress) burst octets.now now block.now)
            (seen self.new.progress) self.new.framer result }
    {
        match event {
            0 => self.sent(now, block),
            1 => self.hears(octets, false, now, block),
            2 => self.hears(octets, true, now, block),
            3 => self.silent(now, block),
            4 => self.failed(),
            _ => Next::Order,
        }
    }

    /// Says that the block was sent.
    #[tactic(auto, using(crate::proofs::Parts::is_step))]
    #[inline(never)]
    fn sent(&mut self, now: u64, block: &[u8]) -> Next
        ensures rules { self.new.rules ≡ self.old.rules }
        ensures step { (burst : List ℕ) → HasHeard self.old.framer burst
            → IsStep (on_sent (ruled self.old.rules) (seen self.old.progress) burst now block.now)
            (seen self.new.progress) self.new.framer result }
    {
        self.progress.on_sent(&self.rules, &self.framer, now, block)
    }

    /// Says that octets came, or that a wait was interrupted.
    #[inline(always)]
    fn hears(&mut self, octets: &[u8], is_garbled: bool, now: u64, block: &[u8]) -> Next
        ensures rules { self.new.rules ≡ self.old.rules }
        ensures step { (burst : List ℕ) → HasHeard self.old.framer burst
            → IsStep (on_came (ruled self.old.rules) (seen self.old.progress) burst octets.now is_garbled now
            block.now) (seen self.new.progress) self.new.framer result }
    {
        if octets.is_empty() {
            self.hears_none(now, block)
        } else {
            self.came(octets, is_garbled, now, block)
        }
    }

    /// Says that a wait was interrupted. If the end only looked at what was there already, that is a silence.
    #[inline(always)]
    fn hears_none(&mut self, now: u64, block: &[u8]) -> Next
        ensures rules { self.new.rules ≡ self.old.rules }
        ensures step { (burst : List ℕ) → HasHeard self.old.framer burst → (is_garbled : Bool)
            → IsStep (on_came (ruled self.old.rules) (seen self.old.progress) burst [] is_garbled now block.now)
            (seen self.new.progress) self.new.framer result }
    {
        if self.progress.is_last_look() {
            self.silent(now, block)
        } else {
            self.interrupted(now)
        }
    }

    /// Says that a wait was interrupted that may go on.
    #[tactic(auto, using(crate::proofs::Parts::is_step))]
    #[inline(never)]
    fn interrupted(&mut self, now: u64) -> Next
        requires early { (not (nat_eq self.old.progress.asked forever) && nat_eq
            self.old.progress.interrupts last_look)
            ≡ false }
        ensures rules { self.new.rules ≡ self.old.rules }
        ensures step { (burst : List ℕ) → HasHeard self.old.framer burst
            → (is_garbled : Bool) (block : List ℕ)
            → IsStep (on_came (ruled self.old.rules) (seen self.old.progress) burst [] is_garbled now block)
            (seen self.new.progress) self.new.framer result }
    {
        self.progress
            .on_early_interrupt(&self.rules, &self.framer, now)
    }

    /// Says that octets came, one or more.
    #[tactic(auto, using(crate::proofs::Parts::is_step))]
    #[inline(never)]
    fn came(&mut self, octets: &[u8], is_garbled: bool, now: u64, block: &[u8]) -> Next
        requires some { 0 < length octets.now }
        ensures rules { self.new.rules ≡ self.old.rules }
        ensures step { (burst : List ℕ) → HasHeard self.old.framer burst
            → IsStep (on_came (ruled self.old.rules) (seen self.old.progress) burst octets.now is_garbled now
            block.now) (seen self.new.progress) self.new.framer result }
    {
        self.progress.on_octets(
            &self.rules,
            &mut self.framer,
            octets,
            is_garbled,
            now,
            block,
        )
    }

    /// Says that nothing came within the silence that was asked for.
    #[tactic(auto, using(crate::proofs::Parts::is_step))]
    #[inline(never)]
    fn silent(&mut self, now: u64, block: &[u8]) -> Next
        ensures rules { self.new.rules ≡ self.old.rules }
        ensures step { (burst : List ℕ) → HasHeard self.old.framer burst
            → IsStep (on_silent (ruled self.old.rules) (seen self.old.progress) burst now block.now)
            (seen self.new.progress) self.new.framer result }
    {
        self.progress
            .on_silent(&self.rules, &mut self.framer, now, block)
    }

    /// Says that the line failed.
    #[tactic(auto, using(crate::proofs::Parts::is_step))]
    #[inline(never)]
    fn failed(&mut self) -> Next
        ensures rules { self.new.rules ≡ self.old.rules }
        ensures step { (burst : List ℕ) → HasHeard self.old.framer burst
            → IsStep (on_failed (ruled self.old.rules) (seen self.old.progress) burst)
            (seen self.new.progress) self.new.framer result }
    {
        self.progress.on_failed(&self.rules, &self.framer)
    }

    /// Returns what the end does next. If it may not take its burst, a damaged block is in place of that.
    fn hand(&mut self, next: Next) -> Next
        ensures { (burst : List ℕ) → HasHeard self.old.framer burst
            → GoesTo (step_of (seen self.old.progress) burst next) self.old.rules self.new result }
    {
        hand_over(&mut self.framer, next, is_set(self.progress.is_spoiled));
        next
    }
}

/// States that a framer holds some burst, whatever its fields are. It does nothing.
#[inline(always)]
fn holds_burst(framer: &Framer)
    ensures burst { (burst : List ℕ) × HasHeard framer.now burst }
    ensures octets { (i : ℕ) → get_or framer.now.octets i 0 < 256 }
{
    let _count = framer.count;
    are_octets(&framer.octets);
}

/// States that octets are below 256. It does nothing.
#[inline(always)]
fn are_octets(octets: &[u8])
    ensures { (i : ℕ) → get_or octets.now i 0 < 256 }
{}

/// Puts a damaged block in place of a burst that the end may not take.
fn hand_over(framer: &mut Framer, next: Next, is_spoiled: bool)
    ensures { (burst : List ℕ) → HasHeard framer.old burst
        → HasHeard framer.new (held_over next is_spoiled burst) }
{
    match next {
        Next::Heard => replace(framer, is_spoiled),
        _ => {}
    }
}

/// Puts a damaged block in place of a spoiled burst.
fn replace(framer: &mut Framer, is_spoiled: bool)
    ensures { (burst : List ℕ) → HasHeard framer.old burst
        → HasHeard framer.new (handed_over is_spoiled burst) }
{
    if is_spoiled {
        let damaged = DAMAGED;
        framer.restart();
        framer.feed(&damaged);
    }
}
