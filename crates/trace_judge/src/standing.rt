//! A trace judged line by line.

ghost use Rattle.std.specs.Prelude.{◌≡◌, ◌⊎◌, ◌+◌, ◌<◌, ◌^◌, IfErr, IfOk, OnOk};
ghost use Rattle.exchange_text.specs.declared.fault.ExchangeFault.TheVariants.{Falls, Memory};
ghost use Rattle.judge_core.specs.Monitored.{Takes};
ghost use Rattle.trace_judge.specs.Judging.{counts, is_before, is_judged, pps_timed, quietened, renewed, start, told_before, told_report, told_said, told_verdict, midway, ExercisesIf, Fails, IsBlockTold, IsConcluded, IsEntered, IsFalling, IsTold, JudgesLine};
ghost use Rattle.trace_judge.specs.Places.{placed};

use crate::arriving::arrival_of;
use crate::coverage::Coverage;
use crate::place::Place;
use crate::pps::{is_pps, octet_at, pps_timed, push_answered_pps};
use crate::tally::Tally;
use crate::telling::{tell_deviation, tell_neither, tell_unseen};
use exchange_text::ExchangeFault;
use judge_core::{
    Arrival, Exercise, Exercised, Monitor, Report, Rule, Said, Side, Silence, Verdict,
};
use judge_times::{Offer, Timing, early_as, late_as, timed_as};
use layouts::Layout;
use octet_core::{Octets, Text};
use std::alloc::{AllocError, Global};
use std::marker::Model;
use trace_text::{Entry, Reach, entry_of};

mod waits;

/// Which parts of a trace are judged.
#[derive(Clone, Copy, Debug)]
pub struct Scope {
    /// The one end that is judged, or `None` for both.
    pub only: Option<Side>,
    /// The frequency of the card's clock in hertz, if the times of its blocks are judged.
    pub clock: Option<u64>,
    /// Whether to count how often each end kept and broke each rule, and what was due.
    pub rules: bool,
    /// How the judgment is laid out.
    pub layout: Layout,
}

/// The judgment on a trace.
#[derive(Debug, Drop)]
pub struct Judgment {
    /// A line for each deviation; a line for each rule and each state, if they are counted; and a last line with the
    /// counts. Or the same as the members of a JSON object, with commas between them: an array of objects, the counts
    /// and the verdict.
    pub text: Text,
    /// Whether each block is permitted, and none needs damage that nobody saw.
    pub is_ok: bool,
}

/// The state of the judgment after the lines of a trace so far.
///
/// With a clock, a card's block can be late. That needs a moment directly before it, at which it began, and one
/// directly before the terminal's block: the moment at which that began, or its last octet (ISO/IEC 7816-3:2006,
/// 11.4.3). In the same way a terminal's block can be early after the block before.
#[derive(Drop)]
pub struct JudgeState {
    monitor: Monitor,
    offer: Offer,
    scope: Scope,
    begun: bool,
    /// The last moment.
    least: u64,
    /// The number of the next line.
    number: usize,
    timing: Timing,
    tally: Tally,
    coverage: Coverage,
    text: String,
}

impl Model for JudgeState {
    ghost use Rattle.std.specs.Prelude.{string_bytes};
    ghost use Rattle.trace_judge.specs.Judging as judging;

    ghost Value = { judging.JudgeState };

    ghost view = { λ s. record {
      monitor = s.monitor;
      offered = s.offer;
      scope = s.scope;
      begun = s.begun;
      least = s.least;
      number = s.number;
      timing = s.timing;
      tally = s.tally;
      coverage = s.coverage;
      text = string_bytes s.text;
    } };
}

impl JudgeState {
    /// Returns the state before the first line, for a card that offers this.
    pub fn new(alloc: Global, offer: Offer, scope: Scope) -> JudgeState
        ensures { result ≡ start offer scope }
    {
        let monitor = Monitor::new(offer.params.ifsc());
        let timing = Timing::new(offer.rates);
        JudgeState {
            monitor,
            offer,
            scope,
            begun: false,
            least: 0,
            number: 1,
            timing,
            tally: Tally::new(),
            coverage: Coverage::new(),
            text: String::new(alloc),
        }
    }

    /// Judges one more line, without its line feed. [`entry_of`] says which lines there are. No moment is below an earlier
    /// one. There can be fewer than 2<sup>64</sup> - 1 lines.
    ///
    /// The error is the fault of the line, by its number, counted from 1: `Word` if its words have none of these forms,
    /// then `Hex`, then `Falls` for a moment below an earlier one. `Memory` can replace any result. After an error no more
    /// is known about the state.
    pub fn take(&mut self, alloc: Global, line: &[u8]) -> Result<(), ExchangeFault>
        requires { self.old.number + 1 < 2 ^ 64 }
        ensures said { OnOk result (JudgesLine self.old line.now self.new) }
        ensures number { OnOk result (self.new.number ≡ self.old.number + 1) }
        ensures fault { IfErr result (λ fault. (fault ≡ Memory) ⊎ Fails self.old line.now fault) }
    {
        let entry = entry_of(alloc, self.number, line)?;
        self.enter(alloc, entry)?;
        self.number += 1;
        Ok(())
    }

    fn enter(&mut self, alloc: Global, entry: Entry) -> Result<(), ExchangeFault>
        ensures said { OnOk result (IsEntered self.old entry self.new) }
        ensures number { OnOk result (self.new.number ≡ self.old.number) }
        ensures fault { IfErr result (λ fault. (fault ≡ Memory)
            ⊎ (IsFalling self.old entry × (fault ≡ Falls self.old.number))) }
    {
        match entry {
            Entry::Nothing => Ok(()),
            Entry::Quiet => Ok(self.quiet(alloc)?),
            Entry::Reset => {
                self.reset();
                Ok(())
            }
            Entry::Midway => {
                self.begins_midway();
                Ok(())
            }
            Entry::Moment(moment) => self.moment(moment),
            Entry::Until(moment) => self.until(moment),
            Entry::Block {
                from,
                octets,
                reach,
            } => Ok(self.octets(alloc, from, octets.get(), &reach)?),
        }
    }

    /// Takes a reset of the card.
    fn reset(&mut self)
        ensures { self.new ≡ renewed self.old }
    {
        self.monitor.reset(self.offer.params.ifsc());
        self.begun = false;
        self.timing = Timing::new(self.offer.rates);
    }

    /// Takes it that what follows comes in the midst of a session.
    fn begins_midway(&mut self)
        ensures { self.new ≡ midway self.old }
    {
        self.monitor.begins_midway();
        self.begun = true;
        self.timing = self.timing.untimed();
    }

    /// Takes the end of the terminal's waiting time.
    fn quiet(&mut self, alloc: Global) -> Result<(), AllocError>
        ensures said { OnOk result (self.new ≡ quietened self.old) }
        ensures number { OnOk result (self.new.number ≡ self.old.number) }
    {
        let silence = self.monitor.quiet();
        self.timing = self.timing.past();
        self.silence(alloc, silence)
    }

    /// Takes octets that were on the line as one block.
    fn octets(
        &mut self,
        alloc: Global,
        from: Side,
        octets: &[u8],
        reach: &Reach,
    ) -> Result<(), AllocError>
        ensures said { OnOk result
            (IsBlockTold (is_before self.old octets.now) self.old from octets.now
            reach.now self.new) }
        ensures number { OnOk result (self.new.number ≡ self.old.number) }
    {
        if !self.begun && octet_at(octets, 0) == 0xFF {
            self.before(alloc, from, octets)
        } else {
            self.block(alloc, from, octets, reach)
        }
    }

    fn block(
        &mut self,
        alloc: Global,
        from: Side,
        octets: &[u8],
        reach: &Reach,
    ) -> Result<(), AllocError>
        ensures said { OnOk result (IsTold self.old from octets.now reach.now self.new) }
        ensures number { OnOk result (self.new.number ≡ self.old.number) }
    {
        let arrival = arrival_of(reach);
        let place = self.place(octets);
        let times = self.times(from);
        let before = self.monitor.terminal.number;
        let is_counted = self.counts(from);
        let exercised = monitored(&mut self.monitor, is_counted, from, octets, arrival);
        self.begun = true;
        let said = exercised.report.said;
        self.timing = timed_as(said, self.timing, from, octets.len());
        self.coverage.cover(from, &exercised.exercise);
        self.report(alloc, place, from, times.over, exercised.report)?;
        self.late(alloc, place, before, late_as(said, times.late))?;
        self.early(alloc, place, early_as(said, times.early))?;
        Ok(())
    }

    /// Whether what this end exercises is counted.
    fn counts(&self, side: Side) -> bool
        ensures { result ≡ counts self.now side }
    {
        self.scope.rules && self.is_judged(side)
    }

    /// Takes octets before the first block, with FF instead of a node address.
    fn before(&mut self, alloc: Global, from: Side, octets: &[u8]) -> Result<(), AllocError>
        ensures said { OnOk result (self.new ≡ told_before self.old from octets.now) }
        ensures number { OnOk result (self.new.number ≡ self.old.number) }
    {
        if is_pps(octets) {
            self.timing = pps_timed(self.timing, from, octets);
            push_answered_pps(alloc, &mut self.text, self.scope.layout, from, octets)
        } else {
            self.timing = self.timing.past();
            tell_neither(alloc, &mut self.text, self.scope.layout, self.number as u64)
        }
    }

    /// Reports what the monitor says of octets of this end. `over` says whether the card's time was over before them.
    fn report(
        &mut self,
        alloc: Global,
        place: Place<'_>,
        from: Side,
        over: bool,
        report: Report,
    ) -> Result<(), AllocError>
        ensures said { OnOk result (self.new
            ≡ told_report self.old (placed place.entry) from over report) }
        ensures number { OnOk result (self.new.number ≡ self.old.number) }
    {
        self.missing(alloc, over, report.silence)?;
        self.said(alloc, place, from, report.before, &report.said)
    }

    /// Reports octets of this end.
    fn said(
        &mut self,
        alloc: Global,
        place: Place<'_>,
        from: Side,
        before: u64,
        said: &Said,
    ) -> Result<(), AllocError>
        ensures said { OnOk result (self.new
            ≡ told_said self.old (placed place.entry) from before said.now) }
        ensures number { OnOk result (self.new.number ≡ self.old.number) }
    {
        match said {
            Said::Damage => {
                if self.is_judged(from) {
                    self.tally.damaged_of(from);
                }
                Ok(())
            }
            Said::Elsewhere => self.elsewhere(alloc, place, from),
            Said::Block(verdict) => self.verdict(alloc, place, from, before, verdict),
        }
    }

    fn verdict(
        &mut self,
        alloc: Global,
        place: Place<'_>,
        from: Side,
        before: u64,
        verdict: &Verdict,
    ) -> Result<(), AllocError>
        ensures said { OnOk result (self.new
            ≡ told_verdict self.old (placed place.entry) from before verdict.now) }
        ensures number { OnOk result (self.new.number ≡ self.old.number) }
    {
        let layout = self.scope.layout;
        let number = self.monitor.blocks;
        match verdict {
            Verdict::Unseen if self.is_judged(from) => {
                self.tally.unseen_in();
                tell_unseen(alloc, &mut self.text, layout, place, number, from, before)
            }
            Verdict::Deviates(broken, due) if self.is_judged(from) => {
                self.tally.deviation_of(from);
                tell_deviation(
                    alloc,
                    &mut self.text,
                    layout,
                    place,
                    number,
                    from,
                    *broken,
                    due,
                )
            }
            Verdict::Permitted | Verdict::Unseen | Verdict::Deviates(..) => Ok(()),
        }
    }

    fn is_judged(&self, side: Side) -> bool
        ensures { result ≡ is_judged self.now.scope.only side }
    {
        match self.scope.only {
            None => true,
            Some(only) => only.is(side),
        }
    }

    /// Returns the judgment at the end of the trace.
    pub fn conclude(mut self, alloc: Global) -> Result<Judgment, AllocError>
        ensures { IfOk result (IsConcluded self) }
    {
        let Scope { layout, rules, .. } = self.scope;
        self.coverage.push_if(alloc, &mut self.text, layout, rules)?;
        let tally = self.tally;
        let blocks = self.monitor.blocks;
        let text = tally.with_summary(alloc, self.text, layout, blocks)?;
        Ok(Judgment {
            text: Text::of(text),
            is_ok: tally.is_ok(),
        })
    }
}

/// Passes octets of an end to the monitor. What they exercise is unknown unless that is counted.
fn monitored(
    monitor: &mut Monitor,
    is_counted: bool,
    from: Side,
    octets: &[u8],
    arrival: Arrival<'_>,
) -> Exercised
    ensures takes { Takes monitor.old from octets.now arrival.entry monitor.new result.report }
    ensures exercises { ExercisesIf is_counted monitor.old from octets.now arrival.entry
        result.exercise }
{
    if is_counted {
        monitor.block_with_exercise(from, octets, arrival)
    } else {
        Exercised {
            report: monitor.block(from, octets, arrival),
            exercise: Exercise::Unknown,
        }
    }
}
