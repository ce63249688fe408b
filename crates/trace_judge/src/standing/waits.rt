//! Moments, a card that sent no block or sent it too late, a terminal that sent too early, and what isn't judged.

ghost use Rattle.std.specs.Prelude.{◌≡◌, ◌<◌, ◌≤◌, IfErr, OnOk, false};
ghost use Rattle.std.specs.Option.{is_some};
ghost use Rattle.block_core.specs.declared.side.Side.TheVariants.{Terminal};
ghost use Rattle.exchange_text.specs.declared.fault.ExchangeFault.TheVariants.{Falls};
ghost use Rattle.trace_text.specs.declared.entry.Entry.TheVariants.{Moment, Until};
ghost use Rattle.judge_core.specs.declared.monitor.Silence.TheVariants as SilenceOf;
ghost use Rattle.trace_judge.specs.Judging.{early_from, late_from, late_now, place_of, told_early, told_elsewhere, told_late, told_missing, told_silence, IsEntered, IsFalling};
ghost use Rattle.trace_judge.specs.Places.{placed};

use super::JudgeState;
use crate::place::Place;
use crate::telling::{
    tell_certain, tell_early, tell_elsewhere, tell_late, tell_possible, tell_unwaited,
};
use exchange_text::ExchangeFault;
use judge_core::{Exercise, Rule, Side, Silence};
use judge_times::{Early, Late, earliness, lateness};
use std::alloc::{AllocError, Global};

/// What the times say of a block before the monitor takes it.
#[derive(Clone, Copy)]
pub(super) struct Times {
    /// Whether the card's time is over.
    pub(super) over: bool,
    /// By how much a block of the card is late.
    pub(super) late: Option<Late>,
    /// By how much a block of the terminal is early.
    pub(super) early: Option<Early>,
}

impl JudgeState {
    /// Takes the moment at which the next block begins.
    pub(super) fn moment(&mut self, moment: u64) -> Result<(), ExchangeFault>
        ensures said { OnOk result (IsEntered self.old (Moment moment) self.new) }
        ensures number { OnOk result (self.new.number ≡ self.old.number) }
        ensures fault { IfErr result (λ fault.
            IsFalling self.old (Moment moment) × (fault ≡ Falls self.old.number)) }
    {
        self.rise(moment)?;
        self.timing.now = Some(moment);
        self.timing.until = None;
        Ok(())
    }

    /// Takes the moment of the last octet of the next block.
    pub(super) fn until(&mut self, moment: u64) -> Result<(), ExchangeFault>
        ensures said { OnOk result (IsEntered self.old (Until moment) self.new) }
        ensures number { OnOk result (self.new.number ≡ self.old.number) }
        ensures fault { IfErr result (λ fault.
            IsFalling self.old (Until moment) × (fault ≡ Falls self.old.number)) }
    {
        self.rise(moment)?;
        self.timing.until = Some(moment);
        Ok(())
    }

    /// Takes a moment, unless it is below an earlier one.
    fn rise(&mut self, moment: u64) -> Result<(), ExchangeFault>
        ensures said { OnOk result ((self.old.least ≤ moment)
            × (self.new ≡ record self.old { least = moment })) }
        ensures fault { IfErr result (λ fault.
            (moment < self.old.least) × (fault ≡ Falls self.old.number)) }
    {
        if moment < self.least {
            return Err(ExchangeFault::Falls { line: self.number });
        }
        self.least = moment;
        Ok(())
    }

    /// Reports a card that sent no block before the terminal's next one.
    pub(super) fn missing(
        &mut self,
        alloc: Global,
        over: bool,
        silence: Silence,
    ) -> Result<(), AllocError>
        ensures said { OnOk result (self.new ≡ told_missing self.old over silence) }
        ensures number { OnOk result (self.new.number ≡ self.old.number) }
    {
        match silence {
            Silence::Certain(number) if !over => self.unwaited(alloc, number),
            Silence::No | Silence::Possible(_) | Silence::Certain(_) => self.silence(
                alloc, silence,
            ),
        }
    }

    /// Reports a card that got the block with this number and sent none, if the terminal may have sent too early.
    fn unwaited(&mut self, alloc: Global, number: u64) -> Result<(), AllocError>
        ensures said { OnOk result (self.new
            ≡ told_missing self.old false (SilenceOf.Certain number)) }
        ensures number { OnOk result (self.new.number ≡ self.old.number) }
    {
        if self.is_judged(Side::Card) {
            self.tally.unseen_in();
            tell_unwaited(
                alloc,
                &mut self.text,
                self.scope.layout,
                self.number as u64,
                number,
            )
        } else {
            Ok(())
        }
    }

    /// Reports a card that sent no block.
    pub(super) fn silence(&mut self, alloc: Global, silence: Silence) -> Result<(), AllocError>
        ensures said { OnOk result (self.new ≡ told_silence self.old silence) }
        ensures number { OnOk result (self.new.number ≡ self.old.number) }
    {
        match silence {
            Silence::Possible(number) if self.is_judged(Side::Card) => {
                self.tally.unseen_in();
                tell_possible(
                    alloc,
                    &mut self.text,
                    self.scope.layout,
                    self.number as u64,
                    number,
                )
            }
            Silence::Certain(number) if self.is_judged(Side::Card) => {
                self.tally.deviation_of(Side::Card);
                let exercise = Exercise::Breaks(Rule::Silence, None);
                self.coverage.cover(Side::Card, &exercise);
                tell_certain(
                    alloc,
                    &mut self.text,
                    self.scope.layout,
                    self.number as u64,
                    number,
                )
            }
            Silence::No | Silence::Possible(_) | Silence::Certain(_) => Ok(()),
        }
    }

    /// Returns where octets are that come now.
    pub(super) fn place<'a>(&self, octets: &'a [u8]) -> Place<'a>
        ensures { placed result ≡ place_of self.now octets.now }
    {
        Place {
            line: self.number as u64,
            moment: self.timing.now,
            octets,
        }
    }

    /// Reports a block of another logical connection, whichever end is judged.
    pub(super) fn elsewhere(
        &mut self,
        alloc: Global,
        place: Place<'_>,
        from: Side,
    ) -> Result<(), AllocError>
        ensures said { OnOk result (self.new
            ≡ told_elsewhere self.old (placed place.entry) from) }
        ensures number { OnOk result (self.new.number ≡ self.old.number) }
    {
        self.tally.elsewhere_in();
        let number = self.monitor.blocks;
        tell_elsewhere(
            alloc,
            &mut self.text,
            self.scope.layout,
            place,
            number,
            from,
        )
    }

    /// Returns by how much a block of the card would be late now.
    fn late_now(&self) -> Option<Late>
        ensures { result ≡ late_now self.now }
    {
        lateness(
            self.offer.params,
            self.scope.clock,
            self.timing,
            self.monitor.card.heard,
        )
    }

    /// Returns by how much a block of the terminal would be early now.
    fn early_now(&self) -> Option<Early>
        ensures { result ≡ early_from self.now Terminal }
    {
        earliness(
            self.offer.params,
            self.scope.clock,
            self.timing,
            self.monitor.card.heard,
        )
    }

    /// Returns what the times say of a block of this end that begins now.
    pub(super) fn times(&self, from: Side) -> Times
        ensures over { result.over ≡ is_some (late_now self.now) }
        ensures late { result.late ≡ late_from self.now from }
        ensures early { result.early ≡ early_from self.now from }
    {
        let late = self.late_now();
        let over = late.is_some();
        match from {
            Side::Terminal => Times {
                over,
                late: None,
                early: self.early_now(),
            },
            Side::Card => Times {
                over,
                late,
                early: None,
            },
        }
    }

    /// Reports a card's block that came too late, after the terminal's block with this number.
    pub(super) fn late(
        &mut self,
        alloc: Global,
        place: Place<'_>,
        before: u64,
        late: Option<Late>,
    ) -> Result<(), AllocError>
        ensures said { OnOk result
            (self.new ≡ told_late self.old (placed place.entry) before late) }
        ensures number { OnOk result (self.new.number ≡ self.old.number) }
    {
        match late {
            Some(late) if self.is_judged(Side::Card) => {
                self.tally.late_in();
                let number = self.monitor.blocks;
                tell_late(
                    alloc,
                    &mut self.text,
                    self.scope.layout,
                    place,
                    number,
                    before,
                    late,
                )
            }
            Some(_) | None => Ok(()),
        }
    }

    /// Reports a terminal's block that came too early after the block before.
    pub(super) fn early(
        &mut self,
        alloc: Global,
        place: Place<'_>,
        early: Option<Early>,
    ) -> Result<(), AllocError>
        ensures said { OnOk result (self.new ≡ told_early self.old (placed place.entry) early) }
        ensures number { OnOk result (self.new.number ≡ self.old.number) }
    {
        match early {
            Some(early) if self.is_judged(Side::Terminal) => {
                self.tally.early_in();
                let number = self.monitor.blocks;
                let before = number.saturating_sub(1);
                tell_early(
                    alloc,
                    &mut self.text,
                    self.scope.layout,
                    place,
                    number,
                    before,
                    early,
                )
            }
            Some(_) | None => Ok(()),
        }
    }
}
