//! How many deviations a trace has.

ghost use Rattle.std.specs.Prelude.{◌≡◌, ◌++◌, IfOk, OnOk, string_bytes};
ghost use Rattle.trace_judge.specs.Judging.{card_counts, damaged_of, damaged_part, damaged_text, deviation_counts, deviation_of, deviations, deviations_members, deviations_text, early_in, elsewhere_in, elsewhere_part, ends_text, is_ok, is_sure, is_undamaged, late_in, nothing_told, ok_counts, ok_members, ok_text, summary, summary_members, times_part, unseen_in, unseen_part, unsure_part, verdict_name, with_program, with_summary};

use crate::counting::{
    push_counted, push_damaged_card, push_damaged_terminal, push_time_part, push_unless_zero,
};
use crate::saying::push_number;
use judge_core::Side;
use layouts::{Layout, Members, PROGRAM};
use std::alloc::{AllocError, Global};

/// How many deviations each end has, and how many of them are in time. How many blocks must have been damaged or lost
/// unseen, and how many blocks of each end were damaged on the line.
#[derive(Clone, Copy)]
pub(crate) struct Tally {
    pub(crate) terminal: u64,
    pub(crate) card: u64,
    pub(crate) unseen: u64,
    /// How many blocks of the card came too late.
    pub(crate) late: u64,
    /// How many blocks of the terminal came too early.
    pub(crate) early: u64,
    /// How many blocks were of another logical connection.
    pub(crate) elsewhere: u64,
    pub(crate) terminal_damaged: u64,
    pub(crate) card_damaged: u64,
}

impl Tally {
    /// Returns the tally before the first report.
    pub(crate) fn new() -> Tally
        ensures { result ≡ nothing_told }
    {
        Tally {
            terminal: 0,
            card: 0,
            unseen: 0,
            late: 0,
            early: 0,
            elsewhere: 0,
            terminal_damaged: 0,
            card_damaged: 0,
        }
    }

    /// Counts one more deviation of this end.
    pub(crate) fn deviation_of(&mut self, side: Side)
        ensures { self.new ≡ deviation_of side self.old }
    {
        match side {
            Side::Terminal => self.terminal = self.terminal.saturating_add(1),
            Side::Card => self.card = self.card.saturating_add(1),
        }
    }

    /// Counts one more late block.
    pub(crate) fn late_in(&mut self)
        ensures { self.new ≡ late_in self.old }
    {
        self.late = self.late.saturating_add(1);
    }

    /// Counts one more early block.
    pub(crate) fn early_in(&mut self)
        ensures { self.new ≡ early_in self.old }
    {
        self.early = self.early.saturating_add(1);
    }

    /// Counts one more block that is permitted only after unseen damage.
    pub(crate) fn unseen_in(&mut self)
        ensures { self.new ≡ unseen_in self.old }
    {
        self.unseen = self.unseen.saturating_add(1);
    }

    /// Counts one more block of another logical connection.
    pub(crate) fn elsewhere_in(&mut self)
        ensures { self.new ≡ elsewhere_in self.old }
    {
        self.elsewhere = self.elsewhere.saturating_add(1);
    }

    /// Counts one more damaged block of this end.
    pub(crate) fn damaged_of(&mut self, side: Side)
        ensures { self.new ≡ damaged_of side self.old }
    {
        match side {
            Side::Terminal => self.terminal_damaged = self.terminal_damaged.saturating_add(1),
            Side::Card => self.card_damaged = self.card_damaged.saturating_add(1),
        }
    }

    /// Returns whether each block is permitted, and that is sure.
    pub(crate) fn is_ok(&self) -> bool
        ensures { result ≡ is_ok self.now }
    {
        self.deviations() == 0 && self.is_sure()
    }

    /// Whether no block needs damage that nobody saw, and each was judged.
    fn is_sure(&self) -> bool
        ensures { result ≡ is_sure self.now }
    {
        self.unseen == 0 && self.elsewhere == 0
    }

    /// Returns the word for a trace without a deviation.
    fn verdict_name(&self) -> &'static str
        ensures { result.now ≡ verdict_name self.now }
    {
        if self.is_sure() { "ok" } else { "unsure" }
    }

    /// Returns the number of deviations of both ends, with those in time.
    pub(crate) fn deviations(&self) -> u64
        ensures { result ≡ deviations self.now }
    {
        self.terminal
            .saturating_add(self.card)
            .saturating_add(self.late)
            .saturating_add(self.early)
    }

    /// Returns the text about a trace: its lines and a last one with the counts, or the members of an object, which are
    /// an array of its items and the counts.
    pub(crate) fn with_summary(
        &self,
        alloc: Global,
        told: String,
        layout: Layout,
        blocks: u64,
    ) -> Result<String, AllocError>
        ensures { IfOk result (λ text. string_bytes text
            ≡ with_summary layout (string_bytes told) blocks self.now) }
    {
        match layout {
            Layout::Lines => self.with_line(alloc, told, blocks),
            Layout::Json => self.members(alloc, told.as_str(), blocks),
        }
    }

    /// Returns lines with the last one.
    fn with_line(&self, alloc: Global, lines: String, blocks: u64) -> Result<String, AllocError>
        ensures { IfOk result (λ text. string_bytes text
            ≡ string_bytes lines ++ summary blocks self.now) }
    {
        let mut text = lines;
        self.push_summary(alloc, &mut text, blocks)?;
        Ok(text)
    }

    /// Returns the members of an object with an array of these items.
    fn members(&self, alloc: Global, items: &str, blocks: u64) -> Result<String, AllocError>
        ensures { IfOk result (λ text. string_bytes text
            ≡ summary_members blocks self.now items.now) }
    {
        let members = if self.deviations() == 0 {
            self.ok_members(alloc, items, blocks)?
        } else {
            self.deviations_members(alloc, items, blocks)?
        };
        Ok(members.into_text())
    }

    /// Returns the members of an object if no end deviates, with an array of these items.
    fn ok_members(&self, alloc: Global, items: &str, blocks: u64) -> Result<Members, AllocError>
        ensures { IfOk result (λ members. members ≡ ok_members blocks self.now items.now) }
    {
        let mut members = self.ok_counts(alloc, blocks)?;
        members.array(alloc, "told", items)?;
        push_unless_zero(alloc, &mut members, "unseen", self.unseen)?;
        members.string(alloc, "verdict", self.verdict_name())?;
        Ok(members)
    }

    /// Returns the members for the counts of the blocks, if no end deviates.
    #[tactic(auto, unfolding(crate::specs::Judging::ok_counts))]
    fn ok_counts(&self, alloc: Global, blocks: u64) -> Result<Members, AllocError>
        ensures { IfOk result (λ members. members ≡ ok_counts blocks self.now) }
    {
        let mut members = Members::new(alloc);
        members.number(alloc, "blocks", blocks)?;
        push_unless_zero(alloc, &mut members, "card_damaged", self.card_damaged)?;
        self.push_program(alloc, &mut members)?;
        push_unless_zero(
            alloc,
            &mut members,
            "terminal_damaged",
            self.terminal_damaged,
        )?;
        Ok(members)
    }

    /// Appends the member for blocks of another connection, if there are any, and the one for the program.
    #[tactic(auto, unfolding(crate::specs::Judging::with_program))]
    fn push_program(&self, alloc: Global, members: &mut Members) -> Result<(), AllocError>
        ensures { OnOk result (members.new ≡ with_program members.old self.now) }
    {
        push_unless_zero(alloc, members, "not_judged", self.elsewhere)?;
        members.string(alloc, "program", PROGRAM)
    }

    /// Returns the members of an object if an end deviates, with an array of these items.
    fn deviations_members(
        &self,
        alloc: Global,
        items: &str,
        blocks: u64,
    ) -> Result<Members, AllocError>
        ensures { IfOk result (λ members. members
            ≡ deviations_members blocks self.now items.now) }
    {
        let mut members = self.counts(alloc, blocks)?;
        members.array(alloc, "told", items)?;
        members.number(alloc, "unseen", self.unseen)?;
        members.string(alloc, "verdict", "deviates")?;
        Ok(members)
    }

    /// Returns the members for the counts of the blocks and the deviations.
    #[tactic(auto, unfolding(crate::specs::Judging::deviation_counts))]
    fn counts(&self, alloc: Global, blocks: u64) -> Result<Members, AllocError>
        ensures { IfOk result (λ members. members ≡ deviation_counts blocks self.now) }
    {
        let mut members = self.card_counts(alloc, blocks)?;
        members.number(alloc, "deviations", self.deviations())?;
        push_unless_zero(alloc, &mut members, "early", self.early)?;
        push_unless_zero(alloc, &mut members, "late", self.late)?;
        self.push_program(alloc, &mut members)?;
        members.number(alloc, "terminal", self.terminal)?;
        push_unless_zero(
            alloc,
            &mut members,
            "terminal_damaged",
            self.terminal_damaged,
        )?;
        Ok(members)
    }

    /// Returns the members for the counts of the blocks and of what the card sent.
    #[tactic(auto, unfolding(crate::specs::Judging::card_counts))]
    fn card_counts(&self, alloc: Global, blocks: u64) -> Result<Members, AllocError>
        ensures { IfOk result (λ members. members ≡ card_counts blocks self.now) }
    {
        let mut members = Members::new(alloc);
        members.number(alloc, "blocks", blocks)?;
        members.number(alloc, "card", self.card)?;
        push_unless_zero(alloc, &mut members, "card_damaged", self.card_damaged)?;
        Ok(members)
    }

    /// Appends the last line.
    fn push_summary(&self, alloc: Global, text: &mut String, blocks: u64) -> Result<(), AllocError>
        ensures { OnOk result (string_bytes text.new ≡ string_bytes text.old
            ++ summary blocks self.now) }
    {
        if self.deviations() == 0 {
            self.push_ok(alloc, text, blocks)
        } else {
            self.push_deviations(alloc, text, blocks)
        }
    }

    fn push_ok(&self, alloc: Global, text: &mut String, blocks: u64) -> Result<(), AllocError>
        ensures { OnOk result (string_bytes text.new
            ≡ string_bytes text.old ++ ok_text blocks self.now) }
    {
        text.push_str(self.verdict_name())?;
        text.push_str(" ")?;
        push_counted(alloc, text, blocks, " block")?;
        if self.unseen > 0 {
            self.push_unseen_part(alloc, text)?;
        }
        self.push_elsewhere_part(alloc, text)?;
        self.push_damaged_part(alloc, text)?;
        text.push_str("\n")
    }

    fn push_deviations(
        &self,
        alloc: Global,
        text: &mut String,
        blocks: u64,
    ) -> Result<(), AllocError>
        ensures { OnOk result (string_bytes text.new
            ≡ string_bytes text.old ++ deviations_text blocks self.now) }
    {
        push_counted(alloc, text, blocks, " block")?;
        text.push_str(", ")?;
        push_counted(alloc, text, self.deviations(), " deviation")?;
        text.push_str(": terminal ")?;
        self.push_ends(alloc, text)
    }

    fn push_ends(&self, alloc: Global, text: &mut String) -> Result<(), AllocError>
        ensures { OnOk result (string_bytes text.new ≡ string_bytes text.old
            ++ ends_text self.now) }
    {
        push_number(alloc, text, self.terminal)?;
        text.push_str(", card ")?;
        push_number(alloc, text, self.card)?;
        self.push_unsure_part(alloc, text)?;
        self.push_times_part(alloc, text)?;
        self.push_damaged_part(alloc, text)?;
        text.push_str("\n")
    }

    fn push_damaged_part(&self, alloc: Global, text: &mut String) -> Result<(), AllocError>
        ensures { OnOk result (string_bytes text.new
            ≡ string_bytes text.old ++ damaged_part self.now) }
    {
        if self.is_undamaged() {
            return Ok(());
        }
        self.push_damaged(alloc, text)
    }

    fn is_undamaged(&self) -> bool
        ensures { result ≡ is_undamaged self.now }
    {
        self.terminal_damaged == 0 && self.card_damaged == 0
    }

    fn push_damaged(&self, alloc: Global, text: &mut String) -> Result<(), AllocError>
        ensures { OnOk result (string_bytes text.new
            ≡ string_bytes text.old ++ damaged_text self.now) }
    {
        push_damaged_terminal(alloc, text, self.terminal_damaged)?;
        push_damaged_card(alloc, text, self.card_damaged)
    }

    #[tactic(auto, unfolding(crate::specs::Judging::times_part))]
    fn push_times_part(&self, alloc: Global, text: &mut String) -> Result<(), AllocError>
        ensures { OnOk result (string_bytes text.new
            ≡ string_bytes text.old ++ times_part self.now) }
    {
        push_time_part(alloc, text, ", late ", self.late)?;
        push_time_part(alloc, text, ", early ", self.early)
    }

    fn push_unsure_part(&self, alloc: Global, text: &mut String) -> Result<(), AllocError>
        ensures { OnOk result (string_bytes text.new
            ≡ string_bytes text.old ++ unsure_part self.now) }
    {
        self.push_unseen_part(alloc, text)?;
        self.push_elsewhere_part(alloc, text)
    }

    #[tactic(auto, unfolding(crate::specs::Judging::elsewhere_part))]
    fn push_elsewhere_part(&self, alloc: Global, text: &mut String) -> Result<(), AllocError>
        ensures { OnOk result (string_bytes text.new
            ≡ string_bytes text.old ++ elsewhere_part self.now) }
    {
        push_time_part(alloc, text, ", not judged ", self.elsewhere)
    }

    fn push_unseen_part(&self, alloc: Global, text: &mut String) -> Result<(), AllocError>
        ensures { OnOk result (string_bytes text.new
            ≡ string_bytes text.old ++ unseen_part self.now.unseen) }
    {
        text.push_str(", unseen ")?;
        push_number(alloc, text, self.unseen)
    }
}
