//! How often a trace exercises each rule and each state.

ghost use Rattle.std.specs.Prelude.{◌≡◌, ◌++◌, ◌==◌, ◌&&◌, IfOk, OnOk, codes, slice_index, string_bytes};
ghost use Rattle.layouts.specs.Items.{with_item};
ghost use Rattle.trace_judge.specs.Objects.{card_members, counted_rule, counted_state, rule_object, state_object};
ghost use Rattle.judge_core.specs.Rules.{rule_name, rule_place};
ghost use Rattle.judge_core.specs.States.{state_name, state_place};
ghost use Rattle.trace_judge.specs.Coverage.{bumped, came, counted_by, covered, kept_and_broken, kept_of, kept_one, no_counts, nothing_covered, of_rule, of_state, with_coverage, with_rule, with_rules, with_state, with_states};

use crate::objects::push_never;
use crate::saying::push_number;
use judge_core::{Exercise, RULES, Rule, STATES, Side, Stakes, State};
use layouts::{Layout, Members};
use octet_core::Named;
use std::alloc::{AllocError, Global};

/// How often an end kept each rule and broke it, and how often each state came, in the order of their places.
#[derive(Clone, Copy)]
pub(crate) struct Counts {
    pub(crate) kept: [u64; 23],
    pub(crate) broken: [u64; 23],
    pub(crate) states: [u64; 16],
}

impl Counts {
    fn new() -> Counts
        ensures { result ≡ no_counts }
    {
        Counts {
            kept: [0; 23],
            broken: [0; 23],
            states: [0; 16],
        }
    }

    /// Adds what a block of the end exercised.
    fn count(&mut self, exercise: &Exercise)
        ensures { self.new ≡ counted_by exercise.now self.old }
    {
        match exercise {
            Exercise::Unknown => (),
            Exercise::Keeps(stakes) => {
                keep(&mut self.kept, stakes, &RULES);
                come(&mut self.states, stakes.state());
            }
            Exercise::Breaks(broken, state) => {
                bump_rule(&mut self.broken, *broken);
                come(&mut self.states, *state);
            }
        }
    }

    /// Returns how often the end kept this rule, and how often it broke it.
    fn of(&self, rule: Rule) -> (u64, u64)
        ensures kept { result.0 ≡ slice_index self.now.kept (rule_place rule) }
        ensures broken { result.1 ≡ slice_index self.now.broken (rule_place rule) }
    {
        (self.kept[rule.place()], self.broken[rule.place()])
    }

    fn came_in(&self, state: State) -> u64
        ensures { result ≡ slice_index self.now.states (state_place state) }
    {
        self.states[state.place()]
    }
}

/// What both ends exercised.
#[derive(Clone, Copy)]
pub(crate) struct Coverage {
    pub(crate) terminal: Counts,
    pub(crate) card: Counts,
}

impl Coverage {
    /// Returns the coverage before the first block.
    pub(crate) fn new() -> Coverage
        ensures { result ≡ nothing_covered }
    {
        Coverage {
            terminal: Counts::new(),
            card: Counts::new(),
        }
    }

    /// Counts what a block of this end exercised.
    pub(crate) fn cover(&mut self, side: Side, exercise: &Exercise)
        ensures { self.new ≡ covered side exercise.now self.old }
    {
        match side {
            Side::Terminal => self.terminal.count(exercise),
            Side::Card => self.card.count(exercise),
        }
    }

    /// Appends a line or an object for each rule and each state, if they are counted.
    pub(crate) fn push_if(
        &self,
        alloc: Global,
        text: &mut String,
        layout: Layout,
        are_counted: bool,
    ) -> Result<(), AllocError>
        ensures { OnOk result (string_bytes text.new
            ≡ with_coverage layout are_counted (string_bytes text.old) self.now) }
    {
        if are_counted {
            self.push_rules(alloc, text, layout, &RULES)?;
            self.push_states(alloc, text, layout, &STATES)
        } else {
            Ok(())
        }
    }

    fn push_rules(
        &self,
        alloc: Global,
        text: &mut String,
        layout: Layout,
        rules: &[Rule],
    ) -> Result<(), AllocError>
        ensures { OnOk result (string_bytes text.new
            ≡ with_rules layout (string_bytes text.old) self.now rules.now) }
    {
        for rule in rules {
            self.push_rule(alloc, text, layout, *rule)?;
        }
        Ok(())
    }

    fn push_rule(
        &self,
        alloc: Global,
        text: &mut String,
        layout: Layout,
        rule: Rule,
    ) -> Result<(), AllocError>
        ensures { OnOk result (string_bytes text.new
            ≡ with_rule layout (string_bytes text.old) self.now rule) }
    {
        let terminal = self.terminal.of(rule);
        let card = self.card.of(rule);
        match layout {
            Layout::Lines => push_rule_line(alloc, text, rule, terminal, card),
            Layout::Json => push_rule_object(alloc, text, rule, terminal, card),
        }
    }

    fn push_states(
        &self,
        alloc: Global,
        text: &mut String,
        layout: Layout,
        states: &[State],
    ) -> Result<(), AllocError>
        ensures { OnOk result (string_bytes text.new
            ≡ with_states layout (string_bytes text.old) self.now states.now) }
    {
        for state in states {
            self.push_state(alloc, text, layout, *state)?;
        }
        Ok(())
    }

    fn push_state(
        &self,
        alloc: Global,
        text: &mut String,
        layout: Layout,
        state: State,
    ) -> Result<(), AllocError>
        ensures { OnOk result (string_bytes text.new
            ≡ with_state layout (string_bytes text.old) self.now state) }
    {
        let terminal = self.terminal.came_in(state);
        let card = self.card.came_in(state);
        match layout {
            Layout::Lines => push_state_line(alloc, text, state, terminal, card),
            Layout::Json => push_state_object(alloc, text, state, terminal, card),
        }
    }
}

/// Adds one at the place of each of these rules that was at stake.
fn keep(kept: &mut [u64; 23], stakes: &Stakes, rules: &[Rule])
    ensures { kept.new ≡ kept_of stakes.now rules.now kept.old }
{
    for rule in rules {
        keep_one(kept, stakes, *rule);
    }
}

fn keep_one(kept: &mut [u64; 23], stakes: &Stakes, rule: Rule)
    ensures { kept.new ≡ kept_one stakes.now rule kept.old }
{
    if stakes.has(rule) {
        bump_rule(kept, rule);
    }
}

/// Adds one at the place of the state, if there is one.
fn come(counts: &mut [u64; 16], state: Option<State>)
    ensures { counts.new ≡ came state counts.old }
{
    if let Some(state) = state {
        let count = &mut counts[state.place()];
        *count = count.saturating_add(1);
    }
}

fn bump_rule(counts: &mut [u64; 23], rule: Rule)
    ensures { counts.new ≡ bumped (rule_place rule) counts.old }
{
    let count = &mut counts[rule.place()];
    *count = count.saturating_add(1);
}

/// Appends the line of a rule.
fn push_rule_line(
    alloc: Global,
    text: &mut String,
    rule: Rule,
    terminal: (u64, u64),
    card: (u64, u64),
) -> Result<(), AllocError>
    ensures { OnOk result (string_bytes text.new ≡ string_bytes text.old ++ (codes "rule "
        ++ (rule_name rule ++ of_rule terminal.0 terminal.1 card.0 card.1))) }
{
    text.push_str("rule ")?;
    text.push_str(rule.name())?;
    push_of_rule(alloc, text, terminal, card)
}

/// Appends the object of a rule.
fn push_rule_object(
    alloc: Global,
    items: &mut String,
    rule: Rule,
    terminal: (u64, u64),
    card: (u64, u64),
) -> Result<(), AllocError>
    ensures { OnOk result (string_bytes items.new ≡ with_item (string_bytes items.old)
        (rule_object rule terminal.0 terminal.1 card.0 card.1)) }
{
    if is_never(terminal) && is_never(card) {
        return push_never(alloc, items, "rule", rule.name());
    }
    push_counted_rule(alloc, items, rule, terminal, card)
}

/// Appends the object of a rule that an end kept or broke.
fn push_counted_rule(
    alloc: Global,
    items: &mut String,
    rule: Rule,
    terminal: (u64, u64),
    card: (u64, u64),
) -> Result<(), AllocError>
    ensures { OnOk result (string_bytes items.new ≡ with_item (string_bytes items.old)
        (counted_rule rule terminal.0 terminal.1 card.0 card.1)) }
{
    let mut members = card_members(alloc, rule, card)?;
    members.number(alloc, "terminal_broken", terminal.1)?;
    members.number(alloc, "terminal_kept", terminal.0)?;
    members.push_to(items)
}

/// Returns the members that say how often the card kept a rule and broke it.
#[tactic(auto, unfolding(crate::specs::Objects::card_members))]
fn card_members(alloc: Global, rule: Rule, card: (u64, u64)) -> Result<Members, AllocError>
    ensures { IfOk result (λ members. members ≡ card_members rule card.0 card.1) }
{
    let mut members = Members::new(alloc);
    members.number(alloc, "card_broken", card.1)?;
    members.number(alloc, "card_kept", card.0)?;
    members.string(alloc, "kind", "rule")?;
    members.string(alloc, "rule", rule.name())?;
    Ok(members)
}

/// Appends the line of a state.
fn push_state_line(
    alloc: Global,
    text: &mut String,
    state: State,
    terminal: u64,
    card: u64,
) -> Result<(), AllocError>
    ensures { OnOk result (string_bytes text.new ≡ string_bytes text.old ++ (codes "state "
        ++ (state_name state ++ of_state terminal card))) }
{
    text.push_str("state ")?;
    text.push_str(state.name())?;
    push_of_state(alloc, text, terminal, card)
}

/// Appends the object of a state.
fn push_state_object(
    alloc: Global,
    items: &mut String,
    state: State,
    terminal: u64,
    card: u64,
) -> Result<(), AllocError>
    ensures { OnOk result (string_bytes items.new ≡ with_item (string_bytes items.old)
        (state_object state terminal card)) }
{
    if terminal == 0 && card == 0 {
        return push_never(alloc, items, "state", state.name());
    }
    push_counted_state(alloc, items, state, terminal, card)
}

/// Appends the object of a state that came at an end.
fn push_counted_state(
    alloc: Global,
    items: &mut String,
    state: State,
    terminal: u64,
    card: u64,
) -> Result<(), AllocError>
    ensures { OnOk result (string_bytes items.new ≡ with_item (string_bytes items.old)
        (counted_state state terminal card)) }
{
    let mut members = Members::new(alloc);
    members.number(alloc, "card", card)?;
    members.string(alloc, "kind", "state")?;
    members.string(alloc, "state", state.name())?;
    members.number(alloc, "terminal", terminal)?;
    members.push_to(items)
}

/// Appends how often each end kept a rule and broke it, and the end of its line.
fn push_of_rule(
    alloc: Global,
    text: &mut String,
    terminal: (u64, u64),
    card: (u64, u64),
) -> Result<(), AllocError>
    ensures { OnOk result (string_bytes text.new ≡ string_bytes text.old
        ++ of_rule terminal.0 terminal.1 card.0 card.1) }
{
    if is_never(terminal) && is_never(card) {
        return text.push_str(": never\n");
    }
    text.push_str(": terminal")?;
    push_kept_and_broken(alloc, text, terminal)?;
    text.push_str(", card")?;
    push_kept_and_broken(alloc, text, card)?;
    text.push_str("\n")
}

fn is_never(counts: (u64, u64)) -> bool
    ensures { result ≡ (counts.0 == 0 && counts.1 == 0) }
{
    counts.0 == 0 && counts.1 == 0
}

fn push_kept_and_broken(
    alloc: Global,
    text: &mut String,
    counts: (u64, u64),
) -> Result<(), AllocError>
    ensures { OnOk result (string_bytes text.new ≡ string_bytes text.old
        ++ kept_and_broken counts.0 counts.1) }
{
    text.push_str(" kept ")?;
    push_number(alloc, text, counts.0)?;
    text.push_str(" broken ")?;
    push_number(alloc, text, counts.1)
}

/// Appends how often a state came at each end, and the end of its line.
fn push_of_state(
    alloc: Global,
    text: &mut String,
    terminal: u64,
    card: u64,
) -> Result<(), AllocError>
    ensures { OnOk result (string_bytes text.new ≡ string_bytes text.old
        ++ of_state terminal card) }
{
    if terminal == 0 && card == 0 {
        return text.push_str(": never\n");
    }
    text.push_str(": terminal ")?;
    push_number(alloc, text, terminal)?;
    text.push_str(", card ")?;
    push_number(alloc, text, card)?;
    text.push_str("\n")
}
