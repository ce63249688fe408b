//! Which rules and states a block of a trace exercises.

ghost use Rattle.std.specs.Prelude.{◌≡◌};
ghost use Rattle.judge_core.specs.declared.monitor.Said.TheVariants.{Block};
ghost use Rattle.judge_core.specs.Classes.{reaching_of, seen_of};
ghost use Rattle.judge_core.specs.Monitored.{addressed_by, here_after, monitor_after, report_here, report_of, said_here, said_of, sender, Takes};
ghost use Rattle.judge_core.specs.Rulings.{tried};
ghost use Rattle.judge_core.specs.Stakes.{exercise_by, exercise_of, fitting, stakes_of, Exercises};

use crate::class::{Class, class_sent};
use crate::courses::{Attempt, Verdict};
use crate::end::After;
use crate::monitor::{Arrival, Monitor, Report, Watched};
use crate::reach::{Reached, passage_of};
use crate::rule::Rule;
use crate::ruling::Ruling;
use crate::stakes::Stakes;
use crate::state::State;
use block_core::Side;

/// What a block of a trace exercises.
#[derive(Clone, Copy, Debug)]
pub enum Exercise {
    /// Nothing is known about it: it is damage, or a block of another logical connection.
    Unknown,
    /// The standard permits it, so it keeps each rule that was at stake.
    Keeps(Stakes),
    /// It breaks this rule. The state is what was due, if it was its sender's turn.
    Breaks(Rule, Option<State>),
}

/// The report on a block, and what the block exercises.
#[derive(Clone, Copy, Debug)]
pub struct Exercised {
    pub report: Report,
    pub exercise: Exercise,
}

impl Monitor {
    /// Returns what the next octets of an end exercise. It doesn't take them; [`Monitor::block`] does.
    pub fn exercise(&self, from: Side, octets: &[u8], arrival: Arrival<'_>) -> Exercise
        ensures { Exercises self.now from octets.now arrival.entry result }
    {
        let class = class_sent(octets, arrival);
        self.exercise_of(from, &class)
    }

    fn exercise_of(&self, from: Side, class: &Class<'_>) -> Exercise
        ensures { result ≡ exercise_of self.now from (seen_of class.now) }
    {
        if self.is_elsewhere(from, class) {
            Exercise::Unknown
        } else {
            let ruling = self.ruling(from, class);
            self.exercise_here(from, class, &ruling)
        }
    }

    /// Takes octets as [`Monitor::block`] does, and returns also what they exercise, as [`Monitor::exercise`] says it
    /// before. It judges them once.
    pub fn block_with_exercise(
        &mut self,
        from: Side,
        octets: &[u8],
        arrival: Arrival<'_>,
    ) -> Exercised
        ensures takes { Takes self.old from octets.now arrival.entry self.new result.report }
        ensures exercises { Exercises self.old from octets.now arrival.entry result.exercise }
    {
        let passage = passage_of(octets, arrival);
        self.saw_with_exercise(from, &passage.class, &passage.reached)
    }

    fn saw_with_exercise(
        &mut self,
        from: Side,
        class: &Class<'_>,
        reached: &Reached<'_>,
    ) -> Exercised
        ensures after { self.new ≡ monitor_after self.old from (seen_of class.now)
            (reaching_of reached.now) }
        ensures report { result.report ≡ report_of self.old from (seen_of class.now) }
        ensures exercise { result.exercise ≡ exercise_of self.old from (seen_of class.now) }
    {
        if self.is_elsewhere(from, class) {
            Exercised {
                report: self.saw_elsewhere(from, class, reached),
                exercise: Exercise::Unknown,
            }
        } else {
            self.saw_here_with_exercise(from, class, reached)
        }
    }

    /// Takes octets that aren't a block of another logical connection.
    fn saw_here_with_exercise(
        &mut self,
        from: Side,
        class: &Class<'_>,
        reached: &Reached<'_>,
    ) -> Exercised
        ensures after { self.new ≡ here_after self.old from (seen_of class.now)
            (reaching_of reached.now) }
        ensures report { result.report ≡ report_here self.old from (seen_of class.now) }
        ensures exercise { result.exercise ≡ exercise_by
            (stakes_of (sender self.old from) (seen_of class.now))
            (said_here self.old from (seen_of class.now)) }
    {
        let ruling = self.ruling(from, class);
        let exercise = self.exercise_here(from, class, &ruling);
        let report = self.saw_here(from, class, reached, &ruling);
        Exercised { report, exercise }
    }

    /// Returns what octets exercise that aren't a block of another logical connection, and that were tried so.
    fn exercise_here(&self, from: Side, class: &Class<'_>, ruling: &Ruling) -> Exercise
        requires addressed { ruling.now.addressed
            ≡ addressed_by from self.now.nad (seen_of class.now) }
        requires tried { ruling.now.trial
            ≡ tried (sender self.now from) ruling.now.addressed (seen_of class.now) }
        ensures { result ≡ exercise_by (stakes_of (sender self.now from) (seen_of class.now))
            (said_here self.now from (seen_of class.now)) }
    {
        match from {
            Side::Terminal => self.terminal.exercise(class, ruling),
            Side::Card => self.card.exercise(class, ruling),
        }
    }
}

impl Watched {
    /// Returns what octets exercise that were tried so. It tries only a block with a wrong node address.
    fn exercise(&self, class: &Class<'_>, ruling: &Ruling) -> Exercise
        requires { ruling.now.trial ≡ tried self.now ruling.now.addressed (seen_of class.now) }
        ensures { result ≡ exercise_by (stakes_of self.now (seen_of class.now))
            (said_of self.now ruling.now.addressed (seen_of class.now)) }
    {
        match (class, &ruling.trial) {
            (Class::Whole(_), Some(trial)) => {
                exercise_by(self.stakes(trial.due), trial.judged.verdict)
            }
            (Class::Whole(block), None) => {
                let due = self.trial(block).due;
                Exercise::Breaks(Rule::NodeAddress, self.stakes(due).state())
            }
            (Class::Malformed(broken), _) => {
                Exercise::Breaks(*broken, self.stakes(self.due()).state())
            }
            (Class::Damage, _) => Exercise::Unknown,
        }
    }

    /// Returns what is at stake for the end if this was due from it.
    fn stakes(&self, due: After) -> Stakes
        ensures { result ≡ record { heard = self.now.heard; due = due } }
    {
        Stakes {
            heard: self.heard,
            due,
        }
    }
}

/// Returns what a block with this verdict exercises.
fn exercise_by(stakes: Stakes, verdict: Verdict) -> Exercise
    ensures { result ≡ exercise_by stakes (Block verdict) }
{
    match verdict {
        Verdict::Permitted | Verdict::Unseen => Exercise::Keeps(stakes),
        Verdict::Deviates(broken, _) => Exercise::Breaks(broken, stakes.state()),
    }
}

/// Returns the first course, unless only the second permits the block.
pub(crate) fn fitting(
    first: After,
    second: Option<After>,
    by_first: Attempt,
    by_second: Attempt,
) -> After
    ensures { result ≡ fitting first second by_first by_second }
{
    match (by_first, second, by_second) {
        (Some(Ok(_)), _, _) => first,
        (_, Some(second), Some(Ok(_))) => second,
        _ => first,
    }
}
