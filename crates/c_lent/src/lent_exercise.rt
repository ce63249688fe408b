//! Which rules and states of T=1 a block exercises (ISO/IEC 7816-3:2006, clause 11.6). Nothing is allocated.

ghost use Rattle.std.specs.Prelude.{◌≡◌, ◌≢◌, IfSome, IfNone};
ghost use Rattle.c_lent.specs.Verdict.{ok_at, wrong_argument};
ghost use Rattle.c_lent.specs.KeptJudge.{side_of};
ghost use Rattle.c_lent.specs.LentJudge.{arrival_of};
ghost use Rattle.c_lent.specs.LentExercise.{due_number, exercise_shown, mark_if, marks_with, rule_mark, state_number, IsExercised};

use crate::judge_numbers::side_of;
use crate::kept_judge::CJudge;
use crate::lent_judge::arrival_of;
use crate::verdict::{Numbered, Verdict};
use judge_core::{Exercise, RULES, Rule, Stakes, State};

/// The rules that a block keeps or breaks, and what was due.
#[repr(C)]
#[derive(Clone, Copy)]
pub struct CExercise {
    /// The bit at the number of each rule that the block keeps.
    pub kept: u32,
    /// The rule that it breaks, or 0.
    pub broken: u8,
    /// What was due, by the numbers of `CDue`, or 0.
    pub due: u8,
}

/// Says which rules octets of an end keep or break as one block, and what was due. The judge doesn't take them.
pub fn lent_judge_exercise(
    state: &CJudge,
    from: u8,
    octets: &[u8],
    arrival: u8,
    came: &[u8],
    out: &mut CExercise,
) -> Verdict
    ensures exercised { IfSome (side_of from)
        (λ side. IfSome (arrival_of arrival came.entry) (λ how.
        (result ≡ ok_at 0) × IsExercised state.now side octets.now how out.new)) }
    ensures side { IfNone (side_of from) (result ≡ wrong_argument 0) }
    ensures arrival { IfNone (arrival_of arrival came.entry) (result ≡ wrong_argument 0) }
    ensures stays { result.status ≢ 0 → out.new ≡ out.old }
{
    let Some(side) = side_of(from) else {
        return Verdict::argument();
    };
    let Some(how) = arrival_of(arrival, came) else {
        return Verdict::argument();
    };
    let exercise = state.monitor().exercise(side, octets, how);
    *out = CExercise::of(&exercise);
    Verdict::ok(0)
}

impl CExercise {
    fn of(exercise: &Exercise) -> CExercise
        ensures { result ≡ exercise_shown exercise.now }
    {
        match exercise {
            Exercise::Unknown => CExercise {
                kept: 0,
                broken: 0,
                due: 0,
            },
            Exercise::Keeps(stakes) => CExercise {
                kept: marks_of(stakes, &RULES),
                broken: 0,
                due: due_number(stakes.state()),
            },
            Exercise::Breaks(broken, state) => CExercise {
                kept: 0,
                broken: broken.number(),
                due: due_number(*state),
            },
        }
    }
}

/// Returns the marks of the given rules that are at stake.
fn marks_of(stakes: &Stakes, rules: &[Rule]) -> u32
    ensures { result ≡ marks_with stakes.now rules.now 0 }
{
    let mut marks = 0;
    for rule in rules {
        marks |= mark_if(stakes, *rule);
    }
    marks
}

/// Returns the mark of a rule if it is at stake, otherwise 0.
fn mark_if(stakes: &Stakes, rule: Rule) -> u32
    ensures { result ≡ mark_if stakes.now rule }
{
    if stakes.has(rule) { rule_mark(rule) } else { 0 }
}

/// Returns the mark of a rule: the bit at its number.
fn rule_mark(rule: Rule) -> u32
    ensures { result ≡ rule_mark rule }
{
    1 << rule.number()
}

fn due_number(state: Option<State>) -> u8
    ensures { result ≡ due_number state }
{
    match state {
        Some(state) => state.number(),
        None => 0,
    }
}

impl Numbered for State {
    ghost number = { state_number };

    fn number(self) -> u8 {
        match self {
            State::Message => 1,
            State::Chain => 2,
            State::Acknowledgment => 3,
            State::Repeat => 4,
            State::Correction => 5,
            State::Refusal => 6,
            State::Request => 7,
            State::Resynch => 8,
            State::Size => 9,
            State::Abort => 10,
            State::Time => 11,
            State::AfterAbort => 12,
            State::Any => 13,
            State::MessageOrCorrection => 14,
            State::MessageOrRefusal => 15,
            State::AcknowledgmentOrRefusal => 16,
        }
    }
}
