//! A judge of the blocks on a line (ISO/IEC 7816-3, clause 11.6). The caller keeps the state, and nothing is allocated.

ghost use Rattle.std.specs.Prelude.{◌≡◌, ◌≢◌, IfSome, IfNone};
ghost use Rattle.octet_core.specs.Sizes.{IsReserved};
ghost use Rattle.judge_core.specs.Monitored.{new_monitor, quiet_after};
ghost use Rattle.c_lent.specs.Verdict.{ok_at, wrong_argument};
ghost use Rattle.c_lent.specs.Names.{ended};
ghost use Rattle.c_lent.specs.KeptJudge.{side_of, monitor_of};
ghost use Rattle.c_lent.specs.LentJudge.{arrival_of, rule_number, rule_words, clause_words, due_of, no_due, verdict_number, rule_shown, due_shown, silence_number, unanswered_by, judgment_of, silence_shown, owes_block, JudgesBlock};

use crate::judge_numbers::{asked, owed, side_of};
use crate::kept_judge::CJudge;
use crate::names::CText;
use crate::number::number;
use crate::verdict::{Numbered, Verdict as Told};
use judge_core::{After, Arrival, Monitor, Report, Rule, Said, Side, Silence, Verdict};
use octet_core::is_reserved;

/// What was due from an end: its number, and the octet that a response carries. Then come the number of the end's next
/// I-block, the number of the I-block that it expects, and its request that waits for a response.
#[repr(C)]
#[derive(Clone, Copy)]
pub struct CDue {
    pub owed: u8,
    pub octet: u8,
    pub next: u8,
    pub expects: u8,
    pub asked: u8,
}

/// The judgment on a block, and on a card that sent none before it.
#[repr(C)]
#[derive(Clone, Copy)]
pub struct CJudgment {
    /// The number of the block, from 1.
    pub number: u64,
    /// The number of the other end's last block, or 0.
    pub before: u64,
    /// The number of the block that the card left unanswered, or 0.
    pub unanswered: u64,
    pub verdict: u8,
    /// The rule that the block breaks, or 0.
    pub rule: u8,
    pub silence: u8,
    pub due: CDue,
}

/// Begins a judge at a reset of a card that takes information fields of up to `ifsc` octets, 1 to 254. The state may
/// have any value before.
pub fn lent_judge_begin(state: &mut CJudge, ifsc: u8) -> Told
    ensures ok { (IsReserved ifsc → ⊥) →
        (result ≡ ok_at 0) × (monitor_of state.new ≡ new_monitor ifsc) }
    ensures argument { IsReserved ifsc → (result ≡ wrong_argument 0) × (state.new ≡ state.old) }
{
    if is_reserved(ifsc) {
        return Told::argument();
    }
    *state = CJudge::of(&Monitor::new(ifsc));
    Told::ok(0)
}

/// Judges the octets that an end put on the line as one block.
pub fn lent_judge_block(
    state: &mut CJudge,
    from: u8,
    octets: &[u8],
    arrival: u8,
    came: &[u8],
    out: &mut CJudgment,
) -> Told
    ensures judged { IfSome (side_of from) (λ side. IfSome (arrival_of arrival came.entry) (λ how.
        (result ≡ ok_at 0) × JudgesBlock state.old side octets.now how state.new out.new)) }
    ensures side { IfNone (side_of from) (result ≡ wrong_argument 0) }
    ensures arrival { IfNone (arrival_of arrival came.entry) (result ≡ wrong_argument 0) }
    ensures stays { result.status ≢ 0 → (state.new ≡ state.old) × (out.new ≡ out.old) }
{
    let Some(side) = side_of(from) else {
        return Told::argument();
    };
    let Some(how) = arrival_of(arrival, came) else {
        return Told::argument();
    };
    let mut monitor = state.monitor();
    let report = monitor.block(side, octets, how);
    *state = CJudge::of(&monitor);
    *out = CJudgment::of(state.blocks, report);
    Told::ok(0)
}

/// Ends the terminal's waiting time, and says whether the card owed a block that it didn't send.
pub fn lent_judge_quiet(state: &mut CJudge, out: &mut CJudgment)
    ensures after { monitor_of state.new ≡ quiet_after (monitor_of state.old) }
    ensures shown { out.new ≡ silence_shown (owes_block (monitor_of state.old)) }
{
    let mut monitor = state.monitor();
    *out = CJudgment::silent(monitor.quiet());
    *state = CJudge::of(&monitor);
}

/// Says whether the card owes a block, as at the end of a trace.
pub fn lent_judge_finish(state: &CJudge, out: &mut CJudgment)
    ensures { out.new ≡ silence_shown (owes_block (monitor_of state.now)) }
{
    *out = CJudgment::silent(state.monitor().silence());
}

/// Returns in a few words what breaks a rule; "" for any other number.
pub fn judge_rule_text(rule: u8, out: &mut CText)
    ensures { out.new.octets.now ≡ ended (rule_words rule) }
{
    let octets: &'static [u8] = match rule {
        1 => b"node address\0",
        2 => b"control octet\0",
        3 => b"length\0",
        4 => b"reserved size\0",
        5 => b"field too long\0",
        6 => b"out of turn\0",
        7 => b"request of the other end\0",
        8 => b"sequence number\0",
        9 => b"no I-block\0",
        10 => b"no acknowledgment\0",
        11 => b"error code\0",
        12 => b"no repeat\0",
        13 => b"repeat with other octets\0",
        14 => b"no R-block\0",
        15 => b"no repeated request\0",
        16 => b"no response\0",
        17 => b"response with another octet\0",
        18 => b"response to no request\0",
        19 => b"ABORT outside a chain\0",
        20 => b"RESYNCH too early\0",
        21 => b"too many repeats\0",
        22 => b"no block\0",
        23 => b"check octet\0",
        _ => b"\0",
    };
    *out = CText { octets };
}

/// Returns the clause of a rule in ISO/IEC 7816-3:2006; "" for any other number.
pub fn judge_clause_text(rule: u8, out: &mut CText)
    ensures { out.new.octets.now ≡ ended (clause_words rule) }
{
    let octets: &'static [u8] = match rule {
        1 => b"11.3.2.1\0",
        2 => b"11.3.2.2\0",
        3 => b"11.3.2.3\0",
        4 => b"11.4.2\0",
        5 => b"11.4.2\0",
        6 => b"11.6.2.3 rule 1\0",
        7 => b"11.6.2.3 rule 3, 11.6.3.2 rule 6\0",
        8 => b"11.6.2.3 rule 2.1, 11.6.3.2 rule 7.1\0",
        9 => b"11.6.2.3 rule 2.1\0",
        10 => b"11.6.2.3 rule 2.2\0",
        11 => b"11.6.2.3 rule 2.2\0",
        12 => b"11.6.3.2 rule 7.1\0",
        13 => b"11.6.3.2 rule 7.1\0",
        14 => b"11.6.3.2 rules 7.1 and 7.2\0",
        15 => b"11.6.3.2 rule 7.3\0",
        16 => b"11.6.2.3 rules 3 and 4, 11.6.3.2 rules 6 and 9\0",
        17 => b"11.6.2.3 rules 3 and 4\0",
        18 => b"11.6.2.3 rules 3 and 4\0",
        19 => b"11.6.3.2 rule 9\0",
        20 => b"11.6.3.2 rule 6\0",
        21 => b"11.6.3.2 rule 7.4\0",
        22 => b"11.6.2.3 rule 1\0",
        23 => b"11.3.4\0",
        _ => b"\0",
    };
    *out = CText { octets };
}

pub(crate) fn arrival_of(arrival: u8, came: &[u8]) -> Option<Arrival<'_>>
    ensures { result ≡ arrival_of arrival came.entry }
{
    match arrival {
        0 => Some(Arrival::Unsaid),
        1 => Some(Arrival::Lost),
        2 => Some(Arrival::Came(came)),
        _ => None,
    }
}

impl Numbered for Rule {
    ghost number = { rule_number };

    fn number(self) -> u8 {
        match self {
            Rule::NodeAddress => 1,
            Rule::ControlOctet => 2,
            Rule::Length => 3,
            Rule::ReservedSize => 4,
            Rule::FieldSize => 5,
            Rule::Turn => 6,
            Rule::ForeignRequest => 7,
            Rule::SequenceNumber => 8,
            Rule::BlockDue => 9,
            Rule::AcknowledgmentDue => 10,
            Rule::ErrorCode => 11,
            Rule::RepeatDue => 12,
            Rule::RepeatedOctets => 13,
            Rule::CorrectionDue => 14,
            Rule::RequestDue => 15,
            Rule::ResponseDue => 16,
            Rule::ResponseOctet => 17,
            Rule::Unasked => 18,
            Rule::NoChain => 19,
            Rule::EarlyResynch => 20,
            Rule::TooManyRepeats => 21,
            Rule::Silence => 22,
            Rule::CheckOctet => 23,
        }
    }
}

impl CDue {
    fn of(due: After) -> CDue
        ensures { result ≡ due_of due }
    {
        let (owed, octet) = owed(due.owed);
        let (asked, _) = asked(due.end.asked);
        CDue {
            owed,
            octet,
            next: number(due.end.next),
            expects: number(due.end.expects),
            asked,
        }
    }

    fn none() -> CDue
        ensures { result ≡ no_due }
    {
        CDue {
            owed: 0,
            octet: 0,
            next: 0,
            expects: 0,
            asked: 0,
        }
    }
}

impl CJudgment {
    fn of(number: u64, report: Report) -> CJudgment
        ensures { result ≡ judgment_of number report }
    {
        CJudgment {
            number,
            before: report.before,
            verdict: verdict_number(report.said),
            rule: rule_shown(report.said),
            due: due_shown(report.said),
            ..CJudgment::silent(report.silence)
        }
    }

    fn silent(silence: Silence) -> CJudgment
        ensures { result ≡ silence_shown silence }
    {
        CJudgment {
            number: 0,
            before: 0,
            unanswered: unanswered_by(silence),
            verdict: 0,
            rule: 0,
            silence: silence_number(silence),
            due: CDue::none(),
        }
    }
}

fn verdict_number(said: Said) -> u8
    ensures { result ≡ verdict_number said }
{
    match said {
        Said::Block(Verdict::Permitted) => 0,
        Said::Damage => 1,
        Said::Block(Verdict::Unseen) => 2,
        Said::Block(Verdict::Deviates(..)) => 3,
        Said::Elsewhere => 4,
    }
}

fn rule_shown(said: Said) -> u8
    ensures { result ≡ rule_shown said }
{
    match said {
        Said::Block(Verdict::Deviates(broken, _)) => broken.number(),
        Said::Block(Verdict::Permitted | Verdict::Unseen) | Said::Damage | Said::Elsewhere => 0,
    }
}

fn due_shown(said: Said) -> CDue
    ensures { result ≡ due_shown said }
{
    match said {
        Said::Block(Verdict::Deviates(_, due)) => CDue::of(due),
        Said::Block(Verdict::Permitted | Verdict::Unseen) | Said::Damage | Said::Elsewhere => {
            CDue::none()
        }
    }
}

fn silence_number(silence: Silence) -> u8
    ensures { result ≡ silence_number silence }
{
    match silence {
        Silence::No => 0,
        Silence::Possible(_) => 1,
        Silence::Certain(_) => 2,
    }
}

/// Returns the number of the block that has no answer, or 0.
fn unanswered_by(silence: Silence) -> u64
    ensures { result ≡ unanswered_by silence }
{
    match silence {
        Silence::No => 0,
        Silence::Possible(number) | Silence::Certain(number) => number,
    }
}
