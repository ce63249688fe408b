//! A judge of the blocks on a line. The caller keeps the state, and nothing is allocated.

ghost use Rattle.std.specs.Prelude.{◌≡◌, ◌≢◌, IfSome, IfNone};
ghost use Rattle.octet_core.specs.Sizes.{IsReserved};
ghost use Rattle.judge_core.specs.Monitored.{new_monitor, quiet_after};
ghost use Rattle.c_lent.specs.Verdict.{ok_at, wrong_argument};
ghost use Rattle.c_lent.specs.Names.{ended};
ghost use Rattle.c_lent.specs.KeptJudge.{side_of, monitor_of};
ghost use Rattle.c_lent.specs.LentJudge.{arrival_of, rule_words, clause_words, silence_shown, owes_block, JudgesBlock};

use c_lent::kept_judge::CJudge;
use c_lent::lent_judge::CJudgment;
use c_lent::names::CText;
use c_lent::verdict::Verdict;

/// Begins a judge at a reset of a card that takes information fields of up to `ifsc` octets, 1 to 254. The state may
/// have any value before. Returns `ARGUMENT` for 0 and 255. Then nothing changes.
#[unsafe(no_mangle)]
pub extern "C" fn scard_lent_judge_begin(state: &mut CJudge, ifsc: u8) -> Verdict
    ensures ok { (IsReserved ifsc → ⊥) →
        (result ≡ ok_at 0) × (monitor_of state.new ≡ new_monitor ifsc) }
    ensures argument { IsReserved ifsc → (result ≡ wrong_argument 0) × (state.new ≡ state.old) }
{
    c_lent::lent_judge::lent_judge_begin(state, ifsc)
}

/// Judges the octets that an end put on the line as one block. `from` is 0 for the terminal, 1 for the card. `arrival`
/// says how they reached the other end: 0 unknown, 1 not at all, 2 as the octets `came`. Returns `ARGUMENT` for another
/// number. Then nothing changes.
#[unsafe(no_mangle)]
pub extern "C" fn scard_lent_judge_block(
    state: &mut CJudge,
    from: u8,
    octets: &[u8],
    arrival: u8,
    came: &[u8],
    out: &mut CJudgment,
) -> Verdict
    ensures judged { IfSome (side_of from) (λ side. IfSome (arrival_of arrival came.entry) (λ how.
        (result ≡ ok_at 0) × JudgesBlock state.old side octets.now how state.new out.new)) }
    ensures side { IfNone (side_of from) (result ≡ wrong_argument 0) }
    ensures arrival { IfNone (arrival_of arrival came.entry) (result ≡ wrong_argument 0) }
    ensures stays { result.status ≢ 0 → (state.new ≡ state.old) × (out.new ≡ out.old) }
{
    c_lent::lent_judge::lent_judge_block(state, from, octets, arrival, came, out)
}

/// Ends the terminal's waiting time, and says whether the card owed a block that it didn't send.
#[unsafe(no_mangle)]
pub extern "C" fn scard_lent_judge_quiet(state: &mut CJudge, out: &mut CJudgment)
    ensures after { monitor_of state.new ≡ quiet_after (monitor_of state.old) }
    ensures shown { out.new ≡ silence_shown (owes_block (monitor_of state.old)) }
{
    c_lent::lent_judge::lent_judge_quiet(state, out)
}

/// Says whether the card owes a block, as at the end of a trace.
#[unsafe(no_mangle)]
pub extern "C" fn scard_lent_judge_finish(state: &CJudge, out: &mut CJudgment)
    ensures { out.new ≡ silence_shown (owes_block (monitor_of state.now)) }
{
    c_lent::lent_judge::lent_judge_finish(state, out)
}

/// Returns in a few words what breaks a rule; "" for any other number.
#[unsafe(no_mangle)]
pub extern "C" fn scard_judge_rule_text(rule: u8, out: &mut CText)
    ensures { out.new.octets.now ≡ ended (rule_words rule) }
{
    c_lent::lent_judge::judge_rule_text(rule, out)
}

/// Returns the clause of a rule in ISO/IEC 7816-3:2006; "" for any other number.
#[unsafe(no_mangle)]
pub extern "C" fn scard_judge_clause_text(rule: u8, out: &mut CText)
    ensures { out.new.octets.now ≡ ended (clause_words rule) }
{
    c_lent::lent_judge::judge_clause_text(rule, out)
}
