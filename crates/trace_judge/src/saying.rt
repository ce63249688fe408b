//! The texts about the blocks of a trace, as lines.

ghost use Rattle.std.specs.Prelude.{◌≡◌, ◌++◌, IfOk, OnOk, decimal, string_bytes};
ghost use Rattle.trace_judge.specs.Saying.{after_text, asked_text, block_text, certain_text, clause_text, condition_text, deviation_text, digit_text, due_text, early_elapsed, early_text, elapsed_text, elsewhere_text, late_text, least_text, neither_text, permitted_text, possible_text, side_text, subject_text, unseen_text, unwaited_text};

use block_core::{Number, S};
use judge_core::{After, Asked, End, Owed, Rule, Side};
use judge_times::{Early, Late};
use octet_core::Named;
use std::alloc::{AllocError, Global};

/// How the line about a card that sent nothing begins.
const NO_ANSWER: &str = "card: no answer to block ";

/// Appends the line of a block that breaks a rule.
pub(crate) fn push_deviation(
    alloc: Global,
    text: &mut String,
    number: u64,
    side: Side,
    broken: Rule,
    due: &After,
) -> Result<(), AllocError>
    ensures { OnOk result (string_bytes text.new
        ≡ string_bytes text.old ++ deviation_text number side broken due.now) }
{
    push_block(alloc, text, number, side)?;
    text.push_str(": ")?;
    text.push_str(broken.name())?;
    text.push_str(", due ")?;
    push_due(text, &due.end, due.owed)?;
    push_clause(text, broken)
}

/// Appends the line of a block that is permitted only after unseen damage.
pub(crate) fn push_unseen(
    alloc: Global,
    text: &mut String,
    number: u64,
    side: Side,
    before: u64,
) -> Result<(), AllocError>
    ensures { OnOk result (string_bytes text.new
        ≡ string_bytes text.old ++ unseen_text number side before) }
{
    push_block(alloc, text, number, side)?;
    push_condition(alloc, text, before)
}

/// Appends the line of a block of another logical connection.
pub(crate) fn push_elsewhere(
    alloc: Global,
    text: &mut String,
    number: u64,
    side: Side,
) -> Result<(), AllocError>
    ensures { OnOk result (string_bytes text.new
        ≡ string_bytes text.old ++ elsewhere_text number side) }
{
    push_block(alloc, text, number, side)?;
    text.push_str(": another logical connection, not judged")?;
    push_clause(text, Rule::NodeAddress)
}

/// Appends the condition on which a block is permitted.
fn push_condition(alloc: Global, text: &mut String, before: u64) -> Result<(), AllocError>
    ensures { OnOk result (string_bytes text.new ≡ string_bytes text.old ++ condition_text before) }
{
    push_around(
        alloc,
        text,
        ": permitted if block ",
        before,
        " was damaged or lost unseen\n",
    )
}

/// Appends the line of octets before the first block that aren't PPS and aren't a block.
pub(crate) fn push_neither(alloc: Global, text: &mut String, number: u64) -> Result<(), AllocError>
    ensures { OnOk result (string_bytes text.new ≡ string_bytes text.old ++ neither_text number) }
{
    push_around(alloc, text, "line ", number, ": neither PPS nor a block\n")
}

/// Appends the line of a card that sent no block, which is permitted if the terminal's block was lost.
pub(crate) fn push_possible(alloc: Global, text: &mut String, number: u64) -> Result<(), AllocError>
    ensures { OnOk result (string_bytes text.new ≡ string_bytes text.old ++ possible_text number) }
{
    push_around(
        alloc,
        text,
        NO_ANSWER,
        number,
        ", permitted if that was lost unseen\n",
    )
}

/// Appends the line of a card that sent no block, although it received one.
pub(crate) fn push_certain(alloc: Global, text: &mut String, number: u64) -> Result<(), AllocError>
    ensures { OnOk result (string_bytes text.new ≡ string_bytes text.old ++ certain_text number) }
{
    push_around(alloc, text, NO_ANSWER, number, ", which it got")?;
    push_clause(text, Rule::Silence)
}

/// Appends the line of a card's block that came too late after the terminal's block with the number `before`.
pub(crate) fn push_late(
    alloc: Global,
    text: &mut String,
    number: u64,
    before: u64,
    late: Late,
) -> Result<(), AllocError>
    ensures { OnOk result (string_bytes text.new
        ≡ string_bytes text.old ++ late_text number before late) }
{
    push_block(alloc, text, number, Side::Card)?;
    push_elapsed(alloc, text, late.elapsed)?;
    push_after(alloc, text, before)?;
    push_permitted(alloc, text, late.permitted)
}

/// Appends the line of a terminal's block that came too early after the block with the number `before`.
pub(crate) fn push_early(
    alloc: Global,
    text: &mut String,
    number: u64,
    before: u64,
    early: Early,
) -> Result<(), AllocError>
    ensures { OnOk result (string_bytes text.new
        ≡ string_bytes text.old ++ early_text number before early) }
{
    push_block(alloc, text, number, Side::Terminal)?;
    push_early_elapsed(alloc, text, early.elapsed)?;
    push_after(alloc, text, before)?;
    push_least(alloc, text, early.least)
}

/// Appends how many microseconds after the block before a terminal's block came.
fn push_early_elapsed(alloc: Global, text: &mut String, elapsed: u64) -> Result<(), AllocError>
    ensures { OnOk result (string_bytes text.new ≡ string_bytes text.old ++ early_elapsed elapsed) }
{
    push_around(alloc, text, ": early, ", elapsed, " microseconds")
}

/// Appends after how many microseconds a terminal's block is permitted.
fn push_least(alloc: Global, text: &mut String, least: u64) -> Result<(), AllocError>
    ensures { OnOk result (string_bytes text.new ≡ string_bytes text.old ++ least_text least) }
{
    push_around(alloc, text, "permitted from ", least, "  (11.4.3)\n")
}

/// Appends the line of a card that sent no block, which is permitted if the terminal sent too early.
pub(crate) fn push_unwaited(alloc: Global, text: &mut String, number: u64) -> Result<(), AllocError>
    ensures { OnOk result (string_bytes text.new ≡ string_bytes text.old ++ unwaited_text number) }
{
    push_around(
        alloc,
        text,
        NO_ANSWER,
        number,
        ", permitted if the terminal sent before its waiting time ended\n",
    )
}

/// Appends how many microseconds after the terminal's block it came.
fn push_elapsed(alloc: Global, text: &mut String, elapsed: u64) -> Result<(), AllocError>
    ensures { OnOk result (string_bytes text.new ≡ string_bytes text.old ++ elapsed_text elapsed) }
{
    push_around(alloc, text, ": late, ", elapsed, " microseconds")
}

/// Appends the number of the terminal's block.
fn push_after(alloc: Global, text: &mut String, before: u64) -> Result<(), AllocError>
    ensures { OnOk result (string_bytes text.new ≡ string_bytes text.old ++ after_text before) }
{
    push_around(alloc, text, " after block ", before, ", ")
}

/// Appends how many microseconds are permitted.
fn push_permitted(alloc: Global, text: &mut String, permitted: u64) -> Result<(), AllocError>
    ensures { OnOk result (string_bytes text.new
        ≡ string_bytes text.old ++ permitted_text permitted) }
{
    push_around(alloc, text, "permitted ", permitted, "  (11.4.3)\n")
}

/// Appends a block with its number.
fn push_block(alloc: Global, text: &mut String, number: u64, side: Side) -> Result<(), AllocError>
    ensures { OnOk result (string_bytes text.new ≡ string_bytes text.old
        ++ block_text number side) }
{
    text.push_str("block ")?;
    push_number(alloc, text, number)?;
    text.push_str(" ")?;
    text.push_str(side_word(side))
}

/// Appends the clause of a rule, and the end of the line.
fn push_clause(text: &mut String, broken: Rule) -> Result<(), AllocError>
    ensures { OnOk result (string_bytes text.new ≡ string_bytes text.old ++ clause_text broken) }
{
    text.push_str("  (")?;
    text.push_str(broken.clause())?;
    text.push_str(")\n")
}

/// Appends what is due from an end.
fn push_due(text: &mut String, end: &End, owed: Owed) -> Result<(), AllocError>
    ensures { OnOk result (string_bytes text.new ≡ string_bytes text.old ++ due_text end.now owed) }
{
    match owed {
        Owed::NewMessage | Owed::NextBlock | Owed::MessageOrRefusal => push_numbered(
            text, "I-block ", end.next,
        ),
        Owed::Acknowledgment | Owed::AcknowledgmentOrRefusal | Owed::Correction | Owed::Refusal => {
            push_numbered(text, "R-block ", end.expects)
        }
        Owed::SameBlock => {
            push_numbered(text, "I-block ", end.next.other())?;
            text.push_str(" again")
        }
        Owed::SameRequest => push_words(text, asked_word(end.asked), " request again"),
        Owed::Answer(about, _) => push_words(text, subject_word(about), " response"),
        Owed::EitherBlock | Owed::MessageOrCorrection => {
            push_numbered(text, "I-block ", end.next)?;
            push_numbered(text, " or R-block ", end.expects)
        }
        Owed::AnyBlock => text.push_str("any block"),
    }
}

/// Returns what is due from an end.
pub(crate) fn due_words(alloc: Global, end: &End, owed: Owed) -> Result<String, AllocError>
    ensures { IfOk result (λ text. string_bytes text ≡ due_text end.now owed) }
{
    let mut text = String::new(alloc);
    push_due(&mut text, end, owed)?;
    Ok(text)
}

/// Appends a word, and the number of a block.
fn push_numbered(text: &mut String, word: &str, number: Number) -> Result<(), AllocError>
    ensures { OnOk result (string_bytes text.new
        ≡ string_bytes text.old ++ (word.now ++ digit_text number)) }
{
    text.push_str(word)?;
    text.push_str(digit(number))
}

/// Appends a number between two words.
fn push_around(
    alloc: Global,
    text: &mut String,
    before: &str,
    number: u64,
    after: &str,
) -> Result<(), AllocError>
    ensures { OnOk result (string_bytes text.new
        ≡ string_bytes text.old ++ (before.now ++ (decimal number ++ after.now))) }
{
    text.push_str(before)?;
    push_number(alloc, text, number)?;
    text.push_str(after)
}

/// Appends two words.
fn push_words(text: &mut String, word: &str, after: &str) -> Result<(), AllocError>
    ensures { OnOk result (string_bytes text.new ≡ string_bytes text.old
        ++ (word.now ++ after.now)) }
{
    text.push_str(word)?;
    text.push_str(after)
}

/// Appends a number in decimal digits.
pub(crate) fn push_number(alloc: Global, text: &mut String, number: u64) -> Result<(), AllocError>
    ensures { OnOk result (string_bytes text.new ≡ string_bytes text.old ++ decimal number) }
{
    text.push_str(format!(in alloc; "{number}")?.as_str())
}

/// Returns the word for an end.
pub(crate) fn side_word(side: Side) -> &'static str
    ensures { result.now ≡ side_text side }
{
    match side {
        Side::Terminal => "terminal",
        Side::Card => "card",
    }
}

fn digit(number: Number) -> &'static str
    ensures { result.now ≡ digit_text number }
{
    match number {
        Number::Zero => "0",
        Number::One => "1",
    }
}

fn subject_word(about: S) -> &'static str
    ensures { result.now ≡ subject_text about }
{
    match about {
        S::Resynch => "RESYNCH",
        S::Ifs => "IFS",
        S::Abort => "ABORT",
        S::Wtx => "WTX",
    }
}

fn asked_word(asked: Option<Asked>) -> &'static str
    ensures { result.now ≡ asked_text asked }
{
    match asked {
        None => "its",
        Some(Asked::Size(_)) => "IFS",
        Some(Asked::Time(_)) => "WTX",
        Some(Asked::Stop) => "ABORT",
        Some(Asked::Anew) => "RESYNCH",
    }
}
