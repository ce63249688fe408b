//! Recorded exchanges: replayed, migrated, listed and drawn.

ghost use Rattle.std.specs.Prelude.{◌≡◌, ◌≢◌, ◌+◌, ◌++◌, IfOk, OnOk, codes, length, string_bytes};
ghost use Rattle.exchange_text.specs.Exchange.{ExchangeParts};
ghost use Rattle.exchange_text.specs.Text.{exchange_text};
ghost use Rattle.exchange_text.specs.declared.fault.ExchangeFault.TheVariants.{Memory};
ghost use Rattle.program.specs.ExchangeTexts.{agrees_in, both_in, both_lines, both_members, card_member, differs_in, drawn, file_faulted, file_refusal, listed_in, terminal_member, verdict_member, IsOutcome, IsReplayed, IsReplayedAt, IsReplayAnswer, IsToldSo, TellsFile};
ghost use Rattle.program.specs.Explained.{IsDifferenceNote, IsFileNote, IsNoteAt, IsNoteSo};
ghost use Rattle.program.specs.FileNotes.{fault_note};
ghost use Rattle.program.specs.Judged.{AreOf};
ghost use Rattle.program.specs.Laid.{laid};
ghost use Rattle.program.specs.Replays.{AreReplayedAs};
ghost use Rattle.answer_json.specs.declared.refusal.Refusal.TheVariants as refusal;
ghost use Rattle.program_octets.specs.declared.said.Said.TheVariants as saying;
ghost use Rattle.program.specs.Lines.{worse};
ghost use Rattle.program_octets.specs.declared.status.Status.TheVariants as ended;

use crate::file_notes::{difference_note, fault_note};
use crate::judged::{WithExplanation, joined};
use crate::laid::{Account, laid};
use crate::lines::worse;
use answer_json::{Name, Refusal};
use apdu_list::{apdu_items, list_apdus};
use drawings::{draw_ladder, draw_picture};
use exchange_core::{
    Exchange, ExchangeFault, ReplayFault, Side, migrate, read_exchange, replay, write_exchange,
};
use layouts::Layout;
use octet_core::Octets;
use program_octets::{Answer, Said, Status};
use program_words::{Drawing, Ends, FileTask};
use std::alloc::{AllocError, Global};

/// Returns the answer about a file. If it `explains`, it also returns a note on the first line where an end differs, or
/// on the file's first fault.
pub(crate) fn file_answer(
    alloc: Global,
    explains: bool,
    file: &[u8],
    task: FileTask,
) -> Result<WithExplanation, AllocError>
    ensures { IfOk result (AreOf (TellsFile task file.now) (IsFileNote task file.now)) }
{
    match read_exchange(alloc, file) {
        Ok(exchange) => exchange_answer(alloc, explains, file, exchange, task),
        Err(fault) => refused_with_note(alloc, explains, file, fault),
    }
}

/// Returns the answer about an exchange, with a note if it is replayed.
fn exchange_answer(
    alloc: Global,
    explains: bool,
    file: &[u8],
    exchange: Exchange,
    task: FileTask,
) -> Result<WithExplanation, AllocError>
    ensures { IfOk result (AreOf (IsToldSo task exchange)
        (IsNoteSo task file.now exchange)) }
{
    let answer = match task {
        FileTask::Replay(end, layout) => {
            return replayed(alloc, explains, file, &exchange, end, layout);
        }
        FileTask::Migrate => written(alloc, &migrate(exchange))?,
        FileTask::Apdus(layout) => listed(alloc, &exchange, layout)?,
        FileTask::Draw(drawing) => drawn(alloc, &exchange, drawing)?,
    };
    Ok(WithExplanation::alone(alloc, answer))
}

/// Replays an exchange at the end or ends that are named. Returns the answer, with a note.
fn replayed(
    alloc: Global,
    explains: bool,
    file: &[u8],
    exchange: &Exchange,
    end: Ends,
    layout: Layout,
) -> Result<WithExplanation, AllocError>
    ensures { IfOk result (AreOf (IsReplayAnswer end layout exchange.now)
        (IsNoteAt end file.now exchange.now)) }
{
    let ReplayAccount {
        account,
        explanation,
    } = replayed_at(alloc, explains, file, exchange, end, layout)?;
    let answer = laid(alloc, layout, "replay", account)?;
    Ok(WithExplanation {
        answer,
        explanation,
    })
}

/// Whether an end or both ends agree with an exchange, with an explanation if memory for it was available.
#[derive(Drop)]
struct ReplayAccount {
    account: Account,
    explanation: Result<String, AllocError>,
}

/// Replays an exchange at the end or ends that are named. Returns whether they agree with it, with an explanation.
fn replayed_at(
    alloc: Global,
    explains: bool,
    file: &[u8],
    exchange: &Exchange,
    end: Ends,
    layout: Layout,
) -> Result<ReplayAccount, AllocError>
    ensures { IfOk result (AreReplayedAs (IsReplayedAt end layout exchange.now)
        (IsNoteAt end file.now exchange.now)) }
{
    match end {
        Ends::Terminal => replayed_by(alloc, explains, file, exchange, Side::Terminal, layout),
        Ends::Card => replayed_by(alloc, explains, file, exchange, Side::Card, layout),
        Ends::Both => {
            let terminal = replayed_by(alloc, explains, file, exchange, Side::Terminal, layout)?;
            let card = replayed_by(alloc, explains, file, exchange, Side::Card, layout)?;
            let account = both(alloc, layout, &terminal.account, &card.account)?;
            let explanation = joined(terminal.explanation, card.explanation);
            Ok(ReplayAccount {
                account,
                explanation,
            })
        }
    }
}

/// Replays an exchange at one end. Returns whether the end agrees with it, with a note.
fn replayed_by(
    alloc: Global,
    explains: bool,
    file: &[u8],
    exchange: &Exchange,
    side: Side,
    layout: Layout,
) -> Result<ReplayAccount, AllocError>
    ensures { IfOk result (AreReplayedAs (IsReplayed layout exchange.now side)
        (IsDifferenceNote file.now exchange.now side)) }
{
    let outcome = replay(alloc, exchange, side);
    let account = agreement(alloc, exchange, side, layout, &outcome)?;
    let explanation = difference_note(alloc, explains, file, exchange, side, &outcome);
    Ok(ReplayAccount {
        account,
        explanation,
    })
}

/// Joins what is said of both ends, each after the name of its end.
fn both(
    alloc: Global,
    layout: Layout,
    terminal: &Account,
    card: &Account,
) -> Result<Account, AllocError>
    ensures text { IfOk result (λ both. string_bytes both.text
        ≡ both_in layout (string_bytes terminal.now.text) (string_bytes card.now.text)
        both.status) }
    ensures status { IfOk result (λ both.
        both.status ≡ worse terminal.now.status card.now.status) }
{
    let status = worse(terminal.status, card.status);
    let text = match layout {
        Layout::Lines => both_lines(alloc, terminal.text.as_str(), card.text.as_str())?,
        Layout::Json => both_members(alloc, terminal.text.as_str(), card.text.as_str(), status)?,
    };
    Ok(Account { text, status })
}

/// Joins the lines about both ends.
fn both_lines(alloc: Global, terminal: &str, card: &str) -> Result<String, AllocError>
    ensures { IfOk result (λ text. string_bytes text ≡ both_lines terminal.now card.now) }
{
    format!(in alloc; "terminal: {terminal}card: {card}")
}

/// Joins the members about both ends, after the verdict.
fn both_members(
    alloc: Global,
    terminal: &str,
    card: &str,
    status: Status,
) -> Result<String, AllocError>
    ensures { IfOk result (λ text.
        string_bytes text ≡ both_members terminal.now card.now status) }
{
    let mut text = String::new(alloc);
    text.push_str(verdict_member(status))?;
    push_card(&mut text, card)?;
    push_terminal(&mut text, terminal)?;
    Ok(text)
}

/// Appends the member for what is said of the card.
#[tactic(auto, unfolding(crate::specs::ExchangeTexts::card_member))]
fn push_card(text: &mut String, said: &str) -> Result<(), AllocError>
    ensures { OnOk result (string_bytes text.new
        ≡ string_bytes text.old ++ card_member said.now) }
{
    write!(text, "\"card\":{{{said}}}")
}

/// Appends the member for what is said of the terminal, after a comma.
#[tactic(auto, unfolding(crate::specs::ExchangeTexts::terminal_member))]
fn push_terminal(text: &mut String, said: &str) -> Result<(), AllocError>
    ensures { OnOk result (string_bytes text.new
        ≡ string_bytes text.old ++ terminal_member said.now) }
{
    write!(text, ",\"terminal\":{{{said}}}")
}

/// Returns the member for the verdict of both ends, by the status.
fn verdict_member(status: Status) -> &'static str
    ensures { result.now ≡ verdict_member status }
{
    match status {
        Status::Accepted => "\"verdict\":\"ok\",",
        Status::Refused => "\"verdict\":\"differs\",",
        Status::Fault => "",
    }
}

/// Returns the answer for a fault of the file, with a note on the file's line that has the fault.
fn refused_with_note(
    alloc: Global,
    explains: bool,
    file: &[u8],
    fault: ExchangeFault,
) -> Result<WithExplanation, AllocError>
    ensures other { IfOk result (λ _. fault ≢ Memory) }
    ensures made { IfOk result (AreOf
        (λ said status. (said ≡ file_faulted fault) × (status ≡ ended.Fault))
        (λ note. note ≡ fault_note file.now fault)) }
{
    let answer = refused(fault)?;
    let explanation = fault_note(alloc, explains, file, fault);
    Ok(WithExplanation {
        answer,
        explanation,
    })
}

/// Lists the commands and answers of an exchange, as lines or as an object.
fn listed(alloc: Global, exchange: &Exchange, layout: Layout) -> Result<Answer, AllocError>
    ensures said { IfOk result (λ answer. answer.said
        ≡ laid layout (codes "apdus") (listed_in layout exchange.now.lines)) }
    ensures status { IfOk result (λ answer. answer.status ≡ ended.Accepted) }
{
    match layout {
        Layout::Lines => Ok(answer_with(list_apdus(alloc, exchange)?)),
        Layout::Json => {
            let items = apdu_items(alloc, exchange)?;
            let account = Account {
                text: format!(in alloc; "\"verdict\":\"ok\",\"exchanges\":[{items}]")?,
                status: Status::Accepted,
            };
            laid(alloc, Layout::Json, "apdus", account)
        }
    }
}

/// Draws an exchange.
fn drawn(alloc: Global, exchange: &Exchange, drawing: Drawing) -> Result<Answer, AllocError>
    ensures said { IfOk result (λ answer. answer.said
        ≡ saying.Text (drawn drawing exchange.now)) }
    ensures status { IfOk result (λ answer. answer.status ≡ ended.Accepted) }
{
    let text = match drawing {
        Drawing::Ladder => draw_ladder(alloc, exchange)?,
        Drawing::Picture => draw_picture(alloc, exchange)?,
    };
    Ok(answer_with(text))
}

/// Returns lines as the answer to a request that succeeded.
pub(crate) fn answer_with(lines: Vec<u8>) -> Answer
    ensures said { result.said ≡ saying.Text lines.items }
    ensures status { result.status ≡ ended.Accepted }
{
    Answer {
        said: Said::Text(Octets::of(lines)),
        status: Status::Accepted,
    }
}

/// Returns whether an end agrees with an exchange, by the outcome of replaying it: a line, or members.
fn agreement(
    alloc: Global,
    exchange: &Exchange,
    side: Side,
    layout: Layout,
    outcome: &Result<(), ReplayFault>,
) -> Result<Account, AllocError>
    requires { IsOutcome exchange.now side outcome.now }
    ensures { IfOk result (λ account.
        IsReplayed layout exchange.now side (string_bytes account.text) account.status) }
{
    match outcome {
        Ok(()) => Ok(Account {
            text: agreed(alloc, exchange.lines().get().len() + 2, layout)?,
            status: Status::Accepted,
        }),
        Err(ReplayFault::Differs { line, gives }) => Ok(Account {
            text: differing(alloc, *line, gives.get(), layout)?,
            status: Status::Refused,
        }),
        Err(ReplayFault::Memory) => Err(AllocError),
    }
}

/// Returns that an end agrees with so many lines.
fn agreed(alloc: Global, lines: usize, layout: Layout) -> Result<String, AllocError>
    ensures { IfOk result (λ text. (e : ExchangeParts) → lines ≡ length e.lines + 2
        → string_bytes text ≡ agrees_in layout e) }
{
    match layout {
        Layout::Lines => format!(in alloc; "ok {lines} lines\n"),
        Layout::Json => format!(in alloc; "\"lines\":{lines},\"verdict\":\"ok\""),
    }
}

/// Returns that an end differs: what it gives at a line.
fn differing(alloc: Global, line: usize, gives: &str, layout: Layout) -> Result<String, AllocError>
    ensures { IfOk result (λ text. string_bytes text ≡ differs_in layout line gives.now) }
{
    match layout {
        Layout::Lines => format!(in alloc; "line {line}: engine gives {gives}\n"),
        Layout::Json => {
            format!(in alloc; "\"gives\":\"{gives}\",\"line\":{line},\"verdict\":\"differs\"")
        }
    }
}

/// Returns the text of an exchange.
fn written(alloc: Global, exchange: &Exchange) -> Result<Answer, AllocError>
    ensures said { IfOk result (λ answer. answer.said
        ≡ saying.Text (exchange_text exchange.now)) }
    ensures status { IfOk result (λ answer. answer.status ≡ ended.Accepted) }
{
    Ok(answer_with(write_exchange(alloc, exchange)?))
}

/// Returns the answer for a fault of the file.
pub(crate) fn refused(fault: ExchangeFault) -> Result<Answer, AllocError>
    ensures other { IfOk result (λ _. fault ≢ Memory) }
    ensures said { IfOk result (λ answer. answer.said ≡ file_faulted fault) }
    ensures status { IfOk result (λ answer. answer.status ≡ ended.Fault) }
{
    if fault == ExchangeFault::Memory {
        return Err(AllocError);
    }
    Ok(Answer::refusal(file_refusal(fault)))
}

/// Returns a fault of the file, by its name, with its line if it is in one.
fn file_refusal(fault: ExchangeFault) -> Refusal
    ensures { result ≡ file_refusal fault }
{
    let name = Name::of(fault.name());
    match fault.line() {
        None => Refusal::Fault { fault: name },
        Some(line) => Refusal::FaultAt { line, fault: name },
    }
}
