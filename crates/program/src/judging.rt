//! Traces of a line, judged by what the standard permits each end to send.

ghost use Rattle.std.specs.Prelude.{◌≡◌, ◌≢◌, ℕ, List, Err, IfErr, IfOk, string_bytes};
ghost use Rattle.exchange_core.specs.Faults.{atr_fault_name};
ghost use Rattle.exchange_core.specs.Replay.{IsFound};
ghost use Rattle.exchange_text.specs.declared.fault.ExchangeFault.TheVariants.{Memory};
ghost use Rattle.program.specs.ExchangeTexts.{file_faulted};
ghost use Rattle.program.specs.Calls.{calls_of, Calls};
ghost use Rattle.program.specs.Explained.{RepliesTo};
ghost use Rattle.program.specs.FileNotes.{kept_note};
ghost use Rattle.program_octets.specs.declared.status.Status.TheVariants as ended;
ghost use Rattle.program.specs.Judged.{AreOf};
ghost use Rattle.program.specs.JudgeTexts.{judged_in, judged_status, only_of, scope_of, IsJudgeNote, IsOffer, IsTextNote, JudgesText, JudgesTrace};
ghost use Rattle.program.specs.Pieces.{ReadsAll};
ghost use Rattle.program.specs.TraceLines.{lines_of, ComesTo};
ghost use Rattle.program_words.specs.declared.request.Judging.{Judging as AnyJudging};
ghost use Rattle.program_words.specs.declared.request.Request.{Request as AnyRequest};
ghost use Rattle.judge_times.specs.Waiting.{Offered};

use crate::asked::session_note;
use crate::exchange::refused;
use crate::file_notes::kept_note;
use crate::judged::WithExplanation;
use crate::laid::{Account, laid};
use crate::pieces::read_past;
use crate::trace_lines::{TraceLines, read_lines};
use atr_core::{decode, t1_params};
use exchange_core::{AtrFault, ExchangeFault};
use judge_core::Side;
use layouts::Layout;
use octet_core::{Named, Source, hex_upper};
use program_octets::{Answer, Status};
use program_words::{Ends, Fault, Judging};
use std::alloc::{AllocError, Global};
use trace_judge::{Judgment, Offer, Scope, rates_before};

/// Returns what octets offer that are exactly one answer to reset with parameters of T=1.
fn offer_of(octets: &[u8]) -> Result<Offer, AtrFault>
    ensures found { IfOk result (IsOffer octets.now) }
    ensures refused { IfErr result (λ fault. IsFound octets.now (Err (atr_fault_name fault))) }
{
    match decode(octets) {
        Ok((atr, taken)) if taken == octets.len() => match t1_params(&atr) {
            Ok(params) => Ok(Offer {
                params,
                rates: rates_before(&atr),
            }),
            Err(fault) => Err(AtrFault::Params(fault)),
        },
        _ => Err(AtrFault::BadAtr),
    }
}

/// Returns the scope of a judgment: what it covers.
fn scope_of(judging: Judging) -> Scope
    ensures { result ≡ scope_of judging }
{
    Scope {
        only: only_of(judging.ends),
        clock: judging.clock,
        rules: judging.rules,
        layout: judging.layout,
    }
}

/// Returns the end that is judged alone, if there is one.
fn only_of(ends: Ends) -> Option<Side>
    ensures { result ≡ only_of ends }
{
    match ends {
        Ends::Terminal => Some(Side::Terminal),
        Ends::Card => Some(Side::Card),
        Ends::Both => None,
    }
}

/// Returns what a judgment says for a card with this answer to reset. The status says whether each block is permitted as
/// it was seen.
fn account_of(
    alloc: Global,
    layout: Layout,
    atr: &[u8],
    judgment: Judgment,
) -> Result<Account, AllocError>
    ensures text { IfOk result (λ account. string_bytes account.text
        ≡ judged_in layout atr.now judgment.text) }
    ensures status { IfOk result (λ account. account.status ≡ judged_status judgment.is_ok) }
{
    let status = status_of(judgment.is_ok);
    let said = judgment.text.into_inner();
    match layout {
        Layout::Lines => Ok(Account { text: said, status }),
        Layout::Json => {
            let digits = hex_upper(alloc, atr)?;
            let text = format!(in alloc; "\"atr\":\"{digits}\",{said}")?;
            Ok(Account { text, status })
        }
    }
}

/// Returns the status by whether each block is permitted as it was seen.
fn status_of(is_ok: bool) -> Status
    ensures { result ≡ judged_status is_ok }
{
    if is_ok {
        Status::Accepted
    } else {
        Status::Refused
    }
}

/// Reads a trace to its end, however long it is. Returns what isn't permitted among its blocks, or its first fault. If it
/// `explains`, the note is on an answer to reset that can't be used, or on the line with the fault.
///
/// Of the trace, only one line is kept at a time. A fault of the reader or of memory comes before one of the trace.
pub(crate) fn judged<R: Source>(
    alloc: Global,
    explains: bool,
    atr: &[u8],
    judging: Judging,
    reader: &mut R,
) -> Result<WithExplanation, Fault>
    ensures answer { (words : List (List ℕ)) → RepliesTo words (AnyRequest.Judge atr.now judging)
        (calls_of R.remaining R.failures reader.old reader.new) result }
    ensures unfailed { IfOk result (λ _. R.failures reader.new ≡ R.failures reader.old) }
{
    match offer_of(atr) {
        Ok(offer) => match read_lines(alloc, offer, scope_of(judging), reader) {
            Ok(lines) => Ok(lines_told(alloc, explains, atr, judging, lines)?),
            Err(fault) => unread(alloc, fault),
        },
        Err(fault) => match read_past(reader) {
            Ok(()) => Ok(unusable_noted(alloc, explains, atr, fault)?),
            Err(fault) => unread(alloc, fault),
        },
    }
}

/// Returns the fault for which a trace wasn't read to its end. The line of too many octets has no note: that on the
/// largest file isn't about a trace.
fn unread(alloc: Global, fault: Fault) -> Result<WithExplanation, Fault>
    ensures answer { (words : List (List ℕ)) (atr : List ℕ) (judging : AnyJudging) (reads : Calls)
        → ReadsAll reads (Err fault) → RepliesTo words (AnyRequest.Judge atr judging) reads result }
    ensures unfailed { (reads : Calls) → ReadsAll reads (Err fault)
        → IfOk result (λ _. reads.after ≡ reads.before) }
{
    match fault {
        Fault::TooLarge => {
            let answer = Answer::faulted(Fault::TooLarge);
            Ok(WithExplanation::alone(alloc, answer))
        }
        other => Err(other),
    }
}

/// Returns the answer for an answer to reset that can't be used, with a note on it.
fn unusable_noted(
    alloc: Global,
    explains: bool,
    atr: &[u8],
    fault: AtrFault,
) -> Result<WithExplanation, AllocError>
    ensures { IsFound atr.now (Err (atr_fault_name fault)) → (judging : AnyJudging) (text : List ℕ)
        → IfOk result (AreOf (JudgesTrace atr.now judging text) (IsJudgeNote atr.now judging text)) }
{
    let answer = Answer::refused_as(fault.name());
    let explanation = session_note(alloc, explains, atr);
    Ok(WithExplanation {
        answer,
        explanation,
    })
}

/// Returns what the lines of a trace come to, for a card with this answer to reset.
fn lines_told(
    alloc: Global,
    explains: bool,
    atr: &[u8],
    judging: Judging,
    lines: TraceLines,
) -> Result<WithExplanation, AllocError>
    ensures { (offered : Offered) (text : List ℕ) → ComesTo offered (scope_of judging)
        (lines_of text) lines.standing lines.line.items lines.fault
        → IfOk result (AreOf (JudgesText atr.now offered judging text)
        (IsTextNote offered judging text)) }
{
    match lines.fault {
        None => {
            let judgment = lines.standing.conclude(alloc)?;
            let account = account_of(alloc, judging.layout, atr, judgment)?;
            let answer = laid(alloc, judging.layout, "judge", account)?;
            Ok(WithExplanation::alone(alloc, answer))
        }
        Some(fault) => fault_with_note(alloc, explains, lines.line.as_slice(), fault),
    }
}

/// Returns the answer for a trace's fault, with a note on the trace's line that has it.
fn fault_with_note(
    alloc: Global,
    explains: bool,
    line: &[u8],
    fault: ExchangeFault,
) -> Result<WithExplanation, AllocError>
    ensures other { IfOk result (λ _. fault ≢ Memory) }
    ensures made { IfOk result (AreOf
        (λ said status. (said ≡ file_faulted fault) × (status ≡ ended.Fault))
        (λ note. note ≡ kept_note line.now fault)) }
{
    let answer = refused(fault)?;
    let explanation = kept_note(alloc, explains, line, fault);
    Ok(WithExplanation {
        answer,
        explanation,
    })
}
