//! Exchanges that are made from the blocks seen on a line.

ghost use Rattle.std.specs.Prelude.{◌≡◌, ◌<◌, ◌≤◌, length, IfOk, string_bytes};
ghost use Rattle.exchange_text.specs.Text.{exchange_text};
ghost use Rattle.exchange_text.specs.declared.fault.ExchangeFault.TheVariants.{Memory};
ghost use Rattle.program.specs.Files.{largest_file};
ghost use Rattle.program.specs.Judged.{AreOf};
ghost use Rattle.program.specs.RecordTexts as texts;
ghost use Rattle.program.specs.RecordTexts.{IsItemsNote, IsRecordNote, IsRefusedNote, IsSizeNote, Records, RecordsItems, RefusesText, refused_line, unfit_note};
ghost use Rattle.traces.specs.declared.reading.TraceFault.TheVariants.{Unfit as UnfitLine};
ghost use Rattle.program_octets.specs.declared.status.Status.TheVariants as ended;

use crate::asked::session_note;
use crate::exchange::refused;
use crate::file::LARGEST_FILE;
use crate::file_notes::{shown_at, trace_note};
use crate::judged::WithExplanation;
use crate::simulation::file;
use answer_json::{Name, Refusal};
use exchange_core::Exchange;
use explainer::large_note;
use octet_core::Named;
use program_octets::{Answer, Status};
use std::alloc::{AllocError, Global};
use traces::{RecordFault, Trace, TraceFault, Unfit, line_of_item, read_trace, record_trace};

/// Returns the answer that refuses to record a line of a text, by this name.
fn refused_line(line: usize, name: &'static str) -> Answer
    ensures said { result.said ≡ refused_line line name.now }
    ensures status { result.status ≡ ended.Refused }
{
    let reason = Name::of(name);
    Answer::refusal(Refusal::AtLine { line, reason })
}

/// Returns the file of the exchange with the blocks of a text, or the text's fault, with a note if one is asked for.
pub(crate) fn recorded(
    alloc: Global,
    explains: bool,
    atr: &[u8],
    text: &[u8],
) -> Result<WithExplanation, AllocError>
    ensures { IfOk result (AreOf (Records atr.now text.now) (IsRecordNote atr.now text.now)) }
{
    match read_trace(alloc, text) {
        Ok(trace) => recorded_items(alloc, explains, atr, text, &trace),
        Err(TraceFault::Text(fault)) => {
            let answer = refused(fault)?;
            let explanation = trace_note(alloc, explains, text, fault);
            Ok(WithExplanation {
                answer,
                explanation,
            })
        }
        Err(TraceFault::Unfit { line, why }) => unfit_line(alloc, explains, text, line, why),
    }
}

/// Returns the answer that refuses to record a line of a text, with a note on it.
fn unfit_line(
    alloc: Global,
    explains: bool,
    text: &[u8],
    line: usize,
    why: Unfit,
) -> Result<WithExplanation, AllocError>
    ensures { IfOk result (AreOf (RefusesText (UnfitLine line why))
        (IsRefusedNote (UnfitLine line why) text.now)) }
{
    let answer = refused_line(line, why.name());
    let explanation = unfit_note(alloc, explains, text, line, why);
    Ok(WithExplanation {
        answer,
        explanation,
    })
}

/// Returns the file of the exchange with the blocks of a text, or why there is none, with a note.
fn recorded_items(
    alloc: Global,
    explains: bool,
    atr: &[u8],
    text: &[u8],
    trace: &Trace,
) -> Result<WithExplanation, AllocError>
    ensures { IfOk result (AreOf (RecordsItems atr.now text.now trace.now)
        (IsItemsNote atr.now text.now trace.now)) }
{
    match record_trace(alloc, atr, trace) {
        Ok(exchange) => {
            let answer = file(alloc, &exchange)?;
            let explanation = size_note(alloc, explains, &exchange, answer.status);
            Ok(WithExplanation {
                answer,
                explanation,
            })
        }
        Err(RecordFault::Refused(fault)) => {
            let answer = Answer::refused_as(fault.name());
            let explanation = session_note(alloc, explains, atr);
            Ok(WithExplanation {
                answer,
                explanation,
            })
        }
        Err(RecordFault::Unfit { place, why }) => {
            let line = line_of_item(text, place);
            let answer = refused_line(line, why.name());
            let explanation = unfit_note(alloc, explains, text, line, why);
            Ok(WithExplanation {
                answer,
                explanation,
            })
        }
        Err(RecordFault::Memory) => Err(AllocError),
    }
}

/// Returns the note on the text of an exchange, by the status.
fn size_note(
    alloc: Global,
    explains: bool,
    _exchange: &Exchange,
    status: Status,
) -> Result<String, AllocError>
    requires past { status ≡ ended.Fault → largest_file < length (exchange_text _exchange.now) }
    requires inside { (status ≡ ended.Fault → ⊥)
        → length (exchange_text _exchange.now) ≤ largest_file }
    ensures { IfOk result (λ note. IsSizeNote _exchange.now (string_bytes note)) }
{
    if !explains {
        return Err(AllocError);
    }
    match status {
        Status::Fault => large_note(alloc, LARGEST_FILE),
        Status::Accepted | Status::Refused => Ok(String::new(alloc)),
    }
}

/// Returns the note on a line that can't be recorded: its text, and why.
fn unfit_note(
    alloc: Global,
    explains: bool,
    text: &[u8],
    line: usize,
    why: Unfit,
) -> Result<String, AllocError>
    ensures { IfOk result (λ note. string_bytes note ≡ unfit_note text.now line why) }
{
    if !explains {
        return Err(AllocError);
    }
    shown_at(alloc, text, line, unfit_words(why))
}

/// Returns why a line can't be recorded.
fn unfit_words(why: Unfit) -> &'static str
    ensures { result.now ≡ texts.unfit_words why }
{
    match why {
        Unfit::Pps => "this is PPS, and a session begins after it: leave it out",
        Unfit::NodeAddress => {
            "both ends use a node address other than 00, which record doesn't follow: judge does"
        }
        Unfit::Silence => {
            "the terminal sends again after its own block: write quiet before this line where nothing came in between"
        }
        Unfit::Reset => "a reset begins another session: record each session by itself",
        Unfit::Midway => "a session is recorded from its first block on: judge takes such a trace",
        Unfit::Arrived => {
            "other octets arrived than were seen, or with an error of parity: judge takes such a line"
        }
    }
}
