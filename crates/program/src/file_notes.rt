//! Notes on the file of a recorded exchange: the line that is wrong, its text, and what is expected there.

ghost use Rattle.std.specs.Prelude.{◌≡◌, ◌≢◌, ℕ, List, IfOk, string_bytes, take};
ghost use Rattle.std.specs.Str.{trim_end};
ghost use Rattle.program.specs.ExchangeTexts.{IsOutcome};
ghost use Rattle.program.specs.Explained.{IsDifferenceNote};
ghost use Rattle.program.specs.FileNotes.{fault_note, kept_note, line_from, line_shown, line_text, lines_left, reason, trace_note, IsWhy};
ghost use Rattle.exchange_text.specs.declared.fault.ExchangeFault.TheVariants.{Memory};
ghost use Rattle.explainer.specs.Notes.{line_note, IsSessionNote};

use crate::expected::{form_at, header_at, octets_at};
use crate::trace_place::push_place;
use crate::waits::push_waiting;
use exchange_core::{Exchange, ExchangeFault, ReplayFault, Side, waiting_at};
use explainer::{character, session_note};
use std::alloc::{AllocError, Global};

/// The most characters of a line that are shown.
const SHOWN: usize = 80;

/// The number of the line with the answer to reset.
pub(crate) const ATR_LINE: usize = 2;

/// What is expected in a line of a trace whose words are wrong.
const WORDS_SEEN: &str =
    "expected: t HEX or c HEX, with lost, parity or as HEX or not, quiet, reset, begins unknown, at N or until N";

/// What is expected for the octets of a line of a trace.
const HEX_SEEN: &str = "expected: none, or an even number of hexadecimal digits";

/// What is expected for a moment.
const FALLS: &str = "expected: a number that isn't below that of an earlier line at N";

/// Returns a note: a line of a file with its number and its text, and what there is to say about it.
fn line_said(alloc: Global, number: usize, line: &str, what: &str) -> Result<String, AllocError>
    ensures { IfOk result (λ text. string_bytes text ≡ line_note number line.now what.now) }
{
    format!(in alloc; "line {number} of the file: {line}\n{what}\n")
}

/// Returns the note on the first fault of a file: its line, and what is expected there.
pub(crate) fn fault_note(
    alloc: Global,
    explains: bool,
    text: &[u8],
    fault: ExchangeFault,
) -> Result<String, AllocError>
    ensures line { IfOk result (λ note. string_bytes note ≡ fault_note text.now fault) }
    ensures other { IfOk result (λ _. fault ≢ Memory) }
{
    if !explains {
        return Err(AllocError);
    }
    match fault {
        ExchangeFault::Header => shown_at(alloc, text, 1, header_at(text)),
        ExchangeFault::End { line } => {
            let what = "expected: a line feed at its end, and a line atr OCTETS after the header";
            shown_at(alloc, text, line, what)
        }
        ExchangeFault::Word { line } => shown_at(alloc, text, line, form_at(text, line)),
        ExchangeFault::Hex { line } => shown_at(alloc, text, line, octets_at(text, line)),
        ExchangeFault::Falls { line } => shown_at(alloc, text, line, FALLS),
        ExchangeFault::Memory => Err(AllocError),
    }
}

/// Returns the note on the first fault of a trace: its line, and what is expected there.
pub(crate) fn trace_note(
    alloc: Global,
    explains: bool,
    text: &[u8],
    fault: ExchangeFault,
) -> Result<String, AllocError>
    ensures line { IfOk result (λ note. string_bytes note ≡ trace_note text.now fault) }
    ensures other { IfOk result (λ _. fault ≢ Memory) }
{
    if !explains {
        return Err(AllocError);
    }
    match fault {
        ExchangeFault::Word { line } => shown_at(alloc, text, line, WORDS_SEEN),
        ExchangeFault::Hex { line } => shown_at(alloc, text, line, HEX_SEEN),
        other => fault_note(alloc, explains, text, other),
    }
}

/// Returns the note on the first faulty line of a trace, without the text before and after it. A line of a trace has no
/// other fault than these three.
pub(crate) fn kept_note(
    alloc: Global,
    explains: bool,
    line: &[u8],
    fault: ExchangeFault,
) -> Result<String, AllocError>
    ensures { IfOk result (λ note. string_bytes note ≡ kept_note line.now fault) }
{
    if !explains {
        return Err(AllocError);
    }
    match fault {
        ExchangeFault::Word { line: number } => kept_line(alloc, line, number, WORDS_SEEN),
        ExchangeFault::Hex { line: number } => kept_line(alloc, line, number, HEX_SEEN),
        ExchangeFault::Falls { line: number } => kept_line(alloc, line, number, FALLS),
        ExchangeFault::Header | ExchangeFault::End { .. } | ExchangeFault::Memory => {
            Err(AllocError)
        }
    }
}

/// Returns the note on the outcome of a replay: the first line where the end differs, and why. It is empty if the end
/// agrees with all lines. For a file that was recorded from a trace, it also says where in the trace the line is.
pub(crate) fn difference_note(
    alloc: Global,
    explains: bool,
    text: &[u8],
    exchange: &Exchange,
    side: Side,
    outcome: &Result<(), ReplayFault>,
) -> Result<String, AllocError>
    requires { IsOutcome exchange.now side outcome.now }
    ensures { IfOk result (λ note.
        IsDifferenceNote text.now exchange.now side (string_bytes note)) }
{
    if !explains {
        return Err(AllocError);
    }
    match outcome {
        Ok(()) => Ok(String::new(alloc)),
        Err(ReplayFault::Differs { line, gives }) => {
            let mut what = why(alloc, exchange, side, *line, gives.get())?;
            push_place(alloc, &mut what, exchange.lines().get(), *line)?;
            shown_at(alloc, text, *line, what.as_str())
        }
        Err(ReplayFault::Memory) => Err(AllocError),
    }
}

/// Returns why an end differs from a line, by what the end gives there, and what the end waits for.
fn why(
    alloc: Global,
    exchange: &Exchange,
    side: Side,
    line: usize,
    gives: &str,
) -> Result<String, AllocError>
    ensures { IfOk result (λ what. IsWhy exchange.now side line gives.now (string_bytes what)) }
{
    if line == ATR_LINE {
        return atr_why(alloc, exchange);
    }
    let lines = exchange.lines().get().len() + ATR_LINE;
    let mut what = String::from_str(alloc, reason(gives, line > lines))?;
    push_waiting(&mut what, gives, waiting_at(alloc, exchange, side, line)?)?;
    Ok(what)
}

/// Returns why no session can begin from an answer to reset.
fn atr_why(alloc: Global, exchange: &Exchange) -> Result<String, AllocError>
    ensures { IfOk result (λ what. (note : List ℕ) × IsSessionNote exchange.now.atr note
        × (string_bytes what ≡ trim_end note)) }
{
    let note = session_note(alloc, exchange.atr())?;
    String::from_str(alloc, note.as_str().trim_end())
}

/// Returns why an end differs from a line after the answer to reset, by what the end gives there.
fn reason(gives: &str, is_past: bool) -> &'static str
    ensures { result.now ≡ reason gives.now is_past }
{
    if gives.starts_with("refused ") {
        "the end refuses this call in the state that it is in"
    } else if gives == "nothing" {
        "this line has a turn of the end, which has none to give here"
    } else if is_past {
        "the file ends here, and no line has the last turn of the end"
    } else {
        "the end's turn has to be met by a line before anything else happens to it, and this is another line"
    }
}

/// Returns a note: a line of a text, cut to the length that is shown, and what there is to say about it.
pub(crate) fn shown_at(
    alloc: Global,
    text: &[u8],
    number: usize,
    what: &str,
) -> Result<String, AllocError>
    ensures { IfOk result (λ note. string_bytes note ≡ line_text text.now number what.now) }
{
    kept_line(alloc, line_from(text, number), number, what)
}

/// Returns the same note, by the text from the line with this number on.
fn kept_line(alloc: Global, rest: &[u8], number: usize, what: &str) -> Result<String, AllocError>
    ensures { IfOk result (λ note.
        string_bytes note ≡ line_note number (line_shown (take 80 rest.now)) what.now) }
{
    let line = shown(alloc, front(rest))?;
    line_said(alloc, number, line.as_str(), what)
}

/// Returns the first 80 octets of a line, or all if there are fewer.
fn front(text: &[u8]) -> &[u8]
    ensures { result.now ≡ take 80 text.now }
{
    if SHOWN < text.len() {
        &text[..SHOWN]
    } else {
        text
    }
}

/// Returns a text from the line with this number on, counted from 1. Empty if there is no such line.
pub(crate) fn line_from(text: &[u8], number: usize) -> &[u8]
    ensures { result.now ≡ line_from number text.now }
{
    let mut left = number;
    let mut rest = text;
    while let [octet, more @ ..] = rest {
        if left <= 1 {
            return rest;
        }
        left = lines_left(left, *octet);
        rest = more;
    }
    rest
}

/// Returns how many lines are left after an octet, which may end a line.
fn lines_left(left: usize, octet: u8) -> usize
    ensures { result ≡ lines_left left octet }
{
    if octet == b'\n' {
        left.saturating_sub(1)
    } else {
        left
    }
}

/// Returns the line at the front of a text, with a question mark for each octet that isn't a printable character.
fn shown(alloc: Global, text: &[u8]) -> Result<String, AllocError>
    ensures { IfOk result (λ line. string_bytes line ≡ line_shown text.now) }
{
    let mut line = String::new(alloc);
    for octet in text {
        if *octet == b'\n' {
            return Ok(line);
        }
        line.push(character(*octet))?;
    }
    Ok(line)
}
