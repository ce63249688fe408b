//! Answers about octets, each with a note from the same verdict.

ghost use Rattle.std.specs.Prelude.{◌≡◌, ◌++◌, [], IfOk, IsOkAnd, string_bytes};
ghost use Rattle.program_octets.specs.Codec.{IsVerdict};
ghost use Rattle.program_octets.specs.ListTexts.{list_codec};
ghost use Rattle.program_octets.specs.Verdicts.{Checks, ChecksBy, IsFilled, ShowsBy, ShowsWhere, Tidies};
ghost use Rattle.program.specs.Answers.{IsTold, ShowsNoted, ShowsNotedObject, Tells};
ghost use Rattle.program_words.specs.declared.request.Aim.TheVariants as aim;
ghost use Rattle.program.specs.Explained.{said_of, IsFillNote};
ghost use Rattle.command_line.specs.Form.{texts};
ghost use Rattle.explainer.specs.Notes.{least_of, verdict_text};
ghost use Rattle.program.specs.Judged.{AreShownWithNotes, AreOf, IsForestNote, IsKindNote, IsNoteBy, IsRefusalBy, IsRefusalLine, SaysIf};
ghost use Rattle.layouts.specs.declared.layout.Layout.TheVariants as layout;

use crate::annotated::{annotated, annotated_object, refusal_line, words_on};
use crate::line_task::LineTask;
use apdu_core::{Command, Response};
use atr_core::Atr;
use block_core::Block;
use chain_core::Receiver;
use explainer::{Explained, duplicate_note, known_note, least_wanting, verdict_note};
use layouts::Layout;
use octet_core::Octets;
use program_octets::{
    Answer, CheckedAnswer, Codec, Verdict, check_with_verdict, fill_with_verdict,
    show_with_verdict, tidy_with_verdict,
};
use program_words::{Aim, Fault, Kind, Knowns, Task};
use std::alloc::{AllocError, Global};
use tlv_core::{Dol, DolReason, Forest};

/// An answer and the explanation to print after it, if memory for that was available.
#[derive(Drop)]
pub(crate) struct WithExplanation {
    pub(crate) answer: Answer,
    pub(crate) explanation: Result<String, AllocError>,
}

/// An answer with its explanation. For a refusal also the words of a note on its line.
#[derive(Drop)]
struct ShownWithNotes {
    said: WithExplanation,
    /// The line of the refusal, if the answer is an object and notes are asked for.
    line: Octets,
    words: String,
}

impl WithExplanation {
    /// Returns an answer with an empty explanation.
    pub(crate) fn alone(alloc: Global, answer: Answer) -> Self
        ensures answer { result.answer ≡ answer }
        ensures explanation { IfOk result.explanation (λ note. string_bytes note ≡ []) }
        ensures said { said_of result.explanation ≡ [] }
    {
        let explanation = Ok(String::new(alloc));
        WithExplanation {
            answer,
            explanation,
        }
    }

    /// Appends another explanation to that of an answer.
    pub(crate) fn and(self, other: Result<String, AllocError>) -> Self
        ensures answer { result.answer ≡ self.answer }
        ensures explanation { IfOk result.explanation (λ note. IsOkAnd self.explanation
            (λ one. IsOkAnd other (λ more.
            string_bytes note ≡ string_bytes one ++ string_bytes more))) }
    {
        WithExplanation {
            answer: self.answer,
            explanation: joined(self.explanation, other),
        }
    }
}

/// Joins two explanations, if both could be made.
pub(crate) fn joined(
    first: Result<String, AllocError>,
    second: Result<String, AllocError>,
) -> Result<String, AllocError>
    ensures { IfOk result (λ note. IsOkAnd first (λ one. IsOkAnd second (λ other.
        string_bytes note ≡ string_bytes one ++ string_bytes other))) }
{
    let mut note = first?;
    let other = second?;
    note.push_str(other.as_str())?;
    Ok(note)
}

/// Returns the answer about octets, with a note if one is asked for.
pub(crate) fn answer_about(
    alloc: Global,
    line_task: LineTask,
    octets: &[u8],
) -> Result<WithExplanation, AllocError>
    ensures { IfOk result (AreOf (IsTold line_task.task octets.now)
        (SaysIf line_task.explains (IsKindNote line_task.task.expected.kind line_task.task.expected octets.now))) }
{
    match line_task.task.aim {
        Aim::Check => checked(alloc, line_task, octets),
        Aim::Show => Ok(shown(alloc, line_task, false, octets)?.said),
        Aim::Note => noted_in(alloc, line_task, octets),
    }
}

/// Returns the value itself, as lines with notes or as an object with notes, and a note about the octets.
fn noted_in(
    alloc: Global,
    line_task: LineTask,
    octets: &[u8],
) -> Result<WithExplanation, AllocError>
    ensures { IfOk result (AreOf (Tells aim.Note line_task.task.layout line_task.task.expected
        octets.now)
        (SaysIf line_task.explains (IsKindNote line_task.task.expected.kind line_task.task.expected octets.now))) }
{
    match line_task.task.layout {
        Layout::Lines => noted_value(alloc, line_task, octets),
        Layout::Json => noted_object(alloc, line_task, octets),
    }
}

/// Returns the value itself as lines with notes, and a note about the octets.
fn noted_value(
    alloc: Global,
    line_task: LineTask,
    octets: &[u8],
) -> Result<WithExplanation, AllocError>
    requires { line_task.task.layout ≡ layout.Lines }
    ensures { IfOk result (AreOf (ShowsNoted line_task.task.expected.kind line_task.task.expected
        octets.now)
        (SaysIf line_task.explains (IsKindNote line_task.task.expected.kind line_task.task.expected octets.now))) }
{
    let ShownWithNotes { said, words, .. } = shown(alloc, line_task, true, octets)?;
    let WithExplanation {
        answer,
        explanation,
    } = said;
    let answer = annotated(alloc, answer, words.as_str())?;
    Ok(WithExplanation {
        answer,
        explanation,
    })
}

/// Returns the value itself as an object with the notes on its lines, and a note about the octets.
fn noted_object(
    alloc: Global,
    line_task: LineTask,
    octets: &[u8],
) -> Result<WithExplanation, AllocError>
    requires { line_task.task.layout ≡ layout.Json }
    ensures { IfOk result (AreOf (ShowsNotedObject line_task.task.expected.kind
        line_task.task.expected
        octets.now)
        (SaysIf line_task.explains (IsKindNote line_task.task.expected.kind line_task.task.expected octets.now))) }
{
    let ShownWithNotes { said, line, words } = shown(alloc, line_task, true, octets)?;
    let WithExplanation {
        answer,
        explanation,
    } = said;
    let answer = annotated_object(alloc, answer, line.get(), words.as_str())?;
    Ok(WithExplanation {
        answer,
        explanation,
    })
}

/// Returns how many octets the value takes, with a note if one is asked for.
fn checked(alloc: Global, line_task: LineTask, octets: &[u8]) -> Result<WithExplanation, AllocError>
    ensures { IfOk result (AreOf
        (Checks line_task.task.layout line_task.task.expected.kind line_task.task.expected octets.now)
        (SaysIf line_task.explains (IsKindNote line_task.task.expected.kind line_task.task.expected octets.now))) }
{
    match line_task.task.expected.kind {
        Kind::Atr => checked_by::<Atr>(alloc, line_task, octets),
        Kind::Block => checked_by::<Block>(alloc, line_task, octets),
        Kind::Chain => checked_by::<Receiver>(alloc, line_task, octets),
        Kind::Command => checked_by::<Command>(alloc, line_task, octets),
        Kind::Response => checked_by::<Response>(alloc, line_task, octets),
        Kind::Tlv => checked_by::<Forest>(alloc, line_task, octets),
        Kind::Dol => checked_by::<Dol>(alloc, line_task, octets),
    }
}

/// Returns the value itself, with notes on its lines if it is `noted`, and a note if one is asked for.
fn shown(
    alloc: Global,
    line_task: LineTask,
    noted: bool,
    octets: &[u8],
) -> Result<ShownWithNotes, AllocError>
    ensures { IfOk result (AreShownWithNotes noted line_task.task.layout
        (ShowsWhere noted line_task.task.layout line_task.task.expected.kind line_task.task.expected
        octets.now)
        (SaysIf line_task.explains (IsKindNote line_task.task.expected.kind line_task.task.expected octets.now))
        (IsRefusalLine line_task.task.expected.kind line_task.task.expected octets.now)) }
{
    match line_task.task.expected.kind {
        Kind::Atr => shown_by::<Atr>(alloc, line_task, noted, octets),
        Kind::Block => shown_by::<Block>(alloc, line_task, noted, octets),
        Kind::Chain => shown_by::<Receiver>(alloc, line_task, noted, octets),
        Kind::Command => shown_by::<Command>(alloc, line_task, noted, octets),
        Kind::Response => shown_by::<Response>(alloc, line_task, noted, octets),
        Kind::Tlv => shown_by::<Forest>(alloc, line_task, noted, octets),
        Kind::Dol => shown_by::<Dol>(alloc, line_task, noted, octets),
    }
}

/// Returns how many octets the value of a codec takes, with a note if one is asked for.
fn checked_by<C: Codec>(
    alloc: Global,
    line_task: LineTask,
    octets: &[u8],
) -> Result<WithExplanation, AllocError>
where
    C::Reason: Explained,
    ensures { IfOk result (AreOf (ChecksBy line_task.task.layout line_task.task.expected.kind
        (C.codec line_task.task.expected) octets.now)
        (SaysIf line_task.explains (IsNoteBy (C.codec line_task.task.expected) C.Reason.says
        (least_of line_task.task.expected.kind octets.now) octets.now))) }
{
    let Task {
        layout,
        expected,
        ..
    } = line_task.task;
    let kind = expected.kind;
    let CheckedAnswer {
        answer,
        verdict,
        ..
    } = check_with_verdict::<C>(alloc, layout, octets, expected)?;
    let explanation = asked_note(alloc, line_task.explains, kind, octets, verdict);
    Ok(WithExplanation {
        answer,
        explanation,
    })
}

/// Returns the value of a codec, with notes on its lines if it is `noted`, and a note if one is asked for. The octets
/// are decoded once.
fn shown_by<C: Codec>(
    alloc: Global,
    line_task: LineTask,
    noted: bool,
    octets: &[u8],
) -> Result<ShownWithNotes, AllocError>
where
    C::Reason: Explained,
    ensures { IfOk result (AreShownWithNotes noted line_task.task.layout (ShowsBy noted
        line_task.task.layout line_task.task.expected.kind (C.codec line_task.task.expected) octets.now)
        (SaysIf line_task.explains (IsNoteBy (C.codec line_task.task.expected) C.Reason.says
        (least_of line_task.task.expected.kind octets.now) octets.now))
        (IsRefusalBy (C.codec line_task.task.expected) octets.now)) }
{
    let Task {
        layout,
        expected,
        ..
    } = line_task.task;
    let kind = expected.kind;
    let CheckedAnswer {
        answer,
        verdict,
        note: words,
    } = show_with_verdict::<C>(alloc, layout, noted, octets, expected)?;
    let explanation = asked_note(alloc, line_task.explains, kind, octets, verdict);
    let words = words_on(alloc, noted, kind, octets, verdict, words)?;
    let line = refusal_line(alloc, noted, layout, verdict, words.as_str())?;
    Ok(ShownWithNotes {
        said: WithExplanation {
            answer,
            explanation,
        },
        line,
        words,
    })
}

/// Returns the note on octets by their verdict, if one is asked for. With `kind` it can say how many more octets are
/// needed at least.
fn asked_note<R: Explained + Copy>(
    alloc: Global,
    explains: bool,
    kind: Kind,
    octets: &[u8],
    verdict: Verdict<R>,
) -> Result<String, AllocError>
    ensures { IfOk result (λ note. SaysIf explains (λ said. said
        ≡ verdict_text R.says octets.now (least_of kind octets.now) verdict) (string_bytes note)) }
{
    if !explains {
        return Ok(String::new(alloc));
    }
    verdict_note(alloc, octets, verdict, least_wanting(kind, octets))
}

/// Returns the shortest encoding of a forest's objects, with a note if one is asked for.
pub(crate) fn tidied(
    alloc: Global,
    explains: bool,
    octets: &[u8],
) -> Result<WithExplanation, AllocError>
    ensures { IfOk result (AreOf (Tidies octets.now)
        (SaysIf explains (IsForestNote octets.now))) }
{
    let CheckedAnswer {
        answer,
        verdict,
        ..
    } = tidy_with_verdict(alloc, octets)?;
    let explanation = asked_note(alloc, explains, Kind::Tlv, octets, verdict);
    Ok(WithExplanation {
        answer,
        explanation,
    })
}

/// Returns the octets that a list requests from known values, with a note if one is asked for.
pub(crate) fn filled(
    alloc: Global,
    explains: bool,
    words: &[String],
    list: &[u8],
    known: &Result<Knowns, Fault>,
) -> Result<WithExplanation, AllocError>
    ensures { IfOk result (AreOf (IsFilled list.now known.now)
        (IsFillNote (texts words.now) list.now known.now)) }
{
    let CheckedAnswer {
        answer,
        verdict,
        ..
    } = fill_with_verdict(alloc, list, known)?;
    let explanation = fill_note(alloc, explains, words, list, known, verdict);
    Ok(WithExplanation {
        answer,
        explanation,
    })
}

/// Returns the note on a list to fill. It is about the list's octets; or, if they are a list, about a word that isn't a
/// known value, or about two words with values of one tag.
fn fill_note(
    alloc: Global,
    explains: bool,
    words: &[String],
    list: &[u8],
    known: &Result<Knowns, Fault>,
    verdict: Verdict<DolReason>,
) -> Result<String, AllocError>
    requires { IsVerdict list_codec list.now verdict }
    ensures { IfOk result (λ note.
        IsFillNote (texts words.now) list.now known.now (string_bytes note)) }
{
    if !explains {
        return Err(AllocError);
    }
    let note = verdict_note(alloc, list, verdict, None)?;
    if !note.is_empty() {
        return Ok(note);
    }
    match known {
        Ok(known) => duplicate_note(alloc, words, known.get()),
        Err(_) => known_note(alloc, words),
    }
}
