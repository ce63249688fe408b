//! Values and refusals with notes on their lines.

ghost use Rattle.std.specs.Prelude.{◌≡◌, true, Err, List, ℕ, IfOk, string_bytes};
ghost use Rattle.program_octets.specs.Verdicts.{ShowsWhere};
ghost use Rattle.program_octets.specs.Texts.{refused_text};
ghost use Rattle.program_octets.specs.declared.status.Status.TheVariants as ended;
ghost use Rattle.program.specs.Answers.{ShowsNoted, ShowsNotedObject};
ghost use Rattle.program.specs.Judged.{refusal_notes, IsRefusalLine};
ghost use Rattle.program_words.specs.declared.request.Expected.{Expected as AnyExpected};
ghost use Rattle.layouts.specs.declared.layout.Layout.TheVariants as layout;
ghost use Rattle.octet_core.specs.declared.stop.Stop.{Stop as AnyStop};

use crate::json::with_notes;
use answer_json::push_note;
use explainer::least_wanting;
use layouts::Layout;
use notes::{kept, noted_line, wanting_note};
use octet_core::{Named, Octets, Stop};
use program_octets::{Answer, Said, Status, Verdict};
use program_words::Kind;
use std::alloc::{AllocError, Global};

/// Returns the lines that `show` prints about octets, with notes on them. The line of a refusal gets these words.
pub(crate) fn annotated(alloc: Global, shown: Answer, words: &str) -> Result<Answer, AllocError>
    ensures { (expected : AnyExpected) (octets : List ℕ)
        → ShowsWhere true layout.Lines expected.kind expected octets shown.said shown.status
        → IfOk result (λ answer.
        ShowsNoted expected.kind expected octets answer.said answer.status) }
{
    match shown.status {
        Status::Refused => {
            let line = shown.said.into_text(alloc)?;
            let text = noted_line(alloc, line.get(), words)?;
            Ok(Answer {
                said: Said::Text(text),
                status: Status::Refused,
            })
        }
        _ => Ok(shown),
    }
}

/// Returns the object that `show` prints about octets, with the notes on its lines. For a refusal these words are the
/// note on its line.
pub(crate) fn annotated_object(
    alloc: Global,
    object: Answer,
    line: &[u8],
    words: &str,
) -> Result<Answer, AllocError>
    ensures { (expected : AnyExpected) (octets : List ℕ)
        → ShowsWhere true layout.Json expected.kind expected octets object.said object.status
        → (object.status ≡ ended.Refused → IsRefusalLine expected.kind expected octets words.now line.now)
        → IfOk result (λ answer.
        ShowsNotedObject expected.kind expected octets answer.said answer.status) }
{
    match object.status {
        Status::Refused => {
            let items = note_items(alloc, line, words)?;
            let shown = object.said.into_text(alloc)?;
            let text = with_notes(alloc, shown, items.as_str())?;
            Ok(Answer {
                said: Said::Object(text),
                status: Status::Refused,
            })
        }
        _ => Ok(object),
    }
}

/// Returns a line without its end, and these words as its note, as the items of an array. There are none if the words
/// are no note.
fn note_items(alloc: Global, line: &[u8], words: &str) -> Result<String, AllocError>
    ensures { IfOk result (λ items.
        string_bytes items ≡ refusal_notes line.now words.now) }
{
    let end = line.len().saturating_sub(1);
    let mut items = String::new(alloc);
    push_note(alloc, &mut items, &line[..end], kept(words).as_bytes())?;
    Ok(items)
}

/// Returns the line of a refusal that is printed as an object, if it is `noted` and these words are a note on it.
pub(crate) fn refusal_line<R: Named + Copy>(
    alloc: Global,
    noted: bool,
    how: Layout,
    verdict: Verdict<R>,
    words: &str,
) -> Result<Octets, AllocError>
    ensures { IfOk result (λ line. noted ≡ true → how ≡ layout.Json → (stop : AnyStop R)
        → verdict ≡ Err stop → refusal_notes line words.now ≡ refusal_notes (refused_text R.text stop) words.now) }
{
    if !noted || kept(words).is_empty() {
        return Ok(Octets::of(Vec::new(alloc)));
    }
    match (how, verdict) {
        (Layout::Json, Err(stop)) => Answer::refused(stop).said.into_text(alloc),
        _ => Ok(Octets::of(Vec::new(alloc))),
    }
}

/// Returns the words of the note on the line of a refusal, if it is `noted`. For octets that are short and have no
/// other note, they say how many more octets are needed at least.
pub(crate) fn words_on<R: Copy>(
    alloc: Global,
    noted: bool,
    kind: Kind,
    octets: &[u8],
    verdict: Verdict<R>,
    words: String,
) -> Result<String, AllocError> {
    match verdict {
        Err(Stop::Short { .. }) if noted && words.is_empty() => {
            wanting_note(alloc, least_wanting(kind, octets))
        }
        _ => Ok(words),
    }
}
