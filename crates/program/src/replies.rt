//! Answers to requests: a text, a status, and an explanation of them.
//!
//! The text and the status don't depend on whether an explanation is asked for. The crate explainer makes it. If memory
//! for it isn't available, it is left out.

ghost use Rattle.std.specs.Prelude.{◌≡◌, ◌≢◌, ℕ, List, Ok, true, false, IfOk, string_bytes};
ghost use Rattle.program.specs.Calls.{calls_of};
ghost use Rattle.program.specs.Answers.{AskToJudge, IsJudge, IsReadFrom};
ghost use Rattle.program.specs.Explained.{octets_of, text_note, IsFaultAnswer, IsFaulted, IsTakenWith, Replies, RepliesTo, SaysOf};
ghost use Rattle.program.specs.Files.{largest_file, IsBegun};
ghost use Rattle.explainer.specs.Notes.{large_note};
ghost use Rattle.explainer.specs.Words.{IsWordsNote};
ghost use Rattle.program_words.specs.declared.given.OctetSource.{OctetSource as AnySource};
ghost use Rattle.program_words.specs.declared.request.Asked.TheVariants.{Once};
ghost use Rattle.program_words.specs.Given.{octets_in, IsFromReader};
ghost use Rattle.program_words.specs.Value.{UnlessMemory};
ghost use Rattle.program_words.specs.Words.{AskForFile, IsRead, NeedsFile};
ghost use Rattle.program_words.specs.declared.request.Request.{Request as AnyRequest};
ghost use Rattle.command_line.specs.Form.{texts};

use crate::file::{LARGEST_FILE, read_whole};
use crate::judged::{WithExplanation, answer_about, filled, joined, tidied};
use crate::line_task::LineTask;
use crate::{exchange, judging, recording, simulation};
use command_line::asks_to_explain;
use explainer::{large_note, offsets_note, text_note, words_note};
use layouts::PROGRAM;
use octet_core::{Octets, Source};
use program_octets::{Answer, blocks};
use program_words::{Fault, Form, OctetSource, Request};
use std::alloc::{AllocError, Global};

/// Returns the answer to what the words were read as, with an explanation if they ask for one.
pub(crate) fn reply<R: Source>(
    alloc: Global,
    words: &[String],
    read: Result<Request, Fault>,
    reader: &mut R,
) -> Result<WithExplanation, Fault>
    requires { IsReadFrom (texts words.now) read }
    ensures answer { Replies (texts words.now)
        (calls_of R.remaining R.failures reader.old reader.new)
        result }
    ensures unfailed { IfOk result (λ _. R.failures reader.new ≡ R.failures reader.old) }
    ensures unread { (AskForFile (texts words.now) → ⊥) → reader.new ≡ reader.old }
    ensures few { (AskToJudge (texts words.now) → ⊥)
        → IsBegun (calls_of R.remaining R.failures reader.old reader.new) 4194305 }
{
    match read {
        Ok(request) => request_reply(alloc, words, request, reader),
        Err(fault) if asks_to_explain(words) => words_faulted(alloc, words, fault),
        Err(fault) => Err(fault),
    }
}

/// Returns the answer to a request, with an explanation if the words ask for one.
fn request_reply<R: Source>(
    alloc: Global,
    words: &[String],
    request: Request,
    reader: &mut R,
) -> Result<WithExplanation, Fault>
    requires { IsRead (texts words.now) (Ok (Once request)) }
    ensures answer { Replies (texts words.now)
        (calls_of R.remaining R.failures reader.old reader.new)
        result }
    ensures unfailed { IfOk result (λ _. R.failures reader.new ≡ R.failures reader.old) }
    ensures unread { (AskForFile (texts words.now) → ⊥) → reader.new ≡ reader.old }
    ensures few { (AskToJudge (texts words.now) → ⊥)
        → IsBegun (calls_of R.remaining R.failures reader.old reader.new) 4194305 }
{
    let explains = asks_to_explain(words);
    match replied_to(alloc, words, request, explains, reader) {
        Ok(made) if explains => Ok(made),
        Ok(made) => Ok(WithExplanation::alone(alloc, made.answer)),
        Err(fault) if explains => read_faulted(alloc, fault),
        Err(fault) => Err(fault),
    }
}

/// Returns the answer to a request, with a note on its input if it `explains`.
fn replied_to<R: Source>(
    alloc: Global,
    words: &[String],
    request: Request,
    explains: bool,
    reader: &mut R,
) -> Result<WithExplanation, Fault>
    ensures answer { RepliesTo (texts words.now) request
        (calls_of R.remaining R.failures reader.old reader.new) result }
    ensures unfailed { IfOk result (λ _. R.failures reader.new ≡ R.failures reader.old) }
    ensures unread { (NeedsFile request → ⊥) → reader.new ≡ reader.old }
    ensures few { (IsJudge request → ⊥)
        → IsBegun (calls_of R.remaining R.failures reader.old reader.new) 4194305 }
{
    match request {
        Request::Tell(task, given) => {
            octets_told(alloc, LineTask { task, explains }, given, reader)
        }
        Request::BuildChain {
            ifs,
            number,
            message,
        } => {
            let text = blocks(alloc, message.get(), ifs, number)?;
            Ok(WithExplanation::alone(alloc, Answer::ok(text)))
        }
        Request::BuildTidy(given) => octets_tidied(alloc, explains, given, reader),
        Request::BuildFill { list, known } => Ok(filled(
            alloc,
            explains,
            words,
            list.get(),
            &known,
        )?),
        Request::File(task) => {
            let file = read_whole(alloc, reader)?;
            Ok(exchange::file_answer(alloc, explains, file.get(), task)?)
        }
        Request::Record(atr) => {
            let text = read_whole(alloc, reader)?;
            Ok(recording::recorded(alloc, explains, atr.get(), text.get())?)
        }
        Request::Judge { atr, judging } => {
            judging::judged(alloc, explains, atr.get(), judging, reader)
        }
        Request::Simulate(session) => Ok(simulation::simulated(alloc, explains, &session)?),
        Request::SimulateLines(session) => {
            let text = read_whole(alloc, reader)?;
            Ok(simulation::lines_simulated(alloc, explains, session, text.get())?)
        }
        Request::Help(text) => Ok(WithExplanation::alone(alloc, Answer::ok(text.into_inner()))),
        Request::Version => {
            let line = format!(in alloc; "{PROGRAM}\n")?;
            Ok(WithExplanation::alone(alloc, Answer::ok(line)))
        }
    }
}

/// Returns the answer about the given octets.
fn octets_told<R: Source>(
    alloc: Global,
    line_task: LineTask,
    given: OctetSource,
    reader: &mut R,
) -> Result<WithExplanation, Fault>
    ensures answer { (words : List (List ℕ))
        → RepliesTo words (AnyRequest.Tell line_task.task given) (calls_of R.remaining R.failures reader.old reader.new) result }
    ensures unfailed { IfOk result (λ _. R.failures reader.new ≡ R.failures reader.old) }
    ensures unread { (IsFromReader given → ⊥) → reader.new ≡ reader.old }
    ensures few { IsBegun (calls_of R.remaining R.failures reader.old reader.new) 4194305 }
{
    match octets_taken(alloc, given, line_task.explains, reader)? {
        Taken::Given(octets, note) => {
            let made = answer_about(alloc, line_task, octets.get())?;
            Ok(made.and(note))
        }
        Taken::Refused(made) => Ok(made),
    }
}

/// Returns the shortest encoding of the given forest's objects.
fn octets_tidied<R: Source>(
    alloc: Global,
    explains: bool,
    given: OctetSource,
    reader: &mut R,
) -> Result<WithExplanation, Fault>
    ensures answer { (words : List (List ℕ))
        → RepliesTo words (AnyRequest.BuildTidy given) (calls_of R.remaining R.failures reader.old reader.new) result }
    ensures unfailed { IfOk result (λ _. R.failures reader.new ≡ R.failures reader.old) }
    ensures unread { (IsFromReader given → ⊥) → reader.new ≡ reader.old }
    ensures few { IsBegun (calls_of R.remaining R.failures reader.old reader.new) 4194305 }
{
    match octets_taken(alloc, given, explains, reader)? {
        Taken::Given(octets, note) => {
            let made = tidied(alloc, explains, octets.get())?;
            Ok(made.and(note))
        }
        Taken::Refused(made) => Ok(made),
    }
}

/// The result of taking octets from their source.
#[derive(Drop)]
enum Taken {
    /// Octets, and the note on the text that they were taken from, if memory for it was available.
    Given(Octets, Result<String, AllocError>),
    /// A text that isn't in its form: the answer for that fault, and the note on the text.
    Refused(WithExplanation),
}

/// Takes the given octets, with a note on their text if it `explains`. Calls the reader only if the octets come from
/// it.
fn octets_taken<R: Source>(
    alloc: Global,
    given: OctetSource,
    explains: bool,
    reader: &mut R,
) -> Result<Taken, Fault>
    ensures taken { IsTakenWith explains given
        (calls_of R.remaining R.failures reader.old reader.new) result }
    ensures unread { (IsFromReader given → ⊥) → reader.new ≡ reader.old }
    ensures few { IsBegun (calls_of R.remaining R.failures reader.old reader.new) 4194305 }
{
    match given {
        OctetSource::Word(octets) => Ok(Taken::Given(octets, Ok(String::new(alloc)))),
        OctetSource::Read(form) => {
            let text = read_whole(alloc, reader)?;
            if explains {
                read_explained(alloc, form, text)
            } else {
                read_as(alloc, form, text)
            }
        }
    }
}

/// Returns the octets of a text in a form.
fn read_as(alloc: Global, form: Form, text: Octets) -> Result<Taken, Fault>
    ensures octets { UnlessMemory (octets_of result) (octets_in form text) }
    ensures note { IfOk result (SaysOf false (AnySource.Read form) (Ok text)) }
{
    let octets = form.octets(alloc, text)?;
    Ok(Taken::Given(octets, Ok(String::new(alloc))))
}

/// Returns the octets of a text in a form, with a note on the text.
fn read_explained(alloc: Global, form: Form, text: Octets) -> Result<Taken, Fault>
    ensures octets { UnlessMemory (octets_of result) (octets_in form text) }
    ensures note { IfOk result (SaysOf true (AnySource.Read form) (Ok text)) }
{
    let kept = text.get().to_vec(alloc)?;
    match form.octets(alloc, text) {
        Ok(octets) => Ok(Taken::Given(octets, on_form(alloc, form, Octets::of(kept)))),
        Err(Fault::Hex) => {
            let note = text_note(alloc, form, kept.as_slice());
            Ok(Taken::Refused(fault_noted(Fault::Hex, note)))
        }
        Err(fault) => Err(fault),
    }
}

/// Returns the note on a text that is in its form.
fn on_form(alloc: Global, form: Form, text: Octets) -> Result<String, AllocError>
    ensures { IfOk result (λ note. string_bytes note ≡ text_note form text) }
{
    match form {
        Form::Hex => offsets_note(alloc, text),
        Form::Octets | Form::Dump | Form::Source => Ok(String::new(alloc)),
    }
}

/// Returns the answer for a fault of words, with what is wrong with them.
fn words_faulted(alloc: Global, words: &[String], fault: Fault) -> Result<WithExplanation, Fault>
    ensures answer { IsFaulted fault (IsWordsNote (texts words.now)) result }
    ensures other { IfOk result (λ _. fault ≢ Fault.Memory) }
{
    match fault {
        Fault::Words => Ok(fault_noted(Fault::Words, words_note(alloc, words))),
        Fault::Hex => Ok(fault_noted(Fault::Hex, words_note(alloc, words))),
        Fault::Memory | Fault::Read | Fault::TooLarge => Err(fault),
    }
}

/// Returns the answer for a fault of reading. If there are too many octets, the note says how many there may be.
fn read_faulted(alloc: Global, fault: Fault) -> Result<WithExplanation, Fault>
    ensures answer { IsFaulted fault (λ note. note ≡ large_note largest_file) result }
    ensures large { IfOk result (λ _. fault ≡ Fault.TooLarge) }
{
    match fault {
        Fault::TooLarge => Ok(fault_noted(Fault::TooLarge, large_note(alloc, LARGEST_FILE))),
        Fault::Words | Fault::Hex | Fault::Memory | Fault::Read => Err(fault),
    }
}

/// Returns the answer for a fault, with an explanation.
fn fault_noted(fault: Fault, explanation: Result<String, AllocError>) -> WithExplanation
    ensures answer { IsFaultAnswer fault result.answer }
    ensures explanation { result.explanation ≡ explanation }
{
    let answer = Answer::faulted(fault);
    WithExplanation {
        answer,
        explanation,
    }
}
