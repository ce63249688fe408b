//! The program: from its words to the text that it writes.

ghost use Rattle.std.specs.Prelude.{◌≡◌, ◌++◌, IfOk};
ghost use Rattle.program.specs.Calls.{calls_of};
ghost use Rattle.program.specs.Answers.{AskToJudge, IsReadFrom, IsWritten, Writes};
ghost use Rattle.program.specs.Explained.{said_of, Gives, IsRightWith, IsSaid};
ghost use Rattle.program.specs.InJson.{IsRightAsked, IsRightJson};
ghost use Rattle.program.specs.Files.{IsBegun};
ghost use Rattle.program.specs.LineAnswers.{AskForNoLines, WritesLines};
ghost use Rattle.program.specs.LineNotes.{line_task_of};
ghost use Rattle.program_octets.specs.Sayings.{text_of};
ghost use Rattle.program_words.specs.Texts.{fault_text};
ghost use Rattle.program_words.specs.Words.{AskForFile, AskForLines};
ghost use Rattle.command_line.specs.Form.{texts};
ghost use Rattle.program_words.specs.declared.request.Task.{Task as AnyTask};
ghost use Rattle.program_octets.specs.declared.status.Status.TheVariants as ended;

use crate::json::{Topic, in_json};
use crate::judged::WithExplanation;
use crate::line_task::LineTask;
use crate::lines::tell_lines;
use crate::replies::reply;
use command_line::asks_to_explain;
use layouts::Layout;
use octet_core::{Octets, Sink, Source, write_octets};
use program_octets::{Answer, Status};
use program_words::{Asked, Fault, Request, layout_of};
use std::alloc::{AllocError, Global};

/// The text that answers the words, an explanation to print after it if memory for that was available, and the status.
#[derive(Drop)]
struct AnswerText {
    text: Octets,
    explanation: Result<String, AllocError>,
    status: Status,
}

/// Runs the program, and writes one text. The first of the words is the program's name. The text is lines, or a JSON
/// object if the words have `--json`. With `--explain` an explanation comes after the lines, or as a member of the
/// object. It is left out if memory for it isn't available.
///
/// If memory can't grow, the text is `fault: memory`. If the writer fails, a part of the text is written. In both cases
/// the status is `Fault`. The reader is called only if the words ask for octets, pairs or blocks of standard input, or
/// for a file of recorded exchanges. It is read to its end, but at most one octet past the largest file, except for a
/// trace that is judged: that has no limit, and only one of its lines is kept at a time.
///
/// If the words ask for the lines of standard input, each line is answered before the reader is called again, however
/// many come. With `--explain` an explanation comes after each. After a fault of memory or of the reader no more lines
/// are answered.
pub fn run<R: Source, W: Sink>(
    alloc: Global,
    words: Vec<String>,
    reader: &mut R,
    writer: &mut W,
) -> Status
    ensures written { AskForNoLines (texts words.items)
        → Writes (IsRightAsked (texts words.items) (calls_of R.remaining R.failures reader.old reader.new)) (calls_of W.contents W.failures writer.old writer.new) result }
    ensures lines { (task : AnyTask) → AskForLines task (texts words.items)
        → WritesLines (line_task_of (texts words.items) task) (calls_of R.remaining R.failures reader.old reader.new) (calls_of W.contents W.failures writer.old writer.new) result }
    ensures unread { AskForNoLines (texts words.items) → (AskForFile (texts words.items) → ⊥)
        → reader.new ≡ reader.old }
    ensures few { AskForNoLines (texts words.items) → (AskToJudge (texts words.items) → ⊥)
        → IsBegun (calls_of R.remaining R.failures reader.old reader.new) 4194305 }
{
    let words = words.as_slice();
    match program_words::read(alloc, words) {
        Ok(Asked::Lines(task)) => {
            let explains = asks_to_explain(words);
            tell_lines(alloc, LineTask { task, explains }, reader, writer)
        }
        Ok(Asked::Once(request)) => one_text(alloc, words, Ok(request), reader, writer),
        Err(Fault::Memory) => report(Fault::Memory, writer),
        Err(fault) => one_text(alloc, words, Err(fault), reader, writer),
    }
}

/// Writes the one text for the words, by what they were read as.
fn one_text<R: Source, W: Sink>(
    alloc: Global,
    words: &[String],
    read: Result<Request, Fault>,
    reader: &mut R,
    writer: &mut W,
) -> Status
    requires { IsReadFrom (texts words.now) read }
    ensures written { Writes (IsRightAsked (texts words.now)
        (calls_of R.remaining R.failures reader.old reader.new))
        (calls_of W.contents W.failures writer.old writer.new) result }
    ensures unread { (AskForFile (texts words.now) → ⊥) → reader.new ≡ reader.old }
    ensures few { (AskToJudge (texts words.now) → ⊥)
        → IsBegun (calls_of R.remaining R.failures reader.old reader.new) 4194305 }
{
    match answer_as_asked(alloc, words, read, reader) {
        Ok(made) => write_made(&made, writer),
        Err(fault) => report(fault, writer),
    }
}

/// Writes the line of a fault.
pub fn report<W: Sink>(fault: Fault, writer: &mut W) -> Status
    ensures { IsWritten (fault_text fault) ended.Fault
        (calls_of W.contents W.failures writer.old writer.new) result }
{
    write(fault.text().as_bytes(), Status::Fault, writer)
}

/// Writes a text. Returns the status, or that of a fault if the writer fails.
fn write<W: Sink>(text: &[u8], status: Status, writer: &mut W) -> Status
    ensures { IsWritten text.now status (calls_of W.contents W.failures writer.old writer.new)
        result }
{
    match write_octets(writer, text) {
        Ok(()) => status,
        Err(_) => Status::Fault,
    }
}

/// Returns the explanation of an answer, empty if memory for it wasn't available.
fn said(made: &AnswerText) -> &[u8]
    ensures { result.now ≡ said_of made.now.explanation }
{
    match &made.explanation {
        Ok(explanation) => explanation.as_bytes(),
        Err(_) => &[],
    }
}

/// Writes an answer and its explanation. Returns the answer's status, or that of a fault if the writer fails.
fn write_made<W: Sink>(made: &AnswerText, writer: &mut W) -> Status
    ensures { IsWritten (made.now.text ++ said_of made.now.explanation) made.now.status
        (calls_of W.contents W.failures writer.old writer.new) result }
{
    match write_octets(writer, made.text.get()) {
        Ok(()) => write(said(made), made.status, writer),
        Err(_fault) => Status::Fault,
    }
}

/// Returns the answer to the words as a JSON object, or as lines, with an explanation if they ask for one.
fn answer_as_asked<R: Source>(
    alloc: Global,
    words: &[String],
    read: Result<Request, Fault>,
    reader: &mut R,
) -> Result<AnswerText, Fault>
    requires { IsReadFrom (texts words.now) read }
    ensures answer { Gives (IsRightAsked (texts words.now)
        (calls_of R.remaining R.failures reader.old reader.new)) result }
    ensures unread { (AskForFile (texts words.now) → ⊥) → reader.new ≡ reader.old }
    ensures few { (AskToJudge (texts words.now) → ⊥)
        → IsBegun (calls_of R.remaining R.failures reader.old reader.new) 4194305 }
{
    match layout_of(words) {
        Layout::Json => answer_in_json(alloc, words, read, reader),
        Layout::Lines => answer_in_lines(alloc, words, read, reader),
    }
}

/// Returns the answer to the words as lines, with an explanation if they ask for one.
fn answer_in_lines<R: Source>(
    alloc: Global,
    words: &[String],
    read: Result<Request, Fault>,
    reader: &mut R,
) -> Result<AnswerText, Fault>
    requires { IsReadFrom (texts words.now) read }
    ensures answer { Gives (IsRightWith (texts words.now)
        (calls_of R.remaining R.failures reader.old reader.new)) result }
    ensures unread { (AskForFile (texts words.now) → ⊥) → reader.new ≡ reader.old }
    ensures few { (AskToJudge (texts words.now) → ⊥)
        → IsBegun (calls_of R.remaining R.failures reader.old reader.new) 4194305 }
{
    match reply(alloc, words, read, reader) {
        Ok(made) => Ok(in_lines(alloc, made)?),
        Err(fault) => Err(fault),
    }
}

/// Returns an answer as lines, with its explanation.
fn in_lines(alloc: Global, made: WithExplanation) -> Result<AnswerText, AllocError>
    ensures text { IfOk result (λ given. given.text ≡ text_of made.answer.said) }
    ensures explanation { IfOk result (λ given. given.explanation ≡ made.explanation) }
    ensures status { IfOk result (λ given. given.status ≡ made.answer.status) }
{
    let WithExplanation {
        answer,
        explanation,
    } = made;
    Ok(AnswerText {
        text: answer.said.into_text(alloc)?,
        explanation,
        status: answer.status,
    })
}

/// Returns the answer to the words as a JSON object, with the explanation as a member.
fn answer_in_json<R: Source>(
    alloc: Global,
    words: &[String],
    read: Result<Request, Fault>,
    reader: &mut R,
) -> Result<AnswerText, Fault>
    requires { IsReadFrom (texts words.now) read }
    ensures answer { Gives (IsRightJson (texts words.now)
        (calls_of R.remaining R.failures reader.old reader.new)) result }
    ensures unread { (AskForFile (texts words.now) → ⊥) → reader.new ≡ reader.old }
    ensures few { (AskToJudge (texts words.now) → ⊥)
        → IsBegun (calls_of R.remaining R.failures reader.old reader.new) 4194305 }
{
    let about = Topic::of(&read);
    let made = whole_reply(alloc, words, read, reader);
    let status = made.answer.status;
    Ok(AnswerText {
        text: in_json(alloc, &about, made)?,
        explanation: Ok(String::new(alloc)),
        status,
    })
}

/// Returns the answer to the words, or that for a fault.
fn whole_reply<R: Source>(
    alloc: Global,
    words: &[String],
    read: Result<Request, Fault>,
    reader: &mut R,
) -> WithExplanation
    requires { IsReadFrom (texts words.now) read }
    ensures answer { IsSaid (texts words.now)
        (calls_of R.remaining R.failures reader.old reader.new)
        result.answer.said
        (said_of result.explanation) result.answer.status }
    ensures unread { (AskForFile (texts words.now) → ⊥) → reader.new ≡ reader.old }
    ensures few { (AskToJudge (texts words.now) → ⊥)
        → IsBegun (calls_of R.remaining R.failures reader.old reader.new) 4194305 }
{
    match reply(alloc, words, read, reader) {
        Ok(made) => made,
        Err(fault) => WithExplanation::alone(alloc, Answer::faulted(fault)),
    }
}
