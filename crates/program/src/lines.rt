//! Answers each line of octets as it comes.

ghost use Rattle.std.specs.Prelude.{◌≡◌, ◌++◌, ◌∷◌, [], ℕ, List, IfOk, IfErr, OnOk, OnErr, string_bytes};
ghost use Rattle.program.specs.Calls.{calls_of};
ghost use Rattle.program.specs.Answers.{lines_text};
ghost use Rattle.program.specs.Conversations.{Event, Happens, told, untold};
ghost use Rattle.program.specs.LineAnswers.{AreTelling, HasAnswered, HasBegun, HasSaid, IsRest, Tells, WritesLines};
ghost use Rattle.program.specs.LineNotes.{said_text, AreLinesSaid, IsLineSaid};
ghost use Rattle.program.specs.Lines.{all_lines, ended_lines, worse};
ghost use Rattle.program_octets.specs.declared.status.Status.TheVariants as ended;
ghost use Rattle.program_words.specs.Texts.{fault_text};
ghost use Rattle.program_octets.specs.declared.status.Status.{Status as AnyStatus};

use crate::conversation::{Conversation, Streams};
use crate::file::LARGEST_FILE;
use crate::json::{Topic, explained};
use crate::judged::WithExplanation;
use crate::line_task::{LineTask, line_answer, with_indented};
use crate::pieces::PIECE;
use layouts::Layout;
use octet_core::{Octets, Sink, Source, WriteFault};
use program_octets::{Said, Status};
use program_words::{Aim, Fault, Task};
use std::alloc::{AllocError, Global};

/// The state between two calls of the reader.
#[derive(Drop)]
struct AnsweredLines {
    line_task: LineTask,
    /// The octets of the unfinished line, up to one more than the limit.
    line: Vec<u8>,
    /// The text that isn't written yet.
    text: Vec<u8>,
    /// The status if no more lines come.
    status: Status,
}

/// Answers each line of the input by the answer of the task. Each line that `\n` ends is answered before more is read.
/// A last line without `\n` is answered at the end of the input, if it has octets.
///
/// The answer to a check is one line. The answer to a value is its lines and an empty one. An explanation, if asked
/// for, comes after the lines of the answer, each of its lines after two blanks, or as a member of a JSON object.
///
/// The only other text is the line of a fault, as the last. It is `fault: read` if a call to read more failed,
/// `fault: memory` if memory couldn't grow, and `fault: TooLarge` after at least 2<sup>64</sup> - 1 octets.
///
/// `run` calls it with a reader and a writer, as [`Streams`](crate::Streams), if the words ask for the lines of
/// standard input.
pub fn answer_lines<C: Conversation>(
    alloc: Global,
    line_task: LineTask,
    conversation: &mut C,
) -> Status
    ensures { HasAnswered line_task (C.said conversation.old) (C.said conversation.new) result }
{
    let mut answered = AnsweredLines {
        line_task,
        line: Vec::new(alloc),
        text: Vec::new(alloc),
        status: Status::Accepted,
    };
    let mut room = [0; PIECE];
    for _turn in 0..u64::MAX {
        match tell_kept(&mut answered.text, conversation) {
            Ok(()) => {}
            Err(_) => return Status::Fault,
        }
        match conversation.hear(&mut room) {
            Ok(0) => return answered.ended(alloc, conversation),
            Ok(count) => match answered.feed(alloc, &room[..count]) {
                Ok(()) => {}
                Err(_) => return answered.faulted(Fault::Memory, conversation),
            },
            Err(_) => return answered.faulted(Fault::Read, conversation),
        }
    }
    answered.faulted(Fault::TooLarge, conversation)
}

/// Answers each line of the reader before the next call of the reader.
pub(crate) fn tell_lines<R: Source, W: Sink>(
    alloc: Global,
    line_task: LineTask,
    reader: &mut R,
    writer: &mut W,
) -> Status
    ensures { WritesLines line_task (calls_of R.remaining R.failures reader.old reader.new)
        (calls_of W.contents W.failures writer.old writer.new) result }
{
    let mut streams = Streams { reader, writer };
    answer_lines(alloc, line_task, &mut streams)
}

/// Writes the text that was kept, and empties it.
fn tell_kept<C: Conversation>(text: &mut Vec<u8>, conversation: &mut C) -> Result<(), WriteFault>
    ensures answer { OnOk result (Happens (C.said conversation.old) (C.said conversation.new)
        (told text.old.items ∷ [])) }
    ensures empty { OnOk result (text.new.items ≡ []) }
    ensures untold { IfErr result (λ fault.
        Happens (C.said conversation.old) (C.said conversation.new)
        (untold text.old.items fault.written ∷ [])) }
    ensures kept { IfErr result (λ _. text.new.items ≡ text.old.items) }
{
    match conversation.tell(text.as_slice()) {
        Ok(()) => {
            text.clear();
            Ok(())
        }
        Err(fault) => Err(fault),
    }
}

/// Writes a text. Returns the status, or that of a fault if writing failed.
fn tell<C: Conversation>(text: &[u8], status: Status, conversation: &mut C) -> Status
    ensures { (event : Event)
        × Happens (C.said conversation.old) (C.said conversation.new) (event ∷ [])
        × AreTelling text.now status (event ∷ []) result }
{
    match conversation.tell(text) {
        Ok(()) => status,
        Err(_) => Status::Fault,
    }
}

impl AnsweredLines {
    /// Takes the octets of a piece, and answers the lines that end in it.
    fn feed(&mut self, alloc: Global, piece: &[u8]) -> Result<(), AllocError>
        ensures line_task { self.new.line_task ≡ self.old.line_task }
        ensures said { OnOk result
            ((read written : List ℕ)
            → HasSaid self.old.line_task read written self.old.line.items self.old.text.items
            self.old.status → HasSaid self.old.line_task (read ++ piece.now) written
            self.new.line.items self.new.text.items self.new.status) }
        ensures begun { OnErr result
            ((read written : List ℕ)
            → HasSaid self.old.line_task read written self.old.line.items self.old.text.items
            self.old.status → HasBegun self.old.line_task (ended_lines (read ++ piece.now))
            (written ++ self.new.text.items)) }
    {
        for octet in piece {
            self.take(alloc, *octet)?;
        }
        Ok(())
    }

    /// Takes an octet, and answers the line that it ends, if it ends one.
    fn take(&mut self, alloc: Global, octet: u8) -> Result<(), AllocError>
        ensures line_task { self.new.line_task ≡ self.old.line_task }
        ensures said { OnOk result
            ((read written : List ℕ)
            → HasSaid self.old.line_task read written self.old.line.items self.old.text.items
            self.old.status → HasSaid self.old.line_task (read ++ (octet ∷ [])) written
            self.new.line.items self.new.text.items self.new.status) }
        ensures kept { OnErr result (self.new.text.items ≡ self.old.text.items) }
    {
        if octet == b'\n' {
            return self.answer(alloc);
        }
        if self.line.len() <= LARGEST_FILE {
            self.line.push(octet)?;
        }
        Ok(())
    }

    /// Answers the unfinished line, and begins another.
    fn answer(&mut self, alloc: Global) -> Result<(), AllocError>
        ensures line_task { self.new.line_task ≡ self.old.line_task }
        ensures answer { OnOk result
            ((text : List ℕ) × (ended : AnyStatus)
            × IsLineSaid self.old.line_task self.old.line.items text ended
            × (self.new.text.items ≡ self.old.text.items ++ text)
            × (self.new.status ≡ worse self.old.status ended)) }
        ensures line { OnOk result (self.new.line.items ≡ []) }
        ensures kept { OnErr result (self.new.text.items ≡ self.old.text.items) }
    {
        let answer = line_text(alloc, self.line_task, self.line.as_slice())?;
        self.text.extend_from_slice(answer.text.get())?;
        self.status = worse(self.status, answer.status);
        self.line.clear();
        Ok(())
    }

    /// Answers the last line, if it has octets. It needs no line end.
    fn last(&mut self, alloc: Global) -> Result<(), AllocError>
        ensures answer { OnOk result
            ((read written : List ℕ)
            → HasSaid self.old.line_task read written self.old.line.items self.old.text.items
            self.old.status → AreLinesSaid self.old.line_task (all_lines read)
            (written ++ self.new.text.items) self.new.status) }
        ensures kept { OnErr result (self.new.text.items ≡ self.old.text.items) }
    {
        if self.line.is_empty() {
            return Ok(());
        }
        self.answer(alloc)
    }

    /// Answers the last line, and writes what is left.
    fn ended<C: Conversation>(mut self, alloc: Global, conversation: &mut C) -> Status
        ensures { (read written : List ℕ)
            → HasSaid self.line_task read written self.line.items self.text.items self.status
            → Tells (IsRest self.line_task (all_lines read) written) (C.said conversation.old)
            (C.said conversation.new) result }
    {
        match self.last(alloc) {
            Ok(()) => tell(self.text.as_slice(), self.status, conversation),
            Err(_) => self.faulted(Fault::Memory, conversation),
        }
    }

    /// Writes what is left, and the line of a fault.
    fn faulted<C: Conversation>(self, fault: Fault, conversation: &mut C) -> Status
        ensures { (events : List Event)
            × Happens (C.said conversation.old) (C.said conversation.new) events
            × AreTelling (self.text.items ++ fault_text fault) ended.Fault events result }
    {
        match conversation.tell(self.text.as_slice()) {
            Ok(()) => tell(fault.text().as_bytes(), Status::Fault, conversation),
            Err(_) => Status::Fault,
        }
    }
}

/// The text that answers a line, with the status.
#[derive(Drop)]
struct LineText {
    text: Octets,
    status: Status,
}

/// Returns the text that answers a line of octets.
fn line_text(alloc: Global, line_task: LineTask, line: &[u8]) -> Result<LineText, AllocError>
    ensures { IfOk result (λ answer. IsLineSaid line_task line.now answer.text answer.status) }
{
    let WithExplanation {
        answer,
        explanation,
    } = line_answer(alloc, line_task, line)?;
    let explanation = explanation?;
    Ok(LineText {
        text: said_text(alloc, line_task.task, answer.said, explanation)?,
        status: answer.status,
    })
}

/// Returns the text that answers a line: what is said and the explanation. That comes after the lines of the text, or
/// as a member of the JSON object. After a value, which has several lines, comes an empty line. After an object there
/// is none.
fn said_text(
    alloc: Global,
    task: Task,
    said: Said,
    explanation: String,
) -> Result<Octets, AllocError>
    ensures { IfOk result (λ text. text ≡ said_text task said (string_bytes explanation)) }
{
    match task.layout {
        Layout::Lines => {
            let answer = said.into_text(alloc)?;
            lines_text(task, with_indented(alloc, answer, explanation.as_str())?)
        }
        Layout::Json => {
            let object = Topic::of_task(task).object(alloc, said)?;
            explained(alloc, object, Ok(explanation))
        }
    }
}

/// Returns the lines that answer a line.
fn lines_text(task: Task, answer: Octets) -> Result<Octets, AllocError>
    ensures { IfOk result (λ text. text ≡ lines_text task.aim answer) }
{
    match task.aim {
        Aim::Check => Ok(answer),
        Aim::Show | Aim::Note => {
            let mut text = answer.into_inner();
            text.push(b'\n')?;
            Ok(Octets::of(text))
        }
    }
}

/// Returns the worse of two statuses.
pub(crate) fn worse(status: Status, other: Status) -> Status
    ensures { result ≡ worse status other }
{
    match (status, other) {
        (Status::Accepted, other) => other,
        (Status::Refused, Status::Accepted) => Status::Refused,
        (Status::Refused, other) => other,
        (Status::Fault, _) => Status::Fault,
    }
}
