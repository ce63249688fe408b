//! Answers as JSON objects.

ghost use Rattle.std.specs.Prelude.{◌≡◌, IfOk, string_bytes};
ghost use Rattle.program_octets.specs.Json.{with_member, with_notes};
ghost use Rattle.program_octets.specs.Verdicts.{kind_name};
ghost use Rattle.program.specs.Answers.{has_notes, is_refusal, object_as};
ghost use Rattle.program.specs.Explained.{said_of};
ghost use Rattle.program.specs.InJson.{asks_for_notes, explanation_member, file_subject, subject, subject_of, with_explanation};

use crate::judged::WithExplanation;
use answer_json::json_string;
use octet_core::Octets;
use program_octets::{Said, kind_name, notes_member};
use program_words::{Aim, Fault, FileTask, Request, Task};
use std::alloc::{AllocError, Global};

/// The end of an object.
const CLOSING: &[u8; 2] = b"}\n";

/// What an object is about.
#[derive(Clone, Copy)]
pub(crate) struct Topic {
    /// The kind of the octets, the subcommand, or words.
    name: &'static str,
    /// Whether notes are asked for.
    noted: bool,
}

impl Topic {
    /// Returns what the answer is about, by what the words were read as.
    pub(crate) fn of(read: &Result<Request, Fault>) -> Topic
        ensures name { result.name.now ≡ (subject_of read.now).0 }
        ensures noted { result.noted ≡ (subject_of read.now).1 }
    {
        match read {
            Ok(request) => Topic {
                name: subject(request),
                noted: asks_for_notes(request),
            },
            Err(_) => Topic {
                name: "words",
                noted: false,
            },
        }
    }

    /// Returns what the answer of a task on octets is about.
    pub(crate) fn of_task(task: Task) -> Topic
        ensures name { result.name.now ≡ kind_name task.expected.kind }
        ensures noted { result.noted ≡ has_notes task.aim }
    {
        Topic {
            name: kind_name(task.expected.kind),
            noted: has_notes(task.aim),
        }
    }

    /// Returns what is said about it as an object. If notes are asked for, a refusal has an empty array of them: the
    /// notes of a value, or of octets that are refused, are in its object already.
    pub(crate) fn object(&self, alloc: Global, said: Said) -> Result<Octets, AllocError>
        ensures { IfOk result (λ text. text ≡ object_as self.now.name.now self.now.noted said) }
    {
        let unnoted = is_refusal(&said) && self.noted;
        let object = said.into_object(alloc, self.name)?;
        if unnoted {
            with_notes(alloc, object, "")
        } else {
            Ok(object)
        }
    }
}

/// Whether an answer is a refusal or a fault.
fn is_refusal(said: &Said) -> bool
    ensures { result ≡ is_refusal said.now }
{
    matches!(said, Said::Refusal(_))
}

/// Whether a request asks for notes.
fn asks_for_notes(request: &Request) -> bool
    ensures { result ≡ asks_for_notes request.now }
{
    match request {
        Request::Tell(task, _) => has_notes(task.aim),
        _ => false,
    }
}

/// Whether notes are asked for.
fn has_notes(aim: Aim) -> bool
    ensures { result ≡ has_notes aim }
{
    match aim {
        Aim::Check | Aim::Show => false,
        Aim::Note => true,
    }
}

/// Returns the subject of the object that answers a request: the kind of the octets, or the subcommand.
fn subject(request: &Request) -> &'static str
    ensures { result.now ≡ subject request.now }
{
    match request {
        Request::Tell(task, _) => kind_name(task.expected.kind),
        Request::BuildChain { .. } => "chain",
        Request::BuildTidy(_) => "tlv",
        Request::BuildFill { .. } => "dol",
        Request::File(task) => file_subject(*task),
        Request::Record(_) => "record",
        Request::Judge { .. } => "judge",
        Request::Simulate(_) | Request::SimulateLines(_) => "simulate",
        Request::Help(_) => "help",
        Request::Version => "version",
    }
}

/// Returns the subcommand's name, which is the subject of an answer about a file.
fn file_subject(task: FileTask) -> &'static str
    ensures { result.now ≡ file_subject task }
{
    match task {
        FileTask::Replay(..) => "replay",
        FileTask::Migrate => "migrate",
        FileTask::Apdus(_) => "apdus",
        FileTask::Draw(_) => "draw",
    }
}

/// Returns an answer as a JSON object about this subject, with its explanation as a member.
pub(crate) fn in_json(
    alloc: Global,
    about: &Topic,
    made: WithExplanation,
) -> Result<Octets, AllocError>
    ensures { IfOk result (λ text. text ≡ with_explanation
        (object_as about.now.name.now about.now.noted made.answer.said) (said_of made.explanation)) }
{
    let WithExplanation {
        answer,
        explanation,
    } = made;
    let object = about.object(alloc, answer.said)?;
    explained(alloc, object, explanation)
}

/// Appends an explanation, if there is one, to an object as its last member.
pub(crate) fn explained(
    alloc: Global,
    object: Octets,
    explanation: Result<String, AllocError>,
) -> Result<Octets, AllocError>
    ensures { IfOk result (λ text. text ≡ with_explanation object (said_of explanation)) }
{
    match explanation {
        Ok(text) if !text.is_empty() => with_explanation(alloc, object, text),
        _ => Ok(object),
    }
}

/// Appends an explanation to an object as its last member.
fn with_explanation(
    alloc: Global,
    object: Octets,
    explanation: String,
) -> Result<Octets, AllocError>
    ensures { IfOk result (λ text.
        text ≡ with_member object (explanation_member (string_bytes explanation))) }
{
    let member = explanation_member(alloc, explanation)?;
    with_member(object, member.as_bytes())
}

/// Returns the member for an explanation, which begins with a comma.
fn explanation_member(alloc: Global, explanation: String) -> Result<String, AllocError>
    ensures { IfOk result (λ member.
        string_bytes member ≡ explanation_member (string_bytes explanation)) }
{
    let text = json_string(alloc, explanation)?;
    format!(in alloc; ",\"explanation\":{text}")
}

/// Appends these items to an object as its notes, in its last member.
pub(crate) fn with_notes(alloc: Global, object: Octets, items: &str) -> Result<Octets, AllocError>
    ensures { IfOk result (λ text. text ≡ with_notes object items.now) }
{
    let member = notes_member(alloc, items)?;
    with_member(object, member.as_bytes())
}

/// Appends a member, which begins with a comma, to an object.
fn with_member(object: Octets, member: &[u8]) -> Result<Octets, AllocError>
    ensures { IfOk result (λ text. text ≡ with_member object member.now) }
{
    let mut text = object.into_inner();
    text.truncate(text.len().saturating_sub(CLOSING.len()));
    text.extend_from_slice(member)?;
    text.extend_from_slice(CLOSING)?;
    Ok(Octets::of(text))
}
