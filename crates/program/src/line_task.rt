//! The answer to a line of octets, with an explanation if one is asked for.

ghost use Rattle.program_words.specs.declared.fault.Fault.TheVariants.{Memory};
ghost use Rattle.std.specs.Prelude.{◌≡◌, ◌≢◌, ◌==◌, ◌++◌, ◌∷◌, ℕ, List, Bool, IfOk};
ghost use Rattle.program.specs.Answers.{IsTold, IsToldOf};
ghost use Rattle.program.specs.Judged.{AreOf, SaysIf};
ghost use Rattle.program.specs.LineNotes.{fault_note, indented, indented_from, IsNoteOfLine};
ghost use Rattle.program.specs.Lines.{line_octets};
ghost use Rattle.program_octets.specs.Sayings.{faulted};
ghost use Rattle.program_octets.specs.declared.status.Status.TheVariants as status;

use crate::file::LARGEST_FILE;
use crate::judged::{WithExplanation, answer_about};
use explainer::{digits_note, large_note};
use octet_core::Octets;
use program_octets::Answer;
use program_words::{Fault, Task, loose_octets};
use std::alloc::{AllocError, Global};

/// How each line is answered.
#[derive(Clone, Copy)]
pub struct LineTask {
    /// What the answer says about the octets.
    pub task: Task,
    /// Whether an explanation comes after the answer.
    pub explains: bool,
}

/// Returns the answer to a line of octets, with a note if one is asked for.
pub(crate) fn line_answer(
    alloc: Global,
    line_task: LineTask,
    line: &[u8],
) -> Result<WithExplanation, AllocError>
    ensures { IfOk result (AreOf (IsToldOf (IsTold line_task.task) (line_octets line.now))
        (SaysIf line_task.explains (IsNoteOfLine line_task.task line.now (line_octets line.now)))) }
{
    if line.len() > LARGEST_FILE {
        return fault_answer(alloc, line_task.explains, Fault::TooLarge, line);
    }
    match loose_octets(alloc, line) {
        Ok(octets) => answer_about(alloc, line_task, octets.get()),
        Err(fault) => fault_answer(alloc, line_task.explains, fault, line),
    }
}

/// Returns the answer for a fault, with what is wrong with the line if it `explains`.
fn fault_answer(
    alloc: Global,
    explains: bool,
    fault: Fault,
    line: &[u8],
) -> Result<WithExplanation, AllocError>
    ensures other { IfOk result (λ _. fault ≢ Memory) }
    ensures answer { IfOk result (AreOf
        (λ said ended. (said ≡ faulted fault) × (ended ≡ status.Fault))
        (SaysIf explains (λ note. note ≡ fault_note line.now fault))) }
{
    if let Fault::Memory = fault {
        return Err(AllocError);
    }
    let answer = Answer::faulted(fault);
    if !explains {
        return Ok(WithExplanation::alone(alloc, answer));
    }
    let explanation = match fault {
        Fault::Hex => digits_note(alloc, line),
        Fault::TooLarge => large_note(alloc, LARGEST_FILE),
        Fault::Words | Fault::Memory | Fault::Read => Ok(String::new(alloc)),
    };
    Ok(WithExplanation {
        answer,
        explanation,
    })
}

/// Appends a note to a text, with two blanks before each line of the note.
pub(crate) fn with_indented(alloc: Global, answer: Octets, note: &str) -> Result<Octets, AllocError>
    ensures { IfOk result (λ text. text ≡ answer ++ indented note.now) }
{
    let mut text = answer.into_inner();
    text.extend_from_slice(indented(alloc, note.as_bytes())?.as_slice())?;
    Ok(Octets::of(text))
}

/// Returns a text with two blanks before each line.
fn indented(alloc: Global, text: &[u8]) -> Result<Vec<u8>, AllocError>
    ensures { IfOk result (λ added. added.items ≡ indented text.now) }
{
    let mut added = Vec::new(alloc);
    let mut begins = true;
    let mut rest = text;
    while let [octet, after @ ..] = rest {
        push_indented(&mut added, begins, *octet)?;
        begins = *octet == b'\n';
        rest = after;
    }
    Ok(added)
}

/// Appends an octet, after two blanks if it begins a line.
fn push_indented(added: &mut Vec<u8>, begins: bool, octet: u8) -> Result<(), AllocError>
    ensures { IfOk result (λ _. (rest : List ℕ) (next : Bool) → next ≡ (octet == 10)
        → added.new.items ++ indented_from next rest ≡ added.old.items ++ indented_from begins (octet ∷ rest)) }
{
    if begins {
        added.extend_from_slice(b"  ")?;
    }
    Ok(added.push(octet)?)
}
