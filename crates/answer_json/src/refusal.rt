//! Refusals and faults as values. Each is a line, or members of a JSON object.

ghost use Rattle.std.specs.Prelude.{◌≡◌, IfOk, OnOk, string_bytes};
ghost use Rattle.answer_json.specs.Refusals.{line_of, members_of, verdict_first, verdict_of, with_details, with_verdict};

use layouts::Members;
use std::alloc::{AllocError, Global};
use std::marker::Model;

/// The name of a reason or of a fault: one word, without quotation marks. Contracts see its octets.
#[derive(Drop)]
pub struct Name {
    text: &'static str,
}

impl Model for Name {
    ghost use Rattle.std.specs.Prelude.{List, ℕ};

    ghost Value = { List ℕ };

    ghost view = { λ name. name.text.now };
}

impl Name {
    /// Makes a name of a word.
    pub fn of(text: &'static str) -> Name
        ensures { result ≡ text.now }
    {
        Name { text }
    }

    /// Returns the word.
    pub fn get(&self) -> &'static str
        ensures { result.now ≡ self.now }
    {
        self.text
    }
}

/// Why there is no value: a refusal or a fault. Places count octets from 0, and lines count from 1.
#[derive(Drop)]
pub enum Refusal {
    /// The octets end at a place where more have to come.
    Short { place: usize },
    /// The octet at a place is refused.
    At { place: usize, reason: Name },
    /// A line of the input is refused.
    AtLine { line: usize, reason: Name },
    /// The whole is refused.
    Whole { reason: Name },
    /// A line of the input is at fault.
    FaultAt { line: usize, fault: Name },
    /// The words, the input, memory or a stream is at fault.
    Fault { fault: Name },
}

impl Refusal {
    /// Returns the line that says it.
    pub fn line(&self, alloc: Global) -> Result<String, AllocError>
        ensures { IfOk result (λ line. string_bytes line ≡ line_of self.now) }
    {
        match self {
            Refusal::Short { place } => format!(in alloc; "short at {place}\n"),
            Refusal::At { place, reason } => {
                format!(in alloc; "refused at {place}: {}\n", reason.get())
            }
            Refusal::AtLine { line, reason } => {
                format!(in alloc; "refused at line {line}: {}\n", reason.get())
            }
            Refusal::Whole { reason } => format!(in alloc; "refused: {}\n", reason.get()),
            Refusal::FaultAt { line, fault } => {
                format!(in alloc; "fault: line {line}: {}\n", fault.get())
            }
            Refusal::Fault { fault } => format!(in alloc; "fault: {}\n", fault.get()),
        }
    }

    /// Returns its members of a JSON object, the verdict last.
    pub fn members(&self, alloc: Global) -> Result<Members, AllocError>
        ensures { IfOk result (λ members. members ≡ members_of self.now) }
    {
        let mut members = Members::new(alloc);
        self.push_details(alloc, &mut members)?;
        self.push_verdict(alloc, &mut members)?;
        Ok(members)
    }

    /// Returns its members of a JSON object, the verdict first.
    pub fn members_by_verdict(&self, alloc: Global) -> Result<Members, AllocError>
        ensures { IfOk result (λ members. members ≡ verdict_first self.now) }
    {
        let mut members = Members::new(alloc);
        self.push_verdict(alloc, &mut members)?;
        self.push_details(alloc, &mut members)?;
        Ok(members)
    }

    /// Appends the verdict to the members of an object.
    fn push_verdict(&self, alloc: Global, members: &mut Members) -> Result<(), AllocError>
        ensures { OnOk result (members.new ≡ with_verdict members.old self.now) }
    {
        members.string(alloc, "verdict", self.verdict())
    }

    /// Returns the verdict.
    fn verdict(&self) -> &'static str
        ensures { result.now ≡ verdict_of self.now }
    {
        match self {
            Refusal::Short { .. } => "short",
            Refusal::At { .. } | Refusal::AtLine { .. } | Refusal::Whole { .. } => "refused",
            Refusal::FaultAt { .. } | Refusal::Fault { .. } => "fault",
        }
    }

    /// Appends where it is and why to the members of an object.
    fn push_details(&self, alloc: Global, members: &mut Members) -> Result<(), AllocError>
        ensures { OnOk result (members.new ≡ with_details members.old self.now) }
    {
        match self {
            Refusal::Short { place } => members.number(alloc, "at", *place as u64),
            Refusal::At { place, reason } => {
                members.number(alloc, "at", *place as u64)?;
                members.string(alloc, "reason", reason.get())
            }
            Refusal::AtLine { line, reason } => {
                members.number(alloc, "line", *line as u64)?;
                members.string(alloc, "reason", reason.get())
            }
            Refusal::Whole { reason } => members.string(alloc, "reason", reason.get()),
            Refusal::FaultAt { line, fault } => {
                members.string(alloc, "fault", fault.get())?;
                members.number(alloc, "line", *line as u64)
            }
            Refusal::Fault { fault } => members.string(alloc, "fault", fault.get()),
        }
    }
}
