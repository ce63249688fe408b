//! What the program says, with its status.

ghost use Rattle.std.specs.Prelude.{◌≡◌, IfOk, string_bytes};
ghost use Rattle.program_octets.specs.Sayings.{faulted, refused_as, refused_twice, told_in};
ghost use Rattle.program_octets.specs.Statuses.{refusal_status};
ghost use Rattle.program_octets.specs.Texts.{stopped};
ghost use Rattle.program_octets.specs.Verdicts.{accepted_in, refused_in};
ghost use Rattle.program_octets.specs.declared.said.Said.TheVariants as saying;
ghost use Rattle.program_octets.specs.declared.status.Status.TheVariants as ended;

use crate::json::{accepted_object, refused_object};
use crate::said::Said;
use crate::status::Status;
use answer_json::{Name, Refusal};
use layouts::Layout;
use octet_core::{Named, Stop};
use program_words::{Fault, Kind};
use std::alloc::{AllocError, Global};

/// What the program says, and the status with which it then ends.
#[derive(Drop)]
pub struct Answer {
    pub said: Said,
    pub status: Status,
}

impl Answer {
    /// Returns the answer that is written in a layout: lines, or an object in one line.
    pub fn laid(layout: Layout, text: String, status: Status) -> Answer
        ensures said { result.said ≡ told_in layout (string_bytes text) }
        ensures status { result.status ≡ status }
    {
        let said = Said::laid(layout, text);
        Answer { said, status }
    }

    /// Returns a value's lines as an answer.
    pub fn ok(text: String) -> Answer
        ensures said { result.said ≡ saying.Text (string_bytes text) }
        ensures status { result.status ≡ ended.Accepted }
    {
        Answer::laid(Layout::Lines, text, Status::Accepted)
    }

    /// Returns a refusal or a fault as an answer.
    pub fn refusal(refusal: Refusal) -> Answer
        ensures said { result.said ≡ saying.Refusal refusal }
        ensures status { result.status ≡ refusal_status refusal }
    {
        let status = status_of(&refusal);
        let said = Said::Refusal(refusal);
        Answer { said, status }
    }

    /// Returns the answer for octets that are a value of a kind and take `taken` octets.
    pub fn accepted(
        alloc: Global,
        layout: Layout,
        kind: Kind,
        taken: usize,
    ) -> Result<Answer, AllocError>
        ensures said { IfOk result (λ answer. answer.said ≡ accepted_in layout kind taken) }
        ensures status { IfOk result (λ answer. answer.status ≡ ended.Accepted) }
    {
        let text = match layout {
            Layout::Lines => format!(in alloc; "ok {taken} octets\n")?,
            Layout::Json => accepted_object(alloc, kind, taken)?,
        };
        Ok(Answer::laid(layout, text, Status::Accepted))
    }

    /// Returns the answer for octets that are refused as a value of a kind.
    pub(crate) fn refused_in<R: Named>(
        alloc: Global,
        layout: Layout,
        kind: Kind,
        stop: Stop<R>,
    ) -> Result<Answer, AllocError>
        ensures said { IfOk result (λ answer. answer.said ≡ refused_in layout kind R.text stop) }
        ensures status { IfOk result (λ answer. answer.status ≡ ended.Refused) }
    {
        match layout {
            Layout::Lines => Ok(Answer::refused(stop)),
            Layout::Json => {
                let text = refused_object(alloc, kind, &stopped(stop))?;
                Ok(Answer::laid(Layout::Json, text, Status::Refused))
            }
        }
    }

    /// Returns the answer for octets that are refused.
    pub fn refused<R: Named>(stop: Stop<R>) -> Answer
        ensures said { result.said ≡ saying.Refusal (stopped R.text stop) }
        ensures status { result.status ≡ ended.Refused }
    {
        Answer::refusal(stopped(stop))
    }

    /// Returns the answer for a refusal of the whole value, by this name.
    pub fn refused_as(name: &'static str) -> Answer
        ensures said { result.said ≡ refused_as name.now }
        ensures status { result.status ≡ ended.Refused }
    {
        let reason = Name::of(name);
        Answer::refusal(Refusal::Whole { reason })
    }

    /// Returns the answer for two known values with the same tag.
    pub fn duplicate() -> Answer
        ensures said { result.said ≡ refused_twice }
        ensures status { result.status ≡ ended.Refused }
    {
        Answer::refused_as("Duplicate")
    }

    /// Returns the answer for a fault.
    pub fn faulted(fault: Fault) -> Answer
        ensures said { result.said ≡ faulted fault }
        ensures status { result.status ≡ ended.Fault }
    {
        let fault = Name::of(fault.name());
        Answer::refusal(Refusal::Fault { fault })
    }
}

/// Returns the refusal for octets that are refused.
fn stopped<R: Named>(stop: Stop<R>) -> Refusal
    ensures { result ≡ stopped R.text stop }
{
    match stop {
        Stop::Short { place } => Refusal::Short { place },
        Stop::At { place, reason } => {
            let reason = Name::of(reason.name());
            Refusal::At { place, reason }
        }
    }
}

/// Returns the status of a refusal or a fault.
fn status_of(refusal: &Refusal) -> Status
    ensures { result ≡ refusal_status refusal.now }
{
    match refusal {
        Refusal::Short { .. }
        | Refusal::At { .. }
        | Refusal::AtLine { .. }
        | Refusal::Whole { .. } => Status::Refused,
        Refusal::FaultAt { .. } | Refusal::Fault { .. } => Status::Fault,
    }
}
