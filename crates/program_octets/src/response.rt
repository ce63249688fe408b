//! What the program prints about a response.

ghost use Rattle.std.specs.Prelude.{◌≡◌, ◌++◌, OnOk, refl, string_bytes};
ghost use Rattle.apdu_core.specs.Response.{ResponseParts};
ghost use Rattle.program_octets.specs.ResponseTexts.{class_text, name_of, response_codec, response_members, response_rows, status_line, status_members, status_row};
ghost use Rattle.program_octets.specs.Places.{ranges_of};
ghost use Rattle.program_octets.specs.Rows.{with_row};

use crate::codec::{Codec, Outcome};
use crate::places::Place;
use crate::row_lines::RowLine;
use crate::rows::Rows;
use crate::shown::{Showable, Shown};
use crate::text::push_hex;
use apdu_core::{Response, ResponseReason, ResponseRef, StatusClass, status_class};
use layouts::Layout;
use notes::{NoNote, status_note};
use octet_core::Stop;
use program_words::{Expected, FieldSize};
use std::alloc::{AllocError, Global};

impl Codec for Response {
    type Reason = ResponseReason;

    ghost Value = { ResponseParts };

    ghost codec = { λ _. response_codec };

    ghost named = { λ _. refl };

    fn taken(_alloc: Global, octets: &[u8], _expected: Expected) -> Outcome<usize, ResponseReason> {
        ResponseRef::decode(octets)?;
        Ok(octets.len())
    }

    fn shown(
        alloc: Global,
        octets: &[u8],
        expected: Expected,
        layout: Layout,
        noted: bool,
    ) -> Outcome<Shown, ResponseReason> {
        let response = ResponseRef::decode(octets)?;
        Ok(Shown::of(alloc, &response, octets.len(), expected.kind, layout, noted)?)
    }

    fn refusal_note(
        alloc: Global,
        _octets: &[u8],
        _stop: Stop<ResponseReason>,
        _ifs: FieldSize,
    ) -> Result<String, AllocError> {
        Ok(String::new(alloc))
    }
}

impl Showable for ResponseRef<'_> {
    ghost rows = { response_rows };

    ghost members = { response_members };

    fn push_rows(&self, to: &mut Rows, taken: usize) -> Result<(), AllocError> {
        let status = taken.saturating_sub(2);
        let place = Place::Range(0, status);
        to.push_word("part ", self.part(), &NoNote, &place)?;
        let place = Place::Range(status, taken);
        push_status_row(to, self.sw1(), self.sw2(), &place)
    }

    fn push_members(&self, _alloc: Global, text: &mut String) -> Result<(), AllocError> {
        push_members(text, self)
    }
}

/// Appends the row of two status bytes and their class.
fn push_status_row(to: &mut Rows, sw1: u8, sw2: u8, place: &Place<'_>) -> Result<(), AllocError>
    ensures { OnOk result (to.new ≡ with_row to.old (status_row sw1 sw2 (ranges_of place.now))) }
{
    let note = status_note(sw1, sw2);
    to.push(&StatusLine { sw1, sw2 }, &note, place)
}

/// The line of two status bytes.
#[derive(Clone, Copy)]
struct StatusLine {
    sw1: u8,
    sw2: u8,
}

impl RowLine for StatusLine {
    ghost line = { λ l. status_line l.sw1 l.sw2 };

    fn push_to(&self, text: &mut String) -> Result<(), AllocError> {
        text.push_str("status ")?;
        push_hex(text, &[self.sw1, self.sw2])?;
        text.push_str(" ")?;
        text.push_str(class_name(self.sw1, self.sw2))
    }
}

/// Appends a response as members of an object.
fn push_members(text: &mut String, response: &ResponseRef<'_>) -> Result<(), AllocError>
    ensures { OnOk result (string_bytes text.new
        ≡ string_bytes text.old ++ response_members response.now) }
{
    text.push_str(",\"part\":\"")?;
    push_hex(text, response.part())?;
    text.push_str("\"")?;
    push_status(text, response.sw1(), response.sw2())
}

/// Appends two status bytes and their class as members of an object.
fn push_status(text: &mut String, sw1: u8, sw2: u8) -> Result<(), AllocError>
    ensures { OnOk result (string_bytes text.new ≡ string_bytes text.old
        ++ status_members sw1 sw2) }
{
    text.push_str(",\"status\":\"")?;
    push_hex(text, &[sw1, sw2])?;
    text.push_str("\",\"class\":\"")?;
    text.push_str(class_name(sw1, sw2))?;
    text.push_str("\"")
}

/// Returns the name of the class of two status bytes.
fn class_name(sw1: u8, sw2: u8) -> &'static str
    ensures { result.now ≡ class_text sw1 sw2 }
{
    name(status_class(sw1, sw2))
}

fn name(class: StatusClass) -> &'static str
    ensures { result.now ≡ name_of class }
{
    match class {
        StatusClass::Normal => "normal",
        StatusClass::Warning => "warning",
        StatusClass::Execution => "execution",
        StatusClass::Checking => "checking",
        StatusClass::Proprietary => "proprietary",
        StatusClass::Invalid => "invalid",
    }
}
