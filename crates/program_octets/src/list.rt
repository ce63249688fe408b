//! What the program prints about a data object list.

ghost use Rattle.std.specs.Prelude.{◌≡◌, ◌++◌, [], List, ℕ, IfOk, OnOk, refl, string_bytes};
ghost use Rattle.tlv_core.specs.Fill.{filled};
ghost use Rattle.program_octets.specs.Codec.{IsVerdict};
ghost use Rattle.program_octets.specs.Verdicts.{IsFilled, IsFilledBy};
ghost use Rattle.program_octets.specs.ListTexts.{dol_members, dol_rows, entry_line, entry_object, entry_row, entry_rows, filled_text, list_codec, with_entries};
ghost use Rattle.program_octets.specs.Places.{ranges_of};
ghost use Rattle.program_octets.specs.Rows.{with_row, with_rows};
ghost use Rattle.layouts.specs.Items.{with_item};

use crate::answer::Answer;
use crate::codec::{CheckedAnswer, Codec, Outcome};
use crate::places::Place;
use crate::row_lines::RowLine;
use crate::rows::Rows;
use crate::shown::{Showable, Shown};
use crate::text::{octets_word, push_hex};
use layouts::{Layout, push_separator};
use notes::{ListNote, NoNote};
use octet_core::{Refused, Stop};
use program_words::{Expected, Fault, FieldSize, Knowns};
use std::alloc::{AllocError, Global};
use tlv_core::{Dol, DolReason, FillFault, Tag};

impl Codec for Dol {
    type Reason = DolReason;

    ghost Value = { List (List ℕ × ℕ) };

    ghost codec = { λ _. list_codec };

    ghost named = { λ _. refl };

    fn taken(alloc: Global, octets: &[u8], _expected: Expected) -> Outcome<usize, DolReason> {
        Dol::decode(alloc, octets)?;
        Ok(octets.len())
    }

    fn shown(
        alloc: Global,
        octets: &[u8],
        expected: Expected,
        layout: Layout,
        noted: bool,
    ) -> Outcome<Shown, DolReason> {
        let dol = Dol::decode(alloc, octets)?;
        Ok(Shown::of(alloc, &dol, octets.len(), expected.kind, layout, noted)?)
    }

    fn refusal_note(
        alloc: Global,
        _octets: &[u8],
        _stop: Stop<DolReason>,
        _ifs: FieldSize,
    ) -> Result<String, AllocError> {
        Ok(String::new(alloc))
    }
}

impl Showable for Dol {
    ghost rows = { dol_rows };

    ghost members = { dol_members };

    fn push_rows(&self, to: &mut Rows, taken: usize) -> Result<(), AllocError> {
        let entries = self.entries();
        let asked = ListNote { entries };
        let place = Place::Range(0, taken);
        to.push_number("entries ", entries.len(), &asked, &place)?;
        push_entries(to, entries)
    }

    fn push_members(&self, alloc: Global, text: &mut String) -> Result<(), AllocError> {
        push_members(alloc, text, self.entries())
    }
}

/// Appends the rows of entries.
fn push_entries(to: &mut Rows, entries: &[(Tag, u8)]) -> Result<(), AllocError>
    ensures { OnOk result (to.new ≡ with_rows to.old (entry_rows 0 entries.now)) }
{
    let mut at: usize = 0;
    for (tag, length) in entries {
        let end = at.checked_add(tag.octets().len() + 1).ok_or(AllocError)?;
        push_entry(to, tag, *length, &Place::Range(at, end))?;
        at = end;
    }
    Ok(())
}

/// Appends the row of an entry: its tag and its length.
fn push_entry(to: &mut Rows, tag: &Tag, length: u8, place: &Place<'_>) -> Result<(), AllocError>
    ensures { OnOk result (to.new ≡ with_row to.old
        (entry_row (tag.now, length) (ranges_of place.now))) }
{
    let octets = tag.octets();
    to.push(&EntryLine { octets, length }, &NoNote, place)
}

/// The line of an entry.
#[derive(Clone, Copy)]
struct EntryLine<'a> {
    octets: &'a [u8],
    length: u8,
}

impl RowLine for EntryLine<'_> {
    ghost line = { λ l. entry_line l.octets.now l.length };

    fn push_to(&self, text: &mut String) -> Result<(), AllocError> {
        let length = self.length;
        push_hex(text, self.octets)?;
        write!(text, " {length}")
    }
}

/// Returns the octets that a list requests from known values, and the verdict on the octets of the list. A fault of the
/// known values counts only if the octets are a list.
pub fn fill_with_verdict(
    alloc: Global,
    octets: &[u8],
    known: &Result<Knowns, Fault>,
) -> Result<CheckedAnswer<DolReason>, AllocError>
    ensures answer { IfOk result (λ judged.
        IsFilled octets.now known.now judged.answer.said judged.answer.status) }
    ensures verdict { IfOk result (λ judged. IsVerdict list_codec octets.now judged.verdict) }
{
    match Dol::decode(alloc, octets) {
        Ok(dol) => Ok(CheckedAnswer {
            answer: fill_by(alloc, &dol, known)?,
            verdict: Ok(octets.len()),
            note: String::new(alloc),
        }),
        Err(Refused::Stop(stop)) => Ok(CheckedAnswer {
            answer: Answer::refused(stop),
            verdict: Err(stop),
            note: String::new(alloc),
        }),
        Err(Refused::Memory) => Err(AllocError),
    }
}

/// Returns the octets that a list requests.
fn fill_by(alloc: Global, dol: &Dol, known: &Result<Knowns, Fault>) -> Result<Answer, AllocError>
    ensures { IfOk result (λ answer. IsFilledBy known.now dol.now answer.said answer.status) }
{
    match known {
        Ok(known) => filled(alloc, dol, known),
        Err(fault) => Ok(Answer::faulted(*fault)),
    }
}

fn filled(alloc: Global, dol: &Dol, known: &Knowns) -> Result<Answer, AllocError>
    ensures { IfOk result (λ answer. IsFilledBy (Ok known.now) dol.now answer.said answer.status) }
{
    match tlv_core::fill(alloc, dol, known.get()) {
        Ok(octets) => Ok(Answer::ok(line(alloc, octets.as_slice())?)),
        Err(FillFault::Duplicate) => Ok(Answer::duplicate()),
        Err(FillFault::Memory) => Err(AllocError),
    }
}

/// Returns a line with octets.
fn line(alloc: Global, octets: &[u8]) -> Result<String, AllocError>
    ensures { IfOk result (λ text. string_bytes text ≡ filled_text octets.now) }
{
    let word = octets_word(alloc, octets)?;
    format!(in alloc; "{word}\n")
}

/// Appends the number of entries, and each entry, as members of an object.
fn push_members(alloc: Global, text: &mut String, entries: &[(Tag, u8)]) -> Result<(), AllocError>
    ensures { OnOk result (string_bytes text.new ≡ string_bytes text.old
        ++ dol_members entries.now) }
{
    write!(text, ",\"count\":{},\"entries\":[", entries.len())?;
    let items = entry_items(alloc, entries)?;
    text.push_str(items.as_str())?;
    text.push_str("]")
}

/// Returns entries as the items of an array.
fn entry_items(alloc: Global, entries: &[(Tag, u8)]) -> Result<String, AllocError>
    ensures { IfOk result (λ text. string_bytes text ≡ with_entries [] entries.now) }
{
    let mut items = String::new(alloc);
    for (tag, length) in entries {
        push_entry_item(&mut items, tag, *length)?;
    }
    Ok(items)
}

/// Appends an entry to the items of an array.
fn push_entry_item(items: &mut String, tag: &Tag, length: u8) -> Result<(), AllocError>
    ensures { OnOk result (string_bytes items.new
        ≡ with_item (string_bytes items.old) (entry_object (tag.now, length))) }
{
    push_separator(items)?;
    push_object(items, tag, length)
}

/// Appends an entry as an object.
fn push_object(text: &mut String, tag: &Tag, length: u8) -> Result<(), AllocError>
    ensures { OnOk result (string_bytes text.new
        ≡ string_bytes text.old ++ entry_object (tag.now, length)) }
{
    text.push_str("{\"tag\":\"")?;
    push_hex(text, tag.octets())?;
    write!(text, "\",\"length\":{length}}}")
}
