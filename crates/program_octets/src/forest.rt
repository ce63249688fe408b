//! What the program prints about a forest of data objects.

ghost use Rattle.std.specs.Prelude.{◌≡◌, ◌++◌, [], ◌-◌, codes, IfOk, MatchResult, OnOk, map, refl, string_bytes};
ghost use Rattle.octet_core.specs.Grammar.{whole, Refuses};
ghost use Rattle.tlv_core.specs.Tree.{Tree};
ghost use Rattle.tlv_core.specs.Forest.{largest, IsForest};
ghost use Rattle.tlv_core.specs.Reasons.{IsReason};
ghost use Rattle.tlv_core.specs.Flat.{part_seen};
ghost use Rattle.program_octets.specs.Codec.{IsVerdict};
ghost use Rattle.program_octets.specs.Verdicts.{Tells};
ghost use Rattle.std.specs.List.{repeat};
ghost use Rattle.program_octets.specs.ForestTexts.{forest_codec, header_members, object_rows, objects_head, part_line, part_object, part_row, parts_members, parts_rows, place_members, placed_row, tidied_text, value_member, value_text, with_objects};
ghost use Rattle.program_octets.specs.Places.{ranges_of};
ghost use Rattle.program_octets.specs.Rows.{with_row, with_rows};
ghost use Rattle.notes.specs.Says.{header_place};
ghost use Rattle.layouts.specs.Items.{with_item};

use crate::answer::Answer;
use crate::codec::{CheckedAnswer, Codec, Outcome};
use crate::places::Place;
use crate::row_lines::RowLine;
use crate::rows::Rows;
use crate::shown::{Showable, Shown};
use crate::text::{octets_word, push_hex, push_word};
use layouts::{Layout, push_separator};
use notes::{NoNote, forest_refusal_note};
use octet_core::{Refused, Stop};
use program_words::{Expected, FieldSize};
use std::alloc::{AllocError, Global};
use tlv_core::{FlatForest, Forest, ForestCheck, LARGEST_FOREST, Part, TlvReason, decode, encode};

impl Codec for Forest {
    type Reason = TlvReason;

    ghost Value = { Tree };

    ghost codec = { λ _. forest_codec };

    ghost named = { λ _. refl };

    fn taken(_alloc: Global, octets: &[u8], _expected: Expected) -> Outcome<usize, TlvReason> {
        verdict(octets)?;
        Ok(octets.len())
    }

    fn shown(
        alloc: Global,
        octets: &[u8],
        expected: Expected,
        layout: Layout,
        noted: bool,
    ) -> Outcome<Shown, TlvReason> {
        let forest = FlatForest::read(alloc, octets, LARGEST_FOREST)?;
        Ok(Shown::of(alloc, &forest, octets.len(), expected.kind, layout, noted)?)
    }

    fn refusal_note(
        alloc: Global,
        octets: &[u8],
        stop: Stop<TlvReason>,
        _ifs: FieldSize,
    ) -> Result<String, AllocError> {
        forest_refusal_note(alloc, octets, stop, LARGEST_FOREST)
    }
}

impl Showable for FlatForest<'_> {
    ghost rows = { parts_rows };

    ghost members = { parts_members };

    fn push_rows(&self, to: &mut Rows, taken: usize) -> Result<(), AllocError> {
        push_forest(to, self.parts(), taken)
    }

    fn push_members(&self, alloc: Global, text: &mut String) -> Result<(), AllocError> {
        push_members(alloc, text, self.parts())
    }
}

/// Returns the shortest encoding of the octets' objects, and the verdict on the octets.
pub fn tidy_with_verdict(
    alloc: Global,
    octets: &[u8],
) -> Result<CheckedAnswer<TlvReason>, AllocError>
    ensures answer { IfOk result (λ judged.
        Tells forest_codec (λ v n. tidied_text v) octets.now judged.answer.said judged.answer.status) }
    ensures verdict { IfOk result (λ judged. IsVerdict forest_codec octets.now judged.verdict) }
{
    match decode(alloc, octets, LARGEST_FOREST) {
        Ok(forest) => Ok(CheckedAnswer {
            answer: Answer::ok(tidied(alloc, &forest)?),
            verdict: Ok(octets.len()),
            note: String::new(alloc),
        }),
        Err(Refused::Stop(stop)) => Ok(CheckedAnswer {
            answer: Answer::refused(stop),
            verdict: Err(stop),
            note: String::new(alloc),
        }),
        Err(Refused::Memory) => Err(AllocError),
    }
}

fn verdict(octets: &[u8]) -> Result<(), Stop<TlvReason>>
    ensures { MatchResult result (λ _. (t : Tree) × IsForest largest t octets.now)
        (Refuses whole (IsForest largest) (IsReason largest) octets.now) }
{
    let mut check = ForestCheck::new(LARGEST_FOREST);
    check.feed(octets)?;
    check.finish()
}

/// Returns a line with the octets of the tidied forest.
fn tidied(alloc: Global, forest: &Forest) -> Result<String, AllocError>
    ensures { IfOk result (λ text. string_bytes text ≡ tidied_text forest.now) }
{
    let tidied = tlv_core::tidy(alloc, forest)?;
    let octets = encode(alloc, &tidied)?;
    let word = octets_word(alloc, octets.as_slice())?;
    format!(in alloc; "{word}\n")
}

/// Appends the number of objects, and each object, as members of an object.
fn push_members(alloc: Global, text: &mut String, parts: &[Part<'_>]) -> Result<(), AllocError>
    ensures { OnOk result (string_bytes text.new
        ≡ string_bytes text.old ++ parts_members (map part_seen parts.now)) }
{
    push_head(text, parts.len())?;
    let items = part_items(alloc, parts)?;
    text.push_str(items.as_str())?;
    text.push_str("]")
}

/// Appends the number of objects, and the beginning of their array.
fn push_head(text: &mut String, count: usize) -> Result<(), AllocError>
    ensures { OnOk result (string_bytes text.new ≡ string_bytes text.old ++ objects_head count) }
{
    write!(text, ",\"count\":{count},\"objects\":[")
}

/// Returns objects as the items of an array.
fn part_items(alloc: Global, parts: &[Part<'_>]) -> Result<String, AllocError>
    ensures { IfOk result (λ text.
        string_bytes text ≡ with_objects [] (map part_seen parts.now)) }
{
    let mut items = String::new(alloc);
    for part in parts {
        push_part_item(&mut items, part)?;
    }
    Ok(items)
}

/// Appends an object to the items of an array.
fn push_part_item(items: &mut String, part: &Part<'_>) -> Result<(), AllocError>
    ensures { OnOk result (string_bytes items.new
        ≡ with_item (string_bytes items.old) (part_object (part_seen part.now))) }
{
    push_separator(items)?;
    push_object(items, part)
}

/// Appends a data object as a JSON object: its depth, the places of its header and of its value, its tag, its length
/// field and its value.
fn push_object(text: &mut String, part: &Part<'_>) -> Result<(), AllocError>
    ensures { OnOk result (string_bytes text.new
        ≡ string_bytes text.old ++ part_object (part_seen part.now)) }
{
    text.push_str("{")?;
    push_places(text, part)?;
    push_header(text, part)?;
    push_value_member(text, part)?;
    text.push_str("}")
}

/// Appends the tag and the length field of an object.
fn push_header(text: &mut String, part: &Part<'_>) -> Result<(), AllocError>
    ensures { OnOk result (string_bytes text.new
        ≡ string_bytes text.old ++ header_members (part_seen part.now)) }
{
    text.push_str(",\"tag\":\"")?;
    push_hex(text, part.tag.octets())?;
    text.push_str("\",\"length\":\"")?;
    push_hex(text, part.length_field().as_slice())?;
    text.push_str("\"")
}

/// Appends the depth of an object, and the places of its header and of its value.
fn push_places(text: &mut String, part: &Part<'_>) -> Result<(), AllocError>
    ensures { OnOk result (string_bytes text.new
        ≡ string_bytes text.old ++ place_members (part_seen part.now)) }
{
    let depth = part.depth;
    let at = header_place(part);
    let place = part.place;
    write!(text, "\"depth\":{depth},\"at\":{at},\"value_at\":{place}")
}

/// Returns the place of the header of an object.
fn header_place(part: &Part<'_>) -> usize
    ensures { result ≡ header_place (part_seen part.now) }
{
    let header = part.tag.octets().len() + part.length_field().as_slice().len();
    part.place.saturating_sub(header)
}

/// Appends that an object is constructed, or the octets of its value.
fn push_value_member(text: &mut String, part: &Part<'_>) -> Result<(), AllocError>
    ensures { OnOk result (string_bytes text.new
        ≡ string_bytes text.old ++ value_member (part_seen part.now)) }
{
    if part.tag.is_constructed() {
        text.push_str(",\"constructed\":true")
    } else {
        text.push_str(",\"value\":\"")?;
        push_hex(text, part.value)?;
        text.push_str("\"")
    }
}

/// Appends the rows of objects: their number, and each object.
fn push_forest(to: &mut Rows, parts: &[Part<'_>], taken: usize) -> Result<(), AllocError>
    ensures { OnOk result (to.new
        ≡ with_rows to.old (parts_rows (map part_seen parts.now) taken)) }
{
    let place = Place::Range(0, taken);
    to.push_number("objects ", parts.len(), &NoNote, &place)?;
    push_parts(to, parts)
}

/// Appends a row for each object.
fn push_parts(to: &mut Rows, parts: &[Part<'_>]) -> Result<(), AllocError>
    ensures { OnOk result (to.new
        ≡ with_rows to.old (object_rows (map part_seen parts.now))) }
{
    for part in parts {
        push_part(to, part)?;
    }
    Ok(())
}

/// Appends the row of an object, from its tag to the end of its value.
fn push_part(to: &mut Rows, part: &Part<'_>) -> Result<(), AllocError>
    ensures { OnOk result (to.new ≡ with_row to.old (part_row (part_seen part.now))) }
{
    let end = part.place.checked_add(part.value.len()).ok_or(AllocError)?;
    push_placed(to, part, &Place::Range(header_place(part), end))
}

/// Appends the row of an object at this place.
fn push_placed(to: &mut Rows, part: &Part<'_>, place: &Place<'_>) -> Result<(), AllocError>
    ensures { OnOk result (to.new ≡ with_row to.old (placed_row (part_seen part.now)
        (ranges_of place.now))) }
{
    to.push(&PartLine { part }, part, place)
}

/// The line of an object, after two spaces for each depth above 1: its tag, its length field and its value.
#[derive(Clone, Copy)]
struct PartLine<'p, 'a> {
    part: &'p Part<'a>,
}

impl RowLine for PartLine<'_, '_> {
    ghost line = { λ l. part_line (part_seen l.part.now) };

    fn push_to(&self, text: &mut String) -> Result<(), AllocError> {
        push_indent(text, self.part.depth)?;
        push_hex(text, self.part.tag.octets())?;
        text.push_str(" ")?;
        push_hex(text, self.part.length_field().as_slice())?;
        text.push_str(" ")?;
        push_value(text, self.part)
    }
}

/// Appends two spaces for each depth above 1.
fn push_indent(text: &mut String, depth: usize) -> Result<(), AllocError>
    ensures { OnOk result (string_bytes text.new
        ≡ string_bytes text.old ++ repeat (depth - 1) (codes "  ")) }
{
    let mut left = depth.saturating_sub(1);
    while left > 0 {
        text.push_str("  ")?;
        left -= 1;
    }
    Ok(())
}

/// Appends the octets of a value, or that it is constructed.
fn push_value(text: &mut String, part: &Part<'_>) -> Result<(), AllocError>
    ensures { OnOk result (string_bytes text.new
        ≡ string_bytes text.old ++ value_text (part_seen part.now)) }
{
    if part.tag.is_constructed() {
        text.push_str("constructed")
    } else {
        push_word(text, part.value)
    }
}
