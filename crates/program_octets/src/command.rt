//! What the program prints about a command.

ghost use Rattle.std.specs.Prelude.{◌≡◌, ◌++◌, codes, OnOk, refl, string_bytes};
ghost use Rattle.apdu_core.specs.Command.{CommandParts};
ghost use Rattle.program_octets.specs.CommandTexts.{command_codec, command_members, command_rows, header_row, le_or, le_row, le_size, rows_by, shape_members, shape_text};
ghost use Rattle.program_octets.specs.Places.{ranges_of};
ghost use Rattle.program_octets.specs.Rows.{with_row, with_rows};

use crate::codec::{Codec, Outcome};
use crate::places::Place;
use crate::row_lines::{HexLine, RowLine, TextLine};
use crate::rows::Rows;
use crate::shown::{Showable, Shown};
use crate::text::push_hex;
use apdu_core::{Command, CommandReason, CommandRef, Shape};
use layouts::Layout;
use notes::{HeaderNote, LcNote, NoNote, le_note};
use octet_core::Stop;
use program_words::{Expected, FieldSize};
use std::alloc::{AllocError, Global};

impl Codec for Command {
    type Reason = CommandReason;

    ghost Value = { CommandParts };

    ghost codec = { λ _. command_codec };

    ghost named = { λ _. refl };

    fn taken(_alloc: Global, octets: &[u8], _expected: Expected) -> Outcome<usize, CommandReason> {
        CommandRef::decode(octets)?;
        Ok(octets.len())
    }

    fn shown(
        alloc: Global,
        octets: &[u8],
        expected: Expected,
        layout: Layout,
        noted: bool,
    ) -> Outcome<Shown, CommandReason> {
        let command = CommandRef::decode(octets)?;
        Ok(Shown::of(alloc, &command, octets.len(), expected.kind, layout, noted)?)
    }

    fn refusal_note(
        alloc: Global,
        _octets: &[u8],
        _stop: Stop<CommandReason>,
        _ifs: FieldSize,
    ) -> Result<String, AllocError> {
        Ok(String::new(alloc))
    }
}

impl Showable for CommandRef<'_> {
    ghost rows = { command_rows };

    ghost members = { command_members };

    fn push_rows(&self, to: &mut Rows, taken: usize) -> Result<(), AllocError> {
        let le = taken.saturating_sub(le_size(self.shape()));
        push_command(to, self, le, taken)
    }

    fn push_members(&self, _alloc: Global, text: &mut String) -> Result<(), AllocError> {
        push_members(text, self)
    }
}

/// Appends the rows of a command: its case, its header, its data field and Le, which begins at `le`.
fn push_command(
    to: &mut Rows,
    command: &CommandRef<'_>,
    le: usize,
    taken: usize,
) -> Result<(), AllocError>
    ensures { OnOk result (to.new ≡ with_rows to.old (rows_by command.now le taken)) }
{
    let shape = Place::Range(0, taken);
    let text = shape_name(command.shape());
    to.push(&TextLine { text }, &NoNote, &shape)?;
    push_header(to, command.header())?;
    let part = command.part();
    let lc = LcNote { len: part.len() };
    to.push_word("part ", part, &lc, &Place::Range(4, le))?;
    push_le_row(to, command.le(), &Place::Range(le, taken))
}

/// Appends the row of a header.
fn push_header(to: &mut Rows, header: [u8; 4]) -> Result<(), AllocError>
    ensures { OnOk result (to.new ≡ with_row to.old (header_row header)) }
{
    let line = HexLine {
        front: "header ",
        octets: &header,
    };
    let note = HeaderNote {
        class: header[0],
        instruction: header[1],
    };
    to.push(&line, &note, &Place::Range(0, 4))
}

/// Appends the row of Le.
fn push_le_row(to: &mut Rows, le: Option<u32>, place: &Place<'_>) -> Result<(), AllocError>
    ensures { OnOk result (to.new ≡ with_row to.old (le_row le (ranges_of place.now))) }
{
    to.push(&LeLine { le }, &le_note(le), place)
}

/// The line of Le.
#[derive(Clone, Copy)]
struct LeLine {
    le: Option<u32>,
}

impl RowLine for LeLine {
    ghost line = { λ l. codes "le " ++ le_or (codes "none") l.le };

    fn push_to(&self, text: &mut String) -> Result<(), AllocError> {
        text.push_str("le ")?;
        push_le(text, self.le, "none")
    }
}

/// Appends a command as members of an object.
fn push_members(text: &mut String, command: &CommandRef<'_>) -> Result<(), AllocError>
    ensures { OnOk result (string_bytes text.new
        ≡ string_bytes text.old ++ command_members command.now) }
{
    text.push_str(shape_members(command.shape()))?;
    text.push_str(",\"header\":\"")?;
    push_hex(text, &command.header())?;
    text.push_str("\",\"part\":\"")?;
    push_hex(text, command.part())?;
    text.push_str("\",\"le\":")?;
    push_le(text, command.le(), "null")
}

/// Returns the case of a shape and the kind of its length fields as members.
fn shape_members(shape: Shape) -> &'static str
    ensures { result.now ≡ shape_members shape }
{
    match shape {
        Shape::Empty => ",\"case\":1",
        Shape::ShortLe => ",\"case\":2,\"length\":\"short\"",
        Shape::ShortPart => ",\"case\":3,\"length\":\"short\"",
        Shape::ShortBoth => ",\"case\":4,\"length\":\"short\"",
        Shape::LongLe => ",\"case\":2,\"length\":\"extended\"",
        Shape::LongPart => ",\"case\":3,\"length\":\"extended\"",
        Shape::LongBoth => ",\"case\":4,\"length\":\"extended\"",
    }
}

/// Returns the case of a shape (ISO/IEC 7816-3, clause 12).
fn shape_name(shape: Shape) -> &'static str
    ensures { result.now ≡ shape_text shape }
{
    match shape {
        Shape::Empty => "case 1",
        Shape::ShortLe => "case 2 short",
        Shape::ShortPart => "case 3 short",
        Shape::ShortBoth => "case 4 short",
        Shape::LongLe => "case 2 extended",
        Shape::LongPart => "case 3 extended",
        Shape::LongBoth => "case 4 extended",
    }
}

/// Returns how many octets Le has: with an extended Le alone also the octet 00 before it.
fn le_size(shape: Shape) -> usize
    ensures { result ≡ le_size shape }
{
    match shape {
        Shape::Empty | Shape::ShortPart | Shape::LongPart => 0,
        Shape::ShortLe | Shape::ShortBoth => 1,
        Shape::LongBoth => 2,
        Shape::LongLe => 3,
    }
}

/// Appends Le as a number, or a word if it is absent.
fn push_le(text: &mut String, le: Option<u32>, absent: &str) -> Result<(), AllocError>
    ensures { OnOk result (string_bytes text.new ≡ string_bytes text.old ++ le_or absent.now le) }
{
    match le {
        Some(le) => write!(text, "{le}"),
        None => text.push_str(absent),
    }
}
