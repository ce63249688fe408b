//! The rows of a value, and what is rendered of them.

ghost use Rattle.std.specs.Prelude.{◌≡◌, ◌++◌, [], IfOk, OnOk, decimal, string_bytes};
ghost use Rattle.answer_json.specs.Notes.{with_note};
ghost use Rattle.notes.specs.Noted.{marked, where_noted};
ghost use Rattle.program_octets.specs.Places.{ranges_of};
ghost use Rattle.program_octets.specs.Rows.{line_text, row, sheet, with_row};
ghost use Rattle.program_octets.specs.Texts.{octets_text};

use crate::places::{Place, push_place};
use crate::row_lines::{NumberLine, RowLine, WordLine};
use answer_json::push_note;
use layouts::Layout;
use notes::{LineNote, MARK};
use std::alloc::{AllocError, Global};
use std::marker::Model;

/// The initial capacity of a text in octets.
const ROOM: usize = 512;

/// The rows of a value that were pushed, as lines or as the items of two members. Contracts see the texts.
#[derive(Drop)]
pub(crate) struct Rows {
    alloc: Global,
    layout: Layout,
    noted: bool,
    /// The lines, or the items of `places`.
    text: String,
    /// The items of `notes`.
    notes: String,
    /// The line of a row, if it goes into `notes`.
    line: String,
    /// The note on the last row.
    note: String,
}

impl Model for Rows {
    ghost use Rattle.std.specs.Prelude.{string_bytes};
    ghost use Rattle.program_octets.specs.Rows.{Sheet, sheet};

    ghost Value = { Sheet };

    ghost view = { λ r. sheet r.layout r.noted (string_bytes r.text) (string_bytes r.notes) };
}

impl Rows {
    /// Starts without a row. The rows have notes if they are `noted`.
    pub(crate) fn new(alloc: Global, layout: Layout, noted: bool) -> Result<Rows, AllocError>
        ensures { IfOk result (λ rows. rows ≡ sheet layout noted [] []) }
    {
        Ok(Rows {
            alloc,
            layout,
            noted,
            text: String::with_capacity(alloc, ROOM)?,
            notes: String::new(alloc),
            line: String::new(alloc),
            note: String::new(alloc),
        })
    }

    /// Appends a row: its line, the note on it, and the octets that it is about.
    pub(crate) fn push<L: RowLine, N: LineNote>(
        &mut self,
        line: &L,
        note: &N,
        place: &Place<'_>,
    ) -> Result<(), AllocError>
        ensures { OnOk result (self.new
            ≡ with_row self.old (row (L.line line.now) (N.note note.now) (ranges_of place.now))) }
    {
        match self.layout {
            Layout::Lines => push_line(&mut self.text, &mut self.note, self.noted, line, note),
            Layout::Json => {
                push_place(self.alloc, &mut self.text, place)?;
                if self.noted {
                    self.push_item(line, note)
                } else {
                    Ok(())
                }
            }
        }
    }

    /// Appends a row whose line has octets as a word, after this text.
    pub(crate) fn push_word<N: LineNote>(
        &mut self,
        front: &str,
        octets: &[u8],
        note: &N,
        place: &Place<'_>,
    ) -> Result<(), AllocError>
        ensures { OnOk result (self.new ≡ with_row self.old
            (row (front.now ++ octets_text octets.now)
            (N.note note.now) (ranges_of place.now))) }
    {
        self.push(&WordLine { front, octets }, note, place)
    }

    /// Appends a row whose line has a number, after this text.
    pub(crate) fn push_number<N: LineNote>(
        &mut self,
        front: &str,
        number: usize,
        note: &N,
        place: &Place<'_>,
    ) -> Result<(), AllocError>
        ensures { OnOk result (self.new ≡ with_row self.old (row (front.now ++ decimal number)
            (N.note note.now) (ranges_of place.now))) }
    {
        self.push(&NumberLine { front, number }, note, place)
    }

    /// Appends a line and its note to the items of `notes`, if it has one.
    fn push_item<L: RowLine, N: LineNote>(&mut self, line: &L, note: &N) -> Result<(), AllocError>
        ensures { OnOk result (self.new ≡ sheet self.old.layout self.old.noted self.old.text
            (with_note self.old.notes (L.line line.now) (N.note note.now))) }
    {
        self.line.clear();
        line.push_to(&mut self.line)?;
        self.note.clear();
        note.push_to(&mut self.note)?;
        push_note(
            self.alloc,
            &mut self.notes,
            self.line.as_bytes(),
            self.note.as_bytes(),
        )
    }

    /// Returns the lines of the rows.
    pub(crate) fn into_lines(self) -> String
        ensures { string_bytes result ≡ self.text }
    {
        self.text
    }

    /// Returns the items of `places`.
    pub(crate) fn places(&self) -> &str
        ensures { result.now ≡ self.now.text }
    {
        self.text.as_str()
    }

    /// Returns the items of `notes`.
    pub(crate) fn notes(&self) -> &str
        ensures { result.now ≡ self.now.notes }
    {
        self.notes.as_str()
    }
}

/// Appends a line with its end and, if it is `noted`, with its note. The note is made in the text `words`.
fn push_line<L: RowLine, N: LineNote>(
    text: &mut String,
    words: &mut String,
    noted: bool,
    line: &L,
    note: &N,
) -> Result<(), AllocError>
    ensures { OnOk result (string_bytes text.new ≡ string_bytes text.old
        ++ line_text (L.line line.now) (where_noted noted (N.note note.now))) }
{
    line.push_to(text)?;
    if noted {
        words.clear();
        note.push_to(words)?;
        push_marked(text, words.as_str())?;
    }
    text.push_str("\n")
}

/// Appends a note, unless it is empty.
fn push_marked(text: &mut String, note: &str) -> Result<(), AllocError>
    ensures { OnOk result (string_bytes text.new ≡ string_bytes text.old ++ marked note.now) }
{
    if note.is_empty() {
        return Ok(());
    }
    text.push_str(MARK)?;
    text.push_str(note)
}
