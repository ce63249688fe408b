//! The texts of values, with the notes on their lines.

ghost use Rattle.std.specs.Prelude.{◌≡◌, ◌++◌, ℕ, List, IfOk, OnOk, string_bytes};
ghost use Rattle.program_octets.specs.Codec.{rows_members, said_by};
ghost use Rattle.program_octets.specs.Json.{accepted_members, object_line};
ghost use Rattle.program_octets.specs.Rows.{lines_of, with_rows, Row};
ghost use Rattle.program_octets.specs.Verdicts.{kind_name, laid_out};

use crate::json::{kind_name, push_accepted, push_head, push_notes, push_places};
use crate::rows::Rows;
use layouts::Layout;
use program_words::Kind;
use std::alloc::{AllocError, Global};

/// The initial capacity of a text in octets.
const ROOM: usize = 512;

/// The text of a value.
#[derive(Drop)]
pub struct Shown {
    /// The value's lines, or its JSON object in one line, with notes if it is noted.
    pub text: String,
    /// How many octets the value takes.
    pub taken: usize,
}

/// A value that can be shown row by row, or as members of a JSON object.
pub(crate) trait Showable {
    /// The value's rows, if it takes so many octets.
    ghost rows: { Self → ℕ → List Row };

    /// The value's members of a JSON object. Each begins with a comma.
    ghost members: { Self → List ℕ };

    /// Appends the value's rows, if the value takes `taken` octets.
    fn push_rows(&self, to: &mut Rows, taken: usize) -> Result<(), AllocError>
        ensures { OnOk result (to.new ≡ with_rows to.old (rows self.now taken)) };

    /// Appends the value's members to a text.
    fn push_members(&self, alloc: Global, text: &mut String) -> Result<(), AllocError>
        ensures { OnOk result (string_bytes text.new
            ≡ string_bytes text.old ++ members self.now) };
}

impl Shown {
    /// Returns the text of a value that takes `taken` octets, with notes on its lines if it is `noted`.
    pub(crate) fn of<V: Showable>(
        alloc: Global,
        value: &V,
        taken: usize,
        kind: Kind,
        layout: Layout,
        noted: bool,
    ) -> Result<Shown, AllocError>
        ensures text { IfOk result (λ shown. string_bytes shown.text
            ≡ laid_out layout kind (said_by layout noted (V.rows value.now taken)
            (V.members value.now)) taken) }
        ensures taken { IfOk result (λ shown. shown.taken ≡ taken) }
    {
        let text = match layout {
            Layout::Lines => lines_of(alloc, value, taken, noted)?,
            Layout::Json => object_of(alloc, value, taken, kind, noted)?,
        };
        Ok(Shown { text, taken })
    }
}

/// Returns the lines of a value.
fn lines_of<V: Showable>(
    alloc: Global,
    value: &V,
    taken: usize,
    noted: bool,
) -> Result<String, AllocError>
    ensures { IfOk result (λ text. string_bytes text ≡ lines_of noted (V.rows value.now taken)) }
{
    let mut rows = Rows::new(alloc, Layout::Lines, noted)?;
    value.push_rows(&mut rows, taken)?;
    Ok(rows.into_lines())
}

/// Returns the object of a value in one line.
fn object_of<V: Showable>(
    alloc: Global,
    value: &V,
    taken: usize,
    kind: Kind,
    noted: bool,
) -> Result<String, AllocError>
    ensures { IfOk result (λ text. string_bytes text ≡ object_line (kind_name kind)
        (accepted_members taken
        ++ (V.members value.now ++ rows_members noted (V.rows value.now taken)))) }
{
    let mut text = String::with_capacity(alloc, ROOM)?;
    push_head(&mut text, kind_name(kind))?;
    push_accepted(&mut text, taken)?;
    value.push_members(alloc, &mut text)?;
    push_rows(alloc, &mut text, value, taken, noted)?;
    text.push_str("}\n")?;
    Ok(text)
}

/// Appends the octets of the rows of a value as a member and, if they are `noted`, their notes.
fn push_rows<V: Showable>(
    alloc: Global,
    text: &mut String,
    value: &V,
    taken: usize,
    noted: bool,
) -> Result<(), AllocError>
    ensures { OnOk result (string_bytes text.new ≡ string_bytes text.old
        ++ rows_members noted (V.rows value.now taken)) }
{
    let mut rows = Rows::new(alloc, Layout::Json, noted)?;
    value.push_rows(&mut rows, taken)?;
    push_places(text, rows.places())?;
    if noted {
        push_notes(text, rows.notes())
    } else {
        Ok(())
    }
}
