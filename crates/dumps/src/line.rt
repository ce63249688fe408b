//! The lines of a dump, one after another.

ghost use Rattle.std.specs.Prelude.{◌≡◌, ◌++◌, [], Some, Ok, Err, IfOk, IfSome, IfNone, option_map};
ghost use Rattle.dumps.specs.Dump.{bare_row, copies, counted, ended, headed_row, is_heading, is_next, is_offset, line_of, nothing_taken, row_after, starred, style_of, up_to, with_address, with_line, with_octets, with_rest, with_row, Becomes, ComesTo};
ghost use Rattle.dumps.specs.DumpStop.{is_reached};
ghost use Rattle.dumps.specs.Taking.{taken};
ghost use Rattle.dumps.specs.declared.fault.DumpFault.TheVariants.{Form};
ghost use Rattle.dumps.specs.declared.line.Before.TheVariants as before;

use crate::base::Base;
use crate::editor::{addressed, is_title};
use crate::fault::DumpFault;
use crate::row::{DIGITS_OF_OD, Style, read_row, style_of};
use crate::text::{after_blanks, offset};
use octet_core::Octets;
use std::alloc::{AllocError, Global};

/// The most octets that an input may have.
const MOST: usize = 4_194_304;

/// The length of a row that a `*` may repeat.
const WHOLE: usize = 16;

/// The fewest digits of an offset.
pub(crate) const FEWEST_DIGITS: usize = 4;

/// The fewest digits of an offset under a heading.
const DIGITS_OF_EDITORS: usize = 8;

/// What the line before was. Empty lines don't count.
#[derive(Clone, Copy)]
pub(crate) enum Before {
    /// There was no line.
    Nothing,
    /// A line of a heading.
    Heading,
    /// A row.
    Row(Style),
    /// A `*`, which stands for rows like the last one.
    Star,
    /// Only an offset, which ends the dump.
    End,
}

/// The result of the lines so far.
#[derive(Drop)]
pub(crate) struct Dump {
    octets: Vec<u8>,
    /// The octets of the last row.
    row: Vec<u8>,
    before: Before,
    /// The base of the offsets.
    base: Base,
    /// The offset at which the dump begins.
    start: usize,
}

impl Dump {
    /// Returns a dump without lines, with offsets in this base from `start` on.
    pub(crate) fn new(alloc: Global, base: Base, start: usize) -> Self
        ensures { taken result ≡ nothing_taken base start }
    {
        Dump {
            octets: Vec::new(alloc),
            row: Vec::new(alloc),
            before: Before::Nothing,
            base,
            start,
        }
    }

    /// Returns the base of the offsets.
    pub(crate) fn base(&self) -> Base
        ensures { result ≡ self.now.base }
    {
        self.base
    }

    /// Whether the dump may continue at this offset: the end of its octets, or after `*` an offset up to which rows
    /// repeat.
    pub(crate) fn reaches(&self, at: usize) -> bool
        ensures { result ≡ is_reached (up_to at self.now.before (taken self.now)) }
    {
        match self.before {
            Before::Star => self.copies_to(at).is_some(),
            Before::End | Before::Row(Style::Bare | Style::Gdb) => false,
            Before::Nothing | Before::Heading | Before::Row(_) => self.is_next(at),
        }
    }

    /// Takes one more line, without its line end. A line that can't continue the dump is `Form`.
    pub(crate) fn take(&mut self, line: &[u8]) -> Result<(), DumpFault>
        ensures { Becomes (with_line (taken self.old) line.now) (taken self.new) result }
    {
        if self.is_heading(line) {
            self.before = Before::Heading;
            return Ok(());
        }
        match line {
            [] => Ok(()),
            [b' ', row @ ..] => self.take_bare(row),
            [b'*'] => self.star(),
            _ => match addressed(line) {
                Some((at, row)) => self.take_gdb(at, row),
                None => self.take_offset(line),
            },
        }
    }

    /// Returns the octets of all lines, if the dump is complete and has no more octets than an input may have.
    pub(crate) fn end(self) -> Result<Octets, DumpFault>
        ensures { result ≡ ended (taken self) }
    {
        if self.octets.len() > MOST {
            return Err(DumpFault::Form);
        }
        match self.before {
            Before::Nothing
            | Before::Heading
            | Before::Row(Style::Xxd | Style::Wireshark | Style::Bare | Style::Editor | Style::Gdb)
            | Before::End => { Ok(Octets::of(self.octets)) }
            Before::Row(_) | Before::Star => Err(DumpFault::Form),
        }
    }

    /// Takes a `*`, which must follow a row of 16 octets.
    fn star(&mut self) -> Result<(), DumpFault>
        ensures { Becomes (starred self.old.before (taken self.old)) (taken self.new) result }
    {
        match self.before {
            Before::Row(Style::Bare | Style::Editor | Style::Gdb) => Err(DumpFault::Form),
            Before::Row(_) if self.row.len() == WHOLE => {
                self.before = Before::Star;
                Ok(())
            }
            _ => Err(DumpFault::Form),
        }
    }

    /// Takes a line that must begin with an offset.
    fn take_offset(&mut self, line: &[u8]) -> Result<(), DumpFault>
        ensures { Becomes (line_of line.now (taken self.old)) (taken self.new) result }
    {
        let (at, text) = offset(self.base, line);
        let digits = line.len().saturating_sub(text.len());
        if !is_offset(digits, text, self.before) {
            return Err(DumpFault::Form);
        }
        self.come_to(at)?;
        self.take_rest(digits, text)
    }

    /// Takes the text after an offset with this many digits: a row, or nothing, which ends the dump.
    fn take_rest(&mut self, digits: usize, text: &[u8]) -> Result<(), DumpFault>
        ensures { Becomes (with_rest (taken self.old) digits text.now) (taken self.new) result }
    {
        if text.is_empty() {
            self.before = Before::End;
            return Ok(());
        }
        let (style, row) = self.row_of(digits, text).ok_or(DumpFault::Form)?;
        self.take_row(style, row)
    }

    /// Moves to an offset. After a `*` the last row is repeated up to it. Otherwise the octets so far must end there.
    fn come_to(&mut self, at: usize) -> Result<(), DumpFault>
        ensures { ComesTo (up_to at self.old.before (taken self.old)) (taken self.old)
            (taken self.new) result }
    {
        let is_there = match self.before {
            Before::Star => return self.repeat(at),
            Before::End | Before::Row(Style::Bare | Style::Gdb) => false,
            Before::Nothing | Before::Heading | Before::Row(_) => self.is_next(at),
        };
        if is_there {
            Ok(())
        } else {
            Err(DumpFault::Form)
        }
    }

    /// Appends one or more copies of the last row, up to an offset.
    fn repeat(&mut self, at: usize) -> Result<(), DumpFault>
        ensures { ComesTo (up_to at before.Star (taken self.old)) (taken self.old) (taken self.new)
            result }
    {
        let Some(count) = self.copies_to(at) else {
            return Err(DumpFault::Form);
        };
        self.copy(count)?;
        Ok(())
    }

    /// Returns how many copies of the last row are missing up to an offset, at least one. `None` if no number of copies
    /// ends there.
    fn copies_to(&self, at: usize) -> Option<usize>
        ensures some { IfSome result (λ count. up_to at before.Star (taken self.now)
            ≡ Ok (self.now.octets.items ++ copies count self.now.row.items)) }
        ensures none { IfNone result (up_to at before.Star (taken self.now) ≡ Err Form) }
    {
        let count = at.saturating_sub(self.start);
        let more = count.saturating_sub(self.octets.len());
        if count > MOST || more == 0 || more % WHOLE != 0 {
            return None;
        }
        Some(more / WHOLE)
    }

    /// Appends this many copies of the last row.
    fn copy(&mut self, count: usize) -> Result<(), AllocError>
        ensures rest { taken self.new ≡ with_octets self.new.octets.items (taken self.old) }
        ensures octets { IfOk result
            (λ _. self.new.octets.items ≡ self.old.octets.items
            ++ copies count self.old.row.items) }
    {
        for done in 0..count {
            let _ = done;
            self.octets.extend_from_slice(&self.row)?;
        }
        Ok(())
    }

    /// Whether the octets so far end at this offset.
    fn is_next(&self, at: usize) -> bool
        ensures { result ≡ is_next at (taken self.now) }
    {
        at >= self.start && at - self.start == self.octets.len()
    }

    /// Whether a line is one of a heading, which comes before all rows.
    fn is_heading(&self, line: &[u8]) -> bool
        ensures { result ≡ is_heading self.now.base self.now.before line.now }
    {
        matches!(self.base, Base::Headed)
            && matches!(self.before, Before::Nothing | Before::Heading)
            && is_title(after_blanks(line))
    }

    /// Returns the program that writes this text after an offset with this many digits, if it writes offsets in this
    /// base.
    fn row_of<'a>(&self, digits: usize, text: &'a [u8]) -> Option<(Style, &'a [u8])>
        ensures { option_map (λ row. (row.0, row.1.now)) result
            ≡ row_after self.now.base digits self.now.before text.now }
    {
        match self.base {
            Base::Headed => headed_row(digits, self.before, text),
            base => counted(base, digits, text),
        }
    }

    /// Takes a row of gdb, which begins with an address.
    fn take_gdb(&mut self, at: usize, text: &[u8]) -> Result<(), DumpFault>
        ensures { Becomes (with_address (Some (at, text.now)) [] (taken self.old))
            (taken self.new) result }
    {
        let may_be = matches!(self.before, Before::Nothing | Before::Row(Style::Gdb));
        if !may_be || !self.is_next(at) {
            return Err(DumpFault::Form);
        }
        self.take_row(Style::Gdb, text)
    }

    /// Takes a row without an offset, after the blank that it begins with.
    fn take_bare(&mut self, text: &[u8]) -> Result<(), DumpFault>
        ensures { Becomes (with_row (taken self.old) (bare_row self.old.before text.now))
            (taken self.new) result }
    {
        match self.before {
            Before::Nothing | Before::Row(Style::Bare) => self.take_row(Style::Bare, text),
            _ => Err(DumpFault::Form),
        }
    }

    /// Takes a row that continues the octets so far.
    fn take_row(&mut self, style: Style, text: &[u8]) -> Result<(), DumpFault>
        ensures { Becomes (with_row (taken self.old) (Some (style, text.now)))
            (taken self.new) result }
    {
        read_row(&mut self.row, style, text)?;
        self.octets.extend_from_slice(&self.row)?;
        self.before = Before::Row(style);
        Ok(())
    }
}

/// Returns the program that writes this text after an offset with this many digits in this base.
fn counted(base: Base, digits: usize, text: &[u8]) -> Option<(Style, &[u8])>
    ensures { option_map (λ row. (row.0, row.1.now)) result
        ≡ counted base digits (style_of digits text.now) }
{
    match style_of(digits, text) {
        Some((style, row)) if base.counts(digits, style) => Some((style, row)),
        _ => None,
    }
}

/// Returns a row under a heading, after its offset and blanks.
fn headed_row(digits: usize, before: Before, text: &[u8]) -> Option<(Style, &[u8])>
    ensures { option_map (λ row. (row.0, row.1.now)) result ≡ headed_row digits before text.now }
{
    match (before, text) {
        (Before::Heading | Before::Row(Style::Editor), [b' ', ..]) if digits >= DIGITS_OF_EDITORS =>
            { Some((Style::Editor, after_blanks(text))) }
        _ => None,
    }
}

/// Whether an offset with this many digits is allowed before this text. An offset alone ends a dump of `od` and
/// `hexdump`, and may not follow a row of Wireshark.
fn is_offset(digits: usize, text: &[u8], before: Before) -> bool
    ensures { result ≡ is_offset digits text.now before }
{
    if !text.is_empty() {
        return digits >= FEWEST_DIGITS;
    }
    match before {
        Before::Row(Style::Wireshark | Style::Editor) => false,
        _ => digits >= DIGITS_OF_OD,
    }
}
