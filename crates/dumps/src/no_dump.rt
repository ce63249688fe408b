//! The first place where a text isn't a dump.

ghost use Rattle.std.specs.Prelude.{◌≡◌, ◌≤◌, length, IfOk};
ghost use Rattle.dumps.specs.Dump.{begins_with_offset, ended, is_gap, style_of};
ghost use Rattle.dumps.specs.DumpStop.{dump_stop, further, furthest_stop, is_short, is_star, row_left, stop_after, stop_at_end, stop_by, stop_in, stop_or_end, StopsAt};
ghost use Rattle.dumps.specs.Taking.{taken};

use crate::base::Base;
use crate::dump::{dump_octets, is_line_end, start_of};
use crate::fault::DumpFault;
use crate::line::{Dump, FEWEST_DIGITS};
use crate::row::{push_row, style_of};
use crate::text::offset;
use octet_core::{after_blanks, is_blank};
use std::alloc::{AllocError, Global};

/// What is wrong at the first place where a text isn't a dump.
#[derive(Clone, Copy)]
pub enum DumpWrong {
    /// The offset has fewer than four digits.
    Offset,
    /// The offset isn't the number of octets before it, or a line follows the end.
    Place,
    /// A `*` doesn't follow a row of 16 octets.
    Star,
    /// Octets are missing, or the column that shows the octets before.
    Row,
    /// The text ends without the offset that ends a dump, or with too many octets.
    End,
    /// The text ends, and its offsets give other octets in another base.
    TwoWays,
}

/// Returns the first place where a text isn't a dump, and what is wrong there; `None` if it is one. The place is that
/// of the base in which the text can be read furthest.
pub fn dump_stop(alloc: Global, text: &[u8]) -> Result<Option<(usize, DumpWrong)>, AllocError>
    ensures { IfOk result (λ stop. stop ≡ dump_stop text.now) }
{
    match dump_octets(alloc, text) {
        Ok(_) => Ok(None),
        Err(DumpFault::Memory) => Err(AllocError),
        Err(DumpFault::Form) => Ok(Some(furthest_stop(alloc, text)?)),
    }
}

/// Returns the first wrong place of a text that isn't a dump, in the base in which it can be read furthest.
fn furthest_stop(alloc: Global, text: &[u8]) -> Result<(usize, DumpWrong), AllocError>
    ensures { IfOk result (λ stop. stop ≡ furthest_stop text.now) }
{
    let hexadecimal = stop_or_end(alloc, Base::Hexadecimal, text)?;
    let decimal = stop_or_end(alloc, Base::Decimal, text)?;
    let octal = stop_or_end(alloc, Base::Octal, text)?;
    let headed = stop_or_end(alloc, Base::Headed, text)?;
    let of_two = further(hexadecimal, decimal);
    let of_three = further(of_two, octal);
    Ok(further(of_three, headed))
}

/// Returns the later of two places. An offset that is too short in another base doesn't count, since the hexadecimal
/// reading reports it.
fn further(first: (usize, DumpWrong), other: (usize, DumpWrong)) -> (usize, DumpWrong)
    ensures { result ≡ further first other }
{
    if other.0 > first.0 && !is_short(other.1) {
        other
    } else {
        first
    }
}

fn is_short(wrong: DumpWrong) -> bool
    ensures { result ≡ is_short wrong }
{
    matches!(wrong, DumpWrong::Offset)
}

/// Returns the first wrong place of a text with offsets in this base, or its end.
fn stop_or_end(alloc: Global, base: Base, text: &[u8]) -> Result<(usize, DumpWrong), AllocError>
    ensures { IfOk result (λ stop. stop ≡ stop_or_end base text.now) }
{
    match stop_by(alloc, base, text)? {
        Some(stop) => Ok(stop),
        None => Ok((text.len(), DumpWrong::TwoWays)),
    }
}

/// Returns the first wrong place of a text with offsets in this base.
fn stop_by(alloc: Global, base: Base, text: &[u8]) -> Result<Option<(usize, DumpWrong)>, AllocError>
    ensures { IfOk result (λ stop. stop ≡ stop_by base text.now) }
{
    let mut dump = Dump::new(alloc, base, start_of(base, text));
    let mut start = 0;
    for line in text.split(|x| is_line_end(*x)) {
        match stop_at(alloc, &mut dump, line)? {
            Some((column, wrong)) => return Ok(Some((start + column, wrong))),
            None => start += line.len() + 1,
        }
    }
    Ok(stop_at_end(dump, text.len()))
}

/// Takes one more line, or returns the column where it is wrong, and what is wrong there.
fn stop_at(
    alloc: Global,
    dump: &mut Dump,
    line: &[u8],
) -> Result<Option<(usize, DumpWrong)>, AllocError>
    ensures { IfOk result (λ stop. StopsAt (taken dump.old) line.now (taken dump.new) stop) }
{
    let stop = stop_in(alloc, dump, line)?;
    match dump.take(line) {
        Ok(()) => Ok(None),
        Err(DumpFault::Memory) => Err(AllocError),
        Err(DumpFault::Form) => Ok(Some(stop)),
    }
}

/// Whether a text begins like a row, after blanks and empty lines: with an offset, and a blank or a tab after it.
/// Hexadecimal would read such an offset as octets.
pub fn begins_with_offset(text: &[u8]) -> bool
    ensures { result ≡ begins_with_offset text.now }
{
    let row = after_blanks(text);
    let (_, rest) = offset(Base::Hexadecimal, row);
    row.len().saturating_sub(rest.len()) >= FEWEST_DIGITS && is_gap(rest)
}

/// Whether a text begins with a blank or a tab.
fn is_gap(text: &[u8]) -> bool
    ensures { result ≡ is_gap text.now }
{
    matches!(text, [x, ..] if is_blank(*x) && !is_line_end(*x))
}

/// Returns what is wrong at the end of a text, if anything is.
fn stop_at_end(dump: Dump, place: usize) -> Option<(usize, DumpWrong)>
    ensures { result ≡ stop_at_end place (ended (taken dump)) }
{
    match dump.end() {
        Ok(_) => None,
        Err(_) => Some((place, DumpWrong::End)),
    }
}

/// Returns the column of a line that can't continue a dump, and what is wrong there.
fn stop_in(alloc: Global, dump: &Dump, line: &[u8]) -> Result<(usize, DumpWrong), AllocError>
    ensures column { IfOk result (λ stop. stop ≡ stop_in (taken dump.now) line.now) }
    ensures within { IfOk result (λ stop. stop.0 ≤ length line.now) }
{
    if is_star(line) {
        return Ok((0, DumpWrong::Star));
    }
    let (at, text) = offset(dump.base(), line);
    let digits = line.len().saturating_sub(text.len());
    if digits < FEWEST_DIGITS {
        return Ok((digits, DumpWrong::Offset));
    }
    stop_after(alloc, dump, line.len(), digits, at, text)
}

/// Returns what is wrong after an offset with this many digits, and the column.
fn stop_after(
    alloc: Global,
    dump: &Dump,
    characters: usize,
    digits: usize,
    at: usize,
    text: &[u8],
) -> Result<(usize, DumpWrong), AllocError>
    requires { 4 ≤ digits }
    ensures column { IfOk result (λ stop. stop
        ≡ stop_after (taken dump.now) characters digits (at, text.now)) }
    ensures within { IfOk result (λ stop. stop.0 ≤ characters) }
{
    if !dump.reaches(at) {
        return Ok((0, DumpWrong::Place));
    }
    let left = row_left(alloc, digits, text)?;
    Ok((characters.saturating_sub(left), DumpWrong::Row))
}

/// Whether a line is only `*`.
fn is_star(line: &[u8]) -> bool
    ensures { result ≡ is_star line.now }
{
    matches!(line, [b'*'])
}

/// Returns how many characters are left after the octets of a row. If no program's row has this text after its offset,
/// it is all of them.
fn row_left(alloc: Global, digits: usize, text: &[u8]) -> Result<usize, AllocError>
    ensures { IfOk result (λ left. left ≡ row_left (length text.now) (style_of digits text.now)) }
{
    match style_of(digits, text) {
        Some((style, row)) => {
            let mut octets = Vec::new(alloc);
            let rest = push_row(&mut octets, style, row)?;
            Ok(rest.len())
        }
        None => Ok(text.len()),
    }
}
