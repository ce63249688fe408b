//! Octets as a dump.

ghost use Rattle.std.specs.Prelude.{◌≡◌, IfOk};
ghost use Rattle.dumps.specs.Dump.{agree, dump_octets, first_of_row, given, is_line_end, octets_by, or_from_zero, start_of, UnlessMemory};

use crate::base::Base;
use crate::editor::addressed;
use crate::fault::DumpFault;
use crate::line::Dump;
use crate::row::{Style, style_of};
use crate::text::offset;
use octet_core::{Octets, after_blanks};
use std::alloc::{AllocError, Global};

/// The first offset of a dump must be below this.
const STARTS_BELOW: usize = 281_474_976_710_656;

/// Returns the octets of a dump as `xxd`, `hexdump -C`, `od -tx1`, Wireshark, gdb, HxD or PowerShell writes it. The
/// offsets of `od` may be hexadecimal, octal or decimal, or absent. Those of `xxd` may be hexadecimal or decimal, and
/// may begin at any number. `od` may have `z`, and Wireshark may leave out the characters.
///
/// A text is `Form` if it isn't such a dump, or not all of it is, or if its offsets give other octets in another base.
pub fn dump_octets(alloc: Global, text: &[u8]) -> Result<Octets, DumpFault>
    ensures { UnlessMemory result (dump_octets text.now) }
{
    let hexadecimal = reading(alloc, Base::Hexadecimal, text)?;
    let decimal = reading(alloc, Base::Decimal, text)?;
    let octal = reading(alloc, Base::Octal, text)?;
    let headed = reading(alloc, Base::Headed, text)?;
    let two = agree(hexadecimal, decimal)?;
    let three = agree(two, octal)?;
    let all = agree(three, headed)?;
    all.ok_or(DumpFault::Form)
}

/// Returns the octets of a text with offsets in this base, if it is a dump.
fn reading(alloc: Global, base: Base, text: &[u8]) -> Result<Option<Octets>, AllocError>
    ensures { IfOk result (λ octets. octets ≡ given (octets_by base text.now)) }
{
    match octets_by(alloc, base, text) {
        Ok(octets) => Ok(Some(octets)),
        Err(DumpFault::Form) => Ok(None),
        Err(DumpFault::Memory) => Err(AllocError),
    }
}

/// Returns the octets of a text with offsets in this base.
fn octets_by(alloc: Global, base: Base, text: &[u8]) -> Result<Octets, DumpFault>
    ensures { UnlessMemory result (octets_by base text.now) }
{
    let mut dump = Dump::new(alloc, base, start_of(base, text));
    for line in text.split(|x| is_line_end(*x)) {
        dump.take(line)?;
    }
    dump.end()
}

/// Returns the offset that the dump begins at: that of the first row if `xxd` or gdb writes it, else 0.
pub(crate) fn start_of(base: Base, text: &[u8]) -> usize
    ensures { result ≡ start_of base text.now }
{
    let row = after_blanks(text);
    match addressed(row) {
        Some((at, _)) => or_from_zero(at),
        None => first_of_row(base, row),
    }
}

/// Returns the offset of a row, if `xxd` writes it, else 0.
fn first_of_row(base: Base, row: &[u8]) -> usize
    ensures { result ≡ first_of_row base row.now }
{
    let (at, rest) = offset(base, row);
    match style_of(row.len().saturating_sub(rest.len()), rest) {
        Some((Style::Xxd, _)) => or_from_zero(at),
        _ => 0,
    }
}

fn or_from_zero(at: usize) -> usize
    ensures { result ≡ or_from_zero at }
{
    if at < STARTS_BELOW { at } else { 0 }
}

/// Returns the octets of two readings: those of the one that gives any, or of both if they agree. If both give octets
/// and differ, the text is `Form`.
fn agree(first: Option<Octets>, second: Option<Octets>) -> Result<Option<Octets>, DumpFault>
    ensures { result ≡ agree first second }
{
    match (first, second) {
        (Some(octets), Some(others)) => {
            if octets == others {
                Ok(Some(octets))
            } else {
                Err(DumpFault::Form)
            }
        }
        (Some(octets), None) => Ok(Some(octets)),
        (None, other) => Ok(other),
    }
}

/// Whether a character ends a line: LF or CR.
pub(crate) fn is_line_end(x: u8) -> bool
    ensures { result ≡ is_line_end x }
{
    matches!(x, b'\n' | b'\r')
}
