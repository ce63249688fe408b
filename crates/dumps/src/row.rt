//! A row of a dump, after its offset.

ghost use Rattle.std.specs.Prelude.{◌≡◌, ◌-◌, [], false, true, length, take, option_map, IfOk};
ghost use Rattle.dumps.specs.Dump.{after_two_blanks, field_end, fielded, halves, has_column, is_bare, is_marked, is_row, is_shown, row_groups, row_of, style_of, IsRow};
ghost use Rattle.dumps.specs.Characters.{groups};
ghost use Rattle.dumps.specs.Editor.{characters};

use crate::editor::{after_column, characters, push_tabbed};
use crate::fault::DumpFault;
use crate::text::{after_blanks, after_shown, push_groups};
use std::alloc::AllocError;

/// The length of the columns of 16 octets, with the blank after them, in characters.
const FIELD: usize = 48;

/// The fewest digits of an offset of `od`.
pub(crate) const DIGITS_OF_OD: usize = 6;

/// The program that writes a row.
#[derive(Clone, Copy)]
pub(crate) enum Style {
    /// `00000000: 3b80 8001 01                             ;....`, as xxd writes it.
    Xxd,
    /// `00000000  3b 80 80 01 01                                    |;....|`, as `hexdump -C` writes it.
    Hexdump,
    /// `000000 3b 80 80 01 01`, as `od -Ax -tx1` writes it, or with `>;....<` at the end.
    Od,
    /// `0000  3b 80 80 01 01                                    ;....`, as Wireshark writes it with two or three
    /// blanks after the offset, or without the characters.
    Wireshark,
    /// ` 3b 80 80 01 01`, as `od -An -tx1` writes it, or with `>;....<` at the end.
    Bare,
    /// `00000000  3B 80 80 01 01                                   ;€€..`, as HxD and PowerShell write it.
    Editor,
    /// `0x555555558010 <atr>:`, and octets such as `0x3b` after tabs, as `x/16xb` of gdb writes it.
    Gdb,
}

/// Returns the program that writes this text after an offset with this many digits, and the text after its blanks.
pub(crate) fn style_of(digits: usize, text: &[u8]) -> Option<(Style, &[u8])>
    ensures { option_map (λ row. (row.0, row.1.now)) result ≡ style_of digits text.now }
{
    match text {
        [b':', b' ', row @ ..] if digits >= 8 => Some((Style::Xxd, row)),
        [b' ', b' ', row @ ..] => Some(after_two_blanks(digits, row)),
        [_] => None,
        [b' ', row @ ..] if digits >= DIGITS_OF_OD => Some((Style::Od, row)),
        _ => None,
    }
}

/// Returns the program for a text after an offset and two blanks. A third blank, or an offset with fewer digits, makes
/// it a row of Wireshark instead of `hexdump`.
fn after_two_blanks(digits: usize, text: &[u8]) -> (Style, &[u8])
    ensures { (result.0, result.1.now) ≡ after_two_blanks digits text.now }
{
    match text {
        [b' ', row @ ..] => (Style::Wireshark, row),
        _ if digits >= 8 => (Style::Hexdump, text),
        _ => (Style::Wireshark, text),
    }
}

/// Replaces the octets by those of a row.
pub(crate) fn read_row(row: &mut Vec<u8>, style: Style, text: &[u8]) -> Result<(), DumpFault>
    ensures { IsRow (row_of style text.now) row.new.items result }
{
    row.clear();
    let rest = push_row(row, style, text)?;
    if is_row(style, row, rest) {
        Ok(())
    } else {
        Err(DumpFault::Form)
    }
}

/// Appends the octets of a row to an empty vector. Returns the text after them and one blank.
pub(crate) fn push_row<'a>(
    row: &mut Vec<u8>,
    style: Style,
    text: &'a [u8],
) -> Result<&'a [u8], AllocError>
    requires { row.old.items ≡ [] }
    ensures { IfOk result (λ rest. (row.new.items, rest.now) ≡ row_groups style text.now) }
{
    match style {
        Style::Xxd => push_groups(row, text, true, true),
        Style::Od | Style::Wireshark | Style::Bare => push_groups(row, text, false, true),
        Style::Editor => push_field(row, text),
        Style::Hexdump => push_halves(row, text),
        Style::Gdb => push_tabbed(row, text),
    }
}

/// Appends the octets of a row in two halves of eight octets. Returns the text after them.
fn push_halves<'a>(row: &mut Vec<u8>, text: &'a [u8]) -> Result<&'a [u8], AllocError>
    requires { row.old.items ≡ [] }
    ensures { IfOk result (λ rest.
        (row.new.items, rest.now) ≡ halves (groups false true text.now)) }
{
    let rest = push_groups(row, text, false, true)?;
    if row.len() == 8 {
        return push_groups(row, rest, false, false);
    }
    Ok(rest)
}

/// Appends the octets of a row with 16 columns for octets, of which the unused ones are blank. Returns the text after
/// them.
fn push_field<'a>(row: &mut Vec<u8>, text: &'a [u8]) -> Result<&'a [u8], AllocError>
    requires { row.old.items ≡ [] }
    ensures { IfOk result (λ rest. (row.new.items, rest.now)
        ≡ fielded text.now (groups false true (take (field_end text.now) text.now))) }
{
    let (field, column) = text.split_at(text.len().min(FIELD));
    let rest = push_groups(row, field, false, true)?;
    if after_blanks(rest).is_empty() {
        return Ok(column);
    }
    row.clear();
    Ok(text)
}

/// Whether there are octets, and the column that shows them.
fn is_row(style: Style, octets: &[u8], text: &[u8]) -> bool
    ensures { result ≡ is_row style (octets.now, text.now) }
{
    !octets.is_empty() && has_column(style, octets, text)
}

/// Whether the column that shows the octets comes after them. `od` and Wireshark may leave it out.
fn has_column(style: Style, octets: &[u8], text: &[u8]) -> bool
    ensures { result ≡ has_column style octets.now text.now }
{
    match style {
        Style::Xxd => is_bare(octets, text),
        Style::Hexdump => text.starts_with(b" ")
            && is_marked(b'|', b'|', octets, after_blanks(text)),
        Style::Od | Style::Bare => {
            text.is_empty()
                || text.starts_with(b" ") && is_marked(b'>', b'<', octets, after_blanks(text))
        }
        Style::Wireshark => after_blanks(text).is_empty() || is_bare(octets, text),
        Style::Editor => is_shown(octets, text),
        Style::Gdb => text.is_empty(),
    }
}

/// Whether the text is blanks, and then one character for each octet.
fn is_bare(octets: &[u8], text: &[u8]) -> bool
    ensures { result ≡ is_bare (length text.now - length octets.now) octets.now text.now }
{
    let pad = text.len().saturating_sub(octets.len());
    let (blanks, column) = text.split_at(pad);
    pad >= 1 && after_blanks(blanks).is_empty() && matches!(after_shown(octets, column), Some([]))
}

/// Whether the text is blanks, and then one character in UTF-8 for each octet.
fn is_shown(octets: &[u8], text: &[u8]) -> bool
    ensures { result ≡ is_shown (characters text.now - length octets.now) octets.now text.now }
{
    let pad = characters(text).saturating_sub(octets.len());
    let (blanks, column) = text.split_at(pad);
    after_blanks(blanks).is_empty() && matches!(after_column(octets, column), Some([]))
}

/// Whether the text is a mark, one character for each octet, and a mark.
fn is_marked(first: u8, last: u8, octets: &[u8], text: &[u8]) -> bool
    ensures { result ≡ is_marked first last octets.now text.now }
{
    match text {
        [x, column @ ..] => {
            *x == first && matches!(after_shown(octets, column), Some([y]) if *y == last)
        }
        [] => false,
    }
}
