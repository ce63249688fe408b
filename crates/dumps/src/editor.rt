//! Rows as editors and debuggers write them: HxD and PowerShell under a heading, gdb after an address.

ghost use Rattle.std.specs.Prelude.{◌≡◌, ◌≤◌, ℕ, List, length, option_map, IfOk};
ghost use Rattle.dumps.specs.Characters.{joined_to};
ghost use Rattle.dumps.specs.Editor.{addressed, after_address, after_column, after_more, after_symbol, characters, after_close, is_close, begins_label, begins_path, has_columns, has_numbers, is_more, is_title, may_show, tab_octet, tabbed};

use crate::base::Base;
use crate::text::{offset, pair, shown};
use std::alloc::AllocError;

/// Whether a line is one of a heading, after its blanks: one of HxD or PowerShell, or PowerShell's line about its
/// input.
pub(crate) fn is_title(line: &[u8]) -> bool
    ensures { result ≡ is_title line.now }
{
    has_numbers(line) || has_columns(line) || begins_path(line) || begins_label(line)
}

/// Whether a line numbers the octets of a row, as HxD or PowerShell writes it.
fn has_numbers(line: &[u8]) -> bool
    ensures { result ≡ has_numbers line.now }
{
    line == "Offset(h) 00 01 02 03 04 05 06 07 08 09 0A 0B 0C 0D 0E 0F".as_bytes()
        || line == "00 01 02 03 04 05 06 07 08 09 0A 0B 0C 0D 0E 0F".as_bytes()
}

/// Whether a line names the columns of PowerShell, or is the rule under them.
fn has_columns(line: &[u8]) -> bool
    ensures { result ≡ has_columns line.now }
{
    line == "Offset Bytes                                           Ascii".as_bytes()
        || line == "------ ----------------------------------------------- -----".as_bytes()
}

fn begins_path(line: &[u8]) -> bool
    ensures { result ≡ begins_path line.now }
{
    matches!(line, [b'P', b'a', b't', b'h', b':', ..])
}

fn begins_label(line: &[u8]) -> bool
    ensures { result ≡ begins_label line.now }
{
    matches!(line, [b'L', b'a', b'b', b'e', b'l', b':', ..])
}

/// Returns how many characters in UTF-8 a text has.
pub(crate) fn characters(text: &[u8]) -> usize
    ensures count { result ≡ characters text.now }
    ensures most { result ≤ length text.now }
{
    let mut count = 0;
    let mut rest = text;
    while let [x, after @ ..] = rest {
        if !is_more(*x) {
            count += 1;
        }
        rest = after;
    }
    count
}

/// Whether an octet of UTF-8 continues a character.
fn is_more(x: u8) -> bool
    ensures { result ≡ is_more x }
{
    matches!(x, 0x80..=0xBF)
}

/// Returns the text after the octets in front of it that continue a character.
fn after_more(text: &[u8]) -> &[u8]
    ensures { result.now ≡ after_more text.now }
{
    let mut rest = text;
    while let [x, after @ ..] = rest {
        if !is_more(*x) {
            break;
        }
        rest = after;
    }
    rest
}

/// Whether a character that begins with `x` shows an octet: itself, a full stop, or any character beyond ASCII.
fn may_show(octet: u8, x: u8) -> bool
    ensures { result ≡ may_show octet x }
{
    x == shown(octet) || (x >= 0xC0 && !matches!(octet, b' '..=b'~'))
}

/// Returns the text after the characters that show these octets, if it begins with them.
pub(crate) fn after_column<'a>(octets: &[u8], text: &'a [u8]) -> Option<&'a [u8]>
    ensures { option_map (λ rest. rest.now) result ≡ after_column octets.now text.now }
{
    let mut left = octets;
    let mut rest = text;
    while let [octet, more @ ..] = left {
        match rest {
            [x, after @ ..] if may_show(*octet, *x) => rest = after_more(after),
            _ => return None,
        }
        left = more;
    }
    Some(rest)
}

/// Returns the address that gdb writes before a row, with or without a symbol, and the text after its `:`.
pub(crate) fn addressed(line: &[u8]) -> Option<(usize, &[u8])>
    ensures { option_map (λ row. (row.0, row.1.now)) result ≡ addressed line.now }
{
    match line {
        [b'0', b'x' | b'X', row @ ..] => {
            let (at, rest) = offset(Base::Hexadecimal, row);
            after_address(at, after_symbol(rest))
        }
        _ => None,
    }
}

/// Returns an address and the text after the `:` that it begins with.
fn after_address(at: usize, text: &[u8]) -> Option<(usize, &[u8])>
    ensures { option_map (λ row. (row.0, row.1.now)) result ≡ after_address at text.now }
{
    match text {
        [b':', after @ ..] => Some((at, after)),
        _ => None,
    }
}

/// Returns the text after a symbol between ` <` and `>`, if it begins with one.
fn after_symbol(text: &[u8]) -> &[u8]
    ensures { result.now ≡ after_symbol text.now }
{
    match text {
        [b' ', b'<', after @ ..] => after_close(after),
        _ => text,
    }
}

/// Returns the text after the `>` that ends a symbol, empty if there is none.
fn after_close(text: &[u8]) -> &[u8]
    ensures { result.now ≡ after_close text.now }
{
    let mut rest = text;
    while let [_, after @ ..] = rest {
        if is_close(rest) {
            return after;
        }
        rest = after;
    }
    rest
}

/// Whether a text begins with `>`, `:` and a tab.
fn is_close(text: &[u8]) -> bool
    ensures { result ≡ is_close text.now }
{
    matches!(text, [b'>', b':', b'\t', ..])
}

/// Appends the octets in front of a text, each after a tab and `0x`. Returns the text after them.
pub(crate) fn push_tabbed<'a>(octets: &mut Vec<u8>, text: &'a [u8]) -> Result<&'a [u8], AllocError>
    ensures { IfOk result (λ rest. (octets.new.items, rest.now)
        ≡ joined_to octets.old.items (tabbed text.now)) }
{
    let mut rest = text;
    while let Some((octet, after)) = tab_octet(rest) {
        octets.push(octet)?;
        rest = after;
    }
    Ok(rest)
}

/// Returns the octet after a tab and `0x`, and the text after it.
fn tab_octet(text: &[u8]) -> Option<(u8, &[u8])>
    ensures { option_map (λ s. (s.0, s.1.now)) result ≡ tab_octet text.now }
{
    match text {
        [b'\t', b'0', b'x', x, y, after @ ..] => octet_and(pair(*x, *y), after),
        _ => None,
    }
}

/// Returns an octet, if there is one, and the text after it.
fn octet_and(octet: Option<u8>, after: &[u8]) -> Option<(u8, &[u8])>
    ensures { option_map (λ s. (s.0, s.1.now)) result
        ≡ option_map {U = ℕ × List ℕ} (λ o. (o, after.now)) octet }
{
    match octet {
        Some(octet) => Some((octet, after)),
        None => None,
    }
}
