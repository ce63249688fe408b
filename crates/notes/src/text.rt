//! Octets as text, and numbers of octets.

ghost use Rattle.std.specs.Prelude.{◌≡◌, ◌++◌, true, false, IfOk, MatchOption, OnOk, string_bytes};
ghost use Rattle.std.specs.List.{list_all};
ghost use Rattle.notes.specs.Says.{count_note, counted, is_printable, is_text, text_note};

use std::alloc::{AllocError, Global};

/// The most characters of a value that a note shows.
const LONGEST_TEXT: usize = 40;

/// Appends octets between quotation marks, if they are text.
pub(crate) fn push_quoted(text: &mut String, octets: &[u8]) -> Result<(), AllocError>
    ensures { OnOk result (string_bytes text.new ≡ string_bytes text.old
        ++ text_note octets.now) }
{
    match as_text(octets) {
        Some(words) => write!(text, "\"{words}\""),
        None => Ok(()),
    }
}

/// Returns octets as text, if there are 1 to 40 and all are printable.
pub(crate) fn as_text(octets: &[u8]) -> Option<&str>
    ensures { MatchOption result (is_text octets.now ≡ false)
        (λ words. (is_text octets.now ≡ true) × (words.now ≡ octets.now)) }
{
    if !is_text(octets) {
        return None;
    }
    match str::from_utf8(octets) {
        Ok(words) => Some(words),
        Err(_) => None,
    }
}

/// Appends a number of octets in words.
pub(crate) fn push_counted(text: &mut String, count: usize) -> Result<(), AllocError>
    ensures { OnOk result (string_bytes text.new ≡ string_bytes text.old ++ counted count) }
{
    match count {
        1 => text.push_str("1 octet"),
        _ => write!(text, "{count} octets"),
    }
}

/// Appends a number of octets in words, if it isn't 0.
pub(crate) fn push_count(text: &mut String, count: usize) -> Result<(), AllocError>
    ensures { OnOk result (string_bytes text.new ≡ string_bytes text.old ++ count_note count) }
{
    match count {
        0 => Ok(()),
        _ => push_counted(text, count),
    }
}

/// Returns a number of octets in words.
pub(crate) fn octets_counted(alloc: Global, count: usize) -> Result<String, AllocError>
    ensures { IfOk result (λ text. string_bytes text ≡ counted count) }
{
    let mut text = String::new(alloc);
    push_counted(&mut text, count)?;
    Ok(text)
}

/// Whether octets are also shown as text: there are 1 to 40, and all are printable characters, 20 to 7E.
pub fn is_text(octets: &[u8]) -> bool
    ensures { result ≡ is_text octets.now }
{
    let are_printable = are_printable(octets);
    !octets.is_empty() && octets.len() <= LONGEST_TEXT && are_printable
}

fn are_printable(octets: &[u8]) -> bool
    ensures { result ≡ list_all is_printable octets.now }
{
    octets.iter().all(|&octet| is_printable(octet))
}

fn is_printable(octet: u8) -> bool
    ensures { result ≡ is_printable octet }
{
    0x20 <= octet && octet <= 0x7E
}
