//! A line with a note.

ghost use Rattle.std.specs.Prelude.{◌≡◌, ◌==◌, ◌++◌, not, IfOk, OnOk};
ghost use Rattle.std.specs.List.{list_all};
ghost use Rattle.notes.specs.Noted.{kept, marked, noted_line};

use octet_core::Octets;
use std::alloc::{AllocError, Global};

/// What separates a line from its note.
pub const MARK: &str = "  # ";

/// Returns a line with words as a note before its end. There is no note if there are no words, or if they have a line
/// end.
pub fn noted_line(alloc: Global, line: &[u8], words: &str) -> Result<Octets, AllocError>
    ensures { IfOk result (λ text. text ≡ noted_line line.now words.now) }
{
    let end = line.len().saturating_sub(1);
    let mut text = Vec::new(alloc);
    text.extend_from_slice(&line[..end])?;
    push_octets(&mut text, kept(words).as_bytes())?;
    text.extend_from_slice(&line[end..])?;
    Ok(Octets::of(text))
}

/// Returns words if they have no line end, and none otherwise.
pub fn kept(words: &str) -> &str
    ensures { result.now ≡ kept words.now }
{
    if is_line(words.as_bytes()) { words } else { "" }
}

/// Appends words as a note.
fn push_octets(text: &mut Vec<u8>, words: &[u8]) -> Result<(), AllocError>
    ensures { OnOk result (text.new.items ≡ text.old.items ++ marked words.now) }
{
    if words.is_empty() {
        return Ok(());
    }
    text.extend_from_slice(MARK.as_bytes())?;
    text.extend_from_slice(words)
}

/// Whether words have no line end.
fn is_line(words: &[u8]) -> bool
    ensures { result ≡ list_all (λ x. not (x == 10)) words.now }
{
    words.iter().all(|&octet| octet != b'\n')
}
