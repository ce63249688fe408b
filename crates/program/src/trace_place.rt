//! Where the lines of a file are in the trace that it was recorded from.

ghost use Rattle.std.specs.Prelude.{◌≡◌, ◌++◌, ◌+◌, ◌<◌, ◌^◌, OnOk, decimal, false, string_bytes, take};
ghost use Rattle.program.specs.TracePlaces.{after_text, has_added, is_placed, is_seen, place_text, seen_after, seen_over, trace_place};

use exchange_core::Line;
use std::alloc::{AllocError, Global};

/// The number of lines in a file before those of its exchange.
const LINES_BEFORE: usize = 2;

/// Appends which block of the trace the line with this number is, or after which block it comes. Appends nothing for a
/// file without `note added`.
pub(crate) fn push_place(
    alloc: Global,
    text: &mut String,
    lines: &[Line],
    number: usize,
) -> Result<(), AllocError>
    ensures { OnOk result (string_bytes text.new ≡ string_bytes text.old
        ++ trace_place lines.now number) }
{
    if !is_placed(lines, number) {
        return Ok(());
    }
    let before = blocks_seen(front(lines, number.saturating_sub(LINES_BEFORE + 1)));
    let through = blocks_seen(front(lines, number.saturating_sub(LINES_BEFORE)));
    push_between(alloc, text, before, through)
}

/// Whether a file was recorded from a trace and the line comes after that of its answer to reset.
fn is_placed(lines: &[Line], number: usize) -> bool
    ensures { result ≡ is_placed lines.now number }
{
    number > LINES_BEFORE && has_added(lines)
}

fn has_added(lines: &[Line]) -> bool
    ensures { result ≡ has_added lines.now }
{
    for line in lines {
        if line.is_added() {
            return true;
        }
    }
    false
}

/// Appends the place of a line, by how many blocks of the trace come before it and how many there are up to its end.
fn push_between(
    alloc: Global,
    text: &mut String,
    before: usize,
    through: usize,
) -> Result<(), AllocError>
    ensures { OnOk result (string_bytes text.new ≡ string_bytes text.old
        ++ place_text before through) }
{
    if before < through {
        push_numbered(alloc, text, "; in the trace it is block ", through)
    } else {
        push_after(alloc, text, before)
    }
}

/// Appends the place of a line that isn't a block of the trace.
fn push_after(alloc: Global, text: &mut String, before: usize) -> Result<(), AllocError>
    ensures { OnOk result (string_bytes text.new ≡ string_bytes text.old ++ after_text before) }
{
    if before == 0 {
        text.push_str("; in the trace it comes before block 1")
    } else {
        push_numbered(alloc, text, "; in the trace it comes after block ", before)
    }
}

/// Appends words and the number of a block.
fn push_numbered(
    alloc: Global,
    text: &mut String,
    words: &str,
    number: usize,
) -> Result<(), AllocError>
    ensures { OnOk result (string_bytes text.new ≡ string_bytes text.old
        ++ (words.now ++ decimal number)) }
{
    text.push_str(words)?;
    text.push_str(format!(in alloc; "{number}")?.as_str())
}

/// Returns the first lines, or all if there are fewer.
fn front(lines: &[Line], count: usize) -> &[Line]
    ensures { result.now ≡ take count lines.now }
{
    if count < lines.len() {
        &lines[..count]
    } else {
        lines
    }
}

/// Returns how many blocks of the trace these lines have.
fn blocks_seen(lines: &[Line]) -> usize
    ensures { result ≡ seen_over 0 false lines.now }
{
    let mut seen = 0;
    let mut added = false;
    for line in lines {
        seen = seen_after(added, seen, line);
        added = line.is_added();
    }
    seen
}

/// Returns the number of blocks after one more line. `added` is whether the line before it is `note added`.
fn seen_after(added: bool, seen: usize, line: &Line) -> usize
    requires { seen + 1 < 2 ^ 64 }
    ensures { result ≡ seen_after added seen line.now }
{
    if is_seen(added, line) { seen + 1 } else { seen }
}

/// Whether a line has a block of the trace.
fn is_seen(added: bool, line: &Line) -> bool
    ensures { result ≡ is_seen added line.now }
{
    match line {
        Line::FromTerminal { .. } | Line::FromCard { .. } => !added,
        _ => false,
    }
}
