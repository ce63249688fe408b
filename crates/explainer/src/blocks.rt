//! The note on blocks that the lists of a session name and that were never sent.

ghost use Rattle.std.specs.Prelude.{◌≡◌, [], None, Some, nat_lt, IfOk, OnOk, string_bytes};
ghost use Rattle.std.specs.List.{list_any};
ghost use Rattle.explainer.specs.Notes.{next_shown, run_text, unsent_shown, with_run, AreUnsentNotes, IsUnsentNote};

use program_words::{BlockNumbers, Session};
use std::alloc::{AllocError, Global};

/// The first and the last number of a range.
type Run = (u64, u64);

/// The most characters of block numbers that are shown. The rest is left out.
const SHOWN: usize = 60;

/// Returns the explanation of a session in which this many blocks were sent. For each list that names blocks above that
/// number, it gives these. It is empty if no list does.
pub fn unsent_note(alloc: Global, session: &Session, sent: usize) -> Result<String, AllocError>
    ensures { IfOk result (λ note. AreUnsentNotes session.now sent (string_bytes note)) }
{
    let lost = list_note(alloc, "--lose", &session.lost, sent)?;
    let damaged = list_note(alloc, "--damage", &session.damaged, sent)?;
    let spoilt = list_note(alloc, "--spoil", &session.spoilt, sent)?;
    format!(in alloc; "{lost}{damaged}{spoilt}")
}

/// Returns the note on the blocks of a list that were never sent, if it names any.
fn list_note(
    alloc: Global,
    option: &str,
    blocks: &BlockNumbers,
    sent: usize,
) -> Result<String, AllocError>
    ensures { IfOk result (λ note. IsUnsentNote option.now blocks.now sent (string_bytes note)) }
{
    if !names_unsent(blocks.get(), sent) {
        return Ok(String::new(alloc));
    }
    let numbers = unsent_numbers(alloc, blocks.get(), sent)?;
    format!(in alloc;
        "{option} names blocks that were never sent: {numbers}; blocks sent: {sent}\n"
    )
}

/// Whether a list names a block above this number.
fn names_unsent(blocks: &[u64], sent: usize) -> bool
    ensures { result ≡ list_any (λ number. nat_lt sent number) blocks.now }
{
    blocks.iter().any(|number| (sent as u64) < *number)
}

/// Returns the numbers above this one, in their order. Consecutive numbers become a range.
fn unsent_numbers(alloc: Global, blocks: &[u64], sent: usize) -> Result<String, AllocError>
    ensures { IfOk result (λ text. string_bytes text ≡ unsent_shown sent blocks.now [] None) }
{
    let mut text = String::new(alloc);
    let mut run = None;
    for number in blocks {
        if *number <= sent as u64 {
            continue;
        }
        run = Some(next_run(alloc, &mut text, run, *number)?);
        if text.len() > SHOWN {
            text.push_str(",..")?;
            return Ok(text);
        }
    }
    if let Some((first, last)) = run {
        push_run(alloc, &mut text, first, last)?;
    }
    Ok(text)
}

/// Extends the range by a number that follows it. Otherwise writes the range, and begins another.
fn next_run(
    alloc: Global,
    text: &mut String,
    run: Option<Run>,
    number: u64,
) -> Result<Run, AllocError>
    ensures { IfOk result (λ next. (string_bytes text.new, Some next)
        ≡ next_shown number (string_bytes text.old) run) }
{
    let Some((first, last)) = run else {
        return Ok((number, number));
    };
    if number.checked_sub(1) == Some(last) {
        return Ok((first, number));
    }
    push_run(alloc, text, first, last)?;
    Ok((number, number))
}

/// Appends one number or a range.
fn push_run(alloc: Global, text: &mut String, first: u64, last: u64) -> Result<(), AllocError>
    ensures { OnOk result (string_bytes text.new ≡ with_run (string_bytes text.old) first last) }
{
    if !text.is_empty() {
        text.push_str(",")?;
    }
    let run = run_text(alloc, first, last)?;
    text.push_str(run.as_str())
}

fn run_text(alloc: Global, first: u64, last: u64) -> Result<String, AllocError>
    ensures { IfOk result (λ text. string_bytes text ≡ run_text first last) }
{
    if first == last {
        format!(in alloc; "{first}")
    } else {
        format!(in alloc; "{first}-{last}")
    }
}
