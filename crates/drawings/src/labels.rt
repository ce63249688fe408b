//! The labels of rows.

ghost use Rattle.std.specs.Prelude.{◌≡◌, ◌++◌, IfOk, OnOk, decimal};
ghost use Rattle.exchange_text.specs.Text.{octets_text};
ghost use Rattle.notes.specs.Says.{said};
ghost use Rattle.drawings.specs.Rows as rows;

use exchange_text::{Arrival, Name};
use notes::{Note, pcb_note};
use octet_core::{Octets, hex_upper};
use std::alloc::{AllocError, Global};

/// The most octets that a row of a side shows.
const WIDE: usize = 40;

/// The most octets that a row of a block shows.
const NARROW: usize = 15;

/// How many fewer are shown if there are more, since their number comes after them.
const FEWER: usize = 8;

/// The most characters of a remark that are shown.
const LONGEST_NOTE: usize = 68;

/// How many fewer are shown of a longer remark, since their number comes after them.
const FEWER_OF_NOTE: usize = 18;

/// Returns a word, and octets after it.
pub(crate) fn message_label(alloc: Global, word: &str, octets: &[u8]) -> Result<Octets, AllocError>
    ensures { IfOk result (λ label. label ≡ rows.message_label word.now octets.now) }
{
    let mut label = Vec::new(alloc);
    push(&mut label, word)?;
    push(&mut label, " ")?;
    push_shown(alloc, &mut label, octets, WIDE)?;
    Ok(Octets::of(label))
}

/// Returns a word alone.
pub(crate) fn word_label(alloc: Global, word: &str) -> Result<Octets, AllocError>
    ensures { IfOk result (λ label. label ≡ word.now) }
{
    let mut label = Vec::new(alloc);
    push(&mut label, word)?;
    Ok(Octets::of(label))
}

/// Returns the label of a moment.
pub(crate) fn moment_label(alloc: Global, moment: u64) -> Result<Octets, AllocError>
    ensures { IfOk result (λ label. label ≡ rows.moment_label moment) }
{
    let mut label = Vec::new(alloc);
    push(&mut label, Name::Moment.word())?;
    push(&mut label, " ")?;
    push_decimal(alloc, &mut label, moment)?;
    Ok(Octets::of(label))
}

/// Returns a remark, or its first characters and how many it has.
pub(crate) fn note_label(alloc: Global, note: &str) -> Result<Octets, AllocError>
    ensures { IfOk result (λ label. label ≡ rows.note_label note.now) }
{
    let mut label = Vec::new(alloc);
    push(&mut label, Name::Note.word())?;
    push(&mut label, " ")?;
    push_cut(alloc, &mut label, note.as_bytes(), LONGEST_NOTE)?;
    Ok(Octets::of(label))
}

/// Appends characters; if there are more than `most`, the first of them and the whole count.
fn push_cut(alloc: Global, label: &mut Vec<u8>, text: &[u8], most: usize) -> Result<(), AllocError>
    ensures { OnOk result (label.new.items ≡ label.old.items ++ rows.cut_text most text.now) }
{
    if text.len() <= most {
        return extend(label, text);
    }
    extend(label, &text[..most.saturating_sub(FEWER_OF_NOTE)])?;
    push_rest(alloc, label, text.len(), " characters")
}

/// Returns what a block says, its octets, and how it arrived.
pub(crate) fn block_label(
    alloc: Global,
    sent: &[u8],
    arrival: &Arrival,
) -> Result<Octets, AllocError>
    ensures { IfOk result (λ label. label ≡ rows.block_label sent.now arrival.now) }
{
    let mut label = Vec::new(alloc);
    push_words(alloc, &mut label, sent)?;
    push(&mut label, "  ")?;
    push_shown(alloc, &mut label, sent, NARROW)?;
    push(&mut label, fate(arrival))?;
    Ok(Octets::of(label))
}

/// Returns how a block arrived, unless it arrived as it was sent.
fn fate(arrival: &Arrival) -> &'static str
    ensures { result.now ≡ rows.fate arrival.now }
{
    match arrival {
        Arrival::Whole => "",
        Arrival::Lost => "  lost",
        Arrival::Changed(_) => "  damaged",
    }
}

/// Appends what a block says by its PCB.
fn push_words(alloc: Global, label: &mut Vec<u8>, sent: &[u8]) -> Result<(), AllocError>
    ensures { OnOk result (label.new.items ≡ label.old.items ++ rows.block_words sent.now) }
{
    if sent.len() < 4 {
        return push_note(alloc, label, Note::of(""));
    }
    push_note(
        alloc,
        label,
        pcb_note(sent[1], field_first(sent[2], sent[3])),
    )
}

/// Returns the first octet of a field of so many octets, or 0 if it has none.
fn field_first(len: u8, first: u8) -> u8
    ensures { result ≡ rows.field_first len first }
{
    if len == 0 { 0 } else { first }
}

/// Appends a note, or `no block` if it has no words.
fn push_note(alloc: Global, label: &mut Vec<u8>, note: Note) -> Result<(), AllocError>
    ensures { OnOk result (label.new.items ≡ label.old.items
        ++ rows.note_words (said note.before.now note.number note.after.now)) }
{
    if note.before.is_empty() {
        return push(label, "no block");
    }
    push(label, note.before)?;
    push_number(alloc, label, note.number)?;
    push(label, note.after)
}

/// Appends a number in decimal digits, if there is one.
fn push_number(alloc: Global, label: &mut Vec<u8>, number: Option<u32>) -> Result<(), AllocError>
    ensures { OnOk result (label.new.items ≡ label.old.items ++ rows.number_text number) }
{
    match number {
        Some(number) => push_decimal(alloc, label, u64::from(number)),
        None => Ok(()),
    }
}

/// Appends octets; if there are more than `most`, the first of them and the whole count.
fn push_shown(
    alloc: Global,
    label: &mut Vec<u8>,
    octets: &[u8],
    most: usize,
) -> Result<(), AllocError>
    ensures { OnOk result (label.new.items ≡ label.old.items ++ rows.shown_octets most octets.now) }
{
    if octets.len() <= most {
        return push_octets(alloc, label, octets);
    }
    push_octets(alloc, label, &octets[..most.saturating_sub(FEWER)])?;
    push_rest(alloc, label, octets.len(), " octets")
}

/// Appends that not everything is shown, and the whole count.
fn push_rest(alloc: Global, label: &mut Vec<u8>, count: usize, what: &str) -> Result<(), AllocError>
    ensures { OnOk result (label.new.items ≡ label.old.items ++ rows.rest_text count what.now) }
{
    push(label, ".. ")?;
    push_decimal(alloc, label, count as u64)?;
    push(label, what)
}

/// Appends octets in hexadecimal, or `none` for no octets.
fn push_octets(alloc: Global, label: &mut Vec<u8>, octets: &[u8]) -> Result<(), AllocError>
    ensures { OnOk result (label.new.items ≡ label.old.items ++ octets_text octets.now) }
{
    if octets.is_empty() {
        push(label, "none")
    } else {
        push(label, hex_upper(alloc, octets)?.as_str())
    }
}

/// Appends a number in decimal digits.
pub(crate) fn push_decimal(alloc: Global, out: &mut Vec<u8>, number: u64) -> Result<(), AllocError>
    ensures { OnOk result (out.new.items ≡ out.old.items ++ decimal number) }
{
    push(out, format!(in alloc; "{number}")?.as_str())
}

/// Appends a text.
pub(crate) fn push(out: &mut Vec<u8>, text: &str) -> Result<(), AllocError>
    ensures { OnOk result (out.new.items ≡ out.old.items ++ text.now) }
{
    extend(out, text.as_bytes())
}

/// Appends octets unchanged.
pub(crate) fn extend(out: &mut Vec<u8>, octets: &[u8]) -> Result<(), AllocError>
    ensures { OnOk result (out.new.items ≡ out.old.items ++ octets.now) }
{
    out.extend_from_slice(octets)
}
