//! The drawing as lines of text.

ghost use Rattle.std.specs.Prelude.{◌≡◌, ◌++◌, IfOk, OnOk};
ghost use Rattle.std.specs.List.{repeat};
ghost use Rattle.drawings.specs.Ladder as ladder;
ghost use Rattle.drawings.specs.Ladder.{ladder_text};

use crate::labels::{extend, push};
use crate::row::{Course, Row};
use crate::rows::rows;
use block_core::Side;
use exchange_text::{Exchange, Version};
use std::alloc::{AllocError, Global};

/// How many columns a line has for the number of a block and the blank after it.
const MARGIN: usize = 7;

/// How many columns a line has after them.
const WIDTH: usize = 93;

/// How many columns are before a moment or a remark.
const MIDDLE: usize = 27;

/// How many columns an arrow has around its label, at least.
const AROUND: usize = 8;

/// How many columns are between a side and the version of the file in the first line.
const HALF: usize = 36;

/// Draws a recorded exchange as lines of text, one for each row: the terminal is on the left, the card on the right.
///
/// The first line has both sides, and the version of the file between them. The text of a side is at its edge. The line
/// of a block begins with its number, and has an arrow with its label. If the block is lost, the arrow ends beside the
/// label. Moments and remarks are in the middle.
pub fn draw_ladder(alloc: Global, exchange: &Exchange) -> Result<Vec<u8>, AllocError>
    ensures { IfOk result (λ text. text.items ≡ ladder_text exchange.now) }
{
    let rows = rows(alloc, exchange)?;
    let mut text = Vec::new(alloc);
    push_head(alloc, &mut text, exchange.version())?;
    push_rows(alloc, &mut text, rows.as_slice())?;
    Ok(text)
}

/// Appends the first line.
fn push_head(alloc: Global, text: &mut Vec<u8>, version: Version) -> Result<(), AllocError>
    ensures { OnOk result (text.new.items ≡ text.old.items ++ ladder.head_text version) }
{
    push_many(alloc, text, " ", MARGIN)?;
    push_sides(alloc, text, version_words(version), HALF)
}

/// Appends both sides and the text between them, with so many blanks around it.
fn push_sides(
    alloc: Global,
    text: &mut Vec<u8>,
    between: &str,
    count: usize,
) -> Result<(), AllocError>
    ensures { OnOk result (text.new.items
        ≡ text.old.items ++ ladder.sides_text between.now count) }
{
    push(text, "terminal")?;
    push_many(alloc, text, " ", count)?;
    push(text, between)?;
    push_many(alloc, text, " ", count)?;
    push(text, "card\n")
}

/// Returns the version of a file, as words.
pub(crate) fn version_words(version: Version) -> &'static str
    ensures { result.now ≡ ladder.version_words version }
{
    match version {
        Version::One => "version 1",
        Version::Two => "version 2",
    }
}

/// Appends a line for each row.
fn push_rows(alloc: Global, text: &mut Vec<u8>, rows: &[Row]) -> Result<(), AllocError>
    ensures { OnOk result (text.new.items ≡ text.old.items ++ ladder.rows_text rows.now) }
{
    for row in rows {
        push_row(alloc, text, row)?;
        push(text, "\n")?;
    }
    Ok(())
}

/// Appends the line of a row, without its line feed.
fn push_row(alloc: Global, text: &mut Vec<u8>, row: &Row) -> Result<(), AllocError>
    ensures { OnOk result (text.new.items ≡ text.old.items ++ ladder.row_text row.now) }
{
    match row {
        Row::Said { side, label } => push_said(alloc, text, *side, label.get()),
        Row::Between { label } => push_after(alloc, text, MIDDLE, label.get()),
        Row::Block {
            number,
            from,
            course,
            label,
        } => {
            push_number(alloc, text, *number)?;
            push_arrow(alloc, text, *from, *course, label.get())
        }
    }
}

/// Appends the text of a side.
fn push_said(alloc: Global, text: &mut Vec<u8>, side: Side, label: &[u8]) -> Result<(), AllocError>
    ensures { OnOk result (text.new.items ≡ text.old.items ++ ladder.said_text side label.now) }
{
    push_many(alloc, text, " ", MARGIN)?;
    match side {
        Side::Terminal => extend(text, label),
        Side::Card => push_after(alloc, text, WIDTH.saturating_sub(label.len()), label),
    }
}

/// Appends a label after so many blanks.
fn push_after(
    alloc: Global,
    text: &mut Vec<u8>,
    count: usize,
    label: &[u8],
) -> Result<(), AllocError>
    ensures { OnOk result (text.new.items ≡ text.old.items ++ ladder.after count label.now) }
{
    push_many(alloc, text, " ", count)?;
    extend(text, label)
}

/// Appends the number of a block, right-aligned in its columns.
fn push_number(alloc: Global, text: &mut Vec<u8>, number: usize) -> Result<(), AllocError>
    ensures { OnOk result (text.new.items ≡ text.old.items ++ ladder.number_text number) }
{
    let digits = format!(in alloc; "{number}")?;
    push_many(alloc, text, " ", (MARGIN - 1).saturating_sub(digits.len()))?;
    push(text, digits.as_str())?;
    push(text, " ")
}

/// Appends an arrow with a label.
fn push_arrow(
    alloc: Global,
    text: &mut Vec<u8>,
    from: Side,
    course: Course,
    label: &[u8],
) -> Result<(), AllocError>
    ensures { OnOk result (text.new.items
        ≡ text.old.items ++ ladder.arrow_text from course label.now) }
{
    match from {
        Side::Terminal => {
            push(text, "|")?;
            push(text, shaft(course))?;
            push(text, " ")?;
            extend(text, label)?;
            push_to_card(alloc, text, course, label.len())
        }
        Side::Card => {
            push_to_terminal(alloc, text, course, label.len())?;
            extend(text, label)?;
            push(text, " ")?;
            push(text, shaft(course))?;
            push(text, "|")
        }
    }
}

/// Returns the beginning of an arrow, with dots if nobody saw the block.
fn shaft(course: Course) -> &'static str
    ensures { result.now ≡ ladder.shaft course }
{
    match course {
        Course::Arrives | Course::Lost => "--",
        Course::Added => "..",
    }
}

/// Appends what is between a label of so many characters and the card.
fn push_to_card(
    alloc: Global,
    text: &mut Vec<u8>,
    course: Course,
    len: usize,
) -> Result<(), AllocError>
    ensures { OnOk result (text.new.items ≡ text.old.items ++ ladder.to_card course len) }
{
    let left = (WIDTH - AROUND).saturating_sub(len);
    match course {
        Course::Arrives => push_trail(alloc, text, " ", "-", left, "->|"),
        Course::Lost => push_trail(alloc, text, " -x", " ", left, "|"),
        Course::Added => push_trail(alloc, text, " .x", " ", left, "|"),
    }
}

/// Appends what is between the terminal and a label of so many characters.
fn push_to_terminal(
    alloc: Global,
    text: &mut Vec<u8>,
    course: Course,
    len: usize,
) -> Result<(), AllocError>
    ensures { OnOk result (text.new.items ≡ text.old.items ++ ladder.to_terminal course len) }
{
    let left = (WIDTH - AROUND).saturating_sub(len);
    match course {
        Course::Arrives => push_trail(alloc, text, "|<-", "-", left, " "),
        Course::Lost => push_trail(alloc, text, "|", " ", left, "x- "),
        Course::Added => push_trail(alloc, text, "|", " ", left, "x. "),
    }
}

/// Appends a text so many times, with one text before and one after.
fn push_trail(
    alloc: Global,
    text: &mut Vec<u8>,
    before: &str,
    fill: &str,
    count: usize,
    after: &str,
) -> Result<(), AllocError>
    ensures { OnOk result (text.new.items
        ≡ text.old.items ++ ladder.trail before.now fill.now count after.now) }
{
    push(text, before)?;
    push_many(alloc, text, fill, count)?;
    push(text, after)
}

/// Appends a text so many times.
fn push_many(alloc: Global, text: &mut Vec<u8>, part: &str, count: usize) -> Result<(), AllocError>
    ensures { OnOk result (text.new.items ≡ text.old.items ++ repeat count part.now) }
{
    push(text, part.repeat(alloc, count)?.as_str())
}
