//! The drawing as a picture in SVG.

ghost use Rattle.std.specs.Prelude.{◌≡◌, ◌*◌, ◌++◌, IfOk, OnOk};
ghost use Rattle.drawings.specs.Picture as picture;
ghost use Rattle.drawings.specs.Picture.{picture_text};

use crate::labels::{push, push_decimal};
use crate::ladder::version_words;
use crate::row::{Course, Row};
use crate::rows::rows;
use block_core::Side;
use exchange_text::{Exchange, Version};
use std::alloc::{AllocError, Global};

/// The height of a row, in units of the picture.
const ROW: usize = 24;

/// Where the first row begins.
const TOP: usize = 36;

/// What comes before the height of the picture.
const OPEN: &str = r#"<svg xmlns="http://www.w3.org/2000/svg" role="img" width="860" height=""#;

/// What comes after the height: the style of the picture, dark if the browser is, and both sides.
static STYLE: &str = r#"">
<title>A recorded exchange between terminal and card</title>
<style>
svg { background: #fff; color: #222; font: 12px monospace; }
text { fill: currentColor; white-space: pre; }
path { fill: none; stroke: currentColor; }
.number, .card { text-anchor: end; }
.middle { text-anchor: middle; }
.lost { stroke: #c00; }
@media (prefers-color-scheme: dark) { svg { background: #111; color: #ddd; } .lost { stroke: #f66; } }
</style>
<text class="middle" x="80" y="18">terminal</text>
<text class="middle" x="780" y="18">card</text>
<text class="middle" x="430" y="18">"#;

/// What comes after the version, before the length of the terminal's line.
const LINES: &str = r#"</text>
<path d="M80 26v"#;

/// What comes between the two lengths.
const CARD_LINE: &str = "M780 26v";

/// What comes after the two lengths.
const LINES_END: &str = "\"/>\n";

/// What comes before and after the position of a row.
const ROW_OPEN: &str = r#"<g transform="translate(0 "#;

const ROW_AT: &str = r#")">"#;

const ROW_END: &str = "</g>\n";

/// What comes before and after the number of a block.
const NUMBER_OPEN: &str = r#"<text class="number" x="68" y="16">"#;

const TEXT_END: &str = "</text>";

/// What comes before a label at a side, and in the middle.
const AT_TERMINAL: &str = r#"<text x="92" y="14">"#;

const AT_CARD: &str = r#"<text class="card" x="768" y="14">"#;

const IN_MIDDLE: &str = r#"<text class="middle" x="430" y="14">"#;

/// The arrows.
const TO_CARD: &str = r#"<path d="M80 19H780m-7-4 7 4-7 4"/>"#;

const LOST_TO_CARD: &str = r#"<path class="lost" d="M80 19H640m-5-5 10 10m0-10-10 10"/>"#;

/// The arrows of a block that nobody saw.
const ADDED_TO_CARD: &str =
    r#"<path class="lost" stroke-dasharray="2 4" d="M80 19H640m-5-5 10 10m0-10-10 10"/>"#;

const TO_TERMINAL: &str = r#"<path d="M780 19H80m7-4-7 4 7 4"/>"#;

const LOST_TO_TERMINAL: &str = r#"<path class="lost" d="M780 19H220m-5-5 10 10m0-10-10 10"/>"#;

const ADDED_TO_TERMINAL: &str =
    r#"<path class="lost" stroke-dasharray="2 4" d="M780 19H220m-5-5 10 10m0-10-10 10"/>"#;

/// The end of the picture.
const CLOSE: &str = "</svg>\n";

/// Draws a recorded exchange as one SVG document, with the same rows as the text. Each label is text.
///
/// It has no script, and the browser's setting decides whether it is dark or light. In labels `<`, `>` and `&` are
/// escaped as SVG needs it.
pub fn draw_picture(alloc: Global, exchange: &Exchange) -> Result<Vec<u8>, AllocError>
    ensures { IfOk result (λ text. text.items ≡ picture_text exchange.now) }
{
    let rows = rows(alloc, exchange)?;
    let height = height_of(rows.len())?;
    let mut text = Vec::new(alloc);
    push_picture(
        alloc,
        &mut text,
        exchange.version(),
        height,
        rows.as_slice(),
    )?;
    Ok(text)
}

/// Appends the picture of rows of this height.
fn push_picture(
    alloc: Global,
    text: &mut Vec<u8>,
    version: Version,
    height: usize,
    rows: &[Row],
) -> Result<(), AllocError>
    ensures { OnOk result (text.new.items
        ≡ text.old.items ++ picture.rows_picture version height rows.now) }
{
    push_head(alloc, text, version, height)?;
    push_rows(alloc, text, rows)?;
    push(text, CLOSE)
}

/// Returns the height of so many rows, or `Err` if that is too large for memory.
fn height_of(count: usize) -> Result<usize, AllocError>
    ensures { IfOk result (λ height. height ≡ count * picture.row_height) }
{
    count.checked_mul(ROW).ok_or(AllocError)
}

/// Appends what comes before rows of this height.
fn push_head(
    alloc: Global,
    text: &mut Vec<u8>,
    version: Version,
    height: usize,
) -> Result<(), AllocError>
    ensures { OnOk result (text.new.items ≡ text.old.items ++ picture.head_text version height) }
{
    push_open(alloc, text, height)?;
    push(text, version_words(version))?;
    push_lines(alloc, text, height)
}

/// Appends the beginning of the picture.
#[tactic(auto, unfolding(crate::specs::Picture::open_text))]
fn push_open(alloc: Global, text: &mut Vec<u8>, height: usize) -> Result<(), AllocError>
    ensures { OnOk result (text.new.items ≡ text.old.items ++ picture.open_text height) }
{
    let whole = height.checked_add(TOP).ok_or(AllocError)?;
    push_enclosed(alloc, text, before_height(), whole, style())
}

/// Returns what comes before the height of the picture.
#[tactic(auto, unfolding(crate::specs::Picture::before_height))]
fn before_height() -> &'static str
    ensures { result.now ≡ picture.before_height }
{
    OPEN
}

/// Returns what comes after the height of the picture.
#[tactic(auto, unfolding(crate::specs::Picture::style_text))]
fn style() -> &'static str
    ensures { result.now ≡ picture.style_text }
{
    STYLE
}

/// Appends the vertical lines of both sides, of this length.
#[tactic(auto, unfolding(crate::specs::Picture::lines_text))]
fn push_lines(alloc: Global, text: &mut Vec<u8>, len: usize) -> Result<(), AllocError>
    ensures { OnOk result (text.new.items ≡ text.old.items ++ picture.lines_text len) }
{
    push_enclosed(alloc, text, LINES, len, "")?;
    push_enclosed(alloc, text, CARD_LINE, len, LINES_END)
}

/// Appends each row, below the row before.
fn push_rows(alloc: Global, text: &mut Vec<u8>, rows: &[Row]) -> Result<(), AllocError>
    ensures { OnOk result (text.new.items
        ≡ text.old.items ++ picture.rows_text picture.first_row rows.now) }
{
    let mut top = TOP;
    for row in rows {
        push_row(alloc, text, top, row)?;
        top = top.checked_add(ROW).ok_or(AllocError)?;
    }
    Ok(())
}

/// Appends a row that begins at this height.
fn push_row(alloc: Global, text: &mut Vec<u8>, top: usize, row: &Row) -> Result<(), AllocError>
    ensures { OnOk result (text.new.items ≡ text.old.items ++ picture.row_text top row.now) }
{
    push_enclosed(alloc, text, ROW_OPEN, top, ROW_AT)?;
    push_parts(alloc, text, row)?;
    push(text, ROW_END)
}

/// Appends the content of a row.
fn push_parts(alloc: Global, text: &mut Vec<u8>, row: &Row) -> Result<(), AllocError>
    ensures { OnOk result (text.new.items ≡ text.old.items ++ picture.parts_text row.now) }
{
    match row {
        Row::Said { side, label } => push_label(text, at_side(*side), label.get()),
        Row::Between { label } => push_label(text, IN_MIDDLE, label.get()),
        Row::Block {
            number,
            from,
            course,
            label,
        } => {
            push_number(alloc, text, *number)?;
            push(text, arrow(*from, *course))?;
            push_label(text, at_side(*from), label.get())
        }
    }
}

/// Appends the number of a block.
#[tactic(auto, unfolding(crate::specs::Picture::number_text))]
fn push_number(alloc: Global, text: &mut Vec<u8>, number: usize) -> Result<(), AllocError>
    ensures { OnOk result (text.new.items ≡ text.old.items ++ picture.number_text number) }
{
    push_enclosed(alloc, text, NUMBER_OPEN, number, TEXT_END)
}

/// Returns what comes before a label at a side.
fn at_side(side: Side) -> &'static str
    ensures { result.now ≡ picture.at_side side }
{
    match side {
        Side::Terminal => AT_TERMINAL,
        Side::Card => AT_CARD,
    }
}

/// Returns the arrow of a block from a side.
fn arrow(from: Side, course: Course) -> &'static str
    ensures { result.now ≡ picture.arrow from course }
{
    match (from, course) {
        (Side::Terminal, Course::Arrives) => TO_CARD,
        (Side::Terminal, Course::Lost) => LOST_TO_CARD,
        (Side::Terminal, Course::Added) => ADDED_TO_CARD,
        (Side::Card, Course::Arrives) => TO_TERMINAL,
        (Side::Card, Course::Lost) => LOST_TO_TERMINAL,
        (Side::Card, Course::Added) => ADDED_TO_TERMINAL,
    }
}

/// Appends a label as text.
fn push_label(text: &mut Vec<u8>, before: &str, label: &[u8]) -> Result<(), AllocError>
    ensures { OnOk result (text.new.items
        ≡ text.old.items ++ picture.label_text before.now label.now) }
{
    push(text, before)?;
    push_escaped(text, label)?;
    push(text, TEXT_END)
}

/// Appends characters as SVG needs them.
fn push_escaped(text: &mut Vec<u8>, label: &[u8]) -> Result<(), AllocError>
    ensures { OnOk result (text.new.items ≡ text.old.items ++ picture.escaped label.now) }
{
    for octet in label {
        push_character(text, *octet)?;
    }
    Ok(())
}

fn push_character(text: &mut Vec<u8>, character: u8) -> Result<(), AllocError>
    ensures { OnOk result (text.new.items ≡ text.old.items ++ picture.escape character) }
{
    match character {
        b'&' => push(text, "&amp;"),
        b'<' => push(text, "&lt;"),
        b'>' => push(text, "&gt;"),
        _ => Ok(text.push(character)?),
    }
}

/// Appends a number in decimal digits, with a text before it and one after.
fn push_enclosed(
    alloc: Global,
    text: &mut Vec<u8>,
    before: &str,
    number: usize,
    after: &str,
) -> Result<(), AllocError>
    ensures { OnOk result (text.new.items
        ≡ text.old.items ++ picture.enclosed before.now number after.now) }
{
    push(text, before)?;
    push_decimal(alloc, text, number as u64)?;
    push(text, after)
}
