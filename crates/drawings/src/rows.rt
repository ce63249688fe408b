//! The rows of a drawing, line by line.

ghost use Rattle.std.specs.Prelude.{◌≡◌, ◌+◌, ◌<◌, ◌^◌, ◌++◌, ◌∷◌, [], false, IfOk, OnOk};
ghost use Rattle.exchange_text.specs.Names.{name_text};
ghost use Rattle.drawings.specs.Rows as drawing;

use crate::labels::{block_label, message_label, moment_label, note_label, word_label};
use crate::row::{Course, Row};
use block_core::Side;
use exchange_text::{Arrival, Exchange, Line, Name};
use std::alloc::{AllocError, Global};

/// Returns the rows of a recorded exchange.
pub(crate) fn rows(alloc: Global, exchange: &Exchange) -> Result<Vec<Row>, AllocError>
    ensures { IfOk result (λ rows. rows.items ≡ drawing.rows_of exchange.now) }
{
    let mut rows = Vec::new(alloc);
    push_message(alloc, &mut rows, Side::Card, "atr", exchange.atr())?;
    push_lines(alloc, &mut rows, exchange.lines().get())?;
    Ok(rows)
}

/// Appends the rows of lines.
fn push_lines(alloc: Global, rows: &mut Vec<Row>, lines: &[Line]) -> Result<(), AllocError>
    ensures { OnOk result (rows.new.items ≡ rows.old.items ++ drawing.rows_from 0 false lines.now) }
{
    let mut sent = 0;
    let mut is_added = false;
    for line in lines {
        push_line(alloc, rows, sent + 1, is_added, line)?;
        sent = sent_after(sent, line);
        is_added = line.is_added();
    }
    Ok(())
}

/// Returns how many blocks are sent after a line.
fn sent_after(sent: usize, line: &Line) -> usize
    requires { sent + 1 < 2 ^ 64 }
    ensures { result ≡ drawing.sent_after sent line.now }
{
    match line {
        Line::FromTerminal { .. } | Line::FromCard { .. } => sent + 1,
        _ => sent,
    }
}

/// Appends the rows of a line. `number` is its number if it is a block, and `is_added` says whether `note added` comes
/// before it.
fn push_line(
    alloc: Global,
    rows: &mut Vec<Row>,
    number: usize,
    is_added: bool,
    line: &Line,
) -> Result<(), AllocError>
    ensures { OnOk result (rows.new.items
        ≡ rows.old.items ++ drawing.line_rows number is_added line.now) }
{
    match line {
        Line::FromTerminal { sent, arrival } => {
            push_block(
                alloc,
                rows,
                number,
                is_added,
                Side::Terminal,
                sent.get(),
                arrival,
            )
        }
        Line::FromCard { sent, arrival } => {
            push_block(
                alloc,
                rows,
                number,
                is_added,
                Side::Card,
                sent.get(),
                arrival,
            )
        }
        Line::Moment(moment) => push_row(
            rows,
            Row::Between {
                label: moment_label(alloc, *moment)?,
            },
        ),
        Line::Note(note) => push_row(
            rows,
            Row::Between {
                label: note_label(alloc, note.get())?,
            },
        ),
        Line::Reply(_) | Line::Time(_) | Line::Ifsc(_) | Line::Asked(_) => push_card(
            alloc, rows, line,
        ),
        _ => push_terminal(alloc, rows, line),
    }
}

/// Appends the row of a call or a result of the terminal's application, and nothing for another line.
fn push_terminal(alloc: Global, rows: &mut Vec<Row>, line: &Line) -> Result<(), AllocError>
    ensures { OnOk result (rows.new.items ≡ rows.old.items ++ drawing.terminal_rows line.now) }
{
    let side = Side::Terminal;
    match line {
        Line::Command(octets) => push_named(alloc, rows, side, Name::Command, octets.get()),
        Line::Ifsd(size) => push_named(alloc, rows, side, Name::Ifsd, &[*size]),
        Line::Answer(octets) => push_named(alloc, rows, side, Name::Answer, octets.get()),
        Line::Quiet => push_word(alloc, rows, side, Name::Quiet),
        Line::IfsSet => push_word(alloc, rows, side, Name::IfsSet),
        Line::GivenUp => push_word(alloc, rows, side, Name::GivenUp),
        Line::Dead => push_word(alloc, rows, side, Name::Dead),
        _ => Ok(()),
    }
}

/// Appends the row of a call or a result of the card's host, and nothing for another line.
fn push_card(alloc: Global, rows: &mut Vec<Row>, line: &Line) -> Result<(), AllocError>
    ensures { OnOk result (rows.new.items ≡ rows.old.items ++ drawing.card_rows line.now) }
{
    let side = Side::Card;
    match line {
        Line::Reply(octets) => push_named(alloc, rows, side, Name::Reply, octets.get()),
        Line::Time(multiple) => push_named(alloc, rows, side, Name::Time, &[*multiple]),
        Line::Ifsc(size) => push_named(alloc, rows, side, Name::Ifsc, &[*size]),
        Line::Asked(octets) => push_named(alloc, rows, side, Name::Asked, octets.get()),
        _ => Ok(()),
    }
}

/// Appends the row of a name alone.
fn push_word(alloc: Global, rows: &mut Vec<Row>, side: Side, name: Name) -> Result<(), AllocError>
    ensures { OnOk result (rows.new.items ≡ rows.old.items ++ drawing.word_rows side name) }
{
    let label = word_label(alloc, name.word())?;
    push_row(rows, Row::Said { side, label })
}

/// Appends the row of a name with octets.
fn push_named(
    alloc: Global,
    rows: &mut Vec<Row>,
    side: Side,
    name: Name,
    octets: &[u8],
) -> Result<(), AllocError>
    ensures { OnOk result (rows.new.items
        ≡ rows.old.items ++ drawing.message_rows side (name_text name) octets.now) }
{
    push_message(alloc, rows, side, name.word(), octets)
}

/// Appends the row of a word with octets.
fn push_message(
    alloc: Global,
    rows: &mut Vec<Row>,
    side: Side,
    word: &str,
    octets: &[u8],
) -> Result<(), AllocError>
    ensures { OnOk result (rows.new.items
        ≡ rows.old.items ++ drawing.message_rows side word.now octets.now) }
{
    let label = message_label(alloc, word, octets)?;
    push_row(rows, Row::Said { side, label })
}

/// Appends the row of a block, and a row of what arrived in its place.
fn push_block(
    alloc: Global,
    rows: &mut Vec<Row>,
    number: usize,
    is_added: bool,
    from: Side,
    sent: &[u8],
    arrival: &Arrival,
) -> Result<(), AllocError>
    ensures { OnOk result (rows.new.items
        ≡ rows.old.items ++ drawing.block_rows number is_added from sent.now arrival.now) }
{
    let label = block_label(alloc, sent, arrival)?;
    let course = course_of(is_added, arrival);
    push_row(
        rows,
        Row::Block {
            number,
            from,
            course,
            label,
        },
    )?;
    push_arrived(alloc, rows, from.other(), arrival)
}

/// Returns the course of a block, from how it arrived and whether `note added` comes before it.
fn course_of(is_added: bool, arrival: &Arrival) -> Course
    ensures { result ≡ drawing.course_of is_added arrival.now }
{
    match arrival {
        Arrival::Lost if is_added => Course::Added,
        Arrival::Lost => Course::Lost,
        Arrival::Whole | Arrival::Changed(_) => Course::Arrives,
    }
}

/// Appends a row of what arrived, if that isn't what was sent.
fn push_arrived(
    alloc: Global,
    rows: &mut Vec<Row>,
    side: Side,
    arrival: &Arrival,
) -> Result<(), AllocError>
    ensures { OnOk result (rows.new.items ≡ rows.old.items
        ++ drawing.arrived_rows side arrival.now) }
{
    match arrival {
        Arrival::Changed(octets) => push_message(alloc, rows, side, "arrives", octets.get()),
        Arrival::Whole | Arrival::Lost => Ok(()),
    }
}

/// Appends a row.
fn push_row(rows: &mut Vec<Row>, row: Row) -> Result<(), AllocError>
    ensures { OnOk result (rows.new.items ≡ rows.old.items ++ row ∷ []) }
{
    rows.push(row)?;
    Ok(())
}
