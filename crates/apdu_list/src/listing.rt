//! The text, line by line.

ghost use Rattle.std.specs.Prelude.{◌≡◌, ◌+◌, ◌<◌, ◌^◌, ◌++◌, IfOk, OnOk, decimal, string_bytes};
ghost use Rattle.apdu_list.specs.Listing as listing;
ghost use Rattle.apdu_list.specs.Listing.{apdus_text};

use crate::account::{Account, Begun};
use crate::numbers::Numbers;
use crate::span::Span;
use exchange_text::{Exchange, Line, Name, push_message};
use std::alloc::{AllocError, Global};

/// The word instead of an answer, if the file ends or the next command comes before one.
pub(crate) const OPEN: &str = "open";

/// The word for no blocks, and for an unknown time.
const NONE: &str = "none";

/// Returns a line for each command of a recorded exchange, with its outcome.
///
/// `exchange N command OCTETS answer ANSWER blocks N lost LIST damaged LIST time TIME`
///
/// - The first N is the number of the command, from 1. OCTETS are as in the file.
/// - ANSWER is OCTETS, `given-up`, `dead`, or `open` if no such line comes before the next command or the end.
/// - The second N says how many blocks were sent for the command.
/// - LIST has the numbers of the lost or damaged blocks, with commas between them, or is `none`.
/// - Blocks are counted from 1 over the whole file, in order.
/// - TIME is in microseconds, or `none` without two moments.
/// - It begins at the last moment before the command, or the first after it.
/// - It ends at the last moment before the end of the exchange.
pub fn list_apdus(alloc: Global, exchange: &Exchange) -> Result<Vec<u8>, AllocError>
    ensures { IfOk result (λ text. text.items ≡ apdus_text exchange.now.lines) }
{
    let mut text = String::new(alloc);
    push_lines(alloc, &mut text, exchange.lines().get())?;
    Ok(text.into_bytes())
}

/// Appends the text of lines.
fn push_lines(alloc: Global, text: &mut String, lines: &[Line]) -> Result<(), AllocError>
    ensures { OnOk result (string_bytes text.new ≡ string_bytes text.old ++ apdus_text lines.now) }
{
    let mut account = Account::new();
    for line in lines {
        push_line(alloc, text, &account, line)?;
        account = account.after(alloc, line)?;
    }
    push_word(alloc, text, &account, OPEN)
}

/// Appends what a line adds to the text.
fn push_line(
    alloc: Global,
    text: &mut String,
    account: &Account,
    line: &Line,
) -> Result<(), AllocError>
    requires { account.now.commands + 1 < 2 ^ 64 }
    ensures { OnOk result (string_bytes text.new
        ≡ string_bytes text.old ++ listing.told account.now line.now) }
{
    match line {
        Line::Command(octets) => {
            push_word(alloc, text, account, OPEN)?;
            push_command(alloc, text, account.commands + 1, octets.get())
        }
        Line::Answer(octets) => push_answer(alloc, text, account, octets.get()),
        Line::GivenUp => push_word(alloc, text, account, Name::GivenUp.word()),
        Line::Dead => push_word(alloc, text, account, Name::Dead.word()),
        _ => Ok(()),
    }
}

/// Appends the beginning of a line: its number and the command.
fn push_command(
    alloc: Global,
    text: &mut String,
    number: usize,
    octets: &[u8],
) -> Result<(), AllocError>
    ensures { OnOk result (string_bytes text.new
        ≡ string_bytes text.old ++ listing.command_text number octets.now) }
{
    text.push_str("exchange ")?;
    push_number(alloc, text, number)?;
    text.push_str(" ")?;
    push_message(alloc, text, Name::Command, octets)
}

/// Appends the rest of the line that is begun, if any, with octets for its answer.
fn push_answer(
    alloc: Global,
    text: &mut String,
    account: &Account,
    octets: &[u8],
) -> Result<(), AllocError>
    ensures { OnOk result (string_bytes text.new
        ≡ string_bytes text.old ++ listing.answer_text account.now octets.now) }
{
    match &account.begun {
        Some(begun) => {
            text.push_str(" ")?;
            push_message(alloc, text, Name::Answer, octets)?;
            push_rest(alloc, text, account, begun)
        }
        None => Ok(()),
    }
}

/// Appends the rest of the line that is begun, if any, with a word instead of an answer.
fn push_word(
    alloc: Global,
    text: &mut String,
    account: &Account,
    word: &str,
) -> Result<(), AllocError>
    ensures { OnOk result (string_bytes text.new
        ≡ string_bytes text.old ++ listing.end_text account.now word.now) }
{
    match &account.begun {
        Some(begun) => {
            text.push_str(" ")?;
            text.push_str(Name::Answer.word())?;
            text.push_str(" ")?;
            text.push_str(word)?;
            push_rest(alloc, text, account, begun)
        }
        None => Ok(()),
    }
}

/// Appends what comes after an answer: the blocks and the time.
fn push_rest(
    alloc: Global,
    text: &mut String,
    account: &Account,
    begun: &Begun,
) -> Result<(), AllocError>
    ensures { OnOk result (string_bytes text.new
        ≡ string_bytes text.old ++ listing.rest_text account.now begun.now) }
{
    push_blocks(alloc, text, account, begun)?;
    text.push_str(" time ")?;
    push_time(alloc, text, account.span, NONE)?;
    text.push_str("\n")
}

/// Appends how many blocks were sent, and which of them were lost or damaged.
fn push_blocks(
    alloc: Global,
    text: &mut String,
    account: &Account,
    begun: &Begun,
) -> Result<(), AllocError>
    ensures { OnOk result (string_bytes text.new
        ≡ string_bytes text.old ++ listing.blocks_text account.now begun.now) }
{
    text.push_str(" blocks ")?;
    push_number(alloc, text, account.sent.saturating_sub(begun.before))?;
    text.push_str(" lost ")?;
    push_numbers(alloc, text, &begun.lost, NONE)?;
    text.push_str(" damaged ")?;
    push_numbers(alloc, text, &begun.damaged, NONE)
}

/// Appends numbers with commas between them, or a word if there are none.
pub(crate) fn push_numbers(
    alloc: Global,
    text: &mut String,
    numbers: &Numbers,
    none: &str,
) -> Result<(), AllocError>
    ensures { OnOk result (string_bytes text.new
        ≡ string_bytes text.old ++ listing.numbers_or none.now numbers.now) }
{
    match numbers.get() {
        [] => text.push_str(none),
        [first, more @ ..] => {
            push_number(alloc, text, *first)?;
            push_more(alloc, text, more)
        }
    }
}

/// Appends numbers, each with a comma before it.
fn push_more(alloc: Global, text: &mut String, numbers: &[usize]) -> Result<(), AllocError>
    ensures { OnOk result (string_bytes text.new
        ≡ string_bytes text.old ++ listing.more_text numbers.now) }
{
    for number in numbers {
        text.push_str(",")?;
        push_number(alloc, text, *number)?;
    }
    Ok(())
}

/// Appends a number in decimal digits.
fn push_number(alloc: Global, text: &mut String, number: usize) -> Result<(), AllocError>
    ensures { OnOk result (string_bytes text.new ≡ string_bytes text.old ++ decimal number) }
{
    text.push_str(format!(in alloc; "{number}")?.as_str())
}

/// Appends how many microseconds a span has, or a word if that is unknown.
pub(crate) fn push_time(
    alloc: Global,
    text: &mut String,
    span: Span,
    none: &str,
) -> Result<(), AllocError>
    ensures { OnOk result (string_bytes text.new
        ≡ string_bytes text.old ++ listing.time_or none.now span) }
{
    match span {
        Span::Between(first, last) => {
            let time = last.saturating_sub(first);
            text.push_str(format!(in alloc; "{time}")?.as_str())
        }
        Span::Unknown | Span::Since(_) => text.push_str(none),
    }
}
