//! The items of a JSON array, line by line.

ghost use Rattle.std.specs.Prelude.{◌≡◌, [], IfOk, OnOk, codes, string_bytes};
ghost use Rattle.apdu_list.specs.Items as listed;
ghost use Rattle.apdu_list.specs.Listing as listing;
ghost use Rattle.apdu_list.specs.Items.{apdu_items};

use crate::account::{Account, Begun};
use crate::listing::{OPEN, push_numbers, push_time};
use crate::numbers::Numbers;
use crate::span::Span;
use exchange_text::{Exchange, Line, Name};
use layouts::Members;
use octet_core::hex_upper;
use std::alloc::{AllocError, Global};

/// Returns an object for each command of a recorded exchange, with its outcome. The objects are the items of a JSON
/// array, with a comma between two.
///
/// `{"answer":"ANSWER","blocks":N,"command":"OCTETS","damaged":[LIST],"exchange":N,"lost":[LIST],"time":TIME}`
///
/// The members have the values of a line of [`list_apdus`](crate::list_apdus). An empty string stands for no octets, an
/// empty array for no blocks, and `null` for an unknown time.
pub fn apdu_items(alloc: Global, exchange: &Exchange) -> Result<String, AllocError>
    ensures { IfOk result (λ items. string_bytes items ≡ apdu_items exchange.now.lines) }
{
    items_of(alloc, exchange.lines().get())
}

/// Returns the items of lines.
fn items_of(alloc: Global, lines: &[Line]) -> Result<String, AllocError>
    ensures { IfOk result (λ items. string_bytes items ≡ apdu_items lines.now) }
{
    let mut items = String::new(alloc);
    let mut account = Account::new();
    let mut command: &[u8] = &[];
    for line in lines {
        push_told(alloc, &mut items, &account, command, line)?;
        command = command_after(command, line);
        account = account.after(alloc, line)?;
    }
    push_ended(alloc, &mut items, &account, command, OPEN)?;
    Ok(items)
}

/// Returns the last command after a line.
fn command_after<'a>(command: &'a [u8], line: &'a Line) -> &'a [u8]
    ensures { result.now ≡ listed.command_after command.now line.now }
{
    match line {
        Line::Command(octets) => octets.get(),
        _ => command,
    }
}

/// Appends the exchange that a line ends, if any.
fn push_told(
    alloc: Global,
    items: &mut String,
    account: &Account,
    command: &[u8],
    line: &Line,
) -> Result<(), AllocError>
    ensures { OnOk result (string_bytes items.new
        ≡ listed.with_told (string_bytes items.old) account.now command.now line.now) }
{
    match line {
        Line::Command(_) => push_ended(alloc, items, account, command, OPEN),
        Line::Answer(octets) => {
            let answer = hex_upper(alloc, octets.get())?;
            push_ended(alloc, items, account, command, answer.as_str())
        }
        Line::GivenUp => push_ended(alloc, items, account, command, Name::GivenUp.word()),
        Line::Dead => push_ended(alloc, items, account, command, Name::Dead.word()),
        _ => Ok(()),
    }
}

/// Appends the exchange that ends with this answer, if one is begun.
fn push_ended(
    alloc: Global,
    items: &mut String,
    account: &Account,
    command: &[u8],
    answer: &str,
) -> Result<(), AllocError>
    ensures { OnOk result (string_bytes items.new
        ≡ listed.with_ended (string_bytes items.old) account.now command.now answer.now) }
{
    match &account.begun {
        Some(begun) => {
            let mut members = command_members(alloc, account, begun, command, answer)?;
            push_rest(alloc, &mut members, account, begun)?;
            members.push_to(items)
        }
        None => Ok(()),
    }
}

/// Returns the first members of an exchange: the answer, how many blocks were sent for it, and the command.
fn command_members(
    alloc: Global,
    account: &Account,
    begun: &Begun,
    command: &[u8],
    answer: &str,
) -> Result<Members, AllocError>
    ensures { IfOk result (λ members. members
        ≡ listed.command_members account.now begun.now command.now answer.now) }
{
    let command = hex_upper(alloc, command)?;
    let blocks = account.sent.saturating_sub(begun.before);
    let mut members = Members::new(alloc);
    members.string(alloc, "answer", answer)?;
    members.number(alloc, "blocks", blocks as u64)?;
    members.string(alloc, "command", command.as_str())?;
    Ok(members)
}

/// Appends the other members: the damaged blocks, the number of the command, the lost blocks, and the time.
fn push_rest(
    alloc: Global,
    members: &mut Members,
    account: &Account,
    begun: &Begun,
) -> Result<(), AllocError>
    ensures { OnOk result (members.new ≡ listed.with_rest members.old account.now begun.now) }
{
    let damaged = numbers_of(alloc, &begun.damaged)?;
    let lost = numbers_of(alloc, &begun.lost)?;
    let time = time_of(alloc, account.span)?;
    members.array(alloc, "damaged", damaged.as_str())?;
    members.number(alloc, "exchange", account.commands as u64)?;
    members.array(alloc, "lost", lost.as_str())?;
    members.value("time", time.as_str())
}

/// Returns the numbers of blocks with commas between them.
fn numbers_of(alloc: Global, numbers: &Numbers) -> Result<String, AllocError>
    ensures { IfOk result (λ text. string_bytes text ≡ listing.numbers_or [] numbers.now) }
{
    let mut text = String::new(alloc);
    push_numbers(alloc, &mut text, numbers, "")?;
    Ok(text)
}

/// Returns how many microseconds a span has, or `null`.
fn time_of(alloc: Global, span: Span) -> Result<String, AllocError>
    ensures { IfOk result (λ text. string_bytes text ≡ listing.time_or (codes "null") span) }
{
    let mut text = String::new(alloc);
    push_time(alloc, &mut text, span, "null")?;
    Ok(text)
}
