//! The text of an exchange.

ghost use Rattle.std.specs.Prelude.{◌≡◌, ◌++◌, ◌<◌, IfOk, OnOk, codes, string_bytes};
ghost use Rattle.octet_core.specs.Octets.{AreOctets};
ghost use Rattle.exchange_text.specs.Exchange.{AllHaveOctets, ArriveAsOctets, HasOctets, IsExchange};
ghost use Rattle.exchange_text.specs.Names.{name_text};
ghost use Rattle.exchange_text.specs.Reading.{exchange_said};
ghost use Rattle.exchange_text.specs.declared.line.Line.{Line};
ghost use Rattle.exchange_text.specs.Text.{arrival_text, exchange_text, line_text, lines_text, octet_text, octets_text};

use crate::exchange::Exchange;
use crate::line::{Arrival, Line, Lines};
use crate::name::Name;
use crate::words::{AS, ATR, LOST, NONE};
use octet_core::hex_upper;
use std::alloc::{AllocError, Global};

/// Returns the text of an exchange, or `Err` if memory runs out.
pub fn write_exchange(alloc: Global, exchange: &Exchange) -> Result<Vec<u8>, AllocError>
    ensures text { IfOk result (λ text. text.items ≡ exchange_text exchange.now) }
    ensures back { IfOk result (λ text. exchange_said text.items ≡ Ok exchange.now) }
{
    let mut text = String::new(alloc);
    push_exchange(alloc, &mut text, exchange)?;
    Ok(text.into_bytes())
}

/// Appends the text of an exchange.
fn push_exchange(alloc: Global, text: &mut String, exchange: &Exchange) -> Result<(), AllocError>
    ensures text { OnOk result (string_bytes text.new
        ≡ string_bytes text.old ++ exchange_text exchange.now) }
    ensures exchange { OnOk result (IsExchange exchange.now) }
{
    text.push_str(exchange.version().header())?;
    text.push_str("\n")?;
    push_word(text, ATR)?;
    push_octets(alloc, text, exchange.atr())?;
    text.push_str("\n")?;
    push_lines(alloc, text, exchange.lines())
}

/// Appends lines, each with its line feed.
fn push_lines(alloc: Global, text: &mut String, lines: &Lines) -> Result<(), AllocError>
    ensures text { OnOk result (string_bytes text.new
        ≡ string_bytes text.old ++ lines_text lines.now) }
    ensures octets { OnOk result (AllHaveOctets lines.now) }
{
    for line in lines.get() {
        push_line(alloc, text, line)?;
        text.push_str("\n")?;
    }
    Ok(())
}

/// Appends a line without its line feed.
fn push_line(alloc: Global, text: &mut String, line: &Line) -> Result<(), AllocError>
    ensures text { OnOk result (string_bytes text.new
        ≡ string_bytes text.old ++ line_text line.now) }
    ensures octets { OnOk result (HasOctets line.now) }
{
    match line {
        Line::Command(octets) => push_message(alloc, text, Name::Command, octets.get()),
        Line::Ifsd(size) => push_number(alloc, text, Name::Ifsd, *size),
        Line::Quiet => text.push_str(Name::Quiet.word()),
        Line::Answer(octets) => push_message(alloc, text, Name::Answer, octets.get()),
        Line::IfsSet => text.push_str(Name::IfsSet.word()),
        Line::GivenUp => text.push_str(Name::GivenUp.word()),
        Line::Dead => text.push_str(Name::Dead.word()),
        Line::Reply(octets) => push_message(alloc, text, Name::Reply, octets.get()),
        Line::Time(multiple) => push_number(alloc, text, Name::Time, *multiple),
        Line::Ifsc(size) => push_number(alloc, text, Name::Ifsc, *size),
        Line::Asked(octets) => push_message(alloc, text, Name::Asked, octets.get()),
        Line::FromTerminal { sent, arrival } => {
            push_message(alloc, text, Name::FromTerminal, sent.get())?;
            push_arrival(alloc, text, arrival)
        }
        Line::FromCard { sent, arrival } => {
            push_message(alloc, text, Name::FromCard, sent.get())?;
            push_arrival(alloc, text, arrival)
        }
        Line::Moment(moment) => push_moment(alloc, text, *moment),
        Line::Note(note) => {
            push_word(text, Name::Note.word())?;
            text.push_str(note.get())
        }
    }
}

/// Appends a word and a space.
fn push_word(text: &mut String, word: &str) -> Result<(), AllocError>
    ensures { OnOk result (string_bytes text.new
        ≡ string_bytes text.old ++ (word.now ++ codes " ")) }
{
    text.push_str(word)?;
    text.push_str(" ")
}

/// Appends octets, or `none` for no octets.
fn push_octets(alloc: Global, text: &mut String, octets: &[u8]) -> Result<(), AllocError>
    ensures text { OnOk result (string_bytes text.new
        ≡ string_bytes text.old ++ octets_text octets.now) }
    ensures octets { AreOctets octets.now }
{
    if octets.is_empty() {
        text.push_str(NONE)
    } else {
        text.push_str(hex_upper(alloc, octets)?.as_str())
    }
}

/// Appends the word of a name, and octets.
pub fn push_message(
    alloc: Global,
    text: &mut String,
    name: Name,
    octets: &[u8],
) -> Result<(), AllocError>
    ensures text { OnOk result (string_bytes text.new
        ≡ string_bytes text.old ++ (name_text name ++ (codes " " ++ octets_text octets.now))) }
    ensures octets { AreOctets octets.now }
{
    push_word(text, name.word())?;
    push_octets(alloc, text, octets)
}

/// Appends the word of a name, and one octet.
fn push_number(alloc: Global, text: &mut String, name: Name, octet: u8) -> Result<(), AllocError>
    ensures text { OnOk result (string_bytes text.new
        ≡ string_bytes text.old ++ (name_text name ++ (codes " " ++ octet_text octet))) }
    ensures octet { octet < 256 }
{
    push_word(text, name.word())?;
    text.push_str(hex_upper(alloc, &[octet])?.as_str())
}

/// Appends how a block arrived.
fn push_arrival(alloc: Global, text: &mut String, arrival: &Arrival) -> Result<(), AllocError>
    ensures text { OnOk result (string_bytes text.new
        ≡ string_bytes text.old ++ arrival_text arrival.now) }
    ensures octets { OnOk result (ArriveAsOctets arrival.now) }
{
    match arrival {
        Arrival::Whole => Ok(()),
        Arrival::Lost => {
            text.push_str(" ")?;
            text.push_str(LOST)
        }
        Arrival::Changed(octets) => {
            text.push_str(" ")?;
            push_word(text, AS)?;
            push_octets(alloc, text, octets.get())
        }
    }
}

/// Appends a moment.
fn push_moment(alloc: Global, text: &mut String, moment: u64) -> Result<(), AllocError>
    ensures { OnOk result (string_bytes text.new
        ≡ string_bytes text.old ++ line_text (Line.Moment moment)) }
{
    push_word(text, Name::Moment.word())?;
    text.push_str(format!(in alloc; "{moment}")?.as_str())
}
