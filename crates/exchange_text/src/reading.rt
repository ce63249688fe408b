//! What a text says: an exchange, or its first fault.

ghost use Rattle.std.specs.Prelude.{◌≡◌, ◌+◌, ◌<◌, ◌^◌, ◌++◌, ◌∷◌, [], length, true, IfOk, OnOk};
ghost use Rattle.std.specs.List.{slice_split};
ghost use Rattle.exchange_text.specs.Exchange.{are_proper, IsExchange};
ghost use Rattle.exchange_text.specs.Text.{exchange_text};
ghost use Rattle.exchange_text.specs.Reading as reading;
ghost use Rattle.exchange_text.specs.Reading.{exchange_said, is_line_feed, lines_said, parts_said, LineUnlessMemory, UnlessMemory};

use crate::exchange::{Exchange, Version};
use crate::fault::{ExchangeFault, LineFault};
use crate::line::{Line, Lines};
use crate::proper::moment_after;
use crate::saying::{line_said, octets_said};
use crate::words::{ATR, LINE_FEED, cut_at, first_word, the_word};
use octet_core::Octets;
use std::alloc::{AllocError, Global};

/// Parses a text, and returns its exchange or its first fault.
///
/// It looks for faults line by line. At one line `End` comes first, then `Word`, `Hex` and `Falls`. `Memory` can
/// replace any result. `laws` says that a text that was written reads as the same exchange.
pub fn read_exchange(alloc: Global, text: &[u8]) -> Result<Exchange, ExchangeFault>
    ensures said { UnlessMemory result (exchange_said text.now) }
    ensures found { IfOk result (λ exchange. exchange_text exchange ≡ text.now) }
    ensures proper { IfOk result IsExchange }
{
    let (header, rest) = cut_at(text, LINE_FEED).ok_or(ExchangeFault::Header)?;
    let version = version_said(header)?;
    rest_said(alloc, version, rest)
}

/// Returns the exchange of a text, from what follows its header.
fn rest_said(alloc: Global, version: Version, text: &[u8]) -> Result<Exchange, ExchangeFault>
    requires { length text.now + 1 < 2 ^ 64 }
    ensures { UnlessMemory result (parts_said version (slice_split is_line_feed text.now)) }
{
    let (line, rest) = cut_at(text, LINE_FEED).ok_or(ExchangeFault::End { line: 2 })?;
    let atr = second_line(alloc, line)?;
    let lines = lines_said(alloc, version, rest)?;
    Ok(Exchange::proper(version, atr, lines))
}

/// Returns the answer to reset in the second line, or its fault with the line's number.
fn second_line(alloc: Global, line: &[u8]) -> Result<Octets, ExchangeFault>
    ensures { UnlessMemory result (reading.at 2 (reading.atr_said line.now)) }
{
    atr_said(alloc, line).map_err(|fault| fault.at(2))
}

/// Returns the version of a header.
fn version_said(line: &[u8]) -> Result<Version, ExchangeFault>
    ensures { result ≡ reading.version_said line.now }
{
    if line == Version::One.header().as_bytes() {
        Ok(Version::One)
    } else if line == Version::Two.header().as_bytes() {
        Ok(Version::Two)
    } else {
        Err(ExchangeFault::Header)
    }
}

/// Returns the answer to reset in the second line.
fn atr_said(alloc: Global, line: &[u8]) -> Result<Octets, LineFault>
    ensures { LineUnlessMemory result (reading.atr_said line.now) }
{
    let (word, rest) = first_word(line);
    let octets = the_word(rest)?;
    if word == ATR.as_bytes() {
        octets_said(alloc, octets)
    } else {
        Err(LineFault::Word)
    }
}

/// Returns the lines of a text, from the third on.
fn lines_said(alloc: Global, version: Version, text: &[u8]) -> Result<Lines, ExchangeFault>
    requires { length text.now + 3 < 2 ^ 64 }
    ensures said { UnlessMemory result
        (lines_said version 3 0 (slice_split is_line_feed text.now)) }
    ensures proper { IfOk result (λ lines. are_proper version 0 lines ≡ true) }
{
    let mut lines = Vec::new(alloc);
    let mut number = 3;
    let mut least = 0;
    let mut rest = text;
    while let Some((line, after)) = cut_at(rest, LINE_FEED) {
        let line = line_at(alloc, version, number, least, line)?;
        least = moment_after(least, &line);
        push(&mut lines, line)?;
        number += 1;
        rest = after;
    }
    if rest.is_empty() {
        Ok(Lines::of(lines))
    } else {
        Err(ExchangeFault::End { line: number })
    }
}

/// Returns the line with this number, after the moment `least`.
fn line_at(
    alloc: Global,
    version: Version,
    number: usize,
    least: u64,
    line: &[u8],
) -> Result<Line, ExchangeFault>
    ensures { UnlessMemory result (reading.line_at version number least line.now) }
{
    let line = line_said(alloc, version, line).map_err(|fault| fault.at(number))?;
    if falls(least, &line) {
        Err(ExchangeFault::Falls { line: number })
    } else {
        Ok(line)
    }
}

/// Whether a line is a moment below an earlier one.
fn falls(least: u64, line: &Line) -> bool
    ensures { result ≡ reading.falls least line.now }
{
    match line {
        Line::Moment(moment) => *moment < least,
        _ => false,
    }
}

fn push(lines: &mut Vec<Line>, line: Line) -> Result<(), AllocError>
    ensures { OnOk result (lines.new.items ≡ lines.old.items ++ line ∷ []) }
{
    lines.push(line)?;
    Ok(())
}
