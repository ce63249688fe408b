//! What a line of a trace says.

ghost use Rattle.std.specs.Prelude.{◌≡◌, ◌≤◌, IfOk};
ghost use Rattle.exchange_text.specs.Exchange.{latest_moment};
ghost use Rattle.trace_text.specs.Reading as reading;
ghost use Rattle.trace_text.specs.Reading.{block_said, entry_said, event_said, is_none, is_silent, is_unknown, is_wrong, moment_said, named_said, octets_said, reach_by, reach_said, words_of, IsEarly, UnlessMemory};

use crate::line_words::LineWords;
use block_core::Side;
use exchange_text::{ExchangeFault, Name};
use hex::FromHexError;
use octet_core::{Octets, decimal_of};
use std::alloc::Global;

/// What begins a remark.
const REMARK: u8 = b'#';

/// The word for no octet.
const NONE: &[u8] = b"none";

/// The word for a block that didn't reach its receiver, after its octets.
const LOST: &[u8] = b"lost";

/// The word for a block with an error of parity at its receiver, after its octets.
const PARITY: &[u8] = b"parity";

/// The word before the octets that arrived.
const AS: &[u8] = b"as";

/// The word for a reset of the card.
const RESET: &[u8] = b"reset";

/// The words for a trace that begins in the midst of a session.
const BEGINS: &[u8] = b"begins";

const UNKNOWN: &[u8] = b"unknown";

/// The word for the moment of a block's last octet.
const UNTIL: &[u8] = b"until";

/// How a block reached the other end.
#[derive(Debug, PartialEq, Eq, Drop)]
pub enum Reach {
    /// The line doesn't say.
    Unsaid,
    /// It was lost.
    Lost,
    /// Its receiver saw an error of parity.
    Parity,
    /// It arrived as these octets.
    Came(Octets),
}

/// What a line says.
#[derive(Debug, PartialEq, Eq, Drop)]
pub enum Entry {
    /// Nothing: it is empty, or a remark.
    Nothing,
    /// These octets were on the line as one block of this end.
    Block {
        from: Side,
        octets: Octets,
        reach: Reach,
    },
    /// The terminal's waiting time ended.
    Quiet,
    /// The card was reset.
    Reset,
    /// What follows comes in the midst of a session of which nothing is known.
    Midway,
    /// So many microseconds after some start.
    Moment(u64),
    /// So many microseconds after that start the last octet of the next block began.
    Until(u64),
}

/// Parses the line with this number, without its line feed.
///
/// Spaces, tabs and CR separate words. The lines are:
///
/// - `t HEX`, `c HEX`: octets of the terminal or of the card. HEX is in upper case or lower case.
/// - `t none`, `c none`: a block of the terminal or of the card, of which no octet was seen.
/// - `t HEX lost`, `c HEX lost`: the octets didn't reach the other end.
/// - `t HEX parity`, `c HEX parity`: the other end saw an error of parity in them.
/// - `t HEX as HEX`, `c HEX as HEX`: they reached the other end as the second octets, or `as none`, as no octet.
/// - `quiet`: the terminal's waiting time ended.
/// - `reset`: the card was reset.
/// - `begins unknown`: what follows comes in the midst of a session of which nothing is known.
/// - `at N`: microseconds, 1 to 15 digits.
/// - `until N`: the moment at which the last octet of the next block began.
/// - A line without a word, or whose first word begins with a number sign, says nothing.
///
/// The error is `Word` if the words have none of these forms, then `Hex`. `Memory` can replace any result.
pub fn entry_of(alloc: Global, number: usize, line: &[u8]) -> Result<Entry, ExchangeFault>
    ensures said { UnlessMemory result (reading.entry_of number line.now) }
    ensures early { IfOk result IsEarly }
{
    entry_said(alloc, number, &LineWords::of(line))
}

/// Whether a line has no word, or is a remark.
pub fn says_nothing(line: &[u8]) -> bool
    ensures { result ≡ is_silent (words_of line.now) }
{
    is_silent(&LineWords::of(line))
}

fn is_silent(words: &LineWords<'_>) -> bool
    ensures { result ≡ is_silent words.now }
{
    words.first.is_empty() || words.first[0] == REMARK
}

/// Parses the words of the line with this number.
fn entry_said(alloc: Global, number: usize, words: &LineWords<'_>) -> Result<Entry, ExchangeFault>
    ensures said { UnlessMemory result (entry_said number words.now) }
    ensures early { IfOk result IsEarly }
{
    if is_silent(words) {
        Ok(Entry::Nothing)
    } else {
        named_said(alloc, number, words)
    }
}

/// Returns the entry of these words. The first word names it.
fn named_said(alloc: Global, number: usize, words: &LineWords<'_>) -> Result<Entry, ExchangeFault>
    ensures said { UnlessMemory result (named_said number words.now) }
    ensures early { IfOk result IsEarly }
{
    if words.first == Name::FromTerminal.word().as_bytes() {
        block_said(alloc, number, Side::Terminal, words)
    } else if words.first == Name::FromCard.word().as_bytes() {
        block_said(alloc, number, Side::Card, words)
    } else {
        event_said(number, words)
    }
}

/// Returns the entry of words that aren't about a block.
fn event_said(number: usize, words: &LineWords<'_>) -> Result<Entry, ExchangeFault>
    ensures said { result ≡ event_said number words.now }
    ensures early { IfOk result IsEarly }
{
    let word = words.first;
    if word == Name::Quiet.word().as_bytes() && words.second.is_empty() {
        Ok(Entry::Quiet)
    } else if word == RESET && words.second.is_empty() {
        Ok(Entry::Reset)
    } else if word == BEGINS && is_unknown(words) {
        Ok(Entry::Midway)
    } else if word == Name::Moment.word().as_bytes() {
        Ok(Entry::Moment(moment_said(number, words)?))
    } else if word == UNTIL {
        Ok(Entry::Until(moment_said(number, words)?))
    } else {
        Err(ExchangeFault::Word { line: number })
    }
}

/// Whether the second word is the last one and says that nothing is known.
fn is_unknown(words: &LineWords<'_>) -> bool
    ensures { result ≡ is_unknown words.now }
{
    words.second == UNKNOWN && words.third.is_empty()
}

/// Returns the moment in these words, which is alone in its line.
fn moment_said(number: usize, words: &LineWords<'_>) -> Result<u64, ExchangeFault>
    ensures said { result ≡ moment_said number words.now }
    ensures early { IfOk result (λ moment. moment ≤ latest_moment) }
{
    match decimal_of(words.second) {
        Some(moment) if words.third.is_empty() => Ok(moment),
        _ => Err(ExchangeFault::Word { line: number }),
    }
}

/// Returns the block of this end in these words.
fn block_said(
    alloc: Global,
    number: usize,
    from: Side,
    words: &LineWords<'_>,
) -> Result<Entry, ExchangeFault>
    ensures said { UnlessMemory result (block_said number from words.now) }
    ensures early { IfOk result IsEarly }
{
    let reach = reach_said(alloc, number, words)?;
    let octets = octets_said(alloc, number, words.second)?;
    Ok(Entry::Block {
        from,
        octets,
        reach,
    })
}

/// Returns how the block in these words reached the other end.
fn reach_said(alloc: Global, number: usize, words: &LineWords<'_>) -> Result<Reach, ExchangeFault>
    ensures { UnlessMemory result (reach_said number words.now) }
{
    if is_wrong(words) {
        Err(ExchangeFault::Word { line: number })
    } else {
        reach_by(alloc, number, words)
    }
}

/// Whether these words have no octets, or too many words after them.
fn is_wrong(words: &LineWords<'_>) -> bool
    ensures { result ≡ is_wrong words.now }
{
    words.second.is_empty()
        || !words.more.is_empty()
        || (is_none(words.second) && !words.third.is_empty())
}

/// Returns how the block reached the other end, by the words after its octets.
fn reach_by(alloc: Global, number: usize, words: &LineWords<'_>) -> Result<Reach, ExchangeFault>
    ensures { UnlessMemory result (reach_by number words.now) }
{
    if words.third.is_empty() {
        Ok(Reach::Unsaid)
    } else if words.third == LOST && words.fourth.is_empty() {
        Ok(Reach::Lost)
    } else if words.third == PARITY && words.fourth.is_empty() {
        Ok(Reach::Parity)
    } else if words.third == AS && !words.fourth.is_empty() {
        let octets = octets_said(alloc, number, words.fourth)?;
        Ok(Reach::Came(octets))
    } else {
        Err(ExchangeFault::Word { line: number })
    }
}

/// Returns the octets of a word: none, or in upper-case or lower-case hexadecimal.
fn octets_said(alloc: Global, number: usize, word: &[u8]) -> Result<Octets, ExchangeFault>
    ensures { UnlessMemory result (octets_said number word.now) }
{
    if is_none(word) {
        return Ok(Octets::of(Vec::new(alloc)));
    }
    match hex::decode(alloc, word) {
        Ok(octets) => Ok(Octets::of(octets)),
        Err(FromHexError::OutOfMemory) => Err(ExchangeFault::Memory),
        Err(_) => Err(ExchangeFault::Hex { line: number }),
    }
}

fn is_none(word: &[u8]) -> bool
    ensures { result ≡ is_none word.now }
{
    word == NONE
}
