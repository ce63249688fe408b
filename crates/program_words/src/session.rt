//! Simulated sessions as words.

ghost use Rattle.std.specs.Prelude.{◌==◌, ◌||◌, ◌≡◌, ◌<◌, ◌+◌, ◌-◌, ◌^◌, ◌&&◌, ◌++◌, ◌∷◌, [], length, map, nat_le, option_map, IfOk, OnOk};
ghost use Rattle.program_words.specs.Session.{block_number, block_numbers, block_range, blocks_of, most_named, numbers_from, pair_by, pair_of, pairs_of};
ghost use Rattle.program_words.specs.Session as session;
ghost use Rattle.program_words.specs.Value.{UnlessMemory};

use crate::fault::Fault;
use crate::field_size::FieldSize;
use crate::value::{parts, word_octets};
use octet_core::{Listed, Octets, decimal_of};
use std::alloc::{AllocError, Global};

/// A command, and the reply that the card's host gives to it.
#[derive(Drop)]
pub struct Pair {
    pub command: Octets,
    pub reply: Octets,
}

/// Commands and their replies, in the order of their words. Contracts see them as a list.
pub type Pairs = Listed<Pair>;

/// Numbers of blocks, from 1, in the order of their word. Contracts see them as a list.
pub type BlockNumbers = Listed<u64>;

/// A session of both ends on one line.
#[derive(Drop)]
pub struct Session {
    /// The card's answer to reset.
    pub atr: Octets,
    /// The information size that the terminal requests first.
    pub ifsd: Option<FieldSize>,
    pub pairs: Pairs,
    /// The blocks that are lost. Blocks are numbered in the order in which both ends send them.
    pub lost: BlockNumbers,
    /// The blocks that arrive damaged.
    pub damaged: BlockNumbers,
    /// The blocks that arrive invalid.
    pub spoilt: BlockNumbers,
}

impl Session {
    /// Returns the session with these pairs instead of its own.
    pub fn with_pairs(self, pairs: Pairs) -> Session
        ensures { result ≡ record self { pairs = pairs } }
    {
        Session { pairs, ..self }
    }
}

/// Returns the pairs of the words, or the fault of the first word that isn't one.
pub(crate) fn read_pairs(alloc: Global, words: &[&str]) -> Result<Pairs, Fault>
    ensures { UnlessMemory result (pairs_of (map (λ word. word.now) words.now)) }
{
    let mut list = Vec::new(alloc);
    for word in words {
        let pair = read_pair(alloc, word)?;
        push_pair(&mut list, pair)?;
    }
    Ok(Pairs::of(list))
}

/// Appends a pair to a list.
pub(crate) fn push_pair(list: &mut Vec<Pair>, pair: Pair) -> Result<(), AllocError>
    ensures { OnOk result (list.new.items ≡ list.old.items ++ pair ∷ []) }
{
    list.push(pair)?;
    Ok(())
}

/// Returns the pair of a word: a command and a reply, separated by a colon.
fn read_pair(alloc: Global, word: &str) -> Result<Pair, Fault>
    ensures { UnlessMemory result (pair_of word.now) }
{
    let (command, reply) = parts(word)?;
    read_parts(alloc, command.as_bytes(), reply.as_bytes())
}

/// Returns the pair of a command and a reply, each in hexadecimal or `none`.
pub(crate) fn read_parts(
    alloc: Global,
    command_word: &[u8],
    reply_word: &[u8],
) -> Result<Pair, Fault>
    ensures { UnlessMemory result (pair_by command_word.now reply_word.now) }
{
    let command = word_octets(alloc, command_word)?;
    let reply = word_octets(alloc, reply_word)?;
    Ok(Pair { command, reply })
}

/// The most blocks that a list may name up to the end of a range. Each block counts as often as it is named.
pub const MOST_NAMED: u64 = 1_000_000;

/// Returns the blocks that a word names: numbers from 1 and ranges such as `2-5`, separated by commas. Returns no
/// blocks if there is no word.
///
/// Fails with `Words` if
///
/// - the word isn't such a list,
/// - the last number of a range is below its first, or
/// - the word up to the end of a range of several numbers names more than `MOST_NAMED` blocks.
///
/// Fails with `Memory` if memory couldn't grow.
pub fn read_blocks(alloc: Global, word: Option<&str>) -> Result<BlockNumbers, Fault>
    ensures { UnlessMemory result (blocks_of (option_map (λ word. word.now) word.entry)) }
{
    match word {
        Some(word) => read_numbers(alloc, word),
        None => Ok(BlockNumbers::of(Vec::new(alloc))),
    }
}

/// Returns the numbers of a list with commas.
fn read_numbers(alloc: Global, word: &str) -> Result<BlockNumbers, Fault>
    ensures { UnlessMemory result (block_numbers word.now) }
{
    let mut named = BlockNumbers::of(Vec::new(alloc));
    let mut rest = word;
    'parts: while let Some((part, after)) = rest.split_once(',') {
        named = with_part(named, part)?;
        rest = after;
    }
    with_part(named, rest)
}

/// Appends the blocks that a part of a list names.
fn with_part(named: BlockNumbers, word: &str) -> Result<BlockNumbers, Fault>
    ensures { UnlessMemory result (session.with_part named word.now) }
{
    let (first, last) = read_range(word)?;
    with_range(named, first, last)
}

/// Appends the blocks of a range, if they aren't too many.
fn with_range(named: BlockNumbers, first: u64, last: u64) -> Result<BlockNumbers, Fault>
    requires { last < 10 ^ 15 }
    ensures { UnlessMemory result (session.with_range named first last) }
{
    if !have_room(named.get(), first, last) {
        return Err(Fault::Words);
    }
    Ok(with_numbers(named, first, last + 1)?)
}

/// Whether the range is valid, and a list may name its blocks after these.
fn have_room(named: &[u64], first: u64, last: u64) -> bool
    requires { last < 10 ^ 15 }
    ensures { result ≡ (nat_le first last && (first == last
        || nat_le (length named.now + (last + 1 - first)) most_named)) }
{
    first <= last && (first == last || named.len() as u64 + (last + 1 - first) <= MOST_NAMED)
}

/// Appends the numbers from the first up to, and without, the end.
fn with_numbers(named: BlockNumbers, first: u64, end: u64) -> Result<BlockNumbers, AllocError>
    ensures { IfOk result (λ longer. longer ≡ named ++ numbers_from first (end - first)) }
{
    let mut numbers = named.into_inner();
    for number in first..end {
        numbers.push(number)?;
    }
    Ok(BlockNumbers::of(numbers))
}

/// Returns the first and the last block that a part of a list names.
fn read_range(word: &str) -> Result<(u64, u64), Fault>
    ensures read { result ≡ block_range word.now }
    ensures small { IfOk result (λ range. range.1 < 10 ^ 15) }
{
    match word.split_once('-') {
        Some((first, last)) => {
            let first = read_number(first)?;
            let last = read_number(last)?;
            Ok((first, last))
        }
        None => {
            let number = read_number(word)?;
            Ok((number, number))
        }
    }
}

/// Reads the number of a block.
fn read_number(word: &str) -> Result<u64, Fault>
    ensures read { result ≡ block_number word.now }
    ensures small { IfOk result (λ number. number < 10 ^ 15) }
{
    match decimal_of(word.as_bytes()) {
        Some(number) if number > 0 => Ok(number),
        _ => Err(Fault::Words),
    }
}
