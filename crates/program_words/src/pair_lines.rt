//! The pairs of a session as lines. Each line has a command and the reply to it, separated by blanks.

ghost use Rattle.std.specs.Prelude.{◌≡◌, map, option_map};
ghost use Rattle.program_words.specs.PairLines.{are_lines, pairs_in, pairs_of_line};
ghost use Rattle.program_words.specs.Value.{AddsSaid, UnlessMemory};

use crate::fault::Fault;
use crate::session::{Pair, Pairs, push_pair, read_parts};
use octet_core::first_word;
use std::alloc::Global;

/// Whether the pairs of a session are the lines of standard input, by its form and by the words for pairs. Fails with
/// `Words` if there are both, or if the form isn't `lines`.
pub(crate) fn are_lines(form: Option<&str>, words: &[&str]) -> Result<bool, Fault>
    ensures { result ≡ are_lines (option_map (λ word. word.now) form.entry)
        (map (λ word. word.now) words.now) }
{
    match form {
        None => Ok(false),
        Some("lines") if words.is_empty() => Ok(true),
        Some(_) => Err(Fault::Words),
    }
}

/// Reads the pairs in the lines of a text. `\n` ends a line, and the last line needs no end. A line has two words, the
/// command and the reply. Each is hexadecimal in either case, or `none`. Spaces, tabs and `\r` separate them, and may
/// come before and after them. A line without a word has no pair.
///
/// Fails with `Hex` if a line has one word or more than two, or if a word isn't hexadecimal. Fails with `Memory` if
/// memory couldn't grow.
pub fn read_pair_lines(alloc: Global, text: &[u8]) -> Result<Pairs, Fault>
    ensures { UnlessMemory result (pairs_in text.now) }
{
    let mut pairs = Vec::new(alloc);
    for line in text.split(|octet| *octet == b'\n') {
        push_line(alloc, &mut pairs, line)?;
    }
    Ok(Pairs::of(pairs))
}

/// Appends the pair of a line, if it has one.
fn push_line(alloc: Global, pairs: &mut Vec<Pair>, line: &[u8]) -> Result<(), Fault>
    ensures { AddsSaid (pairs_of_line line.now) pairs.old.items pairs.new.items result }
{
    let (command, rest) = first_word(line);
    let (reply, rest) = first_word(rest);
    let (more, _) = first_word(rest);
    if command.is_empty() {
        return Ok(());
    }
    if reply.is_empty() || !more.is_empty() {
        return Err(Fault::Hex);
    }
    let pair = read_parts(alloc, command, reply)?;
    push_pair(pairs, pair)?;
    Ok(())
}
