//! An exchange by hand between both ends of T=1 in memory, whose blocks are written to two buffers.

ghost use Rattle.std.specs.Prelude.{◌≤◌, length, IfSome};

use crate::ends::{MOST_BLOCKS, Messages};
use block_core::LONGEST_BLOCK;
use t1_core::{Card, EncodedCardTurn, EncodedTerminalTurn, Terminal, TerminalFault};

/// Returns how many blocks an exchange over a line without faults takes, or `None` if it isn't
/// answered.
pub(crate) fn exchanged(
    terminal: &mut Terminal,
    card: &mut Card,
    messages: Messages<'_>,
) -> Option<usize> {
    let mut sent = [0; LONGEST_BLOCK];
    let mut back = [0; LONGEST_BLOCK];
    let mut next = count_of(terminal.transmit_into(messages.command, &mut sent));
    for pairs in 0..MOST_BLOCKS {
        let Some(count) = next else {
            return (terminal.answer() == Some(messages.reply)).then_some(2 * pairs);
        };
        next = carried(terminal, card, &mut sent, &mut back, count, messages.reply);
    }
    None
}

/// Carries a block of `count` octets to the card, and the card's block back. Returns the length of the
/// terminal's next block.
fn carried(
    terminal: &mut Terminal,
    card: &mut Card,
    sent: &mut [u8; LONGEST_BLOCK],
    back: &mut [u8; LONGEST_BLOCK],
    count: usize,
    reply: &[u8],
) -> Option<usize> {
    let count = served(card, sent.get(..count)?, reply, back)?;
    taken(terminal, back.get(..count)?, sent)
}

/// Returns the length of the terminal's next block after this one.
fn taken(terminal: &mut Terminal, block: &[u8], sent: &mut [u8; LONGEST_BLOCK]) -> Option<usize> {
    count_of(terminal.received_into(block, sent))
}

/// Returns the length of the block that the terminal sends, if it sends one.
fn count_of(turn: Result<EncodedTerminalTurn, TerminalFault>) -> Option<usize> {
    match turn {
        Ok(EncodedTerminalTurn::Send { count, .. }) => Some(count),
        _ => None,
    }
}

/// Returns how many octets the card sends for a block, with a host that replies at once.
pub(crate) fn served(card: &mut Card, octets: &[u8], reply: &[u8], out: &mut [u8]) -> Option<usize>
    requires { 258 ≤ length out.old }
    ensures { IfSome result (λ count. count ≤ 258) }
{
    let put = match card.received_into(octets, out) {
        Ok(EncodedCardTurn::Asked) => card.reply_into(reply, out),
        put => put,
    };
    match put {
        Ok(EncodedCardTurn::Send(count)) => Some(count),
        _ => None,
    }
}
