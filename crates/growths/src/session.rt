//! A session between the ends of T=1 without a line. They allocate only in their constructors.

use crate::Outcome;
use atr_core::T1Params;
use block_core::{Block, encode};
use std::alloc::Global;
use t1_core::{Card, CardTurn, Terminal, TerminalTurn};

/// The longest command and response pass, whatever is refused after the constructors.
pub(crate) fn longest(alloc: Global) -> Outcome {
    let Some(params) = T1Params::new(254, 4, 5) else {
        return Ok(false);
    };
    let mut terminal = Terminal::new(alloc, params)?;
    let mut card = Card::new(alloc, params)?;
    Ok(is_longest_exchanged(&mut terminal, &mut card))
}

/// Whether the longest command and response pass.
fn is_longest_exchanged(terminal: &mut Terminal, card: &mut Card) -> bool {
    is_exchanged(terminal, card, &[0xA5; 65_544], &[0x5A; 65_538])
}

/// Whether an exchange gets its answer over a line without faults.
fn is_exchanged(terminal: &mut Terminal, card: &mut Card, command: &[u8], reply: &[u8]) -> bool {
    let mut turn = terminal.transmit(command);
    for _ in 0..140_000usize {
        match turn {
            Ok(TerminalTurn::Send(block)) => {
                let Some(back) = served(card, &block, command, reply) else {
                    return false;
                };
                turn = terminal.received(encode(&back).as_slice());
            }
            Ok(TerminalTurn::Answered) => return terminal.answer() == Some(reply),
            _ => return false,
        }
    }
    false
}

/// Returns what the card sends for a block. Its host replies at once.
fn served(card: &mut Card, block: &Block, command: &[u8], reply: &[u8]) -> Option<Block> {
    let turn = match card.received(encode(block).as_slice()) {
        Ok(CardTurn::Asked) if card.command() == Some(command) => card.reply(reply),
        turn => turn,
    };
    match turn {
        Ok(CardTurn::Send(block)) => Some(block),
        _ => None,
    }
}
