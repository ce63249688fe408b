//! Whether an end is usable after a delivery: it begins again, and an exchange passes.

use block_core::{Block, encode};
use t1_core::{Card, CardFault, CardTurn, Terminal, TerminalFault, TerminalTurn};
use test_support::same;

/// The RESYNCH request and response.
const RESYNCH: [u8; 4] = [0x00, 0xC0, 0x00, 0xC0];

const RESYNCHED: [u8; 4] = [0x00, 0xE0, 0x00, 0xE0];

/// What is exchanged after a delivery.
const COMMAND: [u8; 2] = [0x00, 0xA4];

const REPLY: [u8; 2] = [0x90, 0x00];

/// Whether the terminal begins again with a new card and an exchange passes, or refuses everything as dead.
pub(crate) fn is_terminal_usable(terminal: &mut Terminal, card: &mut Card) -> bool {
    for _ in 0..8usize {
        match terminal.received(&RESYNCHED) {
            Ok(TerminalTurn::GivenUp) => return is_exchanged(terminal, card),
            Ok(TerminalTurn::Dead) | Err(TerminalFault::Dead) => return is_dead(terminal),
            Err(TerminalFault::Idle) if terminal.transmit(&COMMAND).is_ok() => {}
            Ok(_) => {}
            Err(_) => return false,
        }
    }
    false
}

/// Whether the terminal refuses each call as dead.
fn is_dead(terminal: &mut Terminal) -> bool {
    same(terminal.quiet(), Err(TerminalFault::Dead))
        && same(terminal.received(&RESYNCHED), Err(TerminalFault::Dead))
        && same(terminal.transmit(&COMMAND), Err(TerminalFault::Dead))
        && same(terminal.ask_ifs(32), Err(TerminalFault::Dead))
}

/// Whether the card begins again, and an exchange with a new terminal passes. Its host first replies if it owes a
/// reply.
pub(crate) fn is_card_usable(terminal: &mut Terminal, card: &mut Card) -> bool {
    if same(card.received(&RESYNCH), Err(CardFault::Order)) {
        let is_replied = card.reply(&REPLY).is_ok();
        if !is_replied || card.received(&RESYNCH).is_err() {
            return false;
        }
    }
    is_exchanged(terminal, card)
}

/// Whether a command passes from an idle terminal to the card, and its reply back.
fn is_exchanged(terminal: &mut Terminal, card: &mut Card) -> bool {
    match terminal.transmit(&COMMAND) {
        Ok(TerminalTurn::Send(sent)) if is_asked(card, &sent) => match card.reply(&REPLY) {
            Ok(CardTurn::Send(back)) => is_answered(terminal, &back),
            _ => false,
        },
        _ => false,
    }
}

/// Whether a block gives the card's host the command.
fn is_asked(card: &mut Card, sent: &Block) -> bool {
    same(card.received(encode(sent).as_slice()), Ok(CardTurn::Asked))
        && same(card.command(), Some(COMMAND.as_slice()))
}

/// Whether a block gives the terminal the reply.
fn is_answered(terminal: &mut Terminal, back: &Block) -> bool {
    same(
        terminal.received(encode(back).as_slice()),
        Ok(TerminalTurn::Answered),
    ) && same(terminal.answer(), Some(REPLY.as_slice()))
}
