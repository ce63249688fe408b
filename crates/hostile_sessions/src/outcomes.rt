//! What an end should do with octets, and whether its turn is that.

use crate::states::Turns;
use crate::turns::{Fits, ROWS, Row, Wanted};
use block_core::{Block, encode};
use t1_core::{CardFault, CardTurn, TerminalFault, TerminalTurn};

/// What octets are to an end.
#[derive(Clone, Copy)]
pub(crate) enum Class {
    Block,
    Damaged,
    Invalid,
}

/// The digits of hexadecimal texts.
static DIGITS: [u8; 16] = *b"0123456789ABCDEF";

/// Whether a text has these octets, in hexadecimal.
fn is_text_of(text: &str, octets: &[u8]) -> bool {
    let mut rest = text.as_bytes();
    for octet in octets {
        let [high, low, after @ ..] = rest else {
            return false;
        };
        if *high != DIGITS[(*octet >> 4) as usize] || *low != DIGITS[(*octet & 0x0F) as usize] {
            return false;
        }
        rest = after;
    }
    rest.is_empty()
}

/// Returns what an end should do with octets.
pub(crate) fn wanted(turns: &Turns, class: Class, octets: &[u8]) -> Wanted {
    match class {
        Class::Block => fitting(turns, octets),
        Class::Damaged => turns.misfit.damaged(),
        Class::Invalid => turns.misfit.other(),
    }
}

/// Returns what an end should do with a whole block.
fn fitting(turns: &Turns, block: &[u8]) -> Wanted {
    match found(rows(), turns.fits, block) {
        Some(wanted) => wanted,
        None => turns.misfit.other(),
    }
}

/// Returns the blocks that fit.
fn rows() -> &'static [Row] {
    &ROWS
}

/// Returns the result for a block among those that fit.
fn found(rows: &[Row], fits: (Fits, Fits), block: &[u8]) -> Option<Wanted> {
    let (first, second) = fits;
    for (of, text, wanted) in rows {
        if (*of == first || *of == second) && is_text_of(text, block) {
            return Some(*wanted);
        }
    }
    None
}

/// Whether a block has these octets, in hexadecimal.
fn is_block(block: &Block, text: &str) -> bool {
    is_text_of(text, encode(block).as_slice())
}

/// Whether a turn of the terminal is the right one.
pub(crate) fn is_terminal(turn: &Result<TerminalTurn, TerminalFault>, wanted: Wanted) -> bool {
    match (turn, wanted) {
        (Ok(TerminalTurn::Send(block)), Wanted::Sends(text)) => is_block(block, text),
        (Ok(TerminalTurn::Answered), Wanted::Answered)
        | (Ok(TerminalTurn::IfsSet), Wanted::IfsSet)
        | (Ok(TerminalTurn::GivenUp), Wanted::GivenUp)
        | (Ok(TerminalTurn::Dead), Wanted::Dies) => true,
        (Err(fault), Wanted::Terminal(wanted)) => *fault == wanted,
        _ => false,
    }
}

/// Whether a turn of the card is the right one.
pub(crate) fn is_card(turn: &Result<CardTurn, CardFault>, wanted: Wanted) -> bool {
    match (turn, wanted) {
        (Ok(CardTurn::Send(block)), Wanted::Sends(text)) => is_block(block, text),
        (Ok(CardTurn::Asked), Wanted::Asked) => true,
        (Err(fault), Wanted::Card(wanted)) => *fault == wanted,
        _ => false,
    }
}
