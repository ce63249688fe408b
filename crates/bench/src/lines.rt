//! The same exchange by the calls over a line. A card is at the end of the terminal's line, and a terminal at the end
//! of the card's.

use crate::buffers;
use crate::ends::{MOST_BLOCKS, Messages};
use block_core::LONGEST_BLOCK;
use line_core::{CardLine, Host, Received, TerminalLine, exchange, serve};
use std::io::{self, ErrorKind};
use t1_core::{Card, EncodedTerminalTurn, Terminal};

/// Returns how many blocks an exchange by `exchange` takes, or `None` if it isn't answered.
pub(crate) fn exchanged(
    terminal: &mut Terminal,
    card: &mut Card,
    messages: Messages<'_>,
) -> Option<usize> {
    let mut line = CardAtLine {
        card,
        reply: messages.reply,
        blocks: 0,
    };
    match exchange(terminal, &mut line, messages.command, MOST_BLOCKS) {
        Ok(answer) if answer == messages.reply => Some(2 * line.blocks as usize),
        _ => None,
    }
}

/// Returns how many blocks an exchange takes that a card serves, or `None` if it isn't answered.
pub(crate) fn served(
    terminal: &mut Terminal,
    card: &mut Card,
    messages: Messages<'_>,
) -> Option<usize> {
    let mut line = TerminalAtLine {
        terminal,
        command: messages.command,
        block: [0; LONGEST_BLOCK],
        count: 0,
        blocks: 0,
    };
    let mut host = Replies(messages.reply);
    let is_served = serve(card, &mut line, &mut host, MOST_BLOCKS).is_ok();
    let is_answered = line.terminal.answer() == Some(messages.reply);
    (is_served && is_answered).then_some(2 * line.blocks as usize)
}

/// The line of a terminal with a card at its other end.
#[derive(Drop)]
struct CardAtLine<'c, 'r> {
    card: &'c mut Card,
    reply: &'r [u8],
    blocks: u32,
}

impl TerminalLine for CardAtLine<'_, '_> {
    ghost said = { λ _ _ _. Unit {0} };

    fn transceive(&mut self, block: &[u8], _waiting: u8, room: &mut [u8]) -> io::Result<Received> {
        self.blocks = self.blocks.saturating_add(1);
        match buffers::served(self.card, block, self.reply, room) {
            Some(count) => Ok(Received::Octets(count)),
            None => Err(ErrorKind::InvalidData.into()),
        }
    }
}

/// The line of a card with a terminal at its other end, and the last block that the card sent.
#[derive(Drop)]
struct TerminalAtLine<'t, 'c> {
    terminal: &'t mut Terminal,
    command: &'c [u8],
    block: [u8; LONGEST_BLOCK],
    /// The length of that block, 0 before the first one.
    count: usize,
    blocks: u32,
}

impl CardLine for TerminalAtLine<'_, '_> {
    ghost said = { λ _ _ _. Unit {0} };

    fn receive(&mut self, room: &mut [u8]) -> io::Result<Received> {
        let put = match self.count.min(LONGEST_BLOCK) {
            0 => self.terminal.transmit_into(self.command, room),
            count => self.terminal.received_into(&self.block[..count], room),
        };
        match put {
            Ok(EncodedTerminalTurn::Send { count, .. }) => Ok(Received::Octets(count)),
            _ => Ok(Received::Nothing),
        }
    }

    fn send(&mut self, block: &[u8]) -> io::Result<()> {
        self.blocks = self.blocks.saturating_add(1);
        let count = block.len().min(LONGEST_BLOCK);
        self.block[..count].copy_from_slice(&block[..count]);
        self.count = count;
        Ok(())
    }
}

/// A host with the same reply to every command.
#[derive(Drop)]
struct Replies<'a>(&'a [u8]);

impl Host for Replies<'_> {
    ghost served = { λ _ _ _. Unit {0} };

    ghost reply = { λ host. host.0.now };

    fn act(&mut self, _command: &[u8]) {}

    fn reply(&self) -> &[u8] {
        self.0
    }
}
