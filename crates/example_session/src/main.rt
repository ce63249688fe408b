//! One exchange between both ends of T=1, from the card's answer to reset.
#![tactic(auto)]

ghost use Rattle.std.specs.Prelude.{[], ◌∷◌};

use atr_core::{decode, t1_params};
use line_core::{Host, Received, TerminalLine, UntimedLine, exchange, serve};
use octet_core::{Counted, hex_upper};
use std::io;
use t1_core::{Card, Terminal};

const ATR: [u8; 7] = [0x3B, 0x80, 0x81, 0x31, 0x20, 0x45, 0x55];

const SELECT: [u8; 5] = [0x00, 0xA4, 0x04, 0x00, 0x00];

fn main(rt: HostRuntime) -> io::Result<()> {
    let said = decode(&ATR).ok().and_then(|(atr, _)| t1_params(&atr).ok());
    let Some(params) = said else {
        return println!(rt; "no card of T=1");
    };
    let mut terminal = Terminal::new(rt.alloc(), params)?;
    let card = Card::new(rt.alloc(), params)?;
    let mut wire = Wire { rt: &rt, card };
    // The terminal's application stops after a hundred blocks.
    match exchange(&mut terminal, &mut wire, &SELECT, 100) {
        Ok(answer) => println!(rt; "answer {}", hex_upper(rt.alloc(), answer)?),
        Err(_) => println!(rt; "no answer"),
    }
}

/// The card's application, which answers every command with 9000.
#[derive(Drop)]
struct Done;

impl Host for Done {
    ghost served = { λ _ _ _. Unit {0} };

    ghost reply = { λ _. 144 ∷ 0 ∷ [] };

    fn act(&mut self, _command: &[u8]) {}

    fn reply(&self) -> &[u8] {
        &[0x90, 0x00]
    }
}

/// A line to a card in this program, which prints the blocks on it.
#[derive(Drop)]
struct Wire<'a> {
    rt: &'a HostRuntime,
    card: Card,
}

impl TerminalLine for Wire<'_> {
    ghost said = { λ _ _ _. Unit {0} };

    fn transceive(&mut self, block: &[u8], _waiting: u8, room: &mut [u8]) -> io::Result<Received> {
        println!(self.rt; "terminal {}", hex_upper(self.rt.alloc(), block)?)?;
        let mut out = Vec::new(self.rt.alloc());
        let mut line = UntimedLine::new(Counted::new(block), Counted::new(&mut out));
        // The card's reader ends after the block, and with it the serving.
        if serve(&mut self.card, &mut line, &mut Done, 2).is_err() {
            return Ok(Received::Nothing);
        }
        println!(self.rt; "card {}", hex_upper(self.rt.alloc(), &out)?)?;
        let count = out.len().min(room.len());
        room[..count].copy_from_slice(&out[..count]);
        Ok(Received::Octets(count))
    }
}
