//! The longest exchange between both ends of T=1 in memory, in each way.

use crate::work::{Watch, Work};
use crate::{buffers, lines};
use atr_core::T1Params;
use block_core::encode;
use std::alloc::Global;
use std::io::ErrorKind;
use t1_core::{Card, CardTurn, Terminal, TerminalTurn};

/// The length of the longest command, in octets.
const COMMAND: usize = 65_544;

/// The length of the longest response, in octets.
const RESPONSE: usize = 65_538;

/// More blocks than an end sends in the longest exchange.
pub(crate) const MOST_BLOCKS: usize = 10_000;

/// A command, and the reply to it.
#[derive(Clone, Copy)]
pub(crate) struct Messages<'a> {
    pub(crate) command: &'a [u8],
    pub(crate) reply: &'a [u8],
}

/// Exchanges the longest command and response in each way.
pub(crate) fn exchange_longest(rt: &HostRuntime, watch: &mut Watch) {
    let command = vec![in rt.alloc(); 0xA5u8; COMMAND].ok();
    let reply = vec![in rt.alloc(); 0x5Au8; RESPONSE].ok();
    match (command.as_deref(), reply.as_deref()) {
        (Some(command), Some(reply)) => exchange_each(rt, watch, Messages { command, reply }),
        _ => watch.stop(ErrorKind::OutOfMemory),
    }
}

/// Exchanges these messages with information field sizes of 254 and of 32.
fn exchange_each(rt: &HostRuntime, watch: &mut Watch, messages: Messages<'_>) {
    exchange_at(rt, watch, 254, messages);
    exchange_at(rt, watch, 32, messages);
}

/// Exchanges these messages between two ends that take information fields of this size.
fn exchange_at(rt: &HostRuntime, watch: &mut Watch, size: u8, messages: Messages<'_>) {
    match ends(rt.alloc(), size) {
        Some((mut terminal, mut card)) => {
            exchange_between(rt, watch, &mut terminal, &mut card, messages);
        }
        None => watch.stop(ErrorKind::OutOfMemory),
    }
}

/// Returns two ends that take information fields of this size, if there is memory for them.
fn ends(alloc: Global, size: u8) -> Option<(Terminal, Card)> {
    let params = T1Params::new(size, 4, 5)?;
    let terminal = Terminal::new(alloc, params).ok()?;
    Some((terminal, Card::new(alloc, params).ok()?))
}

/// Whether the terminal asks for this size, and the card grants it.
fn is_granted(terminal: &mut Terminal, card: &mut Card, size: u8) -> bool {
    match terminal.ask_ifs(size) {
        Ok(TerminalTurn::Send(asked)) => match card.received(encode(&asked).as_slice()) {
            Ok(CardTurn::Send(back)) => {
                terminal.received(encode(&back).as_slice()) == Ok(TerminalTurn::IfsSet)
            }
            _ => false,
        },
        _ => false,
    }
}

/// Exchanges these messages between these ends in each way, one after the other. Before that the terminal asks for
/// fields of the card's size.
fn exchange_between(
    rt: &HostRuntime,
    watch: &mut Watch,
    terminal: &mut Terminal,
    card: &mut Card,
    messages: Messages<'_>,
) {
    let size = terminal.ifsc();
    if !is_granted(terminal, card, size) {
        return watch.stop(ErrorKind::InvalidData);
    }
    watch.start(rt);
    let blocks = buffers::exchanged(terminal, card, messages);
    watch.tell(rt, work_of("longest exchange by hand"), blocks);
    let blocks = lines::exchanged(terminal, card, messages);
    watch.tell(rt, work_of("longest exchange over a line"), blocks);
    let blocks = lines::served(terminal, card, messages);
    watch.tell(rt, work_of("longest exchange served"), blocks);
}

/// Returns the work of an exchange.
fn work_of(name: &'static str) -> Work {
    Work {
        name,
        octets: COMMAND + RESPONSE,
        unit: "blocks",
    }
}
