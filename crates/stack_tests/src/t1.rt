//! Ends with limits of their own, and what `Debug` shows of turns.
//!
//! The folder `vectors` has sessions call by call, as files that each end replays, and `tests/c` has the calls.

use atr_core::T1Params;
use block_core::{Block, Number};
use std::alloc::Global;
use std::process::Abort;
use t1_core::{Card, CardFault, CardTurn, Terminal, TerminalFault, TerminalTurn};
use test_support::debugs;

/// Returns the parameters of a card that takes information fields of 32 octets.
fn params(rt: &impl Abort) -> T1Params {
    T1Params::new(32, 4, 5).expect(rt, "parameters")
}

fn terminal_for(rt: &impl Abort, alloc: Global, most: usize) -> Terminal {
    Terminal::with_limits(alloc, params(rt), most, most).expect(rt, "a terminal")
}

fn card_for(rt: &impl Abort, alloc: Global, most: usize) -> Card {
    Card::with_limits(alloc, params(rt), most, most).expect(rt, "a card")
}

/// Returns so many octets 00.
fn zeros(rt: &impl Abort, alloc: Global, count: usize) -> Vec<u8> {
    vec![in alloc; 0; count].expect(rt, "octets")
}

/// Whether a terminal refuses these octets as a command that is too long.
fn refuses(t: &mut Terminal, octets: &[u8]) -> bool {
    matches!(t.transmit(octets), Err(TerminalFault::TooLong))
}

/// Whether a terminal sends a block of these octets.
fn sends(t: &mut Terminal, octets: &[u8]) -> bool {
    matches!(t.transmit(octets), Ok(TerminalTurn::Send(_)))
}

/// Whether a card that got a command refuses these octets as a reply that is too long.
fn is_refused_by_card(c: &mut Card, octets: &[u8]) -> bool {
    let select = [0x00, 0x00, 0x05, 0x00, 0xA4, 0x04, 0x00, 0x00, 0xA5];
    matches!(c.received(&select), Ok(CardTurn::Asked))
        && matches!(c.reply(octets), Err(CardFault::TooLong))
}

/// Limits that a caller sets, and the longest command and reply under them.
static LIMITS: [(usize, usize, usize); 2] = [(5, 5, 5), (usize::MAX, 65_544, 65_538)];

#[test]
fn limits_of_the_caller(rt: HostRuntime) {
    for &(most, command, reply) in &LIMITS {
        let mut t = terminal_for(&rt, rt.alloc(), most);
        let long = zeros(&rt, rt.alloc(), command.saturating_add(1));
        assert!(rt; refuses(&mut t, long.as_slice()));
        let longest = zeros(&rt, rt.alloc(), command);
        assert!(rt; sends(&mut t, longest.as_slice()));
        let mut c = card_for(&rt, rt.alloc(), most);
        let long = zeros(&rt, rt.alloc(), reply.saturating_add(1));
        assert!(rt; is_refused_by_card(&mut c, long.as_slice()));
    }
}

#[test]
fn turns_show_no_octet_of_a_message(rt: HostRuntime) {
    match Block::info(0, Number::Zero, false, &[0x31, 0x32]) {
        Some(block) => {
            let seen =
                "Send(Block { nad: 0, pcb: Info { number: Zero, more: false }, inf_octets: 2 })";
            assert!(rt; debugs(rt.alloc(), &TerminalTurn::Send(block), seen));
        }
        None => assert!(rt; false),
    }
    assert!(rt; debugs(rt.alloc(), &CardTurn::Asked, "Asked"));
}
