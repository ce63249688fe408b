//! Tests of why chains carry no command or response, of how faults are printed, and of what values show.

use crate::helpers::{all_show, octets};
use apdu_core::{
    Body, Command, CommandReason, CommandRef, ReceiveFault, Response, ResponseReason, ResponseRef,
    SendFault, receive_command, receive_response,
};
use block_core::Number;
use chain_core::ChainReason;
use octet_core::{After, Counted, Feeder, Octets, Stop};
use std::alloc::Global;
use std::process::Abort;
use test_support::{debugs, same};

/// Octets that carry no command, why, and how many of them are read.
const NO_COMMANDS: [(&str, ReceiveFault<CommandReason>, u64); 2] = [
    (
        "00000200A4A6FF",
        ReceiveFault::Apdu(Stop::Short { place: 2 }),
        6,
    ),
    (
        "0040",
        ReceiveFault::Chain(Stop::At {
            place: 1,
            reason: ChainReason::BadSequence,
        }),
        2,
    ),
];

/// Whether octets carry no command for this reason, and `count` of them are read.
fn carry_no_command(
    alloc: Global,
    octets: &[u8],
    why: ReceiveFault<CommandReason>,
    count: u64,
) -> bool {
    let mut reader = Counted::new(Feeder::new(octets, 4096, After::End));
    let fault = receive_command(alloc, &mut reader, 254, Number::Zero).err();
    same(fault, Some(why)) && same(reader.into_inner().given(), count)
}

/// Octets that carry only the first one of a response, and one octet more.
const NO_RESPONSE: [u8; 6] = [0x00, 0x00, 0x01, 0x90, 0x91, 0xFF];

/// Whether these octets carry no response, and the last of them isn't read.
fn carry_no_response(alloc: Global) -> bool {
    let mut reader = Counted::new(Feeder::new(&NO_RESPONSE, 4096, After::End));
    let fault = receive_response(alloc, &mut reader, 254, Number::Zero).err();
    let short: ReceiveFault<ResponseReason> = ReceiveFault::Apdu(Stop::Short { place: 1 });
    same(fault, Some(short)) && same(reader.into_inner().given(), 5)
}

#[test]
fn chains_that_carry_no_apdu(rt: HostRuntime) {
    for &(text, why, count) in &NO_COMMANDS {
        let octets = octets(&rt, rt.alloc(), text);
        assert!(rt;
            carry_no_command(rt.alloc(), octets.as_slice(), why, count),
            "{text}"
        );
    }
    assert!(rt; carry_no_response(rt.alloc()));
}

/// Faults of sending, as they are printed.
const SENT: [(SendFault, &str); 2] = [
    (SendFault::Memory, "memory"),
    (SendFault::Write { written: 4 }, "Write after 4 octets"),
];

/// Faults of receiving, as they are printed.
const RECEIVED: [(ReceiveFault<CommandReason>, &str); 4] = [
    (ReceiveFault::Memory, "memory"),
    (ReceiveFault::Read { taken: 9 }, "Read after 9 octets"),
    (
        ReceiveFault::Chain(Stop::At {
            place: 3,
            reason: ChainReason::OverIfs,
        }),
        "Chain: refused at 3: OverIfs",
    ),
    (
        ReceiveFault::Apdu(Stop::At {
            place: 6,
            reason: CommandReason::Trailing,
        }),
        "Apdu: refused at 6: Trailing",
    ),
];

#[test]
fn faults_are_printed(rt: HostRuntime) {
    assert!(rt; all_show(rt.alloc(), &SENT) && all_show(rt.alloc(), &RECEIVED));
}

/// VERIFY, with a PIN.
const VERIFY: [u8; 9] = [0x00, 0x20, 0x00, 0x80, 0x04, 0x31, 0x32, 0x33, 0x34];

/// Whether a command with the PIN that borrows it prints none of its octets.
fn lent_command_hides(rt: &impl Abort, alloc: Global) -> bool {
    let lent = CommandRef::decode(&VERIFY).ok().expect(rt, "a command");
    let seen = "CommandRef { shape: ShortPart, part_octets: 4, le: None }";
    debugs(alloc, &lent, seen)
}

/// Copies octets.
fn copied(rt: &impl Abort, alloc: Global, octets: &[u8]) -> Octets {
    Octets::of(Vec::from_slice(alloc, octets).expect(rt, "octets"))
}

/// Whether a command with the PIN prints none of its octets.
fn command_hides(rt: &impl Abort, alloc: Global) -> bool {
    let part = copied(rt, alloc, &VERIFY[5..]);
    let command = Command::new([0x00, 0x20, 0x00, 0x80], Body::ShortPart { part });
    let seen = "Command { body: ShortPart { part: Octets { octets: 4 } } }";
    debugs(alloc, &command.ok().expect(rt, "a command"), seen)
}

/// Whether a response that borrows its data field prints none of its octets.
fn lent_response_hides(rt: &impl Abort, alloc: Global) -> bool {
    let lent = ResponseRef::decode(&[0x12, 0x34, 0x63, 0xC2]);
    let seen = "ResponseRef { part_octets: 2, status: Warning }";
    debugs(alloc, &lent.ok().expect(rt, "a response"), seen)
}

/// Whether a response prints none of its octets.
fn response_hides(rt: &impl Abort, alloc: Global) -> bool {
    let response = Response::new(copied(rt, alloc, &[0x12]), 0x90, 0x00);
    let seen = "Response { part_octets: 1, status: Normal }";
    debugs(alloc, &response.ok().expect(rt, "a response"), seen)
}

#[test]
fn debug_shows_no_octet(rt: HostRuntime) {
    assert!(rt; lent_command_hides(&rt, rt.alloc()) && command_hides(&rt, rt.alloc()));
    assert!(rt; lent_response_hides(&rt, rt.alloc()) && response_hides(&rt, rt.alloc()));
}
