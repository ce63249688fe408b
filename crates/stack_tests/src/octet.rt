//! Tests of what the devices for tests read and keep, and of how refusals and lists are printed.

ghost use Rattle.std.specs.Prelude.{◌≢◌};

use octet_core::{After, Feeder, HexFault, Octets, Refusal, Refused, Taker, Text, WriteFault};
use std::alloc::Global;
use std::error::Error;
use std::io::{ErrorKind, Read, Write};
use test_support::{debugs, same, shows};

/// Whether a call of a reader returns `count` octets.
fn gives(feeder: &mut Feeder<'_>, room: &mut [u8; 4], count: usize) -> bool {
    match feeder.read(room) {
        Ok(given) => given == count,
        Err(_) => false,
    }
}

/// Whether a reader returns at most two octets in a call, and then begins again.
fn gives_step_by_step() -> bool {
    let mut room = [0u8; 4];
    let mut feeder = Feeder::new(b"abc", 2, After::Repeats);
    gives(&mut feeder, &mut room, 2)
        && gives(&mut feeder, &mut room, 1)
        && gives(&mut feeder, &mut room, 2)
        && same(room, *b"ab\0\0")
        && same(feeder.given(), 5)
}

/// Whether a call of a writer takes `count` of these octets.
fn takes(taker: &mut Taker, octets: &[u8], count: usize) -> bool {
    match taker.write(octets) {
        Ok(taken) => taken == count,
        Err(_) => false,
    }
}

/// Whether a writer takes at most two octets in a call, and three in all.
fn keeps_step_by_step() -> bool {
    let mut taker = Taker::new(3, 2, After::End);
    takes(&mut taker, b"abc", 2)
        && taker.kept() == b"ab".as_slice()
        && takes(&mut taker, b"cd", 1)
        && takes(&mut taker, b"d", 0)
        && takes(&mut taker, b"", 0)
        && taker.kept() == b"abc".as_slice()
}

#[test]
fn devices_go_step_by_step(rt: HostRuntime) {
    assert!(rt; gives_step_by_step());
    assert!(rt; keeps_step_by_step());
}

/// Returns the error of an empty reader.
fn read_fault(after: After) -> Option<ErrorKind>
    requires { after ≢ After.Repeats }
{
    let mut room = [0u8; 4];
    let read = Feeder::new(b"", 1, after).read(&mut room);
    read.err().map(|e| e.kind())
}

/// Returns the error of a writer with no room.
fn write_fault(after: After) -> Option<ErrorKind>
    requires { after ≢ After.Repeats }
{
    let written = Taker::new(0, 1, after).write(b"a");
    written.err().map(|e| e.kind())
}

/// Whether an empty reader and a writer with no room have this error.
fn fail_as(after: After, kind: Option<ErrorKind>) -> bool
    requires { after ≢ After.Repeats }
{
    same(read_fault(after), kind) && same(write_fault(after), kind)
}

#[test]
fn devices_end_or_fail_by_their_kinds(rt: HostRuntime) {
    assert!(rt; fail_as(After::End, None));
    assert!(rt; fail_as(After::Fails, Some(ErrorKind::Other)));
    assert!(rt; fail_as(After::Interrupted, Some(ErrorKind::Interrupted)));
}

const DIGIT: Refusal<HexFault> = Refusal {
    place: 0,
    reason: HexFault::Digit { place: 7 },
};

/// Whether a fault is an error of std, and is printed as this text.
fn fails_as<E: Error>(alloc: Global, error: &E, wanted: &str) -> bool {
    shows(alloc, error, wanted)
}

/// Whether refusals and faults are printed so.
fn refusals_print(alloc: Global) -> bool {
    fails_as(alloc, &DIGIT, "refused at 0: Digit at 7")
        && fails_as(alloc, &Refused::<HexFault>::Memory, "memory")
        && fails_as(alloc, &HexFault::Memory, "memory")
        && fails_as(alloc, &WriteFault { written: 5 }, "Write after 5 octets")
}

#[test]
fn refusals_are_printed(rt: HostRuntime) {
    assert!(rt; refusals_print(rt.alloc()));
}

/// Whether a list of octets prints none of them.
fn octets_hide(alloc: Global) -> bool {
    let held = vec![in alloc; 0x12u8, 0x34, 0x56].unwrap_or_else(|_| Vec::new(alloc));
    debugs(alloc, &Octets::of(held), "Octets { octets: 3 }")
}

/// Whether a text prints none of its octets.
fn text_hides(alloc: Global) -> bool {
    let text = String::from_str(alloc, "reply 9000").unwrap_or_else(|_| String::new(alloc));
    debugs(alloc, &Text::of(text), "Text { octets: 10 }")
}

#[test]
fn debug_shows_no_octet(rt: HostRuntime) {
    assert!(rt; octets_hide(rt.alloc()));
    assert!(rt; text_hides(rt.alloc()));
}

/// The devices for tests show how many octets they have, and none of them.
#[test]
fn devices_show_no_octet(rt: HostRuntime) {
    let feeder = Feeder::new(&[0x31, 0x32], 1, After::End);
    let seen = "Feeder { octets: 2, step: 1, after: End, place: 0, given: 0 }";
    assert!(rt; debugs(rt.alloc(), &feeder, seen));
    let taker = Taker::new(4, 1, After::Fails);
    let seen = "Taker { kept_octets: 0, room: 4, step: 1, after: Fails }";
    assert!(rt; debugs(rt.alloc(), &taker, seen));
}
