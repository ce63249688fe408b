//! What `Debug` shows of events.
//!
//! The folder `vectors` has texts that are read, and files of sessions. The program `hostile_sessions` has random
//! sessions, events that are refused, and all pairs of blocks disturbed.

use exchange_core::Event;
use test_support::debugs;

static EVENTS: [(Event, &str); 3] = [
    (Event::Transmit(&[0x31, 0x32]), "Transmit(2 octets)"),
    (Event::Reply(&[0x90, 0x00, 0x31]), "Reply(3 octets)"),
    (Event::AskIfsd(32), "AskIfsd(32)"),
];

#[test]
fn debug_shows_no_octet(rt: HostRuntime) {
    for (event, seen) in &EVENTS {
        assert!(rt; debugs(rt.alloc(), event, seen));
    }
}
