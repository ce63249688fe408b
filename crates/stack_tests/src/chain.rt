//! Tests of how refusals of chains are printed, and of what a receiver and a cut message show.

use crate::helpers::all_show;
use block_core::Number;
use chain_core::{ChainReason, ReadRefusal, Receiver, cut};
use octet_core::Stop;
use std::alloc::Global;
use std::process::Abort;
use test_support::debugs;

const BAD_LRC: Stop<ChainReason> = Stop::At {
    place: 3,
    reason: ChainReason::BadLrc,
};

/// Refusals of a chain that is read from a source, as they are printed.
const REFUSALS: [(ReadRefusal, &str); 2] = [
    (ReadRefusal::Read { taken: 7 }, "Read after 7 octets"),
    (ReadRefusal::Stop(BAD_LRC), "refused at 3: BadLrc"),
];

#[test]
fn refusals_of_a_source_are_printed(rt: HostRuntime) {
    assert!(rt; all_show(rt.alloc(), &REFUSALS));
}

const MESSAGE: [u8; 5] = [0x00, 0x20, 0x00, 0x80, 0x12];

/// Whether a message that is cut prints none of its octets.
fn cut_hides(alloc: Global) -> bool {
    let blocks = cut(&MESSAGE, 2, Number::Zero);
    debugs(
        alloc,
        &blocks,
        "Cut { octets_left: 5, ifs: 2, number: Zero }",
    )
}

/// Returns a receiver that took five octets.
fn under_way(rt: &impl Abort, alloc: Global) -> Receiver {
    let mut receiver = Receiver::new(alloc, 2, Number::Zero, 8).expect(rt, "a receiver");
    let _ = receiver.feed(&[0x00, 0x20, 0x02, 0x31, 0x32]);
    receiver
}

#[test]
fn debug_shows_no_octet(rt: HostRuntime) {
    assert!(rt; cut_hides(rt.alloc()));
    let receiver = under_way(&rt, rt.alloc());
    let seen =
        "Receiver { state: LentReceiver { ifs: 2, first: Zero, max: 8, blocks: 0, joined: 0, \
        stage: Rest { more: true, len: 2 }, came: 2, done: false, refusal: None } }";
    assert!(rt; debugs(rt.alloc(), &receiver, seen));
}
