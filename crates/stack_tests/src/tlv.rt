//! Tests of which parts are equal, which objects are improper, and how many octets a check took.

mod as_value;
mod printed;

use crate::helpers::octets;
use as_value::{deep, flat, nodes_of, primitive, tag};
use std::alloc::Global;
use std::process::Abort;
use test_support::same;
use tlv_core::{Forest, ForestCheck, Form, Improper, Nodes};

/// The octets of two forests, and whether their parts are equal.
const PAIRS: [(&str, &str, bool); 14] = [
    ("", "", true),
    ("700400500112", "700400500112", true),
    ("700400500112", "", false),
    ("5A0112", "9A0112", false),
    ("5A0112", "5A0113", false),
    ("5A0112", "5A021200", false),
    ("5A0112", "5A810112", false),
    ("7000", "708100", false),
    ("7000", "6F00", false),
    ("7000", "5A00", false),
    ("70055003010203", "70055003010204", false),
    ("70055003010203", "700450020102", false),
    ("005A0112", "5A0112", false),
    ("5A011200", "5A0112", true),
];

/// Whether the parts that two lists of octets encode are equal.
fn have_same_parts(rt: &impl Abort, alloc: Global, one: &[u8], other: &[u8]) -> bool {
    flat(rt, alloc, one) == flat(rt, alloc, other)
}

/// Whether the parts of the forests in two texts are equal.
fn part_same(rt: &impl Abort, alloc: Global, one: &str, other: &str) -> bool {
    let one = octets(rt, alloc, one);
    let other = octets(rt, alloc, other);
    have_same_parts(rt, alloc, one.as_slice(), other.as_slice())
}

#[test]
fn parts_are_equal_field_by_field(rt: HostRuntime) {
    for &(one, other, equal) in &PAIRS {
        assert!(rt;
            same(part_same(&rt, rt.alloc(), one, other), equal),
            "{one} {other}"
        );
    }
}

/// A forest with an octet that is refused, the sixth.
const REFUSED: [u8; 7] = [0x6F, 0x04, 0xA5, 0x02, 0x5A, 0x01, 0x00];

/// Returns how many octets a check of that forest took.
fn taken() -> usize {
    let mut check = ForestCheck::new(65_536);
    let _ = check.feed(&REFUSED);
    check.taken()
}

#[test]
fn a_check_took_the_octets_before_a_refused_one(rt: HostRuntime) {
    assert!(rt; same(taken(), 5));
}

/// An object as its tag, its form, how many octets its value has, the form and the number of the objects around it; and
/// why it isn't a forest, if it isn't.
const OBJECTS: [([u8; 1], Form, usize, Form, u32, Option<Improper>); 6] = [
    ([0x6F], Form::One, 0, Form::One, 0, Some(Improper::Tag)),
    ([0x5A], Form::One, 128, Form::One, 0, Some(Improper::Form)),
    ([0x5A], Form::One, 0, Form::One, 17, Some(Improper::Depth)),
    // The depth comes before a wrong form.
    (
        [0x5A],
        Form::One,
        128,
        Form::Three,
        16,
        Some(Improper::Depth),
    ),
    // The largest forest, and one octet more.
    ([0x5A], Form::Four, 1_048_571, Form::One, 0, None),
    (
        [0x5A],
        Form::Four,
        1_048_572,
        Form::One,
        0,
        Some(Improper::Size),
    ),
];

/// Returns why an object alone isn't a forest, if it isn't. The list of it comes back.
fn improper(nodes: Nodes) -> Option<Improper> {
    match Forest::new(nodes) {
        Ok(_) => None,
        Err((nodes, why)) => same(nodes.into_inner().len(), 1).then_some(why),
    }
}

#[test]
fn improper_lists_come_back(rt: HostRuntime) {
    for &(octets, form, count, outer, around, why) in &OBJECTS {
        let innermost = primitive(&rt, rt.alloc(), tag(&rt, &octets), form, count);
        let node = deep(&rt, rt.alloc(), outer, innermost, around);
        assert!(rt;
            same(improper(nodes_of(&rt, rt.alloc(), node)), why),
            "{count} {around}"
        );
    }
}
