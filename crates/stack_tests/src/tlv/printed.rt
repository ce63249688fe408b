//! The printed forms of faults, and of values that may have octets of a message.

use super::as_value::{flat, forest, tag};
use crate::helpers::{all_show, octets};
use octet_core::{Format, Octets};
use std::alloc::Global;
use std::process::Abort;
use test_support::{debugs, shows};
use tlv_core::{
    FillFault, ForestCheck, ForestReader, Improper, Known, LARGEST_FOREST, LentCheck, Node, Part,
};

const IMPROPER: [(Improper, &str); 4] = [
    (Improper::Depth, "Depth"),
    (Improper::Tag, "Tag"),
    (Improper::Form, "Form"),
    (Improper::Size, "Size"),
];

#[test]
fn faults_are_named(rt: HostRuntime) {
    assert!(rt; all_show(rt.alloc(), &IMPROPER));
    assert!(rt; shows(rt.alloc(), &FillFault::Memory, "memory"));
}

/// An object with an object inside.
const OBJECTS: [u8; 7] = [0x70, 0x05, 0x5A, 0x03, 0x12, 0x34, 0x56];

/// Whether a check that took five octets prints none of them.
fn check_hides(alloc: Global) -> bool {
    let mut check = ForestCheck::new(LARGEST_FOREST);
    let _ = check.feed(&OBJECTS[..5]);
    let seen = "ForestCheck { taken: 5, open_objects: 1, value_octets_left: 2, refusal: None }";
    debugs(alloc, &check, seen)
}

/// Whether a check of the caller that took five octets prints none of them.
fn lent_check_hides(alloc: Global) -> bool {
    let mut check = LentCheck::begin(LARGEST_FOREST);
    let _ = check.feed(&OBJECTS[..5]);
    let seen = "LentCheck { taken: 5, open_objects: 1, value_octets_left: 2, refused: None }";
    debugs(alloc, &check, seen)
}

/// Whether a reader prints its numbers alone.
fn reader_hides(rt: &impl Abort, alloc: Global) -> bool {
    let reader = ForestReader::new(alloc, LARGEST_FOREST).expect(rt, "a reader");
    let seen = "ForestReader { taken: 0, open_objects: 0, value_octets_left: 0, refusal: None }";
    debugs(alloc, &reader, seen)
}

#[test]
fn debug_of_a_check_shows_no_octet(rt: HostRuntime) {
    assert!(rt; check_hides(rt.alloc()));
    assert!(rt; lent_check_hides(rt.alloc()));
    assert!(rt; reader_hides(&rt, rt.alloc()));
}

/// Whether the last part prints no octet of its value.
fn part_hides(alloc: Global, parts: &[Part]) -> bool {
    let seen = "Part { depth: 2, tag: Tag { octets: [90, 0, 0], count: 1 }, form: One, place: 4, \
        value_octets: 3 }";
    match parts.last() {
        Some(part) => debugs(alloc, part, seen),
        None => false,
    }
}

/// Whether the parts of the object print no octet of a value.
fn parts_hide(rt: &impl Abort, alloc: Global) -> bool {
    let flat = flat(rt, alloc, &OBJECTS);
    part_hides(alloc, flat.parts()) && debugs(alloc, &flat, "FlatForest { parts: 2 }")
}

/// Whether the last node prints no octet of its value.
fn node_hides(alloc: Global, nodes: &[Node]) -> bool {
    let seen = "Constructed { tag: Tag { octets: [112, 0, 0], count: 1 }, form: One, \
        nodes: Nodes { nodes: 1 } }";
    match nodes.last() {
        Some(node) => debugs(alloc, node, seen),
        None => false,
    }
}

/// Whether the forest of the object prints no octet of a value.
fn forest_hides(rt: &impl Abort, alloc: Global) -> bool {
    let forest = forest(rt, alloc, &OBJECTS);
    node_hides(alloc, forest.nodes().get())
        && debugs(alloc, &forest, "Forest { nodes: Nodes { nodes: 1 } }")
}

/// Whether a known value prints none of its octets.
fn known_hides(rt: &impl Abort, alloc: Global) -> bool {
    let known = Known {
        tag: tag(rt, &[0x5A]),
        format: Format::Numeric,
        value: Octets::of(octets(rt, alloc, "123456")),
    };
    let seen = "Known { tag: Tag { octets: [90, 0, 0], count: 1 }, format: Numeric, \
        value: Octets { octets: 3 } }";
    debugs(alloc, &known, seen)
}

#[test]
fn debug_of_objects_shows_no_octet(rt: HostRuntime) {
    assert!(rt; parts_hide(&rt, rt.alloc()));
    assert!(rt; forest_hides(&rt, rt.alloc()));
    assert!(rt; known_hides(&rt, rt.alloc()));
}
