//! What the other tests share, and a test that the comparisons without a contract tell values apart.

use std::alloc::Global;
use std::fmt::Display;
use std::process::Abort;
use test_support::{debugs, of_hex, same, shows};

/// Decodes a hexadecimal text.
pub(super) fn octets(rt: &impl Abort, alloc: Global, text: &str) -> Vec<u8> {
    of_hex(alloc, text).expect(rt, "octets")
}

/// Whether each value of these rows is printed as its text.
pub(super) fn all_show<D: Display>(alloc: Global, rows: &[(D, &str)]) -> bool {
    for (value, text) in rows {
        if !shows(alloc, value, text) {
            return false;
        }
    }
    true
}

/// Whether `shows` and `debugs` tell one text from another.
fn tells_texts(alloc: Global) -> bool {
    shows(alloc, &"a", "a")
        && !shows(alloc, &"a", "b")
        && debugs(alloc, &Some(1u8), "Some(1)")
        && !debugs(alloc, &Some(1u8), "Some(2)")
}

/// Whether `same` tells one value from another.
fn tells_values() -> bool {
    same(Some(1u8), Some(1)) && !same(Some(1u8), Some(2)) && !same(Some(1u8), None)
}

#[test]
fn texts_and_values_are_told_apart(rt: HostRuntime) {
    assert!(rt; tells_texts(rt.alloc()) && tells_values());
}
