//! Checking and reading of forests of data objects.

ghost use Rattle.std.specs.Prelude.{◌<◌, length};

use crate::work::{Watch, Work};
use std::alloc::{AllocError, Global};
use std::io::ErrorKind;
use tlv_core::{FlatForest, ForestCheck, decode};

/// The most octets of a forest.
const SIZE: usize = 65_536;

/// Four objects at three depths, in 18 octets.
const NESTED: [u8; 18] = [
    0x70, 0x10, 0x5A, 0x06, 0x12, 0x34, 0x56, 0x78, 0x90, 0x12, 0x70, 0x06, 0x9F, 0x02, 0x03, 0x00,
    0x10, 0x00,
];

/// Judges a forest of nested objects, and one of 372 objects beside each other with values of 173 octets.
pub(crate) fn judge_each(rt: &HostRuntime, watch: &mut Watch) {
    judge_many(rt, watch, "nested objects", &NESTED);
    let mut object = [0u8; 176];
    object[..3].copy_from_slice(&[0x5A, 0x81, 173]);
    judge_many(rt, watch, "flat objects", &object);
}

/// Judges a forest in which these objects are repeated.
fn judge_many(rt: &HostRuntime, watch: &mut Watch, name: &'static str, objects: &[u8])
    requires { 0 < length objects.now }
{
    match many(rt.alloc(), objects) {
        Ok(forest) => judge(rt, watch, name, forest.as_slice()),
        Err(_) => watch.stop(ErrorKind::OutOfMemory),
    }
}

/// Repeats objects, in at most 64 KiB.
fn many(alloc: Global, objects: &[u8]) -> Result<Vec<u8>, AllocError>
    requires { 0 < length objects.now }
{
    let mut octets = Vec::new(alloc);
    for _ in 0..SIZE / objects.len() {
        octets.extend_from_slice(objects)?;
    }
    Ok(octets)
}

/// Checks a forest at once and octet by octet, reads its parts, and reads its tree and drops it.
fn judge(rt: &HostRuntime, watch: &mut Watch, name: &'static str, octets: &[u8]) {
    watch.start(rt);
    watch.tell(rt, work_of(name, octets, "check"), checked(octets));
    watch.tell(
        rt,
        work_of(name, octets, "pieces"),
        checked_in_pieces(octets),
    );
    watch.tell(
        rt,
        work_of(name, octets, "parts lent"),
        parts(rt.alloc(), octets),
    );
    watch.tell(
        rt,
        work_of(name, octets, "tops read"),
        tops(rt.alloc(), octets),
    );
}

/// Returns the work on a forest.
fn work_of(name: &'static str, octets: &[u8], unit: &'static str) -> Work {
    Work {
        name,
        octets: octets.len(),
        unit,
    }
}

/// Checks a forest once.
fn checked(octets: &[u8]) -> Option<usize> {
    let mut check = ForestCheck::new(SIZE);
    (check.feed(octets).is_ok() && check.finish().is_ok()).then_some(1)
}

/// Checks a forest octet by octet, and returns how many there are.
fn checked_in_pieces(octets: &[u8]) -> Option<usize> {
    let mut check = ForestCheck::new(SIZE);
    for octet in octets {
        if check.feed(&[*octet]).is_err() {
            return None;
        }
    }
    check.finish().is_ok().then_some(octets.len())
}

/// Reads a forest's parts, and returns how many there are.
fn parts(alloc: Global, octets: &[u8]) -> Option<usize> {
    match FlatForest::read(alloc, octets, SIZE) {
        Ok(forest) => Some(forest.parts().len()),
        Err(_) => None,
    }
}

/// Reads a forest's tree, and returns how many objects it has at the top.
fn tops(alloc: Global, octets: &[u8]) -> Option<usize> {
    match decode(alloc, octets, SIZE) {
        Ok(forest) => Some(forest.nodes().get().len()),
        Err(_) => None,
    }
}
