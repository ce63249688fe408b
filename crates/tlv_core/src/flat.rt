//! The parts of a forest as a flat list, without copies.

ghost use Rattle.std.specs.Prelude.{◌≡◌, ◌↔◌, IsTrue, ◌≤◌, length, map, IfOk, IfErr};
ghost use Rattle.octet_core.specs.Grammar.{Accepts, RefusesUnlessMemory, whole};
ghost use Rattle.tlv_core.specs.Tree.{Tree};
ghost use Rattle.tlv_core.specs.Forest.{IsForest};
ghost use Rattle.tlv_core.specs.Parts.{preorder};
ghost use Rattle.tlv_core.specs.Reasons.{IsReason};
ghost use Rattle.tlv_core.specs.Flat.{part_seen, placed_of, parts_in, parts_of};

use crate::part::{Part, PlacedPart};
use crate::reason::TlvReason;
use crate::walk::walk;
use octet_core::Refused;
use std::alloc::Global;
use std::fmt::{self, Debug, Formatter, Write};
use std::marker::Model;

/// The objects of a forest in the order of their headers, each before those inside it, without the fillers. Their
/// values are borrowed from the octets of the forest.
///
/// Contracts see the list of parts, each with the octets of its value and their place.
#[derive(Drop)]
pub struct FlatForest<'a> {
    parts: Vec<Part<'a>>,
}

impl<'a> Model for FlatForest<'a> {
    ghost use Rattle.std.specs.Prelude.{List, map};
    ghost use Rattle.tlv_core.specs.Flat.{PartValue, part_seen};

    ghost Value = { List PartValue };

    ghost view = { λ flat. map part_seen flat.parts.items };
}

impl<'a> FlatForest<'a> {
    /// Reads all the octets as one forest of at most `max` octets; `max` is at most 1,048,576. The error is `Short` at
    /// their end if a forest could continue there, `At` the first octet after which none can, or `Memory` if an
    /// allocation fails.
    pub fn read(
        alloc: Global,
        octets: &'a [u8],
        max: usize,
    ) -> Result<FlatForest<'a>, Refused<TlvReason>>
        requires { max ≤ 1048576 }
        ensures found { IfOk result
            (λ _. (t : Tree) × Accepts whole (IsForest max) octets.now t (length octets.now)) }
        ensures places { IfOk result
            (λ flat. (t : Tree) → IsForest max t octets.now → flat ≡ parts_in octets.now t) }
        ensures values { IfOk result
            (λ flat. (t : Tree) → IsForest max t octets.now → flat ≡ parts_of 1 0 t) }
        ensures refused { IfErr result
            (RefusesUnlessMemory whole (IsForest max) (IsReason max) octets.now) }
    {
        let parts = walk(alloc, octets, max)?;
        Ok(FlatForest { parts })
    }

    /// Borrows the parts.
    pub fn parts(&self) -> &[Part<'a>]
        ensures { map part_seen result.now ≡ self.now }
    {
        self.parts.as_slice()
    }
}

impl PartialEq for FlatForest<'_> {
    ghost use lib.Pointwise.{pointwise};
    ghost use Rattle.tlv_core.specs.Same.{same_part, parts_equiv};
    ghost use Rattle.std.specs.Cmp.{partial_equiv_from_equiv};

    ghost eq = { pointwise same_part };

    ghost laws = { partial_equiv_from_equiv parts_equiv };

    fn eq(&self, other: &Self) -> bool {
        have_same(self.parts(), other.parts())
    }
}

impl Eq for FlatForest<'_> {
    ghost use Rattle.tlv_core.specs.Same.{parts_equiv};

    ghost laws = { parts_equiv };
}

/// Shows how many parts there are.
impl Debug for FlatForest<'_> {
    fn fmt<W: Write>(&self, f: &mut Formatter<W>) -> fmt::Result {
        f.debug_struct("FlatForest")
            .field("parts", &self.parts.len())
            .finish()
    }
}

/// Reads all the octets as one forest of at most `max` octets, and returns its objects by their places alone; `max` is
/// at most 1,048,576. The objects are in the order of their headers, each before those inside it, without the fillers.
/// The errors are those of [`FlatForest::read`].
pub fn placed_parts(
    alloc: Global,
    octets: &[u8],
    max: usize,
) -> Result<Vec<PlacedPart>, Refused<TlvReason>>
    requires { max ≤ 1048576 }
    ensures found { IfOk result
        (λ _. (t : Tree) × Accepts whole (IsForest max) octets.now t (length octets.now)) }
    ensures places { IfOk result
        (λ parts. (t : Tree) → IsForest max t octets.now → map placed_of parts.items ≡ preorder 1 0 t) }
    ensures refused { IfErr result
        (RefusesUnlessMemory whole (IsForest max) (IsReason max) octets.now) }
{
    walk(alloc, octets, max)
}

/// Whether two lists have equal parts in the same order.
fn have_same(parts: &[Part<'_>], others: &[Part<'_>]) -> bool
    ensures { IsTrue result ↔ (map part_seen parts.now ≡ map part_seen others.now) }
{
    if parts.len() != others.len() {
        return false;
    }
    for (place, part) in parts.iter().enumerate() {
        if !is_same(part, &others[place]) {
            return false;
        }
    }
    true
}

/// Whether two parts are equal.
fn is_same(one: &Part<'_>, other: &Part<'_>) -> bool
    ensures { IsTrue result ↔ (part_seen one.now ≡ part_seen other.now) }
{
    let value = one.value;
    let other_value = other.value;
    one.depth == other.depth
        && one.tag == other.tag
        && one.form == other.form
        && one.place == other.place
        && value == other_value
}
