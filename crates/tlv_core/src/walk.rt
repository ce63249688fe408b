//! Reading of all objects of a forest, for results that keep something of each.

ghost use Rattle.std.specs.Prelude.{◌≡◌, ℕ, List, ◌≤◌, length, map, IfOk, IfErr};
ghost use Rattle.octet_core.specs.Grammar.{Accepts, RefusesUnlessMemory, whole};
ghost use Rattle.tlv_core.specs.Tree.{Tree};
ghost use Rattle.tlv_core.specs.Forest.{IsForest};
ghost use Rattle.tlv_core.specs.Parts.{Placed, preorder};
ghost use Rattle.tlv_core.specs.Reasons.{IsReason};
ghost use Rattle.tlv_core.specs.Flat.{IsInside, part_seen, part_in, placed_of};

use crate::part::{Part, PlacedPart};
use crate::part_walk::PartWalk;
use crate::reason::TlvReason;
use octet_core::Refused;
use std::alloc::Global;

/// What is kept of each object.
pub(crate) trait Keep<'a>: Copy {
    /// What contracts see of it.
    ghost Seen: { Type 0 };

    /// Maps what is kept to what contracts see.
    ghost seen: { Self → Seen };

    /// Maps an object, by its place in the octets of the forest, to what contracts see.
    ghost seen_in: { List ℕ → Placed → Seen };

    /// Returns what is kept of an object of the octets.
    fn kept(part: PlacedPart, octets: &'a [u8]) -> Self
        requires { IsInside octets.now part }
        ensures { seen result ≡ seen_in octets.now (placed_of part) };
}

/// Borrows the value. If the octets end before the value does, the part has the octets that are there.
impl<'a> Keep<'a> for Part<'a> {
    ghost use Rattle.tlv_core.specs.Flat.{PartValue};

    ghost Seen = { PartValue };

    ghost seen = { part_seen };

    ghost seen_in = { part_in };

    fn kept(part: PlacedPart, octets: &'a [u8]) -> Self {
        let rest = &octets[part.place as usize..];
        Part {
            depth: usize::from(part.depth),
            tag: part.tag,
            form: part.form,
            place: part.place as usize,
            value: &rest[..rest.len().min(part.len as usize)],
        }
    }
}

/// Keeps the place alone.
impl<'a> Keep<'a> for PlacedPart {
    ghost Seen = { Placed };

    ghost seen = { placed_of };

    ghost seen_in = { λ octets placed. placed };

    fn kept(part: PlacedPart, _octets: &'a [u8]) -> Self {
        part
    }
}

/// Returns what is kept of the objects of the forest that all the octets encode, in the order of their
/// headers.
pub(crate) fn walk<'a, K: Keep<'a>>(
    alloc: Global,
    octets: &'a [u8],
    max: usize,
) -> Result<Vec<K>, Refused<TlvReason>>
    requires { max ≤ 1048576 }
    ensures found { IfOk result
        (λ _. (t : Tree) × Accepts whole (IsForest max) octets.now t (length octets.now)) }
    ensures places { IfOk result
        (λ kept. (t : Tree) → IsForest max t octets.now
        → map K.seen kept.items ≡ map (K.seen_in octets.now) (preorder 1 0 t)) }
    ensures refused { IfErr result
        (RefusesUnlessMemory whole (IsForest max) (IsReason max) octets.now) }
{
    let mut walk = PartWalk::new(max);
    let mut parts = Vec::new(alloc);
    while let Some(part) = walk.next_part(octets)? {
        if parts.push(K::kept(part, octets)).is_err() {
            return Err(Refused::Memory);
        }
    }
    Ok(parts)
}
