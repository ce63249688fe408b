//! The parts of a forest (EMV 4.3 Book 3, Annex B; ISO/IEC 7816-4, clause 5.2.2).

ghost use Rattle.std.specs.Prelude.{◌≡◌, ◌≤◌, ◌<◌, List, [], ◌∷◌, ◌++◌, length, map, drop, slice_get, IfOk, IfErr};
ghost use Rattle.octet_core.specs.Grammar.{whole, Refuses};
ghost use Rattle.tlv_core.specs.Forest.{IsForest, IsProper, largest};
ghost use Rattle.tlv_core.specs.Reasons.{IsReason};
ghost use Rattle.tlv_core.specs.Tree.{Tree};
ghost use Rattle.c_lent.specs.Verdict.{IsRefusal, Tells, filled, wrong_argument};
ghost use Rattle.c_lent.specs.Tlv.{tlv_reason};
ghost use Rattle.c_lent.specs.Parts.{part_put, tag_shown, tag_of, tag_is, is_on, found, parts_shown, FindsFirst, PutsParts, ArePut};

use crate::verdict::Verdict;
use octet_core::Stop;
use tlv_core::{LARGEST_FOREST, PartWalk, PlacedPart, Tag, TlvReason};

/// A tag: `count` octets, 1 to 3, and 0 after them.
#[repr(C)]
#[derive(Clone, Copy)]
pub struct CTag {
    pub octets: [u8; 3],
    pub count: u8,
}

/// An object of a forest. Its value is the `len` octets from offset `place` on; the value of a constructed object holds
/// the objects inside it.
#[repr(C)]
#[derive(Clone, Copy)]
pub struct CPart {
    /// The depth at which it is, 1 to 16.
    pub depth: u8,
    /// 1 if it is constructed, otherwise 0.
    pub is_constructed: u8,
    /// How many octets its length field has, 1 to 5.
    pub len_octets: u8,
    pub tag: CTag,
    pub place: usize,
    pub len: usize,
}

/// A value that is known for a tag. `format` is 0 numeric, 1 compressed numeric, 2 any other.
#[repr(C)]
#[derive(Clone, Copy)]
pub struct CKnown<'a> {
    pub tag: CTag,
    pub format: u8,
    pub value: &'a [u8],
}

/// Returns the index of the first part on a path of tags, or the number of parts if there is none.
///
/// A path of one tag leads to the first outermost object that has it. A longer path leads to the first object that the
/// rest of the path finds inside an outermost object with the first tag; these objects are tried in order.
pub fn tlv_first(parts: &[CPart], path: &[CTag]) -> usize
    ensures inside { result ≤ length parts.now }
    ensures found { drop result parts.now ≡ found path.now 0 parts.now }
    ensures tree { (t : Tree) → IsProper 1 t → parts.now ≡ parts_shown t →
        FindsFirst (map tag_of path.now) t (slice_get parts.now result) }
{
    first_of(parts, path)
}

/// Returns the index of the first part that ends the path, or the number of parts.
fn first_of(parts: &[CPart], path: &[CTag]) -> usize
    ensures inside { result ≤ length parts.now }
    ensures found { drop result parts.now ≡ found path.now 0 parts.now }
{
    let mut met = 0;
    for (index, part) in parts.iter().enumerate() {
        met = met.min((part.depth as usize).saturating_sub(1));
        if is_on(path, met, part) {
            met += 1;
            if met == path.len() {
                return index;
            }
        }
    }
    parts.len()
}

/// Whether a part has the next tag of the path, after so many tags, at its depth.
fn is_on(path: &[CTag], met: usize, part: &CPart) -> bool
    requires { met < 256 }
    ensures { result ≡ is_on path.now met part.now }
{
    part.depth as usize == met + 1 && is_tag_after(path, met, &part.tag)
}

fn is_tag_after(path: &[CTag], met: usize, tag: &CTag) -> bool
    ensures { result ≡ tag_is (slice_get path.now met) (tag_of tag.now) }
{
    match path.get(met) {
        Some(own) => octets_of(own) == octets_of(tag),
        None => false,
    }
}

/// Returns the octets of a tag. A count above 3 is taken as 3.
pub fn octets_of(tag: &CTag) -> &[u8]
    ensures { result.now ≡ tag_of tag.now }
{
    &tag.octets[..(tag.count as usize).min(3)]
}

/// Puts the parts of a forest of at most `max` octets into an array: its objects in the order of their
/// headers, each before those inside it, without the fillers.
///
/// It reads the octets once, and writes as it reads. If they are refused, the content of the array is unspecified. If the
/// array is too small, it has the first of the parts.
pub fn tlv_parts(octets: &[u8], max: usize, out: &mut [CPart]) -> Verdict
    ensures parts { max ≤ largest → (IsRefusal result → ⊥) →
        PutsParts max octets.now out.old out.new result }
    ensures refused { IsRefusal result →
        Tells tlv_reason (Refuses whole (IsForest max) (IsReason max) octets.now) result }
    ensures argument { largest < max → result ≡ wrong_argument 0 }
    ensures stays { largest < max → out.new ≡ out.old }
{
    if max > LARGEST_FOREST {
        return Verdict::argument();
    }
    match put_parts(octets, max, out) {
        Ok(count) => Verdict::put(count, out.len()),
        Err(stop) => Verdict::stopped(stop),
    }
}

/// Puts the parts of a forest into an array as far as it has room, and returns how many there are.
///
/// Parts with short headers, which are most, have a loop of their own. It saves a third of the time.
fn put_parts(octets: &[u8], max: usize, out: &mut [CPart]) -> Result<usize, Stop<TlvReason>>
    requires { max ≤ largest }
    ensures ok { IfOk result (ArePut max octets.now out.old out.new) }
    ensures refused { IfErr result (Refuses whole (IsForest max) (IsReason max) octets.now) }
{
    let mut walk = PartWalk::new(max);
    let mut count = 0;
    loop {
        while let Some(part) = walk.next_short(octets) {
            put_at(&part, out, count);
            count += 1;
        }
        match walk.next_part(octets)? {
            Some(part) => put_at(&part, out, count),
            None => return Ok(count),
        }
        count += 1;
    }
}

/// Puts a part at an index of the array, if the array has that index.
#[inline(always)]
fn put_at(part: &PlacedPart, out: &mut [CPart], place: usize)
    ensures { (all : List CPart) → (old : List CPart) → place ≡ length all
        → out.old ≡ filled all old
        → out.new ≡ filled (all ++ part_put part.now ∷ []) old }
{
    if place < out.len() {
        put_part(part, &mut out[place]);
    }
}

/// Writes a part field by field. Written as a whole, the padding between fields would be written too.
#[inline(always)]
fn put_part(part: &PlacedPart, place: &mut CPart)
    ensures { place.new ≡ part_put part.now }
{
    place.depth = part.depth;
    place.is_constructed = u8::from(part.tag.is_constructed());
    place.len_octets = part.form.octets() as u8;
    place.tag = tag_shown(&part.tag);
    place.place = part.place as usize;
    place.len = part.len as usize;
}

/// Returns a tag as C sees it.
pub(crate) fn tag_shown(tag: &Tag) -> CTag
    ensures { result ≡ tag_shown tag.now }
{
    CTag {
        octets: tag.padded(),
        count: tag.octets().len() as u8,
    }
}
