//! Headers of data objects (EMV 4.3 Book 3, Annex B; ISO/IEC 8825-1, clause 8.1) and entries of data object lists (EMV
//! 4.3 Book 3, clause 5.4), which a caller puts together.

ghost use Rattle.std.specs.Prelude.{◌≡◌, ◌≢◌, ◌≤◌, ◌<◌, ◌++◌, length};
ghost use Rattle.tlv_core.specs.Tag.{IsTag};
ghost use Rattle.tlv_core.specs.Forest.{largest};
ghost use Rattle.tlv_core.specs.Dol.{entry_octets};
ghost use Rattle.c_lent.specs.Verdict.{wrong_argument};
ghost use Rattle.c_lent.specs.Parts.{tag_of};
ghost use Rattle.c_lent.specs.Building.{shortest_header, PutsOctets};

use crate::parts::{CTag, octets_of};
use crate::verdict::Verdict;
use tlv_core::{Form, LARGEST_FOREST, Tag};

/// Writes the header of a data object: its tag, and the shortest length field for a value of `len` octets, at most
/// 1,048,576.
pub fn tlv_header(tag: &CTag, len: usize, out: &mut [u8]) -> Verdict
    ensures written { IsTag (tag_of tag.now) → len ≤ largest
        → PutsOctets (shortest_header (tag_of tag.now) len) out.old out.new result }
    ensures untagged { (IsTag (tag_of tag.now) → ⊥) → result ≡ wrong_argument 0 }
    ensures long { largest < len → result ≡ wrong_argument 0 }
    ensures stays { result.status ≢ 0 → out.new ≡ out.old }
{
    match Tag::new(octets_of(tag)) {
        Some(tag) if len <= LARGEST_FOREST => {
            put_tagged(tag.octets(), Form::shortest_field(len).as_slice(), out)
        }
        _ => Verdict::argument(),
    }
}

/// Writes an entry of a data object list: a tag, and the length that its value is to have.
pub fn dol_entry(tag: &CTag, len: u8, out: &mut [u8]) -> Verdict
    ensures written { IsTag (tag_of tag.now)
        → PutsOctets (entry_octets (tag_of tag.now, len)) out.old out.new result }
    ensures untagged { (IsTag (tag_of tag.now) → ⊥) → result ≡ wrong_argument 0 }
    ensures stays { result.status ≢ 0 → out.new ≡ out.old }
{
    match Tag::new(octets_of(tag)) {
        Some(tag) => put_tagged(tag.octets(), &[len], out),
        None => Verdict::argument(),
    }
}

/// Copies a tag and the octets after it to the front of a buffer. If the buffer is too small, it stays unchanged.
fn put_tagged(tag: &[u8], rest: &[u8], out: &mut [u8]) -> Verdict
    requires tag { IsTag tag.now }
    requires few { length rest.now ≤ 5 }
    ensures puts { PutsOctets (tag.now ++ rest.now) out.old out.new result }
    ensures stays { result.status ≢ 0 → out.new ≡ out.old }
{
    let count = tag.len() + rest.len();
    if count > out.len() {
        return Verdict::lacking(count);
    }
    out[..tag.len()].copy_from_slice(tag);
    out[tag.len()..count].copy_from_slice(rest);
    Verdict::ok(count)
}
