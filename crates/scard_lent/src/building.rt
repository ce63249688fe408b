//! Headers of data objects (EMV 4.3 Book 3, Annex B; ISO/IEC 8825-1, clause 8.1) and entries of data object lists (EMV
//! 4.3 Book 3, clause 5.4).

ghost use Rattle.std.specs.Prelude.{◌≡◌, ◌≢◌, ◌≤◌, ◌<◌};
ghost use Rattle.tlv_core.specs.Tag.{IsTag};
ghost use Rattle.tlv_core.specs.Forest.{largest};
ghost use Rattle.tlv_core.specs.Dol.{entry_octets};
ghost use Rattle.c_lent.specs.Verdict.{wrong_argument};
ghost use Rattle.c_lent.specs.Parts.{tag_of};
ghost use Rattle.c_lent.specs.Building.{shortest_header, PutsOctets};

use c_lent::parts::CTag;
use c_lent::verdict::Verdict;

/// Writes the header of a data object: its tag, and the shortest length field for a value of `len` octets, at most
/// 1,048,576. Returns `ARGUMENT` with place 0 if `tag` isn't a tag, or if `len` is larger.
#[unsafe(no_mangle)]
pub extern "C" fn scard_tlv_header(tag: &CTag, len: usize, out: &mut [u8]) -> Verdict
    ensures written { IsTag (tag_of tag.now) → len ≤ largest
        → PutsOctets (shortest_header (tag_of tag.now) len) out.old out.new result }
    ensures untagged { (IsTag (tag_of tag.now) → ⊥) → result ≡ wrong_argument 0 }
    ensures long { largest < len → result ≡ wrong_argument 0 }
    ensures stays { result.status ≢ 0 → out.new ≡ out.old }
{
    c_lent::building::tlv_header(tag, len, out)
}

/// Writes an entry of a data object list: a tag, and the length that its value is to have. Returns `ARGUMENT` with
/// place 0 if `tag` isn't a tag.
#[unsafe(no_mangle)]
pub extern "C" fn scard_dol_entry(tag: &CTag, len: u8, out: &mut [u8]) -> Verdict
    ensures written { IsTag (tag_of tag.now)
        → PutsOctets (entry_octets (tag_of tag.now, len)) out.old out.new result }
    ensures untagged { (IsTag (tag_of tag.now) → ⊥) → result ≡ wrong_argument 0 }
    ensures stays { result.status ≢ 0 → out.new ≡ out.old }
{
    c_lent::building::dol_entry(tag, len, out)
}
