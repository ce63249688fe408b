//! The parts of a forest (EMV 4.3 Book 3, Annex B; ISO/IEC 7816-4, clause 5.2.2).

ghost use Rattle.std.specs.Prelude.{◌≡◌, ◌≤◌, ◌<◌, length, map, drop, slice_get};
ghost use Rattle.octet_core.specs.Grammar.{whole, Refuses};
ghost use Rattle.tlv_core.specs.Forest.{IsForest, IsProper, largest};
ghost use Rattle.tlv_core.specs.Reasons.{IsReason};
ghost use Rattle.tlv_core.specs.Tree.{Tree};
ghost use Rattle.c_lent.specs.Verdict.{IsRefusal, Tells, wrong_argument};
ghost use Rattle.c_lent.specs.Tlv.{tlv_reason};
ghost use Rattle.c_lent.specs.Parts.{tag_of, found, parts_shown, FindsFirst, PutsParts};

use c_lent::parts::{CPart, CTag};
use c_lent::verdict::Verdict;

/// Writes the parts of a forest of at most `max` octets to an array: its objects in the order of their headers, each
/// before those inside it, without the fillers. The place of `OK` is the number of parts. The call allocates nothing.
///
/// Returns `ARGUMENT` with place 0 if `max` is above 1,048,576, and with the number of parts if the array is too short.
#[unsafe(no_mangle)]
pub extern "C" fn scard_tlv_parts(octets: &[u8], max: usize, out: &mut [CPart]) -> Verdict
    ensures parts { max ≤ largest → (IsRefusal result → ⊥) →
        PutsParts max octets.now out.old out.new result }
    ensures refused { IsRefusal result →
        Tells tlv_reason (Refuses whole (IsForest max) (IsReason max) octets.now) result }
    ensures argument { largest < max → result ≡ wrong_argument 0 }
    ensures stays { largest < max → out.new ≡ out.old }
{
    c_lent::parts::tlv_parts(octets, max, out)
}

/// Returns the index of the first object on a path of tags in the parts of a forest, or the number of parts if there is
/// none. A path of one tag finds the first outermost object with that tag. On a longer path, the call tries the objects
/// with the first tag in order, and searches each of them for the rest of the path.
#[unsafe(no_mangle)]
pub extern "C" fn scard_tlv_first(parts: &[CPart], path: &[CTag]) -> usize
    ensures inside { result ≤ length parts.now }
    ensures found { drop result parts.now ≡ found path.now 0 parts.now }
    ensures tree { (t : Tree) → IsProper 1 t → parts.now ≡ parts_shown t →
        FindsFirst (map tag_of path.now) t (slice_get parts.now result) }
{
    c_lent::parts::tlv_first(parts, path)
}
