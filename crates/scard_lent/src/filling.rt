//! Fills data object lists with known values (EMV 4.3 Book 3, clause 5.4).

ghost use Rattle.std.specs.Prelude.{◌≡◌, ◌≢◌, ◌≤◌, ◌<◌, length, map};
ghost use Rattle.octet_core.specs.Grammar.{whole, Refuses};
ghost use Rattle.tlv_core.specs.Dol.{IsDol, IsDolReason};
ghost use Rattle.tlv_core.specs.Fill.{HasDuplicate, filled};
ghost use Rattle.c_lent.specs.Verdict.{IsRefusal, Tells, twice_known, wrong_argument};
ghost use Rattle.c_lent.specs.Tlv.{dol_reason};
ghost use Rattle.c_lent.specs.Dol.{IsSomeDol};
ghost use Rattle.c_lent.specs.Fill.{AreKnown, known_seen, longest_list, Fills};

use c_lent::parts::CKnown;
use c_lent::verdict::Verdict;

/// Writes the octets that a data object list requests: for each entry a part of its length. This part is the known
/// value of its tag, cut and padded by its format. It is zeros if the tag is that of a constructed object or has no
/// known value.
///
/// Returns `ARGUMENT` with place 0 if a tag isn't valid, a format is above 2, or the list has more than 2^48 octets.
/// Otherwise returns the refusal if the list is refused, or `DUPLICATE` if two known values have the same tag. If the
/// buffer is too small, returns `ARGUMENT` with the room needed, and writes nothing. The call compares all pairs of
/// known values. For each entry it searches them one by one.
#[unsafe(no_mangle)]
pub extern "C" fn scard_dol_fill(list: &[u8], known: &[CKnown<'_>], out: &mut [u8]) -> Verdict
    ensures filled { length list.now ≤ longest_list → AreKnown known.now → (IsRefusal result → ⊥)
        → result.status ≢ 5 →
        Fills list.now (map known_seen known.now) out.old out.new result }
    ensures refused { IsRefusal result →
        Tells dol_reason (Refuses whole IsDol IsDolReason list.now) result }
    ensures duplicate { result.status ≡ 5 →
        (result ≡ twice_known) × IsSomeDol list.now × HasDuplicate (map known_seen known.now) }
    ensures argument { (AreKnown known.now → ⊥) → result ≡ wrong_argument 0 }
    ensures long { longest_list < length list.now → result ≡ wrong_argument 0 }
    ensures stays { result.status ≢ 0 → out.new ≡ out.old }
{
    c_lent::filling::dol_fill(list, known, out)
}
