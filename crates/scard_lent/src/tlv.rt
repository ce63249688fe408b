//! Data objects (EMV 4.3 Book 3, Annex B; ISO/IEC 7816-4, clause 5.2.2).

ghost use Rattle.std.specs.Prelude.{◌≡◌, ◌≢◌, ◌≤◌, ◌<◌, length};
ghost use Rattle.octet_core.specs.Grammar.{whole, Refuses};
ghost use Rattle.tlv_core.specs.Forest.{IsForest, largest};
ghost use Rattle.tlv_core.specs.Reasons.{IsReason};
ghost use Rattle.c_lent.specs.Verdict.{IsRefusal, Tells, ok_at, wrong_argument};
ghost use Rattle.c_lent.specs.Tlv.{tlv_reason, IsSomeForest, IsTidied};

use c_lent::verdict::Verdict;

/// Checks whether octets are a forest of data objects, at most `max` octets. The call allocates nothing.
///
/// Returns `ARGUMENT` if `max` is above 1,048,576.
#[unsafe(no_mangle)]
pub extern "C" fn scard_tlv_check(octets: &[u8], max: usize) -> Verdict
    ensures ok { result.status ≡ 0 → IsSomeForest max octets.now }
    ensures place { result.status ≡ 0 → result ≡ ok_at (length octets.now) }
    ensures refused { max ≤ largest → result.status ≢ 0 →
        Tells tlv_reason (Refuses whole (IsForest max) (IsReason max) octets.now) result }
    ensures argument { largest < max → result ≡ wrong_argument 0 }
{
    c_lent::tlv::tlv_check(octets, max)
}

/// Writes the tidy form of a forest of at most `max` octets: the same objects without fillers, each length in its
/// shortest form. No forest with the same objects has fewer octets, so a buffer of the input's size suffices. The call
/// allocates nothing.
///
/// Returns `ARGUMENT` with place 0 if `max` is above 1,048,576.
#[unsafe(no_mangle)]
pub extern "C" fn scard_tlv_tidy(octets: &[u8], max: usize, out: &mut [u8]) -> Verdict
    ensures tidied { max ≤ largest → (IsRefusal result → ⊥) →
        IsTidied max octets.now out.old out.new result }
    ensures refused { IsRefusal result →
        Tells tlv_reason (Refuses whole (IsForest max) (IsReason max) octets.now) result }
    ensures argument { largest < max → result ≡ wrong_argument 0 }
    ensures stays { result.status ≢ 0 → out.new ≡ out.old }
{
    c_lent::tlv::tlv_tidy(octets, max, out)
}
