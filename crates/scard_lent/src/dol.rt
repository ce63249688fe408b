//! Data object lists (EMV 4.3 Book 3, clause 5.4).

ghost use Rattle.std.specs.Prelude.{◌≡◌, ◌≢◌, length};
ghost use Rattle.octet_core.specs.Grammar.{whole, Refuses};
ghost use Rattle.tlv_core.specs.Dol.{IsDol, IsDolReason};
ghost use Rattle.c_lent.specs.Verdict.{IsRefusal, Tells, ok_at};
ghost use Rattle.c_lent.specs.Tlv.{dol_reason};
ghost use Rattle.c_lent.specs.Dol.{IsSomeDol, PutsEntries};

use c_lent::dol::CEntry;
use c_lent::verdict::Verdict;

/// Checks whether octets are a data object list. The call allocates nothing.
#[unsafe(no_mangle)]
pub extern "C" fn scard_dol_check(octets: &[u8]) -> Verdict
    ensures ok { result.status ≡ 0 → IsSomeDol octets.now }
    ensures place { result.status ≡ 0 → result ≡ ok_at (length octets.now) }
    ensures refused { result.status ≢ 0 →
        Tells dol_reason (Refuses whole IsDol IsDolReason octets.now) result }
{
    c_lent::dol::dol_check(octets)
}

/// Writes the entries of a data object list to an array, in their order. The place of `OK` is the number of entries.
/// The call allocates nothing.
///
/// Returns `ARGUMENT` with the number of entries if the array is too short.
#[unsafe(no_mangle)]
pub extern "C" fn scard_dol_entries(octets: &[u8], out: &mut [CEntry]) -> Verdict
    ensures entries { (IsRefusal result → ⊥) → PutsEntries octets.now out.old out.new result }
    ensures refused { IsRefusal result →
        Tells dol_reason (Refuses whole IsDol IsDolReason octets.now) result }
{
    c_lent::dol::dol_entries(octets, out)
}
