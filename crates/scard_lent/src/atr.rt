//! Answers to reset (ISO/IEC 7816-3, clause 8).

ghost use Rattle.std.specs.Prelude.{◌≡◌, ◌≢◌};
ghost use Rattle.octet_core.specs.Grammar.{self_ended, Accepts, Refuses};
ghost use Rattle.atr_core.specs.Atr.{AtrParts, IsAtr, IsReason};
ghost use Rattle.atr_core.specs.T1.{t1_params_of};
ghost use Rattle.atr_core.specs.Rates.{rates_of};
ghost use Rattle.c_lent.specs.Verdict.{Tells, Puts, ok_at, wrong_argument};
ghost use Rattle.c_lent.specs.Atr.{atr_reason, atr_of, SaysAtr, IsDecoded, IsT1, IsTold, rates_seen};

use c_lent::atr::{CAtr, CRates, CT1};
use c_lent::verdict::Verdict;

/// Checks whether octets begin with an answer to reset. The place of `OK` is the length of the answer.
#[unsafe(no_mangle)]
pub extern "C" fn scard_atr_check(octets: &[u8]) -> Verdict
    ensures ok { result.status ≡ 0 →
        (atr : AtrParts) × Accepts self_ended IsAtr octets.now atr result.place }
    ensures place { result.status ≡ 0 → result ≡ ok_at result.place }
    ensures refused { result.status ≢ 0 →
        Tells atr_reason (Refuses self_ended IsAtr IsReason octets.now) result }
{
    c_lent::atr::atr_check(octets)
}

/// Decodes the answer to reset at the front of the octets. The place of `OK` is the length of the answer.
#[unsafe(no_mangle)]
pub extern "C" fn scard_atr_decode(octets: &[u8], out: &mut CAtr) -> Verdict
    ensures ok { result.status ≡ 0 → IsDecoded octets.now result out.new }
    ensures shown { result.status ≡ 0 → IsTold (atr_of out.new) out.new }
    ensures place { result.status ≡ 0 → result ≡ ok_at result.place }
    ensures refused { result.status ≢ 0 →
        Tells atr_reason (Refuses self_ended IsAtr IsReason octets.now) result }
    ensures stays { result.status ≢ 0 → out.new ≡ out.old }
{
    c_lent::atr::atr_decode(octets, out)
}

/// Encodes an answer to reset, which has at most 33 octets. Returns `ARGUMENT` with place 0 if the struct isn't an
/// answer: a count is too large, a protocol is above 15, or the encoding would have more than 33 octets.
#[unsafe(no_mangle)]
pub extern "C" fn scard_atr_encode(atr: &CAtr, out: &mut [u8]) -> Verdict
    ensures written { SaysAtr atr.now → Puts (IsAtr (atr_of atr.now)) out.old out.new result }
    ensures unfit { (SaysAtr atr.now → ⊥) → (result ≡ wrong_argument 0) × (out.new ≡ out.old) }
{
    c_lent::atr::atr_encode(atr, out)
}

/// Reads the parameters of T=1. Returns 0 if the answer offers usable ones, 1 if it doesn't offer T=1, 2 if IFSC is
/// reserved, and 3 if the answer requires the CRC. Returns `ARGUMENT` if the struct isn't an answer to reset.
#[unsafe(no_mangle)]
pub extern "C" fn scard_atr_t1_params(atr: &CAtr, out: &mut CT1) -> u8
    ensures params { SaysAtr atr.now → IsT1 (t1_params_of (atr_of atr.now)) out.old out.new result }
    ensures unfit { (SaysAtr atr.now → ⊥) → (result ≡ 4) × (out.new ≡ out.old) }
{
    c_lent::atr::atr_t1_params(atr, out)
}

/// Reads the integers Fi and Di that TA1 gives. Returns `ARGUMENT` if the struct isn't an answer to reset.
#[unsafe(no_mangle)]
pub extern "C" fn scard_atr_rates(atr: &CAtr, out: &mut CRates) -> u8
    ensures rates { SaysAtr atr.now →
        (result ≡ 0) × (out.new ≡ rates_seen (rates_of (atr_of atr.now))) }
    ensures unfit { (SaysAtr atr.now → ⊥) → (result ≡ 4) × (out.new ≡ out.old) }
{
    c_lent::atr::atr_rates(atr, out)
}
