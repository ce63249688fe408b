//! The waiting times of T=1 (ISO/IEC 7816-3, clause 11.4).

ghost use Rattle.std.specs.Prelude.{◌≡◌};
ghost use Rattle.atr_core.specs.T1.{IsUsable};
ghost use Rattle.atr_core.specs.Waiting.{block_waiting, character_waiting};
ghost use Rattle.c_lent.specs.Atr.{t1_values};

use c_lent::atr::CT1;

/// Returns the character waiting time CWT in elementary time units, 12 to 32,779: 11 + 2^CWI. Returns 0 if the struct
/// has no valid parameters: IFSC is 0 or 255, or an index is above 15.
#[unsafe(no_mangle)]
pub extern "C" fn scard_t1_cwt(params: &CT1) -> u32
    ensures cwt { IsUsable (t1_values params.now) →
        result ≡ character_waiting (t1_values params.now) }
    ensures unfit { (IsUsable (t1_values params.now) → ⊥) → result ≡ 0 }
{
    c_lent::timing::t1_cwt(params)
}

/// Returns the block waiting time BWT: 11 x `fi` + 2^BWI x 960 x 372 x `di`. Its unit is a part of an elementary time
/// unit, which has `fi` such parts. Returns 0 if the struct has no valid parameters.
#[unsafe(no_mangle)]
pub extern "C" fn scard_t1_bwt(params: &CT1, fi: u16, di: u16) -> u64
    ensures bwt { IsUsable (t1_values params.now) →
        result ≡ block_waiting (t1_values params.now) fi di }
    ensures unfit { (IsUsable (t1_values params.now) → ⊥) → result ≡ 0 }
{
    c_lent::timing::t1_bwt(params, fi, di)
}
