//! How many more octets must come at least, for octets that end early.

ghost use Rattle.std.specs.Prelude.{◌≡◌, ◌<◌, ◌⊎◌};
ghost use Rattle.octet_core.specs.Grammar.{Begins};
ghost use Rattle.tlv_core.specs.Forest.{IsForest, largest};
ghost use Rattle.tlv_core.specs.Reasons.{Kept, HasTaken};
ghost use Rattle.shortfall.specs.Apdu.{command_least, response_least};
ghost use Rattle.shortfall.specs.Atr.{atr_least};
ghost use Rattle.shortfall.specs.Block.{block_least};
ghost use Rattle.shortfall.specs.Chain.{chain_least};
ghost use Rattle.shortfall.specs.Forest.{open_rest};
ghost use Rattle.shortfall.specs.List.{list_least};

/// Returns how many more octets a value of a codec needs at least, if it begins with these octets. It is 0 if they are
/// a whole value, or no codec has this number. The call allocates nothing.
#[unsafe(no_mangle)]
pub extern "C" fn scard_least(codec: u8, octets: &[u8]) -> usize
    ensures atr { codec ≡ 1 → result ≡ atr_least octets.now }
    ensures block { codec ≡ 2 → result ≡ block_least octets.now }
    ensures chain { codec ≡ 3 → result ≡ chain_least octets.now }
    ensures command { codec ≡ 4 → result ≡ command_least octets.now }
    ensures response { codec ≡ 5 → result ≡ response_least octets.now }
    ensures forest { codec ≡ 6 → (k : Kept) → k.max ≡ largest → HasTaken octets.now k
        → result ≡ open_rest k }
    ensures no_forest { codec ≡ 6 → (Begins (IsForest largest) octets.now → ⊥) → result ≡ 0 }
    ensures list { codec ≡ 7 → result ≡ list_least octets.now }
    ensures other { (codec ≡ 0) ⊎ (7 < codec) → result ≡ 0 }
{
    c_lent::least::least(codec, octets)
}
