//! Laws of the least numbers of octets, as contracts.

ghost use Rattle.std.specs.Prelude.{ℕ, List};
ghost use Rattle.octet_core.specs.Grammar.{Begins};
ghost use Rattle.atr_core.specs.Atr.{IsAtr};
ghost use Rattle.block_core.specs.Block.{IsBlock};
ghost use Rattle.block_core.specs.declared.pcb.Number.{Number};
ghost use Rattle.chain_core.specs.Chain.{IsChain};
ghost use Rattle.apdu_core.specs.Command.{IsCommand};
ghost use Rattle.apdu_core.specs.Response.{IsResponse};
ghost use Rattle.tlv_core.specs.Dol.{IsDol};
ghost use Rattle.tlv_core.specs.Forest.{IsForest};
ghost use Rattle.tlv_core.specs.Reasons.{Kept, HasTaken};
ghost use Rattle.shortfall.specs.Least.{IsLeast};
ghost use Rattle.shortfall.specs.Apdu.{command_least, response_least};
ghost use Rattle.shortfall.specs.Atr.{atr_least};
ghost use Rattle.shortfall.specs.Block.{block_least};
ghost use Rattle.shortfall.specs.Chain.{chain_least};
ghost use Rattle.shortfall.specs.Forest.{open_rest};
ghost use Rattle.shortfall.specs.List.{list_least};

/// No block that begins with these octets ends before as many more have come, and some block ends then.
pub fn block_is_least()
    ensures { (ifs : ℕ) (b : List ℕ) → Begins (IsBlock ifs) b
        → IsLeast (IsBlock ifs) b (block_least b) }
{}

/// The same of answers to reset.
pub fn atr_is_least()
    ensures { (b : List ℕ) → Begins IsAtr b → IsLeast IsAtr b (atr_least b) }
{}

/// The same of chains, whatever the sizes, the first number and the limit of the message.
pub fn chain_is_least()
    ensures { (ifs : ℕ) (number : Number) (max : ℕ) (b : List ℕ) → Begins (IsChain ifs number max) b
        → IsLeast (IsChain ifs number max) b (chain_least b) }
{}

/// The same of commands.
pub fn command_is_least()
    ensures { (b : List ℕ) → Begins IsCommand b → IsLeast IsCommand b (command_least b) }
{}

/// The same of responses.
pub fn response_is_least()
    ensures { (b : List ℕ) → Begins IsResponse b → IsLeast IsResponse b (response_least b) }
{}

/// The same of data object lists.
pub fn list_is_least()
    ensures { (b : List ℕ) → Begins IsDol b → IsLeast IsDol b (list_least b) }
{}

/// The same of forests, by what octets leave open.
pub fn forest_is_least()
    ensures { (b : List ℕ) (k : Kept) → HasTaken b k → IsLeast (IsForest k.max) b (open_rest k) }
{}
