//! What holds of readers whose state the caller keeps, whatever pieces the octets come in. The contracts state it.

ghost use Rattle.std.specs.Prelude.{◌≤◌, ◌++◌, ℕ, List, [], length};
ghost use Rattle.octet_core.specs.Octets.{AreOctets};
ghost use Rattle.atr_core.specs.Atr.{IsAtr, IsReason as IsAtrReason};
ghost use Rattle.block_core.specs.Block.{IsBlock, IsReason as IsBlockReason};
ghost use Rattle.c_lent.specs.Atr.{atr_reason};
ghost use Rattle.c_lent.specs.Block.{block_reason};
ghost use Rattle.c_lent.specs.LentReaders.{Answers, Feeds, Holds};
ghost use Rattle.c_lent.specs.declared.verdict.Verdict.{Verdict};

/// A reader of a block that was begun holds what it must hold after no octets. If it holds what it must after all
/// octets `t` that it was ever fed, then it does so after the next piece too. Its answer is the verdict on `t` and the
/// piece.
pub fn blocks_in_any_pieces()
    ensures begun { (ifs : ℕ) → Holds (IsBlock ifs) (IsBlockReason ifs) [] [] }
    ensures fed { (ifs : ℕ) (t held piece new : List ℕ) (v : Verdict) → ifs ≤ 254
        → AreOctets (t ++ piece) → Holds (IsBlock ifs) (IsBlockReason ifs) t held
        → Feeds (IsBlock ifs) (IsBlockReason ifs) block_reason held piece new v
        → Holds (IsBlock ifs) (IsBlockReason ifs) (t ++ piece) new
        × Answers (IsBlock ifs) (IsBlockReason ifs) block_reason (t ++ piece) (length held) v }
{}

/// The law of `blocks_in_any_pieces`, for a reader of an answer to reset.
pub fn atrs_in_any_pieces()
    ensures begun { Holds IsAtr IsAtrReason [] [] }
    ensures fed { (t held piece new : List ℕ) (v : Verdict) → AreOctets (t ++ piece)
        → Holds IsAtr IsAtrReason t held → Feeds IsAtr IsAtrReason atr_reason held piece new v
        → Holds IsAtr IsAtrReason (t ++ piece) new
        × Answers IsAtr IsAtrReason atr_reason (t ++ piece) (length held) v }
{}
