//! Laws of the grammar of blocks, as contracts.

ghost use Rattle.std.specs.Prelude.{◌≡◌, ◌≤◌, ◌++◌, ℕ, List, [], length};
ghost use Rattle.octet_core.specs.Grammar.{self_ended, Accepts, OneVerdict};
ghost use Rattle.octet_core.specs.Octets.{AreOctets, xor_of};
ghost use Rattle.block_core.specs.Block.{Parts, IsBlock, IsReason, spelling};
ghost use Rattle.block_core.specs.Taking.{Taking, HasTaken, nothing_taken};

/// For every information field size, every input is accepted or refused, and never both, with one block,
/// one length, one place and one reason.
pub fn one_verdict()
    ensures { (ifs : ℕ) (b : List ℕ) → ifs ≤ 254 → AreOctets b
        → OneVerdict self_ended (IsBlock ifs) (IsReason ifs) b }
{}

/// Octets are accepted with one block and one length at most, whatever the information field sizes.
pub fn one_accepted()
    ensures { (i j : ℕ) (b : List ℕ) (v w : Parts) (n m : ℕ) → Accepts self_ended (IsBlock i) b v n
        → Accepts self_ended (IsBlock j) b w m → (v ≡ w) × (n ≡ m) }
{}

/// Octets encode at most one block, and no encoding is the beginning of another.
pub fn one_spelled()
    ensures { (i j : ℕ) (v w : Parts) (b more : List ℕ) → IsBlock i v b → IsBlock j w (b ++ more)
        → (v ≡ w) × (more ≡ []) }
{}

/// The octets of a block are accepted as that block, whatever follows them.
pub fn written_is_read()
    ensures { (ifs : ℕ) (v : Parts) (b more : List ℕ) → IsBlock ifs v b
        → Accepts self_ended (IsBlock ifs) (b ++ more) v (length b) }
{}

/// The exclusive-or of the octets of a block is 00.
pub fn sums_to_zero()
    ensures { (v : Parts) → xor_of (spelling v) ≡ 0 }
{}

/// A new or reset reader has taken the empty list and no other. Every reader that keeps no refusal has
/// taken one list and no other.
pub fn taken()
    ensures new { (ifs : ℕ) → HasTaken (nothing_taken ifs) [] }
    ensures only { (r : Taking) (t u : List ℕ) → HasTaken r t → HasTaken r u → t ≡ u }
{}
