//! Cutting of a message into the blocks of a chain.

ghost use Rattle.std.specs.Prelude.{◌≡◌, ◌≤◌};
ghost use Rattle.chain_core.specs.Chain.{chain_blocks};
ghost use Rattle.chain_core.specs.Cut.{cut_of};

use crate::blocks::Cut;
use block_core::Number;

/// Returns the blocks of the chain for a message. All fields but the last have `ifs` octets, which is 1
/// to 254, and the first block has this number. The empty message has one block.
pub fn cut(msg: &[u8], ifs: u8, number: Number) -> Cut<'_>
    requires least { 1 ≤ ifs }
    requires most { ifs ≤ 254 }
    ensures { result ≡ chain_blocks number (cut_of ifs msg.now) }
{
    Cut::of(msg, ifs, number)
}
