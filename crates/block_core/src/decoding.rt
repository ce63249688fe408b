//! Decoding of blocks.

ghost use Rattle.std.specs.Prelude.{◌≤◌, IfOk, IfErr};
ghost use Rattle.octet_core.specs.Grammar.{self_ended, Accepts, Refuses};
ghost use Rattle.block_core.specs.Block.{IsBlock, IsReason};

use crate::block::Block;
use crate::block_ref::BlockRef;
use crate::reason::BlockReason;
use octet_core::Stop;

/// Decodes the block at the front of the octets. Returns the block, and how many octets it takes. What
/// follows it isn't read.
///
/// `ifs` is the information field size, 1 to 254. The error is `At` the first octet after which no
/// block can continue, with the reason. It is `Short` at the end of the octets if a block could
/// continue there.
pub fn decode(octets: &[u8], ifs: u8) -> Result<(Block, usize), Stop<BlockReason>>
    requires least { 1 ≤ ifs }
    requires most { ifs ≤ 254 }
    ensures found { IfOk result (λ x. Accepts self_ended (IsBlock ifs) octets.now x.0 x.1) }
    ensures refused { IfErr result (Refuses self_ended (IsBlock ifs) (IsReason ifs) octets.now) }
{
    match BlockRef::decode(octets, ifs) {
        Ok((block, taken)) => Ok((block.to_block(), taken)),
        Err(stop) => Err(stop),
    }
}
