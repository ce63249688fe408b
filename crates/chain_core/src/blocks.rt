//! Cutting of a message into the blocks of a chain, one by one.

ghost use Rattle.std.specs.Prelude.{◌≡◌, ◌≤◌, length, drop};
ghost use Rattle.block_core.specs.Block.{Parts};
ghost use Rattle.chain_core.specs.Chain.{chain_blocks};
ghost use Rattle.chain_core.specs.Cut.{cut_of, leading_block};

use block_core::{Block, Number};
use std::fmt::{self, Debug, Formatter, Write};
use std::marker::Model;

/// Returns the first block of the chain for the octets of a message from place `start` on, with this number.
/// Its information field has as many octets as fit in `ifs`, which is 1 to 254. M=1 if more octets follow.
pub fn block_at(msg: &[u8], start: usize, ifs: u8, number: Number) -> Block
    requires least { 1 ≤ ifs }
    requires most { ifs ≤ 254 }
    requires start { start ≤ length msg.now }
    ensures { result ≡ leading_block ifs number (drop start msg.now) }
{
    let rest = &msg[start..];
    let len = rest.len().min(ifs as usize);
    Block::info(0, number, rest.len() > len, &rest[..len]).unwrap()
}

/// The blocks that are left of the chain for a message.
#[derive(Drop)]
pub struct Cut<'a> {
    rest: Option<&'a [u8]>,
    ifs: u8,
    number: Number,
}

impl<'a> Model for Cut<'a> {
    ghost use Rattle.std.specs.Prelude.{◌≤◌, List};
    ghost use Rattle.block_core.specs.Block.{Parts};
    ghost use Rattle.chain_core.specs.Cut.{blocks_left};

    ghost Value = { List Parts };

    ghost view = { λ c. blocks_left c.ifs c.number c.rest };

    ghost invariant = { λ c. (1 ≤ c.ifs) × (c.ifs ≤ 254) };
}

impl<'a> Cut<'a> {
    /// Returns all the blocks of the chain for a message.
    pub(crate) fn of(msg: &'a [u8], ifs: u8, number: Number) -> Cut<'a>
        requires least { 1 ≤ ifs }
        requires most { ifs ≤ 254 }
        ensures { result ≡ chain_blocks number (cut_of ifs msg.now) }
    {
        Cut {
            rest: Some(msg),
            ifs,
            number,
        }
    }
}

impl Iterator for Cut<'_> {
    ghost use Rattle.std.specs.Iterator.{YieldsFirst, item_count};

    type Item = Block;

    ghost next_gives = { YieldsFirst (λ blocks. blocks) };

    ghost remaining = { item_count (λ blocks. blocks) };

    fn next(&mut self) -> Option<Block> {
        let rest = self.rest?;
        let block = block_at(rest, 0, self.ifs, self.number);
        let len = self.ifs as usize;
        self.rest = if rest.len() > len {
            Some(&rest[len..])
        } else {
            None
        };
        self.number = self.number.other();
        Some(block)
    }
}

/// Shows how many octets of the message are left, the information field size and the number of the next block,
/// but no octet.
impl Debug for Cut<'_> {
    fn fmt<W: Write>(&self, f: &mut Formatter<W>) -> fmt::Result {
        f.debug_struct("Cut")
            .field("octets_left", &self.rest.map_or(0, |rest| rest.len()))
            .field("ifs", &self.ifs)
            .field("number", &self.number)
            .finish()
    }
}
