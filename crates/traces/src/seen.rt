//! What was seen, with its octets decoded once.

ghost use Rattle.std.specs.Prelude.{◌≡◌, Some, None, IfOk, IfSome, IfNone, option_copied};
ghost use Rattle.t1_core.specs.Came.{Came, IsClass};
ghost use Rattle.traces.specs.Following.{begins_anew};
ghost use Rattle.traces.specs.Seen.{block_of, block_in, seen};

use crate::said::is_resynch;
use crate::trace::Item;
use block_core::{BlockRef, LONGEST_INF};
use exchange_core::Side;
use std::alloc::{AllocError, Global};
use std::marker::Model;

/// Octets that were on the line as one block, and the block that they are. Contracts see the octets.
#[derive(Drop)]
pub(crate) struct Decoded<'a> {
    octets: &'a [u8],
    block: Option<BlockRef<'a>>,
}

impl<'a> Model for Decoded<'a> {
    ghost use Rattle.std.specs.Prelude.{List, ℕ, ◌≡◌};
    ghost use Rattle.traces.specs.Seen.{seen};

    ghost Value = { List ℕ };

    ghost view = { λ d. d.octets.now };

    ghost invariant = { λ d. d.block ≡ seen d.octets.now };
}

impl<'a> Decoded<'a> {
    /// Decodes octets.
    fn new(octets: &'a [u8]) -> Decoded<'a>
        ensures { result ≡ octets.now }
    {
        Decoded {
            octets,
            block: whole_block(octets),
        }
    }

    /// Returns the octets.
    pub(crate) fn octets(&self) -> &'a [u8]
        ensures { result.now ≡ self.now }
    {
        self.octets
    }

    /// Returns the block that they are, if they are one whole block with node address 00 and a field of at most 254
    /// octets.
    pub(crate) fn block(&self) -> Option<&BlockRef<'a>>
        ensures { option_copied result ≡ seen self.now }
    {
        self.block.as_ref()
    }

    /// Whether they are a block of RESYNCH, after which both ends begin again.
    pub(crate) fn begin_anew(&self) -> bool
        ensures { result ≡ begins_anew (seen self.now) }
    {
        match self.block() {
            Some(block) => is_resynch(block.pcb()),
            None => false,
        }
    }
}

/// What was seen.
#[derive(Drop)]
pub(crate) enum What<'a> {
    /// These octets, from this end. If the block is lost, it didn't reach the other end.
    Block {
        from: Side,
        octets: Decoded<'a>,
        lost: bool,
    },
    /// The terminal's waiting time ended.
    Quiet,
    /// So many microseconds after some start.
    Moment(u64),
}

/// One thing that was seen, with its octets decoded. Contracts see the item of a trace.
#[derive(Drop)]
pub(crate) struct Seen<'a> {
    pub(crate) what: What<'a>,
}

impl<'a> Model for Seen<'a> {
    ghost use Rattle.traces.specs.declared.trace.Item.{Item};

    ghost Value = { Item };

    ghost use Rattle.traces.specs.Decoded.{item_of};

    ghost view = { λ s. item_of s.what };
}

impl<'a> Seen<'a> {
    /// Decodes an item.
    fn new(item: &'a Item) -> Seen<'a>
        ensures { result ≡ item.now }
    {
        let what = match item {
            Item::Block { from, octets, lost } => What::Block {
                from: *from,
                octets: Decoded::new(octets.get()),
                lost: *lost,
            },
            Item::Quiet => What::Quiet,
            Item::Moment(moment) => What::Moment(*moment),
        };
        Seen { what }
    }

    /// Returns its block, and the end that sent it.
    pub(crate) fn block(&self) -> Option<(Side, &BlockRef<'a>)>
        ensures some { IfSome result (λ x. block_in self.now ≡ Some (x.0, x.1.now)) }
        ensures none { IfNone result (block_in self.now ≡ None) }
    {
        let What::Block { from, octets, .. } = &self.what else {
            return None;
        };
        match octets.block() {
            Some(block) => Some((*from, block)),
            None => None,
        }
    }
}

/// Decodes items, each once.
pub(crate) fn decode_each(alloc: Global, items: &[Item]) -> Result<Vec<Seen<'_>>, AllocError>
    ensures { IfOk result (λ seen. seen.items ≡ items.now) }
{
    let mut seen = Vec::with_capacity(alloc, items.len())?;
    for item in items {
        seen.push(Seen::new(item))?;
    }
    Ok(seen)
}

/// Returns the block that octets are, if they are one whole block with node address 00 and a field of at most 254
/// octets.
pub(crate) fn whole_block(octets: &[u8]) -> Option<BlockRef<'_>>
    ensures { result ≡ seen octets.now }
{
    by_verdict(octets)
}

/// Returns that block, from the verdict on the octets as a block.
fn by_verdict(octets: &[u8]) -> Option<BlockRef<'_>>
    ensures { (came : Came) × IsClass 254 octets.now came × (block_of came ≡ result) }
{
    match BlockRef::decode(octets, LONGEST_INF as u8) {
        Ok((block, taken)) => {
            if taken == octets.len() && block.nad() == 0 {
                Some(block)
            } else {
                None
            }
        }
        Err(_) => None,
    }
}
