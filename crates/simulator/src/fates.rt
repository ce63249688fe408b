//! What happens to each block.

ghost use Rattle.std.specs.Prelude.{◌≡◌, IfOk};
ghost use Rattle.exchange_core.specs.Recording.{event_of};
ghost use Rattle.simulator.specs.Simulation.{fate, AreFates, HasBlocks};
ghost use Rattle.program_words.specs.declared.session.Session.{Session};

use exchange_core::Event;
use program_words::{BlockNumbers, Session};
use std::alloc::{AllocError, Global};
use std::collections::HashSet;

/// The blocks that the lists of a session name, by their numbers.
#[derive(Drop)]
pub(crate) struct Fates {
    lost: HashSet<u64>,
    damaged: HashSet<u64>,
    spoilt: HashSet<u64>,
}

impl Fates {
    /// Returns the lists of a session as sets.
    pub(crate) fn of(alloc: Global, session: &Session) -> Result<Fates, AllocError>
        ensures { IfOk result (λ fates. AreFates fates session.now) }
    {
        Ok(Fates {
            lost: set(alloc, &session.lost)?,
            damaged: set(alloc, &session.damaged)?,
            spoilt: set(alloc, &session.spoilt)?,
        })
    }

    /// Returns what happens to the block with this number.
    pub(crate) fn of_block(&self, number: u64) -> Event<'static>
        ensures { (s : Session) → AreFates self.now s → event_of result ≡ fate s number }
    {
        if self.lost.contains(&number) {
            Event::Lose
        } else if self.damaged.contains(&number) {
            Event::Damage
        } else if self.spoilt.contains(&number) {
            Event::Spoil
        } else {
            Event::Deliver
        }
    }
}

/// Returns the blocks that a list names.
fn set(alloc: Global, blocks: &BlockNumbers) -> Result<HashSet<u64>, AllocError>
    ensures { IfOk result (λ set. HasBlocks set blocks.now) }
{
    blocks.get().iter().copied().collect(alloc)
}
