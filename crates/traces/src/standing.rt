//! How a followed end stands to its next block that is seen.

ghost use Rattle.std.specs.Prelude.{◌≡◌, IfOk};
ghost use Rattle.traces.specs.Following.{is_waiting, misses};
ghost use Rattle.traces.specs.Matching.{match_of};
ghost use Rattle.traces.specs.Unseen.{is_sending};

use crate::matching::Match;
use crate::seen::Decoded;
use block_core::Block;
use std::alloc::{AllocError, Global};

/// How an end stands.
#[derive(Drop)]
pub(crate) enum Standing {
    /// It differed from its table, and isn't followed any more.
    Left,
    /// It waits for a block or for its application.
    Waits,
    /// It is about to send this block, which has no line yet.
    Sends(Block),
}

impl Standing {
    /// Whether it waits.
    pub(crate) fn is_waiting(&self) -> bool
        ensures { result ≡ is_waiting self.now }
    {
        match self {
            Standing::Waits => true,
            Standing::Left | Standing::Sends(_) => false,
        }
    }

    /// Whether it is about to send a block.
    pub(crate) fn is_sending(&self) -> bool
        ensures { result ≡ is_sending self.now }
    {
        match self {
            Standing::Sends(_) => true,
            Standing::Left | Standing::Waits => false,
        }
    }

    /// Returns how octets that were seen from it match the block that it is about to send.
    pub(crate) fn matched(&self, alloc: Global, seen: &Decoded<'_>) -> Result<Match, AllocError>
        ensures { IfOk result (λ met. met ≡ match_of self.now seen.now) }
    {
        match self {
            Standing::Sends(block) => Match::with(alloc, block, seen),
            Standing::Left | Standing::Waits => Ok(Match::Other),
        }
    }

    /// Whether it is about to send a block, and these octets are another one that isn't a block of RESYNCH. `met` is
    /// how they match the block.
    pub(crate) fn misses(&self, met: &Match, seen: &Decoded<'_>) -> bool
        requires { met.now ≡ match_of self.now seen.now }
        ensures { result ≡ misses self.now seen.now }
    {
        self.is_sending() && met.is_other() && !seen.begin_anew()
    }
}
