//! How octets that were seen from an end match the block that it was about to send.

ghost use Rattle.std.specs.Prelude.{◌≡◌, IfOk};
ghost use Rattle.traces.specs.Following as following;
ghost use Rattle.traces.specs.Matching.{is_other, match_with, sent_by, standing_by};

use crate::seen::Decoded;
use crate::standing::Standing;
use block_core::Block;
use exchange_core::{Arrival, copied, spelled};
use octet_core::Octets;
use std::alloc::{AllocError, Global};

/// How octets match the block that was due, with the octets of that block.
#[derive(Drop)]
pub(crate) enum Match {
    /// They are the block's octets.
    Whole(Octets),
    /// They aren't a block: the block changed on its way.
    Changed(Octets),
    /// They are another block, or no block was due.
    Other,
}

impl Match {
    /// Returns how octets match a block. It encodes the block once.
    pub(crate) fn with(
        alloc: Global,
        block: &Block,
        seen: &Decoded<'_>,
    ) -> Result<Match, AllocError>
        ensures { IfOk result (λ met. met ≡ match_with block.now seen.now) }
    {
        let sent = spelled(alloc, block)?;
        if sent.get() == seen.octets() {
            Ok(Match::Whole(sent))
        } else if seen.block().is_none() {
            Ok(Match::Changed(sent))
        } else {
            Ok(Match::Other)
        }
    }

    /// Whether they are another block, or no block was due.
    pub(crate) fn is_other(&self) -> bool
        ensures { result ≡ is_other self.now }
    {
        matches!(self, Match::Other)
    }

    /// Returns the standing of the end after them. An end that differs from its table isn't followed any more.
    pub(crate) fn standing(&self) -> Standing
        ensures { result ≡ standing_by self.now }
    {
        match self {
            Match::Whole(_) | Match::Changed(_) => Standing::Waits,
            Match::Other => Standing::Left,
        }
    }

    /// Returns what the end sent if these octets were seen, and how that arrived.
    pub(crate) fn sent(
        self,
        alloc: Global,
        seen: &Decoded<'_>,
        lost: bool,
    ) -> Result<(Octets, Arrival), AllocError>
        ensures { IfOk result (λ sent. sent ≡ sent_by self seen.now lost) }
    {
        match self {
            Match::Changed(sent) if !lost => {
                let arrival = Arrival::Changed(copied(alloc, seen.octets())?);
                Ok((sent, arrival))
            }
            Match::Whole(sent) | Match::Changed(sent) => Ok((sent, whole(lost))),
            Match::Other => Ok((copied(alloc, seen.octets())?, whole(lost))),
        }
    }
}

/// Returns how a block arrived that was seen as it was sent.
fn whole(lost: bool) -> Arrival
    ensures { result ≡ following.whole lost }
{
    if lost { Arrival::Lost } else { Arrival::Whole }
}
