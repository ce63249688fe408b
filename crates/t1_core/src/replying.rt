//! The I-blocks of a reply.

ghost use Rattle.std.specs.Prelude.{◌≡◌, ◌≤◌, List, ℕ, None, length, take, drop};
ghost use Rattle.block_core.specs.declared.pcb.Number.{Number as AnyNumber};
ghost use Rattle.t1_core.specs.Came.{info};
ghost use Rattle.t1_core.specs.Terminal.{is_more};
ghost use Rattle.t1_core.specs.Views.{IsSize};
ghost use Rattle.t1_core.specs.CardViews.{field_of, saved_of, command_in, card_waits_of, IsSaved, IsCardWait};
ghost use Rattle.t1_core.specs.Sending.{sent_by, field_saved};
ghost use Rattle.t1_core.specs.Card.{number_after, saving, waiting};

use crate::sending::Sent;
use crate::turns::{CardWait, Cut};
use block_core::Number;

/// The next I-block of a reply, and what the card then waits for and holds saved.
#[derive(Drop)]
pub(crate) struct Next {
    pub(crate) sent: Sent,
    pub(crate) wait: CardWait,
    pub(crate) saved: Option<Cut>,
}

/// Returns the number after an I-block of the other end, which acknowledges a saved block.
pub(crate) fn acknowledged(saved: Option<Cut>, number: Number) -> Number
    ensures { (message : List ℕ) → result ≡ number_after (saved_of saved message) number }
{
    match saved {
        Some(_) => number.other(),
        None => number,
    }
}

/// Returns the I-block of a reply from a place on, cut at this size.
pub(crate) fn next_block(reply: &[u8], place: usize, size: u8) -> Next
    requires size { IsSize size }
    requires place { place ≤ length reply.now }
    ensures block { (number : AnyNumber) (buffer : List ℕ)
        → sent_by number (field_of (card_waits_of result.wait buffer reply.now))
        (field_saved (saved_of result.saved reply.now)) result.sent ≡ info number
        (is_more (drop size (drop place reply.now))) (take size (drop place reply.now)) }
    ensures waits { (buffer : List ℕ)
        → card_waits_of result.wait buffer reply.now
        ≡ waiting (take size (drop place reply.now)) (drop size (drop place reply.now)) }
    ensures command { (buffer : List ℕ) → command_in result.wait buffer ≡ buffer }
    ensures saved { saved_of result.saved reply.now
        ≡ saving None (take size (drop place reply.now)) (drop size (drop place reply.now)) }
    ensures wait_fits { IsCardWait result.wait result.saved (length reply.now) }
    ensures saved_fits { IsSaved result.saved (length reply.now) }
{
    let cut = Cut { place, size };
    if reply.len() - place > size as usize {
        Next {
            sent: Sent::Inner,
            wait: CardWait::Reply(cut),
            saved: None,
        }
    } else {
        Next {
            sent: Sent::Last,
            wait: CardWait::Command,
            saved: Some(cut),
        }
    }
}
