//! What octets that came are to an end.

ghost use Rattle.std.specs.Prelude.{◌≡◌, ◌≤◌, true};
ghost use Rattle.block_core.specs.Block.{IsWhole};
ghost use Rattle.t1_core.specs.Came.{IsClass, class_of};
ghost use Rattle.t1_core.specs.Views.{came_of, is_response_with};

use block_core::{BlockReason, BlockRef, Pcb, S};
use octet_core::Stop;

/// What came. A block borrows the octets that came, so its field is copied only once, into an end's buffer.
#[derive(Debug, Drop)]
pub(crate) enum Arrived<'a> {
    /// A whole block with node address 0.
    Whole(BlockRef<'a>),
    /// A block whose check octet is wrong, whatever its node address is and whatever follows it.
    Damaged,
    /// Anything else.
    Invalid,
}

impl<'a> Arrived<'a> {
    /// Whether it is the response to a question about this information size.
    pub(crate) fn responds_with(&self, size: u8) -> bool
        ensures { result ≡ is_response_with size (came_of self.now) }
    {
        match self {
            Arrived::Damaged | Arrived::Invalid => false,
            Arrived::Whole(block) => match block.pcb() {
                Pcb::Response(S::Ifs) => block.inf()[0] == size,
                Pcb::Response(S::Resynch | S::Abort | S::Wtx)
                | Pcb::Info { .. }
                | Pcb::Ready { .. }
                | Pcb::Request(_) => false,
            },
        }
    }
}

/// Returns what these octets are to an end that takes information fields of at most so many octets. `is_whole` says
/// that they are known to be whole.
#[inline(always)]
pub(crate) fn classify(octets: &[u8], ifs: u8, is_whole: bool) -> Arrived<'_>
    requires least { 1 ≤ ifs }
    requires most { ifs ≤ 254 }
    requires whole { is_whole ≡ true → IsWhole octets.now }
    ensures { came_of result ≡ class_of ifs octets.now }
{
    by_verdict(octets, ifs, is_whole)
}

/// Returns what the octets are, from the verdict on them as a block.
#[inline(always)]
fn by_verdict(octets: &[u8], ifs: u8, is_whole: bool) -> Arrived<'_>
    requires least { 1 ≤ ifs }
    requires most { ifs ≤ 254 }
    requires whole { is_whole ≡ true → IsWhole octets.now }
    ensures { IsClass ifs octets.now (came_of result) }
{
    match BlockRef::decode_burst(octets, ifs, is_whole) {
        Ok((block, taken)) => {
            if taken == octets.len() && block.nad() == 0 {
                Arrived::Whole(block)
            } else {
                Arrived::Invalid
            }
        }
        Err(
            Stop::At {
                reason: BlockReason::BadLrc,
                ..
            },
        ) => Arrived::Damaged,
        Err(_) => Arrived::Invalid,
    }
}
