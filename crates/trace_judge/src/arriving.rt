//! How a block reached the other end, as a monitor takes it.

ghost use Rattle.trace_judge.specs.Judging.{IsArrival};

use judge_core::Arrival;
use trace_text::Reach;

/// Returns how a block arrived. With an error of parity it arrived as octets that are no block.
pub(crate) fn arrival_of(reach: &Reach) -> Arrival<'_>
    ensures { IsArrival reach.now result }
{
    match reach {
        Reach::Unsaid => Arrival::Unsaid,
        Reach::Lost => Arrival::Lost,
        Reach::Parity => Arrival::Came(&[]),
        Reach::Came(octets) => Arrival::Came(octets.get()),
    }
}
