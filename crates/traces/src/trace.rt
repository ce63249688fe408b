//! What was seen on a line.

ghost use Rattle.std.specs.Prelude.{◌≡◌};
ghost use Rattle.traces.specs.Rising.{rises};

use exchange_core::Side;
use exchange_text::LATEST_MOMENT;
use octet_core::Octets;
use std::marker::Model;

/// One thing that was seen.
#[derive(Debug, PartialEq, Eq, Drop)]
pub enum Item {
    /// These octets were on the line as one block, from this end. If the block is lost, it didn't reach the other end.
    Block {
        from: Side,
        octets: Octets,
        lost: bool,
    },
    /// The terminal's waiting time ended.
    Quiet,
    /// So many microseconds after some start.
    Moment(u64),
}

/// What was seen on a line, in order, which contracts see as a list. Moments are at most 999,999,999,999,999 and never
/// below an earlier one.
#[derive(Debug, Drop)]
pub struct Trace {
    items: Vec<Item>,
}

impl Model for Trace {
    ghost use Rattle.std.specs.Prelude.{List, ◌≡◌, true};
    ghost use Rattle.traces.specs.Rising.{rises};
    ghost use Rattle.traces.specs.declared.trace.Item.{Item};

    ghost Value = { List Item };

    ghost view = { λ trace. trace.items.items };

    ghost invariant = { λ trace. rises 0 trace.items.items ≡ true };
}

impl Trace {
    ghost use Rattle.std.specs.Prelude.{◌≡◌, ◌≢◌, MatchResult, true};
    ghost use Rattle.traces.specs.Rising.{rises};

    /// Makes a trace of items. If a moment is below an earlier one or too late, `Err` returns the items.
    pub fn try_new(items: Vec<Item>) -> Result<Trace, Vec<Item>>
        ensures { MatchResult result (λ trace. trace ≡ items.items)
            (λ back. (back ≡ items) × (rises 0 items.items ≢ true)) }
    {
        if rises(items.as_slice()) {
            Ok(Trace { items })
        } else {
            Err(items)
        }
    }

    /// Makes a trace of items whose moments are in order.
    pub(crate) fn rising(items: Vec<Item>) -> Trace
        requires { rises 0 items.items ≡ true }
        ensures { result ≡ items.items }
    {
        Trace { items }
    }

    /// Borrows the items.
    pub fn items(&self) -> &[Item]
        ensures items { result.now ≡ self.now }
        ensures rising { rises 0 self.now ≡ true }
    {
        self.items.as_slice()
    }
}

/// Whether moments are at most the latest one, and never below an earlier one.
fn rises(items: &[Item]) -> bool
    ensures { result ≡ rises 0 items.now }
{
    let mut least = 0;
    let mut rest = items;
    while let [item, after @ ..] = rest {
        if let Item::Moment(moment) = item {
            if *moment < least || LATEST_MOMENT < *moment {
                return false;
            }
            least = *moment;
        }
        rest = after;
    }
    true
}
