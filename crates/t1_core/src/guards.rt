//! Which calls an end refuses in its state, or for a reserved size. Each guard is here, once.
//!
//! A guard changes nothing, so a call that it refuses changes nothing.

ghost use Rattle.std.specs.Prelude.{◌≡◌, List, ℕ, IfErr, Err, OnOk};
ghost use Rattle.t1_core.specs.Terminal.{TerminalStep, if_idle};
ghost use Rattle.t1_core.specs.Card.{CardStep, if_host};
ghost use Rattle.t1_core.specs.Views.{waits_of};
ghost use Rattle.t1_core.specs.CardViews.{card_waits_of};

use crate::turns::{CardFault, CardWait, TerminalFault, TerminalWait};

/// Returns `Err` unless the terminal is idle: `Dead` for a dead terminal, else `Busy`.
pub(crate) fn if_idle(wait: TerminalWait) -> Result<(), TerminalFault>
    ensures idle { OnOk result (wait ≡ TerminalWait.Idle) }
    ensures refused { IfErr result (λ fault. (command joined : List ℕ) (step : TerminalStep)
        → if_idle (waits_of wait command joined) step ≡ Err fault) }
{
    match wait {
        TerminalWait::Idle => Ok(()),
        TerminalWait::Dead => Err(TerminalFault::Dead),
        TerminalWait::Ack(_)
        | TerminalWait::Answer(_)
        | TerminalWait::More
        | TerminalWait::Ifs(_)
        | TerminalWait::Resynch(_) => Err(TerminalFault::Busy),
    }
}

/// Returns `Err` unless the card's host owes a reply: `Order`.
pub(crate) fn if_host(wait: CardWait) -> Result<(), CardFault>
    ensures host { OnOk result (wait ≡ CardWait.Host) }
    ensures refused { IfErr result (λ fault. (command reply : List ℕ) (step : CardStep)
        → if_host (card_waits_of wait command reply) step ≡ Err fault) }
{
    match wait {
        CardWait::Host => Ok(()),
        CardWait::Command | CardWait::Joining | CardWait::Reply(_) | CardWait::Asking(_) => {
            Err(CardFault::Order)
        }
    }
}
