//! The trial of octets before the monitor takes them.

ghost use Rattle.std.specs.Prelude.{◌≡◌};
ghost use Rattle.judge_core.specs.Classes.{seen_of};
ghost use Rattle.judge_core.specs.Monitored.{addressed_by, sender};
ghost use Rattle.judge_core.specs.Rulings.{tried};

use crate::address::addressed_by;
use crate::class::Class;
use crate::courses::Trial;
use crate::monitor::{Monitor, Watched};
use block_core::Side;

/// The result of the trial of octets that aren't a block of another logical connection.
#[derive(Clone, Copy)]
pub(crate) struct Ruling {
    /// Whether they have the right node address.
    pub(crate) addressed: bool,
    /// The trial of a block that has it.
    pub(crate) trial: Option<Trial>,
}

impl Monitor {
    /// Tries octets that aren't a block of another logical connection, before the monitor takes them.
    pub(crate) fn ruling(&self, from: Side, class: &Class<'_>) -> Ruling
        ensures addressed { result.addressed ≡ addressed_by from self.now.nad (seen_of class.now) }
        ensures tried { result.trial
            ≡ tried (sender self.now from) result.addressed (seen_of class.now) }
    {
        let addressed = addressed_by(from, self.nad, class);
        let trial = match from {
            Side::Terminal => self.terminal.tried(addressed, class),
            Side::Card => self.card.tried(addressed, class),
        };
        Ruling { addressed, trial }
    }
}

impl Watched {
    /// Tries a block that has the right node address.
    fn tried(&self, addressed: bool, class: &Class<'_>) -> Option<Trial>
        ensures { result ≡ tried self.now addressed (seen_of class.now) }
    {
        match class {
            Class::Whole(block) if addressed => Some(self.trial(block)),
            Class::Whole(_) | Class::Malformed(_) | Class::Damage => None,
        }
    }
}
