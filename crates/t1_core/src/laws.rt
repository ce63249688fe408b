//! What holds for the two ends and the line between them after every list of events, as contracts.
//!
//! `specs/Promises.antt` has the statements, for ends with any limits. Nothing is promised about progress, about damage
//! that the check octet doesn't find, or about a command that was given up: its host got it once or not at all.

ghost use Rattle.std.specs.Prelude.{◌≡◌, ◌≤◌, ◌↔◌, ℕ, List};
ghost use Rattle.octet_core.specs.Octets.{AreOctets};
ghost use Rattle.t1_core.specs.Came.{Came, IsClass, class_of};
ghost use Rattle.t1_core.specs.Link.{tables};
ghost use Rattle.t1_core.specs.Promises.{AlwaysMatches, ServesInOrder, InStepWhenIdle, AlwaysFits, AlwaysPatient, PatientWhereAlike, AlwaysTaken, Tells};

/// Whatever is lost or damaged, the card's host served each answered exchange with that reply, in order. The host gets
/// no command twice.
pub fn matched()
    ensures { AlwaysMatches tables }
{}

/// If no exchange was given up, the host's commands are the first of the terminal's. The answered exchanges are the
/// first of the host's services.
pub fn in_order()
    ensures { ServesInOrder tables }
{}

/// Whenever the terminal is idle, both ends hold the same information sizes, and the card expects the
/// number that the terminal sends next.
pub fn in_step()
    ensures { InStepWhenIdle tables }
{}

/// The I-block on the line fits the size that its receiver holds.
pub fn fits()
    ensures { AlwaysFits tables }
{}

/// The terminal gives up only after two blocks were lost or damaged since its exchange or question began. It is dead
/// only after five. Its failures since then are at most twice those blocks.
///
/// This holds if each message fits the limit of its receiver, as between ends with the same limits.
pub fn patient()
    ensures where_all_fit { AlwaysPatient tables }
    ensures where_alike { PatientWhereAlike tables }
{}

/// The turn `Answered` leaves an answer, and `Asked` leaves the host its turn.
pub fn turns_leave_messages()
    ensures { Tells tables }
{}

/// A block that is delivered whole is to its receiver the block that was sent, and never a damaged or invalid one.
///
/// This holds if the calls pass octets.
pub fn taken()
    ensures { AlwaysTaken tables }
{}

/// Octets have one class for an end, whatever its size.
pub fn one_class()
    ensures { (size : ℕ) (octets : List ℕ) (came also : Came) → IsClass size octets came
        → IsClass size octets also → came ≡ also }
{
    block_core::laws::one_accepted();
}

/// The class that `class_of` computes is the class from the verdict on the octets as a block. Both calls `received`
/// cite it.
pub fn class_is_computed()
    ensures { (size : ℕ) (octets : List ℕ) → size ≤ 254 → AreOctets octets → (came : Came)
        → IsClass size octets came ↔ (came ≡ class_of size octets) }
{
    one_class();
}
