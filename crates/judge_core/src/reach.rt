//! How blocks reach the other end, and what an end has heard then.

ghost use Rattle.std.specs.Prelude.{◌≡◌};
ghost use Rattle.judge_core.specs.Classes.{reaching_of, seen_of};
ghost use Rattle.judge_core.specs.Monitored.{after_silence, came_by, heard_in_time, heard_of, is_lost, is_refusing, no_block_came, opened_on_arrival, perhaps_heard, silence_of, surely_heard, IsReaching, IsSeen, IsSent};

use crate::address::{addressed_by, is_no_block, opened_by};
use crate::class::{Class, class_of, made_by};
use crate::connection::Pairs;
use crate::courses::Heard;
use crate::monitor::{Arrival, Silence};
use crate::sending::carried;
use block_core::{Pcb, Side};

/// How a block reached the other end.
#[derive(Debug, Drop)]
pub(crate) enum Reached<'a> {
    Unsaid,
    Lost,
    Came(Class<'a>),
}

/// What octets are as their sender made them, and how they reached the other end.
#[derive(Drop)]
pub(crate) struct Passage<'a> {
    pub(crate) class: Class<'a>,
    pub(crate) reached: Reached<'a>,
}

/// Classifies octets at both ends. Octets that arrived as they were sent are classified once.
pub(crate) fn passage_of<'a>(octets: &'a [u8], arrival: Arrival<'a>) -> Passage<'a>
    ensures sent { IsSent octets.now arrival.entry (seen_of result.class) }
    ensures reached { IsReaching arrival.entry (reaching_of result.reached) }
{
    let class = class_of(octets);
    let reached = reached_by(octets, &class, arrival);
    Passage {
        class: made_by(class, octets, arrival),
        reached,
    }
}

/// Returns how octets of this class reached the other end.
fn reached_by<'a>(octets: &[u8], class: &Class<'a>, arrival: Arrival<'a>) -> Reached<'a>
    requires { IsSeen octets.now (seen_of class.now) }
    ensures { IsReaching arrival.entry (reaching_of result) }
{
    match arrival {
        Arrival::Unsaid => Reached::Unsaid,
        Arrival::Lost => Reached::Lost,
        Arrival::Came(arrived) if arrived == octets => Reached::Came(class.again()),
        Arrival::Came(arrived) => Reached::Came(class_of(arrived)),
    }
}

/// Returns what an end has heard after a block of the other end.
pub(crate) fn heard_of(
    side: Side,
    addressed: bool,
    came_addressed: bool,
    class: &Class<'_>,
    reached: &Reached<'_>,
) -> Heard
    ensures { result ≡ heard_of side addressed came_addressed (seen_of class.now)
        (reaching_of reached.now) }
{
    match reached {
        Reached::Unsaid => perhaps_heard(addressed, class),
        Reached::Lost => after_silence(side),
        Reached::Came(came) => surely_heard(came_addressed, came),
    }
}

/// Whether what came has the node address that the first block set.
pub(crate) fn came_by(from: Side, nad: Option<u8>, reached: &Reached<'_>) -> bool
    ensures { result ≡ came_by from nad (reaching_of reached.now) }
{
    match reached {
        Reached::Unsaid | Reached::Lost => true,
        Reached::Came(came) => addressed_by(from, nad, came),
    }
}

fn perhaps_heard(addressed: bool, class: &Class<'_>) -> Heard
    ensures { result ≡ perhaps_heard addressed (seen_of class.now) }
{
    match class {
        Class::Whole(block) if addressed => Heard::Perhaps(block.pcb(), carried(block.inf())),
        Class::Whole(_) | Class::Malformed(_) | Class::Damage => Heard::Broken,
    }
}

pub(crate) fn surely_heard(addressed: bool, class: &Class<'_>) -> Heard
    ensures { result ≡ surely_heard addressed (seen_of class.now) }
{
    match class {
        Class::Whole(block) if addressed => Heard::Whole(block.pcb(), carried(block.inf())),
        Class::Whole(_) | Class::Malformed(_) | Class::Damage => Heard::Broken,
    }
}

pub(crate) fn after_silence(side: Side) -> Heard
    ensures { result ≡ after_silence side }
{
    match side {
        Side::Terminal => Heard::Broken,
        Side::Card => Heard::Nothing,
    }
}

/// Returns what a card has heard if the terminal's waiting time ended. It may still send its block.
pub(crate) fn heard_in_time(heard: Heard) -> Heard
    ensures { result ≡ heard_in_time heard }
{
    match heard {
        Heard::Beginning | Heard::Whole(..) | Heard::Perhaps(..) | Heard::Broken => Heard::Broken,
        Heard::Nothing => Heard::Nothing,
    }
}

/// Whether octets may say that their sender refused the block before.
pub(crate) fn is_refusing(class: &Class<'_>) -> bool
    ensures { result ≡ is_refusing (seen_of class.now) }
{
    match class {
        Class::Whole(block) => matches!(block.pcb(), Pcb::Ready { .. }),
        Class::Malformed(_) | Class::Damage => true,
    }
}

pub(crate) fn silence_of(heard: Heard, number: u64) -> Silence
    ensures { result ≡ silence_of heard number }
{
    match heard {
        Heard::Whole(..) => Silence::Certain(number),
        Heard::Perhaps(..) => Silence::Possible(number),
        Heard::Beginning | Heard::Broken | Heard::Nothing => Silence::No,
    }
}

/// Returns the pairs with that of what came, if that isn't the first one.
pub(crate) fn opened_on_arrival(nad: Option<u8>, pairs: Pairs, reached: &Reached<'_>) -> Pairs
    ensures { result ≡ opened_on_arrival nad pairs (reaching_of reached.now) }
{
    match reached {
        Reached::Unsaid | Reached::Lost => pairs,
        Reached::Came(came) => opened_by(Side::Terminal, nad, pairs, came),
    }
}

/// Whether no block is known to have come.
pub(crate) fn no_block_came(reached: &Reached<'_>) -> bool
    ensures { result ≡ no_block_came (reaching_of reached.now) }
{
    match reached {
        Reached::Unsaid | Reached::Lost => true,
        Reached::Came(came) => is_no_block(came),
    }
}

pub(crate) fn is_lost(reached: &Reached<'_>) -> bool
    ensures { result ≡ is_lost (reaching_of reached.now) }
{
    matches!(reached, Reached::Lost)
}
