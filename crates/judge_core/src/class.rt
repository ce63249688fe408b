//! What octets on the line are.

ghost use Rattle.std.specs.Prelude.{◌≡◌, ◌+◌, ◌==◌, ◌&&◌};
ghost use Rattle.block_core.specs.Block.{is_whole};
ghost use Rattle.judge_core.specs.Monitored.{has_length, is_unchanged, refused_as, rule_at, rule_made, rule_of, IsSeen, IsSent};
ghost use Rattle.judge_core.specs.Classes.{seen_of};

use crate::monitor::Arrival;
use crate::rule::Rule;
use block_core::{BlockReason, BlockRef};
use octet_core::{Stop, lrc};

/// What octets on the line are.
#[derive(Debug, Drop)]
pub(crate) enum Class<'a> {
    /// A block, and no further octets.
    Whole(BlockRef<'a>),
    /// Octets with the length and the check octet of a block, which break this rule.
    Malformed(Rule),
    /// Anything else.
    Damage,
}

impl<'a> Class<'a> {
    /// Returns the same class.
    pub(crate) fn again(&self) -> Class<'a>
        ensures { seen_of result ≡ seen_of self.now }
    {
        match self {
            Class::Whole(block) => Class::Whole(same_block(block)),
            Class::Malformed(broken) => Class::Malformed(*broken),
            Class::Damage => Class::Damage,
        }
    }
}

fn same_block<'a>(block: &BlockRef<'a>) -> BlockRef<'a>
    ensures { result ≡ block.now }
{
    BlockRef::new(block.nad(), block.pcb(), block.inf()).unwrap()
}

/// Returns what these octets are as their sender made them. Damage that the line didn't make breaks a rule.
pub(crate) fn class_sent<'a>(octets: &'a [u8], arrival: Arrival<'_>) -> Class<'a>
    ensures { IsSent octets.now arrival.entry (seen_of result) }
{
    made_by(class_of(octets), octets, arrival)
}

/// Returns what octets of this class are as their sender made them.
pub(crate) fn made_by<'a>(class: Class<'a>, octets: &[u8], arrival: Arrival<'_>) -> Class<'a>
    requires { IsSeen octets.now (seen_of class) }
    ensures { IsSent octets.now arrival.entry (seen_of result) }
{
    match class {
        Class::Damage if is_unchanged(octets, arrival) => Class::Malformed(rule_made(octets)),
        class => class,
    }
}

/// Whether the trace says that the very same octets reached the other end.
fn is_unchanged(octets: &[u8], arrival: Arrival<'_>) -> bool
    ensures { result ≡ is_unchanged octets.now arrival.entry }
{
    match arrival {
        Arrival::Unsaid | Arrival::Lost => false,
        Arrival::Came(arrived) => arrived == octets,
    }
}

/// Returns the rule that octets break which aren't a block, if their sender made them so (11.3.2.3, 11.3.4).
fn rule_made(octets: &[u8]) -> Rule
    ensures { result ≡ rule_made octets.now }
{
    if has_length(octets) {
        Rule::CheckOctet
    } else {
        Rule::Length
    }
}

/// Returns what these octets are.
pub(crate) fn class_of(octets: &[u8]) -> Class<'_>
    ensures { IsSeen octets.now (seen_of result) }
{
    match BlockRef::decode(octets, 254) {
        Ok((block, taken)) if taken == octets.len() => Class::Whole(block),
        Ok(_) => Class::Damage,
        Err(stop) => refused_as(octets, rule_at(stop)),
    }
}

/// Returns what refused octets are. The check octet decides only if they break a rule.
fn refused_as(octets: &[u8], broken: Option<Rule>) -> Class<'static>
    ensures { seen_of result ≡ refused_as (is_whole octets.now) broken }
{
    match broken {
        Some(broken) if is_whole(octets) => Class::Malformed(broken),
        _ => Class::Damage,
    }
}

/// Whether LEN says how many octets there are.
fn has_length(octets: &[u8]) -> bool
    ensures { result ≡ has_length octets.now }
{
    let len = octets.get(2).copied().unwrap_or(0);
    octets.len() == usize::from(len) + 4
}

/// Whether LEN and the check octet are right.
fn is_whole(octets: &[u8]) -> bool
    ensures { result ≡ is_whole octets.now }
{
    has_length(octets) && lrc(octets) == 0
}

fn rule_at(stop: Stop<BlockReason>) -> Option<Rule>
    ensures { result ≡ rule_at stop }
{
    match stop {
        Stop::Short { .. } => None,
        Stop::At { reason, .. } => rule_of(reason),
    }
}

fn rule_of(reason: BlockReason) -> Option<Rule>
    ensures { result ≡ rule_of reason }
{
    match reason {
        BlockReason::BadPcb => Some(Rule::ControlOctet),
        BlockReason::BadLen | BlockReason::OverIfs => Some(Rule::Length),
        BlockReason::BadIfs => Some(Rule::ReservedSize),
        BlockReason::BadLrc => None,
    }
}
