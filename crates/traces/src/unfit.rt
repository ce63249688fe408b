//! What was seen on a line and can't be recorded.

ghost use Rattle.std.specs.Prelude.{◌≡◌, Some, None, IfSome, IfNone, false};
ghost use Rattle.traces.specs.Unfit as spec;
ghost use Rattle.traces.specs.Unfit.{address_of, are_addressed, first_from, is_pps, silence_at, swapped, unfit_in};

use crate::trace::Item;
use exchange_core::Side;
use octet_core::{Named, lrc};
use std::fmt::{self, Display, Formatter, Write};

/// Why what was seen on a line can't be recorded.
#[derive(Clone, Copy, Debug, PartialEq, Eq)]
pub enum Unfit {
    /// The terminal's first octets begin with FF, so they are PPS and not a block (ISO/IEC 7816-3, clauses 9.2 and
    /// 11.3.2.1).
    Pps,
    /// The first blocks of both ends have a node address other than 00, the card's with its halves swapped (clause
    /// 11.3.2.1). Both ends here use only 00.
    NodeAddress,
    /// The terminal sends a block after another one, with no block of the card and no end of its waiting time between
    /// them.
    Silence,
    /// The card was reset: another session begins.
    Reset,
    /// The trace goes on in the midst of a session of which nothing is known.
    Midway,
    /// A block arrived as other octets than those that were seen, or with an error of parity.
    Arrived,
}

/// The variant's name.
impl Named for Unfit {
    ghost use Rattle.traces.specs.Faults.{unfit_name};

    ghost text = { unfit_name };

    fn name(self) -> &'static str {
        match self {
            Unfit::Pps => "Pps",
            Unfit::NodeAddress => "NodeAddress",
            Unfit::Silence => "Silence",
            Unfit::Reset => "Reset",
            Unfit::Midway => "Midway",
            Unfit::Arrived => "Arrived",
        }
    }
}

/// The variant's name.
impl Display for Unfit {
    ghost use Rattle.std.specs.Prelude.{Some};
    ghost use Rattle.traces.specs.Faults.{unfit_name};

    ghost output = { λ why. Some (unfit_name why) };

    fn fmt<W: Write>(&self, f: &mut Formatter<W>) -> fmt::Result {
        f.write_str(self.name())
    }
}

/// Returns the first item that can't be recorded, by its place from 0, and why.
#[tactic(auto, unfolding(crate::specs::Unfit::unfit_in))]
pub fn unfit_in(items: &[Item]) -> Option<(usize, Unfit)>
    ensures { result ≡ unfit_in items.now }
{
    let Some((place, octets)) = first_from(items, Side::Terminal) else {
        return by_silence(items);
    };
    if is_pps(octets) {
        return Some((place, Unfit::Pps));
    }
    match first_from(items, Side::Card) {
        Some((_, answer)) if are_addressed(address_of(octets), address_of(answer)) => {
            Some((place, Unfit::NodeAddress))
        }
        _ => by_silence(items),
    }
}

/// Returns the block of the terminal that nothing came before, as what can't be recorded.
fn by_silence(items: &[Item]) -> Option<(usize, Unfit)>
    ensures { result ≡ spec.by_silence (silence_at 0 false items.now) }
{
    match silence_at(items) {
        Some(place) => Some((place, Unfit::Silence)),
        None => None,
    }
}

/// Returns the first block of an end, by its place among the items, and its octets.
fn first_from(items: &[Item], side: Side) -> Option<(usize, &[u8])>
    ensures some { IfSome result (λ x. first_from side 0 items.now ≡ Some (x.0, x.1.now)) }
    ensures none { IfNone result (first_from side 0 items.now ≡ None) }
{
    let mut place = 0;
    let mut rest = items;
    while let [item, after @ ..] = rest {
        if let Item::Block { from, octets, .. } = item {
            if from.is(side) {
                return Some((place, octets.get()));
            }
        }
        place += 1;
        rest = after;
    }
    None
}

/// Whether octets of the terminal begin PPS.
fn is_pps(octets: &[u8]) -> bool
    ensures { result ≡ is_pps octets.now }
{
    matches!(octets, [0xFF, ..])
}

/// Returns the node address of octets that have the length and the check octet of a block.
fn address_of(octets: &[u8]) -> Option<u8>
    ensures { result ≡ address_of octets.now }
{
    if octets.len() > 3 && octets.len() == usize::from(octets[2]) + 4 && lrc(octets) == 0 {
        Some(octets[0])
    } else {
        None
    }
}

/// Whether blocks with these addresses answer each other. The first address isn't 00.
fn are_addressed(address: Option<u8>, other: Option<u8>) -> bool
    ensures { result ≡ are_addressed address other }
{
    match (address, other) {
        (Some(address), Some(other)) => address != 0 && other == swapped(address),
        _ => false,
    }
}

/// Returns the address of a block that answers a block with this address: its halves are swapped.
fn swapped(address: u8) -> u8
    ensures { result ≡ swapped address }
{
    address % 16 * 16 + address / 16
}

/// Returns the place of a block of the terminal after another one. Between them is no block of the card and no end of a
/// waiting time.
fn silence_at(items: &[Item]) -> Option<usize>
    ensures { result ≡ silence_at 0 false items.now }
{
    let mut place = 0;
    let mut awaits = false;
    let mut rest = items;
    while let [item, after @ ..] = rest {
        match item {
            Item::Block {
                from: Side::Terminal,
                ..
            } if awaits => return Some(place),
            Item::Block { from, .. } => awaits = matches!(from, Side::Terminal),
            Item::Quiet => awaits = false,
            Item::Moment(_) => {}
        }
        place += 1;
        rest = after;
    }
    None
}
