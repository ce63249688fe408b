//! Changed blocks, delivered to both ends in each of their states.

use crate::as_exchange;
use crate::ends::Ends;
use crate::outcomes::{Class, is_card, is_terminal, wanted};
use crate::states::{STATES, State};
use crate::turns::Wanted;
use crate::usable::{is_card_usable, is_terminal_usable};
use block_core::{BlockReason, decode};
use exchange_core::Exchange;
use octet_core::Stop;
use std::alloc::{AllocError, Global};
use test_support::{Case, Fault, Size, Trial, of_hex, with_octet};

/// The beginning of an exchange whose card takes fields of 2 octets.
const HEAD: &str = "scard-exchange 1\natr 3B808131024577\n";

/// The blocks that are delivered, in hexadecimal.
static BLOCKS: [&str; 20] = [
    "00000500A4040000A5",
    "00820082",
    "00C101FE3E",
    "00200200A486",
    "006002040066",
    "0000010001",
    "00400040",
    "000002900092",
    "00810081",
    "00800080",
    "00C000C0",
    "00E000E0",
    "00C30101C3",
    "00E30101E3",
    "00C10102C2",
    "00E10102E2",
    "00000500B0000002B7",
    "002002AABB33",
    "00900090",
    "0040029000D2",
];

/// How many deliveries there were.
#[derive(Clone, Copy, Default)]
struct Delivered {
    blocks: u64,
    damaged: u64,
    invalid: u64,
}

impl Delivered {
    /// Counts one more delivery.
    fn count(&mut self, class: Class) {
        match class {
            Class::Block => self.blocks = self.blocks.saturating_add(1),
            Class::Damaged => self.damaged = self.damaged.saturating_add(1),
            Class::Invalid => self.invalid = self.invalid.saturating_add(1),
        }
    }
}

/// A state, and the exchange by which the ends reach it.
#[derive(Drop)]
struct Reached {
    state: &'static State,
    exchange: Exchange,
}

/// Delivers each block to each end in each state, whole and with each octet set to each other value.
///
/// The end's turn has to be that for the block, or for damaged or invalid octets. After it a whole exchange has to
/// pass.
pub(crate) fn deliver_each(rt: &HostRuntime, trial: &mut Trial) -> Result<(), Fault> {
    let mut delivered = Delivered::default();
    let count = deliver_in_each(trial, states(), &mut delivered);
    let counts = [
        ("delivered in ", count as u64),
        (" states: ", delivered.blocks),
        (" blocks, ", delivered.damaged),
        (" damaged, ", delivered.invalid),
    ];
    let rest = " invalid, each with a whole exchange after it";
    trial.report(rt, &counts, rest)
}

/// Returns the states. A function of its own names the table, since the checker lays it out in each that does.
fn states() -> &'static [State] {
    &STATES
}

/// Delivers each block in the first of these states or in all, and returns in how many.
fn deliver_in_each(
    trial: &mut Trial,
    states: &'static [State],
    delivered: &mut Delivered,
) -> usize {
    let count = trial.share.most(states.len());
    for state in states.iter().take(count) {
        deliver_in(trial, state, delivered);
    }
    count
}

/// Delivers each block in a state.
fn deliver_in(trial: &mut Trial, state: &'static State, delivered: &mut Delivered) {
    match way_to(trial.alloc, state) {
        Ok(reached) => deliver_blocks(trial, &reached, &BLOCKS, delivered),
        Err(fault) => trial.stop(fault),
    }
}

/// Returns how a state is reached.
fn way_to(alloc: Global, state: &'static State) -> Result<Reached, Fault> {
    let text = joined(alloc, HEAD, state.text)?;
    let exchange = as_exchange(alloc, text.as_bytes())?;
    Ok(Reached { state, exchange })
}

/// Returns two texts as one.
fn joined(alloc: Global, head: &str, rest: &str) -> Result<String, AllocError> {
    format!(in alloc; "{head}{rest}")
}

/// Delivers each of these blocks, in hexadecimal, in a state that is reached in this way.
fn deliver_blocks(
    trial: &mut Trial,
    reached: &Reached,
    blocks: &[&str],
    delivered: &mut Delivered,
) {
    for &block in blocks.iter().take(trial.share.most(blocks.len())) {
        deliver_text(trial, reached, block, delivered);
    }
}

/// Delivers a block in hexadecimal in a state.
fn deliver_text(trial: &mut Trial, reached: &Reached, block: &str, delivered: &mut Delivered) {
    match of_hex(trial.alloc, block) {
        Ok(block) => deliver(trial, reached, block.as_slice(), delivered),
        Err(fault) => trial.stop(fault),
    }
}

/// Delivers a block in a state, whole, and with each of its octets set to each other value.
fn deliver(trial: &mut Trial, reached: &Reached, block: &[u8], delivered: &mut Delivered) {
    to_both(trial, reached, block, 0, delivered);
    for place in 0..block.len() {
        if trial.share.has(place) && !trial.is_over() {
            deliver_changed(trial, reached, block, place, delivered);
        }
    }
}

/// Delivers a block in a state, with the octet at a place set to each other value.
fn deliver_changed(
    trial: &mut Trial,
    reached: &Reached,
    block: &[u8],
    place: usize,
    delivered: &mut Delivered,
) {
    for value in 0..=255u8 {
        if trial.share.has(usize::from(value)) && block.get(place) != Some(&value) {
            deliver_with(trial, reached, block, place, value, delivered);
        }
    }
}

/// Delivers a block in a state, with the octet at a place set to a value.
fn deliver_with(
    trial: &mut Trial,
    reached: &Reached,
    block: &[u8],
    place: usize,
    value: u8,
    delivered: &mut Delivered,
) {
    match with_octet(trial.alloc, block, place, value) {
        Ok(octets) => to_both(trial, reached, octets.as_slice(), place, delivered),
        Err(_) => trial.stop(Fault::Memory),
    }
}

/// Delivers the octets to each end.
fn to_both(
    trial: &mut Trial,
    reached: &Reached,
    octets: &[u8],
    place: usize,
    delivered: &mut Delivered,
) {
    let class = class_of(octets, reached.state.ifsd);
    delivered.count(class);
    let case = case_of(reached, octets, place, 0);
    trial.expect(case, does_terminal(trial.alloc, reached, octets, class));
    let class = class_of(octets, Size::Two);
    delivered.count(class);
    let case = case_of(reached, octets, place, 1);
    trial.expect(case, does_card(trial.alloc, reached, octets, class));
}

/// Returns the case of octets that come to an end. The end has a number.
fn case_of<'a>(reached: &Reached, octets: &'a [u8], place: usize, end: usize) -> Case<'a> {
    Case {
        what: reached.state.name,
        octets,
        place,
        piece: end,
    }
}

/// Returns what octets are to an end that takes fields of this size.
fn class_of(octets: &[u8], size: Size) -> Class {
    match decode(octets, size.octets()) {
        Ok((block, taken)) if taken == octets.len() && block.nad() == 0 => Class::Block,
        Err(
            Stop::At {
                reason: BlockReason::BadLrc,
                ..
            },
        ) => Class::Damaged,
        _ => Class::Invalid,
    }
}

impl Reached {
    /// Returns both ends in the state.
    fn ends(&self, alloc: Global) -> Result<Ends, Fault> {
        let mut ends = Ends::of(alloc, &self.exchange)?;
        if ends.follow(self.exchange.lines().get()) {
            Ok(ends)
        } else {
            Err(Fault::Stream)
        }
    }
}

/// Whether the terminal takes octets as it should, and is usable after that.
fn does_terminal(
    alloc: Global,
    reached: &Reached,
    octets: &[u8],
    class: Class,
) -> Result<bool, Fault> {
    let mut ends = reached.ends(alloc)?;
    let wanted = wanted(&reached.state.terminal, class, octets);
    Ok(is_terminal_right(&mut ends, octets, wanted))
}

/// Whether the terminal's turn after octets is the right one, and it is usable with a new card after that.
fn is_terminal_right(ends: &mut Ends, octets: &[u8], wanted: Wanted) -> bool {
    let is_right = is_terminal(&ends.terminal.received(octets), wanted);
    ends.card.reset(ends.params);
    is_terminal_usable(&mut ends.terminal, &mut ends.card) && is_right
}

/// Whether the card takes octets as it should, and is usable after that.
fn does_card(alloc: Global, reached: &Reached, octets: &[u8], class: Class) -> Result<bool, Fault> {
    let mut ends = reached.ends(alloc)?;
    let wanted = wanted(&reached.state.card, class, octets);
    Ok(is_card_right(&mut ends, octets, wanted))
}

/// Whether the card's turn after octets is the right one, and it is usable with a new terminal after that.
fn is_card_right(ends: &mut Ends, octets: &[u8], wanted: Wanted) -> bool {
    let is_right = is_card(&ends.card.received(octets), wanted);
    ends.terminal.reset(ends.params);
    is_card_usable(&mut ends.terminal, &mut ends.card) && is_right
}
