//! The times of a trace, and when a card's block comes too late (ISO/IEC 7816-3:2006, 11.4.3).

ghost use Rattle.std.specs.Prelude.{◌≡◌, ◌<◌, ◌^◌};
ghost use Rattle.judge_times.specs.Waiting.{after_card, begun_at, etu_of, granted, late_after, late_by, lateness, multiple_of, new_timing, past, permitted_parts, permitted_time, rates_before, rates_by, sent_by, timed, untimed, waited, waited_by};

use atr_core::{Atr, T1Params, rates};
use block_core::{Pcb, S};
use judge_core::{Heard, Side};
use std::marker::Model;

/// F and D from the tables of TA1, each if it is known.
pub type Rates = (Option<u16>, Option<u16>);

/// F and D if nothing says others.
const DEFAULT_RATES: Rates = (Some(372), Some(1));

/// The bit of TA2 that says that the interface bytes don't give F and D.
const IMPLICIT: u8 = 0x10;

/// What a card's answer to reset offers.
#[derive(Debug, Drop)]
pub struct Offer {
    /// The parameters of T=1.
    pub params: T1Params,
    /// F and D from the reset until an exchange of PPS.
    pub rates: Rates,
}

impl Model for Offer {
    ghost use Rattle.judge_times.specs.Waiting.{Offered};

    ghost Value = { Offered };

    ghost view = { λ offer. record {
      values = record {
        ifsc = offer.params.ifsc;
        bwi = offer.params.bwi;
        cwi = offer.params.cwi;
      };
      rates = offer.rates;
    } };
}

/// An elementary time unit: F / D cycles of the card's clock.
#[derive(Clone, Copy)]
pub(crate) struct Etu {
    pub(crate) fi: u16,
    pub(crate) di: u16,
}

/// Octets of a block of which a moment is known: all of them, or the last one alone.
#[derive(Clone, Copy)]
pub struct Sent {
    /// When the first of them began, in microseconds.
    pub moment: u64,
    /// How many they are.
    pub octets: usize,
}

/// What is known about the times on the line.
#[derive(Clone, Copy)]
pub struct Timing {
    /// F and D in force.
    pub rates: Rates,
    /// The moment directly before the next block.
    pub now: Option<u64>,
    /// The moment of the last octet of the next block.
    pub until: Option<u64>,
    /// The terminal's last block, if a moment of it is known, and of the card's block after it.
    pub sent: Option<Sent>,
    /// The card's block after it.
    pub came: Option<Sent>,
}

impl Timing {
    /// Returns the timing at a reset of a card that offers these rates.
    pub fn new(rates: Rates) -> Timing
        ensures { result ≡ new_timing rates }
    {
        Timing {
            rates,
            now: None,
            until: None,
            sent: None,
            came: None,
        }
    }

    /// Returns the timing after a block of so many octets.
    pub fn timed(self, from: Side, octets: usize) -> Timing
        ensures { result ≡ timed self from octets }
    {
        let block = sent_by(self.until, self.now, octets);
        match from {
            Side::Terminal => Timing {
                sent: block,
                came: None,
                ..self.past()
            },
            Side::Card => self.after_card(block),
        }
    }

    /// Returns the timing after a block of the card. Without its moment nothing is known of the times of both.
    fn after_card(self, came: Option<Sent>) -> Timing
        ensures { result ≡ after_card self came }
    {
        match came {
            Some(_) => Timing {
                came,
                ..self.past()
            },
            None => self.untimed(),
        }
    }

    /// Returns the timing if no moment is known.
    pub fn untimed(self) -> Timing
        ensures { result ≡ untimed self }
    {
        Timing {
            sent: None,
            came: None,
            ..self.past()
        }
    }

    /// Returns the timing without the moments directly before: they count only for what comes directly after them.
    pub fn past(self) -> Timing
        ensures { result ≡ past self }
    {
        Timing {
            now: None,
            until: None,
            ..self
        }
    }
}

/// Returns a block of so many octets, by the moment of its last octet, or else by that of its first.
fn sent_by(until: Option<u64>, now: Option<u64>, octets: usize) -> Option<Sent>
    ensures { result ≡ sent_by until now octets }
{
    match until {
        Some(moment) => Some(Sent { moment, octets: 1 }),
        None => begun_at(now, octets),
    }
}

/// Returns a block of so many octets that began at this moment, if there is one.
fn begun_at(now: Option<u64>, octets: usize) -> Option<Sent>
    ensures { result ≡ begun_at now octets }
{
    match now {
        Some(moment) => Some(Sent { moment, octets }),
        None => None,
    }
}

/// The interval between octets of a block and now.
#[derive(Clone, Copy)]
pub(crate) struct Interval {
    /// Microseconds from the first of these octets to now.
    pub(crate) elapsed: u64,
    /// How many octets they are.
    pub(crate) octets: usize,
}

/// A card's block that came too late.
#[derive(Clone, Copy)]
pub struct Late {
    /// How many microseconds after the terminal's block it came, from its beginning or its last octet on.
    pub elapsed: u64,
    /// How many microseconds the standard permits.
    pub permitted: u64,
}

/// A terminal's block that came too early.
#[derive(Clone, Copy)]
pub struct Early {
    /// How many microseconds after the last block it came, from its beginning or its last octet on.
    pub elapsed: u64,
    /// How many microseconds the standard requires at least.
    pub least: u64,
}

/// Returns F and D from a reset until an exchange of PPS (ISO/IEC 7816-3:2006, 8.3).
///
/// They are those of TA1 if TA2 says that they hold at once, and 372 and 1 if there is no TA2. If bit 5 of TA2 says
/// that the interface bytes don't give them, both are `None`.
pub fn rates_before(atr: &Atr) -> Rates
    ensures { result ≡ rates_before atr.now }
{
    match atr.indicated() {
        [second, ..] => rates_by(second.bytes.ta, rates(atr)),
        [] => DEFAULT_RATES,
    }
}

/// Returns these rates from TA2.
fn rates_by(ta2: Option<u8>, offered: Rates) -> Rates
    ensures { result ≡ rates_by ta2 offered }
{
    match ta2 {
        None => DEFAULT_RATES,
        Some(ta2) if ta2 & IMPLICIT == 0 => offered,
        Some(_) => (None, None),
    }
}

/// Returns by how much a card's block is late if it comes now. It depends on what the card heard, and on the clock in
/// hertz.
pub fn lateness(params: T1Params, clock: Option<u64>, timing: Timing, heard: Heard) -> Option<Late>
    ensures { result ≡ lateness params clock timing heard }
{
    late_by(
        params,
        clock,
        granted(heard),
        etu_of(timing.rates),
        waited(timing),
    )
}

/// Returns by how much a block is late, if everything that decides it is known.
fn late_by(
    params: T1Params,
    clock: Option<u64>,
    multiple: Option<u8>,
    etu: Option<Etu>,
    waited: Option<Interval>,
) -> Option<Late>
    ensures { result ≡ late_by params clock multiple etu waited }
{
    match (clock, multiple, etu, waited) {
        (Some(clock), Some(multiple), Some(etu), Some(waited)) => late_after(
            permitted_time(params, clock, multiple, waited.octets, etu),
            waited.elapsed,
        ),
        _ => None,
    }
}

/// Returns a block that came later than permitted, if it did.
fn late_after(permitted: u128, elapsed: u64) -> Option<Late>
    ensures { result ≡ late_after permitted elapsed }
{
    if permitted < elapsed as u128 {
        Some(Late {
            elapsed,
            permitted: permitted as u64,
        })
    } else {
        None
    }
}

/// Returns how many microseconds are permitted from the beginning of a terminal's block of so many octets to that of
/// the card's.
fn permitted_time(params: T1Params, clock: u64, multiple: u8, octets: usize, etu: Etu) -> u128
    ensures { result ≡ permitted_time params clock multiple octets etu }
{
    let parts = permitted_parts(params, multiple, octets, etu);
    let per_second = (etu.di as u128 * clock as u128).max(1);
    (parts * 1_000_000).div_ceil(per_second)
}

/// Returns the permitted time in parts of an elementary time unit, `fi` of them in one unit.
fn permitted_parts(params: T1Params, multiple: u8, octets: usize, etu: Etu) -> u128
    ensures parts { result ≡ permitted_parts params multiple octets etu }
    ensures most { result < 2 ^ 100 }
{
    let block = params.bwt(etu.fi, etu.di);
    let character = params.cwt_etu() as u64 * etu.fi as u64;
    multiple as u128 * block as u128 + octets.saturating_sub(1) as u128 * character as u128
}

/// Returns the multiple of the block waiting time that the card has after what it heard, if that is a block.
pub(crate) fn granted(heard: Heard) -> Option<u8>
    ensures { result ≡ granted heard }
{
    match heard {
        Heard::Whole(pcb, octet) | Heard::Perhaps(pcb, octet) => Some(multiple_of(pcb, octet)),
        Heard::Beginning | Heard::Broken | Heard::Nothing => None,
    }
}

/// Returns the multiple that a block grants.
fn multiple_of(pcb: Pcb, octet: u8) -> u8
    ensures { result ≡ multiple_of pcb octet }
{
    match pcb {
        Pcb::Response(S::Wtx) => octet.max(1),
        Pcb::Info { .. } | Pcb::Ready { .. } | Pcb::Request(_) | Pcb::Response(_) => 1,
    }
}

/// Returns F and D, if both are known.
pub(crate) fn etu_of(rates: Rates) -> Option<Etu>
    ensures { result ≡ etu_of rates }
{
    match rates {
        (Some(fi), Some(di)) => Some(Etu { fi, di }),
        _ => None,
    }
}

/// Returns the interval between the terminal's last block and now, if both moments are known.
pub(crate) fn waited(timing: Timing) -> Option<Interval>
    ensures { result ≡ waited timing }
{
    waited_by(timing.now, timing.sent)
}

/// Returns the interval between a block and now, if both moments are known.
pub(crate) fn waited_by(now: Option<u64>, sent: Option<Sent>) -> Option<Interval>
    ensures { result ≡ waited_by now sent }
{
    match (now, sent) {
        (Some(now), Some(sent)) => Some(Interval {
            elapsed: now.saturating_sub(sent.moment),
            octets: sent.octets,
        }),
        _ => None,
    }
}
