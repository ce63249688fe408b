//! The exchange of PPS, which may come before the first block (ISO/IEC 7816-3:2006, clause 9).

ghost use Rattle.std.specs.Prelude.{◌≡◌, ◌++◌, OnOk, string_bytes, slice_index};
ghost use Rattle.trace_judge.specs.Judging.{is_pps, pps1_of, pps_timed, rate_text, rates_at, rates_text, with_pps, with_pps_of};

use crate::objects;
use crate::saying::push_number;
use arrayvec::ArrayVec;
use atr_core::{Atr, Convention, Interface, rates};
use judge_core::Side;
use judge_times::{Rates, Timing};
use layouts::Layout;
use octet_core::lrc;
use std::alloc::{AllocError, Global};

/// The bits of PPS0 that say which of PPS1, PPS2 and PPS3 follow.
const FOLLOWING: u8 = 0x70;

/// The bit of PPS0 for PPS1, and the PPS1 that changes nothing.
const HAS_PPS1: u8 = 0x10;

const DEFAULT_PPS1: u8 = 0x11;

/// Whether these octets are a PPS request or its answer: PPSS, PPS0, the octets that PPS0 announces, and PCK.
pub(crate) fn is_pps(octets: &[u8]) -> bool
    ensures { result ≡ is_pps octets.now }
{
    let pps0 = octet_at(octets, 1);
    octets.len() == 3 + (pps0 & FOLLOWING).count_ones() as usize && lrc(octets) == 0
}

/// Returns PPS1, or without it the value that changes nothing.
fn pps1_of(octets: &[u8]) -> u8
    ensures { result ≡ pps1_of octets.now }
{
    if octet_at(octets, 1) & HAS_PPS1 == 0 {
        DEFAULT_PPS1
    } else {
        octet_at(octets, 2)
    }
}

/// Appends what PPS1 says of F and D, from the tables of TA1.
fn push_pps(alloc: Global, text: &mut String, layout: Layout, pps1: u8) -> Result<(), AllocError>
    ensures { OnOk result (string_bytes text.new ≡ with_pps layout (string_bytes text.old) pps1) }
{
    let (fi, di) = rates_of(pps1);
    match layout {
        Layout::Lines => push_line(alloc, text, fi, di),
        Layout::Json => objects::push_pps(alloc, text, fi, di),
    }
}

/// Appends the line of F and D.
fn push_line(
    alloc: Global,
    text: &mut String,
    f: Option<u16>,
    d: Option<u16>,
) -> Result<(), AllocError>
    ensures { OnOk result (string_bytes text.new ≡ string_bytes text.old ++ rates_text f d) }
{
    text.push_str("pps F ")?;
    push_rate(alloc, text, f)?;
    text.push_str(" D ")?;
    push_rate(alloc, text, d)?;
    text.push_str("\n")
}

/// Appends what a card's answer to a PPS request says. It appends nothing for the request.
pub(crate) fn push_answered_pps(
    alloc: Global,
    text: &mut String,
    layout: Layout,
    from: Side,
    octets: &[u8],
) -> Result<(), AllocError>
    ensures { OnOk result (string_bytes text.new
        ≡ with_pps_of layout (string_bytes text.old) from octets.now) }
{
    match from {
        Side::Terminal => Ok(()),
        Side::Card => push_pps(alloc, text, layout, pps1_of(octets)),
    }
}

/// Returns what is known about the times after a PPS request or its answer. The answer has F and D from then on.
pub(crate) fn pps_timed(timing: Timing, from: Side, octets: &[u8]) -> Timing
    ensures { result ≡ pps_timed timing from octets.now }
{
    match from {
        Side::Terminal => timing.past(),
        Side::Card => Timing {
            rates: rates_of(pps1_of(octets)),
            ..timing.past()
        },
    }
}

/// Returns F and D from the tables of TA1. PPS1 has the form of TA1.
fn rates_of(pps1: u8) -> Rates
    ensures { result ≡ rates_at pps1 }
{
    let first = Interface {
        ta: Some(pps1),
        tb: None,
        tc: None,
    };
    let atr = Atr::new(Convention::Direct, first, ArrayVec::new(), ArrayVec::new()).unwrap();
    rates(&atr)
}

/// Appends a rate, or that its index is reserved.
fn push_rate(alloc: Global, text: &mut String, rate: Option<u16>) -> Result<(), AllocError>
    ensures { OnOk result (string_bytes text.new ≡ string_bytes text.old ++ rate_text rate) }
{
    match rate {
        Some(rate) => push_number(alloc, text, u64::from(rate)),
        None => text.push_str("reserved"),
    }
}

/// Returns the octet at a place, or 0 if there is none.
pub(crate) fn octet_at(octets: &[u8], place: usize) -> u8
    ensures { result ≡ slice_index octets.now place }
{
    octets.get(place).copied().unwrap_or(0)
}
