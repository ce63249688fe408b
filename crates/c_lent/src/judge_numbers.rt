//! The state of the judge of a line as the numbers that C has.

ghost use Rattle.std.specs.Prelude.{◌≡◌};
ghost use Rattle.c_lent.specs.Kept.{mark_of};
ghost use Rattle.c_lent.specs.Number.{number_of, fault_of, subject_of};
ghost use Rattle.c_lent.specs.KeptJudge.{mark_in, number_in, asked_shown, owed_shown, fault_in, subject_in, side_of, side_in, doubt_in, pending_in, asked_in, owed_in, pcb_in, heard_as, last_in, nad_in, pairs_in};

use crate::kept::{mark, mark_of};
use crate::number::{fault, fault_of, number, number_of, subject, subject_of};
use block_core::{Fault, Number, Pcb, S};
use judge_core::{Asked, Doubt, Heard, Last, Owed, Pairs, Pending, Side};

/// A control octet as three numbers: the kind of block; its number or subject; whether more blocks follow, or its
/// fault.
pub(crate) type Spelled = (u8, u8, u8);

/// Returns what a mark means: 0 no, any other value yes.
pub(crate) fn mark_in(mark: u8) -> bool
    ensures { result ≡ mark_in mark }
{
    mark_of(mark).unwrap_or(true)
}

pub(crate) fn number_in(number: u8) -> Number
    ensures { result ≡ number_in number }
{
    number_of(number).unwrap_or(Number::One)
}

fn fault_in(fault: u8) -> Fault
    ensures { result ≡ fault_in fault }
{
    fault_of(fault).unwrap_or(Fault::Other)
}

fn subject_in(about: u8) -> S
    ensures { result ≡ subject_in about }
{
    subject_of(about).unwrap_or(S::Wtx)
}

/// Returns an end by its number: 0 the terminal, 1 the card.
pub(crate) fn side_of(side: u8) -> Option<Side>
    ensures { result ≡ side_of side }
{
    match side {
        0 => Some(Side::Terminal),
        1 => Some(Side::Card),
        _ => None,
    }
}

pub(crate) fn side_in(side: u8) -> Side
    ensures { result ≡ side_in side }
{
    side_of(side).unwrap_or(Side::Card)
}

pub(crate) fn side(side: Side) -> u8
    ensures { side_in result ≡ side }
{
    match side {
        Side::Terminal => 0,
        Side::Card => 1,
    }
}

pub(crate) fn pending_in(pending: u8) -> Pending
    ensures { result ≡ pending_in pending }
{
    match pending {
        0 => Pending::Settled,
        1 => Pending::Chain,
        _ => Pending::Last,
    }
}

pub(crate) fn pending(pending: Pending) -> u8
    ensures { pending_in result ≡ pending }
{
    match pending {
        Pending::Settled => 0,
        Pending::Chain => 1,
        Pending::Last => 2,
    }
}

pub(crate) fn doubt_in(doubt: u8) -> Doubt
    ensures { result ≡ doubt_in doubt }
{
    match doubt {
        0 => Doubt::Clear,
        1 => Doubt::Refusable,
        _ => Doubt::Open,
    }
}

pub(crate) fn doubt(doubt: Doubt) -> u8
    ensures { doubt_in result ≡ doubt }
{
    match doubt {
        Doubt::Clear => 0,
        Doubt::Refusable => 1,
        Doubt::Open => 2,
    }
}

pub(crate) fn asked_in(kind: u8, octet: u8) -> Option<Asked>
    ensures { result ≡ asked_in kind octet }
{
    match kind {
        0 => None,
        1 => Some(Asked::Size(octet)),
        2 => Some(Asked::Time(octet)),
        3 => Some(Asked::Stop),
        _ => Some(Asked::Anew),
    }
}

/// Returns the number of a request, 0 for none, and the octet that it carries.
pub(crate) fn asked(asked: Option<Asked>) -> (u8, u8)
    ensures shown { result ≡ asked_shown asked }
    ensures kept { asked_in result.0 result.1 ≡ asked }
{
    match asked {
        None => (0, 0),
        Some(Asked::Size(size)) => (1, size),
        Some(Asked::Time(multiple)) => (2, multiple),
        Some(Asked::Stop) => (3, 0),
        Some(Asked::Anew) => (4, 0),
    }
}

pub(crate) fn owed_in(kind: u8, octet: u8) -> Owed
    ensures { result ≡ owed_in kind octet }
{
    match kind {
        1 => Owed::NewMessage,
        2 => Owed::NextBlock,
        3 => Owed::Acknowledgment,
        4 => Owed::SameBlock,
        5 => Owed::Correction,
        6 => Owed::Refusal,
        7 => Owed::SameRequest,
        8 => Owed::Answer(S::Resynch, octet),
        9 => Owed::Answer(S::Ifs, octet),
        10 => Owed::Answer(S::Abort, octet),
        11 => Owed::Answer(S::Wtx, octet),
        12 => Owed::EitherBlock,
        14 => Owed::MessageOrCorrection,
        15 => Owed::MessageOrRefusal,
        16 => Owed::AcknowledgmentOrRefusal,
        _ => Owed::AnyBlock,
    }
}

/// Returns the number of what is due, and the octet that a response carries.
pub(crate) fn owed(owed: Owed) -> (u8, u8)
    ensures shown { result ≡ owed_shown owed }
    ensures kept { owed_in result.0 result.1 ≡ owed }
{
    match owed {
        Owed::NewMessage => (1, 0),
        Owed::NextBlock => (2, 0),
        Owed::Acknowledgment => (3, 0),
        Owed::SameBlock => (4, 0),
        Owed::Correction => (5, 0),
        Owed::Refusal => (6, 0),
        Owed::SameRequest => (7, 0),
        Owed::Answer(S::Resynch, octet) => (8, octet),
        Owed::Answer(S::Ifs, octet) => (9, octet),
        Owed::Answer(S::Abort, octet) => (10, octet),
        Owed::Answer(S::Wtx, octet) => (11, octet),
        Owed::EitherBlock => (12, 0),
        Owed::AnyBlock => (13, 0),
        Owed::MessageOrCorrection => (14, 0),
        Owed::MessageOrRefusal => (15, 0),
        Owed::AcknowledgmentOrRefusal => (16, 0),
    }
}

pub(crate) fn pcb_in(kind: u8, about: u8, detail: u8) -> Pcb
    ensures { result ≡ pcb_in kind about detail }
{
    match kind {
        0 => Pcb::Info {
            number: number_in(about),
            more: mark_in(detail),
        },
        1 => Pcb::Ready {
            number: number_in(about),
            fault: fault_in(detail),
        },
        2 => Pcb::Request(subject_in(about)),
        _ => Pcb::Response(subject_in(about)),
    }
}

pub(crate) fn pcb(pcb: Pcb) -> Spelled
    ensures { pcb_in result.0 result.1 result.2 ≡ pcb }
{
    match pcb {
        Pcb::Info { number: ns, more } => (0, number(ns), mark(more)),
        Pcb::Ready {
            number: nr,
            fault: told,
        } => (1, number(nr), fault(told)),
        Pcb::Request(about) => (2, subject(about), 0),
        Pcb::Response(about) => (3, subject(about), 0),
    }
}

pub(crate) fn heard_as(kind: u8, pcb: Pcb, octet: u8) -> Heard
    ensures { result ≡ heard_as kind pcb octet }
{
    match kind {
        0 => Heard::Beginning,
        1 => Heard::Whole(pcb, octet),
        2 => Heard::Perhaps(pcb, octet),
        3 => Heard::Broken,
        _ => Heard::Nothing,
    }
}

pub(crate) fn nad_in(has_nad: bool, nad: u8) -> Option<u8>
    ensures { result ≡ nad_in has_nad nad }
{
    if has_nad { Some(nad) } else { None }
}

/// Returns the pairs of node addresses by their number, with the second pair.
pub(crate) fn pairs_in(kind: u8, other: u8) -> Pairs
    ensures { result ≡ pairs_in kind other }
{
    match kind {
        0 => Pairs::First,
        1 => Pairs::Two(other),
        _ => Pairs::Many,
    }
}

/// Returns the number of the pairs of node addresses, and the second pair, or 0.
pub(crate) fn pairs(pairs: Pairs) -> (u8, u8)
    ensures { pairs_in result.0 result.1 ≡ pairs }
{
    match pairs {
        Pairs::First => (0, 0),
        Pairs::Two(other) => (1, other),
        Pairs::Many => (2, 0),
    }
}

pub(crate) fn last_in(last: u8) -> Last
    ensures { result ≡ last_in last }
{
    match last {
        0 => Last::Here,
        1 => Last::Unclear,
        2 => Last::Asked,
        3 => Last::Late,
        _ => Last::Answered,
    }
}

pub(crate) fn last(last: Last) -> u8
    ensures { last_in result ≡ last }
{
    match last {
        Last::Here => 0,
        Last::Unclear => 1,
        Last::Asked => 2,
        Last::Late => 3,
        Last::Answered => 4,
    }
}

/// Returns whether there is a node address, and the address.
pub(crate) fn nad_kept(nad: Option<u8>) -> (bool, u8)
    ensures { nad_in result.0 result.1 ≡ nad }
{
    match nad {
        Some(nad) => (true, nad),
        None => (false, 0),
    }
}
