//! The note on octets that aren't an answer to reset.

ghost use Rattle.std.specs.Prelude.{◌≡◌, ◌≢◌, ◌/◌, ◌%◌, ◌<◌, drop};
ghost use Rattle.octet_core.specs.Octets.{xor_of};
ghost use Rattle.notes.specs.Missing.{announced_after, first_announced, next_after, next_byte, next_in_tail};

use crate::missing::{comes_next, front, would_be};
use atr_core::AtrReason;
use octet_core::{Stop, lrc};
use std::alloc::{AllocError, Global};

/// A byte of an answer to reset, by its name (ISO/IEC 7816-3, 8.2).
#[derive(Clone, Copy, Debug, PartialEq, Eq)]
pub enum NextByte {
    Ts,
    T0,
    /// TA with this number, from 1.
    Ta(usize),
    /// TB with this number.
    Tb(usize),
    /// TC with this number.
    Tc(usize),
    /// TD with this number.
    Td(usize),
    /// The historical byte with this number, from 1.
    Historical(usize),
    Tck,
}

/// Returns the note on octets that aren't an answer to reset. If TCK is wrong, or is all that is missing, it is what
/// TCK must be. If more is missing, it is which byte comes next. Otherwise it is empty.
pub fn atr_refusal_note(
    alloc: Global,
    octets: &[u8],
    stop: Stop<AtrReason>,
) -> Result<String, AllocError> {
    match stop {
        Stop::Short { .. } => next_byte_note(alloc, octets),
        Stop::At {
            place,
            reason: AtrReason::BadTck,
        } => would_be(alloc, "TCK", tck_after(front(octets, place))),
        Stop::At { .. } => Ok(String::new(alloc)),
    }
}

fn next_byte_note(alloc: Global, octets: &[u8]) -> Result<String, AllocError> {
    match next_byte(octets) {
        NextByte::Ts => comes_next(alloc, "TS"),
        NextByte::T0 => comes_next(alloc, "T0"),
        NextByte::Ta(number) => numbered_next(alloc, "TA", number),
        NextByte::Tb(number) => numbered_next(alloc, "TB", number),
        NextByte::Tc(number) => numbered_next(alloc, "TC", number),
        NextByte::Td(number) => numbered_next(alloc, "TD", number),
        NextByte::Historical(number) => numbered_next(alloc, "historical byte ", number),
        NextByte::Tck => would_be(alloc, "TCK", tck_after(octets)),
    }
}

fn numbered_next(alloc: Global, name: &str, number: usize) -> Result<String, AllocError> {
    let name = format!(in alloc; "{name}{number}")?;
    comes_next(alloc, name.as_str())
}

/// Returns TCK after these octets, from TS on: with it the exclusive-or of all octets from T0 on is 00.
pub fn tck_after(octets: &[u8]) -> u8
    ensures { result ≡ xor_of (drop 1 octets.now) }
{
    match octets {
        [] => 0,
        [_, checked @ ..] => lrc(checked),
    }
}

/// Returns which byte of an answer to reset comes after these octets, which begin one. After all other bytes this is
/// TCK.
pub fn next_byte(octets: &[u8]) -> NextByte
    ensures { result ≡ next_byte octets.now }
{
    match octets {
        [] => NextByte::Ts,
        [_] => NextByte::T0,
        [_, t0, more @ ..] => next_after(*t0, more),
    }
}

/// Returns which byte of an answer to reset comes after T0 and these octets.
fn next_after(t0: u8, octets: &[u8]) -> NextByte
    ensures { result ≡ next_after (t0 / 16) 1 (t0 % 16) octets.now }
{
    let mut bits = t0 / 16;
    let mut number = 1;
    let mut rest = octets;
    while bits != 0 {
        let [octet, more @ ..] = rest else {
            return first_announced(bits, number);
        };
        if bits == 8 {
            bits = *octet / 16;
            number += 1;
        } else {
            bits = announced_after(bits);
        }
        rest = more;
    }
    next_in_tail(usize::from(t0 % 16), rest)
}

/// Returns the first of TA, TB, TC and TD with this number that the bits announce.
fn first_announced(bits: u8, number: usize) -> NextByte
    ensures { result ≡ first_announced bits number }
{
    if bits % 2 == 1 {
        NextByte::Ta(number)
    } else if bits / 2 % 2 == 1 {
        NextByte::Tb(number)
    } else if bits / 4 % 2 == 1 {
        NextByte::Tc(number)
    } else {
        NextByte::Td(number)
    }
}

/// Returns what the bits announce after the first byte, which isn't a TD.
fn announced_after(bits: u8) -> u8
    requires some { bits ≢ 0 }
    requires byte { bits ≢ 8 }
    requires nibble { bits < 16 }
    ensures { result ≡ announced_after bits }
{
    if bits % 2 == 1 {
        bits - 1
    } else if bits / 2 % 2 == 1 {
        bits - 2
    } else {
        bits - 4
    }
}

/// Returns which of this many historical bytes comes after these, or TCK.
fn next_in_tail(historical: usize, tail: &[u8]) -> NextByte
    ensures { result ≡ next_in_tail historical tail.now }
{
    if tail.len() < historical {
        NextByte::Historical(tail.len() + 1)
    } else {
        NextByte::Tck
    }
}
