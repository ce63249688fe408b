//! Reading of a whole answer to reset in one pass.

ghost use Rattle.std.specs.Prelude.{◌≡◌, ◌+◌, ◌-◌, ◌<◌, ◌≤◌, ◌++◌, ℕ, [], IfSome, length, take};
ghost use Rattle.std.specs.Option.{option_to_list};
ghost use Rattle.octet_core.specs.Grammar.{Accepts, self_ended};
ghost use Rattle.atr_core.specs.Atr.{IsAtr, bit_of};
ghost use Rattle.atr_core.specs.Partial.{or_awaited};
ghost use Rattle.atr_core.specs.Whole.{AreTds, IsEnded, IsSection, tck_after};

use crate::announced::Announced;
use crate::atr::{MOST_OCTETS, has_tck};
use crate::encoding::push_all;
use crate::partial::opened;
use crate::{Convention, Indicated, Interface};
use arrayvec::ArrayVec;
use octet_core::lrc;

/// The interface bytes that T0 or a TD announces, as read from the front of octets.
#[derive(Clone, Copy)]
struct Section<'a> {
    bytes: Interface,
    /// Whether another TD follows.
    td: bool,
    /// The octets after them.
    rest: &'a [u8],
}

/// Reads the answer at the front of the octets, and returns how many octets it takes. Its parts are written to their
/// final place. The result is `None` if there is no whole answer there; it doesn't say why.
#[inline]
pub(crate) fn read_parts(
    octets: &[u8],
    convention: &mut Convention,
    first: &mut Interface,
    indicated: &mut ArrayVec<Indicated, 31>,
    historical: &mut ArrayVec<u8, 15>,
) -> Option<usize>
    requires indicated { indicated.old.items ≡ [] }
    requires historical { historical.old.items ≡ [] }
    ensures { IfSome result (λ count. Accepts self_ended IsAtr octets.now
        (record {
          convention = convention.new;
          first = first.new;
          indicated = indicated.new.items;
          historical = historical.new.items;
        }) count) }
{
    let [ts, from @ ..] = octets else {
        return None;
    };
    let [t0, after @ ..] = from else {
        return None;
    };
    let Ok(said) = opened(*ts) else {
        return None;
    };
    let section = read_section(*t0, after)?;
    *convention = said;
    *first = section.bytes;
    let tail = read_tds(indicated, section.td, section.rest)?;
    let tck = read_historical(historical, usize::from(*t0 % 16), tail)?;
    ended(from, tck, has_tck(indicated.as_slice()))
}

/// Reads the interface bytes that T0 or a TD announces from the front of the octets after it.
#[inline]
fn read_section(octet: u8, octets: &[u8]) -> Option<Section<'_>>
    ensures { IfSome result (λ section.
        IsSection octet octets.now section.bytes section.td section.rest.now) }
{
    let announced = Announced::by(octet);
    let (ta, rest) = read_byte(announced.ta, octets)?;
    let (tb, rest) = read_byte(announced.tb, rest)?;
    let (tc, rest) = read_byte(announced.tc, rest)?;
    Some(Section {
        bytes: Interface { ta, tb, tc },
        td: announced.td,
        rest,
    })
}

/// Reads an interface byte from the front of octets if it is announced. Returns it, and the octets after it.
#[inline]
fn read_byte(announced: bool, octets: &[u8]) -> Option<(Option<u8>, &[u8])>
    ensures told { IfSome result (λ taken. (weight : ℕ)
        → bit_of taken.0 weight ≡ bit_of (or_awaited announced None) weight) }
    ensures is { IfSome result (λ taken. octets.now ≡ option_to_list taken.0 ++ taken.1.now) }
{
    if !announced {
        return Some((None, octets));
    }
    let [octet, rest @ ..] = octets else {
        return None;
    };
    Some((Some(*octet), rest))
}

/// Reads each TD with its bytes from the front of octets, and returns the octets after them. `td` says
/// whether there is a first TD.
#[inline]
fn read_tds<'a>(
    indicated: &mut ArrayVec<Indicated, 31>,
    td: bool,
    octets: &'a [u8],
) -> Option<&'a [u8]>
    requires { indicated.old.items ≡ [] }
    ensures { IfSome result (λ rest. AreTds td octets.now indicated.new.items rest.now) }
{
    let mut td = td;
    let mut rest = octets;
    while td {
        let [octet, after @ ..] = rest else {
            return None;
        };
        let section = read_section(*octet, after)?;
        let protocol = *octet % 16;
        let bytes = section.bytes;
        if indicated.is_full() {
            return None;
        }
        indicated.push(Indicated { protocol, bytes });
        td = section.td;
        rest = section.rest;
    }
    Some(rest)
}

/// Reads `count` historical bytes from the front of octets, and returns the octets after them.
#[inline]
fn read_historical<'a>(
    historical: &mut ArrayVec<u8, 15>,
    count: usize,
    octets: &'a [u8],
) -> Option<&'a [u8]>
    requires blank { historical.old.items ≡ [] }
    requires few { count < 16 }
    ensures is { IfSome result (λ rest. octets.now ≡ historical.new.items ++ rest.now) }
    ensures count { IfSome result (λ rest. length historical.new.items ≡ count) }
{
    let (bytes, rest) = octets.split_at_checked(count)?;
    push_all(historical, bytes);
    Some(rest)
}

/// Returns how many octets the answer has. `from` are its octets from T0 on, and what follows. `tck` is the
/// part of `from` after the historical bytes, and `needed` says whether there is a TCK.
#[inline]
fn ended(from: &[u8], tck: &[u8], needed: bool) -> Option<usize>
    requires { length tck.now ≤ length from.now }
    ensures { IfSome result (λ count. IsEnded from.now tck.now needed count) }
{
    ended_after(&from[..from.len() - tck.len()], from, tck, needed)
}

/// Returns the same as `ended`. `checked` is the part of `from` up to the last historical byte.
#[inline]
pub(crate) fn ended_after(checked: &[u8], from: &[u8], tck: &[u8], needed: bool) -> Option<usize>
    requires inside { length tck.now ≤ length from.now }
    requires checked { checked.now ≡ take (length from.now - length tck.now) from.now }
    ensures { IfSome result (λ count. IsEnded from.now tck.now needed count) }
{
    let left = after_tck(needed, checked, tck)?;
    let count = 1 + from.len() - left.len();
    if count > MOST_OCTETS {
        return None;
    }
    Some(count)
}

/// Returns the octets after TCK. If TCK is `needed`, it must be the exclusive-or of the octets that it
/// checks.
#[inline]
fn after_tck<'a>(needed: bool, checked: &[u8], octets: &'a [u8]) -> Option<&'a [u8]>
    ensures { IfSome result (λ left. octets.now ≡ option_to_list (tck_after needed checked.now)
        ++ left.now) }
{
    if !needed {
        return Some(octets);
    }
    match octets {
        [tck, left @ ..] if *tck == lrc(checked) => Some(left),
        _ => None,
    }
}
