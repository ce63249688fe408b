//! The length of a whole answer to reset, computed in one pass that keeps none of its parts.

ghost use Rattle.std.specs.Prelude.{◌+◌, ◌≤◌, IfSome, false, length};
ghost use Rattle.octet_core.specs.Grammar.{Accepts, self_ended};
ghost use Rattle.atr_core.specs.Atr.{AtrParts, IsAtr};
ghost use Rattle.atr_core.specs.Whole.{HasHeadBefore};

use crate::announced::Announced;
use crate::partial::opened;
use crate::whole::ended_after;

/// Returns how many octets the answer at the front of the octets takes. The result is `None` if there is no
/// whole answer there; it doesn't say why.
#[inline]
pub(crate) fn whole_len(octets: &[u8]) -> Option<usize>
    ensures { IfSome result (λ count. (v : AtrParts)
        × Accepts self_ended IsAtr octets.now v count) }
{
    let [ts, from @ ..] = octets else {
        return None;
    };
    let [t0, ..] = from else {
        return None;
    };
    let Ok(_) = opened(*ts) else {
        return None;
    };
    let (needed, place) = skip_head(*t0, from)?;
    let (checked, tck) = from.split_at_checked(place + usize::from(*t0 % 16))?;
    ended_after(checked, from, tck, needed)
}

/// Skips the interface bytes and TDs of the octets from T0 on. Returns whether they require a TCK, and the
/// place after the last of them. If the octets end before that place, some of these bytes are missing.
#[inline]
fn skip_head(t0: u8, from: &[u8]) -> Option<(bool, usize)>
    ensures passed { IfSome result (λ head. HasHeadBefore t0 from.now head.0 false head.1) }
    ensures near { IfSome result (λ head. head.1 ≤ length from.now + 4) }
{
    let first = Announced::by(t0);
    let mut td = first.td;
    let mut place = 1 + first.byte_count();
    let mut needed = false;
    while td {
        let octet = *from.get(place)?;
        let announced = Announced::by(octet);
        td = announced.td;
        place += 1 + announced.byte_count();
        needed |= octet % 16 != 0;
    }
    Some((needed, place))
}
