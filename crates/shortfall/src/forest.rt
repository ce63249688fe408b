//! Data objects (EMV 4.3 Book 3, annex B; ISO/IEC 7816-4, clause 5.2.2).

ghost use Rattle.std.specs.Prelude.{◌≡◌, ◌+◌, ◌*◌, ◌^◌, ◌<◌, ◌≤◌};
ghost use Rattle.octet_core.specs.Grammar.{Begins};
ghost use Rattle.tlv_core.specs.Forest.{IsForest, largest};
ghost use Rattle.tlv_core.specs.Header.{IsWell, header_need};
ghost use Rattle.tlv_core.specs.Lent.{IsLentCheck, kept_at};
ghost use Rattle.tlv_core.specs.Reasons.{Kept, HasTaken};
ghost use Rattle.shortfall.specs.Forest.{open_rest};

use tlv_core::{Header, LARGEST_FOREST, LentCheck};

/// Returns how many more octets a forest needs at least: the rest of the outermost open object, or what its header says
/// so far that the object needs. It is 0 also if no forest of at most 1,048,576 octets begins with these octets.
pub fn forest_least(octets: &[u8]) -> usize
    ensures open { (k : Kept) → k.max ≡ largest → HasTaken octets.now k → result ≡ open_rest k }
    ensures none { (Begins (IsForest largest) octets.now → ⊥) → result ≡ 0 }
{
    let mut check = LentCheck::begin(LARGEST_FOREST);
    match check.feed(octets) {
        Ok(()) => open_rest(&check),
        Err(_) => 0,
    }
}

/// Returns how many more octets a forest needs at least after the octets that led a check to this state.
fn open_rest(check: &LentCheck) -> usize
    requires { IsLentCheck check.now }
    ensures { result ≡ open_rest (kept_at check.now) }
{
    match &check.ends[..usize::from(check.level)] {
        [outermost, ..] => (*outermost - check.count) as usize,
        [] => header_need(check.header) + check.value_left as usize,
    }
}

/// Returns how many more octets an object needs at least after these octets of its header. A value is shortest if the
/// octets of its length that are still to come are 00.
fn header_need(header: Header) -> usize
    requires { IsWell header }
    ensures { result ≡ header_need header }
{
    match header {
        Header::Nothing => 0,
        Header::First(_) | Header::Second(_, _) => 2,
        Header::Tagged(_) => 1,
        Header::Sized {
            form,
            read,
            number,
            ..
        } => { least_length(form.octets() - 1 - usize::from(read), number) }
    }
}

/// Returns the same for `left` octets of a length, after those that say `number`.
fn least_length(left: usize, number: u32) -> usize
    requires few { left ≤ 4 }
    requires fits { number * 256 ^ left < 2 ^ 32 }
    ensures { result ≡ left + number * 256 ^ left }
{
    left + number as usize * 0x100_usize.pow(left as u32)
}
