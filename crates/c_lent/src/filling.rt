//! Fills data object lists with known values (EMV 4.3 Book 3, clause 5.4).

ghost use Rattle.std.specs.Prelude.{◌≡◌, ◌≢◌, ◌↔◌, ◌≤◌, ◌<◌, ◌+◌, ◌++◌, IsTrue, IfOk, IfErr, IfSome, IfNone, Some, None, length, map, take, drop};
ghost use Rattle.octet_core.specs.Grammar.{whole, Refuses};
ghost use Rattle.tlv_core.specs.Dol.{IsDol, IsDolReason};
ghost use Rattle.tlv_core.specs.Fill.{HasDuplicate, entry_part, known_for};
ghost use Rattle.c_lent.specs.Verdict.{IsRefusal, Tells, twice_known, wrong_argument};
ghost use Rattle.c_lent.specs.Tlv.{dol_reason};
ghost use Rattle.c_lent.specs.Dol.{IsSomeDol};
ghost use Rattle.c_lent.specs.Fill.{format_of, IsKnown, AreKnown, known_seen, longest_list, Fills, AreFilled};

use crate::parts::{CKnown, octets_of};
use crate::verdict::Verdict;
use octet_core::{Format, Stop};
use tlv_core::{DolReason, EntryWalk, Tag, put_copies, put_fitted};

/// The longest list that is filled, in octets. No machine has so many.
const LONGEST_LIST: usize = 1 << 48;

/// Writes the octets that a data object list requests: for each entry a part of its length. This part is the known
/// value of its tag, cut and padded by its format. It is zeros if the tag is that of a constructed object or has no
/// known value.
///
/// It reads the list twice, and searches the known values one by one for each entry.
pub fn dol_fill(list: &[u8], known: &[CKnown<'_>], out: &mut [u8]) -> Verdict
    ensures filled { length list.now ≤ longest_list → AreKnown known.now → (IsRefusal result → ⊥)
        → result.status ≢ 5 →
        Fills list.now (map known_seen known.now) out.old out.new result }
    ensures refused { IsRefusal result →
        Tells dol_reason (Refuses whole IsDol IsDolReason list.now) result }
    ensures duplicate { result.status ≡ 5 →
        (result ≡ twice_known) × IsSomeDol list.now × HasDuplicate (map known_seen known.now) }
    ensures argument { (AreKnown known.now → ⊥) → result ≡ wrong_argument 0 }
    ensures long { longest_list < length list.now → result ≡ wrong_argument 0 }
    ensures stays { result.status ≢ 0 → out.new ≡ out.old }
{
    if !are_known(known) || list.len() > LONGEST_LIST {
        return Verdict::argument();
    }
    match put_parts(list, known, &mut []) {
        Err(stop) => Verdict::stopped(stop),
        Ok(_) if has_duplicate(known) => Verdict::duplicate(),
        Ok(count) if count > out.len() => Verdict::lacking(count),
        Ok(count) => {
            let _put = put_parts(list, known, out);
            Verdict::ok(count)
        }
    }
}

/// Writes as many octets of the parts of a list to a buffer as it has room for, and returns how many octets they are.
fn put_parts(list: &[u8], known: &[CKnown<'_>], out: &mut [u8]) -> Result<usize, Stop<DolReason>>
    requires few { length list.now ≤ longest_list }
    requires known { AreKnown known.now }
    ensures ok { IfOk result (AreFilled list.now (map known_seen known.now) out.old out.new) }
    ensures refused { IfErr result (Refuses whole IsDol IsDolReason list.now) }
{
    let mut walk = EntryWalk::new();
    let mut count = 0;
    while let Some(entry) = walk.next_entry(list)? {
        let end = count + entry.1 as usize;
        if end <= out.len() {
            put_at(known, &entry, count, out);
        }
        count = end;
    }
    Ok(count)
}

/// Writes the part of an entry to an offset of a buffer.
fn put_at(known: &[CKnown<'_>], entry: &(Tag, u8), place: usize, out: &mut [u8])
    requires { place + entry.now.1 ≤ length out.old }
    ensures { out.new ≡ take place out.old
        ++ (entry_part (map known_seen known.now) entry.now ++ drop (place + entry.now.1) out.old) }
{
    let (tag, len) = entry;
    put_part(known, tag, &mut out[place..place + *len as usize]);
}

/// Writes the part of an entry to a slice of exactly its length.
fn put_part(known: &[CKnown<'_>], tag: &Tag, part: &mut [u8])
    ensures { part.new ≡ entry_part (map known_seen known.now) (tag.now, length part.old) }
{
    if tag.is_constructed() {
        put_copies(part, 0);
        return;
    }
    match find(known, tag.octets()) {
        Some(one) => put_fitted(part, format_of(one.format), one.value),
        None => put_copies(part, 0),
    }
}

/// Returns the first known value with this tag.
fn find<'a>(known: &'a [CKnown<'a>], tag: &[u8]) -> Option<&'a CKnown<'a>>
    ensures found { IfSome result
        (λ one. known_for tag.now (map known_seen known.now) ≡ Some (known_seen one.now)) }
    ensures none { IfNone result (known_for tag.now (map known_seen known.now) ≡ None) }
{
    for one in known {
        if tag == octets_of(&one.tag) {
            return Some(one);
        }
    }
    None
}

/// Whether two known values have the same tag.
fn has_duplicate(known: &[CKnown<'_>]) -> bool
    ensures { IsTrue result ↔ HasDuplicate (map known_seen known.now) }
{
    for (place, first) in known.iter().enumerate() {
        if find(&known[place + 1..], octets_of(&first.tag)).is_some() {
            return true;
        }
    }
    false
}

/// Whether each struct is a known value.
fn are_known(known: &[CKnown<'_>]) -> bool
    ensures { IsTrue result ↔ AreKnown known.now }
{
    for one in known {
        if !is_known(one) {
            return false;
        }
    }
    true
}

fn is_known(one: &CKnown<'_>) -> bool
    ensures { IsTrue result ↔ IsKnown one.now }
{
    one.format <= 2 && Tag::new(octets_of(&one.tag)).is_some()
}

fn format_of(number: u8) -> Format
    ensures { result ≡ format_of number }
{
    match number {
        0 => Format::Numeric,
        1 => Format::CompressedNumeric,
        _ => Format::Other,
    }
}
