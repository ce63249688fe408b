//! Data object lists (EMV 4.3 Book 3, clause 5.4).

ghost use Rattle.std.specs.Prelude.{◌≡◌, ◌≢◌, length, IfOk, IfErr};
ghost use Rattle.octet_core.specs.Grammar.{whole, Refuses};
ghost use Rattle.tlv_core.specs.Dol.{IsDol, IsDolReason};
ghost use Rattle.c_lent.specs.Verdict.{IsRefusal, Tells, ok_at};
ghost use Rattle.c_lent.specs.Tlv.{dol_reason};
ghost use Rattle.c_lent.specs.Dol.{IsSomeDol, PutsEntries, ArePut, entry_shown};

use crate::parts::{CTag, tag_shown};
use crate::verdict::Verdict;
use octet_core::Stop;
use tlv_core::{DolReason, EntryWalk, Tag};

/// An entry of a data object list: a tag, and how many octets the list requests for its value.
#[repr(C)]
#[derive(Clone, Copy)]
pub struct CEntry {
    pub tag: CTag,
    pub len: u8,
}

/// Checks whether octets are a data object list.
pub fn dol_check(octets: &[u8]) -> Verdict
    ensures ok { result.status ≡ 0 → IsSomeDol octets.now }
    ensures place { result.status ≡ 0 → result ≡ ok_at (length octets.now) }
    ensures refused { result.status ≢ 0 →
        Tells dol_reason (Refuses whole IsDol IsDolReason octets.now) result }
{
    match put_entries(octets, &mut []) {
        Ok(_) => Verdict::ok(octets.len()),
        Err(stop) => Verdict::stopped(stop),
    }
}

/// Writes the entries of a data object list to an array, in their order.
///
/// It reads the octets once, and writes as it reads. If the octets are refused, the content of the array is
/// unspecified. If the array is too small, it has the first entries.
pub fn dol_entries(octets: &[u8], out: &mut [CEntry]) -> Verdict
    ensures entries { (IsRefusal result → ⊥) → PutsEntries octets.now out.old out.new result }
    ensures refused { IsRefusal result →
        Tells dol_reason (Refuses whole IsDol IsDolReason octets.now) result }
{
    match put_entries(octets, out) {
        Ok(count) => Verdict::put(count, out.len()),
        Err(stop) => Verdict::stopped(stop),
    }
}

/// Writes as many entries of a list to an array as it has room for, and returns how many entries the list has.
fn put_entries(octets: &[u8], out: &mut [CEntry]) -> Result<usize, Stop<DolReason>>
    ensures ok { IfOk result (ArePut octets.now out.old out.new) }
    ensures refused { IfErr result (Refuses whole IsDol IsDolReason octets.now) }
{
    let mut walk = EntryWalk::new();
    let mut count = 0;
    while let Some(entry) = walk.next_entry(octets)? {
        if count < out.len() {
            out[count] = entry_shown(&entry);
        }
        count += 1;
    }
    Ok(count)
}

/// Returns an entry as a struct of C.
fn entry_shown(entry: &(Tag, u8)) -> CEntry
    ensures { result ≡ entry_shown entry.now }
{
    let (tag, len) = entry;
    CEntry {
        tag: tag_shown(tag),
        len: *len,
    }
}
