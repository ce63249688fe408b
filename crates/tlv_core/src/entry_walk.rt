//! A walk over the entries of a data object list, with a state that the caller keeps.

ghost use Rattle.std.specs.Prelude.{◌≡◌, ℕ, ◌<◌, ◌≤◌, ◌++◌, ◌∷◌, [], List, length, IfOk, IfErr, IfSome, IfNone};
ghost use Rattle.octet_core.specs.Grammar.{Refuses, IsFirst, whole};
ghost use Rattle.tlv_core.specs.TagPart.{part_octets, IsTagPart};
ghost use Rattle.tlv_core.specs.Stops.{stop_place};
ghost use Rattle.tlv_core.specs.Dol.{AreAllBefore, IsDol, IsDolReason, IsPartAfter, IsWrongEntry, HasListed, listed_by, place_after, dol_reasons};

use crate::reason::DolReason;
use crate::tag::Tag;
use crate::tag_part::{TagPart, tag_first, tag_second, tag_third};
use octet_core::Stop;
use std::marker::Model;

/// A walk over the entries of a data object list, in their order. It allocates nothing: it keeps a place.
///
/// Contracts see the place at which the next entry begins.
#[derive(Drop)]
pub struct EntryWalk {
    place: usize,
}

impl Model for EntryWalk {
    ghost use Rattle.std.specs.Prelude.{ℕ};

    ghost Value = { ℕ };

    ghost view = { λ walk. walk.place };
}

impl EntryWalk {
    /// Starts a walk before the first entry.
    pub fn new() -> EntryWalk
        ensures { (b : List ℕ) → HasListed b result [] }
    {
        EntryWalk { place: 0 }
    }

    /// Returns the next entry, its tag and its length, or `None` after the last one. Each call takes the same octets.
    ///
    /// `None` means that all the octets are a list. The error says why they aren't: `Short` at their end if a list
    /// could continue there, or `At` the first octet after which none can. It comes after each whole entry before its
    /// place was returned. After `None` or an error the walk stays where it is, so each further call returns the same.
    pub fn next_entry(&mut self, octets: &[u8]) -> Result<Option<(Tag, u8)>, Stop<DolReason>>
        ensures more { IfOk result (λ next. IfSome next (λ _. self.old < self.new)) }
        ensures given { (entries : List (List ℕ × ℕ)) → HasListed octets.now self.old entries
            → HasListed octets.now self.new (entries ++ listed_by result) }

        ensures all { (entries : List (List ℕ × ℕ)) → HasListed octets.now self.old entries
            → IfOk result (λ next. IfNone next (IsDol entries octets.now)) }
        ensures refused { (entries : List (List ℕ × ℕ)) → HasListed octets.now self.old entries
            → IfErr result (Refuses whole IsDol IsDolReason octets.now) }
        ensures before { (entries : List (List ℕ × ℕ)) → HasListed octets.now self.old entries
            → IfErr result (λ stop. AreAllBefore octets.now entries (stop_place stop)) }
        ensures over { IfOk result (λ next. IfNone next (self.new ≡ self.old)) }
        ensures stays { IfErr result (λ _. self.new ≡ self.old) }
    {
        match entry_at(octets, self.place)? {
            Some((tag, length)) => {
                self.place += tag.octets().len() + 1;
                Ok(Some((tag, length)))
            }
            None => Ok(None),
        }
    }
}

/// Reads the entry that begins at `from`, if octets are left there. The error says why no entry begins there.
fn entry_at(octets: &[u8], from: usize) -> Result<Option<(Tag, u8)>, Stop<DolReason>>
    ensures inside { IfOk result
        (λ next. IfSome next (λ entry. place_after from entry ≤ length octets.now)) }
    ensures given { (entries : List (List ℕ × ℕ)) → HasListed octets.now from entries
        → IfOk result (λ next. IfSome next
        (λ entry. HasListed octets.now (place_after from entry) (entries ++ entry ∷ []))) }
    ensures all { (entries : List (List ℕ × ℕ)) → HasListed octets.now from entries
        → IfOk result (λ next. IfNone next (IsDol entries octets.now)) }
    ensures refused { (entries : List (List ℕ × ℕ)) → HasListed octets.now from entries
        → IfErr result (Refuses whole IsDol IsDolReason octets.now) }
    ensures before { (entries : List (List ℕ × ℕ)) → HasListed octets.now from entries
        → IfErr result (λ stop. AreAllBefore octets.now entries (stop_place stop)) }
{
    let mut part = TagPart::Nothing;
    for place in from..octets.len() {
        if let TagPart::Tagged(tag) = part {
            return Ok(Some((tag, octets[place])));
        }
        match entry_next(part, octets[place]) {
            Ok(next) => part = next,
            Err(reason) => return Err(Stop::At { place, reason }),
        }
    }
    if let TagPart::Nothing = part {
        return Ok(None);
    }
    Err(Stop::Short {
        place: octets.len(),
    })
}

/// Returns the unfinished part of an entry after the octet, or why the octet is refused. The octet after a whole tag
/// is its length, and ends the entry.
fn entry_next(part: TagPart, octet: u8) -> Result<TagPart, DolReason>
    requires { IsTagPart part }
    ensures ok { IfOk result (IsPartAfter part octet) }
    ensures err { IfErr result (IsFirst dol_reasons (IsWrongEntry (part_octets part) octet)) }
{
    match part {
        TagPart::Nothing => tag_first(octet).ok_or(DolReason::TagZero),
        TagPart::First(first) => tag_second(first, octet).ok_or(DolReason::TagSecond),
        TagPart::Second(first, second) => {
            tag_third(first, second, octet).ok_or(DolReason::TagLong)
        }
        TagPart::Tagged(_) => Ok(TagPart::Nothing),
    }
}
