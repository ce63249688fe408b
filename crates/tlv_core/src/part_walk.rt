//! A walk over the parts of a forest, with a state that the caller keeps.

ghost use Rattle.std.specs.Prelude.{◌≡◌, ℕ, ◌<◌, ◌≤◌, List, [], ◌∷◌, ◌++◌, length, IfOk, IfErr, OnOk, IfSome, IfNone};
ghost use Rattle.octet_core.specs.Grammar.{Refuses, whole};
ghost use Rattle.tlv_core.specs.Forest.{IsForest};
ghost use Rattle.tlv_core.specs.Parts.{Placed};
ghost use Rattle.tlv_core.specs.Reasons.{IsReason};
ghost use Rattle.tlv_core.specs.Progress.{kept_of};
ghost use Rattle.tlv_core.specs.Stops.{stop_place};
ghost use Rattle.tlv_core.specs.Flat.{HasGiven, AreAllParts, IsInside, given_by, placed_of};

use crate::part::PlacedPart;
use crate::progress::Progress;
use crate::reason::TlvReason;
use octet_core::Stop;
use std::marker::Model;

/// A walk over the objects of a forest, in the order of their headers, each before those inside it, without the
/// fillers. It allocates nothing and doesn't recurse: it keeps how far it came in the octets, the places at which open
/// objects end, at most 16, and the octets of an unfinished header, at most seven.
///
/// Contracts see what the octets so far leave open.
#[derive(Drop)]
pub struct PartWalk {
    progress: Progress,
}

impl Model for PartWalk {
    ghost use Rattle.tlv_core.specs.Reasons.{Kept};
    ghost use Rattle.tlv_core.specs.Progress.{kept_of};

    ghost Value = { Kept };

    ghost view = { λ walk. kept_of walk.progress };
}

impl PartWalk {
    /// Starts a walk over a forest of at most `max` octets; `max` is at most 1,048,576.
    pub fn new(max: usize) -> PartWalk
        requires { max ≤ 1048576 }
        ensures limit { result.max ≡ max }
        ensures nothing { (b : List ℕ) → HasGiven b result [] }
    {
        PartWalk {
            progress: Progress::new(max),
        }
    }

    /// Returns the next object by its place, or `None` after the last one. Each call takes the same octets.
    ///
    /// `None` means that all the octets are a forest. The error says why they aren't: `Short` at their end if a forest
    /// could continue there, or `At` the first octet after which none can. It comes after each object whose header ends
    /// before its place, and the walk stays at that place. After `None` or an error each further call returns the same.
    #[inline(always)]
    pub fn next_part(&mut self, octets: &[u8]) -> Result<Option<PlacedPart>, Stop<TlvReason>>
        ensures limit { self.new.max ≡ self.old.max }
        ensures more { IfOk result (λ next. IfSome next (λ _. self.old.count < self.new.count)) }
        ensures inside { IfOk result (λ next. IfSome next (IsInside octets.now)) }
        ensures given { (parts : List Placed) → HasGiven octets.now self.old parts
            → HasGiven octets.now self.new (parts ++ given_by result) }

        ensures all { (parts : List Placed) → HasGiven octets.now self.old parts
            → IfOk result (λ next. IfNone next (AreAllParts self.old.max octets.now parts)) }
        ensures refused { (parts : List Placed) → HasGiven octets.now self.old parts
            → IfErr result (Refuses whole (IsForest self.old.max) (IsReason self.old.max) octets.now) }
        ensures at { IfErr result (λ stop. self.new.count ≡ stop_place stop) }
    {
        if let Some(part) = self.next_short(octets) {
            return Ok(Some(part));
        }
        next_part(&mut self.progress, octets)
    }

    /// Returns the next object if it has a short header, as most have, and if its octets are here: all of a primitive
    /// object, the header of a constructed one. `None` says nothing about the octets. The walk then stays where it is,
    /// and [`next_part`](PartWalk::next_part) continues from there.
    ///
    /// A fast caller asks for these objects in a loop of their own. If one loop takes the objects of both calls, the
    /// compiler packs each object into a form that both have.
    #[inline(always)]
    pub fn next_short(&mut self, octets: &[u8]) -> Option<PlacedPart>
        ensures limit { self.new.max ≡ self.old.max }
        ensures more { IfSome result (λ _. self.old.count < self.new.count) }
        ensures inside { IfSome result (IsInside octets.now) }
        ensures given { IfSome result
            (λ part. (parts : List Placed) → HasGiven octets.now self.old parts
            → HasGiven octets.now self.new (parts ++ placed_of part ∷ [])) }
        ensures none { IfNone result (self.new ≡ self.old) }
    {
        if self.progress.value_left() > 0 || self.progress.count() >= octets.len() {
            return None;
        }
        // two calls, so that the compiler makes code for outermost objects alone, where no place is counted
        match self.progress.level() {
            0 => take_short(&mut self.progress, octets, true),
            _ => take_short(&mut self.progress, octets, false),
        }
    }
}

/// Returns the next object, as [`PartWalk::next_part`] does. It is a separate function, so that objects with short
/// headers, which are most, are taken inline.
#[inline(never)]
fn next_part(progress: &mut Progress, octets: &[u8]) -> Result<Option<PlacedPart>, Stop<TlvReason>>
    ensures limit { progress.new.ends.max ≡ progress.old.ends.max }
    ensures more { IfOk result
        (λ next. IfSome next (λ _. progress.old.ends.count < progress.new.ends.count)) }
    ensures inside { IfOk result (λ next. IfSome next (IsInside octets.now)) }
    ensures given { (parts : List Placed) → HasGiven octets.now (kept_of progress.old) parts
        → HasGiven octets.now (kept_of progress.new) (parts ++ given_by result) }
    ensures all { (parts : List Placed) → HasGiven octets.now (kept_of progress.old) parts
        → IfOk result (λ next. IfNone next (AreAllParts progress.old.ends.max octets.now parts)) }
    ensures refused { (parts : List Placed) → HasGiven octets.now (kept_of progress.old) parts
        → IfErr result (Refuses whole
        (IsForest progress.old.ends.max) (IsReason progress.old.ends.max) octets.now) }
    ensures at { IfErr result (λ stop. progress.new.ends.count ≡ stop_place stop) }
{
    while progress.count() < octets.len() {
        if let Some(part) = advance(progress, octets)? {
            return Ok(Some(part));
        }
    }
    if progress.is_idle() {
        return Ok(None);
    }
    Err(Stop::Short {
        place: progress.count(),
    })
}

/// Takes the next octets of a forest: a run of the unfinished value, an object with a short header, or one octet. If they
/// complete the header of an object, returns that object.
#[inline(always)]
fn advance(progress: &mut Progress, octets: &[u8]) -> Result<Option<PlacedPart>, Stop<TlvReason>>
    requires { progress.old.ends.count < length octets.now }
    ensures limit { progress.new.ends.max ≡ progress.old.ends.max }
    ensures more { OnOk result (progress.old.ends.count < progress.new.ends.count) }
    ensures inside { IfOk result (λ next. IfSome next (IsInside octets.now)) }
    ensures given { (parts : List Placed) → HasGiven octets.now (kept_of progress.old) parts
        → HasGiven octets.now (kept_of progress.new) (parts ++ given_by result) }
    ensures refused { (parts : List Placed) → HasGiven octets.now (kept_of progress.old) parts
        → IfErr result (Refuses whole
        (IsForest progress.old.ends.max) (IsReason progress.old.ends.max) octets.now) }
    ensures at { IfErr result (λ stop. progress.new.ends.count ≡ stop_place stop) }
{
    let left = progress.value_left();
    if left > 0 {
        progress.skip(left.min(octets.len() - progress.count()));
        return Ok(None);
    }
    if let Some(part) = take_short(progress, octets, false) {
        return Ok(Some(part));
    }
    take_first(progress, octets)
}

/// Takes an object with a short header, if the next one has such a header. Whether it is taken as an outermost one
/// changes the time alone.
#[inline(always)]
fn take_short(progress: &mut Progress, octets: &[u8], as_outermost: bool) -> Option<PlacedPart>
    requires here { progress.old.ends.count ≤ length octets.now }
    requires idle { progress.old.value_left ≡ 0 }
    ensures limit { progress.new.ends.max ≡ progress.old.ends.max }
    ensures more { IfSome result (λ _. progress.old.ends.count < progress.new.ends.count) }
    ensures inside { IfSome result (IsInside octets.now) }
    ensures some { IfSome result
        (λ part. (parts : List Placed) → HasGiven octets.now (kept_of progress.old) parts
        → HasGiven octets.now (kept_of progress.new) (parts ++ placed_of part ∷ [])) }
    ensures none { IfNone result (progress.new ≡ progress.old) }
{
    let count = progress.count();
    let short = progress.next_short(&octets[count..], as_outermost)?;
    let place = count + usize::from(short.header);
    let part = PlacedPart::of(progress.level() + 1, short.object(), place);
    progress.pass(short);
    Some(part)
}

/// Takes one octet of a header, or a filler. If it completes the header of an object, returns that object.
#[inline(always)]
fn take_first(progress: &mut Progress, octets: &[u8]) -> Result<Option<PlacedPart>, Stop<TlvReason>>
    requires here { progress.old.ends.count < length octets.now }
    requires idle { progress.old.value_left ≡ 0 }
    ensures limit { progress.new.ends.max ≡ progress.old.ends.max }
    ensures more { OnOk result (progress.old.ends.count < progress.new.ends.count) }
    ensures inside { IfOk result (λ next. IfSome next (IsInside octets.now)) }
    ensures given { (parts : List Placed) → HasGiven octets.now (kept_of progress.old) parts
        → HasGiven octets.now (kept_of progress.new) (parts ++ given_by result) }
    ensures refused { (parts : List Placed) → HasGiven octets.now (kept_of progress.old) parts
        → IfErr result (Refuses whole
        (IsForest progress.old.ends.max) (IsReason progress.old.ends.max) octets.now) }
    ensures at { IfErr result (λ stop. progress.new.ends.count ≡ stop_place stop) }
{
    let depth = progress.level() + 1;
    match progress.take(octets[progress.count()]) {
        Ok(next) => match next.object() {
            Some(object) => Ok(Some(PlacedPart::of(depth, object, progress.count()))),
            None => Ok(None),
        },
        Err(reason) => Err(progress.refusal(reason).stop()),
    }
}
