//! A check of a forest whose state the caller keeps, some eighty octets. Of the octets that were fed, the state holds
//! only those of an unfinished header.

ghost use Rattle.std.specs.Prelude.{◌≡◌, ℕ, ◌+◌, length, take, ◌≤◌, ◌<◌, ◌↔◌, List, [], ◌++◌, OnOk, IfErr, OnSome, MatchResult, true};
ghost use Rattle.octet_core.specs.Grammar.{Refuses, RefusesAt, whole};
ghost use Rattle.tlv_core.specs.Tree.{Tree};
ghost use Rattle.tlv_core.specs.Forest.{IsForest};
ghost use Rattle.tlv_core.specs.Reasons.{IsReason, HasTaken};
ghost use Rattle.tlv_core.specs.Open.{AreEnds, AreNested};
ghost use Rattle.tlv_core.specs.Led.{value_from, inner_from};

use crate::checking::Checking;
use crate::forest::LARGEST_FOREST;
use crate::header::Header;
use crate::progress::{DEEPEST, Progress};
use crate::reason::TlvReason;
use octet_core::Stop;
use std::fmt::{self, Debug, Formatter, Write};

/// The whole state of a check of a forest, as plain numbers that the caller keeps.
///
/// [`LentCheck::begin`] makes a state, and each call keeps it valid. If something else may have written to it,
/// [`LentCheck::fit`] says whether it is still valid.
#[derive(Clone, Copy)]
pub struct LentCheck {
    /// The limit of the whole forest, in octets.
    pub max: u32,
    /// How many octets were taken.
    pub count: u32,
    /// The first `level` elements are the places at which the open constructed objects end, outermost first.
    pub ends: [u32; DEEPEST],
    pub level: u8,
    /// The unfinished header.
    pub header: Header,
    /// How many octets of a primitive value are still to come.
    pub value_left: u32,
    /// Why the next octet was refused, if it was.
    pub refused: Option<TlvReason>,
}

impl LentCheck {
    ghost use Rattle.tlv_core.specs.Check.{HasChecked, answer_of};
    ghost use Rattle.tlv_core.specs.Checking.{checked_of};
    ghost use Rattle.tlv_core.specs.Check.{MayRefuse};
    ghost use Rattle.tlv_core.specs.Header.{IsWell};
    ghost use Rattle.tlv_core.specs.Led.{inner_at, room_at, IsAtHeader, IsInValue, CanCome};
    ghost use Rattle.tlv_core.specs.Lent.{IsLentCheck, AreInRange, checked_at, kept_at, ends_at};

    /// Starts a check of a forest of at most `max` octets; `max` is at most 1,048,576.
    pub fn begin(max: usize) -> LentCheck
        requires { max ≤ 1048576 }
        ensures fit { IsLentCheck result }
        ensures limit { (kept_at result).max ≡ max }
        ensures nothing { (b : List ℕ) → HasChecked b (checked_at result) ↔ (b ≡ []) }
    {
        Progress::new(max).lent(None)
    }

    /// Takes the next piece, or refuses an octet of it, like `ForestCheck::feed`. Contracts don't know which octets
    /// were fed before, so the clauses hold for all octets that may have led to this state.
    pub fn feed(&mut self, piece: &[u8]) -> Result<(), Stop<TlvReason>>
        requires { IsLentCheck self.old }
        ensures fit { IsLentCheck self.new }
        ensures limit { self.new.max ≡ self.old.max }
        ensures answer { result ≡ answer_of (checked_at self.new).refusal }
        ensures repeats { OnSome (checked_at self.old).refusal
            (checked_at self.new ≡ checked_at self.old) }
        ensures taken { (b : List ℕ) → HasChecked b (checked_at self.old)
            → OnOk result (HasChecked (b ++ piece.now) (checked_at self.new)) }
        ensures refused { (b : List ℕ) → HasChecked b (checked_at self.old) →
            IfErr result (RefusesAt whole (IsForest self.old.max) (IsReason self.old.max) (b ++ piece.now)) }
        // the octets that led to the old state, and those of the piece before a refused one, lead to the new state
        ensures led { (b : List ℕ) → HasTaken b (kept_at self.old) → (n : ℕ)
            × (n ≤ length piece.now) × HasTaken (b ++ take n piece.now) (kept_at self.new) }
    {
        let mut checking = self.checking();
        let answer = checking.feed(piece);
        *self = checking.progress.lent(checking.refused);
        answer
    }

    /// Returns the verdict on all pieces fed, like `ForestCheck::finish`.
    pub fn finish(&self) -> Result<(), Stop<TlvReason>>
        requires { IsLentCheck self.now }
        ensures repeats { OnSome (checked_at self.now).refusal
            (result ≡ answer_of (checked_at self.now).refusal) }
        ensures verdict { (b : List ℕ) → HasChecked b (checked_at self.now)
            → MatchResult result (λ _. (t : Tree) × IsForest self.now.max t b)
            (Refuses whole (IsForest self.now.max) (IsReason self.now.max) b) }
    {
        self.checking().finish()
    }

    /// Returns the check with this state.
    fn checking(&self) -> Checking
        requires { AreInRange self.now }
        ensures { checked_of result ≡ checked_at self.now }
    {
        Checking {
            progress: Progress::of(self),
            refused: self.refused,
        }
    }

    /// Whether some octets lead a check from `begin` to this state. Elements of `ends` after the first `level` may
    /// have any value.
    pub fn fit(&self) -> bool
        ensures yes { result ≡ true → IsLentCheck self.now }
        ensures no { IsLentCheck self.now → result ≡ true }
    {
        if !self.are_in_range() {
            return false;
        }
        if !self.can_come() {
            return false;
        }
        self.may_refuse()
    }

    /// Whether the numbers are in the ranges that a check keeps to.
    fn are_in_range(&self) -> bool
        ensures yes { result ≡ true → AreInRange self.now }
        ensures no { AreInRange self.now → result ≡ true }
    {
        let level = self.level as usize;
        self.max as usize <= LARGEST_FOREST
            && self.value_left <= self.max
            && self.count <= self.max - self.value_left
            && level <= DEEPEST
            && self.header.is_well()
            && (self.header.is_nothing() || level < DEEPEST)
            && are_ends(self.max, self.count, &self.ends[..level])
            && are_nested(&self.ends[..level])
    }

    /// Whether the numbers allow that some octets led to this state.
    fn can_come(&self) -> bool
        requires { AreInRange self.now }
        ensures yes { result ≡ true → CanCome self.now }
        ensures no { CanCome self.now → result ≡ true }
    {
        let ends = &self.ends[..self.level as usize];
        let room = Progress::of(self).room();
        let inner = inner_from(ends);
        if self.value_left == 0 {
            self.is_at_header(inner, room)
        } else {
            self.is_in_value(ends.len(), inner, room)
        }
    }

    /// Whether the octets of the unfinished header can have come in the innermost list, and the octets that it still
    /// needs have room.
    fn is_at_header(&self, inner: u32, room: usize) -> bool
        requires well { IsWell self.now.header }
        requires inner { inner ≡ inner_at self.now }
        requires room { room ≡ room_at self.now }
        ensures yes { result ≡ true → IsAtHeader self.now }
        ensures no { IsAtHeader self.now → result ≡ true }
    {
        inner <= self.count
            && self.header.count() <= (self.count - inner) as usize
            && self.header.need() <= room
    }

    /// Whether the header of the unfinished value can have come in the innermost list, inside `level` objects, and the
    /// rest of the value has room.
    fn is_in_value(&self, level: usize, inner: u32, room: usize) -> bool
        requires range { AreInRange self.now }
        requires level { level ≡ length (ends_at self.now) }
        requires inner { inner ≡ inner_at self.now }
        requires most { inner ≤ 80 }
        requires room { room ≡ room_at self.now }
        ensures yes { result ≡ true → IsInValue self.now }
        ensures no { IsInValue self.now → result ≡ true }
    {
        self.header.is_nothing()
            && level < DEEPEST
            && value_from(inner, self.count + self.value_left) <= self.count
            && self.value_left as usize <= room
    }

    /// Whether the refusal that was kept, if any, is right for some next octet.
    fn may_refuse(&self) -> bool
        requires { AreInRange self.now }
        ensures yes { result ≡ true → MayRefuse (checked_at self.now) }
        ensures no { MayRefuse (checked_at self.now) → result ≡ true }
    {
        match self.refused {
            None => true,
            Some(reason) => self.value_left == 0 && Progress::of(self).may_refuse(reason),
        }
    }
}

/// Shows how many octets were taken, how many objects are open, how many octets of a value are left, and the refusal,
/// but no octet.
impl Debug for LentCheck {
    fn fmt<W: Write>(&self, f: &mut Formatter<W>) -> fmt::Result {
        f.debug_struct("LentCheck")
            .field("taken", &self.count)
            .field("open_objects", &self.level)
            .field("value_octets_left", &self.value_left)
            .field("refused", &self.refused)
            .finish()
    }
}

/// Whether each place is after the octets that came, and within the limit.
fn are_ends(max: u32, count: u32, ends: &[u32]) -> bool
    ensures yes { result ≡ true → AreEnds max count ends.now }
    ensures no { AreEnds max count ends.now → result ≡ true }
{
    ends.iter().all(|&end| count < end && end <= max)
}

/// Whether each object, by its end, ends no later than the one before it.
fn are_nested(ends: &[u32]) -> bool
    ensures yes { result ≡ true → AreNested ends.now }
    ensures no { AreNested ends.now → result ≡ true }
{
    for inner in 1..ends.len() {
        if ends[inner - 1] < ends[inner] {
            return false;
        }
    }
    true
}

/// Returns the first place at which the value of an object can begin. The object ends at `end`, and its header begins
/// at `place` or later.
fn value_from(place: u32, end: u32) -> u32
    requires { place ≤ 80 }
    ensures is { result ≡ value_from place end }
    ensures most { result ≤ place + 5 }
{
    if end < place + 130 {
        place + 2
    } else if end < place + 259 {
        place + 3
    } else if end < place + 65_540 {
        place + 4
    } else {
        place + 5
    }
}

/// Returns the first place at which the innermost list can begin, inside objects that end at these places.
fn inner_from(ends: &[u32]) -> u32
    requires { length ends.now ≤ 16 }
    ensures is { result ≡ inner_from 0 ends.now }
    ensures most { result ≤ 80 }
{
    let mut place = 0;
    for &end in ends {
        place = value_from(place, end);
    }
    place
}
