//! How many octets of a forest were taken, and where the open objects end.

ghost use Rattle.std.specs.Prelude.{nat_lt, ◌≡◌, ◌+◌, ◌-◌, ◌<◌, ◌≤◌, length, take, IfSome, count_by, slice_index, []};
ghost use Rattle.tlv_core.specs.Open.{AreEnds, AreNested, AreReached, AreUpTo};

use crate::progress::DEEPEST;
use crate::short::{ShortHeader, outermost_header, short_header};

/// The index of the spare place, after one place for each object that may be open. It takes the end of an object that
/// doesn't stay open.
const SPARE: usize = DEEPEST;

/// The number of places.
const PLACES: usize = SPARE + 1;

/// How many octets of a forest were taken, and the places at which open objects end.
#[derive(Clone, Copy)]
pub(crate) struct OpenEnds {
    /// The limit of the whole forest, in octets.
    max: usize,
    /// How many octets were taken.
    count: usize,
    /// The places at which the open constructed objects end, outermost first. No place from index `level` on is after
    /// `count`.
    places: [u32; PLACES],
    /// How many objects are open.
    level: usize,
    ghost limit: { max ≤ 1048576 },
    ghost within: { count ≤ max },
    ghost levels: { level ≤ 16 },
    ghost ahead: { AreEnds max count (take level places) },
    ghost nested: { AreNested (take level places) },
    ghost reached: { AreReached count level places },
}

impl OpenEnds {
    ghost use Rattle.tlv_core.specs.Reasons.{room_of};
    ghost use Rattle.tlv_core.specs.Open.{rooms_to, open_after};
    ghost use Rattle.tlv_core.specs.Short.{after_short, whole_of, MayCome};
    ghost use Rattle.std.specs.Prelude.{◌++◌, ◌∷◌};
    ghost use Rattle.tlv_core.specs.OpenEnds.{ends_of, kept_idle};

    /// Starts before the first octet of a forest of at most `max` octets.
    pub(crate) fn new(max: usize) -> Self
        requires { max ≤ 1048576 }
        ensures { kept_idle result ≡ record
            { max = max; count = 0; rooms = []; header = []; value_left = 0 } }
    {
        OpenEnds {
            max,
            count: 0,
            places: [0; PLACES],
            level: 0,
        }
    }

    /// Restores the state after `count` octets that leave objects open. These objects end at the places in `ends`.
    pub(crate) fn of(max: usize, count: usize, ends: &[u32]) -> Self
        requires limit { max ≤ 1048576 }
        requires within { count ≤ max }
        requires levels { length ends.now ≤ 16 }
        requires ahead { AreEnds max count ends.now }
        requires nested { AreNested ends.now }
        ensures max { result.max ≡ max }
        ensures count { result.count ≡ count }
        ensures ends { ends_of result ≡ ends.now }
    {
        let level = ends.len();
        let mut places = [0; PLACES];
        places[..level].copy_from_slice(ends);
        OpenEnds {
            max,
            count,
            places,
            level,
        }
    }

    /// Returns the limit of the whole forest, in octets.
    pub(crate) fn max(&self) -> usize
        ensures { result ≡ self.now.max }
    {
        self.max
    }

    /// Returns how many octets were taken.
    pub(crate) fn count(&self) -> usize
        ensures { result ≡ self.now.count }
    {
        self.count
    }

    /// Returns how many objects are open.
    pub(crate) fn level(&self) -> usize
        ensures { result ≡ length (ends_of self.now) }
    {
        self.level
    }

    /// Returns the places at which the open objects end, outermost first.
    pub(crate) fn places(&self) -> &[u32]
        ensures { result.now ≡ ends_of self.now }
    {
        &self.places[..self.level]
    }

    /// Returns the number of octets from the next one to the end of the innermost open object, or to the limit if none
    /// is open.
    #[inline(always)]
    pub(crate) fn room(&self) -> usize
        ensures { result ≡ room_of (self.now.max - self.now.count)
            (rooms_to self.now.count (ends_of self.now)) }
    {
        if self.level == 0 {
            return self.max - self.count;
        }
        self.places[self.level - 1] as usize - self.count
    }

    /// Returns the header of the next object if its length field has at most three octets, and the whole header is here
    /// and fits. The value must be here too if the object is primitive. Whether the object is taken as an outermost one
    /// changes the time alone.
    #[inline(always)]
    pub(crate) fn next_short(&self, octets: &[u8], as_outermost: bool) -> Option<ShortHeader>
        ensures { IfSome result (MayCome (kept_idle self.now) octets.now) }
    {
        if self.level >= DEEPEST {
            return None;
        }
        let object = if as_outermost {
            outermost_header(octets)?
        } else {
            short_header(octets)?
        };
        if object.whole() > self.room() {
            return None;
        }
        Some(object)
    }

    /// Passes over an object with a short header, or enters it if it is constructed and not empty.
    #[inline(always)]
    pub(crate) fn pass(&mut self, object: ShortHeader)
        requires shallow { length (ends_of self.old) < 16 }
        requires some { 0 < object.header }
        requires fits { whole_of object ≤ room_of (self.old.max - self.old.count)
            (rooms_to self.old.count (ends_of self.old)) }
        ensures { kept_idle self.new ≡ after_short (kept_idle self.old) object }
    {
        self.enter(object.whole(), object.taken());
    }

    /// Enters an object of `whole` octets, after `taken` of them. It is open then if it has more.
    #[inline(always)]
    pub(crate) fn enter(&mut self, whole: usize, taken: usize)
        requires shallow { length (ends_of self.old) < 16 }
        requires some { 0 < whole }
        requires within { taken ≤ whole }
        requires fits { whole ≤ room_of (self.old.max - self.old.count)
            (rooms_to self.old.count (ends_of self.old)) }
        ensures max { self.new.max ≡ self.old.max }
        ensures count { self.new.count ≡ self.old.count + taken }
        ensures ends { ends_of self.new ≡ open_after (self.old.count + taken)
            (ends_of self.old ++ (self.old.count + whole) ∷ []) }
    {
        if self.level == 0 && taken == whole {
            // nothing was open, and nothing is; the number is written again, since the compiler counts several places
            // in one step only if both paths write it
            self.count += taken;
            self.level = 0;
            return;
        }
        let place = self.place_for(whole, taken);
        let end = (self.count + whole) as u32;
        self.count += taken;
        // counted first, since a processor that reads four places at once waits for one that was just written
        let around = number_after(&self.places, self.count);
        self.places[place] = end;
        self.level = level_after(self.level, whole, taken, around);
    }

    /// Returns the index of the place for the end of an object of `whole` octets, after `taken` of them. If the object
    /// was taken whole, it is the spare place. So the places that the next object counts stay as they were.
    #[inline(always)]
    fn place_for(&self, whole: usize, taken: usize) -> usize
        ensures open { taken < whole → result ≡ self.now.level }
        ensures taken { whole ≤ taken → result ≡ 16 }
    {
        if taken < whole { self.level } else { SPARE }
    }

    /// Takes this many octets, and closes the objects that end there.
    #[inline(always)]
    pub(crate) fn go(&mut self, taken: usize)
        requires { self.old.count + taken ≤ self.old.max }
        ensures max { self.new.max ≡ self.old.max }
        ensures count { self.new.count ≡ self.old.count + taken }
        ensures ends { ends_of self.new ≡ open_after (self.old.count + taken) (ends_of self.old) }
    {
        let is_open_yet = taken < self.room();
        self.count += taken;
        if is_open_yet {
            // no object ends here
            return;
        }
        self.level = number_after(&self.places, self.count);
    }
}

/// Returns how many objects are open after `taken` octets of an object of `whole`. Before it `level` objects were open,
/// and `around` of them still are. If the object isn't taken whole, all of them are, and it is open too.
#[inline(always)]
fn level_after(level: usize, whole: usize, taken: usize, around: usize) -> usize
    requires { level < 16 }
    ensures open { taken < whole → result ≡ level + 1 }
    ensures taken { whole ≤ taken → result ≡ around }
{
    if taken < whole { level + 1 } else { around }
}

/// Counts the places after `count` octets, without the spare one. The places follow no order here, so the loop compares
/// all of them without a branch. It compares signed numbers, since a processor compares four of those in one step.
#[inline(always)]
fn number_after(places: &[u32; PLACES], count: usize) -> usize
    requires count { count ≤ 1048576 }
    requires places { AreUpTo 1048576 places.now }
    requires spare { slice_index places.now 16 ≤ count }
    ensures { result ≡ count_by (λ place. nat_lt count place) places.now }
{
    let mut number = 0;
    for index in 0..DEEPEST {
        number += u32::from(places[index] as i32 > count as i32);
    }
    number as usize
}
