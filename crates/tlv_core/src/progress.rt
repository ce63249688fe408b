//! How many octets of a forest were taken, and what they leave open.

ghost use Rattle.std.specs.Prelude.{nat_eq, if◌then◌else◌, ◌≡◌, ◌≢◌, ℕ, ◌+◌, ◌<◌, ◌≤◌, List, ◌++◌, length, take, slice_index, IfOk, IfErr, IfSome, IfNone, IsTrue, ◌↔◌, ◌-◌, true, false};
ghost use Rattle.tlv_core.specs.declared.header.Header.TheVariants.{Nothing};
ghost use Rattle.tlv_core.specs.Header.{IsWell};
ghost use Rattle.tlv_core.specs.declared.header.Next.TheVariants.{Filler};
ghost use Rattle.tlv_core.specs.declared.reason.TlvReason.TheVariants.{TooDeep, TooLong, Overrun};
ghost use Rattle.tlv_core.specs.OpenEnds.{ends_of, kept_idle};
ghost use Rattle.tlv_core.specs.WellProp.{IsWell-prop};

use crate::header::{Header, Next, ObjectHeader};
use crate::lent::LentCheck;
use crate::open_ends::OpenEnds;
use crate::reason::TlvReason;
use crate::short::ShortHeader;
use octet_core::Refusal;

/// The greatest depth of an object. The outermost objects have depth 1.
pub(crate) const DEEPEST: usize = 16;

/// The state after the octets of a forest that were taken so far.
#[derive(Drop)]
pub(crate) struct Progress {
    /// How many octets were taken, and where the open constructed objects end.
    ends: OpenEnds,
    /// The unfinished header.
    header: Header,
    /// How many octets of a primitive value are still to come.
    value_left: usize,
    ghost within: { ends.count + value_left ≤ ends.max },
    ghost well: { IsWell header } by { IsWell-prop header },
    ghost shallow: { header ≢ Nothing → length (ends_of ends) < 16 },
}

impl Progress {
    ghost use Rattle.std.specs.Prelude.{[]};
    ghost use Rattle.octet_core.specs.Grammar.{IsFirst};
    ghost use Rattle.tlv_core.specs.Reasons.{HasTaken, IsIdle, room_of, tlv_reasons};
    ghost use Rattle.tlv_core.specs.Open.{rooms_to};
    ghost use Rattle.tlv_core.specs.Header.{IsWellNext, next_need};
    ghost use Rattle.tlv_core.specs.Steps.{entered, after_next, after_run, IsStep, IsWrongAfter};
    ghost use Rattle.tlv_core.specs.Short.{after_short, whole_of, MayCome};
    ghost use Rattle.tlv_core.specs.Tag.{constructed_bit};
    ghost use Rattle.tlv_core.specs.Progress.{kept_of};
    ghost use Rattle.tlv_core.specs.Lent.{AreInRange, kept_at};

    /// Starts before the first octet of a forest of at most `max` octets.
    pub(crate) fn new(max: usize) -> Self
        requires { max ≤ 1048576 }
        ensures { kept_of result ≡ record
            { max = max; count = 0; rooms = []; header = []; value_left = 0 } }
    {
        Progress::between(OpenEnds::new(max))
    }

    /// Makes the state between objects, while these are open.
    pub(crate) fn between(ends: OpenEnds) -> Self
        ensures kept { kept_of result ≡ kept_idle ends }
        ensures ends { result.ends ≡ ends }
    {
        Progress {
            ends,
            header: Header::Nothing,
            value_left: 0,
        }
    }

    /// Restores the state from a check that the caller keeps.
    pub(crate) fn of(check: &LentCheck) -> Self
        requires { AreInRange check.now }
        ensures { kept_of result ≡ kept_at check.now }
    {
        let ends = &check.ends[..check.level as usize];
        Progress {
            ends: OpenEnds::of(check.max as usize, check.count as usize, ends),
            header: check.header,
            value_left: check.value_left as usize,
        }
    }

    /// Returns the check with this state, for a caller to keep, and why the next octet was refused, if it was.
    pub(crate) fn lent(&self, refused: Option<TlvReason>) -> LentCheck
        ensures range { AreInRange result }
        ensures kept { kept_at result ≡ kept_of self.now }
        ensures reason { result.refused ≡ refused }
    {
        let level = self.ends.level();
        let mut ends = [0; DEEPEST];
        ends[..level].copy_from_slice(self.ends.places());
        LentCheck {
            max: self.ends.max() as u32,
            count: self.ends.count() as u32,
            ends,
            level: level as u8,
            header: self.header,
            value_left: self.value_left as u32,
            refused,
        }
    }

    /// Returns the number of octets from the next one to the end of the innermost open object, or to the limit if none
    /// is open.
    pub(crate) fn room(&self) -> usize
        ensures { result ≡ room_of (self.now.ends.max - self.now.ends.count)
            (rooms_to self.now.ends.count (ends_of self.now.ends)) }
    {
        self.ends.room()
    }

    /// Whether some next octet would be refused for this reason, assuming that no octet of a value is due.
    pub(crate) fn may_refuse(&self, reason: TlvReason) -> bool
        ensures yes { result ≡ true → (x : ℕ) × (x < 256)
            × IsFirst tlv_reasons (IsWrongAfter (kept_of self.now) x) reason }
        ensures no { (x : ℕ) → x < 256
            → IsFirst tlv_reasons (IsWrongAfter (kept_of self.now) x) reason
            → result ≡ true }
    {
        for octet in 0..0x100_u16 {
            if self.refuses(octet as u8, reason) {
                return true;
            }
        }
        false
    }

    /// Whether this next octet is refused for this reason.
    fn refuses(&self, octet: u8, reason: TlvReason) -> bool
        ensures yes { result ≡ true
            → IsFirst tlv_reasons (IsWrongAfter (kept_of self.now) octet) reason }
        ensures no { IsFirst tlv_reasons (IsWrongAfter (kept_of self.now) octet) reason
            → result ≡ true }
    {
        match self.next(octet) {
            Ok(_next) => false,
            Err(found) => found == reason,
        }
    }

    /// Returns how many octets were taken.
    pub(crate) fn count(&self) -> usize
        ensures { result ≡ self.now.ends.count }
    {
        self.ends.count()
    }

    /// Returns how many objects are open.
    pub(crate) fn level(&self) -> usize
        ensures { result ≡ length (kept_of self.now).rooms }
    {
        self.ends.level()
    }

    /// Returns how many octets of a primitive value are still to come, or 0 if none is being read.
    pub(crate) fn value_left(&self) -> usize
        ensures { result ≡ self.now.value_left }
    {
        self.value_left
    }

    /// Whether nothing is unfinished: whole objects and fillers were taken, and no object is open.
    pub(crate) fn is_idle(&self) -> bool
        ensures { IsTrue result ↔ IsIdle (kept_of self.now) }
    {
        self.ends.level() == 0 && self.header.is_nothing() && self.value_left == 0
    }

    /// Whether no header and no value is unfinished.
    pub(crate) fn is_between(&self) -> bool
        ensures { result ≡ true → kept_of self.now ≡ kept_idle self.now.ends }
    {
        self.header.is_nothing() && self.value_left == 0
    }

    /// Returns how many octets were taken, and where the open objects end.
    pub(crate) fn ends(&self) -> OpenEnds
        ensures { result ≡ self.now.ends }
    {
        self.ends
    }

    /// Returns the refusal of the next octet.
    pub(crate) fn refusal(&self, reason: TlvReason) -> Refusal<TlvReason>
        ensures { result ≡ record { place = self.now.ends.count; reason = reason } }
    {
        Refusal {
            place: self.ends.count(),
            reason,
        }
    }

    /// Takes octets: a run of the value that is being read, the objects with short headers that are here, or one octet
    /// of a header. Returns how many were taken, at least one; or why the first one is refused, which changes nothing.
    pub(crate) fn advance(&mut self, octets: &[u8]) -> Result<usize, TlvReason>
        requires { 0 < length octets.now }
        ensures max { self.new.ends.max ≡ self.old.ends.max }
        ensures some { IfOk result (λ n. (0 < n) × (n ≤ length octets.now)) }
        ensures ok { IfOk result (λ n. (b : List ℕ) → HasTaken b (kept_of self.old)
            → HasTaken (b ++ take n octets.now) (kept_of self.new)) }
        ensures err { IfErr result
            (λ r. (self.new ≡ self.old) × (self.old.value_left ≡ 0)
            × IsFirst tlv_reasons (IsWrongAfter (kept_of self.old) (slice_index octets.now 0)) r) }
    {
        if self.value_left > 0 {
            let run = self.value_left.min(octets.len());
            self.skip(run);
            return Ok(run);
        }
        if !self.header.is_nothing() || octets.len() < 2 {
            return self.take_first(octets);
        }
        if let Some(taken) = self.take_shorts(octets) {
            return Ok(taken);
        }
        self.take_first(octets)
    }

    /// Takes the first octet, which is a filler or belongs to a header.
    fn take_first(&mut self, octets: &[u8]) -> Result<usize, TlvReason>
        requires some { 0 < length octets.now }
        requires idle { self.old.value_left ≡ 0 }
        ensures max { self.new.ends.max ≡ self.old.ends.max }
        ensures one { IfOk result (λ n. n ≡ 1) }
        ensures ok { IfOk result (λ _. (b : List ℕ) → HasTaken b (kept_of self.old)
            → HasTaken (b ++ take 1 octets.now) (kept_of self.new)) }
        ensures err { IfErr result
            (λ r. (self.new ≡ self.old)
            × IsFirst tlv_reasons (IsWrongAfter (kept_of self.old) (slice_index octets.now 0)) r) }
    {
        match self.take(octets[0]) {
            Ok(_next) => Ok(1),
            Err(reason) => Err(reason),
        }
    }

    /// Takes as many objects with a short header as follow one another here: all of a primitive one, the header of a
    /// constructed one. Returns how many octets were taken. If there is no such object, nothing changes.
    fn take_shorts(&mut self, octets: &[u8]) -> Option<usize>
        requires idle { self.old.value_left ≡ 0 }
        requires nothing { self.old.header ≡ Nothing }
        ensures max { self.new.ends.max ≡ self.old.ends.max }
        ensures some { IfSome result (λ n. (0 < n) × (n ≤ length octets.now)) }
        ensures taken { IfSome result (λ n. (b : List ℕ) → HasTaken b (kept_of self.old)
            → HasTaken (b ++ take n octets.now) (kept_of self.new)) }
        ensures none { IfNone result (self.new ≡ self.old) }
    {
        let mut ends = self.ends;
        let mut taken = 0;
        while let Some(object) = ends.next_short(&octets[taken..], ends.level() == 0) {
            ends.pass(object);
            taken += object.taken();
        }
        if taken == 0 {
            return None;
        }
        self.ends = ends;
        Some(taken)
    }

    /// Returns the header of the next object if its length field has at most three octets, and the whole header is
    /// here and fits. The value must be here too if the object is primitive.
    #[inline(always)]
    pub(crate) fn next_short(&self, octets: &[u8], as_outermost: bool) -> Option<ShortHeader>
        requires { self.now.value_left ≡ 0 }
        ensures some { IfSome result (MayCome (kept_of self.now) octets.now) }
        ensures nothing { IfSome result (λ _. self.now.header ≡ Nothing) }
        ensures shallow { IfSome result (λ _. length (ends_of self.now.ends) < 16) }
    {
        if !self.header.is_nothing() {
            return None;
        }
        self.ends.next_short(octets, as_outermost)
    }

    /// Passes over an object with a short header, or enters it if it is constructed and not empty.
    #[inline(always)]
    pub(crate) fn pass(&mut self, object: ShortHeader)
        requires idle { self.old.value_left ≡ 0 }
        requires nothing { self.old.header ≡ Nothing }
        requires shallow { length (ends_of self.old.ends) < 16 }
        requires fits { whole_of object ≤ room_of (self.old.ends.max - self.old.ends.count)
            (rooms_to self.old.ends.count (ends_of self.old.ends)) }
        requires some { 0 < object.header }
        ensures max { self.new.ends.max ≡ self.old.ends.max }
        ensures after { kept_of self.new ≡ after_short (kept_of self.old) object }
    {
        self.ends.pass(object);
    }

    /// Takes a run of the value that is being read.
    pub(crate) fn skip(&mut self, run: usize)
        requires { run ≤ self.old.value_left }
        ensures { kept_of self.new ≡ after_run (kept_of self.old) run }
    {
        self.value_left -= run;
        self.ends.go(run);
    }

    /// Takes one octet of a header, or a filler, and returns what it made of the header. A refused octet changes
    /// nothing.
    pub(crate) fn take(&mut self, octet: u8) -> Result<Next, TlvReason>
        requires { self.old.value_left ≡ 0 }
        ensures ok { IfOk result (IsStep (kept_of self.old) octet) }
        ensures after { IfOk result
            (λ next. kept_of self.new ≡ after_next (kept_of self.old) next) }
        ensures err { IfErr result
            (λ r. (self.new ≡ self.old)
            × IsFirst tlv_reasons (IsWrongAfter (kept_of self.old) octet) r) }
    {
        let next = self.next(octet)?;
        self.accept(&next);
        Ok(next)
    }

    /// Takes an octet with this result.
    fn accept(&mut self, next: &Next)
        requires idle { self.old.value_left ≡ 0 }
        requires well { IsWellNext next.now }
        requires room { next_need next.now < room_of (self.old.ends.max - self.old.ends.count)
            (rooms_to self.old.ends.count (ends_of self.old.ends)) }
        requires shallow { next.now ≢ Filler → length (ends_of self.old.ends) < 16 }
        ensures { kept_of self.new ≡ after_next (kept_of self.old) next.now }
    {
        self.ends.go(1);
        self.header = next.header();
        if let Some(object) = next.object() {
            self.enter(object);
        }
    }

    /// Returns what the octet makes of the unfinished header, or why it is refused.
    fn next(&self, octet: u8) -> Result<Next, TlvReason>
        ensures ok { IfOk result (IsStep (kept_of self.now) octet) }
        ensures err { IfErr result (IsFirst tlv_reasons (IsWrongAfter (kept_of self.now) octet)) }
    {
        if self.is_too_deep(octet) {
            return Err(TlvReason::TooDeep);
        }
        let next = self.header.next(octet)?;
        if self.ends.room() <= next.need() {
            return Err(self.overrun());
        }
        Ok(next)
    }

    /// Whether an object would begin with this octet inside one of the greatest depth.
    fn is_too_deep(&self, octet: u8) -> bool
        ensures { IsTrue result ↔ IsWrongAfter (kept_of self.now) octet TooDeep }
    {
        match self.header {
            Header::Nothing => self.ends.level() == DEEPEST && octet != 0,
            _ => false,
        }
    }

    /// Returns the reason if more octets must come than there is room for.
    fn overrun(&self) -> TlvReason
        ensures { result ≡
            (if nat_eq (length (ends_of self.now.ends)) 0 then TooLong else Overrun) }
    {
        if self.ends.level() == 0 {
            TlvReason::TooLong
        } else {
            TlvReason::Overrun
        }
    }

    /// Enters an object whose header is whole.
    fn enter(&mut self, object: ObjectHeader)
        requires shallow { length (ends_of self.old.ends) < 16 }
        requires idle { self.old.value_left ≡ 0 }
        requires whole { self.old.header ≡ Nothing }
        requires fits { object.len ≤ room_of (self.old.ends.max - self.old.ends.count)
            (rooms_to self.old.ends.count (ends_of self.old.ends)) }
        ensures { kept_of self.new ≡ entered (kept_of self.old) object.len
            (constructed_bit object.tag) }
    {
        let len = object.len as usize;
        if len == 0 {
            return;
        }
        if object.tag.is_constructed() {
            self.ends.enter(len, 0);
        } else {
            self.value_left = len;
        }
    }
}
