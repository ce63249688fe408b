//! Verdicts as C has them.

ghost use Rattle.std.specs.Prelude.{◌≡◌, ℕ, if◌then◌else◌, nat_le};
ghost use Rattle.c_lent.specs.Verdict.{ok_at, no_memory, wrong_argument, twice_known, told, more_at, told_fed, told_end};

use octet_core::Stop;

/// The octets are a spelling of `place` octets, or this many octets were written.
pub const OK: u8 = 0;

/// The octets ended at `place`, where a spelling could continue.
pub const SHORT: u8 = 1;

/// No spelling continues after the octet at `place`, which is the first such octet. `reason` says why.
pub const AT: u8 = 2;

/// Out of memory.
pub const MEMORY: u8 = 3;

/// An argument is out of its range, with `place` 0; or a buffer is too small, and `place` is the size that it needs.
pub const ARGUMENT: u8 = 4;

/// Two known values have the same tag.
pub const DUPLICATE: u8 = 5;

/// A reader took the whole piece of `place` octets, and needs more.
pub const MORE: u8 = 6;

/// A verdict: the status; the codec's number of the reason, 0 if there is none; and a place or a count of octets.
#[repr(C)]
#[derive(Clone, Copy)]
pub struct Verdict {
    pub status: u8,
    pub reason: u8,
    pub place: usize,
}

/// A reason for a refusal that has a number in C.
pub trait Numbered {
    /// The number of the reason.
    ghost number: { Self → ℕ };

    /// Returns the number of the reason, 1 for the first.
    fn number(self) -> u8
        ensures { result ≡ number self };
}

impl Verdict {
    /// Returns the verdict that this many octets were accepted or written.
    pub fn ok(place: usize) -> Verdict
        ensures { result ≡ ok_at place }
    {
        Verdict {
            status: OK,
            reason: 0,
            place,
        }
    }

    /// Returns the verdict that memory ran out.
    pub fn memory() -> Verdict
        ensures { result ≡ no_memory }
    {
        Verdict {
            status: MEMORY,
            reason: 0,
            place: 0,
        }
    }

    /// Returns the verdict that an argument is out of its range.
    pub fn argument() -> Verdict
        ensures { result ≡ wrong_argument 0 }
    {
        Verdict::lacking(0)
    }

    /// Returns the verdict for the result of a reader on a piece.
    pub fn fed<R: Numbered + Drop>(answer: Result<(usize, bool), Stop<R>>) -> Verdict
        ensures { result ≡ told_fed R.number answer }
    {
        match answer {
            Ok((taken, true)) => Verdict::ok(taken),
            Ok((taken, false)) => Verdict::more(taken),
            Err(stop) => Verdict::stopped(stop),
        }
    }

    /// Returns the verdict for the result of a reader after its last octet.
    pub fn ended<R: Numbered + Drop>(answer: Result<(), Stop<R>>) -> Verdict
        ensures { result ≡ told_end R.number answer }
    {
        match answer {
            Ok(()) => Verdict::ok(0),
            Err(stop) => Verdict::stopped(stop),
        }
    }

    /// Returns the verdict that a reader took this many octets and needs more.
    pub fn more(count: usize) -> Verdict
        ensures { result ≡ more_at count }
    {
        Verdict {
            status: MORE,
            reason: 0,
            place: count,
        }
    }

    /// Returns the verdict that two known values have the same tag.
    pub fn duplicate() -> Verdict
        ensures { result ≡ twice_known }
    {
        Verdict {
            status: DUPLICATE,
            reason: 0,
            place: 0,
        }
    }

    /// Returns the verdict that a buffer has less than this room.
    pub fn lacking(room: usize) -> Verdict
        ensures { result ≡ wrong_argument room }
    {
        Verdict {
            status: ARGUMENT,
            reason: 0,
            place: room,
        }
    }

    /// Returns the verdict on whether this many items fit this room.
    pub fn put(count: usize, room: usize) -> Verdict
        ensures { result ≡ (if nat_le count room then ok_at count else wrong_argument count) }
    {
        if count <= room {
            Verdict::ok(count)
        } else {
            Verdict::lacking(count)
        }
    }

    /// Returns the verdict for a refusal.
    pub fn stopped<R: Numbered + Drop>(stop: Stop<R>) -> Verdict
        ensures { result ≡ told R.number stop }
    {
        match stop {
            Stop::Short { place } => Verdict {
                status: SHORT,
                reason: 0,
                place,
            },
            Stop::At { place, reason } => Verdict {
                status: AT,
                reason: reason.number(),
                place,
            },
        }
    }
}
