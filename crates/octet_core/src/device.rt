//! Readers and writers for tests: slow, failing, interrupted or endless ones, and ones that fail once.

ghost use Rattle.std.specs.Prelude.{◌≡◌, ◌≢◌, ◌≤◌, ◌<◌, length, IfOk};

use std::fmt::{self, Debug, Formatter};
use std::io::{self, ErrorKind, Read, Write};

/// How many octets a `Taker` keeps at most.
pub const LARGEST_ROOM: usize = 4096;

/// What a device does once its octets were all read, or its room is full.
#[derive(Clone, Copy, Debug, PartialEq, Eq)]
pub enum After {
    /// A call moves no octet.
    End,
    /// A call fails.
    Fails,
    /// A call fails as one that was interrupted.
    Interrupted,
    /// A reader starts again with its first octet, without an end.
    Repeats,
}

impl After {
    /// Returns the result of a call that moves no octet.
    fn answer(self) -> io::Result<usize>
        ensures { IfOk result (λ count. count ≡ 0) }
    {
        match self {
            After::End | After::Repeats => Ok(0),
            After::Fails => Err(ErrorKind::Other.into()),
            After::Interrupted => Err(ErrorKind::Interrupted.into()),
        }
    }
}

/// A reader of some octets, at most `step` in one call.
#[derive(Drop)]
pub struct Feeder<'a> {
    octets: &'a [u8],
    step: usize,
    after: After,
    place: usize,
    given: u64,
    ghost within: { place ≤ length octets.now },
}

impl<'a> Feeder<'a> {
    /// Makes a reader of these octets. `step` is at least 1. A reader that repeats its octets must have
    /// some.
    pub fn new(octets: &'a [u8], step: usize, after: After) -> Self
        requires step { 1 ≤ step }
        requires repeats { after ≡ After.Repeats → 0 < length octets.now }
    {
        Feeder {
            octets,
            step,
            after,
            place: 0,
            given: 0,
        }
    }

    /// Returns how many octets were read. The number stops at its greatest value.
    pub fn given(&self) -> u64 {
        self.given
    }
}

/// Shows how many octets there are and how many of them were read, but no octet.
impl Debug for Feeder<'_> {
    fn fmt<W: fmt::Write>(&self, f: &mut Formatter<W>) -> fmt::Result {
        f.debug_struct("Feeder")
            .field("octets", &self.octets.len())
            .field("step", &self.step)
            .field("after", &self.after)
            .field("place", &self.place)
            .field("given", &self.given)
            .finish()
    }
}

impl Read for Feeder<'_> {
    fn read(&mut self, room: &mut [u8]) -> io::Result<usize> {
        if self.place == self.octets.len() {
            if self.after != After::Repeats {
                return self.after.answer();
            }
            self.place = 0;
        }
        let rest = &self.octets[self.place..];
        let count = rest.len().min(self.step).min(room.len());
        room[..count].copy_from_slice(&rest[..count]);
        self.place += count;
        self.given = self.given.saturating_add(count as u64);
        Ok(count)
    }
}

/// A writer that keeps what it takes, at most `step` octets in one call.
#[derive(Drop)]
pub struct Taker {
    held: [u8; LARGEST_ROOM],
    len: usize,
    room: usize,
    step: usize,
    after: After,
    ghost within: { len ≤ room },
    ghost most: { room ≤ 4096 },
}

impl Taker {
    /// Makes a writer with room for `room` octets, at most 4,096. `step` is at least 1. A writer can't
    /// repeat.
    pub fn new(room: usize, step: usize, after: After) -> Self
        requires room { room ≤ 4096 }
        requires step { 1 ≤ step }
        requires once { after ≢ After.Repeats }
    {
        Taker {
            held: [0; LARGEST_ROOM],
            len: 0,
            room,
            step,
            after,
        }
    }

    /// Borrows the octets that were taken.
    pub fn kept(&self) -> &[u8] {
        &self.held[..self.len]
    }
}

/// Shows how many octets were taken, but no octet.
impl Debug for Taker {
    fn fmt<W: fmt::Write>(&self, f: &mut Formatter<W>) -> fmt::Result {
        f.debug_struct("Taker")
            .field("kept_octets", &self.len)
            .field("room", &self.room)
            .field("step", &self.step)
            .field("after", &self.after)
            .finish()
    }
}

impl Write for Taker {
    fn write(&mut self, octets: &[u8]) -> io::Result<usize> {
        let count = octets.len().min(self.step).min(self.room - self.len);
        if count == 0 && !octets.is_empty() {
            return self.after.answer();
        }
        let end = self.len + count;
        self.held[self.len..end].copy_from_slice(&octets[..count]);
        self.len = end;
        Ok(count)
    }

    fn flush(&mut self) -> io::Result<()> {
        Ok(())
    }
}

/// A reader or writer that fails in one call after some octets. The next call continues where it was. So
/// a caller that silently retries a failed call shows no fault at all.
#[derive(Debug, Drop)]
pub struct FailsOnce<T> {
    inner: T,
    left: usize,
    fault: Option<After>,
}

impl<T> FailsOnce<T> {
    /// Makes a reader or writer that fails in the call after its first `left` octets. That call moves no
    /// octet, and does what `fault` says, which can't be `Repeats`.
    pub fn new(inner: T, left: usize, fault: After) -> Self
        requires { fault ≢ After.Repeats }
    {
        FailsOnce {
            inner,
            left,
            fault: Some(fault),
        }
    }

    /// Returns the reader or writer.
    pub fn into_inner(self) -> T {
        self.inner
    }

    /// Returns the fault of this call, if it is the one that fails.
    fn due(&mut self) -> Option<After> {
        if self.left == 0 {
            self.fault.take()
        } else {
            None
        }
    }

    /// Returns how many of `len` octets a call may move, so that none is past the place of the fault.
    fn most(&self, len: usize) -> usize
        ensures { result ≤ len }
    {
        if self.fault.is_some() {
            len.min(self.left)
        } else {
            len
        }
    }
}

impl<R: Read> Read for FailsOnce<R> {
    fn read(&mut self, room: &mut [u8]) -> io::Result<usize> {
        if let Some(fault) = self.due() {
            return fault.answer();
        }
        let most = self.most(room.len());
        let count = self.inner.read(&mut room[..most])?;
        self.left = self.left.saturating_sub(count);
        Ok(count)
    }
}

impl<W: Write> Write for FailsOnce<W> {
    fn write(&mut self, octets: &[u8]) -> io::Result<usize> {
        if let Some(fault) = self.due() {
            return fault.answer();
        }
        let most = self.most(octets.len());
        let count = self.inner.write(&octets[..most])?;
        self.left = self.left.saturating_sub(count);
        Ok(count)
    }

    fn flush(&mut self) -> io::Result<()> {
        self.inner.flush()
    }
}
