//! Readers and writers of std that count their failed calls.

ghost use Rattle.std.specs.Prelude.{◌≡◌};
ghost use Rattle.octet_core.specs.Counted.{inner_of, failures_of};

use crate::stream::{Sink, Source};
use std::io::{self, Read, Write};

/// A reader or writer of std, with the number of its failed calls.
#[derive(Debug, Drop)]
pub struct Counted<T> {
    inner: T,
    failures: u64,
}

impl<T> Counted<T> {
    /// Wraps a reader or writer, with no failure counted.
    pub fn new(inner: T) -> Self
        ensures inner { inner_of result ≡ inner }
        ensures failures { failures_of result ≡ 0 }
    {
        Counted { inner, failures: 0 }
    }

    /// Returns the reader or writer.
    pub fn into_inner(self) -> T
        ensures { result ≡ inner_of self }
    {
        self.inner
    }
}

impl<R: Read> Source for Counted<R> {
    ghost remaining = { λ c. R.remaining (inner_of c) };

    ghost failures = { failures_of };

    fn read(&mut self, room: &mut [u8]) -> io::Result<usize> {
        let answer = self.inner.read(room);
        if answer.is_err() {
            self.failures = self.failures.saturating_add(1);
        }
        answer
    }
}

impl<W: Write> Sink for Counted<W> {
    ghost contents = { λ c. W.contents (inner_of c) };

    ghost failures = { failures_of };

    fn write(&mut self, octets: &[u8]) -> io::Result<usize> {
        let answer = self.inner.write(octets);
        let failed = match &answer {
            Ok(taken) => *taken == 0 && !octets.is_empty(),
            Err(_) => true,
        };
        if failed {
            self.failures = self.failures.saturating_add(1);
        }
        answer
    }
}
