//! The notice for a person at a terminal before the program waits for octets.

ghost use Rattle.std.specs.Prelude.{◌≡◌};

use octet_core::Source;
use std::io::{self, IsTerminal};

/// The notice, which goes to standard error and so stays out of what other programs read.
const NOTICE: &str =
    "scard: reading standard input, which is this terminal, up to its end (Ctrl-D)";

/// Standard input. Before the first read it prints the notice if it is a terminal.
#[derive(Drop)]
pub(crate) struct Announced<'a, R> {
    rt: &'a HostRuntime,
    inner: R,
    is_read: bool,
}

impl<'a, R> Announced<'a, R> {
    /// Returns the reader, with nothing read yet.
    pub(crate) fn new(rt: &'a HostRuntime, inner: R) -> Self {
        Announced {
            rt,
            inner,
            is_read: false,
        }
    }

    /// Prints the notice if standard input is a terminal and wasn't read before.
    fn announce(&mut self)
        ensures { self.new.inner ≡ self.old.inner }
    {
        if !self.is_read && self.rt.stdin().is_terminal() {
            let _ = self.rt.eprintln(NOTICE);
        }
        self.is_read = true;
    }
}

impl<R: Source> Source for Announced<'_, R> {
    ghost remaining = { λ announced. R.remaining announced.inner };

    ghost failures = { λ announced. R.failures announced.inner };

    fn read(&mut self, room: &mut [u8]) -> io::Result<usize> {
        self.announce();
        self.inner.read(room)
    }
}
