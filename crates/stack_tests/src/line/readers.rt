//! Lines over a reader that fails. No contract sees the error of a failed call.

use super::serving::replying;
use super::{DONE, SELECT, card, terminal};
use line_core::{ServeFault, TransceiveFault, UntimedLine, exchange, serve};
use octet_core::{After, Counted, Taker};
use std::io::{self, ErrorKind, Read};
use t1_core::{Card, Terminal};

/// A reader that fails in this way at each call.
#[derive(Drop)]
struct Failing(ErrorKind);

impl Read for Failing {
    fn read(&mut self, _room: &mut [u8]) -> io::Result<usize> {
        Err(self.0.into())
    }
}

fn line_that_fails(kind: ErrorKind) -> UntimedLine<Counted<Failing>, Counted<Taker>> {
    let writer = Taker::new(64, 64, After::End);
    UntimedLine::new(Counted::new(Failing(kind)), Counted::new(writer))
}

/// How a reader fails, and whether both ends take that for silence, or else for this failure.
#[derive(Clone, Copy)]
struct Failure {
    kind: ErrorKind,
    is_silence: bool,
}

impl Failure {
    fn is_other(self, kind: ErrorKind) -> bool {
        !self.is_silence && kind == self.kind
    }

    /// Whether serving ends in this way.
    fn ends_serving(self, c: &mut Card) -> bool {
        let mut line = line_that_fails(self.kind);
        match serve(c, &mut line, &mut replying(&DONE), 9) {
            Ok(()) => self.is_silence,
            Err(ServeFault::Line(fault)) => self.is_other(fault.kind()),
            Err(_) => false,
        }
    }

    /// Whether an exchange ends in this way.
    fn ends_an_exchange(self, t: &mut Terminal) -> bool {
        let mut line = line_that_fails(self.kind);
        match exchange(t, &mut line, &SELECT, 9) {
            Err(TransceiveFault::Dead) => self.is_silence,
            Err(TransceiveFault::Line(fault)) => self.is_other(fault.kind()),
            _ => false,
        }
    }
}

static KINDS: [(ErrorKind, bool); 4] = [
    (ErrorKind::TimedOut, true),
    (ErrorKind::WouldBlock, true),
    (ErrorKind::BrokenPipe, false),
    (ErrorKind::Interrupted, false),
];

/// A timeout is silence. Any other failure is the line's own.
#[test]
fn readers_that_fail(rt: HostRuntime) {
    for &(kind, is_silence) in &KINDS {
        let failure = Failure { kind, is_silence };
        assert!(rt; failure.ends_serving(&mut card(&rt, rt.alloc())));
        assert!(rt; failure.ends_an_exchange(&mut terminal(&rt, rt.alloc())));
    }
}
