//! Why octets are refused.

ghost use Rattle.std.specs.Prelude.{◌≡◌};
ghost use Rattle.octet_core.specs.Stops.{ForReason, IsMapped};
ghost use Rattle.octet_core.specs.declared.stop.Stop.TheVariants.{At};

use std::alloc::AllocError;
use std::error::Error;
use std::fmt::{self, Debug, Display, Formatter, Write};

/// Why octets don't encode a value. Places count octets from 0.
#[derive(Clone, Copy, Debug, PartialEq, Eq)]
pub enum Stop<R> {
    /// The input ended at `place`, where an encoding could continue.
    Short { place: usize },
    /// The octet at `place` is the first after which no encoding can continue.
    At { place: usize, reason: R },
}

impl<R> Stop<R> {
    /// Returns the stop with another reason: the result of `rename` for the reason, if there is one. The
    /// place stays.
    pub fn map<T, F: FnOnce(R) -> T>(self, rename: F) -> Stop<T>
        requires { ForReason self (F.pre rename) }
        ensures { IsMapped (F.post rename) self result }
    {
        match self {
            Stop::Short { place } => Stop::Short { place },
            Stop::At { place, reason } => Stop::At {
                place,
                reason: rename(reason),
            },
        }
    }
}

/// Writes `short at P`, or `refused at P: ` and the reason.
impl<R: Display> Display for Stop<R> {
    ghost use Rattle.octet_core.specs.Stops.{stop_text};

    ghost output = { stop_text R.output };

    fn fmt<W: Write>(&self, f: &mut Formatter<W>) -> fmt::Result {
        match self {
            Stop::Short { place } => write!(f, "short at {place}"),
            Stop::At { place, reason } => write!(f, "refused at {place}: {reason}"),
        }
    }
}

impl<R: Debug + Display + Drop> Error for Stop<R> {}

/// Why a call that allocates returned no value.
#[derive(Clone, Copy, Debug, PartialEq, Eq)]
pub enum Refused<R> {
    /// The octets don't encode a value.
    Stop(Stop<R>),
    /// An allocation failed. The octets may or may not encode a value.
    Memory,
}

impl<R> From<AllocError> for Refused<R> {
    ghost use Rattle.octet_core.specs.declared.stop.Refused.TheVariants.{Memory};

    ghost from_gives = { λ _ refused. refused ≡ Memory };

    fn from(_error: AllocError) -> Refused<R> {
        Refused::Memory
    }
}

impl<R> From<Stop<R>> for Refused<R> {
    ghost use Rattle.octet_core.specs.declared.stop.Refused.TheVariants.{Stop as Stopped};

    ghost from_gives = { λ stop refused. refused ≡ Stopped stop };

    fn from(stop: Stop<R>) -> Refused<R> {
        Refused::Stop(stop)
    }
}

/// Writes the stop, or `memory`.
impl<R: Display> Display for Refused<R> {
    ghost use Rattle.octet_core.specs.Stops.{refused_text};

    ghost output = { refused_text R.output };

    fn fmt<W: Write>(&self, f: &mut Formatter<W>) -> fmt::Result {
        match self {
            Refused::Stop(stop) => Display::fmt(stop, f),
            Refused::Memory => f.write_str("memory"),
        }
    }
}

impl<R: Debug + Display + Drop> Error for Refused<R> {}

/// A refusal that a reader keeps and repeats. The octet at `place`, counted from the first that was ever fed,
/// is the first after which no encoding can continue.
#[derive(Clone, Copy, Debug, PartialEq, Eq)]
pub struct Refusal<R> {
    pub place: usize,
    pub reason: R,
}

impl<R> Refusal<R> {
    /// Returns the refusal as the stop that calls return.
    pub fn stop(self) -> Stop<R>
        ensures { result ≡ At self.place self.reason }
    {
        Stop::At {
            place: self.place,
            reason: self.reason,
        }
    }
}

/// Writes the refusal like its stop: `refused at P: ` and the reason.
impl<R: Display> Display for Refusal<R> {
    ghost use Rattle.octet_core.specs.Stops.{stop_text};
    ghost use Rattle.octet_core.specs.declared.stop.Stop.TheVariants.{At};

    ghost output = { λ refusal. stop_text R.output (At refusal.place refusal.reason) };

    fn fmt<W: Write>(&self, f: &mut Formatter<W>) -> fmt::Result {
        let place = self.place;
        write!(f, "refused at {place}: ")?;
        Display::fmt(&self.reason, f)
    }
}

impl<R: Debug + Display + Drop> Error for Refusal<R> {}
