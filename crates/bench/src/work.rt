//! The work that was done, and how long it took.

use std::io::{self, ErrorKind};
use std::time::Instant;

/// Work on this many octets.
#[derive(Clone, Copy)]
pub(crate) struct Work {
    pub(crate) name: &'static str,
    pub(crate) octets: usize,
    /// The name of a part.
    pub(crate) unit: &'static str,
}

/// What prints each piece of work, and its time if the program was asked for times.
#[derive(Clone, Copy)]
pub(crate) struct Watch {
    timed: bool,
    started: Instant,
    /// Why the program has to stop: work went wrong, or a call of the system did.
    fault: Option<ErrorKind>,
}

impl Watch {
    /// Returns a watch that starts now.
    pub(crate) fn new(rt: &HostRuntime, timed: bool) -> io::Result<Watch> {
        Ok(Watch {
            timed,
            started: Instant::now(rt)?,
            fault: None,
        })
    }

    /// Starts again.
    pub(crate) fn start(&mut self, rt: &HostRuntime) {
        match Instant::now(rt) {
            Ok(now) => self.started = now,
            Err(fault) => self.stop(fault.kind()),
        }
    }

    /// Prints work and its number of parts, and the time since the watch started, and starts again. Work that went
    /// wrong has no number.
    pub(crate) fn tell(&mut self, rt: &HostRuntime, work: Work, parts: Option<usize>) {
        if self.fault.is_some() {
            return;
        }
        let told = match parts {
            Some(parts) => self.told(rt, work, parts),
            None => Err(ErrorKind::InvalidData.into()),
        };
        match told {
            Ok(()) => self.start(rt),
            Err(fault) => self.stop(fault.kind()),
        }
    }

    /// Prints work, and the time since the watch started if the program was asked for times.
    fn told(&self, rt: &HostRuntime, work: Work, parts: usize) -> io::Result<()> {
        let Work { name, octets, unit } = work;
        if self.timed {
            let time = self.started.elapsed(rt)?.as_micros();
            println!(rt; "{name}: {octets} octets, {parts} {unit}, {time} us")
        } else {
            println!(rt; "{name}: {octets} octets, {parts} {unit}")
        }
    }

    /// Stops the program for this reason.
    pub(crate) fn stop(&mut self, fault: ErrorKind) {
        self.fault = Some(fault);
    }

    /// Fails if the program had to stop.
    pub(crate) fn ended(&self) -> io::Result<()> {
        match self.fault {
            None => Ok(()),
            Some(fault) => Err(fault.into()),
        }
    }
}
