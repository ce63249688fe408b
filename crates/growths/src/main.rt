//! Makes every call of the libraries that allocates once, and compares its result.
//!
//! It is meant to run with one growth of memory refused, each in turn, as `refuse-growths` does. It ends with status 2
//! if a call returned that memory was out, and else with 0. It writes a line for each call with a wrong result, and for
//! each call after the first that was out of memory.
#![tactic(auto)]

mod apdus;
mod chains;
mod exchanges;
mod objects;
mod session;

use std::alloc::{AllocError, Global};
use std::io::{self, ErrorKind};
use std::process::ExitCode;

/// The outcome of a call: whether it returned what it should, or that memory was out.
type Outcome = Result<bool, AllocError>;

fn main(rt: HostRuntime) -> io::Result<ExitCode> {
    let mut outcomes = Outcomes {
        is_refused: false,
        fault: None,
    };
    make_each(&rt, rt.alloc(), &mut outcomes);
    if let Some(fault) = outcomes.fault {
        return Err(fault.into());
    }
    println!(rt; "all calls made")?;
    Ok(ExitCode::from(if outcomes.is_refused { 2 } else { 0 }))
}

/// Makes each call, and prints its outcome.
fn make_each(rt: &HostRuntime, alloc: Global, outcomes: &mut Outcomes) {
    outcomes.add(rt, "hexadecimal text", chains::hexadecimal(alloc));
    outcomes.add(rt, "receiver", chains::receiver(alloc));
    outcomes.add(rt, "commands", apdus::commands(alloc));
    outcomes.add(rt, "responses", apdus::responses(alloc));
    outcomes.add(rt, "commands sent", apdus::sent(alloc));
    outcomes.add(rt, "commands received", apdus::received(alloc));
    outcomes.add(rt, "responses received and sent", apdus::answered(alloc));
    outcomes.add(rt, "forests", objects::forests(alloc));
    outcomes.add(rt, "forests in pieces", objects::pieces(alloc));
    outcomes.add(rt, "parts", objects::parts(alloc));
    outcomes.add(rt, "placed parts", objects::places(alloc));
    outcomes.add(rt, "lists", objects::lists(alloc));
    outcomes.add(rt, "session", session::longest(alloc));
    outcomes.add(rt, "recorder", exchanges::recorded(alloc));
    outcomes.add(rt, "exchanges", exchanges::replayed(alloc));
}

/// The outcomes of the calls so far.
#[derive(Clone, Copy)]
struct Outcomes {
    /// Whether a call was out of memory.
    is_refused: bool,
    /// Why a line couldn't be printed.
    fault: Option<ErrorKind>,
}

impl Outcomes {
    /// Prints an outcome that is wrong, and a call after the first that was out of memory.
    fn add(&mut self, rt: &HostRuntime, name: &'static str, outcome: Outcome) {
        match outcome {
            Ok(true) => {}
            Ok(false) => self.print(rt, name, "wrong"),
            Err(AllocError) if !self.is_refused => self.is_refused = true,
            Err(AllocError) => self.print(rt, name, "out of memory too"),
        }
    }

    fn print(&mut self, rt: &HostRuntime, name: &'static str, what: &'static str) {
        if let Err(fault) = println!(rt; "{name}: {what}") {
            self.fault = Some(fault.kind());
        }
    }
}
