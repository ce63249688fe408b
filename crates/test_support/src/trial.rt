//! The lists of cases that a program tries.

use crate::{Case, Fault, Share};
use std::alloc::Global;
use std::io;

/// A program that tries lists of cases: how many of them it tries, and why it stopped early.
#[derive(Drop)]
pub struct Trial {
    pub alloc: Global,
    pub share: Share,
    fault: Option<Fault>,
    /// The text on the case that went wrong.
    text: String,
}

impl Trial {
    /// Returns a program that tries all cases.
    pub fn new(alloc: Global) -> Trial {
        Trial {
            alloc,
            share: Share::All,
            fault: None,
            text: String::new(alloc),
        }
    }

    /// Takes the answer to a case. A wrong answer, or a fault in its place, ends the trial.
    pub fn expect(&mut self, case: Case<'_>, answer: Result<bool, Fault>) {
        match answer {
            Ok(true) => {}
            Ok(false) => self.is_wrong(case),
            Err(fault) => self.stop(fault),
        }
    }

    /// Takes the answer to a case, and counts the case. `None` is no case.
    pub fn count(&mut self, case: Case<'_>, answer: Result<Option<bool>, Fault>, cases: &mut u64) {
        match answer {
            Ok(None) => {}
            Ok(Some(is_right)) => {
                *cases = cases.saturating_add(1);
                self.expect(case, Ok(is_right));
            }
            Err(fault) => self.stop(fault),
        }
    }

    /// Keeps the text on the first case that went wrong.
    fn is_wrong(&mut self, case: Case<'_>) {
        if self.is_over() {
            return;
        }
        match case.text(self.alloc) {
            Ok(text) => {
                self.text = text;
                self.stop(Fault::Wrong);
            }
            Err(_) => self.stop(Fault::Memory),
        }
    }

    /// Ends the trial for this reason, unless it has ended.
    pub fn stop(&mut self, fault: Fault) {
        if self.fault.is_none() {
            self.fault = Some(fault);
        }
    }

    /// Whether the trial ended early.
    pub fn is_over(&self) -> bool {
        self.fault.is_some()
    }

    /// Fails if the trial ended early.
    fn ended(&self) -> Result<(), Fault> {
        match self.fault {
            None => Ok(()),
            Some(fault) => Err(fault),
        }
    }

    /// Prints a line of counts, each after a text, and of the text after them. Fails if the trial ended early.
    pub fn report(
        &self,
        rt: &HostRuntime,
        counts: &[(&str, u64)],
        rest: &str,
    ) -> Result<(), Fault> {
        self.ended()?;
        for (text, count) in counts {
            print!(rt; "{text}{count}")?;
        }
        Ok(println!(rt; "{rest}")?)
    }

    /// Prints why the trial ended early.
    pub fn print(&self, rt: &HostRuntime, fault: Fault) -> io::Result<()> {
        let text = match fault {
            Fault::Wrong => self.text.as_str(),
            Fault::Memory => "out of memory",
            Fault::Stream => "a file or a stream failed",
        };
        println!(rt; "{text}")
    }
}
