//! Judges the trace of a line: which end broke the T=1 protocol, at which block, and by which clause (ISO/IEC
//! 7816-3:2006, clause 11).
//!
//! [`JudgeState`] takes the lines of a trace one by one. It passes each block to a `Monitor` of judge_core. At the end it
//! returns a line for each deviation and a last line with the counts, or the same as the members of a JSON object. It can
//! also count which rules and states of the protocol the trace exercises.
#![tactic(auto)]

mod arriving;
mod counting;
mod coverage;
pub mod laws;
mod objects;
mod place;
mod pps;
mod saying;
pub mod standing;
mod tally;
mod telling;

pub use judge_times::{Offer, Rates, rates_before};
pub use standing::{JudgeState, Judgment, Scope};
