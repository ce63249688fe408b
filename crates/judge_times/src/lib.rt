//! Says which blocks of a T=1 line came too late or too early (ISO/IEC 7816-3:2006, 11.4.3).
//!
//! A card has the block waiting time to begin its answer, and a multiple of it if it asked for more. A terminal waits so
//! long for the answer, and after it the block guard time. The parameters of T=1, F and D, and the frequency of the
//! card's clock say how long that is in microseconds. A [`Clocked`] takes each block with its moments, and what a
//! `Monitor` of judge_core says of it. Nothing here allocates.
//!
//! `specs/Waiting.antt` has the times, and `specs/Clocked.antt` what is said of each block.
#![tactic(auto)]

mod apart;
pub mod clocked;
mod early;
pub mod timing;

pub use apart::{early_as, late_as, timed_as};
pub use clocked::{Clocked, Moments, OffTime, Timed};
pub use early::earliness;
pub use timing::{Early, Late, Offer, Rates, Sent, Timing, lateness, rates_before};
