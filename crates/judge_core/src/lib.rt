//! Says which end broke the T=1 protocol, at which block, and by which clause (ISO/IEC 7816-3:2006, clause 11).
//!
//! A [`Monitor`] takes the blocks of a trace in order, as they were on the line, and says whether the standard permits
//! each one. Nobody sees on the line whether the other end received a block whole. So a block is permitted if some
//! course of what its sender may have heard permits it. Nothing here allocates.
//!
//! `specs/Ends.antt` has what an end owes after what it heard. `specs/Sends.antt` has what it may send then, rule by
//! rule, and `specs/Courses.antt` has the courses.
#![tactic(auto)]

mod address;
mod aside;
mod asking;
mod class;
pub mod connection;
pub mod courses;
pub mod doubt;
pub mod end;
pub mod exercise;
mod hearing;
pub mod laws;
pub mod monitor;
mod reach;
pub mod rule;
mod ruling;
mod sending;
pub mod stakes;
pub mod state;
mod step;

pub use block_core::Side;
pub use connection::{Last, Pairs};
pub use courses::{Heard, Verdict};
pub use doubt::Doubt;
pub use end::{After, Asked, End, Owed, Pending, Row};
pub use exercise::{Exercise, Exercised};
pub use monitor::{Arrival, Monitor, Report, Said, Silence, Watched};
pub use rule::{RULES, Rule};
pub use stakes::Stakes;
pub use state::{STATES, State};
