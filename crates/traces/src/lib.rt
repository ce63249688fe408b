//! Traces of a line: the blocks that an analyser or a driver saw, and the exchange that both applications must have
//! made with them.
//!
//! [`read_trace`] parses a text, and returns its [`Trace`] or its first fault. [`record_trace`] returns the exchange.
//! It follows both ends from block to block. If an end needs a call of its application to send what was seen, it adds
//! the line of that call. `specs/Following.antt` says what each item adds.
#![tactic(auto)]

mod follower;
mod following;
pub mod laws;
mod marking;
mod matching;
pub mod reading;
pub mod recording;
mod said;
mod seen;
mod standing;
pub mod trace;
pub mod unfit;

pub use reading::{TraceFault, line_of_item, read_trace};
pub use recording::{RecordFault, record_trace};
pub use trace::{Item, Trace};
pub use unfit::{Unfit, unfit_in};
