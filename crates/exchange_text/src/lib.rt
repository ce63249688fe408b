//! Recorded exchanges: what went over the line between a terminal and a card, as a value and as a text.
//!
//! An [`Exchange`] has the answer to reset and the lines after it: the calls of the application and of the card's host,
//! the blocks that were sent, how each arrived, and the results. [`read_exchange`] parses a text and returns its
//! exchange or its first fault. [`write_exchange`] returns the text of an exchange. [`migrate`] raises it to version 2.
//! `specs/Text.antt` has the text, with an equation for each line.
#![tactic(auto)]

pub mod exchange;
pub mod fault;
pub mod laws;
pub mod line;
pub mod name;
mod proper;
pub mod reading;
mod saying;
mod words;
pub mod writing;

pub use exchange::{Exchange, Version, migrate};
pub use fault::ExchangeFault;
pub use line::{Arrival, Line, Lines};
pub use name::Name;
pub use proper::LATEST_MOMENT;
pub use reading::read_exchange;
pub use writing::{push_message, write_exchange};
