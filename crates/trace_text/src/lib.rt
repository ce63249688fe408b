//! The lines of a trace: what an analyser or a driver saw on a line.
//!
//! [`entry_of`] parses one line, and returns what it says or its fault. `specs/Reading.antt` has the grammar.
#![tactic(auto)]

pub mod entry;
mod line_words;

pub use entry::{Entry, Reach, entry_of, says_nothing};
