//! Answers in JSON, and refusals and faults in each layout.
//!
//! A [`Refusal`] says why there is no value, and is a line or members of an object (`specs/Refusals.antt`).
//! [`line_strings`] returns the lines of any text as the strings of an array, and [`push_note`] appends a line and its
//! note as an object.
#![tactic(auto)]

pub mod laws;
pub mod notes;
pub mod refusal;
pub mod strings;

pub use notes::push_note;
pub use refusal::{Name, Refusal};
pub use strings::{json_string, line_strings};
