//! The form of the words that the program takes, their help, and the options that are found without the parser.
//!
//! `matches_of` parses words with `clap`. Their form is `scard` in `specs/Form.antt`. The definitions of `clap` say
//! which words that form refuses, and what it returns for the others.
#![tactic(auto)]

mod arguments;
pub mod asked;
pub mod explain;
mod forms;
mod help;
pub mod parse;
pub mod version;

pub use asked::{asks_for_json, asks_to_explain};
pub use explain::parser_message;
pub use parse::matches_of;
pub use version::asks_for_version;
