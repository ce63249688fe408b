//! What the program `scard` prints about octets, by their kind.
//!
//! `check_with_verdict` returns how many octets the value takes, and `show_with_verdict` returns the value line by line.
//! Both return the same text for octets that are refused, and the verdict that the text comes from. Each kind has a module with its `Codec`: where its values end, its grammar, its
//! reasons and their names, and the lines of a value. `blocks`, `tidy_with_verdict` and `fill_with_verdict` return what
//! `build` prints.
//!
//! An `Answer` is what the program says and its status. What it says, a `Said`, is lines of text, a JSON object, or a
//! refusal, and has a text and an object (`specs/Sayings.antt`). `specs/` defines the texts, in a file for each kind.
//! `specs/Verdicts.antt` joins them to the verdict of the grammar.
#![tactic(auto)]

pub mod answer;
mod atr;
mod atr_members;
mod atr_rows;
mod block;
pub mod chain;
pub mod codec;
mod command;
pub mod forest;
pub mod json;
pub mod laws;
pub mod list;
mod places;
mod response;
mod row_lines;
mod rows;
pub mod said;
pub mod shown;
pub mod status;
mod text;

pub use answer::Answer;
pub use chain::blocks;
pub use codec::{CheckedAnswer, Codec, Outcome, Verdict, check_with_verdict, show_with_verdict};
pub use forest::tidy_with_verdict;
pub use json::{kind_name, notes_member, object_line};
pub use list::fill_with_verdict;
pub use said::Said;
pub use shown::Shown;
pub use status::Status;
