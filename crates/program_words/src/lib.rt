//! What the words of a command line ask for.
//!
//! `read` parses the words once, by the form of command_line. It turns the matches into an `Asked`, in which nothing of
//! `clap` is left. In `specs/Words.antt` the function `asked_for` defines what the words ask for, and `IsRead` which
//! words are refused before, by their form. Words that ask for the version aren't parsed.
#![tactic(auto)]

pub mod fault;
pub mod field_size;
pub mod given;
pub mod known;
pub mod loose;
pub mod numerals;
pub mod pair_lines;
pub mod request;
pub mod session;
pub mod value;
pub mod words;

pub use fault::Fault;
pub use field_size::FieldSize;
pub use given::{Form, OctetSource};
pub use loose::loose_octets;
pub use pair_lines::read_pair_lines;
pub use request::{
    Aim, Asked, Drawing, Ends, Expected, FileTask, Judging, Kind, Knowns, Request, Task,
};
pub use session::{BlockNumbers, MOST_NAMED, Pair, Pairs, Session, read_blocks};
pub use words::{layout_of, read};
