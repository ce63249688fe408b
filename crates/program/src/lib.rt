//! The program `scard` as a function of its words and of a reader. `serve` takes the words from the system.
//!
//! program_words reads what a command line asks for: one text, as a `Request`, or the text for each line of standard
//! input, which `answer_lines` gives. The module `replies` makes the text, the status and the explanation for a
//! request. It calls program_octets for octets. A module each is for files of recorded exchanges, for traces that are
//! recorded or judged, and for simulated sessions. `read_whole` reads the input, but `read_lines` a trace that is judged,
//! of which it keeps one line at a time. `run` writes the text.
//!
//! Definitions say which text is right: `IsAnswer` in `specs/Answers.antt`, over program_words' `IsRead`. The root also
//! reexports what exchange_core gives.
#![tactic(auto)]

mod annotated;
mod asked;
pub mod conversation;
mod exchange;
mod expected;
pub mod file;
mod file_notes;
pub mod host;
mod json;
mod judged;
mod judging;
mod laid;
pub mod laws;
pub mod line_task;
pub mod lines;
mod pieces;
pub mod program;
mod recording;
mod replies;
mod simulation;
mod trace_lines;
mod trace_place;
mod waits;

pub use conversation::{Conversation, Streams};
pub use exchange_core::{
    Arrival, Exchange, ExchangeFault, Line, Lines, ReplayFault, Side, Version, migrate,
    read_exchange, replay, write_exchange,
};
pub use host::serve;
pub use layouts::Layout;
pub use line_task::LineTask;
pub use lines::answer_lines;
pub use octet_core::Counted;
pub use program::{report, run};
pub use program_octets::Status;
pub use program_words::{Aim, Expected, Fault, Task};
