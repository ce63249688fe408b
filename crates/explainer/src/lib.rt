//! Explanations of faults and refusals: which word or octet is wrong, and what was expected there.
//!
//! Each function explains one thing:
//!
//! - `verdict_note`: octets, by the verdict on them, which the caller has
//! - `words_note`: words that aren't a request
//! - `known_note`: words that aren't known values
//! - `duplicate_note`: two words with values of one tag
//! - `text_note`: a text that isn't in its form
//! - `digits_note`: a line that isn't in hexadecimal
//! - `offsets_note`: a hexadecimal text that is also a dump
//! - `pairs_note`: a text whose lines aren't pairs
//! - `session_note`: an answer to reset from which no session can begin
//! - `unsent_note`: blocks that were never sent
//! - `large_note`: an input or a text that is too large
//!
//! `specs/Notes.antt` defines the texts, `specs/Words.antt` and `specs/Known.antt` those on words, and
//! `specs/Sentences.antt` the sentence of each reason.
#![tactic(auto)]

pub mod blocks;
mod built;
mod given;
pub mod hexadecimal;
mod known;
pub mod line;
mod mark;
mod message;
mod misread;
pub mod octets;
mod pairs;
mod place;
pub mod reason;
pub mod session;
mod session_words;
pub mod text;
mod word;
mod words;

pub use blocks::unsent_note;
pub use hexadecimal::digits_note;
pub use known::{duplicate_note, known_note};
pub use line::character;
pub use octets::{least_wanting, verdict_note};
pub use pairs::pairs_note;
pub use reason::Explained;
pub use session::{large_note, session_note};
pub use text::{offsets_note, text_note};
pub use words::words_note;
