//! Octets as other programs write them: dumps with offsets, and lists in sources.
//!
//! `specs/Dump.antt` defines by the lines of a text which octets it gives, and `specs/Source.antt` by its characters. A
//! text that could be read in two ways isn't in the form. If a text isn't in the form, [`dump_stop`] and
//! [`source_stop`] return its first wrong place. [`begins_with_offset`] says whether a text begins like a row of a
//! dump. [`is_octal_words`] says whether it is octal words of `od`.
#![tactic(auto)]

mod base;
mod comments;
pub mod dump;
mod editor;
pub mod fault;
mod heads;
mod line;
mod marks;
pub mod no_dump;
pub mod no_source;
pub mod octal_words;
mod row;
pub mod source;
mod strings;
mod text;
mod turn;
mod word;

pub use dump::dump_octets;
pub use fault::DumpFault;
pub use no_dump::{DumpWrong, begins_with_offset, dump_stop};
pub use no_source::{SourceWrong, source_stop};
pub use octal_words::is_octal_words;
pub use source::source_octets;
