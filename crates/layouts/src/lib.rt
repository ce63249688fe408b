//! How an answer is laid out: as lines of text, or as JSON. Both name the program in the same way.
#![tactic(auto)]

mod items;
mod layout;
mod members;
mod version;

pub use items::push_separator;
pub use layout::Layout;
pub use members::Members;
pub use version::PROGRAM;
