//! Lists the exchanges of command and answer in a recorded exchange, as a text with a line for each, or as the items of
//! a JSON array.
//!
//! A line has the command and its answer at the terminal. It says how many blocks were sent for it, which of them were
//! lost or damaged, and how long it took. [`list_apdus`] returns the text, and [`apdu_items`] the items, from the same
//! account. `specs/Listing.antt` and `specs/Items.antt` say what each line of a recorded exchange adds.
#![tactic(auto)]

mod account;
pub mod items;
pub mod listing;
mod numbers;
mod span;

pub use items::apdu_items;
pub use listing::list_apdus;
