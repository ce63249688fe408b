//! What a caller can know about the codecs together, only from their public contracts and laws. A value that is encoded
//! decodes as the same value, and an APDU whose chain is fed in two pieces arrives.
//!
//! Each function does this, and has the statement as its contract. Its only other result is out of memory.
#![tactic(auto)]

pub mod again;
pub mod ends;
pub mod pieces;

pub use again::{atr_again, block_again, command_again, dol_again, forest_again, response_again};
pub use ends::{acted_on_once, exchanged_over_streams};
pub use pieces::{command_in_two_pieces, response_in_two_pieces};
