//! How many more octets must come at least, for octets that end within an encoding.
//!
//! Each function is for one kind of octets. If a value of the kind begins with the octets, no value ends sooner than
//! the function says, and some value ends then. The answer is 0 if they are a whole value. [`laws`] has the
//! proofs. Octets with which no value begins get a number without meaning.
#![tactic(auto)]

pub mod apdu;
pub mod atr;
pub mod block;
pub mod chain;
pub mod forest;
pub mod laws;
pub mod list;

pub use apdu::{command_least, response_least};
pub use atr::atr_least;
pub use block::block_least;
pub use chain::chain_least;
pub use forest::forest_least;
pub use list::list_least;
