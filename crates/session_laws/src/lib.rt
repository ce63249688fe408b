//! Sessions in a loop over their steps, for a device that receives under a time limit, and what a caller can know of
//! them only from the public contracts of the steps.
//!
//! [`exchange_ends`] is the loop of a terminal, and its contract is a law: whatever the device does, an exchange ends
//! within its limits. `specs/Ending.antt` has the number that each octet, silence and failure makes smaller.
//! [`serve_events`] is the loop of a card, whose host may ask for time or a size before it replies. [`laws`] has what
//! holds of both loops over one line.
#![tactic(auto)]

mod device;
mod exchanging;
mod host;
pub mod laws;
mod serving;

pub use exchanging::{Ended, ask_ifs_ends, exchange_ends, resynch_ends};
pub use host::{AskingHost, HostTurn};
pub use serving::serve_events;
