//! Messages as chains of I-blocks (ISO/IEC 7816-3, clause 11.6).
//!
//! A chain carries a message in the information fields of I-blocks, with NAD 00, alternating numbers, and M=1 on
//! all blocks but the last. The grammar, `IsChain` in `specs/Chain.antt`, relates the fields to the octets of the
//! blocks in a row. `specs/Cut.antt` says how a message is cut into fields.
//!
//! `cut` and `write_chain` make chains. A `Receiver` takes a chain in pieces and joins its message; a
//! `LentReceiver` joins it in a buffer of the caller. `read_chain` feeds a receiver from a source. `laws` states
//! what holds of the grammar alone. A `Wiped` holds octets of a message in its own memory, and overwrites them
//! before it frees the memory.
#![tactic(auto)]

pub mod blocks;
mod collected;
pub mod cutting;
pub mod laws;
pub mod lent;
pub mod longest;
pub mod reading;
pub mod reason;
pub mod receiver;
pub mod stage;
mod store;
mod taking;
pub mod wiped;
pub mod writing;

pub use blocks::{Cut, block_at};
pub use cutting::cut;
pub use lent::LentReceiver;
pub use longest::{LONGEST_COMMAND, LONGEST_RESPONSE};
pub use reading::{ReadRefusal, read_chain};
pub use reason::ChainReason;
pub use receiver::{LONGEST_MESSAGE, MOST_BLOCKS, Receiver};
pub use stage::BlockStage;
pub use wiped::{Wiped, append, overwrite, overwrite_front};
pub use writing::write_chain;
