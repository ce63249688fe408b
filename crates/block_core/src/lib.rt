//! Blocks of the T=1 protocol (ISO/IEC 7816-3, clause 11.3): decoding and encoding.
//!
//! A block is NAD, PCB, LEN, an information field of LEN octets and the LRC. The LRC is an octet that
//! makes the exclusive-or of all octets of the block 00. The grammar, `IsBlock` in `specs/Block.antt`,
//! relates a block to its octets for an information field size.
//!
//! `BlockReader` decodes octets that come in pieces. `BlockRef` decodes a list of octets and borrows the
//! field, and `decode` copies the field. `encode` encodes a block. `laws` states what holds of the grammar
//! alone.
#![tactic(auto)]

pub mod block;
pub mod block_ref;
pub mod decoding;
pub mod laws;
pub mod pcb;
pub mod reader;
pub mod reason;
pub mod side;
mod stage;

pub use block::{Block, LONGEST_BLOCK, LONGEST_INF, block_len, encode};
pub use block_ref::BlockRef;
pub use decoding::decode;
pub use pcb::{Fault, Number, Pcb, S};
pub use reader::BlockReader;
pub use reason::BlockReason;
pub use side::Side;
