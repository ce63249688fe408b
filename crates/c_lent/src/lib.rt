//! The calls of the library for C that need no memory:
//!
//! - the codecs, the objects of a forest and the entries of a list
//! - both ends of T=1 and of a session, a check of a forest, a receiver of a chain, and readers of a block and of an answer to reset,
//!   over a state and buffers of the caller
//! - the names of all numbers in results
//!
//! scard_lent exports each call to C with `scard_` before its name, and documents it for callers.
#![tactic(auto)]

pub mod apdu;
pub mod atr;
pub mod block;
pub mod building;
pub mod call;
pub mod card_session;
pub mod chain;
pub mod dol;
pub mod filling;
mod fitting;
pub mod hexadecimal;
mod judge_numbers;
pub mod kept;
pub mod kept_check;
pub mod kept_judge;
pub mod kept_receiver;
pub mod kept_times;
pub mod layout;
pub mod least;
pub mod lent;
pub mod lent_check;
pub mod lent_exercise;
pub mod lent_judge;
pub mod lent_readers;
pub mod lent_receiver;
pub mod lent_times;
pub mod names;
pub mod note;
pub mod number;
pub mod octets;
pub mod output;
pub mod parts;
pub mod reader_laws;
pub mod sentence;
pub mod session;
pub mod session_next;
pub mod timing;
pub mod tlv;
pub mod turn;
pub mod verdict;
pub mod version;
