//! Answers to reset (ISO/IEC 7816-3, clause 8): decoding and encoding of the first octets that a card sends,
//! and what they say about the rates and about T=1.
//!
//! `specs/Atr.antt` has the grammar: TS, T0, the interface bytes, the historical bytes and TCK as a function of
//! the value. [`decode`] returns the verdict of that grammar, [`check`] returns it without the value, and
//! [`encode`] returns the encoding. `specs/T1.antt` and `specs/Rates.antt` define what the interface bytes
//! mean. No call allocates.
#![tactic(auto)]

mod announced;
pub mod atr;
pub mod decoding;
pub mod encoding;
mod header;
pub mod laws;
mod length;
pub mod params;
mod partial;
pub mod rating;
pub mod reader;
pub mod reason;
mod tail;
mod whole;

pub use atr::{Atr, Convention, Indicated, Interface};
pub use decoding::{AtrRoom, check, decode};
pub use encoding::encode;
pub use params::{ParamFault, T1Params, t1_params};
pub use rating::rates;
pub use reader::AtrReader;
pub use reason::AtrReason;
