//! The calls of the library for C that need memory: the ends and the readers that handles hold.
//!
//! scard_owned exports each call to C with `scard_` before its name, and documents it for callers.
#![tactic(auto)]

mod call;
pub mod ends;
pub mod engine;
pub mod handle;
mod loose;
pub mod reader;
pub mod readers;
