//! The calls of the library for C that need memory, as a static library. It exports the code of c_owned.
#![tactic(auto)]

pub mod ends;
pub mod readers;
