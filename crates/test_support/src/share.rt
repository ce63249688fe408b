//! The share of its lists that a program tests.

use crate::Fault;
use std::env::{self, Env};

/// How many cases of the long lists are tested.
#[derive(Clone, Copy)]
pub enum Share {
    All,
    /// One in 256.
    Few,
}

impl Share {
    /// Whether the case with this number is tested.
    pub fn has(self, number: usize) -> bool {
        matches!(self, Share::All) || number % 256 == 0
    }

    /// Returns how many of this many long cases are tested.
    pub fn most(self, cases: usize) -> usize {
        match self {
            Share::All => cases,
            Share::Few => 1,
        }
    }
}

/// Returns the share that the program's words ask for: a few cases for the word `few`, else all.
pub fn asked<R: Env + AllocGlobal>(rt: &R) -> Result<Share, Fault> {
    let words: Vec<String> = env::args(rt)?.collect(rt.alloc())?;
    Ok(match words.as_slice() {
        [_, word] if word.as_str() == "few" => Share::Few,
        _ => Share::All,
    })
}
