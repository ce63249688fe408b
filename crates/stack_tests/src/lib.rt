//! The tests of the codecs, from [`octet_core`] to [`tlv_core`], of both ends and recorded exchanges, [`t1_core`],
//! [`line_core`] and [`exchange_core`], and of [`test_support`]. They have a crate of their own, so that the gate
//! proves each library once. They share one crate, since the toolchain needs up to a minute to begin with a crate.
//!
//! These functions say what no contract, line of `vectors` or test in C says: which readers and parts are equal, which
//! lists are improper, what the devices for tests do, how lines fail, clocks, limits of a caller, and how faults and
//! values are printed.
#![tactic(auto)]

#[cfg(test)]
mod apdu;
#[cfg(test)]
mod atr;
#[cfg(test)]
mod block;
#[cfg(test)]
mod chain;
#[cfg(test)]
mod exchange;
#[cfg(test)]
mod helpers;
#[cfg(test)]
mod line;
#[cfg(test)]
mod octet;
#[cfg(test)]
mod t1;
#[cfg(test)]
mod tlv;
