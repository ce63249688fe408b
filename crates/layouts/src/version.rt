//! The program with its version.

/// The program and its version, as `--version` prints them and the object of `judge` has them. The version is that of
/// `include/scard.h`.
pub const PROGRAM: &str = "scard 1.5.0";
