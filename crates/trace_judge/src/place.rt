//! Where in a trace a block is.

/// Where in a trace a block is.
#[derive(Clone, Copy)]
pub(crate) struct Place<'a> {
    /// Its line, from 1.
    pub(crate) line: u64,
    /// The moment at which it began, if the trace has that directly before it.
    pub(crate) moment: Option<u64>,
    pub(crate) octets: &'a [u8],
}
