//! The layouts.

/// How an answer is laid out.
#[derive(Clone, Copy, Debug, PartialEq, Eq)]
pub enum Layout {
    /// As lines of text.
    Lines,
    /// As a JSON object on one line.
    Json,
}
