//! The content of a drawing.

use block_core::Side;
use octet_core::Octets;

/// What happened to a block, as its arrow shows it.
#[derive(Clone, Copy)]
pub(crate) enum Course {
    /// It arrives, as it was sent or as other octets.
    Arrives,
    /// It is lost.
    Lost,
    /// It counts as lost and nobody saw it: a line `note added` comes before it.
    Added,
}

/// A row of a drawing. A label is text in ASCII.
#[derive(Drop)]
pub(crate) enum Row {
    /// A text at a side.
    Said {
        side: Side,
        label: Octets,
    },
    /// A text between the sides: a moment, or a remark.
    Between {
        label: Octets,
    },
    /// A block with its number, from 1.
    Block {
        number: usize,
        from: Side,
        course: Course,
        label: Octets,
    },
}
