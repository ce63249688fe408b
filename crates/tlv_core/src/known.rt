//! Values of tags that fill a data object list.

use crate::tag::Tag;
use octet_core::{Format, Octets};

/// The value of a tag, for filling a data object list.
#[derive(Debug, PartialEq, Eq, Drop)]
pub struct Known {
    /// The tag.
    pub tag: Tag,
    /// How the value is cut or padded to the length in the list.
    pub format: Format,
    /// The octets of the value.
    pub value: Octets,
}
