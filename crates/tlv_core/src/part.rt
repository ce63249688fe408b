//! Parts of forests, borrowed from their octets.

ghost use Rattle.std.specs.Prelude.{◌≡◌, ◌<◌, ◌-◌, ◌^◌, ℕ, length};
ghost use Rattle.tlv_core.specs.Form.{capacity};

use crate::form::Form;
use crate::header::ObjectHeader;
use crate::tag::Tag;
use arrayvec::ArrayVec;
use std::fmt::{self, Debug, Formatter, Write};

/// An object of a forest, with its value borrowed from the octets of the forest.
#[derive(Clone, Copy, PartialEq, Eq)]
pub struct Part<'a> {
    /// The depth of the object, 1 to 16.
    pub depth: usize,
    /// Its tag.
    pub tag: Tag,
    /// The form of its length field.
    pub form: Form,
    /// The place of its value in the octets of the forest, counted from 0.
    pub place: usize,
    /// The octets of its value. For a constructed object they encode its nodes.
    pub value: &'a [u8],
    ghost fits: { length value.now < capacity form },
}

/// An object of a forest by its place alone, in 16 octets. Its value is the `len` octets from `place` on.
#[derive(Clone, Copy, Debug, PartialEq, Eq)]
pub struct PlacedPart {
    /// Its tag.
    pub tag: Tag,
    /// The form of its length field.
    pub form: Form,
    /// The depth of the object, 1 to 16.
    pub depth: u8,
    /// The place of its value in the octets of the forest, counted from 0.
    pub place: u32,
    /// How many octets its value has.
    pub len: u32,
}

impl PlacedPart {
    ghost use Rattle.tlv_core.specs.Flat.{placed_of, placed_from};

    /// Makes a part of an object at this depth, whose value begins at `place`.
    #[inline(always)]
    pub(crate) fn of(depth: usize, object: ObjectHeader, place: usize) -> PlacedPart
        requires depth { depth < 256 }
        requires place { place < 2 ^ 32 }
        ensures { placed_of result ≡ placed_from depth place object }
    {
        PlacedPart {
            tag: object.tag,
            form: object.form,
            depth: depth as u8,
            place: place as u32,
            len: object.len,
        }
    }
}

impl Part<'_> {
    ghost use Rattle.tlv_core.specs.Tag.{header_of, length_field};
    ghost use Rattle.tlv_core.specs.Parts.{value_place};

    /// Returns the octets of its length field, one to five.
    pub fn length_field(&self) -> ArrayVec<u8, 5>
        ensures { result.items ≡ length_field self.now.form (length self.now.value.now) }
    {
        self.form.field(self.value.len())
    }

    /// Returns the place of its header in the octets of the forest: the place of the first octet of its tag.
    /// The header ends where the value begins, at `place`.
    ///
    /// The result is 0 if `place` leaves no room for the header. That is never so for a part of a
    /// [`FlatForest`](crate::FlatForest).
    pub fn header_place(&self) -> usize
        ensures before { result ≡ self.now.place - length
            (header_of self.now.tag self.now.form (length self.now.value.now)) }
        ensures header { (at : ℕ) → self.now.place ≡ value_place at self.now.tag self.now.form
            (length self.now.value.now) → result ≡ at }
    {
        self.place.saturating_sub(self.header_len())
    }

    /// Returns how many octets its header has: its tag and its length field.
    fn header_len(&self) -> usize
        ensures { result ≡ length (header_of self.now.tag self.now.form
            (length self.now.value.now)) }
    {
        self.tag.octets().len() + self.form.octets()
    }
}

/// Shows the depth, the tag, the form, the place, and how many octets the value has. The value may be secret,
/// so none of its octets is shown.
impl Debug for Part<'_> {
    fn fmt<W: Write>(&self, f: &mut Formatter<W>) -> fmt::Result {
        f.debug_struct("Part")
            .field("depth", &self.depth)
            .field("tag", &self.tag)
            .field("form", &self.form)
            .field("place", &self.place)
            .field("value_octets", &self.value.len())
            .finish()
    }
}
