//! Reading tags octet by octet.

ghost use Rattle.std.specs.Prelude.{◌≡◌, ◌<◌, ◌≤◌, ◌%◌, [], ◌∷◌, MatchOption};
ghost use Rattle.tlv_core.specs.Tag.{IsLong};
ghost use Rattle.tlv_core.specs.TagPart.{part_octets, IsTagPart};

use crate::tag::{Tag, is_long};

/// The octets of a tag that were read so far.
#[derive(Clone, Copy)]
pub(crate) enum TagPart {
    /// No octets.
    Nothing,
    /// A first octet that a second one follows.
    First(u8),
    /// Two octets that a third one follows.
    Second(u8, u8),
    /// A whole tag.
    Tagged(Tag),
}

/// Takes the first octet of a tag. The result is `None` if it is 00.
pub(crate) fn tag_first(octet: u8) -> Option<TagPart>
    ensures { MatchOption result (octet ≡ 0)
        (λ longer. IsTagPart longer × (part_octets longer ≡ octet ∷ [])) }
{
    if octet == 0 {
        None
    } else if is_long(octet) {
        Some(TagPart::First(octet))
    } else {
        Some(TagPart::Tagged(Tag::of(&[octet])))
    }
}

/// Takes the second octet of a tag. The result is `None` if its low seven bits are all 0.
pub(crate) fn tag_second(first: u8, octet: u8) -> Option<TagPart>
    requires { IsLong first }
    ensures { MatchOption result (octet % 128 ≡ 0)
        (λ longer. IsTagPart longer × (part_octets longer ≡ first ∷ octet ∷ [])) }
{
    if octet % 0x80 == 0 {
        None
    } else if octet < 0x80 {
        Some(TagPart::Tagged(Tag::of(&[first, octet])))
    } else {
        Some(TagPart::Second(first, octet))
    }
}

/// Takes the third octet of a tag. The result is `None` if a fourth would follow.
pub(crate) fn tag_third(first: u8, second: u8, octet: u8) -> Option<TagPart>
    requires long { IsLong first }
    requires more { 128 < second }
    ensures { MatchOption result (128 ≤ octet)
        (λ longer. IsTagPart longer × (part_octets longer ≡ first ∷ second ∷ octet ∷ [])) }
{
    if octet < 0x80 {
        Some(TagPart::Tagged(Tag::of(&[first, second, octet])))
    } else {
        None
    }
}
