//! Tags of data objects.

ghost use Rattle.std.specs.Prelude.{◌≡◌, ◌<◌, ◌≤◌, ◌/◌, ◌%◌, ◌↔◌, [], ◌∷◌, IsTrue, MatchOption, take};
ghost use Rattle.tlv_core.specs.Tag.{IsTag, IsLong, constructed_bit};
ghost use Rattle.tlv_core.specs.TagView.{padded};

use std::marker::Model;

/// Whether further octets follow the first octet of a tag: its low five bits are all 1.
pub(crate) fn is_long(first: u8) -> bool
    ensures { IsTrue result ↔ IsLong first }
{
    first % 0x20 == 0x1F
}

/// Whether a second octet ends its tag: bit 8 is 0, and the low seven bits aren't all 0.
pub(crate) fn is_last(second: u8) -> bool
    ensures { IsTrue result ↔ ((0 < second) × (second < 128)) }
{
    second != 0 && second < 0x80
}

/// Whether a tag with this first octet belongs to a constructed object: bit 6.
pub(crate) fn is_constructed(first: u8) -> bool
    ensures { IsTrue result ↔ (first / 32 % 2 ≡ 1) }
{
    first / 0x20 % 2 == 1
}

/// Whether these octets are one whole tag.
pub(crate) fn is_tag(octets: &[u8]) -> bool
    ensures { IsTrue result ↔ IsTag octets.now }
{
    match octets {
        [first] => *first != 0 && !is_long(*first),
        [first, second] => is_long(*first) && is_last(*second),
        [first, second, third] => is_long(*first) && *second > 0x80 && *third < 0x80,
        _ => false,
    }
}

/// A tag of one to three octets, the first of them not 00 (EMV 4.3 Book 3, Annex B; ISO/IEC 7816-4, clause
/// 5.2.2). Contracts see its octets.
#[derive(Clone, Copy, Debug)]
pub struct Tag {
    octets: [u8; 3],
    count: u8,
}

impl Model for Tag {
    ghost use Rattle.std.specs.Prelude.{ℕ, List};

    ghost Value = { List ℕ };

    ghost use Rattle.tlv_core.specs.TagView.{octets_of_tag, tag_of_octets, IsWholeTag, tag_back};

    ghost view = { octets_of_tag };

    ghost invariant = { IsWholeTag };

    ghost inverse = { tag_of_octets };

    ghost inverse_ok = { tag_back };
}

impl Tag {
    /// Returns the tag with these octets, or `None` if they aren't one whole tag. They aren't if they are empty,
    /// begin with 00, end too early, continue after the tag, or announce a fourth octet. A second octet whose
    /// low seven bits are 0 isn't in a tag either.
    pub fn new(octets: &[u8]) -> Option<Tag>
        ensures { MatchOption result (IsTag octets.now → ⊥)
            (λ tag. IsTag octets.now × (tag ≡ octets.now)) }
    {
        if is_tag(octets) {
            Some(Tag::of(octets))
        } else {
            None
        }
    }

    /// Returns the tag with these octets.
    pub(crate) fn of(octets: &[u8]) -> Tag
        requires { IsTag octets.now }
        ensures { result ≡ octets.now }
    {
        match octets {
            [first] => Tag {
                octets: [*first, 0, 0],
                count: 1,
            },
            [first, second] => Tag {
                octets: [*first, *second, 0],
                count: 2,
            },
            [first, second, third] => Tag {
                octets: [*first, *second, *third],
                count: 3,
            },
            _ => unreachable!(),
        }
    }

    /// Returns the tag in the first `count` of three octets. It has no branch: a mask clears the octets after
    /// the tag.
    #[inline(always)]
    pub(crate) fn front(first: u8, second: u8, third: u8, count: u8) -> Tag
        requires few { count ≤ 3 }
        requires tag { IsTag (take count (first ∷ second ∷ third ∷ [])) }
        ensures { result ≡ take count (first ∷ second ∷ third ∷ []) }
    {
        let mask = (1 << (8 * u32::from(count))) - 1;
        let kept = u32::from_le_bytes([first, second, third, 0]) & mask;
        let [first, second, third, _] = kept.to_le_bytes();
        Tag {
            octets: [first, second, third],
            count,
        }
    }

    /// Returns the octets of the tag, one to three.
    pub fn octets(&self) -> &[u8]
        ensures value { result.now ≡ self.now }
        ensures tag { IsTag result.now }
    {
        &self.octets[..self.count as usize]
    }

    /// Returns the octets of the tag, with zeros after them up to three.
    #[inline(always)]
    pub fn padded(&self) -> [u8; 3]
        ensures { result ≡ padded self.now }
    {
        let Tag { octets, .. } = *self;
        octets
    }

    /// Whether the tag belongs to a constructed object: bit 6 of its first octet.
    pub fn is_constructed(&self) -> bool
        ensures { IsTrue result ↔ (constructed_bit self.now ≡ 1) }
    {
        is_constructed(self.octets[0])
    }
}

impl PartialEq for Tag {
    ghost use Rattle.std.specs.Prelude.{◌==◌};
    ghost use Rattle.std.proofs.lemmas.Cmp.{nat_list_eq_equiv};
    ghost use lib.Pointwise.{pointwise};
    ghost use Rattle.std.proofs.Common.{rules};
    ghost use Rattle.std.specs.Cmp.Rules.{comparing};

    ghost eq = { pointwise ◌==◌ };

    ghost laws = { Prim.search (comparing, rules) };

    fn eq(&self, other: &Self) -> bool {
        self.octets() == other.octets()
    }
}

impl Eq for Tag {
    ghost use Rattle.std.proofs.Common.{rules};
    ghost use Rattle.std.specs.Cmp.Rules.{comparing};

    ghost laws = { Prim.search (comparing, rules) };
}
