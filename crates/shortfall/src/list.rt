//! Data object lists (EMV 4.3 Book 3, clause 5.4).

ghost use Rattle.std.specs.Prelude.{◌≡◌};
ghost use Rattle.tlv_core.specs.Tag.{is_tag};
ghost use Rattle.shortfall.specs.List.{entry_least, list_least};

use tlv_core::Tag;

/// Returns how many more octets a data object list needs at least: a length after a whole tag, one more octet of the
/// tag as well after the first octets of one, and none after whole entries.
pub fn list_least(octets: &[u8]) -> usize
    ensures { result ≡ list_least octets.now }
{
    let mut start = 0;
    for at in 0..octets.len() {
        if is_tag(&octets[start..at]) {
            start = at + 1;
        }
    }
    entry_least(&octets[start..])
}

/// Returns how many more octets an entry needs at least after these, which end no later than its tag.
fn entry_least(begun: &[u8]) -> usize
    ensures { result ≡ entry_least begun.now }
{
    if begun.is_empty() {
        0
    } else if is_tag(begun) {
        1
    } else {
        2
    }
}

/// Whether octets are one whole tag.
fn is_tag(octets: &[u8]) -> bool
    ensures { result ≡ is_tag octets.now }
{
    Tag::new(octets).is_some()
}
