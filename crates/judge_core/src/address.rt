//! The node addresses of a session (ISO/IEC 7816-3:2006, 11.3.2.1).

ghost use Rattle.std.specs.Prelude.{◌≡◌, ◌&&◌, ◌||◌, ◌==◌};
ghost use Rattle.judge_core.specs.Classes.{seen_of};
ghost use Rattle.judge_core.specs.Monitored.{addressed_by, is_address, is_no_block, is_other, nad_after, nad_of, opened_by, pair_of};

use crate::class::Class;
use crate::connection::Pairs;
use block_core::Side;

/// Whether a block has the node address that the first block set.
pub(crate) fn addressed_by(from: Side, nad: Option<u8>, class: &Class<'_>) -> bool
    ensures { result ≡ addressed_by from nad (seen_of class.now) }
{
    match (class, nad) {
        (Class::Whole(block), Some(first)) => {
            is_address(block.nad()) && nad_of(from, block.nad()) == first
        }
        (Class::Whole(block), None) => is_address(block.nad()),
        (Class::Malformed(_) | Class::Damage, _) => true,
    }
}

pub(crate) fn nad_after(from: Side, nad: Option<u8>, class: &Class<'_>) -> Option<u8>
    ensures { result ≡ nad_after from nad (seen_of class.now) }
{
    match (class, nad) {
        (Class::Whole(block), None) if is_address(block.nad()) => Some(nad_of(from, block.nad())),
        _ => nad,
    }
}

/// Whether octets are a block with a pair of node addresses that isn't the first one.
pub(crate) fn is_other(from: Side, nad: Option<u8>, class: &Class<'_>) -> bool
    ensures { result ≡ is_other from nad (seen_of class.now) }
{
    match (class, nad) {
        (Class::Whole(block), Some(first)) => {
            is_address(block.nad()) && nad_of(from, block.nad()) != first
        }
        (Class::Whole(_), None) | (Class::Malformed(_) | Class::Damage, _) => false,
    }
}

/// Returns the pair of a block, or 0.
pub(crate) fn pair_of(from: Side, class: &Class<'_>) -> u8
    ensures { result ≡ pair_of from (seen_of class.now) }
{
    match class {
        Class::Whole(block) => nad_of(from, block.nad()),
        Class::Malformed(_) | Class::Damage => 0,
    }
}

/// Returns the pairs with that of this block, if it isn't the first one.
pub(crate) fn opened_by(from: Side, nad: Option<u8>, pairs: Pairs, class: &Class<'_>) -> Pairs
    ensures { result ≡ opened_by from nad pairs (seen_of class.now) }
{
    if is_other(from, nad, class) {
        pairs.with(pair_of(from, class))
    } else {
        pairs
    }
}

/// Whether octets aren't a block, so that nobody knows their pair.
pub(crate) fn is_no_block(class: &Class<'_>) -> bool
    ensures { result ≡ is_no_block (seen_of class.now) }
{
    !matches!(class, Class::Whole(_))
}

/// Whether both addresses in a node address differ or are 0, and bits 4 and 8 are 0 (11.3.2.1).
fn is_address(nad: u8) -> bool
    ensures { result ≡ is_address nad }
{
    nad & 0x88 == 0 && (nad == 0 || nad / 16 != nad % 16)
}

/// Returns the node address of the terminal's blocks, from that of a block of this end. An answer has its halves
/// swapped (11.3.2.1).
fn nad_of(from: Side, nad: u8) -> u8
    ensures { result ≡ nad_of from nad }
{
    match from {
        Side::Terminal => nad,
        Side::Card => (nad % 16) * 16 + nad / 16,
    }
}
