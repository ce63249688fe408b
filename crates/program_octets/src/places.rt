//! The places of an answer's lines among the octets, as the items of a JSON array.

ghost use Rattle.std.specs.Prelude.{◌≡◌, ◌++◌, ◌<◌, ◌∷◌, [], IfOk, OnOk, slice_index, string_bytes};
ghost use Rattle.program_octets.specs.Places.{place_text, ranges_in, ranges_of, with_ranges};
ghost use Rattle.layouts.specs.Items.{with_item};

use layouts::push_separator;
use std::alloc::{AllocError, Global};

/// The octets that a line is about.
#[derive(Clone, Copy)]
pub(crate) enum Place<'a> {
    /// Octets in a row: those from the first place, and before the second.
    Range(usize, usize),
    /// The fields of so many blocks at the front of these octets.
    Fields(u32, &'a [u8]),
}

/// Appends the place of a line to the items of an array.
pub(crate) fn push_place(
    alloc: Global,
    items: &mut String,
    place: &Place<'_>,
) -> Result<(), AllocError>
    ensures { OnOk result (string_bytes items.new
        ≡ with_item (string_bytes items.old) (place_text (ranges_of place.now))) }
{
    push_separator(items)?;
    push_ranges(alloc, items, place)
}

/// Appends the ranges of a place as an array.
fn push_ranges(alloc: Global, text: &mut String, place: &Place<'_>) -> Result<(), AllocError>
    ensures { OnOk result (string_bytes text.new
        ≡ string_bytes text.old ++ place_text (ranges_of place.now)) }
{
    match place {
        Place::Range(begin, end) => write!(text, "[{begin},{end}]"),
        Place::Fields(blocks, octets) => {
            let fields = field_ranges(alloc, *blocks, octets)?;
            write!(text, "[{fields}]")
        }
    }
}

/// Returns the octets of the fields of so many blocks at the front of the octets, as ranges.
fn field_ranges(alloc: Global, blocks: u32, octets: &[u8]) -> Result<String, AllocError>
    ensures { IfOk result (λ text. string_bytes text
        ≡ with_ranges [] (ranges_in blocks 0 octets.now)) }
{
    let mut ranges = String::new(alloc);
    let mut at = 0;
    for _ in 0..blocks {
        let end = at + 3 + octet_at(octets, at + 2);
        push_range(&mut ranges, at + 3, end)?;
        at = end + 1;
    }
    Ok(ranges)
}

/// Returns the octet at a place, or 0 if there is none.
fn octet_at(octets: &[u8], place: usize) -> usize
    ensures octet { result ≡ slice_index octets.now place }
    ensures few { result < 256 }
{
    octets.get(place).copied().map_or(0, usize::from)
}

/// Appends octets in a row, those from `begin` and before `end`, to the ranges of a line.
fn push_range(ranges: &mut String, begin: usize, end: usize) -> Result<(), AllocError>
    ensures { OnOk result (string_bytes ranges.new
        ≡ with_ranges (string_bytes ranges.old) ((begin, end) ∷ [])) }
{
    push_separator(ranges)?;
    write!(ranges, "{begin},{end}")
}
