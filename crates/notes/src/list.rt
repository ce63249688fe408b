//! Notes on data object lists.

ghost use Rattle.std.specs.Prelude.{◌≡◌, ◌++◌, OnOk, string_bytes};
ghost use Rattle.notes.specs.Says.{asked_from, list_note};

use crate::text::push_counted;
use std::alloc::AllocError;
use tlv_core::Tag;

/// Appends the note on a data object list: how many octets its entries request.
pub(crate) fn push_asked(text: &mut String, entries: &[(Tag, u8)]) -> Result<(), AllocError>
    ensures { OnOk result (string_bytes text.new ≡ string_bytes text.old
        ++ list_note entries.now) }
{
    text.push_str("asks for ")?;
    push_counted(text, asked(entries))
}

/// Returns how many octets entries request, at most `usize::MAX`.
fn asked(entries: &[(Tag, u8)]) -> usize
    ensures { result ≡ asked_from 0 entries.now }
{
    let mut count: usize = 0;
    for (_, len) in entries {
        count = count.saturating_add(usize::from(*len));
    }
    count
}
