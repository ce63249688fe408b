//! The items of a JSON array.

ghost use Rattle.std.specs.Prelude.{◌≡◌, ◌++◌, OnOk, string_bytes};
ghost use Rattle.layouts.specs.Items.{separator};

use std::alloc::AllocError;

/// Appends what separates the items of an array from the next item.
pub fn push_separator(items: &mut String) -> Result<(), AllocError>
    ensures { OnOk result (string_bytes items.new
        ≡ string_bytes items.old ++ separator (string_bytes items.old)) }
{
    items.push_str(separator(items.as_str()))
}

/// Returns what separates the items of an array from the next item.
fn separator(items: &str) -> &'static str
    ensures { result.now ≡ separator items.now }
{
    if items.is_empty() { "" } else { "," }
}
