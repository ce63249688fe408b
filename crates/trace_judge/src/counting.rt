//! Numbers with the names of what they count.

ghost use Rattle.std.specs.Prelude.{◌≡◌, ◌++◌, OnOk, decimal, string_bytes};
ghost use Rattle.trace_judge.specs.Judging.{counted, damaged_card, damaged_terminal, time_part, with_unless_zero};

use crate::saying::push_number;
use layouts::Members;
use std::alloc::{AllocError, Global};

/// Appends a number with its name, unless that is 0.
pub(crate) fn push_time_part(
    alloc: Global,
    text: &mut String,
    name: &str,
    number: u64,
) -> Result<(), AllocError>
    ensures { OnOk result (string_bytes text.new
        ≡ string_bytes text.old ++ time_part name.now number) }
{
    if number == 0 {
        return Ok(());
    }
    push_named(alloc, text, name, number)
}

/// Appends a member with a number, unless that is 0.
#[tactic(auto, unfolding(crate::specs::Judging::with_unless_zero))]
pub(crate) fn push_unless_zero(
    alloc: Global,
    members: &mut Members,
    name: &str,
    number: u64,
) -> Result<(), AllocError>
    ensures { OnOk result (members.new ≡ with_unless_zero members.old name.now number) }
{
    if number == 0 {
        return Ok(());
    }
    members.number(alloc, name, number)
}

/// Appends how many blocks of the terminal were damaged.
#[tactic(auto, unfolding(crate::specs::Judging::damaged_terminal))]
pub(crate) fn push_damaged_terminal(
    alloc: Global,
    text: &mut String,
    damaged: u64,
) -> Result<(), AllocError>
    ensures { OnOk result (string_bytes text.new ≡ string_bytes text.old
        ++ damaged_terminal damaged) }
{
    push_named(alloc, text, ", damaged terminal ", damaged)
}

/// Appends how many blocks of the card were damaged.
#[tactic(auto, unfolding(crate::specs::Judging::damaged_card))]
pub(crate) fn push_damaged_card(
    alloc: Global,
    text: &mut String,
    damaged: u64,
) -> Result<(), AllocError>
    ensures { OnOk result (string_bytes text.new ≡ string_bytes text.old ++ damaged_card damaged) }
{
    push_named(alloc, text, " card ", damaged)
}

/// Appends a number after its name.
fn push_named(alloc: Global, text: &mut String, name: &str, number: u64) -> Result<(), AllocError>
    ensures { OnOk result (string_bytes text.new
        ≡ string_bytes text.old ++ (name.now ++ decimal number)) }
{
    text.push_str(name)?;
    push_number(alloc, text, number)
}

/// Appends a number with the name of what it counts.
pub(crate) fn push_counted(
    alloc: Global,
    text: &mut String,
    number: u64,
    name: &str,
) -> Result<(), AllocError>
    ensures { OnOk result (string_bytes text.new ≡ string_bytes text.old
        ++ counted number name.now) }
{
    push_number(alloc, text, number)?;
    text.push_str(name)?;
    if number == 1 {
        return Ok(());
    }
    text.push_str("s")
}
