//! What the judgment says about a trace, as a line or as an object.

ghost use Rattle.std.specs.Prelude.{◌≡◌, OnOk, string_bytes};
ghost use Rattle.trace_judge.specs.Telling.{with_certain, with_deviation, with_early, with_elsewhere, with_late, with_neither, with_possible, with_unseen, with_unwaited};
ghost use Rattle.trace_judge.specs.Places.{placed};

use crate::place::Place;
use crate::{objects, saying};
use judge_core::{After, Rule, Side};
use judge_times::{Early, Late};
use layouts::Layout;
use std::alloc::{AllocError, Global};

/// Says that a block breaks a rule.
pub(crate) fn tell_deviation(
    alloc: Global,
    text: &mut String,
    layout: Layout,
    place: Place<'_>,
    number: u64,
    side: Side,
    broken: Rule,
    due: &After,
) -> Result<(), AllocError>
    ensures { OnOk result (string_bytes text.new
        ≡ with_deviation layout (string_bytes text.old) (placed place.entry) number side broken due.now) }
{
    match layout {
        Layout::Lines => saying::push_deviation(alloc, text, number, side, broken, due),
        Layout::Json => objects::push_deviation(alloc, text, place, number, side, broken, due),
    }
}

/// Says that a block is permitted only after unseen damage.
pub(crate) fn tell_unseen(
    alloc: Global,
    text: &mut String,
    layout: Layout,
    place: Place<'_>,
    number: u64,
    side: Side,
    before: u64,
) -> Result<(), AllocError>
    ensures { OnOk result (string_bytes text.new
        ≡ with_unseen layout (string_bytes text.old) (placed place.entry) number side before) }
{
    match layout {
        Layout::Lines => saying::push_unseen(alloc, text, number, side, before),
        Layout::Json => objects::push_unseen(alloc, text, place, number, side, before),
    }
}

/// Says that a block is of another logical connection, and isn't judged.
pub(crate) fn tell_elsewhere(
    alloc: Global,
    text: &mut String,
    layout: Layout,
    place: Place<'_>,
    number: u64,
    side: Side,
) -> Result<(), AllocError>
    ensures { OnOk result (string_bytes text.new
        ≡ with_elsewhere layout (string_bytes text.old) (placed place.entry) number side) }
{
    match layout {
        Layout::Lines => saying::push_elsewhere(alloc, text, number, side),
        Layout::Json => objects::push_elsewhere(alloc, text, place, number, side),
    }
}

/// Says that a card sent no block, which is permitted if the terminal's block was lost.
pub(crate) fn tell_possible(
    alloc: Global,
    text: &mut String,
    layout: Layout,
    line: u64,
    number: u64,
) -> Result<(), AllocError>
    ensures { OnOk result (string_bytes text.new
        ≡ with_possible layout (string_bytes text.old) line number) }
{
    match layout {
        Layout::Lines => saying::push_possible(alloc, text, number),
        Layout::Json => objects::push_possible(alloc, text, line, number),
    }
}

/// Says that a card sent no block, although it received one.
pub(crate) fn tell_certain(
    alloc: Global,
    text: &mut String,
    layout: Layout,
    line: u64,
    number: u64,
) -> Result<(), AllocError>
    ensures { OnOk result (string_bytes text.new
        ≡ with_certain layout (string_bytes text.old) line number) }
{
    match layout {
        Layout::Lines => saying::push_certain(alloc, text, number),
        Layout::Json => objects::push_certain(alloc, text, line, number),
    }
}

/// Says that a card's block came too late after the terminal's block with the number `before`.
pub(crate) fn tell_late(
    alloc: Global,
    text: &mut String,
    layout: Layout,
    place: Place<'_>,
    number: u64,
    before: u64,
    late: Late,
) -> Result<(), AllocError>
    ensures { OnOk result (string_bytes text.new
        ≡ with_late layout (string_bytes text.old) (placed place.entry) number before late) }
{
    match layout {
        Layout::Lines => saying::push_late(alloc, text, number, before, late),
        Layout::Json => objects::push_late(alloc, text, place, number, before, late),
    }
}

/// Says that a terminal's block came too early after the block with the number `before`.
pub(crate) fn tell_early(
    alloc: Global,
    text: &mut String,
    layout: Layout,
    place: Place<'_>,
    number: u64,
    before: u64,
    early: Early,
) -> Result<(), AllocError>
    ensures { OnOk result (string_bytes text.new
        ≡ with_early layout (string_bytes text.old) (placed place.entry) number before early) }
{
    match layout {
        Layout::Lines => saying::push_early(alloc, text, number, before, early),
        Layout::Json => objects::push_early(alloc, text, place, number, before, early),
    }
}

/// Says that a card sent no block, which is permitted if the terminal sent too early.
pub(crate) fn tell_unwaited(
    alloc: Global,
    text: &mut String,
    layout: Layout,
    line: u64,
    number: u64,
) -> Result<(), AllocError>
    ensures { OnOk result (string_bytes text.new
        ≡ with_unwaited layout (string_bytes text.old) line number) }
{
    match layout {
        Layout::Lines => saying::push_unwaited(alloc, text, number),
        Layout::Json => objects::push_unwaited(alloc, text, line, number),
    }
}

/// Says that octets before the first block aren't PPS and aren't a block.
pub(crate) fn tell_neither(
    alloc: Global,
    text: &mut String,
    layout: Layout,
    number: u64,
) -> Result<(), AllocError>
    ensures { OnOk result (string_bytes text.new
        ≡ with_neither layout (string_bytes text.old) number) }
{
    match layout {
        Layout::Lines => saying::push_neither(alloc, text, number),
        Layout::Json => objects::push_neither(alloc, text, number),
    }
}
