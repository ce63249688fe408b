//! What the judgment says about a trace, as objects of a JSON array.

ghost use Rattle.std.specs.Prelude.{◌≡◌, IfOk, OnOk, string_bytes};
ghost use Rattle.layouts.specs.Items.{with_item};
ghost use Rattle.trace_judge.specs.Objects as objects;
ghost use Rattle.trace_judge.specs.Places.{placed};

use crate::place::Place;
use crate::saying::{due_words, side_word};
use judge_core::{After, Rule, Side};
use judge_times::{Early, Late};
use layouts::Members;
use octet_core::{Named, hex_upper};
use std::alloc::{AllocError, Global};

/// Appends the members for the end and the kind of the object.
fn push_kind(alloc: Global, members: &mut Members, side: Side, kind: &str) -> Result<(), AllocError>
    ensures { OnOk result (members.new ≡ objects.with_kind members.old side kind.now) }
{
    members.string(alloc, "end", side_word(side))?;
    members.string(alloc, "kind", kind)
}

/// Appends the same members, and the line of the trace.
fn push_line(
    alloc: Global,
    members: &mut Members,
    side: Side,
    kind: &str,
    line: u64,
) -> Result<(), AllocError>
    ensures { OnOk result (members.new ≡ objects.with_line members.old side kind.now line) }
{
    push_kind(alloc, members, side, kind)?;
    members.number(alloc, "line", line)
}

/// Appends the same members, the moment of a block if it is known, and its octets.
fn push_place(
    alloc: Global,
    members: &mut Members,
    side: Side,
    kind: &str,
    place: Place<'_>,
) -> Result<(), AllocError>
    ensures { OnOk result (members.new
        ≡ objects.with_place members.old side kind.now (placed place.entry)) }
{
    push_line(alloc, members, side, kind, place.line)?;
    push_moment(alloc, members, place.moment)?;
    let octets = hex_upper(alloc, place.octets)?;
    members.string(alloc, "octets", octets.as_str())
}

/// Appends the member for a moment, if it is known.
fn push_moment(alloc: Global, members: &mut Members, moment: Option<u64>) -> Result<(), AllocError>
    ensures { OnOk result (members.new ≡ objects.with_moment members.old moment) }
{
    match moment {
        None => Ok(()),
        Some(moment) => members.number(alloc, "moment", moment),
    }
}

/// Appends the object of a block that breaks a rule.
pub(crate) fn push_deviation(
    alloc: Global,
    items: &mut String,
    place: Place<'_>,
    number: u64,
    side: Side,
    broken: Rule,
    due: &After,
) -> Result<(), AllocError>
    ensures { OnOk result (string_bytes items.new ≡ with_item (string_bytes items.old)
        (objects.deviation_object (placed place.entry) number side broken due.now)) }
{
    let mut members = Members::new(alloc);
    let due = due_words(alloc, &due.end, due.owed)?;
    members.number(alloc, "block", number)?;
    members.string(alloc, "clause", broken.clause())?;
    members.string(alloc, "due", due.as_str())?;
    push_place(alloc, &mut members, side, "deviation", place)?;
    members.string(alloc, "rule", broken.name())?;
    members.push_to(items)
}

/// Appends the object of a block that is permitted only after unseen damage.
pub(crate) fn push_unseen(
    alloc: Global,
    items: &mut String,
    place: Place<'_>,
    number: u64,
    side: Side,
    before: u64,
) -> Result<(), AllocError>
    ensures { OnOk result (string_bytes items.new ≡ with_item (string_bytes items.old)
        (objects.unseen_object (placed place.entry) number side before)) }
{
    let mut members = Members::new(alloc);
    members.number(alloc, "before", before)?;
    members.number(alloc, "block", number)?;
    push_place(alloc, &mut members, side, "unseen", place)?;
    members.push_to(items)
}

/// Appends the object of a block of another logical connection.
pub(crate) fn push_elsewhere(
    alloc: Global,
    items: &mut String,
    place: Place<'_>,
    number: u64,
    side: Side,
) -> Result<(), AllocError>
    ensures { OnOk result (string_bytes items.new ≡ with_item (string_bytes items.old)
        (objects.elsewhere_object (placed place.entry) number side)) }
{
    let mut members = Members::new(alloc);
    members.number(alloc, "block", number)?;
    members.string(alloc, "clause", Rule::NodeAddress.clause())?;
    push_place(alloc, &mut members, side, "elsewhere", place)?;
    members.push_to(items)
}

/// Appends the object of a card that sent no block, which is permitted if the terminal's block was lost.
pub(crate) fn push_possible(
    alloc: Global,
    items: &mut String,
    line: u64,
    number: u64,
) -> Result<(), AllocError>
    ensures { OnOk result (string_bytes items.new ≡ with_item (string_bytes items.old)
        (objects.possible_object line number)) }
{
    let mut members = Members::new(alloc);
    members.number(alloc, "before", number)?;
    push_line(alloc, &mut members, Side::Card, "unseen", line)?;
    members.push_to(items)
}

/// Appends the object of a card that sent no block, although it received one.
pub(crate) fn push_certain(
    alloc: Global,
    items: &mut String,
    line: u64,
    number: u64,
) -> Result<(), AllocError>
    ensures { OnOk result (string_bytes items.new ≡ with_item (string_bytes items.old)
        (objects.certain_object line number)) }
{
    let mut members = Members::new(alloc);
    members.number(alloc, "before", number)?;
    members.string(alloc, "clause", Rule::Silence.clause())?;
    push_line(alloc, &mut members, Side::Card, "deviation", line)?;
    members.string(alloc, "rule", Rule::Silence.name())?;
    members.push_to(items)
}

/// Appends the object of a card's block that came too late after the terminal's block with the number `before`.
pub(crate) fn push_late(
    alloc: Global,
    items: &mut String,
    place: Place<'_>,
    number: u64,
    before: u64,
    late: Late,
) -> Result<(), AllocError>
    ensures { OnOk result (string_bytes items.new ≡ with_item (string_bytes items.old)
        (objects.late_object (placed place.entry) number before late)) }
{
    let mut members = Members::new(alloc);
    members.number(alloc, "after", late.elapsed)?;
    members.number(alloc, "before", before)?;
    members.number(alloc, "block", number)?;
    members.string(alloc, "clause", "11.4.3")?;
    push_place(alloc, &mut members, Side::Card, "late", place)?;
    members.number(alloc, "permitted", late.permitted)?;
    members.push_to(items)
}

/// Appends the object of a terminal's block that came too early after the block with the number `before`.
pub(crate) fn push_early(
    alloc: Global,
    items: &mut String,
    place: Place<'_>,
    number: u64,
    before: u64,
    early: Early,
) -> Result<(), AllocError>
    ensures { OnOk result (string_bytes items.new ≡ with_item (string_bytes items.old)
        (objects.early_object (placed place.entry) number before early)) }
{
    let mut members = Members::new(alloc);
    members.number(alloc, "after", early.elapsed)?;
    members.number(alloc, "before", before)?;
    members.number(alloc, "block", number)?;
    members.string(alloc, "clause", "11.4.3")?;
    push_place(alloc, &mut members, Side::Terminal, "early", place)?;
    members.number(alloc, "permitted", early.least)?;
    members.push_to(items)
}

/// Appends the object of a card that sent no block, which is permitted if the terminal sent too early.
pub(crate) fn push_unwaited(
    alloc: Global,
    items: &mut String,
    line: u64,
    number: u64,
) -> Result<(), AllocError>
    ensures { OnOk result (string_bytes items.new ≡ with_item (string_bytes items.old)
        (objects.unwaited_object line number)) }
{
    let mut members = Members::new(alloc);
    members.number(alloc, "before", number)?;
    push_line(alloc, &mut members, Side::Card, "unwaited", line)?;
    members.push_to(items)
}

/// Appends the object of octets before the first block that aren't PPS and aren't a block.
pub(crate) fn push_neither(alloc: Global, items: &mut String, number: u64) -> Result<(), AllocError>
    ensures { OnOk result (string_bytes items.new ≡ with_item (string_bytes items.old)
        (objects.neither_object number)) }
{
    let mut members = Members::new(alloc);
    members.string(alloc, "kind", "neither")?;
    members.number(alloc, "line", number)?;
    members.push_to(items)
}

/// Appends the object of PPS, with D and F.
pub(crate) fn push_pps(
    alloc: Global,
    items: &mut String,
    f: Option<u16>,
    d: Option<u16>,
) -> Result<(), AllocError>
    ensures { OnOk result (string_bytes items.new ≡ with_item (string_bytes items.old)
        (objects.pps_object f d)) }
{
    let d = rate_or_null(alloc, d)?;
    let f = rate_or_null(alloc, f)?;
    let mut members = Members::new(alloc);
    members.value("D", d.as_str())?;
    members.value("F", f.as_str())?;
    members.string(alloc, "kind", "pps")?;
    members.push_to(items)
}

/// Returns a rate, or `null` if its index is reserved.
fn rate_or_null(alloc: Global, rate: Option<u16>) -> Result<String, AllocError>
    ensures { IfOk result (λ text. string_bytes text ≡ objects.rate_or_null rate) }
{
    match rate {
        Some(rate) => format!(in alloc; "{rate}"),
        None => String::from_str(alloc, "null"),
    }
}

/// Appends the object of a rule or a state that never came.
pub(crate) fn push_never(
    alloc: Global,
    items: &mut String,
    kind: &str,
    name: &str,
) -> Result<(), AllocError>
    ensures { OnOk result (string_bytes items.new ≡ with_item (string_bytes items.old)
        (objects.never_object kind.now name.now)) }
{
    let mut members = Members::new(alloc);
    members.string(alloc, "kind", kind)?;
    members.value("never", "true")?;
    members.string(alloc, kind, name)?;
    members.push_to(items)
}
