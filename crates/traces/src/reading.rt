//! What a text says: a trace, or its first fault.

ghost use Rattle.std.specs.Prelude.{◌≡◌, ◌<◌, ◌+◌, ◌^◌, ◌++◌, ◌∷◌, [], IfOk, IfSome, OnErr, OnOk};
ghost use Rattle.std.specs.List.{slice_split};
ghost use Rattle.trace_text.specs.Reading as reading_of_lines;
ghost use Rattle.trace_text.specs.Reading.{is_line_end};
ghost use Rattle.traces.specs.Reading as reading;
ghost use Rattle.traces.specs.declared.reading.TraceFault.TheVariants as fault;
ghost use Rattle.traces.specs.Unfit as unfit;
ghost use Rattle.traces.specs.Unfit.{item_line};
ghost use Rattle.traces.specs.Reading.{block_item, is_unchanged, item_of, item_said, least_after, nothing_taken, taken_with, trace_of, with_line, Becomes, IsEarly, UnlessMemory};

use crate::seen::whole_block;
use crate::trace::{Item, Trace};
use crate::unfit::Unfit;
use exchange_core::{ExchangeFault, Side};
use octet_core::Octets;
use std::alloc::{AllocError, Global};
use std::error::Error;
use std::fmt::{self, Display, Formatter, Write};
use std::marker::Model;
use trace_text::{Entry, Reach, entry_of, says_nothing};

/// Why a text isn't a trace that can be recorded. Lines are counted from 1.
#[derive(Clone, Copy, Debug, PartialEq, Eq)]
pub enum TraceFault {
    /// The text has a fault, or memory ran out.
    Text(ExchangeFault),
    /// What the line says can't be recorded.
    Unfit { line: usize, why: Unfit },
}

/// The fault, or the line and the reason, as in `line 3: Reset`.
impl Display for TraceFault {
    ghost use Rattle.std.specs.Prelude.{Some};
    ghost use Rattle.traces.specs.Faults.{trace_fault_text};

    ghost output = { λ fault. Some (trace_fault_text fault) };

    fn fmt<W: Write>(&self, f: &mut Formatter<W>) -> fmt::Result {
        match self {
            TraceFault::Text(fault) => write!(f, "{fault}"),
            TraceFault::Unfit { line, why } => write!(f, "line {line}: {why}"),
        }
    }
}

impl Error for TraceFault {}

impl From<ExchangeFault> for TraceFault {
    ghost use Rattle.traces.specs.declared.reading.TraceFault.{TraceFault};

    ghost from_gives = { λ fault made. made ≡ TraceFault.Text fault };

    fn from(fault: ExchangeFault) -> TraceFault {
        TraceFault::Text(fault)
    }
}

impl From<AllocError> for TraceFault {
    ghost use Rattle.exchange_text.specs.declared.fault.ExchangeFault.{ExchangeFault};
    ghost use Rattle.traces.specs.declared.reading.TraceFault.{TraceFault};

    ghost from_gives = { λ _ made. made ≡ TraceFault.Text ExchangeFault.Memory };

    fn from(_: AllocError) -> TraceFault {
        TraceFault::Text(ExchangeFault::Memory)
    }
}

/// Parses the text of a trace, and returns the trace, or the first line that is at fault or can't be recorded.
///
/// LF ends a line, and the last line needs none. [`entry_of`] says which lines there are. An item is a block, the end of
/// a waiting time, or a moment: `at N` or `until N`. Other lines say nothing, or give [`TraceFault::Unfit`]: a reset, a
/// beginning in the midst of a session, and a block that arrived as other octets or with an error of parity.
///
/// A fault of the text is `Word` or `Hex`, and `Falls` for a moment below an earlier one. If an allocation fails,
/// `Memory` can replace any result.
pub fn read_trace(alloc: Global, text: &[u8]) -> Result<Trace, TraceFault>
    ensures { UnlessMemory result (trace_of text.now) }
{
    let mut taken = Taken::new(alloc);
    for line in text.split(|octet| *octet == b'\n') {
        taken.take(alloc, line)?;
    }
    Ok(taken.end())
}

/// Returns the number, from 1, of the line of a text with the item at this place, from 0. If no line has it, returns
/// the number after the last line.
pub fn line_of_item(text: &[u8], place: usize) -> usize
    ensures { result ≡ item_line 1 place (slice_split is_line_end text.now) }
{
    let mut number = 1;
    let mut left = place;
    for line in text.split(|octet| *octet == b'\n') {
        if is_said(line, left) {
            return number;
        }
        left = left_after(line, left);
        number += 1;
    }
    number
}

/// Whether a line has the item before which so many are left.
fn is_said(line: &[u8], left: usize) -> bool
    ensures { result ≡ unfit.is_said line.now left }
{
    says_item(line) && left == 0
}

/// Returns how many items are left after a line.
fn left_after(line: &[u8], left: usize) -> usize
    ensures { result ≡ unfit.left_after line.now left }
{
    if says_item(line) {
        left.saturating_sub(1)
    } else {
        left
    }
}

/// Whether a line has an item, which it has if it has a word and isn't a remark.
fn says_item(line: &[u8]) -> bool
    ensures { result ≡ unfit.says_item line.now }
{
    !says_nothing(line)
}

/// What the lines so far say.
#[derive(Drop)]
struct Taken {
    items: Vec<Item>,
    /// The number of the next line.
    number: usize,
    /// The last moment.
    least: u64,
}

impl Model for Taken {
    ghost use Rattle.traces.specs.Reading.{Taken, Rises};

    ghost Value = { Taken };

    ghost view = { λ t. record { items = t.items.items; number = t.number; least = t.least } };

    ghost invariant = { λ t. Rises t.items.items t.least };
}

impl Taken {
    /// Returns what no lines say.
    fn new(alloc: Global) -> Taken
        ensures { result ≡ nothing_taken }
    {
        Taken {
            items: Vec::new(alloc),
            number: 1,
            least: 0,
        }
    }

    /// Takes one more line, without its line feed.
    fn take(&mut self, alloc: Global, line: &[u8]) -> Result<(), TraceFault>
        requires { self.old.number + 1 < 2 ^ 64 }
        ensures said { Becomes (with_line self.old line.now) self.new result }
        ensures number { OnOk result (self.new.number ≡ self.old.number + 1) }
    {
        let item = item_said(alloc, self.number, line)?;
        self.with(item)?;
        self.number += 1;
        Ok(())
    }

    /// Returns the trace of the lines.
    fn end(self) -> Trace
        ensures { result ≡ self.items }
    {
        Trace::rising(self.items)
    }

    /// Takes the item of a line, if it has one.
    fn with(&mut self, item: Option<Item>) -> Result<(), TraceFault>
        requires { IfSome item IsEarly }
        ensures said { Becomes (taken_with self.old item) self.new result }
        ensures number { OnOk result (self.new.number ≡ self.old.number) }
    {
        match item {
            Some(item) => self.with_item(item),
            None => Ok(()),
        }
    }

    /// Takes an item.
    fn with_item(&mut self, item: Item) -> Result<(), TraceFault>
        requires { IsEarly item }
        ensures said { Becomes (taken_with self.old (Some item)) self.new result }
        ensures number { OnOk result (self.new.number ≡ self.old.number) }
    {
        let least = least_after(self.least, &item);
        if least < self.least {
            return Err(TraceFault::Text(ExchangeFault::Falls { line: self.number }));
        }
        push(&mut self.items, item)?;
        self.least = least;
        Ok(())
    }
}

/// Returns the last moment after an item.
fn least_after(least: u64, item: &Item) -> u64
    ensures { result ≡ least_after least item.now }
{
    match item {
        Item::Moment(moment) => *moment,
        Item::Block { .. } | Item::Quiet => least,
    }
}

fn push(items: &mut Vec<Item>, item: Item) -> Result<(), AllocError>
    ensures added { OnOk result (items.new.items ≡ items.old.items ++ item ∷ []) }
    ensures kept { OnErr result (items.new.items ≡ items.old.items) }
{
    items.push(item)?;
    Ok(())
}

/// Returns the item of the line with this number, if it has one.
#[tactic(auto, unfolding(crate::specs::Reading::item_said))]
fn item_said(alloc: Global, number: usize, line: &[u8]) -> Result<Option<Item>, TraceFault>
    ensures said { UnlessMemory result (item_said number line.now) }
    ensures early { IfOk result (λ item. IfSome item IsEarly) }
{
    let entry = entry_of(alloc, number, line)?;
    item_of(number, entry)
}

/// Returns the item of what the line with this number says, or why that can't be recorded.
fn item_of(number: usize, entry: Entry) -> Result<Option<Item>, TraceFault>
    requires { reading_of_lines.IsEarly entry }
    ensures said { result ≡ item_of number entry }
    ensures early { IfOk result (λ item. IfSome item IsEarly) }
{
    match entry {
        Entry::Nothing => Ok(None),
        Entry::Block {
            from,
            octets,
            reach,
        } => block_item(number, from, octets, &reach),
        Entry::Quiet => Ok(Some(Item::Quiet)),
        Entry::Moment(moment) | Entry::Until(moment) => Ok(Some(Item::Moment(moment))),
        Entry::Reset => Err(unfit_at(number, Unfit::Reset)),
        Entry::Midway => Err(unfit_at(number, Unfit::Midway)),
    }
}

/// Returns the block of an end, if the line with this number says that it arrived as it was sent, or that it was lost.
fn block_item(
    number: usize,
    from: Side,
    octets: Octets,
    reach: &Reach,
) -> Result<Option<Item>, TraceFault>
    ensures said { result ≡ block_item number from octets reach.now }
    ensures early { IfOk result (λ item. IfSome item IsEarly) }
{
    match reach {
        Reach::Came(came) if !is_unchanged(octets.get(), came.get()) => {
            Err(unfit_at(number, Unfit::Arrived))
        }
        Reach::Parity => Err(unfit_at(number, Unfit::Arrived)),
        Reach::Unsaid | Reach::Lost | Reach::Came(_) => {
            let lost = matches!(reach, Reach::Lost);
            Ok(Some(Item::Block { from, octets, lost }))
        }
    }
}

/// Whether octets are a whole block that arrived as it was sent.
fn is_unchanged(octets: &[u8], came: &[u8]) -> bool
    ensures { result ≡ is_unchanged octets.now came.now }
{
    octets == came && whole_block(octets).is_some()
}

fn unfit_at(line: usize, why: Unfit) -> TraceFault
    ensures { result ≡ fault.Unfit line why }
{
    TraceFault::Unfit { line, why }
}
