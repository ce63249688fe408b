//! What the applications said, from the blocks that are still to come.

ghost use Rattle.std.specs.Prelude.{◌≡◌, false, IfOk, option_copied};
ghost use Rattle.traces.specs.Said as spec;
ghost use Rattle.traces.specs.Said.{application_is_cut, application_line, begun, closed, first_block, host_is_cut, host_line, is_cut, is_next, is_resynch, joins, number_of, numbers_after, takes, turns_over, with_number};

use crate::seen::Seen;
use block_core::{BlockRef, Number, Pcb, S};
use exchange_core::{Line, Side};
use octet_core::Octets;
use std::alloc::{AllocError, Global};
use std::marker::Model;

/// The octet that stands for octets that nobody saw.
const UNSEEN: u8 = 0;

/// The numbers of the last I-blocks of each end that were seen.
#[derive(Clone, Copy)]
pub(crate) struct Numbers {
    pub(crate) terminal: Number,
    pub(crate) card: Number,
}

impl Numbers {
    /// Returns the numbers before any I-block, and after RESYNCH, as if the last I-block of each end had the number 1.
    pub(crate) fn new() -> Numbers
        ensures { result ≡ spec.at_first }
    {
        Numbers {
            terminal: Number::One,
            card: Number::One,
        }
    }

    /// Returns the number of an end.
    fn of(self, side: Side) -> Number
        ensures { result ≡ number_of side self }
    {
        match side {
            Side::Terminal => self.terminal,
            Side::Card => self.card,
        }
    }

    /// Returns the numbers after what was seen.
    pub(crate) fn after(self, seen: &Seen<'_>) -> Numbers
        ensures { result ≡ numbers_after self seen.now }
    {
        let Some((side, block)) = seen.block() else {
            return self;
        };
        match block.pcb() {
            Pcb::Info { number, .. } => self.with(side, number),
            Pcb::Request(S::Resynch) | Pcb::Response(S::Resynch) => Numbers::new(),
            _ => self,
        }
    }

    /// Returns the numbers with this number for an end.
    fn with(self, side: Side, number: Number) -> Numbers
        ensures { result ≡ with_number self side number }
    {
        match side {
            Side::Terminal => Numbers {
                terminal: number,
                card: self.card,
            },
            Side::Card => Numbers {
                terminal: self.terminal,
                card: number,
            },
        }
    }
}

/// How much of a message was seen.
#[derive(Drop)]
struct Said {
    /// The end that sends the message.
    from: Side,
    /// The number of the other end's last I-block before the message.
    last: Number,
    /// The number of the message's next block. The first one may have either number.
    next: Option<Number>,
    octets: Vec<u8>,
    /// Whether the last block said that more follows.
    more_comes: bool,
}

impl Model for Said {
    ghost use Rattle.traces.specs.Said.{Said};

    ghost Value = { Said };

    ghost view = { λ s. record {
      from = s.from;
      last = s.last;
      next = s.next;
      octets = s.octets.items;
      more_comes = s.more_comes;
    } };
}

impl Said {
    /// Returns a message of which nothing was seen yet.
    fn new(alloc: Global, from: Side, numbers: Numbers) -> Said
        ensures { result ≡ begun from numbers }
    {
        Said {
            from,
            last: numbers.of(from.other()),
            next: None,
            octets: Vec::new(alloc),
            more_comes: false,
        }
    }

    /// Takes what was seen, and says whether the message ends with it.
    fn takes(&mut self, seen: &Seen<'_>) -> Result<bool, AllocError>
        ensures { IfOk result (λ ends. takes self.old seen.now ≡ (self.new, ends)) }
    {
        match seen.block() {
            None => Ok(false),
            Some((side, block)) if side.is(self.from) => self.joins(block),
            Some((_, block)) => Ok(turns_over(self.last, block.pcb())),
        }
    }

    /// Takes a block of the message's end, and joins it if it is the next I-block.
    fn joins(&mut self, block: &BlockRef<'_>) -> Result<bool, AllocError>
        ensures { IfOk result (λ ends.
            joins self.old block.now.inf block.now.pcb ≡ (self.new, ends)) }
    {
        match block.pcb() {
            Pcb::Info { number, more } if is_next(self.next, number) => {
                self.octets.extend_from_slice(block.inf())?;
                self.next = Some(number.other());
                self.more_comes = more;
                Ok(!more)
            }
            pcb => Ok(is_resynch(pcb)),
        }
    }

    /// Returns the message. If more was to come, one octet stands for what nobody saw.
    fn closed(mut self) -> Result<Spoken, AllocError>
        ensures octets { IfOk result (λ message. message.octets ≡ closed self) }
        ensures cut { IfOk result (λ message. message.is_cut ≡ self.more_comes) }
    {
        let is_cut = self.more_comes;
        if is_cut {
            self.octets.push(UNSEEN)?;
        }
        let octets = Octets::of(self.octets);
        Ok(Spoken { octets, is_cut })
    }
}

/// What the I-blocks of an end say.
#[derive(Drop)]
struct Spoken {
    octets: Octets,
    /// Whether more was to come, so that the last octet stands for what nobody saw.
    is_cut: bool,
}

/// A call of an application.
#[derive(Drop)]
pub(crate) struct Call {
    pub(crate) line: Line,
    /// Whether nobody saw the end of its message.
    pub(crate) is_cut: bool,
}

impl Call {
    /// Returns a call whose message, if it has one, was seen whole.
    fn whole(line: Line) -> Call
        ensures { result ≡ record { line = line; is_cut = false } }
    {
        Call {
            line,
            is_cut: false,
        }
    }
}

/// Returns what the I-blocks of an end say from these items on.
fn message(
    alloc: Global,
    from: Side,
    numbers: Numbers,
    items: &[Seen<'_>],
) -> Result<Spoken, AllocError>
    ensures octets { IfOk result (λ message. message.octets ≡ spec.message from numbers items.now) }
    ensures cut { IfOk result (λ message. message.is_cut ≡ is_cut from numbers items.now) }
{
    let mut said = Said::new(alloc, from, numbers);
    let mut rest = items;
    while let [seen, after @ ..] = rest {
        if said.takes(seen)? {
            return said.closed();
        }
        rest = after;
    }
    said.closed()
}

/// Returns the first block of an end from these items on, before the other end goes on to something else.
fn first_block<'a, 'b>(from: Side, last: Number, items: &'a [Seen<'b>]) -> Option<&'a BlockRef<'b>>
    ensures { option_copied result ≡ first_block from last items.now }
{
    let mut rest = items;
    while let [seen, after @ ..] = rest {
        if let Some((side, block)) = seen.block() {
            if side.is(from) {
                return Some(block);
            }
            if turns_over(last, block.pcb()) {
                return None;
            }
        }
        rest = after;
    }
    None
}

/// Returns what the card's host says next, from the card's blocks in these items.
pub(crate) fn host_call(
    alloc: Global,
    numbers: Numbers,
    items: &[Seen<'_>],
) -> Result<Call, AllocError>
    ensures line { IfOk result (λ call. call.line ≡ host_line numbers items.now) }
    ensures cut { IfOk result (λ call. call.is_cut ≡ host_is_cut numbers items.now) }
{
    if let Some(block) = first_block(Side::Card, numbers.terminal, items) {
        match block.pcb() {
            Pcb::Request(S::Ifs) => return Ok(Call::whole(Line::Ifsc(block.inf()[0]))),
            Pcb::Request(S::Wtx) => return Ok(Call::whole(Line::Time(block.inf()[0]))),
            _ => {}
        }
    }
    let Spoken { octets, is_cut } = message(alloc, Side::Card, numbers, items)?;
    let line = Line::Reply(octets);
    Ok(Call { line, is_cut })
}

/// Returns what the application says next, from the terminal's blocks in these items.
pub(crate) fn application_call(
    alloc: Global,
    numbers: Numbers,
    items: &[Seen<'_>],
) -> Result<Call, AllocError>
    ensures line { IfOk result (λ call. call.line ≡ application_line numbers items.now) }
    ensures cut { IfOk result (λ call. call.is_cut ≡ application_is_cut numbers items.now) }
{
    if let Some(block) = first_block(Side::Terminal, numbers.card, items) {
        if matches!(block.pcb(), Pcb::Request(S::Ifs)) {
            return Ok(Call::whole(Line::Ifsd(block.inf()[0])));
        }
    }
    let Spoken { octets, is_cut } = message(alloc, Side::Terminal, numbers, items)?;
    let line = Line::Command(octets);
    Ok(Call { line, is_cut })
}

/// Whether a block ends what the other end says: an I-block with another number than the last one, a response, or
/// RESYNCH.
fn turns_over(last: Number, pcb: Pcb) -> bool
    ensures { result ≡ turns_over last pcb }
{
    match pcb {
        Pcb::Info { number, .. } => number != last,
        Pcb::Response(_) | Pcb::Request(S::Resynch) => true,
        Pcb::Request(_) | Pcb::Ready { .. } => false,
    }
}

/// Whether a number is the next one, if that is known.
fn is_next(next: Option<Number>, number: Number) -> bool
    ensures { result ≡ is_next next number }
{
    match next {
        Some(next) => number == next,
        None => true,
    }
}

/// Whether a block asks for RESYNCH, or answers it.
pub(crate) fn is_resynch(pcb: Pcb) -> bool
    ensures { result ≡ is_resynch pcb }
{
    matches!(pcb, Pcb::Request(S::Resynch) | Pcb::Response(S::Resynch))
}
