//! Both ends on one line, and the record of what happens to them.

ghost use Rattle.std.specs.Prelude.{◌≡◌, [], ◌++◌, Ok, Err, IfOk, IfErr, OnOk, OnErr, None};
ghost use Rattle.t1_core.specs.Link as t1_link;
ghost use Rattle.t1_core.specs.Link.{new_link, tables, happens};
ghost use Rattle.t1_core.specs.Promises.{Matches};
ghost use Rattle.exchange_core.specs.Replay.{IsFound, Replays};
ghost use Rattle.exchange_core.specs.Recording.{Recording, link_of, closed, telling, as_list, event_of, call_event, change_event, recorded, IfNotMemory, IfRefused, IsLent, under_way_of, MayCall, MayReply};
ghost use Rattle.exchange_core.specs.Told.{Tells, AnswersAreReplies};
ghost use Rattle.exchange_text.specs.declared.exchange.Version.TheVariants.{One};
ghost use Rattle.exchange_core.specs.declared.event.LastTurn.TheVariants.{Nothing};
ghost use Rattle.exchange_core.specs.declared.event.Event.TheVariants.{Lose};
ghost use Rattle.exchange_core.specs.declared.event.EventFault.{EventFault};
ghost use Rattle.block_core.specs.declared.side.Side.TheVariants as side;

use crate::carrying::{Change, card_takes, copied, spelled, terminal_takes};
use crate::end::Replayed;
use crate::event::{Event, EventFault, LastTurn, RecorderFault};
use crate::params::params_of;
use atr_core::T1Params;
use block_core::Block;
use exchange_text::{Exchange, Line, Lines, Version};
use octet_core::Octets;
use std::alloc::{AllocError, Global};
use std::marker::Model;
use t1_core::laws::matched;
use t1_core::{Card, CardTurn, Terminal, TerminalTurn};

/// A new terminal and a new card on one line, and the record of what happens to them. The line has at most one block on
/// it.
///
/// Contracts see the record, and the link of `t1_core` after the events of the record (`link_of` in
/// `specs/Recording.antt`). So the law of the link is about both ends.
#[derive(Debug, Drop)]
pub struct Recorder {
    alloc: Global,
    params: T1Params,
    atr: Octets,
    terminal: Terminal,
    card: Card,
    last: LastTurn,
    lines: Vec<Line>,
}

impl Model for Recorder {
    ghost use Rattle.exchange_core.specs.Recording.{Recording, IsRecording};

    ghost Value = { Recording };

    ghost view = { λ r. record {
      atr = r.atr;
      ifsc = r.params.ifsc;
      lines = r.lines.items;
      last = r.last;
    } };

    ghost invariant = { λ r. IsRecording
        (record { atr = r.atr; ifsc = r.params.ifsc; lines = r.lines.items; last = r.last })
        r.terminal r.card };
}

impl Recorder {
    /// Returns a recorder with both ends new, for a card with this answer to reset. No block is on the line, and no
    /// line is written.
    ///
    /// Refused unless the octets are one whole answer with parameters of T=1.
    pub fn new(alloc: Global, atr: &[u8]) -> Result<Recorder, RecorderFault>
        ensures empty { IfOk result (λ r. (r.atr ≡ atr.now) × (r.lines ≡ []) × (r.last ≡ Nothing)) }
        ensures found { IfOk result (λ r. IsFound atr.now (Ok r.ifsc)) }
        ensures link { IfOk result (λ r. link_of r ≡ new_link r.ifsc) }
        ensures refused { IfErr result (λ fault. IfRefused fault
            (λ name. IsFound atr.now (Err name))) }
    {
        let params = match params_of(atr) {
            Ok(params) => params,
            Err(fault) => return Err(RecorderFault::Refused(fault)),
        };
        Ok(Recorder {
            alloc,
            params,
            atr: copied(alloc, atr)?,
            terminal: Terminal::new(alloc, params)?,
            card: Card::new(alloc, params)?,
            last: LastTurn::Nothing,
            lines: Vec::new(alloc),
        })
    }

    /// Returns the terminal in its present state.
    pub fn terminal(&self) -> &Terminal
        ensures { result.now ≡ (link_of self.now).terminal }
    {
        &self.terminal
    }

    /// Returns the card in its present state.
    pub fn card(&self) -> &Card
        ensures { result.now ≡ (link_of self.now).card }
    {
        &self.card
    }

    /// Returns the result of the last event that wasn't refused.
    pub fn last(&self) -> &LastTurn
        ensures { result.now ≡ self.now.last }
    {
        &self.last
    }

    /// Returns the block on the line, or `None` if there is none.
    pub fn under_way(&self) -> Option<&Block>
        ensures link { IsLent result (link_of self.now).under_way }
        ensures last { IsLent result (under_way_of self.now.last) }
    {
        match &self.last {
            LastTurn::Terminal(TerminalTurn::Send(block)) => Some(block),
            LastTurn::Card(CardTurn::Send(block)) => Some(block),
            _ => None,
        }
    }

    /// Makes an event happen, as on the link, and writes it down.
    ///
    /// An event of the line is refused if no block is on the line. A call is refused as its end refuses it. After a
    /// refusal, and if memory runs out, nothing has changed and nothing is written.
    pub fn happens(&mut self, event: Event<'_>) -> Result<(), EventFault>
        ensures recorded { OnOk result (recorded self.old (event_of event.entry) ≡ Ok self.new) }
        ensures link { OnOk result
            (link_of self.new ≡ happens tables (link_of self.old) (event_of event.entry)) }
        ensures refused { IfErr result (λ fault. IfNotMemory fault
            (recorded self.old (event_of event.entry) ≡ Err fault)) }
        ensures kept { OnErr result (self.new ≡ self.old) }
    {
        match event {
            Event::Deliver => self.carries(Change::Kept),
            Event::Damage => self.carries(Change::Damaged),
            Event::Spoil => self.carries(Change::Spoilt),
            Event::Lose => self.loses(),
            Event::Transmit(command) => {
                let octets = copied(self.alloc, command)?;
                self.calls_terminal(Line::Command(octets))
            }
            Event::AskIfsd(size) => self.calls_terminal(Line::Ifsd(size)),
            Event::Reply(reply) => {
                let octets = copied(self.alloc, reply)?;
                self.calls_card(Line::Reply(octets))
            }
            Event::MoreTime(multiple) => self.calls_card(Line::Time(multiple)),
            Event::AskIfsc(size) => self.calls_card(Line::Ifsc(size)),
        }
    }

    /// Returns the record, in version 1. A block that is still on the line is written as lost.
    ///
    /// The record replays at both ends, and says what happened at each: an `answer` line has the octets of the `reply`
    /// line to the same command. If memory for its last line runs out, the record is gone.
    pub fn exchange(self) -> Result<Exchange, AllocError>
        ensures is { IfOk result (λ e.
            e ≡ record { version = One; atr = self.atr; lines = closed self }) }
        ensures terminal { IfOk result (λ e. Replays e.atr e.lines side.Terminal None) }
        ensures card { IfOk result (λ e. Replays e.atr e.lines side.Card None) }
        ensures told { IfOk result (λ e. Tells e.lines (link_of self)) }
        ensures replies { IfOk result (λ e. AnswersAreReplies e.lines) }
    {
        let last = last_line(self.alloc, &self.terminal, &self.card, &self.last)?;
        let lines = Lines::of(with_line(self.lines, last)?);
        Ok(Exchange::proper(Version::One, self.atr, lines))
    }

    /// Loses the block on the line, and ends the terminal's waiting time.
    fn loses(&mut self) -> Result<(), EventFault>
        ensures recorded { OnOk result (recorded self.old (event_of Lose) ≡ Ok self.new) }
        ensures link { OnOk result
            (link_of self.new ≡ happens tables (link_of self.old) (event_of Lose)) }
        ensures refused { IfErr result (λ fault. IfNotMemory fault
            (recorded self.old (event_of Lose) ≡ Err fault)) }
        ensures kept { OnErr result (self.new ≡ self.old) }
    {
        if self.under_way().is_none() {
            return Err(EventFault::NothingUnderWay);
        }
        self.calls_terminal(Line::Quiet)
    }

    /// Calls the terminal with a line. A block that is still on the line counts as lost.
    fn calls_terminal(&mut self, line: Line) -> Result<(), EventFault>
        requires { MayCall self.old.last line }
        ensures recorded { OnOk result (recorded self.old (call_event line) ≡ Ok self.new) }
        ensures link { OnOk result
            (link_of self.new ≡ happens tables (link_of self.old) (call_event line)) }
        ensures refused { IfErr result (λ fault. IfNotMemory fault
            (recorded self.old (call_event line) ≡ Err fault)) }
        ensures kept { OnErr result (self.new ≡ self.old) }
    {
        let last = last_line(self.alloc, &self.terminal, &self.card, &self.last)?;
        let turn = terminal_takes(&mut self.terminal, &mut self.lines, last, line)?;
        self.last = LastTurn::Terminal(turn);
        Ok(())
    }

    /// Calls the card with a line, for its host.
    fn calls_card(&mut self, line: Line) -> Result<(), EventFault>
        requires { MayReply line }
        ensures recorded { OnOk result (recorded self.old (call_event line) ≡ Ok self.new) }
        ensures link { OnOk result
            (link_of self.new ≡ happens tables (link_of self.old) (call_event line)) }
        ensures refused { IfErr result (λ fault. IfNotMemory fault
            (recorded self.old (call_event line) ≡ Err fault)) }
        ensures kept { OnErr result (self.new ≡ self.old) }
    {
        let last = last_line(self.alloc, &self.terminal, &self.card, &self.last)?;
        let turn = card_takes(&mut self.card, &mut self.lines, last, line)?;
        self.last = LastTurn::Card(turn);
        Ok(())
    }

    /// Carries the block on the line to its receiver, with this change.
    fn carries(&mut self, change: Change) -> Result<(), EventFault>
        ensures recorded { OnOk result (recorded self.old (change_event change) ≡ Ok self.new) }
        ensures link { OnOk result
            (link_of self.new ≡ happens tables (link_of self.old) (change_event change)) }
        ensures refused { IfErr result (λ fault. IfNotMemory fault
            (recorded self.old (change_event change) ≡ Err fault)) }
        ensures kept { OnErr result (self.new ≡ self.old) }
    {
        match &self.last {
            LastTurn::Terminal(TerminalTurn::Send(block)) => {
                let sent = spelled(self.alloc, block)?;
                let arrival = change.arrival(self.alloc, block)?;
                let line = Line::FromTerminal { sent, arrival };
                let turn = card_takes(&mut self.card, &mut self.lines, None, line)?;
                self.last = LastTurn::Card(turn);
                Ok(())
            }
            LastTurn::Card(CardTurn::Send(block)) => {
                let sent = spelled(self.alloc, block)?;
                let arrival = change.arrival(self.alloc, block)?;
                let line = Line::FromCard { sent, arrival };
                let turn = terminal_takes(&mut self.terminal, &mut self.lines, None, line)?;
                self.last = LastTurn::Terminal(turn);
                Ok(())
            }
            _ => Err(EventFault::NothingUnderWay),
        }
    }
}

/// Returns the line of the last turn, if there was one. If it sends a block, the block is lost.
pub fn last_line(
    alloc: Global,
    terminal: &Terminal,
    card: &Card,
    last: &LastTurn,
) -> Result<Option<Line>, AllocError>
    ensures { IfOk result (λ line. as_list line ≡ telling terminal.now card.now last.now) }
{
    match last {
        LastTurn::Nothing => Ok(None),
        LastTurn::Terminal(turn) => Ok(Some(terminal.given(turn).lost(alloc)?)),
        LastTurn::Card(turn) => Ok(Some(card.given(turn).lost(alloc)?)),
    }
}

/// Returns the lines, and one more line after them if there is one.
fn with_line(mut lines: Vec<Line>, last: Option<Line>) -> Result<Vec<Line>, AllocError>
    ensures { IfOk result (λ longer. longer.items ≡ lines.items ++ as_list last) }
{
    if let Some(last) = last {
        lines.push(last)?;
    }
    Ok(lines)
}

/// A refused event changes nothing at the link either.
pub fn refused_event_changes_nothing()
    ensures { (r : Recording) (event : t1_link.Event) (fault : EventFault)
        → recorded r event ≡ Err fault → happens tables (link_of r) event ≡ link_of r }
{}

/// Whatever happens, each answer of the terminal is the reply of the card's host to that command, in order. The host
/// gets no command twice.
pub fn answers_are_replies()
    ensures { (r : Recording) → Matches (link_of r).exchanges (link_of r).services }
{
    matched();
}
