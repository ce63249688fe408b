//! Both ends, and the lines of what they did.

ghost use Rattle.std.specs.Prelude.{◌≡◌, None, OnOk, IfOk};
ghost use Rattle.exchange_core.specs.Recording.{as_list};
ghost use Rattle.traces.specs.Following as following;
ghost use Rattle.traces.specs.Following.{begun, card_did, card_hears, ended, released, settled_card, settled_terminal, terminal_did, terminal_hears, writes};
ghost use Rattle.traces.specs.Unseen.{ending, noted, settling_card, settling_terminal};

use crate::said::Numbers;
use crate::standing::Standing;
use atr_core::T1Params;
use exchange_core::{Arrival, LastTurn, Line, card_called, last_line, spelled, terminal_called};
use std::alloc::{AllocError, Global};
use std::marker::Model;
use t1_core::{Card, CardFault, CardTurn, Terminal, TerminalFault, TerminalTurn};

/// A new terminal and a new card that follow what was seen, and the lines so far.
#[derive(Drop)]
pub(crate) struct Follower {
    pub(crate) alloc: Global,
    pub(crate) terminal: Terminal,
    pub(crate) card: Card,
    pub(crate) terminal_is: Standing,
    pub(crate) card_is: Standing,
    /// The numbers of the last I-blocks that were seen.
    pub(crate) numbers: Numbers,
    /// The last moment, if no line has it yet.
    pub(crate) held: Option<u64>,
    lines: Vec<Line>,
}

impl Model for Follower {
    ghost use Rattle.traces.specs.Following.{Following};

    ghost Value = { Following };

    ghost view = { λ f. record {
      terminal = f.terminal;
      card = f.card;
      terminal_is = f.terminal_is;
      card_is = f.card_is;
      numbers = f.numbers;
      held = f.held;
      lines = f.lines.items;
    } };
}

impl Follower {
    /// Returns a follower with both ends new, with these parameters, and no line.
    pub(crate) fn new(alloc: Global, params: T1Params) -> Result<Follower, AllocError>
        ensures { IfOk result (λ f. f ≡ begun params.ifsc) }
    {
        Ok(Follower {
            alloc,
            terminal: Terminal::new(alloc, params)?,
            card: Card::new(alloc, params)?,
            terminal_is: Standing::Waits,
            card_is: Standing::Waits,
            numbers: Numbers::new(),
            held: None,
            lines: Vec::new(alloc),
        })
    }

    /// Writes a line.
    pub(crate) fn write(&mut self, line: Line) -> Result<(), AllocError>
        ensures { OnOk result (self.new ≡ writes self.old line) }
    {
        self.lines.push(line)?;
        Ok(())
    }

    /// Writes the line of a turn, if it has one.
    fn tell(&mut self, told: Option<Line>) -> Result<(), AllocError>
        ensures { OnOk result (self.new ≡ following.adds self.old (as_list told)) }
    {
        if let Some(line) = told {
            self.lines.push(line)?;
        }
        Ok(())
    }

    /// Writes the last moment, if no line has it yet.
    #[tactic(auto, unfolding(crate::specs::Following::released))]
    pub(crate) fn release(&mut self) -> Result<(), AllocError>
        ensures { OnOk result (self.new ≡ released self.old) }
    {
        if let Some(moment) = self.held {
            self.lines.push(Line::Moment(moment))?;
            self.held = None;
        }
        Ok(())
    }

    /// Writes a line, and calls the terminal with it.
    #[tactic(auto, unfolding(crate::specs::Following::terminal_hears))]
    pub(crate) fn terminal_hears(&mut self, line: Line) -> Result<(), AllocError>
        ensures { OnOk result (self.new ≡ terminal_hears self.old line) }
    {
        let called = terminal_called(&mut self.terminal, &line);
        self.write(line)?;
        self.terminal_did(called)
    }

    /// Takes the result of a call of the terminal. It keeps a block that the terminal sends, and writes the line of
    /// another turn. After a refusal the terminal isn't followed any more.
    fn terminal_did(
        &mut self,
        called: Result<TerminalTurn, TerminalFault>,
    ) -> Result<(), AllocError>
        ensures { OnOk result (self.new ≡ terminal_did self.old called) }
    {
        match called {
            Ok(TerminalTurn::Send(block)) => {
                self.terminal_is = Standing::Sends(block);
                Ok(())
            }
            Ok(turn) => {
                self.terminal_is = Standing::Waits;
                let last = LastTurn::Terminal(turn);
                let told = last_line(self.alloc, &self.terminal, &self.card, &last)?;
                self.tell(told)
            }
            Err(_) => {
                self.terminal_is = Standing::Left;
                Ok(())
            }
        }
    }

    /// Writes a line, and calls the card with it.
    #[tactic(auto, unfolding(crate::specs::Following::card_hears))]
    pub(crate) fn card_hears(&mut self, line: Line) -> Result<(), AllocError>
        ensures { OnOk result (self.new ≡ card_hears self.old line) }
    {
        let called = card_called(&mut self.card, &line);
        self.write(line)?;
        self.card_did(called)
    }

    /// Takes the result of a call of the card. It keeps a block that the card sends, and writes the line of another
    /// turn. After a refusal the card isn't followed any more.
    fn card_did(&mut self, called: Result<CardTurn, CardFault>) -> Result<(), AllocError>
        ensures { OnOk result (self.new ≡ card_did self.old called) }
    {
        match called {
            Ok(CardTurn::Send(block)) => {
                self.card_is = Standing::Sends(block);
                Ok(())
            }
            Ok(turn) => {
                self.card_is = Standing::Waits;
                let last = LastTurn::Card(turn);
                let told = last_line(self.alloc, &self.terminal, &self.card, &last)?;
                self.tell(told)
            }
            Err(_) => {
                self.card_is = Standing::Left;
                Ok(())
            }
        }
    }

    /// Adds the place of the next line to `unseen`, if nobody saw on the line what it says.
    pub(crate) fn note_if(&self, is_unseen: bool, unseen: &mut Vec<usize>) -> Result<(), AllocError>
        ensures { OnOk result
            (unseen.new.items ≡ noted is_unseen self.now unseen.old.items) }
    {
        if is_unseen {
            unseen.push(self.lines.len())?;
        }
        Ok(())
    }

    /// Writes a block of the terminal that wasn't seen as lost.
    #[tactic(auto, unfolding(crate::specs::Following::settled_terminal))]
    pub(crate) fn settle_terminal(&mut self, unseen: &mut Vec<usize>) -> Result<(), AllocError>
        ensures follows { OnOk result (self.new ≡ settled_terminal self.old) }
        ensures unseen { OnOk result
            (unseen.new.items ≡ settling_terminal self.old unseen.old.items) }
    {
        self.note_if(self.terminal_is.is_sending(), unseen)?;
        if let Standing::Sends(block) = &self.terminal_is {
            let sent = spelled(self.alloc, block)?;
            let arrival = Arrival::Lost;
            self.terminal_is = Standing::Waits;
            self.write(Line::FromTerminal { sent, arrival })?;
        }
        Ok(())
    }

    /// Writes a block of the card that wasn't seen as lost.
    #[tactic(auto, unfolding(crate::specs::Following::settled_card))]
    pub(crate) fn settle_card(&mut self, unseen: &mut Vec<usize>) -> Result<(), AllocError>
        ensures follows { OnOk result (self.new ≡ settled_card self.old) }
        ensures unseen { OnOk result
            (unseen.new.items ≡ settling_card self.old unseen.old.items) }
    {
        self.note_if(self.card_is.is_sending(), unseen)?;
        if let Standing::Sends(block) = &self.card_is {
            let sent = spelled(self.alloc, block)?;
            let arrival = Arrival::Lost;
            self.card_is = Standing::Waits;
            self.write(Line::FromCard { sent, arrival })?;
        }
        Ok(())
    }

    /// Ends the lines: blocks that weren't seen are lost.
    pub(crate) fn end(&mut self, unseen: &mut Vec<usize>) -> Result<(), AllocError>
        ensures follows { OnOk result (self.new ≡ ended self.old) }
        ensures unseen { OnOk result (unseen.new.items ≡ ending self.old unseen.old.items) }
    {
        self.settle_terminal(unseen)?;
        self.settle_card(unseen)?;
        self.release()
    }

    /// Returns the lines.
    pub(crate) fn lines(self) -> Vec<Line>
        ensures { result.items ≡ self.lines }
    {
        self.lines
    }
}
