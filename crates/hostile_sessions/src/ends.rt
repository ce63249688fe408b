//! Both ends of a session, called line by line.

use atr_core::T1Params;
use block_core::{Block, encode};
use exchange_core::{Arrival, Exchange, Line, params_of};
use std::alloc::{AllocError, Global};
use t1_core::{Card, CardFault, CardTurn, Terminal, TerminalFault, TerminalTurn};
use test_support::{Fault, same};

/// Both ends, and the last turn of each end.
#[derive(Drop)]
pub(crate) struct Ends {
    pub(crate) params: T1Params,
    pub(crate) terminal: Terminal,
    pub(crate) card: Card,
    pub(crate) terminal_turn: Option<TerminalTurn>,
    pub(crate) card_turn: Option<CardTurn>,
}

/// What a terminal waits for.
#[derive(Clone, Copy)]
pub(crate) enum Waits {
    /// A call of its application.
    Idle,
    /// The card.
    Card,
    /// Nothing: the card is dead.
    Dead,
}

impl Ends {
    /// Returns both ends of an exchange, new.
    pub(crate) fn of(alloc: Global, exchange: &Exchange) -> Result<Ends, Fault> {
        match params_of(exchange.atr()) {
            Ok(params) => Ok(Ends::new(alloc, params)?),
            Err(_) => Err(Fault::Stream),
        }
    }

    /// Returns both ends, new.
    fn new(alloc: Global, params: T1Params) -> Result<Ends, AllocError> {
        Ok(Ends {
            params,
            terminal: Terminal::new(alloc, params)?,
            card: Card::new(alloc, params)?,
            terminal_turn: None,
            card_turn: None,
        })
    }

    /// Returns what the terminal waits for.
    pub(crate) fn waits(&self) -> Waits {
        match &self.terminal_turn {
            Some(TerminalTurn::Send(_)) => Waits::Card,
            Some(TerminalTurn::Dead) => Waits::Dead,
            _ => Waits::Idle,
        }
    }

    /// Whether it is the turn of the card's host.
    pub(crate) fn is_hosts_turn(&self) -> bool {
        matches!(&self.card_turn, Some(CardTurn::Asked))
    }

    /// Whether the ends do what each of the lines says.
    pub(crate) fn follow(&mut self, lines: &[Line]) -> bool {
        for line in lines {
            if !self.follows(line) {
                return false;
            }
        }
        true
    }

    /// Makes the call of a line and says whether the end accepts it; for another line, says whether it is the last
    /// turn.
    fn follows(&mut self, line: &Line) -> bool {
        match line {
            Line::FromTerminal { sent, arrival } => {
                is_sent(self.terminal_turn_block(), sent.get())
                    && self.comes_to_card(sent.get(), arrival)
            }
            Line::FromCard { sent, arrival } => {
                is_sent(self.card_turn_block(), sent.get())
                    && self.comes_to_terminal(sent.get(), arrival)
            }
            Line::Command(_) | Line::Ifsd(_) | Line::Quiet => self.calls_terminal(line),
            Line::Reply(_) | Line::Time(_) | Line::Ifsc(_) => self.calls_card(line),
            Line::Moment(_) | Line::Note(_) => true,
            _ => self.has_given(line),
        }
    }

    /// Whether the last turn is the result that a line has for an application.
    fn has_given(&self, line: &Line) -> bool {
        match line {
            Line::Answer(answer) => {
                matches!(&self.terminal_turn, Some(TerminalTurn::Answered))
                    && same(self.terminal.answer(), Some(answer.get()))
            }
            Line::IfsSet => matches!(&self.terminal_turn, Some(TerminalTurn::IfsSet)),
            Line::GivenUp => matches!(&self.terminal_turn, Some(TerminalTurn::GivenUp)),
            Line::Dead => matches!(&self.terminal_turn, Some(TerminalTurn::Dead)),
            Line::Asked(command) => {
                self.is_hosts_turn() && same(self.card.command(), Some(command.get()))
            }
            _ => false,
        }
    }

    fn calls_terminal(&mut self, line: &Line) -> bool {
        let turn = match line {
            Line::Command(command) => self.terminal.transmit(command.get()),
            Line::Ifsd(size) => self.terminal.ask_ifs(*size),
            _ => self.terminal.quiet(),
        };
        self.terminal_takes(turn)
    }

    fn calls_card(&mut self, line: &Line) -> bool {
        let turn = match line {
            Line::Reply(reply) => self.card.reply(reply.get()),
            Line::Time(multiple) => self.card.more_time(*multiple),
            Line::Ifsc(size) => self.card.ask_ifs(*size),
            _ => return false,
        };
        self.card_takes(turn)
    }

    fn comes_to_card(&mut self, sent: &[u8], arrival: &Arrival) -> bool {
        let turn = match arrival {
            Arrival::Whole => self.card.received(sent),
            Arrival::Changed(octets) => self.card.received(octets.get()),
            Arrival::Lost => return true,
        };
        self.card_takes(turn)
    }

    fn comes_to_terminal(&mut self, sent: &[u8], arrival: &Arrival) -> bool {
        let turn = match arrival {
            Arrival::Whole => self.terminal.received(sent),
            Arrival::Changed(octets) => self.terminal.received(octets.get()),
            Arrival::Lost => return true,
        };
        self.terminal_takes(turn)
    }

    /// Keeps a turn, and says whether the call was accepted.
    fn terminal_takes(&mut self, turn: Result<TerminalTurn, TerminalFault>) -> bool {
        match turn {
            Ok(turn) => {
                self.terminal_turn = Some(turn);
                true
            }
            Err(_) => false,
        }
    }

    fn card_takes(&mut self, turn: Result<CardTurn, CardFault>) -> bool {
        match turn {
            Ok(turn) => {
                self.card_turn = Some(turn);
                true
            }
            Err(_) => false,
        }
    }

    fn terminal_turn_block(&self) -> Option<&Block> {
        match &self.terminal_turn {
            Some(TerminalTurn::Send(block)) => Some(block),
            _ => None,
        }
    }

    fn card_turn_block(&self) -> Option<&Block> {
        match &self.card_turn {
            Some(CardTurn::Send(block)) => Some(block),
            _ => None,
        }
    }
}

/// Whether a block is there and has these octets.
fn is_sent(block: Option<&Block>, octets: &[u8]) -> bool {
    match block {
        Some(block) => same(encode(block).as_slice(), octets),
        None => false,
    }
}
