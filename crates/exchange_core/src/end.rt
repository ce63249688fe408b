//! The two ends, line by line.

ghost use Rattle.std.specs.Prelude.{◌≡◌, ℕ, List};
ghost use Rattle.exchange_core.specs.Output.{line_of, effect_of};
ghost use Rattle.exchange_core.specs.Replay.{End, replay_line, terminal_end, card_end};
ghost use Rattle.exchange_core.specs.Waiting.{terminal_awaits, card_awaits};
ghost use Rattle.exchange_core.specs.declared.waiting.Awaits.{Awaits as AnyAwaits};
ghost use Rattle.t1_core.specs.Names.{terminal_fault_name, card_fault_name};

use crate::output::Output;
use crate::waiting::Awaits;
use exchange_text::{Arrival, Line};
use octet_core::Named;
use t1_core::{Card, CardFault, CardTurn, Terminal, TerminalFault, TerminalTurn};

/// What a line does at an end. The turn in it is the last one, which no line has matched yet.
pub(crate) enum Effect<T, F> {
    /// The line is nothing to the end.
    Passed(Option<T>),
    /// The file says that the end gives this line.
    Said(Option<T>),
    /// The line is a call that isn't made, since a line has to match this turn first.
    Early(T),
    /// The line is a call, which returned a turn or was refused.
    Called(Result<T, F>),
}

/// An end at which a file is replayed.
pub(crate) trait Replayed {
    /// Its turn.
    type Turn: Drop;

    /// Why it refuses a call.
    type Fault: Copy;

    /// What a line is to it, and the line of a turn.
    ghost end: { End Self Self.Turn };

    /// The name of a refusal.
    ghost refusal: { Self.Fault → List ℕ };

    /// What it waits for in a state.
    ghost waits: { Self → AnyAwaits };

    /// Takes a line, with the turn `pending` that no line has matched yet, and returns what the line does.
    fn hears(&mut self, pending: Option<Self::Turn>, line: &Line) -> Effect<Self::Turn, Self::Fault>
        ensures { replay_line end self.old pending line.now
            ≡ effect_of end refusal line.now self.new result };

    /// Returns the name of a refusal.
    fn refusal(fault: Self::Fault) -> &'static str
        ensures { result.now ≡ refusal fault };

    /// Returns what a turn gives. The end is in the state after the turn.
    fn given<'a>(&'a self, turn: &'a Self::Turn) -> Output<'a>
        ensures { line_of result ≡ end.line self.now turn.now };

    /// Returns what it waits for.
    fn waits(&self) -> Awaits
        ensures { result ≡ waits self.now };
}

impl Replayed for Terminal {
    type Turn = TerminalTurn;

    type Fault = TerminalFault;

    ghost end = { terminal_end };

    ghost refusal = { terminal_fault_name };

    ghost waits = { terminal_awaits };

    fn hears(
        &mut self,
        pending: Option<TerminalTurn>,
        line: &Line,
    ) -> Effect<TerminalTurn, TerminalFault>
        ensures { replay_line terminal_end self.old pending line.now
            ≡ effect_of terminal_end terminal_fault_name line.now self.new result }
    {
        match (line, pending) {
            (Line::Answer(_) | Line::IfsSet | Line::GivenUp, pending) => Effect::Said(pending),
            (Line::Dead | Line::FromTerminal { .. }, pending) => Effect::Said(pending),
            (Line::Reply(_) | Line::Time(_) | Line::Ifsc(_), pending) => Effect::Passed(pending),
            (Line::Asked(_) | Line::Moment(_) | Line::Note(_), pending) => Effect::Passed(pending),
            (Line::FromCard { sent, arrival }, pending) => match (arrival, pending) {
                (Arrival::Lost, pending) => Effect::Passed(pending),
                (_, Some(turn)) => Effect::Early(turn),
                (Arrival::Whole, None) => Effect::Called(self.received(sent.get())),
                (Arrival::Changed(octets), None) => Effect::Called(self.received(octets.get())),
            },
            (_, Some(turn)) => Effect::Early(turn),
            (Line::Command(octets), None) => Effect::Called(self.transmit(octets.get())),
            (Line::Ifsd(size), None) => Effect::Called(self.ask_ifs(*size)),
            (Line::Quiet, None) => Effect::Called(self.quiet()),
        }
    }

    fn refusal(fault: TerminalFault) -> &'static str {
        fault.name()
    }

    fn given<'a>(&'a self, turn: &'a TerminalTurn) -> Output<'a> {
        match turn {
            TerminalTurn::Send(block) => Output::FromTerminal(block),
            TerminalTurn::Answered => Output::Answer(self.answer().unwrap_or(&[])),
            TerminalTurn::IfsSet => Output::IfsSet,
            TerminalTurn::GivenUp => Output::GivenUp,
            TerminalTurn::Dead => Output::Dead,
        }
    }

    fn waits(&self) -> Awaits {
        Awaits::Terminal(self.awaits())
    }
}

impl Replayed for Card {
    type Turn = CardTurn;

    type Fault = CardFault;

    ghost end = { card_end };

    ghost refusal = { card_fault_name };

    ghost waits = { card_awaits };

    fn hears(&mut self, pending: Option<CardTurn>, line: &Line) -> Effect<CardTurn, CardFault>
        ensures { replay_line card_end self.old pending line.now
            ≡ effect_of card_end card_fault_name line.now self.new result }
    {
        match (line, pending) {
            (Line::Asked(_) | Line::FromCard { .. }, pending) => Effect::Said(pending),
            (Line::Command(_) | Line::Ifsd(_) | Line::Quiet, pending) => Effect::Passed(pending),
            (Line::Answer(_) | Line::IfsSet | Line::GivenUp, pending) => Effect::Passed(pending),
            (Line::Dead | Line::Moment(_) | Line::Note(_), pending) => Effect::Passed(pending),
            (Line::FromTerminal { sent, arrival }, pending) => match (arrival, pending) {
                (Arrival::Lost, pending) => Effect::Passed(pending),
                (_, Some(turn)) => Effect::Early(turn),
                (Arrival::Whole, None) => Effect::Called(self.received(sent.get())),
                (Arrival::Changed(octets), None) => Effect::Called(self.received(octets.get())),
            },
            (_, Some(turn)) => Effect::Early(turn),
            (Line::Reply(octets), None) => Effect::Called(self.reply(octets.get())),
            (Line::Time(multiple), None) => Effect::Called(self.more_time(*multiple)),
            (Line::Ifsc(size), None) => Effect::Called(self.ask_ifs(*size)),
        }
    }

    fn refusal(fault: CardFault) -> &'static str {
        fault.name()
    }

    fn given<'a>(&'a self, turn: &'a CardTurn) -> Output<'a> {
        match turn {
            CardTurn::Send(block) => Output::FromCard(block),
            CardTurn::Asked => Output::Asked(self.command().unwrap_or(&[])),
        }
    }

    fn waits(&self) -> Awaits {
        Awaits::Card(self.awaits())
    }
}
