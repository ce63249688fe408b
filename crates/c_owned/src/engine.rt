//! The content of a handle.

ghost use Rattle.std.specs.Prelude.{◌≡◌, true};
ghost use Rattle.chain_core.specs.Longest.{longest_command, longest_response};

use crate::call::{Call, call_card, call_terminal};
use crate::reader::Reader;
use atr_core::T1Params;
use c_lent::call::{CardCall, TerminalCall};
use c_lent::turn::{CTurn, NO_END};
use c_lent::verdict::Verdict;
use chain_core::{LONGEST_COMMAND, LONGEST_RESPONSE};
use t1_core::{Card, Terminal};

/// The engines that a handle can hold.
#[derive(Drop)]
pub enum Engine {
    Terminal(Terminal),
    Card(Card),
    InPieces(Reader),
}

impl Engine {
    ghost use Rattle.std.specs.Prelude.{◌≡◌, ◌≤◌, length, Some, true, false};
    ghost use Rattle.t1_core.specs.Terminal.{new_terminal};
    ghost use Rattle.t1_core.specs.Card.{new_card};
    ghost use Rattle.c_owned.specs.declared.engine.Engine.TheVariants.{Terminal as TerminalEnd, Card as CardEnd};
    ghost use Rattle.t1_core.specs.Views.{IsSlice};
    ghost use Rattle.c_owned.specs.Calls.{Takes};
    ghost use Rattle.c_lent.specs.Calls.{terminal_input, card_input};
    ghost use Rattle.c_owned.specs.Ends.{TerminalTakes, CardTakes, HoldsTerminal, HoldsCard, message_of};
    ghost use Rattle.c_owned.specs.Readers.{Feeds, Ends};

    /// Makes a call of an end. Does nothing if the engine isn't the end that is called.
    #[inline(always)]
    pub(crate) fn called(&mut self, call: Call<'_>, out: &mut [u8]) -> CTurn
        requires { 258 ≤ length out.old }
        ensures { Takes call.entry (Some self.old) (Some self.new) out.old out.new result }
    {
        match call {
            Call::Terminal(call) => self.terminal_called(call, out),
            Call::Card(call) => self.card_called(call, out),
        }
    }

    #[inline(always)]
    fn terminal_called(&mut self, call: TerminalCall<'_>, out: &mut [u8]) -> CTurn
        requires { 258 ≤ length out.old }
        ensures { TerminalTakes (terminal_input call.entry) (Some self.old) (Some self.new) out.old
            out.new result }
    {
        match self {
            Engine::Terminal(end) => CTurn::of_terminal(call_terminal(call, end, out)),
            Engine::Card(_) | Engine::InPieces(_) => CTurn::of(NO_END),
        }
    }

    #[inline(always)]
    fn card_called(&mut self, call: CardCall<'_>, out: &mut [u8]) -> CTurn
        requires { 258 ≤ length out.old }
        ensures { CardTakes (card_input call.entry) (Some self.old) (Some self.new) out.old out.new
            result }
    {
        match self {
            Engine::Card(end) => CTurn::of_card(call_card(call, end, out)),
            Engine::Terminal(_) | Engine::InPieces(_) => CTurn::of(NO_END),
        }
    }

    /// Begins a terminal anew in the memory that it has. Returns whether it is one for the longest messages.
    pub(crate) fn begins_terminal(&mut self, params: T1Params) -> bool
        ensures longest { HoldsTerminal (Some self.old) → result ≡ true }
        ensures begun { result ≡ true → self.new ≡ TerminalEnd (new_terminal params.ifsc) }
        ensures stays { result ≡ false → self.new ≡ self.old }
    {
        match self {
            Engine::Terminal(end) if is_longest(end.most_command(), end.most_answer()) => {
                end.reset(params);
                true
            }
            _ => false,
        }
    }

    /// Begins a card anew in the memory that it has. Returns whether it is one for the longest messages.
    pub(crate) fn begins_card(&mut self, params: T1Params) -> bool
        ensures longest { HoldsCard (Some self.old) → result ≡ true }
        ensures begun { result ≡ true → self.new ≡ CardEnd (new_card params.ifsc) }
        ensures stays { result ≡ false → self.new ≡ self.old }
    {
        match self {
            Engine::Card(end) if is_longest(end.most_command(), end.most_reply()) => {
                end.reset(params);
                true
            }
            _ => false,
        }
    }

    /// Returns the answer of a terminal, the command for which the card's host owes the reply, or the message of a
    /// complete chain.
    pub(crate) fn message(&self) -> Option<&[u8]>
        ensures { IsSlice result (message_of (Some self.now)) }
    {
        match self {
            Engine::Terminal(terminal) => terminal.answer(),
            Engine::Card(card) => card.command(),
            Engine::InPieces(reader) => reader.message(),
        }
    }

    /// Feeds the next octets to a reader.
    pub(crate) fn feed(&mut self, piece: &[u8]) -> Verdict
        ensures { Feeds (Some self.old) piece.now (Some self.new) result }
    {
        match self {
            Engine::InPieces(reader) => reader.feed(piece),
            Engine::Terminal(_) | Engine::Card(_) => Verdict::argument(),
        }
    }

    /// Ends the octets of a reader.
    pub(crate) fn finish(&self) -> Verdict
        ensures { Ends (Some self.now) result }
    {
        match self {
            Engine::InPieces(reader) => reader.finish(),
            Engine::Terminal(_) | Engine::Card(_) => Verdict::argument(),
        }
    }
}

/// Whether an end with room for messages of these sizes takes the longest messages.
fn is_longest(command: usize, answer: usize) -> bool
    ensures longest { result ≡ true → (command ≡ longest_command) × (answer ≡ longest_response) }
    ensures found { command ≡ longest_command → answer ≡ longest_response → result ≡ true }
{
    command == LONGEST_COMMAND && answer == LONGEST_RESPONSE
}
