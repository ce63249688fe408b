//! Blocks on their way, and the calls of the ends, as lines.

ghost use Rattle.std.specs.Prelude.{◌≡◌, ◌++◌, ◌+◌, ◌≤◌, [], ◌∷◌, IfOk, IfErr, OnOk, OnErr, Ok, Err, bytes_eq, vec_len, vec_capacity};
ghost use Rattle.octet_core.specs.Octets.{AreOctets};
ghost use Rattle.block_core.specs.Block.{spelling};
ghost use Rattle.t1_core.specs.Terminal.{terminal_turn, turn_of, state_after};
ghost use Rattle.t1_core.specs.Card.{card_turn, turn_of as card_turn_of, state_after as card_state_after};
ghost use Rattle.exchange_core.specs.Output.{line_of};
ghost use Rattle.exchange_core.specs.Recording.{arrival_of, damaged_octets, as_lost, as_list, terminal_input, card_input, Turns, terminal_outcome, card_outcome, IfNotMemory};

use crate::event::EventFault;
use crate::output::Output;
use block_core::{Block, Pcb, encode};
use exchange_text::{Arrival, Line};
use octet_core::Octets;
use std::alloc::{AllocError, Global};
use t1_core::{Card, CardFault, CardTurn, Terminal, TerminalFault, TerminalTurn};

/// The node address of a block that is invalid to both ends.
const ANOTHER_NODE: u8 = 1;

/// How a block changes on its way to its receiver.
#[derive(Clone, Copy)]
pub(crate) enum Change {
    /// Nothing changes.
    Kept,
    /// Its last octet changes.
    Damaged,
    /// Its node address changes, with a check octet that fits.
    Spoilt,
}

impl Change {
    /// Returns how a block with this change arrives.
    pub fn arrival(self, alloc: Global, block: &Block) -> Result<Arrival, AllocError>
        ensures { IfOk result (λ arrival. arrival ≡ arrival_of self block.now) }
    {
        match self {
            Change::Kept => Ok(Arrival::Whole),
            Change::Damaged => Ok(Arrival::Changed(damaged(alloc, block)?)),
            Change::Spoilt => Ok(Arrival::Changed(spelled(alloc, &elsewhere(block))?)),
        }
    }
}

/// Returns the octets of a block.
pub fn spelled(alloc: Global, block: &Block) -> Result<Octets, AllocError>
    ensures { IfOk result (λ octets. octets ≡ spelling block.now) }
{
    copied(alloc, encode(block).as_slice())
}

/// Whether the octets are those of the block.
pub fn is_spelled(block: &Block, octets: &[u8]) -> bool
    ensures { result ≡ bytes_eq (spelling block.now) octets.now }
{
    encode(block).as_slice() == octets
}

/// Returns a copy of octets.
pub fn copied(alloc: Global, octets: &[u8]) -> Result<Octets, AllocError>
    ensures copy { IfOk result (λ copy. copy ≡ octets.now) }
    ensures octets { IfOk result (λ copy. AreOctets copy) }
{
    Ok(Octets::of(Vec::from_slice(alloc, octets)?))
}

/// Returns the octets of a block with the last one changed.
fn damaged(alloc: Global, block: &Block) -> Result<Octets, AllocError>
    ensures { IfOk result (λ octets. octets ≡ damaged_octets block.now) }
{
    let sent = encode(block);
    let octets = sent.as_slice();
    let sum = octets.len() - 1;
    let mut damaged = Vec::from_slice(alloc, &octets[..sum])?;
    damaged.push(octets[sum] ^ 1)?;
    Ok(Octets::of(damaged))
}

/// Returns the same block with another node address.
fn elsewhere(block: &Block) -> Block
    ensures { result ≡ record { nad = 1; pcb = block.now.pcb; inf = block.now.inf } }
{
    let inf = block.inf();
    match block.pcb() {
        Pcb::Info { number, more } => Block::info(ANOTHER_NODE, number, more, inf).unwrap(),
        Pcb::Ready { number, fault } => Block::ready(ANOTHER_NODE, number, fault),
        Pcb::Request(about) => Block::request(ANOTHER_NODE, about, inf).unwrap(),
        Pcb::Response(about) => Block::response(ANOTHER_NODE, about, inf).unwrap(),
    }
}

impl Output<'_> {
    /// Returns the line of this turn, with its block lost.
    pub fn lost(self, alloc: Global) -> Result<Line, AllocError>
        ensures { IfOk result (λ line. line ≡ as_lost (line_of self.entry)) }
    {
        Ok(match self {
            Output::FromTerminal(block) => Line::FromTerminal {
                sent: spelled(alloc, block)?,
                arrival: Arrival::Lost,
            },
            Output::FromCard(block) => Line::FromCard {
                sent: spelled(alloc, block)?,
                arrival: Arrival::Lost,
            },
            Output::Answer(octets) => Line::Answer(copied(alloc, octets)?),
            Output::Asked(octets) => Line::Asked(copied(alloc, octets)?),
            Output::IfsSet => Line::IfsSet,
            Output::GivenUp => Line::GivenUp,
            Output::Dead => Line::Dead,
        })
    }
}

/// Calls the terminal with a line, and writes the line after that of the last turn.
///
/// If the call is refused, or memory runs out, both stay as they were.
pub(crate) fn terminal_takes(
    terminal: &mut Terminal,
    lines: &mut Vec<Line>,
    last: Option<Line>,
    line: Line,
) -> Result<TerminalTurn, EventFault>
    ensures turn { IfOk result (λ turn.
        Turns terminal.old (terminal_input terminal.old line) turn terminal.new) }
    ensures lines { OnOk result (lines.new.items ≡ lines.old.items ++ (as_list last ++ line ∷ [])) }
    ensures refused { IfErr result (λ fault. IfNotMemory fault
        (terminal_outcome (terminal_turn terminal.old (terminal_input terminal.old line)) ≡ Err fault)) }
    ensures kept { OnErr result ((terminal.new ≡ terminal.old)
        × (lines.new.items ≡ lines.old.items)) }
{
    lines.reserve(2)?;
    let turn = terminal_turned(terminal, &line)?;
    write(lines, last, line);
    Ok(turn)
}

/// Calls the terminal with a line. A refused call changes nothing.
fn terminal_turned(terminal: &mut Terminal, line: &Line) -> Result<TerminalTurn, EventFault>
    ensures turn { IfOk result (λ turn.
        Turns terminal.old (terminal_input terminal.old line.now) turn terminal.new) }
    ensures refused { IfErr result (λ fault.
        terminal_outcome (terminal_turn terminal.old (terminal_input terminal.old line.now)) ≡ Err fault) }
    ensures kept { OnErr result (terminal.new ≡ terminal.old) }
{
    match terminal_called(terminal, line) {
        Ok(turn) => Ok(turn),
        Err(fault) => Err(EventFault::Terminal(fault)),
    }
}

/// Calls the card with a line, and writes the line after that of the last turn. The line is a call of the card's host,
/// or a block that arrives.
///
/// If the call is refused, or memory runs out, both stay as they were.
pub(crate) fn card_takes(
    card: &mut Card,
    lines: &mut Vec<Line>,
    last: Option<Line>,
    line: Line,
) -> Result<CardTurn, EventFault>
    ensures turn { IfOk result (λ turn.
        card_turn card.old (card_input card.old line) ≡ Ok (turn, card.new)) }
    ensures lines { OnOk result (lines.new.items ≡ lines.old.items ++ (as_list last ++ line ∷ [])) }
    ensures refused { IfErr result (λ fault. IfNotMemory fault
        (card_outcome (card_turn card.old (card_input card.old line)) ≡ Err fault)) }
    ensures kept { OnErr result ((card.new ≡ card.old) × (lines.new.items ≡ lines.old.items)) }
{
    lines.reserve(2)?;
    let turn = card_turned(card, &line)?;
    write(lines, last, line);
    Ok(turn)
}

/// Calls the card with a line. A refused call changes nothing.
fn card_turned(card: &mut Card, line: &Line) -> Result<CardTurn, EventFault>
    ensures turn { IfOk result (λ turn.
        card_turn card.old (card_input card.old line.now) ≡ Ok (turn, card.new)) }
    ensures refused { IfErr result (λ fault.
        card_outcome (card_turn card.old (card_input card.old line.now)) ≡ Err fault) }
    ensures kept { OnErr result (card.new ≡ card.old) }
{
    match card_called(card, line) {
        Ok(turn) => Ok(turn),
        Err(fault) => Err(EventFault::Card(fault)),
    }
}

/// Calls the terminal with the call that a line is; a line of another kind counts as quiet. Writes nothing.
pub fn terminal_called(terminal: &mut Terminal, line: &Line) -> Result<TerminalTurn, TerminalFault>
    ensures turn { result ≡ turn_of
        (terminal_turn terminal.old (terminal_input terminal.old line.now)) }
    ensures state { terminal.new
        ≡ state_after terminal.old (terminal_turn terminal.old (terminal_input terminal.old line.now)) }
{
    match line {
        Line::Command(octets) => terminal.transmit(octets.get()),
        Line::Ifsd(size) => terminal.ask_ifs(*size),
        Line::FromCard { sent, arrival } => terminal.received(arrival.octets(sent)),
        _ => terminal.quiet(),
    }
}

/// Calls the card with the call that a line is; a line of another kind counts as a block without octets. Writes
/// nothing.
pub fn card_called(card: &mut Card, line: &Line) -> Result<CardTurn, CardFault>
    ensures turn { result ≡ card_turn_of (card_turn card.old (card_input card.old line.now)) }
    ensures state { card.new
        ≡ card_state_after card.old (card_turn card.old (card_input card.old line.now)) }
{
    match line {
        Line::Reply(octets) => card.reply(octets.get()),
        Line::Time(multiple) => card.more_time(*multiple),
        Line::Ifsc(size) => card.ask_ifs(*size),
        Line::FromTerminal { sent, arrival } => card.received(arrival.octets(sent)),
        _ => card.received(&[]),
    }
}

/// Writes the line of the last turn, if there is one, and a further line. There is room for both.
fn write(lines: &mut Vec<Line>, last: Option<Line>, line: Line)
    requires { vec_len lines.old + 2 ≤ vec_capacity lines.old }
    ensures { lines.new.items ≡ lines.old.items ++ (as_list last ++ line ∷ []) }
{
    if let Some(last) = last {
        lines.push(last).unwrap();
    }
    lines.push(line).unwrap();
}
