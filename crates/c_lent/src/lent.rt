//! Both ends of T=1 without an allocator (ISO/IEC 7816-3, clause 11.6). The caller keeps the state, and passes it and
//! both buffers to each call.

ghost use Rattle.std.specs.Prelude.{◌≡◌, length, replicate, IfSome, IfNone};
ghost use Rattle.atr_core.specs.T1.{IsUsable};
ghost use Rattle.t1_core.specs.Came.{class_of, quiet};
ghost use Rattle.t1_core.specs.Terminal.{TerminalState, at_most, terminal_with, transmit, ask_ifs, takes};
ghost use Rattle.t1_core.specs.Card.{CardState, card_with, replies, more_time, ask_ifs as card_ask_ifs, takes as card_takes};
ghost use Rattle.t1_core.specs.CardViews.{owed};
ghost use Rattle.c_lent.specs.Verdict.{ok_at, wrong_argument};
ghost use Rattle.c_lent.specs.Calls.{terminal_input, card_input};
ghost use Rattle.c_lent.specs.Kept.{IsTerminal, IsCard};
ghost use Rattle.c_lent.specs.Lent.{lent, TerminalCalled, CardCalled, IsAtFront};

use crate::call::{CardCall, TerminalCall};
use crate::kept::{CCard, CTerminal};
use crate::turn::{CTurn, NO_END};
use crate::verdict::Verdict;
use atr_core::T1Params;
use block_core::LONGEST_BLOCK;
use t1_core::{LentCard, LentTerminal};

/// Begins a terminal for a card with these parameters of T=1, and sets both buffers to 0. A command has at most as many
/// octets as its buffer, and at most 65,544. An answer has at most as many as its buffer, and at most 65,538.
pub fn lent_terminal_begin(
    state: &mut CTerminal,
    command: &mut [u8],
    answer: &mut [u8],
    ifsc: u8,
    bwi: u8,
    cwi: u8,
) -> Verdict
    ensures ok { IsUsable (record { ifsc = ifsc; bwi = bwi; cwi = cwi }) → (result ≡ ok_at 0) ×
        IsTerminal state.new command.new answer.new
        (terminal_with (at_most (length command.old) (length answer.old)) ifsc) }
    ensures overwritten { IsUsable (record { ifsc = ifsc; bwi = bwi; cwi = cwi }) →
        (command.new ≡ replicate (length command.old) 0) × (answer.new ≡ replicate (length answer.old) 0) }
    ensures argument { (IsUsable (record { ifsc = ifsc; bwi = bwi; cwi = cwi }) → ⊥) →
        (result ≡ wrong_argument 0) ×
        (lent state.new command.new answer.new ≡ lent state.old command.old answer.old) }
{
    let Some(params) = T1Params::new(ifsc, bwi, cwi) else {
        return Verdict::argument();
    };
    *state = CTerminal::of(&LentTerminal::begin(params, command, answer));
    Verdict::ok(0)
}

/// Takes a command from the terminal's application. The command must fit its buffer.
pub fn lent_terminal_transmit(
    state: &mut CTerminal,
    command: &mut [u8],
    answer: &mut [u8],
    octets: &[u8],
    out: &mut [u8],
) -> CTurn
    ensures { TerminalCalled (λ _. transmit octets.now) (lent state.old command.old answer.old)
        (lent state.new command.new answer.new) out.old out.new result }
{
    let call = TerminalCall::Transmit(octets);
    terminal_turn(state, command, answer, call, out)
}

/// Takes the octets that the line delivered to the terminal as one block.
pub fn lent_terminal_received(
    state: &mut CTerminal,
    command: &mut [u8],
    answer: &mut [u8],
    octets: &[u8],
    out: &mut [u8],
) -> CTurn
    ensures { TerminalCalled (λ t. takes (class_of t.ifsd octets.now))
        (lent state.old command.old answer.old)
        (lent state.new command.new answer.new) out.old out.new result }
{
    let call = TerminalCall::Received(octets);
    terminal_turn(state, command, answer, call, out)
}

/// Reports that nothing came to the terminal within the waiting time.
pub fn lent_terminal_quiet(
    state: &mut CTerminal,
    command: &mut [u8],
    answer: &mut [u8],
    out: &mut [u8],
) -> CTurn
    ensures { TerminalCalled (λ _. takes quiet) (lent state.old command.old answer.old)
        (lent state.new command.new answer.new) out.old out.new result }
{
    terminal_turn(state, command, answer, TerminalCall::Quiet, out)
}

/// Requests that the card send information fields of up to `size` octets, 1 to 254.
pub fn lent_terminal_ask_ifs(
    state: &mut CTerminal,
    command: &mut [u8],
    answer: &mut [u8],
    size: u8,
    out: &mut [u8],
) -> CTurn
    ensures { TerminalCalled (λ _. ask_ifs size) (lent state.old command.old answer.old)
        (lent state.new command.new answer.new) out.old out.new result }
{
    let call = TerminalCall::AskIfs(size);
    terminal_turn(state, command, answer, call, out)
}

/// Makes a call of a terminal, and returns its turn.
fn terminal_turn(
    state: &mut CTerminal,
    command: &mut [u8],
    answer: &mut [u8],
    call: TerminalCall<'_>,
    out: &mut [u8],
) -> CTurn
    ensures { TerminalCalled (terminal_input call.entry) (lent state.old command.old answer.old)
        (lent state.new command.new answer.new) out.old out.new result }
{
    if out.len() < LONGEST_BLOCK {
        return CTurn::no_room();
    }
    let Some(mut end) = state.fitting(command.len(), answer.len()) else {
        return CTurn::of(NO_END);
    };
    match call.lend(&mut end, command, answer, out) {
        Ok(put) => {
            *state = CTerminal::of(&end);
            CTurn::of_terminal(Ok(put))
        }
        Err(fault) => CTurn::of_terminal(Err(fault)),
    }
}

/// Returns how many octets at the front of the answer's buffer are the answer. It is there from the turn that completes
/// it until the next command is taken.
pub fn lent_terminal_answer(state: &CTerminal, command: &[u8], answer: &[u8]) -> Verdict
    ensures answer { (t : TerminalState) → IsTerminal state.now command.now answer.now t →
        IsAtFront t.answered answer.now result }
    ensures none { ((t : TerminalState) → IsTerminal state.now command.now answer.now t → ⊥) →
        result ≡ wrong_argument 0 }
{
    match state.fitting(command.len(), answer.len()) {
        Some(end) => at_front(end.answer(answer)),
        None => Verdict::argument(),
    }
}

/// Begins a card with these parameters of T=1, as `lent_terminal_begin` begins a terminal.
pub fn lent_card_begin(
    state: &mut CCard,
    command: &mut [u8],
    reply: &mut [u8],
    ifsc: u8,
    bwi: u8,
    cwi: u8,
) -> Verdict
    ensures ok { IsUsable (record { ifsc = ifsc; bwi = bwi; cwi = cwi }) → (result ≡ ok_at 0) ×
        IsCard state.new command.new reply.new
        (card_with (at_most (length command.old) (length reply.old)) ifsc) }
    ensures overwritten { IsUsable (record { ifsc = ifsc; bwi = bwi; cwi = cwi }) →
        (command.new ≡ replicate (length command.old) 0) × (reply.new ≡ replicate (length reply.old) 0) }
    ensures argument { (IsUsable (record { ifsc = ifsc; bwi = bwi; cwi = cwi }) → ⊥) →
        (result ≡ wrong_argument 0) ×
        (lent state.new command.new reply.new ≡ lent state.old command.old reply.old) }
{
    let Some(params) = T1Params::new(ifsc, bwi, cwi) else {
        return Verdict::argument();
    };
    *state = CCard::of(&LentCard::begin(params, command, reply));
    Verdict::ok(0)
}

/// Takes the octets that the line delivered to the card as one block.
pub fn lent_card_received(
    state: &mut CCard,
    command: &mut [u8],
    reply: &mut [u8],
    octets: &[u8],
    out: &mut [u8],
) -> CTurn
    ensures { CardCalled (λ c. card_takes (class_of c.ifsc octets.now))
        (lent state.old command.old reply.old)
        (lent state.new command.new reply.new) out.old out.new result }
{
    let call = CardCall::Received(octets);
    card_turn(state, command, reply, call, out)
}

/// Takes a reply from the card's host. The reply must fit its buffer.
pub fn lent_card_reply(
    state: &mut CCard,
    command: &mut [u8],
    reply: &mut [u8],
    octets: &[u8],
    out: &mut [u8],
) -> CTurn
    ensures { CardCalled (λ _. replies octets.now) (lent state.old command.old reply.old)
        (lent state.new command.new reply.new) out.old out.new result }
{
    let call = CardCall::Reply(octets);
    card_turn(state, command, reply, call, out)
}

/// Requests more waiting time for the card's host, any multiple of it.
pub fn lent_card_more_time(
    state: &mut CCard,
    command: &mut [u8],
    reply: &mut [u8],
    multiple: u8,
    out: &mut [u8],
) -> CTurn
    ensures { CardCalled (λ _. more_time multiple) (lent state.old command.old reply.old)
        (lent state.new command.new reply.new) out.old out.new result }
{
    let call = CardCall::MoreTime(multiple);
    card_turn(state, command, reply, call, out)
}

/// Requests that the terminal send information fields of up to `size` octets, 1 to 254.
pub fn lent_card_ask_ifs(
    state: &mut CCard,
    command: &mut [u8],
    reply: &mut [u8],
    size: u8,
    out: &mut [u8],
) -> CTurn
    ensures { CardCalled (λ _. card_ask_ifs size) (lent state.old command.old reply.old)
        (lent state.new command.new reply.new) out.old out.new result }
{
    let call = CardCall::AskIfs(size);
    card_turn(state, command, reply, call, out)
}

/// Makes a call of a card, and returns its turn.
fn card_turn(
    state: &mut CCard,
    command: &mut [u8],
    reply: &mut [u8],
    call: CardCall<'_>,
    out: &mut [u8],
) -> CTurn
    ensures { CardCalled (card_input call.entry) (lent state.old command.old reply.old)
        (lent state.new command.new reply.new) out.old out.new result }
{
    if out.len() < LONGEST_BLOCK {
        return CTurn::no_room();
    }
    let Some(mut end) = state.fitting(command.len(), reply.len()) else {
        return CTurn::of(NO_END);
    };
    match call.lend(&mut end, command, reply, out) {
        Ok(put) => {
            *state = CCard::of(&end);
            CTurn::of_card(Ok(put))
        }
        Err(fault) => CTurn::of_card(Err(fault)),
    }
}

/// Returns how many octets at the front of the command's buffer are the command. It is there while the host owes the
/// reply to it.
pub fn lent_card_command(state: &CCard, command: &[u8], reply: &[u8]) -> Verdict
    ensures command { (c : CardState) → IsCard state.now command.now reply.now c →
        IsAtFront (owed c c.waits) command.now result }
    ensures none { ((c : CardState) → IsCard state.now command.now reply.now c → ⊥) →
        result ≡ wrong_argument 0 }
{
    match state.fitting(command.len(), reply.len()) {
        Some(end) => at_front(end.command(command)),
        None => Verdict::argument(),
    }
}

/// Returns the verdict for a message at the front of a buffer, or for none.
fn at_front(message: Option<&[u8]>) -> Verdict
    ensures some { IfSome message.entry (λ octets. result ≡ ok_at (length octets.now)) }
    ensures none { IfNone message.entry (result ≡ wrong_argument 0) }
{
    match message {
        Some(octets) => Verdict::ok(octets.len()),
        None => Verdict::argument(),
    }
}
