//! Both ends of T=1 in handles (ISO/IEC 7816-3, clause 11.6).

ghost use Rattle.std.specs.Prelude.{◌≡◌, ◌≢◌, ◌≤◌, ◌<◌, length, None, Some, true, false};
ghost use Rattle.atr_core.specs.T1.{IsUsable};
ghost use Rattle.t1_core.specs.Came.{class_of, quiet};
ghost use Rattle.t1_core.specs.Terminal.{new_terminal, transmit, ask_ifs, takes};
ghost use Rattle.t1_core.specs.Card.{new_card, replies, more_time, ask_ifs as card_ask_ifs, takes as card_takes};
ghost use Rattle.c_owned.specs.declared.engine.Engine.TheVariants.{Terminal as TerminalEnd, Card as CardEnd};
ghost use Rattle.c_lent.specs.Verdict.{wrong_argument, no_memory, ok_at};
ghost use Rattle.c_owned.specs.Calls.{Takes};
ghost use Rattle.c_lent.specs.Turns.{no_room};
ghost use Rattle.c_owned.specs.Ends.{TerminalTakes, CardTakes, HoldsTerminal, HoldsCard, message_of, PutsMessage};

use crate::call::Call;
use crate::engine::Engine;
use crate::handle::Handle;
use atr_core::T1Params;
use block_core::LONGEST_BLOCK;
use c_lent::call::{CardCall, TerminalCall};
use c_lent::output::put;
use c_lent::turn::{CTurn, NO_END};
use c_lent::verdict::Verdict;
use std::alloc::Global;
use t1_core::{Card, Terminal};

/// Opens a terminal for a card with these parameters of T=1. If the handle already holds a terminal, it begins anew in
/// the memory that it has, and its old content is overwritten: that never fails. Anything else in the handle is freed.
pub fn terminal_open(alloc: Global, handle: &mut Handle, ifsc: u8, bwi: u8, cwi: u8) -> Verdict
    ensures ok { result.status ≡ 0 →
        (result ≡ ok_at 0) × (handle.new.engine ≡ Some (TerminalEnd (new_terminal ifsc))) }
    ensures stays { result.status ≢ 0 → handle.new.engine ≡ handle.old.engine }
    ensures argument { (IsUsable (record { ifsc = ifsc; bwi = bwi; cwi = cwi }) → ⊥)
        → result ≡ wrong_argument 0 }
    ensures again { IsUsable (record { ifsc = ifsc; bwi = bwi; cwi = cwi }) →
        HoldsTerminal handle.old.engine → result ≡ ok_at 0 }
    ensures memory { IsUsable (record { ifsc = ifsc; bwi = bwi; cwi = cwi }) →
        result.status ≢ 0 → result ≡ no_memory }
{
    let Some(params) = T1Params::new(ifsc, bwi, cwi) else {
        return Verdict::argument();
    };
    if begins_terminal(alloc, handle, params) {
        return Verdict::ok(0);
    }
    match Terminal::new(alloc, params) {
        Ok(terminal) => opened(alloc, handle, Engine::Terminal(terminal)),
        Err(_) => Verdict::memory(),
    }
}

/// Opens a card with these parameters of T=1. If the handle already holds a card, it begins anew in the memory that it
/// has, and its old content is overwritten: that never fails. Anything else in the handle is freed.
pub fn card_open(alloc: Global, handle: &mut Handle, ifsc: u8, bwi: u8, cwi: u8) -> Verdict
    ensures ok { result.status ≡ 0 →
        (result ≡ ok_at 0) × (handle.new.engine ≡ Some (CardEnd (new_card ifsc))) }
    ensures stays { result.status ≢ 0 → handle.new.engine ≡ handle.old.engine }
    ensures argument { (IsUsable (record { ifsc = ifsc; bwi = bwi; cwi = cwi }) → ⊥)
        → result ≡ wrong_argument 0 }
    ensures again { IsUsable (record { ifsc = ifsc; bwi = bwi; cwi = cwi }) →
        HoldsCard handle.old.engine → result ≡ ok_at 0 }
    ensures memory { IsUsable (record { ifsc = ifsc; bwi = bwi; cwi = cwi }) →
        result.status ≢ 0 → result ≡ no_memory }
{
    let Some(params) = T1Params::new(ifsc, bwi, cwi) else {
        return Verdict::argument();
    };
    if begins_card(alloc, handle, params) {
        return Verdict::ok(0);
    }
    match Card::new(alloc, params) {
        Ok(card) => opened(alloc, handle, Engine::Card(card)),
        Err(_) => Verdict::memory(),
    }
}

/// Begins the terminal in a handle anew. Returns whether the handle holds one for the longest messages.
fn begins_terminal(alloc: Global, handle: &mut Handle, params: T1Params) -> bool
    ensures longest { HoldsTerminal handle.old.engine → result ≡ true }
    ensures begun { result ≡ true → handle.new.engine ≡ Some
        (TerminalEnd (new_terminal params.ifsc)) }
    ensures stays { result ≡ false → handle.new.engine ≡ handle.old.engine }
{
    let Some(mut engine) = handle.take(alloc) else {
        return false;
    };
    let has_begun = engine.begins_terminal(params);
    handle.put(engine);
    has_begun
}

/// Begins the card in a handle anew. Returns whether the handle holds one for the longest messages.
fn begins_card(alloc: Global, handle: &mut Handle, params: T1Params) -> bool
    ensures longest { HoldsCard handle.old.engine → result ≡ true }
    ensures begun { result ≡ true → handle.new.engine ≡ Some (CardEnd (new_card params.ifsc)) }
    ensures stays { result ≡ false → handle.new.engine ≡ handle.old.engine }
{
    let Some(mut engine) = handle.take(alloc) else {
        return false;
    };
    let has_begun = engine.begins_card(params);
    handle.put(engine);
    has_begun
}

pub(crate) fn opened(alloc: Global, handle: &mut Handle, engine: Engine) -> Verdict
    ensures ok { result.status ≡ 0 → (result ≡ ok_at 0) × (handle.new.engine ≡ Some engine) }
    ensures stays { result.status ≢ 0 → handle.new.engine ≡ handle.old.engine }
    ensures memory { result.status ≢ 0 → result ≡ no_memory }
{
    match Box::new(alloc, engine) {
        Ok(engine) => {
            handle.put(engine);
            Verdict::ok(0)
        }
        Err(_) => Verdict::memory(),
    }
}

/// Frees what the handle holds, if anything.
pub fn close(alloc: Global, handle: &mut Handle)
    ensures { handle.new.engine ≡ None }
{
    drop(handle.take(alloc));
}

/// Takes a command of at most 65,544 octets from the terminal's application.
pub fn terminal_transmit(
    alloc: Global,
    handle: &mut Handle,
    command: &[u8],
    out: &mut [u8],
) -> CTurn
    ensures room { length out.old < 258 → result ≡ no_room }
    ensures stays { length out.old < 258 →
        (handle.new.engine ≡ handle.old.engine) × (out.new ≡ out.old) }
    ensures turn { 258 ≤ length out.old →
        TerminalTakes (λ _. transmit command.now)
        handle.old.engine handle.new.engine out.old out.new result }
{
    turn(
        alloc,
        handle,
        Call::Terminal(TerminalCall::Transmit(command)),
        out,
    )
}

/// Takes the octets that the line delivered to the terminal as one block.
pub fn terminal_received(alloc: Global, handle: &mut Handle, octets: &[u8], out: &mut [u8]) -> CTurn
    ensures room { length out.old < 258 → result ≡ no_room }
    ensures stays { length out.old < 258 →
        (handle.new.engine ≡ handle.old.engine) × (out.new ≡ out.old) }
    ensures turn { 258 ≤ length out.old →
        TerminalTakes (λ t. takes (class_of t.ifsd octets.now))
        handle.old.engine handle.new.engine out.old out.new result }
{
    turn(
        alloc,
        handle,
        Call::Terminal(TerminalCall::Received(octets)),
        out,
    )
}

/// Reports that nothing came to the terminal within the waiting time.
pub fn terminal_quiet(alloc: Global, handle: &mut Handle, out: &mut [u8]) -> CTurn
    ensures room { length out.old < 258 → result ≡ no_room }
    ensures stays { length out.old < 258 →
        (handle.new.engine ≡ handle.old.engine) × (out.new ≡ out.old) }
    ensures turn { 258 ≤ length out.old →
        TerminalTakes (λ _. takes quiet)
        handle.old.engine handle.new.engine out.old out.new result }
{
    turn(alloc, handle, Call::Terminal(TerminalCall::Quiet), out)
}

/// Requests that the card send information fields of up to `size` octets, 1 to 254.
pub fn terminal_ask_ifs(alloc: Global, handle: &mut Handle, size: u8, out: &mut [u8]) -> CTurn
    ensures room { length out.old < 258 → result ≡ no_room }
    ensures stays { length out.old < 258 →
        (handle.new.engine ≡ handle.old.engine) × (out.new ≡ out.old) }
    ensures turn { 258 ≤ length out.old →
        TerminalTakes (λ _. ask_ifs size)
        handle.old.engine handle.new.engine out.old out.new result }
{
    turn(
        alloc,
        handle,
        Call::Terminal(TerminalCall::AskIfs(size)),
        out,
    )
}

/// Takes the octets that the line delivered to the card as one block.
pub fn card_received(alloc: Global, handle: &mut Handle, octets: &[u8], out: &mut [u8]) -> CTurn
    ensures room { length out.old < 258 → result ≡ no_room }
    ensures stays { length out.old < 258 →
        (handle.new.engine ≡ handle.old.engine) × (out.new ≡ out.old) }
    ensures turn { 258 ≤ length out.old →
        CardTakes (λ c. card_takes (class_of c.ifsc octets.now))
        handle.old.engine handle.new.engine out.old out.new result }
{
    turn(alloc, handle, Call::Card(CardCall::Received(octets)), out)
}

/// Takes a reply of at most 65,538 octets from the card's host.
pub fn card_reply(alloc: Global, handle: &mut Handle, octets: &[u8], out: &mut [u8]) -> CTurn
    ensures room { length out.old < 258 → result ≡ no_room }
    ensures stays { length out.old < 258 →
        (handle.new.engine ≡ handle.old.engine) × (out.new ≡ out.old) }
    ensures turn { 258 ≤ length out.old →
        CardTakes (λ _. replies octets.now)
        handle.old.engine handle.new.engine out.old out.new result }
{
    turn(alloc, handle, Call::Card(CardCall::Reply(octets)), out)
}

/// Requests more waiting time for the card's host, any multiple of it.
pub fn card_more_time(alloc: Global, handle: &mut Handle, multiple: u8, out: &mut [u8]) -> CTurn
    ensures room { length out.old < 258 → result ≡ no_room }
    ensures stays { length out.old < 258 →
        (handle.new.engine ≡ handle.old.engine) × (out.new ≡ out.old) }
    ensures turn { 258 ≤ length out.old →
        CardTakes (λ _. more_time multiple)
        handle.old.engine handle.new.engine out.old out.new result }
{
    turn(alloc, handle, Call::Card(CardCall::MoreTime(multiple)), out)
}

/// Requests that the terminal send information fields of up to `size` octets, 1 to 254.
pub fn card_ask_ifs(alloc: Global, handle: &mut Handle, size: u8, out: &mut [u8]) -> CTurn
    ensures room { length out.old < 258 → result ≡ no_room }
    ensures stays { length out.old < 258 →
        (handle.new.engine ≡ handle.old.engine) × (out.new ≡ out.old) }
    ensures turn { 258 ≤ length out.old →
        CardTakes (λ _. card_ask_ifs size)
        handle.old.engine handle.new.engine out.old out.new result }
{
    turn(alloc, handle, Call::Card(CardCall::AskIfs(size)), out)
}

/// Makes a call of the end in a handle, and returns its turn.
#[inline(always)]
fn turn(alloc: Global, handle: &mut Handle, call: Call<'_>, out: &mut [u8]) -> CTurn
    ensures room { length out.old < 258 → result ≡ no_room }
    ensures stays { length out.old < 258 →
        (handle.new.engine ≡ handle.old.engine) × (out.new ≡ out.old) }
    ensures turn { 258 ≤ length out.old →
        Takes call.entry handle.old.engine handle.new.engine out.old out.new result }
{
    if out.len() < LONGEST_BLOCK {
        return CTurn::no_room();
    }
    let Some(mut engine) = handle.take(alloc) else {
        return CTurn::of(NO_END);
    };
    let turn = engine.called(call, out);
    handle.put(engine);
    turn
}

/// Copies the message of a handle to a buffer. A terminal has its answer, from the turn that completes it until the
/// next command is taken. A card has its command, while its host owes the reply. A receiver of chains has its message,
/// once the chain is complete.
pub fn message(alloc: Global, handle: &mut Handle, out: &mut [u8]) -> Verdict
    ensures message { PutsMessage (message_of handle.old.engine) out.old out.new result }
    ensures stays { handle.new.engine ≡ handle.old.engine }
{
    let Some(engine) = handle.take(alloc) else {
        return Verdict::argument();
    };
    let verdict = put_message(&engine, out);
    handle.put(engine);
    verdict
}

fn put_message(engine: &Engine, out: &mut [u8]) -> Verdict
    ensures { PutsMessage (message_of (Some engine.now)) out.old out.new result }
{
    match engine.message() {
        Some(message) => put(message, out),
        None => Verdict::argument(),
    }
}
