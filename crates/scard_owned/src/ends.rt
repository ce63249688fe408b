//! Both ends of T=1 in handles (ISO/IEC 7816-3, clause 11.6).

ghost use Rattle.std.specs.Prelude.{◌≡◌, ◌≢◌, ◌≤◌, ◌<◌, length, None, Some};
ghost use Rattle.atr_core.specs.T1.{IsUsable};
ghost use Rattle.t1_core.specs.Came.{class_of, quiet};
ghost use Rattle.t1_core.specs.Terminal.{new_terminal, transmit, ask_ifs, takes};
ghost use Rattle.t1_core.specs.Card.{new_card, replies, more_time, ask_ifs as card_ask_ifs, takes as card_takes};
ghost use Rattle.c_owned.specs.declared.engine.Engine.TheVariants.{Terminal as TerminalEnd, Card as CardEnd};
ghost use Rattle.c_lent.specs.Verdict.{wrong_argument, no_memory, ok_at};
ghost use Rattle.c_lent.specs.Turns.{no_room};
ghost use Rattle.c_owned.specs.Ends.{TerminalTakes, CardTakes, HoldsTerminal, HoldsCard, message_of, PutsMessage};

use c_lent::turn::CTurn;
use c_lent::verdict::Verdict;
use c_owned::handle::Handle;
use std::alloc::Global;

/// Opens a terminal for a card with these parameters of T=1. If the handle already holds a terminal, it begins anew in
/// the memory that it has, and its old content is overwritten. Else the call reserves all the memory that the terminal
/// needs, and frees what the handle held.
///
/// Returns `ARGUMENT` if `ifsc` is 0 or 255, or if an index is above 15. Unless the status is `OK`, the handle doesn't
/// change.
#[unsafe(no_mangle)]
pub extern "C" fn scard_terminal_open(
    alloc: Global,
    handle: &mut Handle,
    ifsc: u8,
    bwi: u8,
    cwi: u8,
) -> Verdict
    ensures ok { result.status ≡ 0 →
        (result ≡ ok_at 0) × (handle.new.engine ≡ Some (TerminalEnd (new_terminal ifsc))) }
    ensures stays { result.status ≢ 0 → handle.new.engine ≡ handle.old.engine }
    ensures argument { (IsUsable (record { ifsc = ifsc; bwi = bwi; cwi = cwi }) → ⊥)
        → result ≡ wrong_argument 0 }
    ensures again { IsUsable (record { ifsc = ifsc; bwi = bwi; cwi = cwi }) →
        HoldsTerminal handle.old.engine → result ≡ ok_at 0 }
    ensures memory { IsUsable (record { ifsc = ifsc; bwi = bwi; cwi = cwi }) →
        result.status ≢ 0 → result ≡ no_memory }
{
    c_owned::ends::terminal_open(alloc, handle, ifsc, bwi, cwi)
}

/// Opens a card with these parameters of T=1. If the handle already holds a card, it begins anew in the memory that it
/// has, and its old content is overwritten. Else the call reserves all the memory that the card needs, and frees what
/// the handle held.
///
/// Returns `ARGUMENT` if `ifsc` is 0 or 255, or if an index is above 15. Unless the status is `OK`, the handle doesn't
/// change.
#[unsafe(no_mangle)]
pub extern "C" fn scard_card_open(
    alloc: Global,
    handle: &mut Handle,
    ifsc: u8,
    bwi: u8,
    cwi: u8,
) -> Verdict
    ensures ok { result.status ≡ 0 →
        (result ≡ ok_at 0) × (handle.new.engine ≡ Some (CardEnd (new_card ifsc))) }
    ensures stays { result.status ≢ 0 → handle.new.engine ≡ handle.old.engine }
    ensures argument { (IsUsable (record { ifsc = ifsc; bwi = bwi; cwi = cwi }) → ⊥)
        → result ≡ wrong_argument 0 }
    ensures again { IsUsable (record { ifsc = ifsc; bwi = bwi; cwi = cwi }) →
        HoldsCard handle.old.engine → result ≡ ok_at 0 }
    ensures memory { IsUsable (record { ifsc = ifsc; bwi = bwi; cwi = cwi }) →
        result.status ≢ 0 → result ≡ no_memory }
{
    c_owned::ends::card_open(alloc, handle, ifsc, bwi, cwi)
}

/// Frees what the handle holds, if anything.
#[unsafe(no_mangle)]
pub extern "C" fn scard_close(alloc: Global, handle: &mut Handle)
    ensures { handle.new.engine ≡ None }
{
    c_owned::ends::close(alloc, handle)
}

/// Takes a command of at most 65,544 octets from the terminal's application.
#[unsafe(no_mangle)]
pub extern "C" fn scard_terminal_transmit(
    alloc: Global,
    handle: &mut Handle,
    command: &[u8],
    out: &mut [u8],
) -> CTurn
    ensures room { length out.old < 258 → result ≡ no_room }
    ensures stays { length out.old < 258 →
        (handle.new.engine ≡ handle.old.engine) × (out.new ≡ out.old) }
    ensures turn { 258 ≤ length out.old →
        TerminalTakes (λ _. transmit command.now)
        handle.old.engine handle.new.engine out.old out.new result }
{
    c_owned::ends::terminal_transmit(alloc, handle, command, out)
}

/// Takes the octets that the line delivered to the terminal as one block.
#[unsafe(no_mangle)]
pub extern "C" fn scard_terminal_received(
    alloc: Global,
    handle: &mut Handle,
    octets: &[u8],
    out: &mut [u8],
) -> CTurn
    ensures room { length out.old < 258 → result ≡ no_room }
    ensures stays { length out.old < 258 →
        (handle.new.engine ≡ handle.old.engine) × (out.new ≡ out.old) }
    ensures turn { 258 ≤ length out.old →
        TerminalTakes (λ t. takes (class_of t.ifsd octets.now))
        handle.old.engine handle.new.engine out.old out.new result }
{
    c_owned::ends::terminal_received(alloc, handle, octets, out)
}

/// Reports that nothing came to the terminal within the waiting time.
#[unsafe(no_mangle)]
pub extern "C" fn scard_terminal_quiet(alloc: Global, handle: &mut Handle, out: &mut [u8]) -> CTurn
    ensures room { length out.old < 258 → result ≡ no_room }
    ensures stays { length out.old < 258 →
        (handle.new.engine ≡ handle.old.engine) × (out.new ≡ out.old) }
    ensures turn { 258 ≤ length out.old →
        TerminalTakes (λ _. takes quiet)
        handle.old.engine handle.new.engine out.old out.new result }
{
    c_owned::ends::terminal_quiet(alloc, handle, out)
}

/// Requests that the card send information fields of up to `size` octets, 1 to 254.
#[unsafe(no_mangle)]
pub extern "C" fn scard_terminal_ask_ifs(
    alloc: Global,
    handle: &mut Handle,
    size: u8,
    out: &mut [u8],
) -> CTurn
    ensures room { length out.old < 258 → result ≡ no_room }
    ensures stays { length out.old < 258 →
        (handle.new.engine ≡ handle.old.engine) × (out.new ≡ out.old) }
    ensures turn { 258 ≤ length out.old →
        TerminalTakes (λ _. ask_ifs size)
        handle.old.engine handle.new.engine out.old out.new result }
{
    c_owned::ends::terminal_ask_ifs(alloc, handle, size, out)
}

/// Takes the octets that the line delivered to the card as one block.
#[unsafe(no_mangle)]
pub extern "C" fn scard_card_received(
    alloc: Global,
    handle: &mut Handle,
    octets: &[u8],
    out: &mut [u8],
) -> CTurn
    ensures room { length out.old < 258 → result ≡ no_room }
    ensures stays { length out.old < 258 →
        (handle.new.engine ≡ handle.old.engine) × (out.new ≡ out.old) }
    ensures turn { 258 ≤ length out.old →
        CardTakes (λ c. card_takes (class_of c.ifsc octets.now))
        handle.old.engine handle.new.engine out.old out.new result }
{
    c_owned::ends::card_received(alloc, handle, octets, out)
}

/// Takes a reply of at most 65,538 octets from the card's host.
#[unsafe(no_mangle)]
pub extern "C" fn scard_card_reply(
    alloc: Global,
    handle: &mut Handle,
    octets: &[u8],
    out: &mut [u8],
) -> CTurn
    ensures room { length out.old < 258 → result ≡ no_room }
    ensures stays { length out.old < 258 →
        (handle.new.engine ≡ handle.old.engine) × (out.new ≡ out.old) }
    ensures turn { 258 ≤ length out.old →
        CardTakes (λ _. replies octets.now)
        handle.old.engine handle.new.engine out.old out.new result }
{
    c_owned::ends::card_reply(alloc, handle, octets, out)
}

/// Requests more waiting time for the card's host, any multiple of it.
#[unsafe(no_mangle)]
pub extern "C" fn scard_card_more_time(
    alloc: Global,
    handle: &mut Handle,
    multiple: u8,
    out: &mut [u8],
) -> CTurn
    ensures room { length out.old < 258 → result ≡ no_room }
    ensures stays { length out.old < 258 →
        (handle.new.engine ≡ handle.old.engine) × (out.new ≡ out.old) }
    ensures turn { 258 ≤ length out.old →
        CardTakes (λ _. more_time multiple)
        handle.old.engine handle.new.engine out.old out.new result }
{
    c_owned::ends::card_more_time(alloc, handle, multiple, out)
}

/// Requests that the terminal send information fields of up to `size` octets, 1 to 254.
#[unsafe(no_mangle)]
pub extern "C" fn scard_card_ask_ifs(
    alloc: Global,
    handle: &mut Handle,
    size: u8,
    out: &mut [u8],
) -> CTurn
    ensures room { length out.old < 258 → result ≡ no_room }
    ensures stays { length out.old < 258 →
        (handle.new.engine ≡ handle.old.engine) × (out.new ≡ out.old) }
    ensures turn { 258 ≤ length out.old →
        CardTakes (λ _. card_ask_ifs size)
        handle.old.engine handle.new.engine out.old out.new result }
{
    c_owned::ends::card_ask_ifs(alloc, handle, size, out)
}

/// Copies the message of a handle to a buffer. A terminal has its answer, from the turn that completes it until the
/// next command is taken. A card has its command, while its host owes the reply. A receiver of chains has its message,
/// once the chain is complete. Returns `ARGUMENT` with place 0 if there is no message.
#[unsafe(no_mangle)]
pub extern "C" fn scard_message(alloc: Global, handle: &mut Handle, out: &mut [u8]) -> Verdict
    ensures message { PutsMessage (message_of handle.old.engine) out.old out.new result }
    ensures stays { handle.new.engine ≡ handle.old.engine }
{
    c_owned::ends::message(alloc, handle, out)
}
