//! Both ends of T=1 without an allocator (ISO/IEC 7816-3, clause 11.6). The caller keeps the state, and passes it and
//! both buffers to each call.

ghost use Rattle.std.specs.Prelude.{◌≡◌, length, replicate};
ghost use Rattle.atr_core.specs.T1.{IsUsable};
ghost use Rattle.t1_core.specs.Came.{class_of, quiet};
ghost use Rattle.t1_core.specs.Terminal.{TerminalState, at_most, terminal_with, transmit, ask_ifs, takes};
ghost use Rattle.t1_core.specs.Card.{CardState, card_with, replies, more_time, ask_ifs as card_ask_ifs, takes as card_takes};
ghost use Rattle.t1_core.specs.CardViews.{owed};
ghost use Rattle.c_lent.specs.Verdict.{ok_at, wrong_argument};
ghost use Rattle.c_lent.specs.Kept.{IsTerminal, IsCard};
ghost use Rattle.c_lent.specs.Lent.{lent, TerminalCalled, CardCalled, IsAtFront};

use c_lent::kept::{CCard, CTerminal};
use c_lent::turn::CTurn;
use c_lent::verdict::Verdict;

/// Begins a terminal for a card with these parameters of T=1, and sets both buffers to 0. A command has at most as many
/// octets as its buffer, and at most 65,544. An answer has at most as many as its buffer, and at most 65,538.
///
/// Returns `ARGUMENT` if `ifsc` is 0 or 255, or if an index is above 15. Then nothing changes.
#[unsafe(no_mangle)]
pub extern "C" fn scard_lent_terminal_begin(
    state: &mut CTerminal,
    command: &mut [u8],
    answer: &mut [u8],
    ifsc: u8,
    bwi: u8,
    cwi: u8,
) -> Verdict
    ensures ok { IsUsable (record { ifsc = ifsc; bwi = bwi; cwi = cwi }) → (result ≡ ok_at 0) ×
        IsTerminal state.new command.new answer.new
        (terminal_with (at_most (length command.old) (length answer.old)) ifsc) }
    ensures overwritten { IsUsable (record { ifsc = ifsc; bwi = bwi; cwi = cwi }) →
        (command.new ≡ replicate (length command.old) 0) × (answer.new ≡ replicate (length answer.old) 0) }
    ensures argument { (IsUsable (record { ifsc = ifsc; bwi = bwi; cwi = cwi }) → ⊥) →
        (result ≡ wrong_argument 0) ×
        (lent state.new command.new answer.new ≡ lent state.old command.old answer.old) }
{
    c_lent::lent::lent_terminal_begin(state, command, answer, ifsc, bwi, cwi)
}

/// Takes a command from the terminal's application. The command must fit its buffer.
#[unsafe(no_mangle)]
pub extern "C" fn scard_lent_terminal_transmit(
    state: &mut CTerminal,
    command: &mut [u8],
    answer: &mut [u8],
    octets: &[u8],
    out: &mut [u8],
) -> CTurn
    ensures { TerminalCalled (λ _. transmit octets.now) (lent state.old command.old answer.old)
        (lent state.new command.new answer.new) out.old out.new result }
{
    c_lent::lent::lent_terminal_transmit(state, command, answer, octets, out)
}

/// Takes the octets that the line delivered to the terminal as one block.
#[unsafe(no_mangle)]
pub extern "C" fn scard_lent_terminal_received(
    state: &mut CTerminal,
    command: &mut [u8],
    answer: &mut [u8],
    octets: &[u8],
    out: &mut [u8],
) -> CTurn
    ensures { TerminalCalled (λ t. takes (class_of t.ifsd octets.now))
        (lent state.old command.old answer.old)
        (lent state.new command.new answer.new) out.old out.new result }
{
    c_lent::lent::lent_terminal_received(state, command, answer, octets, out)
}

/// Reports that nothing came to the terminal within the waiting time.
#[unsafe(no_mangle)]
pub extern "C" fn scard_lent_terminal_quiet(
    state: &mut CTerminal,
    command: &mut [u8],
    answer: &mut [u8],
    out: &mut [u8],
) -> CTurn
    ensures { TerminalCalled (λ _. takes quiet) (lent state.old command.old answer.old)
        (lent state.new command.new answer.new) out.old out.new result }
{
    c_lent::lent::lent_terminal_quiet(state, command, answer, out)
}

/// Requests that the card send information fields of up to `size` octets, 1 to 254.
#[unsafe(no_mangle)]
pub extern "C" fn scard_lent_terminal_ask_ifs(
    state: &mut CTerminal,
    command: &mut [u8],
    answer: &mut [u8],
    size: u8,
    out: &mut [u8],
) -> CTurn
    ensures { TerminalCalled (λ _. ask_ifs size) (lent state.old command.old answer.old)
        (lent state.new command.new answer.new) out.old out.new result }
{
    c_lent::lent::lent_terminal_ask_ifs(state, command, answer, size, out)
}

/// Returns how many octets at the front of the answer's buffer are the answer. It is there from the turn that completes
/// it until the next command is taken. Returns `ARGUMENT` if there is none.
#[unsafe(no_mangle)]
pub extern "C" fn scard_lent_terminal_answer(
    state: &CTerminal,
    command: &[u8],
    answer: &[u8],
) -> Verdict
    ensures answer { (t : TerminalState) → IsTerminal state.now command.now answer.now t →
        IsAtFront t.answered answer.now result }
    ensures none { ((t : TerminalState) → IsTerminal state.now command.now answer.now t → ⊥) →
        result ≡ wrong_argument 0 }
{
    c_lent::lent::lent_terminal_answer(state, command, answer)
}

/// Begins a card with these parameters of T=1, as `scard_lent_terminal_begin` begins a terminal.
#[unsafe(no_mangle)]
pub extern "C" fn scard_lent_card_begin(
    state: &mut CCard,
    command: &mut [u8],
    reply: &mut [u8],
    ifsc: u8,
    bwi: u8,
    cwi: u8,
) -> Verdict
    ensures ok { IsUsable (record { ifsc = ifsc; bwi = bwi; cwi = cwi }) → (result ≡ ok_at 0) ×
        IsCard state.new command.new reply.new
        (card_with (at_most (length command.old) (length reply.old)) ifsc) }
    ensures overwritten { IsUsable (record { ifsc = ifsc; bwi = bwi; cwi = cwi }) →
        (command.new ≡ replicate (length command.old) 0) × (reply.new ≡ replicate (length reply.old) 0) }
    ensures argument { (IsUsable (record { ifsc = ifsc; bwi = bwi; cwi = cwi }) → ⊥) →
        (result ≡ wrong_argument 0) ×
        (lent state.new command.new reply.new ≡ lent state.old command.old reply.old) }
{
    c_lent::lent::lent_card_begin(state, command, reply, ifsc, bwi, cwi)
}

/// Takes the octets that the line delivered to the card as one block.
#[unsafe(no_mangle)]
pub extern "C" fn scard_lent_card_received(
    state: &mut CCard,
    command: &mut [u8],
    reply: &mut [u8],
    octets: &[u8],
    out: &mut [u8],
) -> CTurn
    ensures { CardCalled (λ c. card_takes (class_of c.ifsc octets.now))
        (lent state.old command.old reply.old)
        (lent state.new command.new reply.new) out.old out.new result }
{
    c_lent::lent::lent_card_received(state, command, reply, octets, out)
}

/// Takes a reply from the card's host. The reply must fit its buffer.
#[unsafe(no_mangle)]
pub extern "C" fn scard_lent_card_reply(
    state: &mut CCard,
    command: &mut [u8],
    reply: &mut [u8],
    octets: &[u8],
    out: &mut [u8],
) -> CTurn
    ensures { CardCalled (λ _. replies octets.now) (lent state.old command.old reply.old)
        (lent state.new command.new reply.new) out.old out.new result }
{
    c_lent::lent::lent_card_reply(state, command, reply, octets, out)
}

/// Requests more waiting time for the card's host, any multiple of it.
#[unsafe(no_mangle)]
pub extern "C" fn scard_lent_card_more_time(
    state: &mut CCard,
    command: &mut [u8],
    reply: &mut [u8],
    multiple: u8,
    out: &mut [u8],
) -> CTurn
    ensures { CardCalled (λ _. more_time multiple) (lent state.old command.old reply.old)
        (lent state.new command.new reply.new) out.old out.new result }
{
    c_lent::lent::lent_card_more_time(state, command, reply, multiple, out)
}

/// Requests that the terminal send information fields of up to `size` octets, 1 to 254.
#[unsafe(no_mangle)]
pub extern "C" fn scard_lent_card_ask_ifs(
    state: &mut CCard,
    command: &mut [u8],
    reply: &mut [u8],
    size: u8,
    out: &mut [u8],
) -> CTurn
    ensures { CardCalled (λ _. card_ask_ifs size) (lent state.old command.old reply.old)
        (lent state.new command.new reply.new) out.old out.new result }
{
    c_lent::lent::lent_card_ask_ifs(state, command, reply, size, out)
}

/// Returns how many octets at the front of the command's buffer are the command. It is there while the host owes the
/// reply to it. Returns `ARGUMENT` if there is none.
#[unsafe(no_mangle)]
pub extern "C" fn scard_lent_card_command(state: &CCard, command: &[u8], reply: &[u8]) -> Verdict
    ensures command { (c : CardState) → IsCard state.now command.now reply.now c →
        IsAtFront (owed c c.waits) command.now result }
    ensures none { ((c : CardState) → IsCard state.now command.now reply.now c → ⊥) →
        result ≡ wrong_argument 0 }
{
    c_lent::lent::lent_card_command(state, command, reply)
}
