//! What an end that differs from a line waits for, or waited for when it was last called.

ghost use Rattle.std.specs.Prelude.{◌≡◌, ◌++◌, OnOk, string_bytes};
ghost use Rattle.program.specs.Waits.{call_said, card_state, in_session, is_about_now, state_of, terminal_state, waiting_said};

use exchange_core::{Awaits, Call, Waiting};
use std::alloc::AllocError;
use t1_core::{CardAwaits, TerminalAwaits};

/// The end of the text for each state.
const IN_SESSION: &str = " in SESSION.md)";

/// Appends what an end waits for that gives this in place of a line. If the end refuses the call or has no turn, this
/// is its state at the line. Otherwise it is its state at its last call, which gave the turn.
pub(crate) fn push_waiting(
    text: &mut String,
    gives: &str,
    waiting: Option<Waiting>,
) -> Result<(), AllocError>
    ensures { OnOk result (string_bytes text.new ≡ string_bytes text.old
        ++ waiting_said gives.now waiting) }
{
    match waiting {
        Some(waiting) if is_about_now(gives) => {
            text.push_str("; it waits for ")?;
            push_state(text, waiting.now)
        }
        Some(Waiting { call, .. }) => push_call(text, call),
        None => Ok(()),
    }
}

/// Whether what an end gives is about its state at the line: a refused call, or no turn.
fn is_about_now(gives: &str) -> bool
    ensures { result ≡ is_about_now gives.now }
{
    gives.starts_with("refused ") || gives == "nothing"
}

/// Appends the last call of an end, if there was one, and what the end waited for.
fn push_call(text: &mut String, call: Option<Call>) -> Result<(), AllocError>
    ensures { OnOk result (string_bytes text.new ≡ string_bytes text.old ++ call_said call) }
{
    match call {
        Some(Call { line, awaits }) => {
            write!(text, "; line {line} called it while it waited for ")?;
            push_state(text, awaits)
        }
        None => Ok(()),
    }
}

/// Appends a state, and the page that describes it.
fn push_state(text: &mut String, awaits: Awaits) -> Result<(), AllocError>
    ensures { OnOk result (string_bytes text.new ≡ string_bytes text.old
        ++ (state_of awaits ++ in_session)) }
{
    text.push_str(state(awaits))?;
    text.push_str(IN_SESSION)?;
    Ok(())
}

/// Returns what an end waits for, and the name of that state in docs/SESSION.md.
fn state(awaits: Awaits) -> &'static str
    ensures { result.now ≡ state_of awaits }
{
    match awaits {
        Awaits::Terminal(awaits) => terminal_state(awaits),
        Awaits::Card(awaits) => card_state(awaits),
    }
}

fn terminal_state(awaits: TerminalAwaits) -> &'static str
    ensures { result.now ≡ terminal_state awaits }
{
    match awaits {
        TerminalAwaits::Call => "a call (state Idle",
        TerminalAwaits::Acknowledgement => {
            "the acknowledgment of a block of its command (state Ack"
        }
        TerminalAwaits::Answer => "the answer (state Answer",
        TerminalAwaits::MoreAnswer => "the next block of the answer (state More",
        TerminalAwaits::Size(_) => "the response to its IFS request (state Ifs",
        TerminalAwaits::Resynch(_) => "the response to its RESYNCH request (state Resynch",
        TerminalAwaits::Nothing => "nothing (state Dead",
    }
}

fn card_state(awaits: CardAwaits) -> &'static str
    ensures { result.now ≡ card_state awaits }
{
    match awaits {
        CardAwaits::Command => "a block of a command (state Command",
        CardAwaits::Host => "its host (state Host",
        CardAwaits::Acknowledgement => { "the acknowledgment of a block of its reply (state Reply" }
        CardAwaits::Size(_) => "the response to its IFS request (state Asking",
        CardAwaits::Time(_) => "the response to its WTX request (state Asking",
    }
}
