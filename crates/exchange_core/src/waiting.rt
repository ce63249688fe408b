//! What a replayed end waits for before a line of the file.

ghost use Rattle.std.specs.Prelude.{◌≡◌, ◌-◌, None, IfOk, take};
ghost use Rattle.exchange_core.specs.Waiting.{IsWaiting, waiting_after, waiting_from};

use crate::end::Replayed;
use crate::params::params_of;
use crate::replaying::{FIRST_LINE, ReplayFault, replay_line};
use atr_core::T1Params;
use block_core::Side;
use exchange_text::{Exchange, Line};
use std::alloc::{AllocError, Global};
use t1_core::{Card, CardAwaits, Terminal, TerminalAwaits};

/// What one of the two ends waits for.
#[derive(Clone, Copy, PartialEq, Eq)]
pub enum Awaits {
    /// What the terminal waits for.
    Terminal(TerminalAwaits),
    /// What the card waits for.
    Card(CardAwaits),
}

/// A line with which the end was called, and what it waited for before.
#[derive(Clone, Copy, PartialEq, Eq)]
pub struct Call {
    /// The line of the text, counted from 1.
    pub line: usize,
    /// What the end waited for.
    pub awaits: Awaits,
}

/// What an end waits for at a line.
#[derive(Clone, Copy, PartialEq, Eq)]
pub struct Waiting {
    /// What it waits for.
    pub now: Awaits,
    /// The last call before, if there was one.
    pub call: Option<Call>,
}

/// Returns what a replayed end waits for right before this line of the text, counted from 1, and its last call before.
///
/// `None` if the answer to reset has no parameters of T=1, or if the end gives something else at an earlier line.
pub fn waiting_at(
    alloc: Global,
    exchange: &Exchange,
    side: Side,
    line: usize,
) -> Result<Option<Waiting>, AllocError>
    ensures { IfOk result (IsWaiting exchange.now.atr exchange.now.lines side line) }
{
    match params_of(exchange.atr()) {
        Ok(params) => {
            let lines = lines_before(exchange.lines().get(), line);
            waiting_of_side(alloc, params, lines, side)
        }
        Err(_) => Ok(None),
    }
}

/// Returns the lines before the line with this number, or all if there are fewer.
fn lines_before(lines: &[Line], line: usize) -> &[Line]
    ensures { result.now ≡ take (line - 3) lines.now }
{
    let count = line.saturating_sub(FIRST_LINE);
    if count < lines.len() {
        &lines[..count]
    } else {
        lines
    }
}

/// Returns what a new end with these parameters waits for after these lines, and its last call.
fn waiting_of_side(
    alloc: Global,
    params: T1Params,
    lines: &[Line],
    side: Side,
) -> Result<Option<Waiting>, AllocError>
    ensures { IfOk result (λ waiting. waiting ≡ waiting_after params.ifsc lines.now side) }
{
    match side {
        Side::Terminal => waiting_after(alloc, Terminal::new(alloc, params)?, lines),
        Side::Card => waiting_after(alloc, Card::new(alloc, params)?, lines),
    }
}

/// Returns what an end waits for after these lines, and its last call.
fn waiting_after<E: Replayed + Drop>(
    alloc: Global,
    mut end: E,
    lines: &[Line],
) -> Result<Option<Waiting>, AllocError>
    ensures { IfOk result (λ waiting.
        waiting ≡ waiting_from E.end E.waits lines.now 3 end None None) }
{
    let mut number = FIRST_LINE;
    let mut pending = None;
    let mut call = None;
    for line in lines {
        let awaits = end.waits();
        let was_idle = pending.is_none();
        match replay_line(alloc, &mut end, pending, line, number) {
            Ok(after) => pending = after,
            Err(ReplayFault::Differs { .. }) => return Ok(None),
            Err(ReplayFault::Memory) => return Err(AllocError),
        }
        if was_idle && pending.is_some() {
            call = Some(Call {
                line: number,
                awaits,
            });
        }
        number += 1;
    }
    Ok(Some(Waiting {
        now: end.waits(),
        call,
    }))
}
