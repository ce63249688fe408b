//! The session of a terminal, step by step: its line, and the terminal of T=1 above it.
//!
//! These are the calls of [`TerminalSession`](crate::TerminalSession) for a program that keeps the parts of a session
//! apart. The caller keeps the terminal, its line, both buffers, and a buffer for the block that is sent. `own` is how
//! many octets at the front of `out` are that block.

ghost use Rattle.std.specs.Prelude.{◌≡◌, ◌≤◌, List, ℕ, length, take, true, IfErr};
ghost use Rattle.t1_core.specs.Came.{class_of, quiet};
ghost use Rattle.t1_core.specs.Put.{FitsTerminalPut};
ghost use Rattle.t1_core.specs.Terminal.{transmit, ask_ifs, takes};
ghost use Rattle.t1_core.specs.Views.{terminal_held, IsLentTerminal};
ghost use Rattle.line_core.specs.Bursts.{HasHeard, handed};
ghost use Rattle.session_core.specs.declared.lines.Start.TheVariants.{Clear, Exchange, Talk};
ghost use Rattle.session_core.specs.declared.progress.Rules.{Rules};
ghost use Rattle.session_core.specs.Wire.{Step, ruled, seen};
ghost use Rattle.session_core.specs.Lines.{GoesTo, HoldsWhole, stepped};
ghost use Rattle.session_core.specs.Actions.{count_of};
ghost use Rattle.session_core.specs.Setup.{no_limits};
ghost use Rattle.session_core.specs.Terminals.{IsTurned, IsSent, TurnsTo, IsStepped, asking_resynch, limits_in, limited, sending};

use crate::action::{Action, own_block};
use crate::event::Next;
use crate::limits::product;
use crate::lines::{Line, Start};
use crate::setup::Limits;
use t1_core::{EncodedTerminalTurn, LentTerminal, TerminalFault, TerminalWait};

impl Line {
    /// Returns the limits of the current exchange.
    fn limits(&self) -> Limits
        ensures { result ≡ limits_in self.now.rules }
    {
        Limits {
            time: self.rules.most_time,
            blocks: self.rules.most_blocks,
        }
    }

    /// Sends the block of a terminal's turn, and then waits so many block waiting times.
    fn send(&mut self, start: Start, limits: Limits, count: usize, waiting: u8, now: u64) -> Action
        ensures { (burst : List ℕ) → HasHeard self.old.framer burst
            → IsSent (sending start limits self.old.rules (seen self.old.progress) burst waiting now)
            (limited self.old.rules limits) count self.new result }
    {
        self.rules.most_time = limits.time;
        self.rules.most_blocks = limits.blocks;
        let first = product(self.rules.bwt, u64::from(waiting));
        let next = self.start(start, first, now);
        Action::of(next, count)
    }

    /// Does what a terminal's turn says. The answer has so many octets.
    #[inline(always)]
    fn turn(
        &mut self,
        own: &mut u32,
        start: Start,
        limits: Limits,
        turn: EncodedTerminalTurn,
        answer: usize,
        now: u64,
    ) -> Action
        requires { FitsTerminalPut turn }
        ensures { (burst : List ℕ) → HasHeard self.old.framer burst
            → IsTurned turn answer start limits self.old.rules (seen self.old.progress) burst now self.new own.old
            own.new result }
    {
        match turn {
            EncodedTerminalTurn::Send { count, waiting } => {
                *own = count as u32;
                self.send(start, limits, count, waiting, now)
            }
            EncodedTerminalTurn::Answered => Action::answered(answer),
            EncodedTerminalTurn::IfsSet => Action::IfsSet,
            EncodedTerminalTurn::GivenUp => Action::GivenUp,
            EncodedTerminalTurn::Dead => Action::Dead,
        }
    }

    /// Does what a terminal's turn says. The calls in which that is rare share this function.
    #[inline(never)]
    fn turn_apart(
        &mut self,
        own: &mut u32,
        start: Start,
        limits: Limits,
        turn: EncodedTerminalTurn,
        answer: usize,
        now: u64,
    ) -> Action
        requires { FitsTerminalPut turn }
        ensures { (burst : List ℕ) → HasHeard self.old.framer burst
            → IsTurned turn answer start limits self.old.rules (seen self.old.progress) burst now self.new own.old
            own.new result }
    {
        self.turn(own, start, limits, turn, answer, now)
    }
}

/// Returns how many octets the answer has, or 0 if there is none.
fn answer_len(end: &LentTerminal, answer: &[u8]) -> usize
    requires { end.now.answer_len ≤ length answer.now }
    ensures { (command : List ℕ)
        → result ≡ count_of (terminal_held end.now command answer.now).answered }
{
    match end.answer(answer) {
        Some(octets) => octets.len(),
        None => 0,
    }
}

/// Begins to send a command, within these limits.
pub fn exchange(
    end: &mut LentTerminal,
    line: &mut Line,
    own: &mut u32,
    limits: Limits,
    command: &mut [u8],
    answer: &[u8],
    octets: &[u8],
    now: u64,
    out: &mut [u8],
) -> Result<Action, TerminalFault>
    requires room { 258 ≤ length out.old }
    requires fit { IsLentTerminal end.old (length command.old) (length answer.now) }
    ensures fit { IsLentTerminal end.new (length command.new) (length answer.now) }
    ensures turn { (burst : List ℕ) → HasHeard line.old.framer burst
        → TurnsTo (terminal_held end.old command.old answer.now) (transmit octets.now) Exchange limits line.old.rules
        (seen line.old.progress) burst now (terminal_held end.new command.new answer.now) line.new own.old own.new
        out.old out.new result }
    ensures refused { IfErr result
        (λ _. (end.new ≡ end.old) × (command.new ≡ command.old) × (line.new ≡ line.old)
        × (own.new ≡ own.old)) }
{
    let turn = end.transmit_into(command, answer, octets, out)?;
    Ok(line.turn_apart(
        own,
        Start::Exchange,
        limits,
        turn,
        answer_len(end, answer),
        now,
    ))
}

/// Begins to ask for a size, within these limits.
pub fn ask_ifs(
    end: &mut LentTerminal,
    line: &mut Line,
    own: &mut u32,
    limits: Limits,
    command: &[u8],
    answer: &[u8],
    size: u8,
    now: u64,
    out: &mut [u8],
) -> Result<Action, TerminalFault>
    requires room { 258 ≤ length out.old }
    requires fit { IsLentTerminal end.old (length command.now) (length answer.now) }
    ensures fit { IsLentTerminal end.new (length command.now) (length answer.now) }
    ensures turn { (burst : List ℕ) → HasHeard line.old.framer burst
        → TurnsTo (terminal_held end.old command.now answer.now) (ask_ifs size) Exchange limits line.old.rules
        (seen line.old.progress) burst now (terminal_held end.new command.now answer.now) line.new own.old own.new
        out.old out.new result }
    ensures refused { IfErr result
        (λ _. (end.new ≡ end.old) × (line.new ≡ line.old) × (own.new ≡ own.old)) }
{
    let turn = end.ask_ifs_into(command, answer, size, out)?;
    Ok(line.turn_apart(
        own,
        Start::Exchange,
        limits,
        turn,
        answer_len(end, answer),
        now,
    ))
}

/// Begins with a card that can't be reset: drops octets until the line is silent, and asks for RESYNCH (ISO/IEC 7816-3,
/// clause 11.6.3.2). The terminal and the line were just begun. No limit of an exchange applies.
pub fn resynch(
    end: &mut LentTerminal,
    line: &mut Line,
    own: &mut u32,
    command: &[u8],
    answer: &[u8],
    now: u64,
    out: &mut [u8],
) -> Result<Action, TerminalFault>
    requires room { 258 ≤ length out.old }
    requires fit { IsLentTerminal end.old (length command.now) (length answer.now) }
    ensures fit { IsLentTerminal end.new (length command.now) (length answer.now) }
    ensures turn { (burst : List ℕ) → HasHeard line.old.framer burst
        → TurnsTo (asking_resynch (terminal_held end.old command.now answer.now)) (takes quiet) Clear no_limits
        line.old.rules (seen line.old.progress) burst now (terminal_held end.new command.now answer.now) line.new
        own.old own.new out.old out.new result }
{
    end.wait = TerminalWait::Resynch(0);
    let turn = end.quiet_into(command, answer, out)?;
    Ok(line.turn_apart(
        own,
        Start::Clear,
        Limits::NONE,
        turn,
        answer_len(end, answer),
        now,
    ))
}

/// Takes what happened on the line, by its number, and returns what to do next.
pub fn step(
    end: &mut LentTerminal,
    line: &mut Line,
    own: &mut u32,
    command: &[u8],
    answer: &mut [u8],
    event: u8,
    octets: &[u8],
    now: u64,
    out: &mut [u8],
) -> Result<Action, TerminalFault>
    requires room { 258 ≤ length out.old }
    requires fit { IsLentTerminal end.old (length command.now) (length answer.old) }
    ensures fit { IsLentTerminal end.new (length command.now) (length answer.new) }
    ensures step { (burst : List ℕ) → HasHeard line.old.framer burst
        → IsStepped
        (stepped event (ruled line.old.rules) (seen line.old.progress) burst octets.now now (take own.old out.old)).next
        (stepped event (ruled line.old.rules) (seen line.old.progress) burst octets.now now (take own.old out.old))
        line.old.rules (terminal_held end.old command.now answer.old) now
        (terminal_held end.new command.now answer.new) line.new own.old own.new out.old out.new result }
{
    let next = line.happen(event, octets, now, own_block(out, *own));
    let is_whole = line.has_ended_whole(event, octets, next);
    proceed(end, line, own, command, answer, next, is_whole, now, out)
}

/// Does what the line says next, after [`Line::happen`]. `is_whole` says that the burst is known to be a whole block
/// ([`Line::has_ended_whole`]).
pub fn proceed(
    end: &mut LentTerminal,
    line: &mut Line,
    own: &mut u32,
    command: &[u8],
    answer: &mut [u8],
    next: Next,
    is_whole: bool,
    now: u64,
    out: &mut [u8],
) -> Result<Action, TerminalFault>
    requires whole { is_whole ≡ true → HoldsWhole line.old.framer }
    requires room { 258 ≤ length out.old }
    requires fit { IsLentTerminal end.old (length command.now) (length answer.old) }
    ensures fit { IsLentTerminal end.new (length command.now) (length answer.new) }
    ensures step { (step : Step) (rules : Rules) → GoesTo step rules line.old next
        → IsStepped step.next step rules (terminal_held end.old command.now answer.old) now
        (terminal_held end.new command.now answer.new) line.new own.old own.new out.old out.new result }
{
    match next {
        Next::Heard => heard(end, line, own, command, answer, is_whole, now, out),
        Next::Quiet => unheard(end, line, own, command, answer, now, out),
        _ => Ok(Action::of(next, *own as usize)),
    }
}

/// Passes the burst of the line to the terminal.
fn heard(
    end: &mut LentTerminal,
    line: &mut Line,
    own: &mut u32,
    command: &[u8],
    answer: &mut [u8],
    is_whole: bool,
    now: u64,
    out: &mut [u8],
) -> Result<Action, TerminalFault>
    requires whole { is_whole ≡ true → HoldsWhole line.old.framer }
    requires room { 258 ≤ length out.old }
    requires fit { IsLentTerminal end.old (length command.now) (length answer.old) }
    ensures fit { IsLentTerminal end.new (length command.now) (length answer.new) }
    ensures turn { (burst : List ℕ) → HasHeard line.old.framer burst
        → TurnsTo (terminal_held end.old command.now answer.old)
        (takes (class_of (terminal_held end.old command.now answer.old).ifsd (take handed burst))) Talk
        (limits_in line.old.rules) line.old.rules (seen line.old.progress) burst now
        (terminal_held end.new command.now answer.new) line.new own.old own.new out.old out.new result }
{
    let turn = end.received_burst_into(command, answer, line.framer.burst(), is_whole, out)?;
    let limits = line.limits();
    Ok(line.turn(own, Start::Talk, limits, turn, answer_len(end, answer), now))
}

/// Says to the terminal that nothing came.
fn unheard(
    end: &mut LentTerminal,
    line: &mut Line,
    own: &mut u32,
    command: &[u8],
    answer: &[u8],
    now: u64,
    out: &mut [u8],
) -> Result<Action, TerminalFault>
    requires room { 258 ≤ length out.old }
    requires fit { IsLentTerminal end.old (length command.now) (length answer.now) }
    ensures fit { IsLentTerminal end.new (length command.now) (length answer.now) }
    ensures turn { (burst : List ℕ) → HasHeard line.old.framer burst
        → TurnsTo (terminal_held end.old command.now answer.now) (takes quiet) Talk (limits_in line.old.rules)
        line.old.rules (seen line.old.progress) burst now (terminal_held end.new command.now answer.now) line.new
        own.old own.new out.old out.new result }
{
    let turn = end.quiet_into(command, answer, out)?;
    let limits = line.limits();
    Ok(line.turn_apart(own, Start::Talk, limits, turn, answer_len(end, answer), now))
}
