//! The session of a terminal as steps, over a state and buffers that the caller owns (ISO/IEC 7816-3, clause 11).

ghost use Rattle.std.specs.Prelude.{◌≡◌, ◌≤◌, List, ℕ, length, true, IfErr, Some};
ghost use Rattle.t1_core.specs.declared.lent.LentTerminal.{LentTerminal};
ghost use Rattle.t1_core.specs.Terminal.{TerminalState, transmit, ask_ifs};
ghost use Rattle.t1_core.specs.Views.{terminal_held, IsLentTerminal};
ghost use Rattle.line_core.specs.Bursts.{HasHeard};
ghost use Rattle.session_core.specs.declared.lines.Start.TheVariants.{Exchange};
ghost use Rattle.session_core.specs.declared.progress.Rules.{Rules};
ghost use Rattle.session_core.specs.Wire.{Step, seen};
ghost use Rattle.session_core.specs.Lines.{GoesTo, HoldsWhole};
ghost use Rattle.session_core.specs.Terminals.{TurnsTo};
ghost use Rattle.c_lent.specs.Kept.{terminal_of};
ghost use Rattle.c_lent.specs.Lent.{lent};
ghost use Rattle.c_lent.specs.Session.{IsEnd, Proceeds, SessionBegun, SessionCalled, SessionStepped, SessionResynched, input_of};

use crate::kept::CTerminal;
use crate::session_next::CSessionNext;
use crate::verdict::Verdict;
use block_core::LONGEST_BLOCK;
use session_core::{Action, Limits, Line, Next, Setup, own_block, terminal};
use t1_core::{LentTerminal, TerminalFault};

/// A mark of [`Rules`](session_core::Rules): the end is a terminal.
const TERMINAL: u8 = 0;

/// The session of a terminal. Only a value that a call left is usable, and each call checks it.
#[repr(C)]
#[derive(Clone, Copy)]
pub struct CSession {
    pub terminal: CTerminal,
    pub line: Line,
    /// The limits of one exchange, 0 for the default. They may change between exchanges.
    pub most_time: u64,
    pub most_blocks: u32,
    /// How many octets the session's own block has, at the front of the buffer for a block.
    pub own: u32,
}

/// A call of the application.
#[derive(Clone, Copy)]
pub enum SessionCall<'a> {
    /// Send this command.
    Exchange(&'a [u8]),
    /// Request this size.
    AskIfs(u8),
}

impl<'a> SessionCall<'a> {
    /// Makes the call over the parts of a session.
    fn lend(
        self,
        end: &mut LentTerminal,
        line: &mut Line,
        own: &mut u32,
        limits: Limits,
        command: &mut [u8],
        answer: &[u8],
        now: u64,
        out: &mut [u8],
    ) -> Result<Action, TerminalFault>
        requires room { 258 ≤ length out.old }
        requires fit { IsLentTerminal end.old (length command.old) (length answer.now) }
        ensures fit { IsLentTerminal end.new (length command.new) (length answer.now) }
        ensures turn { (burst : List ℕ) → HasHeard line.old.framer burst
            → TurnsTo (terminal_held end.old command.old answer.now) (input_of self.entry) Exchange limits
            line.old.rules (seen line.old.progress) burst now (terminal_held end.new command.new answer.now) line.new
            own.old own.new out.old out.new result }
        ensures refused { IfErr result (λ _. (end.new ≡ end.old) × (command.new ≡ command.old)
            × (line.new ≡ line.old) × (own.new ≡ own.old)) }
    {
        match self {
            SessionCall::Exchange(octets) => {
                terminal::exchange(end, line, own, limits, command, answer, octets, now, out)
            }
            SessionCall::AskIfs(size) => {
                terminal::ask_ifs(end, line, own, limits, command, answer, size, now, out)
            }
        }
    }
}

/// Begins a session with a card that was just reset, and sets both buffers to 0.
pub fn session_begin(
    session: &mut CSession,
    command: &mut [u8],
    answer: &mut [u8],
    setup: &Setup,
) -> Verdict
    ensures { SessionBegun setup.now (lent session.old command.old answer.old)
        (lent session.new command.new answer.new) result }
{
    let Some(params) = setup.params() else {
        return Verdict::argument();
    };
    let Some(rules) = setup.rules(params, TERMINAL) else {
        return Verdict::argument();
    };
    session.terminal = CTerminal::of(&LentTerminal::begin(params, command, answer));
    session.line.begin(&rules);
    session.most_time = setup.most_time;
    session.most_blocks = setup.most_blocks;
    session.own = 0;
    Verdict::ok(0)
}

/// Sends a command.
pub fn session_exchange(
    session: &mut CSession,
    command: &mut [u8],
    answer: &mut [u8],
    octets: &[u8],
    now: u64,
    out: &mut [u8],
) -> CSessionNext
    ensures { SessionCalled (transmit octets.now) now (lent session.old command.old answer.old)
        (lent session.new command.new answer.new) out.old out.new result }
{
    let call = SessionCall::Exchange(octets);
    session_turn(session, command, answer, call, now, out)
}

/// Requests that the card send information fields of up to `size` octets, 1 to 254.
pub fn session_ask_ifs(
    session: &mut CSession,
    command: &mut [u8],
    answer: &mut [u8],
    size: u8,
    now: u64,
    out: &mut [u8],
) -> CSessionNext
    ensures { SessionCalled (ask_ifs size) now (lent session.old command.old answer.old)
        (lent session.new command.new answer.new) out.old out.new result }
{
    let call = SessionCall::AskIfs(size);
    session_turn(session, command, answer, call, now, out)
}

/// Makes a call of the application.
fn session_turn(
    session: &mut CSession,
    command: &mut [u8],
    answer: &[u8],
    call: SessionCall<'_>,
    now: u64,
    out: &mut [u8],
) -> CSessionNext
    ensures { SessionCalled (input_of call.entry) now (lent session.old command.old answer.now)
        (lent session.new command.new answer.now) out.old out.new result }
{
    if out.len() < LONGEST_BLOCK {
        return CSessionNext::no_room();
    }
    let Some(mut end) = session.terminal.fitting(command.len(), answer.len()) else {
        return CSessionNext::no_end();
    };
    let limits = Limits::of(session.most_time, session.most_blocks);
    let line = &mut session.line;
    match call.lend(
        &mut end,
        line,
        &mut session.own,
        limits,
        command,
        answer,
        now,
        out,
    ) {
        Ok(action) => {
            session.terminal = CTerminal::of(&end);
            CSessionNext::of_terminal(Ok(action))
        }
        Err(fault) => CSessionNext::of_terminal(Err(fault)),
    }
}

/// Begins a session with a card that can't be reset, by RESYNCH.
pub fn session_resync(
    session: &mut CSession,
    command: &mut [u8],
    answer: &mut [u8],
    setup: &Setup,
    now: u64,
    out: &mut [u8],
) -> CSessionNext
    ensures { SessionResynched setup.now now (lent session.old command.old answer.old)
        (lent session.new command.new answer.new) out.old out.new result }
{
    if out.len() < LONGEST_BLOCK {
        return CSessionNext::no_room();
    }
    let Some(params) = setup.params() else {
        return CSessionNext::no_end();
    };
    let Some(rules) = setup.rules(params, TERMINAL) else {
        return CSessionNext::no_end();
    };
    session.most_time = setup.most_time;
    session.most_blocks = setup.most_blocks;
    session.own = 0;
    let mut end = LentTerminal::begin(params, command, answer);
    let line = &mut session.line;
    line.begin(&rules);
    let acted = terminal::resynch(&mut end, line, &mut session.own, command, answer, now, out);
    session.terminal = CTerminal::of(&end);
    CSessionNext::of_terminal(acted)
}

/// Reports what happened on the line, by its number, and returns what to do next. The state of the terminal is read only
/// if a burst has ended or none came.
pub fn session_step(
    session: &mut CSession,
    command: &mut [u8],
    answer: &mut [u8],
    event: u8,
    octets: &[u8],
    now: u64,
    out: &mut [u8],
) -> CSessionNext
    ensures { SessionStepped event octets.now now (lent session.old command.old answer.old)
        (lent session.new command.new answer.new) out.old out.new result }
{
    if out.len() < LONGEST_BLOCK {
        return CSessionNext::no_room();
    }
    if !session.terminal.is_fitting(command.len(), answer.len()) {
        return CSessionNext::no_end();
    }
    let own = session.own;
    let next = session.line.happen(event, octets, now, own_block(out, own));
    if next.is_for_end() {
        let is_whole = session.line.has_ended_whole(event, octets, next);
        session_proceed(session, command, answer, next, is_whole, now, out)
    } else {
        CSessionNext::acts(Action::of(next, own as usize))
    }
}

/// Passes what the line says next to the terminal. `is_whole` says that the burst is known to be a whole block.
#[inline(always)]
fn session_proceed(
    session: &mut CSession,
    command: &[u8],
    answer: &mut [u8],
    next: Next,
    is_whole: bool,
    now: u64,
    out: &mut [u8],
) -> CSessionNext
    requires whole { is_whole ≡ true → HoldsWhole session.old.line.framer }
    requires room { 258 ≤ length out.old }
    requires end { (end : LentTerminal) × (terminal_of session.old.terminal ≡ Some end)
        × IsLentTerminal end (length command.now) (length answer.old) }
    ensures { (t : TerminalState) → IsEnd (lent session.old command.now answer.old) t
        → (step : Step) (rules : Rules) → GoesTo step rules session.old.line next
        → Proceeds t step rules now (lent session.old command.now answer.old)
        (lent session.new command.now answer.new) out.old out.new result }
{
    let Some(mut end) = session.terminal.spelled() else {
        return CSessionNext::no_end();
    };
    let line = &mut session.line;
    let own = &mut session.own;
    let acted = terminal::proceed(
        &mut end, line, own, command, answer, next, is_whole, now, out,
    );
    session.terminal = CTerminal::of(&end);
    CSessionNext::of_terminal(acted)
}
