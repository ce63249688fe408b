//! The loop of a terminal.

ghost use Rattle.std.specs.Prelude.{◌≡◌, ◌≤◌, ℕ, List, length, false, IfOk, IfErr};
ghost use Rattle.std.specs.declared.io.Error.{Error};
ghost use Rattle.t1_core.specs.Views.{terminal_held, IsLentTerminal};
ghost use Rattle.line_core.specs.Timed.{Sound, Sounds};
ghost use Rattle.session_core.specs.Wire.{is_set};
ghost use Rattle.session_core.specs.Terminals.{asking_resynch};
ghost use Rattle.session_laws.specs.Ending.{HasBurst, HasWaited, IsWithin, goes, sends, waited_by, is_limited};
ghost use Rattle.session_laws.specs.Talking.{Spoken, IsRun, ending_by};
ghost use Rattle.session_laws.specs.Running.{Gone, Ran, IsRefused, IsStopped, command_within, resynchronising, size_within, standing};

use crate::device::{LONGEST_BLOCK, SILENT, done};
use line_core::TimedDevice;
use session_core::{Action, Limits, TerminalSession};
use t1_core::TerminalFault;

/// How an exchange ended.
#[derive(Clone, Copy, Debug)]
pub struct Ended {
    /// The last action: how the exchange ended.
    pub action: Action,
    /// How many blocks the terminal sent.
    pub blocks: u32,
    /// How long it waited in silences that were as long as it asked for, in microseconds, or the greatest number if that
    /// is more.
    pub waited: u64,
}

/// Whether the session goes on after this action.
fn goes(action: &Action) -> bool
    ensures { result ≡ goes action.now }
{
    matches!(action, Action::Send(_) | Action::Wait(_))
}

/// Returns how many blocks are sent by this action.
fn sends(action: &Action) -> u32
    ensures { result ≡ sends action.now }
{
    match action {
        Action::Send(_) => 1,
        _ => 0,
    }
}

/// Returns how long the terminal has waited by this event after this action.
fn waited(event: u8, action: &Action) -> u64
    ensures { result ≡ waited_by event action.now }
{
    match action {
        Action::Wait(time) if event == SILENT => *time,
        _ => 0,
    }
}

/// Does what each action says, from the first one on, until the session rests. The terminal has begun within these
/// limits.
fn run<D: TimedDevice>(
    session: &mut TerminalSession,
    command: &[u8],
    answer: &mut [u8],
    limits: Limits,
    first: Action,
    device: &mut D,
    room: &mut [u8],
    out: &mut [u8; LONGEST_BLOCK],
) -> Result<Ended, TerminalFault>
    requires fit { IsLentTerminal session.old.terminal (length command.now) (length answer.old) }
    requires within { IsWithin limits.blocks 0 session.old.line first }
    requires waited { is_limited limits.time → HasWaited limits.time 0 session.old.line first }
    requires room { 1 ≤ length room.old }
    ensures fit { IsLentTerminal session.new.terminal (length command.now) (length answer.new) }
    ensures again { IfOk result (λ _. (is_set session.new.line.rules.is_card ≡ false)
        × (is_set session.new.line.rules.has_clock ≡ false) × HasBurst session.new.line) }
    ensures few { IfOk result (λ ended. ended.blocks ≤ limits.blocks) }
    ensures soon { is_limited limits.time → IfOk result (λ ended. ended.waited ≤ limits.time) }
    ensures over { IfOk result (λ ended. goes ended.action ≡ false) }
    ensures gone { IfOk result (λ ended. (spoken : List Spoken)
        × Gone (D.heard device.old) (D.heard device.new)
        (standing (terminal_held session.old.terminal command.now answer.old) session.old.line session.old.own out.old
        first) spoken
        (standing (terminal_held session.new.terminal command.now answer.new) session.new.line session.new.own out.new
        ended.action)
        ended.blocks ended.waited) }
    ensures stopped { IfErr result (λ fault. (sounds : List Sound)
        × Sounds (D.heard device.old) (D.heard device.new) sounds
        × IsStopped (standing (terminal_held session.old.terminal command.now answer.old) session.old.line
        session.old.own out.old first) fault
        sounds) }
{
    let mut blocks: u32 = 0;
    let mut time: u64 = 0;
    let mut action = first;
    while goes(&action) {
        let (event, count) = done(&action, device, out, room);
        blocks += sends(&action);
        time = time.saturating_add(waited(event, &action));
        action = session.step(command, answer, event, &room[..count], 0, out)?;
    }
    Ok(Ended {
        action,
        blocks,
        waited: time,
    })
}

/// Exchanges a command for its answer over a device: does what each action says, and passes the result to the session.
///
/// This always returns. The terminal sends at most as many blocks as its limit permits. The silences for which it waited
/// in full are together no longer than its limit of time, which the waits themselves count, since a device has no clock.
/// What comes is put into `room` first. The answer is at the front of `answer` if the last action is
/// [`Action::Answered`].
pub fn exchange_ends<D: TimedDevice>(
    session: &mut TerminalSession,
    command: &mut [u8],
    answer: &mut [u8],
    octets: &[u8],
    limits: Limits,
    device: &mut D,
    room: &mut [u8],
) -> Result<Ended, TerminalFault>
    requires fit { IsLentTerminal session.old.terminal (length command.old) (length answer.old) }
    requires terminal { is_set session.old.line.rules.is_card ≡ false }
    requires clock { is_set session.old.line.rules.has_clock ≡ false }
    requires burst { HasBurst session.old.line }
    requires room { 1 ≤ length room.old }
    ensures fit { IsLentTerminal session.new.terminal (length command.new) (length answer.new) }
    ensures again { IfOk result (λ _. (is_set session.new.line.rules.is_card ≡ false)
        × (is_set session.new.line.rules.has_clock ≡ false) × HasBurst session.new.line) }
    ensures few { IfOk result (λ ended. ended.blocks ≤ limits.blocks) }
    ensures soon { is_limited limits.time → IfOk result (λ ended. ended.waited ≤ limits.time) }
    ensures run { IfOk result (λ ended. (out : List ℕ) × (spoken : List Spoken)
        × Ran (D.heard device.old) (D.heard device.new) (terminal_held session.old.terminal command.old answer.old)
        session.old.line
        (command_within octets.now limits) spoken
        (standing (terminal_held session.new.terminal command.new answer.new) session.new.line session.new.own out
        ended.action)
        ended.blocks ended.waited
        × ((fault : Error) → IsRun (terminal_held session.old.terminal command.old answer.old)
        (command_within octets.now limits).input spoken (ending_by fault ended.action)
        (terminal_held session.new.terminal command.new answer.new))) }
    ensures over { IfOk result (λ ended. goes ended.action ≡ false) }
    ensures refused { IfErr result (λ fault. (sounds : List Sound)
        × Sounds (D.heard device.old) (D.heard device.new) sounds
        × IsRefused (terminal_held session.old.terminal command.old answer.old) session.old.line
        (command_within octets.now limits) fault sounds) }
{
    let mut out = [0; LONGEST_BLOCK];
    session.own = 0;
    let action = session.exchange(command, answer, octets, limits, 0, &mut out)?;
    run(
        session, command, answer, limits, action, device, room, &mut out,
    )
}

/// Asks the card over a device to send fields of at most so many octets. It ends as an exchange does, and the last action
/// is [`Action::IfsSet`] if the card accepted.
pub fn ask_ifs_ends<D: TimedDevice>(
    session: &mut TerminalSession,
    command: &[u8],
    answer: &mut [u8],
    size: u8,
    limits: Limits,
    device: &mut D,
    room: &mut [u8],
) -> Result<Ended, TerminalFault>
    requires fit { IsLentTerminal session.old.terminal (length command.now) (length answer.old) }
    requires terminal { is_set session.old.line.rules.is_card ≡ false }
    requires clock { is_set session.old.line.rules.has_clock ≡ false }
    requires burst { HasBurst session.old.line }
    requires room { 1 ≤ length room.old }
    ensures fit { IsLentTerminal session.new.terminal (length command.now) (length answer.new) }
    ensures again { IfOk result (λ _. (is_set session.new.line.rules.is_card ≡ false)
        × (is_set session.new.line.rules.has_clock ≡ false) × HasBurst session.new.line) }
    ensures few { IfOk result (λ ended. ended.blocks ≤ limits.blocks) }
    ensures soon { is_limited limits.time → IfOk result (λ ended. ended.waited ≤ limits.time) }
    ensures run { IfOk result (λ ended. (out : List ℕ) × (spoken : List Spoken)
        × Ran (D.heard device.old) (D.heard device.new) (terminal_held session.old.terminal command.now answer.old)
        session.old.line
        (size_within size limits) spoken
        (standing (terminal_held session.new.terminal command.now answer.new) session.new.line session.new.own out
        ended.action)
        ended.blocks ended.waited
        × ((fault : Error) → IsRun (terminal_held session.old.terminal command.now answer.old)
        (size_within size limits).input spoken (ending_by fault ended.action)
        (terminal_held session.new.terminal command.now answer.new))) }
    ensures over { IfOk result (λ ended. goes ended.action ≡ false) }
    ensures refused { IfErr result (λ fault. (sounds : List Sound)
        × Sounds (D.heard device.old) (D.heard device.new) sounds
        × IsRefused (terminal_held session.old.terminal command.now answer.old) session.old.line
        (size_within size limits) fault
        sounds) }
{
    let mut out = [0; LONGEST_BLOCK];
    session.own = 0;
    let action = session.ask_ifs(command, answer, size, limits, 0, &mut out)?;
    run(
        session, command, answer, limits, action, device, room, &mut out,
    )
}

/// Begins over a device with a card that can't be reset: drops octets until the line is silent, and asks for RESYNCH
/// (ISO/IEC 7816-3, clause 11.6.3.2). The session was just begun. The last action is [`Action::GivenUp`] if the card
/// answered: then both ends are as at their start. No limit of an exchange applies.
pub fn resynch_ends<D: TimedDevice>(
    session: &mut TerminalSession,
    command: &[u8],
    answer: &mut [u8],
    device: &mut D,
    room: &mut [u8],
) -> Result<Ended, TerminalFault>
    requires fit { IsLentTerminal session.old.terminal (length command.now) (length answer.old) }
    requires terminal { is_set session.old.line.rules.is_card ≡ false }
    requires clock { is_set session.old.line.rules.has_clock ≡ false }
    requires burst { HasBurst session.old.line }
    requires room { 1 ≤ length room.old }
    ensures fit { IsLentTerminal session.new.terminal (length command.now) (length answer.new) }
    ensures again { IfOk result (λ _. (is_set session.new.line.rules.is_card ≡ false)
        × (is_set session.new.line.rules.has_clock ≡ false) × HasBurst session.new.line) }
    ensures run { IfOk result (λ ended. (out : List ℕ) × (spoken : List Spoken)
        × Ran (D.heard device.old) (D.heard device.new)
        (asking_resynch (terminal_held session.old.terminal command.now answer.old)) session.old.line resynchronising
        spoken
        (standing (terminal_held session.new.terminal command.now answer.new) session.new.line session.new.own out
        ended.action)
        ended.blocks ended.waited
        × ((fault : Error) → IsRun (asking_resynch (terminal_held session.old.terminal command.now answer.old))
        resynchronising.input spoken (ending_by fault ended.action)
        (terminal_held session.new.terminal command.now answer.new))) }
    ensures over { IfOk result (λ ended. goes ended.action ≡ false) }
    ensures refused { IfErr result (λ fault. (sounds : List Sound)
        × Sounds (D.heard device.old) (D.heard device.new) sounds
        × IsRefused (asking_resynch (terminal_held session.old.terminal command.now answer.old)) session.old.line
        resynchronising
        fault sounds) }
{
    let mut out = [0; LONGEST_BLOCK];
    session.own = 0;
    let action = session.resynch(command, answer, 0, &mut out)?;
    let limits = Limits::NONE;
    run(
        session, command, answer, limits, action, device, room, &mut out,
    )
}
