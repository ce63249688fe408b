//! The session of a card, step by step: its line, the card of T=1 above it, and its host.
//!
//! These are the calls of [`CardSession`](crate::CardSession) for a program that keeps the parts of a session apart. The
//! caller keeps the card, its line, both buffers, and a buffer for the block that is sent. `own` is how many octets at
//! the front of `out` are that block. `granted` is how many requests of the host about the present command the terminal
//! granted.

ghost use Rattle.std.specs.Prelude.{◌≡◌, ◌≤◌, List, ℕ, length, take, true, IfErr};
ghost use Rattle.t1_core.specs.Card.{replies, more_time, ask_ifs};
ghost use Rattle.t1_core.specs.Put.{FitsCardPut};
ghost use Rattle.t1_core.specs.CardViews.{card_held, IsLentCard, IsBlank};
ghost use Rattle.line_core.specs.Bursts.{HasHeard};
ghost use Rattle.session_core.specs.declared.lines.Start.TheVariants.{Exchange};
ghost use Rattle.session_core.specs.declared.progress.Rules.{Rules};
ghost use Rattle.session_core.specs.Wire.{Step, ruled, seen, forever, serves};
ghost use Rattle.session_core.specs.Lines.{GoesTo, HoldsWhole, stepped, first_of};
ghost use Rattle.session_core.specs.Terminals.{IsSent};
ghost use Rattle.session_core.specs.Cards.{IsTurned, TurnsTo, Asks, Hears, IsStepped, answering, is_asking, granted_after, is_for_host, asked_about};

use crate::action::{Action, own_block};
use crate::event::Next;
use crate::lines::{Line, Start};
use crate::progress::FOREVER;
use t1_core::{CardFault, CardWait, EncodedCardTurn, LentCard};

/// A command has at least four octets: CLA, INS, P1 and P2 (ISO/IEC 7816-4, clause 5.1).
const SHORTEST_COMMAND: usize = 4;

/// SW 6700, wrong length (ISO/IEC 7816-4, clause 5.1.3).
const WRONG_LENGTH: [u8; 2] = [0x67, 0x00];

impl Line {
    /// Sends a block of a card, and then waits without a limit.
    fn answer(&mut self, start: Start, count: usize, now: u64) -> Action
        ensures { (burst : List ℕ) → HasHeard self.old.framer burst
            → IsSent (answering start self.old.rules (seen self.old.progress) burst now) self.old.rules count self.new
            result }
    {
        let next = self.start(start, FOREVER, now);
        Action::of(next, count)
    }

    /// Does what a card's turn says. The command that its host owes the reply to has so many octets.
    fn card_turn(
        &mut self,
        own: &mut u32,
        start: Start,
        turn: EncodedCardTurn,
        command: usize,
        now: u64,
    ) -> Action
        requires { FitsCardPut turn }
        ensures { (burst : List ℕ) → HasHeard self.old.framer burst
            → IsTurned turn command start self.old.rules (seen self.old.progress) burst now self.new own.old own.new
            result }
    {
        match turn {
            EncodedCardTurn::Send(count) => {
                *own = count as u32;
                self.answer(start, count, now)
            }
            EncodedCardTurn::Asked => Action::Asked(command),
        }
    }
}

/// Returns how many octets the command has that the host owes the reply to, or 0 if it owes none.
fn command_len(end: &LentCard, command: &[u8]) -> usize
    requires { end.now.command_len ≤ length command.now }
    ensures { (reply : List ℕ) → result ≡ asked_about (card_held end.now command.now reply) }
{
    match end.command(command) {
        Some(octets) => octets.len(),
        None => 0,
    }
}

/// Whether the card waits for the response to a request of its host.
fn is_asking(end: &LentCard) -> bool
    ensures { (command reply : List ℕ)
        → result ≡ is_asking (card_held end.now command reply).waits }
{
    match end.wait {
        CardWait::Asking(_) => true,
        CardWait::Command | CardWait::Joining | CardWait::Host | CardWait::Reply(_) => false,
    }
}

/// Returns how many requests of the host were granted, once it is asked.
fn granted_after(was_asking: bool, granted: usize) -> usize
    ensures { result ≡ granted_after was_asking granted }
{
    if was_asking {
        granted.saturating_add(1)
    } else {
        0
    }
}

/// Whether the host gets a message of so many octets.
fn is_for_host(takes_short: bool, count: usize) -> bool
    ensures { result ≡ is_for_host takes_short count }
{
    takes_short || SHORTEST_COMMAND <= count
}

/// Begins to serve the terminal, or goes on after the line failed.
pub fn serve(line: &mut Line, own: &mut u32, now: u64) -> Action
    ensures own { own.new ≡ 0 }
    ensures line { (burst : List ℕ) → HasHeard line.old.framer burst
        → IsSent (serves (ruled line.old.rules) (first_of line.old forever) burst now) line.old.rules 0 line.new
        result }
{
    *own = 0;
    let next = line.listen(now);
    Action::of(next, 0)
}

/// Replies for the host.
pub fn reply(
    end: &mut LentCard,
    line: &mut Line,
    own: &mut u32,
    command: &[u8],
    reply: &mut [u8],
    octets: &[u8],
    now: u64,
    out: &mut [u8],
) -> Result<Action, CardFault>
    requires room { 258 ≤ length out.old }
    requires fit { IsLentCard end.old (length command.now) (length reply.old) }
    ensures fit { IsLentCard end.new (length command.now) (length reply.new) }
    ensures turn { (burst : List ℕ) → HasHeard line.old.framer burst
        → TurnsTo (card_held end.old command.now reply.old) (replies octets.now) Exchange line.old.rules
        (seen line.old.progress) burst now (card_held end.new command.now reply.new) line.new own.old own.new out.old
        out.new result }
    ensures refused { IfErr result
        (λ _. (end.new ≡ end.old) × (reply.new ≡ reply.old) × (line.new ≡ line.old)
        × (own.new ≡ own.old)) }
    ensures blank { IsBlank end.old command.now → IsBlank end.new command.now }
{
    let turn = end.reply_into(command, reply, octets, out)?;
    Ok(line.card_turn(own, Start::Exchange, turn, command_len(end, command), now))
}

/// Asks the terminal for more time, any multiple of the waiting time.
pub fn more_time(
    end: &mut LentCard,
    line: &mut Line,
    own: &mut u32,
    command: &[u8],
    reply: &[u8],
    multiple: u8,
    now: u64,
    out: &mut [u8],
) -> Result<Action, CardFault>
    requires room { 258 ≤ length out.old }
    requires fit { IsLentCard end.old (length command.now) (length reply.now) }
    ensures fit { IsLentCard end.new (length command.now) (length reply.now) }
    ensures turn { (burst : List ℕ) → HasHeard line.old.framer burst
        → TurnsTo (card_held end.old command.now reply.now) (more_time multiple) Exchange line.old.rules
        (seen line.old.progress) burst now (card_held end.new command.now reply.now) line.new own.old own.new out.old
        out.new result }
    ensures refused { IfErr result
        (λ _. (end.new ≡ end.old) × (line.new ≡ line.old) × (own.new ≡ own.old)) }
    ensures blank { IsBlank end.old command.now → IsBlank end.new command.now }
{
    let turn = end.more_time_into(command, reply, multiple, out)?;
    Ok(line.card_turn(own, Start::Exchange, turn, command_len(end, command), now))
}

/// Asks the terminal to send fields of at most so many octets.
pub fn ask_ifs(
    end: &mut LentCard,
    line: &mut Line,
    own: &mut u32,
    command: &[u8],
    reply: &[u8],
    size: u8,
    now: u64,
    out: &mut [u8],
) -> Result<Action, CardFault>
    requires room { 258 ≤ length out.old }
    requires fit { IsLentCard end.old (length command.now) (length reply.now) }
    ensures fit { IsLentCard end.new (length command.now) (length reply.now) }
    ensures turn { (burst : List ℕ) → HasHeard line.old.framer burst
        → TurnsTo (card_held end.old command.now reply.now) (ask_ifs size) Exchange line.old.rules
        (seen line.old.progress) burst now (card_held end.new command.now reply.now) line.new own.old own.new out.old
        out.new result }
    ensures refused { IfErr result
        (λ _. (end.new ≡ end.old) × (line.new ≡ line.old) × (own.new ≡ own.old)) }
    ensures blank { IsBlank end.old command.now → IsBlank end.new command.now }
{
    let turn = end.ask_ifs_into(command, reply, size, out)?;
    Ok(line.card_turn(own, Start::Exchange, turn, command_len(end, command), now))
}

/// Takes what happened on the line, by its number, and returns what to do next.
pub fn step(
    end: &mut LentCard,
    line: &mut Line,
    own: &mut u32,
    granted: &mut usize,
    takes_short: bool,
    command: &mut [u8],
    reply: &mut [u8],
    event: u8,
    octets: &[u8],
    now: u64,
    out: &mut [u8],
) -> Result<Action, CardFault>
    requires room { 258 ≤ length out.old }
    requires fit { IsLentCard end.old (length command.old) (length reply.old) }
    ensures fit { IsLentCard end.new (length command.new) (length reply.new) }
    ensures step { (burst : List ℕ) → HasHeard line.old.framer burst
        → IsStepped
        (stepped event (ruled line.old.rules) (seen line.old.progress) burst octets.now now (take own.old out.old)).next
        (stepped event (ruled line.old.rules) (seen line.old.progress) burst octets.now now (take own.old out.old))
        line.old.rules (card_held end.old command.old reply.old) takes_short granted.old granted.new now
        (card_held end.new command.new reply.new) line.new own.old own.new out.old out.new result }
    ensures blank { IsBlank end.old command.old → IsBlank end.new command.new }
{
    let next = line.happen(event, octets, now, own_block(out, *own));
    let is_whole = line.has_ended_whole(event, octets, next);
    proceed(
        end,
        line,
        own,
        granted,
        takes_short,
        command,
        reply,
        next,
        is_whole,
        now,
        out,
    )
}

/// Does what the line says next, after [`Line::happen`]. `is_whole` says that the burst is known to be a whole block
/// ([`Line::has_ended_whole`]).
pub fn proceed(
    end: &mut LentCard,
    line: &mut Line,
    own: &mut u32,
    granted: &mut usize,
    takes_short: bool,
    command: &mut [u8],
    reply: &mut [u8],
    next: Next,
    is_whole: bool,
    now: u64,
    out: &mut [u8],
) -> Result<Action, CardFault>
    requires whole { is_whole ≡ true → HoldsWhole line.old.framer }
    requires room { 258 ≤ length out.old }
    requires fit { IsLentCard end.old (length command.old) (length reply.old) }
    ensures fit { IsLentCard end.new (length command.new) (length reply.new) }
    ensures step { (step : Step) (rules : Rules) → GoesTo step rules line.old next
        → IsStepped step.next step rules (card_held end.old command.old reply.old) takes_short granted.old granted.new
        now (card_held end.new command.new reply.new) line.new own.old own.new out.old out.new result }
    ensures blank { IsBlank end.old command.old → IsBlank end.new command.new }
{
    match next {
        Next::Heard => {
            heard(
                end,
                line,
                own,
                granted,
                takes_short,
                command,
                reply,
                is_whole,
                now,
                out,
            )
        }
        Next::Quiet => Ok(Action::of(line.listen(now), *own as usize)),
        _ => Ok(Action::of(next, *own as usize)),
    }
}

/// Passes the burst of the line to the card, and asks its host if that has to reply.
fn heard(
    end: &mut LentCard,
    line: &mut Line,
    own: &mut u32,
    granted: &mut usize,
    takes_short: bool,
    command: &mut [u8],
    reply: &mut [u8],
    is_whole: bool,
    now: u64,
    out: &mut [u8],
) -> Result<Action, CardFault>
    requires whole { is_whole ≡ true → HoldsWhole line.old.framer }
    requires room { 258 ≤ length out.old }
    requires fit { IsLentCard end.old (length command.old) (length reply.old) }
    ensures fit { IsLentCard end.new (length command.new) (length reply.new) }
    ensures turn { (burst : List ℕ) → HasHeard line.old.framer burst
        → Hears (card_held end.old command.old reply.old) takes_short granted.old granted.new line.old.rules
        (seen line.old.progress) burst now (card_held end.new command.new reply.new) line.new own.old own.new out.old
        out.new result }
    ensures blank { IsBlank end.old command.old → IsBlank end.new command.new }
{
    let was_asking = is_asking(end);
    match end.received_burst_into(command, reply, line.framer.burst(), is_whole, out)? {
        EncodedCardTurn::Send(count) => {
            *own = count as u32;
            Ok(line.answer(Start::Talk, count, now))
        }
        EncodedCardTurn::Asked => {
            *granted = granted_after(was_asking, *granted);
            asked(end, line, own, takes_short, command, reply, now, out)
        }
    }
}

/// Asks the host for its reply, or replies for it.
fn asked(
    end: &mut LentCard,
    line: &mut Line,
    own: &mut u32,
    takes_short: bool,
    command: &[u8],
    answer: &mut [u8],
    now: u64,
    out: &mut [u8],
) -> Result<Action, CardFault>
    requires room { 258 ≤ length out.old }
    requires fit { IsLentCard end.old (length command.now) (length answer.old) }
    ensures fit { IsLentCard end.new (length command.now) (length answer.new) }
    ensures turn { (burst : List ℕ) → HasHeard line.old.framer burst
        → Asks (is_for_host takes_short (asked_about (card_held end.old command.now answer.old)))
        (card_held end.old command.now answer.old) line.old.rules (seen line.old.progress) burst now
        (card_held end.new command.now answer.new) line.new own.old own.new out.old out.new result }
    ensures blank { IsBlank end.old command.now → IsBlank end.new command.now }
{
    let count = command_len(end, command);
    if is_for_host(takes_short, count) {
        return Ok(Action::Asked(count));
    }
    let wrong_length = WRONG_LENGTH;
    reply(end, line, own, command, answer, &wrong_length, now, out)
}
