//! The session of a card as steps, over a state and buffers that the caller owns (ISO/IEC 7816-3, clause 11).

ghost use Rattle.std.specs.Prelude.{◌≡◌, ◌≤◌, List, ℕ, length, true, IfErr, Some};
ghost use Rattle.t1_core.specs.declared.lent.LentCard.{LentCard};
ghost use Rattle.t1_core.specs.Card.{CardState, replies, more_time, ask_ifs};
ghost use Rattle.t1_core.specs.CardViews.{card_held, IsLentCard, IsBlank};
ghost use Rattle.line_core.specs.Bursts.{HasHeard};
ghost use Rattle.session_core.specs.declared.lines.Start.TheVariants.{Exchange};
ghost use Rattle.session_core.specs.declared.progress.Rules.{Rules};
ghost use Rattle.session_core.specs.Wire.{Step, seen};
ghost use Rattle.session_core.specs.Lines.{GoesTo, HoldsWhole};
ghost use Rattle.session_core.specs.Cards.{TurnsTo};
ghost use Rattle.c_lent.specs.Kept.{card_of};
ghost use Rattle.c_lent.specs.Lent.{lent};
ghost use Rattle.c_lent.specs.Session.{CardProceeds, CardSessionBegun, CardSessionServes, CardSessionCalled, CardSessionStepped, IsBlankEnd, IsCardEnd, host_input};

use crate::kept::CCard;
use crate::session_next::CSessionNext;
use crate::verdict::Verdict;
use block_core::LONGEST_BLOCK;
use session_core::{Action, Line, Next, Setup, card, own_block};
use t1_core::{CardFault, LentCard};

/// A mark of [`Rules`](session_core::Rules): the end is a card.
const CARD: u8 = 1;

/// The session of a card. Only a value that a call left is usable, and each call checks it.
#[repr(C)]
#[derive(Clone, Copy)]
pub struct CCardSession {
    pub card: CCard,
    pub line: Line,
    /// How many requests of the host about the present command the terminal granted.
    pub granted: usize,
    /// How many octets the session's own block has, at the front of the buffer for a block.
    pub own: u32,
    /// Whether the host also gets messages of fewer than four octets.
    pub host_takes_short: u8,
}

/// A call of the card's host.
#[derive(Clone, Copy)]
pub enum HostCall<'a> {
    /// This is the reply.
    Reply(&'a [u8]),
    /// Request this multiple of the waiting time.
    MoreTime(u8),
    /// Request this size.
    AskIfs(u8),
}

impl<'a> HostCall<'a> {
    /// Makes the call over the parts of a session.
    fn lend(
        self,
        end: &mut LentCard,
        line: &mut Line,
        own: &mut u32,
        command: &[u8],
        reply: &mut [u8],
        now: u64,
        out: &mut [u8],
    ) -> Result<Action, CardFault>
        requires room { 258 ≤ length out.old }
        requires fit { IsLentCard end.old (length command.now) (length reply.old) }
        ensures fit { IsLentCard end.new (length command.now) (length reply.new) }
        ensures turn { (burst : List ℕ) → HasHeard line.old.framer burst
            → TurnsTo (card_held end.old command.now reply.old) (host_input self.entry) Exchange line.old.rules
            (seen line.old.progress) burst now (card_held end.new command.now reply.new) line.new own.old own.new
            out.old out.new result }
        ensures refused { IfErr result (λ _. (end.new ≡ end.old) × (reply.new ≡ reply.old)
            × (line.new ≡ line.old) × (own.new ≡ own.old)) }
        ensures blank { IsBlank end.old command.now → IsBlank end.new command.now }
    {
        match self {
            HostCall::Reply(octets) => {
                card::reply(end, line, own, command, reply, octets, now, out)
            }
            HostCall::MoreTime(multiple) => {
                card::more_time(end, line, own, command, reply, multiple, now, out)
            }
            HostCall::AskIfs(size) => {
                card::ask_ifs(end, line, own, command, reply, size, now, out)
            }
        }
    }
}

/// Begins a session at a reset of the card, and sets both buffers to 0.
pub fn card_session_begin(
    session: &mut CCardSession,
    command: &mut [u8],
    reply: &mut [u8],
    setup: &Setup,
) -> Verdict
    ensures { CardSessionBegun setup.now (lent session.old command.old reply.old)
        (lent session.new command.new reply.new) result }
{
    let Some(params) = setup.params() else {
        return Verdict::argument();
    };
    let Some(rules) = setup.rules(params, CARD) else {
        return Verdict::argument();
    };
    session.card = CCard::of(&LentCard::begin(params, command, reply));
    session.line.begin(&rules);
    session.own = 0;
    session.granted = 0;
    session.host_takes_short = setup.host_takes_short;
    Verdict::ok(0)
}

/// Begins to serve the terminal, or continues after the line failed.
pub fn card_session_serve(
    session: &mut CCardSession,
    command: &[u8],
    reply: &[u8],
    now: u64,
) -> CSessionNext
    ensures { CardSessionServes now command.now reply.now session.old session.new result }
{
    match session.card.fitting(command.len(), reply.len()) {
        Some(_) => CSessionNext::acts(card::serve(&mut session.line, &mut session.own, now)),
        None => CSessionNext::no_end(),
    }
}

/// Takes a reply from the card's host.
pub fn card_session_reply(
    session: &mut CCardSession,
    command: &mut [u8],
    reply: &mut [u8],
    octets: &[u8],
    now: u64,
    out: &mut [u8],
) -> CSessionNext
    ensures { CardSessionCalled (replies octets.now) now (lent session.old command.old reply.old)
        (lent session.new command.new reply.new) out.old out.new result }
{
    let call = HostCall::Reply(octets);
    host_turn(session, command, reply, call, now, out)
}

/// Requests more waiting time for the card's host, any multiple of it.
pub fn card_session_more_time(
    session: &mut CCardSession,
    command: &mut [u8],
    reply: &mut [u8],
    multiple: u8,
    now: u64,
    out: &mut [u8],
) -> CSessionNext
    ensures { CardSessionCalled (more_time multiple) now (lent session.old command.old reply.old)
        (lent session.new command.new reply.new) out.old out.new result }
{
    let call = HostCall::MoreTime(multiple);
    host_turn(session, command, reply, call, now, out)
}

/// Requests that the terminal send information fields of up to `size` octets, 1 to 254.
pub fn card_session_ask_ifs(
    session: &mut CCardSession,
    command: &mut [u8],
    reply: &mut [u8],
    size: u8,
    now: u64,
    out: &mut [u8],
) -> CSessionNext
    ensures { CardSessionCalled (ask_ifs size) now (lent session.old command.old reply.old)
        (lent session.new command.new reply.new) out.old out.new result }
{
    let call = HostCall::AskIfs(size);
    host_turn(session, command, reply, call, now, out)
}

/// Makes a call of the host.
fn host_turn(
    session: &mut CCardSession,
    command: &[u8],
    reply: &mut [u8],
    call: HostCall<'_>,
    now: u64,
    out: &mut [u8],
) -> CSessionNext
    ensures { CardSessionCalled (host_input call.entry) now (lent session.old command.now reply.old)
        (lent session.new command.now reply.new) out.old out.new result }
{
    if out.len() < LONGEST_BLOCK {
        return CSessionNext::no_room();
    }
    let Some(mut end) = session.card.fitting(command.len(), reply.len()) else {
        return CSessionNext::no_end();
    };
    let line = &mut session.line;
    match call.lend(&mut end, line, &mut session.own, command, reply, now, out) {
        Ok(action) => {
            session.card = CCard::of(&end);
            CSessionNext::of_card(Ok(action))
        }
        Err(fault) => CSessionNext::of_card(Err(fault)),
    }
}

/// Reports what happened on the line, by its number, and returns what to do next. The state of the card is read only if
/// a burst has ended or none came.
pub fn card_session_step(
    session: &mut CCardSession,
    command: &mut [u8],
    reply: &mut [u8],
    event: u8,
    octets: &[u8],
    now: u64,
    out: &mut [u8],
) -> CSessionNext
    ensures { CardSessionStepped event octets.now now (lent session.old command.old reply.old)
        (lent session.new command.new reply.new) out.old out.new result }
{
    if out.len() < LONGEST_BLOCK {
        return CSessionNext::no_room();
    }
    if !session.card.is_fitting(command.len(), reply.len()) {
        return CSessionNext::no_end();
    }
    let own = session.own;
    let next = session.line.happen(event, octets, now, own_block(out, own));
    if next.is_for_end() {
        let is_whole = session.line.has_ended_whole(event, octets, next);
        card_session_proceed(session, command, reply, next, is_whole, now, out)
    } else {
        CSessionNext::acts(Action::of(next, own as usize))
    }
}

/// Passes what the line says next to the card. `is_whole` says that the burst is known to be a whole block.
#[inline(always)]
fn card_session_proceed(
    session: &mut CCardSession,
    command: &mut [u8],
    reply: &mut [u8],
    next: Next,
    is_whole: bool,
    now: u64,
    out: &mut [u8],
) -> CSessionNext
    requires whole { is_whole ≡ true → HoldsWhole session.old.line.framer }
    requires room { 258 ≤ length out.old }
    requires end { (end : LentCard) × (card_of session.old.card ≡ Some end)
        × IsLentCard end (length command.old) (length reply.old) }
    ensures step { (c : CardState) → IsCardEnd (lent session.old command.old reply.old) c
        → (step : Step) (rules : Rules) → GoesTo step rules session.old.line next
        → CardProceeds c step rules now (lent session.old command.old reply.old)
        (lent session.new command.new reply.new) out.old out.new result }
    ensures blank { IsBlankEnd (lent session.old command.old reply.old)
        → IsBlankEnd (lent session.new command.new reply.new) }
{
    let Some(mut end) = session.card.spelled() else {
        return CSessionNext::no_end();
    };
    let takes_short = session.host_takes_short != 0;
    let acted = card::proceed(
        &mut end,
        &mut session.line,
        &mut session.own,
        &mut session.granted,
        takes_short,
        command,
        reply,
        next,
        is_whole,
        now,
        out,
    );
    session.card = CCard::of(&end);
    CSessionNext::of_card(acted)
}
