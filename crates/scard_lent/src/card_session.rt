//! The session of a card, step by step (ISO/IEC 7816-3, clause 11). The caller keeps the state, and passes it and the
//! buffers to each call. It says what happened on the line, or what the card's host says, one event a call, and each call
//! returns the one thing to do next.

ghost use Rattle.t1_core.specs.Card.{replies, more_time, ask_ifs};
ghost use Rattle.c_lent.specs.Lent.{lent};
ghost use Rattle.c_lent.specs.Session.{CardSessionBegun, CardSessionServes, CardSessionCalled, CardSessionStepped};

use c_lent::card_session::CCardSession;
use c_lent::session_next::CSessionNext;
use c_lent::verdict::Verdict;
use session_core::Setup;

/// Begins a session at a reset of the card, as `scard_lent_session_begin` begins one of a terminal.
#[unsafe(no_mangle)]
pub extern "C" fn scard_lent_card_session_begin(
    session: &mut CCardSession,
    command: &mut [u8],
    reply: &mut [u8],
    setup: &Setup,
) -> Verdict
    ensures { CardSessionBegun setup.now (lent session.old command.old reply.old)
        (lent session.new command.new reply.new) result }
{
    c_lent::card_session::card_session_begin(session, command, reply, setup)
}

/// Begins to serve the terminal, or continues after the line failed.
#[unsafe(no_mangle)]
pub extern "C" fn scard_lent_card_session_serve(
    session: &mut CCardSession,
    command: &[u8],
    reply: &[u8],
    now: u64,
) -> CSessionNext
    ensures { CardSessionServes now command.now reply.now session.old session.new result }
{
    c_lent::card_session::card_session_serve(session, command, reply, now)
}

/// Takes a reply from the card's host. The reply must fit its buffer.
#[unsafe(no_mangle)]
pub extern "C" fn scard_lent_card_session_reply(
    session: &mut CCardSession,
    command: &mut [u8],
    reply: &mut [u8],
    octets: &[u8],
    now: u64,
    out: &mut [u8],
) -> CSessionNext
    ensures { CardSessionCalled (replies octets.now) now (lent session.old command.old reply.old)
        (lent session.new command.new reply.new) out.old out.new result }
{
    c_lent::card_session::card_session_reply(session, command, reply, octets, now, out)
}

/// Requests more waiting time for the card's host, any multiple of it.
#[unsafe(no_mangle)]
pub extern "C" fn scard_lent_card_session_more_time(
    session: &mut CCardSession,
    command: &mut [u8],
    reply: &mut [u8],
    multiple: u8,
    now: u64,
    out: &mut [u8],
) -> CSessionNext
    ensures { CardSessionCalled (more_time multiple) now (lent session.old command.old reply.old)
        (lent session.new command.new reply.new) out.old out.new result }
{
    c_lent::card_session::card_session_more_time(session, command, reply, multiple, now, out)
}

/// Requests that the terminal send information fields of up to `size` octets, 1 to 254.
#[unsafe(no_mangle)]
pub extern "C" fn scard_lent_card_session_ask_ifs(
    session: &mut CCardSession,
    command: &mut [u8],
    reply: &mut [u8],
    size: u8,
    now: u64,
    out: &mut [u8],
) -> CSessionNext
    ensures { CardSessionCalled (ask_ifs size) now (lent session.old command.old reply.old)
        (lent session.new command.new reply.new) out.old out.new result }
{
    c_lent::card_session::card_session_ask_ifs(session, command, reply, size, now, out)
}

/// Reports what happened on the line, by the numbers of `scard_lent_session_step`.
#[unsafe(no_mangle)]
pub extern "C" fn scard_lent_card_session_step(
    session: &mut CCardSession,
    command: &mut [u8],
    reply: &mut [u8],
    event: u8,
    octets: &[u8],
    now: u64,
    out: &mut [u8],
) -> CSessionNext
    ensures { CardSessionStepped event octets.now now (lent session.old command.old reply.old)
        (lent session.new command.new reply.new) out.old out.new result }
{
    c_lent::card_session::card_session_step(session, command, reply, event, octets, now, out)
}
