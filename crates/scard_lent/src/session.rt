//! The session of a terminal, step by step (ISO/IEC 7816-3, clause 11). The caller keeps the state, and passes it and the
//! buffers to each call. It says what happened on the line, one event a call, and each call returns the one thing to do
//! next.

ghost use Rattle.t1_core.specs.Terminal.{transmit, ask_ifs};
ghost use Rattle.c_lent.specs.Lent.{lent};
ghost use Rattle.c_lent.specs.Session.{SessionBegun, SessionCalled, SessionStepped, SessionResynched};

use c_lent::session::CSession;
use c_lent::session_next::CSessionNext;
use c_lent::verdict::Verdict;
use session_core::Setup;

/// Begins a session with a card that was just reset, and sets both buffers to 0. A command has at most as many octets as
/// its buffer, and at most 65,544. An answer has at most as many as its buffer, and at most 65,538.
///
/// Returns `ARGUMENT` if the setup is invalid. Then nothing changes.
#[unsafe(no_mangle)]
pub extern "C" fn scard_lent_session_begin(
    session: &mut CSession,
    command: &mut [u8],
    answer: &mut [u8],
    setup: &Setup,
) -> Verdict
    ensures { SessionBegun setup.now (lent session.old command.old answer.old)
        (lent session.new command.new answer.new) result }
{
    c_lent::session::session_begin(session, command, answer, setup)
}

/// Begins an exchange: sends a command. The command must fit its buffer.
#[unsafe(no_mangle)]
pub extern "C" fn scard_lent_session_exchange(
    session: &mut CSession,
    command: &mut [u8],
    answer: &mut [u8],
    octets: &[u8],
    now: u64,
    out: &mut [u8],
) -> CSessionNext
    ensures { SessionCalled (transmit octets.now) now (lent session.old command.old answer.old)
        (lent session.new command.new answer.new) out.old out.new result }
{
    c_lent::session::session_exchange(session, command, answer, octets, now, out)
}

/// Begins to request that the card send information fields of up to `size` octets, 1 to 254.
#[unsafe(no_mangle)]
pub extern "C" fn scard_lent_session_ask_ifs(
    session: &mut CSession,
    command: &mut [u8],
    answer: &mut [u8],
    size: u8,
    now: u64,
    out: &mut [u8],
) -> CSessionNext
    ensures { SessionCalled (ask_ifs size) now (lent session.old command.old answer.old)
        (lent session.new command.new answer.new) out.old out.new result }
{
    c_lent::session::session_ask_ifs(session, command, answer, size, now, out)
}

/// Begins a session with a card that can't be reset: drops octets until the line is silent for BWT, and then asks the card
/// for RESYNCH, at most three times.
#[unsafe(no_mangle)]
pub extern "C" fn scard_lent_session_resync(
    session: &mut CSession,
    command: &mut [u8],
    answer: &mut [u8],
    setup: &Setup,
    now: u64,
    out: &mut [u8],
) -> CSessionNext
    ensures { SessionResynched setup.now now (lent session.old command.old answer.old)
        (lent session.new command.new answer.new) out.old out.new result }
{
    c_lent::session::session_resync(session, command, answer, setup, now, out)
}

/// Reports what happened on the line: 0 the block was sent, 1 these octets came (with none: the wait was interrupted), 2
/// these octets came, at least one of them damaged, 3 nothing came within the silence that was asked for, 4 the line
/// failed.
#[unsafe(no_mangle)]
pub extern "C" fn scard_lent_session_step(
    session: &mut CSession,
    command: &mut [u8],
    answer: &mut [u8],
    event: u8,
    octets: &[u8],
    now: u64,
    out: &mut [u8],
) -> CSessionNext
    ensures { SessionStepped event octets.now now (lent session.old command.old answer.old)
        (lent session.new command.new answer.new) out.old out.new result }
{
    c_lent::session::session_step(session, command, answer, event, octets, now, out)
}
