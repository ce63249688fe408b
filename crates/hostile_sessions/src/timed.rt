//! Calls of the loops over steps, on a line on which each block may be harmed: one octet is changed, octets are
//! missing at its end or follow it, or all of it is lost.
//!
//! No answer may be wrong. The card may act only on commands that were sent, and on each of them at most once, also if
//! it asks for time or a size before it replies.

ghost use Rattle.std.specs.Prelude.{◌≡◌, false, IfSome};
ghost use Rattle.session_core.specs.Wire.{is_set};
ghost use Rattle.session_laws.specs.Ending.{HasBurst};

use crate::application::{Application, COMMAND, REPLY, command_of, reply_of};
use crate::queue::{Queue, ROOM, arriving, harmed};
use atr_core::T1Params;
use line_core::TimedDevice;
use rand_pcg::Pcg32;
use session_core::{Action, CardSession, FOREVER, Limits, Rules, TerminalSession};
use session_laws::{ask_ifs_ends, exchange_ends, resynch_ends, serve_events};
use std::io;
use test_support::{Case, Fault, Trial};

/// The answer to reset of a card that takes fields of 32 octets.
const ATR: [u8; 7] = [0x3B, 0x80, 0x81, 0x31, 0x20, 0x45, 0x55];

const SESSIONS: u32 = 500;

/// The most exchanges of a session.
const EXCHANGES: u8 = 20;

/// The most blocks of an exchange.
const BLOCKS: u32 = 100;

/// The limits of a call.
const LIMITS: Limits = Limits {
    time: FOREVER,
    blocks: BLOCKS,
};

/// The most turns of a card for one block: more than a block has octets.
const TURNS: usize = 1_000;

/// The card's side of the line.
#[derive(Drop)]
struct Desk {
    here: Queue,
    said: Queue,
}

impl TimedDevice for Desk {
    ghost heard = { λ _ _ _. Unit {0} };

    fn send(&mut self, octets: &[u8]) -> io::Result<()> {
        self.said = arriving(octets);
        Ok(())
    }

    fn receive(&mut self, room: &mut [u8], _microseconds: u64) -> io::Result<usize> {
        Ok(self.here.give(room))
    }
}

/// Returns the rules of the line of an end. Times are in microseconds.
fn rules_of(is_card: u8) -> Rules
    ensures end { is_set result.is_card ≡ is_set is_card }
    ensures clock { is_set result.has_clock ≡ false }
{
    Rules {
        bwt: 1_000,
        cwt: 100,
        bgt: 22,
        after: 22,
        octet: 12,
        most_time: FOREVER,
        most_blocks: BLOCKS,
        has_clock: 0,
        has_echo: 0,
        refuses_empty: 1,
        is_card,
    }
}

/// A card's session with its buffers and its application.
#[derive(Drop)]
struct Chip {
    session: CardSession,
    command: [u8; COMMAND],
    reply: [u8; REPLY],
    application: Application,
}

impl Chip {
    fn new(params: T1Params) -> Chip {
        let mut command = [0; COMMAND];
        let mut reply = [0; REPLY];
        Chip {
            session: CardSession::new(params, &rules_of(1), false, &mut command, &mut reply),
            command,
            reply,
            application: Application::new(),
        }
    }

    /// Serves what came to the card, and returns what it sent.
    fn serve(&mut self, here: Queue) -> Queue {
        let mut desk = Desk {
            here,
            said: Queue::new(),
        };
        let session = &mut self.session;
        session.line.begin(&rules_of(1));
        if session.card.fits(self.command.len(), self.reply.len()) {
            let _served = serve_events(
                session,
                &mut self.command,
                &mut self.reply,
                &mut desk,
                &mut self.application,
                &mut [0; ROOM],
                TURNS,
            )
            .is_ok();
        }
        desk.said
    }
}

/// The terminal's side, with the card at its end.
#[derive(Drop)]
struct Wire {
    generator: Pcg32,
    chip: Chip,
    back: Queue,
}

impl TimedDevice for Wire {
    ghost heard = { λ _ _ _. Unit {0} };

    fn send(&mut self, octets: &[u8]) -> io::Result<()> {
        let said = self.chip.serve(harmed(&mut self.generator, octets));
        self.back = harmed(&mut self.generator, said.octets());
        Ok(())
    }

    fn receive(&mut self, room: &mut [u8], _microseconds: u64) -> io::Result<usize> {
        Ok(self.back.give(room))
    }
}

/// How many exchanges had each outcome.
#[derive(Clone, Copy)]
struct Tally {
    right: u32,
    given_up: u32,
    dead: u32,
    wrong: u32,
}

/// What the terminal's application calls for.
#[derive(Clone, Copy)]
enum Call {
    Resynch,
    /// A size of information fields.
    Size(u8),
    /// The exchange with this number.
    Exchange(u8),
}

/// A terminal's session with its buffers.
#[derive(Drop)]
struct Post {
    session: TerminalSession,
    command: [u8; COMMAND],
    answer: [u8; REPLY],
}

impl Post {
    fn new(params: T1Params) -> Post
        ensures terminal { is_set result.session.line.rules.is_card ≡ false }
        ensures clock { is_set result.session.line.rules.has_clock ≡ false }
        ensures burst { HasBurst result.session.line }
    {
        let mut command = [0; COMMAND];
        let mut answer = [0; REPLY];
        Post {
            session: TerminalSession::new(params, &rules_of(0), &mut command, &mut answer),
            command,
            answer,
        }
    }

    /// Runs the loop of a call, and returns its last action.
    fn run(&mut self, wire: &mut Wire, call: Call) -> Option<Action>
        requires terminal { is_set self.old.session.line.rules.is_card ≡ false }
        requires clock { is_set self.old.session.line.rules.has_clock ≡ false }
        requires burst { HasBurst self.old.session.line }
        ensures { IfSome result (λ _. (is_set self.new.session.line.rules.is_card ≡ false)
            × (is_set self.new.session.line.rules.has_clock ≡ false) × HasBurst self.new.session.line) }
    {
        let Post {
            session,
            command,
            answer,
        } = self;
        if !session.terminal.fits(command.len(), answer.len()) {
            return None;
        }
        let room = &mut [0; ROOM];
        let ended = match call {
            Call::Resynch => resynch_ends(session, command, answer, wire, room).ok()?,
            Call::Size(size) => {
                ask_ifs_ends(session, command, answer, size, LIMITS, wire, room).ok()?
            }
            Call::Exchange(number) => {
                let octets = command_of(number);
                exchange_ends(session, command, answer, &octets, LIMITS, wire, room).ok()?
            }
        };
        Some(ended.action)
    }
}

/// Counts a card that is dead, or a loop that ended as none may, and returns whether the session goes on after the
/// call before the exchanges.
fn has_begun(action: Action, tally: &mut Tally) -> bool {
    match action {
        Action::GivenUp | Action::IfsSet => true,
        Action::Dead => {
            tally.dead = tally.dead.saturating_add(1);
            false
        }
        _ => {
            tally.wrong = tally.wrong.saturating_add(1);
            false
        }
    }
}

/// Counts how the exchange with this number ended, and returns whether the session goes on.
fn counted(action: Action, answer: &[u8], number: u8, tally: &mut Tally) -> bool {
    match action {
        Action::Answered(count) if answer.get(..count) == Some(&reply_of(number)) => {
            tally.right = tally.right.saturating_add(1);
            true
        }
        Action::GivenUp => {
            tally.given_up = tally.given_up.saturating_add(1);
            true
        }
        Action::Dead => {
            tally.dead = tally.dead.saturating_add(1);
            false
        }
        _ => {
            tally.wrong = tally.wrong.saturating_add(1);
            false
        }
    }
}

/// Runs a session of a new terminal and a new card.
fn session(seed: u32, tally: &mut Tally) {
    let Some(params) = T1Params::new(32, 4, 5) else {
        return tally.wrong = tally.wrong.saturating_add(1);
    };
    let wire = Wire {
        generator: Pcg32::new(u64::from(seed), 7),
        chip: Chip::new(params),
        back: Queue::new(),
    };
    go_through(Post::new(params), wire, tally);
}

/// Runs a session: RESYNCH, a request for a size, and the exchanges.
fn go_through(mut post: Post, mut wire: Wire, tally: &mut Tally)
    requires terminal { is_set post.session.line.rules.is_card ≡ false }
    requires clock { is_set post.session.line.rules.has_clock ≡ false }
    requires burst { HasBurst post.session.line }
{
    let calls = [Call::Resynch, Call::Size(48)];
    for call in calls {
        let Some(action) = post.run(&mut wire, call) else {
            return tally.wrong = tally.wrong.saturating_add(1);
        };
        if !has_begun(action, tally) {
            return;
        }
    }
    for number in 0..EXCHANGES {
        let Some(action) = post.run(&mut wire, Call::Exchange(number)) else {
            return tally.wrong = tally.wrong.saturating_add(1);
        };
        if !counted(action, &post.answer, number, tally) {
            break;
        }
    }
    tally.wrong = tally.wrong.saturating_add(wire.chip.application.wrong);
}

/// Runs sessions in which a quarter of all blocks are harmed.
pub(crate) fn harm_each(rt: &HostRuntime, trial: &mut Trial) -> Result<(), Fault> {
    let mut tally = Tally {
        right: 0,
        given_up: 0,
        dead: 0,
        wrong: 0,
    };
    for seed in 0..SESSIONS {
        if trial.share.has(seed as usize) {
            session(seed, &mut tally);
        }
    }
    report(rt, trial, tally)
}

/// Prints the line about all sessions, or takes the case that they went wrong.
fn report(rt: &HostRuntime, trial: &mut Trial, tally: Tally) -> Result<(), Fault> {
    let case = Case {
        what: "an exchange over a line with a clock",
        octets: &ATR,
        place: tally.wrong as usize,
        piece: 0,
    };
    trial.expect(case, Ok(tally.wrong == 0));
    let counts = [
        ("harmed: ", u64::from(tally.right)),
        (" exchanges right, ", u64::from(tally.given_up)),
        (" given up, ", u64::from(tally.dead)),
        (" cards dead, ", u64::from(tally.wrong)),
    ];
    trial.report(rt, &counts, " wrong, with a quarter of all blocks harmed")
}
