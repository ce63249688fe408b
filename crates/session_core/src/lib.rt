//! A session of T=1 as steps (ISO/IEC 7816-3, clause 11): octets and silence in, actions out.
//!
//! Nothing here waits, and nothing takes memory. The caller owns the line and the clock. It says what happened on the
//! line, one [`Event`] a step, and each step returns the one thing to do next: send a block, wait for octets, or what
//! the session has to say. So the same session runs in a blocking loop, in an event loop and in an interrupt.
//!
//! A caller keeps to three rules. A silence may end later than asked, but never earlier; it counts from the last octet
//! that was sent or received. Octets are passed once each, in the order in which they came. A block counts as sent
//! once its last bit is on the line.
//!
//! - [`Progress`] is what one end has done on its line so far, and [`Line`] has its rules and its burst besides:
//!   `specs/Wire.antt` is the table.
//! - [`TerminalSession`] and [`CardSession`] are sessions: an end of t1_core over its line. `specs/Terminals.antt` and
//!   `specs/Cards.antt` are their tables, and each call returns an [`Action`].
//! - [`terminal`] and [`card`] have the same calls as functions, for a program that keeps the parts of a session apart,
//!   as the library for C does.
//! - [`Setup`] has the numbers of a session, from which the rules of its line follow: `specs/Setup.antt`.
#![tactic(auto)]

pub mod action;
pub mod bursting;
pub mod card;
pub mod card_session;
pub mod event;
pub mod limits;
pub mod lines;
pub mod progress;
pub mod sending;
pub mod setup;
pub mod stepping;
pub mod terminal;
pub mod terminal_session;

pub use action::{Action, own_block};
pub use card_session::CardSession;
pub use event::{Event, Next};
pub use lines::{Line, LineNext, Start};
pub use progress::{FOREVER, Moment, NO_SILENCE, Phase, Progress, Rules};
pub use setup::{Limits, Setup};
pub use terminal_session::TerminalSession;
