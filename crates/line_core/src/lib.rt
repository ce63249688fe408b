//! One exchange of T=1 in one call (ISO/IEC 7816-3, clause 11.6), for drivers of readers and simulators of cards.
//!
//! A [`TerminalLine`] carries the blocks of a terminal: one call sends a block and takes what comes after it.
//! [`exchange`] sends a command and returns the answer. [`ask_ifs`] asks for a size of information fields.
//! [`resume`] continues either after the line failed or too many blocks were sent. `specs/Exchange.antt` says what
//! these calls do: what was on the line is a run of the terminal's table over what came. [`exchange_command`]
//! makes such a run for a command as a value, and [`response_of`] decodes the answer. [`begin_by_resynch`] begins
//! a session with a card that can't be reset: `specs/Resynch.antt`.
//!
//! At the other end, [`serve`] makes a card answer what comes over a [`CardLine`], with the replies of its
//! [`Host`]: `specs/Service.antt`. [`laws`] states what holds of both ends over one line.
//!
//! A [`Framer`] divides what comes into bursts at the silences, and a burst counts as a block only as a whole:
//! `specs/Bursts.antt`. An [`UntimedLine`] is a line over a reader and a writer of octets, without a clock. A
//! [`TimedDevice`] is the driver of a serial port, which receives under a time limit (`specs/Timed.antt`): the sessions
//! of session_core run over it.
#![tactic(auto)]

pub mod commanding;
pub mod exchanging;
pub mod fault;
pub mod framing;
pub mod laws;
pub mod line;
pub mod resynching;
pub mod serving;
pub mod streaming;
pub mod timed;

pub use commanding::{exchange_command, response_of};
pub use exchanging::{LONGEST_ARRIVAL, ask_ifs, exchange, resume};
pub use fault::TransceiveFault;
pub use framing::Framer;
pub use line::{Received, TerminalLine};
pub use resynching::begin_by_resynch;
pub use serving::{CardLine, Host, ServeFault, serve};
pub use streaming::UntimedLine;
pub use timed::TimedDevice;
