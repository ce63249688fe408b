//! Both ends of the T=1 protocol (ISO/IEC 7816-3, clause 11.6), and the law of the link between them.
//!
//! `Terminal` and `Card` take one call or one block at a time, and return what they do next. They have no line, clock
//! or thread. A call that sends returns the block. The call of the same name with `_into` writes the block's octets
//! into the caller's buffer instead.
//!
//! The constructors of `Terminal` and `Card` allocate all memory. `LentTerminal` and `LentCard` are the same ends over
//! caller-owned buffers: the caller keeps a few dozen octets of state, and passes the buffers to each call.
//!
//! `specs/Terminal.antt` and `specs/Card.antt` have the table of each end, with an equation for each row. The counts of
//! repeats, what RESYNCH leaves, and the errors that R-blocks report are this project's profile. `specs/Link.antt`
//! joins the two ends by a line that loses and damages blocks. `laws` says what holds after whatever happens on it.
#![tactic(auto)]

pub mod card;
mod class;
mod cutting;
mod fitting;
mod guards;
pub mod laws;
mod lent;
mod replying;
mod sending;
mod shown;
pub mod terminal;
pub mod turns;

pub use card::Card;
pub use chain_core::{LONGEST_COMMAND, LONGEST_RESPONSE as LONGEST_ANSWER};
pub use lent::{LentCard, LentTerminal};
pub use terminal::{FIRST_IFSD, MOST_REPEATS, MOST_RESYNCHS, Terminal};
pub use turns::{
    CardAsked, CardAwaits, CardFault, CardTurn, CardWait, Cut, EncodedCardTurn,
    EncodedTerminalTurn, TerminalAwaits, TerminalFault, TerminalTurn, TerminalWait,
};
