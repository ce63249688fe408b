//! Recorded exchanges: replays them, and records them with both ends.
//!
//! [`replay`] runs one end over the lines of an [`Exchange`], and names the first line at which the end gives something
//! else. A [`Recorder`] has both ends on one line, and writes the lines of what happens to them. The crate
//! exchange_text has the value of an exchange and its text.
#![tactic(auto)]

mod carrying;
mod end;
pub mod event;
pub mod laws;
mod output;
pub mod params;
pub mod recording;
pub mod replaying;
pub mod waiting;

pub use block_core::Side;
pub use carrying::{card_called, copied, is_spelled, spelled, terminal_called};
pub use event::{Event, EventFault, LastTurn, RecorderFault};
pub use exchange_text::{
    Arrival, Exchange, ExchangeFault, Line, Lines, Version, migrate, read_exchange, write_exchange,
};
pub use params::{AtrFault, params_of};
pub use recording::{Recorder, answers_are_replies, last_line, refused_event_changes_nothing};
pub use replaying::{ReplayFault, replay};
pub use waiting::{Awaits, Call, Waiting, waiting_at};
