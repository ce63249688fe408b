//! Notes for people on the lines of a value.
//!
//! A [`LineNote`] is what the note on a line is about, and appends its text. `specs/Says.antt` has the text of each. If octets are refused, the line of the refusal has the only note: what could be read so far, and
//! what is missing. [`noted_line`] adds it. `specs/Noted.antt` defines how notes are cut off, and [`laws::cut_again`]
//! proves that the lines are then as before. No clause says which words the note on a refusal has.
#![tactic(auto)]

pub mod atr;
pub mod atr_refusal;
pub mod block;
pub mod block_refusal;
pub mod command;
pub mod forest;
pub mod forest_refusal;
pub mod joining;
pub mod laws;
pub mod line_note;
pub mod list;
pub mod missing;
pub mod note;
pub mod response;
pub mod text;

pub use atr::{mode_note, t1_note, ta_note, tck_note, td_note};
pub use atr_refusal::{NextByte, atr_refusal_note, next_byte, tck_after};
pub use block::{lrc_note, nad_note, pcb_note};
pub use block_refusal::{block_refusal_note, chain_refusal_note, field_left};
pub use command::{class_note, instruction_name, le_note};
pub use forest::class_name;
pub use forest_refusal::{forest_refusal_note, wanted_of};
pub use joining::{MARK, kept, noted_line};
pub use line_note::{CountNote, HeaderNote, LcNote, LineNote, ListNote, NoNote, TextNote};
pub use missing::wanting_note;
pub use note::Note;
pub use response::status_note;
pub use text::is_text;
