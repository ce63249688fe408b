//! Draws a recorded exchange as a ladder between terminal and card.
//!
//! The lines of the exchange decide the rows of a drawing, as `rows_of` in `specs/Rows.antt` says. [`draw_ladder`]
//! returns the rows as text (`specs/Ladder.antt`). [`draw_picture`] returns the same rows as a picture
//! (`specs/Picture.antt`).
#![tactic(auto)]

mod labels;
pub mod ladder;
pub mod picture;
mod row;
mod rows;

pub use ladder::draw_ladder;
pub use picture::draw_picture;
