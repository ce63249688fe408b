//! BER-TLV data objects: forests of objects and fillers, their parts, and data object lists (EMV
//! 4.3 Book 3, Annex B and clause 5.4; ISO/IEC 7816-4, clause 5.2.2).
//!
//! A *forest* is a list of data objects and filler octets 00. A decoded forest keeps its encoding:
//! each filler, and the form of each length field, even if it is longer than needed. A decoder
//! refuses octets at the first one after which no forest can continue.
#![tactic(auto)]

pub mod check;
mod checking;
pub mod decoder;
pub mod dol;
pub mod entry_walk;
pub mod filling;
pub mod fitting;
pub mod flat;
pub mod forest;
pub mod form;
pub mod header;
pub mod known;
pub mod laws;
pub mod lent;
pub mod node;
mod open_ends;
pub mod part;
pub mod part_walk;
mod partial;
pub mod path;
mod progress;
pub mod reader;
pub mod reason;
mod same;
mod short;
pub mod spelling;
mod survey;
pub mod tag;
mod tag_part;
pub mod tidy_form;
pub mod tidying;
mod walk;

pub use check::ForestCheck;
pub use decoder::decode;
pub use dol::Dol;
pub use entry_walk::EntryWalk;
pub use filling::{FillFault, fill};
pub use fitting::{put_copies, put_fitted};
pub use flat::{FlatForest, placed_parts};
pub use forest::{Forest, Improper, LARGEST_FOREST};
pub use form::Form;
pub use header::Header;
pub use known::Known;
pub use lent::LentCheck;
pub use node::{Node, Nodes};
pub use part::{Part, PlacedPart};
pub use part_walk::PartWalk;
pub use path::first;
pub use reader::ForestReader;
pub use reason::{DolReason, TlvReason};
pub use spelling::encode;
pub use tag::Tag;
pub use tidy_form::put_tidy;
pub use tidying::tidy;
