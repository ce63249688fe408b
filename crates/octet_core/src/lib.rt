//! The basis of all codecs of the stack: lists of octets and why they are refused, the redundancy
//! check, and readers and writers that count their failures. It also parses what more than one crate
//! has in texts: hexadecimal, decimal numbers, and words separated by blanks.
//!
//! The grammar of a codec is a relation between values and lists of octets. A decoder returns the
//! *verdict* of its grammar: the value and the number of octets that it takes; or the place at which
//! no encoding can continue, with a reason; or that the input was short. `specs/Grammar.antt`
//! defines this once for all codecs.
#![tactic(auto)]

pub mod counted;
pub mod decimal;
pub mod device;
pub mod format;
pub mod hexadecimal;
pub mod listed;
pub mod named;
pub mod octets;
pub mod redundancy;
pub mod size;
pub mod stop;
pub mod stream;
pub mod words;

pub use counted::Counted;
pub use decimal::decimal_of;
pub use device::{After, FailsOnce, Feeder, Taker};
pub use format::Format;
pub use hexadecimal::{HexFault, hex_upper, octets_of};
pub use listed::Listed;
pub use named::Named;
pub use octets::{Octets, Text};
pub use redundancy::lrc;
pub use size::is_reserved;
pub use stop::{Refusal, Refused, Stop};
pub use stream::{Sink, Source, WriteFault, write_octets};
pub use words::{after_blanks, first_word, is_blank};
