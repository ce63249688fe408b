//! Command and response APDUs (ISO/IEC 7816-3, clause 12; ISO/IEC 7816-4, clause 5.1), and their
//! transfer in chains of blocks.
//!
//! A command is a header and one of seven bodies. A response is a data field and two status bytes. Two
//! grammars, `IsCommand` in `specs/Command.antt` and `IsResponse` in `specs/Response.antt`, relate them
//! to whole lists of octets. `CommandRef` and `ResponseRef` decode without allocating, and borrow the
//! data field from the octets. `decode_command` and `decode_response` copy it. `encode_command` and
//! `encode_response` encode. `send_command` and `send_response` write an APDU as a chain;
//! `receive_command` and `receive_response` read one, and leave what follows it unread. `laws` states
//! what holds of the two grammars alone, and of an APDU that is cut into a chain.
#![tactic(auto)]

pub mod command;
pub mod command_ref;
pub mod decoding;
pub mod encoding;
pub mod laws;
pub mod reason;
pub mod receiving;
pub mod response;
pub mod response_ref;
pub mod sending;
pub mod status;

pub use chain_core::{LONGEST_COMMAND, LONGEST_RESPONSE};
pub use command::{Body, Command, Shape};
pub use command_ref::{BodyRef, CommandRef};
pub use decoding::{decode_command, decode_response};
pub use encoding::{encode_command, encode_command_into, encode_response};
pub use reason::{CommandReason, ResponseReason};
pub use receiving::{ReceiveFault, receive_command, receive_response};
pub use response::Response;
pub use response_ref::ResponseRef;
pub use sending::{SendFault, send_command, send_response};
pub use status::{StatusClass, status_class};
