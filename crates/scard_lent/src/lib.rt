//! The calls of the library for C that need no memory, as a static library. It exports the code of c_lent, line_core's
//! framer, session_core's line and one call of notes.
#![tactic(auto)]

pub mod apdu;
pub mod atr;
pub mod block;
pub mod building;
pub mod card_session;
pub mod chain;
pub mod dol;
pub mod filling;
pub mod framing;
pub mod hexadecimal;
pub mod layout;
pub mod least;
pub mod lent;
pub mod lent_check;
pub mod lent_exercise;
pub mod lent_judge;
pub mod lent_readers;
pub mod lent_receiver;
pub mod lent_times;
pub mod line;
pub mod names;
pub mod note;
pub mod octets;
pub mod parts;
pub mod sentence;
pub mod session;
pub mod timing;
pub mod tlv;
pub mod version;
