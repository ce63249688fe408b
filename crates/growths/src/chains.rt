//! Hexadecimal text, and chains.

use crate::Outcome;
use block_core::{Number, encode};
use chain_core::{Receiver, cut};
use octet_core::{HexFault, hex_upper, octets_of};
use std::alloc::{AllocError, Global};

/// Reads and writes a text.
pub(crate) fn hexadecimal(alloc: Global) -> Outcome {
    match octets_of(alloc, "00a4") {
        Ok(octets) => is_written(alloc, octets.as_slice()),
        Err(HexFault::Memory) => Err(AllocError),
        Err(_) => Ok(false),
    }
}

fn is_written(alloc: Global, octets: &[u8]) -> Outcome {
    Ok(hex_upper(alloc, octets)?.as_str() == "00A4")
}

/// Receives the longest message. It arrives whatever is refused after `Receiver::new`.
pub(crate) fn receiver(alloc: Global) -> Outcome {
    let message = [0xA5; 131_072];
    let mut receiver = Receiver::new(alloc, 254, Number::Zero, message.len())?;
    Ok(has_arrived(&mut receiver, &message))
}

/// Whether a message whose blocks are fed one by one arrives.
fn has_arrived(receiver: &mut Receiver, message: &[u8]) -> bool {
    if message.len() > 131_072 {
        return false;
    }
    for block in cut(message, 254, Number::Zero) {
        if receiver.feed(encode(&block).as_slice()).is_err() {
            return false;
        }
    }
    receiver.message() == Some(message)
}
