//! Commands and responses.

use crate::Outcome;
use apdu_core::{
    Command, ReceiveFault, Response, SendFault, decode_command, decode_response, encode_command,
    encode_response, receive_command, receive_response, send_command, send_response,
};
use block_core::Number;
use octet_core::{After, Counted, Feeder, Refused, Taker};
use std::alloc::{AllocError, Global};

/// A command with a data field and Le.
const COMMAND: [u8; 13] = [
    0x00, 0xA4, 0x04, 0x00, 0x07, 0xA0, 0x00, 0x00, 0x00, 0x04, 0x10, 0x10, 0x00,
];

/// Its chain of fields of up to 254 octets.
const CHAIN: [u8; 17] = [
    0x00, 0x00, 0x0D, 0x00, 0xA4, 0x04, 0x00, 0x07, 0xA0, 0x00, 0x00, 0x00, 0x04, 0x10, 0x10, 0x00,
    0x0E,
];

/// A response with a data field.
const RESPONSE: [u8; 4] = [0xAA, 0xBB, 0x90, 0x00];

/// The chain of the response.
const ANSWER: [u8; 8] = [0x00, 0x00, 0x04, 0xAA, 0xBB, 0x90, 0x00, 0x85];

/// Decodes and encodes a command.
pub(crate) fn commands(alloc: Global) -> Outcome {
    match decode_command(alloc, &COMMAND) {
        Ok(command) => is_command(alloc, &command),
        Err(Refused::Memory) => Err(AllocError),
        Err(Refused::Stop(_)) => Ok(false),
    }
}

fn is_command(alloc: Global, command: &Command) -> Outcome {
    Ok(encode_command(alloc, command)?.as_slice() == COMMAND.as_slice())
}

/// Decodes and encodes a response.
pub(crate) fn responses(alloc: Global) -> Outcome {
    match decode_response(alloc, &RESPONSE) {
        Ok(response) => is_response(alloc, &response),
        Err(Refused::Memory) => Err(AllocError),
        Err(Refused::Stop(_)) => Ok(false),
    }
}

fn is_response(alloc: Global, response: &Response) -> Outcome {
    Ok(encode_response(alloc, response)?.as_slice() == RESPONSE.as_slice())
}

/// Sends a command: all of it, or nothing.
pub(crate) fn sent(alloc: Global) -> Outcome {
    match decode_command(alloc, &COMMAND) {
        Ok(command) => sent_by(alloc, &command),
        Err(Refused::Memory) => Err(AllocError),
        Err(Refused::Stop(_)) => Ok(false),
    }
}

fn sent_by(alloc: Global, command: &Command) -> Outcome {
    let mut writer = Counted::new(Taker::new(64, 64, After::End));
    let answer = send_command(alloc, &mut writer, command, 254, Number::Zero);
    is_sent(answer, &writer.into_inner(), &CHAIN)
}

/// Returns the outcome of sending, by which all octets or none were to be taken.
fn is_sent(answer: Result<(), SendFault>, taker: &Taker, chain: &[u8]) -> Outcome {
    match answer {
        Ok(()) => Ok(taker.kept() == chain),
        Err(SendFault::Memory) if taker.kept().is_empty() => Err(AllocError),
        _ => Ok(false),
    }
}

/// Receives a command. If it can't, it has read nothing or exactly the command's chain.
pub(crate) fn received(alloc: Global) -> Outcome {
    let mut reader = Counted::new(Feeder::new(&CHAIN, 3, After::Fails));
    let outcome = match receive_command(alloc, &mut reader, 254, Number::Zero) {
        Ok(command) => is_command(alloc, &command),
        Err(ReceiveFault::Memory) => Err(AllocError),
        Err(_) => Ok(false),
    };
    with_given(outcome, reader.into_inner().given(), 17)
}

/// Receives a response and sends it. If it can't, it has read nothing or exactly the response's chain.
pub(crate) fn answered(alloc: Global) -> Outcome {
    let mut reader = Counted::new(Feeder::new(&ANSWER, 8, After::Fails));
    let outcome = match receive_response(alloc, &mut reader, 254, Number::Zero) {
        Ok(response) => answered_by(alloc, &response),
        Err(ReceiveFault::Memory) => Err(AllocError),
        Err(_) => Ok(false),
    };
    with_given(outcome, reader.into_inner().given(), 8)
}

/// Returns the outcome of receiving. All octets were to be read, or none if memory was out.
fn with_given(outcome: Outcome, given: u64, all: u64) -> Outcome {
    match outcome {
        Err(AllocError) if given == 0 => outcome,
        _ if given == all => outcome,
        _ => Ok(false),
    }
}

fn answered_by(alloc: Global, response: &Response) -> Outcome {
    let mut writer = Counted::new(Taker::new(64, 64, After::End));
    let answer = send_response(alloc, &mut writer, response, 254, Number::Zero);
    is_sent(answer, &writer.into_inner(), &ANSWER)
}
