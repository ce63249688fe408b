//! Chains over writers that fail.

use super::{Carried, Failure, Message, SIZE, case_of};
use apdu_core::{Body, Command, Response, SendFault, send_command, send_response};
use block_core::Number;
use chain_core::write_chain;
use octet_core::{After, Counted, FailsOnce, Octets, Sink, Taker};
use std::alloc::Global;
use test_support::{Fault, Trial};

/// Checks a writer that fails for good, and one that fails once.
pub(super) fn writers_fail(trial: &mut Trial, carried: &Carried, failure: Failure) {
    let case = case_of("a writer that fails", carried, failure);
    trial.expect(case, is_left_at(trial.alloc, carried, failure));
    trial.expect(case, is_not_tried_again(trial.alloc, carried, failure));
}

/// Whether a writer that fails for good after `place` octets has taken exactly these, and the fault
/// says so.
fn is_left_at(alloc: Global, carried: &Carried, failure: Failure) -> Result<bool, Fault> {
    let Failure { place, step, how } = failure;
    let mut writer = Counted::new(Taker::new(place.min(4096), step.octets(), how.after()));
    let written = written(alloc, &mut writer, carried)?;
    Ok(written == Some(place) && has_taken(&writer.into_inner(), carried, place))
}

/// Whether the same holds for a writer that fails in one call only.
fn is_not_tried_again(alloc: Global, carried: &Carried, failure: Failure) -> Result<bool, Fault> {
    let Failure { place, step, how } = failure;
    let taker = Taker::new(64, step.octets(), After::Fails);
    let mut writer = Counted::new(FailsOnce::new(taker, place, how.after()));
    let written = written(alloc, &mut writer, carried)?;
    let taker = writer.into_inner().into_inner();
    Ok(written == Some(place) && has_taken(&taker, carried, place))
}

/// Whether a writer has taken the first `place` octets of a chain.
fn has_taken(taker: &Taker, carried: &Carried, place: usize) -> bool {
    Some(taker.kept()) == carried.chain.get(..place)
}

/// Writes the message. Returns after how many octets writing failed, or `None` if it didn't.
fn written<W: Sink>(
    alloc: Global,
    writer: &mut W,
    carried: &Carried,
) -> Result<Option<usize>, Fault> {
    match carried.message {
        Message::Plain => Ok(written_plain(writer, carried.octets)),
        Message::Command => sent(send_command(alloc, writer, &command()?, SIZE, Number::Zero)),
        Message::Response => written_response(alloc, writer),
    }
}

/// Writes the octets of a message.
fn written_plain<W: Sink>(writer: &mut W, octets: &[u8]) -> Option<usize> {
    if octets.len() > 131_072 {
        return None;
    }
    match write_chain(writer, octets, SIZE, Number::Zero) {
        Ok(()) => None,
        Err(fault) => Some(fault.written),
    }
}

/// Writes the response of the rows, AABB9000.
fn written_response<W: Sink>(alloc: Global, writer: &mut W) -> Result<Option<usize>, Fault> {
    let part = Octets::of(Vec::from_slice(alloc, &[0xAA, 0xBB])?);
    match Response::new(part, 0x90, 0x00) {
        Ok(response) => sent(send_response(alloc, writer, &response, SIZE, Number::Zero)),
        Err(_) => Err(Fault::Stream),
    }
}

/// Returns after how many octets sending failed, or `None` if it didn't.
fn sent(said: Result<(), SendFault>) -> Result<Option<usize>, Fault> {
    match said {
        Ok(()) => Ok(None),
        Err(SendFault::Write { written }) => Ok(Some(written)),
        Err(SendFault::Memory) => Err(Fault::Memory),
    }
}

/// The command of the rows, 00A40400 with Le 256.
fn command() -> Result<Command, Fault> {
    Command::new([0x00, 0xA4, 0x04, 0x00], Body::ShortLe { le: 256 }).map_err(|_| Fault::Stream)
}
