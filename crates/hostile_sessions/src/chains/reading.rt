//! Chains over readers that fail.

use super::{Carried, Failing, Failure, Message, SIZE, case_of};
use apdu_core::{ReceiveFault, receive_command, receive_response};
use block_core::Number;
use chain_core::{ReadRefusal, Receiver, read_chain};
use octet_core::{After, Counted, FailsOnce, Feeder, Source, Stop};
use std::alloc::Global;
use test_support::{Fault, Trial, same};

/// Checks a reader that fails for good, and readers that fail once, after which reading continues.
pub(super) fn readers_fail(trial: &mut Trial, carried: &Carried, failure: Failure) {
    let case = case_of("a reader that fails", carried, failure);
    trial.expect(case, is_read_until(trial.alloc, carried, failure));
    trial.expect(case, is_left_to_read(trial.alloc, carried, failure));
    trial.expect(case, is_gone_on_with(trial.alloc, carried, failure));
}

/// The result of reading: all was read, reading failed after some octets, or the input ended after
/// some octets.
#[derive(Clone, Copy, PartialEq)]
enum Came {
    All,
    Failed(usize),
    Ended(usize),
}

impl Failure {
    /// Returns the result of reading if the reader fails in this way.
    fn came(self) -> Came {
        match self.how {
            Failing::End => Came::Ended(self.place),
            Failing::Fails | Failing::Interrupted => Came::Failed(self.place),
        }
    }

    /// Returns the refusal of a chain whose reader fails in this way.
    fn refusal(self) -> ReadRefusal {
        match self.how {
            Failing::End => ReadRefusal::Stop(Stop::Short { place: self.place }),
            Failing::Fails | Failing::Interrupted => ReadRefusal::Read { taken: self.place },
        }
    }

    /// Returns a reader of octets that fails in this way in one call only.
    fn once(self, octets: &[u8]) -> Counted<FailsOnce<Feeder<'_>>> {
        let feeder = Feeder::new(octets, self.step.octets(), After::Fails);
        Counted::new(FailsOnce::new(feeder, self.place, self.how.after()))
    }
}

/// Whether the result says that a reader that fails for good did so after `place` octets.
fn is_read_until(alloc: Global, carried: &Carried, failure: Failure) -> Result<bool, Fault> {
    let Failure { place, step, how } = failure;
    let Some(front) = carried.chain.get(..place) else {
        return Ok(false);
    };
    let mut reader = Counted::new(Feeder::new(front, step.octets(), how.after()));
    let came = read(alloc, &mut reader, carried.message)?;
    Ok(same(came, failure.came()) && reader.into_inner().given() == place as u64)
}

/// Whether the result says that a reader that fails in one call only did so, and it reads the next
/// octet after that.
fn is_left_to_read(alloc: Global, carried: &Carried, failure: Failure) -> Result<bool, Fault> {
    let mut reader = failure.once(carried.chain);
    let came = read(alloc, &mut reader, carried.message)?;
    let is_next = is_next(&mut reader, carried.chain.get(failure.place));
    Ok(same(came, failure.came()) && is_next)
}

/// Whether a reader gives this octet.
fn is_next<R: Source>(reader: &mut R, wanted: Option<&u8>) -> bool {
    let mut next = [0u8; 1];
    match reader.read(&mut next) {
        Ok(1) => wanted == Some(&next[0]),
        _ => false,
    }
}

/// Whether the result says that a reader that fails in one call only did so, and its receiver can
/// continue after that.
fn is_gone_on_with(alloc: Global, carried: &Carried, failure: Failure) -> Result<bool, Fault> {
    let mut receiver = Receiver::new(alloc, SIZE, Number::Zero, 64)?;
    Ok(goes_on(&mut receiver, carried, failure))
}

/// Whether a receiver says that its reader failed, and continues after that.
fn goes_on(receiver: &mut Receiver, carried: &Carried, failure: Failure) -> bool {
    let mut reader = failure.once(carried.chain);
    let first = read_chain(&mut reader, receiver);
    let is_whole = read_chain(&mut reader, receiver).is_ok();
    same(first, Err(failure.refusal()))
        && is_whole
        && same(receiver.message(), Some(carried.octets))
}

/// Reads by the calls for a message, and returns the result.
fn read<R: Source>(alloc: Global, reader: &mut R, message: Message) -> Result<Came, Fault> {
    match message {
        Message::Plain => {
            let mut receiver = Receiver::new(alloc, SIZE, Number::Zero, 64)?;
            Ok(read_plain(reader, &mut receiver))
        }
        Message::Command => read_of(receive_command(alloc, reader, SIZE, Number::Zero).err()),
        Message::Response => read_of(receive_response(alloc, reader, SIZE, Number::Zero).err()),
    }
}

/// Reads by a receiver, and returns the result.
fn read_plain<R: Source>(reader: &mut R, receiver: &mut Receiver) -> Came {
    match read_chain(reader, receiver) {
        Ok(()) => Came::All,
        Err(ReadRefusal::Read { taken }) => Came::Failed(taken),
        Err(ReadRefusal::Stop(Stop::Short { place } | Stop::At { place, .. })) => Came::Ended(
            place,
        ),
    }
}

/// Returns the result of a call that receives, by its fault.
fn read_of<R: Drop>(fault: Option<ReceiveFault<R>>) -> Result<Came, Fault> {
    match fault {
        None => Ok(Came::All),
        Some(ReceiveFault::Read { taken }) => Ok(Came::Failed(taken)),
        Some(ReceiveFault::Chain(Stop::Short { place } | Stop::At { place, .. })) => {
            Ok(Came::Ended(place))
        }
        Some(ReceiveFault::Apdu(_)) => Ok(Came::All),
        Some(ReceiveFault::Memory) => Err(Fault::Memory),
    }
}
