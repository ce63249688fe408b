//! Memory in which a message is collected.

ghost use Rattle.std.specs.Prelude.{◌≡◌, ◌+◌, ◌≤◌, ◌++◌, [], length, IfOk};

use crate::wiped::{Wiped, append, overwrite_front};
use std::alloc::{AllocError, Global};
use std::marker::Model;

/// The octets of a message as they come, in memory that is allocated once. Each octet of the memory after the message
/// is 0, so clearing the message overwrites it.
#[derive(Drop)]
pub(crate) struct Collected {
    memory: Wiped,
    count: usize,
}

impl Model for Collected {
    ghost use Rattle.chain_core.specs.Collecting.{Collecting, collecting, IsBlank};
    ghost use Rattle.chain_core.specs.Wiped.{held_in};

    ghost Value = { Collecting };

    ghost view = { λ c. collecting c.count (held_in c.memory) };

    ghost invariant = { λ c. IsBlank c.count (held_in c.memory) };
}

impl Collected {
    /// Makes an empty message with room for `room` octets. The error is a failed allocation.
    pub(crate) fn with_room(alloc: Global, room: usize) -> Result<Collected, AllocError>
        ensures none { IfOk result (λ message. message.octets ≡ []) }
        ensures room { IfOk result (λ message. message.room ≡ room) }
    {
        let memory = Wiped::zeros(alloc, room)?;
        Ok(Collected { memory, count: 0 })
    }

    /// Borrows the octets of the message.
    pub(crate) fn as_slice(&self) -> &[u8]
        ensures { result.now ≡ self.now.octets }
    {
        &self.memory.as_slice()[..self.count]
    }

    /// Appends octets, for which there must be room.
    pub(crate) fn append(&mut self, octets: &[u8])
        requires { length self.old.octets + length octets.now ≤ self.old.room }
        ensures octets { self.new.octets ≡ self.old.octets ++ octets.now }
        ensures room { self.new.room ≡ self.old.room }
    {
        self.count = append(self.memory.as_mut_slice(), self.count, octets);
    }

    /// Overwrites the octets of the message, and removes them.
    pub(crate) fn clear(&mut self)
        ensures none { self.new.octets ≡ [] }
        ensures room { self.new.room ≡ self.old.room }
    {
        overwrite_front(self.memory.as_mut_slice(), self.count);
        self.count = 0;
    }
}
