//! Octets in memory that is overwritten before it is freed.

ghost use Rattle.std.specs.Prelude.{◌≡◌, ◌+◌, ◌≤◌, ◌++◌, length, take, drop, replicate, vec_len, IfOk};
ghost use Rattle.std.specs.Borrow.{sem};
ghost use Rattle.chain_core.specs.Wiped.{held_in, count_in, LendsHeld, LendsOctets};

use std::alloc::{AllocError, Global};

/// The octets of a message, which may carry a PIN. When they are dropped, each octet is first set to 0.
///
/// The memory is allocated once, and the octets never move to other memory, where copies would stay behind.
/// Copies that a compiler keeps elsewhere are beyond any proof.
pub struct Wiped {
    memory: Memory,
}

impl Drop for Wiped {
    fn drop(self) {
        let Wiped { memory } = self;
        drop(zeroed(memory));
    }
}

impl Wiped {
    /// Makes `count` octets 00. The error is a failed allocation.
    pub fn zeros(alloc: Global, count: usize) -> Result<Wiped, AllocError>
        ensures octets { IfOk result (λ wiped. held_in wiped ≡ replicate count 0) }
        ensures count { IfOk result (λ wiped. count_in wiped ≡ count) }
    {
        let octets = vec![in alloc; 0; count]?;
        Ok(Wiped {
            memory: Memory { octets },
        })
    }

    /// Borrows the octets.
    pub fn as_slice(&self) -> &[u8]
        ensures value { result.now ≡ held_in self.now }
        ensures count { length result.now ≡ count_in self.now }
    {
        self.memory.octets.as_slice()
    }

    /// Borrows the octets mutably.
    pub fn as_mut_slice(&mut self) -> &mut [u8]
        ensures* writes_back { sem 𝓛 (LendsOctets self.entry result) }
        ensures value { result.now ≡ held_in self.old }
        ensures count { length result.now ≡ count_in self.old }
    {
        self.memory.as_mut_slice()
    }
}

/// Sets each octet to 0.
pub fn overwrite(octets: &mut [u8])
    ensures octets { octets.new ≡ replicate (length octets.old) 0 }
    ensures count { length octets.new ≡ length octets.old }
{
    octets.fill(0);
}

/// Sets the first `count` octets to 0.
pub fn overwrite_front(octets: &mut [u8], count: usize)
    requires { count ≤ length octets.old }
    ensures octets { octets.new ≡ replicate count 0 ++ drop count octets.old }
    ensures count { length octets.new ≡ length octets.old }
{
    overwrite(&mut octets[..count]);
}

/// Writes octets after the first `count` of a buffer, and returns how many there are then.
pub fn append(buffer: &mut [u8], count: usize, octets: &[u8]) -> usize
    requires { count + length octets.now ≤ length buffer.old }
    ensures count { result ≡ count + length octets.now }
    ensures message { take result buffer.new ≡ take count buffer.old ++ octets.now }
    ensures rest { drop result buffer.new ≡ drop result buffer.old }
    ensures room { length buffer.new ≡ length buffer.old }
{
    let end = count + octets.len();
    buffer[count..end].copy_from_slice(octets);
    end
}

/// Memory for octets. It is freed only after each octet in it is 0.
struct Memory {
    octets: Vec<u8>,
}

impl Drop for Memory {
    fn drop(self)
        requires { self.octets.items ≡ replicate (vec_len self.octets) 0 }
    {
        let Memory { octets } = self;
        drop(octets);
    }
}

impl Memory {
    /// Borrows the octets mutably.
    fn as_mut_slice(&mut self) -> &mut [u8]
        ensures* writes_back { sem 𝓛 (LendsHeld self.entry result) }
        ensures value { result.now ≡ self.old.octets.items }
        ensures count { length result.now ≡ vec_len self.old.octets }
    {
        self.octets.as_mut_slice()
    }
}

/// Returns the same memory with each octet set to 0.
fn zeroed(memory: Memory) -> Memory
    ensures { result.octets.items ≡ replicate (vec_len result.octets) 0 }
{
    let mut held = memory;
    overwrite(held.octets.as_mut_slice());
    held
}
