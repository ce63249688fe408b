//! Octets on a line that harms blocks: one octet is changed, octets are missing at the end or follow it, or all of a block
//! is lost.

ghost use Rattle.std.specs.Prelude.{◌≤◌, length};

use crate::drawn::below;
use rand_pcg::Pcg32;

/// More octets than a burst has, with everything that follows it.
pub(crate) const ROOM: usize = 300;

/// Octets on the line. Those from `begin` are still to come.
#[derive(Clone, Copy)]
pub(crate) struct Queue {
    octets: [u8; ROOM],
    begin: usize,
    end: usize,
}

impl Queue {
    pub(crate) fn new() -> Queue {
        Queue {
            octets: [0; ROOM],
            begin: 0,
            end: 0,
        }
    }

    /// Returns all octets that were put on the line.
    pub(crate) fn octets(&self) -> &[u8] {
        self.octets.get(..self.end).unwrap_or(&[])
    }

    /// Appends an octet, if there is room for it.
    fn push(&mut self, octet: u8) {
        if let Some(place) = self.octets.get_mut(self.end) {
            *place = octet;
            self.end = self.end.saturating_add(1);
        }
    }

    /// Takes the next octet.
    fn pop(&mut self) -> Option<u8> {
        if self.begin >= self.end {
            return None;
        }
        let octet = self.octets.get(self.begin).copied();
        self.begin = self.begin.saturating_add(1);
        octet
    }

    /// Takes the next octet to the front of a buffer, and returns how many there are.
    pub(crate) fn give(&mut self, room: &mut [u8]) -> usize
        requires { 1 ≤ length room.old }
        ensures { result ≤ length room.new }
    {
        match self.pop() {
            Some(octet) => {
                room[0] = octet;
                1
            }
            None => 0,
        }
    }
}

/// Draws what happens to a block on its way. Three quarters of them arrive as they were sent.
pub(crate) fn harmed(generator: &mut Pcg32, octets: &[u8]) -> Queue {
    let place = below(generator, LONGEST) as usize % octets.len().max(1);
    match below(generator, 16) {
        0 => Queue::new(),
        1 => changed(octets, place, 1 + below(generator, 255) as u8),
        2 => arriving(octets.get(..place).unwrap_or(&[])),
        3 => extended(generator, octets, place),
        _ => arriving(octets),
    }
}

/// More than any place in a block.
const LONGEST: u32 = 100_000;

pub(crate) fn arriving(octets: &[u8]) -> Queue {
    let mut queue = Queue::new();
    for octet in octets {
        queue.push(*octet);
    }
    queue
}

/// Returns octets with one octet changed.
fn changed(octets: &[u8], place: usize, by: u8) -> Queue {
    let mut queue = arriving(octets);
    if let Some(octet) = queue.octets.get_mut(place) {
        *octet ^= by;
    }
    queue
}

/// Returns octets with some more after them, which may be those of a block.
fn extended(generator: &mut Pcg32, octets: &[u8], more: usize) -> Queue {
    let mut queue = arriving(octets);
    if below(generator, 2) == 0 {
        for octet in octets {
            queue.push(*octet);
        }
    } else {
        for place in 0..=more {
            queue.push((place % 4) as u8);
        }
    }
    queue
}
