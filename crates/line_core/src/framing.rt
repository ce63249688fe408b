//! Division of octets and silences into bursts (ISO/IEC 7816-3, clause 11.4.3).

ghost use Rattle.std.specs.Prelude.{◌≡◌, ◌≤◌, ◌++◌, [], ℕ, List, length, take, min};
ghost use Rattle.octet_core.specs.Octets.{xor_of};
ghost use Rattle.block_core.specs.Block.{is_whole};
ghost use Rattle.line_core.specs.Bursts.{HasHeard, handed, wait_of};

use crate::exchanging::LONGEST_ARRIVAL;
use octet_core::lrc;
use std::fmt::{self, Debug, Formatter, Write};

/// A burst: octets that follow one another on a line without the silence that ends it.
///
/// A block begins and ends with its burst. So an end takes the whole burst, and LEN alone doesn't end anything. A burst
/// is never taken for a block ([`no_block`](crate::laws::no_block)) if one octet of a block was changed, octets are
/// missing at its end, or octets follow it. The framer counts all octets, and keeps the first 259, one more than the
/// longest block has. Any values of the fields are valid.
#[repr(C)]
#[derive(Clone, Copy)]
pub struct Framer {
    /// How many octets came, including those that aren't kept. The count stops at its greatest value.
    pub count: u64,
    /// The first octets that came.
    pub octets: [u8; LONGEST_ARRIVAL],
}

impl Framer {
    /// Makes a framer for a burst before its first octet.
    pub fn new() -> Framer
        ensures { HasHeard result [] }
    {
        Framer {
            count: 0,
            octets: [0; LONGEST_ARRIVAL],
        }
    }

    /// Starts the next burst.
    pub fn restart(&mut self)
        ensures { HasHeard self.new [] }
    {
        self.count = 0;
    }

    /// Takes octets that came, possibly none.
    pub fn feed(&mut self, piece: &[u8])
        ensures { (burst : List ℕ) → HasHeard self.old burst
            → HasHeard self.new (burst ++ piece.now) }
    {
        let held = self.kept();
        let more = piece.len().min(LONGEST_ARRIVAL - held);
        self.octets[held..held + more].copy_from_slice(&piece[..more]);
        self.count = self.count.saturating_add(piece.len() as u64);
    }

    /// Returns how many octets at the front of `octets` are passed to an end: all that came, at most 259.
    pub fn kept(&self) -> usize
        ensures is { result ≡ min self.now.count handed }
        ensures kept { (burst : List ℕ) → HasHeard self.now burst
            → take result self.now.octets ≡ take handed burst }
    {
        self.count.min(LONGEST_ARRIVAL as u64) as usize
    }

    /// Returns the octets that are passed to an end: the burst, or its first 259 octets.
    pub fn burst(&self) -> &[u8]
        ensures most { length result.now ≤ 259 }
        ensures burst { (burst : List ℕ) → HasHeard self.now burst
            → result.now ≡ take handed burst }
    {
        &self.octets[..self.kept()]
    }

    /// Whether the burst is exactly one whole block, by its LEN, with the right LRC.
    pub fn is_whole(&self) -> bool
        ensures { (burst : List ℕ) → HasHeard self.now burst → result ≡ is_whole burst }
    {
        self.count == u64::from(self.octets[2]) + 4 && sum_of(self.burst()) == 0
    }

    /// Returns how long a silence must be to end the burst, in any unit of time. It is `first` before the first octet,
    /// `after` if the burst is a whole block with the right LRC, and `inside` otherwise.
    pub fn wait(&self, first: u64, inside: u64, after: u64) -> u64
        ensures { (burst : List ℕ) → HasHeard self.now burst
            → result ≡ wait_of first inside after burst }
    {
        if self.count == 0 {
            first
        } else if self.is_whole() {
            after
        } else {
            inside
        }
    }
}

/// Returns the exclusive-or of the octets. It isn't inlined: next to a test of its result, the compiler takes one octet
/// at a time. In a separate function it takes many at once.
#[inline(never)]
fn sum_of(octets: &[u8]) -> u8
    ensures { result ≡ xor_of octets.now }
{
    lrc(octets)
}

/// Shows how many octets came, but no octet.
impl Debug for Framer {
    ghost use Rattle.std.specs.Prelude.{Some};
    ghost use Rattle.line_core.specs.Names.{framer_text};

    ghost debug_output = { λ framer. Some (framer_text framer) };

    fn fmt<W: Write>(&self, f: &mut Formatter<W>) -> fmt::Result {
        let count = self.count;
        write!(f, "Framer {{ count: {count}, .. }}")
    }
}
