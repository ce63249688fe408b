//! Collects octets and silences into bursts (ISO/IEC 7816-3, clause 11.4.3). The caller keeps the framer.

ghost use Rattle.std.specs.Prelude.{◌≡◌, ◌++◌, [], ℕ, List, min, take};
ghost use Rattle.block_core.specs.Block.{is_whole};
ghost use Rattle.line_core.specs.Bursts.{HasHeard, handed, wait_of};

use line_core::Framer;

/// Begins a burst without octets. The framer may have any value before.
#[unsafe(no_mangle)]
pub extern "C" fn scard_lent_framer_begin(framer: &mut Framer)
    ensures { HasHeard framer.new [] }
{
    framer.restart();
}

/// Adds octets that arrived, possibly none, to the burst. All are counted, and the first 259 of the burst are kept.
#[unsafe(no_mangle)]
pub extern "C" fn scard_lent_framer_feed(framer: &mut Framer, piece: &[u8])
    ensures { (burst : List ℕ) → HasHeard framer.old burst
        → HasHeard framer.new (burst ++ piece.now) }
{
    framer.feed(piece);
}

/// Whether the burst is a complete block by its LEN, with the right LRC and nothing after it.
#[unsafe(no_mangle)]
pub extern "C" fn scard_lent_framer_is_whole(framer: &Framer) -> bool
    ensures { (burst : List ℕ) → HasHeard framer.now burst → result ≡ is_whole burst }
{
    framer.is_whole()
}

/// Returns how long a silence ends the burst, in any unit of time. It is `first` before the first octet, `after` if the
/// burst is a complete block with the right LRC, and `inside` otherwise.
#[unsafe(no_mangle)]
pub extern "C" fn scard_lent_framer_wait(
    framer: &Framer,
    first: u64,
    inside: u64,
    after: u64,
) -> u64
    ensures { (burst : List ℕ) → HasHeard framer.now burst
        → result ≡ wait_of first inside after burst }
{
    framer.wait(first, inside, after)
}

/// Returns how many of the kept octets an end takes: the burst, or its first 259 octets.
#[unsafe(no_mangle)]
pub extern "C" fn scard_lent_framer_burst(framer: &Framer) -> usize
    ensures is { result ≡ min framer.now.count handed }
    ensures kept { (burst : List ℕ) → HasHeard framer.now burst
        → take result framer.now.octets ≡ take handed burst }
{
    framer.kept()
}
