//! Reads a whole input into one buffer.

ghost use Rattle.std.specs.Prelude.{◌≡◌, ◌<◌, ◌≤◌, OnOk, length, take};
ghost use Rattle.program.specs.Calls.{calls_of};
ghost use Rattle.program.specs.Files.{ReadsMore, ReadsWhole};

use octet_core::{Octets, Source};
use program_words::Fault;
use std::alloc::{AllocError, Global};

/// The most octets that a file may have.
pub const LARGEST_FILE: usize = 4_194_304;

/// The initial size of the buffer in octets.
const FIRST_ROOM: usize = 4_096;

/// Reads all octets of a reader, at most 4,194,304, into a buffer with at most one octet more.
///
/// Fails with `TooLarge` if one octet more was read, with `Read` if a call of the reader failed, and with `Memory` if
/// the buffer couldn't grow. A failed call isn't retried, not even after an interruption. No octet after the first
/// 4,194,305 is read, even from a reader without an end.
pub fn read_whole<R: Source>(alloc: Global, reader: &mut R) -> Result<Octets, Fault>
    ensures { ReadsWhole (calls_of R.remaining R.failures reader.old reader.new) result }
{
    let mut held = Vec::new(alloc);
    let mut filled = 0;
    while filled <= LARGEST_FILE {
        let count = read_more(reader, &mut held, filled)?;
        if count == 0 {
            held.truncate(filled);
            return Ok(Octets::of(held));
        }
        filled += count;
    }
    Err(Fault::TooLarge)
}

/// Reads octets into the buffer by one call, after the `filled` ones that it has. Returns how many, 0 at the end of the
/// input.
fn read_more<R: Source>(reader: &mut R, held: &mut Vec<u8>, filled: usize) -> Result<usize, Fault>
    requires inside { filled ≤ length held.old.items }
    requires few { filled ≤ 4194304 }
    requires most { length held.old.items ≤ 4194305 }
    ensures { ReadsMore (calls_of R.remaining R.failures reader.old reader.new) held.old.items
        held.new.items filled result }
{
    if filled == held.len() {
        grow(held)?;
    }
    match reader.read(&mut held[filled..]) {
        Ok(count) => Ok(count),
        Err(_) => Err(Fault::Read),
    }
}

/// Doubles the length of the buffer, up to one octet more than the longest file.
fn grow(held: &mut Vec<u8>) -> Result<(), AllocError>
    requires { length held.old.items ≤ 4194304 }
    ensures kept { OnOk result (take (length held.old.items) held.new.items ≡ held.old.items) }
    ensures longer { OnOk result (length held.old.items < length held.new.items) }
    ensures most { OnOk result (length held.new.items ≤ 4194305) }
{
    let len = (held.len() * 2).max(FIRST_ROOM).min(LARGEST_FILE + 1);
    held.reserve_exact(len - held.len())?;
    held.resize(len, 0)
}
