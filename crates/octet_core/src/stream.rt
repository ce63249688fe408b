//! Readers and writers that count their failed calls.

ghost use Rattle.std.specs.Prelude.{◌≡◌, ◌≤◌, ◌<◌, List, ℕ, Option, OnOk, IfErr, IfSome, IfNone, take, length};
ghost use Rattle.std.specs.Io.{ReadsAtMost, WritesAtMost};
ghost use Rattle.std.specs.Io.KnownBytes.{ReadConsumes, WriteAppends, Appends, Keeps};
ghost use Rattle.octet_core.specs.Failures.{Counts, ReadFails, WriteFails, HasFailed, next_count};

use std::error::Error;
use std::fmt::{self, Display, Formatter};
use std::io;

/// A reader that counts its failed calls. The end of its input isn't a failure.
pub trait Source {
    /// The octets that are left to read, if they are known.
    ghost remaining: { Self → Option (List ℕ) };

    /// How many calls failed. The count stops at its greatest value.
    ghost failures: { Self → ℕ };

    /// Reads like std's `Read::read`: up to `room.len()` octets, 0 at the end of the input.
    fn read(&mut self, room: &mut [u8]) -> io::Result<usize>
        ensures bound { ReadsAtMost result room.new }
        ensures octets { ReadConsumes (remaining self.old) (remaining self.new) result room.new }
        ensures counted { Counts (ReadFails result) (failures self.old) (failures self.new) };
}

/// A writer that counts its failed calls. A call that takes none of some octets has failed.
pub trait Sink {
    /// The octets that were written, if they are known.
    ghost contents: { Self → Option (List ℕ) };

    /// How many calls failed. The count stops at its greatest value.
    ghost failures: { Self → ℕ };

    /// Writes like std's `Write::write`, and returns how many of the first octets were taken.
    fn write(&mut self, octets: &[u8]) -> io::Result<usize>
        ensures bound { WritesAtMost result octets.now }
        ensures octets { WriteAppends (contents self.old) (contents self.new) result octets.now }
        ensures counted { Counts (WriteFails octets.now result) (failures self.old)
            (failures self.new) };
}

/// The writer failed, or took no octet, after `written` octets.
#[derive(Clone, Copy, Debug, PartialEq, Eq)]
pub struct WriteFault {
    pub written: usize,
}

/// Writes how many octets were written, as in `Write after 3 octets`.
impl Display for WriteFault {
    ghost use Rattle.std.specs.Prelude.{Some, ◌++◌, codes, decimal};

    ghost output = { λ fault. Some
        (codes "Write after " ++ (decimal fault.written ++ codes " octets")) };

    fn fmt<W: fmt::Write>(&self, f: &mut Formatter<W>) -> fmt::Result {
        let written = self.written;
        write!(f, "Write after {written} octets")
    }
}

impl Error for WriteFault {}

/// Writes some of the octets by one call. The result is `None` if the call fails.
fn write_some<W: Sink>(writer: &mut W, octets: &[u8]) -> Option<usize>
    requires { 0 < length octets.now }
    ensures some { IfSome result (λ n. (0 < n) × (n ≤ length octets.now)) }
    ensures taken { IfSome result (λ n.
        Appends (W.contents writer.old) (W.contents writer.new) (take n octets.now)) }
    ensures kept { IfSome result (λ n. W.failures writer.new ≡ W.failures writer.old) }
    ensures nothing { IfNone result (Keeps (W.contents writer.old) (W.contents writer.new)) }
    ensures failed { IfNone result (W.failures writer.new ≡ next_count (W.failures writer.old)) }
{
    match writer.write(octets) {
        Ok(0) => None,
        Ok(taken) => Some(taken),
        Err(_) => None,
    }
}

/// Writes all octets. At a fault the writer has taken the first `written` octets, fewer than all,
/// and exactly one of its calls failed. A failed call isn't retried, not even after an
/// interruption.
pub fn write_octets<W: Sink>(writer: &mut W, octets: &[u8]) -> Result<(), WriteFault>
    ensures all { OnOk result (Appends (W.contents writer.old) (W.contents writer.new) octets.now) }
    ensures none_failed { OnOk result (W.failures writer.new ≡ W.failures writer.old) }

    ensures fewer { IfErr result (λ fault. fault.written < length octets.now) }
    ensures first { IfErr result (λ fault.
        Appends (W.contents writer.old) (W.contents writer.new) (take fault.written octets.now)) }
    ensures failed { IfErr result (λ fault.
        HasFailed (W.failures writer.old) (W.failures writer.new)) }
    ensures failed_once { IfErr result
        (λ fault. W.failures writer.new ≡ next_count (W.failures writer.old)) }
{
    let mut written = 0;
    while written < octets.len() {
        match write_some(writer, &octets[written..]) {
            Some(taken) => written += taken,
            None => return Err(WriteFault { written }),
        }
    }
    Ok(())
}
