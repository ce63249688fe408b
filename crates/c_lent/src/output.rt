//! Writes octets to a buffer of the caller.

ghost use Rattle.std.specs.Prelude.{◌≡◌, ◌≢◌};
ghost use Rattle.c_lent.specs.Verdict.{put_verdict, put_into};

use crate::verdict::Verdict;

/// Copies octets to the front of a buffer. If the buffer is too small, it stays unchanged.
pub fn put(octets: &[u8], out: &mut [u8]) -> Verdict
    ensures verdict { result ≡ put_verdict octets.now out.old }
    ensures buffer { out.new ≡ put_into octets.now out.old }
    ensures stays { result.status ≢ 0 → out.new ≡ out.old }
{
    if octets.len() > out.len() {
        return Verdict::lacking(octets.len());
    }
    out[..octets.len()].copy_from_slice(octets);
    Verdict::ok(octets.len())
}
