//! Data objects (EMV 4.3 Book 3, Annex B; ISO/IEC 7816-4, clause 5.2.2).

ghost use Rattle.std.specs.Prelude.{◌≡◌, ◌≢◌, ◌≤◌, ◌<◌, length};
ghost use Rattle.octet_core.specs.Grammar.{whole, Refuses};
ghost use Rattle.tlv_core.specs.Forest.{IsForest, largest};
ghost use Rattle.tlv_core.specs.Reasons.{IsReason};
ghost use Rattle.c_lent.specs.Verdict.{IsRefusal, Tells, ok_at, wrong_argument};
ghost use Rattle.c_lent.specs.Tlv.{tlv_reason, dol_reason, IsSomeForest, IsTidied};

use crate::verdict::{Numbered, Verdict};
use tlv_core::{DolReason, ForestCheck, LARGEST_FOREST, TlvReason, put_tidy};

/// Checks whether octets are a forest of data objects, at most `max` octets.
pub fn tlv_check(octets: &[u8], max: usize) -> Verdict
    ensures ok { result.status ≡ 0 → IsSomeForest max octets.now }
    ensures place { result.status ≡ 0 → result ≡ ok_at (length octets.now) }
    ensures refused { max ≤ largest → result.status ≢ 0 →
        Tells tlv_reason (Refuses whole (IsForest max) (IsReason max) octets.now) result }
    ensures argument { largest < max → result ≡ wrong_argument 0 }
{
    if max > LARGEST_FOREST {
        return Verdict::argument();
    }
    let mut check = ForestCheck::new(max);
    if let Err(stop) = check.feed(octets) {
        return Verdict::stopped(stop);
    }
    match check.finish() {
        Ok(()) => Verdict::ok(octets.len()),
        Err(stop) => Verdict::stopped(stop),
    }
}

/// Writes the tidy form of a forest of at most `max` octets: the same objects without fillers, each length in its
/// shortest form.
///
/// It reads the octets twice, and moves those of an object once for each object that contains it.
pub fn tlv_tidy(octets: &[u8], max: usize, out: &mut [u8]) -> Verdict
    ensures tidied { max ≤ largest → (IsRefusal result → ⊥) →
        IsTidied max octets.now out.old out.new result }
    ensures refused { IsRefusal result →
        Tells tlv_reason (Refuses whole (IsForest max) (IsReason max) octets.now) result }
    ensures argument { largest < max → result ≡ wrong_argument 0 }
    ensures stays { result.status ≢ 0 → out.new ≡ out.old }
{
    if max > LARGEST_FOREST {
        return Verdict::argument();
    }
    match put_tidy(octets, max, out) {
        Ok(count) => Verdict::put(count, out.len()),
        Err(stop) => Verdict::stopped(stop),
    }
}

impl Numbered for TlvReason {
    ghost number = { tlv_reason };

    fn number(self) -> u8 {
        match self {
            TlvReason::TooDeep => 1,
            TlvReason::TagSecond => 2,
            TlvReason::TagLong => 3,
            TlvReason::LengthForm => 4,
            TlvReason::Overrun => 5,
            TlvReason::TooLong => 6,
        }
    }
}

impl Numbered for DolReason {
    ghost number = { dol_reason };

    fn number(self) -> u8 {
        match self {
            DolReason::TagZero => 1,
            DolReason::TagSecond => 2,
            DolReason::TagLong => 3,
        }
    }
}
