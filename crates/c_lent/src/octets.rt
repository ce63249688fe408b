//! The redundancy check.

ghost use Rattle.std.specs.Prelude.{◌≡◌};
ghost use Rattle.octet_core.specs.Octets.{xor_of};

/// Returns the longitudinal redundancy check (ISO/IEC 7816-3, clause 11.3): the exclusive-or of all octets. It is 00 if
/// there are none.
pub fn lrc(octets: &[u8]) -> u8
    ensures { result ≡ xor_of octets.now }
{
    octet_core::lrc(octets)
}
