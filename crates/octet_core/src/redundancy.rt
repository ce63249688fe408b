//! The redundancy check of a block.

ghost use Rattle.std.specs.Prelude.{◌≡◌};
ghost use Rattle.octet_core.specs.Octets.{xor_of};

/// Returns the longitudinal redundancy check (ISO/IEC 7816-3, clause 11.3): the exclusive-or of all
/// octets, 00 if there are none.
pub fn lrc(octets: &[u8]) -> u8
    ensures { result ≡ xor_of octets.now }
{
    octets.iter().fold(0, |sum, octet| sum ^ *octet)
}
