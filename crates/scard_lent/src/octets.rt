//! The redundancy check.

ghost use Rattle.std.specs.Prelude.{◌≡◌};
ghost use Rattle.octet_core.specs.Octets.{xor_of};

/// Returns the longitudinal redundancy check (ISO/IEC 7816-3, clause 11.3): the exclusive-or of all octets. It is 00 if
/// there are none.
#[unsafe(no_mangle)]
pub extern "C" fn scard_lrc(octets: &[u8]) -> u8
    ensures { result ≡ xor_of octets.now }
{
    c_lent::octets::lrc(octets)
}
