//! Hexadecimal text.

ghost use Rattle.std.specs.Prelude.{◌≡◌, ◌≢◌};
ghost use Rattle.hex.specs.Hex.{encode_upper};
ghost use Rattle.c_lent.specs.Verdict.{IsRefusal, Tells, put_verdict, put_into};
ghost use Rattle.c_lent.specs.Hex.{hex_reason, RefusesText, PutsText};

use c_lent::verdict::Verdict;

/// Decodes a text with two digits for each octet, in either case. A text with an odd length is refused at its end. Any
/// other text is refused at the first octet that isn't a digit.
#[unsafe(no_mangle)]
pub extern "C" fn scard_hex_decode(text: &[u8], out: &mut [u8]) -> Verdict
    ensures written { (IsRefusal result → ⊥) → PutsText text.now out.old out.new result }
    ensures refused { IsRefusal result → Tells hex_reason (RefusesText text.now) result }
    ensures stays { result.status ≢ 0 → out.new ≡ out.old }
{
    c_lent::hexadecimal::hex_decode(text, out)
}

/// Encodes octets as text with two digits for each, letters in upper case, without a 0 at the end.
#[unsafe(no_mangle)]
pub extern "C" fn scard_hex_encode(octets: &[u8], out: &mut [u8]) -> Verdict
    ensures verdict { result ≡ put_verdict (encode_upper octets.now) out.old }
    ensures text { out.new ≡ put_into (encode_upper octets.now) out.old }
{
    c_lent::hexadecimal::hex_encode(octets, out)
}
