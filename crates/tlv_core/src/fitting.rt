//! Cutting and padding of values to the length that a data object list asks for.

ghost use Rattle.std.specs.Prelude.{◌≡◌, ◌-◌, ◌++◌, length, take, drop, replicate};
ghost use Rattle.tlv_core.specs.Fill.{fitted};

use octet_core::Format;

/// Fills `part` with a value, cut or padded by its format (EMV 4.3 Book 3, clause 5.4). A numeric value loses its
/// leftmost octets or gets leading 00. A compressed numeric one loses its rightmost octets or gets trailing FF. Any
/// other loses its rightmost octets or gets trailing 00.
pub fn put_fitted(part: &mut [u8], format: Format, value: &[u8])
    ensures { part.new ≡ fitted format (length part.old) value.now }
{
    match format {
        Format::Numeric => put_last(part, value),
        Format::CompressedNumeric => put_first(part, value, 0xFF),
        Format::Other => put_first(part, value, 0),
    }
}

/// Fills octets with the last octets of a value. If the value has fewer, octets 00 precede it.
fn put_last(part: &mut [u8], value: &[u8])
    ensures { part.new ≡ replicate (length part.old - length value.now) 0
        ++ drop (length value.now - length part.old) value.now }
{
    let kept = value.len().min(part.len());
    let missing = part.len() - kept;
    put_copies(&mut part[..missing], 0);
    part[missing..].copy_from_slice(&value[value.len() - kept..]);
}

/// Fills octets with the first octets of a value. If the value has fewer, copies of `octet` follow it.
fn put_first(part: &mut [u8], value: &[u8], octet: u8)
    ensures { part.new ≡ take (length part.old) value.now
        ++ replicate (length part.old - length value.now) octet }
{
    let kept = value.len().min(part.len());
    part[..kept].copy_from_slice(&value[..kept]);
    put_copies(&mut part[kept..], octet);
}

/// Fills octets with copies of one octet.
pub fn put_copies(part: &mut [u8], octet: u8)
    ensures { part.new ≡ replicate (length part.old) octet }
{
    part.fill(octet);
}
