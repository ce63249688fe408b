//! Hexadecimal text.

ghost use Rattle.std.specs.Prelude.{◌≡◌, ◌≢◌, ◌<◌, ◌*◌, IfSome, IfNone, Ok, false, length, slice_index, take};
ghost use Rattle.std.specs.List.{AllPass};
ghost use Rattle.hex.specs.Hex.{decode_of, encode_upper, is_hex_digit};
ghost use Rattle.octet_core.specs.declared.stop.Stop.TheVariants.{At};
ghost use Rattle.c_lent.specs.Verdict.{IsRefusal, Tells, told, put_verdict, put_into};
ghost use Rattle.c_lent.specs.Hex.{hex_reason, RefusesText, PutsText};

use crate::verdict::{Numbered, Verdict};
use octet_core::Stop;

/// The sixteen digits, with letters in upper case.
const DIGITS: &[u8; 16] = b"0123456789ABCDEF";

/// Why a text isn't octets in hexadecimal.
#[derive(Clone, Copy)]
pub enum HexReason {
    /// An octet of the text isn't a digit.
    Digit,
    /// The text has an odd number of octets.
    Odd,
}

/// Decodes a text with two digits for each octet, in either case.
pub fn hex_decode(text: &[u8], out: &mut [u8]) -> Verdict
    ensures written { (IsRefusal result → ⊥) → PutsText text.now out.old out.new result }
    ensures refused { IsRefusal result → Tells hex_reason (RefusesText text.now) result }
    ensures stays { result.status ≢ 0 → out.new ≡ out.old }
{
    if text.len() % 2 != 0 {
        return refused(text.len(), HexReason::Odd);
    }
    if let Some(place) = no_digit(text) {
        return refused(place, HexReason::Digit);
    }
    let count = text.len() / 2;
    if count > out.len() {
        return Verdict::lacking(count);
    }
    put_octets(text, &mut out[..count]);
    Verdict::ok(count)
}

/// Encodes octets as text with two digits for each, letters in upper case, without a 0 at the end.
pub fn hex_encode(octets: &[u8], out: &mut [u8]) -> Verdict
    ensures verdict { result ≡ put_verdict (encode_upper octets.now) out.old }
    ensures text { out.new ≡ put_into (encode_upper octets.now) out.old }
{
    let count = 2 * octets.len();
    if count > out.len() {
        return Verdict::lacking(count);
    }
    put_digits(octets, &mut out[..count]);
    Verdict::ok(count)
}

/// Returns the verdict that refuses the text at this place.
fn refused(place: usize, reason: HexReason) -> Verdict
    ensures { result ≡ told hex_reason (At place reason) }
{
    Verdict::stopped(Stop::At { place, reason })
}

/// Returns the place of the first octet of a text that isn't a digit.
fn no_digit(text: &[u8]) -> Option<usize>
    ensures found { IfSome result (λ place. (place < length text.now)
        × (is_hex_digit (slice_index text.now place) ≡ false)
        × AllPass is_hex_digit (take place text.now)) }
    ensures none { IfNone result (AllPass is_hex_digit text.now) }
{
    for place in 0..text.len() {
        if !is_digit(text[place]) {
            return Some(place);
        }
    }
    None
}

fn is_digit(octet: u8) -> bool
    ensures { result ≡ is_hex_digit octet }
{
    matches!(octet, b'0'..=b'9' | b'A'..=b'F' | b'a'..=b'f')
}

/// Decodes a text of digits into a buffer of exactly its length.
fn put_octets(text: &[u8], out: &mut [u8])
    requires digits { AllPass is_hex_digit text.now }
    requires room { length text.now ≡ 2 * length out.old }
    ensures { decode_of text.now ≡ Ok out.new }
{
    let _written = hex::decode_to_slice(text, out);
}

/// Encodes octets as text into a buffer of exactly its length.
fn put_digits(octets: &[u8], out: &mut [u8])
    requires { length out.old ≡ 2 * length octets.now }
    ensures { out.new ≡ encode_upper octets.now }
{
    for place in 0..octets.len() {
        let octet = octets[place];
        out[2 * place] = DIGITS[(octet >> 4) as usize];
        out[2 * place + 1] = DIGITS[(octet & 0x0F) as usize];
    }
}

impl Numbered for HexReason {
    ghost number = { hex_reason };

    fn number(self) -> u8 {
        match self {
            HexReason::Digit => 1,
            HexReason::Odd => 2,
        }
    }
}
