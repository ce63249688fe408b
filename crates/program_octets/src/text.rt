//! Texts that every kind shares.

ghost use Rattle.std.specs.Prelude.{◌≡◌, ◌<◌, ◌∷◌, ◌++◌, [], OnOk, IfOk, slice_index, string_bytes};
ghost use Rattle.hex.specs.Hex.{encode_upper, upper_digits};
ghost use Rattle.program_octets.specs.Texts.{octets_text};

use octet_core::hex_upper;
use std::alloc::{AllocError, Global};

/// Appends octets to a text, each as two hexadecimal digits in upper case.
#[tactic(auto, unfolding(hex::specs::Hex::encode_with))]
pub(crate) fn push_hex(text: &mut String, octets: &[u8]) -> Result<(), AllocError>
    ensures { OnOk result (string_bytes text.new
        ≡ string_bytes text.old ++ encode_upper octets.now) }
{
    for octet in octets {
        push_octet(text, *octet)?;
    }
    Ok(())
}

/// Appends an octet to a text as two hexadecimal digits in upper case.
#[tactic(auto, unfolding(hex::specs::Hex::encode_with))]
pub(crate) fn push_octet(text: &mut String, octet: u8) -> Result<(), AllocError>
    ensures { OnOk result (string_bytes text.new
        ≡ string_bytes text.old ++ encode_upper (octet ∷ [])) }
{
    text.push(digit(octet / 16))?;
    text.push(digit(octet % 16))
}

/// Returns the hexadecimal digit of a number below 16, in upper case.
fn digit(value: u8) -> char
    requires { value < 16 }
    ensures digit { result ≡ slice_index upper_digits value }
    ensures ascii { result < 128 }
{
    if value < 10 {
        char::from(b'0' + value)
    } else {
        char::from(b'A' + (value - 10))
    }
}

/// Appends octets to a text as a word: hexadecimal digits in upper case, or `none`.
pub(crate) fn push_word(text: &mut String, octets: &[u8]) -> Result<(), AllocError>
    ensures { OnOk result (string_bytes text.new
        ≡ string_bytes text.old ++ octets_text octets.now) }
{
    if octets.is_empty() {
        text.push_str("none")
    } else {
        push_hex(text, octets)
    }
}

/// Returns octets as a word: hexadecimal digits in upper case, or `none`.
pub(crate) fn octets_word(alloc: Global, octets: &[u8]) -> Result<String, AllocError>
    ensures { IfOk result (λ text. string_bytes text ≡ octets_text octets.now) }
{
    if octets.is_empty() {
        String::from_str(alloc, "none")
    } else {
        hex_upper(alloc, octets)
    }
}
