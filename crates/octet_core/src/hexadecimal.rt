//! Octets as hexadecimal text.

ghost use Rattle.std.specs.Prelude.{◌≡◌, IfOk, IfErr, Ok, string_bytes};
ghost use Rattle.hex.specs.Hex.{decode_of, encode_upper};
ghost use Rattle.octet_core.specs.Hexadecimal.{IsHexFault};

use hex::FromHexError;
use std::alloc::{AllocError, Global};
use std::error::Error;
use std::fmt::{self, Display, Formatter, Write};

/// Why a text isn't octets in hexadecimal.
#[derive(Clone, Copy, Debug, PartialEq, Eq)]
pub enum HexFault {
    /// The text has an odd number of octets in UTF-8.
    Odd,
    /// The octet at `place` of the text, counted from 0, is the first that isn't a digit.
    Digit { place: usize },
    /// An allocation failed. The text has an even number of octets, and some of them may not be digits.
    Memory,
}

/// Writes the name of the fault, followed by the place of an octet that isn't a digit, as in `Digit at 3`; or
/// `memory` if an allocation failed.
impl Display for HexFault {
    ghost use Rattle.std.specs.Prelude.{Some};
    ghost use Rattle.octet_core.specs.Stops.{hex_fault_text};

    ghost output = { λ fault. Some (hex_fault_text fault) };

    fn fmt<W: Write>(&self, f: &mut Formatter<W>) -> fmt::Result {
        match self {
            HexFault::Odd => f.write_str("Odd"),
            HexFault::Digit { place } => write!(f, "Digit at {place}"),
            HexFault::Memory => f.write_str("memory"),
        }
    }
}

impl Error for HexFault {}

/// Decodes a text with two hexadecimal digits for each octet, in either case.
pub fn octets_of(alloc: Global, text: &str) -> Result<Vec<u8>, HexFault>
    ensures octets { IfOk result (λ octets. decode_of text.now ≡ Ok octets.items) }
    ensures fault { IfErr result (IsHexFault text.now) }
{
    match hex::decode(alloc, text) {
        Ok(octets) => Ok(octets),
        Err(FromHexError::InvalidHexCharacter { c: _, index }) => {
            Err(HexFault::Digit { place: index })
        }
        Err(FromHexError::OutOfMemory) => Err(HexFault::Memory),
        Err(FromHexError::OddLength) => Err(HexFault::Odd),
        // `decode` makes room of the length that the text needs
        Err(FromHexError::InvalidStringLength) => unreachable!(),
    }
}

/// Encodes the octets as text with two digits each, in upper case. The error is a failed allocation.
pub fn hex_upper(alloc: Global, octets: &[u8]) -> Result<String, AllocError>
    ensures { IfOk result (λ text. string_bytes text ≡ encode_upper octets.now) }
{
    hex::encode_upper(alloc, octets)
}
