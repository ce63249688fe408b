//! The lines of rows.

ghost use Rattle.std.specs.Prelude.{◌≡◌, ◌∷◌, ◌++◌, [], ℕ, List, OnOk, decimal, string_bytes};
ghost use Rattle.hex.specs.Hex.{encode_upper};
ghost use Rattle.program_octets.specs.Texts.{octets_text};

use crate::text::{push_hex, push_octet, push_word};
use std::alloc::AllocError;

/// The line of a row, without its end.
pub(crate) trait RowLine {
    /// The line.
    ghost line: { Self → List ℕ };

    /// Appends the line to a text.
    fn push_to(&self, text: &mut String) -> Result<(), AllocError>
        ensures { OnOk result (string_bytes text.new ≡ string_bytes text.old ++ line self.now) };
}

/// A text as it is.
#[derive(Clone, Copy)]
pub(crate) struct TextLine<'a> {
    pub(crate) text: &'a str,
}

impl RowLine for TextLine<'_> {
    ghost line = { λ l. l.text.now };

    fn push_to(&self, text: &mut String) -> Result<(), AllocError> {
        text.push_str(self.text)
    }
}

/// An octet in hexadecimal digits, after a text.
#[derive(Clone, Copy)]
pub(crate) struct OctetLine<'a> {
    pub(crate) front: &'a str,
    pub(crate) octet: u8,
}

impl RowLine for OctetLine<'_> {
    ghost line = { λ l. l.front.now ++ encode_upper (l.octet ∷ []) };

    fn push_to(&self, text: &mut String) -> Result<(), AllocError> {
        text.push_str(self.front)?;
        push_octet(text, self.octet)
    }
}

/// Octets in hexadecimal digits, after a text.
#[derive(Clone, Copy)]
pub(crate) struct HexLine<'a> {
    pub(crate) front: &'a str,
    pub(crate) octets: &'a [u8],
}

impl RowLine for HexLine<'_> {
    ghost line = { λ l. l.front.now ++ encode_upper l.octets.now };

    fn push_to(&self, text: &mut String) -> Result<(), AllocError> {
        text.push_str(self.front)?;
        push_hex(text, self.octets)
    }
}

/// Octets as a word, after a text.
#[derive(Clone, Copy)]
pub(crate) struct WordLine<'a> {
    pub(crate) front: &'a str,
    pub(crate) octets: &'a [u8],
}

impl RowLine for WordLine<'_> {
    ghost line = { λ l. l.front.now ++ octets_text l.octets.now };

    fn push_to(&self, text: &mut String) -> Result<(), AllocError> {
        text.push_str(self.front)?;
        push_word(text, self.octets)
    }
}

/// A number, after a text.
#[derive(Clone, Copy)]
pub(crate) struct NumberLine<'a> {
    pub(crate) front: &'a str,
    pub(crate) number: usize,
}

impl RowLine for NumberLine<'_> {
    ghost line = { λ l. l.front.now ++ decimal l.number };

    fn push_to(&self, text: &mut String) -> Result<(), AllocError> {
        let number = self.number;
        text.push_str(self.front)?;
        write!(text, "{number}")
    }
}
