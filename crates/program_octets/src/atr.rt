//! What the program prints about an answer to reset.

ghost use Rattle.std.specs.Prelude.{◌≡◌, refl};
ghost use Rattle.atr_core.specs.Atr.{AtrParts};
ghost use Rattle.program_octets.specs.AtrTexts.{atr_codec, atr_members, atr_rows, convention_text};

use crate::atr_members::push_members;
use crate::atr_rows::push_rows;
use crate::codec::{Codec, Outcome};
use crate::rows::Rows;
use crate::shown::{Showable, Shown};
use atr_core::{Atr, AtrReason, Convention, check, decode};
use layouts::Layout;
use notes::atr_refusal_note;
use octet_core::Stop;
use program_words::{Expected, FieldSize};
use std::alloc::{AllocError, Global};

impl Codec for Atr {
    type Reason = AtrReason;

    ghost Value = { AtrParts };

    ghost codec = { λ _. atr_codec };

    ghost named = { λ _. refl };

    fn taken(_alloc: Global, octets: &[u8], _expected: Expected) -> Outcome<usize, AtrReason> {
        Ok(check(octets)?)
    }

    fn shown(
        alloc: Global,
        octets: &[u8],
        expected: Expected,
        layout: Layout,
        noted: bool,
    ) -> Outcome<Shown, AtrReason> {
        let (atr, taken) = decode(octets)?;
        Ok(Shown::of(alloc, &atr, taken, expected.kind, layout, noted)?)
    }

    fn refusal_note(
        alloc: Global,
        octets: &[u8],
        stop: Stop<AtrReason>,
        _ifs: FieldSize,
    ) -> Result<String, AllocError> {
        atr_refusal_note(alloc, octets, stop)
    }
}

impl Showable for Atr {
    ghost rows = { atr_rows };

    ghost members = { atr_members };

    fn push_rows(&self, to: &mut Rows, taken: usize) -> Result<(), AllocError> {
        push_rows(to, self, taken)
    }

    fn push_members(&self, alloc: Global, text: &mut String) -> Result<(), AllocError> {
        push_members(alloc, text, self)
    }
}

/// Returns the name of a convention.
pub(crate) fn convention_name(convention: Convention) -> &'static str
    ensures { result.now ≡ convention_text convention }
{
    match convention {
        Convention::Direct => "direct",
        Convention::Inverse => "inverse",
    }
}
