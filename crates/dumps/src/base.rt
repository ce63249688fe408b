//! The bases in which programs write offsets.

ghost use Rattle.std.specs.Prelude.{◌≡◌, ◌*◌, ◌≤◌};
ghost use Rattle.dumps.specs.Bases.{counts, radix};

use crate::row::Style;

/// The fewest digits of an octal or decimal offset of `od`.
const DIGITS_OF_OTHERS: usize = 7;

/// The base of a dump's offsets.
#[derive(Clone, Copy)]
pub(crate) enum Base {
    /// As `od -Ax` and all other programs write them.
    Hexadecimal,
    /// As `od -Ad` and `xxd -d` write them.
    Decimal,
    /// As `od` writes them without an option.
    Octal,
    /// Hexadecimal, under a heading of HxD or PowerShell.
    Headed,
}

impl Base {
    /// Returns how many digits the base has.
    pub(crate) fn radix(self) -> u8
        ensures { result ≡ radix self }
    {
        match self {
            Base::Hexadecimal | Base::Headed => 16,
            Base::Decimal => 10,
            Base::Octal => 8,
        }
    }

    /// Returns a number with a zero after its digits.
    pub(crate) fn shifted(self, number: usize) -> usize
        requires { number ≤ 562949953421312 }
        ensures is { result ≡ number * radix self }
        ensures most { result ≤ 9007199254740992 }
    {
        match self {
            Base::Hexadecimal | Base::Headed => number * 16,
            Base::Decimal => number * 10,
            Base::Octal => number * 8,
        }
    }

    /// Whether a row of this program may have an offset with this many digits in this base.
    pub(crate) fn counts(self, digits: usize, style: Style) -> bool
        ensures { result ≡ counts self digits style }
    {
        match (self, style) {
            (Base::Hexadecimal, _) | (Base::Decimal, Style::Xxd) => true,
            (Base::Decimal | Base::Octal, Style::Od) => digits >= DIGITS_OF_OTHERS,
            _ => false,
        }
    }
}
