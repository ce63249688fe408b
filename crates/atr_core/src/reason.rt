//! Why octets aren't an answer to reset.

use octet_core::Named;
use std::error::Error;
use std::fmt::{self, Display, Formatter, Write};

/// Why octets aren't an answer to reset.
#[derive(Clone, Copy, Debug, PartialEq, Eq)]
pub enum AtrReason {
    /// TS isn't 3B or 3F.
    BadTs,
    /// No answer can continue after this TD. The octets that must still come would make more than 33:
    /// the bytes and the TD that it announces, the historical bytes, and TCK.
    TooLong,
    /// TCK doesn't make the exclusive-or of all octets from T0 on 00.
    BadTck,
}

impl Named for AtrReason {
    ghost use Rattle.atr_core.specs.Names.{reason_name};

    ghost text = { reason_name };

    fn name(self) -> &'static str {
        match self {
            AtrReason::BadTs => "BadTs",
            AtrReason::TooLong => "TooLong",
            AtrReason::BadTck => "BadTck",
        }
    }
}

/// Writes the reason's name.
impl Display for AtrReason {
    ghost use Rattle.std.specs.Prelude.{Some};
    ghost use Rattle.atr_core.specs.Names.{reason_name};

    ghost output = { λ reason. Some (reason_name reason) };

    fn fmt<W: Write>(&self, f: &mut Formatter<W>) -> fmt::Result {
        f.write_str(self.name())
    }
}

impl Error for AtrReason {}
