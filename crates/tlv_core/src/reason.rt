//! Why octets are refused.

use octet_core::Named;
use std::error::Error;
use std::fmt::{self, Display, Formatter, Write};

/// Why octets aren't a forest: what is wrong with the first octet after which no forest can
/// continue. If two reasons hold, the one that is listed first here is returned.
#[derive(Clone, Copy, Debug, PartialEq, Eq)]
pub enum TlvReason {
    /// An object begins inside an object of depth 16.
    TooDeep,
    /// The low seven bits of a second tag octet are all 0.
    TagSecond,
    /// A third tag octet has bit 8, so that a fourth would follow.
    TagLong,
    /// A length field begins with an octet other than 00 to 7F and 81 to 84.
    LengthForm,
    /// The octets that must still come would pass the end of the innermost open object.
    Overrun,
    /// No object is open, and the octets that must still come would pass the limit of the whole
    /// forest.
    TooLong,
}

impl Named for TlvReason {
    ghost use Rattle.tlv_core.specs.Names.{reason_name};

    ghost text = { reason_name };

    fn name(self) -> &'static str {
        match self {
            TlvReason::TooDeep => "TooDeep",
            TlvReason::TagSecond => "TagSecond",
            TlvReason::TagLong => "TagLong",
            TlvReason::LengthForm => "LengthForm",
            TlvReason::Overrun => "Overrun",
            TlvReason::TooLong => "TooLong",
        }
    }
}

/// Writes the reason's name.
impl Display for TlvReason {
    ghost use Rattle.std.specs.Prelude.{Some};
    ghost use Rattle.tlv_core.specs.Names.{reason_name};

    ghost output = { λ reason. Some (reason_name reason) };

    fn fmt<W: Write>(&self, f: &mut Formatter<W>) -> fmt::Result {
        f.write_str(self.name())
    }
}

impl Error for TlvReason {}

/// Why octets aren't a data object list. If two reasons hold, the one that is listed first here is
/// returned.
#[derive(Clone, Copy, Debug, PartialEq, Eq)]
pub enum DolReason {
    /// A tag begins with 00.
    TagZero,
    /// The low seven bits of a second tag octet are all 0.
    TagSecond,
    /// A third tag octet has bit 8, so that a fourth would follow.
    TagLong,
}

impl Named for DolReason {
    ghost use Rattle.tlv_core.specs.Names.{dol_reason_name};

    ghost text = { dol_reason_name };

    fn name(self) -> &'static str {
        match self {
            DolReason::TagZero => "TagZero",
            DolReason::TagSecond => "TagSecond",
            DolReason::TagLong => "TagLong",
        }
    }
}

/// Writes the reason's name.
impl Display for DolReason {
    ghost use Rattle.std.specs.Prelude.{Some};
    ghost use Rattle.tlv_core.specs.Names.{dol_reason_name};

    ghost output = { λ reason. Some (dol_reason_name reason) };

    fn fmt<W: Write>(&self, f: &mut Formatter<W>) -> fmt::Result {
        f.write_str(self.name())
    }
}

impl Error for DolReason {}
