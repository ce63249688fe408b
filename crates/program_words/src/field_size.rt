//! The sizes of information fields.

ghost use Rattle.std.specs.Prelude.{◌≡◌, SomeIff};
ghost use Rattle.octet_core.specs.Sizes.{IsFieldSize};

use octet_core::is_reserved;
use std::marker::Model;

/// A size of information fields, 1 to 254. Contracts see it as a number (ISO/IEC 7816-3:2006, clause 11.4.2).
#[derive(Clone, Copy)]
pub struct FieldSize {
    octet: u8,
}

impl Model for FieldSize {
    ghost use Rattle.std.specs.Prelude.{ℕ};
    ghost use Rattle.octet_core.specs.Sizes.{IsFieldSize};

    ghost Value = { ℕ };

    ghost view = { λ size. size.octet };

    ghost invariant = { λ size. IsFieldSize size.octet };

    ghost inverse = { λ size. record { octet = size } };
}

impl FieldSize {
    /// The largest size.
    pub const GREATEST: FieldSize = FieldSize { octet: 254 };

    /// Returns the size in an octet, or `None` for 0 and 255, which are reserved.
    pub fn from_octet(octet: u8) -> Option<FieldSize>
        ensures { SomeIff result (IsFieldSize octet) octet }
    {
        if is_reserved(octet) {
            None
        } else {
            Some(FieldSize { octet })
        }
    }

    /// Returns the size as an octet.
    pub fn get(self) -> u8
        ensures value { result ≡ self }
        ensures size { IsFieldSize result }
    {
        self.octet
    }
}
