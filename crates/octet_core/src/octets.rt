//! Lists of octets and texts that own their memory. Contracts see them as lists of octets.

use std::fmt::{self, Debug, Formatter, Write};
use std::marker::Model;

/// Octets in a vector. Contracts see them as a list.
#[derive(Drop)]
pub struct Octets {
    held: Vec<u8>,
}

impl Model for Octets {
    ghost use Rattle.std.specs.Prelude.{List, ℕ};

    ghost Value = { List ℕ };

    ghost view = { λ octets. octets.held.items };
}

impl Octets {
    ghost use Rattle.std.specs.Prelude.{◌≡◌};

    /// Makes a list of the octets in a vector.
    pub fn of(held: Vec<u8>) -> Self
        ensures { result ≡ held.items }
    {
        Octets { held }
    }

    /// Borrows the octets.
    pub fn get(&self) -> &[u8]
        ensures { result.now ≡ self.now }
    {
        self.held.as_slice()
    }

    /// Returns the vector.
    pub fn into_inner(self) -> Vec<u8>
        ensures { result.items ≡ self }
    {
        self.held
    }
}

impl PartialEq for Octets {
    ghost use Rattle.std.specs.Prelude.{◌==◌};
    ghost use lib.Pointwise.{pointwise};
    ghost use Rattle.std.proofs.Common.{rules};
    ghost use Rattle.std.specs.Cmp.Rules.{comparing};

    ghost eq = { pointwise ◌==◌ };

    ghost laws = { Prim.search (comparing, rules) };

    fn eq(&self, other: &Self) -> bool {
        self.get() == other.get()
    }
}

impl Eq for Octets {
    ghost use Rattle.std.proofs.Common.{rules};
    ghost use Rattle.std.specs.Cmp.Rules.{comparing};

    ghost laws = { Prim.search (comparing, rules) };
}

/// Shows how many octets there are. They may be a message, so no octet is shown.
impl Debug for Octets {
    fn fmt<W: Write>(&self, f: &mut Formatter<W>) -> fmt::Result {
        f.debug_struct("Octets")
            .field("octets", &self.held.len())
            .finish()
    }
}

/// A text. Contracts see it as the list of its octets in UTF-8.
#[derive(Drop)]
pub struct Text {
    held: String,
}

impl Model for Text {
    ghost use Rattle.std.specs.Prelude.{List, ℕ, string_bytes};

    ghost Value = { List ℕ };

    ghost view = { λ text. string_bytes text.held };
}

impl Text {
    ghost use Rattle.std.specs.Prelude.{◌≡◌, string_bytes};

    /// Makes a text of a string.
    pub fn of(held: String) -> Self
        ensures { result ≡ string_bytes held }
    {
        Text { held }
    }

    /// Borrows the text.
    pub fn get(&self) -> &str
        ensures { result.now ≡ self.now }
    {
        self.held.as_str()
    }

    /// Returns the string.
    pub fn into_inner(self) -> String
        ensures { string_bytes result ≡ self }
    {
        self.held
    }
}

impl PartialEq for Text {
    ghost use Rattle.std.specs.Prelude.{◌==◌};
    ghost use lib.Pointwise.{pointwise};
    ghost use Rattle.std.proofs.Common.{rules};
    ghost use Rattle.std.specs.Cmp.Rules.{comparing};

    ghost eq = { pointwise ◌==◌ };

    ghost laws = { Prim.search (comparing, rules) };

    fn eq(&self, other: &Self) -> bool {
        self.get() == other.get()
    }
}

impl Eq for Text {
    ghost use Rattle.std.proofs.Common.{rules};
    ghost use Rattle.std.specs.Cmp.Rules.{comparing};

    ghost laws = { Prim.search (comparing, rules) };
}

/// Shows how many octets there are. They may show a message, so no octet is shown.
impl Debug for Text {
    fn fmt<W: Write>(&self, f: &mut Formatter<W>) -> fmt::Result {
        f.debug_struct("Text")
            .field("octets", &self.held.len())
            .finish()
    }
}
