//! Lists that own their memory. Contracts see them as lists.

use std::marker::Model;

/// Items in a vector. Contracts see them as a list.
#[derive(Debug, Drop)]
pub struct Listed<T> {
    held: Vec<T>,
}

impl<T> Model for Listed<T> {
    ghost use Rattle.std.specs.Prelude.{List};

    ghost Value = { List T };

    ghost view = { λ list. list.held.items };
}

impl<T> Listed<T> {
    ghost use Rattle.std.specs.Prelude.{◌≡◌};

    /// Makes a list of the items in a vector.
    pub fn of(held: Vec<T>) -> Self
        ensures { result ≡ held.items }
    {
        Listed { held }
    }

    /// Borrows the items.
    pub fn get(&self) -> &[T]
        ensures { result.now ≡ self.now }
    {
        self.held.as_slice()
    }

    /// Returns the vector.
    pub fn into_inner(self) -> Vec<T>
        ensures { result.items ≡ self }
    {
        self.held
    }
}

/// Lists are equal if they have the same number of items, and these are equal in their order.
impl<T: PartialEq> PartialEq for Listed<T> {
    ghost use lib.Pointwise.{pointwise};
    ghost use Rattle.std.specs.Cmp.Lexicographic.{lists_per};

    ghost eq = { pointwise T.eq };

    ghost laws = { lists_per T.laws };

    fn eq(&self, other: &Self) -> bool {
        self.get() == other.get()
    }
}

impl<T: Eq> Eq for Listed<T> {
    ghost use Rattle.std.specs.Cmp.Lexicographic.{lists_equiv};

    ghost laws = { lists_equiv T.Eq.laws };
}
