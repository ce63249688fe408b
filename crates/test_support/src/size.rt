//! Sizes of an information field.

ghost use Rattle.std.specs.Prelude.{◌≤◌};

/// An information size.
#[derive(Clone, Copy)]
pub enum Size {
    Two,
    ThirtyTwo,
    Largest,
}

impl Size {
    /// Returns the most octets of a field.
    pub fn octets(self) -> u8
        ensures least { 1 ≤ result }
        ensures most { result ≤ 254 }
    {
        match self {
            Size::Two => 2,
            Size::ThirtyTwo => 32,
            Size::Largest => 254,
        }
    }
}
