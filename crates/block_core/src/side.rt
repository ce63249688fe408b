//! The two ends of a line.

ghost use Rattle.std.specs.Prelude.{◌≡◌};
ghost use Rattle.block_core.specs.Side as spec;
ghost use Rattle.block_core.specs.Side.{same_side};

/// An end of the line.
#[derive(Clone, Copy, Debug, PartialEq, Eq)]
pub enum Side {
    /// The terminal, which the standard calls the interface device.
    Terminal,
    /// The card.
    Card,
}

impl Side {
    /// Returns the other end.
    pub fn other(self) -> Side
        ensures { result ≡ spec.other self }
    {
        match self {
            Side::Terminal => Side::Card,
            Side::Card => Side::Terminal,
        }
    }

    /// Whether both are the same end.
    pub fn is(self, side: Side) -> bool
        ensures { result ≡ same_side self side }
    {
        match (self, side) {
            (Side::Terminal, Side::Terminal) | (Side::Card, Side::Card) => true,
            (Side::Terminal, Side::Card) | (Side::Card, Side::Terminal) => false,
        }
    }
}
