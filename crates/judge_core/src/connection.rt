//! Several logical connections on one line (ISO/IEC 7816-3:2006, 11.3.2.1). The judge follows that of the first block.

ghost use Rattle.std.specs.Prelude.{◌≡◌};
ghost use Rattle.judge_core.specs.Connections.{gone_on, gone_quiet, is_among, is_asked, is_away, is_open_to, is_outstanding, is_unclear, pairs_with, settled};

/// The pairs of node addresses that the terminal used, each as the node address of the terminal's blocks.
#[derive(Clone, Copy, Debug)]
pub enum Pairs {
    /// That of the first block alone.
    First,
    /// That one, and this.
    Two(u8),
    /// It used more, or may have used any.
    Many,
}

/// Of which connection the last octets were.
#[derive(Clone, Copy, Debug)]
pub enum Last {
    /// Of the first one, or of an unknown one, or there were none.
    Here,
    /// The terminal sent octets that aren't a block, and the card answered nothing since then. Nobody knows the
    /// connection.
    Unclear,
    /// The terminal sent a block of another connection, and waits for the answer.
    Asked,
    /// The terminal went on without that answer, which may come late.
    Late,
    /// The card sent a block of another connection.
    Answered,
}

impl Pairs {
    /// Whether the terminal used this pair, which isn't that of the first block.
    fn is_among(self, nad: u8) -> bool
        ensures { result ≡ is_among self nad }
    {
        match self {
            Pairs::First => false,
            Pairs::Two(other) => other == nad,
            Pairs::Many => true,
        }
    }

    /// Returns the pairs with one more.
    pub(crate) fn with(self, nad: u8) -> Pairs
        ensures { result ≡ pairs_with self nad }
    {
        match self {
            Pairs::First => Pairs::Two(nad),
            Pairs::Two(other) if other == nad => self,
            Pairs::Two(_) | Pairs::Many => Pairs::Many,
        }
    }

    /// Whether a block of the card with this pair may be of another connection. `owes` says whether the card certainly
    /// owes an answer of the first one.
    pub(crate) fn is_open_to(self, last: Last, owes: bool, nad: u8) -> bool
        ensures { result ≡ is_open_to self last owes nad }
    {
        last.is_unclear() || self.is_among(nad) && (!owes || last.is_outstanding())
    }
}

impl Last {
    /// Whether a card that answers may use any pair.
    fn is_unclear(self) -> bool
        ensures { result ≡ is_unclear self }
    {
        matches!(self, Last::Unclear)
    }

    /// Whether the terminal waits for the answer to a block of another connection.
    pub(crate) fn is_asked(self) -> bool
        ensures { result ≡ is_asked self }
    {
        matches!(self, Last::Asked)
    }

    /// Whether the card may still answer a block of another connection.
    fn is_outstanding(self) -> bool
        ensures { result ≡ is_outstanding self }
    {
        matches!(self, Last::Asked | Last::Late)
    }

    /// Whether octets of the card that aren't a block may be of another connection.
    pub(crate) fn is_away(self) -> bool
        ensures { result ≡ is_away self }
    {
        matches!(self, Last::Asked | Last::Late | Last::Answered)
    }

    /// Returns what is last after octets of the terminal in the first connection.
    pub(crate) fn gone_on(self) -> Last
        ensures { result ≡ gone_on self }
    {
        match self {
            Last::Here | Last::Answered => Last::Here,
            Last::Unclear => Last::Unclear,
            Last::Asked | Last::Late => Last::Late,
        }
    }

    /// Returns what is last after the terminal's waiting time.
    pub(crate) fn gone_quiet(self) -> Last
        ensures { result ≡ gone_quiet self }
    {
        match self {
            Last::Here => Last::Here,
            Last::Unclear => Last::Unclear,
            Last::Asked | Last::Late => Last::Late,
            Last::Answered => Last::Answered,
        }
    }

    /// Returns what is last after octets of the card that are of the first connection, or of an unknown one.
    pub(crate) fn settled(self) -> Last
        ensures { result ≡ settled self }
    {
        match self {
            Last::Here | Last::Unclear | Last::Answered => Last::Here,
            Last::Asked | Last::Late => Last::Late,
        }
    }
}
