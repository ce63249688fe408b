//! The time between two moments.

ghost use Rattle.std.specs.Prelude.{◌≡◌};
ghost use Rattle.apdu_list.specs.Listing as listing;

/// What is known about the first and the last moment of an exchange of command and answer, in microseconds.
#[derive(Clone, Copy)]
pub(crate) enum Span {
    /// No moment came.
    Unknown,
    /// One moment came.
    Since(u64),
    /// Two or more moments came. These are the first and the last.
    Between(u64, u64),
}

impl Span {
    /// Returns the span with one more moment.
    pub(crate) fn until(self, moment: u64) -> Span
        ensures { result ≡ listing.until self moment }
    {
        match self {
            Span::Unknown => Span::Since(moment),
            Span::Since(first) => Span::Between(first, moment),
            Span::Between(first, _) => Span::Between(first, moment),
        }
    }

    /// Returns the span that begins with the last moment.
    pub(crate) fn from_last(self) -> Span
        ensures { result ≡ listing.from_last self }
    {
        match self {
            Span::Unknown => Span::Unknown,
            Span::Since(moment) => Span::Since(moment),
            Span::Between(_, last) => Span::Since(last),
        }
    }
}
