//! An exchange as a value.

ghost use Rattle.std.specs.Prelude.{◌≡◌, ◌≢◌, MatchResult, true};
ghost use Rattle.exchange_text.specs.Exchange.{are_proper, ExchangeParts, migrated};
ghost use Rattle.exchange_text.specs.Text.{header_text};

use crate::line::Lines;
use crate::proper::are_proper;
use octet_core::Octets;
use std::marker::Model;

/// The version of an exchange's text.
#[derive(Clone, Copy, Debug, PartialEq, Eq)]
pub enum Version {
    /// The lines have no moments and no notes.
    One,
    /// The lines may have moments and notes.
    Two,
}

impl Version {
    /// Returns the first line of a text of the version.
    pub(crate) fn header(self) -> &'static str
        ensures { result.now ≡ header_text self }
    {
        match self {
            Version::One => "scard-exchange 1",
            Version::Two => "scard-exchange 2",
        }
    }
}

/// What went over the line: the octets of the answer to reset, and the lines after it.
///
/// Version 1 has no moments and no notes. A moment is at most 999,999,999,999,999 and not below an earlier one. A note
/// has 1 to 200 characters from 20 to 7E.
#[derive(Debug, Drop)]
pub struct Exchange {
    version: Version,
    atr: Octets,
    lines: Lines,
}

impl Model for Exchange {
    ghost use Rattle.std.specs.Prelude.{◌≡◌, true};
    ghost use Rattle.exchange_text.specs.Exchange.{are_proper, ExchangeParts};

    ghost Value = { ExchangeParts };

    ghost view = { λ e. record { version = e.version; atr = e.atr; lines = e.lines } };

    ghost invariant = { λ e. are_proper e.version 0 e.lines ≡ true };
}

impl Exchange {
    /// Makes an exchange of these parts.
    ///
    /// Returns both parts as `Err` if a line doesn't fit the version, or if a moment is below an earlier one or too
    /// late. It does so too if a note is empty, has more than 200 characters, or has one outside 20 to 7E.
    pub fn try_new(version: Version, atr: Octets, lines: Lines) -> Result<Exchange, (Octets, Lines)>
        ensures made { MatchResult result
            (λ exchange. exchange ≡ record { version = version; atr = atr; lines = lines })
            (λ back. (back ≡ (atr, lines)) × (are_proper version 0 lines ≢ true)) }
    {
        if are_proper(version, lines.get()) {
            Ok(Exchange {
                version,
                atr,
                lines,
            })
        } else {
            Err((atr, lines))
        }
    }

    /// Makes an exchange of proper parts.
    pub fn proper(version: Version, atr: Octets, lines: Lines) -> Exchange
        requires { are_proper version 0 lines ≡ true }
        ensures { result ≡ record { version = version; atr = atr; lines = lines } }
    {
        Exchange {
            version,
            atr,
            lines,
        }
    }

    /// Returns the version of its text.
    pub fn version(&self) -> Version
        ensures { result ≡ self.now.version }
    {
        self.version
    }

    /// Returns the octets of the answer to reset, as they were recorded.
    pub fn atr(&self) -> &[u8]
        ensures { result.now ≡ self.now.atr }
    {
        self.atr.get()
    }

    /// Returns the lines after the answer to reset.
    pub fn lines(&self) -> &Lines
        ensures lines { result.now ≡ self.now.lines }
        ensures proper { are_proper self.now.version 0 self.now.lines ≡ true }
    {
        &self.lines
    }
}

/// Returns the exchange in version 2, with the same answer to reset and lines.
pub fn migrate(exchange: Exchange) -> Exchange
    ensures { result ≡ migrated exchange }
{
    Exchange {
        version: Version::Two,
        atr: exchange.atr,
        lines: exchange.lines,
    }
}
