//! Which lines an exchange of a version may have.

ghost use Rattle.std.specs.Prelude.{◌≡◌};
ghost use Rattle.std.specs.List.{list_all};
ghost use Rattle.exchange_text.specs.Exchange as exchange;
ghost use Rattle.exchange_text.specs.Exchange.{is_note, is_printable, may_follow, moment_after};

use crate::exchange::Version;
use crate::line::Line;

/// The latest moment of an exchange, in microseconds.
pub const LATEST_MOMENT: u64 = 999_999_999_999_999;

/// The most characters that a note has.
pub(crate) const LONGEST_NOTE: usize = 200;

/// Whether an exchange of the version may have these lines, in this order.
pub(crate) fn are_proper(version: Version, lines: &[Line]) -> bool
    ensures { result ≡ exchange.are_proper version 0 lines.now }
{
    let mut least = 0;
    let mut rest = lines;
    while let [line, after @ ..] = rest {
        if !may_follow(version, least, line) {
            return false;
        }
        least = moment_after(least, line);
        rest = after;
    }
    true
}

/// Whether an exchange of the version may have this line after the moment `least`.
pub(crate) fn may_follow(version: Version, least: u64, line: &Line) -> bool
    ensures { result ≡ may_follow version least line.now }
{
    match line {
        Line::Moment(moment) => {
            version == Version::Two && least <= *moment && *moment <= LATEST_MOMENT
        }
        Line::Note(text) => version == Version::Two && is_note(text.get().as_bytes()),
        _ => true,
    }
}

/// Returns the moment after a line; `least` is the moment before it.
pub(crate) fn moment_after(least: u64, line: &Line) -> u64
    ensures { result ≡ moment_after least line.now }
{
    match line {
        Line::Moment(moment) => *moment,
        _ => least,
    }
}

/// Whether a text is a note: 1 to 200 characters from 20 to 7E.
pub(crate) fn is_note(text: &[u8]) -> bool
    ensures { result ≡ is_note text.now }
{
    let is_printable = are_printable(text);
    0 < text.len() && text.len() <= LONGEST_NOTE && is_printable
}

fn are_printable(text: &[u8]) -> bool
    ensures { result ≡ list_all is_printable text.now }
{
    text.iter().all(|&c| is_printable(c))
}

fn is_printable(character: u8) -> bool
    ensures { result ≡ is_printable character }
{
    0x20 <= character && character <= 0x7E
}
