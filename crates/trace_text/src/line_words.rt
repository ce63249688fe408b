//! The words of a line of a trace.

ghost use Rattle.std.specs.Prelude.{◌≡◌};
ghost use Rattle.trace_text.specs.Reading.{words_of};

use octet_core::first_word;
use std::marker::Model;

/// The first four words of a line, empty if the line has fewer, and the next word.
#[derive(Drop)]
pub(crate) struct LineWords<'a> {
    pub(crate) first: &'a [u8],
    pub(crate) second: &'a [u8],
    pub(crate) third: &'a [u8],
    pub(crate) fourth: &'a [u8],
    pub(crate) more: &'a [u8],
}

impl<'a> Model for LineWords<'a> {
    ghost use Rattle.trace_text.specs.Reading.{Words};

    ghost Value = { Words };

    ghost view = { λ w. record {
      first = w.first.now;
      second = w.second.now;
      third = w.third.now;
      fourth = w.fourth.now;
      more = w.more.now;
    } };
}

impl<'a> LineWords<'a> {
    /// Splits a line into its words.
    pub(crate) fn of(line: &'a [u8]) -> LineWords<'a>
        ensures { result ≡ words_of line.now }
    {
        let (first, rest) = first_word(line);
        let (second, rest) = first_word(rest);
        let (third, rest) = first_word(rest);
        let (fourth, rest) = first_word(rest);
        let (more, _) = first_word(rest);
        LineWords {
            first,
            second,
            third,
            fourth,
            more,
        }
    }
}
