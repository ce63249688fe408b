//! The parts of what an end prints of itself: states, sizes, limits and numbers of octets.

ghost use Rattle.std.specs.Prelude.{◌≡◌};
ghost use Rattle.t1_core.specs.Shown.{number_name};

use block_core::Number;
use std::fmt::{self, Display, Formatter, Write};

/// The numbers and the sizes of an end.
#[derive(Clone, Copy)]
pub(crate) struct Sizes {
    pub(crate) number: Number,
    pub(crate) expected: Number,
    pub(crate) ifsc: u8,
    pub(crate) ifsd: u8,
}

impl Display for Sizes {
    ghost use Rattle.std.specs.Prelude.{Some};
    ghost use Rattle.t1_core.specs.Shown.{sizes_text};

    ghost output = { λ s. Some (sizes_text s.number s.expected s.ifsc s.ifsd) };

    fn fmt<W: Write>(&self, f: &mut Formatter<W>) -> fmt::Result {
        let number = name_of(self.number);
        let expected = name_of(self.expected);
        let ifsc = self.ifsc;
        let ifsd = self.ifsd;
        write!(
            f,
            "number: {number}, expected: {expected}, ifsc: {ifsc}, ifsd: {ifsd}"
        )
    }
}

/// How many octets a terminal holds, and may hold.
#[derive(Clone, Copy)]
pub(crate) struct TerminalMessages {
    pub(crate) command: usize,
    pub(crate) answer: usize,
    pub(crate) is_answered: bool,
    pub(crate) most_command: usize,
    pub(crate) most_answer: usize,
}

impl Display for TerminalMessages {
    ghost use Rattle.std.specs.Prelude.{Some};
    ghost use Rattle.t1_core.specs.Shown.{terminal_messages_text};

    ghost output = { λ m. Some
        (terminal_messages_text m.command m.answer m.is_answered m.most_command m.most_answer) };

    fn fmt<W: Write>(&self, f: &mut Formatter<W>) -> fmt::Result {
        let command = self.command;
        let answer = self.answer;
        let is_answered = self.is_answered;
        let most_command = self.most_command;
        let most_answer = self.most_answer;
        write!(
            f,
            "command_octets: {command}, answer_octets: {answer}, is_answered: {is_answered}, \
             most_command: {most_command}, most_answer: {most_answer}"
        )
    }
}

/// How many octets a card holds, and may hold.
#[derive(Clone, Copy)]
pub(crate) struct CardMessages {
    pub(crate) command: usize,
    pub(crate) reply: usize,
    pub(crate) is_saved: bool,
    pub(crate) most_command: usize,
    pub(crate) most_reply: usize,
}

impl Display for CardMessages {
    ghost use Rattle.std.specs.Prelude.{Some};
    ghost use Rattle.t1_core.specs.Shown.{card_messages_text};

    ghost output = { λ m. Some
        (card_messages_text m.command m.reply m.is_saved m.most_command m.most_reply) };

    fn fmt<W: Write>(&self, f: &mut Formatter<W>) -> fmt::Result {
        let command = self.command;
        let reply = self.reply;
        let is_saved = self.is_saved;
        let most_command = self.most_command;
        let most_reply = self.most_reply;
        write!(
            f,
            "command_octets: {command}, reply_octets: {reply}, is_saved: {is_saved}, \
             most_command: {most_command}, most_reply: {most_reply}"
        )
    }
}

/// Returns the name of a number.
fn name_of(number: Number) -> &'static str
    ensures { result.now ≡ number_name number }
{
    match number {
        Number::Zero => "Zero",
        Number::One => "One",
    }
}
