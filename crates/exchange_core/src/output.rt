//! What an end gives, as a line of a file.

ghost use Rattle.std.specs.Prelude.{◌≡◌, IfOk, string_bytes};
ghost use Rattle.exchange_core.specs.Output.{line_of};
ghost use Rattle.exchange_core.specs.Replay.{is_met};
ghost use Rattle.exchange_text.specs.Text.{line_text};

use crate::carrying::is_spelled;
use block_core::{Block, encode};
use exchange_text::{Line, Name, push_message};
use std::alloc::{AllocError, Global};

/// What an end gives: its turn as a line, with the end's message borrowed.
#[derive(Clone, Copy)]
pub(crate) enum Output<'a> {
    /// The terminal sends this block.
    FromTerminal(&'a Block),
    /// The card sends this block.
    FromCard(&'a Block),
    /// The terminal returns this answer to the application.
    Answer(&'a [u8]),
    /// The card passes its host this command.
    Asked(&'a [u8]),
    /// The card accepted the information size that the terminal asked for.
    IfsSet,
    /// The terminal gave up its exchange or its question.
    GivenUp,
    /// The terminal found the card dead.
    Dead,
}

impl Output<'_> {
    /// Whether a line is this one, whatever happened to its block on the way.
    pub fn is_met_by(self, line: &Line) -> bool
        ensures { result ≡ is_met (line_of self.entry) line.now }
    {
        match self {
            Output::FromTerminal(block) => match line {
                Line::FromTerminal { sent, .. } => is_spelled(block, sent.get()),
                _ => false,
            },
            Output::FromCard(block) => match line {
                Line::FromCard { sent, .. } => is_spelled(block, sent.get()),
                _ => false,
            },
            Output::Answer(octets) => match line {
                Line::Answer(recorded) => octets == recorded.get(),
                _ => false,
            },
            Output::Asked(octets) => match line {
                Line::Asked(recorded) => octets == recorded.get(),
                _ => false,
            },
            Output::IfsSet => matches!(line, Line::IfsSet),
            Output::GivenUp => matches!(line, Line::GivenUp),
            Output::Dead => matches!(line, Line::Dead),
        }
    }

    /// Returns the text of the line.
    pub fn text(self, alloc: Global) -> Result<String, AllocError>
        ensures { IfOk result (λ text. string_bytes text ≡ line_text (line_of self.entry)) }
    {
        let mut text = String::new(alloc);
        match self {
            Output::FromTerminal(block) => {
                push_message(
                    alloc,
                    &mut text,
                    Name::FromTerminal,
                    encode(block).as_slice(),
                )?
            }
            Output::FromCard(block) => {
                push_message(alloc, &mut text, Name::FromCard, encode(block).as_slice())?
            }
            Output::Answer(octets) => push_message(alloc, &mut text, Name::Answer, octets)?,
            Output::Asked(octets) => push_message(alloc, &mut text, Name::Asked, octets)?,
            Output::IfsSet => text.push_str(Name::IfsSet.word())?,
            Output::GivenUp => text.push_str(Name::GivenUp.word())?,
            Output::Dead => text.push_str(Name::Dead.word())?,
        }
        Ok(text)
    }
}
