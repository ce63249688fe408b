//! What an end holds beside its two buffers: a few dozen octets, and no octet of a message.
//!
//! `Terminal` and `Card` own this and their two buffers. A program without an allocator keeps a `LentTerminal` or a
//! `LentCard` and the buffers itself, and passes the buffers to each call. That is a whole end, too.

ghost use Rattle.std.specs.Prelude.{◌≡◌, List, ℕ, length, replicate};
ghost use Rattle.t1_core.specs.Terminal.{terminal_with, at_most};
ghost use Rattle.t1_core.specs.Views.{terminal_held, IsLentTerminal};
ghost use Rattle.t1_core.specs.Card.{card_with};
ghost use Rattle.t1_core.specs.CardViews.{card_held, IsLentCard};

use crate::terminal::FIRST_IFSD;
use crate::turns::{CardWait, Cut, TerminalWait};
use atr_core::T1Params;
use block_core::Number;
use chain_core::{LONGEST_COMMAND, LONGEST_RESPONSE as LONGEST_ANSWER, overwrite};

/// A terminal over two buffers that its caller owns and passes to each call. It has the terminal's numbers, sizes,
/// limits and state.
///
/// [`LentTerminal::begin`] makes one, and each call keeps it fit. If other code may have changed it or the buffers'
/// sizes, [`LentTerminal::fits`] says whether it is still a terminal.
#[derive(Clone, Copy, Debug)]
pub struct LentTerminal {
    pub number: Number,
    pub expected: Number,
    pub failures: u8,
    pub ifsc: u8,
    pub ifsd: u8,
    pub first_ifsc: u8,
    pub wait: TerminalWait,
    pub is_answered: bool,
    pub most_command: usize,
    pub most_answer: usize,
    /// How many octets the command has, at the front of its buffer.
    pub command_len: usize,
    /// How many octets of the answer came so far, at the front of its buffer.
    pub answer_len: usize,
}

impl LentTerminal {
    /// Returns a new terminal over these buffers, and overwrites them with 0.
    ///
    /// It takes messages of at most as many octets as the buffers have room for, and no more than the longest have. It
    /// begins a session, over new buffers or over those of an earlier one.
    pub fn begin(
        params: T1Params,
        command_buffer: &mut [u8],
        answer_buffer: &mut [u8],
    ) -> LentTerminal
        ensures state { terminal_held result command_buffer.new answer_buffer.new
            ≡ terminal_with (at_most (length command_buffer.old) (length answer_buffer.old)) params.ifsc }
        ensures fit { IsLentTerminal result (length command_buffer.new) (length answer_buffer.new) }
        ensures command { command_buffer.new ≡ replicate (length command_buffer.old) 0 }
        ensures answer { answer_buffer.new ≡ replicate (length answer_buffer.old) 0 }
    {
        overwrite(command_buffer);
        overwrite(answer_buffer);
        let command = &command_buffer[..command_buffer.len().min(LONGEST_COMMAND)];
        let answer = &answer_buffer[..answer_buffer.len().min(LONGEST_ANSWER)];
        LentTerminal::new(params, command, answer)
    }

    /// Returns a terminal at the start, for messages of at most as many octets as these buffers have. The buffers were
    /// overwritten.
    pub(crate) fn new(params: T1Params, command: &[u8], answer: &[u8]) -> LentTerminal
        requires overwritten { (command.now ≡ replicate (length command.now) 0)
            × (answer.now ≡ replicate (length answer.now) 0) }
        ensures seen { (command_buffer answer_buffer : List ℕ)
            → terminal_held result command_buffer answer_buffer
            ≡ terminal_with (record { command = length command.now; answer = length answer.now }) params.ifsc }
        ensures fit { IsLentTerminal result (length command.now) (length answer.now) }
    {
        LentTerminal {
            number: Number::Zero,
            expected: Number::Zero,
            failures: 0,
            ifsc: params.ifsc(),
            ifsd: FIRST_IFSD,
            first_ifsc: params.ifsc(),
            wait: TerminalWait::Idle,
            is_answered: false,
            most_command: command.len(),
            most_answer: answer.len(),
            command_len: 0,
            answer_len: 0,
        }
    }
}

/// A card over two buffers that its caller owns and passes to each call, like [`LentTerminal`]. It has the card's
/// numbers, sizes, limits and state, and which block is saved.
#[derive(Clone, Copy, Debug)]
pub struct LentCard {
    pub number: Number,
    pub expected: Number,
    pub saved: Option<Cut>,
    pub ifsc: u8,
    pub ifsd: u8,
    pub first_ifsc: u8,
    pub wait: CardWait,
    pub most_command: usize,
    pub most_reply: usize,
    /// How many octets of the command came so far, at the front of its buffer.
    pub command_len: usize,
    /// How many octets the reply has, at the front of its buffer.
    pub reply_len: usize,
}

impl LentCard {
    /// Returns a new card over these buffers, and overwrites them with 0.
    ///
    /// It takes messages of at most as many octets as the buffers have room for, and no more than the longest have. It
    /// begins a session, over new buffers or over those of an earlier one.
    pub fn begin(params: T1Params, command_buffer: &mut [u8], reply_buffer: &mut [u8]) -> LentCard
        ensures state { card_held result command_buffer.new reply_buffer.new
            ≡ card_with (at_most (length command_buffer.old) (length reply_buffer.old)) params.ifsc }
        ensures fit { IsLentCard result (length command_buffer.new) (length reply_buffer.new) }
        ensures command { command_buffer.new ≡ replicate (length command_buffer.old) 0 }
        ensures reply { reply_buffer.new ≡ replicate (length reply_buffer.old) 0 }
    {
        overwrite(command_buffer);
        overwrite(reply_buffer);
        let command = &command_buffer[..command_buffer.len().min(LONGEST_COMMAND)];
        let reply = &reply_buffer[..reply_buffer.len().min(LONGEST_ANSWER)];
        LentCard::new(params, command, reply)
    }

    /// Returns a card at the start, for messages of at most as many octets as these buffers have. The buffers were
    /// overwritten.
    pub(crate) fn new(params: T1Params, command: &[u8], reply: &[u8]) -> LentCard
        requires overwritten { (command.now ≡ replicate (length command.now) 0)
            × (reply.now ≡ replicate (length reply.now) 0) }
        ensures seen { (command_buffer reply_buffer : List ℕ)
            → card_held result command_buffer reply_buffer
            ≡ card_with (record { command = length command.now; answer = length reply.now }) params.ifsc }
        ensures fit { IsLentCard result (length command.now) (length reply.now) }
    {
        LentCard {
            number: Number::Zero,
            expected: Number::Zero,
            saved: None,
            ifsc: params.ifsc(),
            ifsd: FIRST_IFSD,
            first_ifsc: params.ifsc(),
            wait: CardWait::Command,
            most_command: command.len(),
            most_reply: reply.len(),
            command_len: 0,
            reply_len: 0,
        }
    }
}
