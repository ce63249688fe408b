//! The state of a card, for a driver and for a person who looks at a session that hangs.
//!
//! It shows no octet of a message, except those of the command whose reply the host owes.

ghost use Rattle.std.specs.Prelude.{◌≡◌, ◌≤◌, ◌+◌, List, ℕ, length, is_some};
ghost use Rattle.t1_core.specs.Views.{IsSlice};
ghost use Rattle.t1_core.specs.CardViews.{card_held, owed, taken_of};
ghost use Rattle.t1_core.specs.Shown.{octets_of_reply};
ghost use Rattle.t1_core.specs.Awaited.{awaited_by_card, card_awaits_block};

use crate::card::Card;
use crate::lent::LentCard;
use crate::shown::{CardMessages, Sizes};
use crate::turns::{CardAsked, CardAwaits, CardWait};
use std::fmt;

impl Card {
    /// Returns the most octets of an information field that the card takes now, 1 to 254. Make the `BlockReader` for
    /// the terminal's blocks with this size.
    ///
    /// It changes when the response to the host's question about a size comes. RESYNCH makes it the first one again.
    pub fn ifsc(&self) -> u8
        ensures { result ≡ self.now.ifsc }
    {
        self.state.ifsc
    }

    /// Returns the most octets of an information field that the terminal takes now, 1 to 254.
    pub fn ifsd(&self) -> u8
        ensures { result ≡ self.now.ifsd }
    {
        self.state.ifsd
    }

    /// Returns what the card waits for.
    pub fn awaits(&self) -> CardAwaits
        ensures { result ≡ awaited_by_card self.now.waits }
    {
        self.state.awaits()
    }

    /// Whether the card waits for a block.
    ///
    /// In the host's turn it doesn't: `received` then refuses a block as `Order`, and the block is dropped.
    pub fn awaits_block(&self) -> bool
        ensures { result ≡ card_awaits_block self.now.waits }
    {
        self.state.awaits_block()
    }

    /// Returns the most octets of a command that the card takes. It has room for them.
    pub fn most_command(&self) -> usize
        ensures { result ≡ self.now.limits.command }
    {
        self.state.most_command
    }

    /// Returns the most octets of a reply that the card takes from its host.
    pub fn most_reply(&self) -> usize
        ensures { result ≡ self.now.limits.answer }
    {
        self.state.most_reply
    }
}

impl LentCard {
    /// Returns what the card waits for.
    pub fn awaits(&self) -> CardAwaits
        ensures { (command reply : List ℕ)
            → result ≡ awaited_by_card (card_held self.now command reply).waits }
    {
        match self.wait {
            CardWait::Command | CardWait::Joining => CardAwaits::Command,
            CardWait::Host => CardAwaits::Host,
            CardWait::Reply(_) => CardAwaits::Acknowledgement,
            CardWait::Asking(CardAsked::Size(size)) => CardAwaits::Size(size),
            CardWait::Asking(CardAsked::Time(multiple)) => CardAwaits::Time(multiple),
        }
    }

    /// Whether the card waits for a block, as [`Card::awaits_block`] returns it.
    pub fn awaits_block(&self) -> bool
        ensures { (command reply : List ℕ)
            → result ≡ card_awaits_block (card_held self.now command reply).waits }
    {
        match self.wait {
            CardWait::Host => false,
            CardWait::Command | CardWait::Joining | CardWait::Reply(_) | CardWait::Asking(_) =>
                true,
        }
    }

    /// Returns the command in its buffer, as [`Card::command`] does.
    pub fn command<'a>(&self, command_buffer: &'a [u8]) -> Option<&'a [u8]>
        requires { self.now.command_len ≤ length command_buffer.now }
        ensures { (reply : List ℕ)
            → IsSlice result (owed (card_held self.now command_buffer.now reply)
            (card_held self.now command_buffer.now reply).waits) }
    {
        match self.wait {
            CardWait::Host | CardWait::Asking(_) => Some(&command_buffer[..self.command_len]),
            CardWait::Command | CardWait::Joining | CardWait::Reply(_) => None,
        }
    }
}

impl Card {
    /// Returns how many octets of a command the card holds.
    fn command_octets(&self) -> usize
        ensures { result ≡ length self.now.command + length (taken_of self.now.waits) }
    {
        self.command.as_slice()[..self.state.command_len].len()
    }

    /// Returns how many octets of the reply the terminal hasn't acknowledged yet, until the last block is sent.
    fn reply_octets(&self) -> usize
        ensures { result ≡ octets_of_reply self.now }
    {
        match self.state.wait {
            CardWait::Reply(cut) => self.state.reply_len - cut.place,
            CardWait::Command | CardWait::Joining | CardWait::Host | CardWait::Asking(_) => 0,
        }
    }

    /// Whether the card keeps its last I-block.
    fn is_saved(&self) -> bool
        ensures { result ≡ is_some self.now.saved }
    {
        self.state.saved.is_some()
    }

    /// Returns the numbers and the sizes that the card prints.
    fn sizes(&self) -> Sizes
        ensures number { result.number ≡ self.now.number }
        ensures expected { result.expected ≡ self.now.expected }
        ensures ifsc { result.ifsc ≡ self.now.ifsc }
        ensures ifsd { result.ifsd ≡ self.now.ifsd }
    {
        Sizes {
            number: self.state.number,
            expected: self.state.expected,
            ifsc: self.state.ifsc,
            ifsd: self.state.ifsd,
        }
    }

    /// Returns what the card prints about its messages.
    fn messages(&self) -> CardMessages
        ensures command { result.command ≡ length self.now.command + length
            (taken_of self.now.waits) }
        ensures reply { result.reply ≡ octets_of_reply self.now }
        ensures is_saved { result.is_saved ≡ is_some self.now.saved }
        ensures most_command { result.most_command ≡ self.now.limits.command }
        ensures most_reply { result.most_reply ≡ self.now.limits.answer }
    {
        CardMessages {
            command: self.command_octets(),
            reply: self.reply_octets(),
            is_saved: self.is_saved(),
            most_command: self.most_command(),
            most_reply: self.most_reply(),
        }
    }
}

/// Prints states, sizes, limits and how many octets are held. A command may carry a PIN, so no octet is shown.
impl fmt::Debug for Card {
    ghost use Rattle.std.specs.Prelude.{Some};
    ghost use Rattle.t1_core.specs.Shown.{card_text};

    ghost debug_output = { λ c. Some (card_text c) };

    fn fmt<W: fmt::Write>(&self, f: &mut fmt::Formatter<W>) -> fmt::Result {
        let awaits = self.awaits();
        let sizes = self.sizes();
        let messages = self.messages();
        write!(f, "Card {{ awaits: {awaits:?}, {sizes}, {messages} }}")
    }
}
