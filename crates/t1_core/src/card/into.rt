//! The calls of the card that write the octets of a block into the caller's buffer.

ghost use Rattle.std.specs.Prelude.{◌≡◌, ◌≤◌, length, true, IfOk, IfErr, Err};
ghost use Rattle.block_core.specs.Block.{IsWhole};
ghost use Rattle.t1_core.specs.Came.{class_of};
ghost use Rattle.t1_core.specs.Put.{IsCardPut, FitsCardPut};
ghost use Rattle.t1_core.specs.Steps.{CardWrote};
ghost use Rattle.t1_core.specs.Sending.{card_answers};
ghost use Rattle.t1_core.specs.CardViews.{card_held, IsLentCard, IsBlank};
ghost use Rattle.t1_core.specs.Card.{takes, replies, more_time, ask_ifs, card_turn};

use crate::card::Card;
use crate::lent::LentCard;
use crate::sending::CardAct;
use crate::turns::{CardFault, CardTurn, EncodedCardTurn};

/// Each call does what the call without `_into` does, and refuses in the same order.
///
/// It encodes the block once, at the front of `out`, which has room for the longest block, 258 octets. The octets after
/// the block stay. If no block is sent, all of `out` stays.
impl Card {
    /// Takes the octets of the line, as `received` does.
    pub fn received_into(
        &mut self,
        octets: &[u8],
        out: &mut [u8],
    ) -> Result<EncodedCardTurn, CardFault>
        requires room { 258 ≤ length out.old }
        ensures wrote { CardWrote (λ c. card_turn c (takes (class_of c.ifsc octets.now)))
            self.old self.new out.old out.new result }
        ensures fits { IfOk result FitsCardPut }
    {
        self.state.received_into(
            self.command.as_mut_slice(),
            self.reply.as_slice(),
            octets,
            out,
        )
    }

    /// Takes the host's reply, as `reply` does.
    pub fn reply_into(
        &mut self,
        octets: &[u8],
        out: &mut [u8],
    ) -> Result<EncodedCardTurn, CardFault>
        requires room { 258 ≤ length out.old }
        ensures wrote { CardWrote (λ c. card_turn c (replies octets.now))
            self.old self.new out.old out.new result }
        ensures fits { IfOk result FitsCardPut }
    {
        self.state.reply_into(
            self.command.as_slice(),
            self.reply.as_mut_slice(),
            octets,
            out,
        )
    }

    /// Asks for more waiting time, as `more_time` does.
    pub fn more_time_into(
        &mut self,
        multiple: u8,
        out: &mut [u8],
    ) -> Result<EncodedCardTurn, CardFault>
        requires room { 258 ≤ length out.old }
        ensures wrote { CardWrote (λ c. card_turn c (more_time multiple))
            self.old self.new out.old out.new result }
        ensures fits { IfOk result FitsCardPut }
    {
        self.state.more_time_into(
            self.command.as_slice(),
            self.reply.as_slice(),
            multiple,
            out,
        )
    }

    /// Asks about a size, as `ask_ifs` does.
    pub fn ask_ifs_into(&mut self, size: u8, out: &mut [u8]) -> Result<EncodedCardTurn, CardFault>
        requires room { 258 ≤ length out.old }
        ensures wrote { CardWrote (λ c. card_turn c (ask_ifs size))
            self.old self.new out.old out.new result }
        ensures fits { IfOk result FitsCardPut }
    {
        self.state
            .ask_ifs_into(self.command.as_slice(), self.reply.as_slice(), size, out)
    }
}

/// The same calls for a card whose caller owns the buffers. Each call gets the buffers as the call before left them,
/// with the same sizes.
impl LentCard {
    /// Takes the octets of the line, as `received` does.
    pub fn received_into(
        &mut self,
        command_buffer: &mut [u8],
        reply_buffer: &[u8],
        octets: &[u8],
        out: &mut [u8],
    ) -> Result<EncodedCardTurn, CardFault>
        requires room { 258 ≤ length out.old }
        requires fit { IsLentCard self.old (length command_buffer.old) (length reply_buffer.now) }
        ensures wrote { CardWrote (λ c. card_turn c (takes (class_of c.ifsc octets.now)))
            (card_held self.old command_buffer.old reply_buffer.now)
            (card_held self.new command_buffer.new reply_buffer.now) out.old out.new result }
        ensures fits { IfOk result FitsCardPut }
        ensures fit { IsLentCard self.new (length command_buffer.new) (length reply_buffer.now) }
        ensures blank { IsBlank self.old command_buffer.old → IsBlank self.new command_buffer.new }
        ensures refused { IfErr result
            (λ _. (self.new ≡ self.old) × (command_buffer.new ≡ command_buffer.old)) }
    {
        self.received_burst_into(command_buffer, reply_buffer, octets, false, out)
    }

    /// Takes the octets of the line, as `received` does. If `is_whole` is true, the caller already knows that they are as
    /// many as their LEN says, and that their LRC is right. Then they aren't read again for the LRC.
    pub fn received_burst_into(
        &mut self,
        command_buffer: &mut [u8],
        reply_buffer: &[u8],
        octets: &[u8],
        is_whole: bool,
        out: &mut [u8],
    ) -> Result<EncodedCardTurn, CardFault>
        requires whole { is_whole ≡ true → IsWhole octets.now }
        requires room { 258 ≤ length out.old }
        requires fit { IsLentCard self.old (length command_buffer.old) (length reply_buffer.now) }
        ensures wrote { CardWrote (λ c. card_turn c (takes (class_of c.ifsc octets.now)))
            (card_held self.old command_buffer.old reply_buffer.now)
            (card_held self.new command_buffer.new reply_buffer.now) out.old out.new result }
        ensures fits { IfOk result FitsCardPut }
        ensures fit { IsLentCard self.new (length command_buffer.new) (length reply_buffer.now) }
        ensures blank { IsBlank self.old command_buffer.old → IsBlank self.new command_buffer.new }
        ensures refused { IfErr result
            (λ _. (self.new ≡ self.old) × (command_buffer.new ≡ command_buffer.old)) }
    {
        let acted = self.takes(command_buffer, reply_buffer, octets, is_whole);
        self.put(command_buffer, reply_buffer, acted, out)
    }

    /// Takes the host's reply, as `reply` does.
    pub fn reply_into(
        &mut self,
        command_buffer: &[u8],
        reply_buffer: &mut [u8],
        octets: &[u8],
        out: &mut [u8],
    ) -> Result<EncodedCardTurn, CardFault>
        requires room { 258 ≤ length out.old }
        requires fit { IsLentCard self.old (length command_buffer.now) (length reply_buffer.old) }
        ensures wrote { CardWrote (λ c. card_turn c (replies octets.now))
            (card_held self.old command_buffer.now reply_buffer.old)
            (card_held self.new command_buffer.now reply_buffer.new) out.old out.new result }
        ensures fits { IfOk result FitsCardPut }
        ensures fit { IsLentCard self.new (length command_buffer.now) (length reply_buffer.new) }
        ensures blank { IsBlank self.old command_buffer.now → IsBlank self.new command_buffer.now }
        ensures refused { IfErr result
            (λ _. (self.new ≡ self.old) × (reply_buffer.new ≡ reply_buffer.old)) }
    {
        let acted = self.replies(command_buffer, reply_buffer, octets);
        self.put(command_buffer, reply_buffer, acted, out)
    }

    /// Asks for more waiting time, as `more_time` does.
    pub fn more_time_into(
        &mut self,
        command_buffer: &[u8],
        reply_buffer: &[u8],
        multiple: u8,
        out: &mut [u8],
    ) -> Result<EncodedCardTurn, CardFault>
        requires room { 258 ≤ length out.old }
        requires fit { IsLentCard self.old (length command_buffer.now) (length reply_buffer.now) }
        ensures wrote { CardWrote (λ c. card_turn c (more_time multiple))
            (card_held self.old command_buffer.now reply_buffer.now)
            (card_held self.new command_buffer.now reply_buffer.now) out.old out.new result }
        ensures fits { IfOk result FitsCardPut }
        ensures fit { IsLentCard self.new (length command_buffer.now) (length reply_buffer.now) }
        ensures blank { IsBlank self.old command_buffer.now → IsBlank self.new command_buffer.now }
        ensures refused { IfErr result (λ _. self.new ≡ self.old) }
    {
        let acted = self.asks_time(command_buffer, reply_buffer, multiple);
        self.put(command_buffer, reply_buffer, acted, out)
    }

    /// Asks about a size, as `ask_ifs` does.
    pub fn ask_ifs_into(
        &mut self,
        command_buffer: &[u8],
        reply_buffer: &[u8],
        size: u8,
        out: &mut [u8],
    ) -> Result<EncodedCardTurn, CardFault>
        requires room { 258 ≤ length out.old }
        requires fit { IsLentCard self.old (length command_buffer.now) (length reply_buffer.now) }
        ensures wrote { CardWrote (λ c. card_turn c (ask_ifs size))
            (card_held self.old command_buffer.now reply_buffer.now)
            (card_held self.new command_buffer.now reply_buffer.now) out.old out.new result }
        ensures fits { IfOk result FitsCardPut }
        ensures fit { IsLentCard self.new (length command_buffer.now) (length reply_buffer.now) }
        ensures blank { IsBlank self.old command_buffer.now → IsBlank self.new command_buffer.now }
        ensures refused { IfErr result (λ _. self.new ≡ self.old) }
    {
        let acted = self.asks_ifs(command_buffer, reply_buffer, size);
        self.put(command_buffer, reply_buffer, acted, out)
    }

    /// Returns what a call returns, and writes the octets of its block into the buffer.
    ///
    /// Inlined, so that the call's act is never kept in memory.
    #[inline(always)]
    fn put(
        &self,
        command_buffer: &[u8],
        reply_buffer: &[u8],
        acted: Result<CardAct, CardFault>,
        out: &mut [u8],
    ) -> Result<EncodedCardTurn, CardFault>
        requires room { 258 ≤ length out.old }
        requires fit { IsLentCard self.now (length command_buffer.now) (length reply_buffer.now) }
        ensures put { IsCardPut (card_answers
            (card_held self.now command_buffer.now reply_buffer.now) acted)
            out.old out.new result }
        ensures fits { IfOk result FitsCardPut }
        ensures refused { IfErr result (λ fault. acted ≡ Err fault) }
    {
        match acted {
            Ok(CardAct::Send(sent)) => Ok(EncodedCardTurn::Send(
                self.lent(command_buffer, reply_buffer, &sent)
                    .encode_into(out),
            )),
            Ok(CardAct::Asked) => Ok(EncodedCardTurn::Asked),
            Err(fault) => Err(fault),
        }
    }

    /// Returns what a call returns, with the block that it sends.
    pub(super) fn answered(
        &self,
        command_buffer: &[u8],
        reply_buffer: &[u8],
        acted: Result<CardAct, CardFault>,
    ) -> Result<CardTurn, CardFault>
        requires fit { IsLentCard self.now (length command_buffer.now) (length reply_buffer.now) }
        ensures { result ≡ card_answers (card_held self.now command_buffer.now reply_buffer.now)
            acted }
    {
        match acted {
            Ok(CardAct::Send(sent)) => {
                Ok(CardTurn::Send(self.lent(command_buffer, reply_buffer, &sent).to_block()))
            }
            Ok(CardAct::Asked) => Ok(CardTurn::Asked),
            Err(fault) => Err(fault),
        }
    }
}
