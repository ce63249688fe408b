//! What the card does at each call, and the block that it sends, from what it keeps.

ghost use Rattle.std.specs.Prelude.{◌≡◌, ◌≤◌, length, true, IfErr};
ghost use Rattle.block_core.specs.Block.{IsWhole};
ghost use Rattle.t1_core.specs.Came.{class_of, info};
ghost use Rattle.t1_core.specs.CardViews.{card_held, IsLentCard, IsBlank, field_of};
ghost use Rattle.t1_core.specs.Sending.{field_saved, card_sends};
ghost use Rattle.t1_core.specs.Card.{takes, replies, more_time, ask_ifs, card_turn};
ghost use Rattle.t1_core.specs.Steps.{CardTook};

use crate::class::classify;
use crate::cutting::field_in;
use crate::guards::if_host;
use crate::lent::LentCard;
use crate::replying::next_block;
use crate::sending::{CardAct, Sent};
use crate::turns::{CardAsked, CardFault, CardWait};
use block_core::{BlockRef, Pcb};
use chain_core::append;
use octet_core::is_reserved;

impl LentCard {
    /// Takes octets that came as one block. `is_whole` says that they are known to be whole.
    pub(super) fn takes(
        &mut self,
        command_buffer: &mut [u8],
        reply_buffer: &[u8],
        octets: &[u8],
        is_whole: bool,
    ) -> Result<CardAct, CardFault>
        requires whole { is_whole ≡ true → IsWhole octets.now }
        requires fit { IsLentCard self.old (length command_buffer.old) (length reply_buffer.now) }
        ensures fit { IsLentCard self.new (length command_buffer.new) (length reply_buffer.now) }
        ensures took { CardTook (λ c. card_turn c (takes (class_of c.ifsc octets.now)))
            (card_held self.old command_buffer.old reply_buffer.now)
            (card_held self.new command_buffer.new reply_buffer.now) result }
        ensures blank { IsBlank self.old command_buffer.old → IsBlank self.new command_buffer.new }
        ensures refused { IfErr result
            (λ _. (self.new ≡ self.old) × (command_buffer.new ≡ command_buffer.old)) }
    {
        let arrived = classify(octets, self.ifsc, is_whole);
        match self.wait {
            CardWait::Host => Err(CardFault::Order),
            CardWait::Command | CardWait::Joining => Ok(self.command_took(
                command_buffer,
                reply_buffer,
                &arrived,
            )),
            CardWait::Reply(_) => Ok(self.reply_took(command_buffer, reply_buffer, &arrived)),
            CardWait::Asking(request) => Ok(self.asking_took(
                command_buffer,
                reply_buffer,
                request,
                &arrived,
            )),
        }
    }

    /// Takes the host's reply.
    pub(super) fn replies(
        &mut self,
        command_buffer: &[u8],
        reply_buffer: &mut [u8],
        octets: &[u8],
    ) -> Result<CardAct, CardFault>
        requires fit { IsLentCard self.old (length command_buffer.now) (length reply_buffer.old) }
        ensures fit { IsLentCard self.new (length command_buffer.now) (length reply_buffer.new) }
        ensures took { CardTook (λ c. card_turn c (replies octets.now))
            (card_held self.old command_buffer.now reply_buffer.old)
            (card_held self.new command_buffer.now reply_buffer.new) result }
        ensures blank { IsBlank self.old command_buffer.now → IsBlank self.new command_buffer.now }
        ensures refused { IfErr result
            (λ _. (self.new ≡ self.old) × (reply_buffer.new ≡ reply_buffer.old)) }
    {
        if_host(self.wait)?;
        if octets.len() > self.most_reply {
            return Err(CardFault::TooLong);
        }
        self.reply_len = append(reply_buffer, 0, octets);
        let next = next_block(&reply_buffer[..self.reply_len], 0, self.ifsd);
        self.wait = next.wait;
        self.saved = next.saved;
        Ok(CardAct::Send(next.sent))
    }

    /// Asks the terminal for more waiting time.
    pub(super) fn asks_time(
        &mut self,
        command_buffer: &[u8],
        reply_buffer: &[u8],
        multiple: u8,
    ) -> Result<CardAct, CardFault>
        requires fit { IsLentCard self.old (length command_buffer.now) (length reply_buffer.now) }
        ensures fit { IsLentCard self.new (length command_buffer.now) (length reply_buffer.now) }
        ensures took { CardTook (λ c. card_turn c (more_time multiple))
            (card_held self.old command_buffer.now reply_buffer.now)
            (card_held self.new command_buffer.now reply_buffer.now) result }
        ensures blank { IsBlank self.old command_buffer.now → IsBlank self.new command_buffer.now }
        ensures refused { IfErr result (λ _. self.new ≡ self.old) }
    {
        if_host(self.wait)?;
        let request = CardAsked::Time(multiple);
        self.wait = CardWait::Asking(request);
        Ok(CardAct::Send(Sent::Other(request.block())))
    }

    /// Asks the terminal to send fields of up to this size.
    pub(super) fn asks_ifs(
        &mut self,
        command_buffer: &[u8],
        reply_buffer: &[u8],
        size: u8,
    ) -> Result<CardAct, CardFault>
        requires fit { IsLentCard self.old (length command_buffer.now) (length reply_buffer.now) }
        ensures fit { IsLentCard self.new (length command_buffer.now) (length reply_buffer.now) }
        ensures took { CardTook (λ c. card_turn c (ask_ifs size))
            (card_held self.old command_buffer.now reply_buffer.now)
            (card_held self.new command_buffer.now reply_buffer.now) result }
        ensures blank { IsBlank self.old command_buffer.now → IsBlank self.new command_buffer.now }
        ensures refused { IfErr result (λ _. self.new ≡ self.old) }
    {
        if_host(self.wait)?;
        if is_reserved(size) {
            return Err(CardFault::Reserved);
        }
        let request = CardAsked::Size(size);
        self.wait = CardWait::Asking(request);
        Ok(CardAct::Send(Sent::Other(request.block())))
    }

    /// Returns the block that the card sends. Its field is borrowed.
    #[inline(always)]
    pub(super) fn lent<'a>(
        &self,
        command_buffer: &[u8],
        reply_buffer: &'a [u8],
        sent: &'a Sent,
    ) -> BlockRef<'a>
        requires fit { IsLentCard self.now (length command_buffer.now) (length reply_buffer.now) }
        ensures { result ≡ card_sends (card_held self.now command_buffer.now reply_buffer.now)
            sent.now }
    {
        match sent {
            Sent::Inner => self.info(true, self.inner(command_buffer, reply_buffer)),
            Sent::Last => self.info(false, self.last(command_buffer, reply_buffer)),
            Sent::Other(short) => short.lent(),
        }
    }

    /// Returns the I-block with this field and the card's present number.
    fn info<'a>(&self, more: bool, inf: &'a [u8]) -> BlockRef<'a>
        requires { length inf.now ≤ 254 }
        ensures { result ≡ info self.now.number more inf.now }
    {
        let pcb = Pcb::Info {
            number: self.number,
            more,
        };
        BlockRef::new(0, pcb, inf).unwrap()
    }

    /// Returns the field of the last I-block, if more of the reply follows it.
    fn inner<'a>(&self, command_buffer: &[u8], reply_buffer: &'a [u8]) -> &'a [u8]
        requires fit { IsLentCard self.now (length command_buffer.now) (length reply_buffer.now) }
        ensures octets { result.now ≡ field_of
            (card_held self.now command_buffer.now reply_buffer.now).waits }
        ensures most { length result.now ≤ 254 }
    {
        match self.wait {
            CardWait::Reply(cut) => field_in(&reply_buffer[..self.reply_len], cut),
            _ => &[],
        }
    }

    /// Returns the field of the last I-block, until something acknowledges it.
    fn last<'a>(&self, command_buffer: &[u8], reply_buffer: &'a [u8]) -> &'a [u8]
        requires fit { IsLentCard self.now (length command_buffer.now) (length reply_buffer.now) }
        ensures octets { result.now ≡ field_saved
            (card_held self.now command_buffer.now reply_buffer.now).saved }
        ensures most { length result.now ≤ 254 }
    {
        match self.saved {
            Some(cut) => field_in(&reply_buffer[..self.reply_len], cut),
            None => &[],
        }
    }
}
