//! What the card does with what came, in each state.

ghost use Rattle.std.specs.Prelude.{◌≡◌, ◌≤◌, ◌+◌, ◌++◌, ℕ, List, length, take, [], Ok};
ghost use Rattle.block_core.specs.declared.pcb.Fault.TheVariants.{Free};
ghost use Rattle.block_core.specs.declared.pcb.Pcb.TheVariants.{Ready};
ghost use Rattle.t1_core.specs.Came.{got};
ghost use Rattle.t1_core.specs.declared.turns.CardWait.TheVariants.{Asking};
ghost use Rattle.t1_core.specs.Views.{came_of};
ghost use Rattle.t1_core.specs.CardViews.{card_held, IsLentCard, field_of, rest_of, taken_of, taken_len, IsTaking, IsReplying, IsBlank, IsBlankAfter};
ghost use Rattle.t1_core.specs.Card.{command, card_came, in_either, in_reply, joins, sends_saved, resynched};
ghost use Rattle.t1_core.specs.Steps.{CardTook};

use crate::class::Arrived;
use crate::lent::LentCard;
use crate::replying::{acknowledged, next_block};
use crate::sending::{CardAct, Sent, Short};
use crate::terminal::FIRST_IFSD;
use crate::turns::{CardAsked, CardWait};
use block_core::{Fault, Number, Pcb, S};
use chain_core::{append, overwrite_front};

impl LentCard {
    /// Takes what came while the card waits for a block of a command.
    pub(super) fn command_took(
        &mut self,
        command_buffer: &mut [u8],
        reply_buffer: &[u8],
        arrived: &Arrived,
    ) -> CardAct
        requires fit { IsLentCard self.old (length command_buffer.old) (length reply_buffer.now) }
        requires taking { IsTaking self.old.wait }
        ensures fit { IsLentCard self.new (length command_buffer.new) (length reply_buffer.now) }
        ensures took { CardTook (λ c.
            card_came c (command (taken_of c.waits)) (came_of arrived.now))
            (card_held self.old command_buffer.old reply_buffer.now)
            (card_held self.new command_buffer.new reply_buffer.now) (Ok result) }
        ensures blank { IsBlank self.old command_buffer.old → IsBlank self.new command_buffer.new }
    {
        match arrived {
            Arrived::Damaged | Arrived::Invalid => self.either_took(
                command_buffer,
                reply_buffer,
                arrived,
            ),
            Arrived::Whole(block) => match block.pcb() {
                Pcb::Info { number, more } => {
                    let fits = self.taken_len() + block.inf().len() <= self.most_command;
                    if number == self.expected && fits {
                        self.joins(command_buffer, reply_buffer, block.inf(), more)
                    } else {
                        self.either_took(command_buffer, reply_buffer, arrived)
                    }
                }
                Pcb::Ready { number, .. } => {
                    let is_own = number == self.number;
                    self.sends_saved(command_buffer, reply_buffer, is_own)
                }
                Pcb::Request(S::Resynch) => self.resynched(command_buffer, reply_buffer),
                Pcb::Request(S::Ifs | S::Abort | S::Wtx) | Pcb::Response(_) => {
                    self.either_took(command_buffer, reply_buffer, arrived)
                }
            },
        }
    }

    /// Takes what came while the card sends a reply, before its last I-block.
    pub(super) fn reply_took(
        &mut self,
        command_buffer: &mut [u8],
        reply_buffer: &[u8],
        arrived: &Arrived,
    ) -> CardAct
        requires fit { IsLentCard self.old (length command_buffer.old) (length reply_buffer.now) }
        requires replying { IsReplying self.old.wait }
        ensures fit { IsLentCard self.new (length command_buffer.new) (length reply_buffer.now) }
        ensures took { CardTook (λ c. card_came c c.waits (came_of arrived.now))
            (card_held self.old command_buffer.old reply_buffer.now)
            (card_held self.new command_buffer.new reply_buffer.now) (Ok result) }
        ensures blank { IsBlank self.old command_buffer.old → IsBlank self.new command_buffer.new }
    {
        match arrived {
            Arrived::Damaged | Arrived::Invalid => self.either_took(
                command_buffer,
                reply_buffer,
                arrived,
            ),
            Arrived::Whole(block) => match block.pcb() {
                Pcb::Ready { number, .. } => self.reply_asked(command_buffer, reply_buffer, number),
                Pcb::Request(S::Resynch) => self.resynched(command_buffer, reply_buffer),
                Pcb::Info { .. } | Pcb::Request(S::Ifs | S::Abort | S::Wtx) | Pcb::Response(_) =>
                    self.either_took(command_buffer, reply_buffer, arrived),
            },
        }
    }

    /// Takes an R-block while the reply is sent. If it has the number of the last I-block, that block is sent again; if
    /// it has the other number, the next block is.
    fn reply_asked(&mut self, command_buffer: &[u8], reply_buffer: &[u8], number: Number) -> CardAct
        requires fit { IsLentCard self.old (length command_buffer.now) (length reply_buffer.now) }
        requires replying { IsReplying self.old.wait }
        ensures fit { IsLentCard self.new (length command_buffer.now) (length reply_buffer.now) }
        ensures took { CardTook (λ c.
            in_reply c (field_of c.waits) (rest_of c.waits) (got (Ready number Free) []))
            (card_held self.old command_buffer.now reply_buffer.now)
            (card_held self.new command_buffer.now reply_buffer.now) (Ok result) }
        ensures blank { (buffer : List ℕ) → IsBlank self.old buffer → IsBlank self.new buffer }
    {
        let CardWait::Reply(cut) = self.wait else {
            unreachable!()
        };
        if number == self.number {
            return CardAct::Send(Sent::Inner);
        }
        self.number = self.number.other();
        let next = next_block(
            &reply_buffer[..self.reply_len],
            cut.place + cut.size as usize,
            self.ifsd,
        );
        self.wait = next.wait;
        self.saved = next.saved;
        CardAct::Send(next.sent)
    }

    /// Takes what came while the card waits for the response to a request.
    pub(super) fn asking_took(
        &mut self,
        command_buffer: &mut [u8],
        reply_buffer: &[u8],
        request: CardAsked,
        arrived: &Arrived,
    ) -> CardAct
        requires fit { IsLentCard self.old (length command_buffer.old) (length reply_buffer.now) }
        requires waits { self.old.wait ≡ Asking request }
        ensures fit { IsLentCard self.new (length command_buffer.new) (length reply_buffer.now) }
        ensures took { CardTook (λ c. card_came c c.waits (came_of arrived.now))
            (card_held self.old command_buffer.old reply_buffer.now)
            (card_held self.new command_buffer.new reply_buffer.now) (Ok result) }
        ensures blank { IsBlank self.old command_buffer.old → IsBlank self.new command_buffer.new }
    {
        match arrived {
            Arrived::Damaged | Arrived::Invalid => CardAct::Send(Sent::Other(request.block())),
            Arrived::Whole(block) => match (request, block.pcb()) {
                (_, Pcb::Request(S::Resynch)) => self.resynched(command_buffer, reply_buffer),
                (CardAsked::Size(size), Pcb::Response(S::Ifs)) if block.inf()[0] == size => {
                    self.ifsc = size;
                    self.wait = CardWait::Host;
                    CardAct::Asked
                }
                (CardAsked::Time(multiple), Pcb::Response(S::Wtx)) if block.inf()[0] == multiple =>
                    {
                        self.wait = CardWait::Host;
                        CardAct::Asked
                    }
                _ => CardAct::Send(Sent::Other(request.block())),
            },
        }
    }

    /// Takes what came, as the card does alike while it waits for a block of a command or for an R-block.
    fn either_took(
        &mut self,
        command_buffer: &[u8],
        reply_buffer: &[u8],
        arrived: &Arrived,
    ) -> CardAct
        requires fit { IsLentCard self.old (length command_buffer.now) (length reply_buffer.now) }
        ensures fit { IsLentCard self.new (length command_buffer.now) (length reply_buffer.now) }
        ensures took { CardTook (λ c. in_either c (came_of arrived.now))
            (card_held self.old command_buffer.now reply_buffer.now)
            (card_held self.new command_buffer.now reply_buffer.now) (Ok result) }
        ensures blank { (buffer : List ℕ) → IsBlank self.old buffer → IsBlank self.new buffer }
    {
        let fault = match arrived {
            Arrived::Damaged => Fault::Redundancy,
            Arrived::Invalid => Fault::Other,
            Arrived::Whole(block) => match block.pcb() {
                Pcb::Request(S::Ifs) => {
                    self.ifsd = block.inf()[0];
                    return CardAct::Send(Sent::Other(Short::response(S::Ifs, block.inf())));
                }
                _ => Fault::Other,
            },
        };
        CardAct::Send(Sent::Other(Short::ready(self.expected, fault)))
    }

    /// Joins an I-block of the command that fits. It acknowledges the saved block.
    fn joins(
        &mut self,
        command_buffer: &mut [u8],
        reply_buffer: &[u8],
        inf: &[u8],
        more: bool,
    ) -> CardAct
        requires fit { IsLentCard self.old (length command_buffer.old) (length reply_buffer.now) }
        requires taking { IsTaking self.old.wait }
        requires fits { taken_len self.old.wait self.old.command_len + length inf.now
            ≤ self.old.most_command }
        ensures fit { IsLentCard self.new (length command_buffer.new) (length reply_buffer.now) }
        ensures took { CardTook (λ c. joins c (taken_of c.waits ++ inf.now) more)
            (card_held self.old command_buffer.old reply_buffer.now)
            (card_held self.new command_buffer.new reply_buffer.now) (Ok result) }
        ensures blank { IsBlank self.old command_buffer.old → IsBlank self.new command_buffer.new }
    {
        let taken = self.opened(command_buffer);
        self.command_len = append(command_buffer, taken, inf);
        self.number = acknowledged(self.saved, self.number);
        self.saved = None;
        self.expected = self.expected.other();
        if more {
            self.wait = CardWait::Joining;
            CardAct::Send(Sent::Other(Short::ready(self.expected, Fault::Free)))
        } else {
            self.wait = CardWait::Host;
            CardAct::Asked
        }
    }

    /// Returns how many octets of a command came so far. Before the first block of a command, it overwrites the last
    /// command.
    fn opened(&self, command_buffer: &mut [u8]) -> usize
        requires held { self.now.command_len ≤ length command_buffer.old }
        ensures taken { result ≡ taken_len self.now.wait self.now.command_len }
        ensures kept { take result command_buffer.new ≡ take result command_buffer.old }
        ensures room { length command_buffer.new ≡ length command_buffer.old }
        ensures blank { IsBlank self.now command_buffer.old
            → IsBlankAfter result command_buffer.new }
    {
        let taken = self.taken_len();
        if taken == 0 {
            overwrite_front(command_buffer, self.command_len);
        }
        taken
    }

    /// Returns how many octets of a command came so far.
    fn taken_len(&self) -> usize
        ensures { result ≡ taken_len self.now.wait self.now.command_len }
    {
        match self.wait {
            CardWait::Joining => self.command_len,
            CardWait::Command | CardWait::Host | CardWait::Reply(_) | CardWait::Asking(_) => 0,
        }
    }

    /// Takes an R-block while the card waits for a command. If it has the card's own number, the saved block is sent
    /// again.
    fn sends_saved(&mut self, command_buffer: &[u8], reply_buffer: &[u8], is_own: bool) -> CardAct
        requires fit { IsLentCard self.old (length command_buffer.now) (length reply_buffer.now) }
        ensures fit { IsLentCard self.new (length command_buffer.now) (length reply_buffer.now) }
        ensures took { CardTook (λ c. sends_saved c c.saved is_own)
            (card_held self.old command_buffer.now reply_buffer.now)
            (card_held self.new command_buffer.now reply_buffer.now) (Ok result) }
        ensures blank { (buffer : List ℕ) → IsBlank self.old buffer → IsBlank self.new buffer }
    {
        match self.saved {
            Some(_) if is_own => CardAct::Send(Sent::Last),
            _ => CardAct::Send(Sent::Other(Short::ready(self.expected, Fault::Free))),
        }
    }

    /// Resets the card for RESYNCH: it is as at the start, with no command.
    fn resynched(&mut self, command_buffer: &mut [u8], reply_buffer: &[u8]) -> CardAct
        requires fit { IsLentCard self.old (length command_buffer.old) (length reply_buffer.now) }
        ensures fit { IsLentCard self.new (length command_buffer.new) (length reply_buffer.now) }
        ensures took { CardTook resynched
            (card_held self.old command_buffer.old reply_buffer.now)
            (card_held self.new command_buffer.new reply_buffer.now) (Ok result) }
        ensures blank { IsBlank self.old command_buffer.old → IsBlank self.new command_buffer.new }
    {
        self.number = Number::Zero;
        self.expected = Number::Zero;
        self.saved = None;
        self.ifsc = self.first_ifsc;
        self.ifsd = FIRST_IFSD;
        overwrite_front(command_buffer, self.command_len);
        self.command_len = 0;
        self.wait = CardWait::Command;
        CardAct::Send(Sent::Other(Short::response(S::Resynch, &[])))
    }
}
