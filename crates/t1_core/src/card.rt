//! The card: the end that answers. It counts no failures.

ghost use Rattle.std.specs.Prelude.{◌≡◌, IfOk};
ghost use Rattle.t1_core.specs.Came.{class_of};
ghost use Rattle.t1_core.specs.Views.{IsSlice};
ghost use Rattle.t1_core.specs.CardViews.{owed};
ghost use Rattle.t1_core.specs.Terminal.{at_most};
ghost use Rattle.t1_core.specs.Card.{takes, replies, more_time, ask_ifs, new_card, card_with, card_turn, turn_of, state_after};

mod into;
mod readers;
mod steps;
mod taking;

use crate::lent::LentCard;
use crate::turns::{CardFault, CardTurn};
use atr_core::T1Params;
use chain_core::{LONGEST_COMMAND, LONGEST_RESPONSE as LONGEST_ANSWER, Wiped, overwrite};
use std::alloc::{AllocError, Global};
use std::marker::Model;

/// The card of a session, with its host's calls.
///
/// Contracts see its state, `CardState` in `specs/Card.antt`, and each call does what `card_turn` says there. A refused
/// call changes nothing (ISO/IEC 7816-3, clause 11.6).
///
/// Dropping a card overwrites its buffers before it frees their memory.
#[derive(Drop)]
pub struct Card {
    state: LentCard,
    command: Wiped,
    reply: Wiped,
}

impl Model for Card {
    ghost use Rattle.t1_core.specs.Card.{CardState};
    ghost use Rattle.chain_core.specs.Wiped.{held_in, count_in};
    ghost use Rattle.t1_core.specs.CardViews.{card_held, IsLentCard};

    ghost Value = { CardState };

    ghost view = { λ c. card_held c.state (held_in c.command) (held_in c.reply) };

    ghost invariant = { λ c. IsLentCard c.state (count_in c.command) (count_in c.reply) };
}

impl Card {
    /// Returns a new card that waits for a command, with buffers for the longest command and reply.
    ///
    /// `Err` if memory runs out; no later call allocates. The card takes information fields of IFSC octets, and the
    /// terminal those of [`FIRST_IFSD`](crate::FIRST_IFSD).
    ///
    /// A new card and a new terminal begin together, at a reset of the card. [`Terminal::new`](crate::Terminal::new)
    /// says what happens otherwise.
    pub fn new(alloc: Global, params: T1Params) -> Result<Card, AllocError>
        ensures { IfOk result (λ card. card ≡ new_card params.ifsc) }
    {
        Card::with_limits(alloc, params, LONGEST_COMMAND, LONGEST_ANSWER)
    }

    /// Returns a new card with buffers for commands of at most `command` octets and replies of at most `answer` octets.
    ///
    /// `Err` if memory runs out; no later call allocates. Numbers above [`LONGEST_COMMAND`] or [`LONGEST_ANSWER`] count
    /// as these.
    ///
    /// `reply` refuses a longer reply as `TooLong`. The card answers a block of a longer command as an error, until the
    /// terminal gives the command up; the host isn't asked.
    pub fn with_limits(
        alloc: Global,
        params: T1Params,
        command: usize,
        answer: usize,
    ) -> Result<Card, AllocError>
        ensures { IfOk result (λ card. card ≡ card_with (at_most command answer) params.ifsc) }
    {
        let command = Wiped::zeros(alloc, command.min(LONGEST_COMMAND))?;
        let reply = Wiped::zeros(alloc, answer.min(LONGEST_ANSWER))?;
        let state = LentCard::new(params, command.as_slice(), reply.as_slice());
        Ok(Card {
            state,
            command,
            reply,
        })
    }

    /// Begins a new session, from any state. The card becomes a new one with these parameters and the same limits.
    ///
    /// It allocates nothing, and overwrites the octets that the card held. Call it only together with a new terminal,
    /// as [`Card::new`] says.
    pub fn reset(&mut self, params: T1Params)
        ensures { self.new ≡ card_with self.old.limits params.ifsc }
    {
        overwrite(self.command.as_mut_slice());
        overwrite(self.reply.as_mut_slice());
        let command = &self.command.as_slice()[..self.state.most_command];
        let reply = &self.reply.as_slice()[..self.state.most_reply];
        self.state = LentCard::new(params, command, reply);
    }

    /// Returns the command while the host owes its reply, else `None`.
    ///
    /// The host owes it in its turn, and while the card asks the terminal for a size or for time.
    pub fn command(&self) -> Option<&[u8]>
        ensures { IsSlice result (owed self.now self.now.waits) }
    {
        self.state.command(self.command.as_slice())
    }

    /// Takes the octets that the line delivered as one block: a whole block, or the part that came before CWT passed
    /// without a further octet.
    ///
    /// `class_of` classes them under the size that the card takes. In the host's turn it refuses them as `Order`; drop
    /// them then.
    pub fn received(&mut self, octets: &[u8]) -> Result<CardTurn, CardFault>
        ensures turn { result ≡ turn_of
            (card_turn self.old (takes (class_of self.old.ifsc octets.now))) }
        ensures state { self.new ≡ state_after self.old
            (card_turn self.old (takes (class_of self.old.ifsc octets.now))) }
    {
        let acted = self.state.takes(
            self.command.as_mut_slice(),
            self.reply.as_slice(),
            octets,
            false,
        );
        self.state
            .answered(self.command.as_slice(), self.reply.as_slice(), acted)
    }

    /// Takes the host's reply, and sends its first I-block.
    ///
    /// Refused as `Order` outside the host's turn. Then a reply with more octets than the card has room for is refused
    /// as `TooLong`: more than 65,538 if `new` made the card.
    pub fn reply(&mut self, octets: &[u8]) -> Result<CardTurn, CardFault>
        ensures turn { result ≡ turn_of (card_turn self.old (replies octets.now)) }
        ensures state { self.new ≡ state_after self.old (card_turn self.old (replies octets.now)) }
    {
        let acted = self
            .state
            .replies(self.command.as_slice(), self.reply.as_mut_slice(), octets);
        self.state
            .answered(self.command.as_slice(), self.reply.as_slice(), acted)
    }

    /// Asks the terminal for more waiting time, any multiple of it. Refused as `Order` outside the host's turn.
    pub fn more_time(&mut self, multiple: u8) -> Result<CardTurn, CardFault>
        ensures turn { result ≡ turn_of (card_turn self.old (more_time multiple)) }
        ensures state { self.new ≡ state_after self.old (card_turn self.old (more_time multiple)) }
    {
        let acted = self
            .state
            .asks_time(self.command.as_slice(), self.reply.as_slice(), multiple);
        self.state
            .answered(self.command.as_slice(), self.reply.as_slice(), acted)
    }

    /// Asks the terminal to send information fields of up to `size` octets.
    ///
    /// Refused as `Order` outside the host's turn, and then as `Reserved` for the sizes 0 and 255.
    pub fn ask_ifs(&mut self, size: u8) -> Result<CardTurn, CardFault>
        ensures turn { result ≡ turn_of (card_turn self.old (ask_ifs size)) }
        ensures state { self.new ≡ state_after self.old (card_turn self.old (ask_ifs size)) }
    {
        let acted = self
            .state
            .asks_ifs(self.command.as_slice(), self.reply.as_slice(), size);
        self.state
            .answered(self.command.as_slice(), self.reply.as_slice(), acted)
    }
}
