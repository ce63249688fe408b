//! A receiver of a chain that comes in pieces, with its message.

ghost use Rattle.std.specs.Prelude.{◌≡◌, ◌+◌, ◌*◌, ◌<◌, ◌≤◌, ◌++◌, ◌⊎◌, length, take, Some, IsSome, IfOk, IfErr, IfSome, IfNone, OnOk, MatchBool, true, false, None, List, ℕ, slice_index};
ghost use Rattle.octet_core.specs.Reader.{IsFed, IsFinished};
ghost use Rattle.octet_core.specs.declared.stop.Refusal.{Refusal};
ghost use Rattle.octet_core.specs.declared.stop.Stop.TheVariants.{Short};
ghost use Rattle.chain_core.specs.declared.reason.ChainReason.{ChainReason};
ghost use Rattle.chain_core.specs.Chain.{IsChain, IsReason, longest_message};
ghost use Rattle.chain_core.specs.Taking.{HasTaken, AreBefore, IsOpen, IsClosed, nothing_taken, refusal_of};

use crate::collected::Collected;
use crate::lent::LentReceiver;
use crate::reason::ChainReason;
use block_core::Number;
use octet_core::Stop;
use std::alloc::{AllocError, Global};
use std::fmt::{self, Debug, Formatter, Write};
use std::marker::Model;

/// The greatest number of blocks of a chain.
pub const MOST_BLOCKS: u32 = 131_072;

/// The greatest limit of a message, in octets.
pub const LONGEST_MESSAGE: usize = 131_072;

/// A receiver of one chain (ISO/IEC 7816-3, clause 11.6) whose octets come in pieces. It joins the fields of the
/// blocks to the message. `new` allocates memory for the message once, and no later call allocates. The receiver
/// keeps the state of a [`LentReceiver`], and judges octets as that does. When it is restarted or dropped, the
/// octets of the message are overwritten.
#[derive(Drop)]
pub struct Receiver {
    state: LentReceiver,
    /// The message so far, and after it the octets of the unfinished field.
    message: Collected,
}

impl Model for Receiver {
    ghost use Rattle.chain_core.specs.Taking.{Taking};
    ghost use Rattle.chain_core.specs.Lent.{received_at, IsReceiver};

    ghost Value = { Taking };

    ghost view = { λ r. received_at r.state r.message.octets };

    ghost invariant = { λ r. IsReceiver r.state r.message.octets r.message.room };
}

impl Receiver {
    /// Makes a receiver that has taken nothing. `ifs` is the information field size, 1 to 254. `number` is the
    /// number of the first block. `max` is the limit of the message, at most 131,072 octets, for which memory is
    /// allocated.
    pub fn new(alloc: Global, ifs: u8, number: Number, max: usize) -> Result<Receiver, AllocError>
        requires least { 1 ≤ ifs }
        requires most { ifs ≤ 254 }
        requires limit { max ≤ longest_message }
        ensures { IfOk result (λ r. r ≡ nothing_taken ifs number max) }
    {
        let message = Collected::with_room(alloc, max)?;
        let state = LentReceiver::begin(ifs, number, max as u32);
        Ok(Receiver { state, message })
    }

    /// Starts again, with a first block of this number.
    pub fn restart(&mut self, number: Number)
        ensures { self.new ≡ nothing_taken self.old.ifs number self.old.max }
    {
        self.state = LentReceiver::begin(self.state.ifs, number, self.state.max);
        self.message.clear();
    }

    /// Takes the next octets. Returns how many of this piece were taken, and whether the chain is whole. The whole
    /// piece is taken unless the chain ends in it. Once the chain is whole, no octet is taken.
    ///
    /// The error is `At` the first octet after which no chain can continue, with the reason. Its place counts from
    /// the first octet that was fed since the receiver was new or restarted. From then on each call returns the
    /// same refusal, and takes nothing, until `restart`.
    pub fn feed(&mut self, piece: &[u8]) -> Result<(usize, bool), Stop<ChainReason>>
        ensures fed { IsFed (IsChain self.old.ifs self.old.number self.old.max)
            (IsReason self.old.ifs self.old.number self.old.max) HasTaken refusal_of self.old
            self.new piece.now result }
        ensures kept { (self.new.ifs ≡ self.old.ifs) × (self.new.number ≡ self.old.number)
            × (self.new.max ≡ self.old.max) }
        ensures before { (refusal : Refusal ChainReason) → self.new.refusal ≡ Some refusal
            → (t : List ℕ) → HasTaken self.old t
            → AreBefore self.old.number self.new.blocks self.new.joined
            (take refusal.place (t ++ piece.now)) }
    {
        let taken = self.state.take(&mut self.message, piece);
        self.state.answer(taken)
    }

    /// Ends the octets. The error is `Short` with the number of octets taken if the chain isn't whole, or the
    /// refusal that was kept.
    pub fn finish(&self) -> Result<(), Stop<ChainReason>>
        ensures finished { IsFinished (IsChain self.now.ifs self.now.number self.now.max)
            (IsReason self.now.ifs self.now.number self.now.max) HasTaken refusal_of self.now
            result }
        ensures done { OnOk result ((self.now.refusal ≡ None) × (self.now.done ≡ true)) }
        ensures waits { IfErr result
            (λ stop. self.now.refusal ≡ None → (self.now.done ≡ false)
            × (stop ≡ Short (length self.now.joined + self.now.blocks * 4 + length
            self.now.under_way))) }
    {
        self.state.finish()
    }

    /// Returns the message, once the chain is whole.
    pub fn message(&self) -> Option<&[u8]>
        ensures done { IfSome result
            (λ message. (self.now.refusal ≡ None) × (self.now.done ≡ true)
            × (message.now ≡ self.now.joined)) }
        ensures none { IfNone result (IsSome self.now.refusal ⊎ (self.now.done ≡ false)) }
    {
        let len = self.state.message_len()?;
        Some(&self.message.as_slice()[..len])
    }

    /// Returns how many whole blocks were taken. After a refusal, these are the blocks before the one with the
    /// refused octet.
    pub fn blocks(&self) -> u32
        ensures { result ≡ self.now.blocks }
    {
        self.state.blocks
    }

    /// Whether the receiver takes more octets.
    pub(crate) fn is_open(&self) -> bool
        ensures { MatchBool result (IsOpen self.now) (IsClosed self.now) }
    {
        self.state.is_open()
    }

    /// Returns how many octets may come next so that none is past the unfinished block, 1 to 255. They are the rest
    /// of its first three, or the rest of the block once LEN has come.
    pub(crate) fn wanted(&self) -> usize
        requires { IsOpen self.now }
        ensures some { 0 < result }
        ensures most { result ≤ 255 }
        ensures head { length self.now.under_way < 3 → result + length self.now.under_way ≡ 3 }
        ensures rest { 3 ≤ length self.now.under_way
            → result + length self.now.under_way ≡ slice_index self.now.under_way 2 + 4 }
        ensures taken { (t : List ℕ) × HasTaken self.now t }
        ensures limit { self.now.max ≤ longest_message }
    {
        self.state.stage.end() - self.state.under_way()
    }
}

/// Shows the state of the receiver. A message may carry a PIN, so none of its octets is shown.
impl Debug for Receiver {
    fn fmt<W: Write>(&self, f: &mut Formatter<W>) -> fmt::Result {
        f.debug_struct("Receiver")
            .field("state", &self.state)
            .finish()
    }
}
