//! A receiver of a chain with a state that the caller keeps, some thirty octets, and the message in a buffer of the
//! caller.

ghost use Rattle.std.specs.Prelude.{◌≡◌, ◌+◌, ◌*◌, ◌<◌, ◌≤◌, ◌++◌, length, take, Some, None, [], IfSome, IfNone, MatchBool, true, false, List, ℕ, ◌⊎◌, IsSome, IsTrue, ◌↔◌};
ghost use Rattle.octet_core.specs.Reader.{IsFed};
ghost use Rattle.octet_core.specs.declared.stop.Refusal.{Refusal};
ghost use Rattle.octet_core.specs.declared.stop.Stop.TheVariants.{Short};
ghost use Rattle.chain_core.specs.declared.reason.ChainReason.{ChainReason};
ghost use Rattle.chain_core.specs.declared.stage.BlockStage.TheVariants.{Rest};
ghost use Rattle.chain_core.specs.Chain.{IsChain, IsReason, most_blocks, longest_message};
ghost use Rattle.chain_core.specs.Stage.{place_of, came_of};
ghost use Rattle.chain_core.specs.Taking.{HasTaken, IsOpen, IsClosed, nothing_taken, refusal_of};
ghost use Rattle.chain_core.specs.Receiving.{fed_answer, end_answer};
ghost use Rattle.octet_core.specs.Octets.{AreOctets};
ghost use Rattle.chain_core.specs.Lent.{IsLentReceiver, AreLedTo, IsUnderWay, IsAmong, IsKept, IsNextReason, IsPcbReason, IsLenReason, number_at, field_at, under_way_of, received_at, held_at, taken_at, IsFinishedHere};

use crate::reason::ChainReason;
use crate::receiver::{LONGEST_MESSAGE, MOST_BLOCKS};
use crate::stage::BlockStage;
use crate::store::LentBuffer;
use block_core::{LONGEST_INF, Number};
use octet_core::{Refusal, Stop};

/// The state of a receiver of one chain (ISO/IEC 7816-3, clause 11.6), without the octets of the message. The caller
/// keeps it, and passes the buffer of the message to each call.
///
/// [`LentReceiver::begin`] makes a state, and each call keeps it valid. If something else may have written to it,
/// [`LentReceiver::fit`] says whether it is still valid. The first `joined` octets of the buffer are the message so
/// far. After them comes the field of the unfinished block.
#[derive(Clone, Copy, Debug)]
pub struct LentReceiver {
    /// The information field size.
    pub ifs: u8,
    /// The number of the first block.
    pub first: Number,
    /// The limit of the message, in octets.
    pub max: u32,
    /// How many whole blocks were taken.
    pub blocks: u32,
    /// How many octets their fields have.
    pub joined: u32,
    /// Which octet of the unfinished block comes next.
    pub stage: BlockStage,
    /// How many octets of its field came.
    pub came: u8,
    /// Whether the chain is whole.
    pub done: bool,
    /// The refusal, which further calls repeat.
    pub refusal: Option<Refusal<ChainReason>>,
}

impl LentReceiver {
    /// Starts a receiver that has taken nothing. `ifs` is the information field size, 1 to 254. `number` is the number
    /// of the first block. `max` is the limit of the message, at most 131,072 octets. Each buffer that is passed to a
    /// call must have room for `max` octets.
    pub fn begin(ifs: u8, number: Number, max: u32) -> LentReceiver
        requires least { 1 ≤ ifs }
        requires most { ifs ≤ 254 }
        requires limit { max ≤ longest_message }
        ensures fit { (room : ℕ) → max ≤ room → IsLentReceiver result room }
        ensures fresh { (message : List ℕ)
            → received_at result message ≡ nothing_taken ifs number max }
        ensures led { (message : List ℕ) → max ≤ length message → AreLedTo result message [] }
    {
        LentReceiver {
            ifs,
            first: number,
            max,
            blocks: 0,
            joined: 0,
            stage: BlockStage::Nad,
            came: 0,
            done: false,
            refusal: None,
        }
    }

    /// Takes the next octets, like `Receiver::feed`. Returns how many of this piece were taken, and whether the chain
    /// is whole. Contracts don't know which octets came before, so the clauses hold for all octets that may have led
    /// to this state.
    pub fn feed(
        &mut self,
        message: &mut [u8],
        piece: &[u8],
    ) -> Result<(usize, bool), Stop<ChainReason>>
        requires { IsLentReceiver self.old (length message.old) }
        ensures fit { IsLentReceiver self.new (length message.new) }
        ensures fed { IsFed (IsChain self.old.ifs self.old.first self.old.max)
            (IsReason self.old.ifs self.old.first self.old.max) HasTaken refusal_of
            (received_at self.old message.old) (received_at self.new message.new) piece.now result }
        ensures kept { (self.new.ifs ≡ self.old.ifs) × (self.new.first ≡ self.old.first)
            × (self.new.max ≡ self.old.max) }
        // the octets that led to the old state, and those of the piece that count, lead to the new state
        ensures led { (t : List ℕ) → AreLedTo self.old message.old t → (n : ℕ)
            × (n ≤ length piece.now) × AreLedTo self.new message.new (t ++ take n piece.now) }
    {
        let mut buffer = LentBuffer { octets: message };
        let taken = self.take(&mut buffer, piece);
        self.answer(taken)
    }

    /// Ends the octets, like `Receiver::finish`. The clauses hold for all octets that may have led to this state.
    pub fn finish(&self) -> Result<(), Stop<ChainReason>>
        requires { (room : ℕ) × IsLentReceiver self.now room }
        ensures finished { (message : List ℕ) → IsLentReceiver self.now (length message)
            → IsFinishedHere (received_at self.now message) result }
        ensures answer { (message : List ℕ) → held_at self.now ≤ length message
            → result ≡ end_answer (received_at self.now message) }
    {
        match self.refusal {
            Some(refusal) => Err(refusal.stop()),
            None if self.done => Ok(()),
            None => Err(Stop::Short {
                place: self.taken(),
            }),
        }
    }

    /// Returns how many octets at the front of the buffer are the message, once the chain is whole.
    pub fn message_len(&self) -> Option<usize>
        ensures whole { IfSome result
            (λ count. (self.now.refusal ≡ None) × (self.now.done ≡ true)
            × (count ≡ self.now.joined)) }
        ensures none { IfNone result (IsSome self.now.refusal ⊎ (self.now.done ≡ false)) }
    {
        if self.done && self.refusal.is_none() {
            Some(self.joined as usize)
        } else {
            None
        }
    }

    /// Whether some octets lead a receiver with a buffer of `room` octets from `begin` to this state.
    pub fn fit(&self, room: usize) -> bool
        ensures yes { result ≡ true → IsLentReceiver self.now room }
        ensures no { IsLentReceiver self.now room → result ≡ true }
        ensures led { result ≡ true → (message : List ℕ) → length message ≡ room
            → AreOctets message → (t : List ℕ) × AreLedTo self.now message t }
        ensures only { (message t : List ℕ) → length message ≡ room → AreOctets message
            → AreLedTo self.now message t → result ≡ true }
    {
        self.are_fit(room)
    }

    /// Whether the numbers are consistent, and fit the buffer.
    fn are_fit(&self, room: usize) -> bool
        ensures yes { result ≡ true → IsLentReceiver self.now room }
        ensures no { IsLentReceiver self.now room → result ≡ true }
    {
        1 <= self.ifs
            && (self.ifs as usize) <= LONGEST_INF
            && self.max as usize <= LONGEST_MESSAGE
            && self.max as usize <= room
            && self.joined <= self.max
            && self.blocks <= MOST_BLOCKS
            && self.joined <= self.blocks * self.ifs as u32
            && self.is_idle()
            && self.is_among()
            && self.is_kept()
    }

    /// Whether octets of a field are counted only while a field is being read.
    fn is_idle(&self) -> bool
        ensures { IsTrue result ↔ (came_of self.now.stage self.now.came ≡ self.now.came) }
    {
        matches!(self.stage, BlockStage::Rest { .. }) || self.came == 0
    }

    /// Whether the chain is whole with no unfinished block, or the unfinished block is possible.
    fn is_among(&self) -> bool
        requires joined { self.now.joined ≤ self.now.max }
        ensures yes { result ≡ true → IsAmong self.now.done self.now }
        ensures no { IsAmong self.now.done self.now → result ≡ true }
    {
        if self.done {
            return matches!(self.stage, BlockStage::Nad) && self.blocks >= 1;
        }
        self.blocks < MOST_BLOCKS && self.is_under_way()
    }

    /// Whether the unfinished block is possible.
    fn is_under_way(&self) -> bool
        requires blocks { self.now.blocks + 1 ≤ most_blocks }
        requires joined { self.now.joined ≤ self.now.max }
        ensures yes { result ≡ true
            → IsUnderWay self.now.ifs self.now.max self.now.blocks self.now.joined self.now.came
            self.now.stage }
        ensures no { IsUnderWay self.now.ifs self.now.max self.now.blocks self.now.joined
            self.now.came self.now.stage → result ≡ true }
    {
        let is_last = self.blocks + 1 == MOST_BLOCKS;
        match self.stage {
            BlockStage::Nad | BlockStage::Pcb => true,
            BlockStage::Len { more } => !(more && is_last),
            BlockStage::Rest { more, len } => {
                !(more && is_last)
                    && len <= self.ifs
                    && len as u32 <= self.max - self.joined
                    && self.came <= len
            }
        }
    }

    /// Whether the refusal that was kept, if any, is right for some next octet of the unfinished block.
    fn is_kept(&self) -> bool
        requires joined { self.now.joined ≤ self.now.max }
        requires limit { self.now.max ≤ longest_message }
        requires blocks { self.now.blocks ≤ most_blocks }
        ensures yes { result ≡ true → IsKept self.now.refusal self.now }
        ensures no { IsKept self.now.refusal self.now → result ≡ true }
    {
        match self.refusal {
            None => true,
            Some(refusal) => {
                !self.done && refusal.place == self.taken() && self.may_refuse(refusal.reason)
            }
        }
    }

    /// Whether some octet may come next in the unfinished block that is refused for this reason.
    fn may_refuse(&self, reason: ChainReason) -> bool
        requires joined { self.now.joined ≤ self.now.max }
        requires blocks { self.now.blocks ≤ most_blocks }
        ensures yes { result ≡ true → IsNextReason self.now.ifs self.now.max self.now.blocks
            self.now.joined self.now.came self.now.stage reason }
        ensures no { IsNextReason self.now.ifs self.now.max self.now.blocks self.now.joined
            self.now.came self.now.stage reason → result ≡ true }
    {
        match self.stage {
            BlockStage::Nad => matches!(reason, ChainReason::BadNad),
            BlockStage::Pcb => is_pcb_reason(self.blocks, reason),
            BlockStage::Len { .. } => is_len_reason(self.ifs, self.max - self.joined, reason),
            BlockStage::Rest { len, .. } => self.came == len
                && matches!(reason, ChainReason::BadLrc),
        }
    }

    /// Returns how many octets were taken.
    fn taken(&self) -> usize
        requires joined { self.now.joined ≤ longest_message }
        requires blocks { self.now.blocks ≤ most_blocks }
        ensures { result ≡ taken_at self.now }
    {
        self.joined as usize + 4 * self.blocks as usize + self.under_way()
    }

    /// Returns the result of a call that fed octets and took `taken` of them.
    pub(crate) fn answer(&self, taken: usize) -> Result<(usize, bool), Stop<ChainReason>>
        ensures { result ≡ fed_answer self.now.refusal self.now.done taken }
    {
        match self.refusal {
            Some(refusal) => Err(refusal.stop()),
            None => Ok((taken, self.done)),
        }
    }

    /// Returns how many octets of the unfinished block came.
    pub(crate) fn under_way(&self) -> usize
        ensures few { result ≤ 258 }
        ensures place { result ≡ place_of self.now.stage + came_of self.now.stage self.now.came }
        ensures count { (message : List ℕ) → held_at self.now ≤ length message →
            result ≡ length (under_way_of (number_at self.now) self.now.stage (field_at self.now message)) }
    {
        match self.stage {
            BlockStage::Rest { .. } => 3 + self.came as usize,
            BlockStage::Nad | BlockStage::Pcb | BlockStage::Len { .. } => self.stage.place(),
        }
    }

    /// Whether the receiver takes more octets.
    pub(crate) fn is_open(&self) -> bool
        ensures { (message : List ℕ)
            → MatchBool result (IsOpen (received_at self.now message))
            (IsClosed (received_at self.now message)) }
    {
        self.refusal.is_none() && !self.done
    }
}

/// Whether some octet may come for the PCB after this many blocks that is refused for this reason.
fn is_pcb_reason(blocks: u32, reason: ChainReason) -> bool
    requires { blocks ≤ most_blocks }
    ensures yes { result ≡ true → IsPcbReason blocks reason }
    ensures no { IsPcbReason blocks reason → result ≡ true }
{
    match reason {
        ChainReason::BadPcb | ChainReason::NotInfo | ChainReason::BadSequence => true,
        ChainReason::TooManyBlocks => blocks + 1 == MOST_BLOCKS,
        _ => false,
    }
}

/// Whether some octet may come for the LEN that is refused for this reason. The message has room for `room` more
/// octets.
fn is_len_reason(ifs: u8, room: u32, reason: ChainReason) -> bool
    ensures yes { result ≡ true → IsLenReason ifs room reason }
    ensures no { IsLenReason ifs room reason → result ≡ true }
{
    match reason {
        ChainReason::BadLen => true,
        ChainReason::OverIfs => (ifs as usize) < LONGEST_INF,
        ChainReason::TooLong => room < ifs as u32,
        _ => false,
    }
}
