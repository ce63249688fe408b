//! How a receiver of a chain takes octets, for either storage of the message.

ghost use Rattle.std.specs.Prelude.{◌≡◌, ◌+◌, ◌*◌, ◌<◌, ◌≤◌, ◌++◌, length, take, Some, None, [], ◌∷◌, false, List, ℕ, IsSome};
ghost use Rattle.chain_core.specs.declared.stage.BlockStage.TheVariants.{Rest};
ghost use Rattle.chain_core.specs.Chain.{most_blocks, longest_message, number_after};
ghost use Rattle.chain_core.specs.Stage.{IsHead, left_of};
ghost use Rattle.chain_core.specs.Receiving.{Goes, Fed};
ghost use Rattle.chain_core.specs.Lent.{IsLentReceiver, Brings, IsStored, IsUnderWay, received_at, held_at};

use crate::lent::LentReceiver;
use crate::reason::ChainReason;
use crate::receiver::MOST_BLOCKS;
use crate::stage::{BlockStage, after};
use crate::store::MessageStore;
use block_core::{Number, Pcb};
use octet_core::{Refusal, lrc};

impl LentReceiver {
    /// Takes the next octets, and returns how many of this piece. The whole piece is taken unless the chain ends
    /// in it, or an octet is refused.
    pub(crate) fn take<S: MessageStore>(&mut self, store: &mut S, piece: &[u8]) -> usize
        requires stored { IsStored self.old (S.kept store.old) (S.room store.old)
            (S.ends_after store.old) }
        ensures stored { IsStored self.new (S.kept store.new) (S.room store.new)
            (S.ends_after store.new) }
        ensures loan { S.loan store.new ≡ S.loan store.old }
        ensures fed { Fed (received_at self.old (S.kept store.old))
            (received_at self.new (S.kept store.new))
            piece.now result }
        ensures brings { (t : List ℕ)
            → Brings self.old.refusal (received_at self.old (S.kept store.old)) t
            → Brings self.new.refusal (received_at self.new (S.kept store.new))
            (t ++ take result piece.now) }
    {
        let mut taken = 0;
        while taken < piece.len() && self.is_open() {
            taken += self.take_run(store, &piece[taken..]);
        }
        taken
    }

    /// Takes octets of the unfinished field, or one other octet of the block.
    fn take_run<S: MessageStore>(&mut self, store: &mut S, piece: &[u8]) -> usize
        requires some { 0 < length piece.now }
        requires open { (self.old.refusal ≡ None) × (self.old.done ≡ false) }
        requires stored { IsStored self.old (S.kept store.old) (S.room store.old)
            (S.ends_after store.old) }
        ensures some { 0 < result }
        ensures most { result ≤ length piece.now }
        ensures stored { IsStored self.new (S.kept store.new) (S.room store.new)
            (S.ends_after store.new) }
        ensures loan { S.loan store.new ≡ S.loan store.old }
        ensures goes { Goes (received_at self.old (S.kept store.old))
            (received_at self.new (S.kept store.new)) (take result piece.now) }
        ensures stays { IsSome self.new.refusal → ((record self.new { refusal = None }) ≡ self.old)
            × (store.new ≡ store.old) × (result ≡ 1) }
    {
        let run = piece.len().min(self.field_left());
        if run == 0 {
            self.take_control(store.octets(), piece[0]);
            return 1;
        }
        store.put(self.joined as usize + self.came as usize, &piece[..run]);
        self.came += run as u8;
        run
    }

    /// Returns how many octets of the unfinished field are still to come, 0 if another octet comes next.
    fn field_left(&self) -> usize
        requires { IsUnderWay self.now.ifs self.now.max self.now.blocks self.now.joined
            self.now.came self.now.stage }
        ensures { result ≡ left_of self.now.stage self.now.came }
    {
        match self.stage {
            BlockStage::Rest { len, .. } => (len - self.came) as usize,
            BlockStage::Nad | BlockStage::Pcb | BlockStage::Len { .. } => 0,
        }
    }

    /// Returns the number of the unfinished block, or of the next block.
    fn number(&self) -> Number
        ensures { result ≡ number_after self.now.first self.now.blocks }
    {
        if self.blocks % 2 == 0 {
            self.first
        } else {
            self.first.other()
        }
    }

    /// Takes one of the first three octets of a block, or its LRC.
    fn take_control(&mut self, message: &[u8], octet: u8)
        requires open { (self.old.refusal ≡ None) × (self.old.done ≡ false) }
        requires fit { (room : ℕ) × IsLentReceiver self.old room }
        requires held { held_at self.old ≤ length message.now }
        requires whole { left_of self.old.stage self.old.came ≡ 0 }
        ensures fit { (room : ℕ) → IsLentReceiver self.old room
            → IsLentReceiver self.new room }
        ensures held { held_at self.new ≡ held_at self.old }
        ensures goes { Goes (received_at self.old message.now) (received_at self.new message.now)
            (octet ∷ []) }
        ensures stays { IsSome self.new.refusal → (record self.new { refusal = None }) ≡ self.old }
    {
        match self.stage {
            BlockStage::Rest { more, len } => self.take_lrc(message, more, len, octet),
            BlockStage::Nad | BlockStage::Pcb | BlockStage::Len { .. } => self.take_head(octet),
        }
    }

    /// Takes one of the first three octets of a block.
    fn take_head(&mut self, octet: u8)
        requires open { (self.old.refusal ≡ None) × (self.old.done ≡ false) }
        requires head { IsHead self.old.stage }
        requires fit { (room : ℕ) × IsLentReceiver self.old room }
        ensures fit { (room : ℕ) → IsLentReceiver self.old room
            → IsLentReceiver self.new room }
        ensures held { held_at self.new ≡ held_at self.old }
        ensures goes { (message : List ℕ) → held_at self.old ≤ length message →
            Goes (received_at self.old message) (received_at self.new message) (octet ∷ []) }
        ensures stays { IsSome self.new.refusal → (record self.new { refusal = None }) ≡ self.old }
    {
        let last = self.blocks + 1 == MOST_BLOCKS;
        let room = (self.max - self.joined) as usize;
        match after(self.stage, octet, self.ifs, self.number(), last, room) {
            Ok(stage) => {
                self.stage = stage;
                self.came = 0;
            }
            Err(reason) => self.refuse(self.stage.place(), reason),
        }
    }

    /// Takes the LRC of a block. If it is right, the field of the block becomes part of the message.
    fn take_lrc(&mut self, message: &[u8], more: bool, len: u8, octet: u8)
        requires open { (self.old.refusal ≡ None) × (self.old.done ≡ false) }
        requires fit { (room : ℕ) × IsLentReceiver self.old room }
        requires held { self.old.joined + len ≤ length message.now }
        requires stage { self.old.stage ≡ Rest more len }
        requires came { self.old.came ≡ len }
        ensures fit { (room : ℕ) → IsLentReceiver self.old room
            → IsLentReceiver self.new room }
        ensures held { held_at self.new ≡ held_at self.old }
        ensures goes { Goes (received_at self.old message.now) (received_at self.new message.now)
            (octet ∷ []) }
        ensures stays { IsSome self.new.refusal → (record self.new { refusal = None }) ≡ self.old }
    {
        let start = self.joined as usize;
        let end = start + len as usize;
        let pcb = Pcb::Info {
            number: self.number(),
            more,
        };
        if lrc(&[0, pcb.octet(), len]) ^ lrc(&message[start..end]) != octet {
            self.refuse(3 + len as usize, ChainReason::BadLrc);
            return;
        }
        self.joined += len as u32;
        self.blocks += 1;
        self.done = !more;
        self.stage = BlockStage::Nad;
        self.came = 0;
    }

    /// Keeps the refusal of the octet at this place of the unfinished block.
    fn refuse(&mut self, place: usize, reason: ChainReason)
        requires place { place ≤ 258 }
        requires blocks { self.old.blocks ≤ most_blocks }
        requires joined { self.old.joined ≤ longest_message }
        ensures { self.new ≡ record self.old {
          refusal = Some (record
              { place = self.old.joined + 4 * self.old.blocks + place; reason = reason });
        } }
    {
        let place = self.joined as usize + 4 * self.blocks as usize + place;
        self.refusal = Some(Refusal { place, reason });
    }
}
