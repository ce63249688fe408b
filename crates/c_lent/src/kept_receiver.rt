//! The state of a receiver of a chain, which the caller keeps. Nothing is allocated.

ghost use Rattle.std.specs.Prelude.{◌≡◌, IfSome, IfNone, None, Some};
ghost use Rattle.octet_core.specs.declared.stop.Refusal.{Refusal};
ghost use Rattle.chain_core.specs.declared.stage.BlockStage.{BlockStage};
ghost use Rattle.chain_core.specs.declared.reason.ChainReason.{ChainReason};
ghost use Rattle.chain_core.specs.declared.lent.LentReceiver.{LentReceiver};
ghost use Rattle.chain_core.specs.Lent.{IsLentReceiver};
ghost use Rattle.c_lent.specs.KeptReceiver.{stage_of, stage_shown, refusal_from, receiver_of};

use crate::kept::{mark, mark_of, octet};
use crate::number::number_of;
use crate::verdict::Numbered;
use chain_core::{BlockStage, ChainReason, LentReceiver};
use octet_core::Refusal;

/// The state of a receiver. Its fields are private to the library. Only a value that a call left is usable, and each
/// call checks the fields.
#[repr(C)]
#[derive(Clone, Copy)]
pub struct CReceiver {
    pub refused_at: usize,
    pub max: u32,
    pub blocks: u32,
    pub joined: u32,
    pub ifs: u8,
    pub number: u8,
    pub part: u8,
    pub more: u8,
    pub len: u8,
    pub came: u8,
    pub done: u8,
    pub refused: u8,
}

/// Returns which part of the unfinished block comes next, by its number.
fn stage_of(kind: u8, more: bool, len: u8) -> Option<BlockStage>
    ensures { result ≡ stage_of kind more len }
{
    match kind {
        0 => Some(BlockStage::Nad),
        1 => Some(BlockStage::Pcb),
        2 => Some(BlockStage::Len { more }),
        3 => Some(BlockStage::Rest { more, len }),
        _ => None,
    }
}

/// Returns the number of the part that comes next, whether more blocks follow, and the length of the field.
fn stage_number(stage: BlockStage) -> (u8, bool, u8)
    ensures shown { result ≡ stage_shown stage }
    ensures kept { stage_of result.0 result.1 result.2 ≡ Some stage }
{
    match stage {
        BlockStage::Nad => (0, false, 0),
        BlockStage::Pcb => (1, false, 0),
        BlockStage::Len { more } => (2, more, 0),
        BlockStage::Rest { more, len } => (3, more, len),
    }
}

/// Returns why an octet was refused, by its number, which is 0 if none was.
fn refusal_from(number: u8, place: usize) -> Option<Option<Refusal<ChainReason>>>
    ensures { result ≡ refusal_from number place }
{
    let reason = match number {
        0 => return Some(None),
        1 => ChainReason::BadNad,
        2 => ChainReason::BadPcb,
        3 => ChainReason::NotInfo,
        4 => ChainReason::BadSequence,
        5 => ChainReason::TooManyBlocks,
        6 => ChainReason::BadLen,
        7 => ChainReason::OverIfs,
        8 => ChainReason::TooLong,
        9 => ChainReason::BadLrc,
        _ => return None,
    };
    Some(Some(Refusal { place, reason }))
}

/// Returns the number and the place of a refusal, both 0 if there is none.
fn refusal_number(refusal: Option<Refusal<ChainReason>>) -> (u8, usize)
    ensures none { refusal ≡ None → result ≡ (0, 0) }
    ensures kept { refusal_from result.0 result.1 ≡ Some refusal }
{
    match refusal {
        None => (0, 0),
        Some(refusal) => (refusal.reason.number(), refusal.place),
    }
}

impl CReceiver {
    /// Returns the state of a receiver as a struct of C.
    pub fn of(receiver: &LentReceiver) -> CReceiver
        ensures kept { receiver_of result ≡ Some receiver.now }
        ensures unused { (result.part ≡ (stage_shown receiver.now.stage).0)
            × (result.len ≡ (stage_shown receiver.now.stage).2) }
        ensures unrefused { receiver.now.refusal ≡ None
            → (result.refused ≡ 0) × (result.refused_at ≡ 0) }
    {
        let (part, more, len) = stage_number(receiver.stage);
        let (refused, refused_at) = refusal_number(receiver.refusal);
        CReceiver {
            refused_at,
            max: receiver.max,
            blocks: receiver.blocks,
            joined: receiver.joined,
            ifs: receiver.ifs,
            number: octet(receiver.first),
            part,
            more: mark(more),
            len,
            came: receiver.came,
            done: mark(receiver.done),
            refused,
        }
    }

    /// Returns the receiver that the fields spell, if any.
    fn spelled(&self) -> Option<LentReceiver>
        ensures { result ≡ receiver_of self.now }
    {
        let first = number_of(self.number)?;
        let more = mark_of(self.more)?;
        let stage = stage_of(self.part, more, self.len)?;
        let done = mark_of(self.done)?;
        let refusal = refusal_from(self.refused, self.refused_at)?;
        Some(LentReceiver {
            ifs: self.ifs,
            first,
            max: self.max,
            blocks: self.blocks,
            joined: self.joined,
            stage,
            came: self.came,
            done,
            refusal,
        })
    }

    /// Returns the receiver that the fields spell, if it fits a buffer of this many octets.
    pub fn fitting(&self, room: usize) -> Option<LentReceiver>
        ensures some { IfSome result
            (λ receiver. (receiver_of self.now ≡ Some receiver) × IsLentReceiver receiver room) }
        ensures none { IfNone result
            ((receiver : LentReceiver) → receiver_of self.now ≡ Some receiver →
            IsLentReceiver receiver room → ⊥) }
    {
        let receiver = self.spelled()?;
        if receiver.fit(room) {
            Some(receiver)
        } else {
            None
        }
    }
}
