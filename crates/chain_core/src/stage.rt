//! Which octet of a chain's block comes next, and why its first three octets are refused.

ghost use Rattle.std.specs.Prelude.{◌≡◌, ◌<◌, ◌≤◌, IfOk, IfErr, OnOk, true, false};
ghost use Rattle.block_core.specs.Block.{pcb_octet, IsInfo};
ghost use Rattle.block_core.specs.declared.pcb.Pcb.TheVariants.{Info};
ghost use Rattle.chain_core.specs.Stage.{IsPcbFault, IsLenFault, IsHead, IsHeadFault, IsAfter, place_of, end_of};

use crate::reason::ChainReason;
use block_core::{BlockReason, Number, Pcb, block_len};

/// Which octet of the unfinished block comes next.
#[derive(Clone, Copy, Debug, PartialEq, Eq)]
pub enum BlockStage {
    Nad,
    Pcb,
    /// LEN. The PCB of the block said by its bit M whether more blocks follow.
    Len { more: bool },
    /// The field, of this length, or the LRC.
    Rest { more: bool, len: u8 },
}

impl BlockStage {
    /// Returns the place in the block of the octet that comes next: 3 for the field and the LRC.
    pub(crate) fn place(self) -> usize
        ensures { result ≡ place_of self }
    {
        match self {
            BlockStage::Nad => 0,
            BlockStage::Pcb => 1,
            BlockStage::Len { .. } => 2,
            BlockStage::Rest { .. } => 3,
        }
    }

    /// Returns where the octets that may be read now end: after the first three of the block, or after the
    /// block once LEN has come.
    pub(crate) fn end(self) -> usize
        ensures { result ≡ end_of self }
    {
        match self {
            BlockStage::Nad | BlockStage::Pcb | BlockStage::Len { .. } => 3,
            BlockStage::Rest { len, .. } => block_len(len),
        }
    }
}

/// Returns whether a block with this PCB says that more follow. The error is the reason why it can't come
/// next. `number` is the number of the next block, and `last` says whether it is the last one that a chain
/// can have.
fn more_of(octet: u8, number: Number, last: bool) -> Result<bool, ChainReason>
    ensures kind { IfOk result (λ more. pcb_octet (Info number more) ≡ octet) }
    ensures room { IfOk result (λ more. more ≡ true → last ≡ false) }
    ensures refused { IfErr result (IsPcbFault number last octet) }
{
    let Some(pcb) = Pcb::from_octet(octet) else {
        return Err(ChainReason::BadPcb);
    };
    let Pcb::Info { number: own, more } = pcb else {
        return Err(ChainReason::NotInfo);
    };
    if own != number {
        return Err(ChainReason::BadSequence);
    }
    if more && last {
        return Err(ChainReason::TooManyBlocks);
    }
    Ok(more)
}

/// Checks that an I-block can have a field of this length. The message has room for `room` more octets.
fn check_len(pcb: Pcb, len: u8, ifs: u8, room: usize) -> Result<(), ChainReason>
    requires kind { IsInfo pcb }
    requires most { ifs ≤ 254 }
    ensures size { OnOk result (len ≤ ifs) }
    ensures room { OnOk result (len ≤ room) }
    ensures refused { IfErr result (IsLenFault ifs room len) }
{
    match pcb.fault_of_len(len, ifs) {
        Some(BlockReason::BadLen) => Err(ChainReason::BadLen),
        // a length has only two faults
        Some(_) => Err(ChainReason::OverIfs),
        None if len as usize > room => Err(ChainReason::TooLong),
        None => Ok(()),
    }
}

/// Returns the stage after one of the first three octets of a block. `number` is the number of the block,
/// and `last` says whether it is the last one that a chain can have. The message has room for `room` more
/// octets.
pub(crate) fn after(
    stage: BlockStage,
    octet: u8,
    ifs: u8,
    number: Number,
    last: bool,
    room: usize,
) -> Result<BlockStage, ChainReason>
    requires head { IsHead stage }
    requires most { ifs ≤ 254 }
    ensures on { IfOk result (IsAfter number last ifs room stage octet) }
    ensures refused { IfErr result (IsHeadFault number last ifs room stage octet) }
{
    match stage {
        BlockStage::Nad if octet != 0 => Err(ChainReason::BadNad),
        BlockStage::Nad => Ok(BlockStage::Pcb),
        BlockStage::Pcb => {
            let more = more_of(octet, number, last)?;
            Ok(BlockStage::Len { more })
        }
        BlockStage::Len { more } => {
            check_len(Pcb::Info { number, more }, octet, ifs, room)?;
            Ok(BlockStage::Rest { more, len: octet })
        }
        BlockStage::Rest { .. } => unreachable!(),
    }
}
