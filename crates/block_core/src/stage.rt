//! The stage of a block that comes in pieces.

ghost use Rattle.std.specs.Prelude.{◌≡◌, ◌+◌, ◌≤◌, ◌↔◌, length, slice_index, IfOk, IfErr, IsTrue};
ghost use Rattle.octet_core.specs.Octets.{xor_of};
ghost use Rattle.block_core.specs.Block.{IsAboutIfs, pcb_octet};
ghost use Rattle.block_core.specs.Stage.{IsAt, IsTested, IsHeaded, IsSized, IsRefused, tested_len, answer_of};

use crate::block::Block;
use crate::pcb::{Pcb, S};
use crate::reason::BlockReason;
use octet_core::{Refusal, Stop};

/// The stage of a block, by the octet that is tested next.
#[derive(Debug, Drop)]
pub(crate) enum Stage {
    /// PCB, after NAD.
    Front,
    /// LEN.
    Len(Pcb),
    /// The size that an IFS request or response carries.
    Size(Pcb),
    /// The LRC, at place `end`.
    Rest { pcb: Pcb, end: usize },
    /// No octet is tested: the block is whole.
    Done(Block),
    /// No octet is tested: no block can continue.
    Refused(Refusal<BlockReason>),
}

impl Stage {
    /// Returns how many octets there are up to and including the one that is tested next, 0 if no
    /// octet is tested.
    pub(crate) fn tested_len(&self) -> usize
        requires { tested_len self.now ≤ 300 }
        ensures { result ≡ tested_len self.now }
    {
        match self {
            Stage::Front => 2,
            Stage::Len(_) => 3,
            Stage::Size(_) => 4,
            Stage::Rest { end, .. } => *end + 1,
            Stage::Done(_) | Stage::Refused(_) => 0,
        }
    }

    /// Returns whether the block is whole, or the refusal.
    pub(crate) fn answer(&self) -> Result<bool, Stop<BlockReason>>
        ensures { result ≡ answer_of self.now }
    {
        match self {
            Stage::Refused(refusal) => Err(Stop::At {
                place: refusal.place,
                reason: refusal.reason,
            }),
            Stage::Done(_) => Ok(true),
            _ => Ok(false),
        }
    }

    /// Returns the stage after the tested octet, which is the last of those held. `sum` is their
    /// exclusive-or.
    pub(crate) fn advanced(&self, held: &[u8], sum: u8, ifs: u8) -> Stage
        requires most { ifs ≤ 254 }
        requires tested { IsTested ifs self.now held.now }
        requires sum { sum ≡ xor_of held.now }
        ensures { IsAt ifs result held.now }
    {
        match self.tested(held, sum, ifs) {
            Ok(stage) => stage,
            Err(reason) => Stage::Refused(Refusal {
                place: held.len() - 1,
                reason,
            }),
        }
    }

    fn tested(&self, held: &[u8], sum: u8, ifs: u8) -> Result<Stage, BlockReason>
        requires most { ifs ≤ 254 }
        requires tested { IsTested ifs self.now held.now }
        requires sum { sum ≡ xor_of held.now }
        ensures on { IfOk result (λ stage. IsAt ifs stage held.now) }
        ensures refused { IfErr result (IsRefused ifs held.now) }
    {
        match self {
            Stage::Front => behind_pcb(held, ifs),
            Stage::Len(pcb) => behind_len(*pcb, held, ifs),
            Stage::Size(pcb) => behind_size(*pcb, held, ifs),
            Stage::Rest { pcb, end } => whole(*pcb, held, *end, sum, ifs),
            Stage::Done(_) | Stage::Refused(_) => unreachable!(),
        }
    }
}

fn behind_pcb(held: &[u8], ifs: u8) -> Result<Stage, BlockReason>
    requires { length held.now ≡ 2 }
    ensures on { IfOk result (λ stage. IsAt ifs stage held.now) }
    ensures refused { IfErr result (IsRefused ifs held.now) }
{
    match Pcb::from_octet(held[1]) {
        Some(pcb) => Ok(Stage::Len(pcb)),
        None => Err(BlockReason::BadPcb),
    }
}

fn behind_len(pcb: Pcb, held: &[u8], ifs: u8) -> Result<Stage, BlockReason>
    requires most { ifs ≤ 254 }
    requires len { length held.now ≡ 3 }
    requires kind { pcb_octet pcb ≡ slice_index held.now 1 }
    ensures on { IfOk result (λ stage. IsAt ifs stage held.now) }
    ensures refused { IfErr result (IsRefused ifs held.now) }
{
    if let Some(reason) = pcb.fault_of_len(held[2], ifs) {
        return Err(reason);
    }
    if pcb.is_about_ifs() {
        return Ok(Stage::Size(pcb));
    }
    Ok(Stage::Rest {
        pcb,
        end: 3 + held[2] as usize,
    })
}

fn behind_size(pcb: Pcb, held: &[u8], ifs: u8) -> Result<Stage, BlockReason>
    requires len { length held.now ≡ 4 }
    requires headed { IsHeaded ifs pcb held.now }
    requires about { IsAboutIfs pcb }
    ensures on { IfOk result (λ stage. IsAt ifs stage held.now) }
    ensures refused { IfErr result (IsRefused ifs held.now) }
{
    if pcb.refuses_first(held[3]) {
        return Err(BlockReason::BadIfs);
    }
    Ok(Stage::Rest {
        pcb,
        end: 3 + held[2] as usize,
    })
}

fn whole(pcb: Pcb, held: &[u8], end: usize, sum: u8, ifs: u8) -> Result<Stage, BlockReason>
    requires most { ifs ≤ 254 }
    requires len { length held.now ≡ end + 1 }
    requires end { end ≡ 3 + slice_index held.now 2 }
    requires headed { IsHeaded ifs pcb held.now }
    requires sized { IsSized pcb (slice_index held.now 3) }
    requires sum { sum ≡ xor_of held.now }
    ensures on { IfOk result (λ stage. IsAt ifs stage held.now) }
    ensures refused { IfErr result (IsRefused ifs held.now) }
{
    if sum != 0 {
        return Err(BlockReason::BadLrc);
    }
    let block = Block::made(held[0], pcb, &held[3..end]).unwrap();
    Ok(Stage::Done(block))
}

impl Pcb {
    /// Whether the block is a request or a response about IFS, which carries a size.
    pub(crate) fn is_about_ifs(self) -> bool
        ensures { IsTrue result ↔ IsAboutIfs self }
    {
        matches!(self, Pcb::Request(S::Ifs) | Pcb::Response(S::Ifs))
    }
}
