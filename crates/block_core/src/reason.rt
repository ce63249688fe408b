//! Why octets aren't a block.

ghost use Rattle.std.specs.Prelude.{◌↔◌, IfSome, IfNone, IsTrue};
ghost use Rattle.block_core.specs.Block.{FitsLen, IsLenFault, IsAboutIfs};
ghost use Rattle.octet_core.specs.Sizes.{IsReserved};

use crate::pcb::{Pcb, S};
use octet_core::{Named, is_reserved};
use std::error::Error;
use std::fmt::{self, Display, Formatter, Write};

/// Why octets aren't a block, in the order in which the reasons are tried at a place.
#[derive(Clone, Copy, Debug, PartialEq, Eq)]
pub enum BlockReason {
    /// PCB, at place 1, isn't one of the 18.
    BadPcb,
    /// LEN, at place 2, is FF, or isn't the length of an R-block or of this S-block.
    BadLen,
    /// LEN, at place 2, of an I-block is over the information field size.
    OverIfs,
    /// The octet of an IFS request or response, at place 3, is 00 or FF.
    BadIfs,
    /// The exclusive-or of all octets up to the last isn't 00.
    BadLrc,
}

impl Named for BlockReason {
    ghost use Rattle.block_core.specs.Names.{reason_name};

    ghost text = { reason_name };

    fn name(self) -> &'static str {
        match self {
            BlockReason::BadPcb => "BadPcb",
            BlockReason::BadLen => "BadLen",
            BlockReason::OverIfs => "OverIfs",
            BlockReason::BadIfs => "BadIfs",
            BlockReason::BadLrc => "BadLrc",
        }
    }
}

/// Writes the reason's name.
impl Display for BlockReason {
    ghost use Rattle.std.specs.Prelude.{Some};
    ghost use Rattle.block_core.specs.Names.{reason_name};

    ghost output = { λ reason. Some (reason_name reason) };

    fn fmt<W: Write>(&self, f: &mut Formatter<W>) -> fmt::Result {
        f.write_str(self.name())
    }
}

impl Error for BlockReason {}

impl Pcb {
    /// Returns why no block of this kind has an information field of this length, for this information field size:
    /// `BadLen` or `OverIfs`. The result is `None` if one has.
    pub fn fault_of_len(self, len: u8, ifs: u8) -> Option<BlockReason>
        ensures none { IfNone result (FitsLen ifs self len) }
        ensures some { IfSome result (IsLenFault ifs self len) }
    {
        let wanted = match self {
            Pcb::Info { .. } if len == 255 => return Some(BlockReason::BadLen),
            Pcb::Info { .. } if len > ifs => return Some(BlockReason::OverIfs),
            Pcb::Info { .. } => return None,
            Pcb::Ready { .. } => 0,
            Pcb::Request(about) | Pcb::Response(about) => about.len(),
        };
        if len == wanted {
            None
        } else {
            Some(BlockReason::BadLen)
        }
    }

    /// Whether no information field of this kind begins with this octet.
    pub(crate) fn refuses_first(self, first: u8) -> bool
        ensures { IsTrue result ↔ (IsAboutIfs self × IsReserved first) }
    {
        match self {
            Pcb::Request(S::Ifs) | Pcb::Response(S::Ifs) => is_reserved(first),
            _ => false,
        }
    }
}
