//! What a line does after a block.

ghost use Rattle.std.specs.Prelude.{IfOk};
ghost use Rattle.line_core.specs.Line.{FitsRoom};

use line_core::Received;
use std::io::{self, ErrorKind};

/// What a line does after a block.
#[derive(Clone, Copy)]
pub(super) enum Step<'a> {
    Gives(&'a [u8]),
    IsSilent,
    Fails,
}

impl Step<'_> {
    /// Returns what the line delivers.
    pub(super) fn heard(self, room: &mut [u8]) -> io::Result<Received>
        ensures { IfOk result (λ heard. FitsRoom heard room.new) }
    {
        match self {
            Step::Gives(octets) => Ok(filled(octets, room)),
            Step::IsSilent => Ok(Received::Nothing),
            Step::Fails => Err(ErrorKind::Other.into()),
        }
    }
}

/// Fills the buffer with as many of the octets as it has room for.
fn filled(octets: &[u8], room: &mut [u8]) -> Received
    ensures { FitsRoom result room.new }
{
    let count = octets.len().min(room.len());
    room[..count].copy_from_slice(&octets[..count]);
    Received::Octets(count)
}
