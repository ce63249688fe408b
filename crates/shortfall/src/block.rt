//! Blocks (ISO/IEC 7816-3, clause 11.3).

ghost use Rattle.std.specs.Prelude.{◌≡◌};
ghost use Rattle.shortfall.specs.Block.{block_least, field_least, len_least};

use block_core::{Pcb, S, block_len};

/// Returns how many more octets a block needs at least.
pub fn block_least(octets: &[u8]) -> usize
    ensures { result ≡ block_least octets.now }
{
    let whole = match octets {
        [_, _, len, ..] => block_len(*len),
        [_, pcb] => block_len(field_least(*pcb)),
        _ => block_len(0),
    };
    whole.saturating_sub(octets.len())
}

/// Returns the least length of the field of a block with this control octet.
fn field_least(octet: u8) -> u8
    ensures { result ≡ field_least octet }
{
    match Pcb::from_octet(octet) {
        Some(pcb) => len_least(pcb),
        None => 0,
    }
}

/// Returns the least length of the field of a block of this kind.
fn len_least(pcb: Pcb) -> u8
    ensures { result ≡ len_least pcb }
{
    match pcb {
        Pcb::Info { .. } | Pcb::Ready { .. } => 0,
        Pcb::Request(about) | Pcb::Response(about) => match about {
            S::Resynch | S::Abort => 0,
            S::Ifs | S::Wtx => 1,
        },
    }
}
