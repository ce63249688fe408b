//! Writing of a chain to a writer.

ghost use Rattle.std.specs.Prelude.{◌≡◌, ◌<◌, ◌≤◌, length, take, OnOk, IfErr};
ghost use Rattle.std.specs.Io.KnownBytes.{Appends};
ghost use Rattle.octet_core.specs.Failures.{HasFailed, next_count};
ghost use Rattle.chain_core.specs.Chain.{longest_message, spelling};
ghost use Rattle.chain_core.specs.Cut.{cut_of};

use crate::cutting::cut;
use block_core::{Number, encode};
use octet_core::{Sink, WriteFault, write_octets};

/// Writes the chain for a message of at most 131,072 octets. All fields but the last have `ifs` octets,
/// which is 1 to 254, and the first block has this number.
///
/// At a fault the writer has taken the first `written` octets of the chain, fewer than all, and exactly
/// one of its calls failed. A failed call isn't retried, not even after an interruption.
pub fn write_chain<W: Sink>(
    writer: &mut W,
    msg: &[u8],
    ifs: u8,
    number: Number,
) -> Result<(), WriteFault>
    requires least { 1 ≤ ifs }
    requires most { ifs ≤ 254 }
    requires limit { length msg.now ≤ longest_message }

    ensures all { OnOk result (Appends (W.contents writer.old) (W.contents writer.new)
        (spelling number (cut_of ifs msg.now))) }
    ensures none_failed { OnOk result (W.failures writer.new ≡ W.failures writer.old) }

    ensures fewer { IfErr result (λ fault.
        fault.written < length (spelling number (cut_of ifs msg.now))) }
    ensures first { IfErr result (λ fault.
        Appends (W.contents writer.old) (W.contents writer.new)
        (take fault.written (spelling number (cut_of ifs msg.now)))) }
    ensures failed { IfErr result (λ fault.
        HasFailed (W.failures writer.old) (W.failures writer.new)) }
    ensures failed_once { IfErr result
        (λ fault. W.failures writer.new ≡ next_count (W.failures writer.old)) }
{
    let mut written = 0;
    for block in cut(msg, ifs, number) {
        let octets = encode(&block);
        match write_octets(writer, octets.as_slice()) {
            Ok(()) => written += octets.len(),
            Err(fault) => {
                return Err(WriteFault {
                    written: written + fault.written,
                });
            }
        }
    }
    Ok(())
}
