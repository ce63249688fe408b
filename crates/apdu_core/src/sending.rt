//! Sending of APDUs as chains.

ghost use Rattle.std.specs.Prelude.{◌≤◌, OnOk, IfErr};
ghost use Rattle.apdu_core.specs.Command.{IsCommand};
ghost use Rattle.apdu_core.specs.Response.{IsResponse};
ghost use Rattle.apdu_core.specs.Sending.{IsSent, IsSendFault};

use crate::command::Command;
use crate::encoding::{encode_command, encode_response};
use crate::response::Response;
use block_core::Number;
use chain_core::write_chain;
use octet_core::{Sink, WriteFault};
use std::alloc::{AllocError, Global};
use std::error::Error;
use std::fmt::{self, Display, Formatter, Write};

/// Why no whole APDU was sent.
#[derive(Clone, Copy, Debug, PartialEq, Eq)]
pub enum SendFault {
    /// An allocation for the octets failed. Nothing was written.
    Memory,
    /// The writer failed, or took no octet, after the first `written` octets of the chain.
    Write { written: usize },
}

/// Writes `memory`, or `Write after N octets`.
impl Display for SendFault {
    ghost use Rattle.std.specs.Prelude.{Some};
    ghost use Rattle.apdu_core.specs.Names.{send_fault_text};

    ghost output = { λ fault. Some (send_fault_text fault) };

    fn fmt<W: Write>(&self, f: &mut Formatter<W>) -> fmt::Result {
        match self {
            SendFault::Memory => f.write_str("memory"),
            SendFault::Write { written } => write!(f, "Write after {written} octets"),
        }
    }
}

impl Error for SendFault {}

impl From<AllocError> for SendFault {
    ghost use Rattle.std.specs.Prelude.{◌≡◌};
    ghost use Rattle.apdu_core.specs.declared.sending.SendFault.TheVariants.{Memory};

    ghost from_gives = { λ _ fault. fault ≡ Memory };

    fn from(_: AllocError) -> Self {
        SendFault::Memory
    }
}

impl From<WriteFault> for SendFault {
    ghost use Rattle.std.specs.Prelude.{◌≡◌};
    ghost use Rattle.apdu_core.specs.declared.sending.SendFault.TheVariants.{Write};

    ghost from_gives = { λ write fault. fault ≡ Write write.written };

    fn from(fault: WriteFault) -> Self {
        SendFault::Write {
            written: fault.written,
        }
    }
}

/// Writes the chain of a command (ISO/IEC 7816-3, clause 11.6). All fields but the last have `ifs` octets,
/// which is 1 to 254, and the first block has this number.
///
/// The error is `Memory` if an allocation for the octets fails. Then nothing was written. It is `Write` if
/// the writer fails. The writer has taken the first `written` octets of the chain, fewer than all. A
/// failed call isn't retried, not even after an interruption.
pub fn send_command<W: Sink>(
    alloc: Global,
    writer: &mut W,
    command: &Command,
    ifs: u8,
    number: Number,
) -> Result<(), SendFault>
    requires least { 1 ≤ ifs }
    requires most { ifs ≤ 254 }
    ensures sent { OnOk result (IsSent IsCommand command.now ifs number W.contents W.failures
        writer.old writer.new) }
    ensures fault { IfErr result (IsSendFault IsCommand command.now ifs number W.contents W.failures
        writer.old writer.new) }
{
    let octets = encode_command(alloc, command)?;
    write_chain(writer, octets.as_slice(), ifs, number)?;
    Ok(())
}

/// Writes the chain of a response (ISO/IEC 7816-3, clause 11.6). `ifs`, `number` and the errors are as for
/// `send_command`.
pub fn send_response<W: Sink>(
    alloc: Global,
    writer: &mut W,
    response: &Response,
    ifs: u8,
    number: Number,
) -> Result<(), SendFault>
    requires least { 1 ≤ ifs }
    requires most { ifs ≤ 254 }
    ensures sent { OnOk result (IsSent IsResponse response.now ifs number W.contents W.failures
        writer.old writer.new) }
    ensures fault { IfErr result (IsSendFault IsResponse response.now ifs number W.contents
        W.failures writer.old writer.new) }
{
    let octets = encode_response(alloc, response)?;
    write_chain(writer, octets.as_slice(), ifs, number)?;
    Ok(())
}
