//! Receiving of APDUs from chains.

ghost use Rattle.std.specs.Prelude.{◌≡◌, ◌≤◌, ◌++◌, ℕ, List, Some, IfOk, IfErr, length};
ghost use Rattle.octet_core.specs.Grammar.{whole, Accepts, RefusesUnlessMemory};
ghost use Rattle.octet_core.specs.declared.stop.Refused.TheVariants as refusal;
ghost use Rattle.chain_core.specs.Chain.{IsChain, message_of};
ghost use Rattle.chain_core.specs.Longest.{longest_command, longest_response};
ghost use Rattle.chain_core.specs.Chain.{longest_message};
ghost use Rattle.apdu_core.specs.Command as command;
ghost use Rattle.apdu_core.specs.Command.{CommandParts, IsCommand};
ghost use Rattle.apdu_core.specs.Response as response;
ghost use Rattle.apdu_core.specs.Response.{ResponseParts, IsResponse};
ghost use Rattle.apdu_core.specs.Receiving.{ArrivesUnlessFault, IsReceived, IsReceiveFault};

use crate::command::Command;
use crate::decoding::{decode_command, decode_response};
use crate::reason::{CommandReason, ResponseReason};
use crate::response::Response;
use block_core::Number;
use chain_core::{
    ChainReason, LONGEST_COMMAND, LONGEST_RESPONSE, ReadRefusal, Receiver, read_chain,
};
use octet_core::{Refused, Source, Stop};
use std::alloc::{AllocError, Global};
use std::error::Error;
use std::fmt::{self, Debug, Display, Formatter, Write};

/// Why no APDU was received. `R` is the type of the reasons of its decoder.
#[derive(Clone, Copy, Debug, PartialEq, Eq)]
pub enum ReceiveFault<R> {
    /// An allocation failed. If it was for the message, nothing was read. If it was for the copy of the data
    /// field, the whole chain was read, and no more.
    Memory,
    /// The reader failed after `taken` octets. An interruption is a failure too.
    Read { taken: usize },
    /// The octets aren't a chain with such a message, or they ended before the chain was whole.
    Chain(Stop<ChainReason>),
    /// The whole chain was read, and no more, and its message isn't such an APDU.
    Apdu(Stop<R>),
}

/// Writes `memory`, `Read after N octets`, or `Chain: ` or `Apdu: ` and the stop.
impl<R: Display> Display for ReceiveFault<R> {
    ghost use Rattle.apdu_core.specs.Names.{receive_fault_text};

    ghost output = { receive_fault_text R.output };

    fn fmt<W: Write>(&self, f: &mut Formatter<W>) -> fmt::Result {
        match self {
            ReceiveFault::Memory => f.write_str("memory"),
            ReceiveFault::Read { taken } => write!(f, "Read after {taken} octets"),
            ReceiveFault::Chain(stop) => write!(f, "Chain: {stop}"),
            ReceiveFault::Apdu(stop) => write!(f, "Apdu: {stop}"),
        }
    }
}

impl<R: Debug + Display + Drop> Error for ReceiveFault<R> {}

impl<R> From<AllocError> for ReceiveFault<R> {
    ghost use Rattle.std.specs.Prelude.{◌≡◌};
    ghost use Rattle.apdu_core.specs.declared.receiving.ReceiveFault.TheVariants.{Memory};

    ghost from_gives = { λ _ fault. fault ≡ Memory };

    fn from(_: AllocError) -> Self {
        ReceiveFault::Memory
    }
}

impl<R> From<ReadRefusal> for ReceiveFault<R> {
    ghost use Rattle.std.specs.Prelude.{◌≡◌};
    ghost use Rattle.apdu_core.specs.Receiving.{fault_of_chain};

    ghost from_gives = { λ refusal fault. fault ≡ fault_of_chain refusal };

    fn from(refusal: ReadRefusal) -> Self {
        match refusal {
            ReadRefusal::Read { taken } => ReceiveFault::Read { taken },
            ReadRefusal::Stop(stop) => ReceiveFault::Chain(stop),
        }
    }
}

impl<R> From<Refused<R>> for ReceiveFault<R> {
    ghost use Rattle.std.specs.Prelude.{◌≡◌};
    ghost use Rattle.apdu_core.specs.Receiving.{fault_of_apdu};

    ghost from_gives = { λ refused fault. fault ≡ fault_of_apdu refused };

    fn from(refused: Refused<R>) -> Self {
        match refused {
            Refused::Stop(stop) => ReceiveFault::Apdu(stop),
            Refused::Memory => ReceiveFault::Memory,
        }
    }
}

/// Reads a chain (ISO/IEC 7816-3, clause 11.6) to its end, and decodes its message as a command. `ifs` is the
/// information field size, 1 to 254. `number` is the number of the first block. The message has at most
/// 65,544 octets. What follows the chain stays unread. The reader may hold a chain whose message is a
/// command, in whatever fields of at most `ifs` octets. Then the result is that command, unless an allocation
/// or the reader fails.
///
/// The error is `Memory` if an allocation fails. If it was for the message, nothing was read. If it was for
/// the copy of the data field, exactly the chain was read, and its message is a command.
///
/// It is `Read` if a call of the reader fails, after `taken` octets with which a chain begins. The call isn't
/// retried.
///
/// It is `Chain` if what was read isn't a chain. The stop is `Short` if the reader ended, or `At` the first
/// octet after which no chain can continue. Then no octet was read past the first three of its block, or past
/// that octet.
///
/// It is `Apdu` if the message isn't a command. Then exactly the chain was read.
pub fn receive_command<R: Source>(
    alloc: Global,
    reader: &mut R,
    ifs: u8,
    number: Number,
) -> Result<Command, ReceiveFault<CommandReason>>
    requires least { 1 ≤ ifs }
    requires most { ifs ≤ 254 }
    ensures received { IfOk result
        (IsReceived IsCommand longest_command ifs number R.remaining R.failures reader.old reader.new) }
    ensures fault { IfErr result (IsReceiveFault IsCommand command.IsReason longest_command ifs
        number
        R.remaining R.failures reader.old reader.new) }
    ensures arrives { (v : CommandParts) (sent : List (List ℕ)) (b more : List ℕ)
        → IsChain ifs number longest_command sent b → IsCommand v (message_of sent)
        → R.remaining reader.old ≡ Some (b ++ more)
        → ArrivesUnlessFault v more (R.remaining reader.new) result }
{
    read(alloc, reader, ifs, number, LONGEST_COMMAND)
}

/// Reads a chain (ISO/IEC 7816-3, clause 11.6) to its end, and decodes its message as a response. The message
/// has at most 65,538 octets. `ifs`, `number` and the errors are as for `receive_command`.
pub fn receive_response<R: Source>(
    alloc: Global,
    reader: &mut R,
    ifs: u8,
    number: Number,
) -> Result<Response, ReceiveFault<ResponseReason>>
    requires least { 1 ≤ ifs }
    requires most { ifs ≤ 254 }
    ensures received { IfOk result
        (IsReceived IsResponse longest_response ifs number R.remaining R.failures reader.old reader.new) }
    ensures fault { IfErr result (IsReceiveFault IsResponse response.IsReason longest_response ifs
        number
        R.remaining R.failures reader.old reader.new) }
    ensures arrives { (v : ResponseParts) (sent : List (List ℕ)) (b more : List ℕ)
        → IsChain ifs number longest_response sent b → IsResponse v (message_of sent)
        → R.remaining reader.old ≡ Some (b ++ more)
        → ArrivesUnlessFault v more (R.remaining reader.new) result }
{
    read(alloc, reader, ifs, number, LONGEST_RESPONSE)
}

/// An APDU that is the message of a chain.
trait Apdu: Drop {
    /// Why octets aren't such an APDU.
    type Reason;

    /// Which octets encode it, and why others don't.
    ghost spells: { Self → List ℕ → Type 0 };

    ghost reason: { Self.Reason → List ℕ → Type 0 };

    /// Decodes all the octets as one APDU.
    fn decode(alloc: Global, octets: &[u8]) -> Result<Self, Refused<Self::Reason>>
        ensures found { IfOk result (λ v. Accepts whole spells octets.now v (length octets.now)) }
        ensures refused { IfErr result (RefusesUnlessMemory whole spells reason octets.now) }
        ensures memory { result ≡ Err refusal.Memory
            → (v : Self) × Accepts whole spells octets.now v (length octets.now) };
}

impl Apdu for Command {
    type Reason = CommandReason;

    ghost spells = { IsCommand };

    ghost reason = { command.IsReason };

    fn decode(alloc: Global, octets: &[u8]) -> Result<Command, Refused<CommandReason>> {
        decode_command(alloc, octets)
    }
}

impl Apdu for Response {
    type Reason = ResponseReason;

    ghost spells = { IsResponse };

    ghost reason = { response.IsReason };

    fn decode(alloc: Global, octets: &[u8]) -> Result<Response, Refused<ResponseReason>> {
        decode_response(alloc, octets)
    }
}

/// Reads a chain, and decodes its message of at most `limit` octets.
fn read<A: Apdu, R: Source>(
    alloc: Global,
    reader: &mut R,
    ifs: u8,
    number: Number,
    limit: usize,
) -> Result<A, ReceiveFault<A::Reason>>
    requires least { 1 ≤ ifs }
    requires most { ifs ≤ 254 }
    requires limit { limit ≤ longest_message }
    ensures received { IfOk result
        (IsReceived A.spells limit ifs number R.remaining R.failures reader.old reader.new) }
    ensures fault { IfErr result
        (IsReceiveFault A.spells A.reason limit ifs number R.remaining R.failures reader.old reader.new) }
{
    let mut receiver = Receiver::new(alloc, ifs, number, limit)?;
    read_chain(reader, &mut receiver)?;
    let apdu = A::decode(alloc, receiver.message().unwrap())?;
    Ok(apdu)
}
