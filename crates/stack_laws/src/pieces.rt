//! APDUs whose chains come in two pieces.

ghost use Rattle.std.specs.Prelude.{◌≡◌, ◌≤◌, ◌<◌, ℕ, List, length, IfOk, None, true};
ghost use Rattle.octet_core.specs.Octets.{AreOctets};
ghost use Rattle.apdu_core.specs.Command.{IsCommand};
ghost use Rattle.chain_core.specs.Longest.{longest_command};
ghost use Rattle.apdu_core.specs.Response.{IsResponse};
ghost use Rattle.apdu_core.specs.Sending.{chain_of};

use apdu_core::{
    Command, LONGEST_COMMAND, Response, decode_command, decode_response, send_command,
    send_response,
};
use block_core::Number;
use chain_core::Receiver;
use octet_core::{Counted, Refused};
use std::alloc::{AllocError, Global};

/// Sends a command as a chain, feeds the chain to a receiver in two pieces, and returns the command that arrives. The
/// first piece ends at the place `cut`, or with the chain.
pub fn command_in_two_pieces(
    alloc: Global,
    command: &Command,
    ifs: u8,
    number: Number,
    cut: usize,
) -> Result<Command, AllocError>
    requires least { 1 ≤ ifs }
    requires most { ifs ≤ 254 }
    ensures { IfOk result (λ arrived. arrived ≡ command.now) }
{
    apdu_core::laws::one_value();
    apdu_core::laws::lengths();
    let chain = command_chain(alloc, command, ifs, number)?;
    let receiver = fed_in_two(alloc, chain.as_slice(), ifs, number, cut)?;
    match decode_command(alloc, receiver.message().unwrap()) {
        Ok(arrived) => Ok(arrived),
        Err(Refused::Memory) => Err(AllocError),
        Err(Refused::Stop(_)) => unreachable!(),
    }
}

/// Sends a response as a chain, feeds the chain to a receiver in two pieces, and returns the response that arrives. The
/// first piece ends at the place `cut`, or with the chain.
pub fn response_in_two_pieces(
    alloc: Global,
    response: &Response,
    ifs: u8,
    number: Number,
    cut: usize,
) -> Result<Response, AllocError>
    requires least { 1 ≤ ifs }
    requires most { ifs ≤ 254 }
    ensures { IfOk result (λ arrived. arrived ≡ response.now) }
{
    apdu_core::laws::one_value();
    apdu_core::laws::lengths();
    let chain = response_chain(alloc, response, ifs, number)?;
    let receiver = fed_in_two(alloc, chain.as_slice(), ifs, number, cut)?;
    match decode_response(alloc, receiver.message().unwrap()) {
        Ok(arrived) => Ok(arrived),
        Err(Refused::Memory) => Err(AllocError),
        Err(Refused::Stop(_)) => unreachable!(),
    }
}

/// Returns the octets that are sent for a command.
fn command_chain(
    alloc: Global,
    command: &Command,
    ifs: u8,
    number: Number,
) -> Result<Vec<u8>, AllocError>
    requires least { 1 ≤ ifs }
    requires most { ifs ≤ 254 }
    ensures { IfOk result (λ chain. (b : List ℕ) × IsCommand command.now b
        × (chain.items ≡ chain_of ifs number b)) }
{
    let mut line = Counted::new(Vec::new(alloc));
    match send_command(alloc, &mut line, command, ifs, number) {
        Ok(()) => Ok(line.into_inner()),
        Err(_) => Err(AllocError),
    }
}

/// Returns the octets that are sent for a response.
fn response_chain(
    alloc: Global,
    response: &Response,
    ifs: u8,
    number: Number,
) -> Result<Vec<u8>, AllocError>
    requires least { 1 ≤ ifs }
    requires most { ifs ≤ 254 }
    ensures { IfOk result (λ chain. (b : List ℕ) × IsResponse response.now b
        × (chain.items ≡ chain_of ifs number b)) }
{
    let mut line = Counted::new(Vec::new(alloc));
    match send_response(alloc, &mut line, response, ifs, number) {
        Ok(()) => Ok(line.into_inner()),
        Err(_) => Err(AllocError),
    }
}

/// Returns a receiver that was fed octets in two pieces. If they are the cut of a message, it is done, with this
/// message. The longest message of an APDU is that of a command.
fn fed_in_two(
    alloc: Global,
    chain: &[u8],
    ifs: u8,
    number: Number,
    cut: usize,
) -> Result<Receiver, AllocError>
    requires least { 1 ≤ ifs }
    requires most { ifs ≤ 254 }
    ensures { IfOk result (λ r. (b : List ℕ) → AreOctets b → length b ≤ longest_command
        → chain.now ≡ chain_of ifs number b → (r.refusal ≡ None) × (r.done ≡ true)
        × (r.joined ≡ b)) }
{
    chain_core::laws::taken();
    chain_core::laws::one_spelled();
    chain_core::laws::cut_is_a_chain();
    let mut receiver = Receiver::new(alloc, ifs, number, LONGEST_COMMAND)?;
    let (front, back) = chain.split_at(cut.min(chain.len()));
    let _front = receiver.feed(front);
    let _back = receiver.feed(back);
    Ok(receiver)
}
