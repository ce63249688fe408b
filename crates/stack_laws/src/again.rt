//! Values that are encoded, and decoded from those octets.

ghost use Rattle.std.specs.Prelude.{◌≡◌, IfOk};

use apdu_core::{
    Command, Response, decode_command, decode_response, encode_command, encode_response,
};
use atr_core::Atr;
use block_core::Block;
use octet_core::Refused;
use std::alloc::{AllocError, Global};
use tlv_core::{Dol, Forest, LARGEST_FOREST};

/// Encodes a block and decodes the octets. The result is the block.
pub fn block_again(block: &Block) -> Block
    ensures { result ≡ block.now }
{
    block_core::laws::one_accepted();
    let octets = block_core::encode(block);
    match block_core::decode(octets.as_slice(), 254) {
        Ok((again, _)) => again,
        Err(_) => unreachable!(),
    }
}

/// Encodes an answer to reset and decodes the octets. The result is the answer to reset.
pub fn atr_again(atr: &Atr) -> Atr
    ensures { result ≡ atr.now }
{
    atr_core::laws::one_accepted();
    let octets = atr_core::encode(atr);
    match atr_core::decode(octets.as_slice()) {
        Ok((again, _)) => again,
        Err(_) => unreachable!(),
    }
}

/// Encodes a command and decodes the octets. The result is the command.
pub fn command_again(alloc: Global, command: &Command) -> Result<Command, AllocError>
    ensures { IfOk result (λ again. again ≡ command.now) }
{
    apdu_core::laws::one_value();
    let octets = encode_command(alloc, command)?;
    match decode_command(alloc, octets.as_slice()) {
        Ok(again) => Ok(again),
        Err(Refused::Memory) => Err(AllocError),
        Err(Refused::Stop(_)) => unreachable!(),
    }
}

/// Encodes a response and decodes the octets. The result is the response.
pub fn response_again(alloc: Global, response: &Response) -> Result<Response, AllocError>
    ensures { IfOk result (λ again. again ≡ response.now) }
{
    apdu_core::laws::one_value();
    let octets = encode_response(alloc, response)?;
    match decode_response(alloc, octets.as_slice()) {
        Ok(again) => Ok(again),
        Err(Refused::Memory) => Err(AllocError),
        Err(Refused::Stop(_)) => unreachable!(),
    }
}

/// Encodes a forest and decodes the octets. The result is the forest.
pub fn forest_again(alloc: Global, forest: &Forest) -> Result<Forest, AllocError>
    ensures { IfOk result (λ again. again ≡ forest.now) }
{
    tlv_core::laws::one_forest();
    let octets = tlv_core::encode(alloc, forest)?;
    match tlv_core::decode(alloc, octets.as_slice(), LARGEST_FOREST) {
        Ok(again) => Ok(again),
        Err(Refused::Memory) => Err(AllocError),
        Err(Refused::Stop(_)) => unreachable!(),
    }
}

/// Encodes a data object list and decodes the octets. The result is the list.
pub fn dol_again(alloc: Global, dol: &Dol) -> Result<Dol, AllocError>
    ensures { IfOk result (λ again. again ≡ dol.now) }
{
    tlv_core::laws::one_list();
    let octets = dol.encode(alloc)?;
    match Dol::decode(alloc, octets.as_slice()) {
        Ok(again) => Ok(again),
        Err(Refused::Memory) => Err(AllocError),
        Err(Refused::Stop(_)) => unreachable!(),
    }
}
