//! What the program prints about a chain.

ghost use Rattle.std.specs.Prelude.{◌≡◌, ◌++◌, ℕ, List, length, true, None, refl, IfOk, IfErr, OnOk, string_bytes};
ghost use Rattle.octet_core.specs.Grammar.{self_ended, RefusesUnlessMemory};
ghost use Rattle.chain_core.specs.Chain.{chain_blocks, message_of, IsChain, IsReason};
ghost use Rattle.chain_core.specs.Cut.{cut_of};
ghost use Rattle.hex.specs.Hex.{encode_upper};
ghost use Rattle.block_core.specs.Block.{spelling};
ghost use Rattle.program_octets.specs.Places.{ranges_in};
ghost use Rattle.program_octets.specs.ChainTexts.{blocks_text, chain_codec, joined_members, joined_rows, longest_message, IsReceived};

use crate::codec::{Codec, Outcome};
use crate::places::Place;
use crate::rows::Rows;
use crate::shown::{Showable, Shown};
use crate::text::push_hex;
use block_core::{Block, Number, encode};
use chain_core::{ChainReason, LONGEST_MESSAGE, Receiver, cut};
use layouts::Layout;
use notes::{CountNote, NoNote, chain_refusal_note};
use octet_core::{Refused, Stop};
use program_words::{Expected, FieldSize};
use std::alloc::{AllocError, Global};

impl Codec for Receiver {
    type Reason = ChainReason;

    ghost Value = { List (List ℕ) };

    ghost codec = { λ expected. chain_codec expected.ifs expected.number };

    ghost named = { λ _. refl };

    fn taken(alloc: Global, octets: &[u8], expected: Expected) -> Outcome<usize, ChainReason> {
        let (_, taken) = received(alloc, octets, expected.ifs, expected.number)?;
        Ok(taken)
    }

    fn shown(
        alloc: Global,
        octets: &[u8],
        expected: Expected,
        layout: Layout,
        noted: bool,
    ) -> Outcome<Shown, ChainReason> {
        let (receiver, taken) = received(alloc, octets, expected.ifs, expected.number)?;
        let joined = Joined::of(&receiver, octets);
        Ok(Shown::of(alloc, &joined, taken, expected.kind, layout, noted)?)
    }

    fn refusal_note(
        alloc: Global,
        octets: &[u8],
        stop: Stop<ChainReason>,
        ifs: FieldSize,
    ) -> Result<String, AllocError> {
        chain_refusal_note(alloc, octets, stop, ifs.get())
    }
}

/// The number of blocks of a chain, its message, and octets with the chain at their front.
#[derive(Clone, Copy)]
struct Joined<'a> {
    blocks: u32,
    message: &'a [u8],
    octets: &'a [u8],
}

impl Showable for Joined<'_> {
    ghost rows = { λ joined n. joined_rows joined.blocks joined.message.now
        (ranges_in joined.blocks 0 joined.octets.now) n };

    ghost members = { λ joined. joined_members joined.blocks joined.message.now };

    fn push_rows(&self, to: &mut Rows, taken: usize) -> Result<(), AllocError> {
        let blocks = self.blocks as usize;
        let count = CountNote {
            count: self.message.len(),
        };
        to.push_number("blocks ", blocks, &NoNote, &Place::Range(0, taken))?;
        let fields = Place::Fields(self.blocks, self.octets);
        to.push_word("message ", self.message, &count, &fields)
    }

    fn push_members(&self, _alloc: Global, text: &mut String) -> Result<(), AllocError> {
        write!(text, ",\"blocks\":{},\"message\":\"", self.blocks)?;
        push_hex(text, self.message)?;
        text.push_str("\"")
    }
}

impl<'a> Joined<'a> {
    /// Returns the blocks and the message of a receiver that has taken the chain at the front of the octets.
    fn of(receiver: &'a Receiver, octets: &'a [u8]) -> Joined<'a>
        ensures joined { (fields : List (List ℕ)) → receiver.now.blocks ≡ length fields
            → receiver.now.joined ≡ message_of fields → receiver.now.done ≡ true
            → receiver.now.refusal ≡ None
            → (result.blocks ≡ length fields) × (result.message.now ≡ message_of fields) }
        ensures octets { result.octets.now ≡ octets.now }
    {
        Joined {
            blocks: receiver.blocks(),
            message: receiver.message().unwrap_or(&[]),
            octets,
        }
    }
}

/// Returns a receiver that has taken the chain at the front of the octets, and the chain's length.
fn received(
    alloc: Global,
    octets: &[u8],
    ifs: FieldSize,
    number: Number,
) -> Result<(Receiver, usize), Refused<ChainReason>>
    ensures found { IfOk result (λ x. IsReceived ifs number octets.now x.0 x.1) }
    ensures refused { IfErr result
        (RefusesUnlessMemory self_ended (IsChain ifs number longest_message)
        (IsReason ifs number longest_message) octets.now) }
{
    let Ok(mut receiver) = Receiver::new(alloc, ifs.get(), number, LONGEST_MESSAGE) else {
        return Err(Refused::Memory);
    };
    match receiver.feed(octets) {
        Ok((taken, true)) => Ok((receiver, taken)),
        Ok((_, false)) => Err(Refused::Stop(Stop::Short {
            place: octets.len(),
        })),
        Err(stop) => Err(Refused::Stop(stop)),
    }
}

/// Returns the blocks of the chain that carries a message, one in a line.
pub fn blocks(
    alloc: Global,
    message: &[u8],
    ifs: FieldSize,
    number: Number,
) -> Result<String, AllocError>
    ensures { IfOk result (λ text.
        string_bytes text ≡ blocks_text (chain_blocks number (cut_of ifs message.now))) }
{
    let mut lines = String::new(alloc);
    for block in cut(message, ifs.get(), number) {
        push_block(&mut lines, &block)?;
        lines.push_str("\n")?;
    }
    Ok(lines)
}

/// Appends the octets of a block.
fn push_block(lines: &mut String, block: &Block) -> Result<(), AllocError>
    ensures { OnOk result (string_bytes lines.new
        ≡ string_bytes lines.old ++ encode_upper (spelling block.now)) }
{
    push_hex(lines, encode(block).as_slice())
}
