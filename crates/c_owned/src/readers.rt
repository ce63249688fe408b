//! Readers of octets that come in pieces, in handles.

ghost use Rattle.std.specs.Prelude.{◌≡◌, ◌≢◌, ◌≤◌, ◌<◌, Some, IfSome, IfNone};
ghost use Rattle.atr_core.specs.Taking.{nothing_taken as no_atr};
ghost use Rattle.block_core.specs.Taking.{nothing_taken as no_block};
ghost use Rattle.chain_core.specs.Chain.{longest_message};
ghost use Rattle.chain_core.specs.Taking.{nothing_taken as no_chain};
ghost use Rattle.tlv_core.specs.Forest.{largest};
ghost use Rattle.c_owned.specs.declared.engine.Engine.TheVariants.{InPieces};
ghost use Rattle.c_owned.specs.declared.reader.Reader.TheVariants.{Atr as AtrIn, Block as BlockIn, Chain as ChainIn};
ghost use Rattle.c_lent.specs.Verdict.{ok_at, no_memory, wrong_argument};
ghost use Rattle.c_lent.specs.Number.{number_of};
ghost use Rattle.octet_core.specs.Sizes.{IsReserved};
ghost use Rattle.c_owned.specs.Readers.{Feeds, Ends, AtrOf, GivesAtr, BlockOf, IsNewCheck};

use crate::ends::opened;
use crate::engine::Engine;
use crate::handle::Handle;
use crate::reader::Reader;
use atr_core::AtrReader;
use block_core::{BlockReader, encode};
use c_lent::atr::{self, CAtr};
use c_lent::block::{self, CBlock};
use c_lent::number::number_of;
use c_lent::output::put;
use c_lent::verdict::{OK, Verdict};
use chain_core::{LONGEST_MESSAGE, Receiver};
use octet_core::is_reserved;
use std::alloc::Global;
use tlv_core::{ForestCheck, LARGEST_FOREST};

/// Opens a reader of one answer to reset, and frees what the handle held.
pub fn atr_reader_open(alloc: Global, handle: &mut Handle) -> Verdict
    ensures ok { result.status ≡ 0 →
        (result ≡ ok_at 0) × (handle.new.engine ≡ Some (InPieces (AtrIn no_atr))) }
    ensures memory { result.status ≢ 0 → result ≡ no_memory }
    ensures stays { result.status ≢ 0 → handle.new.engine ≡ handle.old.engine }
{
    let reader = Reader::Atr(AtrReader::new());
    opened(alloc, handle, Engine::InPieces(reader))
}

/// Opens a reader of one block with an information size of 1 to 254, and frees what the handle held. `ARGUMENT` for 0
/// and 255.
pub fn block_reader_open(alloc: Global, handle: &mut Handle, ifs: u8) -> Verdict
    ensures ok { result.status ≡ 0 →
        (result ≡ ok_at 0) × (handle.new.engine ≡ Some (InPieces (BlockIn (no_block ifs)))) }
    ensures argument { IsReserved ifs → result ≡ wrong_argument 0 }
    ensures memory { (IsReserved ifs → ⊥) → result.status ≢ 0 → result ≡ no_memory }
    ensures stays { result.status ≢ 0 → handle.new.engine ≡ handle.old.engine }
{
    if is_reserved(ifs) {
        return Verdict::argument();
    }
    let reader = Reader::Block(BlockReader::new(ifs));
    opened(alloc, handle, Engine::InPieces(reader))
}

/// Opens a receiver of one chain with an information size of 1 to 254, and frees what the handle held. The first block
/// has the number `ns`. The message has at most `max` octets, and `max` is at most 131,072.
pub fn receiver_open(alloc: Global, handle: &mut Handle, ifs: u8, ns: u8, max: usize) -> Verdict
    ensures ok { result.status ≡ 0 → IfSome (number_of ns) (λ number.
        (result ≡ ok_at 0) × (handle.new.engine ≡ Some (InPieces (ChainIn (no_chain ifs number max))))) }
    ensures size { IsReserved ifs → result ≡ wrong_argument 0 }
    ensures number { IfNone (number_of ns) (result ≡ wrong_argument 0) }
    ensures long { longest_message < max → result ≡ wrong_argument 0 }
    ensures memory { (IsReserved ifs → ⊥) → IfSome (number_of ns) (λ _. max ≤ longest_message →
        result.status ≢ 0 → result ≡ no_memory) }
    ensures stays { result.status ≢ 0 → handle.new.engine ≡ handle.old.engine }
{
    if is_reserved(ifs) || max > LONGEST_MESSAGE {
        return Verdict::argument();
    }
    let Some(number) = number_of(ns) else {
        return Verdict::argument();
    };
    match Receiver::new(alloc, ifs, number, max) {
        Ok(receiver) => opened(alloc, handle, Engine::InPieces(Reader::Chain(receiver))),
        Err(_) => Verdict::memory(),
    }
}

/// Opens a check of a forest of at most `max` octets, and frees what the handle held. `ARGUMENT` if `max` is above
/// 1,048,576.
pub fn tlv_check_open(alloc: Global, handle: &mut Handle, max: usize) -> Verdict
    ensures ok { result.status ≡ 0 →
        (result ≡ ok_at 0) × IsNewCheck max handle.new.engine }
    ensures argument { largest < max → result ≡ wrong_argument 0 }
    ensures memory { max ≤ largest → result.status ≢ 0 → result ≡ no_memory }
    ensures stays { result.status ≢ 0 → handle.new.engine ≡ handle.old.engine }
{
    if max > LARGEST_FOREST {
        return Verdict::argument();
    }
    let check = Reader::Forest(ForestCheck::new(max));
    opened(alloc, handle, Engine::InPieces(check))
}

/// Feeds the next octets to a reader.
pub fn reader_feed(alloc: Global, handle: &mut Handle, piece: &[u8]) -> Verdict
    ensures { Feeds handle.old.engine piece.now handle.new.engine result }
{
    let Some(mut engine) = handle.take(alloc) else {
        return Verdict::argument();
    };
    let verdict = engine.feed(piece);
    handle.put(engine);
    verdict
}

/// Ends a reader, and returns the verdict on all octets that it was fed: `OK` with place 0 if they are complete,
/// `SHORT` at their end if they could continue, or the refusal.
pub fn reader_finish(alloc: Global, handle: &mut Handle) -> Verdict
    ensures answer { Ends handle.old.engine result }
    ensures stays { handle.new.engine ≡ handle.old.engine }
{
    let Some(engine) = handle.take(alloc) else {
        return Verdict::argument();
    };
    let verdict = engine.finish();
    handle.put(engine);
    verdict
}

/// Returns the answer to reset of a reader, once it is complete.
pub fn atr_reader_value(alloc: Global, handle: &mut Handle, out: &mut CAtr) -> Verdict
    ensures answer { AtrOf handle.old.engine out.old out.new result }
    ensures stays { handle.new.engine ≡ handle.old.engine }
{
    let Some(engine) = handle.take(alloc) else {
        return Verdict::argument();
    };
    let verdict = atr_value(&engine, out);
    handle.put(engine);
    verdict
}

fn atr_value(engine: &Engine, out: &mut CAtr) -> Verdict
    ensures { AtrOf (Some engine.now) out.old out.new result }
{
    match engine {
        Engine::InPieces(Reader::Atr(reader)) => answer_of(reader, out),
        _ => Verdict::argument(),
    }
}

fn answer_of(reader: &AtrReader, out: &mut CAtr) -> Verdict
    ensures { GivesAtr reader.now out.old out.new result }
{
    match reader.value() {
        Some(atr) => {
            atr::tell(atr, out);
            Verdict::ok(0)
        }
        None => Verdict::argument(),
    }
}

/// Returns the block of a reader, once it is complete, and copies its octets to a buffer.
pub fn block_reader_value(
    alloc: Global,
    handle: &mut Handle,
    out: &mut CBlock,
    octets: &mut [u8],
) -> Verdict
    ensures answer { BlockOf handle.old.engine out.old out.new octets.old octets.new result }
    ensures stays { handle.new.engine ≡ handle.old.engine }
{
    let Some(engine) = handle.take(alloc) else {
        return Verdict::argument();
    };
    let verdict = block_value(&engine, out, octets);
    handle.put(engine);
    verdict
}

fn block_value(engine: &Engine, out: &mut CBlock, octets: &mut [u8]) -> Verdict
    ensures { BlockOf (Some engine.now) out.old out.new octets.old octets.new result }
{
    let Engine::InPieces(Reader::Block(reader)) = engine else {
        return Verdict::argument();
    };
    let Some(block) = reader.value() else {
        return Verdict::argument();
    };
    let verdict = put(encode(block).as_slice(), octets);
    if verdict.status == OK {
        *out = block::seen(block.nad(), block.pcb(), block.inf());
    }
    verdict
}
