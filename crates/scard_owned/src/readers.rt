//! Readers of octets that come in pieces, in handles.

ghost use Rattle.std.specs.Prelude.{◌≡◌, ◌≢◌, ◌≤◌, ◌<◌, Some, IfSome, IfNone};
ghost use Rattle.atr_core.specs.Taking.{nothing_taken as no_atr};
ghost use Rattle.block_core.specs.Taking.{nothing_taken as no_block};
ghost use Rattle.chain_core.specs.Chain.{longest_message};
ghost use Rattle.chain_core.specs.Taking.{nothing_taken as no_chain};
ghost use Rattle.tlv_core.specs.Forest.{largest};
ghost use Rattle.c_owned.specs.declared.engine.Engine.TheVariants.{InPieces};
ghost use Rattle.c_owned.specs.declared.reader.Reader.TheVariants.{Atr as AtrIn, Block as BlockIn, Chain as ChainIn};
ghost use Rattle.c_lent.specs.Verdict.{ok_at, no_memory, wrong_argument};
ghost use Rattle.c_lent.specs.Number.{number_of};
ghost use Rattle.octet_core.specs.Sizes.{IsReserved};
ghost use Rattle.c_owned.specs.Readers.{Feeds, Ends, AtrOf, BlockOf, IsNewCheck};

use c_lent::atr::CAtr;
use c_lent::block::CBlock;
use c_lent::verdict::Verdict;
use c_owned::handle::Handle;
use std::alloc::Global;

/// Opens a reader of one answer to reset, and frees what the handle held. Unless the status is `OK`, the handle doesn't
/// change.
#[unsafe(no_mangle)]
pub extern "C" fn scard_atr_reader_open(alloc: Global, handle: &mut Handle) -> Verdict
    ensures ok { result.status ≡ 0 →
        (result ≡ ok_at 0) × (handle.new.engine ≡ Some (InPieces (AtrIn no_atr))) }
    ensures memory { result.status ≢ 0 → result ≡ no_memory }
    ensures stays { result.status ≢ 0 → handle.new.engine ≡ handle.old.engine }
{
    c_owned::readers::atr_reader_open(alloc, handle)
}

/// Opens a reader of one block with an information size of 1 to 254, and frees what the handle held. Returns `ARGUMENT`
/// for 0 and 255. Unless the status is `OK`, the handle doesn't change.
#[unsafe(no_mangle)]
pub extern "C" fn scard_block_reader_open(alloc: Global, handle: &mut Handle, ifs: u8) -> Verdict
    ensures ok { result.status ≡ 0 →
        (result ≡ ok_at 0) × (handle.new.engine ≡ Some (InPieces (BlockIn (no_block ifs)))) }
    ensures argument { IsReserved ifs → result ≡ wrong_argument 0 }
    ensures memory { (IsReserved ifs → ⊥) → result.status ≢ 0 → result ≡ no_memory }
    ensures stays { result.status ≢ 0 → handle.new.engine ≡ handle.old.engine }
{
    c_owned::readers::block_reader_open(alloc, handle, ifs)
}

/// Opens a receiver of one chain with an information size of 1 to 254, and frees what the handle held. The first block
/// has the number `ns`. The message has at most `max` octets, and `max` is at most 131,072. The call reserves the
/// memory for the message. Returns `ARGUMENT` for any other argument. Unless the status is `OK`, the handle doesn't
/// change.
#[unsafe(no_mangle)]
pub extern "C" fn scard_receiver_open(
    alloc: Global,
    handle: &mut Handle,
    ifs: u8,
    ns: u8,
    max: usize,
) -> Verdict
    ensures ok { result.status ≡ 0 → IfSome (number_of ns) (λ number.
        (result ≡ ok_at 0) × (handle.new.engine ≡ Some (InPieces (ChainIn (no_chain ifs number max))))) }
    ensures size { IsReserved ifs → result ≡ wrong_argument 0 }
    ensures number { IfNone (number_of ns) (result ≡ wrong_argument 0) }
    ensures long { longest_message < max → result ≡ wrong_argument 0 }
    ensures memory { (IsReserved ifs → ⊥) → IfSome (number_of ns) (λ _. max ≤ longest_message →
        result.status ≢ 0 → result ≡ no_memory) }
    ensures stays { result.status ≢ 0 → handle.new.engine ≡ handle.old.engine }
{
    c_owned::readers::receiver_open(alloc, handle, ifs, ns, max)
}

/// Opens a check of a forest of at most `max` octets, and frees what the handle held. Returns `ARGUMENT` if `max` is
/// above 1,048,576. Unless the status is `OK`, the handle doesn't change.
#[unsafe(no_mangle)]
pub extern "C" fn scard_tlv_check_open(alloc: Global, handle: &mut Handle, max: usize) -> Verdict
    ensures ok { result.status ≡ 0 →
        (result ≡ ok_at 0) × IsNewCheck max handle.new.engine }
    ensures argument { largest < max → result ≡ wrong_argument 0 }
    ensures memory { max ≤ largest → result.status ≢ 0 → result ≡ no_memory }
    ensures stays { result.status ≢ 0 → handle.new.engine ≡ handle.old.engine }
{
    c_owned::readers::tlv_check_open(alloc, handle, max)
}

/// Feeds the next octets to a reader. `OK`: its value is complete. It took `place` octets of this piece, and not those
/// after them. `MORE`: the reader took them all. `AT`: the octet at `place`, counted from the first that was ever fed,
/// is refused. Later calls refuse it again. `ARGUMENT`: the handle holds no reader.
#[unsafe(no_mangle)]
pub extern "C" fn scard_reader_feed(alloc: Global, handle: &mut Handle, piece: &[u8]) -> Verdict
    ensures { Feeds handle.old.engine piece.now handle.new.engine result }
{
    c_owned::readers::reader_feed(alloc, handle, piece)
}

/// Ends a reader, and returns the verdict on all octets that it was fed: `OK` with place 0 if they are complete,
/// `SHORT` at their end if they could continue, or the refusal. `ARGUMENT`: the handle holds no reader.
#[unsafe(no_mangle)]
pub extern "C" fn scard_reader_finish(alloc: Global, handle: &mut Handle) -> Verdict
    ensures answer { Ends handle.old.engine result }
    ensures stays { handle.new.engine ≡ handle.old.engine }
{
    c_owned::readers::reader_finish(alloc, handle)
}

/// Returns the answer to reset of a reader, once it is complete. Returns `ARGUMENT` with place 0 if there is none.
#[unsafe(no_mangle)]
pub extern "C" fn scard_atr_reader_value(
    alloc: Global,
    handle: &mut Handle,
    out: &mut CAtr,
) -> Verdict
    ensures answer { AtrOf handle.old.engine out.old out.new result }
    ensures stays { handle.new.engine ≡ handle.old.engine }
{
    c_owned::readers::atr_reader_value(alloc, handle, out)
}

/// Returns the block of a reader, once it is complete, and copies its octets to a buffer. Returns `ARGUMENT` with place
/// 0 if there is no block, and with the number of its octets if the buffer is too small.
#[unsafe(no_mangle)]
pub extern "C" fn scard_block_reader_value(
    alloc: Global,
    handle: &mut Handle,
    out: &mut CBlock,
    octets: &mut [u8],
) -> Verdict
    ensures answer { BlockOf handle.old.engine out.old out.new octets.old octets.new result }
    ensures stays { handle.new.engine ≡ handle.old.engine }
{
    c_owned::readers::block_reader_value(alloc, handle, out, octets)
}
