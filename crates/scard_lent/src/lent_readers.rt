//! Readers of one block and of one answer to reset that come in pieces. The caller keeps the state, and nothing is
//! allocated.

ghost use Rattle.std.specs.Prelude.{◌≡◌, ◌≢◌, []};
ghost use Rattle.octet_core.specs.Sizes.{IsReserved};
ghost use Rattle.c_lent.specs.Verdict.{ok_at, wrong_argument};
ghost use Rattle.c_lent.specs.LentReaders.{atr_held, block_held, AtrFed, AtrEnded, AtrGiven, BlockFed, BlockEnded, BlockGiven};

use c_lent::atr::CAtr;
use c_lent::block::CBlock;
use c_lent::lent_readers::{CAtrReader, CBlockReader};
use c_lent::verdict::Verdict;

/// Begins a reader of one block (ISO/IEC 7816-3, clause 11.3) with an information size of 1 to 254. The state may have
/// any value before. Returns `ARGUMENT` for 0 and 255. Then nothing changes.
#[unsafe(no_mangle)]
pub extern "C" fn scard_lent_block_reader_begin(state: &mut CBlockReader, ifs: u8) -> Verdict
    ensures ok { (IsReserved ifs → ⊥)
        → (result ≡ ok_at 0) × (state.new.ifs ≡ ifs) × (block_held state.new ≡ []) }
    ensures argument { IsReserved ifs → result ≡ wrong_argument 0 }
    ensures stays { result.status ≢ 0 → state.new ≡ state.old }
{
    c_lent::lent_readers::lent_block_reader_begin(state, ifs)
}

/// Feeds the next octets to a reader of a block. Any state is a reader, unless its information size is 0 or 255.
///
/// `OK`: the block is complete. It took `place` octets of this piece, and not those after them. Later calls take none.
/// `MORE`: the reader took them all. `AT`: no block continues after the octet at `place`, counted from the first that
/// was ever fed. Later calls refuse it again. `ARGUMENT`: the information size is 0 or 255, and nothing changes.
#[unsafe(no_mangle)]
pub extern "C" fn scard_lent_block_reader_feed(state: &mut CBlockReader, piece: &[u8]) -> Verdict
    ensures { BlockFed state.old piece.now state.new result }
{
    c_lent::lent_readers::lent_block_reader_feed(state, piece)
}

/// Ends a reader of a block, and returns the verdict on all octets that it was fed: `OK` with place 0 if they are a
/// block, `SHORT` at their end if a block could continue, or the refusal. `ARGUMENT`: the information size is 0 or 255.
#[unsafe(no_mangle)]
pub extern "C" fn scard_lent_block_reader_finish(state: &CBlockReader) -> Verdict
    ensures { BlockEnded state.now result }
{
    c_lent::lent_readers::lent_block_reader_finish(state)
}

/// Returns the block of a reader, once it is complete. The place of `OK` is the length of the block: its octets are at
/// the front of `octets` of the state, and the struct's places count from there. Returns `ARGUMENT` with place 0 if the
/// block isn't complete.
#[unsafe(no_mangle)]
pub extern "C" fn scard_lent_block_reader_value(state: &CBlockReader, out: &mut CBlock) -> Verdict
    ensures { BlockGiven state.now out.old out.new result }
{
    c_lent::lent_readers::lent_block_reader_value(state, out)
}

/// Begins a reader of one answer to reset (ISO/IEC 7816-3, clause 8.2). The state may have any value before.
#[unsafe(no_mangle)]
pub extern "C" fn scard_lent_atr_reader_begin(state: &mut CAtrReader)
    ensures { atr_held state.new ≡ [] }
{
    c_lent::lent_readers::lent_atr_reader_begin(state);
}

/// Feeds the next octets to a reader of an answer to reset. Any state is a reader.
///
/// `OK`: the answer is complete. It took `place` octets of this piece, and not those after them. Later calls take none.
/// `MORE`: the reader took them all. `AT`: no answer continues after the octet at `place`, counted from the first that
/// was ever fed. Later calls refuse it again.
#[unsafe(no_mangle)]
pub extern "C" fn scard_lent_atr_reader_feed(state: &mut CAtrReader, piece: &[u8]) -> Verdict
    ensures { AtrFed state.old piece.now state.new result }
{
    c_lent::lent_readers::lent_atr_reader_feed(state, piece)
}

/// Ends a reader of an answer to reset, and returns the verdict on all octets that it was fed: `OK` with place 0 if
/// they are an answer, `SHORT` at their end if an answer could continue, or the refusal.
#[unsafe(no_mangle)]
pub extern "C" fn scard_lent_atr_reader_finish(state: &CAtrReader) -> Verdict
    ensures { AtrEnded state.now result }
{
    c_lent::lent_readers::lent_atr_reader_finish(state)
}

/// Returns the answer to reset of a reader, once it is complete. The place of `OK` is the length of the answer: its
/// octets are at the front of `octets` of the state. Returns `ARGUMENT` with place 0 if the answer isn't complete.
#[unsafe(no_mangle)]
pub extern "C" fn scard_lent_atr_reader_value(state: &CAtrReader, out: &mut CAtr) -> Verdict
    ensures { AtrGiven state.now out.old out.new result }
{
    c_lent::lent_readers::lent_atr_reader_value(state, out)
}
