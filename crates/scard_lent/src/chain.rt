//! Messages as chains of I-blocks (ISO/IEC 7816-3, clause 11.6).

ghost use Rattle.std.specs.Prelude.{◌≡◌, ◌≢◌, ◌≤◌, ◌<◌, length, drop, IfSome, IfNone};
ghost use Rattle.block_core.specs.Block.{IsBlock};
ghost use Rattle.chain_core.specs.Chain.{longest_message, spelling};
ghost use Rattle.chain_core.specs.Cut.{cut_of, leading_block};
ghost use Rattle.c_lent.specs.Verdict.{Puts, put_verdict, put_into, wrong_argument};
ghost use Rattle.c_lent.specs.Number.{number_of};
ghost use Rattle.octet_core.specs.Sizes.{IsReserved};

use c_lent::verdict::Verdict;

/// Encodes the first block of the chain that carries the message from offset `start` on.
///
/// Returns `ARGUMENT` with place 0 if `ifs` is 0 or 255, `ns` isn't 0 or 1, or `start` is past the end of the message.
#[unsafe(no_mangle)]
pub extern "C" fn scard_chain_block(
    message: &[u8],
    start: usize,
    ifs: u8,
    ns: u8,
    out: &mut [u8],
) -> Verdict
    ensures written { (IsReserved ifs → ⊥) → start ≤ length message.now →
        IfSome (number_of ns) (λ number.
        Puts (IsBlock 254 (leading_block ifs number (drop start message.now))) out.old out.new result) }
    ensures size { IsReserved ifs → result ≡ wrong_argument 0 }
    ensures number { IfNone (number_of ns) (result ≡ wrong_argument 0) }
    ensures start { length message.now < start → result ≡ wrong_argument 0 }
    ensures stays { result.status ≢ 0 → out.new ≡ out.old }
{
    c_lent::chain::chain_block(message, start, ifs, ns, out)
}

/// Encodes all blocks of the chain that carries a message of at most 131,072 octets. Each field except the last has
/// `ifs` octets. The first block has the number `ns`. The call allocates nothing.
///
/// Returns `ARGUMENT` with place 0 if `ifs` is 0 or 255, `ns` isn't 0 or 1, or the message is longer.
#[unsafe(no_mangle)]
pub extern "C" fn scard_chain_cut(message: &[u8], ifs: u8, ns: u8, out: &mut [u8]) -> Verdict
    ensures written { (IsReserved ifs → ⊥) → length message.now ≤ longest_message →
        IfSome (number_of ns) (λ number.
        (result ≡ put_verdict (spelling number (cut_of ifs message.now)) out.old)
        × (out.new ≡ put_into (spelling number (cut_of ifs message.now)) out.old)) }
    ensures size { IsReserved ifs → result ≡ wrong_argument 0 }
    ensures number { IfNone (number_of ns) (result ≡ wrong_argument 0) }
    ensures long { longest_message < length message.now → result ≡ wrong_argument 0 }
    ensures stays { result.status ≢ 0 → out.new ≡ out.old }
{
    c_lent::chain::chain_cut(message, ifs, ns, out)
}
