//! A receiver of a chain without an allocator (ISO/IEC 7816-3, clause 11.6). The caller keeps the state, and passes it
//! and the message's buffer to each call.

ghost use Rattle.std.specs.Prelude.{◌≡◌, ◌≢◌, ◌≤◌, ◌<◌, ℕ, List, length, IfSome, IfNone};
ghost use Rattle.chain_core.specs.Chain.{longest_message};
ghost use Rattle.chain_core.specs.Taking.{Taking, nothing_taken};
ghost use Rattle.c_lent.specs.Verdict.{ok_at, wrong_argument};
ghost use Rattle.c_lent.specs.Number.{number_of};
ghost use Rattle.octet_core.specs.Sizes.{IsReserved};
ghost use Rattle.c_lent.specs.Lent.{IsAtFront};
ghost use Rattle.c_lent.specs.KeptReceiver.{IsReceiver};
ghost use Rattle.c_lent.specs.Turns.{joined_of};
ghost use Rattle.c_lent.specs.LentReceiver.{ReceiverFed, ReceiverRestarted, ReceiverEnded};

use c_lent::kept_receiver::CReceiver;
use c_lent::verdict::Verdict;

/// Begins a receiver of one chain with an information size of 1 to 254. The first block has the number `ns`. The
/// message has at most `max` octets, and `max` is at most 131,072. The state may have any value before. The buffer of
/// each later call must have room for `max` octets. Returns `ARGUMENT` for any other argument. Then nothing changes.
#[unsafe(no_mangle)]
pub extern "C" fn scard_lent_receiver_begin(
    state: &mut CReceiver,
    ifs: u8,
    ns: u8,
    max: usize,
) -> Verdict
    ensures ok { (IsReserved ifs → ⊥)
        → IfSome (number_of ns) (λ number. max ≤ longest_message → (result ≡ ok_at 0) ×
        ((message : List ℕ) → max ≤ length message → IsReceiver state.new message (nothing_taken ifs number max))) }
    ensures size { IsReserved ifs → result ≡ wrong_argument 0 }
    ensures number { IfNone (number_of ns) (result ≡ wrong_argument 0) }
    ensures long { longest_message < max → result ≡ wrong_argument 0 }
    ensures stays { result.status ≢ 0 → state.new ≡ state.old }
{
    c_lent::lent_receiver::lent_receiver_begin(state, ifs, ns, max)
}

/// Feeds the next octets to a receiver, which copies those of the message to the front of the buffer.
///
/// `OK`: the chain is complete. It took `place` octets of this piece, and not those after them. `MORE`: the receiver
/// took them all. `AT`: the octet at `place`, counted from the first that was ever fed, is refused. Later calls refuse
/// it again. `ARGUMENT`: the state and the buffer aren't a receiver, and nothing changes.
#[unsafe(no_mangle)]
pub extern "C" fn scard_lent_receiver_feed(
    state: &mut CReceiver,
    message: &mut [u8],
    piece: &[u8],
) -> Verdict
    ensures { ReceiverFed state.old message.old piece.now state.new message.new result }
{
    c_lent::lent_receiver::lent_receiver_feed(state, message, piece)
}

/// Restarts a receiver. The first block has this number; the information size and the limit stay. Each octet of the
/// buffer is set to 0. Returns `ARGUMENT` if `ns` isn't 0 or 1, or if the state and the buffer aren't a receiver. Then
/// nothing changes.
#[unsafe(no_mangle)]
pub extern "C" fn scard_lent_receiver_restart(
    state: &mut CReceiver,
    message: &mut [u8],
    ns: u8,
) -> Verdict
    ensures { ReceiverRestarted state.old message.old (number_of ns) state.new message.new result }
{
    c_lent::lent_receiver::lent_receiver_restart(state, message, ns)
}

/// Ends a receiver, and returns the verdict on all octets that it was fed: `OK` with place 0 if they are a chain,
/// `SHORT` at their end if a chain could continue, or the refusal. `ARGUMENT`: the state and the buffer aren't a
/// receiver.
#[unsafe(no_mangle)]
pub extern "C" fn scard_lent_receiver_finish(state: &CReceiver, message: &[u8]) -> Verdict
    ensures { ReceiverEnded state.now message.now result }
{
    c_lent::lent_receiver::lent_receiver_finish(state, message)
}

/// Returns how many octets at the front of the buffer are the message, once the chain is complete. Returns `ARGUMENT`
/// if it isn't.
#[unsafe(no_mangle)]
pub extern "C" fn scard_lent_receiver_message(state: &CReceiver, message: &[u8]) -> Verdict
    ensures message { (r : Taking) → IsReceiver state.now message.now r
        → IsAtFront (joined_of r) message.now result }
    ensures none { ((r : Taking) → IsReceiver state.now message.now r → ⊥)
        → result ≡ wrong_argument 0 }
{
    c_lent::lent_receiver::lent_receiver_message(state, message)
}
