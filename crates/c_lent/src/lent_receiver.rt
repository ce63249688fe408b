//! A receiver of a chain without an allocator (ISO/IEC 7816-3, clause 11.6). The caller keeps the state, and passes it
//! and the message's buffer to each call.

ghost use Rattle.std.specs.Prelude.{◌≡◌, ◌≢◌, ◌≤◌, ◌<◌, ℕ, List, length, IfSome, IfNone};
ghost use Rattle.chain_core.specs.Chain.{longest_message};
ghost use Rattle.chain_core.specs.Taking.{Taking, nothing_taken};
ghost use Rattle.c_lent.specs.Verdict.{ok_at, wrong_argument};
ghost use Rattle.c_lent.specs.Number.{number_of};
ghost use Rattle.octet_core.specs.Sizes.{IsReserved};
ghost use Rattle.c_lent.specs.Lent.{IsAtFront};
ghost use Rattle.c_lent.specs.KeptReceiver.{IsReceiver};
ghost use Rattle.c_lent.specs.Turns.{joined_of};
ghost use Rattle.c_lent.specs.LentReceiver.{ReceiverFed, ReceiverRestarted, ReceiverEnded};

use crate::kept_receiver::CReceiver;
use crate::number::number_of;
use crate::verdict::Verdict;
use chain_core::{LONGEST_MESSAGE, LentReceiver, overwrite};
use octet_core::is_reserved;

/// Begins a receiver of one chain with an information size of 1 to 254. The first block has the number `ns`. The
/// message has at most `max` octets, and `max` is at most 131,072. The state may have any value before.
pub fn lent_receiver_begin(state: &mut CReceiver, ifs: u8, ns: u8, max: usize) -> Verdict
    ensures ok { (IsReserved ifs → ⊥)
        → IfSome (number_of ns) (λ number. max ≤ longest_message → (result ≡ ok_at 0) ×
        ((message : List ℕ) → max ≤ length message → IsReceiver state.new message (nothing_taken ifs number max))) }
    ensures size { IsReserved ifs → result ≡ wrong_argument 0 }
    ensures number { IfNone (number_of ns) (result ≡ wrong_argument 0) }
    ensures long { longest_message < max → result ≡ wrong_argument 0 }
    ensures stays { result.status ≢ 0 → state.new ≡ state.old }
{
    if is_reserved(ifs) || max > LONGEST_MESSAGE {
        return Verdict::argument();
    }
    let Some(number) = number_of(ns) else {
        return Verdict::argument();
    };
    *state = CReceiver::of(&LentReceiver::begin(ifs, number, max as u32));
    Verdict::ok(0)
}

/// Feeds the next octets to a receiver, which copies those of the message to the front of the buffer.
pub fn lent_receiver_feed(state: &mut CReceiver, message: &mut [u8], piece: &[u8]) -> Verdict
    ensures { ReceiverFed state.old message.old piece.now state.new message.new result }
{
    let Some(mut receiver) = state.fitting(message.len()) else {
        return Verdict::argument();
    };
    let answer = receiver.feed(message, piece);
    *state = CReceiver::of(&receiver);
    Verdict::fed(answer)
}

/// Restarts a receiver. The first block has this number; the information size and the limit stay. Each octet of the
/// buffer is set to 0.
pub fn lent_receiver_restart(state: &mut CReceiver, message: &mut [u8], ns: u8) -> Verdict
    ensures { ReceiverRestarted state.old message.old (number_of ns) state.new message.new result }
{
    let Some(receiver) = state.fitting(message.len()) else {
        return Verdict::argument();
    };
    let Some(number) = number_of(ns) else {
        return Verdict::argument();
    };
    overwrite(message);
    *state = CReceiver::of(&LentReceiver::begin(receiver.ifs, number, receiver.max));
    Verdict::ok(0)
}

/// Ends a receiver, and returns the verdict on all octets that it was fed: `OK` with place 0 if they are a chain,
/// `SHORT` at their end if a chain could continue, or the refusal.
pub fn lent_receiver_finish(state: &CReceiver, message: &[u8]) -> Verdict
    ensures { ReceiverEnded state.now message.now result }
{
    match state.fitting(message.len()) {
        Some(receiver) => Verdict::ended(receiver.finish()),
        None => Verdict::argument(),
    }
}

/// Returns how many octets at the front of the buffer are the message, once the chain is complete.
pub fn lent_receiver_message(state: &CReceiver, message: &[u8]) -> Verdict
    ensures message { (r : Taking) → IsReceiver state.now message.now r
        → IsAtFront (joined_of r) message.now result }
    ensures none { ((r : Taking) → IsReceiver state.now message.now r → ⊥)
        → result ≡ wrong_argument 0 }
{
    let Some(receiver) = state.fitting(message.len()) else {
        return Verdict::argument();
    };
    match receiver.message_len() {
        Some(count) => Verdict::ok(count),
        None => Verdict::argument(),
    }
}
