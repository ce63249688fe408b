//! Reading of a chain from a source.

ghost use Rattle.std.specs.Prelude.{◌≡◌, length, true, None, IfSome, IfNone};
ghost use Rattle.std.specs.Io.KnownBytes.{Keeps};
ghost use Rattle.octet_core.specs.Failures.{next_count};
ghost use Rattle.octet_core.specs.declared.stop.Refusal.{Refusal};
ghost use Rattle.chain_core.specs.declared.reason.ChainReason.{ChainReason};
ghost use Rattle.chain_core.specs.Taking.{IsOpen};
ghost use Rattle.chain_core.specs.Reads.{Reads, CountsFault};
ghost use Rattle.chain_core.specs.Moving.{MovesOn};

use crate::reason::ChainReason;
use crate::receiver::Receiver;
use octet_core::{Source, Stop};
use std::error::Error;
use std::fmt::{self, Display, Formatter, Write};

/// Why no whole chain was read.
#[derive(Clone, Copy, Debug, PartialEq, Eq)]
pub enum ReadRefusal {
    /// The source failed after `taken` octets of this call, which the receiver has taken. An interruption is
    /// a failure too.
    Read { taken: usize },
    /// The chain was refused, or the source ended before the chain was whole.
    Stop(Stop<ChainReason>),
}

/// Writes `Read after N octets`, or the stop.
impl Display for ReadRefusal {
    ghost use Rattle.chain_core.specs.Names.{read_refusal_text};

    ghost output = { read_refusal_text };

    fn fmt<W: Write>(&self, f: &mut Formatter<W>) -> fmt::Result {
        match self {
            ReadRefusal::Read { taken } => write!(f, "Read after {taken} octets"),
            ReadRefusal::Stop(stop) => Display::fmt(stop, f),
        }
    }
}

impl Error for ReadRefusal {}

/// The most octets that one call of a source is asked for: the longest field and the LRC.
const MOST_WANTED: usize = 255;

/// Reads a chain (ISO/IEC 7816-3, clause 11.6) to its end, after what the receiver took before.
///
/// The source is asked for NAD, PCB and LEN of a block, and then for LEN + 1 octets, or for the rest of
/// either. So what follows the chain stays unread.
///
/// The error is `Read` if a call of the source failed. The call isn't retried: the receiver has taken the
/// `taken` octets, and a further call continues from there.
///
/// It is `Short` if the source ended, with the number of octets of the chain before the end. The receiver
/// has taken all of them.
///
/// It is `At` the first octet after which no chain can continue, with the reason. Its place counts from the
/// first octet that was fed since the receiver was new or restarted. The receiver keeps this refusal. No
/// octet was read past the first three of the refused block, or past the refused octet.
///
/// If the receiver is already done, the result is `Ok(())`. If it has refused an octet, the result is that
/// refusal. Nothing is read in either case.
pub fn read_chain<R: Source>(reader: &mut R, receiver: &mut Receiver) -> Result<(), ReadRefusal>
    ensures reads { Reads (R.remaining reader.old) (R.remaining reader.new) receiver.old
        receiver.new result }
    ensures counted { CountsFault result (R.failures reader.old) (R.failures reader.new) }
    ensures kept { (receiver.new.ifs ≡ receiver.old.ifs)
        × (receiver.new.number ≡ receiver.old.number) × (receiver.new.max ≡ receiver.old.max) }

    ensures done { receiver.old.refusal ≡ None → receiver.old.done ≡ true → (result ≡ Ok tt)
        × (reader.new ≡ reader.old) × (receiver.new ≡ receiver.old) }
    ensures repeated { (refusal : Refusal ChainReason) → receiver.old.refusal ≡ Some refusal
        → (result ≡ Err (ReadRefusal.Stop (Stop.At refusal.place refusal.reason)))
        × (reader.new ≡ reader.old) × (receiver.new ≡ receiver.old) }
{
    let mut room = [0; MOST_WANTED];
    let mut taken = 0;
    while receiver.is_open() {
        match read_some(reader, receiver, &mut room) {
            Some(0) => break,
            Some(count) => taken += count,
            None => return Err(ReadRefusal::Read { taken }),
        }
    }
    receiver.finish().map_err(ReadRefusal::Stop)
}

/// Reads octets of the unfinished block by one call, and feeds them to the receiver. Returns how many octets
/// were read, 0 at the end of the input, or `None` if the call fails.
fn read_some<R: Source>(reader: &mut R, receiver: &mut Receiver, room: &mut [u8]) -> Option<usize>
    requires open { IsOpen receiver.old }
    requires room { length room.old ≡ 255 }
    ensures moved { IfSome result (λ count.
        MovesOn (R.remaining reader.old) (R.remaining reader.new) receiver.old receiver.new count) }
    ensures none_failed { IfSome result (λ count. R.failures reader.new ≡ R.failures reader.old) }

    ensures nothing { IfNone result
        (Keeps (R.remaining reader.old) (R.remaining reader.new) × (receiver.new ≡ receiver.old)) }
    ensures failed { IfNone result (R.failures reader.new ≡ next_count (R.failures reader.old)) }
{
    let room = &mut room[..receiver.wanted()];
    match reader.read(room) {
        Ok(0) => Some(0),
        Ok(count) => {
            let _fed = receiver.feed(&room[..count]);
            Some(count)
        }
        Err(_) => None,
    }
}
