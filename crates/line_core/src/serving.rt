//! A card that serves what comes over a line.

ghost use Rattle.std.specs.Prelude.{◌≡◌, ◌≤◌, ℕ, List, [], ◌∷◌, length, true, IfOk};
ghost use Rattle.t1_core.specs.Came.{class_of};
ghost use Rattle.t1_core.specs.Card.{takes, replies, host as owes, card_turn, turn_of, state_after};
ghost use Rattle.line_core.specs.declared.serving.ServeFault.TheVariants.{Refused};
ghost use Rattle.line_core.specs.Line.{FitsRoom, arrival_of};
ghost use Rattle.line_core.specs.Service.{Event, came, asked, sending, on_line, at_host, is_short, reply_by, IsReplyTo, Happens, hears, Serves, IsRound, IsAnswer, IsReply, ending_of, doing_by};

use crate::exchanging::LONGEST_ARRIVAL;
use crate::line::Received;
use block_core::LONGEST_BLOCK;
use std::error::Error;
use std::fmt::{self, Display, Formatter, Write};
use std::io;
use t1_core::{Card, CardFault, EncodedCardTurn};

/// No command of ISO/IEC 7816-4 has fewer octets: CLA, INS, P1 and P2 (clause 5.1).
const SHORTEST_COMMAND: usize = 4;

/// The reply to a message that is too short for a command: SW 6700, wrong length (ISO/IEC 7816-4, clause 5.1.3).
const WRONG_LENGTH: &[u8] = &[0x67, 0x00];

/// The line of a card, as a card or a simulator of one has it.
///
/// Contracts see the events on the line since an earlier state of it, as for a [`TerminalLine`](crate::TerminalLine). A
/// line about which nothing is known, such as a device, has a `said` that always holds: `λ _ _ _. Unit {0}`.
pub trait CardLine {
    /// Whether these may be the events on the line since an earlier state, the second argument.
    ghost said: { Self → Self → List Event → Type 0 };

    /// Waits for the next block without a limit, and takes it into the buffer. `Nothing` says that no more comes, for
    /// example because the card's power is off.
    fn receive(&mut self, room: &mut [u8]) -> io::Result<Received>
        requires { 259 ≤ length room.old }
        ensures fits { IfOk result (λ heard. FitsRoom heard room.new) }
        ensures said { Happens (said self.old) (said self.new)
            (came (arrival_of result room.new) ∷ []) };

    /// Sends the octets of a block, 4 to 258.
    fn send(&mut self, block: &[u8]) -> io::Result<()>
        ensures { Happens (said self.old) (said self.new) (sending block.now result ∷ []) };
}

/// The application of a card: what acts on its commands.
///
/// Contracts see the commands since an earlier state of the host, each with its reply. If nothing is known about them,
/// `served` always holds: `λ _ _ _. Unit {0}`.
pub trait Host {
    /// Whether these may be the commands and replies since an earlier state, the second argument.
    ghost served: { Self → Self → List Event → Type 0 };

    /// The reply to the last command.
    ghost reply: { Self → List ℕ };

    /// Acts on a command.
    fn act(&mut self, command: &[u8])
        ensures { Happens (served self.old) (served self.new)
            (asked true command.now (reply self.new) ∷ []) };

    /// Returns the reply to the last command, with its status bytes: at most 65,538 octets.
    fn reply(&self) -> &[u8]
        ensures { result.now ≡ reply self.now };
}

/// Why a card stopped serving.
#[derive(Debug, Drop)]
pub enum ServeFault {
    /// The line failed.
    Line(io::Error),
    /// As many blocks came as the caller allows, and each was answered.
    UsedUp,
    /// The card refused what came, as `Order` if its host still owes a reply, or it refused the reply, as `TooLong`.
    Refused(CardFault),
}

/// Writes the name of the fault, and after it the inner fault, as in `Refused: Order`.
impl Display for ServeFault {
    ghost use Rattle.line_core.specs.Names.{serve_fault_text};

    ghost output = { serve_fault_text };

    fn fmt<W: Write>(&self, f: &mut Formatter<W>) -> fmt::Result {
        match self {
            ServeFault::Line(error) => write!(f, "Line: {error}"),
            ServeFault::UsedUp => f.write_str("UsedUp"),
            ServeFault::Refused(fault) => write!(f, "Refused: {fault}"),
        }
    }
}

impl Error for ServeFault {}

impl From<CardFault> for ServeFault {
    ghost from_gives = { λ fault made. made ≡ Refused fault };

    fn from(fault: CardFault) -> ServeFault {
        ServeFault::Refused(fault)
    }
}

/// Serves what comes over the line to a card, until the line says that no more comes (ISO/IEC 7816-3, clause 11.6).
///
/// The call passes what comes to the card, sends the blocks that the card's table requires, and nothing else. When the
/// table says that a command is complete, the host acts on it once, and the call passes its reply to the card. A message
/// of fewer than four octets is no command: the call replies 6700 to it for the host. A host that takes such messages
/// drives a [`Card`] itself. At most `most_blocks` blocks are waited for. After `UsedUp` each of them is answered, and a
/// further call continues.
///
/// The host replies at once. If the caller asked the terminal for time or a size before this call, by
/// [`Card::more_time`] or [`Card::ask_ifs`], the host acts on the command once the terminal granted that.
///
/// The error is `Line` if the line fails while it waits or sends. A block that wasn't sent is sent again if the
/// terminal asks for it. The error is `Refused(TooLong)` for a reply of more than 65,538 octets. Then the card waits
/// for another reply, by `Card::reply`, and until then refuses what comes as `Order`.
pub fn serve<L: CardLine, H: Host>(
    card: &mut Card,
    line: &mut L,
    host: &mut H,
    most_blocks: usize,
) -> Result<(), ServeFault>
    ensures { (events : List Event) × Happens (L.said line.old) (L.said line.new) (on_line events)
        × Happens (H.served host.old) (H.served host.new) (at_host events)
        × Serves most_blocks hears card.old events (ending_of result) card.new }
{
    let mut room = [0; LONGEST_ARRIVAL];
    let mut out = [0; LONGEST_BLOCK];
    let mut left = most_blocks;
    while left > 0 {
        left -= 1;
        if !serve_block(card, line, host, &mut room, &mut out)? {
            return Ok(());
        }
    }
    Err(ServeFault::UsedUp)
}

/// Serves the next block, and returns whether one came.
fn serve_block<L: CardLine, H: Host>(
    card: &mut Card,
    line: &mut L,
    host: &mut H,
    room: &mut [u8],
    out: &mut [u8],
) -> Result<bool, ServeFault>
    requires room { 259 ≤ length room.old }
    requires out { 258 ≤ length out.old }
    ensures { (events : List Event) × Happens (L.said line.old) (L.said line.new) (on_line events)
        × Happens (H.served host.old) (H.served host.new) (at_host events)
        × IsRound card.old events result card.new }
{
    match line.receive(room) {
        Ok(Received::Octets(count)) => {
            let count = answer_block(card, host, &room[..count], out)?;
            match line.send(&out[..count]) {
                Ok(()) => Ok(true),
                Err(fault) => Err(ServeFault::Line(fault)),
            }
        }
        Ok(Received::Nothing) => Ok(false),
        Err(fault) => Err(ServeFault::Line(fault)),
    }
}

/// Puts the block that answers these octets at the front of the buffer, and returns how many octets it has.
fn answer_block<H: Host>(
    card: &mut Card,
    host: &mut H,
    octets: &[u8],
    out: &mut [u8],
) -> Result<usize, ServeFault>
    requires { 258 ≤ length out.old }
    ensures fits { IfOk result (λ count. count ≤ 258) }
    ensures answer { (events : List Event) × (on_line events ≡ [])
        × Happens (H.served host.old) (H.served host.new) (at_host events)
        × IsAnswer (doing_by card.old (takes (class_of card.old.ifsc octets.now)))
        (state_after card.old (card_turn card.old (takes (class_of card.old.ifsc octets.now))))
        events out.new result card.new }
{
    match card.received_into(octets, out)? {
        EncodedCardTurn::Send(count) => Ok(count),
        EncodedCardTurn::Asked => Ok(reply_to(card, host, out)?),
    }
}

/// Makes the host act on the command, and puts the first block of its reply at the front of the buffer. Returns how
/// many octets it has. To a message that is too short for a command, the reply is 6700.
fn reply_to<H: Host>(card: &mut Card, host: &mut H, out: &mut [u8]) -> Result<usize, CardFault>
    requires out { 258 ≤ length out.old }
    requires waits { card.old.waits ≡ owes }
    ensures fits { IfOk result (λ count. count ≤ 258) }
    ensures reply { (reply : List ℕ) × IsReplyTo card.old.command reply
        × Happens (H.served host.old) (H.served host.new) (at_host (asked true card.old.command reply ∷ []))
        × IsReply (turn_of (card_turn card.old (replies reply))) out.new result
        × (card.new ≡ state_after card.old (card_turn card.old (replies reply))) }
{
    let is_short = ask(host, card.command().unwrap_or(&[]));
    match card.reply_into(reply_by(host, is_short), out)? {
        EncodedCardTurn::Send(count) => Ok(count),
        EncodedCardTurn::Asked => unreachable!(),
    }
}

/// Makes the host act on a command, unless the message is too short for one. Returns whether it is.
fn ask<H: Host>(host: &mut H, command: &[u8]) -> bool
    ensures short { result ≡ is_short command.now }
    ensures asked { Happens (H.served host.old) (H.served host.new)
        (at_host (asked true command.now (reply_by (is_short command.now) (H.reply host.new)) ∷ [])) }
{
    if command.len() < SHORTEST_COMMAND {
        return true;
    }
    host.act(command);
    false
}

/// Returns the reply: 6700 to a message that is too short for a command, else that of the host.
fn reply_by<H: Host>(host: &H, is_short: bool) -> &[u8]
    ensures { result.now ≡ reply_by is_short (H.reply host.now) }
{
    if is_short { WRONG_LENGTH } else { host.reply() }
}
