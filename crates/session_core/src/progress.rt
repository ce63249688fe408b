//! What an end knows of its line, and what it has done on it so far.

ghost use Rattle.std.specs.Prelude.{◌≡◌};
ghost use Rattle.session_core.specs.Wire.{fresh, is_set, ruled, seen};

/// A time without a limit, in microseconds.
pub const FOREVER: u64 = u64::MAX;

/// In place of a silence: the line delivers whole bursts, so that no silence ends a whole block.
pub const NO_SILENCE: u64 = u64::MAX;

/// The rules of a line, which stay the same for a session, as plain numbers. Times are in microseconds.
///
/// Any values are valid. A mark is set if it isn't 0.
#[repr(C)]
#[derive(Clone, Copy, Debug)]
pub struct Rules {
    /// BWT: the wait for the first octet of a card's answer (ISO/IEC 7816-3, clause 11.4.3).
    pub bwt: u64,
    /// CWT: the silence that ends a burst which isn't a whole block.
    pub cwt: u64,
    /// BGT: the pause between a block that came and the next one sent.
    pub bgt: u64,
    /// The silence that ends a burst which is a whole block, or [`NO_SILENCE`].
    pub after: u64,
    /// The time of a character, 12 elementary time units.
    pub octet: u64,
    /// The most time of an exchange, or [`FOREVER`].
    pub most_time: u64,
    /// The most blocks that a terminal sends in an exchange.
    pub most_blocks: u32,
    /// Whether events have a moment. Without a clock only the time that is certainly over counts.
    pub has_clock: u8,
    /// Whether the line returns what is sent on it, as a UART on one wire does.
    pub has_echo: u8,
    /// Whether an I-block without information counts as a damaged block.
    pub refuses_empty: u8,
    /// Whether the end is a card.
    pub is_card: u8,
}

/// What an end is doing on its line.
#[derive(Clone, Copy, Debug, PartialEq, Eq)]
pub enum Phase {
    /// Nothing.
    Idle,
    /// It looks for octets that came while it didn't wait for any.
    Late,
    /// There were some: it drops octets until the line is silent.
    Clearing,
    /// It drops octets until the line was silent for what it owes, and then sends.
    Settling,
    /// It sends its block.
    Sending,
    /// It reads the echo of the block.
    Echoing,
    /// It takes the octets of a burst.
    Listening,
    /// Its block was damaged by another end's. It drops octets until the line is silent.
    Missing,
}

/// When the current burst began.
#[derive(Clone, Copy, Debug, PartialEq, Eq)]
pub enum Moment {
    /// It isn't known.
    Unknown,
    /// Before the other end may have sent it.
    Early,
    /// Later.
    InTime,
}

/// What an end has done on its line so far, as plain numbers, so that a program in C can keep it. Times are in
/// microseconds.
///
/// Any values are valid. A mark is set if it isn't 0. A phase without a number is [`Phase::Idle`].
#[repr(C)]
#[derive(Clone, Copy, Debug)]
pub struct Progress {
    /// The silence to wait for before the end sends again, counted from the last octet.
    pub owed: u64,
    /// How long the end waits for the first octet of a burst.
    pub first: u64,
    /// The current wait: how long it is, and when it began.
    pub asked: u64,
    pub asked_at: u64,
    /// The current exchange: when it began, and how much of its time is certainly over.
    pub began: u64,
    pub spent: u64,
    /// How much longer the block that was sent last took than its octets.
    pub late: u64,
    /// How many octets of its echo came.
    pub own: u32,
    /// How often the current wait was interrupted.
    pub interrupts: u32,
    /// How many blocks the current exchange has.
    pub blocks: u32,
    /// How many more octets the end drops before it stops waiting for a silence.
    pub left: u32,
    /// The number of the [`Phase`].
    pub phase: u8,
    /// Whether the limit of the exchange cut the current wait short.
    pub is_cut: u8,
    /// Whether the block that was sent last took less than half of the time of its octets.
    pub is_quick: u8,
    /// The number of the [`Moment`] when the current burst began.
    pub began_at: u8,
    /// Whether an octet of the current burst came damaged, and whether it is a whole block.
    pub is_spoiled: u8,
    pub is_whole: u8,
    /// How many bursts in a row began with the block that was just sent.
    pub echoes: u8,
}

/// The numbers of the phases.
pub(crate) const IDLE: u8 = 0;

pub(crate) const LATE: u8 = 1;

pub(crate) const CLEARING: u8 = 2;

pub(crate) const SETTLING: u8 = 3;

pub(crate) const SENDING: u8 = 4;

pub(crate) const ECHOING: u8 = 5;

pub(crate) const LISTENING: u8 = 6;

pub(crate) const MISSING: u8 = 7;

/// The numbers of the moments.
pub(crate) const UNKNOWN: u8 = 0;

pub(crate) const EARLY: u8 = 1;

pub(crate) const IN_TIME: u8 = 2;

/// A mark that isn't set, and one that is.
pub(crate) const UNSET: u8 = 0;

pub(crate) const SET: u8 = 1;

/// Whether a mark is set.
pub(crate) fn is_set(mark: u8) -> bool
    ensures { result ≡ is_set mark }
{
    mark != 0
}

/// Returns the mark for a bool.
pub(crate) fn mark(is_so: bool) -> u8
    ensures { is_set result ≡ is_so }
{
    if is_so { SET } else { UNSET }
}

impl Progress {
    /// Returns what an end has done that hasn't used its line yet.
    pub fn new(rules: &Rules) -> Progress
        ensures { seen result ≡ fresh (ruled rules.now) }
    {
        Progress {
            owed: rules.bgt,
            first: FOREVER,
            asked: 0,
            asked_at: 0,
            began: 0,
            spent: 0,
            late: 0,
            own: 0,
            interrupts: 0,
            blocks: 0,
            left: 0,
            phase: IDLE,
            is_cut: UNSET,
            is_quick: UNSET,
            began_at: UNKNOWN,
            is_spoiled: UNSET,
            is_whole: UNSET,
            echoes: 0,
        }
    }
}
