//! What the ends do with blocks that fit their states.

use t1_core::{CardFault, TerminalFault};

/// What an end does with octets.
#[derive(Clone, Copy)]
pub(crate) enum Wanted {
    /// It sends a block of these octets, in hexadecimal.
    Sends(&'static str),
    Answered,
    IfsSet,
    GivenUp,
    /// The terminal finds the card dead.
    Dies,
    /// It is the turn of the card's host.
    Asked,
    /// The terminal refuses them, with this fault.
    Terminal(TerminalFault),
    /// The card refuses them, with this fault.
    Card(CardFault),
}

/// Which blocks fit a state.
#[derive(Clone, Copy, PartialEq)]
pub(crate) enum Fits {
    /// No blocks.
    Nothing,
    /// Requests that a terminal grants while it waits for the card: sizes, and time.
    Granted,
    /// In Ack: R-blocks for the first block of three again, or for the next one.
    Ack,
    /// In Ack after three failures: only that for the next one.
    AckAtLast,
    /// In Answer: R-blocks for the block again and with the other number, and the card's next block.
    Answer,
    /// In Answer after three failures: only the card's next block.
    AnswerAtLast,
    /// In More: R-blocks, and the card's next block.
    More,
    /// The responses that the end waits for.
    SizeSet,
    GivenUp,
    TimeGranted,
    /// Requests that a card accepts outside its host's turn: sizes, and RESYNCH.
    Served,
    /// The request that a card accepts while it asks: RESYNCH.
    BegunAnew,
    /// At a new card: R-blocks, and the first block of a command.
    StartCard,
    /// After a block that more blocks follow.
    Joining,
    /// With a reply saved, which is sent again.
    Saved,
    /// Within a reply: R-blocks for its block again, or for the next one.
    Reply,
}

/// A state, a block that fits it, in hexadecimal, and the result.
pub(crate) type Row = (Fits, &'static str, Wanted);

/// The blocks that fit, in hexadecimal, and the result of each.
pub(crate) static ROWS: [Row; 64] = [
    (Fits::Granted, "00C101FE3E", Wanted::Sends("00E101FE1E")),
    (Fits::Granted, "00C10102C2", Wanted::Sends("00E10102E2")),
    (Fits::Granted, "00C30101C3", Wanted::Sends("00E30101E3")),
    (Fits::Ack, "00800080", Wanted::Sends("00200200A486")),
    (Fits::Ack, "00810081", Wanted::Sends("00200200A486")),
    (Fits::Ack, "00820082", Wanted::Sends("00200200A486")),
    (Fits::Ack, "00900090", Wanted::Sends("006002040066")),
    (Fits::AckAtLast, "00900090", Wanted::Sends("006002040066")),
    (Fits::Answer, "00800080", Wanted::Sends("00000200A4A6")),
    (Fits::Answer, "00810081", Wanted::Sends("00000200A4A6")),
    (Fits::Answer, "00820082", Wanted::Sends("00000200A4A6")),
    (Fits::Answer, "00900090", Wanted::Sends("00800080")),
    (Fits::Answer, "00200200A486", Wanted::Sends("00900090")),
    (Fits::Answer, "002002AABB33", Wanted::Sends("00900090")),
    (Fits::Answer, "00000500A4040000A5", Wanted::Answered),
    (Fits::Answer, "0000010001", Wanted::Answered),
    (Fits::Answer, "000002900092", Wanted::Answered),
    (Fits::Answer, "00000500B0000002B7", Wanted::Answered),
    (
        Fits::AnswerAtLast,
        "00200200A486",
        Wanted::Sends("00900090"),
    ),
    (
        Fits::AnswerAtLast,
        "002002AABB33",
        Wanted::Sends("00900090"),
    ),
    (Fits::AnswerAtLast, "00000500A4040000A5", Wanted::Answered),
    (Fits::AnswerAtLast, "0000010001", Wanted::Answered),
    (Fits::AnswerAtLast, "000002900092", Wanted::Answered),
    (Fits::AnswerAtLast, "00000500B0000002B7", Wanted::Answered),
    (Fits::More, "00800080", Wanted::Sends("00900090")),
    (Fits::More, "00810081", Wanted::Sends("00900090")),
    (Fits::More, "00820082", Wanted::Sends("00900090")),
    (Fits::More, "00900090", Wanted::Sends("00900090")),
    (Fits::More, "006002040066", Wanted::Sends("00800080")),
    (Fits::More, "00400040", Wanted::Answered),
    (Fits::More, "0040029000D2", Wanted::Answered),
    (Fits::SizeSet, "00E10102E2", Wanted::IfsSet),
    (Fits::GivenUp, "00E000E0", Wanted::GivenUp),
    (Fits::TimeGranted, "00E30101E3", Wanted::Asked),
    (Fits::Served, "00C101FE3E", Wanted::Sends("00E101FE1E")),
    (Fits::Served, "00C10102C2", Wanted::Sends("00E10102E2")),
    (Fits::Served, "00C000C0", Wanted::Sends("00E000E0")),
    (Fits::BegunAnew, "00C000C0", Wanted::Sends("00E000E0")),
    (Fits::StartCard, "00800080", Wanted::Sends("00800080")),
    (Fits::StartCard, "00810081", Wanted::Sends("00800080")),
    (Fits::StartCard, "00820082", Wanted::Sends("00800080")),
    (Fits::StartCard, "00900090", Wanted::Sends("00800080")),
    (Fits::StartCard, "00200200A486", Wanted::Sends("00900090")),
    (Fits::StartCard, "002002AABB33", Wanted::Sends("00900090")),
    (Fits::StartCard, "0000010001", Wanted::Asked),
    (Fits::StartCard, "000002900092", Wanted::Asked),
    (Fits::Joining, "00800080", Wanted::Sends("00900090")),
    (Fits::Joining, "00810081", Wanted::Sends("00900090")),
    (Fits::Joining, "00820082", Wanted::Sends("00900090")),
    (Fits::Joining, "00900090", Wanted::Sends("00900090")),
    (Fits::Joining, "006002040066", Wanted::Sends("00800080")),
    (Fits::Joining, "00400040", Wanted::Asked),
    (Fits::Joining, "0040029000D2", Wanted::Asked),
    (Fits::Saved, "00800080", Wanted::Sends("000002900092")),
    (Fits::Saved, "00810081", Wanted::Sends("000002900092")),
    (Fits::Saved, "00820082", Wanted::Sends("000002900092")),
    (Fits::Saved, "00900090", Wanted::Sends("00900090")),
    (Fits::Saved, "006002040066", Wanted::Sends("00800080")),
    (Fits::Saved, "00400040", Wanted::Asked),
    (Fits::Saved, "0040029000D2", Wanted::Asked),
    (Fits::Reply, "00800080", Wanted::Sends("002002AABB33")),
    (Fits::Reply, "00810081", Wanted::Sends("002002AABB33")),
    (Fits::Reply, "00820082", Wanted::Sends("002002AABB33")),
    (Fits::Reply, "00900090", Wanted::Sends("0040029000D2")),
];
