//! The states of both ends: how they are reached, and what each end then does with what comes.

use crate::turns::{Fits, Wanted};
use t1_core::{CardFault, TerminalFault};
use test_support::Size;

/// What an end does with what comes.
pub(crate) struct Turns {
    /// The blocks that fit.
    pub(crate) fits: (Fits, Fits),
    /// What it does with octets that aren't such a block.
    pub(crate) misfit: Misfit,
}

/// What an end does with octets that aren't a block that fits. The values are names instead of blocks, since a table of
/// values with references takes long to prove.
#[derive(Clone, Copy)]
pub(crate) enum Misfit {
    /// R-blocks for the number 0, with a redundancy error and with another error.
    AsksForZero,
    /// R-blocks for the number 1, with a redundancy error and with another error.
    AsksForOne,
    /// Requests: RESYNCH, IFS with 2 and with 254, WTX.
    Resynch,
    AsksSize,
    AsksLargest,
    AsksTime,
    /// The terminal refuses them as idle or dead, or finds the card dead.
    Idle,
    Dead,
    Dies,
    /// The card refuses them.
    Order,
}

impl Misfit {
    /// Returns the result for damaged octets.
    pub(crate) fn damaged(self) -> Wanted {
        match self {
            Misfit::AsksForZero => Wanted::Sends("00810081"),
            Misfit::AsksForOne => Wanted::Sends("00910091"),
            _ => self.other(),
        }
    }

    /// Returns the result for invalid octets, and for blocks that don't fit.
    pub(crate) fn other(self) -> Wanted {
        match self {
            Misfit::AsksForZero => Wanted::Sends("00820082"),
            Misfit::AsksForOne => Wanted::Sends("00920092"),
            Misfit::Resynch => Wanted::Sends("00C000C0"),
            Misfit::AsksSize => Wanted::Sends("00C10102C2"),
            Misfit::AsksLargest => Wanted::Sends("00C101FE3E"),
            Misfit::AsksTime => Wanted::Sends("00C30101C3"),
            Misfit::Idle => Wanted::Terminal(TerminalFault::Idle),
            Misfit::Dead => Wanted::Terminal(TerminalFault::Dead),
            Misfit::Dies => Wanted::Dies,
            Misfit::Order => Wanted::Card(CardFault::Order),
        }
    }
}

/// A state of both ends, after the lines of an exchange.
pub(crate) struct State {
    /// The states of the terminal and the card that are new here.
    pub(crate) name: &'static str,
    /// The lines after the answer to reset.
    pub(crate) text: &'static str,
    /// The size of a field that the terminal takes; the card takes 2 octets.
    pub(crate) ifsd: Size,
    pub(crate) terminal: Turns,
    pub(crate) card: Turns,
}

/// Each state of the terminal, with its failures in a row, and each of the card.
pub(crate) static STATES: [State; 17] = [
    State {
        name: "new",
        text: "",
        ifsd: Size::ThirtyTwo,
        terminal: Turns {
            fits: (Fits::Nothing, Fits::Nothing),
            misfit: Misfit::Idle,
        },
        card: Turns {
            fits: (Fits::StartCard, Fits::Served),
            misfit: Misfit::AsksForZero,
        },
    },
    State {
        name: "Ack",
        text: "command 00A4040000\n",
        ifsd: Size::ThirtyTwo,
        terminal: Turns {
            fits: (Fits::Granted, Fits::Ack),
            misfit: Misfit::AsksForZero,
        },
        card: Turns {
            fits: (Fits::StartCard, Fits::Served),
            misfit: Misfit::AsksForZero,
        },
    },
    State {
        name: "Ack, after three failures",
        text: "command 00A4040000\n\
t 00200200A486 lost\n\
quiet\n\
t 00800080 lost\n\
quiet\n\
t 00800080 lost\n\
quiet\n",
        ifsd: Size::ThirtyTwo,
        terminal: Turns {
            fits: (Fits::Granted, Fits::AckAtLast),
            misfit: Misfit::Resynch,
        },
        card: Turns {
            fits: (Fits::StartCard, Fits::Served),
            misfit: Misfit::AsksForZero,
        },
    },
    State {
        name: "Answer",
        text: "command 00A4\n",
        ifsd: Size::ThirtyTwo,
        terminal: Turns {
            fits: (Fits::Granted, Fits::Answer),
            misfit: Misfit::AsksForZero,
        },
        card: Turns {
            fits: (Fits::StartCard, Fits::Served),
            misfit: Misfit::AsksForZero,
        },
    },
    State {
        name: "Answer, after three failures",
        text: "command 00A4\n\
t 00000200A4A6 lost\n\
quiet\n\
t 00800080 lost\n\
quiet\n\
t 00800080 lost\n\
quiet\n",
        ifsd: Size::ThirtyTwo,
        terminal: Turns {
            fits: (Fits::Granted, Fits::AnswerAtLast),
            misfit: Misfit::Resynch,
        },
        card: Turns {
            fits: (Fits::StartCard, Fits::Served),
            misfit: Misfit::AsksForZero,
        },
    },
    State {
        name: "More, Reply",
        text: "ifsd 02\n\
t 00C10102C2\n\
c 00E10102E2\n\
ifs-set\n\
command 00A4\n\
t 00000200A4A6\n\
asked 00A4\n\
reply AABB9000\n\
c 002002AABB33\n",
        ifsd: Size::Two,
        terminal: Turns {
            fits: (Fits::Granted, Fits::More),
            misfit: Misfit::AsksForOne,
        },
        card: Turns {
            fits: (Fits::Reply, Fits::Served),
            misfit: Misfit::AsksForOne,
        },
    },
    State {
        name: "Ifs",
        text: "ifsd 02\n",
        ifsd: Size::ThirtyTwo,
        terminal: Turns {
            fits: (Fits::SizeSet, Fits::Nothing),
            misfit: Misfit::AsksSize,
        },
        card: Turns {
            fits: (Fits::StartCard, Fits::Served),
            misfit: Misfit::AsksForZero,
        },
    },
    State {
        name: "Resynch 1",
        text: "command 00A4\n\
t 00000200A4A6 lost\n\
quiet\n\
t 00800080 lost\n\
quiet\n\
t 00800080 lost\n\
quiet\n\
t 00800080 lost\n\
quiet\n",
        ifsd: Size::ThirtyTwo,
        terminal: Turns {
            fits: (Fits::GivenUp, Fits::Nothing),
            misfit: Misfit::Resynch,
        },
        card: Turns {
            fits: (Fits::StartCard, Fits::Served),
            misfit: Misfit::AsksForZero,
        },
    },
    State {
        name: "Resynch 2",
        text: "command 00A4\n\
t 00000200A4A6 lost\n\
quiet\n\
t 00800080 lost\n\
quiet\n\
t 00800080 lost\n\
quiet\n\
t 00800080 lost\n\
quiet\n\
t 00C000C0 lost\n\
quiet\n",
        ifsd: Size::ThirtyTwo,
        terminal: Turns {
            fits: (Fits::GivenUp, Fits::Nothing),
            misfit: Misfit::Resynch,
        },
        card: Turns {
            fits: (Fits::StartCard, Fits::Served),
            misfit: Misfit::AsksForZero,
        },
    },
    State {
        name: "Resynch 3",
        text: "command 00A4\n\
t 00000200A4A6 lost\n\
quiet\n\
t 00800080 lost\n\
quiet\n\
t 00800080 lost\n\
quiet\n\
t 00800080 lost\n\
quiet\n\
t 00C000C0 lost\n\
quiet\n\
t 00C000C0 lost\n\
quiet\n",
        ifsd: Size::ThirtyTwo,
        terminal: Turns {
            fits: (Fits::GivenUp, Fits::Nothing),
            misfit: Misfit::Dies,
        },
        card: Turns {
            fits: (Fits::StartCard, Fits::Served),
            misfit: Misfit::AsksForZero,
        },
    },
    State {
        name: "Dead",
        text: "command 00A4\n\
t 00000200A4A6 lost\n\
quiet\n\
t 00800080 lost\n\
quiet\n\
t 00800080 lost\n\
quiet\n\
t 00800080 lost\n\
quiet\n\
t 00C000C0 lost\n\
quiet\n\
t 00C000C0 lost\n\
quiet\n\
t 00C000C0 lost\n\
quiet\n\
dead\n",
        ifsd: Size::ThirtyTwo,
        terminal: Turns {
            fits: (Fits::Nothing, Fits::Nothing),
            misfit: Misfit::Dead,
        },
        card: Turns {
            fits: (Fits::StartCard, Fits::Served),
            misfit: Misfit::AsksForZero,
        },
    },
    State {
        name: "Command, further blocks",
        text: "command 00A4040000\n\
t 00200200A486\n",
        ifsd: Size::ThirtyTwo,
        terminal: Turns {
            fits: (Fits::Granted, Fits::Ack),
            misfit: Misfit::AsksForZero,
        },
        card: Turns {
            fits: (Fits::Joining, Fits::Served),
            misfit: Misfit::AsksForOne,
        },
    },
    State {
        name: "Host",
        text: "command 00A4\n\
t 00000200A4A6\n\
asked 00A4\n",
        ifsd: Size::ThirtyTwo,
        terminal: Turns {
            fits: (Fits::Granted, Fits::Answer),
            misfit: Misfit::AsksForZero,
        },
        card: Turns {
            fits: (Fits::Nothing, Fits::Nothing),
            misfit: Misfit::Order,
        },
    },
    State {
        name: "Command, a block saved",
        text: "command 00A4\n\
t 00000200A4A6\n\
asked 00A4\n\
reply 9000\n",
        ifsd: Size::ThirtyTwo,
        terminal: Turns {
            fits: (Fits::Granted, Fits::Answer),
            misfit: Misfit::AsksForZero,
        },
        card: Turns {
            fits: (Fits::Saved, Fits::Served),
            misfit: Misfit::AsksForOne,
        },
    },
    State {
        name: "Asking for time",
        text: "command 00A4\n\
t 00000200A4A6\n\
asked 00A4\n\
time 01\n",
        ifsd: Size::ThirtyTwo,
        terminal: Turns {
            fits: (Fits::Granted, Fits::Answer),
            misfit: Misfit::AsksForZero,
        },
        card: Turns {
            fits: (Fits::TimeGranted, Fits::BegunAnew),
            misfit: Misfit::AsksTime,
        },
    },
    State {
        name: "Asking for a size",
        text: "command 00A4\n\
t 00000200A4A6\n\
asked 00A4\n\
ifsc FE\n",
        ifsd: Size::ThirtyTwo,
        terminal: Turns {
            fits: (Fits::Granted, Fits::Answer),
            misfit: Misfit::AsksForZero,
        },
        card: Turns {
            fits: (Fits::BegunAnew, Fits::Nothing),
            misfit: Misfit::AsksLargest,
        },
    },
    State {
        name: "Idle, after an answer",
        text: "command 00A4\n\
t 00000200A4A6\n\
asked 00A4\n\
reply 9000\n\
c 000002900092\n\
answer 9000\n",
        ifsd: Size::ThirtyTwo,
        terminal: Turns {
            fits: (Fits::Nothing, Fits::Nothing),
            misfit: Misfit::Idle,
        },
        card: Turns {
            fits: (Fits::Saved, Fits::Served),
            misfit: Misfit::AsksForOne,
        },
    },
];
