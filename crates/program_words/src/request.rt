//! What a command line asks for.

use crate::fault::Fault;
use crate::field_size::FieldSize;
use crate::given::OctetSource;
use crate::session::Session;
use block_core::Number;
use layouts::Layout;
use octet_core::{Listed, Octets, Text};
use tlv_core::Known;

/// The kinds of values that octets are checked or shown as.
#[derive(Clone, Copy)]
pub enum Kind {
    /// An answer to reset.
    Atr,
    /// A block of the T=1 protocol.
    Block,
    /// A chain of I-blocks.
    Chain,
    /// A command APDU.
    Command,
    /// A response APDU.
    Response,
    /// A forest of data objects.
    Tlv,
    /// A data object list.
    Dol,
}

/// An end of a line, or both ends.
#[derive(Clone, Copy)]
pub enum Ends {
    /// The terminal's end.
    Terminal,
    /// The card's end.
    Card,
    /// Both, the terminal's first.
    Both,
}

/// What is judged of a trace, and how.
#[derive(Clone, Copy)]
pub struct Judging {
    pub ends: Ends,
    /// The frequency of the card's clock in hertz, 1 to 1,000,000,000. With it the judge also checks the times of the
    /// card's blocks.
    pub clock: Option<u64>,
    /// Whether to count how often each end kept and broke each rule, and to say which block was due.
    pub rules: bool,
    pub layout: Layout,
}

/// What octets are read as.
#[derive(Clone, Copy)]
pub struct Expected {
    pub kind: Kind,
    /// The information size.
    pub ifs: FieldSize,
    /// The number of the first block of a chain.
    pub number: Number,
}

/// How a recorded exchange is drawn.
#[derive(Clone, Copy)]
pub enum Drawing {
    /// As lines of text.
    Ladder,
    /// As a picture in SVG.
    Picture,
}

/// What to do with the file of a recorded exchange.
#[derive(Clone, Copy)]
pub enum FileTask {
    /// Replay it at this end, or at both.
    Replay(Ends, Layout),
    /// Write it in the newest version.
    Migrate,
    /// List its commands and answers.
    Apdus(Layout),
    /// Draw it.
    Draw(Drawing),
}

/// What to do with octets.
#[derive(Clone, Copy)]
pub enum Aim {
    /// Check whether they are a value of the kind, and how many octets it takes.
    Check,
    /// Show the value that they spell.
    Show,
    /// Show the value that they spell, with notes after its lines.
    Note,
}

/// What to do with octets, and what they are read as.
#[derive(Clone, Copy)]
pub struct Task {
    pub aim: Aim,
    pub layout: Layout,
    pub expected: Expected,
}

/// Known values of tags, in the order of their words. Contracts see them as a list.
pub type Knowns = Listed<Known>;

/// What a command line asks for.
#[derive(Drop)]
pub enum Asked {
    /// One text, after reading all that it needs of standard input.
    Once(Request),
    /// One answer for each line of standard input. Each line is hexadecimal, as a whole text is.
    Lines(Task),
}

/// A request that one text answers.
#[derive(Drop)]
pub enum Request {
    /// Check or show these octets.
    Tell(Task, OctetSource),
    /// Cut a message of at most 131,072 octets into the blocks of a chain.
    BuildChain {
        /// The information size.
        ifs: FieldSize,
        /// The number of the first block.
        number: Number,
        message: Octets,
    },
    /// Encode the forest of the octets in the fewest octets that have the same objects.
    BuildTidy(OctetSource),
    /// Return the octets that a data object list requests.
    BuildFill {
        /// The octets of the list.
        list: Octets,
        /// The known values, or the fault of the first word that isn't one. The fault counts only if the octets are a
        /// list.
        known: Result<Knowns, Fault>,
    },
    /// Work on the file of a recorded exchange on standard input.
    File(FileTask),
    /// Make the exchange of a card with this answer to reset from the blocks of standard input.
    Record(Octets),
    /// Judge the blocks of standard input for a card with this answer to reset.
    Judge {
        atr: Octets,
        judging: Judging,
    },
    /// Simulate this session, and return its exchange as a recorder of both ends writes it.
    Simulate(Session),
    /// Simulate this session with the pairs in the lines of standard input.
    SimulateLines(Session),
    /// The text with which `clap` answers a call for help.
    Help(Text),
    /// The version.
    Version,
}
