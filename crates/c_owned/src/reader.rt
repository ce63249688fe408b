//! Readers of octets that come in pieces.

ghost use Rattle.std.specs.Prelude.{Some};
ghost use Rattle.t1_core.specs.Views.{IsSlice};
ghost use Rattle.c_owned.specs.declared.engine.Engine.TheVariants.{InPieces};
ghost use Rattle.c_owned.specs.Ends.{message_of};
ghost use Rattle.c_owned.specs.Readers.{ReaderFeeds, ReaderEnds};

use atr_core::AtrReader;
use block_core::BlockReader;
use c_lent::lent_check::checked;
use c_lent::verdict::Verdict;
use chain_core::Receiver;
use tlv_core::ForestCheck;

/// The readers that a handle can hold.
#[derive(Drop)]
pub enum Reader {
    Atr(AtrReader),
    Block(BlockReader),
    Chain(Receiver),
    Forest(ForestCheck),
}

impl Reader {
    /// Feeds the next octets to the reader.
    pub(crate) fn feed(&mut self, piece: &[u8]) -> Verdict
        ensures { ReaderFeeds self.old piece.now self.new result }
    {
        match self {
            Reader::Atr(reader) => Verdict::fed(reader.feed(piece)),
            Reader::Block(reader) => Verdict::fed(reader.feed(piece)),
            Reader::Chain(receiver) => Verdict::fed(receiver.feed(piece)),
            Reader::Forest(check) => checked(check.feed(piece), piece.len()),
        }
    }

    /// Ends the octets of the reader.
    pub(crate) fn finish(&self) -> Verdict
        ensures { ReaderEnds self.now result }
    {
        match self {
            Reader::Atr(reader) => Verdict::ended(reader.finish()),
            Reader::Block(reader) => Verdict::ended(reader.finish()),
            Reader::Chain(receiver) => Verdict::ended(receiver.finish()),
            Reader::Forest(check) => Verdict::ended(check.finish()),
        }
    }

    /// Returns the message of a complete chain.
    pub(crate) fn message(&self) -> Option<&[u8]>
        ensures { IsSlice result (message_of (Some (InPieces self.now))) }
    {
        match self {
            Reader::Chain(receiver) => receiver.message(),
            Reader::Atr(_) | Reader::Block(_) | Reader::Forest(_) => None,
        }
    }
}
