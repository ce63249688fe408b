//! What was expected in place of a refused octet: a sentence for each reason, from `specs/Sentences.antt`.

ghost use Rattle.std.specs.Prelude.{◌≡◌, ℕ, List};

use apdu_core::{CommandReason, ResponseReason};
use atr_core::AtrReason;
use block_core::BlockReason;
use chain_core::ChainReason;
use tlv_core::{DolReason, TlvReason};

/// A reason for a refusal, with what was expected in place of the octet.
pub trait Explained {
    /// The sentence of each reason.
    ghost says: { Self → List ℕ };

    /// Returns what was expected.
    fn sentence(self) -> &'static str
        ensures { result.now ≡ says self };
}

impl Explained for AtrReason {
    ghost use Rattle.explainer.specs.Sentences.{atr_sentence};

    ghost says = { atr_sentence };

    fn sentence(self) -> &'static str {
        match self {
            AtrReason::BadTs => "TS must be 3B (direct convention) or 3F (inverse convention)",
            AtrReason::TooLong =>
                "an answer to reset has at most 33 octets, and the bytes announced so far exceed that",
            AtrReason::BadTck => "the exclusive-or of all octets from T0 to TCK must be 00",
        }
    }
}

impl Explained for BlockReason {
    ghost use Rattle.explainer.specs.Sentences.{block_sentence};

    ghost says = { block_sentence };

    fn sentence(self) -> &'static str {
        match self {
            BlockReason::BadPcb => "no I-block, R-block or S-block has this PCB",
            BlockReason::BadLen => {
                "LEN must be 00 to FE in an I-block, 00 in an R-block, RESYNCH and ABORT, 01 in IFS and WTX"
            }
            BlockReason::OverIfs =>
                "LEN of an I-block must not exceed the information field size (--ifs)",
            BlockReason::BadIfs => "the size in an IFS request or response must be 01 to FE",
            BlockReason::BadLrc => "the exclusive-or of all octets of the block must be 00",
        }
    }
}

impl Explained for ChainReason {
    ghost use Rattle.explainer.specs.Sentences.{chain_sentence};

    ghost says = { chain_sentence };

    fn sentence(self) -> &'static str {
        match self {
            ChainReason::BadNad => "NAD of each block must be 00",
            ChainReason::BadPcb => "no I-block, R-block or S-block has this PCB",
            ChainReason::NotInfo =>
                "a chain has only I-blocks, and this PCB is that of another block",
            ChainReason::BadSequence => {
                "the block numbers must alternate, from 0 or from --number"
            }
            ChainReason::TooManyBlocks => {
                "a chain has at most 131072 blocks, and this one is followed by more"
            }
            ChainReason::BadLen => "LEN must be 00 to FE",
            ChainReason::OverIfs => "LEN must not exceed the information field size (--ifs)",
            ChainReason::TooLong => "a message has at most 131072 octets",
            ChainReason::BadLrc => "the exclusive-or of all octets of the block must be 00",
        }
    }
}

impl Explained for CommandReason {
    ghost use Rattle.explainer.specs.Sentences.{command_sentence};

    ghost says = { command_sentence };

    fn sentence(self) -> &'static str {
        match self {
            CommandReason::Trailing => "the length fields end the command before this octet",
        }
    }
}

impl Explained for ResponseReason {
    ghost use Rattle.explainer.specs.Sentences.{response_sentence};

    ghost says = { response_sentence };

    fn sentence(self) -> &'static str {
        match self {
            ResponseReason::TooLong => "a response has at most 65538 octets",
        }
    }
}

impl Explained for TlvReason {
    ghost use Rattle.explainer.specs.Sentences.{tlv_sentence};

    ghost says = { tlv_sentence };

    fn sentence(self) -> &'static str {
        match self {
            TlvReason::TooDeep => "objects nest at most 16 deep, and one more begins here",
            TlvReason::TagSecond =>
                "in the second octet of a tag the low seven bits must not all be 0",
            TlvReason::TagLong => "a tag has at most three octets, so the third must be at most 7F",
            TlvReason::LengthForm => "a length field must begin with 00 to 7F or 81 to 84",
            TlvReason::Overrun =>
                "this object needs more octets than the object around it has left",
            TlvReason::TooLong => "a forest of data objects has at most 1048576 octets",
        }
    }
}

impl Explained for DolReason {
    ghost use Rattle.explainer.specs.Sentences.{dol_sentence};

    ghost says = { dol_sentence };

    fn sentence(self) -> &'static str {
        match self {
            DolReason::TagZero => "a tag must not begin with 00",
            DolReason::TagSecond =>
                "in the second octet of a tag the low seven bits must not all be 0",
            DolReason::TagLong => "a tag has at most three octets, so the third must be at most 7F",
        }
    }
}
