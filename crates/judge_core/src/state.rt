//! What may be due from an end, and its text.

ghost use Rattle.std.specs.Prelude.{◌≡◌, ◌<◌};
ghost use Rattle.judge_core.specs.States.{response_state, state_name, state_of, state_place};

use crate::end::Owed;
use block_core::S;
use octet_core::Named;

/// What is due from an end when it sends a block.
#[derive(Clone, Copy, Debug, PartialEq, Eq)]
pub enum State {
    /// The first I-block of a message.
    Message,
    /// The next I-block of its chain.
    Chain,
    /// The R-block that acknowledges a block of the other end's chain.
    Acknowledgment,
    /// Its last I-block again.
    Repeat,
    /// An R-block after an error.
    Correction,
    /// An R-block that refuses an I-block.
    Refusal,
    /// Its request again.
    Request,
    /// The response to RESYNCH.
    Resynch,
    /// The response to a request for a size.
    Size,
    /// The response to ABORT.
    Abort,
    /// The response to a request for time.
    Time,
    /// A message, or an R-block that hands over the right to send, after ABORT.
    AfterAbort,
    /// A message, or an R-block after an error.
    MessageOrCorrection,
    /// A message, or an R-block that refuses the I-block before its request.
    MessageOrRefusal,
    /// An R-block that acknowledges the I-block before its request, or refuses it.
    AcknowledgmentOrRefusal,
    /// Any block, since the line damaged the end's last one.
    Any,
}

/// All states, in the order of their places.
pub const STATES: [State; 16] = [
    State::Message,
    State::Chain,
    State::Acknowledgment,
    State::Repeat,
    State::Correction,
    State::Refusal,
    State::Request,
    State::Resynch,
    State::Size,
    State::Abort,
    State::Time,
    State::AfterAbort,
    State::MessageOrCorrection,
    State::MessageOrRefusal,
    State::AcknowledgmentOrRefusal,
    State::Any,
];

impl State {
    /// Returns the state of an end that owes this.
    pub fn of(owed: Owed) -> State
        ensures { result ≡ state_of owed }
    {
        match owed {
            Owed::NewMessage => State::Message,
            Owed::NextBlock => State::Chain,
            Owed::Acknowledgment => State::Acknowledgment,
            Owed::SameBlock => State::Repeat,
            Owed::Correction => State::Correction,
            Owed::Refusal => State::Refusal,
            Owed::SameRequest => State::Request,
            Owed::Answer(about, _) => response_state(about),
            Owed::EitherBlock => State::AfterAbort,
            Owed::MessageOrCorrection => State::MessageOrCorrection,
            Owed::MessageOrRefusal => State::MessageOrRefusal,
            Owed::AcknowledgmentOrRefusal => State::AcknowledgmentOrRefusal,
            Owed::AnyBlock => State::Any,
        }
    }

    /// Returns its place among [`STATES`], from 0.
    pub fn place(self) -> usize
        ensures place { result ≡ state_place self }
        ensures below { result < 16 }
    {
        self as usize
    }
}

fn response_state(about: S) -> State
    ensures { result ≡ response_state about }
{
    match about {
        S::Resynch => State::Resynch,
        S::Ifs => State::Size,
        S::Abort => State::Abort,
        S::Wtx => State::Time,
    }
}

/// What is due, in a few words.
impl Named for State {
    ghost text = { state_name };

    fn name(self) -> &'static str {
        match self {
            State::Message => "first I-block of a message",
            State::Chain => "next I-block of a chain",
            State::Acknowledgment => "acknowledgment",
            State::Repeat => "I-block again",
            State::Correction => "R-block after an error",
            State::Refusal => "R-block that refuses",
            State::Request => "request again",
            State::Resynch => "RESYNCH response",
            State::Size => "IFS response",
            State::Abort => "ABORT response",
            State::Time => "WTX response",
            State::AfterAbort => "I-block or R-block after ABORT",
            State::MessageOrCorrection => "I-block or R-block after an error",
            State::MessageOrRefusal => "I-block or R-block that refuses",
            State::AcknowledgmentOrRefusal => "acknowledgment or R-block that refuses",
            State::Any => "any block",
        }
    }
}
