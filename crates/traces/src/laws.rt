//! What holds for each recording, as contracts of functions. Call one to use its law in a proof.

ghost use Rattle.std.specs.Prelude.{◌≡◌, ℕ, List};
ghost use Rattle.traces.specs.Again.{GetsNoNote, MadeAgain};
ghost use Rattle.traces.specs.Arrived.{arrived_in, arrived_of};
ghost use Rattle.traces.specs.Followed.{FollowedReplays};
ghost use Rattle.traces.specs.Recorded.{noted_lines};
ghost use Rattle.traces.specs.declared.trace.Item.{Item as AnyItem};

/// The exchange of a trace has the blocks of the trace that weren't lost as the blocks that arrive. They are in order
/// and octet by octet, whatever both ends did.
pub fn seen_blocks_arrive()
    ensures { (ifsc : ℕ) (items : List AnyItem)
        → arrived_of (noted_lines ifsc items) ≡ arrived_in items }
{}

/// An end that did what its table says, to the last block of a trace, replays the exchange of the trace.
///
/// It is followed to the end (`is_followed` in `specs/Followed.antt`), and the lines that were added make it send what
/// was seen.
pub fn followed_end_replays()
    ensures { FollowedReplays }
{}

/// The file of a [`Recorder`](exchange_core::Recorder) is made again from what was on its line, with lost blocks and
/// ended waiting times.
///
/// The exchange of that trace has the same lines as the recorder's, except for notes that the recording adds. This
/// holds whatever happened between both ends, if the blocks show what the applications called (`AreTold` in
/// `specs/Again.antt`): each message was sent whole, and so was each request for a size or for time.
pub fn recorded_is_made_again()
    ensures { MadeAgain }
{}

/// If each message was also seen to its end (`AreSeenWhole` in `specs/Again.antt`), the recording adds no note. Then
/// the file of that trace has the same lines as the recorder's.
pub fn recorded_gets_no_note()
    ensures { GetsNoNote }
{}
