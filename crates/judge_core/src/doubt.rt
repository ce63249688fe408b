//! What is doubtful about an end: whether its last block was the one that was seen.

ghost use Rattle.std.specs.Prelude.{◌≡◌};
ghost use Rattle.judge_core.specs.Monitored as seen;
ghost use Rattle.judge_core.specs.Stakes.{course_of, open_course};
ghost use Rattle.judge_core.specs.Doubts.{corrected, doubt_after, doubted_by, given_turn, in_doubt, is_noise, is_open, is_turn, judged_of, openly, overlooked, passed_over, presumed, refused_doubt, sent_openly, sized, sized_by, still_open, tried_after, turned, unknown_end, waited, waited_doubt};

use crate::courses::{Heard, Trial, Verdict, judgment};
use crate::end::{End, Owed};
use crate::monitor::Watched;
use crate::step::Sent;
use block_core::{BlockRef, Pcb, S};
use t1_core::MOST_REPEATS;

/// Whether an end may have sent another block than the last one that was seen.
#[derive(Clone, Copy, Debug)]
pub enum Doubt {
    /// It sent no other.
    Clear,
    /// Its block broke a rule, and the other end may refuse it. Or a terminal's waiting time ended once since its block,
    /// or octets that are no block came to it.
    Refusable,
    /// It may have sent one that wasn't seen, or may correct its own. So any block may come next.
    Open,
}

impl Watched {
    /// Judges a block of the end. If no course permits it, any block may come from an end whose last one nobody knows.
    pub(crate) fn trial(&self, block: &BlockRef<'_>) -> Trial
        ensures judged { result.judged ≡ judged_of self.now block.now }
        ensures due { result.due ≡ course_of self.now (seen.whole block.now) }
    {
        let last = self.last.as_slice();
        let trial = self.end.trial(self.heard, last, block.pcb(), block.inf());
        match trial.judged.verdict {
            Verdict::Deviates(..) if is_open(self.doubt) => self.openly(
                trial,
                self.sent_openly(block),
            ),
            Verdict::Permitted | Verdict::Unseen | Verdict::Deviates(..) => trial,
        }
    }

    /// Returns the trial of a deviation of an end whose last block nobody knows.
    fn openly(&self, trial: Trial, sent: Sent) -> Trial
        ensures judged { result.judged ≡ openly trial.judged sent }
        ensures due { result.due ≡ open_course self.now trial.due sent }
    {
        match sent {
            Ok(end) => Trial {
                judged: judgment(Verdict::Permitted, end),
                due: unknown_end(self.end).owes(Owed::AnyBlock),
            },
            Err(_) => trial,
        }
    }

    /// Returns the end after a block, as one of an end whose last block nobody knows.
    fn sent_openly(&self, block: &BlockRef<'_>) -> Sent
        ensures { result ≡ sent_openly self.now block.now }
    {
        let last = self.last.as_slice();
        unknown_end(self.end).sends(Owed::AnyBlock, last, block.pcb(), block.inf())
    }

    /// Takes it that the end sent no block that was seen, if it was its turn.
    pub(crate) fn pass_over(&mut self)
        ensures { self.new ≡ passed_over self.old }
    {
        if is_turn(self.heard) {
            self.end = overlooked(self.end, self.heard);
            self.doubt = Doubt::Open;
        }
    }

    /// Takes the end of a terminal's waiting time.
    pub(crate) fn wait(&mut self)
        ensures { self.new ≡ waited self.old }
    {
        self.end = overlooked(self.end, self.heard);
        self.doubt = waited_doubt(is_turn(self.heard), self.doubt);
        self.heard = Heard::Broken;
    }

    /// Takes it that the other end may have refused the end's last block.
    pub(crate) fn correct(&mut self, refused: bool)
        ensures { self.new ≡ corrected self.old refused }
    {
        if refused {
            self.doubt = refused_doubt(self.doubt);
        }
    }

    /// Takes what came to a terminal, if anything did. If it isn't a block, the terminal has to send.
    pub(crate) fn take_turn(&mut self, came: bool)
        ensures { self.new ≡ given_turn came self.old }
    {
        if came && is_noise(self.heard) {
            self.doubt = turned(self.doubt);
        }
    }
}

/// Whether an end heard octets that aren't a block, or nothing.
fn is_noise(heard: Heard) -> bool
    ensures { result ≡ is_noise heard }
{
    matches!(heard, Heard::Broken)
}

/// Returns what is doubtful about a terminal that has to send after such octets: its next waiting time isn't its first.
fn turned(doubt: Doubt) -> Doubt
    ensures { result ≡ turned doubt }
{
    match doubt {
        Doubt::Clear | Doubt::Refusable => Doubt::Refusable,
        Doubt::Open => Doubt::Open,
    }
}

/// Returns the end as if it took the I-block or the request that it heard. If it sends an I-block next, it did, except
/// after an ABORT.
pub(crate) fn presumed(end: End, heard: Heard) -> End
    ensures { result ≡ presumed end heard }
{
    match heard {
        Heard::Whole(pcb, octet) | Heard::Perhaps(pcb, octet) => {
            End {
                aborted: end.aborted,
                ..sized_by(end.hears_unknown(pcb).end, pcb, octet)
            }
        }
        Heard::Beginning | Heard::Broken | Heard::Nothing => end,
    }
}

/// Returns the end with the size that it heard, and with the number of the block if nobody knows its own last block.
fn overlooked(end: End, heard: Heard) -> End
    ensures { result ≡ overlooked end heard }
{
    if end.known {
        sized(end, heard)
    } else {
        presumed(end, heard)
    }
}

/// Returns the end as if it answered the request for a size that it heard.
fn sized(end: End, heard: Heard) -> End
    ensures { result ≡ sized end heard }
{
    match heard {
        Heard::Whole(pcb, octet) | Heard::Perhaps(pcb, octet) => sized_by(end, pcb, octet),
        Heard::Beginning | Heard::Broken | Heard::Nothing => end,
    }
}

/// Returns the end as if it answered this block, if that asks about a size: then it may send longer fields. After an
/// I-block, what is due after ABORT is over.
fn sized_by(end: End, pcb: Pcb, octet: u8) -> End
    ensures { result ≡ sized_by end pcb octet }
{
    match pcb {
        Pcb::Request(S::Ifs) => End {
            room: end.room.max(octet),
            ..end
        },
        Pcb::Info { .. } => End {
            aborted: false,
            ..end
        },
        Pcb::Ready { .. } | Pcb::Request(_) | Pcb::Response(_) => end,
    }
}

/// Whether it is the turn of an end that heard this.
pub(crate) fn is_turn(heard: Heard) -> bool
    ensures { result ≡ is_turn heard }
{
    match heard {
        Heard::Beginning | Heard::Whole(..) | Heard::Perhaps(..) => true,
        Heard::Broken | Heard::Nothing => false,
    }
}

/// Returns what an end heard of a block, which it may refuse if the block broke a rule.
pub(crate) fn doubted_by(doubt: Doubt, heard: Heard) -> Heard
    ensures { result ≡ doubted_by doubt heard }
{
    match (doubt, heard) {
        (Doubt::Refusable, heard) => in_doubt(heard),
        (Doubt::Clear | Doubt::Open, heard) => heard,
    }
}

/// Returns what an end heard, if that isn't certain.
pub(crate) fn in_doubt(heard: Heard) -> Heard
    ensures { result ≡ in_doubt heard }
{
    match heard {
        Heard::Whole(pcb, octet) => Heard::Perhaps(pcb, octet),
        _ => heard,
    }
}

/// Returns what is doubtful about an end that was in this doubt, after a block with this verdict.
pub(crate) fn doubt_after(doubt: Doubt, pcb: Pcb, verdict: Verdict) -> Doubt
    ensures { result ≡ doubt_after doubt pcb verdict }
{
    match verdict {
        Verdict::Permitted | Verdict::Unseen => still_open(doubt, pcb),
        Verdict::Deviates(..) => Doubt::Refusable,
    }
}

/// Returns the end after its block, with the most tries if nobody knows how often it tried before this I-block.
pub(crate) fn tried_after(doubt: Doubt, pcb: Pcb, end: End) -> End
    ensures { result ≡ tried_after doubt pcb end }
{
    match (doubt, pcb) {
        (Doubt::Open, Pcb::Info { .. }) => End {
            tries: MOST_REPEATS,
            ..end
        },
        _ => end,
    }
}

/// Returns what is doubtful about an end after a permitted block: an I-block shows where the end is.
fn still_open(doubt: Doubt, pcb: Pcb) -> Doubt
    ensures { result ≡ still_open doubt pcb }
{
    match (doubt, pcb) {
        (Doubt::Clear | Doubt::Refusable, _) | (Doubt::Open, Pcb::Info { .. }) => Doubt::Clear,
        (Doubt::Open, Pcb::Ready { .. } | Pcb::Request(_) | Pcb::Response(_)) => Doubt::Open,
    }
}

/// Returns what is doubtful about a block that the other end may have refused.
fn refused_doubt(doubt: Doubt) -> Doubt
    ensures { result ≡ refused_doubt doubt }
{
    match doubt {
        Doubt::Clear => Doubt::Clear,
        Doubt::Refusable | Doubt::Open => Doubt::Open,
    }
}

/// Returns what is doubtful about a terminal's block after its waiting time. `is_turn` says whether it had to send.
fn waited_doubt(is_turn: bool, doubt: Doubt) -> Doubt
    ensures { result ≡ waited_doubt is_turn doubt }
{
    match doubt {
        Doubt::Clear if !is_turn => Doubt::Refusable,
        Doubt::Clear | Doubt::Refusable | Doubt::Open => Doubt::Open,
    }
}

pub(crate) fn is_open(doubt: Doubt) -> bool
    ensures { result ≡ is_open doubt }
{
    matches!(doubt, Doubt::Open)
}

/// Returns the end as if nobody knew its last block.
pub(crate) fn unknown_end(end: End) -> End
    ensures { result ≡ unknown_end end }
{
    End {
        known: false,
        before: Owed::AnyBlock,
        ..end
    }
}
