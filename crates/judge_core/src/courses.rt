//! What an end may have heard, and what some course of it permits.

ghost use Rattle.std.specs.Prelude.{◌≡◌};
ghost use Rattle.judge_core.specs.Courses.{attempted, by_damage, chosen, first_course, got_none, got_whole, is_sure, judgment, judges, perhaps_answers, uncounted, untaken};
ghost use Rattle.judge_core.specs.Stakes.{fitting};

use crate::end::{After, End, Owed};
use crate::exercise::fitting;
use crate::hearing::answers;
use crate::rule::Rule;
use crate::sending::carried;
use block_core::Pcb;

/// What an end may have heard since its last block.
#[derive(Clone, Copy, Debug)]
pub enum Heard {
    /// The session begins: a terminal may send its first block.
    Beginning,
    /// This block, certainly whole, with the size or the multiple that it carries, or 0.
    Whole(Pcb, u8),
    /// This block, if it came whole; else octets that aren't a block, or nothing.
    Perhaps(Pcb, u8),
    /// Octets that aren't a block, or, for a terminal, nothing within the waiting time.
    Broken,
    /// Nothing: it isn't this end's turn.
    Nothing,
}

impl Heard {
    /// Whether a block certainly came whole.
    pub(crate) fn is_sure(self) -> bool
        ensures { result ≡ is_sure self }
    {
        match self {
            Heard::Whole(..) => true,
            Heard::Beginning | Heard::Perhaps(..) | Heard::Broken | Heard::Nothing => false,
        }
    }
}

/// The judge's verdict on a block.
#[derive(Clone, Copy, Debug)]
pub enum Verdict {
    /// The standard permits it.
    Permitted,
    /// The standard permits it only if the other end's last block was damaged or lost unseen.
    Unseen,
    /// It breaks this rule. On the first course its sender owed this.
    Deviates(Rule, After),
}

/// The verdict, and the end that the judge goes on from.
#[derive(Clone, Copy, Debug)]
pub struct Judged {
    pub verdict: Verdict,
    pub end: End,
}

/// The judgment on a block, and the course on which it is judged.
#[derive(Clone, Copy)]
pub(crate) struct Trial {
    pub(crate) judged: Judged,
    /// The end and what was due from it on that course.
    pub(crate) due: After,
}

/// The result of a block on a course, if there is that course.
pub(crate) type Attempt = Option<Result<End, Rule>>;

impl End {
    /// Tries a block with this field on one course after the other, until one permits it. The end's last I-block had
    /// the field `last`.
    pub(crate) fn trial(self, heard: Heard, last: &[u8], pcb: Pcb, inf: &[u8]) -> Trial
        ensures judged { result.judged ≡ judges self heard last.now pcb inf.now }
        ensures due { result.due ≡ fitting
            (first_course self (got_whole self heard) (got_none self heard)) (got_none self heard)
            (attempted (got_whole self heard) last.now pcb inf.now)
            (attempted (got_none self heard) last.now pcb inf.now) }
    {
        let whole = self.got_whole(heard);
        let by_whole = attempted(whole, last, pcb, inf);
        if let (Some(due), Some(Ok(end))) = (whole, by_whole) {
            let judged = judgment(Verdict::Permitted, end);
            return Trial { judged, due };
        }
        let none = self.got_none(heard);
        let first = first_course(self, whole, none);
        let by_none = attempted(none, last, pcb, inf);
        Trial {
            judged: chosen(heard, first, pcb, carried(inf), by_whole, by_none),
            due: fitting(first, none, by_whole, by_none),
        }
    }

    /// Returns what the end owes on the course on which it received the last block whole.
    pub(crate) fn got_whole(self, heard: Heard) -> Option<After>
        ensures { result ≡ got_whole self heard }
    {
        match heard {
            Heard::Beginning => Some(self.owes(Owed::NewMessage)),
            Heard::Whole(pcb, octet) | Heard::Perhaps(pcb, octet) => Some(self.hears(pcb, octet)),
            Heard::Broken | Heard::Nothing => None,
        }
    }

    /// Returns what the end owes on the course on which it received the last block damaged, or heard nothing.
    pub(crate) fn got_none(self, heard: Heard) -> Option<After>
        ensures { result ≡ got_none self heard }
    {
        match heard {
            Heard::Whole(Pcb::Info { number, more }, _) => {
                Some(self.untaken(Pcb::Info { number, more }, self.owes(Owed::Refusal)))
            }
            Heard::Perhaps(pcb, octet) => {
                let due = self.uncounted(pcb, octet).owes(self.missed());
                Some(self.untaken(pcb, due))
            }
            Heard::Broken => Some(self.owes(self.missed())),
            Heard::Beginning | Heard::Whole(..) | Heard::Nothing => None,
        }
    }

    /// Returns what the end owes if it didn't take the block. It is `due` if its own last block is known.
    fn untaken(self, pcb: Pcb, due: After) -> After
        ensures { result ≡ untaken self pcb due }
    {
        if self.known {
            due
        } else {
            self.hears_unknown(pcb)
        }
    }

    /// Returns the end as it counts its requests: if the block may have answered its request, the next one counts as a
    /// first.
    fn uncounted(self, pcb: Pcb, octet: u8) -> End
        ensures { result ≡ uncounted self pcb octet }
    {
        if self.perhaps_answered(pcb, octet) {
            End { tries: 0, ..self }
        } else {
            self
        }
    }

    fn perhaps_answered(self, pcb: Pcb, octet: u8) -> bool
        ensures { result ≡ perhaps_answers self.asked pcb octet }
    {
        match self.asked {
            None => false,
            Some(asked) => answers(asked, pcb, octet),
        }
    }
}

fn attempted(due: Option<After>, last: &[u8], pcb: Pcb, inf: &[u8]) -> Attempt
    ensures { result ≡ attempted due last.now pcb inf.now }
{
    due.map(|due| due.end.sends(due.owed, last, pcb, inf))
}

/// Returns the verdict on a block that only damage permits.
fn by_damage(heard: Heard) -> Verdict
    ensures { result ≡ by_damage heard }
{
    match heard {
        Heard::Perhaps(..) => Verdict::Unseen,
        Heard::Beginning | Heard::Whole(..) | Heard::Broken | Heard::Nothing => Verdict::Permitted,
    }
}

pub(crate) fn first_course(end: End, whole: Option<After>, none: Option<After>) -> After
    ensures { result ≡ first_course end whole none }
{
    match (whole, none) {
        (Some(due), _) | (None, Some(due)) => due,
        (None, None) => end.owes(Owed::NewMessage),
    }
}

/// Returns the verdict from both courses.
fn chosen(heard: Heard, due: After, pcb: Pcb, octet: u8, whole: Attempt, none: Attempt) -> Judged
    ensures { result ≡ chosen heard due pcb octet whole none }
{
    let broken = match (whole, none) {
        (Some(Ok(end)), _) => return judgment(Verdict::Permitted, end),
        (_, Some(Ok(end))) => return judgment(by_damage(heard), end),
        (Some(Err(broken)), _) | (None, Some(Err(broken))) => broken,
        (None, None) => Rule::Turn,
    };
    let verdict = Verdict::Deviates(broken, due);
    judgment(verdict, due.end.suggested(pcb, octet))
}

pub(crate) fn judgment(verdict: Verdict, end: End) -> Judged
    ensures { result ≡ judgment verdict end }
{
    Judged { verdict, end }
}
