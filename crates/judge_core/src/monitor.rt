//! Each block of a trace, judged as it comes.

ghost use Rattle.std.specs.Prelude.{◌≡◌, true};
ghost use Rattle.judge_core.specs.Classes.{reaching_of, seen_of};
ghost use Rattle.judge_core.specs.Followed.{last_after};
ghost use Rattle.judge_core.specs.Monitored as seen;
ghost use Rattle.judge_core.specs.Doubts.{doubt_after, doubted_by, judged_of, presumed, unknown_end};
ghost use Rattle.judge_core.specs.Monitored.{addressed_by, due, here_after, known_after, met, midway_after, monitor_after, new_monitor, new_watched, quiet_after, report_here, report_of, reset_after, said_of, sender, sender_after, silence_of, unknown_after, Takes};
ghost use Rattle.judge_core.specs.Rulings.{tried};

use crate::address::nad_after;
use crate::aside::last_sent;
use crate::class::Class;
use crate::connection::{Last, Pairs};
use crate::courses::{Heard, Judged, Verdict, first_course};
use crate::doubt::{Doubt, doubt_after, doubted_by, presumed, tried_after, unknown_end};
use crate::end::{After, End};
use crate::reach::{
    Reached, after_silence, came_by, heard_in_time, heard_of, is_lost, is_refusing,
    opened_on_arrival, passage_of, silence_of,
};
use crate::rule::Rule;
use crate::ruling::Ruling;
use arrayvec::ArrayVec;
use block_core::{BlockRef, LONGEST_INF, Pcb, Side};
use std::fmt::{self, Debug, Formatter, Write};
use t1_core::FIRST_IFSD;

/// An end of the line that the monitor watches.
#[derive(Drop)]
pub struct Watched {
    pub end: End,
    pub heard: Heard,
    /// The field of its last I-block.
    pub last: ArrayVec<u8, LONGEST_INF>,
    /// The number of its last block, from 1, or 0 before its first.
    pub number: u64,
    /// Whether its last block may be another one than the one that was seen.
    pub doubt: Doubt,
}

/// Judges each block of a trace as it comes. It allocates nothing, and keeps of each end what decides what it may send.
#[derive(Drop)]
pub struct Monitor {
    pub terminal: Watched,
    pub card: Watched,
    /// The node address of the terminal's blocks, after one was seen.
    pub nad: Option<u8>,
    /// The pairs of node addresses that the terminal used.
    pub pairs: Pairs,
    /// Of which logical connection the last octets were.
    pub last: Last,
    /// How many blocks were seen. The count stays at its greatest value.
    pub blocks: u64,
}

/// What a trace says about how a block reached the other end.
#[derive(Clone, Copy)]
pub enum Arrival<'a> {
    /// It says nothing.
    Unsaid,
    /// The block didn't reach the other end.
    Lost,
    /// These octets reached the other end.
    Came(&'a [u8]),
}

/// Shows how many octets arrived. It shows none of them, since they may carry a PIN.
impl Debug for Arrival<'_> {
    ghost use Rattle.std.specs.Prelude.{Some};
    ghost use Rattle.judge_core.specs.Shown.{arrival_text};

    ghost debug_output = { λ arrival. Some (arrival_text arrival) };

    fn fmt<W: Write>(&self, f: &mut Formatter<W>) -> fmt::Result {
        match self {
            Arrival::Unsaid => f.write_str("Unsaid"),
            Arrival::Lost => f.write_str("Lost"),
            Arrival::Came(octets) => {
                let count = octets.len();
                write!(f, "Came({count} octets)")
            }
        }
    }
}

/// Whether a card sent no block before the terminal's next one, or before the terminal's waiting time ended.
#[derive(Clone, Copy, Debug, PartialEq, Eq)]
pub enum Silence {
    /// It owed no block.
    No,
    /// It owed the answer to the block with this number, unless that block was lost or damaged unseen.
    Possible(u64),
    /// It owed the answer to the block with this number, which it received whole.
    Certain(u64),
}

/// What the monitor says about octets.
#[derive(Clone, Copy, Debug)]
pub enum Said {
    /// They aren't a block, by the check octet or the length. They are damage, and nobody's deviation.
    Damage,
    /// They are a block of another logical connection than that of the first block. It isn't judged.
    Elsewhere,
    /// They were sent as a block, with this verdict.
    Block(Verdict),
}

/// The monitor's report on a block, and on a card that sent none before it.
#[derive(Clone, Copy, Debug)]
pub struct Report {
    pub silence: Silence,
    pub said: Said,
    /// The number of the other end's last block, or 0.
    pub before: u64,
}

impl Watched {
    fn new(side: Side, room: u8, heard: Heard) -> Watched
        ensures { result ≡ new_watched side room heard }
    {
        Watched {
            end: End::new(side, room),
            heard,
            last: ArrayVec::new(),
            number: 0,
            doubt: Doubt::Clear,
        }
    }

    /// Returns the end of a trace that begins in the midst of a session. It may send any block.
    fn met(side: Side) -> Watched
        ensures { result ≡ met side }
    {
        let mut watched = Watched::new(side, LONGEST_INF as u8, Heard::Broken);
        watched.end = unknown_end(watched.end);
        watched
    }

    /// Returns what the end owes on the first course that it has.
    pub(crate) fn due(&self) -> After
        ensures { result ≡ due self.now }
    {
        let whole = self.end.got_whole(self.heard);
        let none = self.end.got_none(self.heard);
        first_course(self.end, whole, none)
    }

    /// Takes octets that the end sent, after they were tried so. Returns what the monitor says of them.
    fn sent(&mut self, class: &Class<'_>, ruling: &Ruling, number: u64) -> Said
        requires { ruling.now.trial ≡ tried self.old ruling.now.addressed (seen_of class.now) }
        ensures said { result ≡ said_of self.old ruling.now.addressed (seen_of class.now) }
        ensures after { self.new ≡ sender_after self.old ruling.now.addressed (seen_of class.now)
            number }
    {
        match (class, &ruling.trial) {
            (Class::Whole(block), Some(trial)) => self.sent_block(block, &trial.judged, number),
            (Class::Whole(_), None) => self.sent_other(Rule::NodeAddress, number),
            (Class::Malformed(broken), _) => self.sent_other(*broken, number),
            (Class::Damage, _) => {
                self.sent_unknown(number);
                Said::Damage
            }
        }
    }

    /// Takes a block with this judgment.
    fn sent_block(&mut self, block: &BlockRef<'_>, judged: &Judged, number: u64) -> Said
        requires { judged.now ≡ judged_of self.old block.now }
        ensures said { result ≡ said_of self.old true (seen.whole block.now) }
        ensures after { self.new ≡ known_after self.old block.now number }
    {
        self.heard = after_silence(self.end.side);
        self.end = tried_after(self.doubt, block.pcb(), judged.end);
        self.number = number;
        self.doubt = doubt_after(self.doubt, block.pcb(), judged.verdict);
        self.keep(block);
        Said::Block(judged.verdict)
    }

    /// Keeps the field of an I-block.
    fn keep(&mut self, block: &BlockRef<'_>)
        ensures { self.new ≡ record self.old {
          last = record { items = last_after self.old.last.items block.now.pcb block.now.inf };
        } }
    {
        if let Pcb::Info { .. } = block.pcb() {
            self.last.clear();
            self.last.try_extend_from_slice(block.inf()).unwrap();
        }
    }

    fn sent_other(&mut self, broken: Rule, number: u64) -> Said
        ensures said { result ≡ said_of self.old true (seen.malformed broken) }
        ensures after { self.new ≡ unknown_after self.old number }
    {
        let due = self.due();
        self.sent_unknown(number);
        Said::Block(Verdict::Deviates(broken, due))
    }

    fn sent_unknown(&mut self, number: u64)
        ensures { self.new ≡ unknown_after self.old number }
    {
        self.end = unknown_end(presumed(self.end, self.heard));
        self.heard = after_silence(self.end.side);
        self.number = number;
        self.doubt = Doubt::Clear;
    }
}

impl Monitor {
    /// Returns a monitor at a reset of a card that takes fields of up to `ifsc` octets, as its answer to reset says
    /// (11.4.2).
    pub fn new(ifsc: u8) -> Monitor
        ensures { result ≡ new_monitor ifsc }
    {
        Monitor {
            terminal: Watched::new(Side::Terminal, ifsc, Heard::Beginning),
            card: Watched::new(Side::Card, FIRST_IFSD, Heard::Nothing),
            nad: None,
            pairs: Pairs::First,
            last: Last::Here,
            blocks: 0,
        }
    }

    /// Takes the octets that were on the line as one block of an end, and says whether the standard permits them.
    pub fn block(&mut self, from: Side, octets: &[u8], arrival: Arrival<'_>) -> Report
        ensures { Takes self.old from octets.now arrival.entry self.new result }
    {
        let passage = passage_of(octets, arrival);
        self.saw(from, &passage.class, &passage.reached)
    }

    fn saw(&mut self, from: Side, class: &Class<'_>, reached: &Reached<'_>) -> Report
        ensures after { self.new ≡ monitor_after self.old from (seen_of class.now)
            (reaching_of reached.now) }
        ensures report { result ≡ report_of self.old from (seen_of class.now) }
    {
        if self.is_elsewhere(from, class) {
            self.saw_elsewhere(from, class, reached)
        } else {
            let ruling = self.ruling(from, class);
            self.saw_here(from, class, reached, &ruling)
        }
    }

    /// Takes octets that aren't a block of another logical connection, after they were tried so.
    pub(crate) fn saw_here(
        &mut self,
        from: Side,
        class: &Class<'_>,
        reached: &Reached<'_>,
        ruling: &Ruling,
    ) -> Report
        requires addressed { ruling.now.addressed
            ≡ addressed_by from self.old.nad (seen_of class.now) }
        requires tried { ruling.now.trial
            ≡ tried (sender self.old from) ruling.now.addressed (seen_of class.now) }
        ensures after { self.new ≡ here_after self.old from (seen_of class.now)
            (reaching_of reached.now) }
        ensures report { result ≡ report_here self.old from (seen_of class.now) }
    {
        let addressed = ruling.addressed;
        self.blocks = self.blocks.saturating_add(1);
        self.nad = nad_after(from, self.nad, class);
        let came_addressed = came_by(from, self.nad, reached);
        match from {
            Side::Terminal => {
                let silence = silence_of(self.card.heard, self.terminal.number);
                let before = self.card.number;
                let said = self.terminal.sent(class, ruling, self.blocks);
                let heard = heard_of(Side::Card, addressed, came_addressed, class, reached);
                self.card.pass_over();
                self.card.correct(is_refusing(class));
                self.card.heard = doubted_by(self.terminal.doubt, heard);
                self.pairs = opened_on_arrival(self.nad, self.pairs, reached);
                self.last = last_sent(self.last, class, reached);
                Report {
                    silence,
                    said,
                    before,
                }
            }
            Side::Card => {
                let before = self.terminal.number;
                let said = self.card.sent(class, ruling, self.blocks);
                let heard = heard_of(Side::Terminal, addressed, came_addressed, class, reached);
                self.terminal.correct(is_refusing(class));
                let heard = doubted_by(self.card.doubt, heard);
                self.terminal.takes_answer(self.last, heard);
                self.terminal.take_turn(!is_lost(reached));
                self.last = self.last.settled();
                Report {
                    silence: Silence::No,
                    said,
                    before,
                }
            }
        }
    }

    /// Says to the monitor that the terminal's waiting time ended. Returns whether the card owed a block.
    pub fn quiet(&mut self) -> Silence
        ensures after { self.new ≡ quiet_after self.old }
        ensures silence { result ≡ silence_of self.old.card.heard self.old.terminal.number }
    {
        let silence = self.silence();
        self.terminal.waits_here(self.last);
        self.last = self.last.gone_quiet();
        self.card.pass_over();
        self.card.correct(true);
        self.card.heard = heard_in_time(self.card.heard);
        silence
    }

    /// Says to the monitor that the card was reset. Both ends begin again, with this IFSC, and blocks are counted on.
    pub fn reset(&mut self, ifsc: u8)
        ensures { self.new ≡ reset_after self.old ifsc }
    {
        *self = Monitor {
            blocks: self.blocks,
            ..Monitor::new(ifsc)
        };
    }

    /// Says to the monitor that the next block comes in the midst of a session of which nothing is known. Blocks are
    /// counted on.
    pub fn begins_midway(&mut self)
        ensures { self.new ≡ midway_after self.old }
    {
        *self = Monitor {
            terminal: Watched::met(Side::Terminal),
            card: Watched::met(Side::Card),
            nad: None,
            pairs: Pairs::Many,
            last: Last::Here,
            blocks: self.blocks,
        };
    }

    /// Returns whether the card owes a block now, as for the end of a trace.
    pub fn silence(&self) -> Silence
        ensures { result ≡ silence_of self.now.card.heard self.now.terminal.number }
    {
        silence_of(self.card.heard, self.terminal.number)
    }
}
