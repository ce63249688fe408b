//! Blocks of another logical connection, which aren't judged (ISO/IEC 7816-3:2006, 11.3.2.1).

ghost use Rattle.std.specs.Prelude.{◌≡◌};
ghost use Rattle.judge_core.specs.declared.monitor.Said.TheVariants.{Elsewhere};
ghost use Rattle.judge_core.specs.Classes.{reaching_of, seen_of};
ghost use Rattle.judge_core.specs.Monitored.{answered_aside, answered_elsewhere, answers_terminal, asked_elsewhere, asks_resynch, elsewhere_after, heard_aside, heard_no_more, hears_aside, is_elsewhere, is_resynch, last_sent, overhears, report_with, shaken, shaken_end, waited_aside, waited_here};

use crate::address::{addressed_by, is_no_block, is_other, opened_by, pair_of};
use crate::class::Class;
use crate::connection::Last;
use crate::courses::Heard;
use crate::doubt::{in_doubt, is_open, is_turn, unknown_end};
use crate::end::End;
use crate::monitor::{Monitor, Report, Said, Silence, Watched};
use crate::reach::{
    Reached, heard_in_time, is_lost, no_block_came, opened_on_arrival, silence_of, surely_heard,
};
use block_core::{Pcb, S, Side};

impl Monitor {
    /// Whether octets are a block of another logical connection: the terminal may open any, and the card may answer in
    /// one that the terminal used.
    pub(crate) fn is_elsewhere(&self, from: Side, class: &Class<'_>) -> bool
        ensures { result ≡ is_elsewhere self.now from (seen_of class.now) }
    {
        match from {
            Side::Terminal => is_other(from, self.nad, class),
            Side::Card => {
                is_other(from, self.nad, class)
                    && self
                        .pairs
                        .is_open_to(self.last, self.card.heard.is_sure(), pair_of(from, class))
            }
        }
    }

    /// Takes a block of another logical connection.
    pub(crate) fn saw_elsewhere(
        &mut self,
        from: Side,
        class: &Class<'_>,
        reached: &Reached<'_>,
    ) -> Report
        ensures after { self.new ≡ elsewhere_after self.old from (seen_of class.now)
            (reaching_of reached.now) }
        ensures report { result ≡ report_with self.old from Elsewhere }
    {
        self.blocks = self.blocks.saturating_add(1);
        self.pairs = opened_by(from, self.nad, self.pairs, class);
        match from {
            Side::Terminal => {
                let silence = silence_of(self.card.heard, self.terminal.number);
                let before = self.card.number;
                self.asked_elsewhere(class, reached);
                Report {
                    silence,
                    said: Said::Elsewhere,
                    before,
                }
            }
            Side::Card => {
                let before = self.terminal.number;
                self.answered_elsewhere(reached);
                Report {
                    silence: Silence::No,
                    said: Said::Elsewhere,
                    before,
                }
            }
        }
    }

    fn asked_elsewhere(&mut self, class: &Class<'_>, reached: &Reached<'_>)
        ensures { self.new ≡ asked_elsewhere self.old (seen_of class.now)
            (reaching_of reached.now) }
    {
        let heard = heard_aside(self.nad, self.card.heard, reached);
        let resynch = asks_resynch(class);
        self.terminal.shake(resynch);
        self.card.pass_over();
        self.card.shake(resynch && !is_lost(reached));
        self.card.heard = heard;
        self.pairs = opened_on_arrival(self.nad, self.pairs, reached);
        self.last = Last::Asked;
    }

    fn answered_elsewhere(&mut self, reached: &Reached<'_>)
        ensures { self.new ≡ answered_elsewhere self.old (reaching_of reached.now) }
    {
        self.terminal.hears_aside(self.nad, reached);
        self.card.answered_aside();
        self.last = Last::Answered;
    }
}

impl Watched {
    /// Takes the end of the terminal's waiting time. While it waits for the answer to a block of another connection, the
    /// first one rests.
    pub(crate) fn waits_here(&mut self, last: Last)
        ensures { self.new ≡ waited_here last self.old }
    {
        if !last.is_asked() {
            self.waits_aside(last);
        }
    }

    /// Takes the end of a waiting time. If another connection is open, the terminal may not have heard that one.
    fn waits_aside(&mut self, last: Last)
        ensures { self.new ≡ waited_aside last self.old }
    {
        if last.is_away() && is_turn(self.heard) {
            self.pass_over();
        } else {
            self.wait();
        }
    }

    /// Takes what the terminal heard of octets of the card.
    pub(crate) fn takes_answer(&mut self, last: Last, heard: Heard)
        ensures { self.new ≡ answers_terminal last self.old heard }
    {
        if last.is_away() {
            self.overhear(heard);
        } else {
            self.heard = heard;
        }
    }

    /// Takes what the terminal heard while another connection is open. Octets that it can't use may be of either.
    fn overhear(&mut self, heard: Heard)
        ensures { self.new ≡ overhears self.old heard }
    {
        if let Heard::Broken = heard {
            self.heard = in_doubt(self.heard);
        } else {
            self.pass_over();
            self.heard = heard;
        }
    }

    /// Takes what the terminal heard of a block of another connection, which may have come damaged.
    fn hears_aside(&mut self, nad: Option<u8>, reached: &Reached<'_>)
        ensures { self.new ≡ hears_aside nad self.old (reaching_of reached.now) }
    {
        match reached {
            Reached::Unsaid => self.heard = in_doubt(self.heard),
            Reached::Lost => (),
            Reached::Came(came) if is_other(Side::Card, nad, came) => (),
            Reached::Came(came) => {
                self.overhear(surely_heard(addressed_by(Side::Card, nad, came), came));
            }
        }
    }

    /// Takes it that the card sent a block of another connection.
    fn answered_aside(&mut self)
        ensures { self.new ≡ answered_aside self.old }
    {
        self.heard = if is_open(self.doubt) {
            in_doubt(self.heard)
        } else {
            heard_no_more(self.heard)
        };
    }

    /// Takes RESYNCH in another connection, which may begin this one anew too.
    fn shake(&mut self, resynch: bool)
        ensures { self.new ≡ shaken resynch self.old }
    {
        if resynch {
            self.end = shaken_end(self.end);
        }
    }
}

fn shaken_end(end: End) -> End
    ensures { result ≡ shaken_end end }
{
    unknown_end(End {
        room: end.widest(),
        ..end
    })
}

/// Returns of which connection the last octets were, after octets of the terminal that aren't of another one.
pub(crate) fn last_sent(last: Last, class: &Class<'_>, reached: &Reached<'_>) -> Last
    ensures { result ≡ last_sent last (seen_of class.now) (reaching_of reached.now) }
{
    if is_no_block(class) && no_block_came(reached) {
        Last::Unclear
    } else {
        last.gone_on()
    }
}

fn asks_resynch(class: &Class<'_>) -> bool
    ensures { result ≡ asks_resynch (seen_of class.now) }
{
    match class {
        Class::Whole(block) => is_resynch(block.pcb()),
        Class::Malformed(_) | Class::Damage => false,
    }
}

fn is_resynch(pcb: Pcb) -> bool
    ensures { result ≡ is_resynch pcb }
{
    matches!(pcb, Pcb::Request(S::Resynch))
}

/// Returns what the card of the first connection heard since its last block, after a block of another one.
fn heard_aside(nad: Option<u8>, heard: Heard, reached: &Reached<'_>) -> Heard
    ensures { result ≡ heard_aside nad heard (reaching_of reached.now) }
{
    match reached {
        Reached::Unsaid => Heard::Broken,
        Reached::Lost => heard_in_time(heard),
        Reached::Came(came) if is_other(Side::Terminal, nad, came) => Heard::Broken,
        Reached::Came(came) => in_doubt(surely_heard(
            addressed_by(Side::Terminal, nad, came),
            came,
        )),
    }
}

/// Returns what a card still heard after it answered in another connection.
fn heard_no_more(heard: Heard) -> Heard
    ensures { result ≡ heard_no_more heard }
{
    match heard {
        Heard::Beginning => Heard::Beginning,
        Heard::Whole(pcb, octet) | Heard::Perhaps(pcb, octet) => Heard::Perhaps(pcb, octet),
        Heard::Broken | Heard::Nothing => Heard::Nothing,
    }
}
