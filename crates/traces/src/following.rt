//! What each item adds.

ghost use Rattle.std.specs.Prelude.{◌≡◌, IfOk, OnOk};
ghost use Rattle.traces.specs.Unseen.{asking_host, before_card, before_item, before_quiet, before_terminal, beginning, ending, moving, over_items};
ghost use Rattle.traces.specs.Following.{after_begins, after_host, after_item, after_items, after_moves, after_quiet, ended, from_card, from_terminal, reaches_card, reaches_terminal};
ghost use Rattle.traces.specs.Matching.{match_of};

use crate::follower::Follower;
use crate::matching::Match;
use crate::said::{Call, application_call, host_call};
use crate::seen::{Decoded, Seen, What, decode_each};
use crate::trace::Item;
use exchange_core::{Line, Side};
use std::alloc::AllocError;

impl Follower {
    /// Follows both ends over all items. It decodes each item once, before that.
    ///
    /// It adds to `unseen` the places of the lines that say what nobody saw.
    pub(crate) fn run(&mut self, items: &[Item], unseen: &mut Vec<usize>) -> Result<(), AllocError>
        ensures follows { OnOk result (self.new ≡ ended (after_items self.old items.now)) }
        ensures unseen { OnOk result (unseen.new.items
            ≡ ending (after_items self.old items.now) (over_items self.old items.now unseen.old.items)) }
    {
        let items = decode_each(self.alloc, items)?;
        self.follow(items.as_slice(), unseen)?;
        self.end(unseen)
    }

    /// Follows both ends over these items.
    fn follow(&mut self, items: &[Seen<'_>], unseen: &mut Vec<usize>) -> Result<(), AllocError>
        ensures follows { OnOk result (self.new ≡ after_items self.old items.now) }
        ensures unseen { OnOk result
            (unseen.new.items ≡ over_items self.old items.now unseen.old.items) }
    {
        let mut rest = items;
        while let [seen, after @ ..] = rest {
            self.see(seen, rest, unseen)?;
            rest = after;
        }
        Ok(())
    }

    /// Follows both ends over what was seen, the first of these items.
    fn see(
        &mut self,
        seen: &Seen<'_>,
        items: &[Seen<'_>],
        unseen: &mut Vec<usize>,
    ) -> Result<(), AllocError>
        ensures follows { OnOk result (self.new ≡ after_item self.old items.now seen.now) }
        ensures unseen { OnOk result
            (unseen.new.items ≡ before_item self.old items.now seen.now unseen.old.items) }
    {
        match &seen.what {
            What::Block { from, octets, lost } => {
                match from {
                    Side::Terminal => self.see_terminal(octets, *lost, items, unseen)?,
                    Side::Card => self.see_card(octets, *lost, items, unseen)?,
                }
                self.numbers = self.numbers.after(seen);
                Ok(())
            }
            What::Quiet => self.hear_nothing(items, unseen),
            What::Moment(moment) => {
                self.release()?;
                self.held = Some(*moment);
                Ok(())
            }
        }
    }

    /// Takes a block of the terminal.
    #[tactic(auto, unfolding(crate::specs::Following::from_terminal))]
    fn see_terminal(
        &mut self,
        octets: &Decoded<'_>,
        lost: bool,
        items: &[Seen<'_>],
        unseen: &mut Vec<usize>,
    ) -> Result<(), AllocError>
        ensures follows { OnOk result
            (self.new ≡ from_terminal self.old octets.now lost items.now) }
        ensures unseen { OnOk result (unseen.new.items
            ≡ before_terminal self.old octets.now items.now unseen.old.items) }
    {
        self.ask_host(items, unseen)?;
        self.settle_card(unseen)?;
        let met = self.move_terminal(octets, items, unseen)?;
        self.release()?;
        self.terminal_is = met.standing();
        let (sent, arrival) = met.sent(self.alloc, octets, lost)?;
        self.reach_card(Line::FromTerminal { sent, arrival }, lost)
    }

    /// Takes a block of the card.
    #[tactic(auto, unfolding(crate::specs::Following::from_card))]
    fn see_card(
        &mut self,
        octets: &Decoded<'_>,
        lost: bool,
        items: &[Seen<'_>],
        unseen: &mut Vec<usize>,
    ) -> Result<(), AllocError>
        ensures follows { OnOk result (self.new ≡ from_card self.old octets.now lost items.now) }
        ensures unseen { OnOk result
            (unseen.new.items ≡ before_card self.old items.now unseen.old.items) }
    {
        self.settle_terminal(unseen)?;
        self.ask_host(items, unseen)?;
        self.release()?;
        let met = self.card_is.matched(self.alloc, octets)?;
        self.card_is = met.standing();
        let (sent, arrival) = met.sent(self.alloc, octets, lost)?;
        self.reach_terminal(Line::FromCard { sent, arrival }, lost)
    }

    /// Takes the end of the terminal's waiting time.
    #[tactic(auto, unfolding(crate::specs::Following::after_quiet))]
    fn hear_nothing(
        &mut self,
        items: &[Seen<'_>],
        unseen: &mut Vec<usize>,
    ) -> Result<(), AllocError>
        ensures follows { OnOk result (self.new ≡ after_quiet self.old items.now) }
        ensures unseen { OnOk result
            (unseen.new.items ≡ before_quiet self.old items.now unseen.old.items) }
    {
        self.ask_host(items, unseen)?;
        self.settle_card(unseen)?;
        self.settle_terminal(unseen)?;
        self.release()?;
        self.reach_terminal(Line::Quiet, false)
    }

    /// Makes the call of the card's host, if the host has to make one.
    #[tactic(auto, unfolding(crate::specs::Following::after_host))]
    fn ask_host(&mut self, items: &[Seen<'_>], unseen: &mut Vec<usize>) -> Result<(), AllocError>
        ensures follows { OnOk result (self.new ≡ after_host self.old items.now) }
        ensures unseen { OnOk result
            (unseen.new.items ≡ asking_host self.old items.now unseen.old.items) }
    {
        if self.card_is.is_waiting() && !self.card.awaits_block() {
            let Call { line, is_cut } = host_call(self.alloc, self.numbers, items)?;
            self.note_if(is_cut, unseen)?;
            self.card_hears(line)?;
        }
        Ok(())
    }

    /// Makes the terminal send a block, by a call of its application or by the end of its waiting time. Returns how the
    /// octets match that block.
    #[tactic(auto, unfolding(crate::specs::Following::after_moves))]
    fn move_terminal(
        &mut self,
        octets: &Decoded<'_>,
        items: &[Seen<'_>],
        unseen: &mut Vec<usize>,
    ) -> Result<Match, AllocError>
        ensures follows { OnOk result (self.new ≡ after_moves self.old octets.now items.now) }
        ensures unseen { OnOk result
            (unseen.new.items ≡ moving self.old octets.now items.now unseen.old.items) }
        ensures matched { IfOk result (λ met. met ≡ match_of self.new.terminal_is octets.now) }
    {
        let has_waited = self.terminal_is.is_waiting() && self.terminal.awaits_block();
        self.begin_terminal(items, unseen)?;
        let met = self.terminal_is.matched(self.alloc, octets)?;
        if has_waited || !self.terminal_is.misses(&met, octets) {
            return Ok(met);
        }
        self.settle_terminal(unseen)?;
        self.note_if(true, unseen)?;
        self.terminal_hears(Line::Quiet)?;
        self.terminal_is.matched(self.alloc, octets)
    }

    /// If the terminal has no block to send, ends its waiting time, or makes a call of its application.
    #[tactic(auto, unfolding(crate::specs::Following::after_begins))]
    fn begin_terminal(
        &mut self,
        items: &[Seen<'_>],
        unseen: &mut Vec<usize>,
    ) -> Result<(), AllocError>
        ensures follows { OnOk result (self.new ≡ after_begins self.old items.now) }
        ensures unseen { OnOk result
            (unseen.new.items ≡ beginning self.old items.now unseen.old.items) }
    {
        if !self.terminal_is.is_waiting() {
            return Ok(());
        }
        if self.terminal.awaits_block() {
            self.note_if(true, unseen)?;
            return self.terminal_hears(Line::Quiet);
        }
        let Call { line, is_cut } = application_call(self.alloc, self.numbers, items)?;
        self.note_if(is_cut, unseen)?;
        self.terminal_hears(line)
    }

    /// Writes the line of a block of the terminal. The card takes it if the block arrived and the card is followed.
    #[tactic(auto, unfolding(crate::specs::Following::reaches_card))]
    fn reach_card(&mut self, line: Line, lost: bool) -> Result<(), AllocError>
        ensures { OnOk result (self.new ≡ reaches_card self.old line lost) }
    {
        if !lost && self.card_is.is_waiting() {
            self.card_hears(line)
        } else {
            self.write(line)
        }
    }

    /// Writes the line of a block of the card, or of the end of the waiting time. The terminal takes it if it arrived
    /// and the terminal is followed.
    #[tactic(auto, unfolding(crate::specs::Following::reaches_terminal))]
    fn reach_terminal(&mut self, line: Line, lost: bool) -> Result<(), AllocError>
        ensures { OnOk result (self.new ≡ reaches_terminal self.old line lost) }
    {
        if !lost && self.terminal_is.is_waiting() {
            self.terminal_hears(line)
        } else {
            self.write(line)
        }
    }
}
