//! Whether an end fits caller-owned buffers of given sizes. It is for an end that other code may have changed.

ghost use Rattle.std.specs.Prelude.{◌≡◌, true};
ghost use Rattle.t1_core.specs.Views.{IsLentTerminal, IsSize, IsInner, IsLast, IsWait};
ghost use Rattle.t1_core.specs.CardViews.{IsLentCard, IsSaved, IsCardWait};

use crate::lent::{LentCard, LentTerminal};
use crate::terminal::MOST_RESYNCHS;
use crate::turns::{CardAsked, CardWait, Cut, TerminalWait};
use octet_core::is_reserved;

/// Whether a block's field may have this size.
fn is_size(size: u8) -> bool
    ensures yes { result ≡ true → IsSize size }
    ensures no { IsSize size → result ≡ true }
{
    !is_reserved(size)
}

impl Cut {
    /// Whether more of a message of so many octets follows the block.
    fn is_inner(self, octets: usize) -> bool
        ensures yes { result ≡ true → IsInner self octets }
        ensures no { IsInner self octets → result ≡ true }
    {
        is_size(self.size) && self.place <= octets && octets - self.place > self.size as usize
    }

    /// Whether the block is the last of a message of so many octets.
    fn is_last(self, octets: usize) -> bool
        ensures yes { result ≡ true → IsLast self octets }
        ensures no { IsLast self octets → result ≡ true }
    {
        is_size(self.size) && self.place <= octets && octets - self.place <= self.size as usize
    }
}

impl TerminalWait {
    /// Whether a terminal that holds so many octets may be in this state.
    fn fits(self, command: usize, joined: usize, is_answered: bool) -> bool
        ensures yes { result ≡ true → IsWait self command joined is_answered }
        ensures no { IsWait self command joined is_answered → result ≡ true }
    {
        match self {
            TerminalWait::Idle | TerminalWait::Dead => true,
            TerminalWait::Ack(cut) => cut.is_inner(command) && joined == 0 && !is_answered,
            TerminalWait::Answer(cut) => cut.is_last(command) && joined == 0 && !is_answered,
            TerminalWait::More => !is_answered,
            TerminalWait::Ifs(size) => is_size(size),
            TerminalWait::Resynch(asked) => asked <= MOST_RESYNCHS,
        }
    }
}

impl LentTerminal {
    /// Whether this is a terminal whose buffers have room for so many octets.
    pub fn fits(&self, command: usize, answer: usize) -> bool
        ensures yes { result ≡ true → IsLentTerminal self.now command answer }
        ensures no { IsLentTerminal self.now command answer → result ≡ true }
    {
        self.wait
            .fits(self.command_len, self.answer_len, self.is_answered)
            && is_size(self.ifsc)
            && is_size(self.ifsd)
            && is_size(self.first_ifsc)
            && self.command_len <= command
            && self.answer_len <= answer
            && self.most_command <= command
            && self.most_answer <= answer
    }
}

impl CardWait {
    /// Whether a card whose reply has so many octets may be in this state.
    fn fits(self, saved: Option<Cut>, octets: usize) -> bool
        ensures yes { result ≡ true → IsCardWait self saved octets }
        ensures no { IsCardWait self saved octets → result ≡ true }
    {
        match self {
            CardWait::Command | CardWait::Joining => true,
            CardWait::Host | CardWait::Asking(CardAsked::Time(_)) => saved.is_none(),
            CardWait::Reply(cut) => cut.is_inner(octets) && saved.is_none(),
            CardWait::Asking(CardAsked::Size(size)) => is_size(size) && saved.is_none(),
        }
    }
}

/// Whether a card whose reply has so many octets may hold this block saved.
fn may_be_saved(saved: Option<Cut>, octets: usize) -> bool
    ensures yes { result ≡ true → IsSaved saved octets }
    ensures no { IsSaved saved octets → result ≡ true }
{
    match saved {
        Some(cut) => cut.is_last(octets),
        None => true,
    }
}

impl LentCard {
    /// Whether this is a card whose buffers have room for so many octets.
    pub fn fits(&self, command: usize, reply: usize) -> bool
        ensures yes { result ≡ true → IsLentCard self.now command reply }
        ensures no { IsLentCard self.now command reply → result ≡ true }
    {
        self.wait.fits(self.saved, self.reply_len)
            && may_be_saved(self.saved, self.reply_len)
            && is_size(self.ifsc)
            && is_size(self.ifsd)
            && is_size(self.first_ifsc)
            && self.command_len <= command
            && self.reply_len <= reply
            && self.most_command <= command
            && self.most_reply <= reply
    }
}
