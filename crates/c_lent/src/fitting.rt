//! Whether a state that C keeps is an end that fits its buffers. Each call of a session asks this, so the fields are
//! tested in place, and no end is made of them.

ghost use Rattle.std.specs.Prelude.{◌≡◌, true, false, Option, Some, is_some};
ghost use Rattle.t1_core.specs.declared.turns.TerminalWait.{TerminalWait};
ghost use Rattle.t1_core.specs.declared.turns.CardWait.{CardWait};
ghost use Rattle.t1_core.specs.declared.turns.Cut.{Cut};
ghost use Rattle.t1_core.specs.declared.lent.LentTerminal.{LentTerminal};
ghost use Rattle.t1_core.specs.declared.lent.LentCard.{LentCard};
ghost use Rattle.t1_core.specs.Views.{IsInner, IsLast, IsWait, IsLentTerminal};
ghost use Rattle.t1_core.specs.CardViews.{IsCardWait, IsSaved, IsLentCard};
ghost use Rattle.c_lent.specs.Kept.{cut_at, terminal_wait_of, terminal_of, card_wait_of, card_of};

use crate::kept::{CCard, CTerminal};
use octet_core::is_reserved;
use t1_core::{Cut, LentCard, LentTerminal, MOST_RESYNCHS};

/// Whether more of a message of so many octets follows the block of this size at this place.
fn is_inner(place: usize, size: u8, octets: usize) -> bool
    ensures yes { result ≡ true → IsInner (cut_at place size) octets }
    ensures no { IsInner (cut_at place size) octets → result ≡ true }
{
    !is_reserved(size) && place <= octets && octets - place > size as usize
}

/// Whether the block of this size at this place is the last of a message of so many octets.
fn is_last(place: usize, size: u8, octets: usize) -> bool
    ensures yes { result ≡ true → IsLast (cut_at place size) octets }
    ensures no { IsLast (cut_at place size) octets → result ≡ true }
{
    !is_reserved(size) && place <= octets && octets - place <= size as usize
}

/// Whether a terminal that holds so many octets may wait for what these numbers say.
#[inline(always)]
fn may_wait(
    kind: u8,
    size: u8,
    place: usize,
    command: usize,
    joined: usize,
    is_answered: bool,
) -> bool
    ensures yes { result ≡ true → (wait : TerminalWait)
        → terminal_wait_of kind size place ≡ Some wait
        → IsWait wait command joined is_answered }
    ensures no { (wait : TerminalWait) → terminal_wait_of kind size place ≡ Some wait
        → IsWait wait command joined is_answered → result ≡ true }
{
    match kind {
        1 => is_inner(place, size, command) && joined == 0 && !is_answered,
        2 => is_last(place, size, command) && joined == 0 && !is_answered,
        3 => !is_answered,
        4 => !is_reserved(size),
        5 => size <= MOST_RESYNCHS,
        _ => true,
    }
}

/// Whether a card whose reply has so many octets may wait for what these numbers say.
#[inline(always)]
fn card_may_wait(kind: u8, size: u8, place: usize, has_saved: bool, octets: usize) -> bool
    ensures yes { (saved : Option Cut) → is_some saved ≡ has_saved → result ≡ true
        → (wait : CardWait)
        → card_wait_of kind size place ≡ Some wait → IsCardWait wait saved octets }
    ensures no { (saved : Option Cut) → is_some saved ≡ has_saved → (wait : CardWait)
        → card_wait_of kind size place ≡ Some wait → IsCardWait wait saved octets → result ≡ true }
{
    match kind {
        2 | 5 => !has_saved,
        3 => is_inner(place, size, octets) && !has_saved,
        4 => !is_reserved(size) && !has_saved,
        _ => true,
    }
}

/// Whether a card whose reply has so many octets may hold this block saved.
fn may_be_saved(saved: Option<Cut>, octets: usize) -> bool
    ensures yes { result ≡ true → IsSaved saved octets }
    ensures no { IsSaved saved octets → result ≡ true }
{
    match saved {
        Some(cut) => is_last(cut.place, cut.size, octets),
        None => true,
    }
}

/// Whether the sizes of a terminal are valid, and its buffers have room. What it waits for isn't tested.
fn has_room(end: &LentTerminal, command: usize, answer: usize) -> bool
    ensures yes { result ≡ true
        → IsWait end.now.wait end.now.command_len end.now.answer_len end.now.is_answered
        → IsLentTerminal end.now command answer }
    ensures no { IsLentTerminal end.now command answer → result ≡ true }
{
    !is_reserved(end.ifsc)
        && !is_reserved(end.ifsd)
        && !is_reserved(end.first_ifsc)
        && end.command_len <= command
        && end.answer_len <= answer
        && end.most_command <= command
        && end.most_answer <= answer
}

/// Whether the sizes and the saved block of a card are valid, and its buffers have room. What it waits for isn't
/// tested.
fn card_has_room(end: &LentCard, command: usize, reply: usize) -> bool
    ensures yes { result ≡ true → IsCardWait end.now.wait end.now.saved end.now.reply_len
        → IsLentCard end.now command reply }
    ensures no { IsLentCard end.now command reply → result ≡ true }
{
    !is_reserved(end.ifsc)
        && !is_reserved(end.ifsd)
        && !is_reserved(end.first_ifsc)
        && end.command_len <= command
        && end.reply_len <= reply
        && end.most_command <= command
        && end.most_reply <= reply
        && may_be_saved(end.saved, end.reply_len)
}

impl CTerminal {
    /// Whether the fields spell a terminal that fits buffers of these sizes.
    pub(crate) fn is_fitting(&self, command: usize, answer: usize) -> bool
        ensures some { result ≡ true → (end : LentTerminal)
            × (terminal_of self.now ≡ Some end) × IsLentTerminal end command answer }
        ensures none { result ≡ false → (end : LentTerminal) → terminal_of self.now ≡ Some end
            → IsLentTerminal end command answer → ⊥ }
    {
        match self.spelled() {
            Some(end) => {
                has_room(&end, command, answer)
                    && may_wait(
                        self.wait,
                        self.size,
                        self.place,
                        end.command_len,
                        end.answer_len,
                        end.is_answered,
                    )
            }
            None => false,
        }
    }
}

impl CCard {
    /// Whether the fields spell a card that fits buffers of these sizes.
    pub(crate) fn is_fitting(&self, command: usize, reply: usize) -> bool
        ensures some { result ≡ true → (end : LentCard)
            × (card_of self.now ≡ Some end) × IsLentCard end command reply }
        ensures none { result ≡ false → (end : LentCard) → card_of self.now ≡ Some end
            → IsLentCard end command reply → ⊥ }
    {
        match self.spelled() {
            Some(end) => {
                card_has_room(&end, command, reply)
                    && card_may_wait(
                        self.wait,
                        self.size,
                        self.place,
                        end.saved.is_some(),
                        end.reply_len,
                    )
            }
            None => false,
        }
    }
}
