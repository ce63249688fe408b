//! The states of both ends, which the caller keeps. Nothing is allocated.

ghost use Rattle.std.specs.Prelude.{◌≡◌, true, false, IfSome, IfNone, None, Some};
ghost use Rattle.t1_core.specs.declared.lent.LentTerminal.{LentTerminal};
ghost use Rattle.t1_core.specs.declared.lent.LentCard.{LentCard};
ghost use Rattle.t1_core.specs.Views.{IsLentTerminal};
ghost use Rattle.t1_core.specs.CardViews.{IsLentCard};
ghost use Rattle.c_lent.specs.Number.{number_of};
ghost use Rattle.c_lent.specs.Kept.{mark_of, saved_from, saved_shown, cut_at, terminal_wait_of, terminal_wait_shown, terminal_of, card_wait_of, card_wait_shown, card_of};

use crate::number::number_of;
use block_core::Number;
use t1_core::{CardAsked, CardWait, Cut, LentCard, LentTerminal, TerminalWait};

/// The state of a terminal. Its fields are private to the library. Only a value that a call left is usable, and each
/// call checks the fields.
#[repr(C)]
#[derive(Clone, Copy)]
pub struct CTerminal {
    pub number: u8,
    pub expected: u8,
    pub failures: u8,
    pub ifsc: u8,
    pub ifsd: u8,
    pub first_ifsc: u8,
    pub wait: u8,
    pub size: u8,
    pub is_answered: u8,
    pub place: usize,
    pub most_command: usize,
    pub most_answer: usize,
    pub command_len: usize,
    pub answer_len: usize,
}

/// The state of a card. Its fields are private to the library, as those of a terminal.
#[repr(C)]
#[derive(Clone, Copy)]
pub struct CCard {
    pub number: u8,
    pub expected: u8,
    pub has_saved: u8,
    pub saved_size: u8,
    pub ifsc: u8,
    pub ifsd: u8,
    pub first_ifsc: u8,
    pub wait: u8,
    pub size: u8,
    pub saved_place: usize,
    pub place: usize,
    pub most_command: usize,
    pub most_reply: usize,
    pub command_len: usize,
    pub reply_len: usize,
}

/// Returns what a mark means: 0 no, 1 yes.
pub fn mark_of(mark: u8) -> Option<bool>
    ensures { result ≡ mark_of mark }
{
    match mark {
        0 => Some(false),
        1 => Some(true),
        _ => None,
    }
}

/// Returns the mark for a bool.
pub fn mark(is_so: bool) -> u8
    ensures { mark_of result ≡ Some is_so }
{
    if is_so { 1 } else { 0 }
}

/// Returns the octet for a number.
pub fn octet(number: Number) -> u8
    ensures { number_of result ≡ Some number }
{
    match number {
        Number::Zero => 0,
        Number::One => 1,
    }
}

/// Returns what a terminal waits for, by its number, a size or a count, and a place.
fn terminal_wait_of(kind: u8, size: u8, place: usize) -> Option<TerminalWait>
    ensures { result ≡ terminal_wait_of kind size place }
{
    match kind {
        0 => Some(TerminalWait::Idle),
        1 => Some(TerminalWait::Ack(Cut { place, size })),
        2 => Some(TerminalWait::Answer(Cut { place, size })),
        3 => Some(TerminalWait::More),
        4 => Some(TerminalWait::Ifs(size)),
        5 => Some(TerminalWait::Resynch(size)),
        6 => Some(TerminalWait::Dead),
        _ => None,
    }
}

/// Returns the number of what a terminal waits for, with a size or a count, and a place.
fn terminal_waiting(wait: TerminalWait) -> (u8, u8, usize)
    ensures shown { result ≡ terminal_wait_shown wait }
    ensures kept { terminal_wait_of result.0 result.1 result.2 ≡ Some wait }
{
    match wait {
        TerminalWait::Idle => (0, 0, 0),
        TerminalWait::Ack(cut) => (1, cut.size, cut.place),
        TerminalWait::Answer(cut) => (2, cut.size, cut.place),
        TerminalWait::More => (3, 0, 0),
        TerminalWait::Ifs(size) => (4, size, 0),
        TerminalWait::Resynch(asked) => (5, asked, 0),
        TerminalWait::Dead => (6, 0, 0),
    }
}

/// Returns what a card waits for, by its number, a size or a multiple, and a place.
fn card_wait_of(kind: u8, size: u8, place: usize) -> Option<CardWait>
    ensures { result ≡ card_wait_of kind size place }
{
    match kind {
        0 => Some(CardWait::Command),
        1 => Some(CardWait::Joining),
        2 => Some(CardWait::Host),
        3 => Some(CardWait::Reply(Cut { place, size })),
        4 => Some(CardWait::Asking(CardAsked::Size(size))),
        5 => Some(CardWait::Asking(CardAsked::Time(size))),
        _ => None,
    }
}

/// Returns the number of what a card waits for, with a size or a multiple, and a place.
fn card_waiting(wait: CardWait) -> (u8, u8, usize)
    ensures shown { result ≡ card_wait_shown wait }
    ensures kept { card_wait_of result.0 result.1 result.2 ≡ Some wait }
{
    match wait {
        CardWait::Command => (0, 0, 0),
        CardWait::Joining => (1, 0, 0),
        CardWait::Host => (2, 0, 0),
        CardWait::Reply(cut) => (3, cut.size, cut.place),
        CardWait::Asking(CardAsked::Size(size)) => (4, size, 0),
        CardWait::Asking(CardAsked::Time(multiple)) => (5, multiple, 0),
    }
}

/// Returns the saved block, if the mark says that there is one.
fn saved_from(has_saved: bool, place: usize, size: u8) -> Option<Cut>
    ensures { result ≡ saved_from has_saved (cut_at place size) }
{
    if has_saved {
        Some(Cut { place, size })
    } else {
        None
    }
}

/// Returns whether a block is saved, and its place and size.
fn saving(saved: Option<Cut>) -> (bool, usize, u8)
    ensures shown { result ≡ saved_shown saved }
    ensures kept { saved_from result.0 (cut_at result.1 result.2) ≡ saved }
{
    match saved {
        Some(cut) => (true, cut.place, cut.size),
        None => (false, 0, 0),
    }
}

impl CTerminal {
    /// Returns the state of a terminal as a struct of C.
    pub fn of(end: &LentTerminal) -> CTerminal
        ensures kept { terminal_of result ≡ Some end.now }
        ensures unused { (result.wait, result.size, result.place)
            ≡ terminal_wait_shown end.now.wait }
    {
        let (wait, size, place) = terminal_waiting(end.wait);
        CTerminal {
            number: octet(end.number),
            expected: octet(end.expected),
            failures: end.failures,
            ifsc: end.ifsc,
            ifsd: end.ifsd,
            first_ifsc: end.first_ifsc,
            wait,
            size,
            is_answered: mark(end.is_answered),
            place,
            most_command: end.most_command,
            most_answer: end.most_answer,
            command_len: end.command_len,
            answer_len: end.answer_len,
        }
    }

    /// Returns the terminal that the fields spell, if any.
    #[inline(always)]
    pub(crate) fn spelled(&self) -> Option<LentTerminal>
        ensures terminal { result ≡ terminal_of self.now }
        ensures wait { IfSome result (λ end.
            terminal_wait_of self.now.wait self.now.size self.now.place ≡ Some end.wait) }
    {
        Some(LentTerminal {
            number: number_of(self.number)?,
            expected: number_of(self.expected)?,
            failures: self.failures,
            ifsc: self.ifsc,
            ifsd: self.ifsd,
            first_ifsc: self.first_ifsc,
            wait: terminal_wait_of(self.wait, self.size, self.place)?,
            is_answered: mark_of(self.is_answered)?,
            most_command: self.most_command,
            most_answer: self.most_answer,
            command_len: self.command_len,
            answer_len: self.answer_len,
        })
    }

    /// Returns the terminal that the fields spell, if it fits buffers of these sizes.
    #[inline(never)]
    pub fn fitting(&self, command: usize, answer: usize) -> Option<LentTerminal>
        ensures some { IfSome result (λ end.
            (terminal_of self.now ≡ Some end) × IsLentTerminal end command answer) }
        ensures none { IfNone result
            ((end : LentTerminal) → terminal_of self.now ≡ Some end →
            IsLentTerminal end command answer → ⊥) }
    {
        let end = self.spelled()?;
        if end.fits(command, answer) {
            Some(end)
        } else {
            None
        }
    }
}

impl CCard {
    /// Returns the state of a card as a struct of C.
    pub fn of(end: &LentCard) -> CCard
        ensures kept { card_of result ≡ Some end.now }
        ensures unused { (result.wait, result.size, result.place) ≡ card_wait_shown end.now.wait }
        ensures unsaved { end.now.saved ≡ None → (result.saved_place ≡ 0)
            × (result.saved_size ≡ 0) }
        ensures command { result.command_len ≡ end.now.command_len }
    {
        let (wait, size, place) = card_waiting(end.wait);
        let (has_saved, saved_place, saved_size) = saving(end.saved);
        CCard {
            number: octet(end.number),
            expected: octet(end.expected),
            has_saved: mark(has_saved),
            saved_size,
            ifsc: end.ifsc,
            ifsd: end.ifsd,
            first_ifsc: end.first_ifsc,
            wait,
            size,
            saved_place,
            place,
            most_command: end.most_command,
            most_reply: end.most_reply,
            command_len: end.command_len,
            reply_len: end.reply_len,
        }
    }

    /// Returns the card that the fields spell, if any.
    #[inline(always)]
    pub(crate) fn spelled(&self) -> Option<LentCard>
        ensures card { result ≡ card_of self.now }
        ensures wait { IfSome result (λ end.
            card_wait_of self.now.wait self.now.size self.now.place ≡ Some end.wait) }
        ensures command { IfSome result (λ end. end.command_len ≡ self.now.command_len) }
    {
        let number = number_of(self.number)?;
        let expected = number_of(self.expected)?;
        let wait = card_wait_of(self.wait, self.size, self.place)?;
        let has_saved = mark_of(self.has_saved)?;
        Some(LentCard {
            number,
            expected,
            saved: saved_from(has_saved, self.saved_place, self.saved_size),
            ifsc: self.ifsc,
            ifsd: self.ifsd,
            first_ifsc: self.first_ifsc,
            wait,
            most_command: self.most_command,
            most_reply: self.most_reply,
            command_len: self.command_len,
            reply_len: self.reply_len,
        })
    }

    /// Returns the card that the fields spell, if it fits buffers of these sizes.
    #[inline(never)]
    pub fn fitting(&self, command: usize, reply: usize) -> Option<LentCard>
        ensures some { IfSome result (λ end.
            (card_of self.now ≡ Some end) × IsLentCard end command reply) }
        ensures none { IfNone result ((end : LentCard) → card_of self.now ≡ Some end →
            IsLentCard end command reply → ⊥) }
        ensures command { IfSome result (λ end. end.command_len ≡ self.now.command_len) }
    {
        let end = self.spelled()?;
        if end.fits(command, reply) {
            Some(end)
        } else {
            None
        }
    }
}
