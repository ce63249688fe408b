//! The state of a judge of a line, which the caller keeps. Nothing is allocated.

ghost use Rattle.std.specs.Prelude.{◌≡◌};
ghost use Rattle.c_lent.specs.KeptJudge.{doubt_in, end_of, heard_as, heard_of, monitor_of, pcb_in, watched_of};

use crate::judge_numbers::{
    Spelled, asked, asked_in, doubt, doubt_in, heard_as, last, last_in, mark_in, nad_in, nad_kept,
    number_in, owed, owed_in, pairs, pairs_in, pcb, pcb_in, pending, pending_in, side, side_in,
};
use crate::kept::mark;
use crate::number::number;
use arrayvec::ArrayVec;
use block_core::LONGEST_INF;
use judge_core::{End, Heard, Monitor, Row, Watched};

/// The state of an end: it decides what the end may send.
#[repr(C)]
#[derive(Clone, Copy)]
pub struct CEnd {
    pub side: u8,
    pub next: u8,
    pub expects: u8,
    pub pending: u8,
    pub asked: u8,
    pub asked_octet: u8,
    pub before: u8,
    pub before_octet: u8,
    pub tries: u8,
    pub repeats: u8,
    pub corrections: u8,
    pub room: u8,
    pub first_room: u8,
    pub largest_room: u8,
    pub known: u8,
    pub aborted: u8,
}

/// What an end may have received since its last block.
#[repr(C)]
#[derive(Clone, Copy)]
pub struct CHeard {
    pub kind: u8,
    pub block: u8,
    pub about: u8,
    pub detail: u8,
    pub octet: u8,
}

/// An end of the line, with the information field of its last I-block.
#[repr(C)]
#[derive(Clone, Copy)]
pub struct CWatched {
    pub number: u64,
    pub end: CEnd,
    pub heard: CHeard,
    pub doubt: u8,
    pub last_len: u8,
    pub last: [u8; 254],
}

/// The state of a judge. Its fields are private to the library. With any values, they are the state of a judge.
#[repr(C)]
#[derive(Clone, Copy)]
pub struct CJudge {
    pub terminal: CWatched,
    pub card: CWatched,
    pub blocks: u64,
    pub has_nad: u8,
    pub nad: u8,
    pub pairs: u8,
    pub other: u8,
    pub last: u8,
}

impl CHeard {
    fn of(heard: Heard) -> CHeard
        ensures { heard_of result ≡ heard }
    {
        match heard {
            Heard::Beginning => CHeard::about(0, (0, 0, 0), 0),
            Heard::Whole(block, octet) => CHeard::about(1, pcb(block), octet),
            Heard::Perhaps(block, octet) => CHeard::about(2, pcb(block), octet),
            Heard::Broken => CHeard::about(3, (0, 0, 0), 0),
            Heard::Nothing => CHeard::about(4, (0, 0, 0), 0),
        }
    }

    fn about(kind: u8, spelled: Spelled, octet: u8) -> CHeard
        ensures { heard_of result ≡ heard_as kind (pcb_in spelled.0 spelled.1 spelled.2) octet }
    {
        let (block, about, detail) = spelled;
        CHeard {
            kind,
            block,
            about,
            detail,
            octet,
        }
    }

    fn heard(self) -> Heard
        ensures { result ≡ heard_of self }
    {
        let block = pcb_in(self.block, self.about, self.detail);
        heard_as(self.kind, block, self.octet)
    }
}

impl CEnd {
    fn of(end: End) -> CEnd
        ensures { end_of result ≡ end }
    {
        let (asked, asked_octet) = asked(end.asked);
        let (before, before_octet) = owed(end.before);
        CEnd {
            side: side(end.side),
            next: number(end.next),
            expects: number(end.expects),
            pending: pending(end.pending),
            asked,
            asked_octet,
            before,
            before_octet,
            tries: end.tries,
            repeats: end.row.repeats,
            corrections: end.row.corrections,
            room: end.room,
            first_room: end.first_room,
            largest_room: end.largest_room,
            known: mark(end.known),
            aborted: mark(end.aborted),
        }
    }

    fn end(self) -> End
        ensures { result ≡ end_of self }
    {
        End {
            side: side_in(self.side),
            next: number_in(self.next),
            expects: number_in(self.expects),
            pending: pending_in(self.pending),
            asked: asked_in(self.asked, self.asked_octet),
            before: owed_in(self.before, self.before_octet),
            tries: self.tries,
            row: Row {
                repeats: self.repeats,
                corrections: self.corrections,
            },
            room: self.room,
            first_room: self.first_room,
            largest_room: self.largest_room,
            known: mark_in(self.known),
            aborted: mark_in(self.aborted),
        }
    }
}

impl CWatched {
    fn of(watched: &Watched) -> CWatched
        ensures { watched_of result ≡ watched.now }
    {
        let octets = watched.last.as_slice();
        let mut last = [0; 254];
        last[..octets.len()].copy_from_slice(octets);
        CWatched {
            number: watched.number,
            end: CEnd::of(watched.end),
            heard: CHeard::of(watched.heard),
            doubt: doubt(watched.doubt),
            last_len: octets.len() as u8,
            last,
        }
    }

    fn watched(&self) -> Watched
        ensures { result ≡ watched_of self.now }
    {
        Watched {
            end: self.end.end(),
            heard: self.heard.heard(),
            last: self.field(),
            number: self.number,
            doubt: doubt_in(self.doubt),
        }
    }

    /// Returns the information field of the last I-block.
    fn field(&self) -> ArrayVec<u8, LONGEST_INF>
        ensures { result ≡ (watched_of self.now).last }
    {
        let len = usize::from(self.last_len).min(254);
        let mut field = ArrayVec::new();
        field.try_extend_from_slice(&self.last[..len]).unwrap();
        field
    }
}

impl CJudge {
    /// Returns the state of a judge as a struct of C.
    pub fn of(monitor: &Monitor) -> CJudge
        ensures { monitor_of result ≡ monitor.now }
    {
        let (has_nad, nad) = nad_kept(monitor.nad);
        let (pairs, other) = pairs(monitor.pairs);
        CJudge {
            terminal: CWatched::of(&monitor.terminal),
            card: CWatched::of(&monitor.card),
            blocks: monitor.blocks,
            has_nad: mark(has_nad),
            nad,
            pairs,
            other,
            last: last(monitor.last),
        }
    }

    /// Returns the judge with this state.
    pub fn monitor(&self) -> Monitor
        ensures { result ≡ monitor_of self.now }
    {
        Monitor {
            terminal: self.terminal.watched(),
            card: self.card.watched(),
            nad: nad_in(mark_in(self.has_nad), self.nad),
            pairs: pairs_in(self.pairs, self.other),
            last: last_in(self.last),
            blocks: self.blocks,
        }
    }
}
