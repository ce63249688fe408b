//! The notes on lines.

ghost use Rattle.std.specs.Prelude.{◌≡◌, ◌++◌, ℕ, List, [], OnOk, string_bytes};
ghost use Rattle.tlv_core.specs.Flat.{part_seen};
ghost use Rattle.notes.specs.Says.{count_note, header_note, list_note, note_of, object_note, part_note, said, text_note};

use crate::command::{push_header, push_lc};
use crate::forest::push_object;
use crate::list::push_asked;
use crate::note::{Note, push_text};
use crate::text::{push_count, push_quoted};
use std::alloc::AllocError;
use tlv_core::{Part, Tag};

/// What the note on a line is about.
pub trait LineNote {
    /// The note. It is empty if the line has none.
    ghost note: { Self → List ℕ };

    /// Appends the note to a text.
    fn push_to(&self, text: &mut String) -> Result<(), AllocError>
        ensures { OnOk result (string_bytes text.new ≡ string_bytes text.old ++ note self.now) };
}

/// Nothing: a line without a note.
#[derive(Clone, Copy)]
pub struct NoNote;

impl LineNote for NoNote {
    ghost note = { λ _. [] };

    fn push_to(&self, _text: &mut String) -> Result<(), AllocError> {
        Ok(())
    }
}

impl LineNote for Note {
    ghost note = { λ n. note_of (said n.before.now n.number n.after.now) };

    fn push_to(&self, text: &mut String) -> Result<(), AllocError> {
        push_text(text, *self)
    }
}

/// The first two octets of a command's header.
#[derive(Clone, Copy)]
pub struct HeaderNote {
    pub class: u8,
    pub instruction: u8,
}

impl LineNote for HeaderNote {
    ghost note = { λ n. header_note n.class n.instruction };

    fn push_to(&self, text: &mut String) -> Result<(), AllocError> {
        push_header(text, self.class, self.instruction)
    }
}

/// The length of a command's data field, which is Lc. There is no note on 0.
#[derive(Clone, Copy)]
pub struct LcNote {
    pub len: usize,
}

impl LineNote for LcNote {
    ghost note = { λ n. part_note n.len };

    fn push_to(&self, text: &mut String) -> Result<(), AllocError> {
        push_lc(text, self.len)
    }
}

/// How many octets there are. There is no note on 0.
#[derive(Clone, Copy)]
pub struct CountNote {
    pub count: usize,
}

impl LineNote for CountNote {
    ghost note = { λ n. count_note n.count };

    fn push_to(&self, text: &mut String) -> Result<(), AllocError> {
        push_count(text, self.count)
    }
}

/// Octets that may be text. There is no note on others.
#[derive(Clone, Copy)]
pub struct TextNote<'a> {
    pub octets: &'a [u8],
}

impl LineNote for TextNote<'_> {
    ghost note = { λ n. text_note n.octets.now };

    fn push_to(&self, text: &mut String) -> Result<(), AllocError> {
        push_quoted(text, self.octets)
    }
}

/// The entries of a data object list.
#[derive(Clone, Copy)]
pub struct ListNote<'a> {
    pub entries: &'a [(Tag, u8)],
}

impl LineNote for ListNote<'_> {
    ghost note = { λ n. list_note n.entries.now };

    fn push_to(&self, text: &mut String) -> Result<(), AllocError> {
        push_asked(text, self.entries)
    }
}

impl LineNote for Part<'_> {
    ghost note = { λ part. object_note (part_seen part) };

    fn push_to(&self, text: &mut String) -> Result<(), AllocError> {
        push_object(text, self)
    }
}
