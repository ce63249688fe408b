//! Notes on octets for people, as C has them.

ghost use Rattle.std.specs.Prelude.{◌≡◌};
ghost use Rattle.notes.specs.Says.{said};
ghost use Rattle.c_lent.specs.Notes.{about_of, about_says, note_text, number_shown};

use notes::{
    Note, class_name, class_note, instruction_name, mode_note, nad_note, pcb_note, status_note,
    td_note,
};

/// What the one or two octets of a note are.
#[derive(Clone, Copy)]
pub enum About {
    /// The status bytes of a response.
    Status,
    /// The class and the instruction of a command.
    Instruction,
    /// The class of a command.
    Class,
    /// The PCB of a block, and the first octet of its field.
    Pcb,
    /// The NAD of a block.
    Nad,
    /// The protocol that a TD indicates.
    Td,
    /// TA2.
    Ta2,
    /// The first octet of a tag.
    Tag,
}

/// A note that is static text, with a number between its two parts. No 0 comes after either part. `has_number` is 1 if
/// there is a number. If there is none, both are 0.
#[repr(C)]
#[derive(Clone, Copy)]
pub struct CNote {
    pub before: &'static [u8],
    pub after: &'static [u8],
    pub number: u32,
    pub has_number: u8,
}

/// Returns the note on one or two octets, by the number in the header of what they are. Without a note, and for any
/// other number, both parts are empty.
pub fn note_of(about: u8, first: u8, second: u8, out: &mut CNote)
    ensures before { out.new.before.now ≡ (note_text about first second).before }
    ensures number { (out.new.has_number, out.new.number)
        ≡ number_shown (note_text about first second).number }
    ensures after { out.new.after.now ≡ (note_text about first second).after }
{
    let note = said_of(about_of(about), first, second);
    *out = CNote {
        before: note.before.as_bytes(),
        after: note.after.as_bytes(),
        number: note.number.unwrap_or(0),
        has_number: if note.number.is_some() { 1 } else { 0 },
    };
}

/// Returns what octets are, by its number in the header.
fn about_of(number: u8) -> Option<About>
    ensures { result ≡ about_of number }
{
    match number {
        1 => Some(About::Status),
        2 => Some(About::Instruction),
        3 => Some(About::Class),
        4 => Some(About::Pcb),
        5 => Some(About::Nad),
        6 => Some(About::Td),
        7 => Some(About::Ta2),
        8 => Some(About::Tag),
        _ => None,
    }
}

/// Returns the note on these octets.
fn said_of(about: Option<About>, first: u8, second: u8) -> Note
    ensures { said result.before.now result.number result.after.now
        ≡ about_says about first second }
{
    match about {
        Some(About::Status) => status_note(first, second),
        Some(About::Instruction) => Note::of(instruction_name(first, second)),
        Some(About::Class) => class_note(first),
        Some(About::Pcb) => pcb_note(first, second),
        Some(About::Nad) => nad_note(first),
        Some(About::Td) => td_note(first),
        Some(About::Ta2) => mode_note(first),
        Some(About::Tag) => Note::of(class_name(first)),
        None => Note::of(""),
    }
}
