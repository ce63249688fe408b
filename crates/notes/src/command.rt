//! Notes on commands.

ghost use Rattle.std.specs.Prelude.{◌≡◌, ◌==◌, ◌++◌, OnOk, string_bytes};
ghost use Rattle.notes.specs.Says.{chained, class_says, header_note, instruction_says, le_says, name_then, named, part_note, said, secured};
ghost use Rattle.notes.specs.Tables.{instructions};

use crate::note::{Note, push_text};
use std::alloc::AllocError;

/// The names of instruction codes (ISO/IEC 7816-4:2005, 5.1.2, table 4.2).
const INSTRUCTIONS: [(u8, &str); 51] = [
    (0x04, "DEACTIVATE FILE"),
    (0x0C, "ERASE RECORD"),
    (0x0E, "ERASE BINARY"),
    (0x0F, "ERASE BINARY"),
    (0x10, "PERFORM SCQL OPERATION"),
    (0x12, "PERFORM TRANSACTION OPERATION"),
    (0x14, "PERFORM USER OPERATION"),
    (0x20, "VERIFY"),
    (0x21, "VERIFY"),
    (0x22, "MANAGE SECURITY ENVIRONMENT"),
    (0x24, "CHANGE REFERENCE DATA"),
    (0x26, "DISABLE VERIFICATION REQUIREMENT"),
    (0x28, "ENABLE VERIFICATION REQUIREMENT"),
    (0x2A, "PERFORM SECURITY OPERATION"),
    (0x2C, "RESET RETRY COUNTER"),
    (0x44, "ACTIVATE FILE"),
    (0x46, "GENERATE ASYMMETRIC KEY PAIR"),
    (0x70, "MANAGE CHANNEL"),
    (0x82, "EXTERNAL or MUTUAL AUTHENTICATE"),
    (0x84, "GET CHALLENGE"),
    (0x86, "GENERAL AUTHENTICATE"),
    (0x87, "GENERAL AUTHENTICATE"),
    (0x88, "INTERNAL AUTHENTICATE"),
    (0xA0, "SEARCH BINARY"),
    (0xA1, "SEARCH BINARY"),
    (0xA2, "SEARCH RECORD"),
    (0xA4, "SELECT"),
    (0xB0, "READ BINARY"),
    (0xB1, "READ BINARY"),
    (0xB2, "READ RECORD"),
    (0xB3, "READ RECORD"),
    (0xC0, "GET RESPONSE"),
    (0xC2, "ENVELOPE"),
    (0xC3, "ENVELOPE"),
    (0xCA, "GET DATA"),
    (0xCB, "GET DATA"),
    (0xD0, "WRITE BINARY"),
    (0xD1, "WRITE BINARY"),
    (0xD2, "WRITE RECORD"),
    (0xD6, "UPDATE BINARY"),
    (0xD7, "UPDATE BINARY"),
    (0xDA, "PUT DATA"),
    (0xDB, "PUT DATA"),
    (0xDC, "UPDATE RECORD"),
    (0xDD, "UPDATE RECORD"),
    (0xE0, "CREATE FILE"),
    (0xE2, "APPEND RECORD"),
    (0xE4, "DELETE FILE"),
    (0xE6, "TERMINATE DF"),
    (0xE8, "TERMINATE EF"),
    (0xFE, "TERMINATE CARD USAGE"),
];

/// Appends the note on a header: the name of the instruction, if it has one in this class, and the class in words.
pub(crate) fn push_header(text: &mut String, class: u8, instruction: u8) -> Result<(), AllocError>
    ensures { OnOk result (string_bytes text.new ≡ string_bytes text.old
        ++ header_note class instruction) }
{
    push_name(text, instruction_name(class, instruction))?;
    push_text(text, class_note(class))
}

/// Appends a name and a separator.
fn push_name(text: &mut String, name: &str) -> Result<(), AllocError>
    ensures { OnOk result (string_bytes text.new ≡ string_bytes text.old ++ name_then name.now) }
{
    if name.is_empty() {
        return Ok(());
    }
    text.push_str(name)?;
    text.push_str(", ")
}

/// Returns the note on a class (ISO/IEC 7816-4:2005, 5.1.1, tables 2 and 3): its secure messaging, its channel, and
/// whether more commands of a chain follow.
pub fn class_note(class: u8) -> Note
    ensures { said result.before.now result.number result.after.now ≡ class_says class }
{
    let chain = chained(class / 16 % 2);
    match class {
        0x00..=0x1F => Note::with(secured(class / 4 % 4), class % 4, chain),
        0x20..=0x3F => Note::of("reserved class"),
        0x40..=0x7F => Note::with(secured(class / 32 % 2 * 2), class % 16 + 4, chain),
        0xFF => Note::of("invalid class"),
        _ => Note::of("proprietary class"),
    }
}

/// Returns in words the secure messaging of these two bits, and the word before the channel.
fn secured(bits: u8) -> &'static str
    ensures { result.now ≡ secured bits }
{
    match bits {
        0 => "no secure messaging, channel ",
        1 => "secure messaging in a proprietary format, channel ",
        2 => "secure messaging, header not processed, channel ",
        _ => "secure messaging, header authenticated, channel ",
    }
}

/// Returns in words whether more commands of a chain follow, by this bit.
fn chained(bit: u8) -> &'static str
    ensures { result.now ≡ chained bit }
{
    match bit {
        0 => "",
        _ => ", more commands of its chain follow",
    }
}

/// Returns the name of an instruction in a class of the standard, or that it is invalid in every class. Empty if it has
/// no name (ISO/IEC 7816-4:2005, 5.1.2, table 4.2).
pub fn instruction_name(class: u8, instruction: u8) -> &'static str
    ensures { result.now ≡ instruction_says class instruction }
{
    match instruction {
        0x60..=0x6F | 0x90..=0x9F => "invalid instruction",
        _ => match class {
            0x00..=0x1F | 0x40..=0x7F => standard_name(instruction),
            _ => "",
        },
    }
}

/// Returns the name of an instruction in the standard's table, if it has one.
fn standard_name(instruction: u8) -> &'static str
    ensures { result.now ≡ named (λ row. row.0 == instruction) (λ row. row.1) instructions }
{
    named(&INSTRUCTIONS, instruction)
}

/// Returns the name in the first of these rows with this instruction, if there is one.
fn named(rows: &'static [(u8, &'static str)], instruction: u8) -> &'static str
    ensures { result.now ≡ named (λ row. row.0 == instruction) (λ row. row.1.now) rows.now }
{
    let mut rest = rows;
    while let [(code, name), after @ ..] = rest {
        if *code == instruction {
            return name;
        }
        rest = after;
    }
    ""
}

/// Appends the note on a data field of so many octets, if there are some: Lc.
pub(crate) fn push_lc(text: &mut String, len: usize) -> Result<(), AllocError>
    ensures { OnOk result (string_bytes text.new ≡ string_bytes text.old ++ part_note len) }
{
    match len {
        0 => Ok(()),
        _ => write!(text, "Lc {len}"),
    }
}

/// Returns the note on Le: how many octets a response's data field may have.
pub fn le_note(le: Option<u32>) -> Note
    ensures { said result.before.now result.number result.after.now ≡ le_says le }
{
    match le {
        Some(1) => Note::of("at most 1 octet of response data"),
        Some(_) => Note {
            before: "at most ",
            number: le,
            after: " octets of response data",
        },
        None => Note::of(""),
    }
}
