//! Notes on responses.

ghost use Rattle.std.specs.Prelude.{◌≡◌, ◌==◌, ◌&&◌};
ghost use Rattle.notes.specs.Says.{named, said, status_says, there};
ghost use Rattle.notes.specs.Tables.{statuses};

use crate::note::Note;

/// The meaning of status bytes (ISO/IEC 7816-4:2005, 5.1.3, tables 5 and 6), except those that have a number in SW2.
const STATUSES: [(u8, u8, &str); 46] = [
    (0x90, 0x00, "no further qualification"),
    (0x62, 0x00, "no information given, memory unchanged"),
    (0x62, 0x81, "part of the data may be corrupted"),
    (0x62, 0x82, "end of file or record reached before Ne octets"),
    (0x62, 0x83, "selected file deactivated"),
    (0x62, 0x84, "file control information not formatted"),
    (0x62, 0x85, "selected file in termination state"),
    (0x62, 0x86, "no input from a sensor on the card"),
    (0x63, 0x00, "no information given, memory changed"),
    (0x63, 0x81, "file filled up by the last write"),
    (0x64, 0x00, "execution error, memory unchanged"),
    (0x64, 0x01, "immediate response required by the card"),
    (0x65, 0x00, "no information given, memory changed"),
    (0x65, 0x81, "memory failure"),
    (0x66, 0x00, "security-related issue"),
    (0x67, 0x00, "wrong length"),
    (0x68, 0x00, "functions in the class not supported"),
    (0x68, 0x81, "logical channel not supported"),
    (0x68, 0x82, "secure messaging not supported"),
    (0x68, 0x83, "last command of the chain expected"),
    (0x68, 0x84, "command chaining not supported"),
    (0x69, 0x00, "command not allowed"),
    (0x69, 0x81, "command incompatible with file structure"),
    (0x69, 0x82, "security status not satisfied"),
    (0x69, 0x83, "authentication method blocked"),
    (0x69, 0x84, "reference data not usable"),
    (0x69, 0x85, "conditions of use not satisfied"),
    (0x69, 0x86, "command not allowed, no current file"),
    (0x69, 0x87, "secure messaging data objects missing"),
    (0x69, 0x88, "secure messaging data objects incorrect"),
    (0x6A, 0x00, "wrong parameters, no information given"),
    (0x6A, 0x80, "incorrect parameters in the data field"),
    (0x6A, 0x81, "function not supported"),
    (0x6A, 0x82, "file or application not found"),
    (0x6A, 0x83, "record not found"),
    (0x6A, 0x84, "not enough memory space in the file"),
    (0x6A, 0x85, "Nc inconsistent with data objects"),
    (0x6A, 0x86, "incorrect parameters P1-P2"),
    (0x6A, 0x87, "Nc inconsistent with parameters P1-P2"),
    (0x6A, 0x88, "referenced data or reference data not found"),
    (0x6A, 0x89, "file already exists"),
    (0x6A, 0x8A, "DF name already exists"),
    (0x6B, 0x00, "wrong parameters P1-P2"),
    (0x6D, 0x00, "instruction code not supported or invalid"),
    (0x6E, 0x00, "class not supported"),
    (0x6F, 0x00, "no precise diagnosis"),
];

/// Returns the meaning of status bytes (ISO/IEC 7816-4:2005, 5.1.3, tables 5 and 6). Empty if they have no name.
pub fn status_note(sw1: u8, sw2: u8) -> Note
    ensures { said result.before.now result.number result.after.now ≡ status_says sw1 sw2 }
{
    match sw1 {
        0x61 => there("", sw2, " octet available", " octets available"),
        0x6C => there("wrong Le: ", sw2, " octet available", " octets available"),
        0x62 | 0x64 if 0x02 <= sw2 && sw2 <= 0x80 => {
            Note::with("the card has a query of ", sw2, " octets")
        }
        0x63 if 0xC0 <= sw2 && sw2 <= 0xCF => {
            Note::with("counter at ", sw2 - 0xC0, ", such as the tries left")
        }
        _ => Note::of(status_name(sw1, sw2)),
    }
}

/// Returns a note with SW2 as a number of octets, where 00 stands for 256. The words depend on whether it is one octet.
fn there(before: &'static str, sw2: u8, one: &'static str, others: &'static str) -> Note
    ensures { said result.before.now result.number result.after.now
        ≡ there before.now sw2 one.now others.now }
{
    Note {
        before,
        number: Some(if sw2 == 0 { 256 } else { u32::from(sw2) }),
        after: if sw2 == 1 { one } else { others },
    }
}

/// Returns the name of status bytes, if they have one.
fn status_name(sw1: u8, sw2: u8) -> &'static str
    ensures { result.now ≡ named (λ row. row.0 == sw1 && row.1 == sw2) (λ row. row.2) statuses }
{
    named(&STATUSES, sw1, sw2)
}

/// Returns the name in the first of these rows with both octets, if there is one.
fn named(rows: &'static [(u8, u8, &'static str)], sw1: u8, sw2: u8) -> &'static str
    ensures { result.now ≡ named (λ row. row.0 == sw1 && row.1 == sw2) (λ row. row.2.now) rows.now }
{
    let mut rest = rows;
    while let [(first, second, name), after @ ..] = rest {
        if *first == sw1 && *second == sw2 {
            return name;
        }
        rest = after;
    }
    ""
}
