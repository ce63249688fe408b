//! Notes on blocks.

ghost use Rattle.std.specs.Prelude.{◌≡◌};
ghost use Rattle.notes.specs.Says.{lrc_says, nad_says, pcb_says, said, supervisory_says, target};

use crate::note::Note;

/// Returns the note on an LRC.
pub fn lrc_note() -> Note
    ensures { said result.before.now result.number result.after.now ≡ lrc_says }
{
    Note::of("exclusive-or of the octets before it")
}

/// Returns the note on a NAD with addresses: from which to which (ISO/IEC 7816-3, 11.3.2.1).
pub fn nad_note(nad: u8) -> Note
    ensures { said result.before.now result.number result.after.now ≡ nad_says nad }
{
    match nad {
        0 => Note::of(""),
        _ => Note::with("from ", nad % 8, target(nad / 16 % 8)),
    }
}

fn target(address: u8) -> &'static str
    ensures { result.now ≡ target address }
{
    match address {
        0 => " to 0",
        1 => " to 1",
        2 => " to 2",
        3 => " to 3",
        4 => " to 4",
        5 => " to 5",
        6 => " to 6",
        _ => " to 7",
    }
}

/// Returns the note on a PCB with the first octet of its field (ISO/IEC 7816-3, 11.3.2.2). Empty if no block has this
/// PCB.
pub fn pcb_note(pcb: u8, first: u8) -> Note
    ensures { said result.before.now result.number result.after.now ≡ pcb_says pcb first }
{
    match pcb {
        0x00 | 0x40 => Note::with("I-block ", pcb / 64, ", the last of its chain"),
        0x20 | 0x60 => Note::with("I-block ", pcb / 64, ", more blocks of its chain follow"),
        0x80 | 0x90 => Note::with("no error, asks for block ", pcb / 16 % 2, ""),
        0x81 | 0x91 => Note::with(
            "parity or LRC error, asks for block ",
            pcb / 16 % 2,
            " again",
        ),
        0x82 | 0x92 => Note::with("another error, asks for block ", pcb / 16 % 2, " again"),
        _ => supervisory_note(pcb, first),
    }
}

fn supervisory_note(pcb: u8, first: u8) -> Note
    ensures { said result.before.now result.number result.after.now ≡ supervisory_says pcb first }
{
    match pcb {
        0xC0 => Note::of("asks to resynchronize"),
        0xC1 => Note::with("asks for an information field size of ", first, ""),
        0xC2 => Note::of("asks to abort the chain"),
        0xC3 => Note::with("asks for ", first, " times the block waiting time"),
        0xE0 => Note::of("resynchronizes"),
        0xE1 => Note::with("agrees to an information field size of ", first, ""),
        0xE2 => Note::of("aborts the chain"),
        0xE3 => Note::with("grants ", first, " times the block waiting time"),
        _ => Note::of(""),
    }
}
