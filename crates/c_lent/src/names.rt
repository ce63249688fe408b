//! The names of statuses, turns, reasons, classes of status bytes, shapes of commands and subjects of S-blocks.

ghost use Rattle.std.specs.Prelude.{◌≡◌};
ghost use Rattle.c_lent.specs.Names.{ended, status_name, turn_name, class_name, shape_name, about_name, reason_name, atr_name, block_name, chain_name, command_name, response_name, tlv_name, dol_name, hex_name};

/// A static text: its octets, with a 0 after them.
#[repr(C)]
#[derive(Clone, Copy)]
pub struct CText {
    pub octets: &'static [u8],
}

/// Returns the name of a status; "" for any other number.
pub fn status_text(status: u8, out: &mut CText)
    ensures { out.new.octets.now ≡ ended (status_name status) }
{
    let octets: &'static [u8] = match status {
        0 => b"OK\0",
        1 => b"SHORT\0",
        2 => b"AT\0",
        3 => b"MEMORY\0",
        4 => b"ARGUMENT\0",
        5 => b"DUPLICATE\0",
        6 => b"MORE\0",
        _ => b"\0",
    };
    *out = CText { octets };
}

/// Returns the name of the kind of a turn, or of what a session does next; "" for any other number.
pub fn turn_text(kind: u8, out: &mut CText)
    ensures { out.new.octets.now ≡ ended (turn_name kind) }
{
    let octets: &'static [u8] = match kind {
        0 => b"SEND\0",
        1 => b"DONE\0",
        2 => b"IFS_SET\0",
        3 => b"GIVEN_UP\0",
        4 => b"DEAD\0",
        16 => b"REFUSED_DEAD\0",
        17 => b"REFUSED_BUSY\0",
        18 => b"REFUSED_TOO_LONG\0",
        19 => b"REFUSED_RESERVED\0",
        20 => b"REFUSED_IDLE\0",
        21 => b"REFUSED_ORDER\0",
        32 => b"NO_END\0",
        33 => b"NO_ROOM\0",
        64 => b"SESSION_FAILED\0",
        65 => b"SESSION_USED_UP\0",
        66 => b"SESSION_NO_STATUS\0",
        67 => b"SESSION_ECHO\0",
        68 => b"SESSION_WAIT\0",
        _ => b"\0",
    };
    *out = CText { octets };
}

/// Returns the name of a class of status bytes; "" for any other number.
pub fn class_text(kind: u8, out: &mut CText)
    ensures { out.new.octets.now ≡ ended (class_name kind) }
{
    let octets: &'static [u8] = match kind {
        1 => b"NORMAL\0",
        2 => b"WARNING\0",
        3 => b"EXECUTION\0",
        4 => b"CHECKING\0",
        5 => b"PROPRIETARY\0",
        6 => b"INVALID\0",
        _ => b"\0",
    };
    *out = CText { octets };
}

/// Returns the name of the shape of a command; "" for any other number.
pub fn shape_text(shape: u8, out: &mut CText)
    ensures { out.new.octets.now ≡ ended (shape_name shape) }
{
    let octets: &'static [u8] = match shape {
        1 => b"CASE_1\0",
        2 => b"CASE_2_SHORT\0",
        3 => b"CASE_3_SHORT\0",
        4 => b"CASE_4_SHORT\0",
        5 => b"CASE_2_LONG\0",
        6 => b"CASE_3_LONG\0",
        7 => b"CASE_4_LONG\0",
        _ => b"\0",
    };
    *out = CText { octets };
}

/// Returns the name of the subject of an S-block; "" for any other number.
pub fn about_text(about: u8, out: &mut CText)
    ensures { out.new.octets.now ≡ ended (about_name about) }
{
    let octets: &'static [u8] = match about {
        0 => b"RESYNCH\0",
        1 => b"IFS\0",
        2 => b"ABORT\0",
        3 => b"WTX\0",
        _ => b"\0",
    };
    *out = CText { octets };
}

/// Returns the name of a reason of a codec; "" if the codec has no reason with this number.
pub fn reason_text(codec: u8, reason: u8, out: &mut CText)
    ensures { out.new.octets.now ≡ ended (reason_name codec reason) }
{
    let octets = match codec {
        1 => atr_text(reason),
        2 => block_text(reason),
        3 => chain_text(reason),
        4 => command_text(reason),
        5 => response_text(reason),
        6 => tlv_text(reason),
        7 => dol_text(reason),
        8 => hex_text(reason),
        _ => b"\0",
    };
    *out = CText { octets };
}

fn atr_text(reason: u8) -> &'static [u8]
    ensures { result.now ≡ ended (atr_name reason) }
{
    match reason {
        1 => b"BadTs\0",
        2 => b"TooLong\0",
        3 => b"BadTck\0",
        _ => b"\0",
    }
}

fn block_text(reason: u8) -> &'static [u8]
    ensures { result.now ≡ ended (block_name reason) }
{
    match reason {
        1 => b"BadPcb\0",
        2 => b"BadLen\0",
        3 => b"OverIfs\0",
        4 => b"BadIfs\0",
        5 => b"BadLrc\0",
        _ => b"\0",
    }
}

fn chain_text(reason: u8) -> &'static [u8]
    ensures { result.now ≡ ended (chain_name reason) }
{
    match reason {
        1 => b"BadNad\0",
        2 => b"BadPcb\0",
        3 => b"NotInfo\0",
        4 => b"BadSequence\0",
        5 => b"TooManyBlocks\0",
        6 => b"BadLen\0",
        7 => b"OverIfs\0",
        8 => b"TooLong\0",
        9 => b"BadLrc\0",
        _ => b"\0",
    }
}

fn command_text(reason: u8) -> &'static [u8]
    ensures { result.now ≡ ended (command_name reason) }
{
    match reason {
        1 => b"Trailing\0",
        _ => b"\0",
    }
}

fn response_text(reason: u8) -> &'static [u8]
    ensures { result.now ≡ ended (response_name reason) }
{
    match reason {
        1 => b"TooLong\0",
        _ => b"\0",
    }
}

fn tlv_text(reason: u8) -> &'static [u8]
    ensures { result.now ≡ ended (tlv_name reason) }
{
    match reason {
        1 => b"TooDeep\0",
        2 => b"TagSecond\0",
        3 => b"TagLong\0",
        4 => b"LengthForm\0",
        5 => b"Overrun\0",
        6 => b"TooLong\0",
        _ => b"\0",
    }
}

fn dol_text(reason: u8) -> &'static [u8]
    ensures { result.now ≡ ended (dol_name reason) }
{
    match reason {
        1 => b"TagZero\0",
        2 => b"TagSecond\0",
        3 => b"TagLong\0",
        _ => b"\0",
    }
}

fn hex_text(reason: u8) -> &'static [u8]
    ensures { result.now ≡ ended (hex_name reason) }
{
    match reason {
        1 => b"Digit\0",
        2 => b"Odd\0",
        _ => b"\0",
    }
}
