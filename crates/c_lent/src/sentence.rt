//! A sentence on each reason for a refusal, from `specs/Sentences.antt`.

ghost use Rattle.std.specs.Prelude.{◌≡◌};
ghost use Rattle.c_lent.specs.Names.{ended};
ghost use Rattle.c_lent.specs.Sentences.{reason_sentence, atr_sentence, block_sentence, chain_sentence, command_sentence, response_sentence, tlv_sentence, dol_sentence, hex_sentence};

use crate::names::CText;

/// Returns a sentence on a reason of a codec: what is wrong with the refused octet; "" if the codec has no reason with
/// this number.
pub fn reason_sentence_text(codec: u8, reason: u8, out: &mut CText)
    ensures { out.new.octets.now ≡ ended (reason_sentence codec reason) }
{
    let octets = match codec {
        1 => atr_sentence(reason),
        2 => block_sentence(reason),
        3 => chain_sentence(reason),
        4 => command_sentence(reason),
        5 => response_sentence(reason),
        6 => tlv_sentence(reason),
        7 => dol_sentence(reason),
        8 => hex_sentence(reason),
        _ => b"\0",
    };
    *out = CText { octets };
}

fn atr_sentence(reason: u8) -> &'static [u8]
    ensures { result.now ≡ ended (atr_sentence reason) }
{
    match reason {
        1 => b"TS is neither 3B nor 3F.\0",
        2 => b"With this TD, every possible answer has more than 33 octets.\0",
        3 => b"TCK is wrong.\0",
        _ => b"\0",
    }
}

fn block_sentence(reason: u8) -> &'static [u8]
    ensures { result.now ≡ ended (block_sentence reason) }
{
    match reason {
        1 => b"PCB isn't one of the 18 valid values.\0",
        2 => b"LEN is FF, or wrong for this R- or S-block.\0",
        3 => b"LEN of an I-block exceeds the information size.\0",
        4 => b"The octet of an IFS request or response is 00 or FF.\0",
        5 => b"LRC is wrong.\0",
        _ => b"\0",
    }
}

fn chain_sentence(reason: u8) -> &'static [u8]
    ensures { result.now ≡ ended (chain_sentence reason) }
{
    match reason {
        1 => b"NAD is not 00.\0",
        2 => b"No block has this PCB.\0",
        3 => b"The block is an R- or S-block.\0",
        4 => b"The I-block has the wrong number.\0",
        5 => b"The last block that a chain may have has M=1.\0",
        6 => b"LEN is FF.\0",
        7 => b"LEN exceeds the information size.\0",
        8 => b"The message would exceed its limit.\0",
        9 => b"LRC is wrong.\0",
        _ => b"\0",
    }
}

fn command_sentence(reason: u8) -> &'static [u8]
    ensures { result.now ≡ ended (command_sentence reason) }
{
    match reason {
        1 => b"An octet follows the last one that the length fields allow.\0",
        _ => b"\0",
    }
}

fn response_sentence(reason: u8) -> &'static [u8]
    ensures { result.now ≡ ended (response_sentence reason) }
{
    match reason {
        1 => b"An octet follows the last one of the longest response.\0",
        _ => b"\0",
    }
}

fn tlv_sentence(reason: u8) -> &'static [u8]
    ensures { result.now ≡ ended (tlv_sentence reason) }
{
    match reason {
        1 => b"An object begins inside an object of depth 16.\0",
        2 => b"The low seven bits of the second tag octet are all 0.\0",
        3 => b"The tag would need a fourth octet.\0",
        4 => b"A length field begins with 80, or with 85 to FF.\0",
        5 => b"The octets still needed pass the end of the open object.\0",
        6 => b"The octets still needed pass the limit of the whole forest.\0",
        _ => b"\0",
    }
}

fn dol_sentence(reason: u8) -> &'static [u8]
    ensures { result.now ≡ ended (dol_sentence reason) }
{
    match reason {
        1 => b"A tag begins with 00.\0",
        2 => b"The low seven bits of the second tag octet are all 0.\0",
        3 => b"The tag would need a fourth octet.\0",
        _ => b"\0",
    }
}

fn hex_sentence(reason: u8) -> &'static [u8]
    ensures { result.now ≡ ended (hex_sentence reason) }
{
    match reason {
        1 => b"A character isn't a hexadecimal digit.\0",
        2 => b"The number of digits is odd.\0",
        _ => b"\0",
    }
}
