//! What the program prints about a block.

ghost use Rattle.std.specs.Prelude.{◌≡◌, ◌++◌, codes, OnOk, refl, slice_index, string_bytes};
ghost use Rattle.block_core.specs.Block.{fault_code, front_of, number_bit, spelling, Parts};
ghost use Rattle.octet_core.specs.Octets.{xor_of};
ghost use Rattle.program_octets.specs.BlockTexts.{block_codec, lrc_members, lrc_row, lrc_rows, more_number, nad_row, pcb_object, pcb_row, pcb_text, supervisory_text};
ghost use Rattle.program_octets.specs.Places.{ranges_of};
ghost use Rattle.program_octets.specs.Rows.{with_row, with_rows};

use crate::codec::{Codec, Outcome};
use crate::places::Place;
use crate::row_lines::{OctetLine, RowLine};
use crate::rows::Rows;
use crate::shown::{Showable, Shown};
use crate::text::{push_hex, push_octet};
use block_core::{Block, BlockReason, BlockRef, Fault, Number, Pcb, S};
use layouts::Layout;
use notes::{CountNote, block_refusal_note, lrc_note, nad_note, pcb_note};
use octet_core::Stop;
use program_words::{Expected, FieldSize};
use std::alloc::{AllocError, Global};

impl Codec for Block {
    type Reason = BlockReason;

    ghost Value = { Parts };

    ghost codec = { λ expected. block_codec expected.ifs };

    ghost named = { λ _. refl };

    fn taken(_alloc: Global, octets: &[u8], expected: Expected) -> Outcome<usize, BlockReason> {
        let (_, taken) = BlockRef::decode(octets, expected.ifs.get())?;
        Ok(taken)
    }

    fn shown(
        alloc: Global,
        octets: &[u8],
        expected: Expected,
        layout: Layout,
        noted: bool,
    ) -> Outcome<Shown, BlockReason> {
        let (block, taken) = BlockRef::decode(octets, expected.ifs.get())?;
        let lrc = last(&block, &octets[..taken]);
        let checked = Checked { block, lrc };
        Ok(Shown::of(alloc, &checked, taken, expected.kind, layout, noted)?)
    }

    fn refusal_note(
        alloc: Global,
        octets: &[u8],
        stop: Stop<BlockReason>,
        _ifs: FieldSize,
    ) -> Result<String, AllocError> {
        block_refusal_note(alloc, octets, stop)
    }
}

/// A block with its check octet.
#[derive(Drop)]
struct Checked<'a> {
    block: BlockRef<'a>,
    lrc: u8,
}

impl Showable for Checked<'_> {
    ghost rows = { λ checked n. lrc_rows checked.block checked.lrc n };

    ghost members = { λ checked. lrc_members checked.block checked.lrc };

    fn push_rows(&self, to: &mut Rows, taken: usize) -> Result<(), AllocError> {
        push_block(to, &self.block, self.lrc, taken)
    }

    fn push_members(&self, _alloc: Global, text: &mut String) -> Result<(), AllocError> {
        push_members(text, &self.block, self.lrc)
    }
}

/// Returns the LRC of a block, the last of its octets.
fn last(block: &BlockRef<'_>, octets: &[u8]) -> u8
    requires { octets.now ≡ spelling block.now }
    ensures { result ≡ xor_of (front_of block.now) }
{
    octets[octets.len() - 1]
}

/// Appends the rows of a block: its node address, its kind, its information field and its LRC.
fn push_block(to: &mut Rows, block: &BlockRef<'_>, lrc: u8, taken: usize) -> Result<(), AllocError>
    ensures { OnOk result (to.new ≡ with_rows to.old (lrc_rows block.now lrc taken)) }
{
    let at = taken.saturating_sub(1);
    push_nad(to, block.nad())?;
    push_pcb_row(to, block.pcb(), block.inf())?;
    let count = CountNote {
        count: block.inf().len(),
    };
    to.push_word("inf ", block.inf(), &count, &Place::Range(3, at))?;
    push_lrc(to, lrc, &Place::Range(at, taken))
}

/// Appends the row of a node address.
fn push_nad(to: &mut Rows, nad: u8) -> Result<(), AllocError>
    ensures { OnOk result (to.new ≡ with_row to.old (nad_row nad)) }
{
    let line = OctetLine {
        front: "nad ",
        octet: nad,
    };
    to.push(&line, &nad_note(nad), &Place::Range(0, 1))
}

/// Appends the row of a block's kind, by its PCB and its information field.
fn push_pcb_row(to: &mut Rows, pcb: Pcb, inf: &[u8]) -> Result<(), AllocError>
    ensures { OnOk result (to.new ≡ with_row to.old (pcb_row pcb inf.now)) }
{
    let note = pcb_note(pcb.octet(), first(inf));
    to.push(&PcbLine { pcb }, &note, &Place::Range(1, 2))
}

/// The line of a block's kind.
#[derive(Clone, Copy)]
struct PcbLine {
    pcb: Pcb,
}

impl RowLine for PcbLine {
    ghost line = { λ l. codes "pcb " ++ pcb_text l.pcb };

    fn push_to(&self, text: &mut String) -> Result<(), AllocError> {
        text.push_str("pcb ")?;
        push_pcb(text, self.pcb)
    }
}

/// Appends the row of an LRC.
fn push_lrc(to: &mut Rows, lrc: u8, place: &Place<'_>) -> Result<(), AllocError>
    ensures { OnOk result (to.new ≡ with_row to.old (lrc_row lrc (ranges_of place.now))) }
{
    let line = OctetLine {
        front: "lrc ",
        octet: lrc,
    };
    to.push(&line, &lrc_note(), place)
}

/// Returns the first octet, or 0 if there are none.
fn first(octets: &[u8]) -> u8
    ensures { result ≡ slice_index octets.now 0 }
{
    match octets {
        [] => 0,
        [first, ..] => *first,
    }
}

/// Appends a block as members of an object.
fn push_members(text: &mut String, block: &BlockRef<'_>, lrc: u8) -> Result<(), AllocError>
    ensures { OnOk result (string_bytes text.new
        ≡ string_bytes text.old ++ lrc_members block.now lrc) }
{
    text.push_str(",\"nad\":\"")?;
    push_octet(text, block.nad())?;
    text.push_str("\",\"pcb\":")?;
    push_object(text, block.pcb())?;
    text.push_str(",\"inf\":\"")?;
    push_hex(text, block.inf())?;
    text.push_str("\",\"lrc\":\"")?;
    push_octet(text, lrc)?;
    text.push_str("\"")
}

/// Appends a block's kind as an object.
fn push_object(text: &mut String, pcb: Pcb) -> Result<(), AllocError>
    ensures { OnOk result (string_bytes text.new ≡ string_bytes text.old ++ pcb_object pcb) }
{
    match pcb {
        Pcb::Info { number, more } => {
            let number = number_digit(number);
            let more = more_digit(more);
            write!(
                text,
                "{{\"kind\":\"I\",\"number\":{number},\"more\":{more}}}"
            )
        }
        Pcb::Ready { number, fault } => {
            let number = number_digit(number);
            let error = error_digit(fault);
            write!(
                text,
                "{{\"kind\":\"R\",\"number\":{number},\"error\":{error}}}"
            )
        }
        Pcb::Request(about) => {
            let name = supervisory_name(about);
            write!(text, "{{\"kind\":\"S\",\"request\":\"{name}\"}}")
        }
        Pcb::Response(about) => {
            let name = supervisory_name(about);
            write!(text, "{{\"kind\":\"S\",\"response\":\"{name}\"}}")
        }
    }
}

/// Appends a block's kind in words.
fn push_pcb(text: &mut String, pcb: Pcb) -> Result<(), AllocError>
    ensures { OnOk result (string_bytes text.new ≡ string_bytes text.old ++ pcb_text pcb) }
{
    match pcb {
        Pcb::Info { number, more } => {
            let number = number_digit(number);
            let more = more_digit(more);
            write!(text, "I number {number} more {more}")
        }
        Pcb::Ready { number, fault } => {
            let number = number_digit(number);
            let error = error_digit(fault);
            write!(text, "R number {number} error {error}")
        }
        Pcb::Request(about) => {
            let name = supervisory_name(about);
            write!(text, "S request {name}")
        }
        Pcb::Response(about) => {
            let name = supervisory_name(about);
            write!(text, "S response {name}")
        }
    }
}

fn number_digit(number: Number) -> u8
    ensures { result ≡ number_bit number 1 }
{
    match number {
        Number::Zero => 0,
        Number::One => 1,
    }
}

fn more_digit(more: bool) -> u8
    ensures { result ≡ more_number more }
{
    if more { 1 } else { 0 }
}

fn error_digit(fault: Fault) -> u8
    ensures { result ≡ fault_code fault }
{
    match fault {
        Fault::Free => 0,
        Fault::Redundancy => 1,
        Fault::Other => 2,
    }
}

fn supervisory_name(about: S) -> &'static str
    ensures { result.now ≡ supervisory_text about }
{
    match about {
        S::Resynch => "RESYNCH",
        S::Ifs => "IFS",
        S::Abort => "ABORT",
        S::Wtx => "WTX",
    }
}
