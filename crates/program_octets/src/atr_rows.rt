//! An answer to reset, row by row.

ghost use Rattle.std.specs.Prelude.{◌≡◌, ◌≤◌, ◌<◌, ◌+◌, ◌++◌, codes, IfOk, OnOk, length, string_bytes};
ghost use Rattle.std.specs.List.{AllByRecursion};
ghost use Rattle.program_octets.specs.AtrTexts.{after_byte, after_bytes, atr_rows, byte_rows, byte_line, bytes_rows, convention_row, convention_text, historical_place, meaning_rows, rate_or, rate_row, t1_row, t1_text, ta_rows, tail_rows, tck_place, tck_row, tck_text, td_rows, tds_rows, value_row};
ghost use Rattle.program_octets.specs.Places.{ranges_of};
ghost use Rattle.program_octets.specs.Rows.{with_row, with_rows};

use crate::atr::convention_name;
use crate::places::Place;
use crate::row_lines::RowLine;
use crate::rows::Rows;
use crate::text::push_octet;
use atr_core::{Atr, Convention, Indicated, Interface, ParamFault, T1Params, rates, t1_params};
use notes::{LineNote, NoNote, TextNote, t1_note, ta_note, tck_note, td_note};
use octet_core::Named;
use std::alloc::AllocError;

/// Appends the rows of an answer to reset that takes `taken` octets: its convention, each interface byte that is
/// present, the historical bytes, TCK, the rates, and the parameters of T=1 or why there are none.
pub(crate) fn push_rows(to: &mut Rows, atr: &Atr, taken: usize) -> Result<(), AllocError>
    ensures { OnOk result (to.new ≡ with_rows to.old (atr_rows atr.now taken)) }
{
    push_convention(to, atr.convention())?;
    let at = push_bytes(to, 1, atr.first(), 2)?;
    push_tds(to, atr.indicated(), at)?;
    push_tail(to, atr, taken)
}

/// Appends the row of a convention, which is about TS.
fn push_convention(to: &mut Rows, convention: Convention) -> Result<(), AllocError>
    ensures { OnOk result (to.new ≡ with_row to.old (convention_row convention)) }
{
    to.push(&ConventionLine { convention }, &NoNote, &Place::Range(0, 1))
}

/// The line of a convention.
#[derive(Clone, Copy)]
struct ConventionLine {
    convention: Convention,
}

impl RowLine for ConventionLine {
    ghost line = { λ l. codes "convention " ++ convention_text l.convention };

    fn push_to(&self, text: &mut String) -> Result<(), AllocError> {
        text.push_str("convention ")?;
        text.push_str(convention_name(self.convention))
    }
}

/// Appends the rows of the TDs and of the interface bytes that they announce, from the place `from` on.
fn push_tds(to: &mut Rows, indicated: &[Indicated], from: usize) -> Result<(), AllocError>
    requires few { length indicated.now ≤ 31 }
    requires protocols { AllByRecursion (λ x. x.protocol < 16) indicated.now }
    ensures { OnOk result (to.new ≡ with_rows to.old (tds_rows 1 indicated.now from)) }
{
    let mut number = 1;
    let mut at = from;
    let mut rest = indicated;
    while let [x, after @ ..] = rest {
        let octet = x.octet(!after.is_empty());
        at = push_td(to, number, octet, x.bytes, at)?;
        number += 1;
        rest = after;
    }
    Ok(())
}

/// Appends the row of a TD and those of the interface bytes that it announces. Returns the place after them.
fn push_td(
    to: &mut Rows,
    number: usize,
    octet: u8,
    bytes: Interface,
    at: usize,
) -> Result<usize, AllocError>
    requires { number < 100 }
    ensures rows { OnOk result (to.new ≡ with_rows to.old (td_rows number bytes octet at)) }
    ensures after { IfOk result (λ after. after ≡ after_bytes bytes (at + 1)) }
{
    let note = td_note(octet % 16);
    let at = push_value(to, "TD", number, octet, &note, at)?;
    push_bytes(to, number + 1, bytes, at)
}

/// Appends the rows of the TA, the TB and the TC that are present. Returns the place after them.
fn push_bytes(
    to: &mut Rows,
    number: usize,
    bytes: Interface,
    at: usize,
) -> Result<usize, AllocError>
    ensures rows { OnOk result (to.new ≡ with_rows to.old (bytes_rows number bytes at)) }
    ensures after { IfOk result (λ after. after ≡ after_bytes bytes at) }
{
    let second = push_ta(to, number, bytes.ta, at)?;
    let third = push_byte(to, "TB", number, bytes.tb, second)?;
    push_byte(to, "TC", number, bytes.tc, third)
}

/// Appends the row of a TA, if it is present. Returns the place after it.
fn push_ta(to: &mut Rows, number: usize, ta: Option<u8>, at: usize) -> Result<usize, AllocError>
    ensures rows { OnOk result (to.new ≡ with_rows to.old (ta_rows number ta at)) }
    ensures after { IfOk result (λ after. after ≡ after_byte ta at) }
{
    match ta {
        Some(byte) => {
            let note = ta_note(number, byte);
            push_value(to, "TA", number, byte, &note, at)
        }
        None => Ok(at),
    }
}

/// Appends the row of an interface byte that has no note, if it is present. Returns the place after it.
fn push_byte(
    to: &mut Rows,
    name: &str,
    number: usize,
    byte: Option<u8>,
    at: usize,
) -> Result<usize, AllocError>
    ensures rows { OnOk result (to.new ≡ with_rows to.old (byte_rows name.now number byte at)) }
    ensures after { IfOk result (λ after. after ≡ after_byte byte at) }
{
    match byte {
        Some(byte) => push_value(to, name, number, byte, &NoNote, at),
        None => Ok(at),
    }
}

/// Appends the row of an interface byte. Returns the place after it.
fn push_value<N: LineNote>(
    to: &mut Rows,
    name: &str,
    number: usize,
    byte: u8,
    note: &N,
    at: usize,
) -> Result<usize, AllocError>
    ensures rows { OnOk result (to.new
        ≡ with_row to.old (value_row name.now number byte (N.note note.now) at)) }
    ensures after { IfOk result (λ after. after ≡ at + 1) }
{
    let end = at.checked_add(1).ok_or(AllocError)?;
    let line = ByteLine { name, number, byte };
    to.push(&line, note, &Place::Range(at, end))?;
    Ok(end)
}

/// The line of an interface byte.
#[derive(Clone, Copy)]
struct ByteLine<'a> {
    name: &'a str,
    number: usize,
    byte: u8,
}

impl RowLine for ByteLine<'_> {
    ghost line = { λ l. byte_line l.name.now l.number l.byte };

    fn push_to(&self, text: &mut String) -> Result<(), AllocError> {
        let number = self.number;
        text.push_str(self.name)?;
        write!(text, "{number} ")?;
        push_octet(text, self.byte)
    }
}

/// Appends the rows after those of the interface bytes.
fn push_tail(to: &mut Rows, atr: &Atr, taken: usize) -> Result<(), AllocError>
    ensures { OnOk result (to.new ≡ with_rows to.old (tail_rows atr.now taken)) }
{
    let tck = tck_place(atr, taken);
    let place = Place::Range(historical_place(atr, taken), tck);
    let octets = atr.historical();
    to.push_word("historical ", octets, &TextNote { octets }, &place)?;
    push_tck_row(to, atr.tck(), &Place::Range(tck, taken))?;
    push_meaning(to, atr, taken)
}

/// Returns the place after the interface bytes.
fn historical_place(atr: &Atr, taken: usize) -> usize
    ensures { result ≡ historical_place atr.now taken }
{
    tck_place(atr, taken).saturating_sub(atr.historical().len())
}

/// Returns the place after the historical bytes.
fn tck_place(atr: &Atr, taken: usize) -> usize
    ensures { result ≡ tck_place atr.now taken }
{
    taken.saturating_sub(usize::from(atr.tck().is_some()))
}

/// Appends the row of TCK.
fn push_tck_row(to: &mut Rows, tck: Option<u8>, place: &Place<'_>) -> Result<(), AllocError>
    ensures { OnOk result (to.new ≡ with_row to.old (tck_row tck (ranges_of place.now))) }
{
    to.push(&TckLine { tck }, &tck_note(tck), place)
}

/// The line of TCK.
#[derive(Clone, Copy)]
struct TckLine {
    tck: Option<u8>,
}

impl RowLine for TckLine {
    ghost line = { λ l. codes "tck " ++ tck_text l.tck };

    fn push_to(&self, text: &mut String) -> Result<(), AllocError> {
        text.push_str("tck ")?;
        push_tck(text, self.tck)
    }
}

/// Appends TCK, or a word if it is absent.
fn push_tck(text: &mut String, tck: Option<u8>) -> Result<(), AllocError>
    ensures { OnOk result (string_bytes text.new ≡ string_bytes text.old ++ tck_text tck) }
{
    match tck {
        Some(tck) => push_octet(text, tck),
        None => text.push_str("absent"),
    }
}

/// Appends the rows of the rates, and of the parameters of T=1 or why there are none. None of them has octets of its own.
fn push_meaning(to: &mut Rows, atr: &Atr, taken: usize) -> Result<(), AllocError>
    ensures { OnOk result (to.new ≡ with_rows to.old (meaning_rows atr.now taken)) }
{
    let (fi, di) = rates(atr);
    push_rate_row(to, "F ", fi, taken)?;
    push_rate_row(to, "D ", di, taken)?;
    push_t1_row(to, atr, taken)
}

/// Appends the row of F or D.
fn push_rate_row(
    to: &mut Rows,
    name: &str,
    rate: Option<u16>,
    taken: usize,
) -> Result<(), AllocError>
    ensures { OnOk result (to.new ≡ with_row to.old (rate_row name.now rate taken)) }
{
    to.push(
        &RateLine { name, rate },
        &NoNote,
        &Place::Range(taken, taken),
    )
}

/// The line of F or D.
#[derive(Clone, Copy)]
struct RateLine<'a> {
    name: &'a str,
    rate: Option<u16>,
}

impl RowLine for RateLine<'_> {
    ghost line = { λ l. l.name.now ++ rate_or (codes "reserved") l.rate };

    fn push_to(&self, text: &mut String) -> Result<(), AllocError> {
        text.push_str(self.name)?;
        push_rate(text, self.rate, "reserved")
    }
}

/// Appends F or D as a number, or a word if the index is reserved.
pub(crate) fn push_rate(
    text: &mut String,
    rate: Option<u16>,
    reserved: &str,
) -> Result<(), AllocError>
    ensures { OnOk result (string_bytes text.new
        ≡ string_bytes text.old ++ rate_or reserved.now rate) }
{
    match rate {
        Some(rate) => write!(text, "{rate}"),
        None => text.push_str(reserved),
    }
}

/// Appends the row of the parameters of T=1 or why there are none.
fn push_t1_row(to: &mut Rows, atr: &Atr, taken: usize) -> Result<(), AllocError>
    ensures { OnOk result (to.new ≡ with_row to.old (t1_row atr.now taken)) }
{
    let line = T1Line {
        params: t1_params(atr),
    };
    let note = t1_note(t1_params(atr), atr.indicated());
    to.push(&line, &note, &Place::Range(taken, taken))
}

/// The line of the parameters of T=1.
#[derive(Clone, Copy)]
struct T1Line {
    params: Result<T1Params, ParamFault>,
}

impl RowLine for T1Line {
    ghost line = { λ l. codes "t1 " ++ t1_text l.params };

    fn push_to(&self, text: &mut String) -> Result<(), AllocError> {
        text.push_str("t1 ")?;
        push_t1(text, self.params)
    }
}

/// Appends the parameters of T=1 in words, or the name of their fault.
fn push_t1(text: &mut String, params: Result<T1Params, ParamFault>) -> Result<(), AllocError>
    ensures { OnOk result (string_bytes text.new ≡ string_bytes text.old ++ t1_text params) }
{
    match params {
        Ok(params) => {
            let ifsc = params.ifsc();
            let bwi = params.bwi();
            let cwi = params.cwi();
            write!(text, "ifsc {ifsc} bwi {bwi} cwi {cwi}")
        }
        Err(fault) => text.push_str(fault.name()),
    }
}
