//! An answer to reset as members of a JSON object.

ghost use Rattle.std.specs.Prelude.{◌≡◌, ◌≤◌, ◌<◌, ◌++◌, IfOk, OnOk, length, string_bytes};
ghost use Rattle.std.specs.List.{AllByRecursion};
ghost use Rattle.program_octets.specs.AtrTexts.{atr_members, byte_object, interface_items, meaning_members, t1_object, tail_members, tck_value, with_byte, with_bytes, with_td, with_tds};

use crate::atr::convention_name;
use crate::atr_rows::push_rate;
use crate::text::{push_hex, push_octet};
use atr_core::{Atr, Indicated, Interface, ParamFault, T1Params, rates, t1_params};
use layouts::push_separator;
use octet_core::Named;
use std::alloc::{AllocError, Global};

/// The initial capacity of an array's text in octets.
const ROOM: usize = 256;

/// Appends an answer to reset as members of an object.
pub(crate) fn push_members(alloc: Global, text: &mut String, atr: &Atr) -> Result<(), AllocError>
    ensures { OnOk result (string_bytes text.new ≡ string_bytes text.old ++ atr_members atr.now) }
{
    let bytes = interface_items(alloc, atr)?;
    text.push_str(",\"convention\":\"")?;
    text.push_str(convention_name(atr.convention()))?;
    text.push_str("\",\"interface\":[")?;
    text.push_str(bytes.as_str())?;
    push_tail(text, atr)
}

/// Appends the end of the array of the interface bytes, and the members after it.
fn push_tail(text: &mut String, atr: &Atr) -> Result<(), AllocError>
    ensures { OnOk result (string_bytes text.new ≡ string_bytes text.old ++ tail_members atr.now) }
{
    text.push_str("],\"historical\":\"")?;
    push_hex(text, atr.historical())?;
    text.push_str("\",\"tck\":")?;
    push_tck(text, atr.tck())?;
    push_meaning(text, atr)
}

/// Returns an object for each interface byte that is present, in their order.
fn interface_items(alloc: Global, atr: &Atr) -> Result<String, AllocError>
    ensures { IfOk result (λ text. string_bytes text ≡ interface_items atr.now) }
{
    let mut items = String::with_capacity(alloc, ROOM)?;
    push_bytes(&mut items, 1, atr.first())?;
    push_tds(&mut items, atr.indicated())?;
    Ok(items)
}

/// Appends the TDs and the interface bytes that they announce.
fn push_tds(items: &mut String, indicated: &[Indicated]) -> Result<(), AllocError>
    requires few { length indicated.now ≤ 31 }
    requires protocols { AllByRecursion (λ x. x.protocol < 16) indicated.now }
    ensures { OnOk result (string_bytes items.new
        ≡ with_tds (string_bytes items.old) 1 indicated.now) }
{
    let mut number = 1;
    let mut rest = indicated;
    while let [x, after @ ..] = rest {
        let octet = x.octet(!after.is_empty());
        push_td(items, number, x.bytes, octet)?;
        number += 1;
        rest = after;
    }
    Ok(())
}

/// Appends a TD and the interface bytes that it announces.
fn push_td(items: &mut String, number: usize, bytes: Interface, octet: u8) -> Result<(), AllocError>
    requires { number < 100 }
    ensures { OnOk result (string_bytes items.new
        ≡ with_td (string_bytes items.old) number bytes octet) }
{
    push_byte(items, "TD", number, Some(octet))?;
    push_bytes(items, number + 1, bytes)
}

/// Appends the TA, TB and TC that are present.
fn push_bytes(items: &mut String, number: usize, bytes: Interface) -> Result<(), AllocError>
    ensures { OnOk result (string_bytes items.new
        ≡ with_bytes (string_bytes items.old) number bytes) }
{
    push_byte(items, "TA", number, bytes.ta)?;
    push_byte(items, "TB", number, bytes.tb)?;
    push_byte(items, "TC", number, bytes.tc)
}

/// Appends an interface byte, if it is present.
fn push_byte(
    items: &mut String,
    name: &str,
    number: usize,
    byte: Option<u8>,
) -> Result<(), AllocError>
    ensures { OnOk result (string_bytes items.new
        ≡ with_byte (string_bytes items.old) name.now number byte) }
{
    match byte {
        Some(byte) => {
            push_separator(items)?;
            push_object(items, name, number, byte)
        }
        None => Ok(()),
    }
}

/// Appends an interface byte as an object.
fn push_object(text: &mut String, name: &str, number: usize, byte: u8) -> Result<(), AllocError>
    ensures { OnOk result (string_bytes text.new
        ≡ string_bytes text.old ++ byte_object name.now number byte) }
{
    write!(text, "{{\"name\":\"{name}{number}\",\"value\":\"")?;
    push_octet(text, byte)?;
    text.push_str("\"}")
}

/// Appends TCK as a JSON value: null if it is absent.
fn push_tck(text: &mut String, tck: Option<u8>) -> Result<(), AllocError>
    ensures { OnOk result (string_bytes text.new ≡ string_bytes text.old ++ tck_value tck) }
{
    let Some(tck) = tck else {
        return text.push_str("null");
    };
    text.push_str("\"")?;
    push_octet(text, tck)?;
    text.push_str("\"")
}

/// Appends the rates, and the parameters of T=1 or why there are none, as members of an object.
fn push_meaning(text: &mut String, atr: &Atr) -> Result<(), AllocError>
    ensures { OnOk result (string_bytes text.new
        ≡ string_bytes text.old ++ meaning_members atr.now) }
{
    let (fi, di) = rates(atr);
    text.push_str(",\"F\":")?;
    push_rate(text, fi, "null")?;
    text.push_str(",\"D\":")?;
    push_rate(text, di, "null")?;
    text.push_str(",\"t1\":")?;
    push_t1(text, t1_params(atr))
}

/// Appends the parameters of T=1 as an object, or an object with the name of their fault.
fn push_t1(text: &mut String, params: Result<T1Params, ParamFault>) -> Result<(), AllocError>
    ensures { OnOk result (string_bytes text.new ≡ string_bytes text.old ++ t1_object params) }
{
    match params {
        Ok(params) => {
            let ifsc = params.ifsc();
            let bwi = params.bwi();
            let cwi = params.cwi();
            write!(text, "{{\"ifsc\":{ifsc},\"bwi\":{bwi},\"cwi\":{cwi}}}")
        }
        Err(fault) => {
            let name = fault.name();
            write!(text, "{{\"reason\":\"{name}\"}}")
        }
    }
}
