//! Lines as an array of strings.

ghost use Rattle.std.specs.Prelude.{◌≡◌, ◌==◌, ◌∷◌, ◌<◌, length, string_bytes, IfOk, IfSome, OnOk};
ghost use Rattle.std.specs.List.{position_from, slice_split};
ghost use Rattle.answer_json.specs.Strings.{after_mark, characters, json_string, lent, line_string, line_strings, parted, with_string};

use layouts::push_separator;
use serde_json::Value;
use std::alloc::{AllocError, Global};

/// Returns a text as a JSON string, with its quotation marks.
pub fn json_string(alloc: Global, text: String) -> Result<String, AllocError>
    ensures { IfOk result (λ written. string_bytes written ≡ json_string (string_bytes text)) }
{
    Value::String(text).to_string(alloc)
}

/// Returns the lines of a text as the items of a JSON array, each a string, with a comma between two. Empty lines are
/// left out. Each octet becomes the character with its number.
#[tactic(auto, unfolding(crate::specs::Strings::line_strings))]
pub fn line_strings(alloc: Global, text: &[u8]) -> Result<String, AllocError>
    ensures { IfOk result (λ items. string_bytes items ≡ line_strings text.now) }
{
    let mut items = String::new(alloc);
    let mut left = text;
    'lines: loop {
        let (line, more) = parted(left, b'\n');
        push_line(alloc, &mut items, line)?;
        match more {
            Some(more) => left = more,
            None => break,
        }
    }
    Ok(items)
}

/// Appends a line to the items, unless it is empty.
fn push_line(alloc: Global, items: &mut String, line: &[u8]) -> Result<(), AllocError>
    ensures { OnOk result (string_bytes items.new ≡ with_string (string_bytes items.old) line.now) }
{
    if line.is_empty() {
        return Ok(());
    }
    let item = line_string(alloc, line)?;
    push_separator(items)?;
    items.push_str(item.as_str())
}

/// Returns a line as a JSON string.
pub(crate) fn line_string(alloc: Global, line: &[u8]) -> Result<String, AllocError>
    ensures { IfOk result (λ item. string_bytes item ≡ line_string line.now) }
{
    json_string(alloc, characters(alloc, line)?)
}

/// Returns octets as text: each becomes the character with its number.
fn characters(alloc: Global, octets: &[u8]) -> Result<String, AllocError>
    ensures { IfOk result (λ text. string_bytes text ≡ characters octets.now) }
{
    let mut text = String::with_capacity(alloc, octets.len())?;
    let mut rest = octets;
    while let [x, more @ ..] = rest {
        text.push(char::from(*x))?;
        rest = more;
    }
    Ok(text)
}

/// Returns the octets before the first of these marks, and those after it if there is one.
fn parted(octets: &[u8], mark: u8) -> (&[u8], Option<&[u8]>)
    ensures parted { (result.0.now, lent result.1) ≡ parted mark octets.now }
    ensures split { slice_split (λ x. x == mark) octets.now
        ≡ result.0.now ∷ after_mark mark (lent result.1) }
    ensures shorter { IfSome result.1 (λ rest. length rest.now < length octets.now) }
{
    match place_of(octets, mark) {
        Some(place) => (&octets[..place], Some(&octets[place + 1..])),
        None => (octets, None),
    }
}

/// Returns the place of the first of these marks.
fn place_of(octets: &[u8], mark: u8) -> Option<usize>
    ensures place { result ≡ position_from (λ x. x == mark) 0 octets.now }
    ensures inside { IfSome result (λ place. place < length octets.now) }
{
    octets.iter().position(|&x| x == mark)
}
