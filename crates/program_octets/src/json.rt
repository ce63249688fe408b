//! JSON objects with what the program prints about octets.

ghost use Rattle.std.specs.Prelude.{◌≡◌, ◌++◌, IfOk, OnOk, codes, string_bytes};
ghost use Rattle.program_octets.specs.Json.{accepted_members, notes_member, object_head, object_line};
ghost use Rattle.program_octets.specs.Verdicts.{kind_name};
ghost use Rattle.answer_json.specs.Refusals.{verdict_first};

use answer_json::Refusal;
use program_words::Kind;
use std::alloc::{AllocError, Global};

/// Returns the name of a kind, as the words of a command line have it.
pub fn kind_name(kind: Kind) -> &'static str
    ensures { result.now ≡ kind_name kind }
{
    match kind {
        Kind::Atr => "atr",
        Kind::Block => "block",
        Kind::Chain => "chain",
        Kind::Command => "command",
        Kind::Response => "response",
        Kind::Tlv => "tlv",
        Kind::Dol => "dol",
    }
}

/// Returns the beginning of every object: the version of its form, and its subject.
pub(crate) fn object_head(alloc: Global, about: &str) -> Result<String, AllocError>
    ensures { IfOk result (λ text. string_bytes text ≡ object_head about.now) }
{
    let mut text = String::new(alloc);
    push_head(&mut text, about)?;
    Ok(text)
}

/// Appends the beginning of every object.
pub(crate) fn push_head(text: &mut String, about: &str) -> Result<(), AllocError>
    ensures { OnOk result (string_bytes text.new ≡ string_bytes text.old ++ object_head about.now) }
{
    write!(text, "{{\"version\":1,\"kind\":\"{about}\",")
}

/// Appends the members for how many octets a value takes.
pub(crate) fn push_accepted(text: &mut String, taken: usize) -> Result<(), AllocError>
    ensures { OnOk result (string_bytes text.new ≡ string_bytes text.old
        ++ accepted_members taken) }
{
    write!(text, "\"verdict\":\"ok\",\"octets\":{taken}")
}

/// Appends the member with these items as places.
pub(crate) fn push_places(text: &mut String, items: &str) -> Result<(), AllocError>
    ensures { OnOk result (string_bytes text.new ≡ string_bytes text.old
        ++ (codes ",\"places\":[" ++ (items.now ++ codes "]"))) }
{
    write!(text, ",\"places\":[{items}]")
}

/// Appends the member with these items as notes.
pub(crate) fn push_notes(text: &mut String, items: &str) -> Result<(), AllocError>
    ensures { OnOk result (string_bytes text.new ≡ string_bytes text.old
        ++ notes_member items.now) }
{
    write!(text, ",\"notes\":[{items}]")
}

/// Returns the member with these items as notes, which begins with a comma.
pub fn notes_member(alloc: Global, items: &str) -> Result<String, AllocError>
    ensures { IfOk result (λ member. string_bytes member ≡ notes_member items.now) }
{
    format!(in alloc; ",\"notes\":[{items}]")
}

/// Returns the object about a subject with these members, in one line.
pub fn object_line(alloc: Global, about: &str, members: &str) -> Result<String, AllocError>
    ensures { IfOk result (λ text. string_bytes text ≡ object_line about.now members.now) }
{
    let mut text = object_head(alloc, about)?;
    text.push_str(members)?;
    text.push_str("}\n")?;
    Ok(text)
}

/// Returns the object about octets of a kind that are a value of `taken` octets, in one line.
pub(crate) fn accepted_object(alloc: Global, kind: Kind, taken: usize) -> Result<String, AllocError>
    ensures { IfOk result (λ text. string_bytes text
        ≡ object_line (kind_name kind) (accepted_members taken)) }
{
    let mut text = object_head(alloc, kind_name(kind))?;
    push_accepted(&mut text, taken)?;
    text.push_str("}\n")?;
    Ok(text)
}

/// Returns the object about octets of a kind that are refused, in one line. The verdict is its first member.
pub(crate) fn refused_object(
    alloc: Global,
    kind: Kind,
    refusal: &Refusal,
) -> Result<String, AllocError>
    ensures { IfOk result (λ text. string_bytes text
        ≡ object_line (kind_name kind) (verdict_first refusal.now)) }
{
    let members = refusal.members_by_verdict(alloc)?.into_text();
    object_line(alloc, kind_name(kind), members.as_str())
}
