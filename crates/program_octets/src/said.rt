//! What an answer says, in each layout.

ghost use Rattle.std.specs.Prelude.{◌≡◌, ◌++◌, IfOk, codes, string_bytes};
ghost use Rattle.answer_json.specs.Strings.{line_strings};
ghost use Rattle.program_octets.specs.Json.{object_head, object_line};
ghost use Rattle.program_octets.specs.Sayings.{object_of, object_with_lines, text_of, told_in};

use crate::json::{object_head, object_line};
use answer_json::{Refusal, line_strings};
use layouts::Layout;
use octet_core::Octets;
use std::alloc::{AllocError, Global};

/// What an answer says.
#[derive(Drop)]
pub enum Said {
    /// Lines of text in UTF-8.
    Text(Octets),
    /// A JSON object in one line.
    Object(Octets),
    /// Why there is nothing else to say. Its line or its object is made only when it is asked for.
    Refusal(Refusal),
}

impl Said {
    /// Says what is written in a layout: lines, or an object in one line.
    pub fn laid(layout: Layout, text: String) -> Said
        ensures { result ≡ told_in layout (string_bytes text) }
    {
        let octets = Octets::of(text.into_bytes());
        match layout {
            Layout::Lines => Said::Text(octets),
            Layout::Json => Said::Object(octets),
        }
    }

    /// Returns it as lines. An object is one line already.
    pub fn into_text(self, alloc: Global) -> Result<Octets, AllocError>
        ensures { IfOk result (λ text. text ≡ text_of self) }
    {
        match self {
            Said::Text(text) => Ok(text),
            Said::Object(object) => Ok(object),
            Said::Refusal(refusal) => {
                let line = refusal.line(alloc)?;
                Ok(Octets::of(line.into_bytes()))
            }
        }
    }

    /// Returns it as an object in one line, about this subject.
    pub fn into_object(self, alloc: Global, about: &str) -> Result<Octets, AllocError>
        ensures { IfOk result (λ text. text ≡ object_of about.now self) }
    {
        match self {
            Said::Text(lines) => object_with_lines(alloc, about, lines.get()),
            Said::Object(object) => Ok(object),
            Said::Refusal(refusal) => {
                let members = refusal.members(alloc)?.into_text();
                let object = object_line(alloc, about, members.as_str())?;
                Ok(Octets::of(object.into_bytes()))
            }
        }
    }
}

/// Returns an object with lines as strings, unchanged.
fn object_with_lines(alloc: Global, about: &str, lines: &[u8]) -> Result<Octets, AllocError>
    ensures { IfOk result (λ text. text ≡ object_with_lines about.now lines.now) }
{
    let head = object_head(alloc, about)?;
    let items = line_strings(alloc, lines)?;
    let object = lines_after(alloc, head, items)?;
    Ok(Octets::of(object.into_bytes()))
}

/// Returns the beginning of an object, followed by the verdict that all is well and by these items as lines.
fn lines_after(alloc: Global, head: String, items: String) -> Result<String, AllocError>
    ensures { IfOk result (λ text. string_bytes text ≡ string_bytes head
        ++ (codes "\"verdict\":\"ok\",\"lines\":[" ++ (string_bytes items ++ codes "]}\n"))) }
{
    format!(in alloc; "{head}\"verdict\":\"ok\",\"lines\":[{items}]}}\n")
}
