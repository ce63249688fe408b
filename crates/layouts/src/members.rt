//! The members of a JSON object.

ghost use Rattle.std.specs.Prelude.{◌≡◌, [], OnOk, string_bytes};
ghost use Rattle.layouts.specs.Items.{with_item};
ghost use Rattle.layouts.specs.Members.{object_of, with_array, with_number, with_string, with_value};

use crate::items::push_separator;
use std::alloc::{AllocError, Global};
use std::marker::Model;

/// The members of a JSON object, in their order, with a comma between two. Contracts see their text.
///
/// Names and strings are written as they are. So they must not have quotation marks, backslashes or control characters.
#[derive(Drop)]
pub struct Members {
    text: String,
}

impl Model for Members {
    ghost use Rattle.std.specs.Prelude.{ℕ, List, string_bytes};

    ghost Value = { List ℕ };

    ghost view = { λ members. string_bytes members.text };
}

impl Members {
    /// Starts without a member.
    pub fn new(alloc: Global) -> Members
        ensures { result ≡ [] }
    {
        Members {
            text: String::new(alloc),
        }
    }

    /// Returns the text of the members.
    pub fn into_text(self) -> String
        ensures { string_bytes result ≡ self }
    {
        self.text
    }

    /// Appends a member with a value that is written as it is, such as `null`.
    #[tactic(auto, unfolding(crate::specs::Members::with_value))]
    pub fn value(&mut self, name: &str, value: &str) -> Result<(), AllocError>
        ensures { OnOk result (self.new ≡ with_value self.old name.now value.now) }
    {
        push_separator(&mut self.text)?;
        write!(self.text, "\"{name}\":{value}")
    }

    /// Appends a member with a number.
    #[tactic(auto, unfolding(crate::specs::Members::with_number))]
    pub fn number(&mut self, alloc: Global, name: &str, number: u64) -> Result<(), AllocError>
        ensures { OnOk result (self.new ≡ with_number self.old name.now number) }
    {
        let digits = format!(in alloc; "{number}")?;
        self.value(name, digits.as_str())
    }

    /// Appends a member with a string.
    #[tactic(auto, unfolding(crate::specs::Members::with_string))]
    pub fn string(&mut self, alloc: Global, name: &str, text: &str) -> Result<(), AllocError>
        ensures { OnOk result (self.new ≡ with_string self.old name.now text.now) }
    {
        let quoted = format!(in alloc; "\"{text}\"")?;
        self.value(name, quoted.as_str())
    }

    /// Appends a member with an array that has these items.
    #[tactic(auto, unfolding(crate::specs::Members::with_array))]
    pub fn array(&mut self, alloc: Global, name: &str, items: &str) -> Result<(), AllocError>
        ensures { OnOk result (self.new ≡ with_array self.old name.now items.now) }
    {
        let array = format!(in alloc; "[{items}]")?;
        self.value(name, array.as_str())
    }

    /// Appends the object with these members to the items of an array.
    #[tactic(auto, unfolding(crate::specs::Members::object_of))]
    pub fn push_to(&self, items: &mut String) -> Result<(), AllocError>
        ensures { OnOk result (string_bytes items.new
            ≡ with_item (string_bytes items.old) (object_of self.now)) }
    {
        push_separator(items)?;
        items.push_str("{")?;
        items.push_str(self.text.as_str())?;
        items.push_str("}")
    }
}
