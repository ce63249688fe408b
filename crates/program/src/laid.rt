//! Answers in each layout.

ghost use Rattle.std.specs.Prelude.{◌≡◌, IfOk, string_bytes};
ghost use Rattle.program.specs.Laid.{laid};

use layouts::Layout;
use program_octets::{Answer, Status, object_line};
use std::alloc::{AllocError, Global};

/// What is said about a subject before it is laid out, with the status.
#[derive(Drop)]
pub(crate) struct Account {
    /// Lines, or the members of an object.
    pub(crate) text: String,
    pub(crate) status: Status,
}

/// Returns an account of a subject as an answer: lines as they are, or members as an object in one line.
pub(crate) fn laid(
    alloc: Global,
    layout: Layout,
    about: &str,
    account: Account,
) -> Result<Answer, AllocError>
    ensures said { IfOk result (λ answer. answer.said
        ≡ laid layout about.now (string_bytes account.text)) }
    ensures status { IfOk result (λ answer. answer.status ≡ account.status) }
{
    let Account { text, status } = account;
    let text = match layout {
        Layout::Lines => text,
        Layout::Json => object_line(alloc, about, text.as_str())?,
    };
    Ok(Answer::laid(layout, text, status))
}
