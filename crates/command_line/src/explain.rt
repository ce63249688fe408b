//! The messages of the parser of command lines.

ghost use Rattle.std.specs.Prelude.{◌≡◌, ◌≢◌, [], IfOk, is_some, false};
ghost use Rattle.clap.specs.Values.{kind_of};
ghost use Rattle.clap.specs.Words.{fault_of};
ghost use Rattle.command_line.specs.Form.{scard, texts};

use crate::parse::matches_of;
use clap::Error;
use clap::error::ErrorKind;
use std::alloc::{AllocError, Global};

/// Returns the parser's message about words that it refuses, with the form of the words; `None` if it accepts them.
pub fn parser_message(alloc: Global, words: &[String]) -> Result<Option<String>, AllocError>
    ensures none { IfOk result
        (λ said. is_some said ≡ false → fault_of scard (texts words.now) ≡ []) }
    ensures taken { IfOk result
        (λ said. fault_of scard (texts words.now) ≡ [] → is_some said ≡ false) }
{
    match matches_of(alloc, words) {
        Ok(_matches) => Ok(None),
        Err(error) => Ok(Some(message(alloc, &error)?)),
    }
}

/// Returns the message of an error, and the form of the words.
fn message(alloc: Global, error: &Error) -> Result<String, AllocError>
    ensures { IfOk result (λ _. kind_of error.now ≢ ErrorKind.OutOfMemory) }
{
    match error.kind() {
        ErrorKind::OutOfMemory => Err(AllocError),
        _ => format!(in alloc; "{error}"),
    }
}
