//! Parses words by their form.

ghost use Rattle.std.specs.Prelude.{◌≡◌, [], IfOk, IfErr};
ghost use Rattle.clap.specs.Kinds.{HasKind};
ghost use Rattle.clap.specs.Words.{fault_of, subcommand_of, subcommand_rows_of};
ghost use Rattle.command_line.specs.Form.{scard, texts};

use crate::forms::program;
use clap::{ArgMatches, Error};
use std::alloc::Global;

/// Parses the words with `clap`. The first word is the program's name.
pub fn matches_of<'a>(alloc: Global, words: &'a [String]) -> Result<ArgMatches<'a>, Error>
    ensures taken { IfOk result (λ m. fault_of scard (texts words.now) ≡ []) }
    ensures entered { IfOk result (λ m.
        subcommand_rows_of m ≡ subcommand_of scard (texts words.now)) }
    ensures kind { IfErr result (HasKind (fault_of scard (texts words.now))) }
{
    let program = program(alloc)?;
    program.try_get_matches_from(words)
}
