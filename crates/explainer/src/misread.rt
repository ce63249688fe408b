//! The notes on texts that aren't a dump, or aren't a source.

ghost use Rattle.std.specs.Prelude.{◌≡◌, IfOk, string_bytes};
ghost use Rattle.dumps.specs.DumpStop.{dump_stop};
ghost use Rattle.dumps.specs.SourceStop.{source_stop};
ghost use Rattle.explainer.specs.Sentences.{dump_sentence};
ghost use Rattle.explainer.specs.Texts.{dump_note, source_note, source_said};

use crate::line::{marked_place, octet_at, octet_named, shown_place};
use dumps::{DumpWrong, SourceWrong, dump_stop, source_stop};
use std::alloc::{AllocError, Global};

/// Returns the note on the first wrong place of a text in a dump.
pub(crate) fn dump_note(alloc: Global, text: &[u8]) -> Result<String, AllocError>
    ensures { IfOk result (λ note. string_bytes note ≡ dump_note text.now (dump_stop text.now)) }
{
    match dump_stop(alloc, text)? {
        Some((place, wrong)) => {
            marked_place(alloc, text, shown_place(text, place), dump_sentence(wrong))
        }
        None => Ok(String::new(alloc)),
    }
}

fn dump_sentence(wrong: DumpWrong) -> &'static str
    ensures { result.now ≡ dump_sentence wrong }
{
    match wrong {
        DumpWrong::Offset => "an offset must have at least four hexadecimal digits",
        DumpWrong::Place => "this offset must be the number of octets before it",
        DumpWrong::Star => "a * must follow a row of 16 octets",
        DumpWrong::Row => "expected octets in hexadecimal, or the characters that show them",
        DumpWrong::End => "the last offset is missing, or the dump has too many octets",
        DumpWrong::TwoWays => {
            "these offsets fit two bases, which give different numbers of octets; od -v writes no *"
        }
    }
}

/// Returns the note on the first wrong place of a text in a source.
pub(crate) fn source_note(alloc: Global, text: &[u8]) -> Result<String, AllocError>
    ensures { IfOk result (λ note.
        string_bytes note ≡ source_note text.now (source_stop text.now)) }
{
    match source_stop(text) {
        Some((place, wrong)) => {
            let what = source_said(alloc, text, place, wrong)?;
            marked_place(alloc, text, shown_place(text, place), what.as_str())
        }
        None => Ok(String::new(alloc)),
    }
}

fn source_said(
    alloc: Global,
    text: &[u8],
    place: usize,
    wrong: SourceWrong,
) -> Result<String, AllocError>
    ensures { IfOk result (λ what. string_bytes what ≡ source_said text.now place wrong) }
{
    match wrong {
        SourceWrong::Character => {
            let named = octet_named(alloc, octet_at(text, place))?;
            format!(in alloc; "{named} isn't allowed here")
        }
        SourceWrong::Word => {
            let what = "this isn't an octet, or it is written in another way than those before";
            String::from_str(alloc, what)
        }
        SourceWrong::Open => {
            String::from_str(alloc, "a string, a comment or a declaration isn't closed")
        }
        SourceWrong::TwoWays => String::from_str(alloc, "these octets can be read in two ways"),
    }
}
