//! Where octets come from: a word, or standard input.

ghost use Rattle.std.specs.Prelude.{◌≡◌, option_map};
ghost use Rattle.program_words.specs.Given.{asks_for_lines, form_of, given_of, octets_in, of_dump};
ghost use Rattle.program_words.specs.Value.{UnlessMemory};

use crate::fault::Fault;
use crate::loose::loose_octets;
use crate::value::octets;
use dumps::{DumpFault, dump_octets, source_octets};
use octet_core::Octets;
use std::alloc::Global;

/// How octets are written on standard input.
#[derive(Clone, Copy)]
pub enum Form {
    /// Hexadecimal in either case, two digits for each octet, in groups separated by spaces, tabs and line ends. A
    /// group may begin with `0x` or `0X`.
    Hex,
    /// The octets themselves.
    Octets,
    /// A dump as `xxd`, `hexdump -C`, `od -tx1`, Wireshark, gdb, HxD or PowerShell writes it.
    Dump,
    /// Octets as programs write them: `0x3B`, `\x3b`, `3Bh` or `3B`, in brackets or quotes, with comments, after a label
    /// or in a declaration; or the characters of Python's strings of octets.
    Source,
}

/// Where octets come from.
#[derive(Drop)]
pub enum OctetSource {
    /// The octets of a word.
    Word(Octets),
    /// Standard input, in this form.
    Read(Form),
}

impl Form {
    /// Returns the octets that a text in this form gives. A text that isn't in the form is `Hex`.
    pub fn octets(self, alloc: Global, text: Octets) -> Result<Octets, Fault>
        ensures { UnlessMemory result (octets_in self text) }
    {
        match self {
            Form::Hex => loose_octets(alloc, text.get()),
            Form::Octets => Ok(text),
            Form::Dump => of_dump(dump_octets(alloc, text.get())),
            Form::Source => of_dump(source_octets(alloc, text.get())),
        }
    }
}

/// Returns the octets of a dump or a source, or its fault as one of this program.
fn of_dump(read: Result<Octets, DumpFault>) -> Result<Octets, Fault>
    ensures { result ≡ of_dump read }
{
    match read {
        Ok(octets) => Ok(octets),
        Err(DumpFault::Form) => Err(Fault::Hex),
        Err(DumpFault::Memory) => Err(Fault::Memory),
    }
}

/// Reads where octets come from: a HEX word, or a form of standard input. It is a fault if both are given, or none.
pub(crate) fn read_given(
    alloc: Global,
    hex: Option<&str>,
    form_word: Option<&str>,
) -> Result<OctetSource, Fault>
    ensures { UnlessMemory result (given_of (option_map (λ word. word.now) hex.entry)
        (option_map (λ word. word.now) form_word.entry)) }
{
    match (hex, form_word) {
        (Some(hex), None) => Ok(OctetSource::Word(octets(alloc, hex)?)),
        (None, Some(word)) => Ok(OctetSource::Read(read_form(word)?)),
        _ => Err(Fault::Words),
    }
}

/// Whether the words ask for lines of standard input and have no HEX.
pub(crate) fn asks_for_lines(hex: Option<&str>, form_word: Option<&str>) -> bool
    ensures { result ≡ asks_for_lines (option_map (λ word. word.now) hex.entry)
        (option_map (λ word. word.now) form_word.entry) }
{
    match (hex, form_word) {
        (None, Some(word)) => word == "lines",
        _ => false,
    }
}

/// Reads a form of standard input. `clap` accepts any word as a form.
fn read_form(word: &str) -> Result<Form, Fault>
    ensures { result ≡ form_of word.now }
{
    match word {
        "hex" => Ok(Form::Hex),
        "octets" => Ok(Form::Octets),
        "dump" => Ok(Form::Dump),
        "source" => Ok(Form::Source),
        _ => Err(Fault::Words),
    }
}
