//! The words that commands take, as arguments of `clap`: the name of each value, and its text in help.

ghost use Rattle.std.specs.Prelude.{◌≡◌, false};
ghost use Rattle.clap.specs.Words.{rule_of};
ghost use Rattle.command_line.specs.Form.{atr_rule, clock_rule, end_rule, explain_rule, flag_rule, hex_rule, ifs_rule, ifsd_rule, judged_rule, json_rule, kind_rule, notes_rule, number_rule, option_rule, pairs_rule, required_rule, rules_rule, stdin_rule, svg_rule, what_rule, words_rule};

use clap::{Arg, ArgAction, value_parser};
use std::alloc::Global;

pub(crate) fn explain_arg<'a>(alloc: Global) -> Arg<'a>
    ensures rule { rule_of result ≡ explain_rule }
    ensures local { result.global ≡ false }
{
    flag_arg(
        alloc,
        "explain",
        "After a fault or a refusal, say what is wrong, and where",
    )
}

/// Returns an option without a value.
fn flag_arg<'a>(alloc: Global, name: &'a str, help: &'a str) -> Arg<'a>
    ensures rule { rule_of result ≡ flag_rule name.now }
    ensures local { result.global ≡ false }
{
    Arg::new(alloc, name)
        .long(name)
        .action(ArgAction::SetTrue)
        .help(help)
}

pub(crate) fn kind_arg<'a>(alloc: Global) -> Arg<'a>
    ensures rule { rule_of result ≡ kind_rule }
    ensures local { result.global ≡ false }
{
    required_arg(
        alloc,
        "kind",
        "KIND",
        "The kind of octets: atr, block, chain, command, response, tlv or dol",
    )
}

pub(crate) fn hex_arg<'a>(alloc: Global) -> Arg<'a>
    ensures rule { rule_of result ≡ hex_rule }
    ensures local { result.global ≡ false }
{
    Arg::new(alloc, "hex").value_name("HEX").help(
        "The octets in hexadecimal, two digits each; the word none stands for no octets",
    )
}

pub(crate) fn stdin_arg<'a>(alloc: Global) -> Arg<'a>
    ensures rule { rule_of result ≡ stdin_rule }
    ensures local { result.global ≡ false }
{
    option_arg(
        alloc,
        "stdin",
        "FORM",
        "Read the octets from standard input and not from HEX; FORM is one of: hex, octets, dump, source, or for check and show lines",
    )
}

pub(crate) fn ifs_arg<'a>(alloc: Global) -> Arg<'a>
    ensures rule { rule_of result ≡ ifs_rule }
    ensures local { result.global ≡ false }
{
    Arg::new(alloc, "ifs")
        .long("ifs")
        .value_parser(value_parser!(u8).range(1..=254))
        .value_name("N")
        .help("The information field size, 1 to 254 [default: 254]")
}

pub(crate) fn number_arg<'a>(alloc: Global) -> Arg<'a>
    ensures rule { rule_of result ≡ number_rule }
    ensures local { result.global ≡ false }
{
    Arg::new(alloc, "number")
        .long("number")
        .value_parser(value_parser!(u8).range(0..=1))
        .value_name("N")
        .help("The number of a chain's first block, 0 or 1 [default: 0]")
}

pub(crate) fn json_arg<'a>(alloc: Global) -> Arg<'a>
    ensures rule { rule_of result ≡ json_rule }
    ensures local { result.global ≡ false }
{
    flag_arg(
        alloc,
        "json",
        "Answer with a JSON object and not with lines",
    )
}

pub(crate) fn notes_arg<'a>(alloc: Global) -> Arg<'a>
    ensures rule { rule_of result ≡ notes_rule }
    ensures local { result.global ≡ false }
{
    flag_arg(
        alloc,
        "notes",
        "Add to a line, after a number sign, what it means",
    )
}

pub(crate) fn what_arg<'a>(alloc: Global) -> Arg<'a>
    ensures rule { rule_of result ≡ what_rule }
    ensures local { result.global ≡ false }
{
    required_arg(alloc, "what", "WHAT", "What to build: chain, tidy or fill")
}

pub(crate) fn words_arg<'a>(alloc: Global) -> Arg<'a>
    ensures rule { rule_of result ≡ words_rule }
    ensures local { result.global ≡ false }
{
    Arg::new(alloc, "words")
        .action(ArgAction::Append)
        .value_name("WORD")
        .help("The words to build it from")
}

pub(crate) fn end_arg<'a>(alloc: Global) -> Arg<'a>
    ensures rule { rule_of result ≡ end_rule }
    ensures local { result.global ≡ false }
{
    Arg::new(alloc, "end")
        .long("end")
        .required(true)
        .value_name("END")
        .help("The end to replay: terminal, card or both")
}

pub(crate) fn svg_arg<'a>(alloc: Global) -> Arg<'a>
    ensures rule { rule_of result ≡ svg_rule }
    ensures local { result.global ≡ false }
{
    flag_arg(
        alloc,
        "svg",
        "Draw a picture in SVG, which browsers show, and not lines of text",
    )
}

pub(crate) fn atr_arg<'a>(alloc: Global) -> Arg<'a>
    ensures rule { rule_of result ≡ atr_rule }
    ensures local { result.global ≡ false }
{
    required_arg(
        alloc,
        "atr",
        "ATR",
        "The card's answer to reset, in hexadecimal",
    )
}

pub(crate) fn judged_arg<'a>(alloc: Global) -> Arg<'a>
    ensures rule { rule_of result ≡ judged_rule }
    ensures local { result.global ≡ false }
{
    option_arg(
        alloc,
        "end",
        "END",
        "Report the deviations of one end alone: terminal or card",
    )
}

pub(crate) fn clock_arg<'a>(alloc: Global) -> Arg<'a>
    ensures rule { rule_of result ≡ clock_rule }
    ensures local { result.global ≡ false }
{
    option_arg(
        alloc,
        "clock",
        "HZ",
        "Also judge when the card's blocks begin; HZ is the card's clock, 1 to 1000000000 hertz",
    )
}

pub(crate) fn rules_arg<'a>(alloc: Global) -> Arg<'a>
    ensures rule { rule_of result ≡ rules_rule }
    ensures local { result.global ≡ false }
{
    flag_arg(
        alloc,
        "rules",
        "Also list how often each end kept or broke each rule, and how often each block was due",
    )
}

pub(crate) fn pairs_arg<'a>(alloc: Global) -> Arg<'a>
    ensures rule { rule_of result ≡ pairs_rule }
    ensures local { result.global ≡ false }
{
    Arg::new(alloc, "pairs")
        .action(ArgAction::Append)
        .value_name("COMMAND:REPLY")
        .help("Each command and its reply, in hexadecimal or none")
}

pub(crate) fn ifsd_arg<'a>(alloc: Global) -> Arg<'a>
    ensures rule { rule_of result ≡ ifsd_rule }
    ensures local { result.global ≡ false }
{
    Arg::new(alloc, "ifsd")
        .long("ifsd")
        .value_parser(value_parser!(u8).range(1..=254))
        .value_name("N")
        .help("The information field size that the terminal requests first, 1 to 254")
}

/// Returns the option that reads the pairs of a session from standard input.
pub(crate) fn lines_arg<'a>(alloc: Global) -> Arg<'a>
    ensures rule { rule_of result ≡ stdin_rule }
    ensures local { result.global ≡ false }
{
    option_arg(
        alloc,
        "stdin",
        "FORM",
        "Read the pairs from standard input; FORM is lines, and a line is COMMAND REPLY",
    )
}

/// Returns an option that takes a list of blocks.
pub(crate) fn list_arg<'a>(alloc: Global, name: &'a str, help: &'a str) -> Arg<'a>
    ensures rule { rule_of result ≡ option_rule name.now }
    ensures local { result.global ≡ false }
{
    option_arg(alloc, name, "LIST", help)
}

/// Returns a word that is required. Help calls it `value`.
fn required_arg<'a>(alloc: Global, name: &'a str, value: &'a str, help: &'a str) -> Arg<'a>
    ensures rule { rule_of result ≡ required_rule name.now }
    ensures local { result.global ≡ false }
{
    Arg::new(alloc, name)
        .required(true)
        .value_name(value)
        .help(help)
}

/// Returns an option that takes one word, whatever it is. Help calls it `value`.
fn option_arg<'a>(alloc: Global, name: &'a str, value: &'a str, help: &'a str) -> Arg<'a>
    ensures rule { rule_of result ≡ option_rule name.now }
    ensures local { result.global ≡ false }
{
    Arg::new(alloc, name)
        .long(name)
        .value_name(value)
        .help(help)
}
