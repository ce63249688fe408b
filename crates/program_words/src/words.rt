//! What the words of a command line ask for.

ghost use Rattle.std.specs.Prelude.{◌≡◌, ◌⊎◌, [], Err, IfOk, map, option_map};
ghost use Rattle.clap.specs.Words.{all_of, first_of, found_of, rows_of, subcommand_rows_of};
ghost use Rattle.clap.specs.Values.{kind_of as error_kind};
ghost use Rattle.program_words.specs.Words.{asked_of, atr_of, build_of, build_words, chain_of, clock_of, end_of_word, drawing_of, expected_of, session_of, has_flag, hertz_of, judge_of, judged_ends, kind_of, layout_of, one_end, record_of, replay_of, show_aim, request_by, tidy_of, told_of, fill_of, AreLaid, HaveOctets, IsHelpOrFault, IsRead, AreSized, simulate_of};
ghost use Rattle.command_line.specs.Form.{texts};
ghost use Rattle.program_words.specs.Value.{UnlessMemory};

use crate::fault::Fault;
use crate::given::{asks_for_lines, read_given};
use crate::known::knowns;
use crate::numerals::{asked_size, number, number_or_zero, size};
use crate::pair_lines::are_lines;
use crate::request::{Aim, Asked, Drawing, Ends, Expected, FileTask, Judging, Kind, Request, Task};
use crate::session::{Session, read_blocks, read_pairs};
use crate::value::octets;
use chain_core::LONGEST_MESSAGE;
use clap::error::ErrorKind;
use clap::{ArgMatches, Error};
use command_line::{asks_for_json, asks_for_version, matches_of};
use layouts::Layout;
use octet_core::{Octets, Text, decimal_of};
use std::alloc::Global;

/// The highest frequency of a clock in hertz.
const FASTEST_CLOCK: u64 = 1_000_000_000;

/// Returns the layout of the answer to words, by the words alone: an object if one of them is `--json`, whatever else
/// they say. After `--` it is a word like any other.
pub fn layout_of(words: &[String]) -> Layout
    ensures { result ≡ layout_of (texts words.now) }
{
    if asks_for_json(words) {
        Layout::Json
    } else {
        Layout::Lines
    }
}

/// Reads what the words ask for. The first word is the program's name. The layout in it is that of the words.
pub fn read(alloc: Global, words: &[String]) -> Result<Asked, Fault>
    ensures read { (result ≡ Err Fault.Memory) ⊎ IsRead (texts words.now) result }
    ensures sized { IfOk result AreSized }
    ensures octets { IfOk result HaveOctets }
    ensures laid { IfOk result (AreLaid (layout_of (texts words.now))) }
{
    if asks_for_version(words) {
        return Ok(Asked::Once(Request::Version));
    }
    match matches_of(alloc, words) {
        Ok(matches) => asked(alloc, layout_of(words), &matches),
        Err(error) => help_or_fault(alloc, &error),
    }
}

/// Reads what the matches of the words ask for, in this layout.
fn asked(alloc: Global, layout: Layout, matches: &ArgMatches) -> Result<Asked, Fault>
    ensures { UnlessMemory result (asked_of layout (subcommand_rows_of matches.now)) }
{
    let Some((name, entered)) = entered(matches) else {
        return Err(Fault::Words);
    };
    match name {
        "check" => octets_asked(alloc, layout, Aim::Check, entered),
        "show" => octets_asked(alloc, layout, show_aim(entered), entered),
        _ => Ok(Asked::Once(request(alloc, layout, name, entered)?)),
    }
}

/// Reads the request of a subcommand other than `check` and `show`.
fn request(
    alloc: Global,
    layout: Layout,
    name: &str,
    matches: &ArgMatches,
) -> Result<Request, Fault>
    ensures { UnlessMemory result (request_by layout name.now (rows_of (found_of matches.now))) }
{
    match name {
        "build" => build(alloc, matches),
        "replay" => replay(layout, matches),
        "migrate" => Ok(Request::File(FileTask::Migrate)),
        "apdus" => Ok(Request::File(FileTask::Apdus(layout))),
        "draw" => Ok(Request::File(FileTask::Draw(drawing(matches)))),
        "record" => record(alloc, matches),
        "judge" => judge(alloc, layout, matches),
        "simulate" => simulate(alloc, matches),
        _ => Err(Fault::Words),
    }
}

/// Returns the name of the subcommand and its matches.
fn entered<'a, 'b>(matches: &'b ArgMatches<'a>) -> Option<(&'a str, &'b ArgMatches<'a>)>
    ensures { option_map (λ p. (p.0.now, rows_of (found_of p.1.now))) result ≡ subcommand_rows_of
        matches.now }
{
    matches.subcommand()
}

/// Reads what to check or show: octets, or lines of them.
fn octets_asked(
    alloc: Global,
    layout: Layout,
    aim: Aim,
    matches: &ArgMatches,
) -> Result<Asked, Fault>
    ensures { UnlessMemory result (told_of layout aim (rows_of (found_of matches.now))) }
{
    let expected = expected(matches)?;
    let task = Task {
        aim,
        layout,
        expected,
    };
    let hex = word(matches, "hex");
    let form = word(matches, "stdin");
    if asks_for_lines(hex, form) {
        return Ok(Asked::Lines(task));
    }
    let given = read_given(alloc, hex, form)?;
    Ok(Asked::Once(Request::Tell(task, given)))
}

/// Returns what `show` prints: the value, with notes if there is `--notes`.
fn show_aim(matches: &ArgMatches) -> Aim
    ensures { result ≡ show_aim (rows_of (found_of matches.now)) }
{
    if has_flag(matches, "notes") {
        Aim::Note
    } else {
        Aim::Show
    }
}

/// Whether an option without a value is given.
fn has_flag(matches: &ArgMatches, name: &str) -> bool
    ensures { result ≡ has_flag name.now (rows_of (found_of matches.now)) }
{
    matches!(word(matches, name), Some("true"))
}

/// Reads a kind, an information size and a first number.
fn expected(matches: &ArgMatches) -> Result<Expected, Fault>
    ensures { result ≡ expected_of (rows_of (found_of matches.now)) }
{
    let ifs = size(word(matches, "ifs"))?;
    let number = number_or_zero(word(matches, "number"))?;
    let kind = kind(word(matches, "kind").ok_or(Fault::Words)?)?;
    Ok(Expected { kind, ifs, number })
}

/// Reads what to build from the words after its name.
fn build(alloc: Global, matches: &ArgMatches) -> Result<Request, Fault>
    ensures { UnlessMemory result (build_of (rows_of (found_of matches.now))) }
{
    let what = word(matches, "what").ok_or(Fault::Words)?;
    let words = all_words(matches, "words").unwrap_or(&[]);
    let form = word(matches, "stdin");
    if what == "tidy" {
        return tidy(alloc, words, form);
    }
    if form.is_some() {
        return Err(Fault::Words);
    }
    build_of_words(alloc, what, words)
}

/// Reads what to build from words alone.
fn build_of_words(alloc: Global, what: &str, words: &[&str]) -> Result<Request, Fault>
    ensures { UnlessMemory result (build_words what.now (map (λ word. word.now) words.now)) }
{
    match what {
        "chain" => chain(alloc, words),
        "fill" => fill(alloc, words),
        _ => Err(Fault::Words),
    }
}

/// Reads the end, or both ends, to replay recorded exchanges at.
fn replay(layout: Layout, matches: &ArgMatches) -> Result<Request, Fault>
    ensures { result ≡ replay_of layout (rows_of (found_of matches.now)) }
{
    let side = end(word(matches, "end").ok_or(Fault::Words)?)?;
    Ok(Request::File(FileTask::Replay(side, layout)))
}

/// Returns how to draw a recorded exchange: as text, or with `--svg` as a picture.
fn drawing(matches: &ArgMatches) -> Drawing
    ensures { result ≡ drawing_of (rows_of (found_of matches.now)) }
{
    if has_flag(matches, "svg") {
        Drawing::Picture
    } else {
        Drawing::Ladder
    }
}

/// Reads the answer to reset for an exchange that is made from blocks.
fn record(alloc: Global, matches: &ArgMatches) -> Result<Request, Fault>
    ensures { UnlessMemory result (record_of (rows_of (found_of matches.now))) }
{
    Ok(Request::Record(atr(alloc, matches)?))
}

/// Reads what to judge, and the answer to reset of the card on the line.
fn judge(alloc: Global, layout: Layout, matches: &ArgMatches) -> Result<Request, Fault>
    ensures { UnlessMemory result (judge_of layout (rows_of (found_of matches.now))) }
{
    let ends = judged_ends(word(matches, "end"))?;
    let clock = clock(word(matches, "clock"))?;
    let atr = atr(alloc, matches)?;
    let judging = Judging {
        ends,
        clock,
        rules: has_flag(matches, "rules"),
        layout,
    };
    Ok(Request::Judge { atr, judging })
}

/// Reads the answer to reset of a card.
fn atr(alloc: Global, matches: &ArgMatches) -> Result<Octets, Fault>
    ensures { UnlessMemory result (atr_of (rows_of (found_of matches.now))) }
{
    octets(alloc, word(matches, "atr").ok_or(Fault::Words)?)
}

/// Reads a session of both ends. Its pairs are words, or the lines of standard input.
fn simulate(alloc: Global, matches: &ArgMatches) -> Result<Request, Fault>
    ensures { UnlessMemory result (simulate_of (rows_of (found_of matches.now))) }
{
    let pairs = all_words(matches, "pairs").unwrap_or(&[]);
    let are_lines = are_lines(word(matches, "stdin"), pairs)?;
    let session = session(alloc, matches, pairs)?;
    if are_lines {
        return Ok(Request::SimulateLines(session));
    }
    Ok(Request::Simulate(session))
}

/// Reads a session of both ends with the pairs of these words.
fn session(alloc: Global, matches: &ArgMatches, words: &[&str]) -> Result<Session, Fault>
    ensures { UnlessMemory result
        (session_of (map (λ word. word.now) words.now) (rows_of (found_of matches.now))) }
{
    let ifsd = asked_size(word(matches, "ifsd"))?;
    let lost = read_blocks(alloc, word(matches, "lose"))?;
    let damaged = read_blocks(alloc, word(matches, "damage"))?;
    let spoilt = read_blocks(alloc, word(matches, "spoil"))?;
    let atr = atr(alloc, matches)?;
    let pairs = read_pairs(alloc, words)?;
    Ok(Session {
        atr,
        ifsd,
        pairs,
        lost,
        damaged,
        spoilt,
    })
}

/// Reads a forest to tidy.
fn tidy(alloc: Global, words: &[&str], form: Option<&str>) -> Result<Request, Fault>
    ensures { UnlessMemory result
        (tidy_of (map (λ word. word.now) words.now) (option_map (λ word. word.now) form.entry)) }
{
    let hex = match words {
        [] => None,
        [hex] => Some(*hex),
        _ => return Err(Fault::Words),
    };
    Ok(Request::BuildTidy(read_given(alloc, hex, form)?))
}

/// Reads a data object list to fill, and the known values.
fn fill(alloc: Global, words: &[&str]) -> Result<Request, Fault>
    ensures { UnlessMemory result (fill_of (map (λ word. word.now) words.now)) }
{
    let Some((hex, known)) = words.split_first() else {
        return Err(Fault::Words);
    };
    let list = octets(alloc, hex)?;
    let known = match knowns(alloc, known) {
        Err(Fault::Memory) => return Err(Fault::Memory),
        known => known,
    };
    Ok(Request::BuildFill { list, known })
}

/// Reads a chain to build: an information size, a first number and a message.
fn chain(alloc: Global, words: &[&str]) -> Result<Request, Fault>
    ensures { UnlessMemory result (chain_of (map (λ word. word.now) words.now)) }
{
    if words.len() != 3 {
        return Err(Fault::Words);
    }
    let ifs = size(Some(words[0]))?;
    let number = number(words[1])?;
    let message = octets(alloc, words[2])?;
    if message.get().len() > LONGEST_MESSAGE {
        return Err(Fault::Words);
    }
    Ok(Request::BuildChain {
        ifs,
        number,
        message,
    })
}

/// Returns all values of an argument.
fn all_words<'a, 'b>(matches: &'b ArgMatches<'a>, id: &str) -> Option<&'b [&'a str]>
    ensures { option_map (λ words. map (λ word. word.now) words.now) result ≡ all_of id.now
        (rows_of (found_of matches.now)) }
{
    matches.get_strs(id)
}

/// Returns the first value of an argument.
fn word<'a>(matches: &ArgMatches<'a>, id: &str) -> Option<&'a str>
    ensures { option_map (λ word. word.now) result ≡ first_of id.now
        (rows_of (found_of matches.now)) }
{
    matches.get_str(id)
}

/// Returns the kind that a word names.
pub fn kind(word: &str) -> Result<Kind, Fault>
    ensures { result ≡ kind_of word.now }
{
    match word {
        "atr" => Ok(Kind::Atr),
        "block" => Ok(Kind::Block),
        "chain" => Ok(Kind::Chain),
        "command" => Ok(Kind::Command),
        "response" => Ok(Kind::Response),
        "tlv" => Ok(Kind::Tlv),
        "dol" => Ok(Kind::Dol),
        _ => Err(Fault::Words),
    }
}

/// Reads an end of a line, or both. `clap` accepts any word as an end.
fn end(word: &str) -> Result<Ends, Fault>
    ensures { result ≡ end_of_word word.now }
{
    match word {
        "both" => Ok(Ends::Both),
        _ => one_end(word),
    }
}

/// Reads the ends to judge: both if there is no word.
fn judged_ends(word: Option<&str>) -> Result<Ends, Fault>
    ensures { result ≡ judged_ends (option_map (λ word. word.now) word.entry) }
{
    match word {
        Some(word) => one_end(word),
        None => Ok(Ends::Both),
    }
}

/// Reads the frequency of a clock, if there is a word for it.
pub fn clock(word: Option<&str>) -> Result<Option<u64>, Fault>
    ensures { result ≡ clock_of (option_map (λ word. word.now) word.entry) }
{
    match word {
        Some(word) => hertz(decimal_of(word.as_bytes())),
        None => Ok(None),
    }
}

/// Returns a number of hertz, if a clock may have it.
fn hertz(number: Option<u64>) -> Result<Option<u64>, Fault>
    ensures { result ≡ hertz_of number }
{
    match number {
        Some(number) if number >= 1 && number <= FASTEST_CLOCK => Ok(Some(number)),
        Some(_) | None => Err(Fault::Words),
    }
}

/// Reads one end of a line.
pub fn one_end(word: &str) -> Result<Ends, Fault>
    ensures { result ≡ one_end word.now }
{
    match word {
        "terminal" => Ok(Ends::Terminal),
        "card" => Ok(Ends::Card),
        _ => Err(Fault::Words),
    }
}

/// Returns the result of a parse without matches: the text of a call for help, or a fault.
fn help_or_fault(alloc: Global, error: &Error) -> Result<Asked, Fault>
    ensures { IsHelpOrFault (error_kind error.now) result }
{
    match error.kind() {
        ErrorKind::OutOfMemory => Err(Fault::Memory),
        ErrorKind::DisplayHelp => {
            let help = Text::of(format!(in alloc; "{error}")?);
            Ok(Asked::Once(Request::Help(help)))
        }
        _ => Err(Fault::Words),
    }
}
