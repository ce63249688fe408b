//! The form of the words, as a command of `clap`.

ghost use Rattle.command_line.specs.Building.{AddsSubcommandTo, AddsTo, HasForm, IsLocal, StaysLocal};
ghost use Rattle.command_line.specs.Form.{apdus_app, begun_app, build_app, draw_app, exchanges_app, expected_app, input_app, judge_app, judged_app, migrate_app, octets_app, record_app, replay_app, scard, session_app, show_app, simulate_app, traces_app};

use crate::arguments::{
    atr_arg, clock_arg, end_arg, explain_arg, hex_arg, ifs_arg, ifsd_arg, json_arg, judged_arg,
    kind_arg, lines_arg, list_arg, notes_arg, number_arg, pairs_arg, rules_arg, stdin_arg, svg_arg,
    what_arg, words_arg,
};
use crate::help::{
    APDUS, BUILD, CHECK, DRAW, JUDGE, MIGRATE, PROGRAM, Page, RECORD, REPLAY, SHOW, SIMULATE,
    with_page,
};
use clap::{Arg, Command};
use std::alloc::{AllocError, Global};

/// A command that is being built, or out of memory. Each step takes the result of the step before, so that the
/// functions below have one way out.
type Built<'a> = Result<Command<'a>, AllocError>;

/// Returns the program as a command of `clap`.
pub(crate) fn program<'a>(alloc: Global) -> Built<'a>
    ensures { HasForm scard result }
{
    offering(traces_command(alloc), simulate_command(alloc))
}

/// Returns the program's command with the subcommands for octets, recorded exchanges and traces of a line.
fn traces_command<'a>(alloc: Global) -> Built<'a>
    ensures { HasForm traces_app result }
{
    let record = offering(exchanges_command(alloc), record_command(alloc));
    offering(record, judge_command(alloc))
}

/// Returns the program's command with the subcommands for octets and recorded exchanges.
fn exchanges_command<'a>(alloc: Global) -> Built<'a>
    ensures { HasForm exchanges_app result }
{
    let replay = offering(octets_command(alloc), replay_command(alloc));
    let migrate = offering(replay, migrate_command(alloc));
    let apdus = offering(migrate, apdus_command(alloc));
    offering(apdus, draw_command(alloc))
}

/// Returns the program's command with the subcommands for octets.
fn octets_command<'a>(alloc: Global) -> Built<'a>
    ensures { HasForm octets_app result }
{
    let begun = begun_command(alloc, "scard", &PROGRAM);
    let check = offering(begun, input_command(alloc, "check", &CHECK));
    let show = offering(check, show_command(alloc));
    offering(show, build_command(alloc))
}

/// Adds an argument to a command.
fn asking<'a>(command: Built<'a>, arg: Arg<'a>) -> Built<'a>
    ensures form { AddsTo command.entry arg.entry result }
    ensures local { StaysLocal command.entry arg.entry result }
{
    command?.arg(arg)
}

/// Adds a subcommand to a command.
fn offering<'a>(command: Built<'a>, subcommand: Built<'a>) -> Built<'a>
    ensures { AddsSubcommandTo command.entry subcommand.entry result }
{
    let command = command?;
    command.subcommand(subcommand?)
}

/// Returns the subcommand that shows a value.
fn show_command<'a>(alloc: Global) -> Built<'a>
    ensures form { HasForm show_app result }
    ensures local { IsLocal result }
{
    asking(input_command(alloc, "show", &SHOW), notes_arg(alloc))
}

/// Returns a subcommand that takes octets and their expected kind.
fn input_command<'a>(alloc: Global, name: &'a str, page: &Page<'a>) -> Built<'a>
    ensures form { HasForm (input_app name.now) result }
    ensures local { IsLocal result }
{
    let hex = asking(expected_command(alloc, name, page), hex_arg(alloc));
    let stdin = asking(hex, stdin_arg(alloc));
    asking(stdin, json_arg(alloc))
}

/// Returns that subcommand without the octets: it has a kind, an information size and a first number.
fn expected_command<'a>(alloc: Global, name: &'a str, page: &Page<'a>) -> Built<'a>
    ensures form { HasForm (expected_app name.now) result }
    ensures local { IsLocal result }
{
    let kind = asking(begun_command(alloc, name, page), kind_arg(alloc));
    let ifs = asking(kind, ifs_arg(alloc));
    asking(ifs, number_arg(alloc))
}

/// Returns the program or a subcommand with what all of them have: the option that asks for an explanation.
fn begun_command<'a>(alloc: Global, name: &'a str, page: &Page<'a>) -> Built<'a>
    ensures form { HasForm (begun_app name.now) result }
    ensures local { IsLocal result }
{
    with_page(Command::new(alloc, name), page).arg(explain_arg(alloc))
}

/// Returns the subcommand that builds what a word says.
fn build_command<'a>(alloc: Global) -> Built<'a>
    ensures form { HasForm build_app result }
    ensures local { IsLocal result }
{
    let what = asking(begun_command(alloc, "build", &BUILD), what_arg(alloc));
    let words = asking(what, words_arg(alloc));
    let stdin = asking(words, stdin_arg(alloc));
    asking(stdin, json_arg(alloc))
}

/// Returns the subcommand that replays recorded exchanges.
fn replay_command<'a>(alloc: Global) -> Built<'a>
    ensures form { HasForm replay_app result }
    ensures local { IsLocal result }
{
    let end = asking(begun_command(alloc, "replay", &REPLAY), end_arg(alloc));
    asking(end, json_arg(alloc))
}

/// Returns the subcommand that converts recorded exchanges to the newest version.
fn migrate_command<'a>(alloc: Global) -> Built<'a>
    ensures form { HasForm migrate_app result }
    ensures local { IsLocal result }
{
    asking(begun_command(alloc, "migrate", &MIGRATE), json_arg(alloc))
}

/// Returns the subcommand that lists the commands and answers of recorded exchanges.
fn apdus_command<'a>(alloc: Global) -> Built<'a>
    ensures form { HasForm apdus_app result }
    ensures local { IsLocal result }
{
    asking(begun_command(alloc, "apdus", &APDUS), json_arg(alloc))
}

/// Returns the subcommand that draws recorded exchanges.
fn draw_command<'a>(alloc: Global) -> Built<'a>
    ensures form { HasForm draw_app result }
    ensures local { IsLocal result }
{
    let svg = asking(begun_command(alloc, "draw", &DRAW), svg_arg(alloc));
    asking(svg, json_arg(alloc))
}

/// Returns the subcommand that makes recorded exchanges from blocks.
fn record_command<'a>(alloc: Global) -> Built<'a>
    ensures form { HasForm record_app result }
    ensures local { IsLocal result }
{
    let atr = asking(begun_command(alloc, "record", &RECORD), atr_arg(alloc));
    asking(atr, json_arg(alloc))
}

/// Returns the subcommand that judges the blocks of a trace.
fn judge_command<'a>(alloc: Global) -> Built<'a>
    ensures form { HasForm judge_app result }
    ensures local { IsLocal result }
{
    let judged = judged_command(alloc);
    let clock = asking(judged, clock_arg(alloc));
    let rules = asking(clock, rules_arg(alloc));
    asking(rules, json_arg(alloc))
}

/// Returns that subcommand with only the answer to reset and the end.
fn judged_command<'a>(alloc: Global) -> Built<'a>
    ensures form { HasForm judged_app result }
    ensures local { IsLocal result }
{
    let atr = asking(begun_command(alloc, "judge", &JUDGE), atr_arg(alloc));
    asking(atr, judged_arg(alloc))
}

/// Returns the subcommand that records a session of both ends.
fn simulate_command<'a>(alloc: Global) -> Built<'a>
    ensures form { HasForm simulate_app result }
    ensures local { IsLocal result }
{
    let lose = asking(
        session_command(alloc),
        list_arg(alloc, "lose", "The blocks to lose, such as 2,5 or 2-5"),
    );
    let damage = asking(
        lose,
        list_arg(
            alloc,
            "damage",
            "The blocks that arrive with a changed last octet",
        ),
    );
    asking(
        damage,
        list_arg(
            alloc,
            "spoil",
            "The blocks that arrive with another node address",
        ),
    )
}

/// Returns that subcommand without the options that name blocks.
fn session_command<'a>(alloc: Global) -> Built<'a>
    ensures form { HasForm session_app result }
    ensures local { IsLocal result }
{
    let atr = asking(begun_command(alloc, "simulate", &SIMULATE), atr_arg(alloc));
    let pairs = asking(atr, pairs_arg(alloc));
    let ifsd = asking(pairs, ifsd_arg(alloc));
    let lines = asking(ifsd, lines_arg(alloc));
    asking(lines, json_arg(alloc))
}
