//! The texts of help: what each command does, its forms, and what a person needs to know to use it.
//!
//! No clause of a contract has these texts, so another wording breaks no proof. The names of values are those of
//! docs/PROGRAM.md.

ghost use Rattle.std.specs.Prelude.{◌≡◌};
ghost use Rattle.clap.specs.Words.{app_of};
ghost use Rattle.clap.specs.declared.builder.command.Command.TheViews.{out-Command};

use clap::Command;

/// The texts of a command's help beside its lists of arguments.
pub(crate) struct Page<'a> {
    /// What it does, in one line.
    about: &'a str,
    /// A line for each form of its words.
    usage: &'a str,
    /// What comes after the lists.
    after: &'a str,
}

/// Adds a page of help to a command.
pub(crate) fn with_page<'a>(command: Command<'a>, page: &Page<'a>) -> Command<'a>
    ensures app { app_of result ≡ app_of command.entry }
    ensures local { (out-Command result).has_globals ≡ (out-Command command.entry).has_globals }
{
    with_after(
        with_usage(with_about(command, page.about), page.usage),
        page.after,
    )
}

/// Adds to a command the line that says what it does.
fn with_about<'a>(command: Command<'a>, about: &'a str) -> Command<'a>
    ensures app { app_of result ≡ app_of command.entry }
    ensures local { (out-Command result).has_globals ≡ (out-Command command.entry).has_globals }
{
    command.about(about)
}

/// Adds this usage to a command.
fn with_usage<'a>(command: Command<'a>, usage: &'a str) -> Command<'a>
    ensures app { app_of result ≡ app_of command.entry }
    ensures local { (out-Command result).has_globals ≡ (out-Command command.entry).has_globals }
{
    command.override_usage(usage)
}

/// Adds this text to a command, after its lists.
fn with_after<'a>(command: Command<'a>, after: &'a str) -> Command<'a>
    ensures app { app_of result ≡ app_of command.entry }
    ensures local { (out-Command result).has_globals ≡ (out-Command command.entry).has_globals }
{
    command.after_help(after)
}

/// The page of the program.
pub(crate) const PROGRAM: Page<'static> = Page {
    about: "Check, show, build and replay what smart cards and terminals exchange",
    usage: "scard [--explain] <COMMAND>
       scard --version",
    after: "Kinds of octets:
  atr       an answer to reset
  block     a block of the T=1 protocol
  chain     the I-blocks that carry one message
  command   a command APDU
  response  a response APDU
  tlv       BER-TLV data objects
  dol       a data object list

Octets are in hexadecimal, two digits each, in upper or lower case. The word none stands for no octets. With --stdin,
check, show and build tidy read the octets from standard input.

Exit status:
  0  accepted, or done
  1  refused, or incomplete, or an end differs from the recorded exchange
  2  a fault in the words, the file, the memory or a stream

All output goes to standard output. --explain stands before or after the command, and adds lines that say what is wrong.

Examples:
  scard help check
  scard check block 00000500A4040000A5",
};

/// The page of `check`.
pub(crate) const CHECK: Page<'static> = Page {
    about: "Check whether octets are a valid value, and count its octets",
    usage: "scard check <KIND> <HEX> [--ifs <N>] [--number <N>] [--json]
       scard check <KIND> --stdin <FORM> [--ifs <N>] [--number <N>] [--json]",
    after: "The kinds block and chain use --ifs, and chain uses --number. The other kinds ignore both.
More octets may follow an answer to reset, a block or a chain. A value of any other kind takes all octets.
With --stdin lines, each line of standard input is one value in hexadecimal, and gets one line as its answer at once.
With --json, each answer is a JSON object on one line.

Exit status:
  0  ok N octets: the first N octets are a valid value; with lines, so is each line
  1  short at P: more octets must follow; refused at P: REASON: the octet at place P, from 0, can't be there
  2  a fault, such as fault: words or fault: hex

Examples:
  scard check block 00000500A4040000A5
  printf '3B 80 80\\n01 01' | scard check atr --stdin hex",
};

/// The page of `show`.
pub(crate) const SHOW: Page<'static> = Page {
    about: "Show the fields of the value that octets encode, line by line",
    usage: "scard show <KIND> <HEX> [--ifs <N>] [--number <N>] [--notes] [--json]
       scard show <KIND> --stdin <FORM> [--ifs <N>] [--number <N>] [--notes] [--json]",
    after: "The kinds block and chain use --ifs, and chain uses --number. The other kinds ignore both.
With --stdin lines, each line of standard input is one value in hexadecimal. Its answer comes at once, and then an empty
line.
With --notes, a line may end with two spaces, a number sign, a space and a note. Without the note it is the same line.
With --json, each answer is a JSON object on one line. With --notes too, it has the lines that have notes, and these.

Exit status:
  0  the value was shown; with lines, all values
  1  short at P: more octets must follow; refused at P: REASON: the octet at place P, from 0, can't be there
  2  a fault, such as fault: words or fault: hex

Examples:
  scard show atr 3B808131204555
  scard show command 00A4040007A000000004101000 --notes
  scard show block 00000500A4040000A5 --json
  scard show tlv 6F108407A0000000041010A505BF0C025000 --explain",
};

/// The page of `build`.
pub(crate) const BUILD: Page<'static> = Page {
    about: "Build octets: the blocks of a chain, data objects in short form, or the data for a list",
    usage: "scard build chain <IFS> <NUMBER> <HEX> [--json]
       scard build tidy <HEX> [--json]
       scard build tidy --stdin <FORM> [--json]
       scard build fill <DOL> [F:TAG:VALUE]... [--json]",
    after: "chain  cuts the message HEX into I-blocks of at most IFS octets of data, 1 to 254. The first block has
       the number NUMBER, 0 or 1.
tidy   writes data objects in as few octets as possible: it shortens length fields and drops fillers.
fill   builds the data that the data object list DOL asks for. F is the format of a value: n (numeric),
       c (compressed numeric) or o (any other). TAG and VALUE are in hexadecimal.
With --json, the answer is a JSON object that has its lines.

Exit status:
  0  the octets were built; the word none stands for no octets
  1  the data objects or the list are refused, or two values have one tag
  2  a fault, such as fault: words or fault: hex

Examples:
  scard build chain 2 0 00A4040000
  scard build fill 9F02069A03 n:9F02:1000 n:9A:260101",
};

/// The page of `replay`.
pub(crate) const REPLAY: Page<'static> = Page {
    about: "Replay the recorded exchange on standard input at one end, or at both",
    usage: "scard replay --end <END> [--json]",
    after: "With --end both, the answer has a line for each end, which begins with terminal: or card:.
With --json, the answer is a JSON object.

Exit status:
  0  ok N lines: the end does all that the file says, or both ends do
  1  line N: engine gives TEXT: at line N the end does TEXT, and not what the file says
  2  a fault in the file, such as fault: Header or fault: line 3: Word

Examples:
  scard replay --end card <examples/damaged_and_lost.exchange
  scard simulate 3B808131204555 00A4040000:9000 --lose 2 | scard replay --end terminal",
};

/// The page of `migrate`.
pub(crate) const MIGRATE: Page<'static> = Page {
    about: "Convert the recorded exchange on standard input to the newest version",
    usage: "scard migrate [--json]",
    after: "With --json, the answer is a JSON object that has its lines.

Exit status:
  0  the file in version 2, with the same lines
  2  a fault in the file, such as fault: Header or fault: line 3: Word

Examples:
  scard migrate <examples/damaged_and_lost.exchange
  scard simulate 3B808131204555 00A4040000:9000 | scard migrate",
};

/// The page of `apdus`.
pub(crate) const APDUS: Page<'static> = Page {
    about: "List each command of the recorded exchange on standard input, with its outcome",
    usage: "scard apdus [--json]",
    after: "The list has a line for each command, with these names and values:
  exchange  its number, from 1
  command   its octets
  answer    the octets of its answer, or given-up, or dead; open, if the file has no outcome
  blocks    how many blocks were sent for it
  lost      which of them were lost, by their numbers in the whole file, such as 2,5; or none
  damaged   which of them arrived damaged, by their numbers; or none
  time      its duration in microseconds; or none, if the file has no times
With --json, one JSON object has all of them.

Exit status:
  0  the lines; no line, if the file has no command
  2  a fault in the file, such as fault: Header or fault: line 3: Word

Examples:
  scard apdus <examples/damaged_and_lost.exchange
  scard simulate 3B808131204555 00A4040000:9000 00B0000000:6A82 --lose 2,5 | scard apdus",
};

/// The page of `draw`.
pub(crate) const DRAW: Page<'static> = Page {
    about: "Draw the recorded exchange on standard input, as a ladder between terminal and card",
    usage: "scard draw [--svg] [--json]",
    after: "The drawing has a row for each line of the file. What the terminal's application says is on the left, what the
card's host says is on the right, and times and notes are between them. The row of a block has its number, as
simulate --lose takes it, an arrow, its meaning and its octets:
  ->| or |<-  the block arrives; if it arrives damaged, the next row has what arrived
  -x or x-    the block is lost
Of a long block, the row has the first octets, and how many octets it has.
With --svg, the drawing is one picture in SVG, light or dark like the browser. With --json, an object has its lines.

Exit status:
  0  the drawing
  2  a fault in the file, such as fault: Header or fault: line 3: Word

Examples:
  scard draw <examples/damaged_and_lost.exchange
  scard simulate 3B808131204555 00A4040000:9000 --lose 2 | scard draw --svg",
};

/// The page of `record`.
pub(crate) const RECORD: Page<'static> = Page {
    about: "Make a recorded exchange from the blocks that were seen on a line",
    usage: "scard record <ATR> [--json]",
    after: "Standard input has a line for each block, in order of time:
  t HEX       the terminal sends this block, in hexadecimal, and it arrives
  c HEX       the card sends this block, and it arrives
  t HEX lost  the terminal sends this block, and it doesn't arrive; likewise c HEX lost
  quiet       the terminal's waiting time ended
  at N        the time is N microseconds; until N: the last octet of the next block begins then
The lines that scard judge takes are permitted, if an exchange shows what they say. The file has these blocks, and what
the applications of both ends must have said. So scard replay can say whether an end behaves differently, and where
first. With --json, the answer is a JSON object that has the lines of the file.

Exit status:
  0  the file of the exchange
  1  refused: NAME: no session of T=1 can begin from the answer to reset
  1  refused at line N: NAME: no exchange shows what this line says, such as PPS or other node addresses
  2  a fault, such as fault: words, fault: hex or fault: line 3: Word

Examples:
  printf 't 00000500A4040000A5\\nc 000002900092\\n' | scard record 3B808131204555",
};

/// The page of `judge`.
pub(crate) const JUDGE: Page<'static> = Page {
    about: "Report each block of a trace that the standard doesn't permit, and the end that sent it",
    usage: "scard judge <ATR> [--end <END>] [--clock <HZ>] [--rules] [--json]",
    after: "Standard input has a line for each block, in order of time:
  t HEX           the terminal sends this block, in hexadecimal
  c HEX           the card sends this block
  t HEX lost      the block doesn't arrive; likewise c HEX lost
  t HEX parity    the card sees an error of parity in it; likewise c HEX parity
  t HEX as HEX    the block arrives as the second HEX; likewise c HEX as HEX
  t none          a block of which no octet was seen; likewise c none, and as none
  quiet           the terminal's waiting time ended
  reset           the card was reset
  begins unknown  what follows comes in the midst of a session
  at N            the time is N microseconds; before a block, the block begins then
  until N         the last octet of the next block begins then
  # REMARK        a remark, which changes nothing
Each block is judged by ISO/IEC 7816-3:2006, clause 11, and by what its sender may have received before. The report has
a line for each deviation: the block, its sender, the broken rule, what was due, and the clause. A PPS exchange may come
first. With --clock, a block of the card is late if it begins after the block waiting time, and one of the terminal is
early before that time is over. The answer to reset and the last waiting time extension give it. With --rules, a line
for each rule says how often each end kept or broke it, and a line for each state how often it was due from each end, or
never. With --json, the report is a JSON object.

Exit status:
  0  ok N blocks: the standard permits all of them, as they were seen
  1  unsure N blocks, unseen K: it permits K of them only if a block was damaged or lost that the trace shows whole;
     or a line for each deviation, and their number; or refused: NAME: the answer to reset gives no T=1 session
  2  a fault, such as fault: words, fault: hex or fault: line 3: Word

Examples:
  printf 't 00000500A4040000A5\\nc 000002900092\\n' | scard judge 3B808131204555
  printf 't 00400500A4040000E5\\nc 00820082\\n' | scard judge 3B808131204555 --end card
  printf 'at 0\\nt 00C000C0\\nat 1600000\\nc 00E000E0\\n' | scard judge 3B808131204555 --clock 3571200
  printf 't 00000500A4040000A5\\nc 000002900092\\n' | scard judge 3B808131204555 --rules",
};

/// The page of `simulate`.
pub(crate) const SIMULATE: Page<'static> = Page {
    about: "Simulate a session of a terminal and a card over a line with errors, and record it",
    usage: "scard simulate <ATR> [COMMAND:REPLY]... [--ifsd <N>] [--lose <LIST>] [--damage <LIST>] [--spoil <LIST>] [--json]
       scard simulate <ATR> --stdin lines [--ifsd <N>] [--lose <LIST>] [--damage <LIST>] [--spoil <LIST>] [--json]",
    after: "LIST is block numbers and ranges such as 2-5, with commas between. The numbers count the blocks of both ends from 1, in
the order in which they are sent.
With --stdin lines, each line of standard input has a command and its reply, with blanks between. scard skips empty
lines. With --json, the answer is a JSON object that has the lines of the file.

Exit status:
  0  the file of the recorded exchange, which replays at both ends
  1  refused: NAME: no session of T=1 can begin from the answer to reset
  2  a fault, such as fault: words, fault: hex or fault: TooLarge

Examples:
  scard simulate 3B808131204555 00A4040000:9000
  scard simulate 3B808131204555 00A4040000:9000 00B0000000:6A82 --lose 2,5 --damage 3
  printf '00A4040000 9000\\n00B0000000 6A82\\n' | scard simulate 3B808131204555 --stdin lines",
};
