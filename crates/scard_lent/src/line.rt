//! The line of one end of a session, step by step (ISO/IEC 7816-3, clause 11.4). The caller keeps the line. It says
//! what happened, one event a call, and each call returns the one thing to do next. Any values of a line are valid.

ghost use Rattle.std.specs.Prelude.{◌≡◌, [], List, ℕ};
ghost use Rattle.line_core.specs.Bursts.{HasHeard};
ghost use Rattle.session_core.specs.Wire.{ruled, seen, forever, fresh, begins, clears, talks, serves};
ghost use Rattle.session_core.specs.Lines.{first_of, stepped, IsTold};

use session_core::{Line, LineNext, Rules};

/// Begins the line of an end that hasn't used it yet. The line may have any value before.
#[unsafe(no_mangle)]
pub extern "C" fn scard_lent_line_begin(line: &mut Line, rules: &Rules)
    ensures rules { line.new.rules ≡ rules.now }
    ensures progress { seen line.new.progress ≡ fresh (ruled rules.now) }
    ensures burst { HasHeard line.new.framer [] }
{
    line.begin(rules);
}

/// Begins an exchange of a terminal, or sends what a card's host asked for. Octets that came late are dropped first.
/// After the block the end waits for the first octet of a burst for `first` microseconds, and a card without a limit,
/// with `UINT64_MAX`.
#[unsafe(no_mangle)]
pub extern "C" fn scard_lent_line_exchange(line: &mut Line, first: u64, now: u64) -> LineNext
    ensures { (burst : List ℕ) → HasHeard line.old.framer burst
        → IsTold (begins (ruled line.old.rules) (first_of line.old first) burst now) line.old.rules
        line.new result }
{
    line.exchange(first, now)
}

/// Begins an exchange as `scard_lent_line_exchange` does, but with a silence: octets are dropped until the line is
/// silent for BWT.
#[unsafe(no_mangle)]
pub extern "C" fn scard_lent_line_clear(line: &mut Line, first: u64, now: u64) -> LineNext
    ensures { (burst : List ℕ) → HasHeard line.old.framer burst
        → IsTold (clears (ruled line.old.rules) (first_of line.old first) burst now) line.old.rules
        line.new result }
{
    line.clear(first, now)
}

/// Sends the next block, within the limits of the exchange.
#[unsafe(no_mangle)]
pub extern "C" fn scard_lent_line_talk(line: &mut Line, first: u64, now: u64) -> LineNext
    ensures { (burst : List ℕ) → HasHeard line.old.framer burst
        → IsTold (talks (ruled line.old.rules) (first_of line.old first) burst now) line.old.rules
        line.new result }
{
    line.talk(first, now)
}

/// Begins to serve the terminal, as a card does, or continues after the line failed.
#[unsafe(no_mangle)]
pub extern "C" fn scard_lent_line_serve(line: &mut Line, now: u64) -> LineNext
    ensures { (burst : List ℕ) → HasHeard line.old.framer burst
        → IsTold (serves (ruled line.old.rules) (first_of line.old forever) burst now) line.old.rules line.new
        result }
{
    line.serve(now)
}

/// Says what happened on the line: 0 the block was sent, 1 these octets came (with none: the wait was interrupted), 2
/// these octets came, at least one of them damaged, 3 nothing came within the silence that was asked for, 4 the line
/// failed. `block` is the end's own block: the one that it sends, or sent last.
#[unsafe(no_mangle)]
pub extern "C" fn scard_lent_line_step(
    line: &mut Line,
    event: u8,
    octets: &[u8],
    now: u64,
    block: &[u8],
) -> LineNext
    ensures { (burst : List ℕ) → HasHeard line.old.framer burst
        → IsTold (stepped event (ruled line.old.rules) (seen line.old.progress) burst octets.now now
        block.now) line.old.rules line.new result }
{
    line.step(event, octets, now, block)
}
