//! The notes before lines that say what nobody saw.

ghost use Rattle.std.specs.Prelude.{◌≡◌, ◌++◌, IfOk, OnOk};
ghost use Rattle.traces.specs.Marked as spec;
ghost use Rattle.traces.specs.Marked.{left_after, put_as};

use exchange_core::{Line, Lines};
use std::alloc::{AllocError, Global};

/// Returns the lines, with a note before each line whose place is in `unseen`. These places are in rising order.
pub(crate) fn marked(alloc: Global, lines: Vec<Line>, unseen: &[usize]) -> Result<Lines, AllocError>
    ensures { IfOk result (λ marked. marked ≡ spec.marked 0 unseen.now lines.items) }
{
    if unseen.is_empty() {
        return Ok(Lines::of(lines));
    }
    let count = lines.len();
    let mut marked = Vec::with_capacity(alloc, count)?;
    let mut rest = unseen;
    let mut place = 0;
    for line in lines {
        rest = put(alloc, &mut marked, place, rest, line)?;
        place += 1;
    }
    Ok(Lines::of(marked))
}

/// Appends the line of a place, after a note if the place is the first of `unseen`. Returns the places that are left.
fn put<'a>(
    alloc: Global,
    marked: &mut Vec<Line>,
    place: usize,
    unseen: &'a [usize],
    line: Line,
) -> Result<&'a [usize], AllocError>
    ensures put { OnOk result (marked.new.items ≡ marked.old.items
        ++ put_as place unseen.now line) }
    ensures left { IfOk result (λ left. left.now ≡ left_after place unseen.now) }
{
    match unseen {
        [next, after @ ..] if *next == place => {
            marked.push(Line::added(alloc)?)?;
            marked.push(line)?;
            Ok(after)
        }
        _ => {
            marked.push(line)?;
            Ok(unseen)
        }
    }
}
