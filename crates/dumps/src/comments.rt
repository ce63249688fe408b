//! The places in the comments of a source.

ghost use Rattle.std.specs.Prelude.{◌≡◌};
ghost use Rattle.dumps.specs.Source.{after_slash, after_star, in_block, in_line};

use crate::turn::Place;

/// Returns what a character after a `/` outside of quotes and comments begins.
pub(crate) fn after_slash(x: u8) -> Option<Place>
    ensures { result ≡ after_slash x }
{
    match x {
        b'/' => Some(Place::Line),
        b'*' => Some(Place::Block),
        _ => None,
    }
}

/// Returns the place after a character of a comment that the end of the line ends.
pub(crate) fn in_line(x: u8) -> Place
    ensures { result ≡ in_line x }
{
    match x {
        b'\n' | b'\r' => Place::Code,
        _ => Place::Line,
    }
}

/// Returns the place after a character of a comment that `*/` ends.
pub(crate) fn in_block(x: u8) -> Place
    ensures { result ≡ in_block x }
{
    match x {
        b'*' => Place::Star,
        _ => Place::Block,
    }
}

/// Returns the place after a character that follows a `*` in such a comment.
pub(crate) fn after_star(x: u8) -> Place
    ensures { result ≡ after_star x }
{
    match x {
        b'/' => Place::Code,
        _ => in_block(x),
    }
}
