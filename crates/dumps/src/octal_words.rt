//! Words of two octets, as `od` writes them without an option.

ghost use Rattle.std.specs.Prelude.{◌≡◌};
ghost use Rattle.dumps.specs.OctalWords.{is_octal_words, next_digit};

use octet_core::is_blank;

/// The octal digits of two octets.
const DIGITS: u8 = 6;

/// Whether a text is one or more groups of six octal digits between blanks, as `od -An` writes words of two octets.
/// Hexadecimal would read each group as three octets.
pub fn is_octal_words(text: &[u8]) -> bool
    ensures { result ≡ is_octal_words text.now }
{
    let mut digits = 0;
    let mut whole = false;
    let mut rest = text;
    while let [x, after @ ..] = rest {
        match next_digit(digits, whole, *x) {
            Some(next) => (digits, whole) = next,
            None => return false,
        }
        rest = after;
    }
    digits == DIGITS || (digits == 0 && whole)
}

/// Returns how many digits the group has after one more character, and whether a whole group came. `None` if the
/// character isn't allowed.
fn next_digit(digits: u8, whole: bool, x: u8) -> Option<(u8, bool)>
    ensures { result ≡ next_digit digits whole x }
{
    if matches!(x, b'0'..=b'7') && digits < DIGITS {
        return Some((digits + 1, whole));
    }
    if is_blank(x) && (digits == 0 || digits == DIGITS) {
        return Some((0, whole || digits == DIGITS));
    }
    None
}
