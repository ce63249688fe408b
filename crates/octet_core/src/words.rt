//! The words of a text, separated by blanks.

ghost use Rattle.std.specs.Prelude.{◌≡◌, ◌<◌, ◌≤◌, length, IfSome};
ghost use Rattle.std.specs.List.{position_from, position_or_len};
ghost use Rattle.octet_core.specs.Words.{after_blanks, at_blank, first_word, is_blank};

/// Whether an octet of a text is a blank: a space, a tab, or the end of a line, LF or CR.
pub fn is_blank(octet: u8) -> bool
    ensures { result ≡ is_blank octet }
{
    matches!(octet, b' ' | b'\t' | b'\n' | b'\r')
}

/// Returns the text from its first octet that isn't a blank. The result is empty if there is none.
pub fn after_blanks(text: &[u8]) -> &[u8]
    ensures { result.now ≡ after_blanks text.now }
{
    let mut rest = text;
    while let [octet, after @ ..] = rest {
        if !is_blank(*octet) {
            break;
        }
        rest = after;
    }
    rest
}

/// Returns the first word of a text, and the rest after it. A word is octets that aren't blanks, up to the next blank
/// or the end. It is empty if the text has none.
pub fn first_word(text: &[u8]) -> (&[u8], &[u8])
    ensures { (result.0.now, result.1.now) ≡ first_word text.now }
{
    at_blank(after_blanks(text))
}

/// Returns what comes before the next blank of a text, and the rest from there on.
fn at_blank(text: &[u8]) -> (&[u8], &[u8])
    ensures { (result.0.now, result.1.now) ≡ at_blank text.now }
{
    text.split_at(word_len(text))
}

/// Returns how many octets of a text come before its next blank.
fn word_len(text: &[u8]) -> usize
    ensures place { result ≡ position_or_len is_blank text.now }
    ensures inside { result ≤ length text.now }
{
    blank_place(text).unwrap_or(text.len())
}

/// Returns the place of the first blank.
fn blank_place(text: &[u8]) -> Option<usize>
    ensures place { result ≡ position_from is_blank 0 text.now }
    ensures inside { IfSome result (λ place. place < length text.now) }
{
    text.iter().position(|octet| is_blank(*octet))
}
