//! Texts that are split at an octet: into lines at line feeds, and into words at spaces.

ghost use Rattle.std.specs.Prelude.{◌≡◌, ◌==◌, ◌+◌, ◌<◌, [], ◌∷◌, length, IfSome, MatchOption};
ghost use Rattle.std.specs.List.{after_first, slice_split, position_from};
ghost use Rattle.std.specs.Result.{result_map_both};
ghost use Rattle.exchange_text.specs.Reading.{is_space, no_word, only_word};
ghost use Rattle.exchange_text.specs.Words.{words_after, words_in};

use crate::fault::LineFault;

/// What ends a line.
pub(crate) const LINE_FEED: u8 = b'\n';

/// What separates two words.
const SPACE: u8 = b' ';

/// The first word of the second line.
pub(crate) const ATR: &str = "atr";

/// The word for no octets.
pub(crate) const NONE: &str = "none";

/// The word for a lost block, after its octets.
pub(crate) const LOST: &str = "lost";

/// The word for a changed block, between the octets that were sent and those that arrived.
pub(crate) const AS: &str = "as";

/// Returns the octets before the first `mark` and those after it, or `None` if there is no `mark`.
pub(crate) fn cut_at(octets: &[u8], mark: u8) -> Option<(&[u8], &[u8])>
    ensures parts { MatchOption result
        (slice_split (λ octet. octet == mark) octets.now ≡ octets.now ∷ [])
        (λ p. slice_split (λ octet. octet == mark) octets.now
        ≡ p.0.now ∷ slice_split (λ octet. octet == mark) p.1.now) }
    ensures after { IfSome result (λ p. p.1.now ≡ after_first (λ octet. octet == mark) octets.now) }
    ensures shorter { IfSome result (λ p. length p.0.now + 1 + length p.1.now ≡ length octets.now) }
{
    match place_of(octets, mark) {
        Some(place) => Some((&octets[..place], &octets[place + 1..])),
        None => None,
    }
}

/// Returns the place of the first `mark`.
fn place_of(octets: &[u8], mark: u8) -> Option<usize>
    ensures place { result ≡ position_from (λ octet. octet == mark) 0 octets.now }
    ensures inside { IfSome result (λ place. place < length octets.now) }
{
    octets.iter().position(|&octet| octet == mark)
}

/// Returns the first word of a line, and what follows the space after it, if there is one.
pub(crate) fn first_word(line: &[u8]) -> (&[u8], Option<&[u8]>)
    ensures words { slice_split is_space line.now ≡ result.0.now ∷ words_after (words_in result.1) }
    ensures after { IfSome result.1 (λ rest. rest.now ≡ after_first is_space line.now) }
{
    match cut_at(line, SPACE) {
        Some((word, rest)) => (word, Some(rest)),
        None => (line, None),
    }
}

/// Returns the one word after a space.
pub(crate) fn the_word(rest: Option<&[u8]>) -> Result<&[u8], LineFault>
    ensures { result_map_both (λ word. word.now) (λ fault. fault) result
        ≡ only_word (words_after (words_in rest.entry)) }
{
    let Some(rest) = rest else {
        return Err(LineFault::Word);
    };
    match first_word(rest) {
        (word, None) => Ok(word),
        (_, Some(_)) => Err(LineFault::Word),
    }
}

/// Returns `Ok` if no space and no further word follows.
pub(crate) fn no_word(rest: Option<&[u8]>) -> Result<(), LineFault>
    ensures { result ≡ no_word (words_after (words_in rest.entry)) }
{
    match rest {
        None => Ok(()),
        Some(_) => Err(LineFault::Word),
    }
}
