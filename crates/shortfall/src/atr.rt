//! Answers to reset (ISO/IEC 7816-3, clause 8.2).

ghost use Rattle.std.specs.Prelude.{◌≡◌, ◌<◌, ◌≤◌, ◌∷◌, length, drop, MatchOption};
ghost use Rattle.shortfall.specs.Atr.{announces_td, atr_least, bytes_of};

/// Returns how many more octets an answer to reset needs at least: the interface bytes that T0 and each TD announce,
/// the historical bytes, and TCK if a protocol other than T=0 was offered.
pub fn atr_least(octets: &[u8]) -> usize
    ensures { result ≡ atr_least octets.now }
{
    let [_, t0, after @ ..] = octets else {
        return 2 - octets.len();
    };
    let historical = usize::from(*t0 % 16);
    let mut announcing = *t0;
    let mut tck = false;
    let mut rest = after;
    while announces_td(announcing) {
        let bytes = bytes_of(announcing);
        let Some((td, after)) = td_after(bytes, rest) else {
            return bytes - rest.len() + 1 + historical + usize::from(tck);
        };
        announcing = td;
        rest = after;
        tck = tck || td % 16 != 0;
    }
    (bytes_of(announcing) + historical + usize::from(tck)).saturating_sub(rest.len())
}

/// Returns the TD after this many octets, and the octets after it.
fn td_after(bytes: usize, octets: &[u8]) -> Option<(u8, &[u8])>
    ensures { MatchOption result (length octets.now ≤ bytes)
        (λ x. (bytes < length octets.now) × (drop bytes octets.now ≡ x.0 ∷ x.1.now)) }
{
    let (td, after) = octets.get(bytes..)?.split_first()?;
    Some((*td, after))
}

/// Returns how many of TA, TB and TC this T0 or TD announces.
fn bytes_of(octet: u8) -> usize
    ensures count { result ≡ bytes_of octet }
    ensures most { result < 4 }
{
    usize::from(octet / 16 % 2 + octet / 32 % 2 + octet / 64 % 2)
}

/// Whether this T0 or TD announces a TD.
fn announces_td(octet: u8) -> bool
    ensures { result ≡ announces_td octet }
{
    octet >= 0x80
}
