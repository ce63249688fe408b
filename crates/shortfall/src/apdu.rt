//! Commands and responses (ISO/IEC 7816-4, clause 5.1).

ghost use Rattle.std.specs.Prelude.{◌≡◌};
ghost use Rattle.shortfall.specs.Apdu.{body_least, command_least, part_least, response_least};

/// Returns how many more octets a command needs at least.
pub fn command_least(octets: &[u8]) -> usize
    ensures { result ≡ command_least octets.now }
{
    match octets {
        [_, _, _, _, body @ ..] => body_least(body),
        header => 4 - header.len(),
    }
}

/// Returns how many more octets the body of a command needs at least. A body that ends after one octet has a short Le
/// alone; one that ends after three octets, the first of which is 00, has an extended Le alone.
fn body_least(body: &[u8]) -> usize
    ensures { result ≡ body_least body.now }
{
    match body {
        [] | [_] | [0, _, _] => 0,
        [0, _] => 1,
        [0, high, low, rest @ ..] => {
            part_least(u16::from(*high) * 0x100 + u16::from(*low), rest)
        }
        [lc, rest @ ..] => usize::from(*lc).saturating_sub(rest.len()),
    }
}

/// Returns how many more octets are needed at least after an extended Lc of `count` and these octets. If one more came,
/// it is the first of the two of Le.
fn part_least(count: u16, rest: &[u8]) -> usize
    ensures { result ≡ part_least count rest.now }
{
    let count = usize::from(count);
    if rest.len() == count + 1 {
        1
    } else {
        count.saturating_sub(rest.len())
    }
}

/// Returns how many more octets a response needs at least.
pub fn response_least(octets: &[u8]) -> usize
    ensures { result ≡ response_least octets.now }
{
    2_usize.saturating_sub(octets.len())
}
