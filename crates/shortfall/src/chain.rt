//! Chains of I-blocks (ISO/IEC 7816-3, clauses 11.3 and 11.6).

ghost use Rattle.std.specs.Prelude.{◌≡◌, ◌≤◌, ◌<◌, length, IfOk, IfErr};
ghost use Rattle.shortfall.specs.Chain.{chain_from, chain_least, next_least, says_more};

use block_core::block_len;

/// Returns how many more octets a chain needs at least: the rest of an unfinished block, and one block without a field
/// if the block before it says that more follow.
pub fn chain_least(octets: &[u8]) -> usize
    ensures { result ≡ chain_least octets.now }
{
    let mut rest = octets;
    loop {
        match after_block(rest) {
            Ok(after) => rest = after,
            Err(least) => return least,
        }
    }
}

/// Returns the octets after the block at the front, if it is whole and says that more follow. The error is how many
/// more octets are needed at least otherwise.
fn after_block(octets: &[u8]) -> Result<&[u8], usize>
    ensures same { IfOk result (λ rest. chain_least rest.now ≡ chain_least octets.now) }
    ensures shorter { IfOk result (λ rest. length rest.now < length octets.now) }
    ensures least { IfErr result (λ least. least ≡ chain_least octets.now) }
{
    match octets {
        [] => Err(block_len(0)),
        [_] => Err(3),
        [_, pcb] => Err(2 + next_least(*pcb)),
        [_, pcb, len, after @ ..] => after_field(*pcb, usize::from(*len) + 1, after),
    }
}

/// Returns the same for a block of which these octets come after its LEN. `left` of them are the field and the LRC.
fn after_field(pcb: u8, left: usize, octets: &[u8]) -> Result<&[u8], usize>
    requires { left ≤ 256 }
    ensures same { IfOk result
        (λ rest. chain_least rest.now ≡ chain_from left (says_more pcb) octets.now) }
    ensures shorter { IfOk result (λ rest. length rest.now ≤ length octets.now) }
    ensures least { IfErr result (λ least. least ≡ chain_from left (says_more pcb) octets.now) }
{
    if octets.len() < left {
        return Err(left - octets.len() + next_least(pcb));
    }
    if says_more(pcb) {
        Ok(&octets[left..])
    } else {
        Err(0)
    }
}

/// Returns how many octets must come at least after a block with this control octet.
fn next_least(pcb: u8) -> usize
    ensures { result ≡ next_least pcb }
{
    if says_more(pcb) { block_len(0) } else { 0 }
}

/// Whether the control octet of an I-block says that another block of its chain follows.
fn says_more(pcb: u8) -> bool
    ensures { result ≡ says_more pcb }
{
    pcb / 0x20 % 2 == 1
}
