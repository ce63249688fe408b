//! The rates that an answer to reset indicates.

ghost use Rattle.std.specs.Prelude.{◌≡◌};
ghost use Rattle.atr_core.specs.Rates.{rates_of};

use crate::Atr;

/// TA1 if the answer has none: Fi 372 and Di 1.
const DEFAULT_TA1: u8 = 0x11;

/// The clock rate conversion integers Fi by their index. A reserved one is `None`.
const CLOCK_RATES: [Option<u16>; 16] = [
    Some(372),
    Some(372),
    Some(558),
    Some(744),
    Some(1116),
    Some(1488),
    Some(1860),
    None,
    None,
    Some(512),
    Some(768),
    Some(1024),
    Some(1536),
    Some(2048),
    None,
    None,
];

/// The baud rate adjustment integers Di by their index. A reserved one is `None`.
const BAUD_RATES: [Option<u16>; 16] = [
    None,
    Some(1),
    Some(2),
    Some(4),
    Some(8),
    Some(16),
    Some(32),
    Some(64),
    Some(12),
    Some(20),
    None,
    None,
    None,
    None,
    None,
    None,
];

/// Returns the integers Fi and Di (ISO/IEC 7816-3, clause 8.3). Their indexes are the high and the
/// low nibble of TA1, which is 11 if the answer has none. An integer with a reserved index is
/// `None`.
pub fn rates(atr: &Atr) -> (Option<u16>, Option<u16>)
    ensures { result ≡ rates_of atr.now }
{
    let ta1 = atr.first().ta.unwrap_or(DEFAULT_TA1);
    (
        CLOCK_RATES[(ta1 / 16) as usize],
        BAUD_RATES[(ta1 % 16) as usize],
    )
}
