//! The meaning of the status bytes of a response.

ghost use Rattle.apdu_core.specs.Status.{IsOfClass};

/// The class of the status bytes of a response (ISO/IEC 7816-4, clause 5.1; ISO/IEC 7816-3, clause
/// 12).
#[derive(Clone, Copy, Debug, PartialEq, Eq)]
pub enum StatusClass {
    /// 9000, or 61XX: the command was executed. After 61XX, octets are still available.
    Normal,
    /// 62XX and 63XX: the command was executed, with a warning.
    Warning,
    /// 64XX to 66XX: the command was aborted during its execution.
    Execution,
    /// 67XX to 6FXX: the command was refused before its execution.
    Checking,
    /// 90XX other than 9000, and 91XX to 9FXX: their meaning is left to the card.
    Proprietary,
    /// All others, which no card may send.
    Invalid,
}

/// Returns the class of two status bytes.
pub fn status_class(sw1: u8, sw2: u8) -> StatusClass
    ensures { IsOfClass result sw1 sw2 }
{
    match (sw1, sw2) {
        (0x90, 0x00) | (0x61, _) => StatusClass::Normal,
        (0x62..=0x63, _) => StatusClass::Warning,
        (0x64..=0x66, _) => StatusClass::Execution,
        (0x67..=0x6F, _) => StatusClass::Checking,
        (0x90..=0x9F, _) => StatusClass::Proprietary,
        _ => StatusClass::Invalid,
    }
}
