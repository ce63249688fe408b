//! Notes on answers to reset.

ghost use Rattle.std.specs.Prelude.{◌≡◌};
ghost use Rattle.notes.specs.Says.{mode_says, said, t1_says, ta_says, tck_says, td_says};

use crate::note::Note;
use atr_core::{Indicated, ParamFault, T1Params};

/// Returns the note on a TD, by the protocol that it indicates. T=15 isn't a protocol (ISO/IEC 7816-3, 8.2.3).
pub fn td_note(protocol: u8) -> Note
    ensures { said result.before.now result.number result.after.now ≡ td_says protocol }
{
    match protocol {
        15 => Note::of("global interface bytes"),
        _ => Note::with("offers T=", protocol, ""),
    }
}

/// Returns the note on a TA by its number: for TA2 the mode.
pub fn ta_note(number: usize, ta: u8) -> Note
    ensures { said result.before.now result.number result.after.now ≡ ta_says number ta }
{
    match number {
        2 => mode_note(ta),
        _ => Note::of(""),
    }
}

/// Returns the note on TA2, the mode (ISO/IEC 7816-3, 8.3).
pub fn mode_note(ta2: u8) -> Note
    ensures { said result.before.now result.number result.after.now ≡ mode_says ta2 }
{
    Note::with("specific mode, T=", ta2 % 16, "")
}

/// Returns the note on TCK, if there is one: which exclusive-or is 00.
pub fn tck_note(tck: Option<u8>) -> Note
    ensures { said result.before.now result.number result.after.now ≡ tck_says tck }
{
    match tck {
        Some(_) => Note::of("exclusive-or of T0 to TCK is 00"),
        None => Note::of(""),
    }
}

/// Returns the note on the parameters of T=1: the redundancy code, or that no TD means T=0 alone (ISO/IEC 7816-3,
/// clause 8).
pub fn t1_note(params: Result<T1Params, ParamFault>, indicated: &[Indicated]) -> Note
    ensures { said result.before.now result.number result.after.now
        ≡ t1_says params indicated.now }
{
    match params {
        Ok(_) => Note::of("error detection by LRC"),
        Err(_) if indicated.is_empty() => Note::of("offers only T=0"),
        Err(_) => Note::of(""),
    }
}
