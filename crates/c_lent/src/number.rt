//! The values of enums by their numbers in C.

ghost use Rattle.std.specs.Prelude.{◌≡◌};
ghost use Rattle.block_core.specs.Block.{number_bit, fault_code, supervisory_code};
ghost use Rattle.c_lent.specs.KeptJudge.{number_in, fault_in, subject_in};
ghost use Rattle.c_lent.specs.Number.{number_of, fault_of, subject_of};

use block_core::{Fault, Number, S};

/// Returns the number of an I-block: 0 or 1.
pub fn number_of(number: u8) -> Option<Number>
    ensures { result ≡ number_of number }
{
    match number {
        0 => Some(Number::Zero),
        1 => Some(Number::One),
        _ => None,
    }
}

/// Returns what an R-block says: 0 no fault, 1 a fault of the redundancy check, 2 another fault.
pub fn fault_of(fault: u8) -> Option<Fault>
    ensures { result ≡ fault_of fault }
{
    match fault {
        0 => Some(Fault::Free),
        1 => Some(Fault::Redundancy),
        2 => Some(Fault::Other),
        _ => None,
    }
}

/// Returns the subject of an S-block: 0 RESYNCH, 1 IFS, 2 ABORT, 3 WTX.
pub fn subject_of(about: u8) -> Option<S>
    ensures { result ≡ subject_of about }
{
    match about {
        0 => Some(S::Resynch),
        1 => Some(S::Ifs),
        2 => Some(S::Abort),
        3 => Some(S::Wtx),
        _ => None,
    }
}

/// Returns the number of a block in C.
pub(crate) fn number(number: Number) -> u8
    ensures shown { result ≡ number_bit number 1 }
    ensures kept { number_in result ≡ number }
{
    match number {
        Number::Zero => 0,
        Number::One => 1,
    }
}

/// Returns the number of a fault in C.
pub(crate) fn fault(fault: Fault) -> u8
    ensures shown { result ≡ fault_code fault }
    ensures kept { fault_in result ≡ fault }
{
    match fault {
        Fault::Free => 0,
        Fault::Redundancy => 1,
        Fault::Other => 2,
    }
}

/// Returns the number of an S-block's subject in C.
pub(crate) fn subject(about: S) -> u8
    ensures shown { result ≡ supervisory_code about }
    ensures kept { subject_in result ≡ about }
{
    match about {
        S::Resynch => 0,
        S::Ifs => 1,
        S::Abort => 2,
        S::Wtx => 3,
    }
}
