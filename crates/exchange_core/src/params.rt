//! The parameters of T=1 in the octets of an answer to reset.

ghost use Rattle.std.specs.Prelude.{Ok, Err, IfOk, IfErr};
ghost use Rattle.exchange_core.specs.Faults.{atr_fault_name};
ghost use Rattle.exchange_core.specs.Replay.{IsFound};

use atr_core::{ParamFault, T1Params, decode, t1_params};
use octet_core::Named;
use std::error::Error;
use std::fmt::{self, Display, Formatter, Write};

/// Why octets can't be used as an answer to reset.
#[derive(Clone, Copy, Debug, PartialEq, Eq)]
pub enum AtrFault {
    /// They aren't one whole answer to reset.
    BadAtr,
    /// The answer has no parameters of T=1 that can be used.
    Params(ParamFault),
}

/// `BadAtr`, or the name of the fault of the parameters.
impl Named for AtrFault {
    ghost use Rattle.exchange_core.specs.Faults.{atr_fault_name};

    ghost text = { atr_fault_name };

    fn name(self) -> &'static str {
        match self {
            AtrFault::BadAtr => "BadAtr",
            AtrFault::Params(fault) => fault.name(),
        }
    }
}

/// The fault's name.
impl Display for AtrFault {
    ghost use Rattle.std.specs.Prelude.{Some};
    ghost use Rattle.exchange_core.specs.Faults.{atr_fault_name};

    ghost output = { λ fault. Some (atr_fault_name fault) };

    fn fmt<W: Write>(&self, f: &mut Formatter<W>) -> fmt::Result {
        f.write_str(self.name())
    }
}

impl Error for AtrFault {}

/// Returns the parameters of T=1 from octets that are one whole answer to reset.
///
/// Else it returns the fault. Replay and a recorder use its name: `BadAtr`, `NoT1`, `ReservedIfsc` or `Crc`.
pub fn params_of(octets: &[u8]) -> Result<T1Params, AtrFault>
    ensures found { IfOk result (λ params. IsFound octets.now (Ok params.ifsc)) }
    ensures refused { IfErr result (λ fault. IsFound octets.now (Err (atr_fault_name fault))) }
{
    match decode(octets) {
        Ok((atr, taken)) if taken == octets.len() => {
            t1_params(&atr).map_err(|fault| AtrFault::Params(fault))
        }
        _ => Err(AtrFault::BadAtr),
    }
}
