//! What an answer to reset says about T=1.

ghost use Rattle.std.specs.Prelude.{◌≡◌, ◌≤◌, ◌<◌, SomeIff};
ghost use Rattle.atr_core.specs.T1.{T1Values, IsUsable, t1_params_of, first_after_t1, offers_t1};
ghost use Rattle.atr_core.specs.Waiting.{block_cycles, block_waiting, character_waiting};

use crate::{Atr, Indicated, Interface};
use octet_core::{Named, is_reserved};
use std::error::Error;
use std::fmt::{self, Display, Formatter, Write};
use std::marker::Model;

/// IFSC if there is no TA for T=1.
const DEFAULT_IFSC: u8 = 32;

/// BWI 4 and CWI 13, if there is no TB for T=1.
const DEFAULT_WAITING: u8 = 0x4D;

/// The choice of the LRC, if there is no TC for T=1.
const DEFAULT_CODE: u8 = 0;

/// The parameters of T=1 (ISO/IEC 7816-3, clause 11.4).
#[derive(Clone, Copy, Debug, PartialEq, Eq)]
pub struct T1Params {
    ifsc: u8,
    bwi: u8,
    cwi: u8,
}

impl Model for T1Params {
    ghost use Rattle.atr_core.specs.T1.{T1Values, IsUsable};

    ghost Value = { T1Values };

    ghost view = { λ p. record { ifsc = p.ifsc; bwi = p.bwi; cwi = p.cwi } };

    ghost invariant = { λ p. IsUsable (record { ifsc = p.ifsc; bwi = p.bwi; cwi = p.cwi }) };

    ghost inverse = { λ v. record { ifsc = v.ifsc; bwi = v.bwi; cwi = v.cwi } };
}

impl T1Params {
    /// Makes parameters with these values. The result is `None` if `ifsc` is 0 or 255, or an index is
    /// greater than 15.
    pub fn new(ifsc: u8, bwi: u8, cwi: u8) -> Option<T1Params>
        ensures { let values : T1Values = record { ifsc = ifsc; bwi = bwi; cwi = cwi } in
            SomeIff result (IsUsable values) values }
    {
        if is_reserved(ifsc) || bwi > 15 || cwi > 15 {
            return None;
        }
        Some(T1Params { ifsc, bwi, cwi })
    }

    /// Returns the greatest number of octets of an information field that the card takes, 1 to 254.
    pub fn ifsc(&self) -> u8
        ensures value { result ≡ self.now.ifsc }
        ensures least { 1 ≤ result }
        ensures most { result ≤ 254 }
    {
        self.ifsc
    }

    /// Returns the index of the block waiting time, at most 15.
    pub fn bwi(&self) -> u8
        ensures value { result ≡ self.now.bwi }
        ensures most { result ≤ 15 }
    {
        self.bwi
    }

    /// Returns the index of the character waiting time, at most 15.
    pub fn cwi(&self) -> u8
        ensures value { result ≡ self.now.cwi }
        ensures most { result ≤ 15 }
    {
        self.cwi
    }

    /// Returns the character waiting time CWT in elementary time units: 11 + 2^CWI, so 12 to 32,779.
    ///
    /// This is the longest time between the leading edges of two consecutive characters of a block
    /// (ISO/IEC 7816-3, clause 11.4).
    pub fn cwt_etu(&self) -> u32
        ensures value { result ≡ character_waiting self.now }
        ensures most { result ≤ 32779 }
    {
        11 + (1 << self.cwi)
    }

    /// Returns the block waiting time BWT without its 11 elementary time units, in cycles of the card's
    /// clock: 2^BWI x 960 x 372.
    ///
    /// BWT is the longest time between two leading edges: that of the last character of a block that the
    /// card received, and that of the first character of its answer (ISO/IEC 7816-3, clause 11.4).
    pub fn bwt_cycles(&self) -> u64
        ensures value { result ≡ block_cycles self.now }
        ensures most { result ≤ 11702108160 }
    {
        (1 << self.bwi) * 357_120
    }

    /// Returns the block waiting time BWT in units of 1/`fi` of an elementary time unit: 11 x `fi` +
    /// 2^BWI x 960 x 372 x `di`.
    ///
    /// `fi` and `di` are the integers Fi and Di that are in use: 372 and 1 until others are negotiated.
    /// [`rates`](crate::rates) returns those that the card offers. No fraction is lost: divide by `fi`
    /// for elementary time units, or by `di` and the clock's frequency for seconds, and round up.
    pub fn bwt(&self, fi: u16, di: u16) -> u64
        ensures { result ≡ block_waiting self.now fi di }
    {
        11 * fi as u64 + self.bwt_cycles() * di as u64
    }
}

/// Why an answer to reset has no parameters of T=1.
#[derive(Clone, Copy, Debug, PartialEq, Eq)]
pub enum ParamFault {
    /// No TD indicates T=1.
    NoT1,
    /// IFSC is 00 or FF, which are reserved.
    ReservedIfsc,
    /// The CRC is chosen as the redundancy code. This stack doesn't support it.
    Crc,
}

impl Named for ParamFault {
    ghost use Rattle.atr_core.specs.Names.{param_fault_name};

    ghost text = { param_fault_name };

    fn name(self) -> &'static str {
        match self {
            ParamFault::NoT1 => "NoT1",
            ParamFault::ReservedIfsc => "ReservedIfsc",
            ParamFault::Crc => "Crc",
        }
    }
}

/// Writes the fault's name.
impl Display for ParamFault {
    ghost use Rattle.std.specs.Prelude.{Some};
    ghost use Rattle.atr_core.specs.Names.{param_fault_name};

    ghost output = { λ fault. Some (param_fault_name fault) };

    fn fmt<W: Write>(&self, f: &mut Formatter<W>) -> fmt::Result {
        f.write_str(self.name())
    }
}

impl Error for ParamFault {}

/// Returns the parameters of T=1 in the answer. They are in the first TA, the first TB and the first TC
/// for T=1, which may be after different TDs, the second or a later one. Their defaults are 20, 4D and 00
/// (ISO/IEC 7816-3, clause 11.4).
///
/// The error is the first fault that holds, in the order of [`ParamFault`].
pub fn t1_params(atr: &Atr) -> Result<T1Params, ParamFault>
    ensures { result ≡ t1_params_of atr.now }
{
    let indicated = atr.indicated();
    if !offers_t1(indicated) {
        return Err(ParamFault::NoT1);
    }
    let first = match indicated {
        [_, specific @ ..] => first_after_t1(specific),
        [] => Interface::default(),
    };
    let waiting = first.tb.unwrap_or(DEFAULT_WAITING);
    let Some(params) = T1Params::new(first.ta.unwrap_or(DEFAULT_IFSC), waiting / 16, waiting % 16)
    else {
        return Err(ParamFault::ReservedIfsc);
    };
    if first.tc.unwrap_or(DEFAULT_CODE) % 2 == 1 {
        return Err(ParamFault::Crc);
    }
    Ok(params)
}

/// Whether some TD indicates T=1.
fn offers_t1(indicated: &[Indicated]) -> bool
    ensures { result ≡ offers_t1 indicated.now }
{
    indicated.iter().any(|x| x.protocol == 1)
}

/// Returns the first TA, the first TB and the first TC after TDs that indicate T=1, which may be
/// different TDs.
fn first_after_t1(indicated: &[Indicated]) -> Interface
    ensures ta { result.ta ≡ first_after_t1 (λ bytes. bytes.ta) indicated.now }
    ensures tb { result.tb ≡ first_after_t1 (λ bytes. bytes.tb) indicated.now }
    ensures tc { result.tc ≡ first_after_t1 (λ bytes. bytes.tc) indicated.now }
{
    let mut found = Interface::default();
    for x in indicated {
        if x.protocol == 1 {
            found = found.or(x.bytes);
        }
    }
    found
}
