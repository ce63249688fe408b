//! Answers to reset (ISO/IEC 7816-3, clause 8).

ghost use Rattle.std.specs.Prelude.{◌≡◌, ◌≢◌, ◌≤◌, ◌-◌, ◌++◌, length, map, replicate, take, SomeIff};
ghost use Rattle.octet_core.specs.Grammar.{self_ended, Accepts, Refuses};
ghost use Rattle.atr_core.specs.Atr.{AtrParts, IsAtr, IsReason, tck_of};
ghost use Rattle.atr_core.specs.T1.{t1_params_of};
ghost use Rattle.atr_core.specs.Rates.{rates_of};
ghost use Rattle.c_lent.specs.Verdict.{Tells, Puts, ok_at, wrong_argument};
ghost use Rattle.c_lent.specs.Atr.{atr_reason, byte_of, interface_of, indicated_of, convention_of, atr_of, convention_shown, indicated_shown, interface_shown, no_indicated, SaysAtr, IsDecoded, IsT1, IsTold, rates_seen};

use crate::output::put;
use crate::verdict::{ARGUMENT, Numbered, Verdict};
use arrayvec::ArrayVec;
use atr_core::{
    Atr, AtrReason, AtrRoom, Convention, Indicated, Interface, ParamFault, check, encode, rates,
    t1_params,
};

/// The interface bytes TA, TB and TC that T0 or a TD announces. A byte is present if its mark isn't 0.
#[repr(C)]
#[derive(Clone, Copy, Default)]
pub struct CInterface {
    pub has_ta: u8,
    pub ta: u8,
    pub has_tb: u8,
    pub tb: u8,
    pub has_tc: u8,
    pub tc: u8,
}

/// One TD: the protocol that it indicates, and the interface bytes that it announces.
#[repr(C)]
#[derive(Clone, Copy, Default)]
pub struct CIndicated {
    pub protocol: u8,
    pub bytes: CInterface,
}

/// An answer to reset.
#[repr(C)]
#[derive(Clone, Copy)]
pub struct CAtr {
    /// 0 is direct, with TS 3B. Any other value is inverse, with TS 3F.
    pub convention: u8,
    /// TA1, TB1 and TC1.
    pub first: CInterface,
    /// The number of TDs, at most 31.
    pub indicated_count: u8,
    pub indicated: [CIndicated; 31],
    /// The number of historical bytes, at most 15.
    pub historical_count: u8,
    pub historical: [u8; 15],
    /// Whether TCK is present. Decoding sets it. Encoding ignores it, and computes TCK.
    pub has_tck: u8,
    pub tck: u8,
}

/// The parameters of T=1.
#[repr(C)]
#[derive(Clone, Copy)]
pub struct CT1 {
    pub ifsc: u8,
    pub bwi: u8,
    pub cwi: u8,
}

/// The integers Fi and Di. A reserved one is 0.
#[repr(C)]
#[derive(Clone, Copy)]
pub struct CRates {
    pub fi: u16,
    pub di: u16,
}

/// Checks whether octets begin with an answer to reset.
pub fn atr_check(octets: &[u8]) -> Verdict
    ensures ok { result.status ≡ 0 →
        (atr : AtrParts) × Accepts self_ended IsAtr octets.now atr result.place }
    ensures place { result.status ≡ 0 → result ≡ ok_at result.place }
    ensures refused { result.status ≢ 0 →
        Tells atr_reason (Refuses self_ended IsAtr IsReason octets.now) result }
{
    match check(octets) {
        Ok(taken) => Verdict::ok(taken),
        Err(stop) => Verdict::stopped(stop),
    }
}

/// Decodes the answer to reset at the front of the octets.
pub fn atr_decode(octets: &[u8], out: &mut CAtr) -> Verdict
    ensures ok { result.status ≡ 0 → IsDecoded octets.now result out.new }
    ensures shown { result.status ≡ 0 → IsTold (atr_of out.new) out.new }
    ensures place { result.status ≡ 0 → result ≡ ok_at result.place }
    ensures refused { result.status ≢ 0 →
        Tells atr_reason (Refuses self_ended IsAtr IsReason octets.now) result }
    ensures stays { result.status ≢ 0 → out.new ≡ out.old }
{
    let mut room = AtrRoom::new();
    match room.decode(octets) {
        Ok((atr, taken)) => {
            tell(atr, out);
            Verdict::ok(taken)
        }
        Err(stop) => Verdict::stopped(stop),
    }
}

/// Encodes an answer to reset, which has at most 33 octets.
pub fn atr_encode(atr: &CAtr, out: &mut [u8]) -> Verdict
    ensures written { SaysAtr atr.now → Puts (IsAtr (atr_of atr.now)) out.old out.new result }
    ensures unfit { (SaysAtr atr.now → ⊥) → (result ≡ wrong_argument 0) × (out.new ≡ out.old) }
{
    match made(atr) {
        Some(atr) => put(encode(&atr).as_slice(), out),
        None => Verdict::argument(),
    }
}

/// Reads the parameters of T=1. Returns 0 if the answer offers usable ones, 1 if it doesn't offer T=1, 2 if IFSC is
/// reserved, and 3 if the answer requires the CRC. Returns `ARGUMENT` if the struct isn't an answer to reset.
pub fn atr_t1_params(atr: &CAtr, out: &mut CT1) -> u8
    ensures params { SaysAtr atr.now → IsT1 (t1_params_of (atr_of atr.now)) out.old out.new result }
    ensures unfit { (SaysAtr atr.now → ⊥) → (result ≡ 4) × (out.new ≡ out.old) }
{
    let Some(atr) = made(atr) else {
        return ARGUMENT;
    };
    match t1_params(&atr) {
        Ok(params) => {
            *out = CT1 {
                ifsc: params.ifsc(),
                bwi: params.bwi(),
                cwi: params.cwi(),
            };
            0
        }
        Err(ParamFault::NoT1) => 1,
        Err(ParamFault::ReservedIfsc) => 2,
        Err(ParamFault::Crc) => 3,
    }
}

/// Reads the integers Fi and Di that TA1 gives.
pub fn atr_rates(atr: &CAtr, out: &mut CRates) -> u8
    ensures rates { SaysAtr atr.now →
        (result ≡ 0) × (out.new ≡ rates_seen (rates_of (atr_of atr.now))) }
    ensures unfit { (SaysAtr atr.now → ⊥) → (result ≡ 4) × (out.new ≡ out.old) }
{
    let Some(atr) = made(atr) else {
        return ARGUMENT;
    };
    let (fi, di) = rates(&atr);
    *out = CRates {
        fi: fi.unwrap_or(0),
        di: di.unwrap_or(0),
    };
    0
}

/// Returns the answer to reset that a struct describes, if it describes one.
fn made(atr: &CAtr) -> Option<Atr>
    ensures { SomeIff result (SaysAtr atr.now) (atr_of atr.now) }
{
    let indicated = atr.indicated.get(..atr.indicated_count as usize)?;
    let historical = atr.historical.get(..atr.historical_count as usize)?;
    Atr::new(
        convention(atr.convention),
        interface(atr.first),
        listed(indicated),
        octets(historical),
    )
}

fn convention(number: u8) -> Convention
    ensures { result ≡ convention_of number }
{
    if number == 0 {
        Convention::Direct
    } else {
        Convention::Inverse
    }
}

fn interface(c: CInterface) -> Interface
    ensures { result ≡ interface_of c }
{
    Interface {
        ta: byte(c.has_ta, c.ta),
        tb: byte(c.has_tb, c.tb),
        tc: byte(c.has_tc, c.tc),
    }
}

fn byte(mark: u8, byte: u8) -> Option<u8>
    ensures { result ≡ byte_of mark byte }
{
    if mark == 0 { None } else { Some(byte) }
}

fn octets(given: &[u8]) -> ArrayVec<u8, 15>
    requires { length given.now ≤ 15 }
    ensures { result.items ≡ given.now }
{
    let mut octets = ArrayVec::new();
    octets.try_extend_from_slice(given).unwrap();
    octets
}

fn listed(given: &[CIndicated]) -> ArrayVec<Indicated, 31>
    requires { length given.now ≤ 31 }
    ensures { result.items ≡ map indicated_of given.now }
{
    let mut listed = ArrayVec::new();
    for c in given {
        listed.push(Indicated {
            protocol: c.protocol,
            bytes: interface(c.bytes),
        });
    }
    listed
}

/// Writes an answer to reset to a struct of C. This is a separate function so that its locals are on the stack only
/// while it runs.
#[inline(never)]
pub fn tell(atr: &Atr, out: &mut CAtr)
    ensures atr { atr_of out.new ≡ atr.now }
    ensures shown { IsTold atr.now out.new }
    ensures tck { byte_of out.new.has_tck out.new.tck ≡ tck_of atr.now }
    ensures indicated { out.new.indicated_count ≤ 31 }
    ensures historical { out.new.historical_count ≤ 15 }
{
    let indicated = atr.indicated();
    let octets = atr.historical();
    let tck = atr.tck();
    out.convention = convention_seen(atr.convention());
    out.first = interface_seen(atr.first());
    out.indicated_count = indicated.len() as u8;
    tell_indicated(indicated, &mut out.indicated);
    out.historical_count = octets.len() as u8;
    tell_historical(octets, &mut out.historical);
    out.has_tck = u8::from(tck.is_some());
    out.tck = tck.unwrap_or(0);
}

/// Writes the TDs to an array: unused entries come after them.
fn tell_indicated(indicated: &[Indicated], out: &mut [CIndicated; 31])
    requires { length indicated.now ≤ 31 }
    ensures said { map indicated_of (take (length indicated.now) out.new) ≡ indicated.now }
    ensures shown { out.new ≡ map indicated_shown indicated.now
        ++ replicate (31 - length indicated.now) no_indicated }
{
    *out = [indicated_seen(Indicated::default()); 31];
    for (place, x) in indicated.iter().enumerate() {
        out[place] = indicated_seen(*x);
    }
}

fn indicated_seen(x: Indicated) -> CIndicated
    ensures said { indicated_of result ≡ x }
    ensures shown { result ≡ indicated_shown x }
{
    CIndicated {
        protocol: x.protocol,
        bytes: interface_seen(x.bytes),
    }
}

/// Writes the historical bytes to an array: zeros come after them.
fn tell_historical(octets: &[u8], out: &mut [u8; 15])
    requires { length octets.now ≤ 15 }
    ensures front { take (length octets.now) out.new ≡ octets.now }
    ensures all { out.new ≡ octets.now ++ replicate (15 - length octets.now) 0 }
{
    *out = [0; 15];
    out[..octets.len()].copy_from_slice(octets);
}

fn convention_seen(convention: Convention) -> u8
    ensures said { convention_of result ≡ convention }
    ensures shown { result ≡ convention_shown convention }
{
    match convention {
        Convention::Direct => 0,
        Convention::Inverse => 1,
    }
}

fn interface_seen(bytes: Interface) -> CInterface
    ensures said { interface_of result ≡ bytes }
    ensures shown { result ≡ interface_shown bytes }
{
    CInterface {
        has_ta: u8::from(bytes.ta.is_some()),
        ta: bytes.ta.unwrap_or(0),
        has_tb: u8::from(bytes.tb.is_some()),
        tb: bytes.tb.unwrap_or(0),
        has_tc: u8::from(bytes.tc.is_some()),
        tc: bytes.tc.unwrap_or(0),
    }
}

impl Numbered for AtrReason {
    ghost number = { atr_reason };

    fn number(self) -> u8 {
        match self {
            AtrReason::BadTs => 1,
            AtrReason::TooLong => 2,
            AtrReason::BadTck => 3,
        }
    }
}
