//! Encoding of answers to reset.

ghost use Rattle.std.specs.Prelude.{◌≡◌, ◌+◌, ◌<◌, ◌≤◌, ◌++◌, bit_xor, fold, length};
ghost use Rattle.std.specs.Option.{option_to_list};
ghost use Rattle.std.specs.List.{AllByRecursion};
ghost use Rattle.arrayvec.specs.ArrayVec.{array_vec_len};
ghost use Rattle.octet_core.specs.Octets.{AreOctets, xor_of};
ghost use Rattle.atr_core.specs.Atr.{IsAtr, IsProper, announcing, bit_of, checked_octets, octets_of, tck_of, td_octets, ts_of};

use crate::atr::has_tck;
use crate::{Atr, Convention, Indicated, Interface};
use arrayvec::ArrayVec;

/// Encodes the answer, from TS to TCK (ISO/IEC 7816-3, clause 8.2).
pub fn encode(atr: &Atr) -> ArrayVec<u8, 33>
    ensures { IsAtr atr.now result.items }
{
    let mut octets = ArrayVec::new();
    octets.push(ts(atr.convention()));
    push_all(&mut octets, checked_octets(atr).as_slice());
    if let Some(tck) = atr.tck() {
        octets.push(tck);
    }
    octets
}

impl Atr {
    /// Returns TCK, which makes the exclusive-or of all octets from T0 on 00. It is `None` if only T=0
    /// is indicated, or no protocol is.
    pub fn tck(&self) -> Option<u8>
        ensures { result ≡ tck_of self.now }
    {
        has_tck(self.indicated()).then(|| checked_sum(self))
    }
}

impl Indicated {
    /// Returns the octet of the TD (ISO/IEC 7816-3, clause 8.2). Its high nibble announces the bytes
    /// that follow it, including another TD if `more` is true. Its low nibble is the protocol, at most
    /// 15.
    pub fn octet(self, more: bool) -> u8
        requires { self.protocol < 16 }
        ensures { result ≡ announcing self.bytes more self.protocol }
    {
        announcing(self.bytes, more, self.protocol)
    }
}

/// Returns TS for a convention.
fn ts(convention: Convention) -> u8
    ensures { result ≡ ts_of convention }
{
    match convention {
        Convention::Direct => 0x3B,
        Convention::Inverse => 0x3F,
    }
}

/// Returns the octets that TCK checks: from T0 to the last historical byte. This is a separate function so that its
/// list is on the stack only while it runs.
#[inline(never)]
fn checked_octets(atr: &Atr) -> ArrayVec<u8, 32>
    ensures value { result.items ≡ checked_octets atr.now }
    ensures proper { IsProper atr.now }
{
    let historical = atr.historical();
    let mut octets = ArrayVec::new();
    octets.push(announcing(
        atr.first(),
        !atr.indicated().is_empty(),
        historical.len() as u8,
    ));
    push_bytes(&mut octets, atr.first());
    push_indicated(&mut octets, atr.indicated());
    push_all(&mut octets, historical);
    octets
}

/// Returns the exclusive-or of the octets that TCK checks. No octets are put together for it.
fn checked_sum(atr: &Atr) -> u8
    ensures { result ≡ xor_of (checked_octets atr.now) }
{
    let historical = atr.historical();
    let t0 = announcing(
        atr.first(),
        !atr.indicated().is_empty(),
        historical.len() as u8,
    );
    let sum = with_indicated(with_bytes(t0, atr.first()), atr.indicated());
    with_octets(sum, historical)
}

/// Returns the exclusive-or of `sum` and octets.
fn with_octets(sum: u8, octets: &[u8]) -> u8
    ensures { result ≡ fold bit_xor sum octets.now }
{
    octets.iter().fold(sum, |sum, octet| sum ^ *octet)
}

/// Returns the exclusive-or of `sum`, each TD and the interface bytes that it announces.
fn with_indicated(sum: u8, indicated: &[Indicated]) -> u8
    requires { AllByRecursion (λ x. x.protocol < 16) indicated.now }
    ensures { result ≡ fold bit_xor sum (td_octets indicated.now) }
{
    let mut sum = sum;
    let mut rest = indicated;
    while let [x, after @ ..] = rest {
        sum = with_bytes(sum ^ x.octet(!after.is_empty()), x.bytes);
        rest = after;
    }
    sum
}

/// Returns the exclusive-or of `sum` and the interface bytes that are present.
fn with_bytes(sum: u8, bytes: Interface) -> u8
    ensures { result ≡ fold bit_xor sum (octets_of bytes) }
{
    with_byte(with_byte(with_byte(sum, bytes.ta), bytes.tb), bytes.tc)
}

/// Returns the exclusive-or of `sum` and an interface byte, if it is present.
fn with_byte(sum: u8, byte: Option<u8>) -> u8
    ensures { result ≡ fold bit_xor sum (option_to_list byte) }
{
    match byte {
        Some(byte) => sum ^ byte,
        None => sum,
    }
}

/// Appends each TD and the interface bytes that it announces.
fn push_indicated(octets: &mut ArrayVec<u8, 32>, indicated: &[Indicated])
    requires room { array_vec_len octets.old + length (td_octets indicated.now) ≤ 32 }
    requires protocols { AllByRecursion (λ x. x.protocol < 16) indicated.now }
    ensures { octets.new.items ≡ octets.old.items ++ td_octets indicated.now }
{
    let mut rest = indicated;
    while let [x, after @ ..] = rest {
        octets.push(x.octet(!after.is_empty()));
        push_bytes(octets, x.bytes);
        rest = after;
    }
}

/// Returns T0 or a TD: the bits of the bytes that follow, and the low nibble.
fn announcing(bytes: Interface, td: bool, low: u8) -> u8
    requires { low < 16 }
    ensures { result ≡ announcing bytes td low }
{
    bit(bytes.ta, 0x10)
        + bit(bytes.tb, 0x20)
        + bit(bytes.tc, 0x40)
        + if td { 0x80 } else { 0 }
        + low
}

/// Returns the bit that announces an interface byte, 0 if the byte is absent.
fn bit(byte: Option<u8>, weight: u8) -> u8
    ensures value { result ≡ bit_of byte weight }
    ensures most { result ≤ weight }
{
    if byte.is_some() { weight } else { 0 }
}

/// Appends the interface bytes that are present.
fn push_bytes(octets: &mut ArrayVec<u8, 32>, bytes: Interface)
    requires { array_vec_len octets.old + length (octets_of bytes) ≤ 32 }
    ensures { octets.new.items ≡ octets.old.items ++ octets_of bytes }
{
    push_byte(octets, bytes.ta);
    push_byte(octets, bytes.tb);
    push_byte(octets, bytes.tc);
}

/// Appends an interface byte, if it is present.
fn push_byte(octets: &mut ArrayVec<u8, 32>, byte: Option<u8>)
    requires { array_vec_len octets.old + length (option_to_list byte) ≤ 32 }
    ensures { octets.new.items ≡ octets.old.items ++ option_to_list byte }
{
    if let Some(byte) = byte {
        octets.push(byte);
    }
}

/// Appends octets.
pub(crate) fn push_all<const N: usize>(octets: &mut ArrayVec<u8, N>, more: &[u8])
    requires { array_vec_len octets.old + length more.now ≤ N }
    ensures value { octets.new.items ≡ octets.old.items ++ more.now }
    ensures octets { AreOctets more.now }
{
    if let [octet] = more {
        octets.push(*octet);
        return;
    }
    octets.try_extend_from_slice(more).unwrap();
}
