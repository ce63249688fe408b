//! Decoding of answers to reset.

ghost use Rattle.std.specs.Prelude.{IfOk, IfErr};
ghost use Rattle.octet_core.specs.Grammar.{Accepts, Refuses, self_ended};
ghost use Rattle.atr_core.specs.Atr.{AtrParts, IsAtr, IsReason};

use crate::length::whole_len;
use crate::partial::Partial;
use crate::{Atr, AtrReason};
use octet_core::Stop;

/// Decodes the answer to reset at the front of the octets (ISO/IEC 7816-3, clause 8.2). Returns the answer,
/// and how many octets it takes. What follows it isn't read.
///
/// The error is `At` the first octet after which no answer can continue, with the reason. It is `Short` at
/// the end of the octets if an answer could continue there.
pub fn decode(octets: &[u8]) -> Result<(Atr, usize), Stop<AtrReason>>
    ensures found { IfOk result (λ found. Accepts self_ended IsAtr octets.now found.0 found.1) }
    ensures refused { IfErr result (λ stop. Refuses self_ended IsAtr IsReason octets.now stop) }
{
    let mut atr = Atr::bare();
    match atr.read(octets) {
        Some(count) => Ok((atr, count)),
        None => by_octets(octets),
    }
}

/// Memory for one answer to reset. An answer that is decoded in it stays in it, and the caller gets a reference.
/// So a caller's stack has one answer, and no copies of it.
#[derive(Drop)]
pub struct AtrRoom {
    partial: Partial,
}

impl AtrRoom {
    /// Makes memory with no answer in it.
    pub fn new() -> Self {
        AtrRoom {
            partial: Partial::new(),
        }
    }

    /// Decodes the answer to reset at the front of the octets in this memory. The verdict is that of [`decode`].
    pub fn decode(&mut self, octets: &[u8]) -> Result<(&Atr, usize), Stop<AtrReason>>
        ensures found { IfOk result
            (λ found. Accepts self_ended IsAtr octets.now found.0.now found.1) }
        ensures refused { IfErr result (λ stop. Refuses self_ended IsAtr IsReason octets.now stop) }
    {
        self.partial.restart();
        let count = match self.partial.take_piece(0, octets) {
            Ok(count) => count,
            Err(refusal) => return Err(refusal.stop()),
        };
        match self.partial.answer() {
            Some(atr) => Ok((atr, count)),
            None => Err(Stop::Short { place: count }),
        }
    }
}

/// Returns how many octets the answer to reset at the front of the octets takes. The verdict is that of
/// [`decode`], without the answer.
#[inline(always)]
pub fn check(octets: &[u8]) -> Result<usize, Stop<AtrReason>>
    ensures found { IfOk result (λ count. (atr : AtrParts)
        × Accepts self_ended IsAtr octets.now atr count) }
    ensures refused { IfErr result (λ stop. Refuses self_ended IsAtr IsReason octets.now stop) }
{
    match whole_len(octets) {
        Some(count) => Ok(count),
        None => len_by_octets(octets),
    }
}

/// Returns the verdict of [`check`], octet by octet. This is a separate function so that `check` has no local
/// answer, which each call would clear.
#[inline(never)]
fn len_by_octets(octets: &[u8]) -> Result<usize, Stop<AtrReason>>
    ensures found { IfOk result (λ count. (atr : AtrParts)
        × Accepts self_ended IsAtr octets.now atr count) }
    ensures refused { IfErr result (λ stop. Refuses self_ended IsAtr IsReason octets.now stop) }
{
    let mut partial = Partial::new();
    let count = match partial.take_octets(0, octets) {
        Ok(count) => count,
        Err(refusal) => return Err(refusal.stop()),
    };
    if partial.is_whole() {
        Ok(count)
    } else {
        Err(Stop::Short { place: count })
    }
}

/// Returns the verdict of [`decode`], octet by octet, with the place and the reason of a refusal.
#[inline(never)]
fn by_octets(octets: &[u8]) -> Result<(Atr, usize), Stop<AtrReason>>
    ensures found { IfOk result (λ found. Accepts self_ended IsAtr octets.now found.0 found.1) }
    ensures refused { IfErr result (λ stop. Refuses self_ended IsAtr IsReason octets.now stop) }
{
    let mut partial = Partial::new();
    let count = match partial.take_octets(0, octets) {
        Ok(count) => count,
        Err(refusal) => return Err(refusal.stop()),
    };
    match partial.into_answer() {
        Some(atr) => Ok((atr, count)),
        None => Err(Stop::Short { place: count }),
    }
}
