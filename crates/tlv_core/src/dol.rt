//! Data object lists.

ghost use Rattle.std.specs.Prelude.{◌≡◌, ◌<◌, ◌++◌, ◌∷◌, [], length, IfOk, IfErr, OnOk};
ghost use Rattle.octet_core.specs.Grammar.{Accepts, RefusesUnlessMemory, whole};
ghost use Rattle.tlv_core.specs.Tag.{IsTag};
ghost use Rattle.tlv_core.specs.Dol.{IsDol, IsDolReason};

use crate::entry_walk::EntryWalk;
use crate::reason::DolReason;
use crate::tag::Tag;
use octet_core::Refused;
use std::alloc::{AllocError, Global};
use std::marker::Model;

/// A data object list: tags, each with the length that its value is to have (EMV 4.3 Book 3, clause 5.4).
#[derive(Debug, Drop)]
pub struct Dol {
    entries: Vec<(Tag, u8)>,
}

impl Model for Dol {
    ghost use Rattle.std.specs.Prelude.{ℕ, List};

    ghost Value = { List (List ℕ × ℕ) };

    ghost view = { λ dol. dol.entries.items };
}

impl Dol {
    /// Makes a list from its entries.
    pub fn of(entries: Vec<(Tag, u8)>) -> Self
        ensures { result ≡ entries.items }
    {
        Self { entries }
    }

    /// Borrows the entries. Each is a tag and a length in octets.
    pub fn entries(&self) -> &[(Tag, u8)]
        ensures { result.now ≡ self.now }
    {
        self.entries.as_slice()
    }

    /// Decodes all the octets as one list. The error is `Short` at their end if a list could continue
    /// there, `At` the first octet after which none can, or `Memory` if an allocation fails.
    pub fn decode(alloc: Global, octets: &[u8]) -> Result<Self, Refused<DolReason>>
        ensures found { IfOk result
            (λ dol. Accepts whole IsDol octets.now dol (length octets.now)) }
        ensures refused { IfErr result (RefusesUnlessMemory whole IsDol IsDolReason octets.now) }
    {
        let mut walk = EntryWalk::new();
        let mut entries = Vec::new(alloc);
        while let Some(entry) = walk.next_entry(octets)? {
            if entries.push(entry).is_err() {
                return Err(Refused::Memory);
            }
        }
        Ok(Dol { entries })
    }

    /// Encodes the list. The error is a failed allocation.
    pub fn encode(&self, alloc: Global) -> Result<Vec<u8>, AllocError>
        ensures { IfOk result (λ octets. IsDol self.now octets.items) }
    {
        let mut out = Vec::new(alloc);
        for (tag, length) in self.entries() {
            append_entry(&mut out, tag, *length)?;
        }
        Ok(out)
    }
}

impl PartialEq for Dol {
    ghost use Rattle.std.specs.Prelude.{◌==◌};
    ghost use Rattle.std.specs.Ordering.{on, eq_of_both};
    ghost use lib.Pointwise.{pointwise};
    ghost use Rattle.std.proofs.Common.{rules};
    ghost use Rattle.std.specs.Cmp.Rules.{comparing};

    ghost eq = { pointwise (eq_of_both (on (λ e. e.0) (pointwise ◌==◌)) (on (λ e. e.1) ◌==◌)) };

    ghost laws = { Prim.search (comparing, rules) };

    fn eq(&self, other: &Self) -> bool {
        self.entries() == other.entries()
    }
}

impl Eq for Dol {
    ghost use Rattle.std.proofs.Common.{rules};
    ghost use Rattle.std.specs.Cmp.Rules.{comparing};

    ghost laws = { Prim.search (comparing, rules) };
}

/// Appends the octets of an entry.
fn append_entry(out: &mut Vec<u8>, tag: &Tag, length: u8) -> Result<(), AllocError>
    ensures tag { IsTag tag.now }
    ensures length { length < 256 }
    ensures octets { OnOk result (out.new.items ≡ (out.old.items ++ tag.now) ++ length ∷ []) }
{
    out.extend_from_slice(tag.octets())?;
    out.push(length)?;
    Ok(())
}
