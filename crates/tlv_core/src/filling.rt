//! Filling a data object list with known values.

ghost use Rattle.std.specs.Prelude.{◌≡◌, ◌+◌, ◌++◌, List, length, replicate, IsTrue, ◌↔◌, IfOk, IfErr, OnOk};
ghost use Rattle.std.specs.Option.{option_copied};
ghost use Rattle.tlv_core.specs.Fill.{fitted, known_for, entry_part, filled, HasDuplicate, IsFillFault};
ghost use Rattle.tlv_core.specs.ByTag.{HasAll};

use crate::dol::Dol;
use crate::fitting::put_fitted;
use crate::known::Known;
use crate::tag::Tag;
use octet_core::Format;
use std::alloc::{AllocError, Global};
use std::collections::BTreeMap;
use std::error::Error;
use std::fmt::{self, Display, Formatter, Write};

/// Why a data object list couldn't be filled.
#[derive(Clone, Copy, Debug, PartialEq, Eq)]
pub enum FillFault {
    /// Two known values have one tag.
    Duplicate,
    /// An allocation failed.
    Memory,
}

/// Writes `Duplicate`, or `memory`.
impl Display for FillFault {
    ghost use Rattle.std.specs.Prelude.{Some};
    ghost use Rattle.tlv_core.specs.Names.{fill_fault_text};

    ghost output = { λ fault. Some (fill_fault_text fault) };

    fn fmt<W: Write>(&self, f: &mut Formatter<W>) -> fmt::Result {
        match self {
            FillFault::Duplicate => f.write_str("Duplicate"),
            FillFault::Memory => f.write_str("memory"),
        }
    }
}

impl Error for FillFault {}

impl From<AllocError> for FillFault {
    ghost use Rattle.std.specs.Prelude.{◌≡◌};
    ghost use Rattle.tlv_core.specs.declared.filling.FillFault.TheVariants.{Memory};

    ghost from_gives = { λ _ fault. fault ≡ Memory };

    fn from(_: AllocError) -> Self {
        FillFault::Memory
    }
}

/// Returns the octets that the list asks for. Each entry, in order, gives as many octets as its length says: the
/// known value of its tag, cut or padded by its format; or zeros, if the tag belongs to a constructed object or
/// has no known value (EMV 4.3 Book 3, clause 5.4).
///
/// A numeric value loses its leftmost octets or gets leading 00. A compressed numeric one loses its rightmost
/// octets or gets trailing FF. Any other loses its rightmost octets or gets trailing 00.
///
/// The error is `Duplicate` if two known values have one tag, even a tag that isn't in the list. Otherwise it is
/// `Memory` if an allocation fails.
///
/// With n known values and m entries, the call makes about (n + m) log n comparisons of tags. It allocates a map
/// of n places besides the octets. If that allocation fails, it compares all pairs of known values, n²
/// comparisons, to choose between `Duplicate` and `Memory`.
pub fn fill(alloc: Global, dol: &Dol, known: &[Known]) -> Result<Vec<u8>, FillFault>
    ensures filled { IfOk result (λ octets. octets.items ≡ filled known.now dol.now) }
    ensures unique { IfOk result (λ _. HasDuplicate known.now → ⊥) }
    ensures fault { IfErr result (IsFillFault known.now) }
{
    let placed = by_tag(alloc, known)?;
    let mut out = Vec::new(alloc);
    for (tag, length) in dol.entries() {
        append_part(&mut out, &placed, tag, *length as usize)?;
    }
    Ok(out)
}

/// Known values by the octets of their tags.
type ByTag<'a> = BTreeMap<&'a [u8], &'a Known>;

/// Returns all known values by their tags.
fn by_tag<'a>(alloc: Global, known: &'a [Known]) -> Result<ByTag<'a>, FillFault>
    ensures all { IfOk result (HasAll known.now) }
    ensures unique { IfOk result (λ _. HasDuplicate known.now → ⊥) }
    ensures fault { IfErr result (IsFillFault known.now) }
{
    let mut placed = BTreeMap::new(alloc);
    for one in known {
        match placed.insert(one.tag.octets(), one) {
            Ok(None) => {}
            Ok(Some(_)) => return Err(FillFault::Duplicate),
            Err(_) => return Err(fault_without_memory(known)),
        }
    }
    Ok(placed)
}

/// Returns the fault if an allocation failed before all tags were compared.
fn fault_without_memory(known: &[Known]) -> FillFault
    ensures { IsFillFault known.now result }
{
    if has_duplicate(known) {
        FillFault::Duplicate
    } else {
        FillFault::Memory
    }
}

/// Whether two known values have one tag.
fn has_duplicate(known: &[Known]) -> bool
    ensures { IsTrue result ↔ HasDuplicate known.now }
{
    for (place, first) in known.iter().enumerate() {
        if find(&known[place + 1..], &first.tag).is_some() {
            return true;
        }
    }
    false
}

/// Returns the first known value with this tag.
fn find<'a>(known: &'a [Known], tag: &Tag) -> Option<&'a Known>
    ensures { option_copied result ≡ known_for tag.now known.now }
{
    known.iter().find(|one| *tag == one.tag)
}

/// Appends the octets of an entry.
fn append_part<'a>(
    out: &mut Vec<u8>,
    placed: &ByTag<'a>,
    tag: &'a Tag,
    length: usize,
) -> Result<(), AllocError>
    ensures { (known : List Known) → HasAll known placed.now →
        OnOk result (out.new.items ≡ out.old.items ++ entry_part known (tag.now, length)) }
{
    if tag.is_constructed() {
        return append_copies(out, 0, length);
    }
    match placed.get(&tag.octets()) {
        Some(known) => append_fitted(out, known.format, known.value.get(), length),
        None => append_copies(out, 0, length),
    }
}

/// Appends a value, cut or padded to this many octets.
fn append_fitted(
    out: &mut Vec<u8>,
    format: Format,
    value: &[u8],
    length: usize,
) -> Result<(), AllocError>
    ensures { OnOk result (out.new.items ≡ out.old.items ++ fitted format length value.now) }
{
    let start = out.len();
    append_copies(out, 0, length)?;
    put_fitted(&mut out.as_mut_slice()[start..], format, value);
    Ok(())
}

/// Appends this many copies of one octet.
fn append_copies(out: &mut Vec<u8>, octet: u8, count: usize) -> Result<(), AllocError>
    ensures { OnOk result (out.new.items ≡ out.old.items ++ replicate count octet) }
{
    for added in 0..count {
        let _ = added;
        out.push(octet)?;
    }
    Ok(())
}
