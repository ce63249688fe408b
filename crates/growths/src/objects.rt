//! Forests of data objects, and lists of them.

use crate::Outcome;
use octet_core::{Format, Octets, Refused};
use std::alloc::{AllocError, Global};
use tlv_core::{
    Dol, FillFault, FlatForest, Forest, ForestReader, Known, Tag, decode, encode, fill,
    placed_parts, tidy,
};

/// A forest with fillers, nested objects and a long form.
const FOREST: [u8; 24] = [
    0x00, 0x6F, 0x10, 0x84, 0x07, 0xA0, 0x00, 0x00, 0x00, 0x04, 0x10, 0x10, 0xA5, 0x05, 0xBF, 0x0C,
    0x02, 0x50, 0x00, 0x5A, 0x81, 0x01, 0x12, 0x00,
];

/// The same objects, in the fewest octets.
const TIDY: [u8; 21] = [
    0x6F, 0x10, 0x84, 0x07, 0xA0, 0x00, 0x00, 0x00, 0x04, 0x10, 0x10, 0xA5, 0x05, 0xBF, 0x0C, 0x02,
    0x50, 0x00, 0x5A, 0x01, 0x12,
];

/// A list of three entries.
const LIST: [u8; 8] = [0x9F, 0x02, 0x06, 0x5F, 0x2A, 0x02, 0x9A, 0x03];

/// The data for the list, if 9A is known.
const FILLED: [u8; 11] = [0, 0, 0, 0, 0, 0, 0, 0, 0x00, 0x12, 0x34];

/// Decodes and encodes a forest, and makes it tidy.
pub(crate) fn forests(alloc: Global) -> Outcome {
    match decode(alloc, &FOREST, FOREST.len()) {
        Ok(forest) => is_kept_and_tidied(alloc, &forest),
        Err(Refused::Memory) => Err(AllocError),
        Err(Refused::Stop(_)) => Ok(false),
    }
}

fn is_kept_and_tidied(alloc: Global, forest: &Forest) -> Outcome {
    let is_kept = is_spelled(alloc, forest)?;
    let is_tidied = is_tidied(alloc, forest)?;
    Ok(is_kept && is_tidied)
}

fn is_tidied(alloc: Global, forest: &Forest) -> Outcome {
    let tidied = tidy(alloc, forest)?;
    Ok(encode(alloc, &tidied)?.as_slice() == TIDY.as_slice())
}

/// Reads a forest in pieces. If memory was out, it feeds the rest of the piece again.
pub(crate) fn pieces(alloc: Global) -> Outcome {
    let mut reader = ForestReader::new(alloc, FOREST.len())?;
    let are_fed = are_fed(&mut reader);
    match reader.finish() {
        Ok(forest) if are_fed => is_spelled(alloc, &forest),
        _ => Ok(false),
    }
}

/// Whether all pieces are taken.
fn are_fed(reader: &mut ForestReader) -> bool {
    for piece in FOREST.chunks(5) {
        if !is_fed(reader, piece) {
            return false;
        }
    }
    true
}

/// Whether a piece is taken, by one call or by a second one.
fn is_fed(reader: &mut ForestReader, piece: &[u8]) -> bool {
    match reader.feed(piece) {
        Ok(()) => true,
        Err((taken, Refused::Memory)) => match piece.get(taken..) {
            Some(rest) => reader.feed(rest).is_ok(),
            None => false,
        },
        Err((_, Refused::Stop(_))) => false,
    }
}

fn is_spelled(alloc: Global, forest: &Forest) -> Outcome {
    Ok(encode(alloc, forest)?.as_slice() == FOREST.as_slice())
}

/// Borrows the parts of a forest.
pub(crate) fn parts(alloc: Global) -> Outcome {
    match FlatForest::read(alloc, &FOREST, FOREST.len()) {
        Ok(forest) if forest.parts().len() == 6 => Ok(true),
        Err(Refused::Memory) => Err(AllocError),
        _ => Ok(false),
    }
}

/// Returns the parts of a forest with their places.
pub(crate) fn places(alloc: Global) -> Outcome {
    match placed_parts(alloc, &FOREST, FOREST.len()) {
        Ok(parts) if parts.len() == 6 => Ok(true),
        Err(Refused::Memory) => Err(AllocError),
        _ => Ok(false),
    }
}

/// Decodes, encodes and fills a list.
pub(crate) fn lists(alloc: Global) -> Outcome {
    match Dol::decode(alloc, &LIST) {
        Ok(list) => is_list_kept(alloc, &list),
        Err(Refused::Memory) => Err(AllocError),
        Err(Refused::Stop(_)) => Ok(false),
    }
}

fn is_list_kept(alloc: Global, list: &Dol) -> Outcome {
    let is_kept = is_list_encoded(alloc, list)?;
    let is_filled = is_filled(alloc, list)?;
    Ok(is_kept && is_filled)
}

fn is_list_encoded(alloc: Global, list: &Dol) -> Outcome {
    Ok(list.encode(alloc)?.as_slice() == LIST.as_slice())
}

fn is_filled(alloc: Global, list: &Dol) -> Outcome {
    let Some(tag) = Tag::new(&[0x9A]) else {
        return Ok(false);
    };
    let value = Octets::of(Vec::from_slice(alloc, &[0x12, 0x34])?);
    let known = [Known {
        tag,
        format: Format::Numeric,
        value,
    }];
    match fill(alloc, list, &known) {
        Ok(octets) => Ok(octets.as_slice() == FILLED.as_slice()),
        Err(FillFault::Memory) => Err(AllocError),
        Err(FillFault::Duplicate) => Ok(false),
    }
}
