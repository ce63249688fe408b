//! Numbers of blocks.

ghost use Rattle.std.specs.Prelude.{◌≡◌, ◌++◌, ◌∷◌, [], IfOk};

use octet_core::Listed;
use std::alloc::AllocError;

/// Numbers of blocks in rising order, which contracts see as a list.
pub(crate) type Numbers = Listed<usize>;

/// Returns these numbers and one more.
pub(crate) fn with_number(numbers: Numbers, number: usize) -> Result<Numbers, AllocError>
    ensures { IfOk result (λ longer. longer ≡ numbers ++ number ∷ []) }
{
    let mut held = numbers.into_inner();
    held.push(number)?;
    Ok(Numbers::of(held))
}
