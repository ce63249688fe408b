//! The version of the library.

ghost use Rattle.std.specs.Prelude.{◌≡◌};
ghost use Rattle.c_lent.specs.Version.{version};

/// Returns the version of the library: 1,000,000 times the first number of its text, plus 1,000 times the second, plus
/// the third.
pub fn version() -> u32
    ensures { result ≡ version }
{
    1_005_000
}
