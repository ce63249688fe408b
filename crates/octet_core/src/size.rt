//! The sizes of information fields of T=1.

ghost use Rattle.std.specs.Prelude.{◌≡◌, ◌↔◌, IsTrue, false};
ghost use Rattle.octet_core.specs.Sizes.{IsFieldSize, IsReserved, is_reserved};

/// Whether an information field size is reserved: 0 and 255 are (ISO/IEC 7816-3:2006, clause 11.4.2).
pub fn is_reserved(size: u8) -> bool
    ensures value { result ≡ is_reserved size }
    ensures yes { IsTrue result ↔ IsReserved size }
    ensures no { result ≡ false → IsFieldSize size }
{
    size == 0 || size == 255
}
