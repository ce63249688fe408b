//! The sizes of the structs that C and the library share.

ghost use Rattle.std.specs.Prelude.{◌≡◌};
ghost use Rattle.c_lent.specs.Layout.{size_of_struct};

/// Returns the size of a struct of the library in octets, by the struct's number in the header. 0 for any other number.
#[unsafe(no_mangle)]
pub extern "C" fn scard_struct_size(number: u8) -> usize
    ensures { result ≡ size_of_struct number }
{
    c_lent::layout::struct_size(number)
}
