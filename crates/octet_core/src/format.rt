//! The formats of the values of data objects.

/// The format of the value of a data object, which determines how the value is cut or padded to a
/// length (EMV 4.3 Book 3, clause 5.4).
#[derive(Clone, Copy, Debug, PartialEq, Eq)]
pub enum Format {
    /// Decimal digits, two in an octet, aligned to the right.
    Numeric,
    /// Decimal digits, two in an octet, aligned to the left, and padded with hexadecimal F.
    CompressedNumeric,
    /// Any other format.
    Other,
}
