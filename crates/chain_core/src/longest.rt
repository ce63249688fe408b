//! The longest messages that an end of a session sends.

/// The length of the longest command in octets (ISO/IEC 7816-3, clause 12.1). It has the header, Lc in three
/// octets, a data field of 65,535 octets, and Le in two.
pub const LONGEST_COMMAND: usize = 65_544;

/// The length of the longest response in octets (ISO/IEC 7816-3, clause 12.1): a data field of 65,536 octets, SW1
/// and SW2.
pub const LONGEST_RESPONSE: usize = 65_538;
