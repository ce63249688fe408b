//! The forms of a length field.

ghost use Rattle.std.specs.Prelude.{◌≡◌, ℕ, ◌+◌, ◌^◌, ◌<◌, ◌≤◌, length, MatchOption};
ghost use Rattle.tlv_core.specs.Reasons.{BeginsLength};

use arrayvec::ArrayVec;

/// The form of a length field, by its number of octets (EMV 4.3 Book 3, Annex B; ISO/IEC 7816-4,
/// clause 5.2.2). A length may have a longer form than it needs.
#[derive(Clone, Copy, Debug, PartialEq, Eq)]
pub enum Form {
    /// One octet, 00 to 7F, which is the length.
    One,
    /// 81, and the length in one octet.
    Two,
    /// 82, and the length in two octets, high octet first.
    Three,
    /// 83, and the length in three octets, high octet first.
    Four,
    /// 84, and the length in four octets, high octet first.
    Five,
}

impl Form {
    ghost use Rattle.tlv_core.specs.Form.{further, capacity, shortest};
    ghost use Rattle.tlv_core.specs.Tag.{length_field};

    /// Returns how many octets a length field of this form has, 1 to 5.
    pub fn octets(self) -> usize
        ensures field { (len : ℕ) → result ≡ length (length_field self len) }
        ensures some { 1 ≤ result }
        ensures most { result ≤ 5 }
    {
        1 + usize::from(self.further())
    }

    /// Returns the number of octets after the first one.
    pub(crate) fn further(self) -> u8
        ensures value { result ≡ further self }
        ensures most { result ≤ 4 }
    {
        match self {
            Form::One => 0,
            Form::Two => 1,
            Form::Three => 2,
            Form::Four => 3,
            Form::Five => 4,
        }
    }

    /// Returns the form of a length field of two or more octets that begins with this octet. It is
    /// `None` for 80, and for 85 and above.
    pub(crate) fn begun_by(first: u8) -> Option<Form>
        requires { 128 ≤ first }
        ensures { MatchOption result (BeginsLength first → ⊥)
            (λ form. (0 < further form) × (first ≡ 128 + further form)) }
    {
        match first {
            0x81 => Some(Form::Two),
            0x82 => Some(Form::Three),
            0x83 => Some(Form::Four),
            0x84 => Some(Form::Five),
            _ => None,
        }
    }

    /// Returns the least length that is too large for this form.
    pub(crate) fn capacity(self) -> usize
        ensures { result ≡ capacity self }
    {
        match self {
            Form::One => 0x80,
            Form::Two => 0x100,
            Form::Three => 0x1_0000,
            Form::Four => 0x100_0000,
            Form::Five => 0x1_0000_0000,
        }
    }

    /// Returns the length field of this form for `len`, which must fit: one to five octets.
    pub(crate) fn field(self, len: usize) -> ArrayVec<u8, 5>
        requires { len < capacity self }
        ensures { result.items ≡ length_field self len }
    {
        let low = (len % 0x100) as u8;
        let second = (len / 0x100 % 0x100) as u8;
        let third = (len / 0x1_0000 % 0x100) as u8;
        let high = (len / 0x100_0000 % 0x100) as u8;
        let mut octets = ArrayVec::new();
        let all = match self {
            Form::One => octets.try_extend_from_slice(&[low]),
            Form::Two => octets.try_extend_from_slice(&[0x81, low]),
            Form::Three => octets.try_extend_from_slice(&[0x82, second, low]),
            Form::Four => octets.try_extend_from_slice(&[0x83, third, second, low]),
            Form::Five => octets.try_extend_from_slice(&[0x84, high, third, second, low]),
        };
        all.unwrap();
        octets
    }

    /// Returns the shortest length field for `len`: one to five octets.
    pub fn shortest_field(len: usize) -> ArrayVec<u8, 5>
        requires { len < 2 ^ 32 }
        ensures { result.items ≡ length_field (shortest len) len }
    {
        Form::shortest(len).field(len)
    }

    /// Returns the shortest form that a length fits.
    pub(crate) fn shortest(len: usize) -> Form
        ensures { result ≡ shortest len }
    {
        if len < 0x80 {
            Form::One
        } else if len < 0x100 {
            Form::Two
        } else if len < 0x1_0000 {
            Form::Three
        } else if len < 0x100_0000 {
            Form::Four
        } else {
            Form::Five
        }
    }
}
