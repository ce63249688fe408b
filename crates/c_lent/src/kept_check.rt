//! The state of a check of a forest, which the caller keeps. Nothing is allocated.

ghost use Rattle.std.specs.Prelude.{◌≡◌, ◌≤◌, ◌-◌, ◌++◌, length, replicate, IfSome, IfNone, MatchOption, Some};
ghost use Rattle.tlv_core.specs.declared.header.Header.{Header};
ghost use Rattle.tlv_core.specs.declared.lent.LentCheck.{LentCheck};
ghost use Rattle.tlv_core.specs.Header.{IsWell};
ghost use Rattle.tlv_core.specs.Lent.{IsLentCheck};
ghost use Rattle.tlv_core.specs.Tag.{IsTag};
ghost use Rattle.c_lent.specs.KeptCheck.{refused_of, form_of, tag_of, header_of, check_of, IsUnused};

use crate::verdict::Numbered;
use tlv_core::{Form, Header, LentCheck, Tag, TlvReason};

/// The header that is being read: by its `kind`, the octets and numbers that are kept.
#[repr(C)]
#[derive(Clone, Copy)]
pub struct CHeader {
    pub kind: u8,
    pub tag: [u8; 3],
    pub tag_count: u8,
    pub form: u8,
    pub read: u8,
    pub number: u32,
}

/// The state of a check. Its fields are private to the library. Only a value that a call left is usable, and each call
/// checks the fields.
#[repr(C)]
#[derive(Clone, Copy)]
pub struct CCheck {
    pub max: u32,
    pub count: u32,
    pub value_left: u32,
    pub header: CHeader,
    pub ends: [u32; 16],
    pub level: u8,
    pub refused: u8,
}

/// Returns why an octet was refused, by its number.
fn refused_of(number: u8) -> Option<Option<TlvReason>>
    ensures { result ≡ refused_of number }
{
    match number {
        0 => Some(None),
        1 => Some(Some(TlvReason::TooDeep)),
        2 => Some(Some(TlvReason::TagSecond)),
        3 => Some(Some(TlvReason::TagLong)),
        4 => Some(Some(TlvReason::LengthForm)),
        5 => Some(Some(TlvReason::Overrun)),
        6 => Some(Some(TlvReason::TooLong)),
        _ => None,
    }
}

/// Returns the number of a reason, 0 if no octet was refused.
fn refused_number(refused: Option<TlvReason>) -> u8
    ensures { refused_of result ≡ Some refused }
{
    match refused {
        None => 0,
        Some(reason) => reason.number(),
    }
}

/// Returns the form of a length field with this many octets.
fn form_of(octets: u8) -> Option<Form>
    ensures { result ≡ form_of octets }
{
    match octets {
        1 => Some(Form::One),
        2 => Some(Form::Two),
        3 => Some(Form::Three),
        4 => Some(Form::Four),
        5 => Some(Form::Five),
        _ => None,
    }
}

/// Returns how many octets a length field of this form has.
fn octets_of(form: Form) -> u8
    ensures { form_of result ≡ Some form }
{
    match form {
        Form::One => 1,
        Form::Two => 2,
        Form::Three => 3,
        Form::Four => 4,
        Form::Five => 5,
    }
}

impl CHeader {
    /// Returns the state of this header as a struct of C.
    fn of(header: Header) -> CHeader
        ensures kept { header_of result ≡ Some header }
        ensures unused { IsUnused header result }
    {
        match header {
            Header::Nothing => CHeader::tagged(0, &[]),
            Header::First(first) => CHeader::tagged(1, &[first]),
            Header::Second(first, second) => CHeader::tagged(2, &[first, second]),
            Header::Tagged(tag) => CHeader::tagged(3, tag.octets()),
            Header::Sized {
                tag,
                form,
                read,
                number,
            } => CHeader {
                form: octets_of(form),
                read,
                number,
                ..CHeader::tagged(4, tag.octets())
            },
        }
    }

    /// Returns the state of a header of this kind that begins with these octets.
    fn tagged(kind: u8, octets: &[u8]) -> CHeader
        requires { length octets.now ≤ 3 }
        ensures kind { result.kind ≡ kind }
        ensures tag { tag_of result ≡ octets.now }
        ensures unused { (result.form ≡ 0) × (result.read ≡ 0) × (result.number ≡ 0) }
        ensures zeros { result.tag ≡ octets.now ++ replicate (3 - length octets.now) 0 }
    {
        let mut tag = [0; 3];
        tag[..octets.len()].copy_from_slice(octets);
        CHeader {
            kind,
            tag,
            tag_count: octets.len() as u8,
            form: 0,
            read: 0,
            number: 0,
        }
    }

    /// Returns the tag that is kept, if its octets are a tag.
    fn tag(&self) -> Option<Tag>
        ensures { MatchOption result (IsTag (tag_of self.now) → ⊥) (λ tag. tag ≡ tag_of self.now) }
    {
        if self.tag_count > 3 {
            return None;
        }
        Tag::new(&self.tag[..self.tag_count as usize])
    }

    /// Returns the header that the fields spell, if any.
    fn spelled(&self) -> Option<Header>
        ensures some { IfSome result (λ header. header_of self.now ≡ Some header) }
        ensures none { IfNone result
            ((header : Header) → header_of self.now ≡ Some header → IsWell header → ⊥) }
    {
        match self.kind {
            0 => Some(Header::Nothing),
            1 => Some(Header::First(self.tag[0])),
            2 => Some(Header::Second(self.tag[0], self.tag[1])),
            3 => Some(Header::Tagged(self.tag()?)),
            4 => Some(Header::Sized {
                tag: self.tag()?,
                form: form_of(self.form)?,
                read: self.read,
                number: self.number,
            }),
            _ => None,
        }
    }
}

impl CCheck {
    /// Returns the state of a check as a struct of C.
    pub fn of(check: &LentCheck) -> CCheck
        ensures kept { check_of result ≡ Some check.now }
        ensures unused { IsUnused check.now.header result.header }
    {
        CCheck {
            max: check.max,
            count: check.count,
            value_left: check.value_left,
            header: CHeader::of(check.header),
            ends: check.ends,
            level: check.level,
            refused: refused_number(check.refused),
        }
    }

    /// Returns the check that the fields spell, if any.
    pub fn fitting(&self) -> Option<LentCheck>
        ensures some { IfSome result
            (λ check. (check_of self.now ≡ Some check) × IsLentCheck check) }
        ensures none { IfNone result ((check : LentCheck) → check_of self.now ≡ Some check →
            IsLentCheck check → ⊥) }
    {
        let check = LentCheck {
            max: self.max,
            count: self.count,
            ends: self.ends,
            level: self.level,
            header: self.header.spelled()?,
            value_left: self.value_left,
            refused: refused_of(self.refused)?,
        };
        if check.fit() { Some(check) } else { None }
    }
}
