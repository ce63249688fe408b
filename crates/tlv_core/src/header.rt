//! The header of an object (its tag and its length field), parsed octet by octet.

ghost use Rattle.std.specs.Prelude.{◌≡◌, ◌+◌, ◌*◌, ◌^◌, ◌<◌, ◌≤◌, [], ◌∷◌, length, ◌↔◌, IsTrue, true, IfOk, IfErr};
ghost use Rattle.octet_core.specs.Grammar.{IsFirst};
ghost use Rattle.tlv_core.specs.Tag.{IsTag, IsLong};
ghost use Rattle.tlv_core.specs.Form.{further};
ghost use Rattle.tlv_core.specs.Reasons.{IsWrong, octet_reasons};
ghost use Rattle.tlv_core.specs.Header.{header_octets, IsWell, IsNext, header_from, header_need, next_need, IsWellNext, header_in, object_in};

use crate::form::Form;
use crate::reason::TlvReason;
use crate::tag::{Tag, is_long, is_tag};
use crate::tag_part::{TagPart, tag_first, tag_second, tag_third};

/// The octets of a header that were read so far.
#[derive(Clone, Copy, Debug)]
pub enum Header {
    /// No octets.
    Nothing,
    /// A first tag octet that a second one follows.
    First(u8),
    /// Two tag octets that a third one follows.
    Second(u8, u8),
    /// A whole tag.
    Tagged(Tag),
    /// A tag, the first octet of a long length field, and `read` of the octets that follow it. These stand
    /// for `number`.
    Sized {
        tag: Tag,
        form: Form,
        read: u8,
        number: u32,
    },
}

/// The result of one more octet of a header.
#[derive(Drop)]
pub(crate) enum Next {
    /// The octet was a filler.
    Filler,
    /// The octet made the header longer, but not whole.
    Under(Header),
    /// The octet ended the header of an object.
    Object(ObjectHeader),
}

/// The header of an object: its tag, the form of its length field, and the length `len` of its value in
/// octets.
#[derive(Clone, Copy)]
pub(crate) struct ObjectHeader {
    pub(crate) tag: Tag,
    pub(crate) form: Form,
    pub(crate) len: u32,
}

impl Header {
    /// Makes a header that has only octets of a tag so far.
    fn of(part: TagPart) -> Header
        ensures { result ≡ header_from part }
    {
        match part {
            TagPart::Nothing => Header::Nothing,
            TagPart::First(first) => Header::First(first),
            TagPart::Second(first, second) => Header::Second(first, second),
            TagPart::Tagged(tag) => Header::Tagged(tag),
        }
    }

    /// Whether the fields are consistent: octets that can begin a header, in the variant for them.
    pub(crate) fn is_well(&self) -> bool
        ensures yes { result ≡ true → IsWell self.now }
        ensures no { IsWell self.now → result ≡ true }
    {
        match self {
            Header::Nothing => true,
            Header::First(first) => is_long(*first),
            Header::Second(first, second) => is_long(*first) && *second > 0x80,
            Header::Tagged(tag) => is_tag(tag.octets()),
            Header::Sized {
                tag,
                form,
                read,
                number,
            } => is_tag(tag.octets()) && is_part(*form, *read, *number),
        }
    }

    /// Whether no octet of a header was read.
    pub(crate) fn is_nothing(&self) -> bool
        requires { IsWell self.now }
        ensures { IsTrue result ↔ (header_octets self.now ≡ []) }
    {
        match self {
            Header::Nothing => true,
            Header::First(_) | Header::Second(_, _) | Header::Tagged(_) | Header::Sized { .. } =>
                false,
        }
    }

    /// Takes one more octet of the header. The error is `TagSecond`, `TagLong` or `LengthForm` if no header
    /// has this octet in its place.
    pub(crate) fn next(self, octet: u8) -> Result<Next, TlvReason>
        requires { IsWell self }
        ensures ok { IfOk result (IsNext (header_octets self) octet) }
        ensures err { IfErr result
            (IsFirst octet_reasons (IsWrong 0 0 (header_octets self) octet)) }
    {
        match self {
            Header::Nothing => Ok(after_nothing(octet)),
            Header::First(first) => after_first(first, octet),
            Header::Second(first, second) => after_second(first, second, octet),
            Header::Tagged(tag) => after_tag(tag, octet),
            Header::Sized {
                tag,
                form,
                read,
                number,
            } => Ok(after_part(tag, form, read, number, octet)),
        }
    }

    /// Returns how many octets were read.
    pub(crate) fn count(&self) -> usize
        ensures { result ≡ length (header_octets self.now) }
    {
        match self {
            Header::Nothing => 0,
            Header::First(_) => 1,
            Header::Second(_, _) => 2,
            Header::Tagged(tag) => tag.octets().len(),
            Header::Sized { tag, read, .. } => tag.octets().len() + 1 + usize::from(*read),
        }
    }

    /// Returns the least number of octets of the object that must still come.
    pub(crate) fn need(self) -> usize
        requires { IsWell self }
        ensures { result ≡ header_need self }
    {
        match self {
            Header::Nothing => 0,
            Header::First(_) | Header::Second(_, _) => 2,
            Header::Tagged(_) => 1,
            Header::Sized {
                tag: _,
                form,
                read,
                number,
            } => least_length(form.further() - read, number),
        }
    }
}

impl Next {
    /// Returns the unfinished header after the octet: an empty one after a filler or a whole header.
    pub(crate) fn header(&self) -> Header
        ensures { result ≡ header_in self.now }
    {
        match self {
            Next::Under(header) => *header,
            Next::Filler | Next::Object(_) => Header::Nothing,
        }
    }

    /// Returns the object if the octet ended its header.
    pub(crate) fn object(&self) -> Option<ObjectHeader>
        ensures { result ≡ object_in self.now }
    {
        match self {
            Next::Object(object) => Some(*object),
            Next::Filler | Next::Under(_) => None,
        }
    }

    /// Returns the least number of octets that must still come: 0 after a filler, and the length of the
    /// value after a whole header.
    pub(crate) fn need(&self) -> usize
        requires { IsWellNext self.now }
        ensures { result ≡ next_need self.now }
    {
        match self {
            Next::Filler => 0,
            Next::Under(header) => header.need(),
            Next::Object(object) => object.len as usize,
        }
    }
}

/// Takes a filler, or the first octet of a tag.
fn after_nothing(octet: u8) -> Next
    ensures { IsNext [] octet result }
{
    match tag_first(octet) {
        Some(longer) => Next::Under(Header::of(longer)),
        None => Next::Filler,
    }
}

/// Takes the second octet of a tag.
fn after_first(first: u8, octet: u8) -> Result<Next, TlvReason>
    requires { IsLong first }
    ensures ok { IfOk result (IsNext (first ∷ []) octet) }
    ensures err { IfErr result (IsFirst octet_reasons (IsWrong 0 0 (first ∷ []) octet)) }
{
    match tag_second(first, octet) {
        Some(longer) => Ok(Next::Under(Header::of(longer))),
        None => Err(TlvReason::TagSecond),
    }
}

/// Takes the third octet of a tag.
fn after_second(first: u8, second: u8, octet: u8) -> Result<Next, TlvReason>
    requires long { IsLong first }
    requires more { 128 < second }
    ensures ok { IfOk result (IsNext (first ∷ second ∷ []) octet) }
    ensures err { IfErr result (IsFirst octet_reasons (IsWrong 0 0 (first ∷ second ∷ []) octet)) }
{
    match tag_third(first, second, octet) {
        Some(longer) => Ok(Next::Under(Header::of(longer))),
        None => Err(TlvReason::TagLong),
    }
}

/// Takes the first octet of a length field.
fn after_tag(tag: Tag, octet: u8) -> Result<Next, TlvReason>
    requires { IsTag tag }
    ensures ok { IfOk result (IsNext tag octet) }
    ensures err { IfErr result (IsFirst octet_reasons (IsWrong 0 0 tag octet)) }
{
    if octet < 0x80 {
        return Ok(Next::Object(ObjectHeader {
            tag,
            form: Form::One,
            len: u32::from(octet),
        }));
    }
    match Form::begun_by(octet) {
        Some(form) => Ok(Next::Under(Header::Sized {
            tag,
            form,
            read: 0,
            number: 0,
        })),
        None => Err(TlvReason::LengthForm),
    }
}

/// Takes a further octet of a length field.
fn after_part(tag: Tag, form: Form, read: u8, number: u32, octet: u8) -> Next
    requires { IsWell (Header.Sized tag form read number) }
    ensures { IsNext (header_octets (Header.Sized tag form read number)) octet result }
{
    let number = number * 0x100 + u32::from(octet);
    if read + 1 == form.further() {
        Next::Object(ObjectHeader {
            tag,
            form,
            len: number,
        })
    } else {
        Next::Under(Header::Sized {
            tag,
            form,
            read: read + 1,
            number,
        })
    }
}

/// Returns the least number of octets that must still come. `left` octets of a length field do, and those
/// before them stand for `number`. The length is least if the rest of the field is zeros.
fn least_length(left: u8, number: u32) -> usize
    requires left { left ≤ 4 }
    requires fits { number * 256 ^ left < 2 ^ 32 }
    ensures { result ≡ left + number * 256 ^ left }
{
    usize::from(left) + number as usize * 0x100_usize.pow(u32::from(left))
}

/// Whether a length field of this form continues after `read` of its octets after the first, and these can
/// stand for `number`.
fn is_part(form: Form, read: u8, number: u32) -> bool
    ensures yes { result ≡ true → (read < further form) × (number < 256 ^ read) }
    ensures no { (read < further form) × (number < 256 ^ read) → result ≡ true }
{
    if read >= form.further() {
        return false;
    }
    number < 0x100_u32.pow(u32::from(read))
}
