//! Objects with a short header, which are taken in one step.

ghost use Rattle.std.specs.Prelude.{◌≡◌, ◌<◌, ◌≤◌, ◌+◌, [], ◌∷◌, take, drop, length, IfSome, IfNone};
ghost use Rattle.tlv_core.specs.Tag.{IsTag};
ghost use Rattle.tlv_core.specs.Short.{IsShort, IsShortLength, opened, taken_of, whole_of, value_in};

use crate::form::Form;
use crate::header::ObjectHeader;
use crate::tag::{Tag, is_constructed, is_long};

/// The header of an object whose length field has at most three octets.
#[derive(Clone, Copy)]
pub(crate) struct ShortHeader {
    /// Its tag.
    pub(crate) tag: Tag,
    /// The form of its length field.
    pub(crate) form: Form,
    /// The number of octets of the header, 2 to 6.
    pub(crate) header: u8,
    pub(crate) is_constructed: bool,
    /// The length of the value.
    pub(crate) len: u16,
}

/// A length field of at most three octets.
#[derive(Clone, Copy)]
pub(crate) struct ShortLength {
    pub(crate) form: Form,
    /// The length that it stands for.
    pub(crate) len: u16,
}

impl ShortHeader {
    /// Returns how many octets are taken in one step: all of a primitive object, or the header of a constructed one.
    pub(crate) fn taken(&self) -> usize
        ensures { result ≡ taken_of self.now }
    {
        if self.is_constructed {
            usize::from(self.header)
        } else {
            self.whole()
        }
    }

    /// Returns the length of the value if the object is open after its header.
    pub(crate) fn opens(&self) -> Option<usize>
        ensures some { IfSome result
            (λ n. (0 < n) × (n ≡ self.now.len)
            × (opened self.now.is_constructed self.now.len ≡ n ∷ [])) }
        ensures taken { IfSome result (λ n. taken_of self.now + n ≡ whole_of self.now) }
        ensures none { IfNone result (opened self.now.is_constructed self.now.len ≡ []) }
    {
        if self.is_constructed && self.len > 0 {
            Some(usize::from(self.len))
        } else {
            None
        }
    }

    /// Returns the number of octets of the whole object.
    pub(crate) fn whole(&self) -> usize
        ensures { result ≡ whole_of self.now }
    {
        usize::from(self.header) + usize::from(self.len)
    }

    /// Returns the value of a primitive object whose header is at the front of `octets`. For a constructed object the
    /// result is empty.
    pub(crate) fn value<'a>(&self, octets: &'a [u8]) -> &'a [u8]
        requires { taken_of self.now ≤ length octets.now }
        ensures { result.now ≡ value_in octets.now self.now }
    {
        &octets[usize::from(self.header)..self.taken()]
    }

    /// Returns the header as that of any object.
    pub(crate) fn object(&self) -> ObjectHeader
        ensures { result ≡ record { tag = self.now.tag; form = self.now.form; len = self.now.len } }
    {
        ObjectHeader {
            tag: self.tag,
            form: self.form,
            len: u32::from(self.len),
        }
    }
}

/// How many octets a short header is read from. It has at most six, and eight are copied in one step.
const FRONT: usize = 8;

/// Returns the short header at the front of these octets, if they have all that is taken of the object in one step.
///
/// The octets of its tag are counted without a branch. Inside objects their number varies too much to be guessed.
#[inline(always)]
pub(crate) fn short_header(octets: &[u8]) -> Option<ShortHeader>
    ensures { IfSome result
        (λ object. IsShort octets.now object × (taken_of object ≤ length octets.now)) }
{
    match octets.first_chunk::<FRONT>() {
        Some(front) => header_within(octets, front, tag_at(front)),
        None => Some(header_of_few(octets)?),
    }
}

/// Returns the short header of an outermost object, as [`short_header`] does.
///
/// The octets of its tag are counted by branches. A processor guesses these, and reads on before it knows the number.
/// This saves a third of the time for a list of objects.
#[inline(always)]
pub(crate) fn outermost_header(octets: &[u8]) -> Option<ShortHeader>
    ensures { IfSome result
        (λ object. IsShort octets.now object × (taken_of object ≤ length octets.now)) }
{
    match octets.first_chunk::<FRONT>() {
        Some(front) => header_within(octets, front, tag_by_branches(front)),
        None => Some(header_of_few(octets)?),
    }
}

/// Returns the short header of fewer octets. Zeros are put after them, so that the header is read from places that
/// always exist. This is a separate function: inlined, its array would be cleared for every header. A caller takes its
/// result apart by `?`, since what it returns is in memory, and another header is in registers.
#[cold]
#[inline(never)]
fn header_of_few(octets: &[u8]) -> Option<ShortHeader>
    requires { length octets.now < 8 }
    ensures { IfSome result
        (λ object. IsShort octets.now object × (taken_of object ≤ length octets.now)) }
{
    let mut front = [0; FRONT];
    front[..octets.len()].copy_from_slice(octets);
    header_within(octets, &front, tag_at(&front))
}

/// Returns the short header at the front of octets, if they have all that is taken of the object in one step. `front`
/// begins with the first of them, and `tag` is the number of octets of the tag there.
#[inline(always)]
fn header_within(octets: &[u8], front: &[u8; FRONT], tag: Option<usize>) -> Option<ShortHeader>
    requires front { take (length octets.now) front.now ≡ take 8 octets.now }
    requires tag { IfSome tag (λ n. IsTag (take n front.now)) }
    requires few { IfSome tag (λ n. (0 < n) × (n ≤ 3)) }
    ensures { IfSome result
        (λ object. IsShort octets.now object × (taken_of object ≤ length octets.now)) }
{
    let found = header_at(front, tag?)?;
    if found.taken() > octets.len() {
        return None;
    }
    Some(found)
}

/// Returns the short header at the front after a tag of `count` octets, if there is one.
#[inline(always)]
fn header_at(front: &[u8; FRONT], count: usize) -> Option<ShortHeader>
    requires tag { IsTag (take count front.now) }
    requires some { 0 < count }
    requires few { count ≤ 3 }
    ensures { IfSome result (IsShort front.now) }
{
    let length = length_at(front, count)?;
    Some(ShortHeader {
        tag: Tag::front(front[0], front[1], front[2], count as u8),
        form: length.form,
        header: count as u8 + 1 + length.form.further(),
        is_constructed: is_constructed(front[0]),
        len: length.len,
    })
}

/// Returns the number of octets of the tag at the front, without a branch.
#[inline(always)]
fn tag_at(front: &[u8; FRONT]) -> Option<usize>
    ensures tag { IfSome result (λ n. IsTag (take n front.now)) }
    ensures few { IfSome result (λ n. (0 < n) × (n ≤ 3)) }
{
    let [first, second, third, ..] = *front;
    let is_long = is_long(first);
    let is_longer = is_long & (second >= 0x80);
    let is_tag = (first != 0) & (!is_long | (second % 0x80 != 0)) & (!is_longer | (third < 0x80));
    if !is_tag {
        return None;
    }
    Some(1 + usize::from(is_long) + usize::from(is_longer))
}

/// Returns the number of octets of the tag at the front, by a branch for each number. It is a `usize`, since a
/// processor that writes one octet of a register waits for the others.
#[inline(always)]
fn tag_by_branches(front: &[u8; FRONT]) -> Option<usize>
    ensures tag { IfSome result (λ n. IsTag (take n front.now)) }
    ensures few { IfSome result (λ n. (0 < n) × (n ≤ 3)) }
{
    let [first, second, third, ..] = *front;
    if !is_long(first) {
        return if first == 0 { None } else { Some(1) };
    }
    if second < 0x80 {
        return if second == 0 { None } else { Some(2) };
    }
    if second == 0x80 || third >= 0x80 {
        return None;
    }
    Some(3)
}

/// Returns the length field after a tag of `tag` octets, if it has at most three octets.
#[inline(always)]
fn length_at(front: &[u8; FRONT], tag: usize) -> Option<ShortLength>
    requires { tag ≤ 3 }
    ensures { IfSome result (IsShortLength (drop tag front.now)) }
{
    let (first, second, third) = (front[tag], front[tag + 1], front[tag + 2]);
    match first {
        0x81 => Some(ShortLength {
            form: Form::Two,
            len: u16::from(second),
        }),
        0x82 => Some(ShortLength {
            form: Form::Three,
            len: u16::from(second) * 0x100 + u16::from(third),
        }),
        0x80.. => None,
        _ => Some(ShortLength {
            form: Form::One,
            len: u16::from(first),
        }),
    }
}
