//! The tidy form of a forest, written to a buffer of the caller.

ghost use Rattle.std.specs.Prelude.{◌≡◌, ℕ, ◌+◌, ◌-◌, ◌^◌, ◌<◌, ◌≤◌, List, [], ◌++◌, length, take, IfOk, IfErr};
ghost use Rattle.octet_core.specs.Grammar.{Refuses, whole};
ghost use Rattle.tlv_core.specs.Forest.{IsForest};
ghost use Rattle.tlv_core.specs.Reasons.{IsReason};
ghost use Rattle.tlv_core.specs.Flat.{part_seen};
ghost use Rattle.tlv_core.specs.Tidy.{PutsTidy};
ghost use Rattle.tlv_core.specs.TidyForm.{Growing, IsKeptOf, MayBePut, IsTidyOf, closed_to, open_after, with_part, with_length, nothing_yet};

use crate::form::Form;
use crate::part::Part;
use crate::part_walk::PartWalk;
use crate::progress::DEEPEST;
use crate::reason::TlvReason;
use crate::walk::Keep;
use arrayvec::ArrayVec;
use octet_core::Stop;

/// Writes the tidy form of a forest to the front of a buffer, and returns how many octets it has. `octets` are the
/// encoding of the forest, at most `max` of them; `max` is at most 1,048,576. The error is `Short` at their end if a
/// forest could continue there, or `At` the first octet after which none can.
///
/// The buffer stays as it was if it is too small, or if the octets are refused. The tidy form never has more octets
/// than the forest.
///
/// The call allocates nothing and doesn't recurse. It goes over the octets twice. It moves the octets of an object
/// once for each object around it, by the size of that one's length field.
pub fn put_tidy(octets: &[u8], max: usize, out: &mut [u8]) -> Result<usize, Stop<TlvReason>>
    requires { max ≤ 1048576 }
    ensures tidied { IfOk result (PutsTidy max octets.now out.old out.new) }
    ensures refused { IfErr result (Refuses whole (IsForest max) (IsReason max) octets.now) }
    ensures stays { IfErr result (λ _. out.new ≡ out.old) }
{
    let count = put_objects(octets, max, &mut [])?;
    if count <= out.len() {
        let _put = put_objects(octets, max, out);
    }
    Ok(count)
}

/// Writes the tidy form while the buffer has room for all that is written by then. Returns how many octets the whole
/// form has.
fn put_objects(octets: &[u8], max: usize, out: &mut [u8]) -> Result<usize, Stop<TlvReason>>
    requires { max ≤ 1048576 }
    ensures ok { IfOk result (IsTidyOf max octets.now out.old out.new) }
    ensures refused { IfErr result (Refuses whole (IsForest max) (IsReason max) octets.now) }
{
    let mut walk = PartWalk::new(max);
    let mut form = TidyForm::new();
    while let Some(part) = walk.next_part(octets)? {
        form.take(&Part::kept(part, octets), out);
    }
    form.close_to(1, out);
    Ok(form.end as usize)
}

/// The state of a tidy form that is being written to a buffer.
#[derive(Drop)]
struct TidyForm {
    /// The places after the tags of the open objects, outermost first. Their length fields go there.
    starts: ArrayVec<u32, DEEPEST>,
    /// How many octets the form has so far, whether or not the buffer has room for them.
    end: u32,
}

impl TidyForm {
    /// Starts before the first object.
    fn new() -> TidyForm
        ensures { (old : List ℕ) → IsKeptOf old old result nothing_yet }
    {
        TidyForm {
            starts: ArrayVec::new(),
            end: 0,
        }
    }

    /// Writes the next object: the whole object if it is primitive, its tag if it is constructed.
    fn take(&mut self, part: &Part<'_>, out: &mut [u8])
        ensures { (old : List ℕ) (g : Growing) → IsKeptOf old out.old self.old g
            → IsKeptOf old out.new self.new (with_part g (part_seen part.now)) }
    {
        self.close_to(part.depth, out);
        self.end = append(part.tag.octets(), self.end, out);
        if part.tag.is_constructed() {
            self.open();
        } else {
            self.end = append_value(part.value, self.end, out);
        }
    }

    /// Opens the object whose tag was written last. No object of a forest is too deep for `starts`.
    fn open(&mut self)
        ensures { (old new : List ℕ) (g : Growing) → IsKeptOf old new self.old g
            → IsKeptOf old new self.new (open_after g.opened g.list) }
    {
        if self.starts.len() < DEEPEST {
            self.starts.push(self.end);
        }
    }

    /// Closes the objects at this depth and deeper, the innermost first.
    fn close_to(&mut self, depth: usize, out: &mut [u8])
        ensures { (old : List ℕ) (g : Growing) → IsKeptOf old out.old self.old g
            → IsKeptOf old out.new self.new (closed_to depth g.opened g.list) }
    {
        while self.starts.len() >= depth {
            match self.starts.pop() {
                Some(start) => self.end = close(start, self.end, out),
                None => return,
            }
        }
    }
}

/// Writes octets after those that end at `end`, if the buffer has room. Returns where they end.
fn append(octets: &[u8], end: u32, out: &mut [u8]) -> u32
    requires { length octets.now < 2 ^ 32 }
    ensures { (old before : List ℕ) → MayBePut old out.old end before
        → MayBePut old out.new result (before ++ octets.now) }
{
    let start = end as usize;
    let end = start + octets.len();
    if end <= out.len() {
        out[start..end].copy_from_slice(octets);
    }
    kept_place(end)
}

/// Writes the shortest length field for a value, and the value after it.
fn append_value(value: &[u8], end: u32, out: &mut [u8]) -> u32
    requires { length value.now < 2 ^ 32 }
    ensures { (old before : List ℕ) → MayBePut old out.old end before
        → MayBePut old out.new result (before ++ with_length value.now) }
{
    let field = Form::shortest_field(value.len());
    let end = append(field.as_slice(), end, out);
    append(value, end, out)
}

/// Inserts the shortest length field before a value. The value is all that is written from `start` on.
fn close(start: u32, end: u32, out: &mut [u8]) -> u32
    ensures { (old before value : List ℕ) → start ≡ length before
        → MayBePut old out.old end (before ++ value)
        → MayBePut old out.new result (before ++ with_length value) }
{
    let len = end.saturating_sub(start) as usize;
    let field = Form::shortest_field(len);
    let start = start as usize;
    let end = start + field.len() + len;
    if end <= out.len() {
        insert(field.as_slice(), &mut out[start..end]);
    }
    kept_place(end)
}

/// Inserts octets at the front. The others move back, and the last ones are lost.
fn insert(octets: &[u8], out: &mut [u8])
    requires { length octets.now ≤ length out.old }
    ensures { out.new ≡ octets.now ++ take (length out.old - length octets.now) out.old }
{
    let len = out.len() - octets.len();
    out.copy_within(..len, octets.len());
    out[..octets.len()].copy_from_slice(octets);
}

/// Returns a place in the tidy form as the state keeps it. No tidy form has a place beyond the greatest `u32`.
fn kept_place(place: usize) -> u32
    ensures { place < 2 ^ 32 → result ≡ place }
{
    place.min(u32::MAX as usize) as u32
}
