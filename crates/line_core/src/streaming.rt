//! A line that writes its octets to a writer and reads them from a reader.

ghost use Rattle.std.specs.Prelude.{◌≡◌, ◌≢◌, ◌≤◌, ◌<◌, ◌+◌, ◌⊎◌, ℕ, Option, List, [], ◌∷◌, length, take, slice_index, IfOk, IfErr, OnOk, Ok, Err};
ghost use Rattle.octet_core.specs.Failures.{Counts, ReadFails, HasFailed, next_count, most_failures};
ghost use Rattle.std.specs.IoError.{error_kind};
ghost use Rattle.std.specs.Io.KnownBytes.{Consumes, Appends, IsAtEnd};
ghost use Rattle.line_core.specs.declared.streaming.AfterRead.TheVariants.{More};
ghost use Rattle.line_core.specs.Line.{Adds, FitsRoom, arrival_of};
ghost use Rattle.line_core.specs.Service.{Happens, came, sending};
ghost use Rattle.line_core.specs.Streams.{EndsBlock, Moves, Carries, HasCarried, HasServed, IsBrokenOff, IsFramed, IsHeard, IsTold, IsWholeBlock, MovesOn, came_of, wire_of, source_of, sink_of};

use crate::line::{Received, TerminalLine};
use crate::serving::CardLine;
use block_core::block_len;
use octet_core::{Sink, Source, write_octets};
use std::io::{self, ErrorKind};

/// A line over a reader and a writer that can't see a silence. It ends a block where LEN says, and never looks at what
/// follows. So one damaged LEN can make another block of it. It is suitable for packets, pipes and tests, where octets
/// arrive as they were sent. Over a serial port use a session in steps, such as those of session_core.
///
/// It is a `TerminalLine` for a terminal, and a `CardLine` for a card.
///
/// The waiting time of `transceive` isn't passed on: the reader decides how long it waits for a block. With a reader
/// that blocks forever, a terminal waits forever if the card is silent. So set a limit on the reader of a terminal, no
/// shorter than the longest waiting time that the card may ask for. If a call of the reader fails with `TimedOut` or
/// `WouldBlock` before the first octet, that is the end of the waiting time: nothing came.
///
/// A block is written whole. What comes is read up to its end, which its third octet determines. The reader is asked
/// for NAD, PCB and LEN, and then for LEN + 1 octets, so what follows the block stays unread. If the reader ended or
/// failed after the first octets of a block, these octets are passed on. The error is `WriteZero` if the writer failed,
/// or the reader's own error if it failed otherwise before the first octet. A failed call isn't retried.
///
/// The two kinds of line differ if the reader ends before the first octet, or fails with `UnexpectedEof` there. For a
/// terminal, whose block then has no answer, the line fails with `UnexpectedEof`. For a card the result is `Nothing`:
/// no more comes, and `serve` ends with `Ok`. Since `Nothing` ends serving, the reader of a card must wait for the next
/// block without a limit. It may time out only if no more comes.
///
/// Contracts see what each call wrote and read. They see what of it was whole by the number of calls of the reader and
/// the writer that failed. `said` has this for every talk, so the clauses of `exchange` and `serve` have it too.
/// Contracts don't see the error of a failed call, since a `Source` doesn't state it.
#[derive(Debug, Drop)]
pub struct UntimedLine<R, W> {
    source: R,
    sink: W,
}

impl<R, W> UntimedLine<R, W> {
    /// Makes a line over a reader and a writer.
    pub fn new(source: R, sink: W) -> Self
        ensures source { source_of result ≡ source }
        ensures sink { sink_of result ≡ sink }
    {
        UntimedLine { source, sink }
    }

    /// Returns the reader and the writer.
    pub fn into_parts(self) -> (R, W)
        ensures { result ≡ (source_of self, sink_of self) }
    {
        (self.source, self.sink)
    }
}

impl<R: Source, W: Sink> TerminalLine for UntimedLine<R, W> {
    ghost said = { λ line first talks.
        HasCarried (wire_of R.remaining R.failures W.contents W.failures first) talks
        (wire_of R.remaining R.failures W.contents W.failures line) };

    fn transceive(&mut self, block: &[u8], _waiting: u8, room: &mut [u8]) -> io::Result<Received>
        requires { 259 ≤ length room.old }
        ensures fits { IfOk result (λ heard. FitsRoom heard room.new) }
        ensures said { Adds (λ first talks.
            HasCarried (wire_of R.remaining R.failures W.contents W.failures first) talks
            (wire_of R.remaining R.failures W.contents W.failures self.old))
            (λ first talks. HasCarried
            (wire_of R.remaining R.failures W.contents W.failures first) talks
            (wire_of R.remaining R.failures W.contents W.failures self.new))
            (record { sent = block.now; waiting = _waiting; arrival = arrival_of result room.new }
            ∷ []) }
        ensures carried { Carries (wire_of R.remaining R.failures W.contents W.failures self.old)
            (record { sent = block.now; waiting = _waiting; arrival = arrival_of result room.new })
            (wire_of R.remaining R.failures W.contents W.failures self.new) }
    {
        match write_block(&mut self.sink, block) {
            Ok(()) => read_block(&mut self.source, room),
            Err(fault) => Err(fault),
        }
    }
}

impl<R: Source, W: Sink> CardLine for UntimedLine<R, W> {
    ghost said = { λ line first events.
        HasServed (wire_of R.remaining R.failures W.contents W.failures first) events
        (wire_of R.remaining R.failures W.contents W.failures line) };

    fn receive(&mut self, room: &mut [u8]) -> io::Result<Received>
        requires { 259 ≤ length room.old }
        ensures fits { IfOk result (λ heard. FitsRoom heard room.new) }
        ensures said { Happens (λ first events.
            HasServed (wire_of R.remaining R.failures W.contents W.failures first) events
            (wire_of R.remaining R.failures W.contents W.failures self.old))
            (λ first events. HasServed
            (wire_of R.remaining R.failures W.contents W.failures first) events
            (wire_of R.remaining R.failures W.contents W.failures self.new))
            (came (arrival_of result room.new) ∷ []) }
        ensures moved { Moves (wire_of R.remaining R.failures W.contents W.failures self.old)
            (came (arrival_of result room.new))
            (wire_of R.remaining R.failures W.contents W.failures self.new) }
        ensures failed { IfErr result (λ fault. error_kind fault ≢ ErrorKind.UnexpectedEof) }
    {
        over_at_end(read_block(&mut self.source, room))
    }

    fn send(&mut self, block: &[u8]) -> io::Result<()>
        ensures said { Happens (λ first events.
            HasServed (wire_of R.remaining R.failures W.contents W.failures first) events
            (wire_of R.remaining R.failures W.contents W.failures self.old))
            (λ first events. HasServed
            (wire_of R.remaining R.failures W.contents W.failures first) events
            (wire_of R.remaining R.failures W.contents W.failures self.new))
            (sending block.now result ∷ []) }
        ensures moved { Moves (wire_of R.remaining R.failures W.contents W.failures self.old)
            (sending block.now result)
            (wire_of R.remaining R.failures W.contents W.failures self.new) }
        ensures failed { IfErr result (λ fault. error_kind fault ≡ ErrorKind.WriteZero) }
    {
        write_block(&mut self.sink, block)
    }
}

/// Writes a whole block. The error is `WriteZero` if the writer fails before the last octet.
fn write_block<W: Sink>(sink: &mut W, block: &[u8]) -> io::Result<()>
    ensures all { OnOk result (Appends (W.contents sink.old) (W.contents sink.new) block.now) }
    ensures part { IfErr result (λ _. (count : ℕ) × (count < length block.now)
        × Appends (W.contents sink.old) (W.contents sink.new) (take count block.now)) }
    ensures failed { IfErr result (λ fault. error_kind fault ≡ ErrorKind.WriteZero) }
    ensures cause { IfErr result (λ _. HasFailed (W.failures sink.old) (W.failures sink.new)) }
    ensures none_failed { OnOk result (W.failures sink.new ≡ W.failures sink.old) }
    ensures failed_once { IfErr result
        (λ _. W.failures sink.new ≡ next_count (W.failures sink.old)) }
{
    match write_octets(sink, block) {
        Ok(()) => Ok(()),
        Err(_) => Err(ErrorKind::WriteZero.into()),
    }
}

/// Returns what a card takes this read for. If the reader ended before the first octet, no more comes.
fn over_at_end(read: io::Result<Received>) -> io::Result<Received>
    ensures fits { (room : List ℕ) → IfOk read (λ heard. FitsRoom heard room)
        → IfOk result (λ heard. FitsRoom heard room) }
    ensures came { (room : List ℕ)
        → came_of (arrival_of result room) ≡ came_of (arrival_of read room) }
    ensures heard { IfOk read (λ heard. result ≡ Ok heard) }
    ensures other { IfErr read (λ fault. error_kind fault ≢ ErrorKind.UnexpectedEof
        → result ≡ Err fault) }
    ensures over { IfErr read (λ fault. error_kind fault ≡ ErrorKind.UnexpectedEof
        → result ≡ Ok Received.Nothing) }
    ensures failed { IfErr result (λ fault. (read ≡ Err fault)
        × (error_kind fault ≢ ErrorKind.UnexpectedEof)) }
    ensures told { (room : List ℕ) (before after : ℕ) (left : Option (List ℕ))
        → IsTold (arrival_of read room) before after left
        → IsHeard (arrival_of result room) before after left }
{
    match read {
        Ok(heard) => Ok(heard),
        Err(fault) => match fault.kind() {
            ErrorKind::UnexpectedEof => Ok(Received::Nothing),
            _ => Err(fault),
        },
    }
}

/// Reads a block to the front of the buffer.
fn read_block<R: Source>(source: &mut R, room: &mut [u8]) -> io::Result<Received>
    requires { 259 ≤ length room.old }
    ensures fits { IfOk result (λ heard. FitsRoom heard room.new) }
    ensures came { Consumes (R.remaining source.old) (R.remaining source.new)
        (came_of (arrival_of result room.new)) }
    ensures framed { IsFramed (came_of (arrival_of result room.new)) }
    ensures whole { IfOk result (λ heard. R.failures source.new ≡ R.failures source.old
        → R.failures source.old < most_failures → IsAtEnd (R.remaining source.new)
        ⊎ IsWholeBlock (came_of (arrival_of result room.new))) }
    ensures silent { result ≡ Ok Received.Nothing
        → HasFailed (R.failures source.old) (R.failures source.new) }
    ensures once { IsWholeBlock (came_of (arrival_of result room.new))
        → R.failures source.new ≡ R.failures source.old }
    ensures told { IsTold (arrival_of result room.new) (R.failures source.old)
        (R.failures source.new) (R.remaining source.new) }
{
    let mut count = 0;
    while count < end_of(&room[..count]) {
        match after_read(count, read_more(source, room, count)) {
            AfterRead::More(more) => count += more,
            AfterRead::Over(heard) => return heard,
        }
    }
    Ok(Received::Octets(count))
}

/// The result of one call of the reader.
#[derive(Drop)]
enum AfterRead {
    /// This many more octets came, at least one.
    More(usize),
    /// No more octets of the block come, and this is the result for the block.
    Over(io::Result<Received>),
}

/// Reads octets of the block by one call, after the `count` octets at the front of the buffer.
fn read_more<R: Source>(source: &mut R, room: &mut [u8], count: usize) -> io::Result<usize>
    requires room { 259 ≤ length room.old }
    requires count { count ≤ 259 }
    requires framed { IsFramed (take count room.old) }
    ensures long { length room.new ≡ length room.old }
    ensures most { IfOk result (λ more. count + more ≤ 259) }
    ensures moved { MovesOn (R.remaining source.old) (R.remaining source.new) room.old room.new
        count result }
    ensures framed { IfOk result (λ more. IsFramed (take (count + more) room.new)) }
    ensures counted { Counts (ReadFails result) (R.failures source.old) (R.failures source.new) }
    ensures end { IfOk result (λ more. more ≡ 0
        → IsAtEnd (R.remaining source.new) ⊎ IsWholeBlock (take (count + more) room.new)) }
{
    let end = end_of(&room[..count]);
    source.read(&mut room[count..end])
}

/// Returns what follows from a call of the reader after `count` octets of the block. The end of the reader's octets
/// counts as the error `UnexpectedEof`.
fn after_read(count: usize, read: io::Result<usize>) -> AfterRead
    ensures more { IfOk read (λ more. more ≢ 0 → result ≡ More more) }
    ensures ended { IfOk read (λ more. more ≡ 0
        → EndsBlock count (λ fault. error_kind fault ≡ ErrorKind.UnexpectedEof) result) }
    ensures failed { IfErr read (λ fault. EndsBlock count (λ own. own ≡ fault) result) }
{
    match read {
        Ok(0) => AfterRead::Over(broken_off(count, ErrorKind::UnexpectedEof.into())),
        Ok(more) => AfterRead::More(more),
        Err(fault) => AfterRead::Over(broken_off(count, fault)),
    }
}

/// Returns the result for a block if no more of its octets come after the first `count`.
fn broken_off(count: usize, fault: io::Error) -> io::Result<Received>
    ensures fits { (room : List ℕ) → count ≤ length room
        → IfOk result (λ heard. FitsRoom heard room) }
    ensures came { (room : List ℕ) → came_of (arrival_of result room) ≡ take count room }
    ensures begun { 0 < count → result ≡ Ok (Received.Octets count) }
    ensures timed_out { count ≡ 0 → error_kind fault ≡ ErrorKind.TimedOut
        → result ≡ Ok Received.Nothing }
    ensures would_block { count ≡ 0 → error_kind fault ≡ ErrorKind.WouldBlock
        → result ≡ Ok Received.Nothing }
    ensures failed { count ≡ 0 → error_kind fault ≢ ErrorKind.TimedOut
        → error_kind fault ≢ ErrorKind.WouldBlock → result ≡ Err fault }
    ensures broken { IsBrokenOff count fault result }
{
    if count > 0 {
        return Ok(Received::Octets(count));
    }
    match fault.kind() {
        ErrorKind::TimedOut | ErrorKind::WouldBlock => Ok(Received::Nothing),
        _ => Err(fault),
    }
}

/// Returns the place where the block with these first octets ends, as far as they determine it: 3 for fewer than 3 of
/// them.
fn end_of(octets: &[u8]) -> usize
    ensures head { length octets.now < 3 → result ≡ 3 }
    ensures rest { 3 ≤ length octets.now → result ≡ slice_index octets.now 2 + 4 }
    ensures most { result ≤ 259 }
{
    match octets {
        [_, _, len, ..] => block_len(*len),
        _ => 3,
    }
}
