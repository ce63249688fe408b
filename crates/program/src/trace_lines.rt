//! The lines of a trace, judged as its octets come.

ghost use Rattle.std.specs.Prelude.{◌≡◌, ◌≤◌, ◌<◌, ◌+◌, ◌-◌, ◌^◌, ◌++◌, ◌∷◌, [], ℕ, List, None, OnOk, length};
ghost use Rattle.program.specs.Calls.{calls_of};
ghost use Rattle.program.specs.TraceLines.{lines_of, open_number, ComesTo, HasCome, ReadsLines, Takes};
ghost use Rattle.trace_judge.specs.declared.standing.Scope.{Scope as AnyScope};
ghost use Rattle.judge_times.specs.Waiting.{Offered};

use crate::pieces::{MOST_PIECES, PIECE, read_piece};
use exchange_core::ExchangeFault;
use octet_core::Source;
use program_words::Fault;
use std::alloc::{AllocError, Global};
use trace_judge::{JudgeState, Offer, Scope};

/// The state after some octets of a trace.
#[derive(Drop)]
pub(crate) struct TraceLines {
    /// The judgment on the lines so far, if none is faulty.
    pub(crate) standing: JudgeState,
    /// The octets of the unfinished line, or of the first faulty one.
    pub(crate) line: Vec<u8>,
    /// The fault of the first faulty line. The lines after it aren't judged.
    pub(crate) fault: Option<ExchangeFault>,
}

/// Judges each line of an input for a card that offers this, and reads the input to its end. The lines after a faulty
/// one are read and not judged.
///
/// `\n` ends a line, and the last line needs none. Only one line is kept at a time.
pub(crate) fn read_lines<R: Source>(
    alloc: Global,
    offer: Offer,
    scope: Scope,
    reader: &mut R,
) -> Result<TraceLines, Fault>
    ensures { ReadsLines offer scope (calls_of R.remaining R.failures reader.old reader.new)
        result }
{
    let mut lines = TraceLines {
        standing: JudgeState::new(alloc, offer, scope),
        line: Vec::new(alloc),
        fault: None,
    };
    let mut room = [0; PIECE];
    for _turn in 0..MOST_PIECES {
        let count = read_piece(reader, &mut room)?;
        if count == 0 {
            lines.last(alloc)?;
            return Ok(lines);
        }
        lines.feed(alloc, &room[..count])?;
    }
    Err(Fault::TooLarge)
}

impl TraceLines {
    /// Takes the octets of a piece, and judges the lines that end in it.
    fn feed(&mut self, alloc: Global, piece: &[u8]) -> Result<(), AllocError>
        requires { open_number self.old.fault self.old.standing.number + length piece.now
            < 2 ^ 64 - 1 }
        ensures come { OnOk result ((offered : Offered) (scope : AnyScope) (read : List ℕ)
            → HasCome offered scope read self.old.standing self.old.line.items self.old.fault
            → HasCome offered scope (read ++ piece.now) self.new.standing self.new.line.items
            self.new.fault) }
        ensures number { OnOk result (open_number self.new.fault self.new.standing.number
            ≤ open_number self.old.fault self.old.standing.number + length piece.now) }
    {
        for octet in piece {
            self.take(alloc, *octet)?;
        }
        Ok(())
    }

    /// Takes an octet, and judges the line that it ends, if it ends one. After a faulty line it is passed over.
    fn take(&mut self, alloc: Global, octet: u8) -> Result<(), AllocError>
        requires { open_number self.old.fault self.old.standing.number < 2 ^ 64 - 1 }
        ensures come { OnOk result ((offered : Offered) (scope : AnyScope) (read : List ℕ)
            → HasCome offered scope read self.old.standing self.old.line.items self.old.fault
            → HasCome offered scope (read ++ (octet ∷ [])) self.new.standing self.new.line.items
            self.new.fault) }
        ensures number { OnOk result (open_number self.new.fault self.new.standing.number
            ≤ open_number self.old.fault self.old.standing.number + 1) }
    {
        if self.fault.is_some() {
            return Ok(());
        }
        if octet == b'\n' {
            return self.end(alloc);
        }
        self.line.push(octet)?;
        Ok(())
    }

    /// Judges the unfinished line, and begins another, or keeps the line if it is faulty.
    fn end(&mut self, alloc: Global) -> Result<(), AllocError>
        requires sound { self.old.fault ≡ None }
        requires few { self.old.standing.number < 2 ^ 64 - 1 }
        ensures taken { OnOk result (Takes self.old.standing self.old.line.items
            self.new.standing self.new.line.items self.new.fault) }
        ensures number { OnOk result (open_number self.new.fault self.new.standing.number
            ≤ self.old.standing.number + 1) }
    {
        match self.standing.take(alloc, self.line.as_slice()) {
            Ok(()) => {
                self.line.clear();
                Ok(())
            }
            Err(fault) if fault == ExchangeFault::Memory => Err(AllocError),
            Err(fault) => {
                self.fault = Some(fault);
                Ok(())
            }
        }
    }

    /// Judges the last line, unless a line before it is faulty. It needs no line end, and no octets.
    fn last(&mut self, alloc: Global) -> Result<(), AllocError>
        requires { open_number self.old.fault self.old.standing.number < 2 ^ 64 - 1 }
        ensures { OnOk result ((offered : Offered) (scope : AnyScope) (read : List ℕ)
            → HasCome offered scope read self.old.standing self.old.line.items self.old.fault
            → ComesTo offered scope (lines_of read) self.new.standing
            self.new.line.items self.new.fault) }
    {
        if self.fault.is_some() {
            return Ok(());
        }
        self.end(alloc)
    }
}
