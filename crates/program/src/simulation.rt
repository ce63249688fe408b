//! Simulated sessions.

ghost use Rattle.std.specs.Prelude.{◌≡◌, ◌<◌, ◌≤◌, length, IfOk, string_bytes};
ghost use Rattle.exchange_text.specs.Text.{exchange_text};
ghost use Rattle.program_octets.specs.declared.status.Status.TheVariants as ended;
ghost use Rattle.simulator.specs.Simulation.{IsSimulated};
ghost use Rattle.program.specs.Files.{largest_file};
ghost use Rattle.program.specs.Judged.{AreOf};
ghost use Rattle.program.specs.SimulationTexts.{blocks_in, is_block, IsExchangeNote, IsFile, IsLinesNote, IsSimulationNote, Simulates, SimulatesLines};

use crate::asked::{large_note, pairs_note, session_note};
use crate::exchange::answer_with;
use crate::file::LARGEST_FILE;
use crate::judged::WithExplanation;
use exchange_core::{Exchange, Line, write_exchange};
use explainer::unsent_note;
use octet_core::Named;
use program_octets::{Answer, Status};
use program_words::{Fault, Session, read_pair_lines};
use simulator::{SimulationFault, simulate};
use std::alloc::{AllocError, Global};

/// Simulates a session. Returns its exchange, or why there is none. Each event adds at least an octet to the text.
fn exchange_of(alloc: Global, session: &Session) -> Result<Exchange, SimulationFault>
    ensures simulated { IsSimulated largest_file session.now result }
{
    simulate(alloc, session, LARGEST_FILE)
}

/// Returns the file of a session's exchange, or why there is none, with a note if one is asked for.
pub(crate) fn simulated(
    alloc: Global,
    explains: bool,
    session: &Session,
) -> Result<WithExplanation, AllocError>
    ensures { IfOk result (AreOf (Simulates session.now) (IsSimulationNote session.now)) }
{
    match exchange_of(alloc, session) {
        Ok(exchange) => file_with_note(alloc, explains, session, &exchange),
        Err(SimulationFault::Refused(fault)) => {
            let answer = Answer::refused_as(fault.name());
            let explanation = session_note(alloc, explains, session.atr.get());
            Ok(WithExplanation {
                answer,
                explanation,
            })
        }
        Err(SimulationFault::TooLarge) => {
            let answer = Answer::faulted(Fault::TooLarge);
            let explanation = large_note(alloc, explains, LARGEST_FILE);
            Ok(WithExplanation {
                answer,
                explanation,
            })
        }
        Err(SimulationFault::Memory) => Err(AllocError),
    }
}

/// Returns the file of the exchange of a session whose pairs are the lines of a text, with a note if one is asked for.
pub(crate) fn lines_simulated(
    alloc: Global,
    explains: bool,
    session: Session,
    text: &[u8],
) -> Result<WithExplanation, AllocError>
    ensures { IfOk result (AreOf (SimulatesLines session text.now)
        (IsLinesNote session text.now)) }
{
    match read_pair_lines(alloc, text) {
        Ok(pairs) => simulated(alloc, explains, &session.with_pairs(pairs)),
        Err(Fault::Memory) => Err(AllocError),
        Err(fault) => {
            let answer = Answer::faulted(fault);
            let explanation = pairs_note(alloc, explains, text);
            Ok(WithExplanation {
                answer,
                explanation,
            })
        }
    }
}

/// Returns the text of an exchange, or a fault if it is larger than a file.
pub(crate) fn file(alloc: Global, exchange: &Exchange) -> Result<Answer, AllocError>
    ensures { IfOk result (λ answer. IsFile exchange.now answer.said answer.status) }
{
    let text = write_exchange(alloc, exchange)?;
    if text.len() > LARGEST_FILE {
        return Ok(Answer::faulted(Fault::TooLarge));
    }
    Ok(answer_with(text))
}

/// Returns the text of a session's exchange, or a fault if it is larger than a file, with a note.
fn file_with_note(
    alloc: Global,
    explains: bool,
    session: &Session,
    exchange: &Exchange,
) -> Result<WithExplanation, AllocError>
    ensures { IfOk result (AreOf (IsFile exchange.now)
        (IsExchangeNote session.now exchange.now)) }
{
    let answer = file(alloc, exchange)?;
    let explanation = exchange_note(alloc, explains, session, exchange, answer.status);
    Ok(WithExplanation {
        answer,
        explanation,
    })
}

/// Returns the note on the exchange of a session, by the status of its text.
fn exchange_note(
    alloc: Global,
    explains: bool,
    session: &Session,
    exchange: &Exchange,
    status: Status,
) -> Result<String, AllocError>
    requires past { status ≡ ended.Fault → largest_file < length (exchange_text exchange.now) }
    requires inside { (status ≡ ended.Fault → ⊥)
        → length (exchange_text exchange.now) ≤ largest_file }
    ensures { IfOk result (λ note. IsExchangeNote session.now exchange.now (string_bytes note)) }
{
    if !explains {
        return Err(AllocError);
    }
    match status {
        Status::Fault => large_note(alloc, explains, LARGEST_FILE),
        Status::Accepted | Status::Refused => unsent_note(alloc, session, sent_in(exchange)),
    }
}

/// Returns how many blocks both ends sent in an exchange.
fn sent_in(exchange: &Exchange) -> usize
    ensures { result ≡ blocks_in exchange.now.lines }
{
    let lines = exchange.lines().get();
    lines.iter().filter(|line| is_block(line)).count()
}

/// Whether a line is a block that an end sends.
fn is_block(line: &Line) -> bool
    ensures { result ≡ is_block line.now }
{
    matches!(line, Line::FromTerminal { .. } | Line::FromCard { .. })
}
