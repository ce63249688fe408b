//! The program on a system: its words, its streams and its exit status.

ghost use Rattle.std.specs.Prelude.{◌≡◌, IfErr};
ghost use Rattle.std.specs.Process.{exit_status};
ghost use Rattle.program.specs.Calls.{calls_of};
ghost use Rattle.program.specs.Hosts.{Does, IsWithoutWords};
ghost use Rattle.program_octets.specs.Statuses.{exit_number};
ghost use Rattle.program_octets.specs.declared.status.Status.{Status as AnyStatus};

use crate::program::{report, run};
use octet_core::{Sink, Source};
use program_octets::Status;
use program_words::Fault;
use std::env::{self, Env};
use std::io::ErrorKind;
use std::process::ExitCode;

/// Runs the program with the words of the system. The first word is the program's name. If a word isn't UTF-8, the
/// answer is `fault: words`.
///
/// No contract says which words the system gives. So the contract says that the text and the exit status are right for
/// some words, or for a fault of the system's words.
pub fn serve<H, R, W>(rt: &H, reader: &mut R, writer: &mut W) -> ExitCode
where
    H: Env + AllocGlobal,
    R: Source,
    W: Sink,
    ensures { (status : AnyStatus) × (exit_status result ≡ exit_number status)
        × Does (calls_of R.remaining R.failures reader.old reader.new) (calls_of W.contents W.failures writer.old writer.new) status }
{
    let status = done(rt, reader, writer);
    ExitCode::from(status.number())
}

/// Runs the program with the words of the system.
fn done<H, R, W>(rt: &H, reader: &mut R, writer: &mut W) -> Status
where
    H: Env + AllocGlobal,
    R: Source,
    W: Sink,
    ensures { Does (calls_of R.remaining R.failures reader.old reader.new)
        (calls_of W.contents W.failures writer.old writer.new) result }
{
    match words(rt) {
        Ok(words) => run(rt.alloc(), words, reader, writer),
        Err(fault) => report(fault, writer),
    }
}

/// Returns the words of the system.
fn words<H: Env + AllocGlobal>(rt: &H) -> Result<Vec<String>, Fault>
    ensures { IfErr result IsWithoutWords }
{
    match env::args(rt) {
        Ok(words) => Ok(words.collect(rt.alloc())?),
        Err(error) if error.kind() == ErrorKind::OutOfMemory => Err(Fault::Memory),
        Err(_) => Err(Fault::Words),
    }
}
