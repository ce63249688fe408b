//! The program `scard`. Its standard output and its exit status come from program.
#![tactic(auto)]

mod notice;

use notice::Announced;
use program::{Counted, serve};
use std::process::ExitCode;

fn main(rt: HostRuntime) -> ExitCode {
    let stdin = Counted::new(rt.stdin());
    serve(
        &rt,
        &mut Announced::new(&rt, stdin),
        &mut Counted::new(rt.stdout()),
    )
}
