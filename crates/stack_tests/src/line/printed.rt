//! How the error of a line is printed, which no contract says.

use line_core::{ServeFault, TransceiveFault};
use std::io::ErrorKind;
use test_support::shows;

#[test]
fn faults_of_a_line_are_printed(rt: HostRuntime) {
    let alloc = rt.alloc();
    let failed = TransceiveFault::Line(ErrorKind::BrokenPipe.into());
    assert!(rt; shows(alloc, &failed, "Line: broken pipe"));
    let failed = ServeFault::Line(ErrorKind::TimedOut.into());
    assert!(rt; shows(alloc, &failed, "Line: timed out"));
}
