//! The program of a federal student aid office and its desks.
#![tactic(auto)]

use run_program::start;
use std::process::ExitCode;

fn main(rt: HostRuntime) -> ExitCode {
    start(&rt, &rt)
}
