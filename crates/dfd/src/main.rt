//! The program: `dfd_run::exit_code` over its command line, its standard input and its standard output.
//!
//! # Why
//!
//! - An argument that is not UTF-8 makes the arguments no command.
//! - `main` hands the runtime, the arguments, the two real streams and an open gate to `exit_code` of `dfd_run`, whose contract says which
//!   arguments they are and the number of each status. The rest of `main` has no clause, and `tools/check_statuses` runs it.
#![tactic(auto)]

use dfd_run::{FreeGate, StdinSource, StdoutSink, exit_code};
use std::env;
use std::process::ExitCode;

fn main(rt: HostRuntime) -> ExitCode {
    let mut source = StdinSource::new(rt.stdin());
    let mut sink = StdoutSink::new(rt.stdout());
    let code = exit_code(
        &rt,
        rt.alloc(),
        env::args(&rt),
        &mut source,
        &mut sink,
        &FreeGate,
    );
    ExitCode::from(code)
}
