//! The program mkpasswd. This module has what only a process has: its arguments, the standard devices, a seed from the
//! system, and an exit status. Everything else is in the crate mkpasswd.
#![tactic(auto)]

use mkpasswd::command::{report_fault, run_command};
use mkpasswd::device::{Input, Output};
use mkpasswd::fault::Fault;
use prims_core::meter::Meter;
use rand::make_rng;
use rand::rngs::StdRng;
use std::env;
use std::process::ExitCode;

// The limit on the I/O calls of a run. It is the greatest limit that `run_command` accepts.
const IO_CALL_LIMIT: u64 = 1 << 40;

fn main(rt: HostRuntime) -> ExitCode {
    let mut faults = Output::new(rt.stderr());
    // The first argument is the program's name, which is dropped.
    let arguments: Result<Vec<String>, Fault> = match env::args(&rt) {
        Ok(mut given) => {
            let _ = given.next();
            given
                .collect(rt.alloc())
                .map_err(|error| Fault::from(error))
        }
        Err(error) => Err(Fault::from(error)),
    };
    let status = match arguments {
        Ok(arguments) => {
            // `run_command` calls `make` only if it hashes or checks passwords, so `--help` works without a seed.
            let mut generator: Option<StdRng> = None;
            let mut make = || make_rng::<StdRng, HostRuntime>(&rt).ok();
            run_command(
                rt.alloc(),
                arguments.as_slice(),
                &mut Input::new(rt.stdin()),
                &mut Output::new(rt.stdout()),
                &mut faults,
                &mut generator,
                &mut make,
                &mut Meter::new(),
                IO_CALL_LIMIT,
            )
        }
        Err(fault) => report_fault(&fault, &mut faults),
    };
    ExitCode::from(status)
}
