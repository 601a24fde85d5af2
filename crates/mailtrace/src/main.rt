//! `mailtrace`: reads a scenario, runs its actors, and prints what came to each of them and what became of it.
#![tactic(auto)]

mod answer;
mod argument_error;
mod details;
mod options;
mod refusal;
mod running;
mod turn_lengths;

use crate::running::trace_program;
use mb_program::TrackedStream;
use std::process::ExitCode;

fn main(rt: HostRuntime) -> ExitCode {
    ExitCode::from(trace_program(
        &rt,
        rt.alloc(),
        &mut TrackedStream::new(rt.stdin()),
        rt.stdout(),
        &mut rt.stderr(),
    ))
}
