//! `mailexplore`: reads a small scenario, and prints each report that some order of its steps leads to.
#![tactic(auto)]

mod answer;
mod copies;
mod failure;
mod lines;
mod options;
mod running;
mod schedule;
mod text_setup;

use crate::running::explore_program;
use mb_streams::TrackedStream;
use std::process::ExitCode;

fn main(rt: HostRuntime) -> ExitCode {
    ExitCode::from(explore_program(
        &rt,
        rt.alloc(),
        &mut TrackedStream::new(rt.stdin()),
        rt.stdout(),
        &mut rt.stderr(),
    ))
}
