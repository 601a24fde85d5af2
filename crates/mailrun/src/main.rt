//! `mailrun`: reads a scenario, runs its actors, and prints the report. The journals count their entries and keep none, since the report has
//! counts alone.
#![tactic(auto)]

use mb_msg::JournalMode;
use mb_program::{ProgramExit, Streams, run_process};

fn main(rt: HostRuntime) -> ProgramExit {
    let mut streams = Streams::standard(rt.stdin(), rt.stdout(), rt.stderr());
    run_process(&rt, rt.alloc(), JournalMode::Counted, &mut streams)
}
