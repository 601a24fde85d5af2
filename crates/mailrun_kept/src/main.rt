//! `mailrun_kept`: `mailrun` with journals that keep their entries, to compare what that costs. Its report is the same.
#![tactic(auto)]

use mb_msg::JournalMode;
use mb_program::{ProgramExit, Streams, run_process};

fn main(rt: HostRuntime) -> ProgramExit {
    let mut streams = Streams::standard(rt.stdin(), rt.stdout(), rt.stderr());
    run_process(&rt, rt.alloc(), JournalMode::Kept, &mut streams)
}
