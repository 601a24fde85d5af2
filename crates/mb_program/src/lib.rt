//! The program as a function of its streams: a scenario is read and run, and its report written; or one line says why not.
//!
//! A run of a scenario may have actors of any kind. A system is built from its plan and its actors, each sender sends what the
//! scenario says of it, the workers run the mailboxes until nothing is left to run, and the report tells what became of
//! everything.
#![tactic(auto)]

mod answer;
mod drive;
mod fault;
mod orders;
mod process;
mod running;
mod scenario;

pub use drive::run_program;
pub use mb_streams::{RunFault, Streams, TrackedStream};
pub use process::{ProgramExit, run_process};
pub use running::{FinishedRun, run};
pub use scenario::{ScenarioRun, run_scenario};
