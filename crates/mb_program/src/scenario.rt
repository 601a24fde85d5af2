//! A scenario, from its text to what its run came to.
ghost use Rattle.std.specs.Prelude.{IfErr, IfOk, map, string_bytes};
ghost use Rattle.mb_msg.specs.JournalMode.{retention_of};
ghost use Rattle.mb_program.specs.Answer.{IsRefused};
ghost use Rattle.mb_program.specs.RunOf.{IsRunOf};
ghost use Rattle.mb_report.specs.Keeps.{Keeps};

use crate::fault::fault_of;
use crate::running::{FinishedRun, run};
use mb_msg::JournalMode;
use mb_scenario::{Scenario, read};
use mb_streams::ProgramError;
use std::alloc::Global;
use std::sync::Wait;
use std::thread::Threads;

/// A scenario that was run.
#[derive(Drop)]
pub struct ScenarioRun {
    /// The names of its actors beside the guardian, in the order of their numbers.
    pub names: Vec<String>,
    /// What its run came to.
    pub run: FinishedRun,
}

/// Reads the text of a scenario and runs it, with journals that keep this; of dead letters, and of what is cleaned up, as much is kept. Its errors are those of reading the text and of running it.
pub fn run_scenario<R: Threads + Wait + Sync>(
    rt: &R,
    alloc: Global,
    text: &[u8],
    journal: JournalMode,
) -> Result<ScenarioRun, ProgramError>
    ensures run_of { IfOk result (λ ran. IsRunOf text.now (map string_bytes ran.names.items) ran.run) }
    ensures kept { IfOk result (λ ran. Keeps (retention_of journal) ran.run.report) }
    ensures refused { IfErr result (IsRefused text.now) }
{
    let Scenario {
        mut plan,
        names,
        scripts,
        sends,
        quiet,
    } = read(alloc, text)?;
    plan.journal = journal;
    match run(rt, alloc, plan, scripts, &sends, quiet) {
        Ok(run) => Ok(ScenarioRun { names, run }),
        Err(failed) => Err(ProgramError::Run(fault_of(&failed.error))),
    }
}
