//! What the program answers to a text.
ghost use Rattle.std.specs.Prelude.{IfErr, IfOk, string_bytes};
ghost use Rattle.mb_program.specs.Answer.{IsReport, IsRefused};

use crate::scenario::{ScenarioRun, run_scenario};
use mb_msg::JournalMode;
use mb_report::report_text;
use mb_streams::ProgramError;
use std::alloc::Global;
use std::sync::Wait;
use std::thread::Threads;

/// The report of a run of the text's scenario, with journals that keep this. Its errors are those of reading the text and of running it, and `NoMemory`.
pub fn answer<R: Threads + Wait + Sync>(
    rt: &R,
    alloc: Global,
    text: &[u8],
    journal: JournalMode,
) -> Result<String, ProgramError>
    ensures report { IfOk result (λ report. IsReport journal text.now (string_bytes report)) }
    ensures refused { IfErr result (IsRefused text.now) }
{
    let ScenarioRun { names, run } = run_scenario(rt, alloc, text, journal)?;
    Ok(report_text(alloc, &run.report, &names)?)
}
