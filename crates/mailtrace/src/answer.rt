//! Running a scenario and showing its run.
ghost use Rattle.std.specs.Prelude.{◌≡◌, IfOk, false, true};
ghost use Rattle.mb_msg.specs.JournalMode.{retention_of};
ghost use Rattle.mb_report.specs.Keeps.{Keeps, KeepsAllIf};

use crate::argument_error::ArgumentError;
use crate::details::details_of;
use crate::options::Options;
use crate::refusal::{Failure, no_memory, not_written};
use crate::turn_lengths::turn_lengths;
use mb_msg::JournalMode;
use mb_program::{FinishedRun, ScenarioRun, TrackedStream, run_scenario};
use mb_scenario::{Scenario, read};
use mb_streams::read_input;
use mb_trace::{Filter, Trace, TraceError, TurnLength, write_newest};
use mb_trace_forms::{TraceFormat, write_trace};
use std::alloc::Global;
use std::io::{BufWriter, Read, Write};
use std::sync::Wait;
use std::thread::Threads;

/// Reads the scenario, runs it, and shows its run.
pub(crate) fn show<T: Threads + Wait + Sync, R: Read, W: Write + Drop>(
    rt: &T,
    alloc: Global,
    reader: &mut TrackedStream<R>,
    options: &Options,
    writer: W,
) -> Result<(), Failure>
    requires working { reader.old.failed ≡ false }
{
    let text = read_input(alloc, reader)?;
    if let Some(last) = options.last {
        let ran = run(rt, alloc, &text, JournalMode::Last(last))?;
        return show_newest(alloc, &ran, options, writer);
    }
    let ran = run(rt, alloc, &text, JournalMode::Kept)?;
    // The run has taken the scenario's plan and scripts: the text is read once more.
    let scenario = read(alloc, &text)?;
    show_run(alloc, &scenario, &ran.run, options, writer)
}

/// Runs the scenario of this text, with journals of this mode; of dead letters, and of what is cleaned up, as much is kept.
fn run<T: Threads + Wait + Sync>(
    rt: &T,
    alloc: Global,
    text: &[u8],
    mode: JournalMode,
) -> Result<ScenarioRun, Failure>
    ensures kept { IfOk result (λ ran. Keeps (retention_of mode) ran.run.report) }
{
    match run_scenario(rt, alloc, text, mode) {
        Ok(ran) => Ok(ran),
        Err(error) => {
            // Without memory for more the fault itself is still told.
            let details = details_of(alloc, text, &error).unwrap_or(String::new(alloc));
            Err(Failure::Scenario { error, details })
        }
    }
}

/// Shows the newest entries of each actor, which its journal keeps. An order of those of all actors is found by going through whole
/// journals, so there is none here.
fn show_newest<W: Write + Drop>(
    alloc: Global,
    ran: &ScenarioRun,
    options: &Options,
    writer: W,
) -> Result<(), Failure> {
    let actors = numbers_of(alloc, &options.actors, &ran.names)?;
    let filter = Filter {
        actors: actors.as_slice(),
        only: options.only,
        limit: options.limit,
    };
    answer_of(write_kept(alloc, ran, &filter, writer))
}

/// Writes the entries that the journals of the run keep.
fn write_kept<W: Write + Drop>(
    alloc: Global,
    ran: &ScenarioRun,
    filter: &Filter<'_>,
    writer: W,
) -> Result<(), TraceError> {
    let mut out = BufWriter::new(alloc, writer)?;
    write_newest(alloc, &ran.names, filter, &ran.run.report, &mut out)?;
    out.flush()?;
    Ok(())
}

/// Whoever closes the output has read enough. All else that fails is a failure.
fn answer_of(written: Result<(), TraceError>) -> Result<(), Failure> {
    match written {
        Ok(()) | Err(TraceError::Closed) => Ok(()),
        Err(TraceError::NoMemory) => Err(no_memory()),
        Err(TraceError::Os) => Err(not_written()),
    }
}

/// Shows the run of a scenario.
fn show_run<W: Write + Drop>(
    alloc: Global,
    scenario: &Scenario,
    run: &FinishedRun,
    options: &Options,
    writer: W,
) -> Result<(), Failure>
    requires kept { KeepsAllIf true run.now.report }
{
    let actors = numbers_of(alloc, &options.actors, &scenario.names)?;
    let lengths = match &run.turns {
        Some(turns) if turns.is_kept() => Some(turn_lengths(alloc, turns.kept())?),
        Some(_) | None => None,
    };
    let trace = trace_of(scenario, run, lengths.as_deref());
    let filter = Filter {
        actors: actors.as_slice(),
        only: options.only,
        limit: options.limit,
    };
    answer_of(write(alloc, &trace, &filter, options.format, writer))
}

/// The trace of the run of a scenario, with these turns.
fn trace_of<'a>(
    scenario: &'a Scenario,
    run: &'a FinishedRun,
    turns: Option<&'a [TurnLength]>,
) -> Trace<'a>
    requires kept { KeepsAllIf true run.now.report }
{
    Trace {
        names: scenario.names.as_slice(),
        plan: &scenario.plan,
        sends: scenario.sends.as_slice(),
        scripts: scenario.scripts.as_slice(),
        report: &run.report,
        turns,
    }
}

/// Writes the trace in this form.
fn write<W: Write + Drop>(
    alloc: Global,
    trace: &Trace<'_>,
    filter: &Filter<'_>,
    format: TraceFormat,
    writer: W,
) -> Result<(), TraceError> {
    let mut out = BufWriter::new(alloc, writer)?;
    write_trace(alloc, trace, filter, format, &mut out)?;
    out.flush()?;
    Ok(())
}

/// The numbers of the actors with these names, of which each is one of the scenario's or the guardian's.
fn numbers_of(alloc: Global, wanted: &[String], names: &[String]) -> Result<Vec<u16>, Failure> {
    let mut numbers = Vec::new(alloc);
    for name in wanted {
        match number_of(name.as_str(), names) {
            Some(number) => numbers.push(number)?,
            None => {
                let unknown = ArgumentError::UnknownName(name.clone()?);
                return Err(Failure::Arguments(unknown));
            }
        }
    }
    Ok(numbers)
}

fn number_of(wanted: &str, names: &[String]) -> Option<u16> {
    if wanted == "guardian" {
        return Some(0);
    }
    let mut number = 1;
    for name in names {
        if name.as_str() == wanted {
            return Some(number);
        }
        number = number.saturating_add(1);
    }
    None
}
