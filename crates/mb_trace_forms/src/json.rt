//! A trace as lines of JSON.
ghost use Rattle.std.specs.Prelude.{ℕ, List, OnOk, map, string_bytes, take};
ghost use Rattle.mb_diagram.specs.declared.order.EntryOrder.{EntryOrder as Order};
ghost use Rattle.mb_trace.specs.Cursors.{left_of};
ghost use Rattle.mb_trace.specs.Output.{IsWritten};
ghost use Rattle.mb_trace.specs.Steps.{Step, step_data};
ghost use Rattle.mb_trace.specs.Whole.{names_in};
ghost use Rattle.mb_trace_forms.specs.Json.{IsJson, entries_json, step_json};
ghost use Rattle.mb_trace_forms.specs.Order.{AreEntries, HasOrder, HasTurnOrder, part_steps};
ghost use Rattle.mb_trace_forms.specs.Way.{GoesPast};

use crate::json_rest::write_rest;
use crate::order::{journals_of, order_on_threads};
use crate::shown::Shown;
use mb_msg::ActorId;
use mb_report::ActorReport;
use mb_trace::{Filter, Trace, TraceError, TraceStep, TurnLength, cover_journals, write_whole};
use mb_trace_json::entry_line;
use std::alloc::Global;
use std::io::Write;

/// Writes the trace as lines of JSON: one for each entry that the filter leaves, in the order of the text; then one for each dead letter,
/// for what is left, and for what is set aside. `docs/trace.schema.json` describes a line. Each is written as it is made.
///
/// The errors: `NoMemory`, `Closed` where whoever reads the output has closed it, and `Os` where writing failed otherwise. A beginning of
/// these lines was written then.
pub fn write_json<W: Write>(
    alloc: Global,
    trace: &Trace<'_>,
    filter: &Filter<'_>,
    out: &mut W,
) -> Result<(), TraceError>
    ensures { (text : List ℕ) × IsJson trace.now filter.now text × IsWritten (W.contents out.old) (W.contents out.new) result text }
{
    write_entries(alloc, trace, filter, out)?;
    write_rest(alloc, trace.names, filter, trace.report, out)
}

/// Writes the entries.
fn write_entries<W: Write>(
    alloc: Global,
    trace: &Trace<'_>,
    filter: &Filter<'_>,
    out: &mut W,
) -> Result<(), TraceError>
    ensures { (order : Order) × (steps : List Step) × AreEntries trace.now trace.now.turns order steps
        × IsWritten (W.contents out.old) (W.contents out.new) result (entries_json (names_in trace.now) filter.now filter.now.limit steps) }
{
    match trace.turns {
        Some(turns) => write_turns(alloc, trace, filter, turns, out),
        None => write_on_threads(alloc, trace, filter, out),
    }
}

/// Writes the entries of a quiet run with these turns: turn by turn where the turns have each entry exactly once, else actor by actor.
fn write_turns<W: Write>(
    alloc: Global,
    trace: &Trace<'_>,
    filter: &Filter<'_>,
    turns: &[TurnLength],
    out: &mut W,
) -> Result<(), TraceError>
    ensures { (order : Order) × (steps : List Step) × HasTurnOrder trace.now turns.now order steps
        × IsWritten (W.contents out.old) (W.contents out.new) result (entries_json (names_in trace.now) filter.now filter.now.limit steps) }
{
    let actors: &[ActorReport] = &trace.report.actors;
    if cover_journals(turns, actors) {
        return write_parts(alloc, trace, filter, turns, out);
    }
    let journals = journals_of(alloc, actors)?;
    write_parts(alloc, trace, filter, &journals, out)
}

/// Writes the entries of a run on threads: in one order in which each stands after what caused it, or where none is found actor by actor.
fn write_on_threads<W: Write>(
    alloc: Global,
    trace: &Trace<'_>,
    filter: &Filter<'_>,
    out: &mut W,
) -> Result<(), TraceError>
    ensures { (order : Order) × (steps : List Step) × HasOrder trace.now order steps
        × IsWritten (W.contents out.old) (W.contents out.new) result (entries_json (names_in trace.now) filter.now filter.now.limit steps) }
{
    let order = order_on_threads(alloc, trace)?;
    write_parts(alloc, trace, filter, &order.parts, out)
}

/// Writes the entries of these parts that are shown, part by part.
fn write_parts<W: Write>(
    alloc: Global,
    trace: &Trace<'_>,
    filter: &Filter<'_>,
    parts: &[TurnLength],
    out: &mut W,
) -> Result<(), TraceError>
    ensures { IsWritten (W.contents out.old) (W.contents out.new) result
        (entries_json (names_in trace.now) filter.now filter.now.limit (part_steps trace.now parts.now)) }
{
    let mut shown = Shown::new(alloc, trace, filter)?;
    for part in parts {
        write_part(alloc, &mut shown, trace.names, *part, out)?;
    }
    Ok(())
}

/// Writes the entries of a part that are shown.
fn write_part<W: Write>(
    alloc: Global,
    shown: &mut Shown<'_>,
    names: &[String],
    part: TurnLength,
    out: &mut W,
) -> Result<(), TraceError>
    ensures text { IsWritten (W.contents out.old) (W.contents out.new) result
        (entries_json (map string_bytes names.now) shown.old.filter shown.old.left (take part.entries (left_of shown.old.steps part.actor.0))) }
    ensures past { OnOk result (GoesPast part.actor.0 part.entries shown.old shown.new) }
{
    for _entry in 0..part.entries {
        write_next(alloc, shown, names, part.actor, out)?;
    }
    Ok(())
}

/// Writes the next entry of this actor's journal, if there is one and it is shown.
fn write_next<W: Write>(
    alloc: Global,
    shown: &mut Shown<'_>,
    names: &[String],
    actor: ActorId,
    out: &mut W,
) -> Result<(), TraceError>
    ensures text { IsWritten (W.contents out.old) (W.contents out.new) result
        (entries_json (map string_bytes names.now) shown.old.filter shown.old.left (take 1 (left_of shown.old.steps actor.0))) }
    ensures past { OnOk result (GoesPast actor.0 1 shown.old shown.new) }
{
    let Some(step) = shown.pass(actor)? else {
        return Ok(());
    };
    write_step(alloc, names, &step, out)
}

/// Writes the line of an entry.
fn write_step<W: Write>(
    alloc: Global,
    names: &[String],
    step: &TraceStep<'_>,
    out: &mut W,
) -> Result<(), TraceError>
    ensures { IsWritten (W.contents out.old) (W.contents out.new) result (step_json (map string_bytes names.now) (step_data step.now)) }
{
    let line = entry_line(
        alloc,
        names,
        step.actor,
        step.index,
        step.after,
        &step.entry,
    )?;
    write_whole(out, line.as_bytes())?;
    Ok(())
}
