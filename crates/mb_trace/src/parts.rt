//! The lines of entries, part by part: turn by turn, or journal by journal.
ghost use Rattle.std.specs.Prelude.{ℕ, ◌≡◌, ◌≤◌, ◌-◌, ◌==◌, ◌++◌, [], List, IfOk, OnOk, codes, drop, filter as filtered, if◌then◌else◌, length, map, string_bytes, take};
ghost use Rattle.mb_trace.specs.Cursors.{left_of};
ghost use Rattle.mb_trace.specs.Output.{IsWritten};
ghost use Rattle.mb_trace.specs.Steps.{Step, step_data, steps_in};
ghost use Rattle.mb_trace.specs.Text.{is_shown, journal_parts, parts_text, shown, step_text, title_text, titled, turn_parts};
ghost use Rattle.mb_trace.specs.Whole.{names_in, turns_text};

use crate::entry_line::EntryLines;
use crate::error::TraceError;
use crate::filter::Filter;
use crate::output::write_lines;
use crate::step::TraceStep;
use crate::steps::TraceSteps;
use crate::title_line::TitleLine;
use crate::trace::{Trace, TurnLength};
use mb_msg::ActorId;
use mb_report::ActorReport;
use std::alloc::Global;
use std::io::Write;

/// Writes the entries of these turns, in order.
pub(crate) fn write_turns<W: Write>(
    alloc: Global,
    trace: &Trace<'_>,
    filter: &Filter<'_>,
    turns: &[TurnLength],
    out: &mut W,
) -> Result<(), TraceError>
    ensures { IsWritten (W.contents out.old) (W.contents out.new) result (turns_text trace.now filter.now turns.now) }
{
    let mut steps = TraceSteps::new(alloc, *trace)?;
    let mut left = filter.limit;
    for turn in turns {
        let part = Part {
            title: "turn",
            actor: turn.actor,
            entries: turn.entries,
        };
        left = write_part(alloc, &mut steps, trace.names, filter, part, left, out)?;
    }
    Ok(())
}

/// Writes the journals of these actors, actor by actor.
pub(crate) fn write_journals<W: Write>(
    alloc: Global,
    trace: &Trace<'_>,
    filter: &Filter<'_>,
    actors: &[ActorReport],
    out: &mut W,
) -> Result<(), TraceError>
    requires few { length actors.now ≤ 64 }
    requires all { trace.now.report.now.actors.items ≡ actors.now }
    ensures { IsWritten (W.contents out.old) (W.contents out.new) result
        (parts_text (names_in trace.now) (codes "actor") filter.now filter.now.limit (journal_parts (steps_in trace.now) 0 actors.now)) }
{
    let mut steps = TraceSteps::new(alloc, *trace)?;
    let mut left = filter.limit;
    let mut number: u16 = 0;
    for actor in actors {
        let part = Part {
            title: "actor",
            actor: ActorId(number),
            entries: actor.journal.len() as u64,
        };
        left = write_part(alloc, &mut steps, trace.names, filter, part, left, out)?;
        number += 1;
    }
    Ok(())
}

/// So many entries of an actor one after another, below its name.
#[derive(Clone, Copy)]
struct Part {
    title: &'static str,
    actor: ActorId,
    entries: u64,
}

/// Writes a part, of which at most `left` entries are shown. It answers how many more may be shown. A part of which no entry is shown
/// has no title.
fn write_part<W: Write>(
    alloc: Global,
    steps: &mut TraceSteps<'_>,
    names: &[String],
    filter: &Filter<'_>,
    part: Part,
    left: u64,
    out: &mut W,
) -> Result<u64, TraceError>
    ensures text { IsWritten (W.contents out.old) (W.contents out.new) result
        (titled (map string_bytes names.now) part.title.now part.actor.0
        (shown filter.now left (take part.entries (left_of steps.old part.actor.0)))) }
    ensures may_show { IfOk result (λ may. may ≡ left - length (filtered (is_shown filter.now) (take part.entries (left_of steps.old part.actor.0)))) }
    ensures steps { OnOk result ((a : ℕ) → left_of steps.new a ≡ drop (if a == part.actor.0 then part.entries else 0) (left_of steps.old a)) }
{
    let mut may_show = left;
    let mut has_title = false;
    for _entry in 0..part.entries {
        let Some(step) = steps.next_of(part.actor)? else {
            return Ok(may_show);
        };
        if may_show == 0 {
            continue;
        }
        if !filter.passes(&step) {
            continue;
        }
        write_below(alloc, names, part, has_title, &step, out)?;
        has_title = true;
        may_show -= 1;
    }
    Ok(may_show)
}

/// Writes an entry of a part, below the part's title unless it has that.
fn write_below<W: Write>(
    alloc: Global,
    names: &[String],
    part: Part,
    has_title: bool,
    step: &TraceStep<'_>,
    out: &mut W,
) -> Result<(), TraceError>
    ensures { IsWritten (W.contents out.old) (W.contents out.new) result
        ((if has_title then [] else title_text (map string_bytes names.now) part.title.now part.actor.0)
        ++ step_text (map string_bytes names.now) (step_data step.now)) }
{
    if !has_title {
        write_title(alloc, names, part.title, part.actor, out)?;
        return write_entry(alloc, names, step, out);
    }
    write_entry(alloc, names, step, out)
}

/// Writes the name of an actor behind a word, as a line.
pub(crate) fn write_title<W: Write>(
    alloc: Global,
    names: &[String],
    title: &str,
    actor: ActorId,
    out: &mut W,
) -> Result<(), TraceError>
    ensures { IsWritten (W.contents out.old) (W.contents out.new) result (title_text (map string_bytes names.now) title.now actor.0) }
{
    let line = TitleLine {
        names,
        title,
        actor,
    };
    write_lines(alloc, &line, out)
}

/// Writes the lines of an entry.
pub(crate) fn write_entry<W: Write>(
    alloc: Global,
    names: &[String],
    step: &TraceStep<'_>,
    out: &mut W,
) -> Result<(), TraceError>
    ensures { IsWritten (W.contents out.old) (W.contents out.new) result (step_text (map string_bytes names.now) (step_data step.now)) }
{
    let lines = EntryLines {
        names,
        entry: step.entry,
        before: step.before,
        after: step.after,
    };
    write_lines(alloc, &lines, out)
}
