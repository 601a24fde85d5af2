//! A trace as a picture.
use crate::letters::letters_of;
use crate::order::order_of;
use mb_causal_order::{Place, system_causes};
use mb_diagram::{Picture, PictureEntry};
use mb_report::{ActorReport, report_text};
use mb_trace::{Filter, Trace, TraceError, TraceStep, TraceSteps, TurnLength};
use std::alloc::{AllocError, Global};
use std::io::Write;

/// Writes the sequence diagram of the entries and the dead letters that the filter leaves, as an SVG document. From top to bottom the
/// entries stand in the order of the text, and the picture of a run on threads says that it is one that agrees with what caused what.
///
/// The errors: `NoMemory`, `Closed` where whoever reads the output has closed it, and `Os` where writing failed otherwise.
pub fn write_svg<W: Write>(
    alloc: Global,
    trace: &Trace<'_>,
    filter: &Filter<'_>,
    out: &mut W,
) -> Result<(), TraceError> {
    let order = order_of(alloc, trace)?;
    let entries = entries_of(alloc, trace, filter, &order.parts)?;
    let letters = letters_of(alloc, filter, trace.report)?;
    let causes = causes_of(alloc, trace, &entries)?;
    let picture = Picture {
        names: trace.names,
        report: trace.report,
        entries: &entries,
        causes: &causes,
        order: order.kind,
        letters: &letters,
    };
    mb_diagram::write_svg(alloc, out, &picture)?;
    Ok(())
}

/// Writes a page of HTML that needs no other file: the text of the report, that diagram, and the journals as far as the filter leaves them.
///
/// The errors are those of `write_svg`.
pub fn write_html<W: Write>(
    alloc: Global,
    trace: &Trace<'_>,
    filter: &Filter<'_>,
    out: &mut W,
) -> Result<(), TraceError> {
    let order = order_of(alloc, trace)?;
    let entries = entries_of(alloc, trace, filter, &order.parts)?;
    let letters = letters_of(alloc, filter, trace.report)?;
    let causes = causes_of(alloc, trace, &entries)?;
    let picture = Picture {
        names: trace.names,
        report: trace.report,
        entries: &entries,
        causes: &causes,
        order: order.kind,
        letters: &letters,
    };
    let report = report_of(alloc, trace)?;
    mb_diagram::write_html(alloc, out, &picture, report.as_str())?;
    Ok(())
}

/// For each entry the place of the one that sent its system message; none where the journals are not those of a run.
fn causes_of(
    alloc: Global,
    trace: &Trace<'_>,
    entries: &[PictureEntry<'_>],
) -> Result<Vec<Option<usize>>, AllocError> {
    let mut places = Vec::with_capacity(alloc, entries.len())?;
    for entry in entries {
        places.push(Place {
            actor: entry.actor.0 as usize,
            index: entry.index,
        })?;
    }
    let actors: &[ActorReport] = &trace.report.actors;
    match system_causes(alloc, trace.plan, trace.sends, actors, &places)? {
        Some(causes) => Ok(causes),
        None => Ok(Vec::new(alloc)),
    }
}

/// The text of the report, which has an actor for each name and the guardian; of any other it is empty.
fn report_of(alloc: Global, trace: &Trace<'_>) -> Result<String, AllocError> {
    if trace.report.actors.len() != trace.names.len() + 1 {
        return Ok(String::new(alloc));
    }
    report_text(alloc, trace.report, trace.names)
}

/// All entries in this order, each with whether the filter shows it.
fn entries_of<'a>(
    alloc: Global,
    trace: &Trace<'a>,
    filter: &Filter<'_>,
    order: &[TurnLength],
) -> Result<Vec<PictureEntry<'a>>, AllocError> {
    let mut steps = TraceSteps::new(alloc, *trace)?;
    let mut entries = Vec::new(alloc);
    let mut left = filter.limit;
    for part in order {
        left = add_part(&mut entries, &mut steps, filter, part, left)?;
    }
    Ok(entries)
}

/// Adds the entries of a part of the order, of which so many at most are shown. The answer is how many more may be.
fn add_part<'a>(
    entries: &mut Vec<PictureEntry<'a>>,
    steps: &mut TraceSteps<'a>,
    filter: &Filter<'_>,
    part: &TurnLength,
    left: u64,
) -> Result<u64, AllocError> {
    let mut left = left;
    for _ in 0..part.entries {
        if let Some(step) = steps.next_of(part.actor)? {
            let is_shown = left > 0 && filter.passes(&step);
            if is_shown {
                left -= 1;
            }
            entries.push(entry_of(&step, is_shown))?;
        }
    }
    Ok(left)
}

fn entry_of<'a>(step: &TraceStep<'a>, is_shown: bool) -> PictureEntry<'a> {
    PictureEntry {
        actor: step.actor,
        index: step.index,
        entry: step.entry,
        before: step.before,
        after: step.after,
        is_shown,
    }
}
