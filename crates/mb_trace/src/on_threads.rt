//! The entries of a run on threads.
ghost use Rattle.std.specs.Prelude.{ℕ, ◌≡◌, ◌++◌, [], List, codes, if◌then◌else◌, map, string_bytes};
ghost use Rattle.mb_trace.specs.Output.{IsWritten};
ghost use Rattle.mb_trace.specs.Steps.{step_data};
ghost use Rattle.mb_trace.specs.Text.{is_above, step_text, title_text};
ghost use Rattle.mb_trace.specs.Whole.{HasEntries, order_text};

use crate::by_actor::write_by_actor;
use crate::error::TraceError;
use crate::filter::Filter;
use crate::output::write_whole;
use crate::parts::{write_entry, write_title};
use crate::step::TraceStep;
use crate::steps::TraceSteps;
use crate::trace::Trace;
use mb_causal_order::{MergedOrder, Place, merged_order};
use mb_msg::ActorId;
use std::alloc::Global;
use std::io::Write;

/// The first line of the trace of a run on threads.
const ON_THREADS: &str =
    "on threads: one order that agrees with what caused what, not that of the clock\n";

/// The first line where there is no such order.
const NOT_ORDERED: &str =
    "on threads: there is no order that agrees with what caused what; each actor by itself, in the order of its journal\n";

/// The first line where no such order is found, though there may be one.
const NOT_FOUND: &str =
    "on threads: no order found that agrees with what caused what; each actor by itself, in the order of its journal\n";

/// Writes the entries of a run on threads: in one order in which each stands after what caused it; actor by actor where there is none, or none is
/// found.
pub(crate) fn write_on_threads<W: Write>(
    alloc: Global,
    trace: &Trace<'_>,
    filter: &Filter<'_>,
    out: &mut W,
) -> Result<(), TraceError>
    ensures { (entries : List ℕ) × HasEntries trace.now filter.now entries × IsWritten (W.contents out.old) (W.contents out.new) result entries }
{
    match merged_order(alloc, trace.plan, trace.sends, &trace.report.actors)? {
        MergedOrder::Found(order) => write_in_order(alloc, trace, filter, &order, out),
        MergedOrder::NoOrder => write_by_actor(alloc, trace, filter, NOT_ORDERED, out),
        MergedOrder::NotKept | MergedOrder::NotOfPlan | MergedOrder::NotRemade => {
            write_by_actor(alloc, trace, filter, NOT_FOUND, out)
        }
    }
}

/// Writes the entries in this order. Those of an actor one after another have its name above them.
fn write_in_order<W: Write>(
    alloc: Global,
    trace: &Trace<'_>,
    filter: &Filter<'_>,
    order: &[Place],
    out: &mut W,
) -> Result<(), TraceError>
    ensures { IsWritten (W.contents out.old) (W.contents out.new) result (order_text trace.now filter.now order.now) }
{
    write_whole(out, ON_THREADS.as_bytes())?;
    let mut steps = TraceSteps::new(alloc, *trace)?;
    let mut left = filter.limit;
    let mut above = None;
    for place in order {
        if place.actor >= trace.report.actors.len() {
            continue;
        }
        let Some(step) = steps.next_of(ActorId(place.actor as u16))? else {
            continue;
        };
        if left == 0 {
            continue;
        }
        if !filter.passes(&step) {
            continue;
        }
        write_next(alloc, trace.names, above, &step, out)?;
        above = Some(step.actor.0);
        left -= 1;
    }
    Ok(())
}

/// Writes an entry, below its actor's name unless that stands above.
fn write_next<W: Write>(
    alloc: Global,
    names: &[String],
    above: Option<u16>,
    step: &TraceStep<'_>,
    out: &mut W,
) -> Result<(), TraceError>
    ensures { IsWritten (W.contents out.old) (W.contents out.new) result
        ((if is_above above step.now.actor.0 then [] else title_text (map string_bytes names.now) (codes "actor") step.now.actor.0)
        ++ step_text (map string_bytes names.now) (step_data step.now)) }
{
    if stands_above(above, step.actor.0) {
        return write_entry(alloc, names, step, out);
    }
    write_title(alloc, names, "actor", step.actor, out)?;
    write_entry(alloc, names, step, out)
}

/// Whether the name of the actor of this number is the one that stands above.
fn stands_above(above: Option<u16>, actor: u16) -> bool
    ensures { result ≡ is_above above actor }
{
    match above {
        Some(number) => number == actor,
        None => false,
    }
}
