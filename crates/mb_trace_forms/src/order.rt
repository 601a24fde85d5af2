//! In which order entries are shown.
ghost use Rattle.std.specs.Prelude.{◌≡◌, ◌≤◌, IfOk, filter, length, map};
ghost use Rattle.mb_trace_forms.specs.Order.{AreEntries, HasOrder, HasTurnOrder, is_among, journal_lengths, part_steps, single};

use mb_causal_order::{MergedOrder, Place, merged_order};
use mb_diagram::EntryOrder;
use mb_msg::ActorId;
use mb_report::ActorReport;
use mb_trace::{Trace, TurnLength, cover_journals};
use std::alloc::{AllocError, Global};

/// An order of the entries of all journals.
#[derive(Drop)]
pub(crate) struct ShownOrder {
    /// Whose entries come, and how many of them, one part after another.
    pub(crate) parts: Vec<TurnLength>,
    /// Which order it is.
    pub(crate) kind: EntryOrder,
}

/// The order of the text: the turns of a quiet run; of a run on threads one that agrees with what caused what. Where the turns do not have
/// each entry once, there is no such order or none is found, it is actor by actor. The only error: memory was refused.
pub(crate) fn order_of(alloc: Global, trace: &Trace<'_>) -> Result<ShownOrder, AllocError>
    ensures { IfOk result (λ order. AreEntries trace.now trace.now.turns order.kind (part_steps trace.now order.parts.items)) }
{
    match trace.turns {
        Some(turns) => order_of_turns(alloc, trace, turns),
        None => order_on_threads(alloc, trace),
    }
}

/// The order of a quiet run with these turns.
fn order_of_turns(
    alloc: Global,
    trace: &Trace<'_>,
    turns: &[TurnLength],
) -> Result<ShownOrder, AllocError>
    ensures { IfOk result (λ order. HasTurnOrder trace.now turns.now order.kind (part_steps trace.now order.parts.items)) }
{
    let actors: &[ActorReport] = &trace.report.actors;
    if cover_journals(turns, actors) {
        return Ok(ShownOrder {
            parts: Vec::from_slice(alloc, turns)?,
            kind: EntryOrder::Turns,
        });
    }
    Ok(ShownOrder {
        parts: journals_of(alloc, actors)?,
        kind: EntryOrder::Uncovered,
    })
}

/// The order of a run on threads.
pub(crate) fn order_on_threads(alloc: Global, trace: &Trace<'_>) -> Result<ShownOrder, AllocError>
    ensures { IfOk result (λ order. HasOrder trace.now order.kind (part_steps trace.now order.parts.items)) }
{
    let actors: &[ActorReport] = &trace.report.actors;
    match merged_order(alloc, trace.plan, trace.sends, actors)? {
        MergedOrder::Found(places) => Ok(ShownOrder {
            parts: entries_at(alloc, &places, actors.len())?,
            kind: EntryOrder::Causes,
        }),
        MergedOrder::NoOrder => Ok(ShownOrder {
            parts: journals_of(alloc, actors)?,
            kind: EntryOrder::Unordered,
        }),
        MergedOrder::NotKept | MergedOrder::NotOfPlan | MergedOrder::NotRemade => Ok(ShownOrder {
            parts: journals_of(alloc, actors)?,
            kind: EntryOrder::Actors,
        }),
    }
}

/// The entries at these places, each as a part of its own. There are this many actors; a place of no other is one.
fn entries_at(alloc: Global, places: &[Place], actors: usize) -> Result<Vec<TurnLength>, AllocError>
    requires { actors ≤ 64 }
    ensures { IfOk result (λ parts. parts.items ≡ map single (filter (is_among actors) places.now)) }
{
    let mut parts = Vec::new(alloc);
    for place in places {
        if place.actor < actors {
            parts.push(TurnLength {
                actor: ActorId(place.actor as u16),
                entries: 1,
            })?;
        }
    }
    Ok(parts)
}

/// The journals, each as one part.
pub(crate) fn journals_of(
    alloc: Global,
    actors: &[ActorReport],
) -> Result<Vec<TurnLength>, AllocError>
    requires { length actors.now ≤ 64 }
    ensures { IfOk result (λ parts. parts.items ≡ journal_lengths 0 actors.now) }
{
    let mut journals = Vec::new(alloc);
    let mut number: u16 = 0;
    for actor in actors {
        journals.push(TurnLength {
            actor: ActorId(number),
            entries: actor.journal.len() as u64,
        })?;
        number += 1;
    }
    Ok(journals)
}
