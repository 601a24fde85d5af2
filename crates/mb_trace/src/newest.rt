//! The newest entries of each actor, where the journals do not keep all.
ghost use Rattle.std.specs.Prelude.{◌≤◌, length, map, string_bytes};
ghost use Rattle.mb_journal.specs.JournalView.{entry_of};
ghost use Rattle.mb_trace.specs.Newest.{actor_text, all_actors_text, entry_text, gone_text, journal_text, kept_text, newest_text};
ghost use Rattle.mb_trace.specs.Output.{IsWritten};

use crate::entry_line::{GoneLine, NewestLines};
use crate::error::TraceError;
use crate::filter::{EntryKinds, Filter, is_of};
use crate::gone_letters::write_gone_letters;
use crate::output::{write_lines, write_whole};
use crate::parts::write_title;
use crate::undelivered::write_rest;
use mb_journal::{EntryRef, Journal};
use mb_msg::ActorId;
use mb_report::{ActorReport, Report};
use std::alloc::Global;
use std::io::Write;

/// The first line.
const NEWEST: &str = "newest entries: each actor by itself, in the order of its journal\n";

/// Writes the entries that the journals keep, actor by actor, with a line that says how many before them are not kept; then how many dead
/// letters of each sender, and of each actor's end, are not kept; then the others, what is left and what is set aside. Which entries of other actors came between, and how an actor stood after an entry, is found by
/// going through whole journals, so this has neither. What the filter leaves out is not written; its limit has no part in it.
///
/// The errors: `NoMemory`, `Closed` where whoever reads the output has closed it, and `Os` where writing failed otherwise. A beginning of
/// the text was written then.
pub fn write_newest<W: Write>(
    alloc: Global,
    names: &[String],
    filter: &Filter<'_>,
    report: &Report,
    out: &mut W,
) -> Result<(), TraceError>
    ensures { IsWritten (W.contents out.old) (W.contents out.new) result (newest_text (map string_bytes names.now) filter.now report.now) }
{
    write_whole(out, NEWEST.as_bytes())?;
    write_actors(alloc, names, filter, &report.actors, out)?;
    write_gone_letters(alloc, names, filter, report, out)?;
    write_rest(alloc, names, filter, report, out)
}

/// Writes the entries of these actors that are kept.
fn write_actors<W: Write>(
    alloc: Global,
    names: &[String],
    filter: &Filter<'_>,
    actors: &[ActorReport],
    out: &mut W,
) -> Result<(), TraceError>
    requires { length actors.now ≤ 64 }
    ensures { IsWritten (W.contents out.old) (W.contents out.new) result (all_actors_text (map string_bytes names.now) filter.now 0 actors.now) }
{
    let mut number: u16 = 0;
    for actor in actors {
        write_actor(alloc, names, filter, ActorId(number), actor, out)?;
        number += 1;
    }
    Ok(())
}

/// Writes the entries of the actor that are kept, below its name, where it is shown.
fn write_actor<W: Write>(
    alloc: Global,
    names: &[String],
    filter: &Filter<'_>,
    id: ActorId,
    actor: &ActorReport,
    out: &mut W,
) -> Result<(), TraceError>
    ensures { IsWritten (W.contents out.old) (W.contents out.new) result (actor_text (map string_bytes names.now) filter.now id.0 actor.now) }
{
    if !filter.has_actor(id.0) {
        return Ok(());
    }
    write_journal(alloc, names, filter.only, id, &actor.journal, out)
}

/// Writes the entries that the actor's journal keeps, below the actor's name.
fn write_journal<W: Write>(
    alloc: Global,
    names: &[String],
    only: EntryKinds,
    id: ActorId,
    journal: &Journal,
    out: &mut W,
) -> Result<(), TraceError>
    ensures { IsWritten (W.contents out.old) (W.contents out.new) result (journal_text (map string_bytes names.now) only id.0 journal.now) }
{
    write_title(alloc, names, "actor", id, out)?;
    write_gone(alloc, journal.first_kept(), out)?;
    write_kept(alloc, names, only, journal, out)
}

/// Writes how many entries are not kept, if there are any.
fn write_gone<W: Write>(alloc: Global, first: usize, out: &mut W) -> Result<(), TraceError>
    ensures { IsWritten (W.contents out.old) (W.contents out.new) result (gone_text first) }
{
    if first == 0 {
        return Ok(());
    }
    write_lines(alloc, &GoneLine { first }, out)
}

/// Writes the entries of the journal that are kept and are of these kinds.
fn write_kept<W: Write>(
    alloc: Global,
    names: &[String],
    only: EntryKinds,
    journal: &Journal,
    out: &mut W,
) -> Result<(), TraceError>
    ensures { IsWritten (W.contents out.old) (W.contents out.new) result (kept_text (map string_bytes names.now) only journal.now) }
{
    let first = journal.first_kept();
    let kept = journal.len() - first;
    for place in 0..kept {
        let Some(entry) = journal.entry(first + place) else {
            return Ok(());
        };
        write_entry(alloc, names, only, &entry, out)?;
    }
    Ok(())
}

/// Writes the lines of an entry, if it is of these kinds.
fn write_entry<W: Write>(
    alloc: Global,
    names: &[String],
    only: EntryKinds,
    entry: &EntryRef<'_>,
    out: &mut W,
) -> Result<(), TraceError>
    ensures { IsWritten (W.contents out.old) (W.contents out.new) result (entry_text (map string_bytes names.now) only (entry_of entry.now)) }
{
    if !is_of(only, entry) {
        return Ok(());
    }
    let lines = NewestLines {
        names,
        entry: *entry,
    };
    write_lines(alloc, &lines, out)
}
