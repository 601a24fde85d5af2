//! The lines of JSON at the end of a trace: dead letters, what is left, and what is set aside.
ghost use Rattle.std.specs.Prelude.{◌≤◌, ◌++◌, length, map, string_bytes, true};
ghost use Rattle.std.specs.List.{flat_map};
ghost use Rattle.mb_report.specs.Keeps.{KeepsAllIf};
ghost use Rattle.mb_trace.specs.Output.{IsWritten};
ghost use Rattle.mb_trace.specs.Undelivered.{where_shown};
ghost use Rattle.mb_trace_forms.specs.JsonRest.{all_aside_json, all_left_json, aside_json, left_json, letter_json, queued_json, rest_json, set_aside_json};

use crate::json_ends::{write_left_line, write_letter_line, write_set_aside_line};
use crate::kinds::{shows_envelopes, shows_system_messages};
use crate::letters::letters_of;
use mb_msg::{ActorId, DeadLetter, Envelope, SysMsg};
use mb_report::{ActorReport, Report};
use mb_trace::{Filter, TraceError};
use std::alloc::Global;
use std::io::Write;

/// Writes the dead letters, the envelopes that are left, and the system messages that are set aside, as far as the filter leaves them.
pub(crate) fn write_rest<W: Write>(
    alloc: Global,
    names: &[String],
    filter: &Filter<'_>,
    report: &Report,
    out: &mut W,
) -> Result<(), TraceError>
    requires kept { KeepsAllIf true report.now }
    ensures { IsWritten (W.contents out.old) (W.contents out.new) result (rest_json (map string_bytes names.now) filter.now report.now) }
{
    let letters = letters_of(alloc, filter, report)?;
    write_letters(alloc, names, &letters, out)?;
    write_others(alloc, names, filter, &report.actors, out)
}

/// Writes these dead letters.
fn write_letters<W: Write>(
    alloc: Global,
    names: &[String],
    letters: &[DeadLetter],
    out: &mut W,
) -> Result<(), TraceError>
    ensures { IsWritten (W.contents out.old) (W.contents out.new) result (flat_map (letter_json (map string_bytes names.now)) letters.now) }
{
    for letter in letters {
        write_letter_line(alloc, names, letter, out)?;
    }
    Ok(())
}

/// Writes what is left, and what is set aside.
fn write_others<W: Write>(
    alloc: Global,
    names: &[String],
    filter: &Filter<'_>,
    actors: &[ActorReport],
    out: &mut W,
) -> Result<(), TraceError>
    requires { length actors.now ≤ 64 }
    ensures { IsWritten (W.contents out.old) (W.contents out.new) result
        (all_left_json (map string_bytes names.now) filter.now actors.now ++ set_aside_json (map string_bytes names.now) filter.now actors.now) }
{
    write_all_left(alloc, names, filter, actors, out)?;
    write_set_aside(alloc, names, filter, actors, out)
}

/// Writes the envelopes that are left in the queues of these actors, if they are shown.
fn write_all_left<W: Write>(
    alloc: Global,
    names: &[String],
    filter: &Filter<'_>,
    actors: &[ActorReport],
    out: &mut W,
) -> Result<(), TraceError>
    ensures { IsWritten (W.contents out.old) (W.contents out.new) result (all_left_json (map string_bytes names.now) filter.now actors.now) }
{
    if shows_envelopes(filter.only) {
        return write_queues(alloc, names, filter, actors, out);
    }
    Ok(())
}

/// Writes the envelopes that are left in the queues of these actors.
fn write_queues<W: Write>(
    alloc: Global,
    names: &[String],
    filter: &Filter<'_>,
    actors: &[ActorReport],
    out: &mut W,
) -> Result<(), TraceError>
    ensures { IsWritten (W.contents out.old) (W.contents out.new) result (flat_map (queued_json (map string_bytes names.now) filter.now) actors.now) }
{
    for actor in actors {
        write_left(alloc, names, filter, &actor.left, out)?;
    }
    Ok(())
}

/// Writes these envelopes, which are left in a queue.
fn write_left<W: Write>(
    alloc: Global,
    names: &[String],
    filter: &Filter<'_>,
    left: &[Envelope],
    out: &mut W,
) -> Result<(), TraceError>
    ensures { IsWritten (W.contents out.old) (W.contents out.new) result (flat_map (left_json (map string_bytes names.now) filter.now) left.now) }
{
    for envelope in left {
        write_left_line(alloc, names, filter, envelope, out)?;
    }
    Ok(())
}

/// Writes the system messages that are set aside at these actors, if they are shown.
fn write_set_aside<W: Write>(
    alloc: Global,
    names: &[String],
    filter: &Filter<'_>,
    actors: &[ActorReport],
    out: &mut W,
) -> Result<(), TraceError>
    requires { length actors.now ≤ 64 }
    ensures { IsWritten (W.contents out.old) (W.contents out.new) result (set_aside_json (map string_bytes names.now) filter.now actors.now) }
{
    if shows_system_messages(filter.only) {
        return write_all_aside(alloc, names, filter, actors, out);
    }
    Ok(())
}

/// Writes the system messages that are set aside at these actors.
fn write_all_aside<W: Write>(
    alloc: Global,
    names: &[String],
    filter: &Filter<'_>,
    actors: &[ActorReport],
    out: &mut W,
) -> Result<(), TraceError>
    requires { length actors.now ≤ 64 }
    ensures { IsWritten (W.contents out.old) (W.contents out.new) result (all_aside_json (map string_bytes names.now) filter.now 0 actors.now) }
{
    let mut number: u16 = 0;
    for actor in actors {
        write_aside(alloc, names, filter, ActorId(number), &actor.aside, out)?;
        number += 1;
    }
    Ok(())
}

/// Writes these system messages, which are set aside at an actor, where it is shown.
fn write_aside<W: Write>(
    alloc: Global,
    names: &[String],
    filter: &Filter<'_>,
    actor: ActorId,
    aside: &[(u64, SysMsg)],
    out: &mut W,
) -> Result<(), TraceError>
    ensures { IsWritten (W.contents out.old) (W.contents out.new) result
        (where_shown filter.now actor.0 (flat_map (aside_json (map string_bytes names.now) actor.0) aside.now)) }
{
    if filter.has_actor(actor.0) {
        return write_messages(alloc, names, actor, aside, out);
    }
    Ok(())
}

/// Writes these system messages, which are set aside at an actor.
fn write_messages<W: Write>(
    alloc: Global,
    names: &[String],
    actor: ActorId,
    aside: &[(u64, SysMsg)],
    out: &mut W,
) -> Result<(), TraceError>
    ensures { IsWritten (W.contents out.old) (W.contents out.new) result (flat_map (aside_json (map string_bytes names.now) actor.0) aside.now) }
{
    for message in aside {
        write_set_aside_line(alloc, names, actor, *message, out)?;
    }
    Ok(())
}
