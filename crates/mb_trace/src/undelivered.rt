//! What stands at the end of a trace: dead letters, what is left, and what is set aside.
ghost use Rattle.std.specs.Prelude.{ℕ, ◌≡◌, ◌≤◌, [], if◌then◌else◌, length, map, string_bytes};
ghost use Rattle.std.specs.List.{flat_map};
ghost use Rattle.mb_msg.specs.declared.dead_letter.DeadLetterReason.TheVariants.{Cleaned};
ghost use Rattle.mb_msg.specs.declared.system.SysMsg.{SysMsg as SysMessage};
ghost use Rattle.mb_report.specs.declared.report.ActorReport.{ActorReport as Reported};
ghost use Rattle.mb_report.specs.declared.report.SenderReport.{SenderReport as Sent};
ghost use Rattle.mb_trace.specs.Ends.{aside_text, left_text, letter_text};
ghost use Rattle.mb_trace.specs.Output.{IsWritten};
ghost use Rattle.mb_trace.specs.Undelivered.{all_aside_text, cleaned_text, envelopes_text, letters_text, queued_text, readable_cleaned, readable_letters, readable_rest_text, set_aside_text, shows_envelopes, shows_system_messages, where_shown};

use crate::end_lines::{AsideLine, LeftLine, LetterLine};
use crate::error::TraceError;
use crate::filter::{EntryKinds, Filter};
use crate::output::write_lines;
use mb_msg::{ActorId, DeadLetterReason, Envelope, SysMsg};
use mb_report::{ActorReport, Report, SenderReport};
use std::alloc::Global;
use std::io::Write;

/// Writes the dead letters, first those of each sender and then those that each actor's end left; then the envelopes that are left, and
/// the system messages that are set aside, actor by actor. Envelopes are shown with entries of envelopes, and system messages with those
/// of system messages. Dead letters are all written where all are kept, else those that are kept.
pub(crate) fn write_rest<W: Write>(
    alloc: Global,
    names: &[String],
    filter: &Filter<'_>,
    report: &Report,
    out: &mut W,
) -> Result<(), TraceError>
    ensures { IsWritten (W.contents out.old) (W.contents out.new) result (readable_rest_text (map string_bytes names.now) filter.now report.now) }
{
    if has_envelopes(filter.only) {
        write_envelopes(alloc, names, filter, report, out)?;
        return write_system_messages(alloc, names, filter, &report.actors, out);
    }
    write_system_messages(alloc, names, filter, &report.actors, out)
}

/// Whether envelopes at the end are shown with these kinds of entries.
pub(crate) fn has_envelopes(only: EntryKinds) -> bool
    ensures { result ≡ shows_envelopes only }
{
    match only {
        EntryKinds::All | EntryKinds::User => true,
        EntryKinds::System | EntryKinds::Failures => false,
    }
}

/// Whether system messages at the end are shown with these kinds of entries.
fn has_system_messages(only: EntryKinds) -> bool
    ensures { result ≡ shows_system_messages only }
{
    match only {
        EntryKinds::All | EntryKinds::System => true,
        EntryKinds::User | EntryKinds::Failures => false,
    }
}

/// Writes the dead letters and the envelopes that are left.
fn write_envelopes<W: Write>(
    alloc: Global,
    names: &[String],
    filter: &Filter<'_>,
    report: &Report,
    out: &mut W,
) -> Result<(), TraceError>
    ensures { IsWritten (W.contents out.old) (W.contents out.new) result
        (envelopes_text (map string_bytes names.now) filter.now readable_letters readable_cleaned report.now) }
{
    write_all_refused(alloc, names, filter, &report.senders, out)?;
    write_all_cleaned(alloc, names, filter, &report.actors, out)?;
    write_all_left(alloc, names, filter, &report.actors, out)
}

/// Writes the envelopes of these senders that were refused.
fn write_all_refused<W: Write>(
    alloc: Global,
    names: &[String],
    filter: &Filter<'_>,
    senders: &[SenderReport],
    out: &mut W,
) -> Result<(), TraceError>
    ensures { IsWritten (W.contents out.old) (W.contents out.new) result
        (flat_map (λ (s : Sent). letters_text (map string_bytes names.now) filter.now (readable_letters s)) senders.now) }
{
    for sender in senders {
        write_refused(alloc, names, filter, sender, out)?;
    }
    Ok(())
}

/// Writes the envelopes that were still queued when these actors ended.
fn write_all_cleaned<W: Write>(
    alloc: Global,
    names: &[String],
    filter: &Filter<'_>,
    actors: &[ActorReport],
    out: &mut W,
) -> Result<(), TraceError>
    ensures { IsWritten (W.contents out.old) (W.contents out.new) result
        (flat_map (λ (r : Reported). cleaned_text (map string_bytes names.now) filter.now (readable_cleaned r)) actors.now) }
{
    for actor in actors {
        write_cleaned(alloc, names, filter, actor, out)?;
    }
    Ok(())
}

/// Writes the envelopes that are left in the queues of these actors.
fn write_all_left<W: Write>(
    alloc: Global,
    names: &[String],
    filter: &Filter<'_>,
    actors: &[ActorReport],
    out: &mut W,
) -> Result<(), TraceError>
    ensures { IsWritten (W.contents out.old) (W.contents out.new) result
        (flat_map (queued_text (map string_bytes names.now) filter.now) actors.now) }
{
    for actor in actors {
        write_left(alloc, names, filter, actor, out)?;
    }
    Ok(())
}

/// Writes the envelopes of a sender that were refused.
fn write_refused<W: Write>(
    alloc: Global,
    names: &[String],
    filter: &Filter<'_>,
    sender: &SenderReport,
    out: &mut W,
) -> Result<(), TraceError>
    ensures { IsWritten (W.contents out.old) (W.contents out.new) result
        (letters_text (map string_bytes names.now) filter.now (readable_letters sender.now)) }
{
    for letter in sender.dead.kept() {
        write_letter(alloc, names, filter, letter.envelope, letter.why, out)?;
    }
    Ok(())
}

/// Writes the envelopes that were still queued when the actor ended.
fn write_cleaned<W: Write>(
    alloc: Global,
    names: &[String],
    filter: &Filter<'_>,
    actor: &ActorReport,
    out: &mut W,
) -> Result<(), TraceError>
    ensures { IsWritten (W.contents out.old) (W.contents out.new) result
        (cleaned_text (map string_bytes names.now) filter.now (readable_cleaned actor.now)) }
{
    for envelope in actor.cleaned.kept() {
        write_letter(
            alloc,
            names,
            filter,
            *envelope,
            DeadLetterReason::Cleaned,
            out,
        )?;
    }
    Ok(())
}

/// Writes the envelopes that are left in the actor's queue.
fn write_left<W: Write>(
    alloc: Global,
    names: &[String],
    filter: &Filter<'_>,
    actor: &ActorReport,
    out: &mut W,
) -> Result<(), TraceError>
    ensures { IsWritten (W.contents out.old) (W.contents out.new) result (queued_text (map string_bytes names.now) filter.now actor.now) }
{
    for envelope in &actor.left {
        write_queued(alloc, names, filter, *envelope, out)?;
    }
    Ok(())
}

/// Writes a dead letter, where its receiver is shown.
fn write_letter<W: Write>(
    alloc: Global,
    names: &[String],
    filter: &Filter<'_>,
    envelope: Envelope,
    why: DeadLetterReason,
    out: &mut W,
) -> Result<(), TraceError>
    ensures { IsWritten (W.contents out.old) (W.contents out.new) result
        (where_shown filter.now envelope.to.0 (letter_text (map string_bytes names.now) envelope why)) }
{
    if !filter.has_actor(envelope.to.0) {
        return Ok(());
    }
    let line = LetterLine {
        names,
        envelope,
        why,
    };
    write_lines(alloc, &line, out)
}

/// Writes an envelope that is left, where its receiver is shown.
fn write_queued<W: Write>(
    alloc: Global,
    names: &[String],
    filter: &Filter<'_>,
    envelope: Envelope,
    out: &mut W,
) -> Result<(), TraceError>
    ensures { IsWritten (W.contents out.old) (W.contents out.new) result
        (where_shown filter.now envelope.to.0 (left_text (map string_bytes names.now) envelope)) }
{
    if !filter.has_actor(envelope.to.0) {
        return Ok(());
    }
    let line = LeftLine { names, envelope };
    write_lines(alloc, &line, out)
}

/// Writes the system messages that are set aside at these actors, if they are shown.
fn write_system_messages<W: Write>(
    alloc: Global,
    names: &[String],
    filter: &Filter<'_>,
    actors: &[ActorReport],
    out: &mut W,
) -> Result<(), TraceError>
    requires { length actors.now ≤ 64 }
    ensures { IsWritten (W.contents out.old) (W.contents out.new) result
        (if shows_system_messages filter.now.only then all_aside_text (map string_bytes names.now) filter.now 0 actors.now else []) }
{
    if has_system_messages(filter.only) {
        return write_all_aside(alloc, names, filter, actors, out);
    }
    Ok(())
}

/// Writes the system messages that are set aside at these actors.
fn write_all_aside<W: Write>(
    alloc: Global,
    names: &[String],
    filter: &Filter<'_>,
    actors: &[ActorReport],
    out: &mut W,
) -> Result<(), TraceError>
    requires { length actors.now ≤ 64 }
    ensures { IsWritten (W.contents out.old) (W.contents out.new) result (all_aside_text (map string_bytes names.now) filter.now 0 actors.now) }
{
    let mut number: u16 = 0;
    for actor in actors {
        write_aside(alloc, names, filter, ActorId(number), actor, out)?;
        number += 1;
    }
    Ok(())
}

/// Writes the system messages that are set aside at the actor, where it is shown.
fn write_aside<W: Write>(
    alloc: Global,
    names: &[String],
    filter: &Filter<'_>,
    id: ActorId,
    actor: &ActorReport,
    out: &mut W,
) -> Result<(), TraceError>
    ensures { IsWritten (W.contents out.old) (W.contents out.new) result (set_aside_text (map string_bytes names.now) filter.now id.0 actor.now) }
{
    if !filter.has_actor(id.0) {
        return Ok(());
    }
    write_messages(alloc, names, id, &actor.aside, out)
}

/// Writes these system messages, which are set aside at an actor, each with its number.
fn write_messages<W: Write>(
    alloc: Global,
    names: &[String],
    actor: ActorId,
    aside: &[(u64, SysMsg)],
    out: &mut W,
) -> Result<(), TraceError>
    ensures { IsWritten (W.contents out.old) (W.contents out.new) result
        (flat_map (λ (m : ℕ × SysMessage). aside_text (map string_bytes names.now) actor.0 m.0 m.1) aside.now) }
{
    for (number, message) in aside {
        write_message(alloc, names, actor, *number, *message, out)?;
    }
    Ok(())
}

/// Writes a system message that is set aside at an actor.
fn write_message<W: Write>(
    alloc: Global,
    names: &[String],
    actor: ActorId,
    number: u64,
    message: SysMsg,
    out: &mut W,
) -> Result<(), TraceError>
    ensures { IsWritten (W.contents out.old) (W.contents out.new) result (aside_text (map string_bytes names.now) actor.0 number message) }
{
    let line = AsideLine {
        names,
        actor,
        number,
        message,
    };
    write_lines(alloc, &line, out)
}
