//! How many dead letters are not kept, where the lists of a report keep the newest alone.
ghost use Rattle.std.specs.Prelude.{◌≡◌, ◌≤◌, Some, length, map, string_bytes};
ghost use Rattle.std.specs.Fmt.{WritesOnOk};
ghost use Rattle.mb_trace.specs.GoneLetters.{actor_gone_text, all_gone_cleaned_text, all_gone_letters_text, gone, gone_cleaned_line, gone_dead_letters_text, gone_letters_line, gone_letters_text, gone_of_each_text, not_kept_text, sender_at};
ghost use Rattle.mb_trace.specs.Output.{IsWritten};

use crate::error::TraceError;
use crate::filter::Filter;
use crate::output::write_lines;
use crate::undelivered::has_envelopes;
use crate::words::{write_of, write_sender};
use mb_msg::limits::ACTORS;
use mb_msg::{ActorId, SenderId};
use mb_report::{ActorReport, Report, SenderReport};
use std::alloc::Global;
use std::fmt;
use std::io::Write;

/// How many dead letters of a sender are not kept. Its `Display` is its line.
#[derive(Clone, Copy)]
struct GoneLettersLine<'a> {
    names: &'a [String],
    by: SenderId,
    number: u64,
}

impl fmt::Display for GoneLettersLine<'_> {
    ghost output = { λ l. Some (gone_letters_line (map string_bytes l.names.now) l.by.0 l.number) };

    fn fmt<W: fmt::Write>(&self, f: &mut fmt::Formatter<W>) -> fmt::Result {
        f.write_str("older dead letters of ")?;
        write_sender(f, self.names, self.by)?;
        write_not_kept(f, self.number)
    }
}

/// How many envelopes that were still queued when an actor ended are not kept. Its `Display` is its line.
#[derive(Clone, Copy)]
struct GoneCleanedLine<'a> {
    names: &'a [String],
    actor: ActorId,
    number: u64,
}

impl fmt::Display for GoneCleanedLine<'_> {
    ghost output = { λ l. Some (gone_cleaned_line (map string_bytes l.names.now) l.actor.0 l.number) };

    fn fmt<W: fmt::Write>(&self, f: &mut fmt::Formatter<W>) -> fmt::Result {
        write_of(
            f,
            "older dead letters cleaned up at ",
            self.names,
            self.actor,
        )?;
        write_not_kept(f, self.number)
    }
}

/// That so many are not kept.
#[tactic(auto, unfolding(crate::specs::GoneLetters::not_kept_text))]
fn write_not_kept<W: fmt::Write>(f: &mut fmt::Formatter<W>, number: u64) -> fmt::Result
    ensures { WritesOnOk W.write_str_gives f.old result (not_kept_text number) f.new }
{
    write!(f, ", not kept: {number}\n")
}

/// Writes how many dead letters of each sender, and of each actor's end, are not kept, where there are any. They are shown with entries of
/// envelopes: those of a sender whomever they were for, those of an actor's end where the actor is shown.
pub(crate) fn write_gone_letters<W: Write>(
    alloc: Global,
    names: &[String],
    filter: &Filter<'_>,
    report: &Report,
    out: &mut W,
) -> Result<(), TraceError>
    ensures { IsWritten (W.contents out.old) (W.contents out.new) result (gone_dead_letters_text (map string_bytes names.now) filter.now report.now) }
{
    if has_envelopes(filter.only) {
        return write_of_each(alloc, names, filter, report, out);
    }
    Ok(())
}

/// Writes the lines of the senders, and of the actors that are shown.
fn write_of_each<W: Write>(
    alloc: Global,
    names: &[String],
    filter: &Filter<'_>,
    report: &Report,
    out: &mut W,
) -> Result<(), TraceError>
    ensures { IsWritten (W.contents out.old) (W.contents out.new) result (gone_of_each_text (map string_bytes names.now) filter.now report.now) }
{
    write_of_senders(alloc, names, report.actors.len(), &report.senders, out)?;
    write_of_actors(alloc, names, filter, &report.actors, out)
}

/// Writes the lines of these senders, of which so many are actors.
fn write_of_senders<W: Write>(
    alloc: Global,
    names: &[String],
    actors: usize,
    senders: &[SenderReport],
    out: &mut W,
) -> Result<(), TraceError>
    requires { length senders.now ≤ 80 }
    ensures { IsWritten (W.contents out.old) (W.contents out.new) result (all_gone_letters_text (map string_bytes names.now) actors 0 senders.now) }
{
    let mut place: u32 = 0;
    for sender in senders {
        write_of_sender(alloc, names, sender_at(actors, place), sender, out)?;
        place += 1;
    }
    Ok(())
}

/// By which number the sender at this place of a report sends, where there are so many actors.
fn sender_at(actors: usize, place: u32) -> SenderId
    requires { place ≤ 80 }
    ensures { result.0 ≡ sender_at actors place }
{
    if (place as usize) < actors {
        return SenderId(place);
    }
    SenderId(ACTORS + (place - actors as u32))
}

/// How many dead letters of the sender are not kept.
fn gone_of_sender(sender: &SenderReport) -> u64
    ensures { result ≡ gone sender.now.dead }
{
    sender.dead.len() - sender.dead.kept().len() as u64
}

/// Writes how many dead letters of this sender are not kept, if there are any.
fn write_of_sender<W: Write>(
    alloc: Global,
    names: &[String],
    by: SenderId,
    sender: &SenderReport,
    out: &mut W,
) -> Result<(), TraceError>
    ensures { IsWritten (W.contents out.old) (W.contents out.new) result (gone_letters_text (map string_bytes names.now) by.0 (gone sender.now.dead)) }
{
    let number = gone_of_sender(sender);
    if number == 0 {
        return Ok(());
    }
    write_lines(alloc, &GoneLettersLine { names, by, number }, out)
}

/// Writes the lines of these actors.
fn write_of_actors<W: Write>(
    alloc: Global,
    names: &[String],
    filter: &Filter<'_>,
    actors: &[ActorReport],
    out: &mut W,
) -> Result<(), TraceError>
    requires { length actors.now ≤ 64 }
    ensures { IsWritten (W.contents out.old) (W.contents out.new) result (all_gone_cleaned_text (map string_bytes names.now) filter.now 0 actors.now) }
{
    let mut number: u16 = 0;
    for actor in actors {
        write_of_actor(alloc, names, filter, ActorId(number), actor, out)?;
        number += 1;
    }
    Ok(())
}

/// Writes how many envelopes that were still queued when the actor ended are not kept, if there are any, where the actor is shown.
fn write_of_actor<W: Write>(
    alloc: Global,
    names: &[String],
    filter: &Filter<'_>,
    id: ActorId,
    actor: &ActorReport,
    out: &mut W,
) -> Result<(), TraceError>
    ensures { IsWritten (W.contents out.old) (W.contents out.new) result (actor_gone_text (map string_bytes names.now) filter.now id.0 actor.now) }
{
    let number = gone_of_actor(actor);
    if number == 0 || !filter.has_actor(id.0) {
        return Ok(());
    }
    let line = GoneCleanedLine {
        names,
        actor: id,
        number,
    };
    write_lines(alloc, &line, out)
}

/// How many envelopes that were still queued when the actor ended are not kept.
fn gone_of_actor(actor: &ActorReport) -> u64
    ensures { result ≡ gone actor.now.cleaned }
{
    actor.cleaned.len() - actor.cleaned.kept().len() as u64
}
