//! Each line of JSON at the end of a trace.
ghost use Rattle.std.specs.Prelude.{map, string_bytes};
ghost use Rattle.mb_trace.specs.Output.{IsWritten};
ghost use Rattle.mb_trace_forms.specs.JsonRest.{aside_json, left_json, letter_json};

use mb_msg::{ActorId, DeadLetter, Envelope, SysMsg};
use mb_trace::{Filter, TraceError, write_whole};
use mb_trace_json::{dead_letter_line, left_line, set_aside_line};
use std::alloc::Global;
use std::io::Write;

/// Writes the line of a dead letter.
pub(crate) fn write_letter_line<W: Write>(
    alloc: Global,
    names: &[String],
    letter: &DeadLetter,
    out: &mut W,
) -> Result<(), TraceError>
    ensures { IsWritten (W.contents out.old) (W.contents out.new) result (letter_json (map string_bytes names.now) letter.now) }
{
    let line = dead_letter_line(alloc, names, letter)?;
    write_whole(out, line.as_bytes())?;
    Ok(())
}

/// Writes the line of an envelope that is left, where its receiver is shown.
pub(crate) fn write_left_line<W: Write>(
    alloc: Global,
    names: &[String],
    filter: &Filter<'_>,
    envelope: &Envelope,
    out: &mut W,
) -> Result<(), TraceError>
    ensures { IsWritten (W.contents out.old) (W.contents out.new) result (left_json (map string_bytes names.now) filter.now envelope.now) }
{
    if !filter.has_actor(envelope.to.0) {
        return Ok(());
    }
    let line = left_line(alloc, names, envelope)?;
    write_whole(out, line.as_bytes())?;
    Ok(())
}

/// Writes the line of a system message that is set aside at an actor.
pub(crate) fn write_set_aside_line<W: Write>(
    alloc: Global,
    names: &[String],
    actor: ActorId,
    message: (u64, SysMsg),
    out: &mut W,
) -> Result<(), TraceError>
    ensures { IsWritten (W.contents out.old) (W.contents out.new) result (aside_json (map string_bytes names.now) actor.0 message) }
{
    let line = set_aside_line(alloc, names, actor, message.0, message.1)?;
    write_whole(out, line.as_bytes())?;
    Ok(())
}
