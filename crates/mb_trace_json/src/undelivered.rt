//! What no entry of a journal has: dead letters, envelopes that are left, and system messages that are set aside.
ghost use Rattle.std.specs.Prelude.{◌≡◌, codes, IfOk, map, string_bytes};
ghost use Rattle.serde_json.specs.Data as json_data;
ghost use Rattle.serde_json.specs.Data.{string, unsigned, member, no_members};
ghost use Rattle.serde_json.specs.View.{view, members_view};
ghost use Rattle.mb_trace_json.specs.Messages.{body_data};
ghost use Rattle.mb_trace_json.specs.Names.{name_data};
ghost use Rattle.mb_trace_json.specs.Undelivered.{why_text, letter_data, left_data, aside_data};
ghost use Rattle.mb_trace_json.specs.Version.{version_data};

use crate::message::{body_value, system_value};
use crate::names::name_value;
use crate::version::put_version;
use mb_msg::{ActorId, DeadLetter, DeadLetterReason, Envelope, SysMsg};
use serde_json::{Map, Value, put};
use std::alloc::{AllocError, Global};

/// A dead letter.
pub(crate) fn dead_letter_value(
    alloc: Global,
    names: &[String],
    letter: &DeadLetter,
) -> Result<Value, AllocError>
    ensures { IfOk result (λ v. view v ≡ letter_data (map string_bytes names.now) letter.now) }
{
    let mut members = envelope_members(alloc, "dead letter", names, letter.envelope)?;
    let why = Value::try_from_str(alloc, why_word(letter.why))?;
    put(&mut members, alloc, "why", why)?;
    Ok(Value::Object(members))
}

/// An envelope that is left in its receiver's mailbox.
pub(crate) fn left_value(
    alloc: Global,
    names: &[String],
    envelope: &Envelope,
) -> Result<Value, AllocError>
    ensures { IfOk result (λ v. view v ≡ left_data (map string_bytes names.now) envelope.now) }
{
    let members = envelope_members(alloc, "left", names, *envelope)?;
    Ok(Value::Object(members))
}

/// What the line says of an envelope.
fn envelope_members(
    alloc: Global,
    line: &str,
    names: &[String],
    envelope: Envelope,
) -> Result<Map<String, Value>, AllocError>
    ensures { IfOk result (λ members. members_view members.entries ≡
        member (codes "actor") (name_data (map string_bytes names.now) envelope.to.0)
        (member (codes "line") (string line.now)
        (member (codes "message") (body_data (map string_bytes names.now) envelope.body)
        (member (codes "number") (json_data.number (unsigned envelope.number))
        (member (codes "sender") (name_data (map string_bytes names.now) envelope.by.0)
        (member (codes "version") version_data no_members)))))) }
{
    let message = body_value(alloc, names, envelope.body)?;
    let mut members = line_members(alloc, line, names, envelope.to, envelope.number, message)?;
    let sender = name_value(alloc, names, envelope.by.0)?;
    put(&mut members, alloc, "sender", sender)?;
    Ok(members)
}

/// A system message that is set aside at the end.
pub(crate) fn set_aside_value(
    alloc: Global,
    names: &[String],
    actor: ActorId,
    number: u64,
    message: SysMsg,
) -> Result<Value, AllocError>
    ensures { IfOk result (λ v. view v ≡ aside_data (map string_bytes names.now) actor.0 number message) }
{
    let content = system_value(alloc, names, message)?;
    let members = line_members(alloc, "set aside", names, actor, number, content)?;
    Ok(Value::Object(members))
}

/// What the line says of a message to this actor.
fn line_members(
    alloc: Global,
    line: &str,
    names: &[String],
    actor: ActorId,
    number: u64,
    message: Value,
) -> Result<Map<String, Value>, AllocError>
    ensures { IfOk result (λ members. members_view members.entries ≡
        member (codes "actor") (name_data (map string_bytes names.now) actor.0)
        (member (codes "line") (string line.now)
        (member (codes "message") (view message)
        (member (codes "number") (json_data.number (unsigned number))
        (member (codes "version") version_data no_members))))) }
{
    let mut members = Map::new(alloc);
    put(&mut members, alloc, "number", Value::from(number))?;
    put(&mut members, alloc, "message", message)?;
    let line = Value::try_from_str(alloc, line)?;
    put(&mut members, alloc, "line", line)?;
    let name = name_value(alloc, names, u32::from(actor.0))?;
    put(&mut members, alloc, "actor", name)?;
    put_version(alloc, &mut members)?;
    Ok(members)
}

/// Why an envelope is dead.
fn why_word(why: DeadLetterReason) -> &'static str
    ensures { result.now ≡ why_text why }
{
    match why {
        DeadLetterReason::Closed => "closed",
        DeadLetterReason::Full => "full",
        DeadLetterReason::NoMemory => "no memory",
        DeadLetterReason::Cleaned => "cleaned",
    }
}
