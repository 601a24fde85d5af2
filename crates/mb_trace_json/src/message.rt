//! What comes to an actor.
ghost use Rattle.std.specs.Prelude.{◌≡◌, codes, IfOk, map, string_bytes};
ghost use Rattle.serde_json.specs.Data.{string, member, no_members};
ghost use Rattle.serde_json.specs.View.{view, members_view};
ghost use Rattle.mb_trace_json.specs.Messages.{plain_data, user_data, about_data, cause_text, cause_error, restart_data, failed_data};
ghost use Rattle.mb_trace_json.specs.Messages.{resume_data, body_data, system_data};

use crate::names::name_value;
use mb_msg::{ActorId, Body, Cause, SysMsg};
use serde_json::{Map, Value, json, put};
use std::alloc::{AllocError, Global};

/// What an envelope carries.
pub(crate) fn body_value(alloc: Global, names: &[String], body: Body) -> Result<Value, AllocError>
    ensures { IfOk result (λ v. view v ≡ body_data (map string_bytes names.now) body) }
{
    match body {
        Body::User { kind, value } => user_value(alloc, "user", kind, value),
        Body::Control { kind, value } => user_value(alloc, "control", kind, value),
        Body::PoisonPill => plain_value(alloc, "poison"),
        Body::Kill => plain_value(alloc, "kill"),
        Body::Terminated(id) => about_value(alloc, "terminated", names, id),
    }
}

/// A system message.
pub(crate) fn system_value(
    alloc: Global,
    names: &[String],
    message: SysMsg,
) -> Result<Value, AllocError>
    ensures { IfOk result (λ v. view v ≡ system_data (map string_bytes names.now) message) }
{
    match message {
        SysMsg::Create => plain_value(alloc, "create"),
        SysMsg::Recreate(cause) => restart_value(alloc, cause),
        SysMsg::Suspend => plain_value(alloc, "suspend"),
        SysMsg::Resume { of_failure } => resume_value(alloc, of_failure),
        SysMsg::Terminate => plain_value(alloc, "terminate"),
        SysMsg::Watch(id) => about_value(alloc, "watch", names, id),
        SysMsg::Unwatch(id) => about_value(alloc, "unwatch", names, id),
        SysMsg::Failed(id, cause) => failed_value(alloc, names, id, cause),
        SysMsg::Died(id) => about_value(alloc, "died", names, id),
    }
}

/// A message with a kind and a value.
fn user_value(alloc: Global, what: &str, kind: u32, value: i64) -> Result<Value, AllocError>
    ensures { IfOk result (λ v. view v ≡ user_data what.now kind value) }
{
    json!(in alloc; {"what": what, "value": value, "kind": kind})
}

/// A message of which there is no more to say.
fn plain_value(alloc: Global, what: &str) -> Result<Value, AllocError>
    ensures { IfOk result (λ v. view v ≡ plain_data what.now) }
{
    json!(in alloc; {"what": what})
}

/// A message about an actor.
fn about_value(
    alloc: Global,
    what: &str,
    names: &[String],
    id: ActorId,
) -> Result<Value, AllocError>
    ensures { IfOk result (λ v. view v ≡ about_data what.now (map string_bytes names.now) id.0) }
{
    let actor = name_value(alloc, names, u32::from(id.0))?;
    json!(in alloc; {"what": what, "actor": actor})
}

fn resume_value(alloc: Global, of_failure: bool) -> Result<Value, AllocError>
    ensures { IfOk result (λ v. view v ≡ resume_data of_failure) }
{
    json!(in alloc; {"what": "resume", "of_failure": of_failure})
}

fn restart_value(alloc: Global, cause: Cause) -> Result<Value, AllocError>
    ensures { IfOk result (λ v. view v ≡ restart_data cause) }
{
    let members = cause_members(alloc, "restart", cause)?;
    Ok(Value::Object(members))
}

fn failed_value(
    alloc: Global,
    names: &[String],
    id: ActorId,
    cause: Cause,
) -> Result<Value, AllocError>
    ensures { IfOk result (λ v. view v ≡ failed_data (map string_bytes names.now) id.0 cause) }
{
    let mut members = cause_members(alloc, "failed", cause)?;
    let actor = name_value(alloc, names, u32::from(id.0))?;
    put(&mut members, alloc, "actor", actor)?;
    Ok(Value::Object(members))
}

/// What such a message says of its cause.
fn cause_members(alloc: Global, what: &str, cause: Cause) -> Result<Map<String, Value>, AllocError>
    ensures { IfOk result (λ members. members_view members.entries ≡ member (codes "cause") (string (cause_text cause))
        (member (codes "error") (cause_error cause) (member (codes "what") (string what.now) no_members))) }
{
    let mut members = Map::new(alloc);
    let what = Value::try_from_str(alloc, what)?;
    put(&mut members, alloc, "what", what)?;
    put(&mut members, alloc, "error", error_value(cause))?;
    let word = Value::try_from_str(alloc, cause_word(cause))?;
    put(&mut members, alloc, "cause", word)?;
    Ok(members)
}

/// The kind of a cause.
fn cause_word(cause: Cause) -> &'static str
    ensures { result.now ≡ cause_text cause }
{
    match cause {
        Cause::Error(_) => "error",
        Cause::Init => "init",
        Cause::Killed => "killed",
        Cause::DeathPact => "deathpact",
    }
}

/// The number of an error; null of another cause.
fn error_value(cause: Cause) -> Value
    ensures { view result ≡ cause_error cause }
{
    match cause {
        Cause::Error(number) => Value::from(number),
        Cause::Init | Cause::Killed | Cause::DeathPact => Value::Null,
    }
}
