//! An entry of a journal.
ghost use Rattle.std.specs.Prelude.{◌≡◌, codes, IfOk, OnOk, map, string_bytes};
ghost use Rattle.serde_json.specs.Data.{null, number, string, unsigned, put as with_member};
ghost use Rattle.serde_json.specs.View.{view, members_view};
ghost use Rattle.mb_journal.specs.JournalView.{entry_of};
ghost use Rattle.mb_trace_json.specs.Effects.{effects_data};
ghost use Rattle.mb_trace_json.specs.Entries.{answer_text, answer_error, whole_data, entry_data};
ghost use Rattle.mb_trace_json.specs.Messages.{body_data, system_data};
ghost use Rattle.mb_trace_json.specs.Names.{name_data};

use crate::actor_snapshot::snapshot_value;
use crate::effect::effects_value;
use crate::message::{body_value, system_value};
use crate::names::name_value;
use crate::version::put_version;
use mb_actor::{Answer, Effect};
use mb_journal::{EntryRef, Received};
use mb_msg::{ActorId, Envelope, SysMsg};
use mb_trace::ActorSnapshot;
use serde_json::{Map, Value, put};
use std::alloc::{AllocError, Global};

/// Whose journal has an entry, and how the actor stands after it.
#[derive(Clone, Copy)]
pub(crate) struct Place {
    pub(crate) actor: ActorId,
    /// Where the entry stands in that journal, from 0.
    pub(crate) index: usize,
    pub(crate) after: ActorSnapshot,
}

/// An entry.
pub(crate) fn entry_value(
    alloc: Global,
    names: &[String],
    place: Place,
    entry: &EntryRef<'_>,
) -> Result<Value, AllocError>
    ensures { IfOk result (λ v. view v ≡ entry_data (map string_bytes names.now) place.actor.0 place.index place.after (entry_of entry.now)) }
{
    match entry.arrival {
        Received::Handled {
            answer,
            envelope,
            reading,
        } => {
            let came = envelope_parts(alloc, names, envelope)?;
            let told = answered(answer, Value::from(reading));
            whole_value(alloc, names, place, came, told, entry.effects)
        }
        Received::System {
            answer,
            number,
            message,
        } => {
            let came = system_parts(alloc, names, number, message)?;
            let told = answered(answer, Value::Null);
            whole_value(alloc, names, place, came, told, entry.effects)
        }
        Received::SetAside { number, message } => {
            let came = system_parts(alloc, names, number, message)?;
            whole_value(alloc, names, place, came, not_applied("set aside"), &[])
        }
        Received::Dropped { envelope } => {
            let came = envelope_parts(alloc, names, envelope)?;
            whole_value(alloc, names, place, came, not_applied("dropped"), &[])
        }
    }
}

/// What came of a message.
#[derive(Drop)]
struct Told {
    outcome: &'static str,
    error: Value,
    /// The status word that was read before.
    status: Value,
}

fn answered(answer: Option<Answer>, status: Value) -> Told
    ensures outcome { result.outcome.now ≡ answer_text answer }
    ensures error { view result.error ≡ answer_error answer }
    ensures status { view result.status ≡ view status }
{
    Told {
        outcome: answer_word(answer),
        error: error_value(answer),
        status,
    }
}

fn not_applied(outcome: &'static str) -> Told
    ensures outcome { result.outcome.now ≡ outcome.now }
    ensures error { view result.error ≡ null }
    ensures status { view result.status ≡ null }
{
    Told {
        outcome,
        error: Value::Null,
        status: Value::Null,
    }
}

/// What came: the message, who sent it if that is known, and its number.
#[derive(Drop)]
pub(crate) struct Came {
    message: Value,
    sender: Value,
    number: u64,
}

fn envelope_parts(alloc: Global, names: &[String], envelope: Envelope) -> Result<Came, AllocError>
    ensures message { IfOk result (λ came. view came.message ≡ body_data (map string_bytes names.now) envelope.body) }
    ensures sender { IfOk result (λ came. view came.sender ≡ name_data (map string_bytes names.now) envelope.by.0) }
    ensures number { IfOk result (λ came. came.number ≡ envelope.number) }
{
    let message = body_value(alloc, names, envelope.body)?;
    let sender = name_value(alloc, names, envelope.by.0)?;
    let number = envelope.number;
    Ok(Came {
        message,
        sender,
        number,
    })
}

fn system_parts(
    alloc: Global,
    names: &[String],
    number: u64,
    message: SysMsg,
) -> Result<Came, AllocError>
    ensures message { IfOk result (λ came. view came.message ≡ system_data (map string_bytes names.now) message) }
    ensures sender { IfOk result (λ came. view came.sender ≡ null) }
    ensures number { IfOk result (λ came. came.number ≡ number) }
{
    let content = system_value(alloc, names, message)?;
    Ok(Came {
        message: content,
        sender: Value::Null,
        number,
    })
}

/// The whole line of an entry.
fn whole_value(
    alloc: Global,
    names: &[String],
    place: Place,
    came: Came,
    told: Told,
    effects: &[Effect],
) -> Result<Value, AllocError>
    ensures { IfOk result (λ v. view v ≡ whole_data (map string_bytes names.now) place.actor.0 place.index place.after (view came.message)
        (view came.sender) came.number told.outcome.now (view told.error) (effects_data (map string_bytes names.now) effects.now)
        (view told.status)) }
{
    let mut members = Map::new(alloc);
    put_told(alloc, &mut members, told)?;
    put_came(alloc, &mut members, came)?;
    let effects = effects_value(alloc, names, effects)?;
    put(&mut members, alloc, "effects", effects)?;
    let after = snapshot_value(alloc, place.after)?;
    put(&mut members, alloc, "after", after)?;
    put_place(alloc, &mut members, names, place)?;
    put_version(alloc, &mut members)?;
    Ok(Value::Object(members))
}

fn put_told(alloc: Global, members: &mut Map<String, Value>, told: Told) -> Result<(), AllocError>
    ensures { OnOk result (members_view members.new.entries ≡ with_member (codes "error") (view told.error)
        (with_member (codes "outcome") (string told.outcome.now)
        (with_member (codes "status") (view told.status) (members_view members.old.entries)))) }
{
    let Told {
        outcome,
        error,
        status,
    } = told;
    put(members, alloc, "status", status)?;
    let outcome = Value::try_from_str(alloc, outcome)?;
    put(members, alloc, "outcome", outcome)?;
    put(members, alloc, "error", error)
}

fn put_came(alloc: Global, members: &mut Map<String, Value>, came: Came) -> Result<(), AllocError>
    ensures { OnOk result (members_view members.new.entries ≡ with_member (codes "message") (view came.message)
        (with_member (codes "number") (number (unsigned came.number))
        (with_member (codes "sender") (view came.sender) (members_view members.old.entries)))) }
{
    let Came {
        message,
        sender,
        number,
    } = came;
    put(members, alloc, "sender", sender)?;
    put(members, alloc, "number", Value::from(number))?;
    put(members, alloc, "message", message)
}

/// Where an entry stands.
fn put_place(
    alloc: Global,
    members: &mut Map<String, Value>,
    names: &[String],
    place: Place,
) -> Result<(), AllocError>
    ensures { OnOk result (members_view members.new.entries ≡ with_member (codes "actor") (name_data (map string_bytes names.now) place.actor.0)
        (with_member (codes "entry") (number (unsigned place.index))
        (with_member (codes "line") (string (codes "entry")) (members_view members.old.entries)))) }
{
    let line = Value::try_from_str(alloc, "entry")?;
    put(members, alloc, "line", line)?;
    put(members, alloc, "entry", Value::from(place.index))?;
    let actor = name_value(alloc, names, u32::from(place.actor.0))?;
    put(members, alloc, "actor", actor)
}

/// What the actor answered; `applied` where it was not called.
fn answer_word(answer: Option<Answer>) -> &'static str
    ensures { result.now ≡ answer_text answer }
{
    match answer {
        None => "applied",
        Some(Answer::Handled) => "handled",
        Some(Answer::Unhandled) => "unhandled",
        Some(Answer::Failed(_)) => "failed",
    }
}

/// The number of a failure; null where the actor did not fail.
fn error_value(answer: Option<Answer>) -> Value
    ensures { view result ≡ answer_error answer }
{
    match answer {
        Some(Answer::Failed(number)) => Value::from(number),
        _ => Value::Null,
    }
}
