//! What an actor asked for.
ghost use Rattle.std.specs.Prelude.{◌≡◌, codes, IfOk, map, string_bytes};
ghost use Rattle.serde_json.specs.Data.{string, member, no_members};
ghost use Rattle.serde_json.specs.View.{view, members_view};
ghost use Rattle.mb_trace_json.specs.Effects.{tell_data, ask_data, effect_data, effects_data};
ghost use Rattle.mb_trace_json.specs.Names.{name_data};

use crate::names::name_value;
use mb_actor::Effect;
use mb_msg::ActorId;
use serde_json::{Map, Value, put};
use std::alloc::{AllocError, Global};

/// The effects, in order.
pub(crate) fn effects_value(
    alloc: Global,
    names: &[String],
    effects: &[Effect],
) -> Result<Value, AllocError>
    ensures { IfOk result (λ v. view v ≡ effects_data (map string_bytes names.now) effects.now) }
{
    let mut values = Vec::new(alloc);
    for effect in effects {
        values.push(effect_value(alloc, names, *effect)?)?;
    }
    Ok(Value::Array(values))
}

/// One effect.
fn effect_value(alloc: Global, names: &[String], effect: Effect) -> Result<Value, AllocError>
    ensures { IfOk result (λ v. view v ≡ effect_data (map string_bytes names.now) effect) }
{
    match effect {
        Effect::Tell { to, kind, value } => tell_value(alloc, "tell", names, to, kind, value),
        Effect::Control { to, kind, value } => {
            tell_value(alloc, "control", names, to, kind, value)
        }
        Effect::Watch(id) => about_value(alloc, "watch", names, id),
        Effect::Unwatch(id) => about_value(alloc, "unwatch", names, id),
        Effect::Stop(id) => about_value(alloc, "stop", names, id),
        Effect::Spawn(id) => about_value(alloc, "spawn", names, id),
    }
}

/// An envelope that is to be sent.
fn tell_value(
    alloc: Global,
    what: &str,
    names: &[String],
    to: ActorId,
    kind: u32,
    value: i64,
) -> Result<Value, AllocError>
    ensures { IfOk result (λ v. view v ≡ tell_data what.now (map string_bytes names.now) to.0 kind value) }
{
    let mut members = about_members(alloc, what, names, to)?;
    put(&mut members, alloc, "kind", Value::from(kind))?;
    put(&mut members, alloc, "value", Value::from(value))?;
    Ok(Value::Object(members))
}

/// Something about another actor.
fn about_value(
    alloc: Global,
    what: &str,
    names: &[String],
    id: ActorId,
) -> Result<Value, AllocError>
    ensures { IfOk result (λ v. view v ≡ ask_data what.now (map string_bytes names.now) id.0) }
{
    let members = about_members(alloc, what, names, id)?;
    Ok(Value::Object(members))
}

/// What is asked for, and of which actor.
fn about_members(
    alloc: Global,
    what: &str,
    names: &[String],
    id: ActorId,
) -> Result<Map<String, Value>, AllocError>
    ensures { IfOk result (λ members. members_view members.entries
        ≡ member (codes "do") (string what.now) (member (codes "to") (name_data (map string_bytes names.now) id.0) no_members)) }
{
    let mut members = Map::new(alloc);
    let name = name_value(alloc, names, u32::from(id.0))?;
    put(&mut members, alloc, "to", name)?;
    let what = Value::try_from_str(alloc, what)?;
    put(&mut members, alloc, "do", what)?;
    Ok(members)
}
