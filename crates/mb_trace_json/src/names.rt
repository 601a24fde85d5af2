//! The names of actors and senders.
ghost use Rattle.std.specs.Prelude.{◌≡◌, IfOk, map, string_bytes};
ghost use Rattle.serde_json.specs.View.{view};
ghost use Rattle.mb_trace_json.specs.Names.{name_of, name_data};

use mb_msg::limits::ACTORS;
use serde_json::Value;
use std::alloc::{AllocError, Global};

/// The name of the actor or sender of this number: an actor's own, `guardian`, or `outside` and the number of a sender outside the actors,
/// from 0. No actor's name has a space.
pub(crate) fn name_value(alloc: Global, names: &[String], id: u32) -> Result<Value, AllocError>
    ensures { IfOk result (λ v. view v ≡ name_data (map string_bytes names.now) id) }
{
    if id >= ACTORS {
        return Ok(Value::from(format!(in alloc; "outside {}", id - ACTORS)?));
    }
    Value::try_from_str(alloc, actor_name(names, id))
}

/// The name of the actor of this number: `guardian`, its own, or a question mark where it has none.
fn actor_name(names: &[String], id: u32) -> &str
    ensures { result.now ≡ name_of (map string_bytes names.now) id }
{
    if id == 0 {
        return "guardian";
    }
    match names.get(id as usize - 1) {
        Some(name) => name.as_str(),
        None => "?",
    }
}
