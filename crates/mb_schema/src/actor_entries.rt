//! The names and parents of the actors of a document.

ghost use Rattle.std.specs.Prelude.{◌≡◌, IfOk, map};
ghost use Rattle.toml.specs.Data.{as_table};
ghost use Rattle.toml.specs.View.{view, items_view};
ghost use Rattle.mb_schema.specs.Check.{actor_entries_of, actor_entry_of};
ghost use Rattle.mb_schema.specs.Context.{actor_entry_data};

use crate::context::ActorEntry;
use crate::value::{text_or, value_at};
use std::alloc::{AllocError, Global};
use toml::Value;

/// The name and parent of an entry of the array of actors.
pub(crate) fn actor_entry_of(value: &Value) -> ActorEntry<'_>
    ensures { actor_entry_data result ≡ actor_entry_of (as_table (view value.now)) }
{
    match value.as_table() {
        Some(table) => ActorEntry {
            name: text_or(b"", value_at(table, "name")),
            parent: text_or(b"guardian", value_at(table, "parent")),
        },
        None => ActorEntry {
            name: b"",
            parent: b"",
        },
    }
}

/// The names and parents of all entries, in order. The only error: memory was refused.
pub fn actor_entries_of<'a>(
    alloc: Global,
    actors: &'a [Value],
) -> Result<Vec<ActorEntry<'a>>, AllocError>
    ensures { IfOk result (λ actor_entries. map actor_entry_data actor_entries.items ≡ actor_entries_of (items_view actors.now)) }
{
    let mut actor_entries = Vec::new(alloc);
    for value in actors {
        actor_entries.push(actor_entry_of(value))?;
    }
    Ok(actor_entries)
}
