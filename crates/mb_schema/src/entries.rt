//! The checks of the entries of the arrays of the document.

ghost use Rattle.std.specs.Prelude.{◌≡◌, ◌-◌, ◌<◌, ◌^◌, ◌++◌, map};
ghost use Rattle.toml.specs.View.{view, items_view};
ghost use Rattle.mb_schema.specs.Check.{context_of_actor, context_of_send, array_of, at, each, part_check};
ghost use Rattle.mb_schema.specs.Context.{context_data, actor_entry_data};
ghost use Rattle.mb_schema.specs.Location.{Finds, entry_text, fault_of, first, path_text};

use crate::actor_entries::actor_entry_of;
use crate::actors::check_actor_table;
use crate::check::{check_key, check_table};
use crate::context::{ActorEntry, Context};
use crate::finding::{Finding, Location, Reason};
use crate::path::Path;
use crate::tables::{name_key, send_keys};
use toml::Value;

/// The parts in which the entries of arrays are checked, each for all entries.
#[derive(Clone, Copy)]
pub(crate) enum Part {
    /// The names of actors.
    Names,
    /// Actors, but for their names.
    Actors,
    /// Sends.
    Sends,
}

/// The key of the array that the part is of.
fn array_of(part: Part) -> &'static str
    ensures { result.now ≡ array_of part }
{
    match part {
        Part::Names | Part::Actors => "actor",
        Part::Sends => "send",
    }
}

/// Checks a part of all entries.
pub(crate) fn check_entries<'a>(
    part: Part,
    actor_entries: &'a [ActorEntry<'a>],
    values: &'a [Value],
) -> Result<(), Finding<'a>>
    ensures { Finds result (first (each (part_check part (map actor_entry_data actor_entries.now)) (items_view values.now))) }
{
    for (index, value) in values.iter().enumerate() {
        check_entry(part, actor_entries, index, value)?;
    }
    Ok(())
}

/// Checks that an entry is a table, and the part of it.
fn check_entry<'a>(
    part: Part,
    actor_entries: &'a [ActorEntry<'a>],
    earlier: usize,
    value: &'a Value,
) -> Result<(), Finding<'a>>
    requires { earlier < 2 ^ 64 - 1 }
    ensures { Finds result (part_check part (map actor_entry_data actor_entries.now) earlier (view value.now)) }
{
    let position = earlier + 1;
    let Some(table) = value.as_table() else {
        return Err(no_table(Path::Top, array_of(part), position));
    };
    match part {
        Part::Names => {
            let context = context_of(actor_entries, earlier, value);
            check_key(Path::Actor(position), name_key(), &context, table)
        }
        Part::Actors => {
            let context = context_of(actor_entries, earlier, value);
            check_actor_table(position, &context, table)
        }
        Part::Sends => {
            let context = context_of_sends(actor_entries);
            check_table(Path::Send(position), send_keys(), &context, table)
        }
    }
}

/// The finding that an entry of an array is no table.
pub(crate) fn no_table<'a>(path: Path, name: &'static str, position: usize) -> Finding<'a>
    ensures { fault_of result ≡ at (entry_text (path_text path ++ name.now) position) Reason.WrongType }
{
    Finding {
        place: Location::Entry(path, name, position),
        reason: Reason::WrongType,
    }
}

/// The context in which an actor is checked.
fn context_of<'a>(
    actor_entries: &'a [ActorEntry<'a>],
    earlier: usize,
    value: &'a Value,
) -> Context<'a>
    ensures { context_data result ≡ context_of_actor (map actor_entry_data actor_entries.now) earlier (view value.now) }
{
    Context {
        actor_entries,
        earlier,
        own_name: actor_entry_of(value).name,
    }
}

/// The context in which sends are checked.
pub(crate) fn context_of_sends<'a>(actor_entries: &'a [ActorEntry<'a>]) -> Context<'a>
    ensures { context_data result ≡ context_of_send (map actor_entry_data actor_entries.now) }
{
    Context {
        actor_entries,
        earlier: 0,
        own_name: b"",
    }
}
