//! The checks of a whole document.

ghost use Rattle.std.specs.Prelude.{◌≡◌, codes, map};
ghost use Rattle.toml.specs.Data.{get_member};
ghost use Rattle.toml.specs.View.{items_view, table_view};
ghost use Rattle.mb_schema.specs.Check.{actor_entries_of, document_check, items_in};
ghost use Rattle.mb_schema.specs.Context.{actor_entry_data};
ghost use Rattle.mb_schema.specs.Location.{Finds};

use crate::check::check_table;
use crate::context::ActorEntry;
use crate::entries::{Part, check_entries, context_of_sends};
use crate::finding::Finding;
use crate::path::Path;
use crate::tables::top_keys;
use crate::value::{items_of, value_at};
use toml::{Table, Value};

/// The first thing that is wrong with a document; `actor_entries` is its actors.
pub fn check_document<'a>(
    top: &'a Table,
    actor_entries: &'a [ActorEntry<'a>],
) -> Result<(), Finding<'a>>
    requires { map actor_entry_data actor_entries.now ≡ actor_entries_of (items_in (get_member (codes "actor") (table_view top.now))) }
    ensures { Finds result (document_check (table_view top.now)) }
{
    check_table(Path::Top, top_keys(), &context_of_sends(&[]), top)?;
    let actors = items_at(top, "actor");
    check_entries(Part::Names, actor_entries, actors)?;
    check_entries(Part::Actors, actor_entries, actors)?;
    check_entries(Part::Sends, actor_entries, items_at(top, "send"))
}

/// The items of the array at a key; none where there is no array.
pub fn items_at<'a>(top: &'a Table, key: &str) -> &'a [Value]
    ensures { items_view result.now ≡ items_in (get_member key.now (table_view top.now)) }
{
    match value_at(top, key) {
        Some(value) => items_of(value),
        None => &[],
    }
}
