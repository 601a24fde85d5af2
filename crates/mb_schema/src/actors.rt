//! The checks of the tables of actors.

ghost use Rattle.std.specs.Prelude.{◌-◌, ◌<◌, ◌^◌, ◌++◌, map, option_map};
ghost use Rattle.toml.specs.View.{view, items_view, table_view};
ghost use Rattle.mb_schema.specs.Check.{actor_key_check, actor_table_check, each, row_check, rows_check};
ghost use Rattle.mb_schema.specs.Context.{context_data};
ghost use Rattle.mb_schema.specs.Format.{key_data};
ghost use Rattle.mb_schema.specs.Location.{Finds, first, path_text};

use crate::check::{check_key, check_table};
use crate::context::Context;
use crate::entries::no_table;
use crate::finding::Finding;
use crate::form::{Form, Rows};
use crate::key::KeySchema;
use crate::path::Path;
use crate::tables::{actor_keys, other_actor_keys, row_keys};
use crate::unknown::check_unknown;
use crate::value::{items_of, value_at};
use toml::{Table, Value};

/// Checks an actor, but for its name.
pub(crate) fn check_actor_table<'a>(
    actor: usize,
    context: &Context<'_>,
    table: &'a Table,
) -> Result<(), Finding<'a>>
    ensures { Finds result (actor_table_check (context_data context.now) (path_text (Path.Actor actor)) (table_view table.now)) }
{
    check_unknown(Path::Actor(actor), actor_keys(), table)?;
    check_actor_keys(actor, other_actor_keys(), context, table)
}

fn check_actor_keys<'a>(
    actor: usize,
    keys: &[KeySchema],
    context: &Context<'_>,
    table: &'a Table,
) -> Result<(), Finding<'a>>
    ensures { Finds result (first (map
        (actor_key_check (path_text (Path.Actor actor)) (context_data context.now) (table_view table.now)) (map key_data keys.now))) }
{
    for key in keys {
        check_actor_key(actor, key, context, table)?;
    }
    Ok(())
}

/// Checks a key of an actor, with its tables.
fn check_actor_key<'a>(
    actor: usize,
    key: &KeySchema,
    context: &Context<'_>,
    table: &'a Table,
) -> Result<(), Finding<'a>>
    ensures { Finds result (actor_key_check (path_text (Path.Actor actor)) (context_data context.now) (table_view table.now) (key_data key.now)) }
{
    check_key(Path::Actor(actor), key, context, table)?;
    check_rows_at(actor, key, context, value_at(table, key.name))
}

fn check_rows_at<'a>(
    actor: usize,
    key: &KeySchema,
    context: &Context<'_>,
    found: Option<&'a Value>,
) -> Result<(), Finding<'a>>
    ensures { Finds result (rows_check (context_data context.now) (path_text (Path.Actor actor) ++ key.now.name.now) key.now.form
        (option_map (λ v. view v.now) found.entry)) }
{
    match found {
        Some(value) => match key.form {
            Form::Rows(rows) => check_rows(actor, key.name, rows, context, items_of(value)),
            _ => Ok(()),
        },
        None => Ok(()),
    }
}

/// Checks the tables of an array within an actor.
fn check_rows<'a>(
    actor: usize,
    name: &'static str,
    rows: Rows,
    context: &Context<'_>,
    values: &'a [Value],
) -> Result<(), Finding<'a>>
    ensures { Finds result (first (each (row_check (context_data context.now) rows (path_text (Path.Actor actor) ++ name.now)) (items_view values.now))) }
{
    for (index, value) in values.iter().enumerate() {
        check_row(actor, name, index, rows, context, value)?;
    }
    Ok(())
}

fn check_row<'a>(
    actor: usize,
    name: &'static str,
    earlier: usize,
    rows: Rows,
    context: &Context<'_>,
    value: &'a Value,
) -> Result<(), Finding<'a>>
    requires { earlier < 2 ^ 64 - 1 }
    ensures { Finds result (row_check (context_data context.now) rows (path_text (Path.Actor actor) ++ name.now) earlier (view value.now)) }
{
    match value.as_table() {
        Some(table) => {
            let path = Path::Row(actor, name, earlier + 1);
            check_table(path, row_keys(rows), context, table)
        }
        None => Err(no_table(Path::Actor(actor), name, earlier + 1)),
    }
}
