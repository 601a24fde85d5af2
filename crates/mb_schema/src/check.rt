//! The checks of one table.

ghost use Rattle.std.specs.Prelude.{◌≡◌, ◌++◌, if◌then◌else◌, is_some, map, option_map, Some};
ghost use Rattle.toml.specs.Data.{as_str};
ghost use Rattle.toml.specs.View.{view, items_view, table_view};
ghost use Rattle.mb_schema.specs.Check.{at, each, op_check, ops_check, key_check, table_check, unknown_check};
ghost use Rattle.mb_schema.specs.Context.{context_data};
ghost use Rattle.mb_schema.specs.Format.{key_data};
ghost use Rattle.mb_schema.specs.Operation.{op_of, op_reason};
ghost use Rattle.mb_schema.specs.Value.{text_of};
ghost use Rattle.mb_schema.specs.Location.{Finds, first, path_text, location_text};

use crate::context::Context;
use crate::finding::{Finding, Location, Reason};
use crate::form::Form;
use crate::key::KeySchema;
use crate::operation::{op_of, op_reason};
use crate::path::Path;
use crate::unknown::check_unknown;
use crate::value::{items_of, key_reason, text_of, value_at};
use toml::{Table, Value};

/// A finding at this place, where there is a reason for one.
pub(crate) fn report(place: Location<'_>, reason: Option<Reason>) -> Result<(), Finding<'_>>
    ensures { Finds result (option_map (at (location_text place.entry)) reason) }
{
    match reason {
        Some(reason) => Err(Finding { place, reason }),
        None => Ok(()),
    }
}

/// Checks a table: first for the least unknown key, then these keys in their order.
pub(crate) fn check_table<'a>(
    path: Path,
    keys: &[KeySchema],
    context: &Context<'_>,
    table: &'a Table,
) -> Result<(), Finding<'a>>
    ensures { Finds result (table_check
        (map key_data keys.now) (map key_data keys.now) (path_text path) (context_data context.now) (table_view table.now)) }
{
    check_unknown(path, keys, table)?;
    check_keys(path, keys, context, table)
}

fn check_keys<'a>(
    path: Path,
    keys: &[KeySchema],
    context: &Context<'_>,
    table: &'a Table,
) -> Result<(), Finding<'a>>
    ensures { Finds result (first (map (key_check (path_text path) (context_data context.now) (table_view table.now)) (map key_data keys.now))) }
{
    for key in keys {
        check_key(path, key, context, table)?;
    }
    Ok(())
}

/// Checks a key: its value, and then its operations.
pub(crate) fn check_key<'a>(
    path: Path,
    key: &KeySchema,
    context: &Context<'_>,
    table: &'a Table,
) -> Result<(), Finding<'a>>
    ensures { Finds result (key_check (path_text path) (context_data context.now) (table_view table.now) (key_data key.now)) }
{
    let found = value_at(table, key.name);
    report(
        Location::KeySchema(path, key.name),
        key_reason(context, table, key, found),
    )?;
    check_ops(path, key, context, found)
}

fn check_ops<'a>(
    path: Path,
    key: &KeySchema,
    context: &Context<'_>,
    found: Option<&'a Value>,
) -> Result<(), Finding<'a>>
    ensures { Finds result (ops_check (context_data context.now) (path_text path ++ key.now.name.now) key.now.form
        (option_map (λ v. view v.now) found.entry)) }
{
    match found {
        Some(value) => match key.form {
            Form::Operations { adds } => {
                check_each_op(path, key.name, adds, context, items_of(value))
            }
            _ => Ok(()),
        },
        None => Ok(()),
    }
}

fn check_each_op<'a>(
    path: Path,
    name: &'static str,
    adds: bool,
    context: &Context<'_>,
    values: &'a [Value],
) -> Result<(), Finding<'a>>
    ensures { Finds result (first (each (op_check (context_data context.now) adds (path_text path ++ name.now)) (items_view values.now))) }
{
    for (index, value) in values.iter().enumerate() {
        report(
            Location::Entry(path, name, index + 1),
            reason_of_op(context, adds, value),
        )?;
    }
    Ok(())
}

fn reason_of_op(context: &Context<'_>, adds: bool, value: &Value) -> Option<Reason>
    ensures { result ≡ (if is_some (as_str (view value.now))
        then op_reason (context_data context.now) adds (op_of (text_of (view value.now)))
        else Some Reason.WrongType) }
{
    if value.as_str().is_none() {
        return Some(Reason::WrongType);
    }
    op_reason(context, adds, op_of(text_of(value)))
}
