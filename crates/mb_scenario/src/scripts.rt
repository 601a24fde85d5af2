//! Reading the scripts of the actors.

ghost use Rattle.std.specs.Prelude.{◌≡◌, IfOk, Some, map, option_map};
ghost use Rattle.toml.specs.View.{view, items_view};
ghost use Rattle.mb_schema.specs.Check.{items_in};
ghost use Rattle.mb_schema.specs.Context.{actor_entry_data};
ghost use Rattle.mb_schema.specs.OpView.{op_data};
ghost use Rattle.mb_schema.specs.Operation.{op_of};
ghost use Rattle.mb_schema.specs.Value.{text_of};
ghost use Rattle.mb_script.specs.Script.{row_data};
ghost use Rattle.mb_scenario.specs.Fields.{map_items};
ghost use Rattle.mb_scenario.specs.Scripts.{operation_of, operation_on, operations_in, scripted_row, scripted_of};

use crate::fields::{field, id_of, integer_or, number_or};
use mb_msg::ActorId;
use mb_schema::{ActorEntry, Op, Verb, items_of, op_of, text_of};
use mb_script::{Hooks, Operation, Row, Script};
use std::alloc::{AllocError, Global};
use toml::Value;

/// The actor of an entry, among these actors.
pub(crate) fn script_of(
    alloc: Global,
    actor_entries: &[ActorEntry<'_>],
    value: &Value,
) -> Result<Script, AllocError>
    ensures { IfOk result (λ script. script ≡ scripted_of (map actor_entry_data actor_entries.now) (view value.now)) }
{
    let hooks = Hooks {
        start: operations_in(alloc, actor_entries, field(value, "start"))?,
        restart: operations_in(alloc, actor_entries, field(value, "restart"))?,
        stop: operations_in(alloc, actor_entries, field(value, "stop"))?,
        terminated: terminated_of(alloc, actor_entries, field(value, "terminated"))?,
    };
    let rows = rows_of(alloc, actor_entries, items_found(field(value, "on")))?;
    Script::new(alloc, integer_or(0, field(value, "initial")), hooks, rows)
}

/// The items of the array; none where there is no array.
pub(crate) fn items_found(found: Option<&Value>) -> &[Value]
    ensures { items_view result.now ≡ items_in (option_map (λ v. view v.now) found.entry) }
{
    match found {
        Some(value) => items_of(value),
        None => &[],
    }
}

fn terminated_of(
    alloc: Global,
    actor_entries: &[ActorEntry<'_>],
    found: Option<&Value>,
) -> Result<Option<Vec<Operation>>, AllocError>
    ensures { IfOk result (λ o. option_map (λ operations. operations.items) o
        ≡ option_map (λ t. operations_in (map actor_entry_data actor_entries.now) (Some t)) (option_map (λ v. view v.now) found.entry)) }
{
    match found {
        Some(_) => {
            let operations = operations_in(alloc, actor_entries, found)?;
            Ok(Some(operations))
        }
        None => Ok(None),
    }
}

fn rows_of(
    alloc: Global,
    actor_entries: &[ActorEntry<'_>],
    values: &[Value],
) -> Result<Vec<Row>, AllocError>
    ensures { IfOk result (λ rows. map row_data rows.items ≡ map_items (scripted_row (map actor_entry_data actor_entries.now)) (items_view values.now)) }
{
    let mut rows = Vec::new(alloc);
    for value in values {
        let row = scripted_row(alloc, actor_entries, value)?;
        rows.push(row)?;
    }
    Ok(rows)
}

fn scripted_row(
    alloc: Global,
    actor_entries: &[ActorEntry<'_>],
    value: &Value,
) -> Result<Row, AllocError>
    ensures { IfOk result (λ row. row_data row ≡ scripted_row (map actor_entry_data actor_entries.now) (view value.now)) }
{
    let kind = number_or(0, field(value, "kind"));
    let operations = operations_in(alloc, actor_entries, field(value, "do"))?;
    Ok(Row { kind, operations })
}

fn operations_in(
    alloc: Global,
    actor_entries: &[ActorEntry<'_>],
    found: Option<&Value>,
) -> Result<Vec<Operation>, AllocError>
    ensures { IfOk result (λ operations. operations.items ≡ operations_in (map actor_entry_data actor_entries.now) (option_map (λ v. view v.now) found.entry)) }
{
    each_operation(alloc, actor_entries, items_found(found))
}

fn each_operation(
    alloc: Global,
    actor_entries: &[ActorEntry<'_>],
    values: &[Value],
) -> Result<Vec<Operation>, AllocError>
    ensures { IfOk result (λ operations. operations.items
        ≡ map_items (λ d. operation_of (map actor_entry_data actor_entries.now) (op_of (text_of d))) (items_view values.now)) }
{
    let mut operations = Vec::new(alloc);
    for value in values {
        operations.push(operation_of(actor_entries, op_of(text_of(value))))?;
    }
    Ok(operations)
}

fn operation_of(actor_entries: &[ActorEntry<'_>], op: Option<Op<'_>>) -> Operation
    ensures { result ≡ operation_of (map actor_entry_data actor_entries.now) (option_map op_data op.entry) }
{
    match op {
        Some(Op::Add) => Operation::Add,
        Some(Op::Fail(number)) => Operation::Fail(number),
        Some(Op::About(verb, name, number)) => operation_on(
            id_of(actor_entries, name),
            number,
            verb,
        ),
        Some(Op::Ignore) => Operation::Ignore,
        None => Operation::Ignore,
    }
}

/// The operation of this verb on an actor.
fn operation_on(to: ActorId, number: u32, verb: Verb) -> Operation
    ensures { result ≡ operation_on to number verb }
{
    match verb {
        Verb::Tell => Operation::Tell { to, kind: number },
        Verb::Control => Operation::Control { to, kind: number },
        Verb::Watch => Operation::Watch(to),
        Verb::Unwatch => Operation::Unwatch(to),
        Verb::Stop => Operation::Stop(to),
        Verb::Spawn => Operation::Spawn(to),
    }
}
