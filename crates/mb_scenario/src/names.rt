//! Reading the names of the actors.

ghost use Rattle.std.specs.Prelude.{◌≡◌, IfOk, map, string_bytes};
ghost use Rattle.toml.specs.View.{view, items_view};
ghost use Rattle.mb_schema.specs.Value.{text_of};
ghost use Rattle.mb_scenario.specs.Fields.{map_items};
ghost use Rattle.mb_scenario.specs.Plans.{name_of};

use crate::fields::field;
use std::alloc::{AllocError, Global};
use toml::Value;

/// The names of the actors, in order.
pub(crate) fn names_of(alloc: Global, values: &[Value]) -> Result<Vec<String>, AllocError>
    ensures { IfOk result (λ names. map string_bytes names.items ≡ map_items name_of (items_view values.now)) }
{
    let mut names = Vec::new(alloc);
    for value in values {
        let name = name_of(alloc, value)?;
        names.push(name)?;
    }
    Ok(names)
}

fn name_of(alloc: Global, value: &Value) -> Result<String, AllocError>
    ensures { IfOk result (λ name. string_bytes name ≡ name_of (view value.now)) }
{
    match field(value, "name") {
        Some(found) => owned_text(alloc, found),
        None => Ok(String::new(alloc)),
    }
}

fn owned_text(alloc: Global, value: &Value) -> Result<String, AllocError>
    ensures { IfOk result (λ text. string_bytes text ≡ text_of (view value.now)) }
{
    match value.as_str() {
        Some(text) => String::from_str(alloc, text),
        None => Ok(String::new(alloc)),
    }
}
