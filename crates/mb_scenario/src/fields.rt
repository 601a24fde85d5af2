//! Reading the keys of a checked document.

ghost use Rattle.std.specs.Prelude.{◌≡◌, ◌+◌, ◌<◌, map, option_map};
ghost use Rattle.toml.specs.View.{view};
ghost use Rattle.mb_schema.specs.Context.{actor_entry_data};
ghost use Rattle.mb_scenario.specs.Fields.{field, small, short, number_of_integer, number_or, integer_or, truth_or, number_from, id_of};

use mb_msg::ActorId;
use mb_schema::{ActorEntry, is_text, value_at};
use toml::Value;

/// The value at a key of a table.
pub(crate) fn field<'a>(value: &'a Value, key: &str) -> Option<&'a Value>
    ensures { option_map (λ v. view v.now) result ≡ field key.now (view value.now) }
{
    match value.as_table() {
        Some(table) => value_at(table, key),
        None => None,
    }
}

/// The number as one of 32 bits.
pub(crate) fn small(number: usize) -> u32
    ensures { result ≡ small number }
{
    if number <= 4_294_967_295 {
        number as u32
    } else {
        0
    }
}

/// The number as one of 16 bits.
fn short(number: usize) -> u16
    ensures { result ≡ short number }
{
    if number <= 65_535 { number as u16 } else { 0 }
}

fn number_of_integer(found: Option<i64>) -> u32
    ensures { result ≡ number_of_integer found }
{
    match found {
        Some(number) => {
            if 0 <= number && number <= 4_294_967_295 {
                number as u32
            } else {
                0
            }
        }
        None => 0,
    }
}

/// The number, or the default where there is none.
pub(crate) fn number_or(default: u32, found: Option<&Value>) -> u32
    ensures { result ≡ number_or default (option_map (λ v. view v.now) found.entry) }
{
    match found {
        Some(value) => number_of_integer(value.as_integer()),
        None => default,
    }
}

/// The integer, or the default where there is none.
pub(crate) fn integer_or(default: i64, found: Option<&Value>) -> i64
    ensures { result ≡ integer_or default (option_map (λ v. view v.now) found.entry) }
{
    match found {
        Some(value) => value.as_integer().unwrap_or(0),
        None => default,
    }
}

/// The boolean, or the default where there is none.
pub(crate) fn truth_or(default: bool, found: Option<&Value>) -> bool
    ensures { result ≡ truth_or default (option_map (λ v. view v.now) found.entry) }
{
    match found {
        Some(value) => value.as_bool().unwrap_or(false),
        None => default,
    }
}

/// The number of the actor with the name; 0, the guardian's, where there is none.
pub(crate) fn id_of(actor_entries: &[ActorEntry<'_>], name: &[u8]) -> ActorId
    ensures { result ≡ id_of (map actor_entry_data actor_entries.now) name.now }
{
    for (index, one) in actor_entries.iter().enumerate() {
        if is_text(one.name, name) {
            return ActorId(short(index + 1));
        }
    }
    ActorId(0)
}
