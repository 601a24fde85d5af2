//! Finding unknown keys.

ghost use Rattle.std.specs.Prelude.{◌≡◌, ◌++◌, map, option_copied};
ghost use Rattle.toml.specs.View.{table_view};
ghost use Rattle.mb_schema.specs.Check.{has_key, shown, unknown_check, unknown_key};
ghost use Rattle.mb_schema.specs.Format.{key_data};
ghost use Rattle.mb_schema.specs.Location.{Finds, path_text, location_text};

use crate::finding::{Finding, Location, Reason};
use crate::key::KeySchema;
use crate::name::is_name;
use crate::path::Path;
use toml::Table;

/// Checks that the table has no other keys than these. The finding is at the least other key.
pub(crate) fn check_unknown<'a>(
    path: Path,
    keys: &[KeySchema],
    table: &'a Table,
) -> Result<(), Finding<'a>>
    ensures { Finds result (unknown_check (path_text path) (map key_data keys.now) (table_view table.now)) }
{
    match unknown_key(keys, table) {
        Some(name) => Err(Finding {
            place: place_of(path, name),
            reason: Reason::UnknownKey,
        }),
        None => Ok(()),
    }
}

/// The place of a key that may be any text.
fn place_of(path: Path, name: &str) -> Location<'_>
    ensures { location_text result ≡ path_text path ++ shown name.now }
{
    if is_name(name.as_bytes()) {
        Location::KeySchema(path, name)
    } else {
        Location::Unnamed(path)
    }
}

/// The least key of the table that is none of these. A table's keys come in the order of their bytes.
fn unknown_key<'a>(keys: &[KeySchema], table: &'a Table) -> Option<&'a str>
    ensures { option_copied result ≡ unknown_key (map key_data keys.now) (table_view table.now) }
{
    for (name, _value) in table.iter() {
        if !has_key(keys, name.as_str()) {
            return Some(name.as_str());
        }
    }
    None
}

fn has_key(keys: &[KeySchema], name: &str) -> bool
    ensures { result ≡ has_key (map key_data keys.now) name.now }
{
    for key in keys {
        if key.name == name {
            return true;
        }
    }
    false
}
