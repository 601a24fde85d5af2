//! What the program says of a scenario beside the line of its fault.
use mb_scenario::ReadError;
use mb_schema::{
    Finding, Location, Path, Reason, actor_entries_of, check_document, items_at, items_of, op_of,
    value_at,
};
use mb_streams::ProgramError;
use std::alloc::{AllocError, Global};
use toml::{Table, Value};

/// More about this failure of the scenario of this text: lines, each with its end; nothing where there is no more to say.
pub(crate) fn details_of(
    alloc: Global,
    text: &[u8],
    error: &ProgramError,
) -> Result<String, AllocError> {
    match error {
        ProgramError::Input(ReadError::NotToml) => toml_fault(alloc, text),
        ProgramError::Input(ReadError::BadScenario { .. }) => scenario_fault(alloc, text),
        ProgramError::Input(ReadError::NoMemory)
        | ProgramError::Run(_)
        | ProgramError::Os
        | ProgramError::Arguments => Ok(String::new(alloc)),
    }
}

/// Where the text is not TOML, and why.
fn toml_fault(alloc: Global, text: &[u8]) -> Result<String, AllocError> {
    match toml::table_from_slice(alloc, text) {
        Err(error) => error.to_string(alloc),
        Ok(_) => Ok(String::new(alloc)),
    }
}

/// Which actor the place names, and what is wrong with an operation there.
fn scenario_fault(alloc: Global, text: &[u8]) -> Result<String, AllocError> {
    let Ok(top) = toml::table_from_slice(alloc, text) else {
        return Ok(String::new(alloc));
    };
    let actors = actor_entries_of(alloc, items_at(&top, "actor"))?;
    let Err(finding) = check_document(&top, &actors) else {
        return Ok(String::new(alloc));
    };
    let mut lines = match actor_in(finding.place) {
        Some(number) => actor_line(alloc, &top, number)?,
        None => String::new(alloc),
    };
    if let Some(line) = operation_line(alloc, &top, finding)? {
        lines.push_str(line.as_str())?;
    }
    Ok(lines)
}

/// The number of the actor whose table has this place.
fn actor_in(place: Location<'_>) -> Option<usize> {
    match path_of(place) {
        Path::Actor(number) | Path::Row(number, _, _) => Some(number),
        Path::Top | Path::Send(_) => None,
    }
}

fn path_of(place: Location<'_>) -> Path {
    match place {
        Location::KeySchema(path, _) | Location::Unnamed(path) | Location::Entry(path, _, _) =>
            path,
    }
}

/// The name of the actor of this number, counted from 1, if it has one.
fn actor_line(alloc: Global, top: &Table, number: usize) -> Result<String, AllocError> {
    let name = match item_at(items_at(top, "actor"), number) {
        Some(table) => value_at(table, "name"),
        None => None,
    };
    match name {
        Some(Value::String(name)) => format!(in alloc; "actor {number} is {name:?}\n"),
        _ => Ok(String::new(alloc)),
    }
}

/// The table at this place of an array, counted from 1.
fn item_at(items: &[Value], place: usize) -> Option<&Table> {
    items.get(place.checked_sub(1)?)?.as_table()
}

/// The operation that a finding is about, and what is wrong with it.
fn operation_line(
    alloc: Global,
    top: &Table,
    finding: Finding<'_>,
) -> Result<Option<String>, AllocError> {
    let Some(operation) = operation_at(top, finding.place) else {
        return Ok(None);
    };
    let why = match finding.reason {
        Reason::BadOp => fault_of(operation.as_bytes()),
        Reason::UnknownName => "no actor has this name",
        _ => return Ok(None),
    };
    Ok(Some(format!(in alloc; "{operation:?}: {why}\n")?))
}

/// The text of the operation at this place, if there is one.
fn operation_at<'a>(top: &'a Table, place: Location<'a>) -> Option<&'a str> {
    let Location::Entry(path, key, position) = place else {
        return None;
    };
    let actors = items_at(top, "actor");
    let table = match path {
        Path::Actor(number) => item_at(actors, number)?,
        Path::Row(number, rows, row) => {
            let actor = item_at(actors, number)?;
            item_at(items_of(value_at(actor, rows)?), row)?
        }
        Path::Top | Path::Send(_) => return None,
    };
    let operations = items_of(value_at(table, key)?);
    operations.get(position.checked_sub(1)?)?.as_str()
}

/// What is wrong with an operation.
fn fault_of(operation: &[u8]) -> &'static str {
    match op_of(operation) {
        None => form_fault(operation),
        Some(mb_schema::Op::Add) => "only a message has a value to add",
        Some(_) => "an actor spawns none but its children",
    }
}

/// Which form an operation with its first word has.
fn form_fault(operation: &[u8]) -> &'static str {
    let first = operation.split(|byte| *byte == b' ').next().unwrap_or(b"");
    match first {
        b"add" => "the form is `add`",
        b"ignore" => "the form is `ignore`",
        b"fail" => "the form is `fail NUMBER`, with a number of 32 bits",
        b"tell" => "the form is `tell NAME KIND`, with a kind of 32 bits",
        b"control" => "the form is `control NAME KIND`, with a kind of 32 bits",
        b"watch" => "the form is `watch NAME`",
        b"unwatch" => "the form is `unwatch NAME`",
        b"stop" => "the form is `stop NAME`",
        b"spawn" => "the form is `spawn NAME`",
        _ => "no operation begins with this word",
    }
}
